// The sides of a sound tape, and the positions of a side's cells, the head's neighbour being cell 0. Which side it is comes as a flag, and no
// closure gives the edge: each function that took one would have to ask for the law that `edge` has of itself. Here SideFits is asked about the
// cells passed so far, which are others at each run, so no type holds it.
ghost use Rattle.std.specs.Prelude.{◌≡◌, true, false, cond};
ghost use Rattle.tape.specs.Inner.Sides.{edge, one_side, SideFits};

use super::reading::side;
use super::{Side, SoundSide, SoundTape};

impl<'a> SoundTape<'a> {
    // One side. The lengths of its runs are the one of the two lent lists that `side` hands back.
    fn one_side(&self, leftward: bool) -> SoundSide<'a>
        ensures { let tape = self.now.tape in
            result ≡ one_side leftward tape.head (cond leftward tape.left tape.right) }
    {
        let symbols = if leftward {
            self.left.symbols
        } else {
            self.right.symbols
        };
        SoundSide {
            leftward,
            head: self.head.position,
            runs: Side {
                symbols,
                lengths: side(self.left.lengths, self.right.lengths, leftward),
            },
        }
    }

    // The left side.
    pub fn left(&self) -> SoundSide<'a>
        ensures { result ≡ one_side true self.now.tape.head self.now.tape.left }
    {
        self.one_side(true)
    }

    // The right side.
    pub fn right(&self) -> SoundSide<'a>
        ensures { result ≡ one_side false self.now.tape.head self.now.tape.right }
    {
        self.one_side(false)
    }
}

// The position of the edge between a side's first `passed` cells and those further out.
pub fn edge(leftward: bool, head: u64, passed: u64) -> u64
    requires { SideFits leftward head passed }
    ensures { result ≡ edge leftward head passed }
{
    if leftward {
        head - passed
    } else {
        head + 1 + passed
    }
}
