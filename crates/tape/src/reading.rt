// Reading one symbol of a sound tape, its positions in the offset form.
ghost use Rattle.std.specs.Prelude.{◌≡◌, cond};
ghost use Rattle.tape.specs.Tape.{cell_of, symbol_at};

use super::{Side, SoundSide, SoundTape};

impl SoundSide<'_> {
    // The symbol of a cell, the head's neighbour being cell 0; outside all runs is blank. By index: the loop over `symbols.iter().zip(lengths).rev()`
    // was proved too, and with it `get` took 1.5 to 1.7 times as long at the far end of a side.
    fn cell(self, cell: u64) -> u8
        ensures { result ≡ cell_of self.entry.runs cell }
    {
        let Side { symbols, lengths } = self.runs;
        let mut left = cell;
        for i in (0..lengths.len()).rev() {
            if left < lengths[i] {
                return symbols[i];
            }
            left -= lengths[i];
        }
        0
    }
}

// The lengths of the side to search, left or right: the one of the two lent lists, handed back.
pub fn side<'a>(left: &'a [u64], right: &'a [u64], leftward: bool) -> &'a [u64]
    ensures { result.now ≡ cond leftward left.now right.now }
{
    if leftward { left } else { right }
}

impl SoundTape<'_> {
    // The symbol at a position.
    #[tactic(auto, unfolding(crate::specs::Tape::symbol_at))]
    pub fn symbol_at(&self, position: u64) -> u8
        ensures { result ≡ symbol_at self.now.tape position }
    {
        let head = self.head.position;
        if position < head {
            self.left().cell(head - (position + 1))
        } else if head < position {
            self.right().cell(position - (head + 1))
        } else {
            self.head.symbol
        }
    }
}
