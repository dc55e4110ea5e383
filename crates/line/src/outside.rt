// The written cells of a tape between two positions, run by run from the head outwards, so that the cost grows with the runs and never with
// the cells: how many a picture leaves out on either side of its window. `from` and `to` are two numbers: std's range of them is not copied.
ghost use Rattle.std.specs.Prelude.{◌≡◌};
ghost use Rattle.tape.specs.Checks.{total};
ghost use Rattle.tape.specs.Inner.Checks.{Readable};
ghost use Rattle.tape.specs.Inner.Sides.{side_symbol};
ghost use Rattle.line.specs.Line.{written};
ghost use Rattle.line.specs.Inner.Tallying.{written_within, written_side};
ghost use Rattle.line.specs.Inner.Counting.{counted};

use super::sides;
use tape::{Side, SoundSide, SoundTape};

// Of the positions `low` to `high` - 1, which all have one symbol, those of `from` to `to` - 1: none if that is blank.
fn count_run(symbol: u8, low: u64, high: u64, from: u64, to: u64) -> u64
    ensures { result ≡ counted from to (written_within low high (λ p. symbol)) }
{
    if symbol == 0 {
        0
    } else {
        high.min(to).saturating_sub(low.max(from))
    }
}

// The written cells of one side of the head at the positions `from` to `to` - 1. By index, like the walk that adds to tallies: what an iterator
// costs here stands in sides.rt.
fn count_side(side: SoundSide<'_>, from: u64, to: u64) -> u64
    ensures { let s = side.entry in
        let runs = s.runs in
        result ≡ counted from to (written_side s.leftward s.head (total runs.lengths) (side_symbol s.leftward s.head runs.symbols runs.lengths)) }
{
    let SoundSide {
        leftward,
        head,
        runs: Side { symbols, lengths },
    } = side;
    let mut sum = 0;
    let mut passed = 0;
    for i in (0..lengths.len()).rev() {
        let (low, high) = sides::positions(leftward, head, passed, lengths[i]);
        sum += count_run(symbols[i], low, high, from, to);
        passed += lengths[i];
    }
    sum
}

// The written cells of a tape at the positions `from` to `to` - 1.
pub fn count_between(tape: &SoundTape<'_>, from: u64, to: u64) -> u64
    ensures value { result ≡ counted from to (written tape.now.tape) }
    ensures readable { Readable tape.now.tape }
{
    let at = tape.head.position;
    let here = count_run(tape.head.symbol, at, at + 1, from, to);
    let left = count_side(tape.left(), from, to);
    let right = count_side(tape.right(), from, to);
    here + left + right
}
