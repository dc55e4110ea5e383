// A row in bins: its tallies, run by run from the head outwards, and the shades of its bins. What a run adds does not depend on
// the runs before it. `first` and `cells` are two numbers, for the reason in columns (tallies.rt); the ends of a run of positions are two as well,
// the second one past the run, since std's range of them is not copied. A bound of one number is a clause, as limits says.
ghost use Rattle.std.specs.Prelude.{◌≡◌, ℕ, ◌+◌, ◌^◌, ◌≤◌, ◌<◌, length, get_or};
ghost use Rattle.limits.specs.Limits.{max_cells};
ghost use Rattle.tape.specs.Tape.{side_of};
ghost use Rattle.tape.specs.Inner.Sides.{one_side, ReadableSide, side_symbol};
ghost use Rattle.tape.specs.Checks.{total};
ghost use Rattle.columns.specs.Inner.Usable.{Usable};
ghost use Rattle.columns.specs.Bins as bins;
ghost use Rattle.columns.specs.Inner.Adding.{Takes, added};
ghost use Rattle.shade.specs.Shade.{tally_shade};
ghost use Rattle.slices.specs.Inner.Filled.{altered};
ghost use Rattle.line.specs.Inner.Tallying.{written_within, written_side};
ghost use Rattle.line.specs.Line.{written};

use super::sides;
use columns::{Columns, Pair};
use tape::{Side, SoundTape};

// Adds the positions `from` to `to` - 1, which all have one symbol: nothing if that is blank.
#[tactic(auto, using(crate::proofs::Walk::added_run))]
fn add_written(tallies: &mut [u64], first: u64, cells: u64, symbol: u8, from: u64, to: u64)
    requires { Takes first cells (2 ^ 63) tallies.old }
    ensures { tallies.new ≡ added first cells (written_within from to (λ p. symbol)) tallies.old }
{
    if symbol != 0 && from < to {
        let run = Pair {
            low: from,
            high: to - 1,
        };
        columns::tallies::add_run(tallies, first, cells, run);
    }
}

// Adds the runs on one side of the head. Inlined, so that the loop over each side knows which one it is. Not a `SoundSide`: with it a row in bins
// of 100000 runs took 6 % longer. It goes by index, since an iterator over both slices from their ends makes a row slower (sides.rt).
#[inline]
fn add_side(tallies: &mut [u64], first: u64, cells: u64, leftward: bool, head: u64, side: Side<'_>)
    requires takes { Takes first cells (2 ^ 62) tallies.old }
    requires readable { ReadableSide (one_side leftward head (side_of side.symbols.now side.lengths.now)) }
    ensures { let symbols = side.entry.symbols.now in
        let lengths = side.entry.lengths.now in
        tallies.new ≡ added first cells (written_side leftward head (total lengths) (side_symbol leftward head symbols lengths)) tallies.old }
{
    let Side { symbols, lengths } = side;
    let mut passed = 0;
    for i in (0..lengths.len()).rev() {
        let (low, high) = sides::positions(leftward, head, passed, lengths[i]);
        add_written(tallies, first, cells, symbols[i], low, high);
        passed += lengths[i];
    }
}

// The tallies of a row: each bin's overlaps with the written cells of the window.
pub(crate) fn row_tallies(tape: &SoundTape<'_>, tallies: &mut [u64], first: u64, cells: u64)
    requires { Usable (Columns.Bins first cells (length tallies.old)) }
    ensures { tallies.new ≡ bins.tallies (length tallies.old) cells (λ k. written tape.now.tape (first + k)) }
{
    let at = tape.head.position;
    tallies.fill(0);
    add_written(tallies, first, cells, tape.head.symbol, at, at + 1);
    add_side(tallies, first, cells, true, at, tape.left);
    add_side(tallies, first, cells, false, at, tape.right);
}

// A line's shades, one for each bin. By index: after a loop over a zip with `iter_mut` a proof knows nothing of the line, and an `enumerate` of one
// of the two indexes the other all the same.
#[tactic(auto, using(slices::proofs::Altered::altered_none, slices::proofs::Altered::altered_next))]
pub(crate) fn shade_bins(line: &mut [u8], tallies: &[u64], cells: u64)
    requires { (length tallies.now ≤ length line.old) × (cells ≤ max_cells) × ((v : ℕ) → get_or tallies.now v 0 ≤ cells) }
    ensures { let ts = tallies.now in
        line.new ≡ altered (λ v b. tally_shade (get_or ts v 0) cells) 0 (length ts) line.old }
{
    for (v, &tally) in tallies.iter().enumerate() {
        line[v] = shade::tally_shade(tally, cells);
    }
}
