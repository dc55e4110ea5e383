// The tallies of bins: a lent slice with a number for each bin, in units of 1 / width cell, its length being the width. They stay beside
// `first` and `cells`: a struct of the three would hold the bound of Takes, which is another one in each function. Nor are `first` and `cells` a
// struct: that was tried, and each function still has to ask what Takes says of the tallies, so it is no plainer; and a `Window` holds more than
// is asked here, fewer bins than cells. A bound of one number is a clause, as limits says.
ghost use Rattle.std.specs.Prelude.{◌≡◌, ℕ, ◌+◌, ◌≤◌, ◌<◌, ◌^◌, length, get_or};
ghost use Rattle.limits.specs.Limits.{max_side, max_cells};
ghost use Rattle.columns.specs.Bins.{units_of};
ghost use Rattle.columns.specs.Inner.Adding.{Takes, with_cells, with_positions};

use super::Pair;

// Adds to each bin's tally its overlap with a run of the window's cells, in units of 1 / width cell.
// One division finds the first bin, and each bin's right border is the last one's and the cells of a bin.
pub fn add_to_bins(tallies: &mut [u64], cells: u64, run: Pair)
    requires { (length tallies.old ≤ max_side) × (run.low ≤ run.high) × (run.high < cells) × (cells ≤ max_cells) × ((v : ℕ) → get_or tallies.old v 0 < 2 ^ 63) }
    ensures { tallies.new ≡ with_cells cells run.low run.high tallies.old }
{
    let width = tallies.len() as u64;
    let end = run.high * width + width;
    let mut at = run.low * width;
    let first = at / cells;
    let mut border = first * cells + cells;
    for tally in &mut tallies[first as usize..] {
        if end <= border {
            *tally += end - at;
            break;
        }
        *tally += border - at;
        at = border;
        border += cells;
    }
}

// Adds to each bin's tally its overlaps with those cells of the window from `first` that lie in a run of positions.
#[tactic(auto, using(crate::proofs::Positions::positions_run, crate::proofs::Positions::positions_none))]
pub fn add_run(tallies: &mut [u64], first: u64, cells: u64, run: Pair)
    requires { Takes first cells (2 ^ 63) tallies.old }
    ensures { tallies.new ≡ with_positions first cells run.low run.high tallies.old }
{
    if let Some(inside) = run.clip(first, cells) {
        add_to_bins(tallies, cells, inside);
    }
}

// The units that a row's tallies hold: their sum.
#[tactic(auto, using(crate::proofs::Sums::units_sum, crate::proofs::Sums::units_fit))]
pub fn units(tallies: &[u64]) -> u64
    requires { (length tallies.now ≤ max_side) × ((v : ℕ) → get_or tallies.now v 0 ≤ max_cells) }
    ensures { result ≡ units_of tallies.now }
{
    tallies.iter().sum()
}
