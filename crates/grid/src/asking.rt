// Asking a picture for a row and for the range of its window (RULES, Clicks).
ghost use Rattle.std.specs.Prelude.{◌≡◌, []};
ghost use Rattle.refusal.specs.Checks.{said_by};
ghost use Rattle.grid.specs.Soundness.{record_refusal};
ghost use Rattle.grid.specs.Asking.{row_lines_call, line_values, lines_said, range_call, range_values, range_said};

use super::Grid;
use refusal::Refusal;

// A row's step, its first pixel line and the line past its last.
#[derive(Clone, Copy, Debug, PartialEq, Eq, Hash)]
pub struct Lines {
    pub step: u64,
    pub from: u64,
    pub to: u64,
}

// The positions at a window's two ends, as C takes them. No `Pair`, whose ends are offset forms, and no pair of any type, since
// no function is written for both.
#[derive(Clone, Copy, Debug, PartialEq, Eq, Hash)]
pub struct Ends {
    pub low: i64,
    pub high: i64,
}

// A row's step and lines: nothing from the number of rows on.
#[tactic(auto, using(crate::proofs::Sound::lines_most), unfolding(crate::specs::Asking::row_lines_call))]
pub fn row_lines(grid: Grid, row: u64) -> Result<Option<Lines>, Refusal>
    ensures { (result ≡ row_lines_call grid row) × (lines_said result ≡ said_by (record_refusal grid) [] (line_values grid row)) }
{
    grid.checked()?;
    if grid.rows <= row {
        return Ok(None);
    }
    let from = row * grid.row_px;
    Ok(Some(Lines {
        step: grid.step(row),
        from,
        to: from + grid.row_px,
    }))
}

// The positions at the window's two ends.
#[tactic(auto, unfolding(crate::specs::Asking::range_call))]
pub fn range(grid: Grid) -> Result<Ends, Refusal>
    ensures { (result ≡ range_call grid) × (range_said result ≡ said_by (record_refusal grid) [] (range_values grid)) }
{
    let window = grid.checked()?.window().range();
    Ok(Ends {
        low: position::position(window.low),
        high: position::position(window.high),
    })
}
