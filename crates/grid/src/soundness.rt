// When a grid is sound (RULES, Refusals, 15), and the step of each row.
ghost use Rattle.std.specs.Prelude.{◌≡◌, ◌&&◌, ◌*◌, leb};
ghost use Rattle.refusal.specs.Checks.{answer_by};
ghost use Rattle.grid.specs.Soundness.{rows_sound, progress_sound, grid_sound, record_refusal, step_of};

use super::{Grid, Progress};
use columns::Window;
use refusal::{Refusal, require};
use std::marker::Model;

// The most cells that a tape has within ±L: 2^63 + 1.
const MOST_ON_A_TAPE: u64 = 0x8000_0000_0000_0001;

// A grid that is sound. In contracts it is that grid.
#[derive(Clone, Copy, Debug, PartialEq, Eq, Hash)]
pub struct SoundGrid {
    pub grid: Grid,
}

impl Model for SoundGrid {
    ghost use Rattle.std.specs.Prelude.{◌≡◌, true};
    ghost use Rattle.grid.specs.declared.Grid.{Grid};
    ghost use Rattle.grid.specs.Soundness.{grid_sound};

    ghost Value = { Grid };

    ghost view = { λ s. s.grid };

    ghost invariant = { λ s. grid_sound s.grid ≡ true };

    ghost inverse = { λ grid. record { grid = grid } };
}

// Whether rows of some height go into the picture's: a product of larger numbers is not made.
fn rows_within(rows: u64, row_px: u64, height: u64) -> bool
    ensures { result ≡ (leb 1 row_px && leb (rows * row_px) height) }
{
    1 <= row_px && rows <= height / row_px
}

impl Progress {
    // Whether no more rows are done than there are, and the written cells beside the window can be those of a tape.
    fn is_sound(self, rows: u64) -> bool
        ensures { result ≡ progress_sound self rows }
    {
        self.done <= rows && self.left <= MOST_ON_A_TAPE && self.right <= MOST_ON_A_TAPE
    }
}

impl Grid {
    // Whether there are rows, within the height, and the progress is sound.
    fn rows_sound(self) -> bool
        ensures { result ≡ rows_sound self }
    {
        1 <= self.stride
            && 1 <= self.rows
            && rows_within(self.rows, self.row_px, self.height)
            && self.progress.is_sound(self.rows)
    }

    #[tactic(auto, unfolding(crate::specs::Soundness::grid_sound))]
    fn is_sound(self) -> bool
        ensures { result ≡ grid_sound self }
    {
        limits::size_sound(self.width, self.height)
            && limits::symbols_sound(self.symbols)
            && self.rows_sound()
            && self.columns.is_sound(self.width)
    }

    // The grid as a sound one, or its refusal, 15.
    #[inline(always)]
    pub fn checked(self) -> Result<SoundGrid, Refusal>
        ensures { result ≡ answer_by (record_refusal self) self }
    {
        require(self.is_sound(), Refusal::Record)?;
        Ok(SoundGrid { grid: self })
    }

    // The step of a row. What a sum or a product that does not fit would be is past the last step.
    pub fn step(self, row: u64) -> u64
        ensures { result ≡ step_of self row }
    {
        self.first
            .saturating_add(self.stride.saturating_mul(row))
            .min(self.last)
    }
}

impl SoundGrid {
    // The window that the columns show.
    pub fn window(self) -> Window
        ensures { result.columns ≡ self.columns }
    {
        Window {
            columns: self.grid.columns,
        }
    }
}
