// Equal pictures (RULES, Clicks). Of two grids some fields are compared and others not, so a derived `==` says another thing.
ghost use Rattle.std.specs.Prelude.{◌≡◌, ◌&&◌, cond, [], ◌∷◌, eqb};
ghost use Rattle.refusal.specs.Checks.{said_by};
ghost use Rattle.slices.specs.Same.{same};
ghost use Rattle.slices.specs.Tabulate.{tabulate};
ghost use Rattle.grid.specs.Soundness.{step_of};
ghost use Rattle.picture.specs.Equal.{equal_refusal, same_window, drawn_symbols, alike, equal_call, equal_said};

use super::{Lent, Taken};
use grid::{Grid, memory};
use refusal::Refusal;

// Whether a row of two pictures shows the same step.
fn same_step(grid: Grid, other: Grid, row: u64) -> bool
    ensures { result ≡ eqb (step_of grid row) (step_of other row) }
{
    grid.step(row) == other.step(row)
}

// Whether the first rows of two pictures show the same steps. Steps go up by a stride until the last step stops them: where the first two rows
// and the last of them have the same, so have those between.
fn same_steps(grid: Grid, other: Grid, rows: u64) -> bool
    ensures { result ≡ same (tabulate (step_of grid) rows) (tabulate (step_of other) rows) }
{
    if rows == 0 {
        return true;
    }
    let last = rows - 1;
    same_step(grid, other, 0) && same_step(grid, other, last.min(1)) && same_step(grid, other, last)
}

impl<'a> Taken<'a> {
    // Whether two pictures have the same size, window and number of drawn rows.
    fn same_frame(&self, other: &Taken<'_>) -> bool
        ensures { let grid = self.now.grid in
            let with = other.now.grid in
            let size = eqb grid.width with.width && eqb grid.height with.height in
            result ≡ (size && (same_window grid.columns with.columns && eqb grid.progress.done with.progress.done)) }
    {
        let grid = self.grid;
        let with = other.grid;
        grid.grid.width == with.grid.width
            && grid.grid.height == with.grid.height
            && grid.window().range() == with.window().range()
            && grid.grid.progress.done == with.grid.progress.done
    }

    // The symbols stored for the drawn rows. What the store holds behind them is not read.
    fn drawn_symbols(&self) -> &'a [u8]
        ensures { result.now ≡ drawn_symbols self.now.grid self.now.store }
    {
        let grid = self.grid;
        let drawn = grid.grid.progress.done * memory::stored_cells(grid.grid.columns);
        &self.store[..drawn as usize]
    }

    // Whether two pictures are equal: what is cheap to compare comes first.
    fn agrees(&self, other: &Taken<'_>) -> bool
        ensures { result ≡ alike self.now other.now }
    {
        let grid = self.grid;
        let with = other.grid;
        self.same_frame(other)
            && same_steps(grid.grid, with.grid, grid.grid.progress.done)
            && self.index == other.index
            && self.drawn_symbols() == other.drawn_symbols()
    }
}

impl<'a> Lent<'a> {
    // Whether two pictures are equal, or a refusal, the first one's before the second's.
    #[tactic(auto, unfolding(crate::specs::Equal::equal_call, crate::specs::Equal::equal_refusal))]
    pub fn equals(&self, other: &Lent<'_>) -> Result<bool, Refusal>
        ensures { let s = self.now in
            let t = other.now in
            (result ≡ equal_call s t) × (equal_said result ≡ said_by (equal_refusal s t) [] (cond (alike s t) 1 0 ∷ [])) }
    {
        let taken = self.check()?;
        let with = other.check()?;
        Ok(taken.agrees(&with))
    }
}
