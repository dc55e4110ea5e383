// Where a click lands (RULES, Clicks).
ghost use Rattle.std.specs.Prelude.{◌≡◌, [], ◌+◌, ◌*◌, ◌<◌, ◌≤◌, length, get_or};
ghost use Rattle.refusal.specs.Checks.{said_by};
ghost use Rattle.columns.specs.Window.{first_of, cells_in};
ghost use Rattle.grid.specs.Soundness.{step_of};
ghost use Rattle.grid.specs.Memory.{stored_cells};
ghost use Rattle.picture.specs.Clicks.{locate_refusal, location_at, clicked, locate_call, found_values, locate_said};

use columns::{Columns, Pair};
use grid::Grid;
use grid::soundness::SoundGrid;
use refusal::{Refusal, require};

#[derive(Clone, Copy, Debug, PartialEq, Eq, Hash)]
pub enum Location {
    // In cells: the row's step, the cell's position and the symbol stored for it.
    Cell {
        step: u64,
        position: i64,
        symbol: u8,
    },
    // In bins: the row's step and the positions that the bin covers, at least in part.
    Bin {
        step: u64,
        from: i64,
        to: i64,
    },
}

// The symbol stored for cell `cell` of a window of `count` cells, in row `row`.
fn stored(store: &[u8], row: u64, count: u64, cell: u64) -> u8
    requires { row * count + cell < length store.now }
    ensures { result ≡ get_or store.now (row * count + cell) 0 }
{
    store[(row * count + cell) as usize]
}

// What the positions found in a row show.
fn location_at(grid: SoundGrid, store: &[u8], row: u64, found: Pair) -> Location
    requires stored { length store.now ≡ grid.rows * stored_cells grid.columns }
    requires inside { (row < grid.rows) × (first_of grid.columns ≤ found.low) × (found.low < first_of grid.columns + cells_in grid.columns) }
    ensures { result ≡ location_at grid.columns (step_of grid row) row store.now found.low found.high }
{
    let step = grid.grid.step(row);
    match grid.grid.columns {
        Columns::Cells { first, count, .. } => Location::Cell {
            step,
            position: position::position(found.low),
            symbol: stored(store, row, count, found.low - first),
        },
        Columns::Bins { .. } => Location::Bin {
            step,
            from: position::position(found.low),
            to: position::position(found.high),
        },
    }
}

// What pixel (x, y) of a sound grid with its store shows: nothing below the rows done, nor beside the window.
// Grid and store stay two parameters. One struct of both was tried: it needs a model, and as a field of `Taken`, which has one too, the borrow check
// does not let it be lent. A pixel is its x and y, as C hands it: the one goes to the window, the other to the rows.
#[tactic(auto, unfolding(crate::specs::Clicks::clicked))]
pub(crate) fn shown(grid: SoundGrid, store: &[u8], x: u64, y: u64) -> Option<Location>
    requires { length store.now ≡ grid.rows * stored_cells grid.columns }
    ensures { result ≡ clicked grid store.now x y }
{
    let row = y / grid.grid.row_px;
    if grid.grid.progress.done <= row {
        return None;
    }
    let found = grid.window().locate(x)?;
    Some(location_at(grid, store, row, found))
}

// What pixel (x, y) shows, or the refusal: 15 or 8.
#[tactic(auto, unfolding(crate::specs::Clicks::locate_call, crate::specs::Clicks::locate_refusal))]
pub fn locate(grid: Grid, store: &[u8], x: u64, y: u64) -> Result<Option<Location>, Refusal>
    ensures { let values = found_values (clicked grid store.now x y) in
        (result ≡ locate_call grid store.now x y) × (locate_said result ≡ said_by (locate_refusal grid (length store.now)) ([], []) values) }
{
    let sound = grid.checked()?;
    require(sound.store_fits(store.len()), Refusal::StoreLength)?;
    Ok(shown(sound, store, x, y))
}
