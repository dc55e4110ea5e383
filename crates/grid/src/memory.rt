// The memory that is lent with a sound grid: an index of width × height bytes, and a store of the cells of each row (RULES, Refusals, 7
// and 8). Every call that is lent one of them tests it here.
ghost use Rattle.std.specs.Prelude.{◌≡◌};
ghost use Rattle.grid.specs.Memory.{stored_cells, index_fits, store_fits};

use super::soundness::SoundGrid;
use columns::Columns;

// The cells that a row stores.
pub fn stored_cells(columns: Columns) -> u64
    ensures { result ≡ stored_cells columns }
{
    match columns {
        Columns::Cells { count, .. } => count,
        Columns::Bins { .. } => 0,
    }
}

impl SoundGrid {
    // Whether an index of this length is the picture's.
    #[tactic(auto, using(crate::proofs::Sound::pixels_most))]
    pub fn index_fits(self, index: usize) -> bool
        ensures { result ≡ index_fits self index }
    {
        index as u64 == self.grid.width * self.grid.height
    }

    // Whether a store of this length is the picture's.
    #[tactic(auto, using(crate::proofs::Sound::stored_in_all))]
    pub fn store_fits(self, store: usize) -> bool
        ensures { result ≡ store_fits self store }
    {
        store as u64 == self.grid.rows * stored_cells(self.grid.columns)
    }
}
