// Where things fall: the cells that a pixel column locates to, and the pixel columns of the head and of a swept pair.
ghost use Rattle.std.specs.Prelude.{◌≡◌, ◌≤◌, ◌<◌};
ghost use Rattle.columns.specs.Window.{cells_in};
ghost use Rattle.columns.specs.Pixels.{left_pixel, end_pixel, beside, cells_of, located, head_on, head_at};
ghost use Rattle.columns.specs.Inner.Swept.{touched, swept_at};

use super::{Columns, Pair, Window};

impl Window {
    // The window's first pixel column.
    fn left_pixel(self) -> u64
        ensures { result ≡ left_pixel self.columns }
    {
        match self.columns {
            Columns::Cells { x0, .. } => x0,
            Columns::Bins { .. } => 0,
        }
    }

    // The first pixel column right of the window.
    fn end_pixel(self) -> u64
        ensures { result ≡ end_pixel self.columns }
    {
        match self.columns {
            Columns::Cells { count, px, x0, .. } => x0 + count * px,
            Columns::Bins { width, .. } => width,
        }
    }

    // Whether a pixel column is beside the window: in a margin of cells, or past the last bin.
    pub fn is_beside(self, x: u64) -> bool
        ensures { result ≡ beside self.columns x }
    {
        x < self.left_pixel() || self.end_pixel() <= x
    }

    // The positions of the cells of a pixel column that is not beside the window: one cell, or those that a bin covers, at least in part.
    fn cells_of(self, x: u64) -> Pair
        requires { (left_pixel self.columns ≤ x) × (x < end_pixel self.columns) }
        ensures { result ≡ cells_of self.columns x }
    {
        match self.columns {
            Columns::Cells { first, px, x0, .. } => {
                let position = first + (x - x0) / px;
                Pair {
                    low: position,
                    high: position,
                }
            }
            Columns::Bins {
                first,
                cells,
                width,
            } => {
                let border = x * cells;
                Pair {
                    low: first + border / width,
                    high: first + ((border + cells + (width - 1)) / width - 1),
                }
            }
        }
    }

    // The positions that a pixel column locates to: none beside the window.
    pub fn locate(self, x: u64) -> Option<Pair>
        ensures { result ≡ located self.columns x }
    {
        if self.is_beside(x) {
            None
        } else {
            Some(self.cells_of(x))
        }
    }

    // The pixel columns on which cells of the window lie.
    fn pixels_of(self, cells: Pair) -> Pair
        requires { (cells.low ≤ cells.high) × (cells.high < cells_in self.columns) }
        ensures { result ≡ touched self.columns cells }
    {
        match self.columns {
            Columns::Cells { px, x0, .. } => Pair {
                low: x0 + cells.low * px,
                high: x0 + cells.high * px + (px - 1),
            },
            Columns::Bins {
                cells: count,
                width,
                ..
            } => Pair {
                low: cells.low * width / count,
                high: (cells.high * width + (width - 1)) / count,
            },
        }
    }

    // The pixel columns of a head on cell `k` of the window: those of the cell, or the bin that holds the cell's middle.
    fn head_on(self, k: u64) -> Pair
        requires { k < cells_in self.columns }
        ensures { result ≡ head_on self.columns k }
    {
        match self.columns {
            Columns::Cells { .. } => self.pixels_of(Pair { low: k, high: k }),
            Columns::Bins { cells, width, .. } => {
                let bin = (2 * k + 1) * width / (2 * cells);
                Pair {
                    low: bin,
                    high: bin,
                }
            }
        }
    }

    // The pixel columns on which a head at a position is drawn: none outside the window.
    pub fn head(self, position: u64) -> Option<Pair>
        ensures { result ≡ head_at self.columns position }
    {
        let k = position.checked_sub(self.first())?;
        if k < self.cells() {
            Some(self.head_on(k))
        } else {
            None
        }
    }

    // The pixel columns that a swept pair touches: none where it misses the window.
    pub fn swept(self, pair: Pair) -> Option<Pair>
        ensures { result ≡ swept_at self.columns pair.low pair.high }
    {
        let inside = pair.clip(self.first(), self.cells())?;
        Some(self.pixels_of(inside))
    }
}
