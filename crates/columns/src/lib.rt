// The columns of a picture: how its pixel columns map to the cells of a tape (RULES, Fit, Bins and Clicks).
//
// This file has pairs of numbers, extents, columns, of cells and of bins, when they are sound, and the window that they show; `tallies` has
// what runs of cells add to bins, `pixels` where a pixel, the head and a swept pair fall. Positions are in their offset form (crate position).
// A row's tallies cost O(runs + width) and never O(cells): a run is clipped to the window, one division finds its first bin, and a bin costs a
// few sums. No call keeps a place for the next one, so runs may come in any order.
//
// Bounds of one number (a width, `px`) are clauses, as limits says.
// specs/ says what is right, cell by cell. proofs/Laws.antt is the file to open for what follows from it: a pixel's cells, the head's and
// a swept pair's pixels, tallies and their sum; proofs/Soundness.antt has what sound columns give, proofs/Tally.antt the sums of overlaps.
#![tactic(auto)]

mod pixels;
pub mod tallies;

ghost use Rattle.std.specs.Prelude.{◌≡◌, ◌+◌, ◌≤◌, ◌<◌, ◌^◌};
ghost use Rattle.limits.specs.Limits.{max_side};
ghost use Rattle.position.specs.Position.{lowest};
ghost use Rattle.columns.specs.Window.{span_of, first_around, cells_around, bins_over, first_of, cells_in, window_of, sound_in};
ghost use Rattle.columns.specs.Inner.Usable.{Usable, Usable-prop};
ghost use Rattle.columns.specs.Inner.Extent.{IsExtent, IsExtent-prop};
ghost use Rattle.columns.specs.Inner.Swept.{clipped};

use position::{HIGHEST, LOWEST};

// The numbers low..high, both ends included: positions in their offset form, cells of a window, or pixel columns.
#[derive(Clone, Copy, Debug, PartialEq, Eq, Hash)]
pub struct Pair {
    pub low: u64,
    pub high: u64,
}

// A pair of positions in order, none of them above L. That none is below -L stays a clause where cells are laid around one: bins do not ask it.
#[derive(Clone, Copy, Debug, PartialEq, Eq, Hash)]
pub struct Extent {
    pub pair: Pair,
    ghost ordered: { IsExtent pair } by { IsExtent-prop pair },
}

// How pixel columns map to tape cells.
#[derive(Clone, Copy, Debug, PartialEq, Eq, Hash)]
pub enum Columns {
    // A cell for each `px` pixel columns: `count` cells from position `first`, from pixel column `x0` on.
    Cells {
        first: u64,
        count: u64,
        px: u64,
        x0: u64,
    },
    // A bin for each of `width` pixel columns, over `cells` cells from position `first`.
    Bins {
        first: u64,
        cells: u64,
        width: u64,
    },
}

// The window that columns show: columns that numbers can be worked out of, as those of a sound grid are.
#[derive(Clone, Copy, Debug, PartialEq, Eq, Hash)]
pub struct Window {
    pub columns: Columns,
    ghost usable: { Usable columns } by { Usable-prop columns },
}

impl Pair {
    // The cells of a window of `cells` cells from `first` that lie in a pair of positions, counted from `first`.
    pub(crate) fn clip(self, first: u64, cells: u64) -> Option<Pair>
        requires { (0 < cells) × (first + cells < 2 ^ 64) }
        ensures { result ≡ clipped first cells self.low self.high }
    {
        let low = self.low.max(first);
        let high = self.high.min(first + (cells - 1));
        if low <= high {
            Some(Pair {
                low: low - first,
                high: high - first,
            })
        } else {
            None
        }
    }
}

impl Extent {
    // The number of its cells.
    pub fn span(self) -> u64
        ensures { result ≡ span_of self.pair.low self.pair.high }
    {
        self.pair.high - self.pair.low + 1
    }

    // Where a window of `count` cells around it begins: it stands in the window's middle if it fits.
    fn first_around(self, count: u64) -> u64
        requires { (count ≤ max_side) × (lowest ≤ self.pair.low) }
        ensures { result ≡ first_around count self.pair.low self.pair.high }
    {
        let used = self.span();
        if used <= count {
            self.pair.low - (count - used) / 2
        } else {
            self.pair.low
        }
    }
}

impl Columns {
    // Cells of `px` pixels around an extent, in a window of the whole width.
    pub fn cells_around(width: u64, px: u64, extent: Extent) -> Columns
        requires { (1 ≤ px) × (px ≤ width) × (width ≤ max_side) × (lowest ≤ extent.pair.low) }
        ensures { result ≡ cells_around width px extent.pair.low extent.pair.high }
    {
        let count = width / px;
        Columns::Cells {
            first: extent.first_around(count),
            count,
            px,
            x0: (width - count * px) / 2,
        }
    }

    // A bin for each pixel column, over an extent.
    pub fn bins_over(width: u64, extent: Extent) -> Columns
        ensures { result ≡ bins_over width extent.pair.low extent.pair.high }
    {
        Columns::Bins {
            first: extent.pair.low,
            cells: extent.span(),
            width,
        }
    }

    // Whether columns are sound in a picture of a width (RULES, Refusals, 15).
    #[tactic(auto, unfolding(crate::specs::Window::sound_in))]
    pub fn is_sound(self, width: u64) -> bool
        requires { width ≤ max_side }
        ensures { result ≡ sound_in width self }
    {
        match self {
            Columns::Cells {
                first,
                count,
                px,
                x0,
            } => {
                (1..=width).contains(&px)
                    && count == width / px
                    && x0 == (width - count * px) / 2
                    && (LOWEST - 2047..=HIGHEST).contains(&first)
            }
            Columns::Bins {
                first,
                cells,
                width: bins,
            } => {
                bins == width
                    && width < cells
                    && cells <= limits::MAX_CELLS
                    && position::in_domain(first)
                    && first + (cells - 1) <= HIGHEST
            }
        }
    }
}

impl Window {
    // The window's first position.
    fn first(self) -> u64
        ensures { result ≡ first_of self.columns }
    {
        match self.columns {
            Columns::Cells { first, .. } | Columns::Bins { first, .. } => first,
        }
    }

    // How many cells the window has.
    fn cells(self) -> u64
        ensures { result ≡ cells_in self.columns }
    {
        match self.columns {
            Columns::Cells { count: cells, .. } | Columns::Bins { cells, .. } => cells,
        }
    }

    // The window's two ends.
    pub fn range(self) -> Pair
        ensures { result ≡ window_of self.columns }
    {
        let first = self.first();
        Pair {
            low: first,
            high: first + (self.cells() - 1),
        }
    }
}
