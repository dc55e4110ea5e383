// The layout of an exact picture whose order passed its checks: cells of a given size or of the largest that fits, or bins (RULES, Fit). Bounds of one
// number (`rows`, `px`) are clauses, as limits says.
ghost use Rattle.std.specs.Prelude.{◌≡◌, map, ◌≤◌, min, MatchOption, None};
ghost use Rattle.position.specs.Position.{offset_of, lowest};
ghost use Rattle.grid.specs.Orders.{Exact};
ghost use Rattle.grid.specs.Inner.Orders.{exact_of, exact_order_refusal};
ghost use Rattle.grid.specs.Fit.{visited, holding_both, extent, wanted_of, fits, largest, given_layout, largest_layout, layout_of};

use super::exact::ExactOrder;
use super::fitting::Layout;
use super::{exact, extent};
use columns::{Columns, Extent};
use std::marker::Model;

// The most pixels that a cell has where no size is given.
pub(crate) const MOST_PX: u64 = 8;

// How many rows a picture of a machine that did not halt shows at least, if there are as many heads.
const WANTED_ROWS: u64 = 32;

// An exact order that passed its checks, with its heads.
#[derive(Drop)]
pub(crate) struct Accepted<'a> {
    pub(crate) order: ExactOrder,
    pub(crate) heads: &'a [i64],
}

impl<'a> Model for Accepted<'a> {
    ghost Value = { Exact };

    ghost view = { λ a. exact_of a.order (map offset_of a.heads.now) };

    ghost invariant = { λ a. exact_order_refusal (exact_of a.order (map offset_of a.heads.now)) ≡ None };
}

// The rows that an order wants to see at least: all if the machine halted.
fn wanted(halted: bool, count: u64) -> u64
    ensures { result ≡ wanted_of halted count }
{
    if halted {
        count
    } else {
        count.min(WANTED_ROWS)
    }
}

impl Accepted<'_> {
    // The least extent that holds the heads of the first rows.
    fn visited(&self, rows: u64) -> Extent
        requires { 1 ≤ rows }
        ensures value { result.pair ≡ visited self.now rows }
        ensures within { lowest ≤ result.pair.low }
    {
        let pair = extent::visited(self.heads, rows);
        Extent { pair }
    }

    // The least extent that holds the written pair and an extent.
    fn with_written(&self, seen: Extent) -> Extent
        requires { lowest ≤ seen.pair.low }
        ensures value { result.pair ≡ holding_both self.now.written seen.pair }
        ensures within { lowest ≤ result.pair.low }
    {
        let pair = extent::holding_both(self.order.written, seen.pair);
        Extent { pair }
    }

    // The least extent that holds the written pair and the heads of the first rows.
    fn extent(&self, rows: u64) -> Extent
        requires { 1 ≤ rows }
        ensures value { result.pair ≡ extent self.now rows }
        ensures within { lowest ≤ result.pair.low }
    {
        self.with_written(self.visited(rows))
    }

    // Whether cells of `px` show what is wanted.
    fn fits(&self, px: u64) -> bool
        requires { (1 ≤ px) × (px ≤ self.now.height) }
        ensures { result ≡ fits self.now px }
    {
        let order = self.order;
        let rows = order.height / px;
        if rows < wanted(order.halted, self.heads.len() as u64) {
            return false;
        }
        self.extent(rows).span() <= order.width / px
    }

    // The largest size that fits, of at most 8 pixels. By a loop: with `find` over the same range the fits that are timed took up to 4 tenths longer.
    fn largest_px(&self) -> Option<u64>
        ensures { let px = largest (fits self.now) (min 8 self.now.height) in
            MatchOption result (px ≡ 0) (λ found. (px ≡ found) × (1 ≤ found)) }
    {
        for px in (1..=MOST_PX.min(self.order.height)).rev() {
            if self.fits(px) {
                return Some(px);
            }
        }
        None
    }

    // Cells of a given size: around all that is to be shown if it fits, else around the heads alone.
    fn given_layout(&self, px: u64) -> Layout
        requires { (1 ≤ px) × (px ≤ self.now.width) × (px ≤ self.now.height) }
        ensures { result ≡ given_layout self.now px }
    {
        let order = self.order;
        let seen = self.visited(order.height / px);
        let whole = self.with_written(seen);
        let shown = if whole.span() <= order.width / px {
            whole
        } else {
            seen
        };
        Layout {
            columns: Columns::cells_around(order.width, px, shown),
            row_px: px,
        }
    }

    // Cells of the largest size that fits, bins where none does.
    fn largest_layout(&self) -> Layout
        ensures { result ≡ largest_layout self.now (largest (fits self.now) (min 8 self.now.height)) }
    {
        let order = self.order;
        match self.largest_px() {
            Some(px) => {
                let extent = self.extent(order.height / px);
                Layout {
                    columns: Columns::cells_around(order.width, px, extent),
                    row_px: px,
                }
            }
            None => {
                let extent = self.extent(order.height);
                Layout {
                    columns: Columns::bins_over(order.width, extent),
                    row_px: 1,
                }
            }
        }
    }

    // The layout by the order's size.
    #[tactic(auto, unfolding(crate::specs::Fit::layout_of))]
    pub(crate) fn layout(&self) -> Layout
        ensures { result ≡ layout_of self.now }
    {
        let order = self.order;
        match order.size {
            Some(px) => {
                let px = exact::held_px(order.width, order.height, u64::from(px));
                self.given_layout(px)
            }
            None => self.largest_layout(),
        }
    }
}
