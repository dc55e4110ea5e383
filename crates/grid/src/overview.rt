// Overviews: their steps, layout and checks (RULES, Fit). No sum is made that could wrap, whatever the total.
ghost use Rattle.std.specs.Prelude.{◌≡◌, ◌≤◌, None};
ghost use Rattle.refusal.specs.Checks.{allowed_by};
ghost use Rattle.grid.specs.Inner.Orders.{overview_order_refusal};
ghost use Rattle.grid.specs.Fit.{stride_for, rows_for, overview_layout, fit_overview};

use super::fitting::Layout;
use super::layouts::MOST_PX;
use super::{Grid, Progress, fitting};
use columns::{Columns, Extent, Pair};
use refusal::{Refusal, require};

// An overview's order. The extent is in its offset form.
#[derive(Clone, Copy, Debug, PartialEq, Eq, Hash)]
pub struct Overview {
    pub width: u64,
    pub height: u64,
    pub symbols: u64,
    pub total: u64,
    pub extent: Pair,
}

// The steps from a row to the next.
#[tactic(auto, using(crate::proofs::Steps::div_ceil_is))]
fn stride(height: u64, total: u64) -> u64
    requires { 1 ≤ height }
    ensures { result ≡ stride_for height total }
{
    if height == 1 {
        total.max(1)
    } else {
        total.div_ceil(height - 1).max(1)
    }
}

// How many rows there are: at most the height.
#[tactic(auto, using(crate::proofs::Steps::div_ceil_is))]
fn rows(height: u64, total: u64) -> u64
    requires { 1 ≤ height }
    ensures { result ≡ rows_for height total }
{
    if height == 1 {
        1
    } else {
        total.div_ceil(stride(height, total)) + 1
    }
}

// The refusal of an order, 1 to 4.
fn check(order: Overview) -> Result<(), Refusal>
    ensures { result ≡ allowed_by (overview_order_refusal order) }
{
    let Pair { low, high } = order.extent;
    let within = position::both_in_domain(low, high);
    require(limits::size_sound(order.width, order.height), Refusal::Size)?;
    require(limits::symbols_sound(order.symbols), Refusal::Symbols)?;
    require(within, Refusal::Position)?;
    require(low <= high, Refusal::Reversed)
}

// Cells if the extent is not wider than the picture, else bins.
fn layout(order: Overview) -> Layout
    requires { overview_order_refusal order ≡ None }
    ensures { result ≡ overview_layout order }
{
    let extent = Extent { pair: order.extent };
    let used = extent.span();
    if order.width < used {
        return Layout {
            columns: Columns::bins_over(order.width, extent),
            row_px: 1,
        };
    }
    let px = (order.width / used).clamp(1, MOST_PX);
    Layout {
        columns: Columns::cells_around(order.width, px, extent),
        row_px: (order.height / rows(order.height, order.total)).clamp(1, px),
    }
}

// An overview fitted to its order, or the order's refusal.
#[tactic(auto, unfolding(crate::specs::Fit::fit_overview, crate::specs::Fit::overview_refusal))]
pub(crate) fn fit(order: Overview) -> Result<Grid, Refusal>
    ensures { result ≡ fit_overview order }
{
    check(order)?;
    let Layout { columns, row_px } = layout(order);
    require(fitting::few_cells(columns), Refusal::Cells)?;
    Ok(Grid {
        width: order.width,
        height: order.height,
        symbols: order.symbols,
        exact: false,
        columns,
        row_px,
        rows: rows(order.height, order.total),
        first: 0,
        stride: stride(order.height, order.total),
        last: order.total,
        progress: Progress::default(),
    })
}
