// Exact pictures: their orders, checks and grid (RULES, Fit). The layout is in `layouts`.
ghost use Rattle.std.specs.Prelude.{◌≡◌, map};
ghost use Rattle.refusal.specs.Checks.{allowed_by};
ghost use Rattle.position.specs.Position.{offset_of};
ghost use Rattle.grid.specs.Orders.{held_px, row_limit, pair_in_domain, pair_ordered};
ghost use Rattle.grid.specs.Inner.Orders.{exact_of, exact_order_refusal};
ghost use Rattle.grid.specs.Fit.{fit_exact};

use super::fitting::Layout;
use super::layouts::Accepted;
use super::{Grid, Progress, extent, fitting};
use columns::Pair;
use refusal::{Refusal, require};

// An exact picture's order but for its heads. These are lent beside it: with them it would need a model, as `Accepted` has, and each clause about an
// order would go through that. With no size its cells get the largest that fits. The written pair is in its offset form.
#[derive(Clone, Copy, Debug, PartialEq, Eq, Hash)]
pub struct ExactOrder {
    pub width: u64,
    pub height: u64,
    pub symbols: u64,
    pub first_step: u64,
    pub size: Option<u32>,
    pub written: Option<Pair>,
    pub halted: bool,
}

// A given size held to 1..min(width, height). By min and max: `clamp` asks that 1 is no more than its upper bound, and no size is checked yet.
pub(crate) fn held_px(width: u64, height: u64, px: u64) -> u64
    ensures { result ≡ held_px width height px }
{
    px.min(width.min(height)).max(1)
}

// How many heads there may be. Width and height are two numbers, as limits tests them, before anything is known of them.
fn row_limit(width: u64, height: u64, size: Option<u32>) -> u64
    ensures { result ≡ row_limit width height size }
{
    match size {
        Some(px) => height / held_px(width, height, u64::from(px)),
        None => height,
    }
}

// Whether both ends of a pair that may be missing are within ±L.
fn pair_in_domain(written: Option<Pair>) -> bool
    ensures { result ≡ pair_in_domain written }
{
    written.is_none_or(|pair| position::both_in_domain(pair.low, pair.high))
}

// Whether a pair that may be missing is not reversed.
fn pair_ordered(written: Option<Pair>) -> bool
    ensures { result ≡ pair_ordered written }
{
    written.is_none_or(|pair| pair.low <= pair.high)
}

// The refusal of an order, 1 to 5.
fn check(order: ExactOrder, heads: &[i64]) -> Result<(), Refusal>
    ensures { result ≡ allowed_by (exact_order_refusal (exact_of order (map offset_of heads.now))) }
{
    let count = heads.len() as u64;
    let limit = row_limit(order.width, order.height, order.size);
    let within = extent::heads_in_domain(heads) && pair_in_domain(order.written);
    require(limits::size_sound(order.width, order.height), Refusal::Size)?;
    require(limits::symbols_sound(order.symbols), Refusal::Symbols)?;
    require(within, Refusal::Position)?;
    require(pair_ordered(order.written), Refusal::Reversed)?;
    require((1..=limit).contains(&count), Refusal::Heads)
}

// An exact picture fitted to its order, or the order's refusal.
#[tactic(auto, unfolding(crate::specs::Fit::fit_exact, crate::specs::Fit::exact_refusal))]
pub(crate) fn fit(order: ExactOrder, heads: &[i64]) -> Result<Grid, Refusal>
    ensures { result ≡ fit_exact (exact_of order (map offset_of heads.now)) }
{
    check(order, heads)?;
    let accepted = Accepted { order, heads };
    let Layout { columns, row_px } = accepted.layout();
    require(fitting::few_cells(columns), Refusal::Cells)?;
    Ok(Grid {
        width: order.width,
        height: order.height,
        symbols: order.symbols,
        exact: true,
        columns,
        row_px,
        rows: (heads.len() as u64).min(order.height / row_px),
        first: order.first_step,
        stride: 1,
        last: u64::MAX,
        progress: Progress::default(),
    })
}
