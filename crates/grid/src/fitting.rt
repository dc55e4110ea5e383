// Fitting a picture to an order (RULES, Fit).
ghost use Rattle.std.specs.Prelude.{◌≡◌, [], ◌∷◌, map};
ghost use Rattle.refusal.specs.Checks.{said_by};
ghost use Rattle.position.specs.Position.{offset_of};
ghost use Rattle.grid.specs.Orders.{pair_of};
ghost use Rattle.grid.specs.Inner.Orders.{exact_of};
ghost use Rattle.grid.specs.Fit.{few_cells, exact_refusal, exact_grid, overview_refusal, overview_grid, fit_exact, fit_overview, fit_said};

use super::exact::ExactOrder;
use super::overview::Overview;
use super::{Grid, exact, overview};
use columns::{Columns, Pair};
use refusal::Refusal;

// Columns, and the pixel lines a row.
#[derive(Clone, Copy, Debug, PartialEq, Eq, Hash)]
pub struct Layout {
    pub columns: Columns,
    pub row_px: u64,
}

// Whether bins have no more cells than they may.
pub(crate) fn few_cells(columns: Columns) -> bool
    ensures { result ≡ few_cells columns }
{
    match columns {
        Columns::Cells { .. } => true,
        Columns::Bins { cells, .. } => cells <= limits::MAX_CELLS,
    }
}

// A pair of positions that may be missing, as C hands it over: a flag and two ends, which are not looked at where it is.
pub fn pair_of(given: bool, low: i64, high: i64) -> Option<Pair>
    ensures { result ≡ pair_of given low high }
{
    if given {
        Some(Pair {
            low: position::offset(low),
            high: position::offset(high),
        })
    } else {
        None
    }
}

// Fits an exact picture to its order: a row for each head, from step `first_step` on.
#[tactic(auto, unfolding(crate::specs::Fit::fit_exact))]
pub fn fit_exact(order: ExactOrder, heads: &[i64]) -> Result<Grid, Refusal>
    ensures { let order = exact_of order (map offset_of heads.now) in
        (result ≡ fit_exact order) × (fit_said result ≡ said_by (exact_refusal order) [] (exact_grid order ∷ [])) }
{
    exact::fit(order, heads)
}

// Fits an overview to its order: a row for each stride of steps up to `total`, over the extent's cells.
#[tactic(auto, unfolding(crate::specs::Fit::fit_overview))]
pub fn fit_overview(order: Overview) -> Result<Grid, Refusal>
    ensures { (result ≡ fit_overview order) × (fit_said result ≡ said_by (overview_refusal order) [] (overview_grid order ∷ [])) }
{
    overview::fit(order)
}
