// The heads of an exact picture's rows, and the least pair that holds them and the written pair (RULES, Fit).
ghost use Rattle.std.specs.Prelude.{◌≡◌, map, ◌≤◌, length, take};
ghost use Rattle.position.specs.Position.{offset_of, in_domain};
ghost use Rattle.std.specs.List.{list_all};
ghost use Rattle.grid.specs.Fit.{holding, holding_both};

use columns::Pair;

// Whether each head is within ±L.
pub(crate) fn heads_in_domain(heads: &[i64]) -> bool
    ensures { result ≡ list_all in_domain (map offset_of heads.now) }
{
    heads
        .iter()
        .all(|head| position::in_domain(position::offset(*head)))
}

// The least pair that holds the heads of the first rows. That there is a row is a clause, as limits says.
pub(crate) fn visited(heads: &[i64], rows: u64) -> Pair
    requires { (1 ≤ length heads.now) × (1 ≤ rows) }
    ensures { result ≡ holding (take rows (map offset_of heads.now)) }
{
    let shown = rows.min(heads.len() as u64) as usize;
    let first = position::offset(heads[0]);
    let mut low = first;
    let mut high = first;
    for head in &heads[1..shown] {
        let head = position::offset(*head);
        low = low.min(head);
        high = high.max(head);
    }
    Pair { low, high }
}

// The least pair that holds two pairs, the first of which may be missing.
pub(crate) fn holding_both(written: Option<Pair>, seen: Pair) -> Pair
    ensures { result ≡ holding_both written seen }
{
    match written {
        Some(pair) => Pair {
            low: pair.low.min(seen.low),
            high: pair.high.max(seen.high),
        },
        None => seen,
    }
}
