//! What the tests ask of their rows, and the calls over rows that answer it.

ghost use Rattle.std.specs.Prelude.{IsTrue};
ghost use Rattle.ason_base.specs.Walks.{HaveDistinctLinks, HaveFewEnds, HaveMetrics};

use ason_base::ids::NodeId;
use ason_base::network::TeRow;
use route_least::{Banned, Found, RouteFault, least};
use route_pair::{Pair, PairFault, pair};
use std::alloc::Global;

fn has_few_ends(rows: &[TeRow]) -> bool
    ensures { IsTrue result → HaveFewEnds rows.now }
{
    rows.len() <= 32
}

fn has_metrics(rows: &[TeRow]) -> bool
    ensures { IsTrue result → HaveMetrics rows.now }
{
    rows.iter().all(|row| (1..=65535).contains(&row.metric))
}

fn has_rising_links(rows: &[TeRow]) -> bool
    ensures { IsTrue result → HaveDistinctLinks rows.now }
{
    for place in 1..rows.len() {
        if rows[place].link.0 <= rows[place - 1].link.0 {
            return false;
        }
    }
    true
}

/// What `least` answers, if it may be asked.
pub(crate) fn least_over(
    alloc: Global,
    rows: &[TeRow],
    from: NodeId,
    to: NodeId,
    banned: &Banned,
) -> Option<Result<Found, RouteFault>> {
    if has_few_ends(rows) && has_metrics(rows) && has_rising_links(rows) {
        Some(least(alloc, rows, from, to, banned))
    } else {
        None
    }
}

/// What `pair` answers, if it may be asked.
pub(crate) fn pair_over(
    alloc: Global,
    rows: &[TeRow],
    from: NodeId,
    to: NodeId,
) -> Option<Result<Pair, PairFault>> {
    if has_few_ends(rows) && has_metrics(rows) && has_rising_links(rows) {
        Some(pair(alloc, rows, from, to))
    } else {
        None
    }
}
