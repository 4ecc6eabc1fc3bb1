//! The least route and the least pair over rows, which the program asks of a network that it has prepared.

use crate::row_checks::{least_over, pair_over};
use ason_base::ids::{LinkId, NodeId, OutOfMemory};
use ason_base::lists::Srlgs;
use ason_base::network::TeRow;
use route_least::{Banned, Found, LinkIds, NodeIds};
use std::alloc::Global;
use std::test::Fail;

const FROM: NodeId = NodeId(1);

const TO: NodeId = NodeId(2);

/// Parallel links: the number of each, and its metric.
const LINKS: &[(u32, u32)] = &[(4, 7), (6, 8)];

fn rows_of(alloc: Global) -> Result<Vec<TeRow>, OutOfMemory> {
    let mut rows = Vec::new(alloc);
    for (link, metric) in LINKS {
        rows.push(TeRow {
            link: LinkId(*link),
            low: FROM,
            high: TO,
            metric: *metric,
            srlgs: Srlgs::new(alloc),
        })?;
    }
    Ok(rows)
}

// Whether the route goes over just one link, at this cost.
fn is_over(found: &Found, cost: u32) -> bool {
    found.route.items().len() == 1 && found.cost == cost
}

fn is_least(alloc: Global, rows: &[TeRow]) -> bool {
    let banned = Banned {
        links: LinkIds::new(alloc),
        nodes: NodeIds::new(alloc),
    };
    match &least_over(alloc, rows, FROM, TO, &banned) {
        Some(Ok(found)) => is_over(found, 7),
        _ => false,
    }
}

fn is_pair(alloc: Global, rows: &[TeRow]) -> bool {
    match &pair_over(alloc, rows, FROM, TO) {
        Some(Ok(pair)) => is_over(&pair.primary, 7) && is_over(&pair.backup, 8),
        _ => false,
    }
}

#[test]
fn routes_are_found(rt: HostRuntime) -> Result<(), Fail> {
    let rows = rows_of(rt.alloc())?;
    assert!(rt; is_least(rt.alloc(), &rows) && is_pair(rt.alloc(), &rows));
    Ok(())
}
