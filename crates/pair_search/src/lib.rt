//! The best pair of disjoint routes, with a certificate that shows that none is better, and a checker of certificates.
//! The least primary may leave no backup, or a costly one.
//!
//! A pair (`IsPair`) is two routes without a repeated node that are risk-disjoint and share no inner node. The primary
//! costs no more than the backup.
//!
//! - `best`: Ok is the best pair (`best`, by `IsBest`), and its certificate certifies the total. Each other pair has a
//!   greater total, or the same total and a greater list of primary links. If these lists are the same too, its list of
//!   backup links is no lesser (`IsAsGood`).
//! - Its faults (`fault`, by `IsBestFault`): `TooLarge` comes only when there are more than 24 rows, or more than 16
//!   nodes are their ends. Then Ok never comes (`small`). `NoPair` comes only when there is no pair, with a certificate
//!   of that.
//! - `Certifies`: a certificate has bounds of the cost from each node to the end (`AreBounds`), and a tree of prefixes
//!   of routes (`TreeHolds`). The tree shows why no route that begins so makes a better pair.
//! - `verify`: true exactly when the certificate certifies the total, or, without a total, that there is no pair
//!   (`certifies`). It is the function `passes` (`checks`), and shares no code with the search.
//! - `best` asks for metrics of 1 to 65,535 (`metrics`). Both ask that no link is in two rows.
//! - Law `certificates_are_right`: if a certificate certifies a total, no pair has a lesser one. If it certifies
//!   without a total, there is no pair.
//! - Law `checks_are_exact`: the checks of `verify` pass exactly when the certificate certifies.
//!
//! Tested: nothing.
//! Neither proved nor tested: how long the search takes, and how large a certificate gets.
#![tactic(auto)]

ghost use Rattle.std.specs.Prelude.{IfErr, IfOk, OnOk};
ghost use Rattle.ason_base.specs.Walks.{HaveDistinctLinks, HaveMetrics};
ghost use Rattle.pair_search.specs.Answers.{IsBest, IsBestFault, IsSmall};

pub mod answers;
pub mod cert;
mod checker;
pub mod laws;
mod limits;
mod pairs;
mod partners;
mod prefixes;

pub use answers::{Best, BestFault};
use ason_base::{NodeId, TeRow};
pub use cert::{Cert, Children, Tree};
pub use checker::verify;
pub use laws::{certificates_are_right, checks_are_exact};
use limits::is_small;
use prefixes::{found_or_none, search_rows};
use route_least::RouteNetwork;
use std::alloc::Global;

/// The best of all pairs of routes without a repeated node that are risk-disjoint and share no inner node, and what
/// shows that none is better. Metrics are 1 to 65,535, and no link is in two rows.
pub fn best(alloc: Global, rows: &[TeRow], from: NodeId, to: NodeId) -> Result<Best, BestFault>
    requires metrics { HaveMetrics rows.now }
    requires links { HaveDistinctLinks rows.now }
    ensures best { IfOk result (IsBest rows.now from to) }
    ensures small { OnOk result (IsSmall rows.now) }
    ensures fault { IfErr result (IsBestFault rows.now from to) }
{
    if !is_small(alloc, rows)? {
        return Err(BestFault::TooLarge);
    }
    let network = RouteNetwork::new(alloc, rows)?;
    let (pair, cert) = search_rows(alloc, &network, rows, from, to)?;
    found_or_none(pair, cert)
}
