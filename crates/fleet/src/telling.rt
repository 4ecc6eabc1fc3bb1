//! What stations are told where groups fail or are repaired.

ghost use Rattle.std.specs.Prelude.{◌≡◌, ◌==◌, ◌≤◌, ◌+◌, false, length};
ghost use Rattle.mesh_rules.specs.Failures.{all_news, changed_news};
ghost use Rattle.fleet.specs.Posting.{AreTold, HaveRoom, IsStationTold, news_for};

use crate::seats::Seat;
use ason_base::{Group, LinkSpec, NodeId, Topology};
use mesh_rules::failures::news_of;
use station::Station;

// Puts what the node is told of the link on the desk of its station. There is room for it.
fn tell_of(station: &mut Station, before: &[Group], after: &[Group], node: NodeId, link: &LinkSpec)
    requires apart { (link.now.low.0 == link.now.high.0) ≡ false }
    requires room { 1 ≤ station.old.spare }
    ensures told { IsStationTold (changed_news before.now after.now node.0 link.now)
        station.old station.new }
    ensures room { station.old.spare ≤ station.new.spare + 1 }
{
    match news_of(before, after, node, link) {
        None => {}
        Some(item) => match station.order(item) {
            Ok(()) => {}
            Err(_) => unreachable!(),
        },
    }
}

// Puts what the node is told of each link on the desk of its station, where other groups have failed than before.
// There is room for it.
fn tell(station: &mut Station, t: &Topology, before: &[Group], after: &[Group], node: NodeId)
    requires { length t.now.links ≤ station.old.spare }
    ensures { IsStationTold (all_news t.now before.now after.now node.0) station.old station.new }
{
    for link in t.links() {
        tell_of(station, before, after, node, link);
    }
}

/// Puts what each node is told on the desk of its station, where other groups have failed than before. There is room
/// for it.
pub(crate) fn tell_all(
    stations: &mut [Station],
    seats: &[Seat],
    t: &Topology,
    before: &[Group],
    after: &[Group],
)
    requires count { length stations.old ≡ length seats.now }
    requires room { HaveRoom (length t.now.links) stations.old }
    ensures { AreTold (news_for t.now before.now after.now) (length stations.old) seats.now
        stations.old stations.new }
{
    for place in 0..stations.len() {
        tell(&mut stations[place], t, before, after, seats[place].id);
    }
}
