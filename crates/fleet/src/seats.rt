//! Where each node's station stands, and where the links from it lead.

ghost use Rattle.std.specs.Prelude.{◌≡◌, IfOk};
ghost use Rattle.ason_base.specs.Network.{Network};
ghost use Rattle.fleet.specs.{Joining.AreNew, Standing.{AreSeats, IsSeat}};

use ason_base::{NodeId, OutOfMemory, Topology};
use station::Station;
use std::alloc::Global;

/// The far end of a link: the place of the other station, and there the place of the link back.
#[derive(Clone, Copy, Drop)]
pub struct End {
    pub station: usize,
    pub link: usize,
}

/// A node, and the far end of each of its links.
pub struct Seat {
    pub id: NodeId,
    pub ends: Vec<End>,
}

impl Drop for Seat {
    fn drop(self) {
        let Seat { id: _, ends: _ } = self;
    }
}

// The seat of a node: a link from it ends where a link back to it begins.
fn new_seat(alloc: Global, stations: &[Station], id: NodeId) -> Result<Seat, OutOfMemory>
    ensures id { IfOk result (λ s. s.id ≡ id) }
    ensures seat { IfOk result (λ s. (t : Network) → AreNew t stations.now → IsSeat t s) }
{
    let mut ends = Vec::new(alloc);
    for station in 0..stations.len() {
        if let Some(link) = stations[station].link_to(id) {
            ends.push(End { station, link })?;
        }
    }
    Ok(Seat { id, ends })
}

/// The seats of all nodes, in order of number, whose new stations these are.
pub(crate) fn new_seats(
    alloc: Global,
    t: &Topology,
    stations: &[Station],
) -> Result<Vec<Seat>, OutOfMemory>
    requires { AreNew t.now stations.now }
    ensures { IfOk result (λ v. AreSeats t.now v.items) }
{
    let mut seats = Vec::new(alloc);
    for node in t.nodes() {
        seats.push(new_seat(alloc, stations, node.id)?)?;
    }
    Ok(seats)
}
