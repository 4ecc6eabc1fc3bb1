//! Laws over rounds in which the nodes take their turns in order of number.

ghost use Rattle.round_laws.specs.RoundsInOrder.{FleetsRestoreInOrder, OneWorkerGoesInOrder, OneWorkerRestoresInOrder, RoundsInOrderAreSweeps};

use mesh_laws::every_run;
use world_rules::every_world_run;

/// A round is in order where of what a node sends nothing is left in the ring of a node of a greater
/// number, and of what it sends in the round none of a lesser number takes anything. Over a topology
/// a round with one worker is (`one_worker`), and a whole round in order before which what stood in the rings was all
/// that was missing is a sweep of the mesh in order (`sweeps`). So after a failure of one group in a
/// calm and quiet fleet, each guarded call that is hit is restored once so many rounds in order are
/// over as its backup has hops, one, and one more for each of the hops to the nearest cut on which a
/// Notify goes up to a node of a lesser number; in these rounds no frame is dropped, and none is lost
/// or held back but frames that were sent before the failure (`soon`). So it is with one worker
/// (`alone`).
pub fn every_round_in_order()
    ensures one_worker { OneWorkerGoesInOrder }
    ensures sweeps { RoundsInOrderAreSweeps }
    ensures soon { FleetsRestoreInOrder }
    ensures alone { OneWorkerRestoresInOrder }
{
    every_run();
    every_world_run();
}
