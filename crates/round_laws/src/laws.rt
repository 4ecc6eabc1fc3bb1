//! Laws over whole rounds.

ghost use Rattle.round_laws.specs.{FleetLaw.{FleetsRestoreSoon, QuietHasAll, RecordsAreReached, SinceAreWhole}, GoingOn.MergesGoOn, WholeRounds.{RoomDropsNone, RoundsEndInOrder, WholeRoundsAreSweeps, WholeRoundsHandUpAll, WholeRoundsKeepRings}};

use mesh_laws::every_run;
use world_rules::every_world_run;

/// What nodes do beyond a record, merged by stamps, is a run from its world (`merges`). A whole
/// round is one in which no frame is dropped, and none is lost or held back that a hop would still
/// hand up. Where what stood in the rings was all that was missing, a whole round hands up all that
/// was sent before it (`up`), and it is a sweep of the mesh, in which nothing is posted (`sweeps`).
/// It is so again after the round (`rings`), since no round passes over a frame (`order`); and it is
/// so where nothing is unacknowledged (`quiet`). No frame is dropped where those that stood in its ring and those sent in the round are 256 at most (`room`).
pub fn every_round()
    ensures merges { MergesGoOn }
    ensures up { WholeRoundsHandUpAll }
    ensures order { RoundsEndInOrder }
    ensures rings { WholeRoundsKeepRings }
    ensures quiet { QuietHasAll }
    ensures sweeps { WholeRoundsAreSweeps }
    ensures room { RoomDropsNone }
{}

/// Some run leads to the world of each record.
pub fn every_made_record()
    ensures { RecordsAreReached }
{}

/// Of a topology, and a record of a calm and quiet fleet, in which one group then fails: rounds in
/// which no frame is dropped, and none is lost or held back but frames that were sent before the
/// failure, are whole rounds (`since`). After as many of these as there are hops from its ingress
/// to the nearest cut, twice as many as its backup has, and one, each guarded call that is hit is
/// restored (`soon`).
pub fn every_failure()
    ensures since { SinceAreWhole }
    ensures soon { FleetsRestoreSoon }
{
    every_run();
    every_world_run();
}
