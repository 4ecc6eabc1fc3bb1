//! The laws of one node, and of the routes that it finds.

ghost use Rattle.mesh_nodes.specs.{AnswerLaws.{ItemsFit, MessagesFit, NewNodesFit, TicksFit}, Learnt.{LearningFits, LearntIsKnown, LearntStayTrue, NetworkRowsMayBeLearnt, NothingElseIsLearnt, RowsStayFit}, Routes.{FoundBackupsLead, FoundBackupsStandBeside, FoundRoutesAreFollowed, FoundRoutesLead, LeastBackupIsLeast, LeastBackupVisitsOnce, LeastTripIsLeast, LeastTripVisitsOnce, NewRowsFit, NoBackupIsNone, NoTripIsNoWalk}};

/// The node of a topology knows its own links and keeps nothing that doesn't fit them. Whatever comes then, a message, an item
/// of the desk or a tick (this at a node with at most 65,536 calls): what the node keeps after it fits again; and what it sends
/// goes to neighbours, can be written where the routes of the message that came aren't too long, and is of 65,536 messages at
/// most.
pub fn every_answer()
    ensures new { NewNodesFit }
    ensures messages { MessagesFit }
    ensures items { ItemsFit }
    ensures ticks { TicksFit }
{}

/// The route that a rule names, and the backup beside a route, as functions of the rows that a node knows: each is the least of
/// all walks that are allowed, of any number of links; none exactly where no walk is allowed; and it visits no node twice. A
/// node of a topology that learnt nothing can be asked for routes. A route that a node finds over its own links and others of
/// its network leads from it to the other node, as a route that is given does, and it can be followed from there. So does a
/// backup that it finds beside a route; where it knows each link of that route, the two have no risk in common in the whole
/// network, and share no node between the ends.
pub fn least_routes()
    ensures least { LeastTripIsLeast }
    ensures none { NoTripIsNoWalk }
    ensures once { LeastTripVisitsOnce }
    ensures backup { LeastBackupIsLeast }
    ensures no_backup { NoBackupIsNone }
    ensures backup_once { LeastBackupVisitsOnce }
    ensures new { NewRowsFit }
    ensures leads { FoundRoutesLead }
    ensures backup_leads { FoundBackupsLead }
    ensures backup_beside { FoundBackupsStandBeside }
    ensures followed { FoundRoutesAreFollowed }
{}

/// What a node learns of links that aren't its own. A row that may be learnt is known afterwards, what else the node keeps fits
/// as it did, nothing is sent, and routes can be asked of what is known then. At a node of a topology that learnt rows of it
/// alone each row of it may be learnt, and what the node learnt stays so. By no message, by no item of its desk and by no tick
/// does a node learn of a link.
pub fn learnt_rows()
    ensures known { LearntIsKnown }
    ensures fits { LearningFits }
    ensures rows { RowsStayFit }
    ensures may { NetworkRowsMayBeLearnt }
    ensures stay { LearntStayTrue }
    ensures others { NothingElseIsLearnt }
{}
