//! What operators may take for granted: the network serves.

ghost use Rattle.mesh_laws.specs.{ActsLaw.{EveryOrderActs, EveryTornLegGivesUp}, BackedLaw.EveryBackupGoesAsGiven, CauseLaw.{EveryBusyIsBusy, EveryLackHasCause, EveryLoneCallHasCause, EveryRefusalHasCause, EveryRefusalIsTold}, KnowsLaw.EveryLearntIsKnown, LightLaw.{EveryLabelIsOfItsLink, EveryLightIsOfOneLsp}, MovesLaw.{EveryBlockedCallStays, EveryCallMovesOn}, OthersLaw.{EveryOrderIsOfOneCall, EveryOrderLeavesOtherLegs}, RestedLaw.{EachSentIsTakenAtRest, EveryRepairedRestIsCalm, EveryReportIsTrueAtRest, NothingIsLeftAtRest}, RetryLaw.EveryRetryIsDecided, SetupAloneLaw.EverySetupIsDecided, SourceLaw.{EveryCodeHasSource, EveryTurnedCallWaits}, WaitLaw.{EveryTickCounts, EveryWaitIsBelow}};

/// Of every run, in words of legs, fibres and labels alone: where light of one label is on one fibre
/// at Live legs, whether it arrives where the fibre ends or leaves where it begins, there or back,
/// all of it is of one LSP (`lit`). The label of the light that arrives at a leg, cross-connected or
/// not, is one of the labels of a link of the network at that node (`of_link`).
pub fn every_light()
    ensures lit { EveryLightIsOfOneLsp }
    ensures of_link { EveryLabelIsOfItsLink }
{}

/// Of every run, once no message is under way and each desk is empty: each leg is of the working
/// LSP or of the backup of a call that stands at its ingress and waits for no answer, in the phase
/// of the call's state, at each node of its route alike and at no other; with no call there is no
/// leg (`rested`). Each label that a leg sends over a fibre the LSP's leg at the other end takes,
/// and the other way round, there and back (`taken`). Over a topology a call has just those fibres
/// of its LSPs' routes reported that are physically down (`told`). And where no group is failed any
/// more no call is stuck, and if none is turned the state is calm, so that what is promised from a
/// calm state on is promised again (`repaired`).
pub fn every_rest()
    ensures rested { NothingIsLeftAtRest }
    ensures taken { EachSentIsTakenAtRest }
    ensures told { EveryReportIsTrueAtRest }
    ensures repaired { EveryRepairedRestIsCalm }
{}

/// Of every run: an Asked leg and a torn one have no label in, and a torn one no back label out
/// (`torn`). A backup goes over the route that its order gives (`backed`). A node refuses a Path
/// for a cause that stands there (`caused`) and an activation where the leg of another backup uses
/// a label of its own (`busy`), and over a topology it finds no label for a Resv where each that may
/// go on is kept off (`lacks`). There each order that a node handles does what it says: a call that is
/// blocked at once, or gets no backup, has a cause that stands at its ingress (`acts`); so has a
/// protected call that gets none as its working LSP is connected (`lone`). An order changes no call
/// but its own (`others`), and no leg of an LSP that no such call names (`spared`).
///
/// An order is alone where it is posted in a quiet state, nothing else is posted until it is quiet
/// again, and no node ticks while a call waits. Over a topology let a one-way, unprotected call of a
/// new number be set up alone, over a given route of links that are up, where the ingress has
/// numbers and each node room for a leg. It stands if and only if the route had free wavelengths:
/// one over each link, which no leg kept off there, and one for both links of a node that doesn't
/// convert; else it is blocked (`assigned`). Let a stuck call be tried again alone, its working LSP
/// being reported and its backup not. It has turned if and only if at no node the leg of another
/// activated backup used a label of its backup's leg; else it is stuck, as busy (`retried`).
pub fn every_order()
    ensures torn { EveryTornLegGivesUp }
    ensures backed { EveryBackupGoesAsGiven }
    ensures caused { EveryRefusalHasCause }
    ensures busy { EveryBusyIsBusy }
    ensures lacks { EveryLackHasCause }
    ensures lone { EveryLoneCallHasCause }
    ensures acts { EveryOrderActs }
    ensures others { EveryOrderIsOfOneCall }
    ensures spared { EveryOrderLeavesOtherLegs }
    ensures assigned { EverySetupIsDecided }
    ensures retried { EveryRetryIsDecided }
{}

/// Of every run: what a node learns of a neighbour it knows, behind what it knew (`learnt`). A tick
/// counts in each call that waits to be restored, or restores it at the end of the wait, and
/// changes no other call (`counted`), and no call counts as many ticks as the wait (`below`). A call
/// stands until its release, in every state; over each event it moves as a table of the states
/// says, and the cause that its backup is down comes only where fibres of both its LSPs are
/// reported (`moves`). A blocked call stays as it is until its release (`blocked`). A call whose
/// LSP is refused has the code of the PathErr that came as its cause (`refused`). A turned call
/// changes only by a tick of its node, by a Notify that the node takes, or by an order to go back:
/// by a Notify it goes back only where its backup is reported and its working LSP isn't (`turned`).
/// A code is the cause of a call only where a PathErr that gives up an LSP brought it, where the
/// backup is busy, or where the first link has no label for the way back (`coded`).
pub fn every_change()
    ensures learnt { EveryLearntIsKnown }
    ensures counted { EveryTickCounts }
    ensures below { EveryWaitIsBelow }
    ensures moves { EveryCallMovesOn }
    ensures blocked { EveryBlockedCallStays }
    ensures refused { EveryRefusalIsTold }
    ensures turned { EveryTurnedCallWaits }
    ensures coded { EveryCodeHasSource }
{}
