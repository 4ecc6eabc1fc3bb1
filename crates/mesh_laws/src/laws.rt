//! Laws over every run of the mesh.

ghost use Rattle.lsp_laws.specs.{BesideLaw.EveryBackupGoesBeside, CallLaw.{EveryCallFitsItsLegs, EveryCallIsTidy}, HopLaw.EveryHopHasAShape, JoinedLaw.EveryCallIsJoined, LabelLaw.{EveryLabelIsShared, EveryLegHasBackLabels, EveryLegKeepsLabels, EveryLiveLegIsLabelled, EverySentLabelIsShared, NoBackupsCross}, LearntLaw.{EveryLearntRowIsTrue, EveryNodeCanSearch}, NodeLaw.EveryNodeSharesLawfully, ReportLaw.{EveryDeskTellsFailures, EveryReportIsOfItsRoute, EveryReportTellsFailures}, RiskLaw.EveryBackupRecordsItsRisks, StandLaw.{EveryCallStands, EveryCallStandsUntilReleased, EveryGuardedCallStays, EveryTurnedCallStays}, WavelengthLaw.EveryCallKeepsItsWavelengths};
ghost use Rattle.mesh_laws.specs.{AloneLaw.{EveryActivationIsAdmitted, EveryRunStartsCalm}, ContendLaw.NoContend, HeardLaw.EveryListIsLawful, HomeLaw.EveryRunStaysAtHome, KnownLaw.EveryKnownFibreComesIn, StateLaws.EveryRunKeepsTheLaws, OrderLaw.EveryCallIsOrdered, RestLaw.{EveryRestIsQuiet, EveryRunEnds, EveryRunRests}, RestorationLaw.EveryHitCallIsRestored, SafeLaw.EveryRunIsSafe, SetupLaw.{EveryCallIsDecidedSoon, EveryLspIsAnsweredSoon}, InOrderLaw.EveryHitCallIsRestoredInOrder, SoonLaw.EveryHitCallIsRestoredSoon, SurveyLaw.NoSurveyedContend};

/// Of every network, every run, and each state to which a run leads:
///
/// Labels, at each node. A label of a fibre is taken by one leg alone, or by backups whose
/// primaries have no risk in common, at most one of them Armed, Live or Falling (`labels`); a Live
/// leg has a label in exactly where it has a fibre in, and a label out exactly where it has a fibre
/// out (`labelled`). The leg of a two-way LSP has a back label in exactly where it has a fibre out,
/// and until it is torn a back label out exactly where it has a fibre in; that of a one-way LSP has
/// neither (`backs`). Where the node doesn't convert, a leg with a label in and a label out has one
/// label, and one with a back label in and a back label out has one for the way back; a label in is
/// one of the labels of the link by whose fibre the leg comes in, and a back label in one of those
/// of the link by whose fibre it goes out (`kept`). A label is sent on a fibre by one leg alone, or
/// by backups whose primaries, over a topology, have no risk in common; torn legs count too
/// (`sent`). At each cut of the list of messages from the fibre's other end, two LSPs that may send
/// one label once what comes before the cut has been taken are such backups, and a message that a
/// leg will ignore counts too (`heard`). Of two backups that go over one link in opposite
/// directions, a label of one of its fibres being of both, at most one is Armed or Live at the node
/// to which its Path comes over the link (`crossing`).
///
/// Calls, at each node. The state of each call that begins there fits its legs, each of which is of
/// one call, and its reports, and its backup is two-way just where its working LSP is (`calls`). A
/// cause is kept in blocked, bare and stuck alone; ticks are counted in turned alone, while no
/// fibre of the working LSP is reported down; a protected call that is bare has a cause (`tidy`).
/// The call is that of a posted setup from there, of its number, to its egress, protected where the
/// setup says so and with the backup route that it gives; where the setup gives a route, its
/// working LSP was sent on that; and its working LSP is two-way just where the setup says so
/// (`ordered`). Over each event that is enabled, a call that is neither asking nor blocked stands
/// with its number, its egress and its working LSP, and with its backup where it is guarded,
/// turning, turned or stuck, which it is then after the event too, unless the event carries out its
/// release (`stand`); so it does over any events with which the run goes on, none of which carries
/// out its release (`until`). A guarded call leaves that state only where a fibre of its working
/// LSP is reported down, or by its release (`guarded`), and a turned call goes back only where none
/// is (`turned`). Each fibre that is reported of an LSP of a call is of the LSP's route
/// (`reported`), and each fibre that a node knows to be down comes in there (`known`).
///
/// LSPs. Each hop of each LSP, its legs at both ends with the messages between them, has a shape of
/// the table, and each leg names the end of its LSP's route as its egress; the back label out of a
/// leg that isn't torn is the back label in of the one before it, which the Paths on their way to
/// it bear; where a leg is torn with a label out and the next node has let go, the message that
/// says so is on its way; Notifies go up these hops alone, and each names the node that it comes
/// from or one beyond it (`hops`). Over a topology messages are under way between neighbours alone,
/// and items stand on nodes' desks alone (`home`). No label of a fibre is cross-connected for two
/// LSPs, on their way there or back (`safe`). Each call that is neither asking nor blocked is
/// joined: its working LSP is Live at each node of its route, each label out being the next node's
/// label in; the backup of a guarded or a stuck call is joined so, Held at each node, or still Live
/// where the call went back and the Path that takes the activation back hasn't come; that of a
/// turned call is joined Live at each node, and that of a turning call Held, Armed or Live. These
/// LSPs of a two-way call have a back label in at each node but the egress, which is the next
/// node's back label out, and those of a one-way call have none (`joined`). Along the routes of
/// these LSPs the wavelength changes at converting nodes alone, and is on each link one of those of
/// the link; so it is with the one on which an LSP of a two-way call comes back, and one of a
/// one-way call has none there (`wavelengths`). The route of each backup leads from end to end, has
/// no risk in common with that of the working LSP which its call has, or had, and shares no node
/// with it between the ends (`beside`).
///
/// Links. What a node learnt of them are rows of the network (`learnt`); over a topology routes can
/// be asked of what it knows (`searchable`). Over a topology the leg of a backup, at any node,
/// records the risks of the route of the working LSP that its Path names, also where that LSP is
/// gone (`risks`).
///
/// Failures, over a topology. The items of each node's desk, one after the other on what it knows,
/// tell which of its fibres in are physically down (`desks`); and along the route of an LSP, as far
/// as its legs stand and aren't torn, what a node's Notifies on their way to the ingress tell, the
/// nearest to it first on what the call knows, is what that node knows to be down (`reports`). A
/// state is calm where no group has failed and nothing of an earlier failure is left, as at the
/// start (`calm`). While since a calm state one group alone has failed, no activation of a backup
/// is refused, no call is stuck, and all that is activated, reported, under way or waiting for a
/// failure concerns that group (`admitted`). Once besides no message is under way and each desk is
/// empty, each call is restored whose ingress has its backup Held, Armed or Live: where a fibre of
/// its working LSP is physically down it turned to its backup, and the LSP that carries it, the
/// backup where it turned and else the working LSP, is joined, Live at each node of its route, and
/// none of its fibres is physically down, there or back (`restored`).
///
/// How soon. A sweep is a list of events in which each message that was under way as it began is
/// taken, and each item that was on a desk is handled. Over a topology, once one group has failed
/// in a calm state in which no message was under way and each desk was empty, and nothing is posted
/// since: each call that was guarded as it failed, and is hit by it, is restored after as many
/// sweeps as there are hops from its ingress to the nearest cut, twice as many as its backup has
/// hops, and one (`soon`). In a sweep in order the nodes have their parts one after the other, by
/// their numbers: all is taken and handled that waits at a node as its part begins. After as many of
/// these as its backup has hops, and one, and one more for each of the hops to the nearest cut on
/// which a Notify goes up to a node of a lesser number, the call is restored (`in_order`). Whatever
/// is posted: once there were as many sweeps since an LSP was
/// begun as its route has hops, there and back, its leg at the ingress isn't Asked (`answered`),
/// and no call is asking for it as its working LSP, nor pairing for it as its backup (`decided`).
///
/// Rest, over a topology. Of the events of a run that take a message or handle an item of a desk
/// there are at most so many for each order, for each failure or repair, and for each tick
/// (`rests`). So after a run only so many can follow while nothing more is posted and no node ticks
/// (`ends`), and where no such event is enabled no message is under way and each desk is empty
/// (`quiet`).
///
/// What all clauses but `searchable`, `calm` and `quiet` say of one state, and `no_contend` and the
/// laws of service with them, the last one says in one word (`together`). It says two things more of what the state's
/// rows show, over a topology: their survey lists all calls that would contend; and the state is
/// calm where it is quiet, no group has failed and each backup's leg is Asked or Held.
pub fn every_run()
    ensures labels { EveryLabelIsShared }
    ensures labelled { EveryLiveLegIsLabelled }
    ensures backs { EveryLegHasBackLabels }
    ensures sent { EverySentLabelIsShared }
    ensures heard { EveryListIsLawful }
    ensures crossing { NoBackupsCross }
    ensures kept { EveryLegKeepsLabels }
    ensures calls { EveryCallFitsItsLegs }
    ensures tidy { EveryCallIsTidy }
    ensures ordered { EveryCallIsOrdered }
    ensures stand { EveryCallStands }
    ensures until { EveryCallStandsUntilReleased }
    ensures guarded { EveryGuardedCallStays }
    ensures turned { EveryTurnedCallStays }
    ensures reported { EveryReportIsOfItsRoute }
    ensures known { EveryKnownFibreComesIn }
    ensures hops { EveryHopHasAShape }
    ensures home { EveryRunStaysAtHome }
    ensures safe { EveryRunIsSafe }
    ensures joined { EveryCallIsJoined }
    ensures wavelengths { EveryCallKeepsItsWavelengths }
    ensures learnt { EveryLearntRowIsTrue }
    ensures searchable { EveryNodeCanSearch }
    ensures beside { EveryBackupGoesBeside }
    ensures risks { EveryBackupRecordsItsRisks }
    ensures desks { EveryDeskTellsFailures }
    ensures reports { EveryReportTellsFailures }
    ensures calm { EveryRunStartsCalm }
    ensures admitted { EveryActivationIsAdmitted }
    ensures restored { EveryHitCallIsRestored }
    ensures soon { EveryHitCallIsRestoredSoon }
    ensures in_order { EveryHitCallIsRestoredInOrder }
    ensures answered { EveryLspIsAnsweredSoon }
    ensures decided { EveryCallIsDecidedSoon }
    ensures rests { EveryRunRests }
    ensures ends { EveryRunEnds }
    ensures quiet { EveryRestIsQuiet }
    ensures together { EveryRunKeepsTheLaws }
{}

/// Of every topology, every run, and each two groups: take a quiet and calm state of the run in
/// which no two guarded calls would contend for a label, the one hit by the first group and the
/// other by the second. While since then no other group failed or was repaired and nothing was set
/// up, released or protected, no activation of a backup is refused, in whatever order the two fail
/// and are repaired, and with whatever orders to try again or to go back (`mesh`). So it is for two
/// different groups where a survey of rows that show all calls and legs of that state lists none
/// that would contend where the two fail (`rows`).
pub fn no_contend()
    ensures mesh { NoContend }
    ensures rows { NoSurveyedContend }
{}

/// At each node, whatever messages come to it, of whatever senders, whatever rows it learns,
/// whatever fibres it is told to be down or up, and however often it ticks, in whatever order with
/// the orders of its own calls: a label of a fibre is taken by one leg alone, or by backups whose
/// primaries have no risk in common, at most one of them Armed, Live or Falling.
pub fn every_node()
    ensures { EveryNodeSharesLawfully }
{}
