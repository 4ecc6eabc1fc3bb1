//! What a station is made of, and one event of it.

ghost use Rattle.std.specs.{Prelude.{◌≡◌, ◌<◌, ◌≤◌, ◌+◌, ◌^◌, ◌++◌, ◌∷◌, [], IfOk, OnErr, OnOk, length, true, vec_capacity, vec_len}, List.{AllByRecursion, AllZip}};
ghost use Rattle.control_channels.specs.{Controllers.{IsControllerStep, IsUnambiguous}, ReadyControllers.IsFromNeighbour};
ghost use Rattle.round_rules.specs.{Entered.able, Moves.{ArePeersApart, IsSentOver}};
ghost use Rattle.station.specs.{Entering.{Enters, Gives, is_able_for}, Fits.{PartsFit, station_state}, Leads.IsInputRead, Sending.{BearsAll, MaySend}};

use crate::desks::Desk;
use crate::halts::Halt;
use crate::links::send_frames;
use ason_base::limits::MOST_EVENTS;
use ason_base::{Disturb, Entry, Event, NodeId, OutOfMemory};
use ason_io::Gate;
use controller::{Controller, CoreInput, Frames};
use round_rules::{HeldParcel, Turn};
use station_rings::{Head, Link};

/// The most lines that a node's log has.
const MOST_LINES: usize = MOST_EVENTS as usize;

/// A controller, the desk of its node, a link to each neighbour, and what was made so far.
pub(crate) struct Parts {
    pub(crate) me: NodeId,
    pub(crate) controller: Controller,
    pub(crate) desk: Desk,
    pub(crate) links: Vec<Link>,
    pub(crate) clock: u64,
    pub(crate) log: Vec<Entry>,
    pub(crate) held: Vec<HeldParcel>,
    pub(crate) lines: Vec<Disturb>,
    pub(crate) answer: Turn,
}

impl Drop for Parts {
    fn drop(self) {
        let Parts {
            me: _,
            controller: _,
            desk: _,
            links: _,
            clock: _,
            log: _,
            held: _,
            lines: _,
            answer: _,
        } = self;
    }
}

/// Whether the log has room for a line, and a stamp is left above this one.
pub(crate) fn is_able(parts: &Parts, stamp: u64) -> bool
    ensures { result ≡ able (length parts.now.log.items) (stamp + 1) }
{
    parts.log.len() < MOST_LINES && stamp < u64::MAX
}

/// Writes a line in the log, which has room for it.
pub(crate) fn write(log: &mut Vec<Entry>, entry: Entry)
    requires { vec_len log.old + 1 ≤ vec_capacity log.old }
    ensures { log.new.items ≡ log.old.items ++ entry ∷ [] }
{
    match log.push(entry) {
        Ok(()) => {}
        Err(_) => unreachable!(),
    }
}

// The controller takes an input, and room is made for a line. After want of memory the controller is as it was.
fn react<G: Gate>(
    controller: &mut Controller,
    log: &mut Vec<Entry>,
    me: NodeId,
    gate: &G,
    input: &CoreInput,
) -> Result<Frames, OutOfMemory>
    requires few { controller.old.steps < MOST_EVENTS }
    requires from { IsFromNeighbour controller.old.node.place input.now }
    ensures step { IfOk result (IsControllerStep controller.old controller.new input.now) }
    ensures one { OnOk result (IsUnambiguous input.now) }
    ensures few { IfOk result (λ fs. length fs ≤ 2 ^ 40) }
    ensures place { controller.new.node.place ≡ controller.old.node.place }
    ensures err { OnErr result (controller.new ≡ controller.old) }
    ensures log { log.new.items ≡ log.old.items }
    ensures room { OnOk result (vec_len log.new + 1 ≤ vec_capacity log.new) }
{
    log.reserve(1)?;
    gate.before(me, log.len() as u64 + 1);
    controller.step(input)
}

// Sends these frames with this stamp. The controller uses the memory of their list again.
fn send(controller: &mut Controller, links: &mut Vec<Link>, frames: Frames, stamp: u64)
    requires apart { ArePeersApart links.old.items }
    requires may { AllByRecursion (MaySend (length frames) stamp) links.old.items }
    requires bears { BearsAll frames }
    ensures links { AllZip (IsSentOver stamp frames) links.old.items links.new.items }
    ensures same { controller.new ≡ controller.old }
{
    let mut frames = frames.into_vec();
    send_frames(links, &mut frames, stamp);
    controller.recycle_list(frames);
}

/// The controller takes an input, a line is written with this stamp, and the frames that go out bear it. What needs
/// memory comes first, so that after a refusal nothing has changed.
pub(crate) fn enter<G: Gate>(
    parts: &mut Parts,
    gate: &G,
    input: &CoreInput,
    event: Event,
    stamp: u64,
) -> Result<(), Halt>
    requires fit { PartsFit parts.old }
    requires from { IsFromNeighbour parts.old.controller.node.place input.now }
    requires read { IsInputRead input.now }
    requires able { able (length parts.old.log.items) stamp ≡ true }
    requires above { parts.old.clock < stamp }
    ensures enters { Enters result input.now event stamp (station_state parts.old) (station_state parts.new) }
    ensures place { parts.new.controller.node.place ≡ parts.old.controller.node.place }
    ensures fit { PartsFit parts.new }
{
    let me = parts.me;
    let Ok(frames) = react(&mut parts.controller, &mut parts.log, me, gate, input) else {
        return Err(Halt::OutOfMemory);
    };
    send(&mut parts.controller, &mut parts.links, frames, stamp);
    parts.clock = stamp;
    let node = Some(me);
    write(&mut parts.log, Entry { stamp, node, event });
    Ok(())
}

/// Whether a frame with this stamp can be delivered.
pub(crate) fn is_able_for(parts: &Parts, stamp: u64) -> bool
    ensures { result ≡ is_able_for stamp (station_state parts.now) }
{
    is_able(parts, parts.clock.max(stamp))
}

/// A frame that came from a neighbour is delivered, as this input.
pub(crate) fn enter_frame<G: Gate>(
    parts: &mut Parts,
    gate: &G,
    input: &CoreInput,
    from: NodeId,
    head: Head,
) -> Result<(), Halt>
    requires fit { PartsFit parts.old }
    requires from { IsFromNeighbour parts.old.controller.node.place input.now }
    requires read { IsInputRead input.now }
    requires able { is_able_for head.stamp (station_state parts.old) ≡ true }
    ensures gives { Gives result head from input.now (station_state parts.old) (station_state parts.new) }
    ensures place { parts.new.controller.node.place ≡ parts.old.controller.node.place }
    ensures fit { PartsFit parts.new }
{
    let event = Event::Deliver {
        to: parts.me,
        from,
        number: head.number,
    };
    let stamp = parts.clock.max(head.stamp);
    enter(parts, gate, input, event, stamp + 1)
}

/// The same, where the frame isn't delivered again: the controller uses its memory again.
pub(crate) fn enter_last<G: Gate>(
    parts: &mut Parts,
    gate: &G,
    input: CoreInput,
    from: NodeId,
    head: Head,
) -> Result<(), Halt>
    requires fit { PartsFit parts.old }
    requires from { IsFromNeighbour parts.old.controller.node.place input }
    requires read { IsInputRead input }
    requires able { is_able_for head.stamp (station_state parts.old) ≡ true }
    ensures gives { Gives result head from input (station_state parts.old) (station_state parts.new) }
    ensures place { parts.new.controller.node.place ≡ parts.old.controller.node.place }
    ensures fit { PartsFit parts.new }
{
    let ended = enter_frame(parts, gate, &input, from, head);
    parts.controller.recycle(input);
    ended
}
