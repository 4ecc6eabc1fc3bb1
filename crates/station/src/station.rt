//! The station of one node.

ghost use Rattle.std.specs.{Prelude.{◌≡◌, ◌<◌, ◌≤◌, ◌+◌, ◌*◌, ◌^◌, ◌∷◌, ◌++◌, [], IfOk, IsSome, IsTrue, OnErr, OnOk, None, Some, false, length, position, slice_get, true}, List.list_any};
ghost use Rattle.std.proofs.Props.{props};
ghost use Rattle.ason_base.specs.{declared.limits.TheConstants.MOST_EVENTS, Network.find_node};
ghost use Rattle.mesh_nodes.specs.LocalNodes.{is_neighbour};
ghost use Rattle.station_rings.specs.LinkStates.{AreEnds, AreFew, LinkState};
ghost use Rattle.round_rules.specs.{Entered.me_of, Turned.{HasMadeTurn, HaveMadeTurns}};
ghost use Rattle.station.specs.{Joined.{AreStationsConnected, AreTwoLooked, IsApartFrom, IsNewStation, IsItemOrdered}, Noise.HasHeard, Sending.is_link_to, Watched.{IsUnpublished, TellsUpTo, Watches, publishing, shown_of, tables_by}};
ghost use Rattle.flood.specs.Frames.{SpellsNothing};

use crate::desks::Desk;
use crate::links::{any_used, attach, place_of};
use crate::others::Others;
use crate::parts::Parts;
use crate::watching::{WatchFault, table_of};
use crate::{noises, turning};
use ason_base::{DeskItem, Disturb, Entry, NodeId, OutOfMemory, Topology};
use ason_io::Gate;
use controller::Controller;
use mgmt_view::{Publisher, Told, Viewer, pair};
use round_rules::Turn;
use station_rings::{join, look};
use std::alloc::Global;
use std::marker::Model;
use std::sync::Wait;

/// So many lines a log has room for at the start: a block of this size the C library grows without copying it.
const FIRST_LINES: usize = 4096;

/// A controller, the desk of its node, its log, and its ends of the rings to each neighbour.
/// Where it is watched it has a publisher besides, so it isn't let go but by `end` or `unmake`.
pub struct Station {
    alloc: Global,
    parts: Parts,
    publisher: Option<Publisher>,
    ghost told: { TellsUpTo publisher (length parts.log.items) } by { Prim.hlevel props },
}

impl Model for Station {
    ghost use Rattle.round_rules.specs.States.{StationState};
    ghost use Rattle.station.specs.Fits.{PartsFit, station_state};
    ghost use Rattle.station.specs.Watched.{with_publisher};

    ghost Value = { StationState };

    ghost view = { λ s. with_publisher (station_state s.parts) s.publisher };

    ghost invariant = { λ s. PartsFit s.parts };
}

impl Station {
    /// The station of node `id`, which has no link yet and did nothing.
    pub fn new(alloc: Global, t: &Topology, id: NodeId) -> Result<Station, OutOfMemory>
        requires { IsSome (find_node t.now id) }
        ensures { IfOk result (IsNewStation t.now id) }
    {
        let log = Vec::with_capacity(alloc, FIRST_LINES)?;
        let controller = Controller::new(alloc, t, id)?;
        let parts = Parts {
            me: id,
            controller,
            desk: Desk::new(alloc),
            links: Vec::new(alloc),
            clock: 0,
            log,
            held: Vec::new(alloc),
            lines: Vec::new(alloc),
            answer: Turn::Idle,
        };
        Ok(Station {
            alloc,
            parts,
            publisher: None,
        })
    }

    /// Joins two neighbours by two rings. Their ends are the last links of both. After a refusal nothing has changed.
    pub fn connect(alloc: Global, a: &mut Station, b: &mut Station) -> Result<(), OutOfMemory>
        requires there { IsTrue (is_neighbour a.old.controller.node.place (me_of b.old)) }
        requires back { IsTrue (is_neighbour b.old.controller.node.place (me_of a.old)) }
        requires apart { IsApartFrom (me_of b.old) a.old }
        requires apart_back { IsApartFrom (me_of a.old) b.old }
        ensures ok { OnOk result (AreStationsConnected a.old a.new b.old b.new) }
        ensures err { OnErr result ((a.new ≡ a.old) × (b.new ≡ b.old)) }
        ensures publisher { a.new.publisher ≡ a.old.publisher }
        ensures publisher_back { b.new.publisher ≡ b.old.publisher }
    {
        a.parts.links.reserve(1)?;
        b.parts.links.reserve(1)?;
        let (here, there) = join(alloc, a.parts.me, b.parts.me)?;
        attach(&mut a.parts.links, here);
        attach(&mut b.parts.links, there);
        Ok(())
    }

    /// Looks at both rings between two stations, and takes no memory: at these places are their links to each other.
    pub fn look(a: &mut Station, place: usize, b: &mut Station, back: usize)
        requires place { place < length a.old.links }
        requires back { back < length b.old.links }
        requires ends { (l m : LinkState) → slice_get a.old.links place ≡ Some l →
            slice_get b.old.links back ≡ Some m → AreEnds l m × AreFew l m }
        ensures { AreTwoLooked place a.old a.new back b.old b.new }
    {
        look(&mut a.parts.links[place], &mut b.parts.links[back]);
    }

    /// One turn: a tick where it is asked for, the held frames that are due, all items of the desk, then what its
    /// rings have, by neighbour. It reaches nothing but the station's own parts.
    pub fn turn<G: Gate>(&mut self, gate: &G, tick: bool) -> Turn
        ensures made { HasMadeTurn tick self.old self.new result }
        ensures answer { self.new.answer ≡ result }
        ensures publisher { self.new.publisher ≡ self.old.publisher }
    {
        self.turn_beside(gate, Others::Working, tick)
    }

    // One turn, while the other stations do this.
    fn turn_beside<G: Gate>(&mut self, gate: &G, others: Others, tick: bool) -> Turn
        ensures made { HasMadeTurn tick self.old self.new result }
        ensures answer { self.new.answer ≡ result }
        ensures publisher { self.new.publisher ≡ self.old.publisher }
    {
        turning::turn(&mut self.parts, gate, others, tick)
    }

    /// So many turns, the first with a tick. The first that doesn't come to its end is the last; what the last one
    /// answers is kept.
    pub fn turns<G: Gate>(&mut self, gate: &G, stride: u32)
        requires { 0 < stride }
        ensures turns { HaveMadeTurns stride true self.old self.new self.new.answer }
        ensures publisher { self.new.publisher ≡ self.old.publisher }
    {
        self.turns_from(gate, Others::Working, stride, true);
    }

    /// The same, while no other station works: what isn't known to stand in its rings isn't looked for.
    pub fn turns_alone<G: Gate>(&mut self, gate: &G, stride: u32)
        requires { 0 < stride }
        ensures turns { HaveMadeTurns stride true self.old self.new self.new.answer }
        ensures publisher { self.new.publisher ≡ self.old.publisher }
    {
        self.turns_from(gate, Others::Waiting, stride, true);
    }

    // So many turns, while the other stations do this.
    fn turns_from<G: Gate>(&mut self, gate: &G, others: Others, count: u32, tick: bool)
        requires { 0 < count }
        ensures turns { HaveMadeTurns count tick self.old self.new self.new.answer }
        ensures publisher { self.new.publisher ≡ self.old.publisher }
    {
        let ended = match self.turn_beside(gate, others, tick) {
            Turn::Worked(_) | Turn::Idle => true,
            Turn::AtLimit | Turn::Starved => false,
        };
        if ended && count > 1 {
            self.turns_from(gate, others, count - 1, false);
        }
    }

    /// Bytes that spell nothing come from a neighbour: the controller counts them, and a line is written. After want of
    /// memory nothing has changed.
    pub fn noise(&mut self, from: NodeId, bytes: &[u8]) -> Result<(), OutOfMemory>
        requires near { IsSome (position (is_link_to from) self.old.links) }
        requires nothing { SpellsNothing bytes.now }
        requires room { length self.old.log < MOST_EVENTS }
        requires stamp { self.old.clock + 1 < 2 ^ 64 }
        ensures ok { OnOk result (HasHeard from bytes.now self.old self.new) }
        ensures err { OnErr result (self.new ≡ self.old) }
        ensures publisher { self.new.publisher ≡ self.old.publisher }
    {
        noises::noise(self.alloc, &mut self.parts, from, bytes)
    }

    /// What the last turn answered.
    pub fn answer(&self) -> Turn
        ensures { result ≡ self.now.answer }
    {
        self.parts.answer
    }

    /// Puts an item on the desk. Where there is room for it this isn't refused.
    pub fn order(&mut self, item: DeskItem) -> Result<(), OutOfMemory>
        ensures ok { OnOk result (IsItemOrdered self.old item self.new) }
        ensures err { OnErr result (self.new ≡ self.old) }
        ensures full { OnErr result (self.old.spare ≡ 0) }
    {
        self.parts.desk.push(item)
    }

    /// Makes room for so many items more on the desk. After want of memory nothing has changed.
    pub fn make_room(&mut self, items: usize) -> Result<(), OutOfMemory>
        ensures ok { OnOk result (items ≤ self.new.spare) }
        ensures same { self.new ≡ record self.old { spare = self.new.spare } }
        ensures err { OnErr result (self.new ≡ self.old) }
    {
        self.parts.desk.make_room(items)
    }

    /// A line of the script names a frame for this node.
    pub fn disturb(&mut self, line: Disturb) -> Result<(), OutOfMemory>
        ensures ok { OnOk result
            (self.new ≡ record self.old { lines = self.old.lines ++ line ∷ [] }) }
        ensures err { OnErr result (self.new ≡ self.old) }
        ensures shown { shown_of self.new ≡ shown_of self.old }
    {
        self.parts.lines.push(line)?;
        Ok(())
    }

    /// The number of the last frame that was sent over the link at this place.
    pub fn sent_to(&self, place: usize) -> u64
        requires { place < length self.now.links }
        ensures sent { (l : LinkState) → slice_get self.now.links place ≡ Some l → result ≡ l.sent }
        ensures few { result ≤ MOST_EVENTS * 2 ^ 40 }
    {
        self.parts.links[place].sent()
    }

    /// Whether some link was used since it was last looked at: frames were sent or taken over it, or came out of its ring.
    pub fn has_used_link(&self) -> bool
        ensures { result ≡ list_any (λ (l : LinkState). l.used) self.now.links }
    {
        any_used(&self.parts.links)
    }

    /// The place of the link to this neighbour.
    pub fn link_to(&self, n: NodeId) -> Option<usize>
        ensures { result ≡ position (is_link_to n) self.now.links }
    {
        place_of(&self.parts.links, n)
    }

    /// The stamp of the last line, or of a later post.
    pub fn clock(&self) -> u64
        ensures { result ≡ self.now.clock }
    {
        self.parts.clock
    }

    /// Moves the clock on to the stamp of a post.
    pub fn set_clock(&mut self, stamp: u64)
        requires { self.old.clock ≤ stamp }
        ensures { self.new ≡ record self.old { clock = stamp } }
    {
        self.parts.clock = stamp;
    }

    /// The lines that were written, in order.
    pub fn log(&self) -> &[Entry]
        ensures log { result.now ≡ self.now.log }
        ensures few { length result.now ≤ MOST_EVENTS }
    {
        &self.parts.log
    }

    /// How many items wait on the desk.
    pub fn desk_len(&self) -> usize
        ensures { result ≡ length self.now.desk }
    {
        self.parts.desk.len()
    }

    /// The controller.
    pub fn controller(&self) -> &Controller
        ensures { result.now ≡ self.now.controller }
    {
        &self.parts.controller
    }

    /// How many lines were written.
    pub fn made(&self) -> u64
        ensures steps { result ≡ self.now.controller.steps }
        ensures lines { result ≡ length self.now.log }
        ensures few { result ≤ MOST_EVENTS }
    {
        self.parts.controller.steps()
    }

    /// From now on the station is watched: it has published its table, which the viewer keeps. It may wait for the
    /// viewer.
    pub fn watch<R: Wait>(&mut self, rt: &R) -> Result<Viewer, WatchFault>
        ensures { Watches result self.old self.new }
    {
        if self.publisher.is_some() {
            return Err(WatchFault::Watched);
        }
        let Ok(first) = table_of(self.alloc, &self.parts) else {
            return Err(WatchFault::OutOfMemory);
        };
        let Ok((publisher, viewer)) = pair(rt, self.alloc, first) else {
            return Err(WatchFault::OutOfMemory);
        };
        match self.publisher.replace(publisher) {
            None => Ok(viewer),
            Some(_) => unreachable!(),
        }
    }

    /// Publishes its table, if it is watched. It may wait for the viewer. After want of memory nothing was published;
    /// the table may wait then, and is published before that of the next call that isn't refused.
    pub fn publish<R: Wait>(&mut self, rt: &R) -> Result<(), OutOfMemory>
        ensures ok { OnOk result (self.new ≡ publishing self.old) }
        ensures err { OnErr result (IsUnpublished self.old self.new) }
    {
        if let Some(publisher) = &mut self.publisher {
            let table = table_of(self.alloc, &self.parts)?;
            publisher.publish(rt, table)?;
        }
        Ok(())
    }

    /// A token of all that it has published, if it is watched.
    pub fn told(&mut self) -> Result<Option<Told>, OutOfMemory>
        ensures told { IfOk result (λ told. told ≡ tables_by self.old.publisher) }
        ensures same { self.new ≡ self.old }
    {
        match &mut self.publisher {
            None => Ok(None),
            Some(publisher) => Ok(Some(publisher.told(self.alloc)?)),
        }
    }

    // Its publisher. All else is let go.
    fn into_publisher(self) -> Option<Publisher>
        ensures { result ≡ self.publisher }
    {
        let Station {
            alloc: _,
            parts: _,
            publisher,
        } = self;
        publisher
    }

    /// Ends it. It may wait for the viewer.
    pub fn end<R: Wait>(self, rt: &R) {
        if let Some(publisher) = self.into_publisher() {
            publisher.end(rt);
        }
    }

    /// Uses up a station that isn't watched.
    pub fn unmake(self)
        requires { self.publisher ≡ None }
    {
        match self.into_publisher() {
            None => {}
            Some(_) => unreachable!(),
        }
    }
}
