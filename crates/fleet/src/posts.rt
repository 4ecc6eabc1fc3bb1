//! Commands that are posted.

ghost use Rattle.std.specs.{Prelude.{◌≡◌, ◌≤◌, ◌<◌, ◌+◌, ◌++◌, ◌∷◌, [], IfOk, OnErr, OnOk, Some, length, map, position}, List.AllByRecursion};
ghost use Rattle.world_core.specs.Replays.{ingress_of};
ghost use Rattle.fleet.specs.{Commands.{IsAsBefore, Posts, FleetStandsOn, but_room, is_seat}, Posting.{Changes, HaveRoom, IsItemPut, Orders, TakeItems, TakesOrder, greatest_of, news_for, post_of, with_clock}, Views.shown_by};

use crate::fleet::Fleet;
use crate::seats::Seat;
use crate::telling::tell_all;
use ason_base::{
    Boxed, Command, Copied, DeskItem, Entry, Event, Group, NodeId, OutOfMemory, Topology,
};
use mesh_rules::failures::failed_after;
use station::Station;
use std::alloc::Global;

/// At most so many commands are posted.
const MOST_POSTS: usize = 1 << 32;

/// The ingress of the call that a command is about.
fn ingress(command: &Command) -> Option<NodeId>
    ensures { result ≡ ingress_of command.now }
{
    match command {
        Command::Setup { from, .. } => Some(*from),
        Command::Release { from, .. } => Some(*from),
        Command::Protect { from, .. } => Some(*from),
        Command::Retry { from, .. } => Some(*from),
        Command::Revert { from, .. } => Some(*from),
        Command::Fail { .. } | Command::Repair { .. } => None,
    }
}

/// The place of a node.
pub(crate) fn place_of(seats: &[Seat], node: NodeId) -> Option<usize>
    ensures { result ≡ position (is_seat node) seats.now }
{
    seats.iter().position(|seat| seat.id == node)
}

// The greatest of all clocks.
fn greatest_clock(stations: &[Station]) -> u64
    ensures { result ≡ greatest_of stations.now }
{
    let mut greatest = 0;
    for station in stations {
        greatest = station.clock().max(greatest);
    }
    greatest
}

// Makes room for so many items more on each desk.
fn make_room(stations: &mut [Station], items: usize) -> Result<(), OutOfMemory>
    ensures room { OnOk result (HaveRoom items stations.new) }
    ensures same { map but_room stations.new ≡ map but_room stations.old }
{
    for station in stations.iter_mut() {
        station.make_room(items)?;
    }
    Ok(())
}

// All clocks go on to this stamp.
fn set_clocks(stations: &mut [Station], stamp: u64)
    requires { AllByRecursion (λ s. s.clock ≤ stamp) stations.old }
    ensures { stations.new ≡ map (with_clock stamp) stations.old }
{
    for station in stations.iter_mut() {
        station.set_clock(stamp);
    }
}

// Puts an item on the desk of the station at this place. There is room for it.
fn put(stations: &mut [Station], place: usize, item: DeskItem)
    requires within { place < length stations.old }
    requires room { HaveRoom 1 stations.old }
    ensures { IsItemPut place item stations.old stations.new }
{
    match stations[place].order(item) {
        Ok(()) => {}
        Err(_) => unreachable!(),
    }
}

// Puts an item on the desk of the station at this place, where there is room for it, and all clocks go on to this
// stamp.
fn take_order(stations: &mut [Station], place: usize, item: DeskItem, stamp: u64)
    requires within { place < length stations.old }
    requires room { HaveRoom 1 stations.old }
    requires clocks { AllByRecursion (λ s. s.clock ≤ stamp) stations.old }
    ensures { TakesOrder place item stamp stations.old stations.new }
{
    put(stations, place, item);
    set_clocks(stations, stamp);
}

// Puts what each node is told on the desk of its station, where other groups have failed than before and there is room
// for it, and all clocks go on to this stamp.
fn take_news(
    stations: &mut [Station],
    seats: &[Seat],
    t: &Topology,
    before: &[Group],
    after: &[Group],
    stamp: u64,
)
    requires count { length stations.old ≡ length seats.now }
    requires room { HaveRoom (length t.now.links) stations.old }
    requires clocks { AllByRecursion (λ s. s.clock ≤ stamp) stations.old }
    ensures { TakeItems (news_for t.now before.now after.now) stamp seats.now
        stations.old stations.new }
{
    tell_all(stations, seats, t, before, after);
    set_clocks(stations, stamp);
}

// The line of a post.
fn line_of(alloc: Global, stamp: u64, command: &Command) -> Result<Entry, OutOfMemory>
    ensures { IfOk result (λ e. e ≡ post_of stamp command.now) }
{
    let command = Boxed::new(alloc, command.copy(alloc)?)?;
    let event = Event::Post { command };
    Ok(Entry {
        stamp,
        node: None,
        event,
    })
}

// Makes room for so many items more on each desk, and lists the post.
fn list_post(
    alloc: Global,
    stations: &mut [Station],
    posts: &mut Vec<Entry>,
    items: usize,
    command: &Command,
    stamp: u64,
) -> Result<(), OutOfMemory>
    ensures room { OnOk result (HaveRoom items stations.new) }
    ensures same { map but_room stations.new ≡ map but_room stations.old }
    ensures posts { OnOk result
        (posts.new.items ≡ posts.old.items ++ post_of stamp command.now ∷ []) }
    ensures err { OnErr result (posts.new.items ≡ posts.old.items) }
{
    make_room(stations, items)?;
    let line = line_of(alloc, stamp, command)?;
    posts.push(line)?;
    Ok(())
}

impl Fleet {
    // A command of a call goes to the desk of its ingress.
    fn order(&mut self, ingress: NodeId, command: &Command, stamp: u64) -> Result<(), OutOfMemory>
        requires call { ingress_of command.now ≡ Some ingress }
        requires stamp { stamp ≡ greatest_of self.old.stations + 1 }
        ensures on { OnOk result (Orders ingress command.now stamp self.old self.new) }
        ensures err { OnErr result (IsAsBefore self.old self.new) }
        ensures shown { shown_by self.new.stations ≡ shown_by self.old.stations }
    {
        match place_of(&self.seats, ingress) {
            None => Ok(()),
            Some(place) => {
                let item = DeskItem::Order(command.copy(self.alloc)?);
                list_post(
                    self.alloc,
                    &mut self.stations,
                    &mut self.posts,
                    1,
                    command,
                    stamp,
                )?;
                take_order(&mut self.stations, place, item, stamp);
                Ok(())
            }
        }
    }

    // The command's group fails or is repaired, and each node is told what has changed.
    fn change(&mut self, command: &Command, stamp: u64) -> Result<(), OutOfMemory>
        requires { stamp ≡ greatest_of self.old.stations + 1 }
        ensures on { OnOk result (Changes command.now stamp self.old self.new) }
        ensures err { OnErr result (IsAsBefore self.old self.new) }
        ensures shown { shown_by self.new.stations ≡ shown_by self.old.stations }
    {
        let failed = failed_after(self.alloc, &self.failed, command)?;
        let items = self.network.links().len();
        list_post(
            self.alloc,
            &mut self.stations,
            &mut self.posts,
            items,
            command,
            stamp,
        )?;
        take_news(
            &mut self.stations,
            &self.seats,
            &self.network,
            &self.failed,
            &failed,
            stamp,
        );
        self.failed = failed;
        Ok(())
    }

    /// A command of a call goes to the desk of its ingress. Where a group fails or is repaired, each node finds on its
    /// desk which fibres that come in there went down or are up again. All clocks go on to the post's stamp. Where memory
    /// is wanting, all is as it was but for the room on desks. At most 2^32 commands are posted.
    pub fn post(&mut self, command: &Command) -> Result<(), OutOfMemory>
        ensures on { OnOk result (Posts command.now self.old self.new) }
        ensures same { OnErr result (IsAsBefore self.old self.new) }
        ensures err { OnErr result (FleetStandsOn self.old self.new) }
        ensures shown { shown_by self.new.stations ≡ shown_by self.old.stations }
    {
        let greatest = greatest_clock(&self.stations);
        if self.posts.len() >= MOST_POSTS || greatest == u64::MAX {
            return Err(OutOfMemory);
        }
        match ingress(command) {
            None => self.change(command, greatest + 1),
            Some(node) => self.order(node, command, greatest + 1),
        }
    }
}
