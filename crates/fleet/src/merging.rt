//! The logs and the posts in one order.

ghost use Rattle.std.specs.Prelude.{◌≡◌, ◌≤◌, ◌+◌, ◌*◌, ◌++◌, ◌∷◌, [], IfOk, List, OnOk, length, map, sum_by};
ghost use Rattle.ason_base.specs.{declared.limits.TheConstants.{MOST_EVENTS, MOST_NODES}, declared.commands.Disturb.Disturb, Network.Network};
ghost use Rattle.world_merge.specs.Lines.{lent_line, lines_left, lists_of};
ghost use Rattle.round_rules.specs.Records.{Record, posts_in};
ghost use Rattle.fleet.specs.{Rounds.{Merges, entries_in, record_lines}, Standing.StandsFor};

use crate::fleet::Fleet;
use ason_base::{Copied, Entry, EntryRef, OutOfMemory};
use station::Station;
use std::alloc::Global;
use world_merge::{Merging, every_merging};

// The posts, and the log of each station.
fn lists_of<'a>(
    alloc: Global,
    posts: &'a [Entry],
    stations: &'a [Station],
) -> Result<Vec<&'a [Entry]>, OutOfMemory>
    ensures { IfOk result (λ v. lists_of v.items ≡ posts.now ∷ map (λ s. s.log) stations.now) }
{
    let mut lists = Vec::new(alloc);
    lists.push(posts)?;
    for station in stations {
        lists.push(station.log())?;
    }
    Ok(lists)
}

// How many lines all logs have.
fn log_lines(stations: &[Station]) -> u64
    requires { length stations.now ≤ MOST_NODES }
    ensures lines { result ≡ sum_by (λ s. length s.log) stations.now }
    ensures few { result ≤ MOST_EVENTS * MOST_NODES }
{
    let mut lines = 0;
    for station in stations {
        lines += station.made();
    }
    lines
}

// The line with an event of its own.
fn owned(alloc: Global, line: EntryRef) -> Result<Entry, OutOfMemory>
    ensures { IfOk result (λ e. e ≡ lent_line line.entry) }
{
    let event = line.event.copy(alloc)?;
    Ok(Entry {
        stamp: line.stamp,
        node: line.node,
        event,
    })
}

// Puts the line at the end, with an event of its own.
fn add_line(alloc: Global, all: &mut Vec<Entry>, line: EntryRef) -> Result<(), OutOfMemory>
    ensures { OnOk result (all.new.items ≡ all.old.items ++ lent_line line.entry ∷ []) }
{
    let entry = owned(alloc, line)?;
    all.push(entry)?;
    Ok(())
}

impl Fleet {
    /// The lines of all logs and the posts in one order, one at a time: by stamp, then node, a post first.
    pub fn entries(&self, alloc: Global) -> Result<Merging<'_>, OutOfMemory>
        ensures merges { IfOk result (λ m. Merges self.now (lines_left m)) }
        ensures count { IfOk result (λ m. length (lines_left m) ≡ entries_in self.now) }
    {
        every_merging();
        let lists = lists_of(alloc, &self.posts, &self.stations)?;
        Ok(Merging::new(lists))
    }

    /// The same as a list.
    pub fn merged(&self, alloc: Global) -> Result<Vec<Entry>, OutOfMemory>
        ensures { IfOk result (λ v. Merges self.now v.items) }
    {
        let lines = self.entries(alloc)?;
        let mut all = Vec::new(alloc);
        for line in lines {
            add_line(alloc, &mut all, line)?;
        }
        Ok(all)
    }

    /// How many lines and posts that are.
    pub fn entry_count(&self) -> u64
        ensures count { result ≡ entries_in self.now }
        ensures record { (t : Network) (lines : List Disturb) (r : Record) → StandsFor t lines self.now r →
            result ≡ record_lines t r + length (posts_in r) }
    {
        log_lines(&self.stations) + self.posts.len() as u64
    }
}
