//! The entries of a trace, read line by line.

ghost use Rattle.std.specs.{Prelude.{◌≡◌, None, IfOk}, Option.option_map};
ghost use Rattle.trace_text.specs.LinesRead.{lines_from, lines_now, next_entry, next_entry_now, node_before, place_before, place_of, rises};

use crate::entries::said_of;
use crate::words::parted;
use ason_base::{Entry, NodeId, OutOfMemory};
use plan_reader::{Line, Plan};
use std::alloc::Global;

/// Where an entry stands in a trace: by stamp, then by node, a post first.
#[derive(Clone, Copy)]
pub struct Place {
    pub stamp: u64,
    pub node: Option<NodeId>,
}

fn place_of(entry: &Entry) -> Place
    ensures { result ≡ place_of entry.now }
{
    Place {
        stamp: entry.stamp,
        node: entry.node,
    }
}

fn node_before(a: Option<NodeId>, b: Option<NodeId>) -> bool
    ensures { result ≡ node_before a b }
{
    match (a, b) {
        (None, Some(_)) => true,
        (Some(m), Some(n)) => m.0 < n.0,
        (_, None) => false,
    }
}

fn place_before(a: Place, b: Place) -> bool
    ensures { result ≡ place_before a b }
{
    a.stamp < b.stamp || (a.stamp == b.stamp && node_before(a.node, b.node))
}

fn rises(last: Option<Place>, place: Place) -> bool
    ensures { result ≡ rises last place }
{
    match last {
        None => true,
        Some(last) => place_before(last, place),
    }
}

// The entry of the first line, the script lines that are left after it, and the bytes behind its line; none where the
// line isn't of the form, isn't the right post or doesn't rise.
fn next_entry<'a, 'b>(
    alloc: Global,
    plan: &Plan,
    lines: &'b [Line],
    last: Option<Place>,
    bytes: &'a [u8],
) -> Result<Option<(Entry, &'b [Line], &'a [u8])>, OutOfMemory>
    ensures { IfOk result (λ e. option_map next_entry_now e
        ≡ next_entry plan.now lines.now last bytes.now) }
{
    let Some((line, rest)) = parted(bytes, b'\n') else {
        return Ok(None);
    };
    match said_of(alloc, plan, lines, line)? {
        Some((entry, left)) if rises(last, place_of(&entry)) => Ok(Some((entry, left, rest))),
        _ => Ok(None),
    }
}

/// The entries before the first wrong line, the number of that line from 1, and the bytes from there on.
#[derive(Drop)]
pub struct ReadLines<'a> {
    pub entries: Vec<Entry>,
    pub wrong: Option<u64>,
    pub rest: &'a [u8],
}

/// Reads so many lines over a plan, up to the first that is wrong: a line that is missing, isn't of the form, isn't the
/// right post or doesn't rise.
pub fn read_lines<'a>(
    alloc: Global,
    plan: &Plan,
    count: u64,
    bytes: &'a [u8],
) -> Result<ReadLines<'a>, OutOfMemory>
    ensures { IfOk result (λ r. lines_now r
        ≡ lines_from plan.now plan.now.lines None count 1 bytes.now) }
{
    let mut entries = Vec::new(alloc);
    let mut lines = plan.lines.items();
    let mut last = None;
    let mut rest = bytes;
    'reading: for i in 0..count {
        match next_entry(alloc, plan, lines, last, rest)? {
            None => {
                return Ok(ReadLines {
                    entries,
                    wrong: Some(i + 1),
                    rest,
                });
            }
            Some((entry, left, after)) => {
                last = Some(place_of(&entry));
                entries.push(entry)?;
                lines = left;
                rest = after;
            }
        }
    }
    Ok(ReadLines {
        entries,
        wrong: None,
        rest,
    })
}
