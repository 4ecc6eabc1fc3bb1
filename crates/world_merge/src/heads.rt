//! The first lines of sorted lists, and the one that comes before the others.

ghost use Rattle.std.specs.Prelude.{◌≡◌, ◌<◌, MatchOption, length};
ghost use Rattle.world_merge.specs.{Heads.{least_of, picked_at}, Lines.lists_of, Picking.{is_before, picked}};

use ason_base::Entry;

/// The first line of the list at a place, and the lines after it.
#[derive(Clone, Copy, Drop)]
pub(crate) struct Head<'a> {
    pub(crate) place: usize,
    pub(crate) entry: &'a Entry,
    pub(crate) left: &'a [Entry],
}

// Whether `entry` comes before `other`, or at the same place: by stamp, then node, a post before every node.
fn is_before(entry: &Entry, other: &Entry) -> bool
    ensures { result ≡ is_before entry.now other.now }
{
    (entry.stamp, entry.node) <= (other.stamp, other.node)
}

// Of a head and the least one of the lists behind its own, the one that comes first.
fn least_of<'a>(head: Head<'a>, later: Option<Head<'a>>) -> Head<'a>
    ensures { result ≡ least_of head.entry later.entry }
{
    match later {
        Some(later) if !is_before(head.entry, later.entry) => later,
        _ => head,
    }
}

/// The least of the heads; of those at one place in the order, that of the earlier list.
pub(crate) fn least_head<'a>(lists: &[&'a [Entry]]) -> Option<Head<'a>>
    ensures least { picked (lists_of lists.now) ≡ picked_at (lists_of lists.now) result }
    ensures place { MatchOption result Unit (λ head. head.place < length lists.now) }
{
    let mut least = None;
    for place in (0..lists.len()).rev() {
        if let Some((entry, left)) = lists[place].split_first() {
            least = Some(least_of(Head { place, entry, left }, least));
        }
    }
    least
}
