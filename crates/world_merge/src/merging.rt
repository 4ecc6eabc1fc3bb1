//! The merge of logs as an iterator.

ghost use Rattle.std.specs.Prelude.{◌≡◌, ◌<◌};
ghost use Rattle.world_merge.specs.Lines.{lent_line, lists_of, lists_left};

use crate::heads::least_head;
use ason_base::{Entry, EntryRef};

/// The lines of sorted lists in one order: by stamp, then node, a post first. Of lines at one place in that order
/// the one in the earlier list comes first.
#[derive(Drop)]
pub struct Merging<'a> {
    lists: Vec<&'a [Entry]>,
}

// The line, with its event lent.
fn lent<'a>(entry: &'a Entry) -> EntryRef<'a>
    ensures { lent_line result ≡ entry.now }
{
    EntryRef {
        stamp: entry.stamp,
        node: entry.node,
        event: &entry.event,
    }
}

impl<'a> Merging<'a> {
    /// The merge of these lists: the posts, and the log of each station in order of node number.
    pub fn new(lists: Vec<&'a [Entry]>) -> Merging<'a>
        ensures { lists_left result ≡ lists_of lists.entry.items }
    {
        Merging { lists }
    }
}

impl<'a> Iterator for Merging<'a> {
    ghost use Rattle.std.specs.Iterator.{YieldsFirstBy, item_count};
    ghost use Rattle.world_merge.specs.Lines.{lent_line, lines_left};

    type Item = EntryRef<'a>;

    ghost next_gives = { YieldsFirstBy lent_line lines_left };

    ghost remaining = { item_count lines_left };

    fn next(&mut self) -> Option<EntryRef<'a>> {
        let head = least_head(&self.lists)?;
        self.lists[head.place] = head.left;
        Some(lent(head.entry))
    }
}
