//! The rule of the shelf: what is published grows, and a viewer sees no less than before.

ghost use Rattle.mgmt_view.specs.Rule.{Keeps, PublishesView, informed, nothing_seen};

use crate::node_table::NodeTable;
use crate::shelf::Shelf;
use atomic_table::{Join, Split};
use crossbeam_utils::rule::{Outcome, Protocol};
use left_right::reader::Reader;
use left_right::writer::Writer;
use std::collections::LinkedList;

/// What a thread knows: the tables that it saw, and those that it was told of. No value of it is made.
pub struct View {
    pub seen: LinkedList<NodeTable>,
    pub told: LinkedList<NodeTable>,
}

/// What is published begins with what each thread knows.
pub struct Published;

impl Protocol<Shelf, View> for Published {
    ghost holds = { Keeps };

    ghost first = { nothing_seen };
}

/// Who publishes or reads sees all that is then published.
pub struct Sees;

impl Outcome<Shelf, View> for Sees {
    ghost then = { PublishesView };
}

/// Who is told knows what the teller has seen.
pub struct Notes;

impl Split<View> for Notes {
    ghost left = { λ v. v };

    ghost right = { λ v. v };
}

impl Join<View> for Notes {
    ghost both = { informed };

    ghost spent = { nothing_seen };
}

pub type ShelfReader = Reader<Shelf, View, Published>;

pub type ShelfWriter = Writer<Shelf, NodeTable, View, Published>;
