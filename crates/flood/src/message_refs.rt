//! Flood messages whose rows stand elsewhere.

ghost use Rattle.std.specs.Prelude.{◌≡◌};
ghost use Rattle.flood.specs.declared.messages.FloodMsg.{FloodMsg};

use crate::messages::FloodMsg;
use ason_base::{NodeId, TeRow};
use std::marker::Model;

/// A flood message that borrows its row, so that it can be written where the row stands. Contracts see it as the message.
#[derive(Drop)]
pub struct FloodRef<'a> {
    pub(crate) number: u32,
    pub(crate) row: Option<(NodeId, &'a TeRow)>,
}

impl<'a> Model for FloodRef<'a> {
    ghost use Rattle.flood.specs.declared.messages.FloodMsg.{FloodMsg};
    ghost use Rattle.flood.specs.References.{message_of};

    ghost Value = { FloodMsg };

    ghost view = { λ m. message_of m.number m.row };
}

impl<'a> FloodRef<'a> {
    /// A row, numbered on its channel from 1, as its origin gives it.
    pub fn row(number: u32, origin: NodeId, row: &'a TeRow) -> FloodRef<'a>
        ensures { result ≡ FloodMsg.Row number origin row.now }
    {
        FloodRef {
            number,
            row: Some((origin, row)),
        }
    }

    /// Acknowledges the row of this number.
    pub fn ack(number: u32) -> FloodRef<'a>
        ensures { result ≡ FloodMsg.Ack number }
    {
        FloodRef { number, row: None }
    }

    /// The same message.
    pub fn of(m: &'a FloodMsg) -> FloodRef<'a>
        ensures { result ≡ m.now }
    {
        match m {
            FloodMsg::Ack { number } => FloodRef::ack(*number),
            FloodMsg::Row {
                number,
                origin,
                row,
            } => FloodRef::row(*number, *origin, row),
        }
    }
}
