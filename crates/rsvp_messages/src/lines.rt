//! What becomes of the objects of a message.

ghost use Rattle.std.specs.Prelude.{◌≡◌, ◌<◌, ◌^◌, List, All, map, IfOk, IsErrOf};
ghost use Rattle.ason_base.specs.declared.messages.Packet.{Packet};
ghost use Rattle.rsvp_messages.specs.{Lines.{HasLines, classes_read, fate_of, line_of}, Objects.{Object, is_among, size_of}, Packets.SpelledBy, Seen.{all_seen, seen}};

use crate::classes::{
    ASSOCIATION, ERROR_SPEC, EXPLICIT_ROUTE, FILTER_SPEC, LABEL, LABEL_REQUEST, LABEL_SET,
    MESSAGE_ID, MESSAGE_ID_ACK, PRIMARY_PATH_ROUTE, PROTECTION, RSVP_HOP, SENDER_TEMPLATE, SESSION,
    UPSTREAM_LABEL, is_known,
};
use crate::raw::{RawObject, is_among};
use crate::reading::read_message;
use ason_base::{DecodeError, Msg, OutOfMemory, PathRole};
use std::alloc::Global;

/// What becomes of an object.
#[derive(Clone, Copy, Drop)]
pub enum Fate {
    /// The message reads it.
    Read,
    /// Its class is known, and the message doesn't read it.
    Carried,
    /// Its class isn't known.
    Ignored,
}

/// An object of a message: its class, C-Type and length with its header, and what becomes of it.
#[derive(Clone, Copy, Drop)]
pub struct ObjectLine {
    pub class: u8,
    pub ctype: u8,
    pub length: u16,
    pub fate: Fate,
}

/// The classes that each message reads. A Path of a working LSP reads the first ten of its own.
const PATH: [u8; 12] = [
    SESSION,
    RSVP_HOP,
    SENDER_TEMPLATE,
    LABEL_REQUEST,
    EXPLICIT_ROUTE,
    MESSAGE_ID,
    MESSAGE_ID_ACK,
    UPSTREAM_LABEL,
    LABEL_SET,
    PROTECTION,
    PRIMARY_PATH_ROUTE,
    ASSOCIATION,
];

const RESV: [u8; 6] = [
    SESSION,
    RSVP_HOP,
    FILTER_SPEC,
    LABEL,
    MESSAGE_ID,
    MESSAGE_ID_ACK,
];

const PATH_TEAR: [u8; 5] = [
    SESSION,
    RSVP_HOP,
    SENDER_TEMPLATE,
    MESSAGE_ID,
    MESSAGE_ID_ACK,
];

const ERROR: [u8; 5] = [
    SESSION,
    ERROR_SPEC,
    SENDER_TEMPLATE,
    MESSAGE_ID,
    MESSAGE_ID_ACK,
];

const ACK: [u8; 1] = [MESSAGE_ID_ACK];

fn is_read(body: &Option<Msg>, class: u8) -> bool
    ensures { result ≡ is_among (classes_read body.now) class }
{
    match body {
        None => is_among(&ACK, class),
        Some(
            Msg::Path {
                role: PathRole::Work { .. },
                ..
            },
        ) => is_among(&PATH[..10], class),
        Some(
            Msg::Path {
                role: PathRole::Back { .. },
                ..
            },
        ) => is_among(&PATH, class),
        Some(Msg::Resv { .. }) => is_among(&RESV, class),
        Some(Msg::PathTear { .. }) => is_among(&PATH_TEAR, class),
        Some(Msg::PathErr { .. } | Msg::Notify { .. }) => is_among(&ERROR, class),
    }
}

fn fate_of(body: &Option<Msg>, class: u8) -> Fate
    ensures { result ≡ fate_of body.now class }
{
    if is_read(body, class) {
        Fate::Read
    } else if is_known(class) {
        Fate::Carried
    } else {
        Fate::Ignored
    }
}

fn line_of(body: &Option<Msg>, object: &RawObject) -> ObjectLine
    requires { size_of (seen object.now) < 2 ^ 16 }
    ensures { result ≡ line_of body.now (seen object.now) }
{
    ObjectLine {
        class: object.class,
        ctype: object.ctype,
        length: (4 + object.body.len()) as u16,
        fate: fate_of(body, object.class),
    }
}

fn lines_of(
    alloc: Global,
    body: &Option<Msg>,
    objects: &[RawObject],
) -> Result<Vec<ObjectLine>, OutOfMemory>
    requires { All (λ o. size_of (seen o) < 2 ^ 16) objects.now }
    ensures { IfOk result (λ lines. lines.items ≡ map (line_of body.now) (all_seen objects.now)) }
{
    let mut lines = Vec::with_capacity(alloc, objects.len())?;
    for object in objects {
        lines.push(line_of(body, object))?;
    }
    Ok(lines)
}

/// The objects of the message that the bytes spell, in order. NotMessage exactly where they spell none.
pub fn objects(alloc: Global, bytes: &[u8]) -> Result<Vec<ObjectLine>, DecodeError>
    ensures found { IfOk result (λ lines. HasLines bytes.now lines.items) }
    // What a packet is spelled by is listed, unless memory runs out.
    ensures only { (os : List Object) (p : Packet) → SpelledBy bytes.now os p
        → IfOk result (λ lines. lines.items ≡ map (line_of p.body) os) }
    ensures not_message { IsErrOf result DecodeError.NotMessage → (os : List Object) (p : Packet)
        → ¬ SpelledBy bytes.now os p }
{
    let spelled = read_message(alloc, bytes)?;
    match lines_of(alloc, &spelled.packet.body, &spelled.objects) {
        Ok(lines) => Ok(lines),
        Err(OutOfMemory) => Err(DecodeError::OutOfMemory),
    }
}
