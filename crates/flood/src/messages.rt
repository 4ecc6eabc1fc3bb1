//! Flood messages and their bytes.

ghost use Rattle.std.specs.Prelude.{◌≡◌, ◌<◌, ◌≤◌, ◌+◌, ◌^◌, ◌++◌, drop, length, IfOk, IsErrOf, OnOk};
ghost use Rattle.byteorder.specs.Endian.{big_bytes, big_number};
ghost use Rattle.ason_base.specs.declared.network.TeRow.{TeRow};
ghost use Rattle.flood.specs.{declared.messages.FloodMsg.FloodMsg, Messages.{CanBeWritten, FitsEnvelope, SpellsFlood, flood_bytes}};
ghost use Rattle.te_tlv.specs.{Rows.SpellsRow, Written.IsRowWritable};

use crate::laws::floods_come_back;
use crate::message_refs::FloodRef;
use ason_base::{DecodeError, NodeId, OutOfMemory, TeRow};
use byteorder::{BigEndian, ByteOrder};
use std::alloc::Global;
use te_tlv::writing::row_fits;
use te_tlv::{append_row, read_row};

/// The kinds of flood messages.
const ROW: u8 = 1;

const ACK: u8 = 2;

/// A flood message.
pub enum FloodMsg {
    /// A row, numbered on its channel from 1, as its origin gives it.
    Row {
        number: u32,
        origin: NodeId,
        row: TeRow,
    },
    /// Acknowledges the row of this number.
    Ack {
        number: u32,
    },
}

impl Drop for FloodMsg {
    fn drop(self) {
        match self {
            FloodMsg::Row {
                number: _,
                origin: _,
                row: _,
            }
            | FloodMsg::Ack { number: _ } => {}
        }
    }
}

/// The number in the four bytes from this place on.
fn number_at(bytes: &[u8], place: usize) -> u32
    requires { place + 4 ≤ length bytes.now }
    ensures { result ≡ big_number 4 (drop place bytes.now) }
{
    let (_, rest) = bytes.split_at(place);
    BigEndian::read_u32(rest)
}

/// The row behind the envelope.
fn row_behind(alloc: Global, origin: NodeId, bytes: &[u8]) -> Result<TeRow, DecodeError>
    requires { 12 ≤ length bytes.now }
    ensures found { IfOk result (λ row. SpellsRow origin (drop 12 bytes.now) row) }
    ensures only { (row : TeRow) → SpellsRow origin (drop 12 bytes.now) row →
        IfOk result (λ read. read ≡ row) }
    ensures not_message { IsErrOf result DecodeError.NotMessage → (row : TeRow) →
        ¬ SpellsRow origin (drop 12 bytes.now) row }
{
    let (_, tlv) = bytes.split_at(12);
    read_row(alloc, origin, tlv)
}

/// The flood message that the bytes spell. NotMessage exactly where they spell none.
pub fn decode_flood(alloc: Global, bytes: &[u8]) -> Result<FloodMsg, DecodeError>
    // What is read is spelled so.
    ensures found { IfOk result (λ m. SpellsFlood bytes.now m) }
    // What is spelled so is read, unless memory runs out.
    ensures only { (m : FloodMsg) → SpellsFlood bytes.now m → IfOk result (λ read. read ≡ m) }
    ensures not_message { IsErrOf result DecodeError.NotMessage → (m : FloodMsg) →
        ¬ SpellsFlood bytes.now m }
{
    if bytes.len() < 8 {
        return Err(DecodeError::NotMessage);
    }
    let number = number_at(bytes, 4);
    if bytes[0] == ACK && bytes.len() == 8 {
        return Ok(FloodMsg::Ack { number });
    }
    if bytes[0] != ROW || bytes.len() < 12 {
        return Err(DecodeError::NotMessage);
    }
    let origin = NodeId(number_at(bytes, 8));
    match row_behind(alloc, origin, bytes) {
        Ok(row) => Ok(FloodMsg::Row {
            number,
            origin,
            row,
        }),
        Err(error) => Err(error),
    }
}

/// The head of a message: its kind, three zeros and its number.
fn head(kind: u8, number: u32) -> [u8; 8]
    ensures { result ≡ big_bytes 1 kind ++ big_bytes 3 0 ++ big_bytes 4 number }
{
    let n = number.to_be_bytes();
    [kind, 0, 0, 0, n[0], n[1], n[2], n[3]]
}

// Laws: what the types of a flood message say of its numbers. Calling them changes nothing.

fn number_fits(n: u32)
    ensures { n < 2 ^ 32 }
{}

fn message_fits(m: &FloodRef)
    ensures { FitsEnvelope m.now }
{
    number_fits(m.number);
    match &m.row {
        None => {}
        Some((origin, row)) => {
            number_fits(origin.0);
            row_fits(row);
        }
    }
}

// Appends the bytes of an acknowledgement.
fn push_ack(out: &mut Vec<u8>, number: u32) -> Result<(), OutOfMemory>
    ensures { OnOk result (out.new.items ≡ out.old.items ++ flood_bytes (FloodMsg.Ack number)) }
{
    out.extend_from_slice(&head(ACK, number))?;
    Ok(())
}

// Appends the bytes of a row's message.
fn push_row(out: &mut Vec<u8>, number: u32, origin: NodeId, row: &TeRow) -> Result<(), OutOfMemory>
    requires { IsRowWritable origin row.now }
    ensures { OnOk result
        (out.new.items ≡ out.old.items ++ flood_bytes (FloodMsg.Row number origin row.now)) }
{
    out.extend_from_slice(&head(ROW, number))?;
    out.extend_from_slice(&origin.0.to_be_bytes())?;
    append_row(out, origin, row)
}

// Appends the bytes of a flood message.
fn push_message(out: &mut Vec<u8>, m: &FloodRef) -> Result<(), OutOfMemory>
    requires { CanBeWritten m.now }
    ensures { OnOk result (out.new.items ≡ out.old.items ++ flood_bytes m.now) }
{
    match &m.row {
        None => push_ack(out, m.number),
        Some((origin, row)) => push_row(out, m.number, *origin, row),
    }
}

/// Appends the bytes of a flood message, with zeros where nothing reads.
pub fn append_flood_ref(out: &mut Vec<u8>, m: &FloodRef) -> Result<(), OutOfMemory>
    requires { CanBeWritten m.now }
    ensures written { OnOk result (out.new.items ≡ out.old.items ++ flood_bytes m.now) }
    // What is written is read as the message again.
    ensures spelled { SpellsFlood (flood_bytes m.now) m.now }
{
    floods_come_back();
    message_fits(m);
    push_message(out, m)
}

/// Appends the bytes of a flood message, with zeros where nothing reads.
pub fn append_flood(out: &mut Vec<u8>, m: &FloodMsg) -> Result<(), OutOfMemory>
    requires { CanBeWritten m.now }
    ensures written { OnOk result (out.new.items ≡ out.old.items ++ flood_bytes m.now) }
    // What is written is read as the message again.
    ensures spelled { SpellsFlood (flood_bytes m.now) m.now }
{
    append_flood_ref(out, &FloodRef::of(m))
}

/// The bytes of a flood message, as they are appended.
pub fn encode_flood(alloc: Global, m: &FloodMsg) -> Result<Vec<u8>, OutOfMemory>
    requires { CanBeWritten m.now }
    ensures written { IfOk result (λ bytes. bytes.items ≡ flood_bytes m.now) }
    // What is written is read as the message again.
    ensures spelled { IfOk result (λ bytes. SpellsFlood bytes.items m.now) }
{
    let mut bytes = Vec::new(alloc);
    append_flood(&mut bytes, m)?;
    Ok(bytes)
}
