//! What the line of a trace says.

ghost use Rattle.std.specs.{Prelude.{◌≡◌, IfOk, bytes_eq}, Option.option_map};
ghost use Rattle.trace_text.specs.{CommandText.command_text, EntryForms.{deliver_of, entry_of, event_of, has_lowercase, next_post, node_entry, node_of, noise_bytes, noise_of, post_entry, post_now, said_now, said_of, stamp_of}, Words.parted};

use crate::commands::push_command;
use crate::words::{behind_word, parted};
use ason_base::copies::Copied;
use ason_base::{Boxed, Bytes, Command, Entry, Event, NodeId, OutOfMemory, number_within};
use plan_reader::{Line, Plan, node_named};
use std::alloc::Global;
use wire_buf::read_hex;

/// A stamp or the number of a frame, where the word writes one.
pub fn stamp_of(word: &[u8]) -> Option<u64>
    ensures { result ≡ stamp_of word.now }
{
    match number_within(word, 0, u64::MAX) {
        Ok(n) => Some(n),
        Err(_) => None,
    }
}

fn node_of(plan: &Plan, name: &[u8]) -> Option<NodeId>
    ensures { result ≡ node_of plan.now name.now }
{
    node_named(&plan.node_names, plan.topology.nodes(), name)
}

fn has_lowercase(word: &[u8]) -> bool
    ensures { result ≡ has_lowercase word.now }
{
    word.iter().any(|b| b.is_ascii_lowercase())
}

// The bytes of a noise, where the word writes them.
fn noise_bytes(alloc: Global, word: &[u8]) -> Result<Option<Bytes>, OutOfMemory>
    ensures { IfOk result (λ bytes. bytes ≡ noise_bytes word.now) }
{
    if word == b"-".as_slice() {
        return Ok(Some(Bytes::new(alloc)));
    }
    if word.is_empty() || has_lowercase(word) {
        return Ok(None);
    }
    match read_hex(alloc, word)? {
        None => Ok(None),
        Some(bytes) => Ok(Some(Bytes::from_vec(bytes))),
    }
}

// `FROM NUMBER`
fn deliver_of(plan: &Plan, node: NodeId, text: &[u8]) -> Option<Event>
    ensures { result ≡ deliver_of plan.now node (parted 32 text.now) }
{
    let (from, number) = parted(text, b' ')?;
    let from = node_of(plan, from)?;
    let number = stamp_of(number)?;
    Some(Event::Deliver {
        to: node,
        from,
        number,
    })
}

// `FROM HEX`
fn noise_of(
    alloc: Global,
    plan: &Plan,
    node: NodeId,
    text: &[u8],
) -> Result<Option<Event>, OutOfMemory>
    ensures { IfOk result (λ e. e ≡ noise_of plan.now node (parted 32 text.now)) }
{
    let Some((from, hex)) = parted(text, b' ') else {
        return Ok(None);
    };
    let Some(from) = node_of(plan, from) else {
        return Ok(None);
    };
    match noise_bytes(alloc, hex)? {
        None => Ok(None),
        Some(bytes) => Ok(Some(Event::Noise {
            to: node,
            from,
            bytes,
        })),
    }
}

fn event_of(
    alloc: Global,
    plan: &Plan,
    node: NodeId,
    text: &[u8],
) -> Result<Option<Event>, OutOfMemory>
    ensures { IfOk result (λ e. e ≡ event_of plan.now node text.now) }
{
    if text == b"tick".as_slice() {
        return Ok(Some(Event::Tick { node }));
    }
    if text == b"desk".as_slice() {
        return Ok(Some(Event::Desk { node }));
    }
    if let Some(text) = behind_word(b"deliver ".as_slice(), text) {
        return Ok(deliver_of(plan, node, text));
    }
    match behind_word(b"noise ".as_slice(), text) {
        None => Ok(None),
        Some(text) => noise_of(alloc, plan, node, text),
    }
}

// `NODE WHAT`
fn node_entry(
    alloc: Global,
    plan: &Plan,
    stamp: u64,
    text: &[u8],
) -> Result<Option<Entry>, OutOfMemory>
    ensures { IfOk result (λ e. e ≡ node_entry plan.now stamp (parted 32 text.now)) }
{
    let Some((name, what)) = parted(text, b' ') else {
        return Ok(None);
    };
    let Some(node) = node_of(plan, name) else {
        return Ok(None);
    };
    match event_of(alloc, plan, node, what)? {
        None => Ok(None),
        Some(event) => Ok(Some(Entry {
            stamp,
            node: Some(node),
            event,
        })),
    }
}

// The command of the next line that posts one, and the lines behind it.
fn next_post(lines: &[Line]) -> Option<(&Command, &[Line])>
    ensures { option_map post_now result ≡ next_post lines.now }
{
    let mut left = lines;
    'lines: while let Some((line, others)) = left.split_first() {
        left = others;
        if let Line::Post(command) = line {
            return Some((command, left));
        }
    }
    None
}

fn is_command(
    alloc: Global,
    plan: &Plan,
    command: &Command,
    text: &[u8],
) -> Result<bool, OutOfMemory>
    ensures { IfOk result (λ b. b ≡ bytes_eq text.now (command_text plan.now command.now)) }
{
    let mut own = String::new(alloc);
    push_command(&mut own, plan, command)?;
    Ok(text == own.as_bytes())
}

// The entry of the next line that posts a command, where the text is that of this command.
fn post_entry<'a>(
    alloc: Global,
    plan: &Plan,
    lines: &'a [Line],
    stamp: u64,
    text: &[u8],
) -> Result<Option<(Entry, &'a [Line])>, OutOfMemory>
    ensures { IfOk result (λ e. option_map said_now e
        ≡ post_entry plan.now stamp text.now (next_post lines.now)) }
{
    let Some((command, left)) = next_post(lines) else {
        return Ok(None);
    };
    if !is_command(alloc, plan, command, text)? {
        return Ok(None);
    }
    let command = Boxed::new(alloc, command.copy(alloc)?)?;
    let entry = Entry {
        stamp,
        node: None,
        event: Event::Post { command },
    };
    Ok(Some((entry, left)))
}

fn entry_of<'a>(
    alloc: Global,
    plan: &Plan,
    lines: &'a [Line],
    stamp: u64,
    text: &[u8],
) -> Result<Option<(Entry, &'a [Line])>, OutOfMemory>
    ensures { IfOk result (λ e. option_map said_now e
        ≡ entry_of plan.now lines.now stamp text.now) }
{
    if let Some(text) = behind_word(b"- post ".as_slice(), text) {
        return post_entry(alloc, plan, lines, stamp, text);
    }
    match node_entry(alloc, plan, stamp, text)? {
        None => Ok(None),
        Some(entry) => Ok(Some((entry, lines))),
    }
}

/// The entry that a line says, and the script lines that are left behind the one that it posts; none where it is no
/// line of a trace.
pub fn said_of<'a>(
    alloc: Global,
    plan: &Plan,
    lines: &'a [Line],
    line: &[u8],
) -> Result<Option<(Entry, &'a [Line])>, OutOfMemory>
    ensures { IfOk result (λ e. option_map said_now e ≡ said_of plan.now lines.now line.now) }
{
    let Some((stamp, text)) = parted(line, b' ') else {
        return Ok(None);
    };
    match stamp_of(stamp) {
        None => Ok(None),
        Some(stamp) => entry_of(alloc, plan, lines, stamp, text),
    }
}
