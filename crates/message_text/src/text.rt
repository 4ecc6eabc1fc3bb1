//! What is printed of a message.

ghost use Rattle.std.specs.{Prelude.{◌≡◌, OnOk}, List.flat_map};
ghost use Rattle.message_text.specs.DecodeText.{acks_text, fate_word, packet_head_text, id_text, lsp_and_egress, more_text, object_text, packet_text, subject_text, type_word};
ghost use Rattle.ason_base.specs.Texts.{Appends};

use ason_base::{Lsp, Msg, MsgId, NodeId, OutOfMemory, Packet};
use rsvp_messages::{Fate, ObjectLine};

fn type_word(body: &Option<Msg>) -> &'static str
    ensures { result.now ≡ type_word body.now }
{
    match body {
        Some(Msg::Path { .. }) => "Path",
        Some(Msg::Resv { .. }) => "Resv",
        Some(Msg::PathErr { .. }) => "PathErr",
        Some(Msg::PathTear { .. }) => "PathTear",
        Some(Msg::Notify { .. }) => "Notify",
        None => "Ack",
    }
}

fn push_id(text: &mut String, id: Option<MsgId>) -> Result<(), OutOfMemory>
    ensures { OnOk result (Appends text.old text.new (id_text id)) }
{
    match id {
        None => text.push_str("-")?,
        Some(id) => write!(text, "{}", id.number)?,
    }
    Ok(())
}

// Each number with a comma in front.
fn push_more(text: &mut String, acks: &[MsgId]) -> Result<(), OutOfMemory>
    ensures { OnOk result (Appends text.old text.new (flat_map more_text acks.now)) }
{
    for ack in acks {
        write!(text, ",{}", ack.number)?;
    }
    Ok(())
}

fn push_acks(text: &mut String, acks: &[MsgId]) -> Result<(), OutOfMemory>
    ensures { OnOk result (Appends text.old text.new (acks_text acks.now)) }
{
    match acks {
        [] => {
            text.push_str("-")?;
            Ok(())
        }
        [first, others @ ..] => {
            write!(text, "{}", first.number)?;
            push_more(text, others)
        }
    }
}

fn push_lsp(text: &mut String, lsp: &Lsp, egress: NodeId) -> Result<(), OutOfMemory>
    ensures { OnOk result (Appends text.old text.new (lsp_and_egress (lsp.now, egress))) }
{
    let ingress = lsp.ingress.0;
    let tunnel = lsp.tunnel;
    let number = lsp.lsp;
    let egress = egress.0;
    write!(text, " lsp {ingress}.{tunnel}.{number} egress {egress}")?;
    Ok(())
}

fn push_subject(text: &mut String, body: &Option<Msg>) -> Result<(), OutOfMemory>
    ensures { OnOk result (Appends text.old text.new (subject_text body.now)) }
{
    match body {
        None => {
            text.push_str(" lsp - egress -")?;
            Ok(())
        }
        Some(
            Msg::Path { lsp, egress, .. }
            | Msg::Resv { lsp, egress, .. }
            | Msg::PathErr { lsp, egress, .. }
            | Msg::PathTear { lsp, egress, .. }
            | Msg::Notify { lsp, egress, .. },
        ) => push_lsp(text, lsp, *egress),
    }
}

fn push_head(text: &mut String, packet: &Packet) -> Result<(), OutOfMemory>
    ensures { OnOk result (Appends text.old text.new (packet_head_text packet.now)) }
{
    text.push_str(type_word(&packet.body))?;
    text.push_str(" id ")?;
    push_id(text, packet.id)?;
    text.push_str(" acks ")?;
    push_acks(text, packet.acks.items())?;
    push_subject(text, &packet.body)?;
    text.push_str("\n")?;
    Ok(())
}

fn fate_word(fate: Fate) -> &'static str
    ensures { result.now ≡ fate_word fate }
{
    match fate {
        Fate::Read => "read",
        Fate::Carried => "carried",
        Fate::Ignored => "ignored",
    }
}

fn push_object(text: &mut String, object: &ObjectLine) -> Result<(), OutOfMemory>
    ensures { OnOk result (Appends text.old text.new (object_text object.now)) }
{
    let class = object.class;
    let ctype = object.ctype;
    let length = object.length;
    let fate = fate_word(object.fate);
    writeln!(text, " {class}/{ctype} {length} {fate}")?;
    Ok(())
}

fn push_objects(text: &mut String, objects: &[ObjectLine]) -> Result<(), OutOfMemory>
    ensures { OnOk result (Appends text.old text.new (flat_map object_text objects.now)) }
{
    for object in objects {
        push_object(text, object)?;
    }
    Ok(())
}

/// Appends the head of a message, and a line for each object.
pub(crate) fn push_packet(
    text: &mut String,
    packet: &Packet,
    objects: &[ObjectLine],
) -> Result<(), OutOfMemory>
    ensures { OnOk result (Appends text.old text.new (packet_text packet.now objects.now)) }
{
    push_head(text, packet)?;
    push_objects(text, objects)
}
