//! What each risk group would hit, and which calls would contend, as text.

ghost use Rattle.std.specs.{Prelude.{◌≡◌, IfOk, OnOk, string_bytes}, List.flat_map};
ghost use Rattle.ason_base.specs.Texts.{Appends};
ghost use Rattle.table_text.specs.SurveyText.{both_names, calm_line, contend_line, group_after, group_text, hit_line, label_place, more_name, names_after, names_text, owner_name, survey_start};

use crate::table::{call_name, node_name};
use ason_base::{CallNo, Fibre, Group, OutOfMemory};
use mesh_laws::{Contend, Hit};
use plan_reader::Plan;
use std::alloc::Global;

/// What a survey tells first: whether the network is calm, and the calls that each group would hit, those with a reserved
/// backup and the others.
pub fn survey_start(
    alloc: Global,
    plan: &Plan,
    calm: bool,
    hits: &[Hit],
) -> Result<String, OutOfMemory>
    ensures { IfOk result (λ text. string_bytes text ≡ survey_start plan.now calm hits.now) }
{
    let mut text = String::from_str(alloc, calm_line(calm))?;
    push_hits(&mut text, plan, hits)?;
    Ok(text)
}

fn calm_line(calm: bool) -> &'static str
    ensures { result.now ≡ calm_line calm }
{
    if calm {
        "survey calm yes\n"
    } else {
        "survey calm no\n"
    }
}

// Hits

fn push_hits(text: &mut String, plan: &Plan, hits: &[Hit]) -> Result<(), OutOfMemory>
    ensures { OnOk result (Appends text.old text.new (flat_map (hit_line plan.now) hits.now)) }
{
    for hit in hits {
        push_hit(text, plan, hit)?;
    }
    Ok(())
}

fn push_hit(text: &mut String, plan: &Plan, hit: &Hit) -> Result<(), OutOfMemory>
    ensures { OnOk result (Appends text.old text.new (hit_line plan.now hit.now)) }
{
    push_group_after(text, "group ", hit.group)?;
    push_names_after(text, plan, " guarded ", hit.guarded.items())?;
    push_names_after(text, plan, " bare ", hit.bare.items())?;
    text.push_str("\n")?;
    Ok(())
}

fn push_group_after(text: &mut String, word: &str, group: Group) -> Result<(), OutOfMemory>
    ensures { OnOk result (Appends text.old text.new (group_after word.now group)) }
{
    text.push_str(word)?;
    push_group(text, group)
}

/// Appends a group, as `srlg N` or `link N`.
pub fn push_group(text: &mut String, group: Group) -> Result<(), OutOfMemory>
    ensures { OnOk result (Appends text.old text.new (group_text group)) }
{
    match group {
        Group::Srlg(number) => write!(text, "srlg {number}")?,
        Group::Link(link) => write!(text, "link {}", link.0)?,
    }
    Ok(())
}

fn push_names_after(
    text: &mut String,
    plan: &Plan,
    word: &str,
    calls: &[CallNo],
) -> Result<(), OutOfMemory>
    ensures { OnOk result (Appends text.old text.new (names_after plan.now word.now calls.now)) }
{
    text.push_str(word)?;
    push_names(text, plan, calls)
}

fn push_names(text: &mut String, plan: &Plan, calls: &[CallNo]) -> Result<(), OutOfMemory>
    ensures { OnOk result (Appends text.old text.new (names_text plan.now calls.now)) }
{
    match calls {
        [] => {
            text.push_str("-")?;
            Ok(())
        }
        [first, others @ ..] => {
            text.push_str(call_name(plan, *first))?;
            push_more(text, plan, others)
        }
    }
}

// Each name with a comma in front.
fn push_more(text: &mut String, plan: &Plan, calls: &[CallNo]) -> Result<(), OutOfMemory>
    ensures { OnOk result (Appends text.old text.new (flat_map (more_name plan.now) calls.now)) }
{
    for call in calls {
        let name = call_name(plan, *call);
        write!(text, ",{name}")?;
    }
    Ok(())
}

// Contends

/// Appends each two calls that would contend for a label if two groups failed, with the label and the node that keeps it.
pub fn push_contends(
    text: &mut String,
    plan: &Plan,
    contends: &[Contend],
) -> Result<(), OutOfMemory>
    ensures { OnOk result
        (Appends text.old text.new (flat_map (contend_line plan.now) contends.now)) }
{
    for contend in contends {
        push_contend(text, plan, contend)?;
    }
    Ok(())
}

fn push_contend(text: &mut String, plan: &Plan, contend: &Contend) -> Result<(), OutOfMemory>
    ensures { OnOk result (Appends text.old text.new (contend_line plan.now contend.now)) }
{
    push_group_after(text, "contend ", contend.first)?;
    push_group_after(text, " ", contend.second)?;
    push_place(text, plan, contend)?;
    push_both(text, plan, contend)
}

// The label, and the node that keeps it.
fn push_place(text: &mut String, plan: &Plan, contend: &Contend) -> Result<(), OutOfMemory>
    ensures { OnOk result (Appends text.old text.new (label_place plan.now contend.now)) }
{
    let link = contend.fibre.link.0;
    let label = contend.label.number();
    let owner = owner_name(plan, contend.fibre);
    write!(text, " {link}/{label} {owner}")?;
    Ok(())
}

fn owner_name(plan: &Plan, fibre: Fibre) -> &str
    ensures { result.now ≡ owner_name plan.now fibre }
{
    match plan.topology.receiver(fibre) {
        None => "",
        Some(node) => node_name(plan, node),
    }
}

fn push_both(text: &mut String, plan: &Plan, contend: &Contend) -> Result<(), OutOfMemory>
    ensures { OnOk result (Appends text.old text.new (both_names plan.now contend.now)) }
{
    let one = call_name(plan, contend.one);
    let two = call_name(plan, contend.two);
    write!(text, " {one} {two}\n")?;
    Ok(())
}
