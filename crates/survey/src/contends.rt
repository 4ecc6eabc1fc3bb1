//! Which two calls would contend for a label if two groups failed.

ghost use Rattle.std.specs.Prelude.{◌≡◌, ◌<◌, ◌++◌, Some, IfOk, OnOk, filter, flat_map, length, slice_get};
ghost use Rattle.survey.specs.Meetings.{first_meets, is_met, is_met_at_all, is_same_call, meet_lists, other_meets, others_meet, slot_meet, two_meet};

use crate::groups::{GroupLinks, is_hit};
use crate::slots::Slot;
use crate::views::CallView;
use ason_base::{CallRow, Copied, Group, OutOfMemory};
use mesh_laws::Contend;
use std::alloc::Global;

// Whether a group would hit one of the label's calls.
fn is_met(group: &GroupLinks, slot: &Slot) -> bool
    ensures { result ≡ is_met group.now slot.now }
{
    slot.takers.items().iter().any(|view| is_hit(group, view))
}

fn is_met_at_all(group: &GroupLinks, slots: &[Slot]) -> bool
    ensures { result ≡ is_met_at_all slots.now group.now }
{
    slots.iter().any(|slot| is_met(group, slot))
}

// The labels of which the group would hit a call.
fn slots_met(alloc: Global, group: &GroupLinks, slots: &[Slot]) -> Result<Vec<Slot>, OutOfMemory>
    ensures { IfOk result (λ met. met.items ≡ filter (is_met group.now) slots.now) }
{
    let mut met = Vec::new(alloc);
    for slot in slots {
        if is_met(group, slot) {
            met.push(slot.copy(alloc)?)?;
        }
    }
    Ok(met)
}

/// The groups that would hit a call of one of the labels.
pub(crate) fn groups_met(
    alloc: Global,
    groups: &[GroupLinks],
    slots: &[Slot],
) -> Result<Vec<GroupLinks>, OutOfMemory>
    ensures { IfOk result (λ met. met.items ≡ filter (is_met_at_all slots.now) groups.now) }
{
    let mut met = Vec::new(alloc);
    for group in groups {
        if is_met_at_all(group, slots) {
            met.push(group.copy(alloc)?)?;
        }
    }
    Ok(met)
}

fn is_same_call(one: &CallRow, two: &CallRow) -> bool
    ensures { result ≡ is_same_call one.now two.now }
{
    one.call == two.call && one.ingress == two.ingress
}

// Adds these two calls, if they are two.
fn push_two(
    groups: (Group, Group),
    slot: &Slot,
    one: &CallRow,
    two: &CallRow,
    contends: &mut Vec<Contend>,
) -> Result<(), OutOfMemory>
    ensures { OnOk result
        (contends.new.items ≡ contends.old.items ++ two_meet groups slot.now one.now two.now) }
{
    if !is_same_call(one, two) {
        contends.push(Contend {
            first: groups.0,
            second: groups.1,
            fibre: slot.fibre,
            label: slot.label,
            one: one.call,
            two: two.call,
        })?;
    }
    Ok(())
}

// Adds these two calls, if the second group hits the other one and they are two.
fn push_other(
    first: Group,
    second: &GroupLinks,
    slot: &Slot,
    one: &CallView,
    two: &CallView,
    contends: &mut Vec<Contend>,
) -> Result<(), OutOfMemory>
    ensures { OnOk result (contends.new.items ≡ contends.old.items
        ++ other_meets first second.now slot.now one.now two.now) }
{
    if is_hit(second, two) {
        push_two((first, second.group), slot, &one.call, &two.call, contends)?;
    }
    Ok(())
}

// Adds each pair of this call, which the first group hits, with one that the second group hits.
fn push_others(
    first: Group,
    second: &GroupLinks,
    slot: &Slot,
    one: &CallView,
    contends: &mut Vec<Contend>,
) -> Result<(), OutOfMemory>
    ensures { OnOk result (contends.new.items ≡ contends.old.items
        ++ others_meet first second.now slot.now one.now) }
{
    for two in slot.takers.items() {
        push_other(first, second, slot, one, two, contends)?;
    }
    Ok(())
}

// Adds the pairs of calls of the label.
fn push_slot(
    first: &GroupLinks,
    second: &GroupLinks,
    slot: &Slot,
    contends: &mut Vec<Contend>,
) -> Result<(), OutOfMemory>
    ensures { OnOk result
        (contends.new.items ≡ contends.old.items ++ slot_meet first.now second.now slot.now) }
{
    for one in slot.takers.items() {
        if is_hit(first, one) {
            push_others(first.group, second, slot, one, contends)?;
        }
    }
    Ok(())
}

// Adds the pairs of calls of these labels.
fn push_groups(
    first: &GroupLinks,
    second: &GroupLinks,
    slots: &[Slot],
    contends: &mut Vec<Contend>,
) -> Result<(), OutOfMemory>
    ensures { OnOk result (contends.new.items ≡ contends.old.items
        ++ flat_map (slot_meet first.now second.now) slots.now) }
{
    for slot in slots {
        push_slot(first, second, slot, contends)?;
    }
    Ok(())
}

// Which calls would contend if this group failed and one of the others.
fn contends_of_first(
    alloc: Global,
    first: &GroupLinks,
    others: &[GroupLinks],
    slots: &[Slot],
) -> Result<Vec<Contend>, OutOfMemory>
    ensures { IfOk result (λ c. c.items ≡ first_meets slots.now first.now others.now) }
{
    let met = slots_met(alloc, first, slots)?;
    let mut contends = Vec::new(alloc);
    for second in others {
        push_groups(first, second, &met, &mut contends)?;
    }
    Ok(contends)
}

/// Which calls would contend if the group at this place failed and a later one.
pub(crate) fn contends_at(
    alloc: Global,
    groups: &[GroupLinks],
    place: usize,
    slots: &[Slot],
) -> Result<Vec<Contend>, OutOfMemory>
    requires { place < length groups.now }
    ensures { IfOk result (λ c. slice_get (meet_lists slots.now groups.now) place ≡ Some c.items) }
{
    contends_of_first(alloc, &groups[place], &groups[place + 1..], slots)
}
