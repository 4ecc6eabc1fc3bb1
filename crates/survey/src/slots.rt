//! Labels that the backups of two guarded calls or more share.

ghost use Rattle.std.specs.{Prelude.{◌≡◌, ◌++◌, nat_lt, IfOk, OnOk, filter, flat_map}, List.AllByRecursion};
ghost use Rattle.ason_base.specs.InOrder.{in_order};
ghost use Rattle.mesh_laws.specs.Survey.{end_of, link_label};
ghost use Rattle.survey.specs.{Slots.{fibre_slots, is_user, fibre_labels, IsLabelInRange, link_slots, slot_at, users_of}, Views.takes};

use crate::views::{CallView, is_guarded, is_link, passes, takes};
use ason_base::{
    Copied, Fibre, Items, Label, LegRow, LinkId, LinkSpec, NodeId, OutOfMemory, copy_all,
};
use std::alloc::Global;

/// A label of a fibre, and the guarded calls whose backups take it, in order.
pub(crate) struct Slot {
    pub(crate) fibre: Fibre,
    pub(crate) label: Label,
    pub(crate) takers: Items<CallView>,
}

impl Copied for Slot {
    fn copy(&self, alloc: Global) -> Result<Slot, OutOfMemory> {
        let takers = copy_all(alloc, self.takers.items())?;
        Ok(Slot {
            fibre: self.fibre,
            label: self.label,
            takers: Items::from_vec(takers),
        })
    }
}

impl Drop for Slot {
    fn drop(self) {
        let Slot {
            fibre: _,
            label: _,
            takers: _,
        } = self;
    }
}

fn end_of(link: &LinkSpec, forward: bool) -> NodeId
    ensures { result ≡ end_of link.now forward }
{
    if forward { link.high } else { link.low }
}

// Adds the number of the label, if there is one and it is of this link.
fn push_label(
    wanted: LinkId,
    link: Option<LinkId>,
    label: Option<Label>,
    numbers: &mut Vec<u8>,
) -> Result<(), OutOfMemory>
    ensures numbers { OnOk result
        (numbers.new.items ≡ numbers.old.items ++ link_label wanted link label) }
    ensures labels { AllByRecursion IsLabelInRange numbers.old.items →
        OnOk result (AllByRecursion IsLabelInRange numbers.new.items) }
{
    if is_link(link, wanted) {
        if let Some(label) = label {
            numbers.push(label.number())?;
        }
    }
    Ok(())
}

// Adds the labels that the row's leg takes of the fibre that comes in over this link, if it is one of this node.
fn push_taken(
    row: &LegRow,
    node: NodeId,
    link: LinkId,
    numbers: &mut Vec<u8>,
) -> Result<(), OutOfMemory>
    ensures numbers { OnOk result
        (numbers.new.items ≡ numbers.old.items ++ fibre_labels node link row.now) }
    ensures labels { AllByRecursion IsLabelInRange numbers.old.items →
        OnOk result (AllByRecursion IsLabelInRange numbers.new.items) }
{
    if row.node == node {
        push_label(link, row.in_link, row.in_label, numbers)?;
        push_label(link, row.out_link, row.back_in, numbers)?;
    }
    Ok(())
}

fn label_numbers(
    alloc: Global,
    legs: &[LegRow],
    node: NodeId,
    link: LinkId,
) -> Result<Vec<u8>, OutOfMemory>
    ensures numbers { IfOk result (λ v. v.items ≡ flat_map (fibre_labels node link) legs.now) }
    ensures labels { IfOk result (λ v. AllByRecursion IsLabelInRange v.items) }
{
    let mut numbers = Vec::new(alloc);
    for row in legs {
        push_taken(row, node, link, &mut numbers)?;
    }
    Ok(numbers)
}

// The numbers, rising, each once.
fn rising(mut numbers: Vec<u8>) -> Vec<u8>
    ensures exact { result.items ≡ in_order nat_lt numbers.items }
    ensures labels { AllByRecursion IsLabelInRange numbers.items → AllByRecursion IsLabelInRange result.items }
{
    numbers.sort_unstable();
    numbers.dedup();
    numbers
}

fn is_user(view: &CallView, node: NodeId, link: LinkId) -> bool
    ensures { result ≡ is_user node link view.now }
{
    is_guarded(view) && passes(view, node, link)
}

// The guarded calls whose backups pass the link at this node.
fn users_of(
    alloc: Global,
    views: &[CallView],
    node: NodeId,
    link: LinkId,
) -> Result<Vec<CallView>, OutOfMemory>
    ensures { IfOk result (λ users. users.items ≡ users_of views.now node link) }
{
    let mut users = Vec::new(alloc);
    for view in views {
        if is_user(view, node, link) {
            users.push(view.copy(alloc)?)?;
        }
    }
    Ok(users)
}

fn takers_of(
    alloc: Global,
    users: &[CallView],
    node: NodeId,
    link: LinkId,
    label: Label,
) -> Result<Vec<CallView>, OutOfMemory>
    ensures { IfOk result (λ takers. takers.items ≡ filter (takes node link label) users.now) }
{
    let mut takers = Vec::new(alloc);
    for view in users {
        if takes(view, node, link, label) {
            takers.push(view.copy(alloc)?)?;
        }
    }
    Ok(takers)
}

// Adds the label of the fibre, where two of these calls or more take it.
fn push_slot(
    alloc: Global,
    link: &LinkSpec,
    forward: bool,
    label: Label,
    users: &[CallView],
    slots: &mut Vec<Slot>,
) -> Result<(), OutOfMemory>
    ensures { OnOk result
        (slots.new.items ≡ slots.old.items ++ slot_at link.now forward users.now label) }
{
    let takers = takers_of(alloc, users, end_of(link, forward), link.id, label)?;
    if takers.len() >= 2 {
        let fibre = Fibre {
            link: link.id,
            forward,
        };
        slots.push(Slot {
            fibre,
            label,
            takers: Items::from_vec(takers),
        })?;
    }
    Ok(())
}

// Adds those of these labels of the fibre that two of these calls or more take.
fn push_labels(
    alloc: Global,
    link: &LinkSpec,
    forward: bool,
    numbers: &[u8],
    users: &[CallView],
    slots: &mut Vec<Slot>,
) -> Result<(), OutOfMemory>
    requires { AllByRecursion IsLabelInRange numbers.now }
    ensures { OnOk result
        (slots.new.items ≡ slots.old.items ++ flat_map (slot_at link.now forward users.now) numbers.now) }
{
    for number in numbers {
        if let Some(label) = Label::new(*number) {
            push_slot(alloc, link, forward, label, users, slots)?;
        }
    }
    Ok(())
}

// Adds the shared labels of the fibre.
fn push_fibre(
    alloc: Global,
    link: &LinkSpec,
    forward: bool,
    legs: &[LegRow],
    views: &[CallView],
    slots: &mut Vec<Slot>,
) -> Result<(), OutOfMemory>
    ensures { OnOk result
        (slots.new.items ≡ slots.old.items ++ fibre_slots legs.now views.now link.now forward) }
{
    let node = end_of(link, forward);
    let numbers = rising(label_numbers(alloc, legs, node, link.id)?);
    let users = users_of(alloc, views, node, link.id)?;
    push_labels(alloc, link, forward, &numbers, &users, slots)
}

// Adds the shared labels of the link's fibres, the forward one first.
fn push_link(
    alloc: Global,
    link: &LinkSpec,
    legs: &[LegRow],
    views: &[CallView],
    slots: &mut Vec<Slot>,
) -> Result<(), OutOfMemory>
    ensures { OnOk result
        (slots.new.items ≡ slots.old.items ++ link_slots legs.now views.now link.now) }
{
    push_fibre(alloc, link, true, legs, views, slots)?;
    push_fibre(alloc, link, false, legs, views, slots)
}

/// The shared labels, in order of the link, its forward fibre first, and the label.
pub(crate) fn shared_slots(
    alloc: Global,
    links: &[LinkSpec],
    legs: &[LegRow],
    views: &[CallView],
) -> Result<Vec<Slot>, OutOfMemory>
    ensures { IfOk result
        (λ slots. slots.items ≡ flat_map (link_slots legs.now views.now) links.now) }
{
    let mut slots = Vec::new(alloc);
    for link in links {
        push_link(alloc, link, legs, views, &mut slots)?;
    }
    Ok(slots)
}
