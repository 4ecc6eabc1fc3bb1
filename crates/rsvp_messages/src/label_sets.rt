//! The labels that a Path's LABEL_SETs allow (RFC 3473, section 2.6).

ghost use Rattle.std.specs.{Prelude.{◌≡◌, ◌≤◌, List, filter, if◌then◌else◌, IfOk, IsErrOf}, List.list_any};
ghost use Rattle.ason_base.specs.{Labels.{up_to, with_label}, declared.limits.TheConstants.MOST_LABELS};
ghost use Rattle.rsvp_objects.specs.{declared.label_set.LabelSetObject.LabelSetObject, LabelSets.IsLabelSet};
ghost use Rattle.rsvp_messages.specs.{Messages.{HasSet, allows, excludes, includes}, Parts.HasEach, Seen.all_seen};
ghost use Rattle.wire_buf.specs.Codecs.{Decodes};

use crate::classes::LABEL_SET;
use crate::lookup::one;
use crate::object_table::Objects;
use crate::raw::RawObject;
use ason_base::{DecodeError, Label, LabelSet};
use rsvp_objects::{LabelSetObject, read_label_set};
use std::alloc::Global;

/// The C-Type of a LABEL_SET.
const GENERALIZED: u8 = 1;

fn label_sets(alloc: Global, objects: &[RawObject]) -> Result<Vec<LabelSetObject>, DecodeError>
    ensures found { IfOk result (λ sets. HasEach 36 1 IsLabelSet
        (all_seen objects.now) sets.items) }
    ensures only { (sets : List LabelSetObject)
        → HasEach 36 1 IsLabelSet (all_seen objects.now) sets
        → IfOk result (λ read. read.items ≡ sets) }
    ensures not_message { IsErrOf result DecodeError.NotMessage → (sets : List LabelSetObject)
        → ¬ HasEach 36 1 IsLabelSet (all_seen objects.now) sets }
{
    let mut sets = Vec::new(alloc);
    push_each!(sets, objects, LABEL_SET, GENERALIZED, read_label_set);
    Ok(sets)
}

fn any_includes(sets: &[LabelSetObject]) -> bool
    ensures { result ≡ list_any (λ x. x.include) sets.now }
{
    sets.iter().any(|set| set.include)
}

fn includes(sets: &[LabelSetObject], label: Label) -> bool
    ensures { result ≡ list_any (includes label) sets.now }
{
    sets.iter().any(|set| set.include && set.labels.has(label))
}

fn excludes(sets: &[LabelSetObject], label: Label) -> bool
    ensures { result ≡ list_any (excludes label) sets.now }
{
    sets.iter().any(|set| !set.include && set.labels.has(label))
}

fn allows(sets: &[LabelSetObject], label: Label) -> bool
    ensures { result ≡ allows sets.now label }
{
    (!any_includes(sets) || includes(sets, label)) && !excludes(sets, label)
}

// The set, and the label of this number where the LABEL_SETs allow it.
fn with_allowed(set: LabelSet, sets: &[LabelSetObject], n: u8) -> LabelSet
    requires some { 1 ≤ n }
    requires few { n ≤ MOST_LABELS }
    ensures { result ≡ (if allows sets.now n then with_label set n else set) }
{
    match Label::new(n) {
        Some(label) if allows(sets, label) => set.with(label),
        _ => set,
    }
}

// The same, label by label.
fn allowed_of_all(sets: &[LabelSetObject]) -> LabelSet
    ensures { result ≡ filter (allows sets.now) (up_to MOST_LABELS) }
{
    let mut set = LabelSet::empty();
    'labels: for n in 1..81u8 {
        set = with_allowed(set, sets, n);
    }
    set
}

// The labels that all LABEL_SETs allow. Where there is one, and it includes, these are its own.
fn allowed(sets: &[LabelSetObject]) -> LabelSet
    ensures { result ≡ filter (allows sets.now) (up_to MOST_LABELS) }
{
    match sets {
        [set] if set.include => {
            set.labels.rises();
            set.labels.copy()
        }
        _ => allowed_of_all(sets),
    }
}

/// The labels that the LABEL_SETs allow. NotMessage exactly where one of them has no meaning.
pub(crate) fn label_set(alloc: Global, objects: &Objects) -> Result<LabelSet, DecodeError>
    ensures { Decodes (HasSet (all_seen objects.now)) result }
{
    if let Some(body) = one(objects, LABEL_SET, GENERALIZED) {
        let Some(set) = read_label_set(body) else {
            return Err(DecodeError::NotMessage);
        };
        return Ok(allowed(&[set]));
    }
    let sets = label_sets(alloc, objects.items())?;
    Ok(allowed(&sets))
}
