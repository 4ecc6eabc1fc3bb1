//! The top table of a plan.

ghost use Rattle.std.specs.Prelude.{◌≡◌, IfNone, IsTrue};
ghost use Rattle.toml.specs.View.{view};
ghost use Rattle.plan_reader.specs.PlanTables.{has_top_counts, has_top_kinds, ticks_of, top_kind, top_value_kind};

use crate::faults::PlanKind;
use crate::limits::{MOST_LINES, MOST_WAIT};
use crate::values::{
    Shape, are_tables_at, are_texts_at, count, has_strange, is_integer_at, lacks, number_or,
};
use ason_base::limits::{MOST_LINKS, MOST_NODES};
use toml::Value;

fn has_kinds(value: &Value) -> bool
    ensures { result ≡ has_top_kinds (view value.now) }
{
    is_integer_at(value, "wait")
        && are_texts_at(value, "script")
        && are_tables_at(value, "node")
        && are_tables_at(value, "link")
}

fn has_counts(value: &Value) -> bool
    ensures { result ≡ has_top_counts (view value.now) }
{
    let nodes = count(value, "node");
    1 <= nodes
        && nodes <= MOST_NODES
        && count(value, "link") <= MOST_LINKS
        && count(value, "script") <= MOST_LINES
}

fn value_kind(value: &Value) -> Option<PlanKind>
    ensures first { result ≡ top_value_kind (view value.now) }
    ensures counts { IfNone result (IsTrue (has_top_counts (view value.now))) }
{
    if !has_counts(value) {
        return Some(PlanKind::Count);
    }
    if number_or(value, "wait", 0, 0, MOST_WAIT).is_none() {
        return Some(PlanKind::Range);
    }
    None
}

/// The ticks that a call waits before it goes back; 0: by command alone.
pub fn ticks(value: &Value) -> u32
    ensures { result ≡ ticks_of (view value.now) }
{
    number_or(value, "wait", 0, 0, MOST_WAIT).unwrap_or(0)
}

/// The first fault of the top table itself.
pub fn top_kind(value: &Value) -> Option<PlanKind>
    ensures first { result ≡ top_kind (view value.now) }
    ensures counts { IfNone result (IsTrue (has_top_counts (view value.now))) }
{
    if has_strange(Shape::OfTop, value) {
        return Some(PlanKind::Key);
    }
    if lacks(value, "node") {
        return Some(PlanKind::Missing);
    }
    if !has_kinds(value) {
        return Some(PlanKind::Kind);
    }
    value_kind(value)
}
