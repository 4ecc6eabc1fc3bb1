//! The links of a plan.

ghost use Rattle.std.specs.Prelude.{◌≡◌, ◌≤◌, Err, IfOk, Ok, Some, length};
ghost use Rattle.toml.specs.View.{view};
ghost use Rattle.ason_base.specs.Network.{is_distinct};
ghost use Rattle.plan_reader.specs.{Entries.{FailsBy, FailsFirst}, PlanTables.{end_ids, end_name, link_ends_of, has_link_counts, has_link_kinds, labels_in, lacks_link_key, last_link, plan_link, link_of_numbers, link_with, metric_in, link_numbers, srlg_in, srlgs_in, views}, Plans.plan_links, declared.faults.PlanError.PlanError};

use crate::faults::{EntryError, PlanEntry, PlanError, PlanKind, error_at};
use crate::limits::MOST_NUMBER;
use crate::nodes::{Nodes, id, node_named};
use crate::values::{
    Shape, are_integers_at, are_texts_at, count, elements, has_strange, is_integer_at, lacks,
    number, number_of, number_or, text_of,
};
use ason_base::limits::{MOST_LABELS, MOST_LINKS, MOST_METRIC, MOST_SRLGS};
use ason_base::{LinkId, LinkSpec, NodeId, Numbers, OutOfMemory};
use std::alloc::Global;
use toml::Value;

/// The most labels, as a number of a table.
const LABELS: u32 = MOST_LABELS as u32;

fn end_name(value: &Value, k: usize) -> &[u8]
    ensures { result.now ≡ end_name (view value.now) k }
{
    match elements(value, "ends").get(k) {
        None => &[],
        Some(end) => text_of(end),
    }
}

fn end_ids(a: Option<NodeId>, b: Option<NodeId>) -> Option<(NodeId, NodeId)>
    ensures { result ≡ end_ids a b }
{
    match (a, b) {
        (Some(a), Some(b)) => {
            if a < b {
                Some((a, b))
            } else if b < a {
                Some((b, a))
            } else {
                None
            }
        }
        _ => None,
    }
}

// The two ends of a link, the lesser first: none where one is unknown or they are the same.
fn ends(value: &Value, known: &Nodes) -> Option<(NodeId, NodeId)>
    ensures { result ≡ link_ends_of known.now (view value.now) }
{
    let first = node_named(known.names(), known.nodes(), end_name(value, 0));
    let second = node_named(known.names(), known.nodes(), end_name(value, 1));
    end_ids(first, second)
}

fn labels(value: &Value) -> Option<u32>
    ensures { result ≡ labels_in (view value.now) }
{
    number(value, "labels", 1, LABELS)
}

fn metric(value: &Value) -> Option<u32>
    ensures { result ≡ metric_in (view value.now) }
{
    number_or(value, "metric", 1, 1, MOST_METRIC)
}

fn srlg(value: &Value) -> Option<u32>
    ensures { result ≡ srlg_in (view value.now) }
{
    number_of(value, 0, MOST_NUMBER)
}

// The SRLGs of a link: none where one is out of reach.
fn srlgs(alloc: Global, value: &Value) -> Result<Option<Numbers>, OutOfMemory>
    ensures { IfOk result (λ s. s ≡ srlgs_in (view value.now)) }
{
    let values = elements(value, "srlg");
    let mut numbers = Numbers::new(alloc);
    'reading: for i in 0..values.len() {
        let Some(number) = srlg(&values[i]) else {
            return Ok(None);
        };
        numbers.push(number)?;
    }
    Ok(Some(numbers))
}

fn is_distinct(numbers: &[u32]) -> bool
    ensures { result ≡ is_distinct numbers.now }
{
    match numbers {
        [] => true,
        [first, others @ ..] => !others.contains(first) && is_distinct(others),
    }
}

fn has_kinds(value: &Value) -> bool
    ensures { result ≡ has_link_kinds (view value.now) }
{
    is_integer_at(value, "id")
        && are_texts_at(value, "ends")
        && is_integer_at(value, "labels")
        && is_integer_at(value, "metric")
        && are_integers_at(value, "srlg")
}

fn has_counts(value: &Value) -> bool
    ensures { result ≡ has_link_counts (view value.now) }
{
    count(value, "ends") == 2 && count(value, "srlg") <= MOST_SRLGS
}

fn lacks_key(value: &Value) -> bool
    ensures { result ≡ lacks_link_key (view value.now) }
{
    lacks(value, "id") || lacks(value, "ends") || lacks(value, "labels")
}

// What a link has besides its ends.
#[derive(Drop)]
pub struct LinkNumbers {
    id: u32,
    labels: u32,
    metric: u32,
    srlgs: Numbers,
}

// None where one is out of reach.
fn numbers(alloc: Global, value: &Value) -> Result<Option<LinkNumbers>, OutOfMemory>
    ensures { IfOk result (λ n. n ≡ link_numbers (view value.now)) }
{
    let (Some(id), Some(labels), Some(metric)) = (id(value), labels(value), metric(value)) else {
        return Ok(None);
    };
    let Some(srlgs) = srlgs(alloc, value)? else {
        return Ok(None);
    };
    Ok(Some(LinkNumbers {
        id,
        labels,
        metric,
        srlgs,
    }))
}

// The ends of a link of these numbers, or the link's first fault.
fn placed(
    known: &Nodes,
    last: u32,
    value: &Value,
    numbers: &LinkNumbers,
) -> Result<(NodeId, NodeId), EntryError>
    ensures ends { IfOk result (λ ends. link_of_numbers known.now last (view value.now) (Some numbers.now)
        ≡ Ok (link_with numbers.now ends)) }
    ensures fault { FailsBy result
        (link_of_numbers known.now last (view value.now) (Some numbers.now)) }
{
    refuse_if!(last >= numbers.id, Order);
    let Some(ends) = ends(value, known) else {
        return Err(EntryError::Fault(PlanKind::Ends));
    };
    refuse_if!(!is_distinct(numbers.srlgs.items()), Twice);
    Ok(ends)
}

// A link, or its first fault, after links of which the last has this id.
fn read_link(alloc: Global, known: &Nodes, last: u32, value: &Value) -> Result<LinkSpec, EntryError>
    ensures link { IfOk result (λ l. plan_link known.now last (view value.now) ≡ Ok l) }
    ensures fault { FailsBy result (plan_link known.now last (view value.now)) }
{
    refuse_if!(has_strange(Shape::OfLink, value), Key);
    refuse_if!(lacks_key(value), Missing);
    refuse_if!(!has_kinds(value), Kind);
    refuse_if!(!has_counts(value), Count);
    let Some(numbers) = numbers(alloc, value)? else {
        return Err(EntryError::Fault(PlanKind::Range));
    };
    let (low, high) = placed(known, last, value, &numbers)?;
    Ok(LinkSpec {
        id: LinkId(numbers.id),
        low,
        high,
        labels: numbers.labels as u8,
        metric: numbers.metric,
        srlgs: numbers.srlgs,
    })
}

// The id of the last link; 0, which no link has, where there is none.
fn last_link(links: &[LinkSpec]) -> u32
    ensures { result ≡ last_link links.now }
{
    match links.last() {
        None => 0,
        Some(link) => link.id.0,
    }
}

/// Reads the links between these nodes, or gives the first fault.
pub fn read_links(
    alloc: Global,
    known: &Nodes,
    values: &[Value],
) -> Result<Vec<LinkSpec>, PlanError>
    requires { length values.now ≤ MOST_LINKS }
    ensures links { IfOk result (λ r. plan_links known.now (views values.now) ≡ Ok r.items) }
    ensures fault { FailsFirst result (plan_links known.now (views values.now)) }
{
    let mut links = Vec::new(alloc);
    'reading: for i in 0..values.len() {
        match read_link(alloc, known, last_link(&links), &values[i]) {
            Ok(link) => links.push(link)?,
            Err(error) => return Err(error_at(PlanEntry::Link(i as u32 + 1), error)),
        }
    }
    Ok(links)
}
