//! The best pair of routes between two nodes of a plan, as text.

ghost use Rattle.std.specs.Prelude.{◌≡◌, ◌<◌, ◌^◌, ◌+◌, ◌++◌, IfOk, None, OnOk, codes, string_bytes};
ghost use Rattle.ason_base.specs.{Network.IsTopology, Texts.Appends, Walks.HaveDistinctLinks};
ghost use Rattle.table_text.specs.{BestText.{IsBestBetween, IsBestText, certificate_line, checker_line, cost_of, judged_pair, metric_of, pair_lines, total_line}, RouteText.plan_rows};

use crate::ends::{ends_fault_text, ends_of};
use crate::routes::push_route;
use ason_base::network::rows_of;
use ason_base::{LinkId, NodeId, OutOfMemory, Step, TeRow};
use pair_search::{Best, BestFault, Cert, best, checks_are_exact, verify};
use plan_reader::Plan;
use std::alloc::Global;

/// What is told of the best pair of routes between the nodes of these names over the plan's links: the first name that
/// the plan doesn't have; or that both are the same node; or that there are more than 24 links, or more than 16 nodes
/// at their ends; or the pair of the least total, or that there is none, and what the checker answers of its certificate.
pub fn best_text(alloc: Global, plan: &Plan, from: &str, to: &str) -> Result<Vec<u8>, OutOfMemory>
    requires { IsTopology plan.now.topology }
    ensures { IfOk result (λ text. IsBestText plan.now from.now to.now text.items) }
{
    let told = told(alloc, plan, from, to)?;
    Ok(told.into_bytes())
}

fn told(alloc: Global, plan: &Plan, from: &str, to: &str) -> Result<String, OutOfMemory>
    requires { IsTopology plan.now.topology }
    ensures { IfOk result (λ text. IsBestText plan.now from.now to.now (string_bytes text)) }
{
    match ends_of(plan, from, to) {
        Ok((start, end)) => between(alloc, plan, start, end),
        Err(fault) => ends_fault_text(alloc, from, to, fault),
    }
}

fn between(alloc: Global, plan: &Plan, from: NodeId, to: NodeId) -> Result<String, OutOfMemory>
    requires { IsTopology plan.now.topology }
    ensures { IfOk result (λ text. IsBestBetween (plan_rows plan.now) from to (string_bytes text)) }
{
    checks_are_exact();
    let rows = rows_of(alloc, plan.topology.links())?;
    match best(alloc, &rows, from, to) {
        Ok(found) => pair_told(alloc, &rows, from, to, &found),
        Err(BestFault::NoPair(cert)) => none_told(alloc, &rows, from, to, &cert),
        Err(BestFault::TooLarge) => {
            let text = String::from_str(alloc, "too large\n")?;
            Ok(text)
        }
        Err(BestFault::OutOfMemory) => Err(OutOfMemory),
    }
}

// Each has the checker's answer on the certificate, whatever that shows.

fn pair_told(
    alloc: Global,
    rows: &[TeRow],
    from: NodeId,
    to: NodeId,
    found: &Best,
) -> Result<String, OutOfMemory>
    requires links { HaveDistinctLinks rows.now }
    requires total { cost_of rows.now found.now.primary + cost_of rows.now found.now.backup
        ≡ found.now.total }
    ensures { IfOk result (λ text. string_bytes text ≡ judged_pair rows.now from to found.now) }
{
    let primary = found.primary.items();
    let backup = found.backup.items();
    let mut text = pair_lines(alloc, rows, primary, backup, found.total)?;
    let accepted = verify(alloc, rows, from, to, Some(found.total), &found.cert)?;
    push_certificate(&mut text, accepted)?;
    Ok(text)
}

fn none_told(
    alloc: Global,
    rows: &[TeRow],
    from: NodeId,
    to: NodeId,
    cert: &Cert,
) -> Result<String, OutOfMemory>
    requires { HaveDistinctLinks rows.now }
    ensures { IfOk result (λ text. string_bytes text
        ≡ codes "no pair\n" ++ checker_line rows.now from to None cert.now) }
{
    let mut text = String::from_str(alloc, "no pair\n")?;
    let accepted = verify(alloc, rows, from, to, None, cert)?;
    push_certificate(&mut text, accepted)?;
    Ok(text)
}

// Lines

fn pair_lines(
    alloc: Global,
    rows: &[TeRow],
    primary: &[Step],
    backup: &[Step],
    total: u32,
) -> Result<String, OutOfMemory>
    requires { cost_of rows.now primary.now + cost_of rows.now backup.now ≡ total }
    ensures { IfOk result (λ text. string_bytes text ≡ pair_lines
        (record { primary = primary.now; backup = backup.now; total = total })
        (cost_of rows.now primary.now) (cost_of rows.now backup.now)) }
{
    let mut text = total_line(alloc, total)?;
    push_route(&mut text, "primary", primary, cost_of(rows, primary))?;
    push_route(&mut text, "backup", backup, cost_of(rows, backup))?;
    Ok(text)
}

fn total_line(alloc: Global, total: u32) -> Result<String, OutOfMemory>
    ensures { IfOk result (λ text. string_bytes text ≡ total_line total) }
{
    let text = format!(in alloc; "total {total}\n")?;
    Ok(text)
}

fn push_certificate(text: &mut String, accepted: bool) -> Result<(), OutOfMemory>
    ensures { OnOk result (Appends text.old text.new (certificate_line accepted)) }
{
    text.push_str(if accepted {
        "certificate yes\n"
    } else {
        "certificate no\n"
    })?;
    Ok(())
}

// Costs

fn metric_of(rows: &[TeRow], link: LinkId) -> u32
    ensures { result ≡ metric_of rows.now link }
{
    rows.iter()
        .find(|row| row.link == link)
        .map(|row| row.metric)
        .unwrap_or(0)
}

// What a walk over these links costs.
fn cost_of(rows: &[TeRow], steps: &[Step]) -> u32
    requires { cost_of rows.now steps.now < 2 ^ 32 }
    ensures { result ≡ cost_of rows.now steps.now }
{
    steps.iter().map(|step| metric_of(rows, step.link)).sum()
}
