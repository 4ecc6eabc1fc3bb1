//! Groups that fail and are repaired, and what the nodes are told of it. Shared risk link groups: RFC 4202, section 2.3.

ghost use Rattle.std.specs.{Prelude.{◌≡◌, ◌==◌, IfOk, false}, Option.option_to_list};
ghost use Rattle.mesh_rules.specs.Failures.{changed_news, failed_after, has_group, is_cut, is_risk_of, news, same_group, with_group, without_group};

use ason_base::{Command, DeskItem, Fibre, Group, LinkSpec, NodeId, OutOfMemory};
use std::alloc::Global;

// Groups

fn is_same(a: Group, b: Group) -> bool
    ensures { result ≡ same_group a b }
{
    match (a, b) {
        (Group::Srlg(a), Group::Srlg(b)) => a == b,
        (Group::Link(a), Group::Link(b)) => a == b,
        _ => false,
    }
}

fn has_group(groups: &[Group], group: Group) -> bool
    ensures { result ≡ has_group groups.now group }
{
    groups.iter().any(|other| is_same(group, *other))
}

// These groups and this one, once.
fn with_group(alloc: Global, groups: &[Group], group: Group) -> Result<Vec<Group>, OutOfMemory>
    ensures { IfOk result (λ v. v.items ≡ with_group group groups.now) }
{
    let mut all = Vec::from_slice(alloc, groups)?;
    if !has_group(groups, group) {
        all.push(group)?;
    }
    Ok(all)
}

// These groups but this one.
fn without_group(alloc: Global, groups: &[Group], group: Group) -> Result<Vec<Group>, OutOfMemory>
    ensures { IfOk result (λ v. v.items ≡ without_group group groups.now) }
{
    let mut others = Vec::new(alloc);
    for other in groups {
        if !is_same(group, *other) {
            others.push(*other)?;
        }
    }
    Ok(others)
}

/// Which groups have failed after a command, where these had before.
pub fn failed_after(
    alloc: Global,
    failed: &[Group],
    command: &Command,
) -> Result<Vec<Group>, OutOfMemory>
    ensures { IfOk result (λ v. v.items ≡ failed_after command.now failed.now) }
{
    match command {
        Command::Fail { group } => with_group(alloc, failed, *group),
        Command::Repair { group } => without_group(alloc, failed, *group),
        _ => Ok(Vec::from_slice(alloc, failed)?),
    }
}

// Whether a link is cut

fn is_risk_of(link: &LinkSpec, group: Group) -> bool
    ensures { result ≡ is_risk_of link.now group }
{
    match group {
        Group::Srlg(srlg) => link.srlgs.items().contains(&srlg),
        Group::Link(id) => link.id == id,
    }
}

/// Whether one of the link's risks has failed: both its fibres are physically down.
pub fn is_cut(failed: &[Group], link: &LinkSpec) -> bool
    ensures { result ≡ is_cut failed.now link.now }
{
    failed.iter().any(|group| is_risk_of(link, *group))
}

// Alarms and clears

fn news(cut: bool, fibre: Fibre) -> DeskItem
    ensures { result ≡ news cut fibre }
{
    if cut {
        DeskItem::Alarm(fibre)
    } else {
        DeskItem::Clear(fibre)
    }
}

/// What the node is told of the link where other groups have failed than before: that the fibre which comes in there went down or
/// is up again. Nothing where the link is cut as before, or is none of the node.
pub fn news_of(before: &[Group], after: &[Group], node: NodeId, link: &LinkSpec) -> Option<DeskItem>
    requires { (link.now.low.0 == link.now.high.0) ≡ false }
    ensures { changed_news before.now after.now node.0 link.now ≡ option_to_list result }
{
    let cut = is_cut(after, link);
    if cut == is_cut(before, link) {
        return None;
    }
    let forward = node == link.high;
    if !forward && node != link.low {
        return None;
    }
    let fibre = Fibre {
        link: link.id,
        forward,
    };
    Some(news(cut, fibre))
}
