//! Risk groups with the links that they are a risk of.

ghost use Rattle.std.specs.{Prelude.{◌≡◌, ◌==◌, ◌++◌, nat_lt, IfOk, OnOk, flat_map, map}, List.list_any};
ghost use Rattle.ason_base.specs.InOrder.{in_order};
ghost use Rattle.mesh_laws.specs.Survey.{groups_of};
ghost use Rattle.survey.specs.Groups.{both_kinds, is_hit, is_over, links_of, with_links};

use crate::views::CallView;
use ason_base::{
    Copied, Group, Items, LegRow, LinkId, LinkSpec, OutOfMemory, Srlgs, Topology, copied,
};
use mesh_rules::failures::is_cut;
use std::alloc::Global;

/// A group, and the links that fail with it.
pub(crate) struct GroupLinks {
    pub(crate) group: Group,
    pub(crate) links: Items<LinkId>,
}

impl Copied for GroupLinks {
    fn copy(&self, alloc: Global) -> Result<GroupLinks, OutOfMemory> {
        copied!(self, alloc; GroupLinks { group; links })
    }
}

impl Drop for GroupLinks {
    fn drop(self) {
        let GroupLinks { group: _, links: _ } = self;
    }
}

fn links_of(alloc: Global, group: Group, links: &[LinkSpec]) -> Result<Items<LinkId>, OutOfMemory>
    ensures { IfOk result (λ ids. ids ≡ links_of group links.now) }
{
    let mut ids = Vec::new(alloc);
    for link in links {
        if is_cut(&[group], link) {
            ids.push(link.id)?;
        }
    }
    Ok(Items::from_vec(ids))
}

fn with_links(alloc: Global, links: &[LinkSpec], group: Group) -> Result<GroupLinks, OutOfMemory>
    ensures { IfOk result (λ g. g ≡ with_links links.now group) }
{
    let links = links_of(alloc, group, links)?;
    Ok(GroupLinks { group, links })
}

fn all_srlgs(alloc: Global, links: &[LinkSpec]) -> Result<Srlgs, OutOfMemory>
    ensures { IfOk result (λ s. s ≡ in_order nat_lt (flat_map (λ l. l.srlgs) links.now)) }
{
    let mut numbers = Vec::new(alloc);
    for link in links {
        numbers.extend_from_slice(link.srlgs.items())?;
    }
    Srlgs::of(alloc, &numbers)
}

fn push_srlgs(
    alloc: Global,
    links: &[LinkSpec],
    numbers: &[u32],
    groups: &mut Vec<GroupLinks>,
) -> Result<(), OutOfMemory>
    ensures { OnOk result
        (groups.new.items ≡ groups.old.items ++ map (λ n. with_links links.now (Group.Srlg n)) numbers.now) }
{
    for number in numbers {
        groups.push(with_links(alloc, links, Group::Srlg(*number))?)?;
    }
    Ok(())
}

fn push_links(
    alloc: Global,
    links: &[LinkSpec],
    groups: &mut Vec<GroupLinks>,
) -> Result<(), OutOfMemory>
    ensures { OnOk result
        (groups.new.items ≡ groups.old.items ++ map (λ l. with_links links.now (Group.Link l.id)) links.now) }
{
    for link in links {
        groups.push(with_links(alloc, links, Group::Link(link.id))?)?;
    }
    Ok(())
}

fn with_all_links(
    alloc: Global,
    links: &[LinkSpec],
    numbers: &[u32],
) -> Result<Vec<GroupLinks>, OutOfMemory>
    ensures { IfOk result (λ groups. groups.items ≡ both_kinds links.now numbers.now) }
{
    let mut groups = Vec::new(alloc);
    push_srlgs(alloc, links, numbers, &mut groups)?;
    push_links(alloc, links, &mut groups)?;
    Ok(groups)
}

/// The groups of a network: its SRLGs, rising, and then its links.
pub(crate) fn groups_of(alloc: Global, t: &Topology) -> Result<Vec<GroupLinks>, OutOfMemory>
    ensures { IfOk result
        (λ groups. groups.items ≡ map (with_links t.now.links) (groups_of t.now)) }
{
    let links = t.links();
    let numbers = all_srlgs(alloc, links)?;
    let groups = with_all_links(alloc, links, numbers.items())?;
    Ok(groups)
}

fn has_link(links: &[LinkId], link: LinkId) -> bool
    ensures { result ≡ list_any (λ l. l.0 == link.0) links.now }
{
    links.iter().any(|other| *other == link)
}

fn is_over(group: &GroupLinks, row: &LegRow) -> bool
    ensures { result ≡ is_over group.now.links row.now.out_link }
{
    match row.out_link {
        None => false,
        Some(link) => has_link(group.links.items(), link),
    }
}

/// Whether the group's failure would hit the call.
pub(crate) fn is_hit(group: &GroupLinks, view: &CallView) -> bool
    ensures { result ≡ is_hit group.now view.now }
{
    view.live.items().iter().any(|row| is_over(group, row))
}
