//! Which commands are valid for a topology.

ghost use Rattle.std.specs.{Prelude.{◌≡◌, ◌==◌, ◌&&◌}, List.list_any, Option.option_copied};
ghost use Rattle.ason_base.specs.{Network.is_node_id, Routes.{is_beside, makes_route}};
ghost use Rattle.mesh_rules.specs.Commands.{has_way, is_again, has_backup_way, is_group, is_searchable, is_valid};

use ason_base::routes::{is_beside, makes_route};
use ason_base::{CallNo, Command, Group, LinkId, LinkSpec, NodeId, Steps, Topology};

// Setups

// A route that is given leads there. Where none is given the ingress searches for one, as it can in every topology.
#[tactic(auto, using(crate::proofs::Topologies::topology_searchable))]
fn has_way(t: &Topology, from: NodeId, to: NodeId, via: Option<&Steps>) -> bool
    ensures { result ≡ has_way t.now from to (option_copied via.entry) }
{
    let _links = t.links();
    match via {
        None => true,
        Some(route) => makes_route(t, from, to, route.items()),
    }
}

// A backup that is given is that of a protected call and stands beside the working route. Where none is given the ingress of a
// protected call searches for one, as it can in every topology.
#[tactic(auto, using(crate::proofs::Topologies::topology_searchable))]
fn has_backup_way(
    t: &Topology,
    from: NodeId,
    to: NodeId,
    protected: bool,
    via: Option<&Steps>,
    backup: Option<&Steps>,
) -> bool
    ensures { result ≡ has_backup_way t.now from to protected (option_copied via.entry) (option_copied backup.entry) }
{
    let _links = t.links();
    match backup {
        None => true,
        Some(backup) => protected && is_beside(t, from, to, via, backup.items()),
    }
}

// Commands

/// Whether the topology has this node.
pub fn has_node(t: &Topology, id: NodeId) -> bool
    ensures { result ≡ is_node_id t.now.nodes id }
{
    t.nodes().iter().any(|node| node.id == id)
}

fn has_link(t: &Topology, link: LinkId) -> bool
    ensures { result ≡ list_any (λ l. l.id.0 == link.0) t.now.links }
{
    t.links().iter().any(|l| l.id == link)
}

fn bears(link: &LinkSpec, srlg: u32) -> bool
    ensures { result ≡ list_any (λ r. r == srlg) link.now.srlgs }
{
    link.srlgs.items().contains(&srlg)
}

fn has_srlg(t: &Topology, srlg: u32) -> bool
    ensures { result ≡ list_any (λ l. list_any (λ r. r == srlg) l.srlgs) t.now.links }
{
    t.links().iter().any(|l| bears(l, srlg))
}

/// Whether the group is of the topology: a link of it, or an SRLG of one of its links.
pub fn has_group(t: &Topology, group: Group) -> bool
    ensures { result ≡ is_group t.now group }
{
    match group {
        Group::Link(link) => has_link(t, link),
        Group::Srlg(srlg) => has_srlg(t, srlg),
    }
}

// Whether the topology has the node that is to protect a call. It may search for the backup, as it can in every topology.
#[tactic(auto, using(crate::proofs::Topologies::topology_searchable))]
fn can_protect(t: &Topology, from: NodeId) -> bool
    ensures { result ≡ (is_node_id t.now.nodes from && is_searchable t.now) }
{
    let _links = t.links();
    has_node(t, from)
}

/// Whether the command is valid: its nodes, links and groups are of the topology, and its routes are good.
pub fn is_valid(t: &Topology, command: &Command) -> bool
    ensures { result ≡ is_valid t.now command.now }
{
    match command {
        Command::Setup {
            from,
            to,
            protected,
            via,
            backup,
            ..
        } => {
            has_node(t, *from)
                && has_node(t, *to)
                && from != to
                && has_way(t, *from, *to, via.as_ref())
                && has_backup_way(t, *from, *to, *protected, via.as_ref(), backup.as_ref())
        }
        Command::Release { from, .. } => has_node(t, *from),
        Command::Protect { from, .. } => can_protect(t, *from),
        Command::Retry { from, .. } => has_node(t, *from),
        Command::Revert { from, .. } => has_node(t, *from),
        Command::Fail { group } => has_group(t, *group),
        Command::Repair { group } => has_group(t, *group),
    }
}

/// Whether the command is a setup of a call number that was posted before.
pub fn is_again(posted: &[CallNo], command: &Command) -> bool
    ensures { result ≡ is_again posted.now command.now }
{
    match command {
        Command::Setup { call, .. } => posted.contains(call),
        _ => false,
    }
}
