//! One leg: its phase, its neighbours, and what it becomes.

ghost use Rattle.std.specs.Prelude.{◌≡◌, IfOk};
ghost use Rattle.ason_base.specs.declared.messages.Msg.TheVariants.{PathErr};
ghost use Rattle.mesh_rules.specs.Legs.{closed, closing_phase, connected, following, is_armed, is_asked, is_closing, is_held, is_in_use, is_node, is_over, is_work, neighbour_over, previous, reserved, with_phase};
ghost use Rattle.leg_table.specs.LegTables.{begins_here};

use ason_base::{
    Copied, ErrCode, Fibre, Label, Leg, LinkId, Msg, NodeId, OutOfMemory, Phase, Role,
};
use mesh_rules::Neighbour;
use std::alloc::Global;

/// Whether the leg was asked for and has no label yet.
pub fn is_asked(phase: Phase) -> bool
    ensures { result ≡ is_asked phase }
{
    matches!(phase, Phase::Asked)
}

/// Whether the leg's label is reserved, and no activation has passed the leg.
pub fn is_held(phase: Phase) -> bool
    ensures { result ≡ is_held phase }
{
    matches!(phase, Phase::Held)
}

/// Whether an activation has passed the leg, and hasn't come back yet.
pub fn is_armed(phase: Phase) -> bool
    ensures { result ≡ is_armed phase }
{
    matches!(phase, Phase::Armed)
}

/// Whether the leg is Armed or Live.
pub fn is_in_use(phase: Phase) -> bool
    ensures { result ≡ is_in_use phase }
{
    matches!(phase, Phase::Armed | Phase::Live)
}

/// Whether the leg was torn and waits for the next node.
pub fn is_closing(phase: Phase) -> bool
    ensures { result ≡ is_closing phase }
{
    matches!(phase, Phase::Closing | Phase::Falling)
}

/// Whether the leg is of a working LSP.
pub fn is_work(role: Role) -> bool
    ensures { result ≡ is_work role }
{
    matches!(role, Role::Work)
}

fn closing_phase(phase: Phase, role: Role) -> Phase
    ensures { result ≡ closing_phase phase role }
{
    match (phase, role) {
        (Phase::Armed | Phase::Live, Role::Back) => Phase::Falling,
        _ => Phase::Closing,
    }
}

fn neighbour_over(node: Option<NodeId>, fibre: Option<Fibre>) -> Option<Neighbour>
    ensures { result ≡ neighbour_over node fibre }
{
    let node = node?;
    let fibre = fibre?;
    Some(Neighbour { node, fibre })
}

/// The node before, and the fibre that comes from it; none at the ingress.
pub fn previous(leg: &Leg) -> Option<Neighbour>
    ensures { result ≡ previous leg.now }
{
    neighbour_over(leg.prev, leg.in_fibre)
}

/// Whether the LSP begins here: the leg has no previous node.
pub fn begins_here(leg: &Leg) -> bool
    ensures { result ≡ begins_here leg.now }
{
    previous(leg).is_none()
}

/// The node after, and the fibre that leads to it; none at the egress.
pub fn following(leg: &Leg) -> Option<Neighbour>
    ensures { result ≡ following leg.now }
{
    neighbour_over(leg.next, leg.out_fibre)
}

/// Whether it is this node.
pub fn is_node(neighbour: Option<Neighbour>, node: NodeId) -> bool
    ensures { result ≡ is_node neighbour node }
{
    match neighbour {
        None => false,
        Some(neighbour) => neighbour.node == node,
    }
}

/// Whether it is this node, over this link.
pub fn is_over(neighbour: Option<Neighbour>, node: NodeId, link: LinkId) -> bool
    ensures { result ≡ is_over neighbour node link }
{
    match neighbour {
        None => false,
        Some(neighbour) => neighbour.node == node && neighbour.fibre.link == link,
    }
}

/// The PathErr of node `at` for the leg's LSP.
pub fn path_err(leg: &Leg, at: NodeId, removed: bool, code: ErrCode) -> Msg
    ensures { result ≡ PathErr leg.now.lsp leg.now.egress at removed code }
{
    Msg::PathErr {
        lsp: leg.lsp,
        egress: leg.egress,
        at,
        removed,
        code,
    }
}

/// The leg, torn: it waits for the next node, and gives up its label in and its back label out.
pub fn closed(alloc: Global, leg: &Leg) -> Result<Leg, OutOfMemory>
    ensures { IfOk result (λ g. g ≡ closed leg.now) }
{
    let mut torn = leg.copy(alloc)?;
    torn.phase = closing_phase(leg.phase, leg.role);
    torn.in_label = None;
    torn.back_out = None;
    Ok(torn)
}

/// The leg in this phase.
pub fn with_phase(alloc: Global, leg: &Leg, phase: Phase) -> Result<Leg, OutOfMemory>
    ensures { IfOk result (λ g. g ≡ with_phase phase leg.now) }
{
    let mut changed = leg.copy(alloc)?;
    changed.phase = phase;
    Ok(changed)
}

/// The phase of a leg that gets its label: a working leg is cross-connected, a backup's label is reserved alone.
pub fn reserved(role: Role) -> Phase
    ensures { result ≡ reserved role }
{
    match role {
        Role::Work => Phase::Live,
        Role::Back => Phase::Held,
    }
}

/// The leg with these labels: a working leg is cross-connected between them, a backup has them reserved.
pub fn connected(
    alloc: Global,
    leg: &Leg,
    in_label: Option<Label>,
    out_label: Label,
) -> Result<Leg, OutOfMemory>
    ensures { IfOk result (λ g. g ≡ connected leg.now in_label out_label) }
{
    let mut labelled = leg.copy(alloc)?;
    labelled.phase = reserved(leg.role);
    labelled.in_label = in_label;
    labelled.out_label = Some(out_label);
    Ok(labelled)
}
