//! Laws: what the types of a packet say of its numbers. Calling them changes nothing.

ghost use Rattle.std.specs.Prelude.{◌≡◌, ◌<◌, ◌^◌, All, IfSome};
ghost use Rattle.ason_base.specs.declared.steps.Step.{Step};
ghost use Rattle.wire_buf.specs.Routes.{HasIds};
ghost use Rattle.rsvp_objects.specs.LabelSets.{among};
ghost use Rattle.rsvp_messages.specs.Writable.{PacketFits, FitsCode, FitsId, FitsLsp, FitsMsg, FitsRole, IsLabelNumber};

use crate::packet_ref::PacketRef;
use ason_base::{ErrCode, Label, LabelSet, LinkId, Lsp, Msg, MsgId, NodeId, PathRole, Step, Steps};

pub(crate) fn node_fits(node: NodeId)
    ensures { node.0 < 2 ^ 32 }
{}

fn link_fits(link: LinkId)
    ensures { link.0 < 2 ^ 32 }
{}

fn lsp_fits(lsp: Lsp)
    ensures { FitsLsp lsp }
{}

fn code_fits(code: ErrCode)
    ensures { FitsCode code }
{}

fn label_fits(label: Label)
    ensures { IsLabelNumber label }
{
    let _number = label.number();
}

fn upstream_fits(upstream: Option<Label>)
    ensures { IfSome upstream IsLabelNumber }
{
    if let Some(label) = upstream {
        label_fits(label);
    }
}

fn steps_fit(steps: &[Step])
    ensures { All HasIds steps.now }
{
    for step in steps {
        node_fits(step.node);
        link_fits(step.link);
    }
}

fn route_fits(route: &Steps)
    ensures { All HasIds route.now }
{
    steps_fit(route.items());
}

fn role_fits(role: &PathRole)
    ensures { FitsRole role.now }
{
    if let PathRole::Back { work, primary, .. } = role {
        let _work = *work;
        route_fits(primary);
    }
}

fn set_fits(set: &LabelSet)
    ensures { set.now ≡ among set.now }
{
    set.rises();
}

fn id_fits(id: MsgId)
    ensures { FitsId id }
{}

fn number_fits(id: Option<MsgId>)
    ensures { IfSome id FitsId }
{
    if let Some(id) = id {
        id_fits(id);
    }
}

fn ids_fit(ids: &[MsgId])
    ensures { All FitsId ids.now }
{
    for id in ids {
        id_fits(*id);
    }
}

fn msg_fits(msg: &Msg)
    ensures { FitsMsg msg.now }
{
    match msg {
        Msg::Path {
            lsp,
            egress,
            link,
            route,
            set,
            upstream,
            role,
        } => {
            lsp_fits(*lsp);
            node_fits(*egress);
            link_fits(*link);
            route_fits(route);
            set_fits(set);
            upstream_fits(*upstream);
            role_fits(role);
        }
        Msg::Resv {
            lsp,
            egress,
            link,
            label,
        } => {
            lsp_fits(*lsp);
            node_fits(*egress);
            link_fits(*link);
            label_fits(*label);
        }
        Msg::PathTear { lsp, egress, link } => {
            lsp_fits(*lsp);
            node_fits(*egress);
            link_fits(*link);
        }
        Msg::PathErr {
            lsp,
            egress,
            at,
            code,
            ..
        } => {
            lsp_fits(*lsp);
            node_fits(*egress);
            node_fits(*at);
            code_fits(*code);
        }
        Msg::Notify {
            lsp,
            egress,
            at,
            link,
            code,
        } => {
            lsp_fits(*lsp);
            node_fits(*egress);
            node_fits(*at);
            link_fits(*link);
            code_fits(*code);
        }
    }
}

/// The numbers of every packet fit their fields.
pub(crate) fn packet_fits(p: &PacketRef<'_>)
    ensures { PacketFits p.now }
{
    number_fits(p.id);
    ids_fit(p.acks);
    if let Some(msg) = p.body {
        msg_fits(msg);
    }
}
