//! Inputs of the nodes of the row.

use crate::networks::{A, B, C};
use ason_base::codes::SET;
use ason_base::{
    CallNo, Command, DeskItem, Label, LabelSet, LinkId, Lsp, Msg, NodeId, PathRole, Step, Steps,
};
use node_core::Input;
use std::alloc::Global;
use std::test::Fail;

/// The way on from b to c.
pub(super) const ON: &[(u32, u32)] = &[(2, 2)];

/// The way from a to b.
pub(super) const BEFORE: &[(u32, u32)] = &[(1, 1)];

/// What comes, of the call or the LSP of some number. All LSPs begin at a.
#[derive(Clone, Copy, Drop)]
pub(super) enum Said {
    /// A call is set up from a to b, without a given route.
    Setup,
    /// The first call is to be protected.
    Protect,
    /// A Path from a over link 1: its egress, its steps, and how many labels it has.
    Path(NodeId, &'static [(u32, u32)], u8),
    /// A Path of a backup from a over b to c: the steps of its primary, and whether it activates.
    Backup(&'static [(u32, u32)], bool),
    /// A Resv from this node over this link with this label.
    Resv(NodeId, u32, u8),
    /// A PathErr that this node made, and whether it has Path_State_Removed.
    PathErr(NodeId, bool),
    /// One of b that has it, for the backup in the tunnel of the first call.
    BackupErr,
    /// A PathTear from a over link 1.
    Tear,
}

fn steps(alloc: Global, hops: &[(u32, u32)]) -> Result<Steps, Fail> {
    let mut route = Steps::new(alloc);
    for (node, link) in hops {
        route.push(Step {
            node: NodeId(*node),
            link: LinkId(*link),
        })?;
    }
    Ok(route)
}

fn lsp(tunnel: u16, number: u16) -> Lsp {
    Lsp {
        ingress: A,
        tunnel,
        lsp: number,
    }
}

fn order(command: Command) -> Input {
    Input::Desk(DeskItem::Order(command))
}

fn setup(number: u16) -> Input {
    order(Command::Setup {
        call: CallNo(number),
        from: A,
        to: B,
        protected: false,
        both: false,
        via: None,
        backup: None,
    })
}

fn labels(count: u8) -> LabelSet {
    if count <= 80 {
        LabelSet::upto(count)
    } else {
        LabelSet::empty()
    }
}

fn path(number: u16, egress: NodeId, route: Steps, count: u8, role: PathRole) -> Input {
    let msg = Msg::Path {
        lsp: lsp(number, number),
        egress,
        link: LinkId(1),
        route,
        set: labels(count),
        upstream: None,
        role,
    };
    Input::Message { from: A, msg }
}

fn working_path(
    alloc: Global,
    number: u16,
    egress: NodeId,
    hops: &[(u32, u32)],
    count: u8,
) -> Result<Input, Fail> {
    let route = steps(alloc, hops)?;
    let role = PathRole::Work { guard: false };
    Ok(path(number, egress, route, count, role))
}

fn backup_path(
    alloc: Global,
    number: u16,
    primary: &[(u32, u32)],
    active: bool,
) -> Result<Input, Fail> {
    let route = steps(alloc, ON)?;
    let role = PathRole::Back {
        active,
        work: 1,
        primary: steps(alloc, primary)?,
    };
    Ok(path(number, C, route, 1, role))
}

fn resv(number: u16, from: NodeId, link: u32, label: u8) -> Result<Input, Fail> {
    let label = Label::new(label).ok_or("a label")?;
    let msg = Msg::Resv {
        lsp: lsp(number, number),
        egress: C,
        link: LinkId(link),
        label,
    };
    Ok(Input::Message { from, msg })
}

fn path_err(lsp: Lsp, from: NodeId, removed: bool) -> Input {
    let msg = Msg::PathErr {
        lsp,
        egress: C,
        at: from,
        removed,
        code: SET,
    };
    Input::Message { from, msg }
}

fn tear(number: u16) -> Input {
    let msg = Msg::PathTear {
        lsp: lsp(number, number),
        egress: C,
        link: LinkId(1),
    };
    Input::Message { from: A, msg }
}

/// The input.
pub(super) fn input(alloc: Global, number: u16, said: Said) -> Result<Input, Fail> {
    match said {
        Said::Setup => Ok(setup(number)),
        Said::Protect => Ok(order(Command::Protect {
            call: CallNo(1),
            from: A,
        })),
        Said::Path(egress, hops, count) => working_path(alloc, number, egress, hops, count),
        Said::Backup(primary, active) => backup_path(alloc, number, primary, active),
        Said::Resv(from, link, label) => resv(number, from, link, label),
        Said::PathErr(from, removed) => Ok(path_err(lsp(number, number), from, removed)),
        Said::BackupErr => Ok(path_err(lsp(1, number), B, true)),
        Said::Tear => Ok(tear(number)),
    }
}
