//! What a Path, a Resv and a PathTear say, and where they come from.

ghost use Rattle.std.specs.Prelude.{◌≡◌};
ghost use Rattle.mesh_rules.specs.Readings.{arrival_of, given_label, path_request, torn_arrival};

use crate::arrivals::{Arrival, GivenLabel};
use crate::requests::PathRequest;
use ason_base::{Msg, NodeId};

// The LSP and egress of a message that names the link that it comes by.
fn arrival_of(from: NodeId, msg: &Msg) -> Option<Arrival>
    ensures { result ≡ arrival_of from msg.now }
{
    match msg {
        Msg::Path {
            lsp,
            egress,
            link,
            ..
        }
        | Msg::Resv {
            lsp,
            egress,
            link,
            ..
        }
        | Msg::PathTear { lsp, egress, link } => Some(Arrival {
            lsp: *lsp,
            egress: *egress,
            from,
            link: *link,
        }),
        Msg::PathErr { .. } | Msg::Notify { .. } => None,
    }
}

/// What a Path from this node asks for. A message of another kind asks for nothing.
pub fn path_request<'a>(from: NodeId, msg: &'a Msg) -> Option<PathRequest<'a>>
    ensures { result ≡ path_request from msg.now }
{
    let arrival = arrival_of(from, msg)?;
    let Msg::Path {
        route,
        set,
        upstream,
        role,
        ..
    } = msg
    else {
        return None;
    };
    Some(PathRequest {
        arrival,
        route,
        set,
        upstream: *upstream,
        role,
    })
}

/// The label that a Resv from this node gives. A message of another kind gives none.
pub fn given_label(from: NodeId, msg: &Msg) -> Option<GivenLabel>
    ensures { result ≡ given_label from msg.now }
{
    let arrival = arrival_of(from, msg)?;
    let Msg::Resv { label, .. } = msg else {
        return None;
    };
    Some(GivenLabel {
        arrival,
        label: *label,
    })
}

/// Which LSP a PathTear from this node tears, and where it comes from. A message of another kind
/// tears none.
pub fn torn_arrival(from: NodeId, msg: &Msg) -> Option<Arrival>
    ensures { result ≡ torn_arrival from msg.now }
{
    match msg {
        Msg::PathTear { .. } => arrival_of(from, msg),
        _ => None,
    }
}
