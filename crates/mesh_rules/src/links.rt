//! A link seen from a node.

ghost use Rattle.std.specs.Prelude.{◌≡◌, Some};
ghost use Rattle.mesh_rules.specs.{Legs.{reverse, reverse_of}, LocalNodes.{fibre_in, fibre_out, leads}};

use ason_base::{Fibre, LinkSpec, NodeId};

/// The fibre of the link that comes in at the node.
pub fn fibre_in(link: &LinkSpec, n: NodeId) -> Fibre
    ensures { result ≡ fibre_in link.now n }
{
    Fibre {
        link: link.id,
        forward: link.high == n,
    }
}

/// The fibre of the link that goes out at the node.
pub fn fibre_out(link: &LinkSpec, n: NodeId) -> Fibre
    ensures { result ≡ fibre_out link.now n }
{
    Fibre {
        link: link.id,
        forward: link.low == n,
    }
}

/// Whether the link leads from u to n.
pub fn leads(link: &LinkSpec, u: NodeId, n: NodeId) -> bool
    ensures { result ≡ leads (Some link.now) u n }
{
    (link.low == u && link.high == n) || (link.low == n && link.high == u)
}

/// The other direction of the same link.
pub fn reverse(fibre: Fibre) -> Fibre
    ensures { result ≡ reverse fibre }
{
    Fibre {
        link: fibre.link,
        forward: !fibre.forward,
    }
}

/// The other direction of a fibre, where there is one.
pub fn reverse_of(fibre: Option<Fibre>) -> Option<Fibre>
    ensures { result ≡ reverse_of fibre }
{
    match fibre {
        None => None,
        Some(fibre) => Some(reverse(fibre)),
    }
}
