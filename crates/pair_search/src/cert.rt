//! What shows that no pair of routes is better.

use ason_base::LinkId;
use route_least::Potentials;

/// What shows that no pair of routes has a lesser total, or that there is none.
pub struct Cert {
    /// Bounds of the cost from each node to the end.
    pub goal: Potentials,
    /// What stands at the prefix without a step.
    pub tree: Tree,
}

impl Drop for Cert {
    fn drop(self) {
        let Cert { goal: _, tree: _ } = self;
    }
}

/// What stands at a prefix of routes.
#[derive(Drop)]
#[cycle(tree)]
pub enum Tree {
    /// No route that begins so is the primary of a better pair.
    Far,
    /// The prefix is a route. Its partners cost at least the bound of the start.
    Whole(Potentials),
    /// The prefixes that are longer by a step.
    Branch(Box<Children>),
}

/// Prefixes that are longer by a step, each by its link, with what stands there.
#[derive(Drop)]
#[cycle(tree)]
pub enum Children {
    End,
    More(LinkId, Tree, Box<Children>),
}
