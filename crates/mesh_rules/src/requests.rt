//! What a Path asks for.

use crate::arrivals::Arrival;
use ason_base::{Label, LabelSet, PathRole, Steps};
use std::marker::Model;

/// What a Path asks for: of which LSP and from where it came, over which steps from here, with
/// which labels, with which label for the way back of a two-way LSP, and for what.
#[derive(Drop)]
pub struct PathRequest<'a> {
    pub arrival: Arrival,
    pub route: &'a Steps,
    pub set: &'a LabelSet,
    pub upstream: Option<Label>,
    pub role: &'a PathRole,
}

impl<'a> Model for PathRequest<'a> {
    ghost use Rattle.mesh_rules.specs.Paths as paths;

    ghost Value = { paths.PathRequest };

    ghost view = { λ m. record {
      arrival = m.arrival;
      route = m.route.now;
      set = m.set.now;
      upstream = m.upstream;
      role = m.role.now;
    } };
}
