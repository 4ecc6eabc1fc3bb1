//! Tests of routes, of the parts of a node, and of whole nodes, over the public calls of their crates.
//!
//! - `routes`: routes and pairs of routes, of route_least and route_pair.
//! - `nodes`: node_core, and the parts of which a node is made, by a table of cases.
//! - `networks`, `row_checks`: the networks of these tests, and what the rows of a table must be.
//!
//! The heads of these crates say what the tests show. There is nothing here but tests, which are proved too, and
//! nothing is promised of them.
#![tactic(auto)]

#[cfg(test)]
mod networks;
#[cfg(test)]
mod nodes;
#[cfg(test)]
mod routes;
#[cfg(test)]
mod row_checks;
