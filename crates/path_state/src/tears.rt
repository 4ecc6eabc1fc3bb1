//! A PathTear (RFC 2205, section 3.1.5), which the node confirms.

ghost use Rattle.std.specs.Prelude.{◌≡◌, IfOk};
ghost use Rattle.mesh_rules.specs.{Changes.to_node, Legs.following, Tears.{on_tear, torn}};
ghost use Rattle.leg_table.specs.States.{legs_state, local_of};
ghost use Rattle.path_state.specs.Answers.{tear_answer};

use ason_base::codes::TORN;
use ason_base::{Leg, Msg, NodeId};
use leg_table::changes::Changed;
use leg_table::one_leg::{closed, following, is_closing, is_over, path_err, previous};
use leg_table::{Change, NodeTables};
use mesh_rules::Arrival;
use mesh_rules::readings::torn_arrival;
use std::alloc::Global;

fn tear_on(alloc: Global, leg: &Leg, to: NodeId, reply: Msg) -> Changed
    ensures { IfOk result (λ c. c ≡ torn leg.now (to_node to reply) (following leg.now)) }
{
    match following(leg) {
        None => Change::removes(alloc, leg.lsp, to, reply),
        Some(next) => {
            let tear = Msg::PathTear {
                lsp: leg.lsp,
                egress: leg.egress,
                link: next.fibre.link,
            };
            let mut change = Change::puts(alloc, closed(alloc, leg)?, to, reply)?;
            change.send(next.node, tear)?;
            Ok(change)
        }
    }
}

fn on_tear(alloc: Global, tables: &NodeTables, arrival: Arrival) -> Changed
    ensures { IfOk result (λ c. c ≡ on_tear (local_of tables.now) (legs_state tables.now) arrival) }
{
    let Some(leg) = tables.get(&arrival.lsp) else {
        return Ok(Change::nothing(alloc));
    };
    if is_closing(leg.phase) || !is_over(previous(leg), arrival.from, arrival.link) {
        return Ok(Change::nothing(alloc));
    }
    let reply = path_err(leg, tables.node().id, true, TORN);
    tear_on(alloc, leg, arrival.from, reply)
}

/// What a PathTear would change and send: it is answered and goes on, and the leg waits for the
/// next node's answer. A message of another kind does nothing.
pub fn tear_change(alloc: Global, tables: &NodeTables, from: NodeId, msg: &Msg) -> Changed
    ensures { IfOk result (λ c. c ≡ tear_answer tables.now from msg.now) }
{
    match torn_arrival(from, msg) {
        None => Ok(Change::nothing(alloc)),
        Some(arrival) => on_tear(alloc, tables, arrival),
    }
}
