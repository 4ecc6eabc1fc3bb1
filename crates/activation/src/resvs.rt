//! A Resv at a leg that is Armed: the backup is activated from here to the egress.

ghost use Rattle.std.specs.Prelude.{◌≡◌, IfOk};
ghost use Rattle.mesh_rules.specs.ActivationAnswers.{is_confirmed};
ghost use Rattle.activation.specs.Answers.{carries, connect_answer, connected_by, live_here};

use ason_base::{Leg, Msg, NodeId, Phase};
use leg_table::changes::Changed;
use leg_table::one_leg::{begins_here, following, is_armed, is_over, previous, with_phase};
use leg_table::{Change, NodeTables};
use mesh_rules::GivenLabel;
use mesh_rules::readings::given_label;
use std::alloc::Global;

fn is_confirmed(given: GivenLabel, leg: &Leg) -> bool
    ensures { result ≡ is_confirmed given.arrival given.label leg.now }
{
    is_armed(leg.phase)
        && is_over(following(leg), given.arrival.from, given.arrival.link)
        && leg.out_label == Some(given.label)
}

/// The leg is Live, and a Resv with its label in goes back; where it begins here nothing is sent.
pub(crate) fn go_live(alloc: Global, leg: &Leg) -> Changed
    ensures { IfOk result (λ c. c ≡ live_here leg.now) }
{
    let mut change = Change::nothing(alloc);
    change.put(with_phase(alloc, leg, Phase::Live)?)?;
    if let (Some(back), Some(label)) = (previous(leg), leg.in_label) {
        let msg = Msg::Resv {
            lsp: leg.lsp,
            egress: leg.egress,
            link: back.fibre.link,
            label,
        };
        change.send(back.node, msg)?;
    }
    Ok(change)
}

fn on_resv(alloc: Global, tables: &NodeTables, given: GivenLabel) -> Changed
    ensures { IfOk result (λ c. c ≡ connected_by tables.now given) }
{
    match tables.get(&given.arrival.lsp) {
        Some(leg) if is_confirmed(given, leg) => go_live(alloc, leg),
        _ => Ok(Change::nothing(alloc)),
    }
}

/// Whether the message is a Resv by which a backup that begins here is activated from end to end:
/// its call follows.
pub fn carries(tables: &NodeTables, from: NodeId, msg: &Msg) -> bool
    ensures { result ≡ carries tables.now from msg.now }
{
    let Some(given) = given_label(from, msg) else {
        return false;
    };
    let Some(leg) = tables.get(&given.arrival.lsp) else {
        return false;
    };
    is_confirmed(given, leg) && begins_here(leg)
}

/// What a Resv at a leg that is Armed would change and send: the leg is Live, and the Resv goes
/// back. A Resv at another leg, and a message of another kind, do nothing.
pub fn connect_change(alloc: Global, tables: &NodeTables, from: NodeId, msg: &Msg) -> Changed
    ensures { IfOk result (λ c. c ≡ connect_answer tables.now from msg.now) }
{
    match given_label(from, msg) {
        None => Ok(Change::nothing(alloc)),
        Some(given) => on_resv(alloc, tables, given),
    }
}
