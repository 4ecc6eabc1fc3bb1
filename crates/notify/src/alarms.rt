//! Alarms and clears of a fibre that comes in here.

ghost use Rattle.std.specs.Prelude.{◌≡◌, ◌++◌, ◌+◌, ◌<◌, IfOk, OnOk, length, take};
ghost use Rattle.mesh_rules.specs.{Alarms.{enters, is_hit, knows_down, notice_of, notices}, Changes.sends, LocalNodes.own_link};
ghost use Rattle.leg_table.specs.States.{legs_state, local_of};
ghost use Rattle.notify.specs.Answers.{alarm_answer, clear_answer};

use ason_base::codes::{FIBRE_DOWN, FIBRE_UP};
use ason_base::{Copied, ErrCode, Fibre, Fibres, Leg, Msg, NodeId, OutOfMemory};
use leg_table::changes::Changed;
use leg_table::one_leg::{is_closing, previous};
use leg_table::{Change, NodeTables, add_fibre};
use std::alloc::Global;

// Whether the fibre comes in here.
fn enters(tables: &NodeTables, fibre: Fibre) -> bool
    ensures { result ≡ enters (local_of tables.now) fibre
        (own_link (local_of tables.now) fibre.link) }
{
    match tables.own(fibre.link) {
        None => false,
        Some(link) => fibre.forward == (link.high == tables.node().id),
    }
}

// Whether the fibre leads to the leg, and the leg isn't torn.
fn is_hit(fibre: Fibre, leg: &Leg) -> bool
    ensures { result ≡ is_hit fibre leg.now }
{
    leg.in_fibre == Some(fibre) && !is_closing(leg.phase)
}

// The previous node of a leg that the fibre leads to is told of it.
fn tell(
    change: &mut Change,
    tables: &NodeTables,
    fibre: Fibre,
    code: ErrCode,
    leg: &Leg,
) -> Result<(), OutOfMemory>
    requires { change.old ≡ sends change.old.sent }
    ensures { OnOk result (change.new ≡ sends
        (change.old.sent ++ notice_of (local_of tables.now) fibre code leg.now)) }
{
    if !is_hit(fibre, leg) {
        return Ok(());
    }
    match previous(leg) {
        None => Ok(()),
        Some(back) => {
            let msg = Msg::Notify {
                lsp: leg.lsp,
                egress: leg.egress,
                at: tables.node().id,
                link: fibre.link,
                code,
            };
            change.send(back.node, msg)
        }
    }
}

// The leg at this place comes after those before it.
fn tell_at(
    change: &mut Change,
    tables: &NodeTables,
    fibre: Fibre,
    code: ErrCode,
    place: usize,
) -> Result<(), OutOfMemory>
    requires before { change.old ≡ sends
        (notices (local_of tables.now) fibre code (take place tables.now.legs)) }
    requires within { place < length tables.now.legs }
    ensures { OnOk result (change.new ≡ sends
        (notices (local_of tables.now) fibre code (take (place + 1) tables.now.legs))) }
{
    match tables.leg_at(place) {
        None => unreachable!(),
        Some(leg) => tell(change, tables, fibre, code, leg),
    }
}

// The previous node of each leg that the fibre leads to is told, in order of LSP.
fn notices(alloc: Global, tables: &NodeTables, fibre: Fibre, code: ErrCode) -> Changed
    ensures { IfOk result
        (λ c. c ≡ sends (notices (local_of tables.now) fibre code tables.now.legs)) }
{
    let mut change = Change::nothing(alloc);
    for place in 0..tables.count() {
        tell_at(&mut change, tables, fibre, code, place)?;
    }
    Ok(change)
}

// Just these fibres are known to be down from now on, and the previous nodes are told of this one.
fn know_down(
    alloc: Global,
    tables: &NodeTables,
    fibre: Fibre,
    code: ErrCode,
    down: Fibres,
) -> Changed
    ensures { IfOk result (λ c. c ≡ knows_down (local_of tables.now) (legs_state tables.now)
        fibre code down) }
{
    let mut change = notices(alloc, tables, fibre, code)?;
    change.know_down(down);
    Ok(change)
}

/// What an alarm of a fibre would change and send: the fibre is known to be down, and the previous
/// node of each leg that it leads to is told, in order of LSP. An alarm of a fibre that doesn't
/// come in here, or that is known to be down, does nothing.
pub fn alarm_change(alloc: Global, tables: &NodeTables, fibre: Fibre) -> Changed
    ensures { IfOk result (λ c. c ≡ alarm_answer tables.now fibre) }
{
    if !enters(tables, fibre) || tables.is_down(fibre) {
        return Ok(Change::nothing(alloc));
    }
    let mut down = tables.down().copy(alloc)?;
    add_fibre(&mut down, fibre)?;
    know_down(alloc, tables, fibre, FIBRE_DOWN, down)
}

/// What a clear of a fibre would change and send: the fibre is up again, and the previous node of
/// each leg that it leads to is told, in order of LSP. A clear of a fibre that isn't known to be
/// down does nothing.
pub fn clear_change(alloc: Global, tables: &NodeTables, fibre: Fibre) -> Changed
    ensures { IfOk result (λ c. c ≡ clear_answer tables.now fibre) }
{
    if !enters(tables, fibre) || !tables.is_down(fibre) {
        return Ok(Change::nothing(alloc));
    }
    let mut down = tables.down().copy(alloc)?;
    down.remove(fibre);
    know_down(alloc, tables, fibre, FIBRE_UP, down)
}
