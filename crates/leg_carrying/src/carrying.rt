//! Carrying out what a rule changes: the legs with the labels that they take and their marks, the row that is learnt, the
//! calls and the numbers.

ghost use Rattle.std.specs.{Prelude.{◌≡◌, ◌≤◌, ◌<◌, ◌+◌, IfSome, None, OnErr, OnOk, Some, length, vec_capacity, vec_len}, Option.option_to_list};
ghost use Rattle.mesh_rules.specs.{declared.limits.TheConstants.MOST_LEGS, Changes.learnt_after, Legs.{find_leg, leg_changed, legs_changed, with_leg, without_leg}};
ghost use Rattle.link_owner.specs.Marks.{has_fibre_marks};
ghost use Rattle.leg_table.specs.{Edits.leg_put, Handled.{IsCarriedOut, MayBeCarriedOut}, LegClaims.{AreOfOneNode, LabelsFit, MarksFit, MayAllMark, MayBeMade, MayMark, MayMarkSo, SameFibres, is_own_fibre}, States.local_of};
ghost use Rattle.leg_carrying.specs.LegHolds.{AreLeft, GivesUp, MayGiveUpAll, is_lost, lsp_changed};

use crate::marking::{remark_found, unmark_found};
use crate::releasing::give_up_lost;
use crate::reserving::reserve_new;
use ason_base::{Leg, Lsp, OutOfMemory, Outs, TeRow};
use leg_table::leg_map::LegMap;
use leg_table::{Calls, Change, ChangeParts, NodeTables};
use link_owner::Owner;
use mesh_rules::LegChange;
use share_check::Shares;
use std::alloc::Global;

// Legs

// Takes a leg off. Its labels are given up.
fn remove_leg(legs: &mut LegMap, owner: &mut Owner, shares: &mut Shares, lsp: Lsp)
    requires may { MayGiveUpAll (find_leg lsp legs.old.legs) owner.old shares.old }
    requires fit { MarksFit legs.old.legs owner.old }
    ensures legs { legs.new.legs ≡ without_leg lsp legs.old.legs }
    ensures room { legs.old.room ≤ legs.new.room }
    ensures labels { GivesUp lsp (is_lost (find_leg lsp legs.old.legs) None)
        owner.old.claims owner.new.claims shares.old shares.new }
    ensures fit { MarksFit legs.new.legs owner.new }
    ensures fibres { SameFibres owner.old owner.new }
{
    let leg = legs.take(lsp);
    give_up_lost(leg.as_ref(), owner, shares, lsp, None);
    unmark_found(leg.as_ref(), owner, lsp);
}

// Puts a leg. The labels that its LSP's leg took and it doesn't are given up; those that it takes are claimed. There is
// room for it.
fn put_leg(legs: &mut LegMap, owner: &mut Owner, shares: &mut Shares, leg: Leg)
    requires room { 0 < legs.old.room }
    requires may { MayGiveUpAll (find_leg leg.lsp legs.old.legs) owner.old shares.old }
    requires fit { MarksFit legs.old.legs owner.old }
    requires marks { MayMark (has_fibre_marks owner.old.marks) legs.old.legs leg }
    ensures legs { legs.new.legs ≡ with_leg leg legs.old.legs }
    ensures room { legs.old.room ≤ legs.new.room + 1 }
    ensures labels { GivesUp leg.lsp (is_lost (find_leg leg.lsp legs.old.legs) (Some leg))
        owner.old.claims owner.new.claims shares.old shares.new }
    ensures fit { MarksFit legs.new.legs owner.new }
    ensures fibres { SameFibres owner.old owner.new }
{
    let before = legs.get(leg.lsp);
    give_up_lost(before, owner, shares, leg.lsp, Some(&leg));
    remark_found(before, owner, &leg);
    legs.put(leg);
}

// Makes a change. The labels that its LSP's leg took and a leg that is put doesn't take are given up; those that this
// one takes are claimed. There is room for it.
fn change_leg(legs: &mut LegMap, owner: &mut Owner, shares: &mut Shares, change: LegChange)
    requires room { 0 < legs.old.room }
    requires may { MayGiveUpAll (find_leg (lsp_changed change) legs.old.legs)
        owner.old shares.old }
    requires fit { MarksFit legs.old.legs owner.old }
    requires marks { MayMarkSo (has_fibre_marks owner.old.marks) legs.old.legs change }
    ensures legs { legs.new.legs ≡ leg_changed change legs.old.legs }
    ensures room { legs.old.room ≤ legs.new.room + 1 }
    ensures labels { GivesUp (lsp_changed change)
        (is_lost (find_leg (lsp_changed change) legs.old.legs) (leg_put change))
        owner.old.claims owner.new.claims shares.old shares.new }
    ensures fit { MarksFit legs.new.legs owner.new }
    ensures fibres { SameFibres owner.old owner.new }
{
    match change {
        LegChange::Goes(lsp) => remove_leg(legs, owner, shares, lsp),
        LegChange::Put(leg) => put_leg(legs, owner, shares, leg),
    }
}

// Makes the changes, one after the other. The label that the last of them takes newly is claimed, and there is room for
// them.
fn change_legs(legs: &mut LegMap, owner: &mut Owner, shares: &mut Shares, changes: Vec<LegChange>)
    requires room { vec_len changes ≤ legs.old.room }
    requires left { AreLeft legs.old.legs legs.old.legs changes.items owner.old shares.old }
    requires fit { MarksFit legs.old.legs owner.old }
    requires marks { MayAllMark (has_fibre_marks owner.old.marks) legs.old.legs changes.items }
    ensures legs { legs.new.legs ≡ legs_changed changes.items legs.old.legs }
    ensures fit { LabelsFit legs.new.legs owner.new shares.new }
    ensures fibres { SameFibres owner.old owner.new }
{
    for change in changes {
        change_leg(legs, owner, shares, change);
    }
}

// Rows

// Makes room for the row, if there is one.
fn make_room(rows: &mut Vec<TeRow>, row: &Option<TeRow>) -> Result<(), OutOfMemory>
    ensures same { rows.new.items ≡ rows.old.items }
    ensures room { OnOk result (IfSome row.now (λ _. vec_len rows.new < vec_capacity rows.new)) }
{
    if row.is_some() {
        rows.reserve(1)?;
    }
    Ok(())
}

// Puts the row after those that are known. There is room for it.
fn put_row(rows: &mut Vec<TeRow>, row: Option<TeRow>)
    requires { IfSome row (λ _. vec_len rows.old < vec_capacity rows.old) }
    ensures { rows.new.items ≡ learnt_after (option_to_list row) rows.old.items }
{
    if let Some(row) = row {
        match rows.push(row) {
            Ok(()) => (),
            Err(_) => unreachable!(),
        }
    }
}

// Answers

/// Carries out changes of legs, one after the other, and puts the row, if there is one, after those that are known. The
/// owner's claims and marks and the guards of the shares follow the legs. After want of memory nothing has changed.
pub fn carry_out_tables(
    alloc: Global,
    tables: &mut NodeTables,
    owner: &mut Owner,
    shares: &mut Shares,
    changes: Vec<LegChange>,
    row: Option<TeRow>,
) -> Result<(), OutOfMemory>
    requires node { AreOfOneNode tables.old owner.old shares.old }
    requires may { MayBeMade (local_of tables.old) tables.old.legs changes.items }
    requires marks { MayAllMark (is_own_fibre (local_of tables.old))
        tables.old.legs changes.items }
    requires few { length (legs_changed changes.items tables.old.legs) ≤ MOST_LEGS }
    ensures ok { OnOk result
        (tables.new ≡ record tables.old {
          legs = legs_changed changes.items tables.old.legs;
          rows = learnt_after (option_to_list row) tables.old.rows;
        }) }
    ensures err { OnErr result (tables.new ≡ tables.old) }
    ensures err_owner { OnErr result (owner.new ≡ owner.old) }
    ensures err_shares { OnErr result (shares.new ≡ shares.old) }
    ensures node { AreOfOneNode tables.new owner.new shares.new }
{
    tables.rises();
    make_room(&mut tables.rows, &row)?;
    tables.legs.reserve(changes.len())?;
    reserve_new(&tables.legs, owner, shares, alloc, &changes)?;
    change_legs(&mut tables.legs, owner, shares, changes);
    put_row(&mut tables.rows, row);
    Ok(())
}

/// Carries out what a rule changes, and hands back what is to be sent, in order. The owner's claims and marks and the
/// guards of the shares follow the legs. After want of memory nothing has changed.
pub fn carry_out(
    change: Change,
    tables: &mut NodeTables,
    owner: &mut Owner,
    shares: &mut Shares,
    calls: &mut Calls,
) -> Result<Outs, OutOfMemory>
    requires node { AreOfOneNode tables.old owner.old shares.old }
    requires may { MayBeCarriedOut tables.old change }
    ensures { IsCarriedOut result tables.old owner.old shares.old calls.old
        tables.new owner.new shares.new calls.new change }
{
    let ChangeParts {
        legs,
        calls: changes,
        numbers,
        down,
        row,
        sent,
    } = change.into_parts();
    calls.list.reserve(changes.len())?;
    carry_out_tables(calls.alloc, tables, owner, shares, legs, row)?;
    tables.know_down(down);
    calls.list.change(changes);
    calls.give_out(numbers);
    Ok(sent)
}
