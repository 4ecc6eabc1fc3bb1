//! The calls of an ingress by their LSPs: what LSP each call has, in order of LSP and then of call number, found by halving.

ghost use Rattle.std.specs.Prelude.{◌≡◌, ◌<◌, ◌+◌, false, slice_get, true, vec_capacity, vec_len};
ghost use Rattle.leg_table.specs.LspIndexes.{HasJust, HasNoEntry, IndexRises, IsFirstCall, IsMore, IsSet, IsTakenOff, call_there, entry_order, has_entry, is_before, is_earlier, is_same, is_same_entry, without_entry};

use crate::edits::insert_here;
use crate::keyed::{Keyed, place_of, take_item};
use ason_base::{CallNo, Lsp};

/// The LSP of a call, if it has one.
#[derive(Clone, Copy, Drop)]
pub struct LspOfCall {
    pub lsp: Option<Lsp>,
    pub call: CallNo,
}

fn is_same(a: Option<Lsp>, b: Option<Lsp>) -> bool
    ensures { result ≡ is_same a b }
{
    match (a, b) {
        (None, None) => true,
        (Some(a), Some(b)) => a == b,
        _ => false,
    }
}

// A call without an LSP comes behind those with one, so that where it comes or goes they don't move.
fn is_earlier(a: Option<Lsp>, b: Option<Lsp>) -> bool
    ensures { result ≡ is_earlier a b }
{
    match (a, b) {
        (Some(_), None) => true,
        (Some(a), Some(b)) => a < b,
        _ => false,
    }
}

fn is_before(a: LspOfCall, b: LspOfCall) -> bool
    ensures { result ≡ is_before a b }
{
    is_earlier(a.lsp, b.lsp) || (is_same(a.lsp, b.lsp) && a.call < b.call)
}

impl Keyed for LspOfCall {
    type Key = LspOfCall;

    ghost key_of = { λ e. e };

    ghost same = { is_same_entry };

    ghost before = { is_before };

    fn key(&self) -> LspOfCall {
        *self
    }

    fn is_same(a: LspOfCall, b: LspOfCall) -> bool {
        is_same(a.lsp, b.lsp) && a.call == b.call
    }

    fn is_before(a: LspOfCall, b: LspOfCall) -> bool {
        is_before(a, b)
    }

    ghost order = { entry_order };
}

// Adds an entry that isn't there. There is room for it.
fn insert(entries: &mut Vec<LspOfCall>, entry: LspOfCall)
    requires rising { IndexRises entries.old.items }
    requires new { has_entry entry entries.old.items ≡ false }
    requires room { vec_len entries.old < vec_capacity entries.old }
    ensures rising { IndexRises entries.new.items }
    ensures has { IsMore entry entries.old.items entries.new.items }
    ensures len { vec_len entries.new ≡ vec_len entries.old + 1 }
    ensures capacity { vec_capacity entries.new ≡ vec_capacity entries.old }
{
    let place = place_of(entries, entry);
    insert_here(entries, place, entry);
}

// Takes an entry off that is there. Then there is room for one.
fn take(entries: &mut Vec<LspOfCall>, entry: LspOfCall)
    requires rising { IndexRises entries.old.items }
    requires there { has_entry entry entries.old.items ≡ true }
    ensures left { entries.new.items ≡ without_entry entry entries.old.items }
    ensures rising { IndexRises entries.new.items }
    ensures len { vec_len entries.new + 1 ≡ vec_len entries.old }
    ensures room { vec_len entries.new < vec_capacity entries.new }
    ensures capacity { vec_capacity entries.new ≡ vec_capacity entries.old }
{
    match take_item(entries, entry) {
        None => unreachable!(),
        Some(_) => {}
    }
}

/// Adds the LSP of a call that has no entry. There is room for it.
pub(crate) fn add(entries: &mut Vec<LspOfCall>, entry: LspOfCall)
    requires rising { IndexRises entries.old.items }
    requires none { HasNoEntry entry.call entries.old.items }
    requires room { vec_len entries.old < vec_capacity entries.old }
    ensures set { IsSet entry.call entry.lsp entries.old.items entries.new.items }
    ensures len { vec_len entries.new ≡ vec_len entries.old + 1 }
    ensures capacity { vec_capacity entries.new ≡ vec_capacity entries.old }
{
    insert(entries, entry);
}

/// Takes the LSP of a call off.
pub(crate) fn remove(entries: &mut Vec<LspOfCall>, entry: LspOfCall)
    requires rising { IndexRises entries.old.items }
    requires just { HasJust entry.call entry.lsp entries.old.items }
    ensures off { IsTakenOff entry.call entries.old.items entries.new.items }
    ensures len { vec_len entries.new + 1 ≡ vec_len entries.old }
    ensures room { vec_len entries.new < vec_capacity entries.new }
    ensures capacity { vec_capacity entries.new ≡ vec_capacity entries.old }
{
    take(entries, entry);
}

/// Puts another LSP of a call in the place of this one.
pub(crate) fn replace(entries: &mut Vec<LspOfCall>, before: LspOfCall, lsp: Option<Lsp>)
    requires rising { IndexRises entries.old.items }
    requires just { HasJust before.call before.lsp entries.old.items }
    ensures set { IsSet before.call lsp entries.old.items entries.new.items }
    ensures len { vec_len entries.new ≡ vec_len entries.old }
    ensures capacity { vec_capacity entries.new ≡ vec_capacity entries.old }
{
    if !is_same(before.lsp, lsp) {
        let call = before.call;
        remove(entries, before);
        add(entries, LspOfCall { lsp, call });
    }
}

fn call_there(entries: &[LspOfCall], place: usize, lsp: Lsp) -> Option<CallNo>
    ensures { result ≡ call_there (slice_get entries.now place) lsp }
{
    match entries.get(place) {
        None => None,
        Some(entry) => {
            if is_same(entry.lsp, Some(lsp)) {
                Some(entry.call)
            } else {
                None
            }
        }
    }
}

/// The first call with this LSP.
pub(crate) fn first_call(entries: &[LspOfCall], lsp: Lsp) -> Option<CallNo>
    requires { IndexRises entries.now }
    ensures { IsFirstCall lsp entries.now result }
{
    let least = LspOfCall {
        lsp: Some(lsp),
        call: CallNo(0),
    };
    let place = place_of(entries, least);
    call_there(entries, place, lsp)
}
