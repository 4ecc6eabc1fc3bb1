//! The calls of an ingress in order of number, and by their LSPs.

ghost use Rattle.std.specs.{Prelude.{◌≡◌, ◌≤◌, ◌<◌, ◌+◌, [], OnOk, vec_capacity, vec_len}, Option.option_copied};
ghost use Rattle.mesh_rules.specs.Calls.{call_with, calls_changed, find_call, with_call, without_call};
ghost use Rattle.leg_table.specs.{CallLists.{AreCalls, GrewBy, HasRoomForCalls, IsEntryOf, index_entry_of, lesser}, LspIndexes.{IndexRises, IsSet, IsTakenOff, back_of, work_of}, CallTables.number_of};

use crate::calls::{find_call, take_call};
use crate::keyed::put_item;
use crate::lsp_index::{LspOfCall, add, first_call, remove, replace};
use ason_base::{CallNo, CallRec, Lsp, OutOfMemory};
use mesh_rules::CallChange;
use std::alloc::Global;

// What a call has in the indexes of working and of backup LSPs.
fn entries(call: Option<&CallRec>) -> (Option<LspOfCall>, Option<LspOfCall>)
    ensures work { result.0 ≡ index_entry_of work_of (option_copied call.entry) }
    ensures back { result.1 ≡ index_entry_of back_of (option_copied call.entry) }
{
    match call {
        None => (None, None),
        Some(call) => {
            let number = call.call;
            let work = LspOfCall {
                lsp: call.work,
                call: number,
            };
            let back = LspOfCall {
                lsp: call.back,
                call: number,
            };
            (Some(work), Some(back))
        }
    }
}

// Puts the entry in the place of that which its call has. There is room for it.
fn put_entry(entries: &mut Vec<LspOfCall>, before: Option<LspOfCall>, entry: LspOfCall)
    requires rising { IndexRises entries.old.items }
    requires before { IsEntryOf entry.call entries.old.items before }
    requires room { vec_len entries.old < vec_capacity entries.old }
    ensures set { IsSet entry.call entry.lsp entries.old.items entries.new.items }
    ensures len { vec_len entries.new ≤ vec_len entries.old + 1 }
    ensures capacity { vec_capacity entries.new ≡ vec_capacity entries.old }
{
    match before {
        None => add(entries, entry),
        Some(before) => replace(entries, before, entry.lsp),
    }
}

// Takes the entry of the call of this number off, if it has one.
fn take_entry(entries: &mut Vec<LspOfCall>, before: Option<LspOfCall>, number: CallNo)
    requires rising { IndexRises entries.old.items }
    requires before { IsEntryOf number entries.old.items before }
    ensures off { IsTakenOff number entries.old.items entries.new.items }
    ensures len { vec_len entries.new ≤ vec_len entries.old }
    ensures capacity { vec_capacity entries.new ≡ vec_capacity entries.old }
{
    match before {
        None => {}
        Some(before) => remove(entries, before),
    }
}

fn lesser(a: Option<CallNo>, b: Option<CallNo>) -> Option<CallNo>
    ensures { result ≡ lesser a b }
{
    match (a, b) {
        (None, b) => b,
        (Some(a), None) => Some(a),
        (Some(a), Some(b)) => { if a <= b { Some(a) } else { Some(b) } }
    }
}

/// The calls, their working LSPs and their backup LSPs.
pub struct CallList {
    pub calls: Vec<CallRec>,
    works: Vec<LspOfCall>,
    backs: Vec<LspOfCall>,
}

impl CallList {
    pub(crate) fn new(alloc: Global) -> CallList
        ensures calls { result.calls.items ≡ [] }
        ensures fit { AreCalls result }
    {
        CallList {
            calls: Vec::new(alloc),
            works: Vec::new(alloc),
            backs: Vec::new(alloc),
        }
    }

    /// Makes room for so many calls more.
    pub fn reserve(&mut self, more: usize) -> Result<(), OutOfMemory>
        requires { AreCalls self.old }
        ensures calls { self.new.calls.items ≡ self.old.calls.items }
        ensures fit { AreCalls self.new }
        ensures room { OnOk result (HasRoomForCalls more self.new) }
    {
        self.calls.reserve(more)?;
        self.works.reserve(more)?;
        self.backs.reserve(more)?;
        Ok(())
    }

    /// Puts the call in the place of the one of its number, or before the greater ones. There is room for it.
    pub(crate) fn store(&mut self, call: CallRec)
        requires fit { AreCalls self.old }
        requires room { HasRoomForCalls 1 self.old }
        ensures calls { self.new.calls.items ≡ with_call call self.old.calls.items }
        ensures fit { AreCalls self.new }
        ensures grew { GrewBy 1 self.old self.new }
    {
        let number = call.call;
        let before = find_call(&self.calls, number);
        let (work, back) = entries(before);
        put_entry(
            &mut self.works,
            work,
            LspOfCall {
                lsp: call.work,
                call: number,
            },
        );
        put_entry(
            &mut self.backs,
            back,
            LspOfCall {
                lsp: call.back,
                call: number,
            },
        );
        put_item(&mut self.calls, call);
    }

    /// Takes the call of this number off.
    pub(crate) fn take(&mut self, number: CallNo) -> Option<CallRec>
        requires { AreCalls self.old }
        ensures call { result ≡ find_call number self.old.calls.items }
        ensures calls { self.new.calls.items ≡ without_call number self.old.calls.items }
        ensures fit { AreCalls self.new }
        ensures grew { GrewBy 0 self.old self.new }
    {
        let before = find_call(&self.calls, number);
        let (work, back) = entries(before);
        take_entry(&mut self.works, work, number);
        take_entry(&mut self.backs, back, number);
        take_call(&mut self.calls, number)
    }

    fn erase(&mut self, number: CallNo)
        requires { AreCalls self.old }
        ensures calls { self.new.calls.items ≡ without_call number self.old.calls.items }
        ensures fit { AreCalls self.new }
        ensures grew { GrewBy 0 self.old self.new }
    {
        let _call = self.take(number);
    }

    /// Makes the changes, one after the other. There is room for them.
    pub fn change(&mut self, changes: Vec<CallChange>)
        requires fit { AreCalls self.old }
        requires room { HasRoomForCalls (vec_len changes) self.old }
        ensures calls { self.new.calls.items ≡ calls_changed changes.items self.old.calls.items }
        ensures fit { AreCalls self.new }
    {
        for change in changes {
            match change {
                CallChange::Goes(number) => self.erase(number),
                CallChange::Put(call) => self.store(call),
            }
        }
    }

    /// The number of the first call that has this LSP, as its working or as its backup LSP.
    pub(crate) fn of_lsp(&self, lsp: Lsp) -> Option<CallNo>
        requires { AreCalls self.now }
        ensures { result ≡ number_of (call_with lsp self.now.calls.items) }
    {
        lesser(first_call(&self.works, lsp), first_call(&self.backs, lsp))
    }

    /// The first call that has this LSP, as its working or as its backup LSP.
    pub(crate) fn with_lsp(&self, lsp: Lsp) -> Option<&CallRec>
        requires { AreCalls self.now }
        ensures { option_copied result ≡ call_with lsp self.now.calls.items }
    {
        match self.of_lsp(lsp) {
            None => None,
            Some(number) => find_call(&self.calls, number),
        }
    }
}

impl Drop for CallList {
    fn drop(self) {
        let CallList {
            calls: _,
            works: _,
            backs: _,
        } = self;
    }
}
