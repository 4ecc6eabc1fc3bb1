//! The calls of an ingress, in order of number, and the tunnel and LSP numbers that come next.

ghost use Rattle.std.specs.{Prelude.{◌≡◌, ◌≤◌, [], length}, Option.option_copied};
ghost use Rattle.mesh_rules.specs.{Calls.{call_with, find_call}, Changes.{lsp_after, tunnel_after}};

use crate::call_list::CallList;
use crate::calls::{count, find_call};
use ason_base::{CallNo, CallRec, Lsp};
use mesh_rules::NextNumbers;
use std::alloc::Global;
use std::marker::Model;

/// The calls of an ingress, and the tunnel and LSP numbers that it gives out next.
pub struct Calls {
    pub alloc: Global,
    pub list: CallList,
    pub(crate) tunnel: u32,
    pub(crate) lsp: u32,
}

impl Model for Calls {
    ghost use Rattle.leg_table.specs.CallLists.{AreCalls};
    ghost use Rattle.leg_table.specs.CallTables.{CallTable};

    ghost Value = { CallTable };

    ghost view = { λ t. record { calls = t.list.calls.items; tunnel = t.tunnel; lsp = t.lsp } };

    ghost invariant = { λ t. AreCalls t.list };
}

impl Calls {
    /// No call, and numbers from 1.
    pub fn new(alloc: Global) -> Calls
        ensures { result ≡ record { calls = []; tunnel = 1; lsp = 1 } }
    {
        Calls {
            alloc,
            list: CallList::new(alloc),
            tunnel: 1,
            lsp: 1,
        }
    }

    /// The call of this number: none exactly where none stands.
    pub fn get(&self, call: CallNo) -> Option<&CallRec>
        ensures { option_copied result ≡ find_call call self.now.calls }
    {
        find_call(&self.list.calls, call)
    }

    /// The first call that has this LSP, as its working or as its backup LSP: none exactly where none has it.
    pub fn with_lsp(&self, lsp: Lsp) -> Option<&CallRec>
        ensures { option_copied result ≡ call_with lsp self.now.calls }
    {
        self.list.with_lsp(lsp)
    }

    /// The calls, in order of number.
    pub fn calls(&self) -> &[CallRec]
        ensures { result.now ≡ self.now.calls }
    {
        &self.list.calls
    }

    /// The number of calls: at most 65,536, since no number is that of two.
    pub fn count(&self) -> usize
        ensures count { result ≡ length self.now.calls }
        ensures few { length self.now.calls ≤ 65536 }
    {
        count(&self.list.calls)
    }

    /// The tunnel number that comes next.
    pub fn next_tunnel(&self) -> u32
        ensures { result ≡ self.now.tunnel }
    {
        self.tunnel
    }

    /// The LSP number that comes next.
    pub fn next_lsp(&self) -> u32
        ensures { result ≡ self.now.lsp }
    {
        self.lsp
    }

    /// Sets the tunnel and LSP numbers that come next.
    pub fn use_ids(&mut self, tunnel: u32, lsp: u32)
        ensures { self.new ≡ record self.old { tunnel = tunnel; lsp = lsp } }
    {
        self.tunnel = tunnel;
        self.lsp = lsp;
    }

    /// The same, where some numbers were given out.
    pub fn give_out(&mut self, numbers: Option<NextNumbers>)
        ensures { self.new ≡ record self.old {
          tunnel = tunnel_after numbers self.old.tunnel;
          lsp = lsp_after numbers self.old.lsp;
        } }
    {
        if let Some(numbers) = numbers {
            self.use_ids(numbers.tunnel, numbers.lsp);
        }
    }
}

impl Drop for Calls {
    fn drop(self) {
        let Calls {
            alloc: _,
            list: _,
            tunnel: _,
            lsp: _,
        } = self;
    }
}
