//! The legs of a node by LSP, in a map of any order, and beside it the LSPs in order.

ghost use Rattle.std.specs.{Prelude.{◌≡◌, ◌≤◌, ◌<◌, ◌+◌, [], OnOk, length, slice_get}, Option.option_copied};
ghost use Rattle.mesh_rules.specs.Legs.{find_leg, with_leg, without_leg};
ghost use Rattle.leg_table.specs.LegTables.{AreLegsRising};

use crate::keyed::{put_item, take_item};
use crate::lsp_keys::LspKey;
use ason_base::{Leg, Lsp, OutOfMemory};
use indexmap::IndexMap;
use std::alloc::Global;
use std::marker::Model;

/// The legs of a node, at most one of an LSP. A leg comes and goes without moving another one: it is
/// put at the map's end, and its place is taken by the last one. The order of LSPs is beside it.
pub struct LegMap {
    map: IndexMap<LspKey, Leg>,
    order: Vec<LspKey>,
}

impl Model for LegMap {
    ghost use Rattle.std.specs.Prelude.{◌-◌, length, min, vec_capacity};
    ghost use Rattle.indexmap.specs.IndexMap.{get, spare};
    ghost use Rattle.leg_table.specs.LegMaps.{LegMapFits, LegSet, legs_in};

    ghost Value = { LegSet };

    ghost view = { λ m. record {
      legs = legs_in (get ⟦<LspKey as PartialEq>⟧.eq m.map) m.order.items;
      room = min (spare m.map) (vec_capacity m.order - length m.order.items);
    } };

    ghost invariant = { λ m. LegMapFits (get ⟦<LspKey as PartialEq>⟧.eq m.map) m.order.items };
}

impl LegMap {
    pub fn new(alloc: Global) -> LegMap
        ensures { result.legs ≡ [] }
    {
        LegMap {
            map: IndexMap::new(alloc),
            order: Vec::new(alloc),
        }
    }

    /// How many legs there are.
    pub fn count(&self) -> usize
        ensures { result ≡ length self.now.legs }
    {
        self.order.len()
    }

    /// The leg of this LSP: none exactly where none stands.
    pub fn get(&self, lsp: Lsp) -> Option<&Leg>
        ensures { option_copied result ≡ find_leg lsp self.now.legs }
    {
        self.map.get(&LspKey::of(lsp))
    }

    /// The leg at this place, from 0, in order of LSP: none exactly from the number of legs on.
    pub fn leg_at(&self, place: usize) -> Option<&Leg>
        ensures { option_copied result ≡ slice_get self.now.legs place }
    {
        match key_at(&self.order, place) {
            None => None,
            Some(key) => self.map.get(key),
        }
    }

    /// Law: the legs rise by LSP.
    pub fn rises(&self)
        ensures { AreLegsRising self.now.legs }
    {
        let _map = &self.map;
    }

    /// Makes room for so many legs more. The legs stay, also after want of memory.
    pub fn reserve(&mut self, more: usize) -> Result<(), OutOfMemory>
        ensures same { self.new.legs ≡ self.old.legs }
        ensures room { OnOk result (more ≤ self.new.room) }
    {
        self.order.reserve(more)?;
        self.map.reserve(more)?;
        Ok(())
    }

    /// Puts the leg in the place of the one of its LSP, or before the later ones. There is room for it.
    pub fn put(&mut self, leg: Leg)
        requires { 0 < self.old.room }
        ensures legs { self.new.legs ≡ with_leg leg self.old.legs }
        ensures room { self.old.room ≤ self.new.room + 1 }
    {
        let key = LspKey::of(leg.lsp);
        match self.map.insert(key, leg) {
            Ok(None) => put_item(&mut self.order, key),
            Ok(Some(_old)) => {}
            Err(_) => unreachable!(),
        }
    }

    /// Takes the leg of this LSP off: none exactly where none stands.
    pub fn take(&mut self, lsp: Lsp) -> Option<Leg>
        ensures leg { result ≡ find_leg lsp self.old.legs }
        ensures legs { self.new.legs ≡ without_leg lsp self.old.legs }
        ensures room { self.old.room ≤ self.new.room }
    {
        let key = LspKey::of(lsp);
        let _listed = take_item(&mut self.order, key);
        self.map.swap_remove(&key)
    }
}

impl Drop for LegMap {
    fn drop(self) {
        let LegMap { map: _, order: _ } = self;
    }
}

fn key_at(order: &[LspKey], place: usize) -> Option<&LspKey>
    ensures { option_copied result ≡ slice_get order.now place }
{
    order.get(place)
}
