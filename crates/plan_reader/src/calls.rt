//! The calls that a script sets up.

ghost use Rattle.std.specs.Prelude.{◌≡◌, ◌<◌, length, IfSome, IsFalse, OnErr, OnOk};
ghost use Rattle.plan_reader.specs.{PlanCalls.{PutsPlace, call_named, no_calls, with_named_call}, Names.has_name};

use crate::names::{Name, Names};
use ason_base::limits::MOST_CALLS;
use ason_base::{NodeId, OutOfMemory};
use std::alloc::Global;
use std::collections::BTreeMap;
use std::marker::Model;

/// Calls by their names, each with its ingress, in order of number. A map finds the number of a name.
pub struct NamedCalls {
    names: Vec<Name>,
    ingresses: Vec<NodeId>,
    places: BTreeMap<String, usize>,
}

impl Model for NamedCalls {
    ghost use Rattle.plan_reader.specs.PlanCalls.{AreNamesFound, CallList};

    ghost Value = { CallList };

    ghost view = { λ s. record { names = s.names.items; ingresses = s.ingresses.items } };

    ghost invariant = { λ s. AreNamesFound s.places s.names.items };
}

// Puts the place of a new name into the map.
fn put(
    alloc: Global,
    places: &mut BTreeMap<String, usize>,
    name: &Name,
    place: usize,
) -> Result<(), OutOfMemory>
    ensures ok { OnOk result (PutsPlace places.old places.new name.now place) }
    ensures err { OnErr result (places.new.entries ≡ places.old.entries) }
{
    let key = String::from_str(alloc, name.as_str())?;
    places.insert(key, place)?;
    Ok(())
}

impl NamedCalls {
    /// No call.
    pub fn new(alloc: Global) -> NamedCalls
        ensures { result ≡ no_calls }
    {
        NamedCalls {
            names: Vec::new(alloc),
            ingresses: Vec::new(alloc),
            places: BTreeMap::new(alloc),
        }
    }

    /// Adds a call, which gets the next number.
    pub fn push(&mut self, alloc: Global, name: Name, ingress: NodeId) -> Result<(), OutOfMemory>
        requires few { length self.old.names < MOST_CALLS }
        requires fresh { IsFalse (has_name self.old.names name) }
        ensures ok { OnOk result (self.new ≡ with_named_call self.old name ingress) }
        ensures err { OnErr result (self.new ≡ self.old) }
    {
        let place = self.count();
        self.names.reserve(1)?;
        self.ingresses.reserve(1)?;
        put(alloc, &mut self.places, &name, place)?;
        match (self.names.push(name), self.ingresses.push(ingress)) {
            (Ok(()), Ok(())) => Ok(()),
            _ => unreachable!(),
        }
    }

    /// How many calls there are.
    pub fn count(&self) -> usize
        ensures { result ≡ length self.now.names }
    {
        self.names.len()
    }

    /// The number and the ingress of the call of this name: none exactly where there is none.
    pub fn find(&self, name: &Name) -> Option<(usize, NodeId)>
        ensures call { result ≡ call_named self.now name.now }
        ensures within { IfSome result (λ call. call.0 < MOST_CALLS) }
    {
        let place = *self.places.get(name.as_str())?;
        let ingress = *self.ingresses.get(place)?;
        Some((place, ingress))
    }

    /// Whether there is a call of this name.
    pub fn has(&self, name: &Name) -> bool
        ensures { result ≡ has_name self.now.names name.now }
    {
        self.places.contains_key(name.as_str())
    }

    /// The names, in order of number.
    pub fn into_names(self) -> Names
        ensures { result ≡ self.names }
    {
        let NamedCalls {
            names,
            ingresses: _,
            places: _,
        } = self;
        Names::from_vec(names)
    }
}

impl Drop for NamedCalls {
    fn drop(self) {
        let NamedCalls {
            names: _,
            ingresses: _,
            places: _,
        } = self;
    }
}
