//! What a survey tells.

ghost use Rattle.std.specs.Prelude.{◌≡◌, ◌<◌, Some, IfOk, length, slice_get};
ghost use Rattle.survey.specs.Meetings.{meet_lists};

use crate::contends::contends_at;
use crate::groups::GroupLinks;
use crate::slots::Slot;
use ason_base::{Items, OutOfMemory};
use mesh_laws::{Contend, Hit};
use std::alloc::Global;
use std::marker::Model;

/// What each group that hits a call would hit, in order of groups: SRLGs, then links.
pub type Hits = Items<Hit>;

/// The two calls each that would contend, in order of the two groups, the link, its forward fibre first, the label, and
/// the calls: a list for each first group, which is made when it is asked for, since there may be very many of them.
pub struct Contends {
    groups: Vec<GroupLinks>,
    slots: Vec<Slot>,
}

impl Model for Contends {
    ghost use Rattle.std.specs.Prelude.{List};
    ghost use Rattle.mesh_laws.specs.declared.survey.Contend.{Contend};
    ghost use Rattle.survey.specs.Meetings.{meet_lists};

    ghost Value = { List (List Contend) };

    ghost view = { λ c. meet_lists c.slots.items c.groups.items };
}

impl Contends {
    /// Of these groups, over these labels.
    pub(crate) fn new(groups: Vec<GroupLinks>, slots: Vec<Slot>) -> Contends
        ensures { result ≡ meet_lists slots.items groups.items }
    {
        Contends { groups, slots }
    }

    /// How many lists there are.
    pub fn len(&self) -> usize
        ensures { result ≡ length self.now }
    {
        self.groups.len()
    }

    /// The list at this place.
    pub fn list(&self, alloc: Global, place: usize) -> Result<Vec<Contend>, OutOfMemory>
        requires { place < length self.now }
        ensures { IfOk result (λ list. slice_get self.now place ≡ Some list.items) }
    {
        contends_at(alloc, &self.groups, place, &self.slots)
    }
}

impl Drop for Contends {
    fn drop(self) {
        let Contends {
            groups: _,
            slots: _,
        } = self;
    }
}

/// What fails together, and who would contend.
pub struct Survey {
    pub hits: Hits,
    pub contends: Contends,
}

impl Drop for Survey {
    fn drop(self) {
        let Survey {
            hits: _,
            contends: _,
        } = self;
    }
}
