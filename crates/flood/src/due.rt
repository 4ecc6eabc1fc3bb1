//! Rows that are due to a neighbour.

ghost use Rattle.std.specs.Prelude.{◌≡◌, ◌<◌, ◌==◌, ◌++◌, AllPairs, not, filter, IfOk, OnOk, map};
ghost use Rattle.flood.specs.State.{age_after_tick, goes_at, is_first, older_due};

use ason_base::{Copied, NodeId, OutOfMemory, TeRow, copied};
use hop_reliable::ages::{is_due, older_age};
use std::alloc::Global;
use std::collections::VecDeque;

/// A row that a neighbour hasn't acknowledged, with its number there. `age` counts ticks since its first sending, where 68
/// counts as 8; before that it is none.
pub struct Due {
    pub number: u32,
    pub age: Option<u8>,
    pub origin: NodeId,
    pub row: TeRow,
}

impl Copied for Due {
    fn copy(&self, alloc: Global) -> Result<Due, OutOfMemory> {
        copied!(self, alloc; Due { number, age, origin; row })
    }
}

impl Drop for Due {
    fn drop(self) {
        let Due {
            number: _,
            age: _,
            origin: _,
            row: _,
        } = self;
    }
}

/// The age after one more tick.
pub(crate) fn age_after_tick(age: Option<u8>) -> Option<u8>
    ensures { result ≡ age_after_tick age }
{
    match age {
        None => Some(0),
        Some(age) => Some(older_age(age)),
    }
}

/// Whether a row goes out in the tick that gives it this age.
pub(crate) fn goes_at(age: Option<u8>) -> bool
    ensures { result ≡ goes_at age }
{
    match age {
        None => false,
        Some(age) => age == 0 || is_due(age),
    }
}

impl Due {
    /// Whether the next tick sends it.
    pub fn goes_next(&self) -> bool
        ensures { result ≡ goes_at (age_after_tick self.now.age) }
    {
        goes_at(age_after_tick(self.age))
    }
}

// Adds the same rows again.
fn push_copies(alloc: Global, all: &mut VecDeque<Due>, due: &[Due]) -> Result<(), OutOfMemory>
    ensures { OnOk result (all.new.items ≡ all.old.items ++ due.now) }
{
    for d in due {
        all.push_back(d.copy(alloc)?)?;
    }
    Ok(())
}

/// The same rows again.
pub(crate) fn copies(alloc: Global, due: &VecDeque<Due>) -> Result<VecDeque<Due>, OutOfMemory>
    ensures { IfOk result (λ ds. ds.items ≡ due.now.items) }
{
    let (first, others) = due.as_slices();
    let mut all = VecDeque::with_capacity(alloc, due.len())?;
    push_copies(alloc, &mut all, first)?;
    push_copies(alloc, &mut all, others)?;
    Ok(all)
}

/// Makes each row a tick older.
pub(crate) fn age_all(due: &mut [Due])
    ensures { due.new ≡ map older_due due.old }
{
    for d in due.iter_mut() {
        d.age = age_after_tick(d.age);
    }
}

/// Whether the first row that is due has this number.
fn is_first(due: &VecDeque<Due>, number: u32) -> bool
    ensures { result ≡ is_first number due.now.items }
{
    match due.front() {
        None => false,
        Some(first) => first.number == number,
    }
}

/// Takes off the row of this number. Most often it is the first one. The numbers rise, so any other is looked up.
pub(crate) fn take_off(due: &mut VecDeque<Due>, number: u32)
    requires { AllPairs (λ d e. d.number < e.number) due.old.items }
    ensures { due.new.items ≡ filter (λ d. not (d.number == number)) due.old.items }
{
    if is_first(due, number) {
        let _ = due.pop_front();
        return;
    }
    if let Ok(place) = due.binary_search_by_key(&number, |d| d.number) {
        let _ = due.remove(place);
    }
}
