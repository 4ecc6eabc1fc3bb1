//! Which calls a group's failure would hit.

ghost use Rattle.std.specs.Prelude.{◌≡◌, ◌++◌, IfOk, OnOk, flat_map};
ghost use Rattle.survey.specs.Groups.{hit_in, hit_numbers, is_hit_so};

use crate::groups::{GroupLinks, is_hit};
use crate::views::{CallView, is_guarded};
use ason_base::{Items, OutOfMemory};
use mesh_laws::{CallNos, Hit};
use std::alloc::Global;

// Whether the group would hit the call, and the call is a guarded one or, as is asked, isn't.
fn is_hit_so(group: &GroupLinks, guarded: bool, view: &CallView) -> bool
    ensures { result ≡ is_hit_so group.now guarded view.now }
{
    is_guarded(view) == guarded && is_hit(group, view)
}

fn hit_numbers(
    alloc: Global,
    group: &GroupLinks,
    guarded: bool,
    views: &[CallView],
) -> Result<CallNos, OutOfMemory>
    ensures { IfOk result (λ numbers. numbers ≡ hit_numbers group.now guarded views.now) }
{
    let mut numbers = Vec::new(alloc);
    for view in views {
        if is_hit_so(group, guarded, view) {
            numbers.push(view.call.call)?;
        }
    }
    Ok(Items::from_vec(numbers))
}

// Adds what the group would hit, where it hits a call.
fn push_hit(
    alloc: Global,
    group: &GroupLinks,
    views: &[CallView],
    hits: &mut Vec<Hit>,
) -> Result<(), OutOfMemory>
    ensures { OnOk result (hits.new.items ≡ hits.old.items ++ hit_in views.now group.now) }
{
    let guarded = hit_numbers(alloc, group, true, views)?;
    let bare = hit_numbers(alloc, group, false, views)?;
    if !guarded.items().is_empty() || !bare.items().is_empty() {
        hits.push(Hit {
            group: group.group,
            guarded,
            bare,
        })?;
    }
    Ok(())
}

/// What each group would hit.
pub(crate) fn hits_of(
    alloc: Global,
    groups: &[GroupLinks],
    views: &[CallView],
) -> Result<Vec<Hit>, OutOfMemory>
    ensures { IfOk result (λ hits. hits.items ≡ flat_map (hit_in views.now) groups.now) }
{
    let mut hits = Vec::new(alloc);
    for group in groups {
        push_hit(alloc, group, views, &mut hits)?;
    }
    Ok(hits)
}
