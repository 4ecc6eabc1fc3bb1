//! The setups of a script.

ghost use Rattle.std.specs.{Prelude.{◌≡◌, ◌<◌, length, Err, IfOk, IsFalse, IsTrue, Ok, OnOk}, Option.option_copied};
ghost use Rattle.plan_reader.specs.{Entries.FailsBy, PlanCalls.calls_with, PlanSetups.{ids_at, is_backed, leads, new_routes, next_node, node_at, route_ids, routes_over, setup_of, setup_over, setup_with, steps_given, steps_over}, PlanTexts.{texts, word_at}, Names.{has_name, is_name}};

use crate::calls::NamedCalls;
use crate::faults::{EntryError, PlanKind};
use crate::forms::SetupForm;
use crate::names::{Name, Names, is_name};
use crate::nodes::node_named;
use crate::words::{link_ids, word};
use ason_base::limits::MOST_CALLS;
use ason_base::routes::{is_beside, makes_route};
use ason_base::{CallNo, Command, LinkId, NodeId, Numbers, OutOfMemory, Step, Steps, Topology};
use std::alloc::Global;

// Link ids

/// The link ids of a setup's routes, where these are given.
pub struct RouteIds {
    via: Option<Numbers>,
    backup: Option<Numbers>,
}

impl Drop for RouteIds {
    fn drop(self) {
        let RouteIds { via: _, backup: _ } = self;
    }
}

// The link ids that the word at this place writes, where a place is given.
fn ids_at(
    alloc: Global,
    words: &[&[u8]],
    place: Option<usize>,
) -> Result<Option<Numbers>, EntryError>
    ensures ids { IfOk result (λ ids. ids_at (texts words.now) place ≡ Ok ids) }
    ensures fault { FailsBy result (ids_at (texts words.now) place) }
{
    let Some(place) = place else {
        return Ok(None);
    };
    match link_ids(alloc, word(words, place))? {
        Some(ids) => Ok(Some(ids)),
        None => Err(EntryError::Fault(PlanKind::Range)),
    }
}

fn route_ids(alloc: Global, words: &[&[u8]], form: SetupForm) -> Result<RouteIds, EntryError>
    ensures ids { IfOk result (λ ids. route_ids (texts words.now) form ≡ Ok ids) }
    ensures fault { FailsBy result (route_ids (texts words.now) form) }
{
    let via = ids_at(alloc, words, form.via)?;
    let backup = ids_at(alloc, words, form.backup)?;
    Ok(RouteIds { via, backup })
}

// Routes

fn next_node(t: &Topology, n: NodeId, k: u32) -> NodeId
    ensures { result ≡ next_node t.now n k }
{
    match t.link(LinkId(k)) {
        None => n,
        Some(link) => {
            if link.low == n {
                link.high
            } else if link.high == n {
                link.low
            } else {
                n
            }
        }
    }
}

// The steps over these links from a node.
fn steps_over(alloc: Global, t: &Topology, from: NodeId, ids: &[u32]) -> Result<Steps, OutOfMemory>
    ensures { IfOk result (λ s. s ≡ steps_over t.now from ids.now) }
{
    let mut steps = Steps::new(alloc);
    let mut node = from;
    'going: for i in 0..ids.len() {
        let id = ids[i];
        let link = LinkId(id);
        steps.push(Step { node, link })?;
        node = next_node(t, node, id);
    }
    Ok(steps)
}

// The steps over these links from a node, where links are given.
fn steps_given(
    alloc: Global,
    t: &Topology,
    from: NodeId,
    ids: Option<&Numbers>,
) -> Result<Option<Steps>, OutOfMemory>
    ensures { IfOk result (λ route. route ≡ steps_given t.now from (option_copied ids.entry)) }
{
    match ids {
        None => Ok(None),
        Some(ids) => {
            let steps = steps_over(alloc, t, from, ids.items())?;
            Ok(Some(steps))
        }
    }
}

// Whether a route that is given leads from one node to the other with no node twice.
fn leads(t: &Topology, from: NodeId, to: NodeId, route: Option<&Steps>) -> bool
    ensures { result ≡ leads t.now from to (option_copied route.entry) }
{
    match route {
        None => true,
        Some(route) => makes_route(t, from, to, route.items()),
    }
}

// Whether a backup route that is given stands beside the working route.
fn is_backed(
    t: &Topology,
    from: NodeId,
    to: NodeId,
    via: Option<&Steps>,
    backup: Option<&Steps>,
) -> bool
    ensures { result ≡ is_backed t.now from to (option_copied via.entry) (option_copied backup.entry) }
{
    match backup {
        None => true,
        Some(backup) => is_beside(t, from, to, via, backup.items()),
    }
}

/// The routes of a setup, where these are given.
#[derive(Drop)]
pub struct Routes {
    via: Option<Steps>,
    backup: Option<Steps>,
}

// The routes over these links, or their first fault.
fn routes_over(
    alloc: Global,
    t: &Topology,
    from: NodeId,
    to: NodeId,
    ids: &RouteIds,
) -> Result<Routes, EntryError>
    ensures routes { IfOk result (λ r. routes_over t.now from to ids.now ≡ Ok r) }
    ensures fault { FailsBy result (routes_over t.now from to ids.now) }
{
    let via = steps_given(alloc, t, from, ids.via.as_ref())?;
    let backup = steps_given(alloc, t, from, ids.backup.as_ref())?;
    refuse_if!(
        !leads(t, from, to, via.as_ref()) || !leads(t, from, to, backup.as_ref()),
        Route
    );
    refuse_if!(
        !is_backed(t, from, to, via.as_ref(), backup.as_ref()),
        Backup
    );
    Ok(Routes { via, backup })
}

// Setups

/// The node that the word at this place names; none where there is no such node.
pub fn node_at(t: &Topology, names: &Names, words: &[&[u8]], k: usize) -> Option<NodeId>
    ensures { result ≡ node_at t.now names.now (texts words.now) k }
{
    node_named(names, t.nodes(), word(words, k))
}

// Which nodes a setup is between.
#[derive(Clone, Copy)]
pub struct Ends {
    from: NodeId,
    to: NodeId,
}

// The routes of a new call of this name, or the first fault of the call and of these.
fn new_routes(
    alloc: Global,
    t: &Topology,
    calls: &NamedCalls,
    name: &Name,
    ids: &RouteIds,
    ends: Ends,
) -> Result<Routes, EntryError>
    ensures routes { IfOk result (λ r. new_routes t.now calls.now name.now ids.now ends.from ends.to ≡ Ok r) }
    ensures new { OnOk result (IsFalse (has_name calls.now.names name.now)) }
    ensures few { OnOk result (length calls.now.names < MOST_CALLS) }
    ensures fault { FailsBy result (new_routes t.now calls.now name.now ids.now ends.from ends.to) }
{
    refuse_if!(ends.from == ends.to, Same);
    refuse_if!(calls.has(name), Call);
    refuse_if!(calls.count() >= MOST_CALLS, Count);
    routes_over(alloc, t, ends.from, ends.to, ids)
}

// What a setup is to be besides its name and its ends.
pub struct Asked {
    form: SetupForm,
    ids: RouteIds,
}

impl Drop for Asked {
    fn drop(self) {
        let Asked { form: _, ids: _ } = self;
    }
}

// The setup between these nodes, or its first fault. Its call is added to the calls.
fn setup_over(
    alloc: Global,
    t: &Topology,
    calls: &mut NamedCalls,
    words: &[&[u8]],
    asked: &Asked,
    ends: Ends,
) -> Result<Command, EntryError>
    requires { IsTrue (is_name (word_at (texts words.now) 1)) }
    ensures says { IfOk result (λ c. setup_over t.now calls.old (texts words.now)
        asked.now.form asked.now.ids ends.from ends.to ≡ Ok c) }
    ensures calls { IfOk result (λ c. calls.new ≡ calls_with calls.old (texts words.now) c) }
    ensures fault { FailsBy result (setup_over t.now calls.old (texts words.now)
        asked.now.form asked.now.ids ends.from ends.to) }
{
    let name = Name::new(alloc, word(words, 1))?;
    let routes = new_routes(alloc, t, calls, &name, &asked.ids, ends)?;
    let call = CallNo(calls.count() as u16);
    calls.push(alloc, name, ends.from)?;
    Ok(Command::Setup {
        call,
        from: ends.from,
        to: ends.to,
        protected: asked.form.protected,
        both: asked.form.both,
        via: routes.via,
        backup: routes.backup,
    })
}

// The setup over these links, or its first fault. Its call is added to the calls.
fn setup_with(
    alloc: Global,
    t: &Topology,
    names: &Names,
    calls: &mut NamedCalls,
    words: &[&[u8]],
    asked: &Asked,
) -> Result<Command, EntryError>
    ensures says { IfOk result (λ c. setup_with t.now names.now calls.old (texts words.now)
        asked.now.form asked.now.ids ≡ Ok c) }
    ensures calls { IfOk result (λ c. calls.new ≡ calls_with calls.old (texts words.now) c) }
    ensures fault { FailsBy result (setup_with t.now names.now calls.old (texts words.now)
        asked.now.form asked.now.ids) }
{
    refuse_if!(!is_name(word(words, 1)), Name);
    let (Some(from), Some(to)) = (node_at(t, names, words, 2), node_at(t, names, words, 3)) else {
        return Err(EntryError::Fault(PlanKind::Node));
    };
    setup_over(alloc, t, calls, words, asked, Ends { from, to })
}

/// A setup of this form, or its first fault. Its call is added to the calls.
pub fn read_setup(
    alloc: Global,
    t: &Topology,
    names: &Names,
    calls: &mut NamedCalls,
    words: &[&[u8]],
    form: SetupForm,
) -> Result<Command, EntryError>
    ensures says { IfOk result (λ c. setup_of t.now names.now calls.old (texts words.now) form ≡ Ok c) }
    ensures calls { IfOk result (λ c. calls.new ≡ calls_with calls.old (texts words.now) c) }
    ensures fault { FailsBy result (setup_of t.now names.now calls.old (texts words.now) form) }
{
    let ids = route_ids(alloc, words, form)?;
    setup_with(alloc, t, names, calls, words, &Asked { form, ids })
}
