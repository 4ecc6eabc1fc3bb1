//! What a node sends and shows after inputs that are given to it by hand.

use crate::networks::row;
use crate::nodes::inputs::{Said, input};
use ason_base::{CallState, Cause, ErrCode, Msg, NodeId, Out, Outs, Phase, Topology};
use node_core::{Input, Node};
use std::alloc::Global;
use std::test::Fail;

/// What is given, for each number from the first to the last.
pub(super) type Given = (u16, u16, &'static [Said]);

/// A message: the node that it goes to, and the code of a PathErr.
pub(super) type Sent = (NodeId, Option<ErrCode>);

/// What a table shows of a node: how many legs, the phase of the last one, and the state of the
/// last call.
pub(super) type Shown = (usize, Option<Phase>, Option<(CallState, Cause)>);

/// A node, what it is given, what it sends at last, and what is shown of it then.
pub(super) type Case = (NodeId, &'static [Given], &'static [Sent], Shown);

// A row of a link is no input here.
fn step(alloc: Global, node: &mut Node, input: &Input) -> Result<Outs, Fail> {
    match input {
        Input::Message { .. } | Input::Desk(_) | Input::Tick => Ok(node.step(alloc, input)?),
        Input::Learn(_) => Err(Fail::new("a row")),
    }
}

fn sent(out: &Out) -> Sent {
    match &out.msg {
        Msg::PathErr { code, .. } => (out.to, Some(*code)),
        _ => (out.to, None),
    }
}

// Whether just these messages are sent at this input.
fn sends(
    alloc: Global,
    node: &mut Node,
    number: u16,
    said: Said,
    messages: &[Sent],
) -> Result<bool, Fail> {
    let input = input(alloc, number, said)?;
    let outs = step(alloc, node, &input)?;
    let told = outs.items().iter().map(|out| sent(out));
    Ok(told.eq(messages.iter().copied()))
}

// The same of the last of these inputs.
fn sends_last(
    alloc: Global,
    node: &mut Node,
    given: &Given,
    messages: &[Sent],
) -> Result<bool, Fail> {
    let (first, end, all) = given;
    let mut last = false;
    for number in *first..=*end {
        for said in *all {
            last = sends(alloc, node, number, *said, messages)?;
        }
    }
    Ok(last)
}

fn shown(alloc: Global, node: &Node) -> Result<Shown, Fail> {
    let rows = node.rows(alloc)?;
    let legs = rows.legs.items();
    let phase = legs.last().map(|leg| leg.phase);
    let call = rows.calls.items().last();
    Ok((legs.len(), phase, call.map(|call| (call.state, call.cause))))
}

// Whether the node sends and shows what it must.
fn ends_so(alloc: Global, node: &mut Node, case: &Case) -> Result<bool, Fail> {
    let mut last = false;
    for given in case.1 {
        last = sends_last(alloc, node, given, case.2)?;
    }
    Ok(last && shown(alloc, node)? == case.3)
}

// The node in a list, since the drop of one that lies in none is proved anew wherever it happens.
fn new_nodes(alloc: Global, t: &Topology, id: NodeId) -> Result<Vec<Node>, Fail> {
    let mut nodes = Vec::new(alloc);
    nodes.push(Node::new(alloc, t, id)?)?;
    Ok(nodes)
}

fn holds(alloc: Global, t: &Topology, case: &Case) -> Result<bool, Fail> {
    match new_nodes(alloc, t, case.0)?.first_mut() {
        None => Ok(false),
        Some(node) => ends_so(alloc, node, case),
    }
}

/// The place of the first case that ends otherwise.
pub(super) fn first_wrong(alloc: Global, cases: &[Case]) -> Result<Option<usize>, Fail> {
    let t = row(alloc)?;
    for (place, case) in cases.iter().enumerate() {
        if !holds(alloc, &t, case)? {
            return Ok(Some(place));
        }
    }
    Ok(None)
}
