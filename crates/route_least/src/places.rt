//! The nodes of a network, each in its place, with the rows that have it as an end.

ghost use Rattle.std.specs.Prelude.{◌≡◌, ◌<◌, ◌%◌, ℕ, IfOk, IsTrue, MatchOption, OnOk, length};
ghost use Rattle.route_least.specs.{Network.{AreGuesses, AreOnce, HasAdded, HasGained, HasNode, HasSeated}, declared.places.Arc.Arc};

use ason_base::ids::{LinkId, NodeId, OutOfMemory};
use ason_base::network::TeRow;
use std::alloc::Global;

/// A row, seen from one of its ends: its place in the list of rows, its link and metric, and the place of its other end.
#[derive(Clone, Copy, Drop)]
pub(crate) struct Arc {
    pub(crate) row: usize,
    pub(crate) head: usize,
    pub(crate) link: LinkId,
    pub(crate) metric: u32,
}

/// A node, and the rows that have it as an end.
pub(crate) struct Place {
    pub(crate) node: NodeId,
    pub(crate) arcs: Vec<Arc>,
}

impl Drop for Place {
    fn drop(self) {
        let Place { node: _, arcs: _ } = self;
    }
}

/// How many guesses there are of where a node is, by the remainder of its number.
pub(crate) const GUESSES: u32 = 256;

/// How many ends of rows have each remainder.
pub(crate) fn end_counts(alloc: Global, rows: &[TeRow]) -> Result<Vec<u32>, OutOfMemory>
    ensures { IfOk result (λ counts. length counts.items ≡ GUESSES) }
{
    let mut counts: Vec<u32> = vec![in alloc; 0; GUESSES as usize]?;
    for row in rows {
        count_end(&mut counts, row.low);
        count_end(&mut counts, row.high);
    }
    Ok(counts)
}

fn count_end(counts: &mut [u32], node: NodeId)
    requires { length counts.old ≡ GUESSES }
    ensures { length counts.new ≡ GUESSES }
{
    let remainder = (node.0 % GUESSES) as usize;
    counts[remainder] = counts[remainder].wrapping_add(1);
}

/// The place of a node.
pub(crate) fn place_of(places: &[Place], node: NodeId) -> Option<usize>
    ensures { MatchOption result ((p : ℕ) → ¬ HasNode places.now p node)
        (λ p. HasNode places.now p node) }
{
    for index in 0..places.len() {
        if places[index].node == node {
            return Some(index);
        }
    }
    None
}

fn is_at(places: &[Place], place: usize, node: NodeId) -> bool
    ensures { IsTrue result → HasNode places.now place node }
{
    place < places.len() && places[place].node == node
}

// The place that a node gets which has none, with room for so many arcs.
fn new_seat(
    alloc: Global,
    places: &mut Vec<Place>,
    node: NodeId,
    room: usize,
) -> Result<usize, OutOfMemory>
    requires once { AreOnce places.old.items }
    requires absent { (p : ℕ) → ¬ HasNode places.old.items p node }
    ensures { IfOk result (HasSeated places.old.items places.new.items node) }
{
    let place = places.len();
    let arcs = Vec::with_capacity(alloc, room)?;
    places.push(Place { node, arcs })?;
    Ok(place)
}

// The place of a node, which gets one if it has none.
fn seat(
    alloc: Global,
    places: &mut Vec<Place>,
    node: NodeId,
    room: usize,
) -> Result<usize, OutOfMemory>
    requires { AreOnce places.old.items }
    ensures { IfOk result (HasSeated places.old.items places.new.items node) }
{
    if let Some(place) = place_of(places, node) {
        return Ok(place);
    }
    new_seat(alloc, places, node, room)
}

// The same by the guesses: a node whose remainder has no guess has no place.
fn guessed_seat(
    alloc: Global,
    places: &mut Vec<Place>,
    guesses: &mut [usize],
    counts: &[u32],
    node: NodeId,
) -> Result<usize, OutOfMemory>
    requires once { AreOnce places.old.items }
    requires guesses { AreGuesses places.old.items guesses.old }
    requires counts { length counts.now ≡ GUESSES }
    ensures seated { IfOk result (HasSeated places.old.items places.new.items node) }
    ensures guesses { OnOk result (AreGuesses places.new.items guesses.new) }
{
    let guess = guesses[(node.0 % GUESSES) as usize];
    if is_at(places, guess, node) {
        return Ok(guess);
    }
    next_guess(alloc, places, guesses, counts, node)
}

// The same where the node isn't at its guess, which becomes a new one. It is out of line: most nodes are where they are guessed.
#[inline(never)]
fn next_guess(
    alloc: Global,
    places: &mut Vec<Place>,
    guesses: &mut [usize],
    counts: &[u32],
    node: NodeId,
) -> Result<usize, OutOfMemory>
    requires once { AreOnce places.old.items }
    requires guesses { AreGuesses places.old.items guesses.old }
    requires counts { length counts.now ≡ GUESSES }
    ensures seated { IfOk result (HasSeated places.old.items places.new.items node) }
    ensures guesses { OnOk result (AreGuesses places.new.items guesses.new) }
{
    let remainder = (node.0 % GUESSES) as usize;
    let room = counts[remainder] as usize;
    let place = if guesses[remainder] < places.len() {
        seat(alloc, places, node, room)?
    } else {
        new_seat(alloc, places, node, room)?
    };
    guesses[remainder] = place;
    Ok(place)
}

fn push_arc(places: &mut Vec<Place>, place: usize, arc: Arc) -> Result<(), OutOfMemory>
    requires { place < length places.old.items }
    ensures { OnOk result (HasGained places.old.items places.new.items place arc) }
{
    places[place].arcs.push(arc)?;
    Ok(())
}

/// Adds a row, which stands in this place of the list of rows, at both of its ends.
pub(crate) fn add_row(
    alloc: Global,
    places: &mut Vec<Place>,
    guesses: &mut [usize],
    counts: &[u32],
    row: &TeRow,
    index: usize,
) -> Result<(), OutOfMemory>
    requires once { AreOnce places.old.items }
    requires guesses { AreGuesses places.old.items guesses.old }
    requires counts { length counts.now ≡ GUESSES }
    ensures added { OnOk result (HasAdded places.old.items places.new.items row.now index) }
    ensures guesses { OnOk result (AreGuesses places.new.items guesses.new) }
{
    let low = guessed_seat(alloc, places, guesses, counts, row.low)?;
    let high = guessed_seat(alloc, places, guesses, counts, row.high)?;
    push_arc(places, low, arc_of(row, index, high))?;
    push_arc(places, high, arc_of(row, index, low))?;
    Ok(())
}

fn arc_of(row: &TeRow, index: usize, head: usize) -> Arc
    ensures row { result.row ≡ index }
    ensures head { result.head ≡ head }
    ensures link { result.link ≡ row.now.link }
    ensures metric { result.metric ≡ row.now.metric }
{
    Arc {
        row: index,
        head,
        link: row.link,
        metric: row.metric,
    }
}
