//! What a backup must keep off.

ghost use Rattle.std.specs.{Prelude.{◌≡◌, ◌≢◌, ◌↔◌, false, IfOk, IsTrue, length, map, replicate}, List.Contains};
ghost use Rattle.ason_base.specs.{Walks.IsInner, declared.ids.NodeId.NodeId};
ghost use Rattle.route_pair.specs.{Closed.{AreClosedToo, AreFlagged, AreSrlgsOf, AreUsed, RowHasLink, HasOneSrlg}, Pairs.AreBans};

use ason_base::ids::{NodeId, OutOfMemory};
use ason_base::network::TeRow;
use ason_base::steps::Steps;
use route_least::NodeIds;
use std::alloc::Global;

// How many remainders numbers are told apart by.
const FLAGS: u32 = 256;

/// The rows that are closed to a backup, by their place in the list, and the nodes that it mustn't visit after its start.
pub(crate) struct Bans {
    pub(crate) closed: Vec<bool>,
    pub(crate) nodes: NodeIds,
}

impl Drop for Bans {
    fn drop(self) {
        let Bans {
            closed: _,
            nodes: _,
        } = self;
    }
}

/// The rows that have a risk of the primary route, and its inner nodes.
pub(crate) fn bans_of(
    alloc: Global,
    rows: &[TeRow],
    primary: &Steps,
    from: NodeId,
    to: NodeId,
) -> Result<Bans, OutOfMemory>
    ensures { IfOk result (AreBans rows.now primary.now from to) }
{
    let mut closed = used_rows(alloc, rows, primary)?;
    let srlgs = srlgs_of(alloc, rows, &closed)?;
    let flags = flags_of(alloc, &srlgs)?;
    close(rows, &srlgs, &flags, &mut closed);
    let nodes = inner_nodes(alloc, primary, from, to)?;
    Ok(Bans { closed, nodes })
}

// For each row whether the route has its link.
fn used_rows(alloc: Global, rows: &[TeRow], route: &Steps) -> Result<Vec<bool>, OutOfMemory>
    ensures { IfOk result (λ used. AreUsed rows.now route.now (length rows.now) used.items) }
{
    let links = links_of(alloc, route)?;
    let flags = flags_of(alloc, &links)?;
    let mut used = no_rows(alloc, rows.len())?;
    close_links(rows, &links, &flags, &mut used);
    Ok(used)
}

/// No mark at any of so many rows.
pub(crate) fn no_rows(alloc: Global, count: usize) -> Result<Vec<bool>, OutOfMemory>
    ensures { IfOk result (λ closed. closed.items ≡ replicate count false) }
{
    let closed: Vec<bool> = vec![in alloc; false; count]?;
    Ok(closed)
}

// Marks the rows that have one of the links.
fn close_links(rows: &[TeRow], links: &[u32], flags: &[bool], closed: &mut [bool])
    requires closed { length closed.old ≡ length rows.now }
    requires flags { AreFlagged links.now flags.now }
    ensures { AreClosedToo rows.now (RowHasLink links.now) (length rows.now) closed.old closed.new }
{
    for place in 0..rows.len() {
        if is_among(links, flags, rows[place].link.0) {
            closed[place] = true;
        }
    }
}

fn links_of(alloc: Global, route: &Steps) -> Result<Vec<u32>, OutOfMemory>
    ensures { IfOk result (λ links. links.items ≡ map (λ s. s.link.0) route.now) }
{
    let links = route.items().iter().map(|step| step.link.0).collect(alloc)?;
    Ok(links)
}

// For each remainder whether one of the numbers has it.
fn flags_of(alloc: Global, numbers: &[u32]) -> Result<Vec<bool>, OutOfMemory>
    ensures { IfOk result (λ flags. AreFlagged numbers.now flags.items) }
{
    let mut flags: Vec<bool> = vec![in alloc; false; FLAGS as usize]?;
    flag(numbers, &mut flags);
    Ok(flags)
}

fn flag(numbers: &[u32], flags: &mut [bool])
    requires { length flags.old ≡ FLAGS }
    ensures { AreFlagged numbers.now flags.new }
{
    for number in numbers {
        flags[(*number % FLAGS) as usize] = true;
    }
}

// The SRLGs of the rows that are marked.
fn srlgs_of(alloc: Global, rows: &[TeRow], used: &[bool]) -> Result<Vec<u32>, OutOfMemory>
    requires { length used.now ≡ length rows.now }
    ensures { IfOk result (λ srlgs. AreSrlgsOf rows.now used.now (length rows.now) srlgs.items) }
{
    let mut srlgs = Vec::new(alloc);
    for place in 0..rows.len() {
        if used[place] {
            srlgs.extend_from_slice(rows[place].srlgs.items())?;
        }
    }
    Ok(srlgs)
}

// Marks the rows that have one of the SRLGs.
fn close(rows: &[TeRow], srlgs: &[u32], flags: &[bool], closed: &mut [bool])
    requires closed { length closed.old ≡ length rows.now }
    requires flags { AreFlagged srlgs.now flags.now }
    ensures { AreClosedToo rows.now (λ row. HasOneSrlg row srlgs.now) (length rows.now) closed.old closed.new }
{
    for place in 0..rows.len() {
        if has_one(&rows[place], srlgs, flags) {
            closed[place] = true;
        }
    }
}

fn has_one(row: &TeRow, srlgs: &[u32], flags: &[bool]) -> bool
    requires { AreFlagged srlgs.now flags.now }
    ensures { IsTrue result ↔ HasOneSrlg row.now srlgs.now }
{
    for srlg in row.srlgs.items() {
        if is_among(srlgs, flags, *srlg) {
            return true;
        }
    }
    false
}

// Whether the number is in the list. Most that aren't have a remainder that isn't flagged.
fn is_among(numbers: &[u32], flags: &[bool], number: u32) -> bool
    requires { AreFlagged numbers.now flags.now }
    ensures { IsTrue result ↔ Contains numbers.now number }
{
    flags[(number % FLAGS) as usize] && is_in(numbers, number)
}

// Out of line, since it is seldom asked.
#[inline(never)]
fn is_in(numbers: &[u32], number: u32) -> bool
    ensures { IsTrue result ↔ Contains numbers.now number }
{
    numbers.contains(&number)
}

// The nodes that the route visits besides its two ends.
fn inner_nodes(
    alloc: Global,
    route: &Steps,
    from: NodeId,
    to: NodeId,
) -> Result<NodeIds, OutOfMemory>
    ensures { IfOk result (λ nodes. (n : NodeId) → Contains nodes n ↔ IsInner from to route.now n) }
{
    let mut nodes = NodeIds::new(alloc);
    for step in route.items() {
        if is_other(step.node, from, to) {
            nodes.push(step.node)?;
        }
    }
    Ok(nodes)
}

fn is_other(node: NodeId, from: NodeId, to: NodeId) -> bool
    ensures { IsTrue result ↔ ((node ≢ from) × (node ≢ to)) }
{
    node != from && node != to
}
