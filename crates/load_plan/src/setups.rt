//! The lines of a generated script that set its calls up.

ghost use Rattle.std.specs.Prelude.{◌≡◌, ◌<◌, ◌≤◌, ◌++◌, IfOk, OnOk};
ghost use Rattle.ason_base.specs.declared.limits.TheConstants.{MOST_CALLS, MOST_NODES};
ghost use Rattle.load_plan.specs.{Draws.next, Setups.{setup_at, settles_after, setups_from}};

use crate::draws::Draws;
use ason_base::{CallNo, Command, NodeId, OutOfMemory};
use plan_reader::{Line, Lines};
use std::alloc::Global;

/// The most rounds until the network settles.
pub(crate) const ROUNDS: u32 = 1000;

// A protected call from a node to another one.
fn setup_at(n: u32, i: u32, draws: &mut Draws) -> Line
    requires some { 2 ≤ n }
    requires n { n ≤ MOST_NODES }
    requires i { i < MOST_CALLS }
    ensures setup { result ≡ setup_at n i draws.old.state }
    ensures next { draws.new.state ≡ next (next draws.old.state) }
{
    let n = n as u64;
    let from = draws.draw() % n;
    let to = (from + 1 + draws.draw() % (n - 1)) % n;
    Line::Post(Command::Setup {
        call: CallNo(i as u16),
        from: NodeId(from as u32 + 1),
        to: NodeId(to as u32 + 1),
        protected: true,
        both: false,
        via: None,
        backup: None,
    })
}

// A settle after every 16 setups and after the last.
fn push_settles(lines: &mut Lines, calls: u32, i: u32) -> Result<(), OutOfMemory>
    requires { i < MOST_CALLS }
    ensures { OnOk result (lines.new ≡ lines.old ++ settles_after calls i) }
{
    if (i + 1) % 16 == 0 || i + 1 == calls {
        lines.push(Line::Settle(ROUNDS))?;
    }
    Ok(())
}

/// The setups of so many calls between so many nodes, and the settles among them.
pub(crate) fn setups(
    alloc: Global,
    n: u32,
    calls: u32,
    draws: &mut Draws,
) -> Result<Lines, OutOfMemory>
    requires some { 2 ≤ n }
    requires n { n ≤ MOST_NODES }
    requires calls { calls ≤ MOST_CALLS }
    ensures { IfOk result (λ lines. lines ≡ setups_from n calls 0 calls draws.old.state) }
{
    let mut lines = Lines::new(alloc);
    for i in 0..calls {
        lines.push(setup_at(n, i, draws))?;
        push_settles(&mut lines, calls, i)?;
    }
    Ok(lines)
}
