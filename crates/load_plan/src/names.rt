//! The names of generated nodes and calls: a letter and a number from 1.

ghost use Rattle.std.specs.Prelude.{◌≡◌, ◌<◌, ◌≤◌, IfOk};
ghost use Rattle.ason_base.specs.declared.limits.TheConstants.{MOST_CALLS};
ghost use Rattle.load_plan.specs.Names.{letter, name_at, names_from};

use ason_base::OutOfMemory;
use plan_reader::{Name, Names};
use std::alloc::Global;

/// What is named.
#[derive(Clone, Copy, Drop)]
pub(crate) enum Named {
    Node,
    Call,
}

fn letter(named: Named) -> &'static str
    ensures { result.now ≡ letter named }
{
    match named {
        Named::Node => "m",
        Named::Call => "q",
    }
}

fn name_at(alloc: Global, named: Named, i: u32) -> Result<Name, OutOfMemory>
    requires { i < MOST_CALLS }
    ensures { IfOk result (λ name. name ≡ name_at named i) }
{
    let letter = letter(named);
    let number = i + 1;
    let text = format!(in alloc; "{letter}{number}")?;
    Name::new(alloc, text.as_bytes())
}

/// So many names.
pub(crate) fn names(alloc: Global, named: Named, n: u32) -> Result<Names, OutOfMemory>
    requires { n ≤ MOST_CALLS }
    ensures { IfOk result (λ names. names ≡ names_from named 0 n) }
{
    let mut names = Names::new(alloc);
    for i in 0..n {
        names.push(name_at(alloc, named, i)?)?;
    }
    Ok(names)
}
