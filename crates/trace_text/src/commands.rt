//! The text of a command.

ghost use Rattle.std.specs.Prelude.{OnOk};
ghost use Rattle.ason_base.specs.Texts.{Appends};
ghost use Rattle.trace_text.specs.CommandText.{command_text, directions, of_call, of_group, protection, route_after, routes_given, setup_ends, setup_way};

use ason_base::{CallNo, Command, Group, NodeId, OutOfMemory, Steps};
use plan_reader::Plan;
use table_text::routes::push_links;
use table_text::survey::push_group;
use table_text::{call_name, node_name};

/// Appends the words of the line that posts the command, with single spaces between them.
pub fn push_command(text: &mut String, plan: &Plan, command: &Command) -> Result<(), OutOfMemory>
    ensures { OnOk result (Appends text.old text.new (command_text plan.now command.now)) }
{
    match command {
        Command::Setup {
            call,
            from,
            to,
            protected,
            both,
            via,
            backup,
        } => {
            push_ends(text, plan, *call, *from, *to)?;
            push_way(text, *protected, *both, via, backup)
        }
        Command::Release { call, .. } => push_of_call(text, plan, "release", *call),
        Command::Protect { call, .. } => push_of_call(text, plan, "protect", *call),
        Command::Retry { call, .. } => push_of_call(text, plan, "retry", *call),
        Command::Revert { call, .. } => push_of_call(text, plan, "revert", *call),
        Command::Fail { group } => push_of_group(text, "fail ", *group),
        Command::Repair { group } => push_of_group(text, "repair ", *group),
    }
}

fn push_of_call(text: &mut String, plan: &Plan, word: &str, call: CallNo) -> Result<(), OutOfMemory>
    ensures { OnOk result (Appends text.old text.new (of_call plan.now word.now call)) }
{
    let name = call_name(plan, call);
    write!(text, "{word} {name}")?;
    Ok(())
}

fn push_of_group(text: &mut String, word: &str, group: Group) -> Result<(), OutOfMemory>
    ensures { OnOk result (Appends text.old text.new (of_group word.now group)) }
{
    text.push_str(word)?;
    push_group(text, group)
}

fn push_ends(
    text: &mut String,
    plan: &Plan,
    call: CallNo,
    from: NodeId,
    to: NodeId,
) -> Result<(), OutOfMemory>
    ensures { OnOk result (Appends text.old text.new (setup_ends plan.now call from to)) }
{
    let name = call_name(plan, call);
    let from = node_name(plan, from);
    let to = node_name(plan, to);
    write!(text, "setup {name} {from} {to}")?;
    Ok(())
}

// What a setup says behind its ends.
fn push_way(
    text: &mut String,
    protected: bool,
    both: bool,
    via: &Option<Steps>,
    backup: &Option<Steps>,
) -> Result<(), OutOfMemory>
    ensures { OnOk result (Appends text.old text.new (setup_way protected both via.now backup.now)) }
{
    push_protection(text, protected)?;
    push_directions(text, both)?;
    push_routes(text, via, backup)
}

fn push_protection(text: &mut String, protected: bool) -> Result<(), OutOfMemory>
    ensures { OnOk result (Appends text.old text.new (protection protected)) }
{
    if !protected {
        text.push_str(" unprotected")?;
    }
    Ok(())
}

fn push_directions(text: &mut String, both: bool) -> Result<(), OutOfMemory>
    ensures { OnOk result (Appends text.old text.new (directions both)) }
{
    if both {
        text.push_str(" both")?;
    }
    Ok(())
}

fn push_routes(
    text: &mut String,
    via: &Option<Steps>,
    backup: &Option<Steps>,
) -> Result<(), OutOfMemory>
    ensures { OnOk result (Appends text.old text.new (routes_given via.now backup.now)) }
{
    push_route(text, "via", via)?;
    push_route(text, "backup", backup)
}

fn push_route(text: &mut String, word: &str, route: &Option<Steps>) -> Result<(), OutOfMemory>
    ensures { OnOk result (Appends text.old text.new (route_after word.now route.now)) }
{
    match route {
        None => Ok(()),
        Some(steps) => {
            write!(text, " {word} ")?;
            push_links(text, steps.items())
        }
    }
}
