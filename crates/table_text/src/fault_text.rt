//! The line that tells a plan's first fault.

ghost use Rattle.std.specs.Prelude.{◌≡◌, IfOk, OnOk, string_bytes};
ghost use Rattle.table_text.specs.FaultText.{entry_text, kind_word, refused_text};
ghost use Rattle.ason_base.specs.Texts.{Appends};

use ason_base::OutOfMemory;
use plan_reader::{PlanEntry, PlanFault, PlanKind};
use std::alloc::Global;

/// The line of a refused plan.
pub fn refused_text(alloc: Global, fault: PlanFault) -> Result<Vec<u8>, OutOfMemory>
    ensures { IfOk result (λ text. text.items ≡ refused_text fault) }
{
    let line = line(alloc, fault)?;
    Ok(line.into_bytes())
}

fn line(alloc: Global, fault: PlanFault) -> Result<String, OutOfMemory>
    ensures { IfOk result (λ text. string_bytes text ≡ refused_text fault) }
{
    let mut text = String::from_str(alloc, "refused plan ")?;
    push_entry(&mut text, fault.entry)?;
    let kind = kind_word(fault.kind);
    write!(text, " {kind}\n")?;
    Ok(text)
}

fn push_entry(text: &mut String, entry: PlanEntry) -> Result<(), OutOfMemory>
    ensures { OnOk result (Appends text.old text.new (entry_text entry)) }
{
    match entry {
        PlanEntry::Toml => text.push_str("toml")?,
        PlanEntry::Top => text.push_str("top")?,
        PlanEntry::Node(n) => write!(text, "node {n}")?,
        PlanEntry::Link(n) => write!(text, "link {n}")?,
        PlanEntry::Script(n) => write!(text, "script {n}")?,
    }
    Ok(())
}

fn kind_word(kind: PlanKind) -> &'static str
    ensures { result.now ≡ kind_word kind }
{
    match kind {
        PlanKind::Syntax => "syntax",
        PlanKind::Key => "key",
        PlanKind::Missing => "missing",
        PlanKind::Kind => "kind",
        PlanKind::Count => "count",
        PlanKind::Range => "range",
        PlanKind::Name => "name",
        PlanKind::Order => "order",
        PlanKind::Twice => "twice",
        PlanKind::Ends => "ends",
        PlanKind::Words => "words",
        PlanKind::Node => "node",
        PlanKind::Same => "same",
        PlanKind::Call => "call",
        PlanKind::Route => "route",
        PlanKind::Backup => "backup",
        PlanKind::Group => "group",
        PlanKind::Channel => "channel",
        PlanKind::Hex => "hex",
        PlanKind::Spells => "spells",
    }
}
