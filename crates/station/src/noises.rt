//! Bytes that spell nothing.

ghost use Rattle.std.specs.Prelude.{◌≡◌, ◌<◌, ◌+◌, ◌^◌, [], IfOk, IsSome, IsTrue, OnErr, OnOk, length, position};
ghost use Rattle.ason_base.specs.declared.limits.TheConstants.{MOST_EVENTS};
ghost use Rattle.control_channels.specs.{Controllers.IsControllerStep, declared.inputs.CoreInput.CoreInput};
ghost use Rattle.flood.specs.Frames.{SpellsNothing};
ghost use Rattle.mesh_nodes.specs.LocalNodes.{is_neighbour};
ghost use Rattle.station.specs.{Fits.{PartsFit, station_state}, Noise.HasHeard, Sending.is_link_to};

use crate::parts::{Parts, write};
use ason_base::{Bytes, Entry, Event, NodeId, OutOfMemory};
use controller::{Controller, CoreInput};
use std::alloc::Global;

// These bytes once more.
fn copied(alloc: Global, bytes: &[u8]) -> Result<Bytes, OutOfMemory>
    ensures { IfOk result (λ r. r ≡ bytes.now) }
{
    let bytes = Vec::from_slice(alloc, bytes)?;
    Ok(Bytes::from_vec(bytes))
}

// The controller takes bytes that spell nothing, which come from a neighbour. After want of memory it is as it was.
fn hear(
    alloc: Global,
    controller: &mut Controller,
    from: NodeId,
    bytes: &[u8],
) -> Result<(), OutOfMemory>
    requires few { controller.old.steps < MOST_EVENTS }
    requires near { IsTrue (is_neighbour controller.old.node.place from) }
    requires nothing { SpellsNothing bytes.now }
    ensures step { OnOk result
        (IsControllerStep controller.old controller.new (CoreInput.Frame from bytes.now) []) }
    ensures place { controller.new.node.place ≡ controller.old.node.place }
    ensures err { OnErr result (controller.new ≡ controller.old) }
{
    let heard = copied(alloc, bytes)?;
    let input = CoreInput::Frame { from, bytes: heard };
    let _none = controller.step(&input)?;
    Ok(())
}

/// Bytes that spell nothing come from a neighbour: the controller counts them, and a line is written. What needs
/// memory comes first, so that after a refusal nothing has changed.
pub(crate) fn noise(
    alloc: Global,
    parts: &mut Parts,
    from: NodeId,
    bytes: &[u8],
) -> Result<(), OutOfMemory>
    requires fit { PartsFit parts.old }
    requires near { IsSome (position (is_link_to from) parts.old.links.items) }
    requires nothing { SpellsNothing bytes.now }
    requires room { length parts.old.log.items < MOST_EVENTS }
    requires stamp { parts.old.clock + 1 < 2 ^ 64 }
    ensures ok { OnOk result (HasHeard from bytes.now (station_state parts.old) (station_state parts.new)) }
    ensures err { OnErr result (station_state parts.new ≡ station_state parts.old) }
    ensures fit { PartsFit parts.new }
{
    parts.log.reserve(1)?;
    let written = copied(alloc, bytes)?;
    hear(alloc, &mut parts.controller, from, bytes)?;
    let stamp = parts.clock + 1;
    parts.clock = stamp;
    let to = parts.me;
    let event = Event::Noise {
        to,
        from,
        bytes: written,
    };
    let node = Some(to);
    write(&mut parts.log, Entry { stamp, node, event });
    Ok(())
}
