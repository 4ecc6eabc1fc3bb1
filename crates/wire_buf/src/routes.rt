//! Routes: strict lists of unnumbered interfaces (RFC 3209, section 4.3; RFC 3477, section 4).

ghost use Rattle.std.specs.Prelude.{◌≡◌, ◌≤◌, ◌+◌, ◌*◌, ◌++◌, List, drop, length, All, IfSome, vec_len, vec_capacity};
ghost use Rattle.ason_base.specs.declared.steps.Step.{Step};
ghost use Rattle.wire_buf.specs.{Codecs.{AppendsBytes, Decodes, Reads}, Objects.object, Routes.{BeginsStep, HasIds, IsRoute, IsRouteStep, route_bytes, step_bytes}};

use crate::cursor::Cursor;
use crate::objects::put_header;
use crate::pushes::{put_u8, put_u16, put_u32};
use ason_base::limits::MOST_STEPS;
use ason_base::{DecodeError, LinkId, NodeId, OutOfMemory, Step, Steps};
use byteorder::{BigEndian, ByteOrder};
use std::alloc::Global;

/// How many bytes a step takes.
const STEP: usize = 12;

/// The type of an unnumbered interface, with the L bit 0.
const STRICT_UNNUMBERED: u8 = 4;

fn step_of(bytes: &[u8]) -> Option<Step>
    ensures { Reads (IsRouteStep bytes.now) result }
{
    if bytes.len() != STEP || bytes[0] != STRICT_UNNUMBERED || bytes[1] != 12 {
        return None;
    }
    Some(Step {
        node: NodeId(BigEndian::read_u32(&bytes[4..])),
        link: LinkId(BigEndian::read_u32(&bytes[8..])),
    })
}

fn next_step(cursor: &mut Cursor) -> Option<Step>
    ensures step { Reads (BeginsStep cursor.old) result }
    ensures left { IfSome result (λ _. cursor.new ≡ drop 12 cursor.old) }
{
    let bytes = cursor.take(STEP)?;
    step_of(bytes)
}

/// The route of an object's body. NotMessage exactly where the body is none.
pub fn read_steps(alloc: Global, body: &[u8]) -> Result<Steps, DecodeError>
    ensures { Decodes (IsRoute body.now) result }
{
    if body.is_empty() || body.len() > MOST_STEPS * STEP {
        return Err(DecodeError::NotMessage);
    }
    let Ok(mut steps) = Vec::with_capacity(alloc, body.len() / STEP) else {
        return Err(DecodeError::OutOfMemory);
    };
    let mut cursor = Cursor::new(body);
    'steps: while !cursor.is_empty() {
        let Some(step) = next_step(&mut cursor) else {
            return Err(DecodeError::NotMessage);
        };
        match steps.push(step) {
            Ok(()) => {}
            Err(_) => return Err(DecodeError::OutOfMemory),
        }
    }
    Ok(Steps::from_vec(steps))
}

/// Law: what is written of a route is read as that route again.
pub fn routes_come_back()
    ensures { (steps : List Step) → 1 ≤ length steps → length steps ≤ MOST_STEPS → All HasIds steps
        → IsRoute (route_bytes steps) steps }
{}

fn put_step(out: &mut Vec<u8>, step: &Step)
    requires { vec_len out.old + 12 ≤ vec_capacity out.old }
    ensures items { out.new.items ≡ out.old.items ++ step_bytes step.now }
    ensures len { vec_len out.new ≡ vec_len out.old + 12 }
    ensures capacity { vec_capacity out.old ≤ vec_capacity out.new }
{
    put_u8(out, STRICT_UNNUMBERED);
    put_u8(out, 12);
    put_u16(out, 0);
    put_u32(out, step.node.0);
    put_u32(out, step.link.0);
}

fn put_steps(out: &mut Vec<u8>, steps: &[Step])
    requires { vec_len out.old + 12 * length steps.now ≤ vec_capacity out.old }
    ensures items { out.new.items ≡ out.old.items ++ route_bytes steps.now }
{
    for step in steps {
        put_step(out, step);
    }
}

/// Appends the object of this class whose body is the route.
pub fn write_steps(
    out: &mut Vec<u8>,
    class: u8,
    ctype: u8,
    steps: &Steps,
) -> Result<(), OutOfMemory>
    requires { length steps.now ≤ MOST_STEPS }
    ensures { AppendsBytes out.old out.new (object class ctype (route_bytes steps.now)) result }
{
    let steps = steps.items();
    let len = 4 + STEP * steps.len();
    out.reserve(len)?;
    put_header(out, len as u16, class, ctype);
    put_steps(out, steps);
    Ok(())
}
