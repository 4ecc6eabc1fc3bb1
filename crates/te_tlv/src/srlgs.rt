//! SRLGs of a link (RFC 4203, section 1.3).

ghost use Rattle.std.specs.{Prelude.{◌≡◌, ◌↔◌, ℕ, List, Contains, IfOk, IsErrOf}, List.Sorted.IsStrictlyIncreasing};
ghost use Rattle.wire_buf.specs.Objects.{numbers};
ghost use Rattle.te_tlv.specs.{Rows.{AreSrlgs, HasSrlgs}, Found.OfFound};

use crate::found::Found;
use ason_base::limits::MOST_SRLGS;
use ason_base::{DecodeError, OutOfMemory, Srlgs};
use std::alloc::Global;
use wire_buf::Cursor;

/// The type of the sub-TLV of SRLGs.
pub(crate) const SRLG: u16 = 16;

/// The numbers of four bytes each, in order.
fn numbers(alloc: Global, value: &[u8]) -> Result<Vec<u32>, OutOfMemory>
    ensures { IfOk result (λ ns. ns.items ≡ numbers value.now) }
{
    let mut cursor = Cursor::new(value);
    let mut numbers = Vec::new(alloc);
    'numbers: while let Some(n) = cursor.u32() {
        numbers.push(n)?;
    }
    Ok(numbers)
}

/// The numbers of four bytes each, as SRLGs.
fn distinct(alloc: Global, value: &[u8]) -> Result<Srlgs, OutOfMemory>
    ensures rising { IfOk result IsStrictlyIncreasing }
    ensures same { IfOk result (λ s. (n : ℕ) → Contains s n ↔ Contains (numbers value.now) n) }
{
    let numbers = numbers(alloc, value)?;
    Srlgs::of(alloc, &numbers)
}

/// The SRLGs of a value. NotMessage exactly where it has none.
fn srlgs_of_value(alloc: Global, value: &[u8]) -> Result<Srlgs, DecodeError>
    ensures found { IfOk result (λ s. AreSrlgs value.now s) }
    ensures not_message { IsErrOf result DecodeError.NotMessage → (s : List ℕ)
        → ¬ AreSrlgs value.now s }
{
    if value.len() % 4 != 0 {
        return Err(DecodeError::NotMessage);
    }
    match distinct(alloc, value) {
        Err(OutOfMemory) => Err(DecodeError::OutOfMemory),
        Ok(srlgs) => {
            if srlgs.items().len() > MOST_SRLGS {
                Err(DecodeError::NotMessage)
            } else {
                Ok(srlgs)
            }
        }
    }
}

/// The SRLGs of what was found. NotMessage exactly where they are not in order.
pub(crate) fn srlgs_of(alloc: Global, found: &Found) -> Result<Srlgs, DecodeError>
    ensures found { IfOk result (λ s. OfFound found.now (λ subs. HasSrlgs subs s)) }
    ensures not_message { IsErrOf result DecodeError.NotMessage
        → OfFound found.now (λ subs. (s : List ℕ) → ¬ HasSrlgs subs s) }
{
    match found.srlgs {
        None => Ok(Srlgs::new(alloc)),
        Some(value) => srlgs_of_value(alloc, value),
    }
}
