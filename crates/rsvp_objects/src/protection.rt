//! PROTECTION (RFC 4872, section 14).

ghost use Rattle.std.specs.Prelude.{◌≡◌, ◌==◌};
ghost use Rattle.wire_buf.specs.{Codecs.{AppendsBytes, Reads}, Objects.object};
ghost use Rattle.rsvp_objects.specs.{declared.protection.Protection.Protection, RecoveryBodies.{IsProtection, first_word, lsp_flags, protecting, protection_bytes, secondary}};

use ason_base::OutOfMemory;
use byteorder::{BigEndian, ByteOrder};
use wire_buf::{put_header, put_u32};

/// The S bit: the LSP is a secondary one, reserved and not connected.
const SECONDARY: u32 = 0x8000_0000;

/// The P bit: the LSP is a protecting one.
const PROTECTING: u32 = 0x4000_0000;

/// The LSP flag of rerouting without extra traffic, in its place.
const REROUTING: u32 = 0x0002_0000;

/// How an LSP takes part in recovery.
#[derive(Clone, Copy, PartialEq, Eq, Drop)]
pub enum Protection {
    /// A working LSP; `guard` tells whether a backup is to stand beside it.
    Work { guard: bool },
    /// A backup, switched where `active`.
    Back { active: bool },
}

fn is_secondary(word: u32) -> bool
    ensures { result ≡ (secondary word == 1) }
{
    (word >> 31) % 2 == 1
}

fn is_protecting(word: u32) -> bool
    ensures { result ≡ (protecting word == 1) }
{
    (word >> 30) % 2 == 1
}

fn flags_of(word: u32) -> u32
    ensures { result ≡ lsp_flags word }
{
    (word >> 16) % 64
}

/// The protection of a PROTECTION's body. None exactly where the body is none: its bits S and P and its LSP flags are
/// none of the four that are used here.
pub fn read_protection(body: &[u8]) -> Option<Protection>
    ensures { Reads (IsProtection body.now) result }
{
    if body.len() != 8 {
        return None;
    }
    let word = BigEndian::read_u32(body);
    let secondary = is_secondary(word);
    match (secondary, is_protecting(word), flags_of(word)) {
        (false, false, 0) => Some(Protection::Work { guard: false }),
        (false, false, 2) => Some(Protection::Work { guard: true }),
        (_, true, 2) => Some(Protection::Back { active: !secondary }),
        _ => None,
    }
}

fn word_of(x: &Protection) -> u32
    ensures { result ≡ first_word x.now }
{
    match x {
        Protection::Work { guard: false } => 0,
        Protection::Work { guard: true } => REROUTING,
        Protection::Back { active: true } => PROTECTING + REROUTING,
        Protection::Back { active: false } => SECONDARY + PROTECTING + REROUTING,
    }
}

/// Appends the PROTECTION object.
pub fn write_protection(out: &mut Vec<u8>, x: &Protection) -> Result<(), OutOfMemory>
    ensures { AppendsBytes out.old out.new (object 37 2 (protection_bytes x.now)) result }
{
    out.reserve(12)?;
    put_header(out, 12, 37, 2);
    put_u32(out, word_of(x));
    put_u32(out, 0);
    Ok(())
}

/// Law: what is written of a protection is read as that protection again.
pub fn protections_come_back()
    ensures { (p : Protection) → IsProtection (protection_bytes p) p }
{}
