//! LABEL and UPSTREAM_LABEL, generalized (RFC 3473, sections 2.3 and 3).

ghost use Rattle.std.specs.Prelude.{◌≡◌, ◌≤◌, ℕ};
ghost use Rattle.wire_buf.specs.{Codecs.{AppendsBytes, Reads}, Objects.object};
ghost use Rattle.rsvp_objects.specs.Bodies.{IsLabel, label_bytes};

use ason_base::limits::MOST_LABELS;
use ason_base::{Label, OutOfMemory};
use byteorder::{BigEndian, ByteOrder};

const LABEL: u8 = 16;

const UPSTREAM_LABEL: u8 = 35;

/// The last label.
const LAST: u32 = MOST_LABELS as u32;

/// The label of a LABEL's body, or of an UPSTREAM_LABEL's. None exactly where the body is none, as where the label isn't
/// 1 to 80.
pub fn read_label(body: &[u8]) -> Option<Label>
    ensures { Reads (IsLabel body.now) result }
{
    if body.len() != 4 {
        return None;
    }
    let number = BigEndian::read_u32(body);
    if number > LAST {
        return None;
    }
    Label::new(number as u8)
}

/// The object of this class.
fn object_of(class: u8, x: &Label) -> [u8; 8]
    ensures { result ≡ object class 2 (label_bytes x.now) }
{
    let mut bytes = [0, 8, class, 2, 0, 0, 0, 0];
    BigEndian::write_u32(&mut bytes[4..], u32::from(x.number()));
    bytes
}

fn write_as(out: &mut Vec<u8>, class: u8, x: &Label) -> Result<(), OutOfMemory>
    ensures { AppendsBytes out.old out.new (object class 2 (label_bytes x.now)) result }
{
    out.extend_from_slice(&object_of(class, x))?;
    Ok(())
}

/// Appends the LABEL object.
pub fn write_label(out: &mut Vec<u8>, x: &Label) -> Result<(), OutOfMemory>
    ensures { AppendsBytes out.old out.new (object 16 2 (label_bytes x.now)) result }
{
    write_as(out, LABEL, x)
}

/// Appends the UPSTREAM_LABEL object.
pub fn write_upstream(out: &mut Vec<u8>, x: &Label) -> Result<(), OutOfMemory>
    ensures { AppendsBytes out.old out.new (object 35 2 (label_bytes x.now)) result }
{
    write_as(out, UPSTREAM_LABEL, x)
}

/// Law: what is written of a label is read as that label again.
pub fn labels_come_back()
    ensures { (l : ℕ) → 1 ≤ l → l ≤ MOST_LABELS → IsLabel (label_bytes l) l }
{}
