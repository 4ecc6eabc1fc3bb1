//! LABEL_SET (RFC 3473, section 2.6; RFC 3471, section 3.5).

ghost use Rattle.std.specs.Prelude.{◌≡◌, ◌≤◌, ◌+◌, ◌-◌, ◌*◌, [], length, take, drop, replicate, SomeIff};
ghost use Rattle.ason_base.specs.Labels.{with_label};
ghost use Rattle.wire_buf.specs.{Codecs.{AppendsBytes, Reads}, Objects.{numbers, object}};
ghost use Rattle.rsvp_objects.specs.{declared.label_set.LabelSetObject.LabelSetObject, LabelSets.{HasLabels, IsLabelSet, action_of, among, between, is_between, label_set_bytes, laid, laid_from, listed, marked, ranged}};

use ason_base::limits::MOST_LABELS;
use ason_base::{LabelSet, OutOfMemory};
use byteorder::{BigEndian, ByteOrder};
use std::marker::Model;
use wire_buf::Cursor;

/// How many labels there are.
const LABELS: usize = MOST_LABELS as usize;

/// The label type of a generalized label.
const GENERALIZED: u8 = 2;

// The most bytes that the object takes: eight of fields, and four for each of 80 labels.
const MOST_BYTES: usize = 328;

// The bits of the labels 1 to 63.
const LOW_LABELS: u128 = 0xFFFF_FFFF_FFFF_FFFE;

// The bits of the labels 64 to 80, shifted by 64.
const HIGH_LABELS: u128 = 0x1_FFFF;

// The labels 1 to 80 behind eight bytes. Most fibres have them all.
const ALL_LAID: [u8; MOST_BYTES] = [
    0, 0, 0, 0, 0, 0, 0, 0, 0, 0, 0, 1, 0, 0, 0, 2, 0, 0, 0, 3, 0, 0, 0, 4, 0, 0, 0, 5, 0, 0, 0, 6,
    0, 0, 0, 7, 0, 0, 0, 8, 0, 0, 0, 9, 0, 0, 0, 10, 0, 0, 0, 11, 0, 0, 0, 12, 0, 0, 0, 13, 0, 0,
    0, 14, 0, 0, 0, 15, 0, 0, 0, 16, 0, 0, 0, 17, 0, 0, 0, 18, 0, 0, 0, 19, 0, 0, 0, 20, 0, 0, 0,
    21, 0, 0, 0, 22, 0, 0, 0, 23, 0, 0, 0, 24, 0, 0, 0, 25, 0, 0, 0, 26, 0, 0, 0, 27, 0, 0, 0, 28,
    0, 0, 0, 29, 0, 0, 0, 30, 0, 0, 0, 31, 0, 0, 0, 32, 0, 0, 0, 33, 0, 0, 0, 34, 0, 0, 0, 35, 0,
    0, 0, 36, 0, 0, 0, 37, 0, 0, 0, 38, 0, 0, 0, 39, 0, 0, 0, 40, 0, 0, 0, 41, 0, 0, 0, 42, 0, 0,
    0, 43, 0, 0, 0, 44, 0, 0, 0, 45, 0, 0, 0, 46, 0, 0, 0, 47, 0, 0, 0, 48, 0, 0, 0, 49, 0, 0, 0,
    50, 0, 0, 0, 51, 0, 0, 0, 52, 0, 0, 0, 53, 0, 0, 0, 54, 0, 0, 0, 55, 0, 0, 0, 56, 0, 0, 0, 57,
    0, 0, 0, 58, 0, 0, 0, 59, 0, 0, 0, 60, 0, 0, 0, 61, 0, 0, 0, 62, 0, 0, 0, 63, 0, 0, 0, 64, 0,
    0, 0, 65, 0, 0, 0, 66, 0, 0, 0, 67, 0, 0, 0, 68, 0, 0, 0, 69, 0, 0, 0, 70, 0, 0, 0, 71, 0, 0,
    0, 72, 0, 0, 0, 73, 0, 0, 0, 74, 0, 0, 0, 75, 0, 0, 0, 76, 0, 0, 0, 77, 0, 0, 0, 78, 0, 0, 0,
    79, 0, 0, 0, 80,
];

/// The labels that a Path includes or excludes.
#[derive(Drop)]
pub struct LabelSetObject {
    pub include: bool,
    pub labels: LabelSet,
}

// A bit for each number below 128: for those below 64, and for the others.
#[derive(Drop)]
struct Marks {
    low: u64,
    high: u64,
}

impl Model for Marks {
    ghost use Rattle.std.specs.Prelude.{List, ℕ, ◌+◌, ◌*◌, ◌^◌, ◌<◌};
    ghost use Rattle.ason_base.specs.Labels.{members};

    ghost Value = { List ℕ };

    ghost view = { λ m. members (m.high * 2 ^ 64 + m.low) };

    ghost invariant = { λ m. m.low < 2 ^ 64 };
}

impl Marks {
    fn none() -> Marks
        ensures { result ≡ [] }
    {
        Marks { low: 0, high: 0 }
    }

    fn mark(&mut self, n: u32)
        ensures { self.new ≡ with_label self.old n }
    {
        if n < 64 {
            self.low |= 1 << n;
        } else if n < 128 {
            self.high |= 1 << (n - 64);
        }
    }

    // The labels that are marked.
    fn set(&self) -> LabelSet
        ensures { result ≡ self.now }
    {
        LabelSet::from_bits((u128::from(self.high) << 64) + u128::from(self.low))
    }
}

fn labels_among(labels: &[u8]) -> LabelSet
    ensures { result ≡ among (numbers labels.now) }
{
    let mut cursor = Cursor::new(labels);
    let mut marks = Marks::none();
    'labels: while let Some(n) = cursor.u32() {
        marks.mark(n);
    }
    marks.set()
}

fn labels_between(low: u32, high: u32) -> LabelSet
    ensures { result ≡ between low high }
{
    let mut marks = Marks::none();
    'labels: for n in 1..81u32 {
        if is_inside(low, high, n) {
            marks.mark(n);
        }
    }
    marks.set()
}

fn is_inside(low: u32, high: u32, n: u32) -> bool
    ensures { result ≡ is_between low high n }
{
    (low == 0 || low <= n) && (high == 0 || n <= high)
}

// What a body with the labels of a list includes or excludes.
fn read_list(body: &[u8], include: bool) -> Option<LabelSetObject>
    ensures { SomeIff result (HasLabels body.now) (listed include body.now) }
{
    if body.len() < 8 || body.len() % 4 != 0 {
        return None;
    }
    let (_, labels) = body.split_at(4);
    let labels = labels_among(labels);
    Some(LabelSetObject { include, labels })
}

// What a body with the two ends of a range includes or excludes.
fn read_range(body: &[u8], include: bool) -> Option<LabelSetObject>
    ensures { SomeIff result (length body.now ≡ 12) (ranged include body.now) }
{
    if body.len() != 12 {
        return None;
    }
    let low = BigEndian::read_u32(&body[4..]);
    let high = BigEndian::read_u32(&body[8..]);
    let labels = labels_between(low, high);
    Some(LabelSetObject { include, labels })
}

/// What a LABEL_SET's body includes or excludes. None exactly where the body is none: its action isn't 0 to 3, it has
/// no label, a label isn't whole, or a range hasn't exactly two.
pub fn read_label_set(body: &[u8]) -> Option<LabelSetObject>
    ensures { Reads (IsLabelSet body.now) result }
{
    match body {
        [0, ..] => read_list(body, true),
        [1, ..] => read_list(body, false),
        [2, ..] => read_range(body, true),
        [3, ..] => read_range(body, false),
        _ => None,
    }
}

// Writes a label for each bit of the half over zeros, each in four bytes, and tells where they end. The half's lowest
// bit stands for the first number.
fn lay_half(bytes: &mut [u8], start: usize, half: u64, first: u8) -> usize
    requires small { first ≤ 64 }
    requires room { start + 4 * length (marked first half) ≤ length bytes.old }
    requires zeros { drop start bytes.old ≡ replicate (length bytes.old - start) 0 }
    ensures end { result ≡ start + 4 * length (marked first half) }
    ensures laid { bytes.new ≡ laid_from start bytes.old (marked first half) result }
{
    let mut at = start;
    let mut left = half;
    'labels: while left != 0 {
        let n = left.trailing_zeros();
        bytes[at + 3] = first + n as u8;
        at += 4;
        left &= !(1 << n);
    }
    at
}

// Writes the labels over zeros behind the first eight bytes, one by one, each in four, and tells where they end.
fn lay_each(bytes: &mut [u8], set: &LabelSet) -> usize
    requires { bytes.old ≡ replicate 328 0 }
    ensures end { result ≡ 8 + 4 * length (among set.now) }
    ensures laid { bytes.new ≡ laid (among set.now) result }
{
    let all = set.bits();
    let low = (all & LOW_LABELS) as u64;
    let high = ((all >> 64) & HIGH_LABELS) as u64;
    let middle = lay_half(bytes, 8, low, 0);
    lay_half(bytes, middle, high, 64)
}

// The same, at once where these are all labels.
fn lay_labels(bytes: &mut [u8], set: &LabelSet) -> usize
    requires { bytes.old ≡ replicate 328 0 }
    ensures end { result ≡ 8 + 4 * length (among set.now) }
    ensures laid { bytes.new ≡ laid (among set.now) result }
{
    if set.len() < LABELS {
        return lay_each(bytes, set);
    }
    set.rises();
    bytes.copy_from_slice(&ALL_LAID);
    MOST_BYTES
}

fn action(include: bool) -> u8
    ensures { result ≡ action_of include }
{
    if include { 0 } else { 1 }
}

// Writes the object over zeros, and tells how long it is. The zeros behind the labels are the label 0 of an empty set.
fn lay_object(bytes: &mut [u8], x: &LabelSetObject) -> usize
    requires { bytes.old ≡ replicate 328 0 }
    ensures few { result ≤ 328 }
    ensures laid { take result bytes.new ≡ object 36 1 (label_set_bytes x.now) }
{
    let len = lay_labels(bytes, &x.labels).max(12);
    BigEndian::write_u16(bytes, len as u16);
    bytes[2] = 36;
    bytes[3] = 1;
    bytes[4] = action(x.include);
    bytes[7] = GENERALIZED;
    len
}

/// Appends the LABEL_SET object, with action 0 or 1 and the labels rising. A set without labels is written as the one
/// label 0, which names none.
pub fn write_label_set(out: &mut Vec<u8>, x: &LabelSetObject) -> Result<(), OutOfMemory>
    ensures { AppendsBytes out.old out.new (object 36 1 (label_set_bytes x.now)) result }
{
    let mut bytes = [0u8; MOST_BYTES];
    let len = lay_object(&mut bytes, x);
    out.extend_from_slice(&bytes[..len])?;
    Ok(())
}

/// Law: what is written of a set of labels of 1 to 80, rising, is read as that set again.
pub fn label_sets_come_back()
    ensures { (o : LabelSetObject) → o.labels ≡ among o.labels → IsLabelSet (label_set_bytes o) o }
{}
