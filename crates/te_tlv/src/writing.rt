//! Writing rows.

ghost use Rattle.std.specs.Prelude.{◌≡◌, ◌<◌, ◌≤◌, ◌+◌, ◌*◌, ◌^◌, ◌++◌, length, All, IfOk, OnOk};
ghost use Rattle.ason_base.specs.declared.limits.TheConstants.{MOST_SRLGS};
ghost use Rattle.byteorder.specs.Endian.{big_bytes};
ghost use Rattle.te_tlv.specs.{Rows.SpellsRow, Written.{HasNumbers, IsRowWritable, fixed_body, link_tlv, peer_of, srlgs_tlv}, declared.srlgs.TheConstants.SRLG, declared.sub_tlvs.TheConstants.LINK};

use crate::laws::rows_come_back;
use crate::srlgs::SRLG;
use ason_base::{NodeId, OutOfMemory, TeRow};
use byteorder::{BigEndian, ByteOrder};
use std::alloc::Global;

/// How many bytes a TLV's header takes, and the sub-TLVs that each row has.
const HEADER: usize = 4;

const FIXED: usize = 36;

/// A Link TLV without SRLGs whose length, numbers and metric are zero.
const ZERO_ROW: [u8; HEADER + FIXED] = [
    0, 2, 0, 0, 0, 1, 0, 1, 1, 0, 0, 0, 0, 2, 0, 4, 0, 0, 0, 0, 0, 5, 0, 4, 0, 0, 0, 0, 0, 11, 0,
    8, 0, 0, 0, 0, 0, 0, 0, 0,
];

/// The number of the end that isn't the origin.
fn peer_of(origin: NodeId, row: &TeRow) -> u32
    ensures { result ≡ peer_of origin row.now }
{
    if row.low == origin {
        row.high.0
    } else {
        row.low.0
    }
}

/// How many bytes the sub-TLV of the SRLGs takes.
fn srlgs_len(srlgs: &[u32]) -> usize
    requires { length srlgs.now ≤ MOST_SRLGS }
    ensures len { result ≡ length (srlgs_tlv srlgs.now) }
    ensures most { result ≤ 4 + 4 * MOST_SRLGS }
{
    if srlgs.is_empty() {
        0
    } else {
        HEADER + 4 * srlgs.len()
    }
}

/// The header of the sub-TLV of the SRLGs.
fn srlgs_header(len: u16) -> [u8; HEADER]
    ensures { result ≡ big_bytes 2 SRLG ++ big_bytes 2 len }
{
    let kind = SRLG.to_be_bytes();
    let len = len.to_be_bytes();
    [kind[0], kind[1], len[0], len[1]]
}

/// Appends the sub-TLV of the SRLGs, where there are any.
fn push_srlgs(out: &mut Vec<u8>, srlgs: &[u32]) -> Result<(), OutOfMemory>
    requires { length srlgs.now ≤ MOST_SRLGS }
    ensures { OnOk result (out.new.items ≡ out.old.items ++ srlgs_tlv srlgs.now) }
{
    if srlgs.is_empty() {
        return Ok(());
    }
    out.extend_from_slice(&srlgs_header(4 * srlgs.len() as u16))?;
    for n in srlgs {
        out.extend_from_slice(&n.to_be_bytes())?;
    }
    Ok(())
}

/// The header of a Link TLV of this length, and the sub-TLVs that each row has.
#[tactic(auto, unfolding(crate::specs::Written::sub_tlv))]
fn fixed_part(len: u16, origin: NodeId, row: &TeRow) -> [u8; HEADER + FIXED]
    ensures { result ≡ big_bytes 2 LINK ++ big_bytes 2 len ++ fixed_body origin row.now }
{
    let mut bytes = ZERO_ROW;
    BigEndian::write_u16(&mut bytes[2..], len);
    BigEndian::write_u32(&mut bytes[16..], peer_of(origin, row));
    BigEndian::write_u32(&mut bytes[24..], row.metric);
    BigEndian::write_u32(&mut bytes[32..], row.link.0);
    BigEndian::write_u32(&mut bytes[36..], row.link.0);
    bytes
}

// Laws: what the types of a row say of its numbers. Calling them changes nothing.

fn number_fits(n: u32)
    ensures { n < 2 ^ 32 }
{}

fn numbers_fit(numbers: &[u32])
    ensures { All (λ n. n < 2 ^ 32) numbers.now }
{
    for n in numbers {
        number_fits(*n);
    }
}

/// Law: the numbers of every row fit their fields, and its SRLGs rise.
pub fn row_fits(row: &TeRow)
    ensures { HasNumbers row.now }
{
    number_fits(row.link.0);
    number_fits(row.high.0);
    numbers_fit(row.srlgs.items());
    row.srlgs.rises();
}

// Appends the Link TLV.
fn push_row(out: &mut Vec<u8>, origin: NodeId, row: &TeRow) -> Result<(), OutOfMemory>
    requires { length row.now.srlgs ≤ MOST_SRLGS }
    ensures { OnOk result (out.new.items ≡ out.old.items ++ link_tlv origin row.now) }
{
    let srlgs = row.srlgs.items();
    let len = FIXED + srlgs_len(srlgs);
    out.extend_from_slice(&fixed_part(len as u16, origin, row))?;
    push_srlgs(out, srlgs)
}

/// Appends the Link TLV of a row, from one of its ends: sub-TLVs in order of type, SRLGs rising, padding zero.
pub fn append_row(out: &mut Vec<u8>, origin: NodeId, row: &TeRow) -> Result<(), OutOfMemory>
    requires { IsRowWritable origin row.now }
    ensures written { OnOk result (out.new.items ≡ out.old.items ++ link_tlv origin row.now) }
    // What is written is read as the row again.
    ensures spelled { SpellsRow origin (link_tlv origin row.now) row.now }
{
    rows_come_back();
    row_fits(row);
    push_row(out, origin, row)
}

/// The Link TLV of a row, as it is appended.
pub fn write_row(alloc: Global, origin: NodeId, row: &TeRow) -> Result<Vec<u8>, OutOfMemory>
    requires { IsRowWritable origin row.now }
    ensures written { IfOk result (λ bytes. bytes.items ≡ link_tlv origin row.now) }
    // What is written is read as the row again.
    ensures spelled { IfOk result (λ bytes. SpellsRow origin bytes.items row.now) }
{
    let mut out = Vec::new(alloc);
    append_row(&mut out, origin, row)?;
    Ok(out)
}
