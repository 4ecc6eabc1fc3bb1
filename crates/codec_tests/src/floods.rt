//! Calls on rows of links that no controller makes: a Link TLV and a flood message that are written by themselves, and a flood
//! that is copied, and takes and ticks in one part.

ghost use Rattle.std.specs.Prelude.{◌≡◌, ◌<◌, ◌≤◌, length, IfOk};

use ason_base::{Copied, LinkId, NodeId, OutOfMemory, Srlgs, TeRow};
use flood::{Flood, FloodMsg, encode_flood};
use std::alloc::Global;
use std::test::Fail;
use te_tlv::write_row;

// The Link TLV of link 1 from node 1 to node 2, with metric 1 and SRLG 7.
const TLV: &[u8] = &[
    0x00, 0x02, 0x00, 0x2C, 0x00, 0x01, 0x00, 0x01, 0x01, 0x00, 0x00, 0x00, 0x00, 0x02, 0x00, 0x04,
    0x00, 0x00, 0x00, 0x02, 0x00, 0x05, 0x00, 0x04, 0x00, 0x00, 0x00, 0x01, 0x00, 0x0B, 0x00, 0x08,
    0x00, 0x00, 0x00, 0x01, 0x00, 0x00, 0x00, 0x01, 0x00, 0x10, 0x00, 0x04, 0x00, 0x00, 0x00, 0x07,
];

const ACKNOWLEDGEMENT: &[u8] = &[2, 0, 0, 0, 0, 0, 0, 5];

fn row_between(alloc: Global, link: u32, low: u32, high: u32) -> Result<TeRow, OutOfMemory>
    ensures low { IfOk result (λ row. row.low.0 ≡ low) }
    ensures high { IfOk result (λ row. row.high.0 ≡ high) }
    ensures metric { IfOk result (λ row. row.metric ≡ 1) }
    ensures srlgs { IfOk result (λ row. length row.srlgs ≤ 16) }
{
    let mut srlgs = Srlgs::new(alloc);
    srlgs.push(7)?;
    Ok(TeRow {
        link: LinkId(link),
        low: NodeId(low),
        high: NodeId(high),
        metric: 1,
        srlgs,
    })
}

fn are_written(alloc: Global) -> Result<bool, OutOfMemory> {
    let ack = encode_flood(alloc, &FloodMsg::Ack { number: 5 })?;
    let row = row_between(alloc, 1, 1, 2)?;
    Ok(write_row(alloc, row.low, &row)?.as_slice() == TLV && ack.as_slice() == ACKNOWLEDGEMENT)
}

// A row of node 3 that is new goes on to the other neighbour, and is acknowledged.
fn is_taken(alloc: Global, flood: &mut Flood) -> Result<bool, OutOfMemory> {
    let new = FloodMsg::Row {
        number: 4,
        origin: NodeId(3),
        row: row_between(alloc, 5, 2, 3)?,
    };
    let out = flood.receive(alloc, NodeId(3), &new)?;
    Ok(out.sends.items().len() == 2 && out.learnt.is_some())
}

// It goes once more at a tick of a copy.
fn goes_again(alloc: Global, flood: &Flood) -> Result<bool, OutOfMemory> {
    let mut same = flood.copy(alloc)?;
    Ok(same.tick(alloc)?.items().len() == 1)
}

fn floods(alloc: Global) -> Result<bool, OutOfMemory> {
    let mut flood = Flood::new(alloc, NodeId(1), &[NodeId(3), NodeId(2)])?;
    Ok(is_taken(alloc, &mut flood)? && goes_again(alloc, &flood)?)
}

#[test]
fn rows_are_written_and_flooded(rt: HostRuntime) -> Result<(), Fail> {
    assert!(rt; are_written(rt.alloc())? && floods(rt.alloc())?);
    Ok(())
}
