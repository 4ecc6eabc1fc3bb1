//! A message that is sent and goes again, by calls that controllers make in two parts.

use ason_base::{Copied, LinkId, Lsp, Msg, NodeId, OutOfMemory};
use hop_reliable::Hop;
use std::alloc::Global;
use std::test::Fail;

const TEAR: Msg = Msg::PathTear {
    lsp: Lsp {
        ingress: NodeId(1),
        tunnel: 1,
        lsp: 1,
    },
    egress: NodeId(3),
    link: LinkId(2),
};

// A message that is sent goes again at the first tick of a copy.
fn goes_again(alloc: Global) -> Result<bool, OutOfMemory> {
    let mut hop = Hop::new(alloc);
    hop.send(alloc, TEAR)?;
    let mut same = hop.copy(alloc)?;
    Ok(same.tick(alloc)?.len() == 1 && same.pending() == 1)
}

#[test]
fn a_message_goes_again(rt: HostRuntime) -> Result<(), Fail> {
    assert!(rt; goes_again(rt.alloc())?);
    Ok(())
}
