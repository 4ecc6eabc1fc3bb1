//! Checksums that no message shows: the example of RFC 1071, section 3, no bytes, and an odd number of them.

use wire_buf::internet_checksum;

#[test]
fn checksums(rt: HostRuntime) {
    let example = internet_checksum(&[0x00, 0x01, 0xF2, 0x03, 0xF4, 0xF5, 0xF6, 0xF7]);
    let odd = internet_checksum(&[0x12, 0x34, 0x56]);
    assert!(rt; (internet_checksum(&[]), example, odd) == (0xFFFF, 0x220D, 0x97CB));
}
