//! Headers from other sources.

use vsw_base::{BadFrame, Mac};
use vsw_header::{EtherPart, change_ether, read_ether, write_ether};

/// From 02:00:00:00:00:01 to 02:00:00:00:00:99, IPv4.
const HEADER: [u8; 14] = [
    0x02, 0x00, 0x00, 0x00, 0x00, 0x99, 0x02, 0x00, 0x00, 0x00, 0x00, 0x01, 0x08, 0x00,
];

#[test]
fn a_header_is_read(rt: HostRuntime) {
    let part = EtherPart {
        dst: Mac::of(0x0200_0000_0099),
        src: Mac::of(0x0200_0000_0001),
        kind: 0x0800,
        rest: &[],
    };
    assert!(rt; read_ether(&HEADER) == Ok(part));
    assert!(rt; read_ether(&HEADER[..13]) == Err(BadFrame::ShortEther));
}

#[test]
fn a_header_is_written_at_the_front(rt: HostRuntime) {
    let mut out = [0xee; 16];
    write_ether(
        &mut out,
        Mac::of(0x0200_0000_0099),
        Mac::of(0x0200_0000_0001),
        0x0800,
    );
    assert!(rt; &out[..14] == &HEADER[..] && out[14] == 0xee && out[15] == 0xee);
}

#[test]
fn addresses_are_changed_in_place(rt: HostRuntime) {
    let mut bytes = HEADER;
    change_ether(
        &mut bytes,
        Mac::of(0x0200_0000_0a02),
        Mac::of(0x0200_0000_0a01),
    );
    let changed = [
        0x02, 0x00, 0x00, 0x00, 0x0a, 0x02, 0x02, 0x00, 0x00, 0x00, 0x0a, 0x01, 0x08, 0x00,
    ];
    assert!(rt; bytes == changed);
}
