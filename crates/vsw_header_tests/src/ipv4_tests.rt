//! Headers from other sources.

use vsw_base::{BadFrame, Ip4};
use vsw_header::{IpPart, change_ip, header_len, read_ip, write_ip};

/// 127.0.0.1, to which Linux wrote the packets below.
const LOCAL: u32 = 0x7f00_0001;

#[test]
fn options_are_skipped(rt: HostRuntime) {
    // header of 28 bytes with the option Record Route, UDP of 15 bytes
    let packet = [
        0x47, 0x00, 0x00, 0x2b, 0x9a, 0x04, 0x40, 0x00, 0x40, 0x11, 0x90, 0x35, 0x7f, 0x00, 0x00,
        0x01, 0x7f, 0x00, 0x00, 0x01, 0x07, 0x07, 0x08, 0x7f, 0x00, 0x00, 0x01, 0x00, 0xac, 0x52,
        0xe5, 0xa9, 0x00, 0x0f, 0xfe, 0x22, 0x6f, 0x70, 0x74, 0x69, 0x6f, 0x6e, 0x73,
    ];
    let part = IpPart {
        src: Ip4::of(LOCAL),
        dst: Ip4::of(LOCAL),
        proto: 17,
        part: false,
        payload: &packet[28..],
        trailer: &[],
    };
    assert!(rt; read_ip(&packet) == Ok(part));
}

#[test]
fn a_fragment_is_told(rt: HostRuntime) {
    // the last 32 bytes of a datagram, from offset 576, and two bytes after the packet
    let mut packet = [0x66; 54];
    packet[..20].copy_from_slice(&[
        0x45, 0x00, 0x00, 0x34, 0x1e, 0x79, 0x00, 0x48, 0x40, 0x11, 0x5d, 0xf6, 0x7f, 0x00, 0x00,
        0x01, 0x7f, 0x00, 0x00, 0x01,
    ]);
    let part = IpPart {
        src: Ip4::of(LOCAL),
        dst: Ip4::of(LOCAL),
        proto: 17,
        part: true,
        payload: &[0x66; 32],
        trailer: &[0x66; 2],
    };
    assert!(rt; read_ip(&packet) == Ok(part));
}

/// 30 bytes of UDP from 10.0.0.5 to 10.0.0.9.
const PACKET: [u8; 30] = [
    0x45, 0x00, 0x00, 0x1e, 0x00, 0x00, 0x40, 0x00, 0x40, 0x11, 0x26, 0xc2, 0x0a, 0x00, 0x00, 0x05,
    0x0a, 0x00, 0x00, 0x09, 0x04, 0xd2, 0x00, 0x35, 0x00, 0x0a, 0x7e, 0x5c, 0x68, 0x69,
];

/// The fault of some bytes, if they have one.
fn fault(bytes: &[u8]) -> Option<BadFrame> {
    match read_ip(bytes) {
        Ok(_) => None,
        Err(fault) => Some(fault),
    }
}

/// The fault of `PACKET` with this first byte and this lower byte of its length.
fn fault_with(first: u8, len: u8) -> Option<BadFrame> {
    let mut packet = PACKET;
    packet[0] = first;
    packet[3] = len;
    fault(&packet)
}

#[test]
fn faults_are_told(rt: HostRuntime) {
    let found = [
        fault(&PACKET[..19]),
        fault_with(0x65, 30),
        fault_with(0x44, 30),
        fault_with(0x45, 31),
    ];
    assert!(rt;
        found
            == [
                Some(BadFrame::ShortIp),
                Some(BadFrame::IpVersion),
                Some(BadFrame::IpLength),
                Some(BadFrame::IpLength),
            ]
    );
}

#[test]
fn a_header_is_written_at_the_front(rt: HostRuntime) {
    let mut out = [0xee; 22];
    write_ip(&mut out, Ip4::of(0x0a00_0005), Ip4::of(0x0a00_0009), 30);
    let is_written = &out[..20] == &PACKET[..20] && out[20] == 0xee && out[21] == 0xee;
    // 80 bytes from 172.16.0.1 to 172.16.0.2
    write_ip(&mut out, Ip4::of(0xac10_0001), Ip4::of(0xac10_0002), 80);
    assert!(rt; is_written && out[10] == 0xe2 && out[11] == 0x79);
}

#[test]
fn addresses_are_changed_in_place(rt: HostRuntime) {
    let mut packet = PACKET;
    change_ip(&mut packet, Ip4::of(0xc000_0207), Ip4::of(0x0a00_0009));
    let changed = [
        0x45, 0x00, 0x00, 0x1e, 0x00, 0x00, 0x40, 0x00, 0x40, 0x11, 0x6e, 0xbf, 0xc0, 0x00, 0x02,
        0x07, 0x0a, 0x00, 0x00, 0x09, 0x04, 0xd2, 0x00, 0x35, 0x00, 0x0a, 0x7e, 0x5c, 0x68, 0x69,
    ];
    assert!(rt; packet == changed && header_len(&packet) == 20);
}
