//! Headers from other sources.

ghost use Rattle.std.specs.Prelude.{◌≡◌};
ghost use Rattle.vsw_header.specs.declared.l4_change.Addresses.TheVariants.{Four, Six};

use crate::six_frames::{SEGMENT6, SEGMENT6_SENT};
use crate::six_tests::{FAR, HIDDEN, OWN, WORLD};
use vsw_base::{BadFrame, Control, Ip4, Ip6};
use vsw_header::{
    Addresses, Endpoints, TcpPart, UdpPart, change_tcp, change_udp, read_tcp, read_udp, read_vxlan,
    uncheck_udp, write_udp_vxlan,
};

/// The first packet of a connection, with 20 bytes of options, as Linux wrote it.
const SYN: [u8; 40] = [
    0xcf, 0x66, 0xba, 0xb7, 0x11, 0x13, 0xc7, 0xaa, 0x00, 0x00, 0x00, 0x00, 0xa0, 0x02, 0xff, 0xd7,
    0xfe, 0x30, 0x00, 0x00, 0x02, 0x04, 0xff, 0xd7, 0x04, 0x02, 0x08, 0x0a, 0x3b, 0xbd, 0x36, 0x23,
    0x00, 0x00, 0x00, 0x00, 0x01, 0x03, 0x03, 0x0a,
];

/// The fault of a segment, if it has one.
fn tcp_fault(bytes: &[u8]) -> Option<BadFrame> {
    match read_tcp(bytes) {
        Ok(_) => None,
        Err(fault) => Some(fault),
    }
}

#[test]
fn options_of_tcp_are_skipped(rt: HostRuntime) {
    let part = TcpPart {
        src: 53094,
        dst: 47799,
        control: Control::Syn,
        payload: &[],
    };
    let faults = [tcp_fault(&SYN[..19]), tcp_fault(&SYN[..39])];
    assert!(rt; faults == [Some(BadFrame::ShortTcp), Some(BadFrame::TcpOffset)]);
    assert!(rt; read_tcp(&SYN) == Ok(part));
}

/// The control of `SYN` with these flags.
fn control_of(flags: u8) -> Option<Control> {
    let mut packet = SYN;
    packet[13] = flags;
    match read_tcp(&packet) {
        Ok(part) => Some(part.control),
        Err(_) => None,
    }
}

#[test]
fn flags_of_tcp_are_told(rt: HostRuntime) {
    // SYN and ACK, ACK, PSH and ACK, FIN and ACK, RST and ACK
    let found = [
        control_of(0x12),
        control_of(0x10),
        control_of(0x18),
        control_of(0x11),
        control_of(0x14),
    ];
    let controls = [
        Some(Control::SynAck),
        Some(Control::None),
        Some(Control::None),
        Some(Control::Fin),
        Some(Control::Rst),
    ];
    assert!(rt; found == controls);
}

/// The fault of a datagram, if it has one.
fn udp_fault(bytes: &[u8]) -> Option<BadFrame> {
    match read_udp(bytes) {
        Ok(_) => None,
        Err(fault) => Some(fault),
    }
}

#[test]
fn a_datagram_without_checksum_is_read(rt: HostRuntime) {
    // "nosum" as Linux wrote it, and one byte after it
    let bytes = [
        0xc0, 0xe7, 0xe5, 0xa9, 0x00, 0x0d, 0x00, 0x00, 0x6e, 0x6f, 0x73, 0x75, 0x6d, 0xee,
    ];
    let part = UdpPart {
        src: 49383,
        dst: 58793,
        payload: b"nosum",
        slack: &[0xee],
    };
    let faults = [udp_fault(&bytes[..7]), udp_fault(&bytes[..12])];
    assert!(rt; faults == [Some(BadFrame::ShortUdp), Some(BadFrame::UdpLength)]);
    assert!(rt; read_udp(&bytes) == Ok(part));
}

/// UDP from port 62768 with 60 bytes, and VXLAN of network 5001.
const ENCAP: [u8; 16] = [
    0xf5, 0x30, 0x12, 0xb5, 0x00, 0x3c, 0x00, 0x00, 0x08, 0x00, 0x00, 0x00, 0x00, 0x13, 0x89, 0x00,
];

#[test]
fn an_encapsulation_is_read_and_written(rt: HostRuntime) {
    let read = [read_vxlan(&ENCAP[8..]), read_vxlan(&ENCAP[..8])];
    let mut out = [0xee; 18];
    write_udp_vxlan(&mut out, 62768, 44, 5001);
    let is_written = &out[..16] == &ENCAP[..] && out[16] == 0xee && out[17] == 0xee;
    assert!(rt; read == [Some(5001), None] && is_written);
}

/// From this port of this address to port 53 of 10.0.0.9.
fn query(src: u32, src_port: u16) -> Endpoints
    ensures { result.at ≡ Four src 0x0a000009 }
{
    Endpoints {
        at: Addresses::Four {
            src: Ip4::of(src),
            dst: Ip4::of(0x0a00_0009),
        },
        src_port,
        dst_port: 53,
    }
}

/// Checksums that were computed anew by another program.
#[test]
fn endpoints_are_changed_in_place(rt: HostRuntime) {
    let (from, to) = (query(0x0a00_0005, 1234), query(0xc000_0207, 40_000));
    let mut bytes = [0x04, 0xd2, 0x00, 0x35, 0x00, 0x0a, 0x7e, 0x5c, 0x68, 0x69];
    change_udp(&mut bytes, &from, &to);
    let is_updated = bytes == [0x9c, 0x40, 0x00, 0x35, 0x00, 0x0a, 0x2e, 0xeb, 0x68, 0x69];
    // without a checksum
    uncheck_udp(&mut bytes);
    change_udp(&mut bytes, &to, &from);
    let is_unchecked = bytes == [0x04, 0xd2, 0x00, 0x35, 0x00, 0x0a, 0x00, 0x00, 0x68, 0x69];
    // an updated checksum of 0
    bytes[6..].copy_from_slice(&[0x4f, 0x71, 0x97, 0x54]);
    change_udp(&mut bytes, &from, &to);
    let is_ones = bytes == [0x9c, 0x40, 0x00, 0x35, 0x00, 0x0a, 0xff, 0xff, 0x97, 0x54];
    assert!(rt; [is_updated, is_unchecked, is_ones] == [true; 3]);
}

#[test]
fn endpoints_of_tcp_are_changed_in_place(rt: HostRuntime) {
    let mut from = query(0x0a00_0005, 1234);
    from.dst_port = 80;
    let mut to = query(0xc000_0207, 40_000);
    to.dst_port = 80;
    let mut bytes = [
        0x04, 0xd2, 0x00, 0x50, 0x00, 0x00, 0x00, 0x01, 0x00, 0x00, 0x00, 0x01, 0x50, 0x18, 0xff,
        0xff, 0x52, 0xc4, 0x00, 0x00, 0x68, 0x65, 0x6c, 0x6c, 0x6f,
    ];
    let mut changed = bytes;
    changed[..2].copy_from_slice(&[0x9c, 0x40]);
    changed[16..18].copy_from_slice(&[0x03, 0x53]);
    change_tcp(&mut bytes, &from, &to);
    assert!(rt; bytes == changed);
}

/// From this port of one address to port 80 of another.
fn over_ipv6(src: u128, dst: u128, src_port: u16) -> Endpoints
    ensures { result.at ≡ Six src dst }
{
    Endpoints {
        at: Addresses::Six {
            src: Ip6::of(src),
            dst: Ip6::of(dst),
        },
        src_port,
        dst_port: 80,
    }
}

#[test]
fn endpoints_over_ipv6_are_changed_in_place(rt: HostRuntime) {
    let mut segment = [0; 37];
    segment.copy_from_slice(&SEGMENT6[54..91]);
    let (from, to) = (over_ipv6(OWN, FAR, 1234), over_ipv6(HIDDEN, WORLD, 40_000));
    change_tcp(&mut segment, &from, &to);
    assert!(rt; &segment[..] == &SEGMENT6_SENT[54..91]);
}

/// From 192.0.2.7, and this port, to 203.0.113.4, port 53.
fn translated(src_port: u16) -> Endpoints
    ensures { result.at ≡ Four 0xc0000207 0xcb007104 }
{
    Endpoints {
        at: Addresses::Four {
            src: Ip4::of(0xc000_0207),
            dst: Ip4::of(0xcb00_7104),
        },
        src_port,
        dst_port: 53,
    }
}

/// What a receiver sums of a segment and its pseudo-header, with its carries: a multiple of 65,535
/// where the checksum is right.
fn sum(src: u32, dst: u32, proto: u64, segment: &[u8]) -> u64 {
    let (src, dst) = (u64::from(src), u64::from(dst));
    let mut total = src / 0x1_0000 + src % 0x1_0000 + dst / 0x1_0000 + dst % 0x1_0000;
    total = total.wrapping_add(proto).wrapping_add(segment.len() as u64);
    for i in 0..segment.len() {
        let weight = if i % 2 == 0 { 256 } else { 1 };
        total = total.wrapping_add(weight * u64::from(segment[i]));
    }
    total
}

#[test]
fn a_right_tcp_checksum_stays_right(rt: HostRuntime) {
    // PSH and ACK, and "hey"
    let mut segment = [
        0x04, 0xd2, 0x00, 0x35, 0x00, 0x00, 0x03, 0xe8, 0x00, 0x00, 0x07, 0xd0, 0x50, 0x18, 0xff,
        0x00, 0xaa, 0x96, 0x00, 0x00, 0x68, 0x65, 0x79,
    ];
    let before = sum(0x0a00_0005, 0x0a00_0009, 6, &segment) % 0xffff;
    change_tcp(&mut segment, &query(0x0a00_0005, 1234), &translated(40_000));
    let after = sum(0xc000_0207, 0xcb00_7104, 6, &segment) % 0xffff;
    let ports = [segment[0], segment[1], segment[2], segment[3]];
    let checksum = [segment[16], segment[17]];
    assert!(rt; (before, ports, checksum, after) == (0, [0x9c, 0x40, 0x00, 0x35], [0x29, 0x29], 0));
}

/// "hey", and two bytes behind the datagram.
const HEY: [u8; 13] = [
    0x04, 0xd2, 0x00, 0x35, 0x00, 0x0b, 0x05, 0x5e, 0x68, 0x65, 0x79, 0xee, 0xee,
];

/// Its checksum once it's translated to this port, if that is right, and the bytes behind it.
fn checksum(port: u16) -> Option<[u8; 4]> {
    let mut changed = HEY;
    change_udp(&mut changed, &query(0x0a00_0005, 1234), &translated(port));
    if sum(0xc000_0207, 0xcb00_7104, 17, &changed[..11]) % 0xffff == 0 {
        Some([changed[6], changed[7], changed[11], changed[12]])
    } else {
        None
    }
}

#[test]
fn a_right_udp_checksum_stays_right(rt: HostRuntime) {
    let before = sum(0x0a00_0005, 0x0a00_0009, 17, &HEY[..11]) % 0xffff;
    // 0 is right for the second port, and isn't written
    let after = [checksum(40_000), checksum(8241)];
    assert!(rt; before == 0);
    assert!(rt;
        after
            == [
                Some([0x83, 0xf0, 0xee, 0xee]),
                Some([0xff, 0xff, 0xee, 0xee])
            ]
    );
}
