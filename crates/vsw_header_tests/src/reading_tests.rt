//! Frames that were written and read by hand.

use crate::whole_frames::{DELIVERED, QUERY, REPLY, SENT, nested, outer};
use vsw_base::{BadFrame, Control, Header, Ip4, Mac, Sizes};
use vsw_frame::{Frame, FrameRoom, read_frame};

/// TCP from port 1234 to port 80 with SYN and ACK and no payload.
const SYN_ACK: [u8; 20] = [
    0x04, 0xd2, 0x00, 0x50, 0x00, 0x00, 0x00, 0x01, 0x00, 0x00, 0x00, 0x01, 0x50, 0x12, 0xff, 0xff,
    0x00, 0x00, 0x00, 0x00,
];

fn ether(kind: u16) -> Header {
    Header::Ether {
        dst: Mac::of(0x0200_0000_0099),
        src: Mac::of(0x0200_0000_0001),
        kind,
    }
}

fn ip(src: u32, proto: u8, part: bool) -> Header {
    Header::Ip {
        src: Ip4::of(src),
        dst: Ip4::of(0x0a00_0009),
        proto,
        part,
    }
}

fn ports(proto: u8, src: u16, dst: u16) -> Header {
    Header::Ports { proto, src, dst }
}

/// `QUERY` with this byte at this place.
fn changed(at: usize, byte: u8) -> [u8; 44] {
    let mut frame = QUERY;
    if at < 44 {
        frame[at] = byte;
    }
    frame
}

/// TCP in place of the UDP of `QUERY`.
fn with_tcp() -> [u8; 54] {
    let mut frame = [0; 54];
    frame[..34].copy_from_slice(&QUERY[..34]);
    frame[34..].copy_from_slice(&SYN_ACK);
    frame[17] = 40;
    frame[23] = 6;
    frame
}

/// Whether a frame is of these headers, bytes, payload and sizes.
fn says(frame: &Frame<'_>, headers: &[Header], bytes: &[u8], payload: &[u8], sizes: Sizes) -> bool {
    frame.stack().headers() == headers
        && frame.bytes() == bytes
        && frame.payload() == payload
        && frame.sizes() == sizes
}

/// Whether a frame of these headers, payload and sizes is read.
pub fn reads(bytes: &[u8], headers: &[Header], payload: &[u8], sizes: Sizes) -> bool {
    let mut room = FrameRoom::new();
    match read_frame(bytes, &mut room) {
        Ok(frame) => says(&frame, headers, bytes, payload, sizes),
        Err(_) => false,
    }
}

pub fn sizes(whole: u32, one: u32, two: u32) -> Sizes {
    Sizes { whole, one, two }
}

/// The control that a frame asks for, or its fault.
pub fn control(bytes: &[u8]) -> Result<Control, BadFrame> {
    let mut room = FrameRoom::new();
    match read_frame(bytes, &mut room) {
        Ok(frame) => Ok(frame.control()),
        Err(fault) => Err(fault),
    }
}

#[test]
fn a_plain_frame_is_read(rt: HostRuntime) {
    let headers = [
        ether(0x0800),
        ip(0x0a00_0005, 17, false),
        ports(17, 1234, 53),
    ];
    let is_read = reads(&QUERY, &headers, b"hi", sizes(44, 0, 0));
    assert!(rt; is_read && control(&QUERY) == Ok(Control::None));
}

#[test]
fn an_encapsulated_frame_is_read(rt: HostRuntime) {
    let [a, b, c] = outer(0, 5001);
    let headers = [
        a,
        b,
        c,
        ether(0x0800),
        ip(0xc000_0207, 17, false),
        ports(17, 40000, 53),
    ];
    assert!(rt; reads(&SENT, &headers, b"hi", sizes(94, 44, 0)));
}

/// UDP from 10.0.0.9 to this address, from port 53 to this port.
fn answer_to(dst: u32, port: u16) -> [Header; 3] {
    let ether = Header::Ether {
        dst: Mac::of(0x0200_0000_0001),
        src: Mac::of(0x0200_0000_0099),
        kind: 0x0800,
    };
    let ip = Header::Ip {
        src: Ip4::of(0x0a00_0009),
        dst: Ip4::of(dst),
        proto: 17,
        part: false,
    };
    [ether, ip, ports(17, 53, port)]
}

#[test]
fn replies_are_read(rt: HostRuntime) {
    let outer_ether = Header::Ether {
        dst: Mac::of(0x0200_0000_0a01),
        src: Mac::of(0x0200_0000_0a02),
        kind: 0x0800,
    };
    let outer_ip = Header::Ip {
        src: Ip4::of(0xac10_0002),
        dst: Ip4::of(0xac10_0001),
        proto: 17,
        part: false,
    };
    let [ether, ip, udp] = answer_to(0xc000_0207, 40_000);
    let vxlan = Header::Vxlan { vni: 5001 };
    let headers = [outer_ether, outer_ip, vxlan, ether, ip, udp];
    assert!(rt; reads(&REPLY, &headers, b"hi", sizes(94, 44, 0)));
    let headers = answer_to(0x0a00_0005, 1234);
    assert!(rt; reads(&DELIVERED, &headers, b"hi", sizes(44, 0, 0)));
}

#[test]
fn vxlan_without_its_flag_is_plain_udp(rt: HostRuntime) {
    let mut bytes = SENT;
    bytes[42] = 0xf7;
    let [a, b, _] = outer(0, 5001);
    let headers = [a, b, ports(17, 62768, 4789)];
    assert!(rt; reads(&bytes, &headers, &bytes[42..], sizes(94, 0, 0)));
}

#[test]
fn a_third_encapsulation_is_plain_udp(rt: HostRuntime) {
    let bytes = nested();
    let [a, b, c] = outer(0, 5001);
    let [d, e, f] = outer(0, 5001);
    let [g, h, _] = outer(0, 5001);
    let headers = [a, b, c, d, e, f, g, h, ports(17, 62768, 4789)];
    assert!(rt; reads(&bytes, &headers, &SENT[42..], sizes(194, 144, 94)));
}

#[test]
fn another_type_and_a_fragment_have_no_ports(rt: HostRuntime) {
    let arp = changed(13, 0x06);
    assert!(rt; reads(&arp, &[ether(0x0806)], &QUERY[14..], sizes(44, 0, 0)));
    let fragment = changed(20, 0x20);
    let headers = [ether(0x0800), ip(0x0a00_0005, 17, true)];
    assert!(rt; reads(&fragment, &headers, &QUERY[34..], sizes(44, 0, 0)));
}

#[test]
fn flags_of_tcp_are_told(rt: HostRuntime) {
    let bytes = with_tcp();
    let headers = [ether(0x0800), ip(0x0a00_0005, 6, false), ports(6, 1234, 80)];
    let is_read = reads(&bytes, &headers, b"", sizes(54, 0, 0));
    assert!(rt; is_read && control(&bytes) == Ok(Control::SynAck));
}

/// Places of `QUERY`, other bytes there, and the faults.
const FAULTS: [(usize, u8, BadFrame); 6] = [
    (14, 0x44, BadFrame::IpLength),
    (17, 31, BadFrame::IpLength),
    (14, 0x65, BadFrame::IpVersion),
    (39, 7, BadFrame::UdpLength),
    (23, 6, BadFrame::ShortTcp),
    (17, 27, BadFrame::ShortUdp),
];

/// The place of the first change that has another fault.
fn wrong_fault(faults: &[(usize, u8, BadFrame)]) -> Option<usize> {
    for place in 0..faults.len() {
        let (at, byte, fault) = faults[place];
        if control(&changed(at, byte)) != Err(fault) {
            return Some(place);
        }
    }
    None
}

#[test]
fn faults_are_told(rt: HostRuntime) {
    let fronts = [control(&QUERY[..13]), control(&QUERY[..33])];
    assert!(rt; fronts == [Err(BadFrame::ShortEther), Err(BadFrame::ShortIp)]);
    assert!(rt; wrong_fault(&FAULTS) == None);
}

#[test]
fn later_faults_are_told(rt: HostRuntime) {
    let mut tcp = with_tcp();
    tcp[46] = 0x40;
    let mut encap = SENT;
    encap[64] = 0x65;
    let told = (control(&tcp), control(&encap));
    assert!(rt; told == (Err(BadFrame::TcpOffset), Err(BadFrame::IpVersion)));
}

#[test]
fn frames_up_to_65600_bytes_are_read(rt: HostRuntime) {
    let bytes = [0; 65_601];
    let told = (control(&bytes[1..]), control(&bytes));
    assert!(rt; told == (Ok(Control::None), Err(BadFrame::TooLong)));
}

/// Whether these are a frame's headers.
fn has(bytes: &[u8], headers: &[Header]) -> bool {
    let mut room = FrameRoom::new();
    match read_frame(bytes, &mut room) {
        Ok(frame) => frame.stack().headers() == headers,
        Err(_) => false,
    }
}

/// Places of `QUERY` that hold service, packet id, time to live, checksums and payload, and other bytes.
const OTHERS: [(usize, u8); 6] = [
    (15, 0x28),
    (18, 0x12),
    (22, 7),
    (24, 0),
    (40, 0),
    (42, 0x79),
];

/// The place of the first change by which `QUERY` has other headers.
fn wrong_change(others: &[(usize, u8)], headers: &[Header]) -> Option<usize> {
    for place in 0..others.len() {
        let (at, byte) = others[place];
        if !has(&changed(at, byte), headers) {
            return Some(place);
        }
    }
    None
}

/// `QUERY` and six bytes more, with these lengths of IPv4 and UDP.
fn longer(ip: u8, udp: u8) -> [u8; 50] {
    let mut frame = [0; 50];
    frame[..44].copy_from_slice(&QUERY);
    frame[17] = ip;
    frame[39] = udp;
    frame
}

/// Service, packet id, time to live, checksums and payload, and lengths, of UDP.
#[test]
fn fields_of_a_packet_do_not_show_in_its_stack(rt: HostRuntime) {
    let headers = [
        ether(0x0800),
        ip(0x0a00_0005, 17, false),
        ports(17, 1234, 53),
    ];
    assert!(rt; wrong_change(&OTHERS, &headers) == None);
    assert!(rt; has(&longer(30, 10), &headers) && has(&longer(33, 13), &headers));
}

/// TCP numbers, and the UDP source port of an encapsulation.
#[test]
fn numbers_and_outer_ports_do_not_show_in_a_stack(rt: HostRuntime) {
    let mut tcp = with_tcp();
    tcp[41] = 9;
    tcp[45] = 9;
    let headers = [ether(0x0800), ip(0x0a00_0005, 6, false), ports(6, 1234, 80)];
    let is_tcp = has(&tcp, &headers);
    let mut encap = SENT;
    encap[34] = 0xc0;
    let [a, b, c] = outer(0, 5001);
    let headers = [
        a,
        b,
        c,
        ether(0x0800),
        ip(0xc000_0207, 17, false),
        ports(17, 40000, 53),
    ];
    assert!(rt; is_tcp && has(&encap, &headers));
}
