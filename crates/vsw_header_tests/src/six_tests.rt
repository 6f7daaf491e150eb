//! Frames with IPv6, read and rewritten.

use crate::reading_tests::{control, reads, sizes};
use crate::rewriting_tests::{becomes, encap, kept};
use crate::six_frames::{
    COVERED_BY_SIX, ECHO6, EMPTY6, HOPS, INSIDE, INSIDE_SENT, ONES, ONES_SENT, PART6, QUERY6,
    QUERY6_COVERED, QUERY6_SENT, SEGMENT6, SEGMENT6_SENT, SYN6,
};
use crate::whole_frames::{outer, put};
use vsw_base::{BadFrame, Control, Header, Ip6, Mac};
use vsw_transpose::{Act, Change};

/// fd00::5, which is fd00::77 where it leaves.
pub const OWN: u128 = 0xfd00_0000_0000_0000_0000_0000_0000_0005;

pub const HIDDEN: u128 = 0xfd00_0000_0000_0000_0000_0000_0000_0077;

/// fd00::9.
pub const FAR: u128 = 0xfd00_0000_0000_0000_0000_0000_0000_0009;

/// 2001:db8::7.
pub const WORLD: u128 = 0x2001_0db8_0000_0000_0000_0000_0000_0007;

pub fn ether6() -> Header {
    Header::Ether {
        dst: Mac::of(0x0200_0000_0099),
        src: Mac::of(0x0200_0000_0001),
        kind: 0x86dd,
    }
}

/// From fd00::5 to fd00::9.
pub fn six(proto: u8) -> Header {
    Header::Six {
        src: Ip6::of(OWN),
        dst: Ip6::of(FAR),
        proto,
    }
}

fn ports(proto: u8, src: u16, dst: u16) -> Header {
    Header::Ports { proto, src, dst }
}

/// TCP and UDP have ports, also UDP to the port of VXLAN, in which no encapsulation is looked for.
fn with_ports() -> [bool; 4] {
    let query = [ether6(), six(17), ports(17, 1234, 53)];
    let segment = [ether6(), six(6), ports(6, 1234, 80)];
    let covered = [ether6(), six(17), ports(17, 62_768, 4789)];
    [
        reads(&QUERY6, &query, b"hi", sizes(64, 0, 0)),
        reads(&SEGMENT6, &segment, b"hello", sizes(94, 0, 0)),
        reads(&SYN6, &segment, b"", sizes(94, 0, 0)),
        reads(
            &COVERED_BY_SIX,
            &covered,
            &COVERED_BY_SIX[62..],
            sizes(114, 0, 0),
        ),
    ]
}

/// Whether a frame has this next header and no ports.
fn is_bare(bytes: &[u8], proto: u8, payload: &[u8], len: u32) -> bool {
    reads(bytes, &[ether6(), six(proto)], payload, sizes(len, 0, 0))
}

/// ICMPv6 and extension headers.
fn without_ports() -> [bool; 4] {
    [
        is_bare(&ECHO6, 58, &ECHO6[54..], 66),
        is_bare(&HOPS, 0, &HOPS[54..], 72),
        is_bare(&PART6, 44, &PART6[54..], 72),
        is_bare(&EMPTY6, 59, b"", 60),
    ]
}

/// Whether IPv6 is read in an encapsulation.
fn is_read_inside() -> bool {
    let [a, b, c] = outer(0, 5001);
    let headers = [a, b, c, ether6(), six(17), ports(17, 1234, 53)];
    reads(&INSIDE, &headers, b"hi", sizes(114, 64, 0))
}

/// Fronts of the query, places in it, other bytes there, and the faults.
const FAULTS: [(usize, usize, u8, BadFrame); 12] = [
    (14, 0, 2, BadFrame::ShortIp6),
    (53, 0, 2, BadFrame::ShortIp6),
    (53, 14, 0x45, BadFrame::ShortIp6),
    (64, 14, 0x45, BadFrame::Ip6Version),
    (63, 14, 0x45, BadFrame::Ip6Version),
    (63, 0, 2, BadFrame::Ip6Length),
    (64, 18, 1, BadFrame::Ip6Length),
    (64, 19, 11, BadFrame::Ip6Length),
    (64, 19, 7, BadFrame::ShortUdp),
    (64, 20, 6, BadFrame::ShortTcp),
    (64, 59, 7, BadFrame::UdpLength),
    (64, 59, 11, BadFrame::UdpLength),
];

/// The fault of a front of the query with this byte at this place, if it has one.
fn fault_of(front: usize, at: usize, byte: u8) -> Option<BadFrame> {
    let mut frame = QUERY6;
    put(&mut frame, at, &[byte]);
    match frame.get(..front) {
        Some(bytes) => match control(bytes) {
            Ok(_) => None,
            Err(fault) => Some(fault),
        },
        None => None,
    }
}

/// The place of the first change that has another fault.
fn wrong_fault(faults: &[(usize, usize, u8, BadFrame)]) -> Option<usize> {
    for place in 0..faults.len() {
        let (front, at, byte, fault) = faults[place];
        if fault_of(front, at, byte) != Some(fault) {
            return Some(place);
        }
    }
    None
}

/// The fault of the segment with this byte of its data offset.
fn offset_fault(byte: u8) -> Result<Control, BadFrame> {
    let mut frame = SEGMENT6;
    put(&mut frame, 66, &[byte]);
    control(&frame)
}

#[test]
fn frames_with_ipv6_are_read(rt: HostRuntime) {
    assert!(rt; with_ports() == [true; 4] && without_ports() == [true; 4] && is_read_inside());
    assert!(rt; wrong_fault(&FAULTS) == None);
    // four words, and ten of 37 bytes
    let told = (control(&SYN6), offset_fault(0x40), offset_fault(0xa0));
    assert!(rt;
        told == (
            Ok(Control::Syn),
            Err(BadFrame::TcpOffset),
            Err(BadFrame::TcpOffset)
        )
    );
}

fn set(src: Option<Ip6>, dst: Option<Ip6>) -> Act {
    Act::Modify(Change::Six { src, dst })
}

fn from_port(port: u16) -> Act {
    Act::Modify(Change::Ports {
        src: Some(port),
        dst: None,
    })
}

/// The source becomes fd00::77.
fn hidden() -> Act {
    set(Some(Ip6::of(HIDDEN)), None)
}

/// The query from another address, from another port, and of an unknown checksum.
fn queries() -> [bool; 3] {
    let mut other_port = QUERY6;
    put(&mut other_port, 54, &[0x9c, 0x40]);
    put(&mut other_port, 60, &[0x00, 0xec]);
    let mut unchecked = QUERY6;
    put(&mut unchecked, 60, &[0, 0]);
    let mut unchecked_sent = QUERY6_SENT;
    put(&mut unchecked_sent, 60, &[0, 0]);
    let acts = [Act::Ignore, hidden(), Act::Ignore];
    [
        becomes(&QUERY6, &acts, &QUERY6_SENT),
        becomes(
            &QUERY6,
            &[Act::Ignore, Act::Ignore, from_port(40_000)],
            &other_port,
        ),
        becomes(&unchecked, &acts, &unchecked_sent),
    ]
}

/// A segment with traffic class, flow label and trailer, and a datagram whose sum becomes 0.
fn translated() -> [bool; 2] {
    let world = set(Some(Ip6::of(HIDDEN)), Some(Ip6::of(WORLD)));
    [
        becomes(
            &SEGMENT6,
            &[Act::Ignore, world, from_port(40_000)],
            &SEGMENT6_SENT,
        ),
        becomes(
            &ONES,
            &[Act::Ignore, hidden(), from_port(40_000)],
            &ONES_SENT,
        ),
    ]
}

/// Other protocols' payload stays, also the checksum of ICMPv6, and so does what follows the packet.
fn payloads_stay() -> [bool; 3] {
    let acts = [Act::Ignore, hidden()];
    let mut echo = ECHO6;
    put(&mut echo, 37, &[0x77]);
    let mut hops = HOPS;
    put(&mut hops, 37, &[0x77]);
    let mut empty = EMPTY6;
    put(&mut empty, 37, &[0x77]);
    [
        becomes(&ECHO6, &acts, &echo),
        becomes(&HOPS, &acts, &hops),
        becomes(&EMPTY6, &acts, &empty),
    ]
}

/// IPv6 in an encapsulation that comes, goes, and stays.
fn encapsulated() -> [bool; 4] {
    let [a, b, c] = encap(0, 5001);
    let pushed = [a, b, c, Act::Ignore, hidden(), Act::Ignore];
    let [d, e, f] = [Act::Ignore, Act::Ignore, Act::Ignore];
    let popped = [Act::Pop, Act::Pop, Act::Pop, d, e, f];
    [
        becomes(&QUERY6, &pushed, &QUERY6_COVERED),
        becomes(&QUERY6_COVERED, &popped, &QUERY6_SENT),
        becomes(
            &INSIDE,
            &kept([Act::Ignore, hidden(), Act::Ignore]),
            &INSIDE_SENT,
        ),
        becomes(
            &INSIDE,
            &kept([Act::Ignore, set(Some(Ip6::of(OWN)), None), Act::Ignore]),
            &INSIDE,
        ),
    ]
}

#[test]
fn frames_with_ipv6_are_rewritten(rt: HostRuntime) {
    assert!(rt; queries() == [true; 3] && translated() == [true; 2]);
    assert!(rt; payloads_stay() == [true; 3] && encapsulated() == [true; 4]);
}
