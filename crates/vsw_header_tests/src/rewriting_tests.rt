//! Frames that were rewritten by another program, and decoded by tcpdump.

ghost use Rattle.std.specs.Prelude.{◌≡◌, ◌≤◌, ◌<◌, length};

use crate::whole_frames::{DELIVERED, OLD, QUERY, REPLY, ROOM, SENT, begins, outer, put};
use vsw_base::{Ip4, Long, Mac};
use vsw_frame::{FrameRoom, read_frame, rewrite, rewrite_bytes};
use vsw_transpose::{Act, Change, Transposition};

/// "hello" over TCP from port 1234 of 10.0.0.5 to port 80 of 10.0.0.9.
const TCP: [u8; 59] = [
    // Ethernet
    0x02, 0x00, 0x00, 0x00, 0x00, 0x99, 0x02, 0x00, 0x00, 0x00, 0x00, 0x01, 0x08, 0x00,
    // IPv4, 45 bytes
    0x45, 0x00, 0x00, 0x2d, 0x00, 0x00, 0x40, 0x00, 0x40, 0x06, 0x26, 0xbe, 0x0a, 0x00, 0x00, 0x05,
    0x0a, 0x00, 0x00, 0x09,
    // TCP
    0x04, 0xd2, 0x00, 0x50, 0x00, 0x00, 0x00, 0x01, 0x00, 0x00, 0x00, 0x01, 0x50, 0x18, 0xff, 0xff,
    0x52, 0xc4, 0x00, 0x00,
    // "hello"
    0x68, 0x65, 0x6c, 0x6c, 0x6f,
];

/// "abc" over UDP, with four bytes of IPv4 options.
const OPTIONS: [u8; 49] = [
    // Ethernet
    0x02, 0x00, 0x00, 0x00, 0x00, 0x99, 0x02, 0x00, 0x00, 0x00, 0x00, 0x01, 0x08, 0x00,
    // IPv4, 35 bytes
    0x46, 0x00, 0x00, 0x23, 0x00, 0x00, 0x40, 0x00, 0x40, 0x11, 0x23, 0xbb, 0x0a, 0x00, 0x00, 0x05,
    0x0a, 0x00, 0x00, 0x09, 0x01, 0x01, 0x01, 0x01,
    // UDP, 11 bytes
    0x04, 0xd2, 0x00, 0x35, 0x00, 0x0b, 0x22, 0x61, 0x61, 0x62, 0x63,
];

/// The datagram of `QUERY` in network 5001, with a UDP checksum outside, and with bytes that no length covers
/// at each level.
const ENDS: [u8; 102] = [
    // Ethernet
    0x02, 0x00, 0x00, 0x00, 0x0a, 0x02, 0x02, 0x00, 0x00, 0x00, 0x0a, 0x01, 0x08, 0x00,
    // IPv4, 86 bytes
    0x45, 0x00, 0x00, 0x56, 0x00, 0x00, 0x40, 0x00, 0x40, 0x11, 0xe2, 0x73, 0xac, 0x10, 0x00, 0x01,
    0xac, 0x10, 0x00, 0x02,
    // UDP, 64 bytes, and VXLAN
    0xc0, 0x00, 0x12, 0xb5, 0x00, 0x40, 0xbe, 0xef, 0x08, 0x00, 0x00, 0x00, 0x00, 0x13, 0x89, 0x00,
    // Ethernet
    0x02, 0x00, 0x00, 0x00, 0x00, 0x99, 0x02, 0x00, 0x00, 0x00, 0x00, 0x01, 0x08, 0x00,
    // IPv4, 32 bytes
    0x45, 0x00, 0x00, 0x20, 0x00, 0x00, 0x40, 0x00, 0x40, 0x11, 0x26, 0xc0, 0x0a, 0x00, 0x00, 0x05,
    0x0a, 0x00, 0x00, 0x09,
    // UDP, 10 bytes
    0x04, 0xd2, 0x00, 0x35, 0x00, 0x0a, 0x7e, 0x5c, 0x68, 0x69,
    // slack and trailer inside, slack and trailer outside
    0x73, 0x6c, 0x74, 0x72, 0x53, 0x4c, 0x54, 0x52,
];

/// The acts that push an encapsulation.
pub fn encap(place: u8, vni: u32) -> [Act; 3] {
    let [ether, ip, vxlan] = outer(place, vni);
    [Act::Push(ether), Act::Push(ip), Act::Push(vxlan)]
}

/// The source becomes port 40000 of 192.0.2.7.
fn translation() -> [Act; 3] {
    [
        Act::Ignore,
        Act::Modify(Change::Ip {
            src: Some(Ip4::of(0xc000_0207)),
            dst: None,
        }),
        Act::Modify(Change::Ports {
            src: Some(40_000),
            dst: None,
        }),
    ]
}

/// Rewrites a frame by these acts, if they fit.
fn written(bytes: &[u8], acts: &[Act], out: &mut [u8]) -> Option<Result<usize, Long>>
    requires { 65700 ≤ length out.old }
{
    let by = Transposition::of(acts).ok()?;
    let mut room = FrameRoom::new();
    match read_frame(bytes, &mut room) {
        Ok(frame) => {
            if by.fits(frame.stack()) {
                Some(rewrite(&frame, &by, out))
            } else {
                None
            }
        }
        Err(_) => None,
    }
}

/// Whether a frame becomes these bytes at the front of `out`, and what stands behind them is left.
fn compare(bytes: &[u8], acts: &[Act], expected: &[u8], out: &mut [u8]) -> bool
    requires { 65700 ≤ length out.old }
{
    match Transposition::of(acts) {
        Ok(by) => rewrite_bytes(bytes, &by, out) == Some(expected.len()) && begins(out, expected),
        Err(_) => false,
    }
}

pub fn becomes(bytes: &[u8], acts: &[Act], expected: &[u8]) -> bool {
    let mut out = [OLD; ROOM];
    compare(bytes, acts, expected, &mut out)
}

#[test]
fn a_translated_query_leaves_in_a_network(rt: HostRuntime) {
    let [a, b, c] = encap(0, 5001);
    let [d, e, f] = translation();
    assert!(rt; becomes(&QUERY, &[a, b, c, d, e, f], &SENT));
}

#[test]
fn an_answer_is_translated_back(rt: HostRuntime) {
    let acts = [
        Act::Pop,
        Act::Pop,
        Act::Pop,
        Act::Ignore,
        Act::Modify(Change::Ip {
            src: None,
            dst: Some(Ip4::of(0x0a00_0005)),
        }),
        Act::Modify(Change::Ports {
            src: None,
            dst: Some(1234),
        }),
    ];
    assert!(rt; becomes(&REPLY, &acts, &DELIVERED));
}

#[test]
fn a_frame_in_two_networks_has_one_source_port(rt: HostRuntime) {
    let [a, b, c] = encap(0, 5001);
    let [d, e, f] = translation();
    let [g, h, i] = encap(1, 7);
    let acts = [g, h, i, a, b, c, d, e, f];
    let mut expected = [0; 144];
    put(
        &mut expected,
        0,
        &[
            0x02, 0x00, 0x00, 0x00, 0x0b, 0x02, 0x02, 0x00, 0x00, 0x00, 0x0b, 0x01, 0x08, 0x00,
            0x45, 0x00, 0x00, 0x82, 0x00, 0x00, 0x40, 0x00, 0x40, 0x11, 0xe2, 0x45, 0xac, 0x11,
            0x00, 0x01, 0xac, 0x11, 0x00, 0x02, 0xf5, 0x30, 0x12, 0xb5, 0x00, 0x6e, 0x00, 0x00,
            0x08, 0x00, 0x00, 0x00, 0x00, 0x00, 0x07, 0x00,
        ],
    );
    put(&mut expected, 50, &SENT);
    assert!(rt; becomes(&QUERY, &acts, &expected));
}

#[test]
fn tcp_keeps_a_right_checksum(rt: HostRuntime) {
    let mut changed = TCP;
    put(&mut changed, 24, &[0x6e, 0xbb, 0xc0, 0x00, 0x02, 0x07]);
    put(&mut changed, 34, &[0x9c, 0x40]);
    put(&mut changed, 50, &[0x03, 0x53]);
    assert!(rt; becomes(&TCP, &translation(), &changed));
}

#[test]
fn an_odd_payload_behind_options_keeps_a_right_checksum(rt: HostRuntime) {
    let mut expected = OPTIONS;
    put(&mut expected, 24, &[0x6b, 0xb8, 0xc0, 0x00, 0x02, 0x07]);
    put(&mut expected, 38, &[0x9c, 0x40]);
    put(&mut expected, 44, &[0xd2, 0xef]);
    assert!(rt; becomes(&OPTIONS, &translation(), &expected));
}

/// `QUERY` with this UDP checksum and this payload.
fn datagram(checksum: [u8; 2], payload: [u8; 2]) -> [u8; 44] {
    let mut bytes = QUERY;
    put(&mut bytes, 40, &checksum);
    put(&mut bytes, 42, &payload);
    bytes
}

/// It, translated.
fn translated(checksum: [u8; 2], payload: [u8; 2]) -> [u8; 44] {
    let mut bytes = datagram(checksum, payload);
    put(&mut bytes, 24, &[0x6e, 0xbf, 0xc0, 0x00, 0x02, 0x07]);
    put(&mut bytes, 34, &[0x9c, 0x40]);
    bytes
}

#[test]
fn udp_checksums_of_zero(rt: HostRuntime) {
    // none stays none
    let (bytes, expected) = (datagram([0, 0], *b"hi"), translated([0, 0], *b"hi"));
    assert!(rt; becomes(&bytes, &translation(), &expected));
    // one that is 0 is written as 0xffff
    let (bytes, expected) = (
        datagram([0x4f, 0x71], [0x97, 0x54]),
        translated([0xff, 0xff], [0x97, 0x54]),
    );
    assert!(rt; becomes(&bytes, &translation(), &expected));
}

#[test]
fn the_payload_of_a_fragment_stays(rt: HostRuntime) {
    // more fragments follow
    let mut bytes = QUERY;
    bytes[20] = 0x20;
    bytes[24] = 0x46;
    let mut expected = bytes;
    put(&mut expected, 24, &[0x8e, 0xbf, 0xc0, 0x00, 0x02, 0x07]);
    let [a, b, _] = translation();
    assert!(rt; becomes(&bytes, &[a, b], &expected));
}

/// The acts that leave an encapsulation as it is.
pub fn kept(inner: [Act; 3]) -> [Act; 6] {
    let [a, b, c] = inner;
    [Act::Ignore, Act::Ignore, Act::Ignore, a, b, c]
}

#[test]
fn a_kept_encapsulation_loses_its_checksum_alone(rt: HostRuntime) {
    let mut expected = ENDS;
    put(&mut expected, 40, &[0, 0]);
    put(&mut expected, 74, &[0x6e, 0xbd, 0xc0, 0x00, 0x02, 0x07]);
    put(&mut expected, 84, &[0x9c, 0x40]);
    put(&mut expected, 90, &[0x2e, 0xeb]);
    assert!(rt; becomes(&ENDS, &kept(translation()), &expected));
}

#[test]
fn an_address_of_ethernet_is_in_no_inner_checksum(rt: HostRuntime) {
    let acts = [
        Act::Modify(Change::Ether {
            dst: Some(Mac::of(0x0200_0000_0077)),
            src: None,
        }),
        Act::Ignore,
        Act::Ignore,
    ];
    let mut expected = ENDS;
    put(&mut expected, 40, &[0, 0]);
    expected[55] = 0x77;
    assert!(rt; becomes(&ENDS, &kept(acts), &expected));
}

#[test]
fn what_is_not_edited_stays(rt: HostRuntime) {
    let acts = [
        Act::Ignore,
        Act::Modify(Change::Ip {
            src: Some(Ip4::of(0x0a00_0005)),
            dst: None,
        }),
        Act::Ignore,
    ];
    assert!(rt; becomes(&ENDS, &kept(acts), &ENDS));
}

#[test]
fn a_dropped_encapsulation_goes_with_what_surrounds_its_frame(rt: HostRuntime) {
    let acts = [
        Act::Pop,
        Act::Pop,
        Act::Pop,
        Act::Ignore,
        Act::Ignore,
        Act::Ignore,
    ];
    assert!(rt; becomes(&ENDS, &acts, &ENDS[50..98]));
}

/// The segment of `TCP` in network 5001, with IPv4 options, and in network 7 around it, with UDP checksums in
/// both, and with bytes that no length covers.
const TWICE: [u8; 167] = [
    // Ethernet
    0x02, 0x00, 0x00, 0x00, 0x0b, 0x02, 0x02, 0x00, 0x00, 0x00, 0x0b, 0x01, 0x08, 0x00,
    // IPv4, 151 bytes
    0x45, 0x28, 0x00, 0x97, 0x43, 0x21, 0x40, 0x00, 0x40, 0x11, 0x9e, 0xe7, 0xac, 0x11, 0x00, 0x01,
    0xac, 0x11, 0x00, 0x02,
    // UDP, 131 bytes, and VXLAN
    0xe0, 0x01, 0x12, 0xb5, 0x00, 0x83, 0x71, 0x15, 0x08, 0x00, 0x00, 0x00, 0x00, 0x00, 0x07, 0x00,
    // Ethernet
    0x02, 0x00, 0x00, 0x00, 0x0a, 0x02, 0x02, 0x00, 0x00, 0x00, 0x0a, 0x01, 0x08, 0x00,
    // IPv4 with options, 101 bytes
    0x46, 0x00, 0x00, 0x65, 0x12, 0x34, 0x40, 0x00, 0x09, 0x11, 0x04, 0x2f, 0xac, 0x10, 0x00, 0x01,
    0xac, 0x10, 0x00, 0x02, 0x01, 0x01, 0x01, 0x01,
    // UDP, 75 bytes, and VXLAN
    0xe0, 0x00, 0x12, 0xb5, 0x00, 0x4b, 0x2a, 0xfe, 0x08, 0x00, 0x00, 0x00, 0x00, 0x13, 0x89, 0x00,
    // Ethernet
    0x02, 0x00, 0x00, 0x00, 0x00, 0x99, 0x02, 0x00, 0x00, 0x00, 0x00, 0x01, 0x08, 0x00,
    // IPv4, 45 bytes
    0x45, 0x00, 0x00, 0x2d, 0x00, 0x00, 0x40, 0x00, 0x40, 0x06, 0x26, 0xbe, 0x0a, 0x00, 0x00, 0x05,
    0x0a, 0x00, 0x00, 0x09,
    // TCP
    0x04, 0xd2, 0x00, 0x50, 0x00, 0x00, 0x00, 0x01, 0x00, 0x00, 0x00, 0x01, 0x50, 0x18, 0xff, 0xff,
    0x52, 0xc4, 0x00, 0x00,
    // "hello"
    0x68, 0x65, 0x6c, 0x6c, 0x6f,
    // slack of the second frame, trailer of the first
    0x73, 0x6c, 0x74, 0x72,
];

/// The segment of `TCP`, translated, in network 8, and in network 9 around it.
const MOVED: [u8; 159] = [
    // Ethernet
    0x02, 0x00, 0x00, 0x00, 0x0d, 0x02, 0x02, 0x00, 0x00, 0x00, 0x0d, 0x01, 0x08, 0x00,
    // IPv4, 145 bytes
    0x45, 0x00, 0x00, 0x91, 0x00, 0x00, 0x40, 0x00, 0x40, 0x11, 0xe2, 0x32, 0xac, 0x13, 0x00, 0x01,
    0xac, 0x13, 0x00, 0x02,
    // UDP, 125 bytes, and VXLAN
    0xf5, 0x40, 0x12, 0xb5, 0x00, 0x7d, 0x00, 0x00, 0x08, 0x00, 0x00, 0x00, 0x00, 0x00, 0x09, 0x00,
    // Ethernet
    0x02, 0x00, 0x00, 0x00, 0x0c, 0x02, 0x02, 0x00, 0x00, 0x00, 0x0c, 0x01, 0x08, 0x00,
    // IPv4, 95 bytes
    0x45, 0x00, 0x00, 0x5f, 0x00, 0x00, 0x40, 0x00, 0x40, 0x11, 0xe2, 0x66, 0xac, 0x12, 0x00, 0x01,
    0xac, 0x12, 0x00, 0x02,
    // UDP, 75 bytes, and VXLAN
    0xf5, 0x40, 0x12, 0xb5, 0x00, 0x4b, 0x00, 0x00, 0x08, 0x00, 0x00, 0x00, 0x00, 0x00, 0x08, 0x00,
    // Ethernet
    0x02, 0x00, 0x00, 0x00, 0x00, 0x99, 0x02, 0x00, 0x00, 0x00, 0x00, 0x01, 0x08, 0x00,
    // IPv4, 45 bytes
    0x45, 0x00, 0x00, 0x2d, 0x00, 0x00, 0x40, 0x00, 0x40, 0x06, 0x6e, 0xbb, 0xc0, 0x00, 0x02, 0x07,
    0x0a, 0x00, 0x00, 0x09,
    // TCP
    0x9c, 0x40, 0x00, 0x50, 0x00, 0x00, 0x00, 0x01, 0x00, 0x00, 0x00, 0x01, 0x50, 0x18, 0xff, 0xff,
    0x03, 0x53, 0x00, 0x00,
    // "hello"
    0x68, 0x65, 0x6c, 0x6c, 0x6f,
];

#[test]
fn two_kept_encapsulations_lose_their_checksums(rt: HostRuntime) {
    let mut expected = TWICE;
    // UDP of the encapsulations
    put(&mut expected, 40, &[0, 0]);
    put(&mut expected, 94, &[0, 0]);
    // IPv4, and TCP
    put(&mut expected, 128, &[0x6e, 0xbb, 0xc0, 0x00, 0x02, 0x07]);
    put(&mut expected, 138, &[0x9c, 0x40]);
    put(&mut expected, 154, &[0x03, 0x53]);
    let [a, b, c, d, e, f] = kept(translation());
    let acts = [Act::Ignore, Act::Ignore, Act::Ignore, a, b, c, d, e, f];
    assert!(rt; becomes(&TWICE, &acts, &expected));
}

#[test]
fn a_dropped_encapsulation_leaves_the_kept_one_as_it_was(rt: HostRuntime) {
    let [a, b, c, d, e, f] = kept([Act::Ignore, Act::Ignore, Act::Ignore]);
    let acts = [Act::Pop, Act::Pop, Act::Pop, a, b, c, d, e, f];
    assert!(rt; becomes(&TWICE, &acts, &TWICE[50..165]));
}

#[test]
fn two_encapsulations_take_the_place_of_two(rt: HostRuntime) {
    let [a, b, c] = encap(3, 9);
    let [d, e, f] = encap(2, 8);
    let [g, h, i] = translation();
    let acts = [
        Act::Pop,
        Act::Pop,
        Act::Pop,
        Act::Pop,
        Act::Pop,
        Act::Pop,
        a,
        b,
        c,
        d,
        e,
        f,
        g,
        h,
        i,
    ];
    assert!(rt; becomes(&TWICE, &acts, &MOVED));
}

/// Writes a frame of this IPv4 length, of a protocol without ports, behind one encapsulation.
fn encapsulated(bytes: &mut [u8], total: u16, out: &mut [u8]) -> Option<Result<usize, Long>>
    requires { 65700 ≤ length out.old }
{
    put(bytes, 0, &QUERY[..34]);
    put(bytes, 16, &total.to_be_bytes());
    put(bytes, 23, &[47]);
    let [a, b, c] = encap(0, 5001);
    written(bytes, &[a, b, c, Act::Ignore, Act::Ignore], out)
}

/// Whether the bytes have a total length of 65,535, and these behind the encapsulation.
fn has(out: &[u8], bytes: &[u8]) -> bool {
    out.len() >= 65_549 && out[16] == 0xff && out[17] == 0xff && &out[50..65_549] == bytes
}

#[test]
fn a_total_length_of_65535_is_written(rt: HostRuntime) {
    let mut bytes = [0; 65_499];
    let mut out = [OLD; ROOM];
    let len = encapsulated(&mut bytes, 65_485, &mut out);
    assert!(rt; len == Some(Ok(65_549)) && has(&out, &bytes));
}

#[test]
fn a_total_length_of_65536_is_long(rt: HostRuntime) {
    let mut bytes = [0; 65_500];
    let mut out = [OLD; ROOM];
    let len = encapsulated(&mut bytes, 65_486, &mut out);
    assert!(rt; len == Some(Err(Long { total: 65_536 })) && out == [OLD; ROOM]);
}
