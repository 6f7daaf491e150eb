//! A plain program of what a frame says, written from the layouts alone (RFC 791, 8200, 768, 9293, 7348), and
//! frames on which the reader is compared with it.

ghost use Rattle.std.specs.Prelude.{◌≤◌, ◌<◌};

use crate::six_frames::{INSIDE, SEGMENT6};
use crate::whole_frames::{REPLY, nested};
use std::alloc::{AllocError, Global};
use vsw_base::{Control, Header, Headers, Ip4, Ip6, Mac, Sizes};
use vsw_frame::{Frame, FrameRoom, read_frame};

/// TCP with 4 bytes of options and 2 of payload, from port 1234 of 10.0.0.5 to port 80 of 10.0.0.9.
const SEGMENT: [u8; 60] = [
    // Ethernet
    0x02, 0x00, 0x00, 0x00, 0x00, 0x99, 0x02, 0x00, 0x00, 0x00, 0x00, 0x01, 0x08, 0x00,
    // IPv4, 46 bytes
    0x45, 0x00, 0x00, 0x2e, 0x00, 0x00, 0x40, 0x00, 0x40, 0x06, 0x26, 0xbd, 0x0a, 0x00, 0x00, 0x05,
    0x0a, 0x00, 0x00, 0x09, // TCP
    0x04, 0xd2, 0x00, 0x50, 0x00, 0x00, 0x00, 0x01, 0x00, 0x00, 0x00, 0x01, 0x60, 0x10, 0xff, 0xff,
    0x00, 0x00, 0x00, 0x00, 0x01, 0x01, 0x01, 0x01, 0x68, 0x69,
];

/// What a frame says: its headers, control, bytes of its levels, and what follows the last header.
#[derive(Drop)]
struct Said<'a> {
    headers: Headers,
    control: Control,
    sizes: [usize; 3],
    payload: &'a [u8],
}

/// What stands behind the headers of a level: these bytes of its frame.
enum Behind {
    Inner(usize, usize),
    Payload(usize, usize),
}

/// A byte, or 0 where it isn't there.
fn byte(bytes: &[u8], at: usize) -> u8 {
    match bytes.get(at) {
        Some(byte) => *byte,
        None => 0,
    }
}

fn word(bytes: &[u8], at: usize) -> u16
    requires { at ≤ 4096 }
{
    u16::from_be_bytes([byte(bytes, at), byte(bytes, at + 1)])
}

fn address(bytes: &[u8], at: usize) -> Ip4
    requires { at ≤ 4000 }
{
    let high = u32::from(word(bytes, at));
    let low = u32::from(word(bytes, at + 2));
    Ip4::of(high * 0x1_0000 + low)
}

fn half(bytes: &[u8], at: usize) -> u64
    requires { at ≤ 4000 }
{
    u64::from(word(bytes, at)) * 0x1_0000_0000_0000
        + u64::from(word(bytes, at + 2)) * 0x1_0000_0000
        + u64::from(word(bytes, at + 4)) * 0x1_0000
        + u64::from(word(bytes, at + 6))
}

fn address6(bytes: &[u8], at: usize) -> Ip6
    requires { at ≤ 3000 }
{
    let high = u128::from(half(bytes, at));
    Ip6::of(high * 0x1_0000_0000_0000_0000 + u128::from(half(bytes, at + 8)))
}

fn mac(bytes: &[u8], at: usize) -> Mac
    requires { at ≤ 4000 }
{
    let high = u64::from(word(bytes, at));
    let middle = u64::from(word(bytes, at + 2));
    let low = u64::from(word(bytes, at + 4));
    Mac::of(high * 0x1_0000_0000 + middle * 0x1_0000 + low)
}

fn add(headers: &mut Headers, header: Header) {
    if headers.as_slice().len() < 9 {
        headers.push(header);
    }
}

fn control_of(flags: u8) -> Control {
    if flags / 4 % 2 == 1 {
        Control::Rst
    } else if flags % 2 == 1 {
        Control::Fin
    } else if flags / 2 % 2 == 0 {
        Control::None
    } else if flags / 16 % 2 == 1 {
        Control::SynAck
    } else {
        Control::Syn
    }
}

/// TCP in these bytes of a frame.
fn tcp(frame: &[u8], from: usize, to: usize, said: &mut Said<'_>) -> Result<Behind, u8>
    requires few { from ≤ 2048 }
    requires order { from ≤ to }
{
    if to - from < 20 {
        return Err(5);
    }
    let header = 4 * usize::from(byte(frame, from + 12) / 16);
    if header < 20 || header > to - from {
        return Err(6);
    }
    said.control = control_of(byte(frame, from + 13));
    add(
        &mut said.headers,
        Header::Ports {
            proto: 6,
            src: word(frame, from),
            dst: word(frame, from + 2),
        },
    );
    Ok(Behind::Payload(from + header, to))
}

/// UDP in these bytes of a frame, which may hold a further encapsulation.
fn udp(
    frame: &[u8],
    from: usize,
    to: usize,
    is_last: bool,
    said: &mut Said<'_>,
) -> Result<Behind, u8>
    requires few { from ≤ 2048 }
    requires order { from ≤ to }
{
    if to - from < 8 {
        return Err(7);
    }
    let length = usize::from(word(frame, from + 4));
    if length < 8 || length > to - from {
        return Err(8);
    }
    let end = from + length;
    let [src, dst] = [word(frame, from), word(frame, from + 2)];
    let flag = byte(frame, from + 8) / 8 % 2;
    if !is_last && dst == 4789 && length >= 16 && flag == 1 {
        let vni = u32::from(word(frame, from + 12)) * 256 + u32::from(byte(frame, from + 14));
        add(&mut said.headers, Header::Vxlan { vni });
        return Ok(Behind::Inner(from + 16, end));
    }
    add(
        &mut said.headers,
        Header::Ports {
            proto: 17,
            src,
            dst,
        },
    );
    Ok(Behind::Payload(from + 8, end))
}

/// IPv4 behind the Ethernet header of a frame.
fn ipv4(frame: &[u8], is_last: bool, said: &mut Said<'_>) -> Result<Behind, u8> {
    if frame.len() < 34 {
        return Err(2);
    }
    if byte(frame, 14) / 16 != 4 {
        return Err(3);
    }
    let header = 4 * usize::from(byte(frame, 14) % 16);
    let total = usize::from(word(frame, 16));
    if header < 20 || total < header || total > frame.len() - 14 {
        return Err(4);
    }
    let part = word(frame, 20) % 0x4000 != 0;
    let proto = byte(frame, 23);
    add(
        &mut said.headers,
        Header::Ip {
            src: address(frame, 26),
            dst: address(frame, 30),
            proto,
            part,
        },
    );
    let [from, to] = [14 + header, 14 + total];
    if part || proto != 6 && proto != 17 {
        return Ok(Behind::Payload(from, to));
    }
    if proto == 6 {
        tcp(frame, from, to, said)
    } else {
        udp(frame, from, to, is_last, said)
    }
}

/// IPv6 behind the Ethernet header of a frame. No encapsulation is looked for in it.
fn ipv6(frame: &[u8], said: &mut Said<'_>) -> Result<Behind, u8> {
    if frame.len() < 54 {
        return Err(10);
    }
    if byte(frame, 14) / 16 != 6 {
        return Err(11);
    }
    let payload = usize::from(word(frame, 18));
    if payload > frame.len() - 54 {
        return Err(12);
    }
    let proto = byte(frame, 20);
    add(
        &mut said.headers,
        Header::Six {
            src: address6(frame, 22),
            dst: address6(frame, 38),
            proto,
        },
    );
    match proto {
        6 => tcp(frame, 54, 54 + payload, said),
        17 => udp(frame, 54, 54 + payload, true, said),
        _ => Ok(Behind::Payload(54, 54 + payload)),
    }
}

/// A frame, without what an encapsulation holds.
fn level(frame: &[u8], is_last: bool, said: &mut Said<'_>) -> Result<Behind, u8> {
    if frame.len() < 14 {
        return Err(1);
    }
    let kind = word(frame, 12);
    add(
        &mut said.headers,
        Header::Ether {
            dst: mac(frame, 0),
            src: mac(frame, 6),
            kind,
        },
    );
    if kind == 0x0800 {
        ipv4(frame, is_last, said)
    } else if kind == 0x86dd {
        ipv6(frame, said)
    } else {
        Ok(Behind::Payload(14, frame.len()))
    }
}

/// These bytes of a frame.
fn part_of(frame: &[u8], from: usize, to: usize) -> &[u8] {
    match frame.get(from..to) {
        Some(part) => part,
        None => &[],
    }
}

/// What a frame says, or the number of its first fault.
fn plain<'a>(bytes: &'a [u8]) -> Result<Said<'a>, u8> {
    if bytes.len() > 65_600 {
        return Err(9);
    }
    let mut said = Said {
        headers: Headers::new(),
        control: Control::None,
        sizes: [0; 3],
        payload: &[],
    };
    let mut frame = bytes;
    for encaps in 0..3 {
        said.sizes[encaps] = frame.len();
        match level(frame, encaps == 2, &mut said) {
            Err(fault) => return Err(fault),
            Ok(Behind::Payload(from, to)) => {
                said.payload = part_of(frame, from, to);
                return Ok(said);
            }
            Ok(Behind::Inner(from, to)) => frame = part_of(frame, from, to),
        }
    }
    Ok(said)
}

fn widened(sizes: Sizes) -> [usize; 3] {
    [sizes.whole, sizes.one, sizes.two].map(|size| size as usize)
}

/// The number of a frame's fault, 0 where there is none.
fn fault(bytes: &[u8]) -> u8 {
    let mut room = FrameRoom::new();
    match read_frame(bytes, &mut room) {
        Ok(_) => 0,
        Err(fault) => fault.number(),
    }
}

/// Whether a frame that was read says the same.
fn agree(frame: &Frame<'_>, said: &Said<'_>) -> bool {
    frame.stack().headers() == said.headers.as_slice()
        && frame.control() == said.control
        && widened(frame.sizes()) == said.sizes
        && frame.payload() == said.payload
}

/// Whether the reader and the plain program say the same of these bytes.
fn compare(bytes: &[u8]) -> bool {
    match plain(bytes) {
        Err(number) => fault(bytes) == number,
        Ok(said) => {
            let mut room = FrameRoom::new();
            match read_frame(bytes, &mut room) {
                Ok(frame) => agree(&frame, &said),
                Err(_) => false,
            }
        }
    }
}

/// The first value of the byte at this place by which they differ.
fn wrong_value(frame: &mut [u8], at: usize) -> Option<u8> {
    for value in 0..=255 {
        if at < frame.len() {
            frame[at] = value;
        }
        if !compare(frame) {
            return Some(value);
        }
    }
    None
}

/// The first place at which they differ on a frame: on its front that ends there, or with a value of
/// the byte there.
fn wrong_place(alloc: Global, frame: &[u8]) -> Result<Option<usize>, AllocError> {
    for at in 0..frame.len() {
        let mut changed = frame.to_vec(alloc)?;
        if !compare(part_of(frame, 0, at)) || wrong_value(&mut changed, at).is_some() {
            return Ok(Some(at));
        }
    }
    Ok(None)
}

/// Whether they say the same of a frame, of each front of it, and with each byte of it set to every value.
fn sweep(alloc: Global, frame: &[u8]) -> bool {
    compare(frame) && wrong_place(alloc, frame) == Ok(None)
}

#[test]
fn every_change_of_a_byte_is_read_as_the_plain_program_says(rt: HostRuntime) {
    let alloc = rt.alloc();
    assert!(rt; sweep(alloc, &REPLY));
    assert!(rt; sweep(alloc, &SEGMENT));
    assert!(rt; sweep(alloc, &SEGMENT6));
}

/// Two of the three encapsulations are looked for.
#[test]
fn frames_in_frames_are_read_as_the_plain_program_says(rt: HostRuntime) {
    assert!(rt; sweep(rt.alloc(), &nested()));
    assert!(rt; sweep(rt.alloc(), &INSIDE));
}
