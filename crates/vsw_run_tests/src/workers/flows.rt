//! A hundred flows, UDP from 10.0.0.5:1234 to port 53 of 10.0.1.1 to 10.0.1.100 with the text "hi": what comes, and what leaves.
//! A flow's number is added to the end of its address, and so taken from the checksums over it, without a carry (RFC 1624).

use std::alloc::Global;
use std::test::Fail;

/// How many packets there are: four of each flow.
pub const PACKETS: u32 = 400;

/// The greatest number of a flow; the first is 1.
pub const FLOWS: u32 = 100;

/// The frame of a flow with the number 0.
const SENT: &str = concat!(
    "020000000099",
    "020000000001",
    "0800", // Ethernet
    "4500001e",
    "00004000",
    "401125cb",
    "0a000005",
    "0a000100", // IPv4, checksum at byte 24, destination's end at byte 32
    "04d20035",
    "000a7d65",
    "6869", // UDP, checksum at byte 40
);

/// The same as it leaves, from 192.0.2.7:40000 under one encapsulation.
const LEFT: &str = concat!(
    "020000000a02",
    "020000000a01",
    "0800",
    "45000050",
    "00004000",
    "4011e279",
    "ac100001",
    "ac100002", // Ethernet and IPv4 from 172.16.0.1 to 172.16.0.2
    "f62712b5",
    "003c0000",
    "08000000",
    "00138900", // UDP, source port at byte 34, and VXLAN of VNI 5001
    "020000000099",
    "020000000001",
    "0800",
    "4500001e",
    "00004000",
    "40116dc8",
    "c0000207",
    "0a000100", // IPv4, checksum at byte 74, destination's end at byte 82
    "9c400035",
    "000a2df4",
    "6869", // UDP, checksum at byte 90
);

/// The flow of a packet. Flows take turns.
pub fn flow_of(packet: u32) -> u16 {
    (packet % FLOWS) as u16 + 1
}

/// The worker of a flow: its frame's words have the sum 0x26b7 and the flow's number.
pub fn worker_of(flow: u16, workers: u32) -> u32 {
    if workers == 0 {
        return 0;
    }
    0x26b7u32.wrapping_add(u32::from(flow)) % workers
}

fn put_byte(bytes: &mut [u8], at: usize, byte: u8) {
    if let Some(place) = bytes.get_mut(at) {
        *place = byte;
    }
}

/// Writes a number at two bytes, the first one highest.
fn put(bytes: &mut [u8], at: usize, number: u16) {
    let [high, low] = number.to_be_bytes();
    put_byte(bytes, at, high);
    put_byte(bytes, at.wrapping_add(1), low);
}

/// The frame of a flow.
pub fn sent(alloc: Global, flow: u16) -> Result<Vec<u8>, Fail> {
    let mut bytes = hex::decode(alloc, SENT.as_bytes())?;
    put(&mut bytes, 24, 0x25cbu16.wrapping_sub(flow));
    put(&mut bytes, 32, 0x0100u16.wrapping_add(flow));
    put(&mut bytes, 40, 0x7d65u16.wrapping_sub(flow));
    Ok(bytes)
}

/// The same as it leaves.
pub fn left(alloc: Global, flow: u16) -> Result<Vec<u8>, Fail> {
    let mut bytes = hex::decode(alloc, LEFT.as_bytes())?;
    put(&mut bytes, 34, 0xf627u16.wrapping_add(flow));
    put(&mut bytes, 74, 0x6dc8u16.wrapping_sub(flow));
    put(&mut bytes, 82, 0x0100u16.wrapping_add(flow));
    put(&mut bytes, 90, 0x2df4u16.wrapping_sub(flow));
    Ok(bytes)
}
