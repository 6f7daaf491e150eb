//! Packets that are handed over to one of four workers.

use std::alloc::Global;
use vsw_actors::{Given, deal_picks, hand_over};
use vsw_base::{Mac, Moment};
use vsw_frame::{FrameRoom, read_frame};
use vsw_header::spread;
use vsw_pcap::{Batch, Captured};
use vsw_report::Loose;

/// UDP from 10.0.0.5, port 1234, to 10.0.0.9, port 53.
const QUERY: &[u8] = b"\x02\x00\x00\x00\x00\x99\x02\x00\x00\x00\x00\x01\x08\x00\
\x45\x00\x00\x1e\x00\x00\x40\x00\x40\x11\x26\xc2\x0a\x00\x00\x05\x0a\x00\x00\x09\
\x04\xd2\x00\x35\x00\x0a\x7e\x5c\x68\x69";

/// The worker that the flow sum of a frame gives.
fn worker_of(bytes: &[u8]) -> Option<u32> {
    let mut headers = FrameRoom::new();
    let frame = read_frame(bytes, &mut headers).ok()?;
    Some(spread(frame.stack(), 4))
}

/// Hands a packet of 44 bytes over, of which these were captured, as the fourth of its batch. The first of that has the number 1000.
fn hand(alloc: Global, bytes: &[u8], loose: &mut Vec<Loose>) -> Option<Option<Given>> {
    let macs = [Mac::of(0x0200_0000_0001), Mac::of(0x0200_0000_0002)];
    let none = Batch::new(alloc);
    let mut picks = deal_picks(alloc, 4, &macs, 0, &none, loose).ok()?;
    let captured = Captured {
        moment: Moment::of(30),
        original: 44,
        bytes,
    };
    hand_over(alloc, &mut picks, 4, &macs, 1000, 3, &captured, loose).ok()
}

/// Whether it is for the worker that the flow sum gives, and has these bytes.
fn is_whole(given: &Given, bytes: &[u8]) -> bool {
    worker_of(bytes) == Some(given.worker) && given.packet.bytes.as_slice() == bytes
}

/// The number, the port and the moment of what is handed over of the query, if it is whole.
fn query_told(alloc: Global) -> Option<(u32, u32, u64)> {
    let mut loose = Vec::new(alloc);
    let given = hand(alloc, QUERY, &mut loose)??;
    if !loose.is_empty() || !is_whole(&given, QUERY) {
        return None;
    }
    Some((
        given.packet.number,
        given.packet.place.port,
        given.packet.micros,
    ))
}

/// Whether nothing is handed over of a packet of which 4 bytes were captured, and the number that is told of it.
fn loose_told(alloc: Global) -> Option<(bool, u32)> {
    let mut loose = Vec::new(alloc);
    let given = hand(alloc, &QUERY[..4], &mut loose)?;
    Some((given.is_none(), loose.first()?.packet))
}

#[test]
fn a_frame_is_handed_over_to_the_worker_of_its_flow(rt: HostRuntime) {
    assert_eq!(rt; query_told(rt.alloc()), Some((1003, 0, 30)));
}

#[test]
fn a_loose_packet_is_told_and_not_handed_over(rt: HostRuntime) {
    assert_eq!(rt; loose_told(rt.alloc()), Some((true, 1003)));
}
