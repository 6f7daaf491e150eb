//! Long frames.

use crate::memory::{FORWARD, empty_trace};
use crate::whole::policies::THREE_LAYERS;
use crate::whole::running::{Wrong, add, end, host_of, tried};
use std::alloc::{AllocError, Global};
use std::sync::Wait;
use std::thread::Threads;
use std::time::Clock;
use vsw_host::MemoryHost;
use vsw_run::Status;

/// UDP from 10.0.0.5:1234 to 10.0.0.9:53 up to its payload, in IPv4 of 65,520 and of 65,485 bytes.
const FRONT_65520: &str =
    "02000000009902000000000108004500fff000004000401126ef0a0000050a00000904d20035ffdc0000";

const FRONT_65485: &str =
    "02000000009902000000000108004500ffcd00004000401127120a0000050a00000904d20035ffb90000";

fn zeros(alloc: Global, count: usize) -> Result<Vec<u8>, AllocError> {
    vec![in alloc; 0; count]
}

/// A packet with so many bytes of payload.
fn packet_of(alloc: Global, front: &str, payload: usize) -> Option<Vec<u8>> {
    let mut packet = hex::decode(alloc, front.as_bytes()).ok()?;
    packet.extend_from_slice(&zeros(alloc, payload).ok()?).ok()?;
    Some(packet)
}

/// A trace of this packet alone.
fn trace_of(alloc: Global, packet: &[u8]) -> Option<Vec<u8>> {
    let mut trace = empty_trace(alloc).ok()?;
    add(&mut trace, 0, packet, 0)?;
    Some(trace)
}

fn host_of_long(alloc: Global, front: &str, payload: usize) -> Option<MemoryHost> {
    let packet = packet_of(alloc, front, payload)?;
    let trace = trace_of(alloc, &packet)?;
    host_of(alloc, THREE_LAYERS, &[], trace, &[])
}

const LONG: &[&str] = &["vsw report 1\nround 0\nport 1 0 0\nw0 0 @0 drop long\nloose\n"];

#[test]
fn a_frame_too_long_for_its_new_header_is_dropped(rt: HostRuntime) -> Result<(), Wrong> {
    let host = host_of_long(rt.alloc(), FRONT_65520, 65_492);
    tried(&rt, rt.alloc(), FORWARD, host, Status::Done, LONG, "")
}

const WHOLE_START: &[u8] = b"vsw report 1\nround 0\nport 1 0 1\nw0 0 +0 pass 65549 020000000a02";

const WHOLE_END: &[u8] = b"0000\nloose\n";

/// Whether two digits a byte stand between what is before the bytes and after them.
fn is_whole(report: &[u8]) -> bool {
    report.len() == 51 + 2 * 65_549 + 7
        && report.starts_with(WHOLE_START)
        && report.ends_with(WHOLE_END)
}

fn try_whole<R: Threads + Wait + Clock + Sync>(
    rt: &R,
    alloc: Global,
    host: &mut MemoryHost,
) -> Result<(), Wrong> {
    end(rt, alloc, FORWARD, host, Status::Done, "")?;
    if is_whole(host.written()) {
        Ok(())
    } else {
        Err(Wrong::Report)
    }
}

#[test]
fn the_longest_frame_is_sent_whole(rt: HostRuntime) -> Result<(), Wrong> {
    match host_of_long(rt.alloc(), FRONT_65485, 65_457) {
        Some(mut host) => try_whole(&rt, rt.alloc(), &mut host),
        None => Err(Wrong::Start),
    }
}
