//! What is put, on outside values.

use crate::app::running::{
    ALLOW, DROP, FAR, Files, HEAD, POLICY, POLICY_END, POLICY_START, QUERY, QUERY_LINE, RECORD,
    REPORT, ROUND, TRACE, Wrong, add, check_files, check_trace,
};
use crate::memory::HEADER;
use std::alloc::{AllocError, Global};
use std::sync::Wait;
use std::thread::Threads;
use std::time::Clock;
use vsw_run::Status;

/// A trace of one packet, and its report: the lines of port 1, and the loose lines.
fn check_packet<'a, R: Threads + Wait + Clock + Sync>(
    rt: &R,
    alloc: Global,
    policy: &'a [&'a [u8]],
    trace: &'a [&'a [u8]],
    lines: &[u8],
) -> Result<(), Wrong> {
    let files = Files {
        policy,
        commands: b"",
        trace,
    };
    let report: &[&[u8]] = &[b"vsw report 1\nround 0\nport 1 0 0\n", lines, b"loose\n"];
    check_files(rt, alloc, &files, &[], (Status::Done, report, b""))
}

#[test]
fn a_packet_passes_by_its_rule(rt: HostRuntime) -> Result<(), Wrong> {
    check_packet(&rt, rt.alloc(), POLICY, TRACE, QUERY_LINE)
}

#[test]
fn a_packet_outside_the_rule_meets_the_default(rt: HostRuntime) -> Result<(), Wrong> {
    let line = b"w0 0 @0 drop default 1/10 out\n";
    let trace: &[&[u8]] = &[HEADER, RECORD, FAR];
    check_packet(&rt, rt.alloc(), POLICY, trace, line)
}

#[test]
fn the_first_of_two_rules_of_one_priority_decides(rt: HostRuntime) -> Result<(), Wrong> {
    let allows: &[&[u8]] = &[POLICY_START, ALLOW, b",", DROP, POLICY_END];
    check_packet(&rt, rt.alloc(), allows, TRACE, QUERY_LINE)?;
    let line = b"w0 0 @0 drop rule 1/10/1/6\n";
    let drops: &[&[u8]] = &[POLICY_START, DROP, b",", ALLOW, POLICY_END];
    check_packet(&rt, rt.alloc(), drops, TRACE, line)
}

#[test]
fn a_trace_of_a_header_alone_has_one_round(rt: HostRuntime) -> Result<(), Wrong> {
    let report: &[&[u8]] = &[HEAD, ROUND, b"loose\n"];
    check_trace(&rt, rt.alloc(), &[HEADER], &[], (Status::Done, report, b""))
}

#[test]
fn loose_packets_have_their_lines(rt: HostRuntime) -> Result<(), Wrong> {
    let snapped = b"\x00\x00\x00\x00\x00\x00\x00\x00\x28\x00\x00\x00\x2c\x00\x00\x00";
    let trace: &[&[u8]] = &[HEADER, snapped, &QUERY[..40], RECORD, QUERY];
    let lines =
        b"w0 1 @0 pass 44 02000000009902000000000108004500001e00004000401126c20a0000050a00000904d20035000a7e5c6869\nloose\n0 snapped\n";
    let report: &[&[u8]] = &[HEAD, ROUND, lines];
    check_trace(&rt, rt.alloc(), trace, &[], (Status::Done, report, b""))
}

/// The query with one byte changed.
fn changed(alloc: Global, at: usize, value: u8) -> Result<Vec<u8>, AllocError> {
    let mut packet = QUERY.to_vec(alloc)?;
    if at < packet.len() {
        packet[at] = value;
    }
    Ok(packet)
}

/// The trace of six malformed packets, and of one with bytes after its IPv4 packet.
fn malformed(alloc: Global) -> Result<Vec<u8>, AllocError> {
    let mut trace = HEADER.to_vec(alloc)?;
    add(&mut trace, &QUERY[..13])?;
    for (at, value) in [(14, 0x44), (17, 31), (14, 0x65), (39, 7), (23, 6)] {
        let packet = changed(alloc, at, value)?;
        add(&mut trace, &packet)?;
    }
    let mut padded = QUERY.to_vec(alloc)?;
    padded.extend_from_slice(&[0; 16])?;
    add(&mut trace, &padded)?;
    Ok(trace)
}

#[test]
fn malformed_packets_are_named_and_bytes_after_a_packet_pass(rt: HostRuntime) -> Result<(), Wrong> {
    let Ok(trace) = malformed(rt.alloc()) else {
        return Err(Wrong::Start);
    };
    let lines =
        b"w0 6 @0 pass 60 02000000009902000000000108004500001e00004000401126c20a0000050a00000904d20035000a7e5c686900000000000000000000000000000000\n";
    let loose =
        b"loose\n0 malformed 1 ShortEther\n1 malformed 4 IpLength\n2 malformed 4 IpLength\n3 malformed 3 IpVersion\n4 malformed 8 UdpLength\n5 malformed 5 ShortTcp\n";
    let report: &[&[u8]] = &[HEAD, ROUND, lines, loose];
    check_trace(&rt, rt.alloc(), &[&trace], &[], (Status::Done, report, b""))
}

#[test]
fn a_capture_of_the_other_order_and_unit_is_read(rt: HostRuntime) -> Result<(), Wrong> {
    let header =
        b"\xa1\xb2\x3c\x4d\x00\x02\x00\x04\x00\x00\x00\x00\x00\x00\x00\x00\x00\x04\x00\x00\x00\x00\x00\x01";
    let record = b"\x00\x00\x00\x00\x00\x00\x00\x00\x00\x00\x00\x2c\x00\x00\x00\x2c";
    let trace: &[&[u8]] = &[header, record, QUERY];
    check_trace(&rt, rt.alloc(), trace, &[], (Status::Done, REPORT, b""))
}

/// Appends pieces, of which the middle one is a number.
fn put(
    alloc: Global,
    report: &mut Vec<u8>,
    before: &[u8],
    number: u32,
    after: &[u8],
) -> Result<(), AllocError> {
    report.extend_from_slice(before)?;
    report.extend_from_slice(number.to_string(alloc)?.as_bytes())?;
    report.extend_from_slice(after)
}

/// Appends the packets from this one up to below that one, and the round of them.
fn add_round(
    alloc: Global,
    trace: &mut Vec<u8>,
    report: &mut Vec<u8>,
    first: u32,
    end: u32,
) -> Result<(), AllocError> {
    let line = b" @0 drop default 1/10 out\n";
    put(alloc, report, b"round ", first, b"\nport 1 0 0\n")?;
    for packet in first..end {
        add(trace, FAR)?;
        put(alloc, report, b"w0 ", packet, line)?;
    }
    report.extend_from_slice(b"loose\n")
}

fn add_rounds(alloc: Global, trace: &mut Vec<u8>, report: &mut Vec<u8>) -> Result<(), AllocError> {
    for first in [0_u32, 1_024, 2_048] {
        let end = 2_050.min(first.saturating_add(1_024));
        add_round(alloc, trace, report, first, end)?;
    }
    Ok(())
}

#[test]
fn many_packets_stand_in_rounds_of_1024(rt: HostRuntime) -> Result<(), Wrong> {
    let alloc = rt.alloc();
    let (Ok(mut trace), Ok(mut report)) = (HEADER.to_vec(alloc), HEAD.to_vec(alloc)) else {
        return Err(Wrong::Start);
    };
    match add_rounds(alloc, &mut trace, &mut report) {
        Ok(()) => check_trace(&rt, alloc, &[&trace], &[], (Status::Done, &[&report], b"")),
        Err(_) => Err(Wrong::Start),
    }
}
