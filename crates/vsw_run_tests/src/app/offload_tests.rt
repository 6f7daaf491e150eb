//! Rows that a run leaves.

use crate::app::rows::{ENGINE, HEAD, QUERY_LINE, ROWS};
use crate::app::running::{
    Ending, Files, POLICY, QUERY, RECORD, ROOM, TRACE, Wrong, check, host_of, host_of_rows,
};
use crate::memory::{HEADER, words_of};
use std::alloc::Global;
use std::sync::Wait;
use std::thread::Threads;
use std::time::Clock;
use vsw_app::{Open, run_words};
use vsw_host::MemoryHost;
use vsw_run::Status;

const OFFLOAD: &[&str] = &["vsw", "offload", "policy", "commands", "trace"];

/// The files of a run over a trace of these pieces.
fn files_of<'a>(trace: &'a [&'a [u8]]) -> Files<'a> {
    Files {
        policy: POLICY,
        commands: b"",
        trace,
    }
}

/// Runs over a trace of these pieces, with these calls failing.
fn export<R: Threads + Wait + Clock + Sync>(
    rt: &R,
    alloc: Global,
    trace: &[&[u8]],
    failing: &[u64],
    wanted: Ending<'_>,
) -> Result<(), Wrong> {
    match host_of(alloc, &files_of(trace), ROOM, failing) {
        Ok(mut host) => check(rt, alloc, &mut host, OFFLOAD, wanted),
        Err(wrong) => Err(wrong),
    }
}

#[test]
fn a_packet_leaves_its_row(rt: HostRuntime) -> Result<(), Wrong> {
    let wanted = (Status::Done, ROWS, b"".as_slice());
    export(&rt, rt.alloc(), TRACE, &[], wanted)
}

/// The host behind a run that left its rows.
fn exported<R: Threads + Wait + Clock + Sync>(
    rt: &R,
    alloc: Global,
    mut host: MemoryHost,
) -> Result<MemoryHost, Wrong> {
    match words_of(alloc, OFFLOAD) {
        Ok(words) => match run_words(rt, alloc, &words, &mut host, &Open) {
            Status::Done => Ok(host),
            status => Err(Wrong::Status(status)),
        },
        Err(_) => Err(Wrong::Start),
    }
}

/// Answers the query from what a host put.
fn answer_by<R: Threads + Wait + Clock + Sync>(
    rt: &R,
    alloc: Global,
    left: &MemoryHost,
) -> Result<(), Wrong> {
    match host_of_rows(alloc, &[left.written()], TRACE, &[]) {
        Ok(mut host) => {
            let wanted = (Status::Done, [HEAD, QUERY_LINE].as_slice(), b"".as_slice());
            check(rt, alloc, &mut host, ENGINE, wanted)
        }
        Err(wrong) => Err(wrong),
    }
}

/// Answers the query from the rows that a run over it leaves.
fn answer_again<R: Threads + Wait + Clock + Sync>(
    rt: &R,
    alloc: Global,
    host: MemoryHost,
) -> Result<(), Wrong> {
    match exported(rt, alloc, host) {
        Ok(left) => answer_by(rt, alloc, &left),
        Err(wrong) => Err(wrong),
    }
}

#[test]
fn rows_that_a_run_left_answer_its_packets(rt: HostRuntime) -> Result<(), Wrong> {
    match host_of(rt.alloc(), &files_of(TRACE), ROOM, &[]) {
        Ok(host) => answer_again(&rt, rt.alloc(), host),
        Err(wrong) => Err(wrong),
    }
}

/// A rows file of the port without rows, and of no entries.
const NO_ROWS: &[u8] = b"VSWROWS1\x01\0\0\0\x01\0\0\0\x02\0\0\0\0\x01\0\0\0\0\0\0\0\0";

/// Traces, with what is put of each, how it ends, and what is complained: rows are put only behind a whole trace.
const TRACES: [(&[&[u8]], &[&[u8]], Status, &[u8]); 6] = [
    (&[HEADER], &[NO_ROWS], Status::Done, b""),
    (
        &[HEADER, RECORD, QUERY, RECORD, QUERY],
        ROWS,
        Status::Done,
        b"",
    ),
    (
        &[b"no capture"],
        &[],
        Status::Refused,
        b"vsw: refused trace NotPcap\n",
    ),
    (
        &[HEADER, b"123"],
        &[],
        Status::Refused,
        b"vsw: refused trace Cut 24\n",
    ),
    (
        &[HEADER, RECORD, QUERY, b"123"],
        &[],
        Status::Refused,
        b"vsw: refused trace Cut 84\n",
    ),
    (
        &[
            HEADER,
            RECORD,
            QUERY,
            b"\0\0\0\0\0\0\0\0\x01\0\x10\0\x01\0\x10\0",
        ],
        &[],
        Status::Refused,
        b"vsw: refused trace Huge 84\n",
    ),
];

#[test]
fn rows_are_put_behind_a_whole_trace_alone(rt: HostRuntime) -> Result<(), Wrong> {
    for (place, (trace, put, status, complaint)) in TRACES.iter().enumerate() {
        let wanted = (*status, *put, *complaint);
        if export(&rt, rt.alloc(), trace, &[], wanted).is_err() {
            return Err(Wrong::Run(place));
        }
    }
    Ok(())
}

/// Calls that fail, and how the run ends. Calls 1 to 3 open and read the policy; 4 and 5 the commands; 6 to 8 the trace; 9 puts.
const FAULTS: [(u64, Status, &[u8]); 7] = [
    (1, Status::ReadFault, b"vsw: read fault\n"),
    (3, Status::ReadFault, b"vsw: read fault\n"),
    (4, Status::ReadFault, b"vsw: read fault\n"),
    (5, Status::ReadFault, b"vsw: read fault\n"),
    (6, Status::ReadFault, b"vsw: read fault\n"),
    (8, Status::ReadFault, b"vsw: read fault\n"),
    (9, Status::WriteFault, b"vsw: write fault\n"),
];

#[test]
fn a_call_that_fails_leaves_no_rows(rt: HostRuntime) -> Result<(), Wrong> {
    for (call, status, complaint) in FAULTS {
        let wanted = (status, [].as_slice(), complaint);
        if export(&rt, rt.alloc(), TRACE, &[call], wanted).is_err() {
            return Err(Wrong::Call(call));
        }
    }
    Ok(())
}
