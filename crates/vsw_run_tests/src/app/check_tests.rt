//! Checks of reports.

use crate::app::running::{
    Ending, Files, HEAD, POLICY, QUERY, QUERY_LINE, RECORD, REPORT, ROUND, TRACE, Wrong, check,
    host_of_claim,
};
use crate::memory::HEADER;
use std::alloc::Global;
use std::sync::Wait;
use std::thread::Threads;
use std::time::Clock;
use vsw_run::Status;

const CHECK: &[&str] = &["vsw", "check", "policy", "commands", "trace", "report"];

const LEGAL: Ending<'static> = (Status::Done, &[b"legal\n"], b"");

const ILLEGAL: Ending<'static> = (Status::Illegal, &[b"illegal\n"], b"");

/// Checks this report of a run over these files, with these calls failing.
fn check_claim<R: Threads + Wait + Clock + Sync>(
    rt: &R,
    alloc: Global,
    files: &Files<'_>,
    report: &[&[u8]],
    failing: &[u64],
    wanted: Ending<'_>,
) -> Result<(), Wrong> {
    match host_of_claim(alloc, files, report, failing) {
        Ok(mut host) => check(rt, alloc, &mut host, CHECK, wanted),
        Err(wrong) => Err(wrong),
    }
}

/// Checks this report of a run over this trace, under the rule that allows.
fn check_report<R: Threads + Wait + Clock + Sync>(
    rt: &R,
    alloc: Global,
    trace: &[&[u8]],
    report: &[&[u8]],
    wanted: Ending<'_>,
) -> Result<(), Wrong> {
    let files = Files {
        policy: POLICY,
        commands: b"",
        trace,
    };
    check_claim(rt, alloc, &files, report, &[], wanted)
}

#[test]
fn the_report_of_a_run_is_legal(rt: HostRuntime) -> Result<(), Wrong> {
    check_report(&rt, rt.alloc(), TRACE, REPORT, LEGAL)
}

/// The query's line with another last digit.
const OTHER_DIGIT: &[u8] =
    b"w0 0 @0 pass 44 02000000009902000000000108004500001e00004000401126c20a0000050a00000904d20035000a7e5c6868\n";

/// The query's line, told of another worker, as an entry of a history, and as a packet that was dropped.
const OTHER_WORKER: &[u8] =
    b"w1 0 @0 pass 44 02000000009902000000000108004500001e00004000401126c20a0000050a00000904d20035000a7e5c6869\n";

const ENTRY: &[u8] =
    b"w0 0 +0 pass 44 02000000009902000000000108004500001e00004000401126c20a0000050a00000904d20035000a7e5c6869\n";

/// Reports of the query that are none of its run.
const OTHERS: [&[&[u8]]; 7] = [
    &[HEAD, ROUND, OTHER_DIGIT, b"loose\n"],
    &[HEAD, ROUND, OTHER_WORKER, b"loose\n"],
    &[HEAD, b"round 0\nport 1 0 1\n", ENTRY, b"loose\n"],
    &[HEAD, ROUND, b"w0 0 @0 drop rule 1/10/1/5\nloose\n"],
    &[HEAD, ROUND, b"loose\n"],
    &[HEAD, ROUND, QUERY_LINE, b"loose\n0 snapped\n"],
    &[HEAD],
];

#[test]
fn a_report_that_is_none_of_the_run_is_illegal(rt: HostRuntime) -> Result<(), Wrong> {
    for (place, report) in OTHERS.iter().enumerate() {
        if check_report(&rt, rt.alloc(), TRACE, report, ILLEGAL).is_err() {
            return Err(Wrong::Run(place));
        }
    }
    Ok(())
}

/// Bytes that are no report, and what is said of them.
const NO_REPORTS: [(&[&[u8]], &[u8]); 4] = [
    (&[HEAD, ROUND, QUERY_LINE], b"vsw: refused report 5\n"),
    (&[b""], b"vsw: refused report 1\n"),
    (&[b"vsw report 2\n"], b"vsw: refused report 1\n"),
    (
        &[HEAD, ROUND, b"w0 0 @1 drop long\nloose\n"],
        b"vsw: refused report 4\n",
    ),
];

#[test]
fn what_is_no_report_is_refused_by_its_line(rt: HostRuntime) -> Result<(), Wrong> {
    for (place, (report, complaint)) in NO_REPORTS.iter().enumerate() {
        let wanted = (Status::Refused, [].as_slice(), *complaint);
        if check_report(&rt, rt.alloc(), TRACE, report, wanted).is_err() {
            return Err(Wrong::Run(place));
        }
    }
    Ok(())
}

#[test]
fn a_cut_trace_is_refused_before_the_report(rt: HostRuntime) -> Result<(), Wrong> {
    let trace: &[&[u8]] = &[HEADER, RECORD, QUERY, b"123"];
    let complaint = b"vsw: refused trace Cut 84\n".as_slice();
    let wanted = (Status::Refused, [].as_slice(), complaint);
    check_report(&rt, rt.alloc(), trace, &[b"no report"], wanted)
}

#[test]
fn bad_commands_are_refused_before_the_trace(rt: HostRuntime) -> Result<(), Wrong> {
    let files = Files {
        policy: POLICY,
        commands: b"{}",
        trace: &[b"no capture"],
    };
    let complaint = b"vsw: refused commands 1 Shape /\n".as_slice();
    let wanted = (Status::Refused, [].as_slice(), complaint);
    check_claim(&rt, rt.alloc(), &files, REPORT, &[], wanted)
}

/// Calls that fail, and how the check ends: 6 to 8 open and read the trace, 9 to 11 the report, and 12 puts.
const FAULTS: [(u64, Status, &[u8]); 7] = [
    (1, Status::ReadFault, b"vsw: read fault\n"),
    (6, Status::ReadFault, b"vsw: read fault\n"),
    (8, Status::ReadFault, b"vsw: read fault\n"),
    (9, Status::ReadFault, b"vsw: read fault\n"),
    (10, Status::ReadFault, b"vsw: read fault\n"),
    (11, Status::ReadFault, b"vsw: read fault\n"),
    (12, Status::WriteFault, b"vsw: write fault\n"),
];

#[test]
fn a_fault_ends_a_check_without_an_answer(rt: HostRuntime) -> Result<(), Wrong> {
    let files = Files {
        policy: POLICY,
        commands: b"",
        trace: TRACE,
    };
    for (call, status, complaint) in FAULTS {
        let wanted = (status, [].as_slice(), complaint);
        if check_claim(&rt, rt.alloc(), &files, REPORT, &[call], wanted).is_err() {
            return Err(Wrong::Call(call));
        }
    }
    Ok(())
}
