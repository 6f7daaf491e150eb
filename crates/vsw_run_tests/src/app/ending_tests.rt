//! How runs end.

use crate::app::running::{
    Files, HEAD, POLICY, QUERY, RECORD, REPORT, ROOM, TRACE, Wrong, check, check_files,
    check_trace, host_of,
};
use crate::memory::HEADER;
use std::alloc::{AllocError, Global};
use std::sync::Wait;
use std::thread::Threads;
use std::time::Clock;
use vsw_run::Status;

#[test]
fn a_cut_record_ends_the_run_after_the_packets_before_it(rt: HostRuntime) -> Result<(), Wrong> {
    let complaint = b"vsw: refused trace Cut 84\n".as_slice();
    let trace: &[&[u8]] = &[HEADER, RECORD, QUERY, b"123"];
    let wanted = (Status::Refused, REPORT, complaint);
    check_trace(&rt, rt.alloc(), trace, &[], wanted)
}

#[test]
fn a_bad_header_puts_nothing(rt: HostRuntime) -> Result<(), Wrong> {
    let wanted = (
        Status::Refused,
        [].as_slice(),
        b"vsw: refused trace NotPcap\n".as_slice(),
    );
    check_trace(&rt, rt.alloc(), &[b"no capture"], &[], wanted)
}

/// Calls that fail, and how the run ends.
///
/// Calls 1 to 3 open and read the policy; 4 and 5 the commands; 6 to 8 the trace; 9 and 10 put.
const FAULTS: [(u64, Status, &[&[u8]], &[u8]); 4] = [
    (6, Status::ReadFault, &[], b"vsw: read fault\n"),
    (8, Status::ReadFault, REPORT, b"vsw: read fault\n"),
    (9, Status::WriteFault, &[], b"vsw: write fault\n"),
    (10, Status::WriteFault, &[HEAD], b"vsw: write fault\n"),
];

#[test]
fn a_fault_is_named_and_what_was_put_stays(rt: HostRuntime) -> Result<(), Wrong> {
    for (call, status, report, complaint) in FAULTS {
        let wanted = (status, report, complaint);
        if check_trace(&rt, rt.alloc(), TRACE, &[call], wanted).is_err() {
            return Err(Wrong::Call(call));
        }
    }
    Ok(())
}

/// Runs over commands that end the run before the trace is opened, which is no capture.
fn check_commands<R: Threads + Wait + Clock + Sync>(
    rt: &R,
    alloc: Global,
    commands: &[u8],
    status: Status,
    complaint: &[u8],
) -> Result<(), Wrong> {
    let files = Files {
        policy: POLICY,
        commands,
        trace: &[b"no capture"],
    };
    check_files(rt, alloc, &files, &[], (status, &[], complaint))
}

#[test]
fn commands_are_refused_by_line_kind_and_place(rt: HostRuntime) -> Result<(), Wrong> {
    let alloc = rt.alloc();
    let nobody =
        b"\n{\"at\":0,\"when\":\"before\",\"controller\":9,\"port\":1,\"do\":\"remove_layer\",\"layer\":10}\n";
    let unknown = b"vsw: refused commands 2 Unknown /controller\n";
    check_commands(&rt, alloc, nobody, Status::Refused, unknown)?;
    let shape = b"vsw: refused commands 1 Shape /\n";
    check_commands(&rt, alloc, b"{}", Status::Refused, shape)
}

/// So many line feeds.
fn feeds(alloc: Global, count: usize) -> Result<Vec<u8>, AllocError> {
    vec![in alloc; b'\n'; count]
}

/// Runs over commands of so many line feeds.
fn check_feeds<R: Threads + Wait + Clock + Sync>(
    rt: &R,
    alloc: Global,
    count: usize,
    status: Status,
    complaint: &[u8],
) -> Result<(), Wrong> {
    match feeds(alloc, count) {
        Ok(feeds) => check_commands(rt, alloc, &feeds, status, complaint),
        Err(_) => Err(Wrong::Start),
    }
}

#[test]
fn a_line_more_than_may_be_passes_the_limit(rt: HostRuntime) -> Result<(), Wrong> {
    let limit = b"vsw: limit lines\n";
    check_feeds(&rt, rt.alloc(), 65_537, Status::Limit, limit)?;
    let refused = b"vsw: refused trace NotPcap\n";
    check_feeds(&rt, rt.alloc(), 65_536, Status::Refused, refused)
}

const BAD_WORDS: [&[&str]; 6] = [
    &[],
    &["vsw", "forward", "policy", "commands"],
    &["vsw", "forward", "policy", "commands", "trace", "more"],
    &["vsw", "replay", "policy", "commands", "trace"],
    &["vsw", "forward", "", "commands", "trace"],
    &["vsw", "forward", "policy", "--commands", "trace"],
];

/// Runs over words that are refused.
fn check_usage<R: Threads + Wait + Clock + Sync>(
    rt: &R,
    alloc: Global,
    words: &[&str],
) -> Result<(), Wrong> {
    let files = Files {
        policy: POLICY,
        commands: b"",
        trace: &[HEADER],
    };
    match host_of(alloc, &files, ROOM, &[]) {
        Ok(mut host) => {
            let wanted = (Status::Usage, [].as_slice(), b"vsw: usage\n".as_slice());
            check(rt, alloc, &mut host, words, wanted)
        }
        Err(wrong) => Err(wrong),
    }
}

#[test]
fn words_outside_the_grammar_are_refused(rt: HostRuntime) -> Result<(), Wrong> {
    for place in 0..BAD_WORDS.len() {
        if check_usage(&rt, rt.alloc(), BAD_WORDS[place]).is_err() {
            return Err(Wrong::Run(place));
        }
    }
    Ok(())
}
