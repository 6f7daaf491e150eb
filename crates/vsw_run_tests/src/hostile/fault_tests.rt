//! Calls that fail, and reads that give few bytes.

ghost use Rattle.std.specs.Prelude.{◌<◌};

use crate::hostile::files::{
    COMMANDS, FIRST, FORWARD_BY_FOUR, FRAMES, HEAD, RUNS, STREAM_BY_FOUR, Small, WrongAt, ends,
};
use crate::memory::{FORWARD, STREAM, words_of};
use std::alloc::Global;
use std::sync::Wait;
use std::thread::Threads;
use std::time::Clock;
use vsw_app::{Open, run_words};
use vsw_host::MemoryHost;
use vsw_run::{Status, Word};

const NOTHING: &[&str] = &[];

const READ: &str = "vsw: read fault\n";

const WRITE: &str = "vsw: write fault\n";

/// A call that fails, how the run ends, what of the report is put, where it isn't all, and what is complained.
///
/// Calls 1 to 3 open and read the policy, 4 to 6 the commands; 7 and 8 open the trace and read its only piece; 9 and 10 put the head line and the
/// first round; 11 finds the trace's end, and 12 puts the second round.
const FAULTS: [(u64, Status, Option<&[&str]>, &str); 13] = [
    (1, Status::ReadFault, Some(NOTHING), READ),
    (2, Status::ReadFault, Some(NOTHING), READ),
    (3, Status::ReadFault, Some(NOTHING), READ),
    (4, Status::ReadFault, Some(NOTHING), READ),
    (5, Status::ReadFault, Some(NOTHING), READ),
    (6, Status::ReadFault, Some(NOTHING), READ),
    (7, Status::ReadFault, Some(NOTHING), READ),
    (8, Status::ReadFault, Some(NOTHING), READ),
    (9, Status::WriteFault, Some(NOTHING), WRITE),
    (10, Status::WriteFault, Some(HEAD), WRITE),
    (11, Status::ReadFault, None, READ),
    (12, Status::WriteFault, Some(FIRST), WRITE),
    (13, Status::Done, None, ""),
];

/// Lets one call after the other fail.
fn check_faults<R: Threads + Wait + Clock + Sync>(
    rt: &R,
    alloc: Global,
    small: &Small,
    words: &[&str],
    report: &'static [&'static str],
) -> Result<(), WrongAt> {
    for (call, status, put, complaint) in FAULTS {
        let host = small.host(alloc, &[call]);
        let wanted = (status, put.unwrap_or(report), complaint);
        if !ends(rt, alloc, words, host, wanted) {
            return Err(WrongAt::Call(call));
        }
    }
    Ok(())
}

#[test]
fn each_call_that_fails_ends_a_run_after_what_was_read(rt: HostRuntime) -> Result<(), WrongAt> {
    let Some(small) = Small::of(rt.alloc(), COMMANDS, FRAMES) else {
        return Err(WrongAt::Start);
    };
    for (words, report) in RUNS {
        check_faults(&rt, rt.alloc(), &small, words, report)?;
    }
    Ok(())
}

/// Whether a run whose reads give so many bytes at most puts the report.
fn reads<R: Threads + Wait + Clock + Sync>(
    rt: &R,
    alloc: Global,
    small: &Small,
    words: &[&str],
    report: &'static [&'static str],
    most: usize,
) -> bool
    requires some { 0 < most }
{
    match small.host(alloc, &[]) {
        Some(mut host) => {
            host.read_at_most(most);
            ends(rt, alloc, words, Some(host), (Status::Done, report, ""))
        }
        None => false,
    }
}

fn check_reads<R: Threads + Wait + Clock + Sync>(
    rt: &R,
    alloc: Global,
    small: &Small,
    words: &[&str],
    report: &'static [&'static str],
) -> Result<(), WrongAt> {
    for most in [1, 2, 3, 7, 61, 193, 4_096] {
        if !reads(rt, alloc, small, words, report, most) {
            return Err(WrongAt::Place(most));
        }
    }
    Ok(())
}

#[test]
fn reads_of_any_size_give_the_same_report(rt: HostRuntime) -> Result<(), WrongAt> {
    let Some(small) = Small::of(rt.alloc(), COMMANDS, FRAMES) else {
        return Err(WrongAt::Start);
    };
    for (words, report) in RUNS {
        check_reads(&rt, rt.alloc(), &small, words, report)?;
    }
    Ok(())
}

/// How a run ends whose reads give 61 bytes at most, and of whose calls this fails: its status, and the host that it leaves.
fn left<R: Threads + Wait + Clock + Sync>(
    rt: &R,
    alloc: Global,
    small: &Small,
    words: &[&str],
    call: u64,
) -> Option<(Status, MemoryHost)> {
    let words = words_of(alloc, words).ok()?;
    let mut host = small.host(alloc, &[call])?;
    host.read_at_most(61);
    let status = run_words(rt, alloc, &words, &mut host, &Open);
    Some((status, host))
}

/// Whether two runs ended alike, put the same and complained the same.
fn are_alike(one: Option<(Status, MemoryHost)>, other: Option<(Status, MemoryHost)>) -> bool {
    match (one, other) {
        (Some((status, host)), Some((same, twin))) => {
            status == same
                && host.written() == twin.written()
                && host.complained() == twin.complained()
        }
        _ => false,
    }
}

/// The policy takes some 40 calls, the commands 7 and the trace 12.
const CALLS: u64 = 80;

/// Where a call fails in the midst of a round `stream` leaves what `forward` leaves: the rounds of these files are read, run and put in the same order.
#[test]
fn a_stream_ends_as_forward_at_each_call_that_fails(rt: HostRuntime) -> Result<(), WrongAt> {
    let alloc = rt.alloc();
    let Some(small) = Small::of(alloc, COMMANDS, FRAMES) else {
        return Err(WrongAt::Start);
    };
    for call in 1..=CALLS {
        for (forward, stream) in [(FORWARD, STREAM), (FORWARD_BY_FOUR, STREAM_BY_FOUR)] {
            let wanted = left(&rt, alloc, &small, forward, call);
            if !are_alike(wanted, left(&rt, alloc, &small, stream, call)) {
                return Err(WrongAt::Call(call));
            }
        }
    }
    Ok(())
}

/// Runs over these files, and tells whether the run ends as one of a cut trace, with a front of the words that tell so.
fn ends_cut<R: Threads + Wait + Clock + Sync>(
    rt: &R,
    alloc: Global,
    words: &[Word],
    host: Option<MemoryHost>,
) -> bool {
    match host {
        Some(mut host) => {
            let status = run_words(rt, alloc, words, &mut host, &Open);
            status == Status::Refused
                && b"vsw: refused trace Cut 84\n".starts_with(host.complained())
        }
        None => false,
    }
}

/// Lets one call after the other fail, from the one on that puts the first words.
fn check_complaints<R: Threads + Wait + Clock + Sync>(
    rt: &R,
    alloc: Global,
    words: &[Word],
    small: &Small,
) -> Result<(), WrongAt> {
    for call in 12..=16 {
        if !ends_cut(rt, alloc, words, small.host(alloc, &[call])) {
            return Err(WrongAt::Call(call));
        }
    }
    Ok(())
}

#[test]
fn a_complaint_that_fails_leaves_the_status(rt: HostRuntime) -> Result<(), WrongAt> {
    let alloc = rt.alloc();
    match (words_of(alloc, FORWARD), Small::cut(alloc, 100)) {
        (Ok(words), Some(small)) => check_complaints(&rt, alloc, &words, &small),
        _ => Err(WrongAt::Start),
    }
}
