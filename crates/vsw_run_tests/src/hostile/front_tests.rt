//! Files that end too early.

use crate::hostile::files::{
    COMMANDS, Ending, FORWARD_BY_FOUR, FRAMES, REMOVE, STREAM_BY_FOUR, SWEEP, Small, WrongAt, ends,
};
use crate::memory::{FORWARD, STREAM, text_of};
use crate::whole::frames::{QUERY, REPLY, SENT_QUERY, SENT_REPLY};
use crate::whole::policies::{ALLOWING, END, LAYER, LAYER_END, PORT};
use std::alloc::Global;
use std::sync::Wait;
use std::thread::Threads;
use std::time::Clock;
use vsw_run::Status;

/// What a run over no packet, one packet, and the packet with its reply puts, with both commands.
const NO_PACKET: &[&str] = &[
    "vsw report 1\nround 0\nport 1 0 0\nloose\nround 1\nport 1 0 2\nc1 1 +0 ok\nc2 2 +1 refused 3 NoGroup\nloose\n",
];

const ONE_PACKET: &[&str] = &[
    "vsw report 1\nround 0\nport 1 0 1\nw0 0 +0 pass 94 ",
    SENT_QUERY,
    "\nloose\nround 1\nport 1 1 3\nc1 1 +1 ok\nc2 2 +2 refused 3 NoGroup\nloose\n",
];

const BOTH_PACKETS: &[&str] = &[
    "vsw report 1\nround 0\nport 1 0 1\nw0 0 +0 pass 94 ",
    SENT_QUERY,
    "\nloose\nround 1\nport 1 1 3\nc1 1 +1 ok\nc2 2 +2 refused 3 NoGroup\nw0 1 @3 pass 44 ",
    REPLY,
    "\nloose\n",
];

/// What stands of it where the second record is cut: its round doesn't begin.
const FIRST_ROUND: &[&str] = &[
    "vsw report 1\nround 0\nport 1 0 1\nw0 0 +0 pass 94 ",
    SENT_QUERY,
    "\nloose\n",
];

/// How a run ends over so many bytes of a trace of the query and its reply, which has 194: the header has 24, and the first record ends at 84.
fn ending_of_trace(len: usize) -> Ending {
    match len {
        0..=23 => (Status::Refused, &[], "vsw: refused trace NotPcap\n"),
        24 => (Status::Done, NO_PACKET, ""),
        25..=83 => (
            Status::Refused,
            &["vsw report 1\n"],
            "vsw: refused trace Cut 24\n",
        ),
        84 => (Status::Done, ONE_PACKET, ""),
        85..=193 => (Status::Refused, FIRST_ROUND, "vsw: refused trace Cut 84\n"),
        _ => (Status::Done, BOTH_PACKETS, ""),
    }
}

/// Whether a run over so many bytes of the trace ends as it must.
fn ends_there<R: Threads + Wait + Clock + Sync>(
    rt: &R,
    alloc: Global,
    small: &mut Small,
    words: &[&str],
    len: usize,
) -> bool {
    small.trace.truncate(len);
    let host = small.host(alloc, &[]);
    ends(rt, alloc, words, host, ending_of_trace(len))
}

/// Runs by one worker over each front of the trace, the longest first.
fn check_traces<R: Threads + Wait + Clock + Sync>(
    rt: &R,
    alloc: Global,
    small: &mut Small,
) -> Result<(), WrongAt> {
    for cut in 0..=194 {
        for words in [FORWARD, STREAM] {
            if !ends_there(rt, alloc, small, words, 194 - cut) {
                return Err(WrongAt::Place(194 - cut));
            }
        }
    }
    Ok(())
}

#[test]
fn each_front_of_a_trace_ends_where_its_records_do(rt: HostRuntime) -> Result<(), WrongAt> {
    match Small::of(rt.alloc(), COMMANDS, &[QUERY, SENT_REPLY]) {
        Some(mut small) => check_traces(&rt, rt.alloc(), &mut small),
        None => Err(WrongAt::Start),
    }
}

/// Runs by four workers over the trace up to where its endings change, and a byte before and behind.
fn check_ends<R: Threads + Wait + Clock + Sync>(
    rt: &R,
    alloc: Global,
    small: &mut Small,
) -> Result<(), WrongAt> {
    for len in [194, 193, 85, 84, 83, 25, 24, 23, 0] {
        for words in [FORWARD_BY_FOUR, STREAM_BY_FOUR] {
            if !ends_there(rt, alloc, small, words, len) {
                return Err(WrongAt::Place(len));
            }
        }
    }
    Ok(())
}

#[test]
fn the_same_ends_are_met_by_four_workers(rt: HostRuntime) -> Result<(), WrongAt> {
    match Small::of(rt.alloc(), COMMANDS, &[QUERY, SENT_REPLY]) {
        Some(mut small) => check_ends(&rt, rt.alloc(), &mut small),
        None => Err(WrongAt::Start),
    }
}

/// A policy of one layer.
const ONE_LAYER: &[&str] = &[PORT, LAYER, ALLOWING, LAYER_END, END];

/// Runs over each front of the policy but the whole, the longest first.
fn check_policies<R: Threads + Wait + Clock + Sync>(
    rt: &R,
    alloc: Global,
    small: &mut Small,
) -> Result<(), WrongAt> {
    let refused: Ending = (Status::Refused, &[], "vsw: refused policy Json /\n");
    for _ in 0..small.policy.len() {
        small.policy.pop();
        let host = small.host(alloc, &[]);
        if !ends(rt, alloc, FORWARD, host, refused) {
            return Err(WrongAt::Place(small.policy.len()));
        }
    }
    Ok(())
}

#[test]
fn no_front_of_a_policy_is_one(rt: HostRuntime) -> Result<(), WrongAt> {
    let alloc = rt.alloc();
    match (
        Small::of(alloc, COMMANDS, FRAMES),
        text_of(alloc, ONE_LAYER),
    ) {
        (Some(mut small), Ok(policy)) => {
            small.policy = policy;
            check_policies(&rt, alloc, &mut small)
        }
        _ => Err(WrongAt::Start),
    }
}

/// What a run with the first command alone puts, and one with none.
const ONE_COMMAND: &[&str] = &[
    "vsw report 1\nround 0\nport 1 0 1\nw0 0 +0 pass 94 ",
    SENT_QUERY,
    "\nloose\nround 1\nport 1 1 2\nc1 1 +1 ok\nw0 1 @2 pass 44 ",
    REPLY,
    "\nloose\n",
];

const NO_COMMAND: &[&str] = &[
    "vsw report 1\nround 0\nport 1 0 1\nw0 0 +0 pass 94 ",
    SENT_QUERY,
    "\nw0 1 @1 pass 44 ",
    REPLY,
    "\nloose\n",
];

/// How a run ends over so many bytes of the commands: the line feed of a line may be wanting.
fn ending_of_commands(len: usize) -> Ending {
    let first = SWEEP.len();
    let end = first.saturating_add(REMOVE.len());
    if len == 0 {
        (Status::Done, NO_COMMAND, "")
    } else if len < first.saturating_sub(1) {
        (Status::Refused, &[], "vsw: refused commands 1 Json /\n")
    } else if len <= first {
        (Status::Done, ONE_COMMAND, "")
    } else if len < end.saturating_sub(1) {
        (Status::Refused, &[], "vsw: refused commands 2 Json /\n")
    } else {
        (Status::Done, BOTH_PACKETS, "")
    }
}

/// Runs over each front of the commands, the longest first.
fn check_commands<R: Threads + Wait + Clock + Sync>(
    rt: &R,
    alloc: Global,
    small: &mut Small,
) -> Result<(), WrongAt> {
    for _ in 0..=small.commands.len() {
        let host = small.host(alloc, &[]);
        if !ends(
            rt,
            alloc,
            FORWARD,
            host,
            ending_of_commands(small.commands.len()),
        ) {
            return Err(WrongAt::Place(small.commands.len()));
        }
        small.commands.pop();
    }
    Ok(())
}

#[test]
fn each_front_of_the_commands_has_its_lines(rt: HostRuntime) -> Result<(), WrongAt> {
    match Small::of(rt.alloc(), COMMANDS, &[QUERY, SENT_REPLY]) {
        Some(mut small) => check_commands(&rt, rt.alloc(), &mut small),
        None => Err(WrongAt::Start),
    }
}
