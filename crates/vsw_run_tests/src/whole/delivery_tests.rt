//! Packets that are handed on between two ports, to port 2 of the address that port 1's query goes to and back.

use crate::whole::frames::{QUERY, REPLY, SENT_FROM_40000, TO_ITSELF, TUNNELLED_QUERY};
use crate::whole::policies::{
    BETWEEN_PORTS, END, LAYER, LAYER_END, PORT, SETTING, STATEFUL, STATEFUL_IN, TUNNELLING,
    UNTUNNELLING,
};
use crate::whole::running::{Wrong, host_over, tried};
use std::alloc::Global;
use std::sync::Wait;
use std::thread::Threads;
use std::time::Clock;
use vsw_run::Status;

/// The words of a command with so many workers.
fn words_by<'a>(command: &'a str, workers: &'a str) -> [&'a str; 7] {
    [
        "vsw",
        command,
        "--workers",
        workers,
        "policy",
        "commands",
        "trace",
    ]
}

/// A run of `deliver` with so many workers over a policy of two ports.
fn check_by<R: Threads + Wait + Clock + Sync>(
    rt: &R,
    alloc: Global,
    workers: &str,
    policy: &[&str],
    frames: &[&str],
    report: &[&str],
) -> Result<(), Wrong> {
    let host = host_over(alloc, policy, &[], frames, &[]);
    let words = words_by("deliver", workers);
    tried(rt, alloc, &words, host, Status::Done, report, "")
}

/// The same of one worker, of two and of sixteen.
fn check<R: Threads + Wait + Clock + Sync>(
    rt: &R,
    alloc: Global,
    policy: &[&str],
    frames: &[&str],
    report: &[&str],
) -> Result<(), Wrong> {
    check_by(rt, alloc, "1", policy, frames, report)?;
    check_by(rt, alloc, "2", policy, frames, report)?;
    check_by(rt, alloc, "16", policy, frames, report)
}

/// What stands before the lines of ports that have no entries.
const FIRST: &str = "vsw report 1\nround 0\nport 1 0 0\n";

const SECOND: &str = "port 2 0 0\n";

const LOOSE: &str = "loose\n";

#[test]
fn a_packet_that_left_for_another_port_comes_in_there(rt: HostRuntime) -> Result<(), Wrong> {
    let policy = &[PORT, BETWEEN_PORTS, END];
    let line = "w0 0 @0 pass 44 ";
    let report = &[FIRST, line, QUERY, "\n", SECOND, line, QUERY, "\n", LOOSE];
    check(&rt, rt.alloc(), policy, &[QUERY], report)
}

#[test]
fn the_other_port_may_drop_it(rt: HostRuntime) -> Result<(), Wrong> {
    let policy = &[PORT, BETWEEN_PORTS, LAYER, LAYER_END, END];
    let line = "w0 0 @0 pass 44 ";
    let dropped = "w0 0 @0 drop default 1/10 in\n";
    let report = &[FIRST, line, QUERY, "\n", SECOND, dropped, LOOSE];
    check(&rt, rt.alloc(), policy, &[QUERY], report)
}

#[test]
fn a_packet_for_its_own_port_comes_in_nowhere(rt: HostRuntime) -> Result<(), Wrong> {
    let policy = &[PORT, BETWEEN_PORTS, END];
    for (workers, line) in [
        ("1", "w0 0 @0 pass 44 "),
        ("2", "w0 0 @0 pass 44 "),
        ("16", "w8 0 @0 pass 44 "),
    ] {
        let report = &[FIRST, line, TO_ITSELF, "\n", SECOND, LOOSE];
        check_by(&rt, rt.alloc(), workers, policy, &[TO_ITSELF], report)?;
    }
    Ok(())
}

#[test]
fn a_packet_that_was_dropped_comes_in_nowhere(rt: HostRuntime) -> Result<(), Wrong> {
    let policy = &[PORT, LAYER, LAYER_END, BETWEEN_PORTS, END];
    let dropped = "w0 0 @0 drop default 1/10 out\n";
    let report = &[FIRST, dropped, SECOND, LOOSE];
    check(&rt, rt.alloc(), policy, &[QUERY], report)
}

#[test]
fn forward_and_stream_hand_nothing_on(rt: HostRuntime) -> Result<(), Wrong> {
    let policy = &[PORT, BETWEEN_PORTS, END];
    let report = &[FIRST, "w0 0 @0 pass 44 ", QUERY, "\n", SECOND, LOOSE];
    for command in ["forward", "stream"] {
        for workers in ["1", "2"] {
            let host = host_over(rt.alloc(), policy, &[], &[QUERY], &[]);
            let words = words_by(command, workers);
            tried(&rt, rt.alloc(), &words, host, Status::Done, report, "")?;
        }
    }
    Ok(())
}

#[test]
fn both_ports_keep_the_state_of_a_query_and_know_its_reply(rt: HostRuntime) -> Result<(), Wrong> {
    let policy = &[
        PORT,
        LAYER,
        STATEFUL,
        LAYER_END,
        BETWEEN_PORTS,
        LAYER,
        STATEFUL_IN,
        LAYER_END,
        END,
    ];
    let lines = &["w0 0 +0 pass 44 ", QUERY, "\nw0 1 @1 pass 44 ", REPLY, "\n"];
    let report = &[
        "vsw report 1\nround 0\nport 1 0 1\n",
        lines[0],
        lines[1],
        lines[2],
        lines[3],
        "\nport 2 0 1\n",
        lines[0],
        lines[1],
        lines[2],
        lines[3],
        "\nloose\n",
    ];
    check(&rt, rt.alloc(), policy, &[QUERY, REPLY], report)
}

#[test]
fn the_innermost_destination_of_an_encapsulated_packet_leads_it(
    rt: HostRuntime,
) -> Result<(), Wrong> {
    let policy = &[
        PORT,
        LAYER,
        TUNNELLING,
        LAYER_END,
        BETWEEN_PORTS,
        LAYER,
        UNTUNNELLING,
        LAYER_END,
        END,
    ];
    let report = &[
        FIRST,
        "w0 0 @0 pass 94 ",
        TUNNELLED_QUERY,
        "\n",
        SECOND,
        "w0 0 @0 pass 44 ",
        QUERY,
        "\n",
        LOOSE,
    ];
    check(&rt, rt.alloc(), policy, &[QUERY], report)
}

/// The flow sum of the query gives worker 4 of 7, and that of what leaves worker 0.
#[test]
fn the_worker_that_brought_a_packet_brings_it_on(rt: HostRuntime) -> Result<(), Wrong> {
    let policy = &[PORT, LAYER, SETTING, LAYER_END, BETWEEN_PORTS, END];
    let line = "w4 0 @0 pass 44 ";
    let report = &[
        FIRST,
        line,
        SENT_FROM_40000,
        "\n",
        SECOND,
        line,
        SENT_FROM_40000,
        "\n",
        LOOSE,
    ];
    check_by(&rt, rt.alloc(), "7", policy, &[QUERY], report)
}
