//! How the rounds of a run with many workers follow each other: the next one is read while one is at work, and no two are at work at once.

use crate::memory::words_of;
use crate::workers::files::{CUTS, THREE_LAYERS};
use crate::workers::reading_on::{ReadingOn, WaitingHost};
use crate::workers::rounds_apart::RoundsApart;
use crate::workers::running::{files, flows, host_of, report_of_flows};
use std::alloc::Global;
use std::process::Abort;
use std::sync::Wait;
use std::test::Fail;
use std::thread::Threads;
use std::time::Clock;
use vsw_app::run_words;
use vsw_run::Status;

/// How many bytes of a file come at once: some 68 records of the trace. So the first round is read by two reads, and the third reads on.
const MOST: usize = 4_096;

const FIRST_BEYOND: u32 = 3;

fn run_and_read_on<R: Abort + Threads + Wait + Clock + Sync>(
    rt: &R,
    alloc: Global,
    gate: &ReadingOn,
) -> Result<Status, Fail> {
    let held = files(alloc, THREE_LAYERS, CUTS, flows(alloc)?)?;
    let mut memory = host_of(rt, alloc, held, 262_144)?;
    memory.read_at_most(MOST);
    let mut host = WaitingHost {
        host: memory,
        gate,
        left: FIRST_BEYOND,
    };
    let words = words_of(
        alloc,
        &[
            "vsw",
            "forward",
            "--workers",
            "2",
            "policy",
            "commands",
            "trace",
        ],
    )?;
    Ok(run_words(rt, alloc, &words, &mut host, gate))
}

#[test]
fn the_next_round_is_read_while_one_is_at_work(rt: HostRuntime) -> Result<(), Fail> {
    let gate = ReadingOn::new();
    let status = run_and_read_on(&rt, rt.alloc(), &gate)?;
    assert_eq!(rt; status, Status::Done);
    assert_eq!(rt; gate.seen(), 1);
    Ok(())
}

#[test]
fn no_two_rounds_are_at_work_at_once(rt: HostRuntime) -> Result<(), Fail> {
    let apart = RoundsApart::new();
    report_of_flows(&rt, rt.alloc(), "4", CUTS, &apart)?;
    assert_eq!(rt; apart.answered_by_round(), [100, 100, 100, 100]);
    assert_eq!(rt; apart.early(), 0);
    Ok(())
}
