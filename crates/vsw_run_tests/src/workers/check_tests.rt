//! Checks of reports of many workers.

use crate::memory::{file, words_of};
use crate::workers::files::{DROPS, REMOVES, THREE_LAYERS};
use crate::workers::running::{files, flows, host_of, report_of_flows};
use std::alloc::Global;
use std::process::Abort;
use std::sync::Wait;
use std::test::Fail;
use std::thread::Threads;
use std::time::Clock;
use vsw_app::{Open, run_words};
use vsw_run::Status;

/// How a check ends, for a run of so many workers, of this report of the hundred flows beside a command.
pub fn status_of<R: Abort + Threads + Wait + Clock + Sync>(
    rt: &R,
    alloc: Global,
    workers: &str,
    commands: &str,
    report: Vec<u8>,
) -> Result<Status, Fail> {
    let mut held = files(alloc, THREE_LAYERS, commands, flows(alloc)?)?;
    held.push(file(alloc, "report", report)?)?;
    let mut host = host_of(rt, alloc, held, 4_096)?;
    let line = [
        "vsw",
        "check",
        "--workers",
        workers,
        "policy",
        "commands",
        "trace",
        "report",
    ];
    let words = words_of(alloc, &line)?;
    Ok(run_words(rt, alloc, &words, &mut host, &Open))
}

#[test]
fn reports_of_four_workers_beside_commands_are_legal(rt: HostRuntime) -> Result<(), Fail> {
    for commands in [REMOVES, DROPS] {
        let report = report_of_flows(&rt, rt.alloc(), "4", commands, &Open)?;
        let status = status_of(&rt, rt.alloc(), "4", commands, report)?;
        assert!(rt; status == Status::Done, "{status:?}");
    }
    Ok(())
}

#[test]
fn a_report_is_checked_for_the_number_of_its_workers(rt: HostRuntime) -> Result<(), Fail> {
    let report = report_of_flows(&rt, rt.alloc(), "4", REMOVES, &Open)?;
    let status = status_of(&rt, rt.alloc(), "3", REMOVES, report)?;
    assert!(rt; status == Status::Illegal, "{status:?}");
    Ok(())
}
