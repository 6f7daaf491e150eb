//! Reports of many workers are legal, whatever their threads do first.

use crate::workers::files::{DROPS, REMOVES};
use crate::workers::judge::{Judge, first_wrong};
use crate::workers::running::report_of_flows;
use std::alloc::Global;
use std::process::Abort;
use std::str;
use std::sync::Wait;
use std::test::Fail;
use std::thread::Threads;
use std::time::Clock;
use vsw_app::Open;

fn check(rt: &impl Abort, report: &[u8], judge: &mut Judge) -> Result<(), Fail> {
    let text = str::from_utf8(report)?;
    if let Some(line) = first_wrong(text, judge)? {
        panic!(rt; "{line}");
    }
    Ok(())
}

/// Runs with so many workers, and judges the report.
fn run<R: Abort + Threads + Wait + Clock + Sync>(
    rt: &R,
    alloc: Global,
    name: &str,
    workers: u32,
    commands: &str,
    dropped: Option<&'static str>,
) -> Result<(), Fail> {
    let report = report_of_flows(rt, alloc, name, commands, &Open)?;
    let mut judge = Judge::new(alloc, workers, dropped)?;
    check(rt, &report, &mut judge)
}

#[test]
fn a_layer_goes_beside_four_workers(rt: HostRuntime) -> Result<(), Fail> {
    run(&rt, rt.alloc(), "4", 4, REMOVES, None)
}

#[test]
fn packets_are_dropped_from_the_command_on(rt: HostRuntime) -> Result<(), Fail> {
    for (name, workers) in [("2", 2), ("4", 4), ("16", 16)] {
        run(
            &rt,
            rt.alloc(),
            name,
            workers,
            DROPS,
            Some("drop rule 1/10/1/1"),
        )?;
    }
    Ok(())
}
