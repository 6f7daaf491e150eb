//! Generated workloads. What they are compared with was worked out by a plain program (`tools/generated_runs.py`).

use crate::whole::running::{Wrong, tried};
use std::alloc::Global;
use std::sync::Wait;
use std::thread::Threads;
use std::time::Clock;
use vsw_host::MemoryHost;
use vsw_run::Status;

/// A host without files, of whose calls these fail.
fn host_of(alloc: Global, failing: &[u64]) -> Option<MemoryHost> {
    MemoryHost::new(alloc, Vec::new(alloc), 1_024, failing.to_vec(alloc).ok()?).ok()
}

/// Compares the summary that a run puts over so many packets, drawn from this number.
fn check<R: Threads + Wait + Clock + Sync>(
    rt: &R,
    alloc: Global,
    start: &str,
    packets: &str,
    summary: &str,
) -> Result<(), Wrong> {
    let words = &["vsw", "generate", start, packets];
    let host = host_of(alloc, &[]);
    tried(rt, alloc, words, host, Status::Done, &[summary], "")
}

#[test]
fn a_query_passes_and_makes_a_pair(rt: HostRuntime) -> Result<(), Wrong> {
    let summary = "packets 1\npass 1\ndrop 0\nevents 1\nbytes 93\n";
    check(&rt, rt.alloc(), "1", "1", summary)
}

#[test]
fn an_answer_without_its_query_is_dropped(rt: HostRuntime) -> Result<(), Wrong> {
    let summary = "packets 2\npass 1\ndrop 1\nevents 1\nbytes 93\n";
    check(&rt, rt.alloc(), "1", "2", summary)
}

#[test]
fn a_round_is_left_for_one_more_packet(rt: HostRuntime) -> Result<(), Wrong> {
    let whole = "packets 1024\npass 730\ndrop 294\nevents 180\nbytes 83028\n";
    check(&rt, rt.alloc(), "0", "1024", whole)?;
    let more = "packets 1025\npass 731\ndrop 294\nevents 180\nbytes 83070\n";
    check(&rt, rt.alloc(), "0", "1025", more)
}

#[test]
fn a_put_that_fails_ends_the_run(rt: HostRuntime) -> Result<(), Wrong> {
    let words = &["vsw", "generate", "1", "1"];
    let host = host_of(rt.alloc(), &[1]);
    let complaint = "vsw: write fault\n";
    tried(
        &rt,
        rt.alloc(),
        words,
        host,
        Status::WriteFault,
        &[],
        complaint,
    )
}
