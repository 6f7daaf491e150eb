//! What gates are told: all workers of a run are at work at once, and each actor has its own jobs.

use crate::workers::counts::Counts;
use crate::workers::files::REMOVES;
use crate::workers::meeting::Meeting;
use crate::workers::running::report_of_flows;
use std::alloc::Global;
use std::process::Abort;
use std::sync::Wait;
use std::test::Fail;
use std::thread::Threads;
use std::time::Clock;

/// How many workers of a run with so many have seen all others in their first jobs.
fn met<R: Abort + Threads + Wait + Clock + Sync>(
    rt: &R,
    alloc: Global,
    workers: u32,
    word: &str,
) -> Result<u64, Fail> {
    let meeting = Meeting::of(workers);
    report_of_flows(rt, alloc, word, REMOVES, &meeting)?;
    Ok(meeting.met())
}

#[test]
fn two_workers_see_each_other_in_their_first_jobs(rt: HostRuntime) -> Result<(), Fail> {
    let met = met(&rt, rt.alloc(), 2, "2")?;
    assert_eq!(rt; met, 2);
    Ok(())
}

#[test]
fn five_workers_have_a_thread_each(rt: HostRuntime) -> Result<(), Fail> {
    let met = met(&rt, rt.alloc(), 5, "5")?;
    assert_eq!(rt; met, 5);
    Ok(())
}

#[test]
fn sixteen_workers_have_a_thread_each(rt: HostRuntime) -> Result<(), Fail> {
    let met = met(&rt, rt.alloc(), 16, "16")?;
    assert_eq!(rt; met, 16);
    Ok(())
}

/// What is told of a round of 400 packets, half of them each worker's, of the command of the first of three controllers, and of the 64
/// rows of the port, which are the jobs of the actor behind the controllers: each job is entered and left.
const TOLD: [u64; 7] = [200_000_200, 200_000_200, 1_000_001, 0, 0, 64_000_064, 0];

#[test]
fn rows_are_reconciled_by_the_actor_behind_the_controllers(rt: HostRuntime) -> Result<(), Fail> {
    let counts = Counts::new();
    report_of_flows(&rt, rt.alloc(), "2", REMOVES, &counts)?;
    assert_eq!(rt; counts.told(), TOLD);
    Ok(())
}
