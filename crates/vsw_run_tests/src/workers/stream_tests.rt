//! Runs of `stream`: workers are at work while their round is read, each actor has its own jobs, and reports are legal.

use crate::workers::check_tests::status_of;
use crate::workers::counts::Counts;
use crate::workers::files::{OPENS, REMOVES};
use crate::workers::running::report_of_flows_by;
use crate::workers::waiting::Waiting;
use std::process::Abort;
use std::test::Fail;
use vsw_app::Open;
use vsw_run::Status;

#[test]
fn a_worker_is_done_with_a_packet_before_the_feeder_reads_on(rt: HostRuntime) -> Result<(), Fail> {
    let waiting = Waiting::new();
    report_of_flows_by(&rt, rt.alloc(), "stream", "2", "", &waiting)?;
    assert_eq!(rt; waiting.seen(), 1);
    Ok(())
}

/// What is told of a round of 400 packets that are handed over: a job of the feeder for each and one that ends the rings, and half of the packets as
/// each worker's jobs. Each job is entered and left.
const TOLD: [u64; 3] = [401_000_401, 200_000_200, 200_000_200];

#[test]
fn the_feeder_has_a_job_for_each_packet_and_one_that_ends_them(
    rt: HostRuntime,
) -> Result<(), Fail> {
    let counts = Counts::new();
    report_of_flows_by(&rt, rt.alloc(), "stream", "2", "", &counts)?;
    let [feeder, first, second, ..] = counts.told();
    assert_eq!(rt; [feeder, first, second], TOLD);
    Ok(())
}

/// One round, two between commands and the rest, and one beside a command, which is read first.
#[test]
fn streams_of_four_workers_are_legal(rt: HostRuntime) -> Result<(), Fail> {
    for commands in ["", OPENS, REMOVES] {
        let report = report_of_flows_by(&rt, rt.alloc(), "stream", "4", commands, &Open)?;
        let status = status_of(&rt, rt.alloc(), "4", commands, report)?;
        assert!(rt; status == Status::Done, "{status:?}");
    }
    Ok(())
}
