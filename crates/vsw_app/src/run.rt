//! The run of the program.

ghost use Rattle.std.specs.Prelude.{◌≡◌, ◌↔◌, ◌<◌, ◌≤◌, ◌^◌, None, Ok};
ghost use Rattle.vsw_host.specs.Outside.{Rose};
ghost use Rattle.vsw_generate.specs.Policy.{policy_text};
ghost use Rattle.vsw_config.specs.Good.{IsGoodPolicy};
ghost use Rattle.vsw_config.specs.Policy.{policy_file_of};
ghost use Rattle.vsw_run.specs.IsRun.{IsRun, IsAnswered, IsComplete, IsCompleteAlone, IsCompleteByRows};
ghost use Rattle.vsw_run.specs.Seen.{IsWithin, asked_seen, request_seen};
ghost use Rattle.vsw_run.specs.Words.{asked_in};
ghost use Rattle.vsw_replay.specs.WorkloadRuns.{RunsWorkload};
ghost use Rattle.vsw_app.specs.Stages.{HasEnded, HasEndedBy, HasGenerated};
ghost use Rattle.vsw_app.specs.Way.{is_local};

use crate::check::check;
use crate::ending::{drawn_ending, ending_of, finish};
use crate::engine::engine;
use crate::given::{Given, open_given};
use crate::offload::offload;
use crate::through::run_through;
use crate::way::Way;
use std::alloc::Global;
use std::sync::Wait;
use std::thread::Threads;
use std::time::Clock;
use vsw_config::{PolicyFile, read_policy};
use vsw_generate::Workload;
use vsw_host::Host;
use vsw_replay::{Switch, Watch, WorkloadEnd, run_workload};
use vsw_run::{Asked, Ending, Request, Status, Word, read_words};
use vsw_workers::Gate;

/// Runs over the files that the words name, each read and judged before the next is opened.
fn forward<R: Threads + Wait + Clock + Sync, H: Host, G: Gate + Watch + Sync>(
    rt: &R,
    alloc: Global,
    host: &mut H,
    gate: &G,
    way: Way,
    request: &Request<'_>,
) -> Ending
    requires some { 0 < request.now.workers }
    requires few { request.now.workers ≤ 16 }
    ensures { HasEnded (is_local way) (request_seen request.now) (H.outside host.old) (H.outside host.new) result }
{
    let Given { policy, lines } = match open_given(alloc, host, request) {
        Ok(given) => given,
        Err(end) => return end,
    };
    let workers = request.workers;
    let trace = request.trace;
    ending_of(run_through(rt, alloc, host, gate, workers, way, &policy, lines, trace))
}

/// Makes the switch of the workload's policy, and runs so many packets, drawn from this number, through it.
fn run_drawn<H: Host>(
    alloc: Global,
    host: &mut H,
    policy: &PolicyFile,
    start: u32,
    packets: u32,
) -> WorkloadEnd
    requires start { start < 2 ^ 31 }
    requires some { 1 ≤ packets }
    requires few { packets ≤ 1048576 }
    requires policy { policy_file_of policy_text ≡ Ok policy.now }
    requires good { IsGoodPolicy policy.now }
    ensures { RunsWorkload start packets (H.outside host.old) (H.outside host.new) result }
{
    let Ok(mut switch) = Switch::open(alloc, 1, policy, false) else {
        return WorkloadEnd::Memory;
    };
    run_workload(alloc, host, &mut switch, start, packets)
}

/// Runs over so many generated packets, drawn from this number. Their policy is good (`vsw_config_tests`), so only want of memory keeps it
/// from being read.
fn generate<H: Host>(alloc: Global, host: &mut H, start: u32, packets: u32) -> Ending
    requires start { start < 2 ^ 31 }
    requires some { 1 ≤ packets }
    requires few { packets ≤ 1048576 }
    ensures { HasGenerated start packets (H.outside host.old) (H.outside host.new) result }
{
    match read_policy(alloc, Workload::policy()) {
        Ok(policy) => drawn_ending(run_drawn(alloc, host, &policy, start, packets)),
        Err(_) => Ending::Memory,
    }
}

/// Runs as the words ask.
fn run_asked<R: Threads + Wait + Clock + Sync, H: Host, G: Gate + Watch + Sync>(
    rt: &R,
    alloc: Global,
    host: &mut H,
    gate: &G,
    asked: &Asked<'_>,
) -> Ending
    requires within { IsWithin asked.now }
    ensures { HasEndedBy (asked_seen asked.now) (H.outside host.old) (H.outside host.new) result }
{
    match asked {
        Asked::Forward(request) => forward(rt, alloc, host, gate, Way::Forward, request),
        Asked::Deliver(request) => forward(rt, alloc, host, gate, Way::Deliver, request),
        Asked::Stream(request) => forward(rt, alloc, host, gate, Way::Stream, request),
        Asked::Offload(request) => offload(alloc, host, request),
        Asked::Check(claim) => check(alloc, host, claim),
        Asked::Engine(query) => engine(alloc, host, query),
        Asked::Generate { start, packets } => generate(alloc, host, *start, *packets),
    }
}

/// Reads the words, runs as they ask, and complains.
fn run<R: Threads + Wait + Clock + Sync, H: Host, G: Gate + Watch + Sync>(
    rt: &R,
    alloc: Global,
    words: &[Word],
    host: &mut H,
    gate: &G,
) -> Status
    ensures { IsRun words.now (H.outside host.old) (H.outside host.new) result }
{
    match read_words(words) {
        None => finish(host, &Ending::Usage),
        Some(asked) => {
            let end = run_asked(rt, alloc, host, gate, &asked);
            finish(host, &end)
        }
    }
}

/// The whole program: reads the words, and the files that they name or the workload that they ask for, puts the
/// report, the rows, the answer of a check, the lines of rows or the summary, and complains if it ends otherwise.
///
/// `run` says what was opened, read, put and complained, by the status. `usage` and the two faults
/// hold of hosts that tell nothing, too. `complete`, `alone`, `answered` and `by_rows` say when nothing but want of memory keeps a run
/// over files, one over a workload, a check, and an answer from rows from its end.
///
/// A run of more than one worker may wait, in calls of the gate too. So all of this is promised if the call returns.
/// With one worker nothing waits.
pub fn run_words<R: Threads + Wait + Clock + Sync, H: Host, G: Gate + Watch + Sync>(
    rt: &R,
    alloc: Global,
    words: &[Word],
    host: &mut H,
    gate: &G,
) -> Status
    ensures run { IsRun words.now (H.outside host.old) (H.outside host.new) result }
    ensures usage { (result ≡ Status.Usage) ↔ (asked_in words.now ≡ None) }
    ensures read_fault { result ≡ Status.ReadFault → Rose (H.outside host.old).input_faults (H.outside host.new).input_faults }
    ensures write_fault { result ≡ Status.WriteFault → Rose (H.outside host.old).put_faults (H.outside host.new).put_faults }
    ensures complete { IsComplete words.now (H.outside host.old) (H.outside host.new) result }
    ensures alone { IsCompleteAlone words.now (H.outside host.old) (H.outside host.new) result }
    ensures answered { IsAnswered words.now (H.outside host.old) (H.outside host.new) result }
    ensures by_rows { IsCompleteByRows words.now (H.outside host.old) (H.outside host.new) result }
{
    run(rt, alloc, words, host, gate)
}
