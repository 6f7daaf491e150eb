//! The trace, run through the ports of a policy.

ghost use Rattle.std.specs.Prelude.{◌≡◌, ◌<◌, ◌≤◌, All, length};
ghost use Rattle.vsw_commandfile.specs.Good.{CanAsk};
ghost use Rattle.vsw_harbour.specs.Ports as live;
ghost use Rattle.vsw_harbour.specs.Opening.{IsOpenFor};
ghost use Rattle.vsw_config.specs.Good.{IsGoodPolicy};
ghost use Rattle.vsw_replay.specs.Crew.{crew_now};
ghost use Rattle.vsw_replay.specs.Fresh.{RunsFresh};
ghost use Rattle.vsw_replay.specs.Runs.{RunsTrace};
ghost use Rattle.vsw_replay.specs.Switch.{AreServed};
ghost use Rattle.vsw_app.specs.Way.{is_local, setting_with};

use crate::way::Way;
use std::alloc::Global;
use std::marker::Brand;
use std::sync::Wait;
use std::thread::Threads;
use std::time::Clock;
use vsw_base::Items;
use vsw_commandfile::Line;
use vsw_config::PolicyFile;
use vsw_harbour::OpenHarbour;
use vsw_host::Host;
use vsw_promise::Schedule;
use vsw_replay::{Crew, Naming, Runner, Switch, TraceEnd, Watch, run_trace, stream_trace};
use vsw_workers::Gate;

/// Runs the trace of this name in one thread, which does the work of all workers and waits for nobody. A local run hands packets on
/// between the ports.
fn run_alone<R: Threads + Wait + Clock + Sync, H: Host, G: Gate + Watch + Sync>(
    rt: &R,
    alloc: Global,
    host: &mut H,
    gate: &G,
    workers: u32,
    local: bool,
    policy: &PolicyFile,
    schedule: &Schedule,
    trace: &str,
) -> TraceEnd
    requires some { 0 < workers }
    requires few { workers ≤ 16 }
    requires good { IsGoodPolicy policy.now }
    requires asked { All (CanAsk policy.now) schedule.now }
    ensures { RunsTrace (setting_with workers policy.now schedule.now local) (H.outside host.old) (H.outside host.new) trace.now result }
{
    let Ok(switch) = Switch::open(alloc, workers, policy, local) else {
        return TraceEnd::Memory;
    };
    let runner = Runner::<Brand, G>::alone(switch, gate);
    run_trace(rt, alloc, host, runner, schedule, trace)
}

/// The name of a trace. A call that picks the names of ports takes no `&str` by itself.
#[derive(Clone, Copy)]
struct TraceName<'a> {
    trace: &'a str,
}

/// Has a crew run the trace of this name, with a thread for each caller.
fn run_crew<
    'c,
    'g,
    J: Naming + Send + Sync,
    R: Threads + Wait + Clock + Sync,
    H: Host,
    G: Gate + Watch + Sync,
>(
    rt: &R,
    alloc: Global,
    host: &mut H,
    crew: Crew<'c, 'g, J, G>,
    way: Way,
    schedule: &Schedule,
    trace: &str,
) -> TraceEnd
    requires served { AreServed (crew_now crew) schedule.now }
    ensures runs { RunsFresh schedule.now (crew_now crew.entry) (H.outside host.old) (H.outside host.new) trace.now result }
{
    match way {
        Way::Stream => stream_trace(rt, alloc, host, crew, schedule, trace),
        Way::Forward | Way::Deliver => {
            let runner = Runner::beside(crew);
            run_trace(rt, alloc, host, runner, schedule, trace)
        }
    }
}

/// Names the ports that were opened for so many workers, and runs the trace of this name with a thread for each caller.
fn run_named<
    J: Naming + Send + Sync,
    R: Threads + Wait + Clock + Sync,
    H: Host,
    G: Gate + Watch + Sync,
>(
    rt: &R,
    alloc: Global,
    host: &mut H,
    gate: &G,
    workers: u32,
    way: Way,
    policy: &PolicyFile,
    opened: OpenHarbour,
    schedule: &Schedule,
    name: &TraceName<'_>,
) -> TraceEnd
    requires named { J.ports ≡ live.ports_of opened.ports }
    requires opened { IsOpenFor workers policy.now (is_local way) opened }
    requires asked { All (CanAsk policy.now) schedule.now }
    ensures { RunsTrace (setting_with workers policy.now schedule.now (is_local way)) (H.outside host.old) (H.outside host.new) name.now.trace.now result }
{
    let Ok((harbour, rows)) = opened.named::<J, G>(alloc, gate) else {
        return TraceEnd::Memory;
    };
    let crew = Crew::new(&harbour, rows);
    run_crew(rt, alloc, host, crew, way, schedule, name.trace)
}

/// Runs the trace of this name with a thread for each caller, through one port or more.
fn run_beside<R: Threads + Wait + Clock + Sync, H: Host, G: Gate + Watch + Sync>(
    rt: &R,
    alloc: Global,
    host: &mut H,
    gate: &G,
    workers: u32,
    way: Way,
    policy: &PolicyFile,
    schedule: &Schedule,
    trace: &str,
) -> TraceEnd
    requires more { 2 ≤ workers }
    requires few { workers ≤ 16 }
    requires good { IsGoodPolicy policy.now }
    requires some { 0 < length policy.now.ports }
    requires asked { All (CanAsk policy.now) schedule.now }
    ensures { RunsTrace (setting_with workers policy.now schedule.now (is_local way)) (H.outside host.old) (H.outside host.new) trace.now result }
{
    let Ok(opened) = OpenHarbour::open(alloc, workers, policy, way.is_local()) else {
        return TraceEnd::Memory;
    };
    let name = TraceName { trace };
    run_named::<Brand, _, _, _>(
        rt, alloc, host, gate, workers, way, policy, opened, schedule, &name,
    )
}

/// Runs the trace of this name with these commands. Many workers have threads where there is a port to work at; else one thread goes the
/// same way for `stream` as for `forward`.
fn run_scheduled<R: Threads + Wait + Clock + Sync, H: Host, G: Gate + Watch + Sync>(
    rt: &R,
    alloc: Global,
    host: &mut H,
    gate: &G,
    workers: u32,
    way: Way,
    policy: &PolicyFile,
    schedule: &Schedule,
    trace: &str,
) -> TraceEnd
    requires some { 0 < workers }
    requires few { workers ≤ 16 }
    requires good { IsGoodPolicy policy.now }
    requires asked { All (CanAsk policy.now) schedule.now }
    ensures { RunsTrace (setting_with workers policy.now schedule.now (is_local way)) (H.outside host.old) (H.outside host.new) trace.now result }
{
    if workers == 1 || policy.ports.is_empty() {
        let local = way.is_local();
        run_alone(
            rt, alloc, host, gate, workers, local, policy, schedule, trace,
        )
    } else {
        run_beside(rt, alloc, host, gate, workers, way, policy, schedule, trace)
    }
}

/// Runs the trace of this name through the ports of a policy, with these commands.
pub(crate) fn run_through<R: Threads + Wait + Clock + Sync, H: Host, G: Gate + Watch + Sync>(
    rt: &R,
    alloc: Global,
    host: &mut H,
    gate: &G,
    workers: u32,
    way: Way,
    policy: &PolicyFile,
    lines: Items<Line>,
    trace: &str,
) -> TraceEnd
    requires some { 0 < workers }
    requires few { workers ≤ 16 }
    requires good { IsGoodPolicy policy.now }
    requires asked { All (CanAsk policy.now) lines }
    ensures { RunsTrace (setting_with workers policy.now lines (is_local way)) (H.outside host.old) (H.outside host.new) trace.now result }
{
    let Ok(schedule) = Schedule::new(alloc, lines) else {
        return TraceEnd::Memory;
    };
    run_scheduled(
        rt, alloc, host, gate, workers, way, policy, &schedule, trace,
    )
}
