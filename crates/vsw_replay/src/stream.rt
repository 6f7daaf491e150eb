//! Running a trace whose packets are handed over to the workers one by one, as they are read.

ghost use Rattle.std.specs.Prelude.{◌≡◌, [], Ok, IfOk, OnOk};
ghost use Rattle.vsw_crew.specs.Crew.{crew_now};
ghost use Rattle.vsw_crew.specs.Switch.{AreServed};
ghost use Rattle.vsw_reading.specs.Reads.{IsOpen};
ghost use Rattle.vsw_replay.specs.Private.Begun.{IsBegun, IsNearBegun, NearTurn, Turns};
ghost use Rattle.vsw_replay.specs.Private.Going.{IsOpened, RunsOut};
ghost use Rattle.vsw_replay.specs.Fresh.{RunsFresh};
ghost use Rattle.vsw_replay.specs.declared.begun.Turn.TheVariants.{Begun};

use crate::begun::{Turn, begin_first, follow, read_rest};
use crate::ending::TraceEnd;
use crate::runner::{Runner, go_streaming};
use crate::trace::{Run, Stretch, put_stretch, run_past};
use std::alloc::Global;
use std::sync::Wait;
use std::thread::Threads;
use std::time::Clock;
use vsw_crew::{Crew, Naming, Watch};
use vsw_host::{Host, Source, Unopened};
use vsw_promise::Schedule;
use vsw_reading::begin_reading;
use vsw_report::RoundText;
use vsw_workers::Gate;

/// Reads a round whole, runs it and puts its text. Then the next round begins, or the trace ended.
fn run_whole<
    'c,
    'g,
    J: Naming + Send + Sync,
    G: Gate + Watch + Sync,
    R: Threads + Wait + Clock + Sync,
    H: Host,
>(
    rt: &R,
    host: &mut H,
    runner: &mut Runner<'c, 'g, J, G>,
    schedule: &Schedule,
    run: &mut Run,
    begun: Stretch,
) -> Result<Turn, TraceEnd>
    requires served { AreServed runner.old schedule.now }
    requires near { IsNearBegun (H.outside host.old) run.old begun }
    ensures goes { Turns schedule.now (H.outside host.old) run.old runner.old (Ok (Begun begun)) (H.outside host.new) run.new runner.new result }
    ensures near { IfOk result (λ turn. NearTurn (H.outside host.new) run.new turn) }
    ensures served { OnOk result (AreServed runner.new schedule.now) }
{
    match read_rest(host, run, begun) {
        Ok(stretch) => match put_stretch(rt, host, runner, schedule, run, stretch) {
            Ok(()) => match follow(host, schedule, run, stretch) {
                Ok(turn) => Ok(turn),
                Err(end) => Err(end),
            },
            Err(end) => Err(end),
        },
        Err(end) => Err(end),
    }
}

/// Hands over the packets of rounds as long as these are fit for it, and runs one round more.
fn stream_step<
    'c,
    'g,
    J: Naming + Send + Sync,
    G: Gate + Watch + Sync,
    R: Threads + Wait + Clock + Sync,
    H: Host,
>(
    rt: &R,
    alloc: Global,
    host: &mut H,
    runner: Runner<'c, 'g, J, G>,
    schedule: &Schedule,
    run: Run,
    turn: Turn,
) -> (Runner<'c, 'g, J, G>, Run, Result<Turn, TraceEnd>)
    requires served { AreServed runner schedule.now }
    requires near { NearTurn (H.outside host.old) run turn }
    ensures goes { Turns schedule.now (H.outside host.old) run runner.entry (Ok turn) (H.outside host.new) result.1 result.0 result.2 }
    ensures near { IfOk result.2 (λ t. NearTurn (H.outside host.new) result.1 t) }
    ensures served { OnOk result.2 (AreServed result.0 schedule.now) }
{
    let (runner, run, next) = go_streaming(rt, alloc, host, runner, schedule, run, turn);
    match next {
        Ok(turn) => match turn {
            Turn::Begun(begun) => {
                let mut runner = runner;
                let mut run = run;
                let next = run_whole(rt, host, &mut runner, schedule, &mut run, begun);
                (runner, run, next)
            }
            Turn::Past(_) => (runner, run, next),
        },
        Err(_) => (runner, run, next),
    }
}

/// Runs a trace of whose first round the first record was read.
fn stream_rounds<
    'c,
    'g,
    J: Naming + Send + Sync,
    G: Gate + Watch + Sync,
    R: Threads + Wait + Clock + Sync,
    H: Host,
>(
    rt: &R,
    alloc: Global,
    host: &mut H,
    runner: Runner<'c, 'g, J, G>,
    schedule: &Schedule,
    run: Run,
    first: Stretch,
) -> TraceEnd
    requires served { AreServed runner schedule.now }
    requires near { IsNearBegun (H.outside host.old) run first }
    ensures runs { RunsOut schedule.now (λ s start name. IsBegun s start (H.outside host.old) name run runner.entry first) (H.outside host.new) result }
{
    let mut runner = runner;
    let mut run = run;
    let mut turn = Turn::Begun(first);
    for _ in rt.forever() {
        let (kept, left, next) = stream_step(rt, alloc, host, runner, schedule, run, turn);
        runner = kept;
        run = left;
        match next {
            Ok(next) => match next {
                Turn::Begun(_) => turn = next,
                Turn::Past(last) => {
                    return run_past(rt, host, &mut runner, schedule, &mut run, last);
                }
            },
            Err(end) => return end,
        }
    }
    unreachable!()
}

/// Runs a trace that was opened, and of which nothing was read.
fn stream_opened<
    'c,
    'g,
    J: Naming + Send + Sync,
    G: Gate + Watch + Sync,
    R: Threads + Wait + Clock + Sync,
    H: Host,
>(
    rt: &R,
    alloc: Global,
    host: &mut H,
    runner: Runner<'c, 'g, J, G>,
    schedule: &Schedule,
    run: Run,
) -> TraceEnd
    requires served { AreServed runner schedule.now }
    requires near { IsOpen (H.outside host.old) run.reading }
    requires empty { run.reading.batch ≡ [] }
    ensures runs { RunsOut schedule.now (λ s start name. IsOpened s start (H.outside host.old) name run runner.entry) (H.outside host.new) result }
{
    let mut run = run;
    match begin_first(host, schedule, &mut run) {
        Ok(first) => stream_rounds(rt, alloc, host, runner, schedule, run, first),
        Err(end) => end,
    }
}

/// Runs the trace of this name as `run_trace` does, through a switch that is at its beginning. The workers begin a round while its packets are read: each
/// packet goes to its worker as soon as it was read, where no command runs beside the packets of its round. The round's text is put once they are all carried.
pub fn stream_trace<
    'c,
    'g,
    J: Naming + Send + Sync,
    G: Gate + Watch + Sync,
    R: Threads + Wait + Clock + Sync,
    H: Host,
>(
    rt: &R,
    alloc: Global,
    host: &mut H,
    crew: Crew<'c, 'g, J, G>,
    schedule: &Schedule,
    name: &str,
) -> TraceEnd
    requires served { AreServed (crew_now crew) schedule.now }
    ensures runs { RunsFresh schedule.now (crew_now crew.entry) (H.outside host.old) (H.outside host.new) name.now result }
{
    match Source::open(alloc, host, name) {
        Ok(source) => {
            let run = Run {
                reading: begin_reading(alloc, source),
                text: RoundText::new(alloc),
                short: false,
            };
            stream_opened(rt, alloc, host, Runner::beside(crew), schedule, run)
        }
        Err(Unopened::Fault) => TraceEnd::ReadFault,
        Err(Unopened::Memory) => TraceEnd::Memory,
    }
}
