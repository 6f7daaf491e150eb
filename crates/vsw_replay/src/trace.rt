//! Running a trace.

ghost use Rattle.std.specs.Prelude.{◌≡◌, ◌≤◌, ◌<◌, ◌+◌, ◌^◌, [], List, length, IfErr, IfOk, IfSome, OnOk};
ghost use Rattle.vsw_commandfile.specs.declared.line.Line.{Line};
ghost use Rattle.vsw_port.specs.declared.event.Event.{Event};
ghost use Rattle.vsw_host.specs.Outside.{SameInputs, SameOutputs};
ghost use Rattle.vsw_promise.specs.Jobs.{Setting};
ghost use Rattle.vsw_replay.specs.Private.Begun.{PutsHeadBegun};
ghost use Rattle.vsw_replay.specs.Private.Exporting.{IsEarly};
ghost use Rattle.vsw_replay.specs.Private.Going.{IsFilled, IsBetween, IsPast, IsOpened, IsNear, IsTurn, PutsRound, is_run_of, unheaded_of, clean_of, GoesFurther, PutsBehind, PutsFilled, PutsHead, ReadsRound, RunsOut};
ghost use Rattle.vsw_replay.specs.Private.Next.{ReadsFrom, in_batch};
ghost use Rattle.vsw_reading.specs.Reads.{IsOpen};
ghost use Rattle.vsw_crew.specs.Switch.{AreServed, IsAt};
ghost use Rattle.vsw_replay.specs.Fresh.{RunsFresh};

use crate::cut::{is_named, next_cut};
use crate::ending::TraceEnd;
use crate::runner::{Runner, go_ahead};
use crate::sheets::put_text;
use std::alloc::Global;
use std::sync::Wait;
use std::thread::Threads;
use std::time::Clock;
use vsw_base::NoMemory;
use vsw_crew::{Naming, Watch};
use vsw_host::{Host, Source, Unopened};
use vsw_pcap::BadTrace;
use vsw_promise::Schedule;
use vsw_reading::{HEADER_LEN, Reading, Stop, begin_reading, fill, peek};
use vsw_report::{HEAD_LINE, RoundText};
use vsw_workers::Gate;

/// The most records of a trace.
pub(crate) const RECORDS_MOST: u32 = 1_048_576;

/// What a run holds beside its switch.
#[derive(Drop)]
pub(crate) struct Run {
    pub reading: Reading,
    /// The text of a round, in room that the next round's text finds again.
    pub text: RoundText,
    /// Whether memory was wanting for a packet or a command of the rounds that were run.
    pub short: bool,
}

/// The packets from one cut up to the next, as far as they were read.
#[derive(Clone, Copy)]
pub(crate) struct Stretch {
    /// The number of the first packet.
    pub first: u32,
    /// The packet with which the next round begins.
    pub next: u32,
    /// Why no further packet of it was read.
    pub stop: Stop,
}

/// Runs the round of the batch, of which the first packet has this number, and prints it.
fn run_text<
    'c,
    'g,
    J: Naming + Send + Sync,
    G: Gate + Watch + Sync,
    R: Threads + Wait + Clock + Sync,
>(
    rt: &R,
    runner: &mut Runner<'c, 'g, J, G>,
    schedule: &Schedule,
    run: &mut Run,
    first: u32,
) -> Result<(), NoMemory>
    requires served { AreServed runner.old schedule.now }
    requires numbers { first + length run.old.reading.batch < 2 ^ 32 }
    ensures turn { OnOk result ((s : Setting) (hs : List (List Event)) → s.commands ≡ schedule.now → IsAt s hs runner.old → IsTurn s hs first run.old run.new runner.new) }
    ensures reading { run.new.reading ≡ run.old.reading }
    ensures served { (lines : List Line) → AreServed runner.old lines → AreServed runner.new lines }
{
    run.text.clear();
    match runner.run_round(rt, schedule, first, &run.reading.batch, &mut run.text) {
        Ok(short) => {
            run.short = run.short || short;
            Ok(())
        }
        Err(_) => Err(NoMemory),
    }
}

/// Runs the round of the batch and puts its text.
fn put_round<
    'c,
    'g,
    J: Naming + Send + Sync,
    G: Gate + Watch + Sync,
    R: Threads + Wait + Clock + Sync,
    H: Host,
>(
    rt: &R,
    host: &mut H,
    runner: &mut Runner<'c, 'g, J, G>,
    schedule: &Schedule,
    run: &mut Run,
    first: u32,
) -> Result<(), TraceEnd>
    requires served { AreServed runner.old schedule.now }
    requires numbers { first + length run.old.reading.batch < 2 ^ 32 }
    ensures puts { (s : Setting) (hs : List (List Event)) → s.commands ≡ schedule.now → IsAt s hs runner.old → PutsRound s hs first run.old run.new runner.new (H.outside host.old) (H.outside host.new) result }
    ensures reading { run.new.reading ≡ run.old.reading }
    ensures inputs { SameInputs (H.outside host.old) (H.outside host.new) }
    ensures served { (lines : List Line) → AreServed runner.old lines → AreServed runner.new lines }
{
    match run_text(rt, runner, schedule, run, first) {
        Ok(()) => match put_text(host, &run.text) {
            Ok(()) => Ok(()),
            Err(_) => Err(TraceEnd::WriteFault),
        },
        Err(_) => Err(TraceEnd::Memory),
    }
}

/// Whether a round with so many packets is run.
pub(crate) fn is_run(schedule: &Schedule, count: usize, first: u32, stop: Stop) -> bool
    ensures { result ≡ is_run_of schedule.now count first stop }
{
    count != 0 || matches!(stop, Stop::End) && (first == 0 || is_named(schedule, first))
}

/// Runs and puts the round that was read, if it is one.
pub(crate) fn put_stretch<
    'c,
    'g,
    J: Naming + Send + Sync,
    G: Gate + Watch + Sync,
    R: Threads + Wait + Clock + Sync,
    H: Host,
>(
    rt: &R,
    host: &mut H,
    runner: &mut Runner<'c, 'g, J, G>,
    schedule: &Schedule,
    run: &mut Run,
    stretch: Stretch,
) -> Result<(), TraceEnd>
    requires served { AreServed runner.old schedule.now }
    requires near { IsNear (H.outside host.old) run.old stretch }
    ensures puts { PutsFilled schedule.now (H.outside host.old) run.old runner.old stretch (H.outside host.new) run.new runner.new result }
    ensures near { IsNear (H.outside host.new) run.new stretch }
    ensures served { (lines : List Line) → AreServed runner.old lines → AreServed runner.new lines }
{
    let count = run.reading.batch.len();
    if is_run(schedule, count, stretch.first, stretch.stop) {
        put_round(rt, host, runner, schedule, run, stretch.first)
    } else {
        Ok(())
    }
}

/// Runs and puts the next round of commands alone, behind the trace. Answers its packet, if there is such a round.
fn put_next<
    'c,
    'g,
    J: Naming + Send + Sync,
    G: Gate + Watch + Sync,
    R: Threads + Wait + Clock + Sync,
    H: Host,
>(
    rt: &R,
    host: &mut H,
    runner: &mut Runner<'c, 'g, J, G>,
    schedule: &Schedule,
    run: &mut Run,
    first: u32,
) -> Result<Option<u32>, TraceEnd>
    requires served { AreServed runner.old schedule.now }
    requires empty { run.old.reading.batch ≡ [] }
    ensures puts { PutsBehind schedule.now (H.outside host.old) run.old runner.old first (H.outside host.new) run.new runner.new result }
    ensures rises { IfOk result (λ next. IfSome next (λ n. (first < n) × (n < 2 ^ 32))) }
    ensures reading { run.new.reading ≡ run.old.reading }
    ensures served { (lines : List Line) → AreServed runner.old lines → AreServed runner.new lines }
{
    match schedule.after(first) {
        Some(next) => match put_round(rt, host, runner, schedule, run, next) {
            Ok(()) => Ok(Some(next)),
            Err(end) => Err(end),
        },
        None => Ok(None),
    }
}

/// How a run ends whose trace ended cleanly.
pub(crate) fn clean_end(short: bool) -> TraceEnd
    ensures { result ≡ clean_of short }
{
    if short {
        TraceEnd::Memory
    } else {
        TraceEnd::Done
    }
}

/// Runs and puts the rounds of commands alone that follow, once the trace ended.
pub(crate) fn run_past<
    'c,
    'g,
    J: Naming + Send + Sync,
    G: Gate + Watch + Sync,
    R: Threads + Wait + Clock + Sync,
    H: Host,
>(
    rt: &R,
    host: &mut H,
    runner: &mut Runner<'c, 'g, J, G>,
    schedule: &Schedule,
    run: &mut Run,
    first: u32,
) -> TraceEnd
    requires served { AreServed runner.old schedule.now }
    ensures runs { RunsOut schedule.now (λ s start name. IsPast s start (H.outside host.old) name run.old.short runner.old first) (H.outside host.new) result }
{
    run.reading.batch.clear();
    let mut first = first;
    loop {
        match put_next(rt, host, runner, schedule, run, first) {
            Ok(Some(next)) => first = next,
            Ok(None) => return clean_end(run.short),
            Err(end) => return end,
        }
    }
}

/// Reads the round that begins with this packet, which is not the first. What the batch held goes.
pub(crate) fn read_on<H: Host>(
    host: &mut H,
    schedule: &Schedule,
    run: &mut Run,
    first: u32,
) -> Result<Stretch, NoMemory>
    requires near { IsOpen (H.outside host.old) (in_batch run.old.reading []) }
    requires few { first < 1048576 }
    ensures reads { ReadsFrom schedule.now first (H.outside host.old) run.old.reading (H.outside host.new) run.new.reading result }
    ensures near { IfOk result (λ next. IsNear (H.outside host.new) run.new next) }
    ensures first { IfOk result (λ next. next.first ≡ first) }
    ensures text { run.new.text ≡ run.old.text }
    ensures short { run.new.short ≡ run.old.short }
    ensures outputs { SameOutputs (H.outside host.old) (H.outside host.new) }
{
    run.reading.batch.clear();
    let next = next_cut(schedule, first);
    match fill(host, &mut run.reading, next - first) {
        Ok(stop) => Ok(Stretch { first, next, stop }),
        Err(_) => Err(NoMemory),
    }
}

/// Finds whether anything follows after as many records as a trace may have.
pub(crate) fn read_past<H: Host>(
    host: &mut H,
    schedule: &Schedule,
    run: &mut Run,
    first: u32,
) -> Result<Stretch, TraceEnd>
    requires near { IsOpen (H.outside host.old) run.old.reading }
    requires full { first ≡ 1048576 }
    ensures goes { ReadsRound schedule.now (λ s start name switch. IsBetween s start (H.outside host.old) name run.old switch first) (H.outside host.new) run.new result }
    ensures near { IfOk result (λ next. IsNear (H.outside host.new) run.new next) }
    ensures first { IfOk result (λ next. next.first ≡ first) }
    ensures early { IfErr result IsEarly }
    ensures outputs { SameOutputs (H.outside host.old) (H.outside host.new) }
{
    run.reading.batch.clear();
    let next = next_cut(schedule, first);
    match peek(host, &mut run.reading) {
        Stop::Full => Err(TraceEnd::Records),
        stop => Ok(Stretch { first, next, stop }),
    }
}

/// Reads the round that begins with this packet, or finds that the trace has more records than it may have.
pub(crate) fn read_next<H: Host>(
    host: &mut H,
    schedule: &Schedule,
    run: &mut Run,
    first: u32,
) -> Result<Stretch, TraceEnd>
    requires near { IsOpen (H.outside host.old) run.old.reading }
    requires few { first ≤ 1048576 }
    ensures goes { ReadsRound schedule.now (λ s start name switch. IsBetween s start (H.outside host.old) name run.old switch first) (H.outside host.new) run.new result }
    ensures near { IfOk result (λ next. IsNear (H.outside host.new) run.new next) }
    ensures first { IfOk result (λ next. next.first ≡ first) }
    ensures early { IfErr result IsEarly }
    ensures outputs { SameOutputs (H.outside host.old) (H.outside host.new) }
{
    if first == RECORDS_MOST {
        return read_past(host, schedule, run, first);
    }
    match read_on(host, schedule, run, first) {
        Ok(next) => Ok(next),
        Err(_) => Err(TraceEnd::Memory),
    }
}

/// Puts a round that was read and reads the next one, or ends the run.
fn run_stretch<
    'c,
    'g,
    J: Naming + Send + Sync,
    G: Gate + Watch + Sync,
    R: Threads + Wait + Clock + Sync,
    H: Host,
>(
    rt: &R,
    host: &mut H,
    runner: &mut Runner<'c, 'g, J, G>,
    schedule: &Schedule,
    run: &mut Run,
    stretch: Stretch,
) -> Result<Stretch, TraceEnd>
    requires served { AreServed runner.old schedule.now }
    requires near { IsNear (H.outside host.old) run.old stretch }
    ensures goes { GoesFurther schedule.now (H.outside host.old) run.old runner.old stretch (H.outside host.new) run.new runner.new result }
    ensures near { IfOk result (λ next. IsNear (H.outside host.new) run.new next) }
    ensures rises { IfOk result (λ next. stretch.first < next.first) }
    ensures served { OnOk result ((lines : List Line) → AreServed runner.old lines → AreServed runner.new lines) }
{
    match put_stretch(rt, host, runner, schedule, run, stretch) {
        Ok(()) => match stretch.stop {
            Stop::Full => read_next(host, schedule, run, stretch.next),
            Stop::End => Err(run_past(rt, host, runner, schedule, run, stretch.first)),
            Stop::Fault => Err(TraceEnd::ReadFault),
            Stop::Bad(bad) => Err(TraceEnd::Refused(bad)),
        },
        Err(end) => Err(end),
    }
}

/// Runs rounds by threads that stay, if the one that was read is fit for it, and then one round more.
fn go_step<
    'c,
    'g,
    J: Naming + Send + Sync,
    G: Gate + Watch + Sync,
    R: Threads + Wait + Clock + Sync,
    H: Host,
>(
    rt: &R,
    alloc: Global,
    host: &mut H,
    runner: Runner<'c, 'g, J, G>,
    schedule: &Schedule,
    run: Run,
    stretch: Stretch,
) -> (Runner<'c, 'g, J, G>, Run, Result<Stretch, TraceEnd>)
    requires served { AreServed runner schedule.now }
    requires near { IsNear (H.outside host.old) run stretch }
    ensures goes { GoesFurther schedule.now (H.outside host.old) run runner.entry stretch (H.outside host.new) result.1 result.0 result.2 }
    ensures near { IfOk result.2 (λ t. IsNear (H.outside host.new) result.1 t) }
    ensures served { OnOk result.2 (AreServed result.0 schedule.now) }
    ensures rises { IfOk result.2 (λ t. stretch.first < t.first) }
{
    let (runner, run, ahead) = go_ahead(rt, alloc, host, runner, schedule, run, stretch);
    match ahead {
        Ok(stretch) => {
            let mut runner = runner;
            let mut run = run;
            let next = run_stretch(rt, host, &mut runner, schedule, &mut run, stretch);
            (runner, run, next)
        }
        Err(end) => (runner, run, Err(end)),
    }
}

/// Runs a trace of which the first round was read.
fn run_stretches<
    'c,
    'g,
    J: Naming + Send + Sync,
    G: Gate + Watch + Sync,
    R: Threads + Wait + Clock + Sync,
    H: Host,
>(
    rt: &R,
    alloc: Global,
    host: &mut H,
    runner: Runner<'c, 'g, J, G>,
    schedule: &Schedule,
    run: Run,
    first: Stretch,
) -> TraceEnd
    requires served { AreServed runner schedule.now }
    requires near { IsNear (H.outside host.old) run first }
    ensures runs { RunsOut schedule.now (λ s start name. IsFilled s start (H.outside host.old) name run runner.entry first) (H.outside host.new) result }
{
    let mut runner = runner;
    let mut run = run;
    let mut stretch = first;
    loop {
        let (kept, left, next) = go_step(rt, alloc, host, runner, schedule, run, stretch);
        runner = kept;
        run = left;
        match next {
            Ok(next) => stretch = next,
            Err(end) => return end,
        }
    }
}

/// How a run ends of whose trace no header was accepted.
pub(crate) fn unheaded(stop: Stop, seen: usize) -> Option<TraceEnd>
    ensures { result ≡ unheaded_of stop seen }
{
    match stop {
        Stop::Fault if seen < HEADER_LEN => Some(TraceEnd::ReadFault),
        Stop::Bad(BadTrace::NotPcap) => Some(TraceEnd::Refused(BadTrace::NotPcap)),
        Stop::Bad(BadTrace::Version) => Some(TraceEnd::Refused(BadTrace::Version)),
        Stop::Bad(BadTrace::LinkType) => Some(TraceEnd::Refused(BadTrace::LinkType)),
        _ => None,
    }
}

/// Puts the head line, once the header was accepted. The first round was read, or the first record of it.
pub(crate) fn put_head<H: Host>(
    host: &mut H,
    run: &Run,
    first: Stretch,
) -> Result<Stretch, TraceEnd>
    requires near { IsNear (H.outside host.old) run.now first }
    ensures goes { PutsHead (H.outside host.old) run.now first (H.outside host.new) result }
    ensures begins { PutsHeadBegun (H.outside host.old) run.now first (H.outside host.new) result }
    ensures near { IfOk result (λ next. IsNear (H.outside host.new) run.now next) }
    ensures same { IfOk result (λ next. next ≡ first) }
{
    match unheaded(first.stop, run.reading.seen) {
        None => match host.put(HEAD_LINE) {
            Ok(()) => Ok(first),
            Err(_) => Err(TraceEnd::WriteFault),
        },
        Some(end) => Err(end),
    }
}

/// Reads the first round, and puts the head line.
fn begin<H: Host>(host: &mut H, schedule: &Schedule, run: &mut Run) -> Result<Stretch, TraceEnd>
    requires near { IsOpen (H.outside host.old) run.old.reading }
    requires empty { run.old.reading.batch ≡ [] }
    ensures goes { ReadsRound schedule.now (λ s start name switch. IsOpened s start (H.outside host.old) name run.old switch) (H.outside host.new) run.new result }
    ensures near { IfOk result (λ next. IsNear (H.outside host.new) run.new next) }
{
    let next = next_cut(schedule, 0);
    match fill(host, &mut run.reading, next) {
        Ok(stop) => put_head(
            host,
            run,
            Stretch {
                first: 0,
                next,
                stop,
            },
        ),
        Err(_) => Err(TraceEnd::Memory),
    }
}

/// Runs a trace that was opened, and of which nothing was read.
fn run_opened<
    'c,
    'g,
    J: Naming + Send + Sync,
    G: Gate + Watch + Sync,
    R: Threads + Wait + Clock + Sync,
    H: Host,
>(
    rt: &R,
    alloc: Global,
    host: &mut H,
    runner: Runner<'c, 'g, J, G>,
    schedule: &Schedule,
    run: Run,
) -> TraceEnd
    requires served { AreServed runner schedule.now }
    requires near { IsOpen (H.outside host.old) run.reading }
    requires empty { run.reading.batch ≡ [] }
    ensures runs { RunsOut schedule.now (λ s start name. IsOpened s start (H.outside host.old) name run runner.entry) (H.outside host.new) result }
{
    let mut run = run;
    match begin(host, schedule, &mut run) {
        Ok(first) => run_stretches(rt, alloc, host, runner, schedule, run, first),
        Err(end) => end,
    }
}

/// Runs the trace of this name through a switch that is at its beginning: opens it, puts the head line once the trace's
/// header was accepted, and then each round, or what ends the trace. A round is put as soon as it was run, or after the next one was
/// read. It waits only where a round does.
pub fn run_trace<
    'c,
    'g,
    J: Naming + Send + Sync,
    G: Gate + Watch + Sync,
    R: Threads + Wait + Clock + Sync,
    H: Host,
>(
    rt: &R,
    alloc: Global,
    host: &mut H,
    runner: Runner<'c, 'g, J, G>,
    schedule: &Schedule,
    name: &str,
) -> TraceEnd
    requires served { AreServed runner schedule.now }
    ensures runs { RunsFresh schedule.now runner.entry (H.outside host.old) (H.outside host.new) name.now result }
{
    match Source::open(alloc, host, name) {
        Ok(source) => {
            let run = Run {
                reading: begin_reading(alloc, source),
                text: RoundText::new(alloc),
                short: false,
            };
            run_opened(rt, alloc, host, runner, schedule, run)
        }
        Err(Unopened::Fault) => TraceEnd::ReadFault,
        Err(Unopened::Memory) => TraceEnd::Memory,
    }
}
