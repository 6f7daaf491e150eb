//! Running a trace of which nothing is told, in one thread.

ghost use Rattle.std.specs.Prelude.{◌≡◌, ◌≤◌, ◌<◌, ◌+◌, ◌^◌, [], List, length, IfOk, IfSome, OnOk};
ghost use Rattle.vsw_commandfile.specs.declared.line.Line.{Line};
ghost use Rattle.vsw_port.specs.declared.event.Event.{Event};
ghost use Rattle.vsw_host.specs.Outside.{Outside, SameOutputs};
ghost use Rattle.vsw_promise.specs.Jobs.{Setting};
ghost use Rattle.vsw_reading.specs.Reads.{IsOpen};
ghost use Rattle.vsw_replay.specs.Private.Exporting.{Leaves, LeavesFrom, LeavesPast, RunsBehind, RunsFilled, StaysFirst, StaysFurther};
ghost use Rattle.vsw_replay.specs.Private.Going.{IsFilled, IsOpened, IsNear, IsTurn};
ghost use Rattle.vsw_crew.specs.Switch.{AreServed, IsAt};
ghost use Rattle.vsw_replay.specs.Fresh.{IsFresh};

use crate::cut::next_cut;
use crate::ending::TraceEnd;
use crate::run::Nobody;
use crate::runner::run_alone;
use crate::trace::{Run, Stretch, clean_end, is_run, read_next, unheaded};
use std::alloc::Global;
use vsw_base::NoMemory;
use vsw_crew::Switch;
use vsw_host::{Host, Source, Unopened};
use vsw_promise::Schedule;
use vsw_reading::{Stop, begin_reading, fill};
use vsw_report::RoundText;

/// Runs the round of the batch, of which the first packet has this number. Nobody reads its text.
fn run_batch(
    switch: &mut Switch,
    schedule: &Schedule,
    run: &mut Run,
    first: u32,
) -> Result<(), NoMemory>
    requires served { AreServed switch.old schedule.now }
    requires numbers { first + length run.old.reading.batch < 2 ^ 32 }
    ensures turn { OnOk result ((s : Setting) (hs : List (List Event)) → s.commands ≡ schedule.now → IsAt s hs switch.old → IsTurn s hs first run.old run.new switch.new) }
    ensures reading { run.new.reading ≡ run.old.reading }
    ensures served { (lines : List Line) → AreServed switch.old lines → AreServed switch.new lines }
{
    run.text.clear();
    match run_alone(
        switch,
        &Nobody,
        schedule,
        first,
        &run.reading.batch,
        &mut run.text,
    ) {
        Ok(short) => {
            run.short = run.short || short;
            Ok(())
        }
        Err(_) => Err(NoMemory),
    }
}

/// Runs the round that was read, if it is one.
fn run_read(
    switch: &mut Switch,
    schedule: &Schedule,
    run: &mut Run,
    stretch: Stretch,
) -> Result<(), NoMemory>
    requires served { AreServed switch.old schedule.now }
    requires low { stretch.first ≤ 1048576 }
    requires size { length run.old.reading.batch ≤ 1048576 }
    ensures runs { RunsFilled schedule.now run.old switch.old stretch run.new switch.new result }
    ensures near { (now : Outside) → IsNear now run.old stretch → IsNear now run.new stretch }
    ensures served { (lines : List Line) → AreServed switch.old lines → AreServed switch.new lines }
{
    let count = run.reading.batch.len();
    if is_run(schedule, count, stretch.first, stretch.stop) {
        run_batch(switch, schedule, run, stretch.first)
    } else {
        Ok(())
    }
}

/// Runs the next round of commands alone, behind the trace. Answers its packet, if there is such a round.
fn run_next(
    switch: &mut Switch,
    schedule: &Schedule,
    run: &mut Run,
    first: u32,
) -> Result<Option<u32>, NoMemory>
    requires served { AreServed switch.old schedule.now }
    requires empty { run.old.reading.batch ≡ [] }
    ensures runs { RunsBehind schedule.now run.old switch.old first run.new switch.new result }
    ensures rises { IfOk result (λ next. IfSome next (λ n. (first < n) × (n < 2 ^ 32))) }
    ensures reading { run.new.reading ≡ run.old.reading }
    ensures served { (lines : List Line) → AreServed switch.old lines → AreServed switch.new lines }
{
    match schedule.after(first) {
        Some(next) => match run_batch(switch, schedule, run, next) {
            Ok(()) => Ok(Some(next)),
            Err(_) => Err(NoMemory),
        },
        None => Ok(None),
    }
}

/// Runs the rounds of commands alone that follow, once the trace ended.
fn run_past(switch: &mut Switch, schedule: &Schedule, run: &mut Run, first: u32) -> TraceEnd
    requires served { AreServed switch.old schedule.now }
    ensures runs { LeavesPast schedule.now run.old switch.old first switch.new result }
{
    run.reading.batch.clear();
    let mut first = first;
    loop {
        match run_next(switch, schedule, run, first) {
            Ok(Some(next)) => first = next,
            Ok(None) => return clean_end(run.short),
            Err(_) => return TraceEnd::Memory,
        }
    }
}

/// Runs a round that was read and reads the next one, or ends the run.
fn run_stretch<H: Host>(
    host: &mut H,
    switch: &mut Switch,
    schedule: &Schedule,
    run: &mut Run,
    stretch: Stretch,
) -> Result<Stretch, TraceEnd>
    requires served { AreServed switch.old schedule.now }
    requires near { IsNear (H.outside host.old) run.old stretch }
    ensures goes { StaysFurther schedule.now (H.outside host.old) run.old switch.old stretch (H.outside host.new) run.new switch.new result }
    ensures near { IfOk result (λ next. IsNear (H.outside host.new) run.new next) }
    ensures rises { IfOk result (λ next. stretch.first < next.first) }
    ensures outputs { SameOutputs (H.outside host.old) (H.outside host.new) }
    ensures served { OnOk result ((lines : List Line) → AreServed switch.old lines → AreServed switch.new lines) }
{
    match run_read(switch, schedule, run, stretch) {
        Ok(()) => match stretch.stop {
            Stop::Full => read_next(host, schedule, run, stretch.next),
            Stop::End => Err(run_past(switch, schedule, run, stretch.first)),
            Stop::Fault => Err(TraceEnd::ReadFault),
            Stop::Bad(bad) => Err(TraceEnd::Refused(bad)),
        },
        Err(_) => Err(TraceEnd::Memory),
    }
}

/// Runs a trace of which the first round was read.
fn run_stretches<H: Host>(
    host: &mut H,
    switch: &mut Switch,
    schedule: &Schedule,
    run: &mut Run,
    first: Stretch,
) -> TraceEnd
    requires served { AreServed switch.old schedule.now }
    requires near { IsNear (H.outside host.old) run.old first }
    ensures runs { LeavesFrom schedule.now (λ s start name. IsFilled s start (H.outside host.old) name run.old switch.old first) (H.outside host.new) switch.new result }
    ensures outputs { SameOutputs (H.outside host.old) (H.outside host.new) }
{
    let mut stretch = first;
    loop {
        match run_stretch(host, switch, schedule, run, stretch) {
            Ok(next) => stretch = next,
            Err(end) => return end,
        }
    }
}

/// Reads the first round, or finds that there is no good header.
fn begin<H: Host>(host: &mut H, schedule: &Schedule, run: &mut Run) -> Result<Stretch, TraceEnd>
    requires near { IsOpen (H.outside host.old) run.old.reading }
    requires empty { run.old.reading.batch ≡ [] }
    ensures goes { StaysFirst schedule.now (H.outside host.old) run.old (H.outside host.new) run.new result }
    ensures near { IfOk result (λ next. IsNear (H.outside host.new) run.new next) }
    ensures outputs { SameOutputs (H.outside host.old) (H.outside host.new) }
{
    let next = next_cut(schedule, 0);
    match fill(host, &mut run.reading, next) {
        Ok(stop) => match unheaded(stop, run.reading.seen) {
            None => Ok(Stretch {
                first: 0,
                next,
                stop,
            }),
            Some(end) => Err(end),
        },
        Err(_) => Err(TraceEnd::Memory),
    }
}

/// Runs a trace that was opened, and of which nothing was read.
fn run_opened<H: Host>(
    host: &mut H,
    switch: &mut Switch,
    schedule: &Schedule,
    run: &mut Run,
) -> TraceEnd
    requires served { AreServed switch.old schedule.now }
    requires near { IsOpen (H.outside host.old) run.old.reading }
    requires empty { run.old.reading.batch ≡ [] }
    ensures runs { LeavesFrom schedule.now (λ s start name. IsOpened s start (H.outside host.old) name run.old switch.old) (H.outside host.new) switch.new result }
    ensures outputs { SameOutputs (H.outside host.old) (H.outside host.new) }
{
    match begin(host, schedule, run) {
        Ok(first) => run_stretches(host, switch, schedule, run, first),
        Err(end) => end,
    }
}

/// Runs the trace of this name through a switch that is at its beginning, and puts nothing. It ends by `Done` once all rounds
/// were run, and memory was wanting in none.
pub(crate) fn run_quietly<H: Host>(
    alloc: Global,
    host: &mut H,
    switch: &mut Switch,
    schedule: &Schedule,
    name: &str,
) -> TraceEnd
    requires served { AreServed switch.old schedule.now }
    ensures runs { (s : Setting) → s.commands ≡ schedule.now → IsFresh s switch.old → Leaves s (H.outside host.old) (H.outside host.new) name.now switch.new result }
    ensures outputs { SameOutputs (H.outside host.old) (H.outside host.new) }
{
    match Source::open(alloc, host, name) {
        Ok(source) => {
            let mut run = Run {
                reading: begin_reading(alloc, source),
                text: RoundText::new(alloc),
                short: false,
            };
            run_opened(host, switch, schedule, &mut run)
        }
        Err(Unopened::Fault) => TraceEnd::ReadFault,
        Err(Unopened::Memory) => TraceEnd::Memory,
    }
}
