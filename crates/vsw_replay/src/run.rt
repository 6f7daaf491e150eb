//! Running a workload.

ghost use Rattle.std.specs.Prelude.{◌≡◌, ◌≤◌, ◌<◌, ◌+◌, ◌^◌, ℕ, [], List, length, IfOk, OnOk};
ghost use Rattle.vsw_commandfile.specs.declared.line.Line.{Line};
ghost use Rattle.vsw_port.specs.declared.event.Event.{Event};
ghost use Rattle.vsw_pcap.specs.declared.capture.Record.{Record};
ghost use Rattle.vsw_run.specs.Generated.{Summarizes};
ghost use Rattle.vsw_promise.specs.Jobs.{Setting};
ghost use Rattle.vsw_replay.specs.Switch.{AreServed, IsAt};
ghost use Rattle.vsw_replay.specs.Going.{Goes, IsTurn, end_of};
ghost use Rattle.vsw_replay.specs.WorkloadRuns.{RunsWorkload};
ghost use Rattle.vsw_replay.specs.Fresh.{IfFreshForWorkload};

use crate::draw::draw;
use crate::summary::five_lines;
use crate::{Answer, Switch, Tally, Watch, run_round};
use std::alloc::Global;
use vsw_base::{Items, NoMemory};
use vsw_generate::Workload;
use vsw_host::Host;
use vsw_pcap::Batch;
use vsw_promise::Schedule;
use vsw_report::RoundText;

/// How a run over a workload ended.
#[derive(Clone, Copy)]
pub enum WorkloadEnd {
    /// The summary was put, of rounds in which no memory was wanting.
    Done,
    /// It couldn't be put.
    WriteFault,
    /// There was no memory: for the run itself, or for a packet.
    Memory,
}

/// A watch that does nothing with what it is told.
pub(crate) struct Nobody;

impl Watch for Nobody {
    fn answered(&self, _worker: u32, _packet: u32, _answer: &Answer) {}
}

/// What a run holds beside its switch.
#[derive(Drop)]
struct Run {
    /// The packets to come.
    workload: Workload,
    /// The packets of a round.
    batch: Batch,
    /// The text of a round, which nobody reads, in room that the next round's text finds again.
    text: RoundText,
    /// What became of the packets.
    tally: Tally,
    /// Whether memory was wanting for one of them.
    short: bool,
}

/// Runs the round of the batch, of which the first packet has this number.
fn run_batch(
    switch: &mut Switch,
    schedule: &Schedule,
    run: &mut Run,
    first: u32,
) -> Result<(), NoMemory>
    requires served { AreServed switch.old schedule.now }
    requires numbers { first + length run.old.batch < 2 ^ 32 }
    ensures turn { OnOk result ((s : Setting) (hs : List (List Event)) → s.commands ≡ schedule.now → IsAt s hs switch.old → IsTurn s hs first run.old run.new switch.new) }
    ensures workload { run.new.workload ≡ run.old.workload }
    ensures served { (lines : List Line) → AreServed switch.old lines → AreServed switch.new lines }
{
    run.text.clear();
    let told = run_round(switch, &Nobody, schedule, first, &run.batch, &mut run.text)?;
    let last = switch.last()?;
    let tally = run.tally.and(last)?;
    run.tally = tally;
    run.short = run.short || told;
    Ok(())
}

/// Draws and runs the next round, of which the first packet has this number. Answers how many packets it has; where none is left,
/// there is no round.
fn run_next(
    switch: &mut Switch,
    schedule: &Schedule,
    run: &mut Run,
    first: u32,
) -> Result<u32, NoMemory>
    requires served { AreServed switch.old schedule.now }
    requires alone { schedule.now ≡ [] }
    requires few { first + run.old.workload.2 ≤ 1048576 }
    ensures goes { IfOk result (λ count. (s : Setting) (all : List Record) → s.commands ≡ [] → Goes s all first run.old switch.old → Goes s all (first + count) run.new switch.new) }
    ensures left { IfOk result (λ count. count + run.new.workload.2 ≡ run.old.workload.2) }
    ensures end { IfOk result (λ count. count ≡ 0 → run.new.workload.2 ≡ 0) }
    ensures served { (lines : List Line) → AreServed switch.old lines → AreServed switch.new lines }
{
    run.batch.clear();
    draw(&mut run.workload, &mut run.batch)?;
    let count = run.batch.len();
    if count == 0 {
        return Ok(0);
    }
    run_batch(switch, schedule, run, first)?;
    Ok(count as u32)
}

/// Runs all rounds.
fn run_rounds(switch: &mut Switch, schedule: &Schedule, run: &mut Run) -> Result<(), NoMemory>
    requires served { AreServed switch.old schedule.now }
    requires alone { schedule.now ≡ [] }
    requires few { run.old.workload.2 ≤ 1048576 }
    ensures goes { OnOk result ((s : Setting) (all : List Record) → s.commands ≡ [] → Goes s all 0 run.old switch.old → (first : ℕ) × Goes s all first run.new switch.new) }
    ensures end { OnOk result (run.new.workload.2 ≡ 0) }
{
    let mut first = 0;
    loop {
        let count = run_next(switch, schedule, run, first)?;
        if count == 0 {
            return Ok(());
        }
        first += count;
    }
}

/// Runs so many packets, drawn from this number, through a switch that is at its beginning, and appends the summary. Answers whether memory was
/// wanting for one of them.
fn summarize(
    alloc: Global,
    switch: &mut Switch,
    start: u32,
    packets: u32,
    out: &mut Vec<u8>,
) -> Result<bool, NoMemory>
    requires start { start < 2 ^ 31 }
    requires some { 1 ≤ packets }
    requires few { packets ≤ 1048576 }
    requires empty { out.old.items ≡ [] }
    ensures { IfOk result (λ short. IfFreshForWorkload switch.old (Summarizes start packets short out.new.items)) }
{
    let schedule = Schedule::new(alloc, Items::new(alloc))?;
    let mut run = Run {
        workload: Workload::new(start, packets),
        batch: Batch::new(alloc),
        text: RoundText::new(alloc),
        tally: Tally::none(),
        short: false,
    };
    run_rounds(switch, &schedule, &mut run)?;
    let events = switch.entries()?;
    five_lines(out, packets, run.tally, events)?;
    Ok(run.short)
}

/// How a run ends whose summary was put.
fn end_of(short: bool) -> WorkloadEnd
    ensures { result ≡ end_of short }
{
    if short {
        WorkloadEnd::Memory
    } else {
        WorkloadEnd::Done
    }
}

/// Runs a workload of so many packets, drawn from this number, through the switch of its policy, which has one worker and is at its
/// beginning, and puts the summary at once.
pub fn run_workload<H: Host>(
    alloc: Global,
    host: &mut H,
    switch: &mut Switch,
    start: u32,
    packets: u32,
) -> WorkloadEnd
    requires start { start < 2 ^ 31 }
    requires some { 1 ≤ packets }
    requires few { packets ≤ 1048576 }
    ensures runs { IfFreshForWorkload switch.old (RunsWorkload start packets (H.outside host.old) (H.outside host.new) result) }
{
    let mut out = Vec::new(alloc);
    match summarize(alloc, switch, start, packets, &mut out) {
        Ok(short) => match host.put(out.as_slice()) {
            Ok(()) => end_of(short),
            Err(_) => WorkloadEnd::WriteFault,
        },
        Err(_) => WorkloadEnd::Memory,
    }
}
