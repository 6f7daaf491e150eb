//! What runs the rounds of a run.

ghost use Rattle.std.specs.Prelude.{◌≡◌, ◌<◌, ◌≤◌, ◌+◌, ◌^◌, List, length, Ok, IfOk, OnOk};
ghost use Rattle.vsw_commandfile.specs.declared.line.Line.{Line};
ghost use Rattle.vsw_crew.specs.Crew.{RunsRound, crew_now};
ghost use Rattle.vsw_report.specs.Whole.{whole_text};
ghost use Rattle.vsw_crew.specs.Switch.{AreServed};
ghost use Rattle.vsw_replay.specs.Private.Begun.{NearTurn, Turns};
ghost use Rattle.vsw_replay.specs.Private.Going.{GoesFurther, IsNear};

use crate::ahead::run_ahead;
use crate::begun::Turn;
use crate::ending::TraceEnd;
use crate::streaming::run_streaming;
use crate::trace::{Run, Stretch};
use std::alloc::Global;
use std::marker::Model;
use std::sync::Wait;
use std::thread::Threads;
use std::time::Clock;
use vsw_base::NoMemory;
use vsw_crew::{Crew, Naming, Switch, Watch, run_round};
use vsw_host::Host;
use vsw_pcap::Batch;
use vsw_promise::Schedule;
use vsw_report::RoundText;
use vsw_workers::Gate;

/// Who does the work of a round.
#[derive(Drop)]
enum Work<'c, 'g, J: Naming, G> {
    /// One thread, which waits for nobody, and who is told of its packets.
    Alone(Switch, &'g G),
    /// Each worker and each controller in a thread of its own.
    Beside(Crew<'c, 'g, J, G>),
}

/// What runs the rounds of a run: one thread that does the work of all callers, or a thread for each. It is seen as the ports between rounds.
#[derive(Drop)]
pub struct Runner<'c, 'g, J: Naming, G> {
    work: Work<'c, 'g, J, G>,
}

impl<'c, 'g, J: Naming, G> Model for Runner<'c, 'g, J, G> {
    ghost use Rattle.vsw_replay.specs.Private.Runner.{now_in};
    ghost use Rattle.vsw_crew.specs.Switch.{SwitchNow};

    ghost Value = { SwitchNow };

    ghost view = { λ r. now_in r.work };
}

impl<'c, 'g, J: Naming, G> Runner<'c, 'g, J, G> {
    /// One thread does all. The watch is told of each packet that isn't loose.
    pub fn alone(switch: Switch, watch: &'g G) -> Runner<'c, 'g, J, G>
        ensures { result ≡ switch }
    {
        Runner {
            work: Work::Alone(switch, watch),
        }
    }

    /// Each caller has a thread.
    pub fn beside(crew: Crew<'c, 'g, J, G>) -> Runner<'c, 'g, J, G>
        ensures { result ≡ crew_now crew.entry }
    {
        Runner {
            work: Work::Beside(crew),
        }
    }
}

/// Runs a round in one thread, which tells the watch of its packets.
#[tactic(auto, using(crate::proofs::Behind::told_alone))]
pub(crate) fn run_alone<G: Watch>(
    switch: &mut Switch,
    watch: &G,
    schedule: &Schedule,
    first: u32,
    packets: &Batch,
    out: &mut RoundText,
) -> Result<bool, NoMemory>
    requires served { AreServed switch.old schedule.now }
    requires numbers { first + length packets.now < 2 ^ 32 }
    ensures runs { IfOk result (λ short. RunsRound schedule.now first packets.now switch.old switch.new short (whole_text out.old) (whole_text out.new)) }
    ensures served { (lines : List Line) → AreServed switch.old lines → AreServed switch.new lines }
{
    run_round(switch, watch, schedule, first, packets, out)
}

/// Runs a round with a thread for each caller.
fn run_beside<
    'c,
    'g,
    J: Naming + Send + Sync,
    G: Gate + Watch + Sync,
    R: Threads + Wait + Clock + Sync,
>(
    crew: &mut Crew<'c, 'g, J, G>,
    rt: &R,
    schedule: &Schedule,
    first: u32,
    packets: &Batch,
    out: &mut RoundText,
) -> Result<bool, NoMemory>
    requires served { AreServed (crew_now crew.old) schedule.now }
    requires numbers { first + length packets.now < 2 ^ 32 }
    ensures runs { IfOk result (λ short. RunsRound schedule.now first packets.now (crew_now crew.old) (crew_now crew.new) short (whole_text out.old) (whole_text out.new)) }
    ensures served { (lines : List Line) → AreServed (crew_now crew.old) lines → AreServed (crew_now crew.new) lines }
{
    crew.run_round(rt, schedule, first, packets, out)
}

impl<'c, 'g, J: Naming + Send + Sync, G: Gate + Watch + Sync> Runner<'c, 'g, J, G> {
    /// Runs the round of these packets, the first of which has the number `first` in the trace: the commands that name that
    /// number, first those before the packets, and then those beside them and the packets. Appends its text, and answers
    /// whether memory was wanting for one of them. After `NoMemory` nothing is said of the ports and of what was appended.
    pub fn run_round<R: Threads + Wait + Clock + Sync>(
        &mut self,
        rt: &R,
        schedule: &Schedule,
        first: u32,
        packets: &Batch,
        out: &mut RoundText,
    ) -> Result<bool, NoMemory>
        requires served { AreServed self.old schedule.now }
        requires numbers { first + length packets.now < 2 ^ 32 }
        ensures runs { IfOk result (λ short. RunsRound schedule.now first packets.now self.old self.new short (whole_text out.old) (whole_text out.new)) }
        ensures served { (lines : List Line) → AreServed self.old lines → AreServed self.new lines }
    {
        match &mut self.work {
            Work::Alone(switch, watch) => run_alone(switch, *watch, schedule, first, packets, out),
            Work::Beside(crew) => run_beside(crew, rt, schedule, first, packets, out),
        }
    }
}

/// Runs rounds by threads that stay, where each caller has one and as long as the rounds are fit for it. Gives back the round that was
/// read and is not, or how the run ended.
pub(crate) fn go_ahead<
    'c,
    'g,
    J: Naming + Send + Sync,
    G: Gate + Watch + Sync,
    R: Threads + Wait + Clock + Sync,
    H: Host,
>(
    rt: &R,
    alloc: Global,
    host: &mut H,
    runner: Runner<'c, 'g, J, G>,
    schedule: &Schedule,
    run: Run,
    stretch: Stretch,
) -> (Runner<'c, 'g, J, G>, Run, Result<Stretch, TraceEnd>)
    requires served { AreServed runner schedule.now }
    requires near { IsNear (H.outside host.old) run stretch }
    ensures goes { GoesFurther schedule.now (H.outside host.old) run runner.entry stretch (H.outside host.new) result.1 result.0 result.2 }
    ensures near { IfOk result.2 (λ t. IsNear (H.outside host.new) result.1 t) }
    ensures served { OnOk result.2 (AreServed result.0 schedule.now) }
    ensures rises { IfOk result.2 (λ t. stretch.first ≤ t.first) }
{
    match runner.work {
        Work::Alone(switch, watch) => (Runner::alone(switch, watch), run, Ok(stretch)),
        Work::Beside(crew) => {
            let (crew, run, next) = run_ahead(rt, alloc, host, crew, schedule, run, stretch);
            (Runner::beside(crew), run, next)
        }
    }
}

/// Hands over the packets of rounds as they are read, where each caller has a thread and as long as the rounds are fit for it. Gives back the round
/// that was begun and is not, what else is done next, or how the run ended.
pub(crate) fn go_streaming<
    'c,
    'g,
    J: Naming + Send + Sync,
    G: Gate + Watch + Sync,
    R: Threads + Wait + Clock + Sync,
    H: Host,
>(
    rt: &R,
    alloc: Global,
    host: &mut H,
    runner: Runner<'c, 'g, J, G>,
    schedule: &Schedule,
    run: Run,
    turn: Turn,
) -> (Runner<'c, 'g, J, G>, Run, Result<Turn, TraceEnd>)
    requires served { AreServed runner schedule.now }
    requires near { NearTurn (H.outside host.old) run turn }
    ensures goes { Turns schedule.now (H.outside host.old) run runner.entry (Ok turn) (H.outside host.new) result.1 result.0 result.2 }
    ensures near { IfOk result.2 (λ t. NearTurn (H.outside host.new) result.1 t) }
    ensures served { OnOk result.2 (AreServed result.0 schedule.now) }
{
    match runner.work {
        Work::Alone(switch, watch) => (Runner::alone(switch, watch), run, Ok(turn)),
        Work::Beside(crew) => {
            let (crew, run, next) = run_streaming(rt, alloc, host, crew, schedule, run, turn);
            (Runner::beside(crew), run, next)
        }
    }
}
