//! The thread that leads where packets are handed over as they are read: it reads them, and the workers carry them in threads that stay.

ghost use Rattle.std.specs.Prelude.{◌≡◌, ◌<◌, ◌≤◌, ◌+◌, [], length, Ok, IfOk, IfSome, OnOk};
ghost use Rattle.vsw_crew.specs.Crew.{crew_now};
ghost use Rattle.vsw_crew.specs.Shift.{HasNoneBeside};
ghost use Rattle.vsw_crew.specs.Switch.{AreServed};
ghost use Rattle.vsw_reading.specs.declared.reading.Stop.TheVariants.{Full};
ghost use Rattle.vsw_replay.specs.Private.Begun.{AddsTo, FillsRound, IsNearBegun, NearTurn, PartNear, ReadsOne, Turns};
ghost use Rattle.vsw_replay.specs.Private.Going.{IsNear};
ghost use Rattle.vsw_replay.specs.Private.Streaming.{Carries, FeedsAll, FeedsOne, HasToFeed, IsToStream, KeepsLead, LeadTurns, MayStream, Streams, StreamsTo};

use crate::ahead::{is_quiet, pay};
use crate::begun::{Turn, follow, held, read_one};
use crate::ending::TraceEnd;
use crate::trace::{Run, Stretch};
use std::alloc::Global;
use std::sync::Wait;
use std::thread::Threads;
use std::time::Clock;
use vsw_base::NoMemory;
use vsw_crew::{Crew, Feeding, Naming, StreamCarried, StreamCarrier, StreamShare, Watch};
use vsw_hands::{Lead, Pool, Roll, run_hands};
use vsw_host::Host;
use vsw_promise::Schedule;
use vsw_reading::Stop;
use vsw_workers::Gate;

/// The thread that leads: it reads packets and hands them over.
#[derive(Drop)]
pub(crate) struct Streaming<'a, 'c, 'g, J: Naming, G> {
    pub crew: Crew<'c, 'g, J, G>,
    pub schedule: &'a Schedule,
    pub run: Run,
    pub turn: Turn,
    /// How the run ended, if it did.
    pub end: Option<TraceEnd>,
}

/// The round that is next, if its packets are handed over as they are read: it has one, and no command runs beside them.
fn to_stream(schedule: &Schedule, turn: Turn) -> Option<Stretch>
    ensures { IfSome result (λ begun. IsToStream schedule.now turn begun) }
{
    match turn {
        Turn::Begun(begun) => {
            if matches!(begun.stop, Stop::Full) && is_quiet(schedule, begun.first) {
                Some(begun)
            } else {
                None
            }
        }
        Turn::Past(_) => None,
    }
}

/// Hands over the packet that was read last, and reads one more. A job of the feeder is to read a packet and hand it over.
fn feed_next<'c, 'g, J: Naming, G: Gate + Watch, H: Host>(
    host: &mut H,
    crew: &Crew<'c, 'g, J, G>,
    feeding: &mut Feeding,
    run: &mut Run,
    begun: Stretch,
) -> Result<Option<Stop>, NoMemory>
    requires feeding { HasToFeed crew.now.harbour run.old.reading.batch feeding.old }
    requires most { begun.first + feeding.old.most ≡ begun.next }
    requires near { IsNear (H.outside host.old) run.old begun }
    requires full { begun.stop ≡ Full }
    requires room { begun.first + length run.old.reading.batch ≤ begun.next }
    ensures feeds { IfOk result (λ stop. FeedsOne crew.now.harbour run.old.reading.batch feeding.old run.new.reading.batch feeding.new stop) }
    ensures goes { ReadsOne begun (H.outside host.old) run.old (H.outside host.new) run.new result }
    ensures near { IfOk result (λ stop. PartNear (H.outside host.new) run.new begun stop) }
    ensures adds { IfOk result (λ stop. AddsTo run.old.reading.batch run.new.reading.batch stop) }
    ensures most { feeding.new.most ≡ feeding.old.most }
{
    match crew.feed(feeding, &run.reading.batch) {
        Ok(()) => {
            let fed = held(&run.reading.batch);
            crew.leave(fed - 1);
            crew.enter(fed);
            match read_one(host, run, begun) {
                Ok(stop) => Ok(stop),
                Err(_) => Err(NoMemory),
            }
        }
        Err(_) => Err(NoMemory),
    }
}

/// Hands over the packets of a round, each as it is read, until the round is whole or the reading stops. The first one was read. In the feeder's last
/// job, which begins here, the rings end.
fn feed_round<'c, 'g, J: Naming, G: Gate + Watch, H: Host>(
    host: &mut H,
    crew: &Crew<'c, 'g, J, G>,
    feeding: &mut Feeding,
    run: &mut Run,
    begun: Stretch,
) -> Result<Stretch, NoMemory>
    requires feeding { HasToFeed crew.now.harbour run.old.reading.batch feeding.old }
    requires most { begun.first + feeding.old.most ≡ begun.next }
    requires near { IsNear (H.outside host.old) run.old begun }
    requires full { begun.stop ≡ Full }
    requires room { begun.first + length run.old.reading.batch ≤ begun.next }
    ensures feeds { IfOk result (λ t. FeedsAll crew.now.harbour run.old.reading.batch feeding.old run.new.reading.batch feeding.new) }
    ensures goes { FillsRound begun (H.outside host.old) run.old (H.outside host.new) run.new result }
    ensures near { IfOk result (λ t. IsNear (H.outside host.new) run.new t) }
    ensures first { IfOk result (λ t. t.first ≡ begun.first) }
    ensures some { IfOk result (λ t. 0 < length run.new.reading.batch) }
{
    crew.enter(0);
    loop {
        match feed_next(host, crew, feeding, run, begun) {
            Ok(None) => {}
            Ok(Some(stop)) => {
                return Ok(Stretch {
                    first: begun.first,
                    next: begun.next,
                    stop,
                })
            }
            Err(_) => return Err(NoMemory),
        }
    }
}

impl<'a, 'c, 'g, J: Naming, G: Gate + Watch> Streaming<'a, 'c, 'g, J, G> {
    /// Hands over the packets of a round, waits until they are carried, and puts its text.
    fn carry<R: Wait + Clock, B: Roll, H: Host>(
        &mut self,
        rt: &R,
        host: &mut H,
        pool: &mut Pool<'_, StreamShare<'c, 'g, J, G>, StreamCarried, StreamCarrier<'g, G>, B>,
        begun: Stretch,
    ) -> Result<Stretch, TraceEnd>
        requires idle { pool.old ≡ [] }
        requires served { AreServed (crew_now self.old.crew) self.old.schedule.now }
        requires near { IsNearBegun (H.outside host.old) self.old.run begun }
        requires full { begun.stop ≡ Full }
        requires quiet { HasNoneBeside self.old.schedule.now begun.first }
        ensures goes { Carries begun (H.outside host.old) self.old (H.outside host.new) self.new result }
        ensures near { IfOk result (λ t. IsNear (H.outside host.new) self.new.run t) }
        ensures served { OnOk result (AreServed (crew_now self.new.crew) self.old.schedule.now) }
        ensures same { KeepsLead self.old self.new }
        ensures idle { OnOk result (pool.new ≡ []) }
    {
        let most = begun.next - begun.first;
        let Ok(mut feeding) = self
            .crew
            .open_stream(rt, pool, self.schedule, begun.first, most)
        else {
            return Err(TraceEnd::Memory);
        };
        match feed_round(host, &self.crew, &mut feeding, &mut self.run, begun) {
            Ok(stretch) => {
                // Told here, since the workers may need the gate until they are waited for.
                self.crew.leave(held(&self.run.reading.batch));
                match self.crew.close_stream(rt, pool, feeding) {
                    Ok(owed) => match pay(host, &mut self.crew, &mut self.run, owed) {
                        Ok(()) => Ok(stretch),
                        Err(end) => Err(end),
                    },
                    Err(_) => Err(TraceEnd::Memory),
                }
            }
            Err(_) => {
                feeding.give_up();
                Err(TraceEnd::Memory)
            }
        }
    }

    /// Hands over the packets of a round and puts its text. Then the next round begins, or the trace ended.
    fn stream<R: Wait + Clock, B: Roll, H: Host>(
        &mut self,
        rt: &R,
        host: &mut H,
        pool: &mut Pool<'_, StreamShare<'c, 'g, J, G>, StreamCarried, StreamCarrier<'g, G>, B>,
        begun: Stretch,
    ) -> Result<Turn, TraceEnd>
        requires idle { pool.old ≡ [] }
        requires served { AreServed (crew_now self.old.crew) self.old.schedule.now }
        requires near { IsNearBegun (H.outside host.old) self.old.run begun }
        requires full { begun.stop ≡ Full }
        requires quiet { HasNoneBeside self.old.schedule.now begun.first }
        ensures goes { Streams begun (H.outside host.old) self.old (H.outside host.new) self.new result }
        ensures near { IfOk result (λ turn. NearTurn (H.outside host.new) self.new.run turn) }
        ensures served { OnOk result (AreServed (crew_now self.new.crew) self.old.schedule.now) }
        ensures same { KeepsLead self.old self.new }
        ensures idle { OnOk result (pool.new ≡ []) }
    {
        match self.carry(rt, host, pool, begun) {
            Ok(stretch) => match follow(host, self.schedule, &mut self.run, stretch) {
                Ok(turn) => Ok(turn),
                Err(end) => Err(end),
            },
            Err(end) => Err(end),
        }
    }

    /// Hands over the packets of rounds, as long as no command of the next one runs beside them.
    fn stream_all<R: Wait + Clock, B: Roll, H: Host>(
        &mut self,
        rt: &R,
        host: &mut H,
        pool: &mut Pool<'_, StreamShare<'c, 'g, J, G>, StreamCarried, StreamCarrier<'g, G>, B>,
        first: Turn,
    ) -> Result<Turn, TraceEnd>
        requires idle { pool.old ≡ [] }
        requires served { AreServed (crew_now self.old.crew) self.old.schedule.now }
        requires near { NearTurn (H.outside host.old) self.old.run first }
        ensures goes { LeadTurns first (H.outside host.old) self.old (H.outside host.new) self.new result }
        ensures near { IfOk result (λ turn. NearTurn (H.outside host.new) self.new.run turn) }
        ensures served { OnOk result (AreServed (crew_now self.new.crew) self.old.schedule.now) }
        ensures same { KeepsLead self.old self.new }
    {
        let mut turn = first;
        for _ in rt.forever() {
            match to_stream(self.schedule, turn) {
                Some(begun) => match self.stream(rt, host, pool, begun) {
                    Ok(next) => turn = next,
                    Err(end) => return Err(end),
                },
                None => return Ok(turn),
            }
        }
        unreachable!()
    }
}

impl<'a, 'c, 'g, J: Naming, G: Gate + Watch, H: Host> Lead<
    H,
    StreamShare<'c, 'g, J, G>,
    StreamCarried,
    StreamCarrier<'g, G>,
> for Streaming<'a, 'c, 'g, J, G> {
    ghost use Rattle.vsw_replay.specs.Private.Streaming.{MayStream, StreamsTo};

    ghost may = { λ a with. MayStream a (H.outside with) };

    ghost leads = { λ a with b then. StreamsTo a (H.outside with) b (H.outside then) };

    fn lead<R: Wait + Clock, B: Roll>(
        &mut self,
        rt: &R,
        with: &mut H,
        pool: &mut Pool<'_, StreamShare<'c, 'g, J, G>, StreamCarried, StreamCarrier<'g, G>, B>,
    ) {
        let first = self.turn;
        match self.stream_all(rt, with, pool, first) {
            Ok(turn) => self.turn = turn,
            Err(end) => self.end = Some(end),
        }
    }
}

/// Starts a thread for each worker, and leads.
fn stream_hands<
    'a,
    'c,
    'g,
    J: Naming + Send + Sync,
    G: Gate + Watch + Sync,
    R: Threads + Wait + Clock + Sync,
    H: Host,
>(rt: &R, alloc: Global, host: &mut H, streaming: &mut Streaming<'a, 'c, 'g, J, G>)
    requires may { MayStream streaming.old (H.outside host.old) }
    ensures { StreamsTo streaming.old (H.outside host.old) streaming.new (H.outside host.new) }
{
    let hands = streaming.crew.workers() as usize;
    let carrier = streaming.crew.stream_carrier();
    let _ = run_hands(rt, alloc, &carrier, hands, streaming, host);
}

/// Hands over the packets of rounds, if the one that was begun is fit for it and as long as the next ones are.
pub(crate) fn run_streaming<
    'c,
    'g,
    J: Naming + Send + Sync,
    G: Gate + Watch + Sync,
    R: Threads + Wait + Clock + Sync,
    H: Host,
>(
    rt: &R,
    alloc: Global,
    host: &mut H,
    crew: Crew<'c, 'g, J, G>,
    schedule: &Schedule,
    run: Run,
    turn: Turn,
) -> (Crew<'c, 'g, J, G>, Run, Result<Turn, TraceEnd>)
    requires served { AreServed (crew_now crew) schedule.now }
    requires near { NearTurn (H.outside host.old) run turn }
    ensures goes { Turns schedule.now (H.outside host.old) run (crew_now crew.entry) (Ok turn) (H.outside host.new) result.1 (crew_now result.0) result.2 }
    ensures near { IfOk result.2 (λ t. NearTurn (H.outside host.new) result.1 t) }
    ensures served { OnOk result.2 (AreServed (crew_now result.0) schedule.now) }
{
    if to_stream(schedule, turn).is_none() {
        return (crew, run, Ok(turn));
    }
    let mut streaming = Streaming {
        crew,
        schedule,
        run,
        turn,
        end: None,
    };
    stream_hands(rt, alloc, host, &mut streaming);
    let Streaming {
        crew,
        run,
        turn,
        end,
        ..
    } = streaming;
    match end {
        Some(end) => (crew, run, Err(end)),
        None => (crew, run, Ok(turn)),
    }
}
