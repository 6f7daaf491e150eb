//! Rounds by threads that stay: while one is out, the text of the one before is put and the next one is read.

ghost use Rattle.std.specs.Prelude.{◌≡◌, ◌<◌, ◌≤◌, ◌+◌, ◌^◌, ◌||◌, ℕ, [], Bool, List, None, Some, IfErr, IfOk, OnOk, length, true};
ghost use Rattle.std.specs.Arc.{arc_value};
ghost use Rattle.vsw_crew.specs.Crew.{crew_now};
ghost use Rattle.vsw_crew.specs.Shift.{HasNoneBeside, IsPicked, Owes};
ghost use Rattle.vsw_crew.specs.Switch.{AreServed};
ghost use Rattle.vsw_host.specs.Outside.{SameInputs};
ghost use Rattle.vsw_reading.specs.Reads.{IsOpen};
ghost use Rattle.vsw_reading.specs.declared.reading.Stop.TheVariants.{Full};
ghost use Rattle.vsw_report.specs.Whole.{whole_text};
ghost use Rattle.vsw_replay.specs.Private.Ahead.{with_batch};
ghost use Rattle.vsw_replay.specs.Private.Going.{GoesFurther, IsNear};
ghost use Rattle.vsw_replay.specs.Private.Leading.{DoesRound, DoesRounds, GoesMeanwhile, IsFit, IsLeading, IsPickedFor, KeepsCrew, LeadsAll, LeadsTo, MayLead, MayOwe, Paid, ReadsMeanwhile, Settles, StaysBeside, with_round};
ghost use Rattle.vsw_replay.specs.declared.ending.TraceEnd.TheVariants.{Memory};
ghost use Rattle.vsw_replay.specs.Private.Next.{in_batch};

use crate::ending::TraceEnd;
use crate::sheets::put_text;
use crate::trace::{RECORDS_MOST, Run, Stretch, read_on};
use std::alloc::Global;
use std::mem::replace;
use std::sync::{Arc, Wait};
use std::thread::Threads;
use std::time::Clock;
use vsw_base::NoMemory;
use vsw_crew::{Carried, Carrier, Crew, Naming, Owed, Picked, Share, Underway, Watch};
use vsw_hands::{Lead, Pool, Roll, run_hands};
use vsw_host::Host;
use vsw_pcap::Batch;
use vsw_promise::Schedule;
use vsw_reading::Stop;
use vsw_workers::Gate;

/// The fewest packets of a round for which threads that stay are worth it.
const FEWEST: usize = 32;

/// A round that goes out next.
#[derive(Drop)]
pub(crate) struct InHand {
    pub picked: Picked,
    /// Its packets, whose room serves a later round once this one is done.
    pub packets: Arc<Batch>,
}

/// The thread that leads.
#[derive(Drop)]
pub(crate) struct Ahead<'a, 'c, 'g, J: Naming, G> {
    pub alloc: Global,
    pub crew: Crew<'c, 'g, J, G>,
    pub schedule: &'a Schedule,
    pub run: Run,
    pub stretch: Stretch,
    /// Room for the records of a round.
    pub spare: Option<Batch>,
    /// The round that was read, if it is to go out.
    pub picked: Option<InHand>,
    /// The round that was done last, of which nothing is told yet.
    pub owed: Option<Owed>,
    /// How the run ended, if it did.
    pub end: Option<TraceEnd>,
}

/// Whether no command of the round that begins with this packet runs beside its packets.
pub(crate) fn is_quiet(schedule: &Schedule, first: u32) -> bool
    ensures { result ≡ true → HasNoneBeside schedule.now first }
{
    let places = schedule.places(first);
    for place in 0..places.len() {
        if schedule.line(places[place]).during {
            return false;
        }
    }
    true
}

/// Whether a round that was read goes to threads that stay.
fn is_fit(schedule: &Schedule, run: &Run, stretch: Stretch) -> bool
    ensures { result ≡ true → IsFit schedule.now run.now stretch }
{
    if run.reading.batch.len() < FEWEST {
        return false;
    }
    if !matches!(stretch.stop, Stop::Full) {
        return false;
    }
    if stretch.next >= RECORDS_MOST {
        return false;
    }
    is_quiet(schedule, stretch.first)
}

/// Takes the records of the round out of the run.
fn take_batch(alloc: Global, run: &mut Run, spare: &mut Option<Batch>) -> Batch
    ensures batch { result ≡ run.old.reading.batch }
    ensures run { with_batch run.new result ≡ run.old }
{
    let room = match spare.take() {
        Some(room) => room,
        None => Batch::new(alloc),
    };
    replace(&mut run.reading.batch, room)
}

/// Takes a round out of the run that was read and goes out next.
fn pick_out<'c, 'g, J: Naming, G>(
    crew: &Crew<'c, 'g, J, G>,
    alloc: Global,
    first: u32,
    batch: Batch,
) -> Result<InHand, NoMemory>
    requires numbers { first + length batch < 2 ^ 32 }
    ensures picked { IfOk result (λ r. IsPicked crew.now.harbour first (arc_value r.packets) r.picked) }
    ensures packets { IfOk result (λ r. arc_value r.packets ≡ batch) }
{
    let Ok(packets) = Arc::new(alloc, batch) else {
        return Err(NoMemory);
    };
    let Ok(kept) = Arc::try_clone(&packets) else {
        return Err(NoMemory);
    };
    let picked = crew.pick(first, packets)?;
    Ok(InHand {
        picked,
        packets: kept,
    })
}

/// Takes the round that was read out of the run, if it is fit to go out.
fn pick_round<'c, 'g, J: Naming, G>(
    crew: &Crew<'c, 'g, J, G>,
    alloc: Global,
    schedule: &Schedule,
    run: &mut Run,
    spare: &mut Option<Batch>,
    stretch: Stretch,
) -> Result<Option<InHand>, NoMemory>
    requires low { stretch.first ≤ 1048576 }
    requires size { length run.old.reading.batch ≤ 1048576 }
    ensures picked { IfOk result (λ r. IsPickedFor crew.now.harbour schedule.now run.old stretch r) }
    ensures run { IfOk result (λ r. with_round run.new r ≡ run.old) }
{
    if !is_fit(schedule, run, stretch) {
        return Ok(None);
    }
    let batch = take_batch(alloc, run, spare);
    let round = pick_out(crew, alloc, stretch.first, batch)?;
    Ok(Some(round))
}

fn is_either(one: bool, other: bool) -> bool
    ensures { result ≡ (one || other) }
{
    one || other
}

/// Tells a round that was done.
fn tell_owed<'c, 'g, J: Naming, G>(
    crew: &mut Crew<'c, 'g, J, G>,
    run: &mut Run,
    owed: Owed,
) -> Result<(), NoMemory>
    requires owes { (text : List ℕ) × (short : Bool) × Owes crew.old.harbour owed text short }
    ensures tells { OnOk result ((text : List ℕ) (short : Bool) → Owes crew.old.harbour owed text short → (whole_text run.new.text ≡ text) × (run.new.short ≡ (run.old.short || short))) }
    ensures crew { crew.new ≡ crew.old }
    ensures reading { run.new.reading ≡ run.old.reading }
{
    run.text.clear();
    match crew.tell(owed, &mut run.text) {
        Ok(short) => {
            run.short = is_either(run.short, short);
            Ok(())
        }
        Err(_) => Err(NoMemory),
    }
}

/// Tells a round that was done, and puts its text.
pub(crate) fn pay<'c, 'g, J: Naming, G, H: Host>(
    host: &mut H,
    crew: &mut Crew<'c, 'g, J, G>,
    run: &mut Run,
    owed: Owed,
) -> Result<(), TraceEnd>
    requires owes { (text : List ℕ) × (short : Bool) × Owes crew.old.harbour owed text short }
    ensures pays { (text : List ℕ) (short : Bool) → Owes crew.old.harbour owed text short → Paid (H.outside host.old) (H.outside host.new) run.old.short run.new.short text short result }
    ensures inputs { SameInputs (H.outside host.old) (H.outside host.new) }
    ensures crew { crew.new ≡ crew.old }
    ensures reading { run.new.reading ≡ run.old.reading }
{
    match tell_owed(crew, run, owed) {
        Ok(()) => match put_text(host, &run.text) {
            Ok(()) => Ok(()),
            Err(_) => Err(TraceEnd::WriteFault),
        },
        Err(_) => Err(TraceEnd::Memory),
    }
}

/// Puts the text that is owed, if one is.
fn settle<'c, 'g, J: Naming, G, H: Host>(
    host: &mut H,
    crew: &mut Crew<'c, 'g, J, G>,
    run: &mut Run,
    owed: Option<Owed>,
) -> Result<(), TraceEnd>
    requires owes { MayOwe crew.old.harbour owed }
    ensures settles { Settles crew.old.harbour owed (H.outside host.old) run.old (H.outside host.new) run.new result }
    ensures inputs { SameInputs (H.outside host.old) (H.outside host.new) }
    ensures crew { crew.new ≡ crew.old }
    ensures reading { run.new.reading ≡ run.old.reading }
{
    match owed {
        Some(owed) => match pay(host, crew, run, owed) {
            Ok(()) => Ok(()),
            Err(end) => Err(end),
        },
        None => Ok(()),
    }
}

/// While a round is out: puts the text of the one before, reads the next one, and compares rows of the ports.
fn read_meanwhile<'c, 'g, J: Naming, G: Gate + Watch, R: Wait + Clock, H: Host>(
    rt: &R,
    host: &mut H,
    crew: &mut Crew<'c, 'g, J, G>,
    schedule: &Schedule,
    run: &mut Run,
    owed: Option<Owed>,
    stretch: Stretch,
) -> Result<Stretch, TraceEnd>
    requires owes { MayOwe crew.old.harbour owed }
    requires near { IsOpen (H.outside host.old) (in_batch run.old.reading []) }
    requires low { stretch.next < 1048576 }
    requires full { stretch.stop ≡ Full }
    ensures ahead { ReadsMeanwhile schedule.now crew.old.harbour owed stretch (H.outside host.old) run.old (H.outside host.new) run.new result }
    ensures near { IfOk result (λ next. IsNear (H.outside host.new) run.new next) }
    ensures first { IfOk result (λ next. next.first ≡ stretch.next) }
    ensures crew { crew.new ≡ crew.old }
{
    match settle(host, crew, run, owed) {
        Ok(()) => match read_on(host, schedule, run, stretch.next) {
            Ok(next) => {
                crew.reconcile(rt);
                Ok(next)
            }
            Err(_) => Err(TraceEnd::Memory),
        },
        Err(end) => Err(end),
    }
}

impl<'a, 'c, 'g, J: Naming, G: Gate + Watch> Ahead<'a, 'c, 'g, J, G> {
    /// Takes the round that was read out of the run, if it is fit to go out.
    fn pick(&mut self) -> Result<(), TraceEnd>
        requires low { self.old.stretch.first ≤ 1048576 }
        requires size { length self.old.run.reading.batch ≤ 1048576 }
        ensures picked { OnOk result (IsPickedFor self.old.crew.harbour self.old.schedule.now self.old.run self.old.stretch self.new.picked) }
        ensures run { OnOk result (with_round self.new.run self.new.picked ≡ self.old.run) }
        ensures end { IfErr result (λ e. e ≡ Memory) }
        ensures same { StaysBeside self.old self.new }
    {
        match pick_round(
            &self.crew,
            self.alloc,
            self.schedule,
            &mut self.run,
            &mut self.spare,
            self.stretch,
        ) {
            Ok(picked) => {
                self.picked = picked;
                Ok(())
            }
            Err(_) => Err(TraceEnd::Memory),
        }
    }

    /// While a round is out: puts the text of the one before, and reads and picks the next one.
    fn go_on<R: Wait + Clock, H: Host>(&mut self, rt: &R, host: &mut H) -> Result<(), TraceEnd>
        requires owes { MayOwe self.old.crew.harbour self.old.owed }
        requires near { IsOpen (H.outside host.old) (in_batch self.old.run.reading []) }
        requires low { self.old.stretch.next < 1048576 }
        requires full { self.old.stretch.stop ≡ Full }
        ensures ahead { GoesMeanwhile (H.outside host.old) self.old (H.outside host.new) self.new result }
        ensures near { OnOk result (IsNear (H.outside host.new) (with_round self.new.run self.new.picked) self.new.stretch) }
        ensures picked { OnOk result (IsPickedFor self.new.crew.harbour self.new.schedule.now (with_round self.new.run self.new.picked) self.new.stretch self.new.picked) }
        ensures first { OnOk result (self.new.stretch.first ≡ self.old.stretch.next) }
        ensures same { KeepsCrew self.old self.new }
    {
        let owed = self.owed.take();
        match read_meanwhile(
            rt,
            host,
            &mut self.crew,
            self.schedule,
            &mut self.run,
            owed,
            self.stretch,
        ) {
            Ok(next) => {
                self.stretch = next;
                match self.pick() {
                    Ok(()) => Ok(()),
                    Err(end) => Err(end),
                }
            }
            Err(end) => Err(end),
        }
    }

    /// Gives a round out, does what is to be done beside it, and ends it.
    fn step<R: Wait + Clock, B: Roll, H: Host>(
        &mut self,
        rt: &R,
        host: &mut H,
        pool: &mut Pool<'_, Share<'c, 'g, J, G>, Carried, Carrier<'g, G>, B>,
        round: InHand,
    ) -> Result<(), TraceEnd>
        requires leading { IsLeading self.old (Some round) (H.outside host.old) }
        requires idle { pool.old ≡ [] }
        ensures goes { DoesRound (H.outside host.old) self.old (Some round) (H.outside host.new) self.new result }
        ensures leading { OnOk result (IsLeading self.new self.new.picked (H.outside host.new)) }
        ensures idle { OnOk result (pool.new ≡ []) }
        ensures rises { OnOk result (self.old.stretch.first < self.new.stretch.first) }
        ensures schedule { self.new.schedule ≡ self.old.schedule }
        ensures end { self.new.end ≡ self.old.end }
    {
        let InHand { picked, packets } = round;
        let Ok(underway) = self.crew.give(rt, pool, self.schedule, picked) else {
            return Err(TraceEnd::Memory);
        };
        match self.go_on(rt, host) {
            Ok(()) => match self.crew.take(rt, pool, underway) {
                Ok(owed) => {
                    self.owed = Some(owed);
                    self.spare = Arc::into_inner(packets);
                    Ok(())
                }
                Err(_) => Err(TraceEnd::Memory),
            },
            Err(end) => Err(end),
        }
    }

    /// Does rounds as long as the next one goes out, and puts the last one's text.
    fn do_rounds<R: Wait + Clock, B: Roll, H: Host>(
        &mut self,
        rt: &R,
        host: &mut H,
        pool: &mut Pool<'_, Share<'c, 'g, J, G>, Carried, Carrier<'g, G>, B>,
    ) -> Result<(), TraceEnd>
        requires leading { IsLeading self.old self.old.picked (H.outside host.old) }
        requires idle { pool.old ≡ [] }
        ensures goes { DoesRounds (H.outside host.old) self.old (H.outside host.new) self.new result }
        ensures near { OnOk result (IsNear (H.outside host.new) self.new.run self.new.stretch) }
        ensures served { OnOk result (AreServed (crew_now self.new.crew) self.old.schedule.now) }
        ensures rises { OnOk result (self.old.stretch.first ≤ self.new.stretch.first) }
        ensures end { self.new.end ≡ self.old.end }
    {
        for _ in rt.forever() {
            match self.picked.take() {
                Some(round) => match self.step(rt, host, pool, round) {
                    Ok(()) => {}
                    Err(end) => return Err(end),
                },
                None => {
                    let owed = self.owed.take();
                    return settle(host, &mut self.crew, &mut self.run, owed);
                }
            }
        }
        unreachable!()
    }

    /// The same, from the round that was read first.
    fn lead_all<R: Wait + Clock, B: Roll, H: Host>(
        &mut self,
        rt: &R,
        host: &mut H,
        pool: &mut Pool<'_, Share<'c, 'g, J, G>, Carried, Carrier<'g, G>, B>,
    ) -> Result<(), TraceEnd>
        requires may { MayLead self.old (H.outside host.old) }
        requires idle { pool.old ≡ [] }
        ensures goes { LeadsAll (H.outside host.old) self.old (H.outside host.new) self.new result }
        ensures near { OnOk result (IsNear (H.outside host.new) self.new.run self.new.stretch) }
        ensures served { OnOk result (AreServed (crew_now self.new.crew) self.old.schedule.now) }
        ensures rises { OnOk result (self.old.stretch.first ≤ self.new.stretch.first) }
        ensures end { self.new.end ≡ self.old.end }
    {
        match self.pick() {
            Ok(()) => match self.do_rounds(rt, host, pool) {
                Ok(()) => Ok(()),
                Err(end) => Err(end),
            },
            Err(end) => Err(end),
        }
    }
}

impl<'a, 'c, 'g, J: Naming, G: Gate + Watch, H: Host> Lead<
    H,
    Share<'c, 'g, J, G>,
    Carried,
    Carrier<'g, G>,
> for Ahead<'a, 'c, 'g, J, G> {
    ghost use Rattle.vsw_replay.specs.Private.Leading.{LeadsTo, MayLead};

    ghost may = { λ a with. MayLead a (H.outside with) };

    ghost leads = { λ a with b then. LeadsTo a (H.outside with) b (H.outside then) };

    fn lead<R: Wait + Clock, B: Roll>(
        &mut self,
        rt: &R,
        with: &mut H,
        pool: &mut Pool<'_, Share<'c, 'g, J, G>, Carried, Carrier<'g, G>, B>,
    ) {
        match self.lead_all(rt, with, pool) {
            Ok(()) => {}
            Err(end) => self.end = Some(end),
        }
    }
}

/// Starts the threads, and leads.
fn lead_hands<
    'a,
    'c,
    'g,
    J: Naming + Send + Sync,
    G: Gate + Watch + Sync,
    R: Threads + Wait + Clock + Sync,
    H: Host,
>(rt: &R, alloc: Global, host: &mut H, ahead: &mut Ahead<'a, 'c, 'g, J, G>)
    requires may { MayLead ahead.old (H.outside host.old) }
    ensures { LeadsTo ahead.old (H.outside host.old) ahead.new (H.outside host.new) }
{
    let hands = (ahead.crew.workers() as usize).saturating_sub(1);
    let carrier = ahead.crew.carrier();
    let _ = run_hands(rt, alloc, &carrier, hands, ahead, host);
}

/// Runs rounds by threads that stay, as long as those that were read are fit for it. Gives back the round that was read and is not,
/// or how the run ended.
pub(crate) fn run_ahead<
    'c,
    'g,
    J: Naming + Send + Sync,
    G: Gate + Watch + Sync,
    R: Threads + Wait + Clock + Sync,
    H: Host,
>(
    rt: &R,
    alloc: Global,
    host: &mut H,
    crew: Crew<'c, 'g, J, G>,
    schedule: &Schedule,
    run: Run,
    stretch: Stretch,
) -> (Crew<'c, 'g, J, G>, Run, Result<Stretch, TraceEnd>)
    requires served { AreServed (crew_now crew) schedule.now }
    requires near { IsNear (H.outside host.old) run stretch }
    ensures goes { GoesFurther schedule.now (H.outside host.old) run (crew_now crew.entry) stretch (H.outside host.new) result.1 (crew_now result.0) result.2 }
    ensures near { IfOk result.2 (λ t. IsNear (H.outside host.new) result.1 t) }
    ensures served { OnOk result.2 (AreServed (crew_now result.0) schedule.now) }
    ensures rises { IfOk result.2 (λ t. stretch.first ≤ t.first) }
{
    if !is_fit(schedule, &run, stretch) {
        return (crew, run, Ok(stretch));
    }
    let mut ahead = Ahead {
        alloc,
        crew,
        schedule,
        run,
        stretch,
        spare: None,
        picked: None,
        owed: None,
        end: None,
    };
    lead_hands(rt, alloc, host, &mut ahead);
    let Ahead {
        crew,
        run,
        stretch,
        end,
        ..
    } = ahead;
    match end {
        Some(end) => (crew, run, Err(end)),
        None => (crew, run, Ok(stretch)),
    }
}
