//! The workers and the controllers of a run.

ghost use Rattle.std.specs.Arc.{arc_value};
ghost use Rattle.std.specs.Prelude.{◌≡◌, ◌<◌, ◌+◌, ◌++◌, ◌^◌, [], ℕ, Bool, List, IfOk, OnOk, length};
ghost use Rattle.vsw_commandfile.specs.declared.line.Line.{Line};
ghost use Rattle.vsw_crew.specs.Shift.{HasNoneBeside, IsOut, IsPicked, MayTake, Owes, TakesOwed};
ghost use Rattle.vsw_crew.specs.Crew.{AreReady, AreRowsOf, CrewSeen, IsOfSome, RunsRound, crew_now, seen_by, switch_now};
ghost use Rattle.vsw_crew.specs.Private.Round.{RunsRows, SaysRound, StayServed};
ghost use Rattle.vsw_harbour.specs.HarbourOpening.{rows_in};
ghost use Rattle.vsw_harbour.specs.Harbour.{MayAsk};
ghost use Rattle.vsw_port.specs.declared.event.Event.{Event};
ghost use Rattle.vsw_pcap.specs.declared.capture.Record.{Record};
ghost use Rattle.vsw_policy.specs.Sound.{Each};
ghost use Rattle.vsw_switch.specs.Switch.{AreServed};
ghost use Rattle.vsw_report.specs.Whole.{whole_text};

use crate::Lines;
use crate::owed::{Owed, owe, pay};
use crate::picked::{Picked, pick_for};
use crate::round::work_round;
use crate::share::{Carried, Carrier, Share};
use crate::shift::{give, take};
use crate::telling::tell;
use crate::underway::Underway;
use std::marker::Model;
use std::mem::replace;
use std::sync::{Arc, Wait};
use std::thread::Threads;
use std::time::Clock;
use vsw_actors::reconcile_rows;
use vsw_base::NoMemory;
use vsw_hands::{Pool, Roll};
use vsw_harbour::{Harbour, Lane, Naming, Station, Watch};
use vsw_pcap::Batch;
use vsw_promise::Schedule;
use vsw_report::RoundText;
use vsw_workers::Gate;

/// The workers and the controllers of a run, each of which has a row of lanes, one a port: first the workers 0 to 15, then the
/// controllers in the policy's order. Once memory was wanting for a round there are no rows any more, and no round is run.
#[derive(Drop)]
pub struct Crew<'c, 'g, J: Naming, G> {
    pub(crate) harbour: &'c Harbour<'g, J, G>,
    /// How many rounds were begun. By it rows of the ports are reconciled in turn, so it may begin again at 0.
    round: u32,
    pub(crate) rows: Vec<Vec<Lane<Station>>>,
    /// Rooms for lines, of rounds that were told.
    pub(crate) rooms: Vec<Lines>,
}

impl<'c, 'g, J: Naming, G> Model for Crew<'c, 'g, J, G> {
    ghost use Rattle.vsw_crew.specs.Crew.{AreRowsOf, CrewSeen, seen_by};
    ghost use Rattle.vsw_crew.specs.Private.Rows.{AreGone};
    ghost use Rattle.vsw_harbour.specs.HarbourOpening.{rows_in};
    ghost use Rattle.vsw_pcap.specs.declared.capture.Record.{Record};
    ghost use Rattle.vsw_policy.specs.Sound.{Each};

    ghost Value = { CrewSeen };

    ghost view = { λ c. record { harbour = c.harbour.now; histories = seen_by (rows_in c.rows.items) } };

    ghost invariant = { λ c. AreRowsOf c.harbour.now (rows_in c.rows.items) × Each AreGone c.rooms.items };
}

impl<'c, 'g, J: Naming, G> Crew<'c, 'g, J, G> {
    /// A crew of this harbour, whose callers have these rows and have seen the whole histories of its ports.
    pub fn new(harbour: &'c Harbour<'g, J, G>, rows: Vec<Vec<Lane<Station>>>) -> Crew<'c, 'g, J, G>
        requires run { IsOfSome harbour.now }
        requires ready { (hs : List (List Event)) × AreReady harbour.now hs (rows_in rows.items) }
        ensures now { (hs : List (List Event)) → AreReady harbour.now hs (rows_in rows.items) → result ≡ record { harbour = harbour.now; histories = hs } }
    {
        Crew {
            harbour,
            round: 0,
            rows,
            rooms: Vec::new(harbour.alloc),
        }
    }

    /// How many workers there are.
    pub fn workers(&self) -> u32
        ensures { result ≡ self.now.harbour.workers }
    {
        let harbour = self.harbour;
        harbour.workers
    }

    /// Who carries the packets of its shares.
    pub fn carrier(&self) -> Carrier<'g, G> {
        let harbour = self.harbour;
        Carrier {
            alloc: harbour.alloc,
            gate: harbour.gate,
        }
    }

    /// Deals the packets of a round, of which the first has this number, to the workers.
    pub fn pick(&self, first: u32, packets: Arc<Batch>) -> Result<Picked, NoMemory>
        requires numbers { first + length (arc_value packets) < 2 ^ 32 }
        ensures { IfOk result (λ p. IsPicked self.now.harbour first (arc_value packets) p) }
    {
        let harbour = self.harbour;
        pick_for(harbour, first, packets)
    }

    /// Appends the text of a round that was done, and answers whether want of memory is told in it. The rooms of its lines serve later rounds. After `NoMemory` nothing
    /// is said of what was appended.
    pub fn tell(&mut self, owed: Owed, out: &mut RoundText) -> Result<bool, NoMemory>
        requires owes { (text : List ℕ) × (short : Bool) × Owes self.old.harbour owed text short }
        ensures text { OnOk result ((text : List ℕ) (short : Bool) → Owes self.old.harbour owed text short → whole_text out.new ≡ whole_text out.old ++ text) }
        ensures short { IfOk result (λ b. (text : List ℕ) (short : Bool) → Owes self.old.harbour owed text short → b ≡ short) }
        ensures same { self.new ≡ self.old }
    {
        let harbour = self.harbour;
        let (short, rooms) = pay(harbour, owed, out)?;
        self.rooms = rooms;
        Ok(short)
    }
}

impl<'c, 'g, J: Naming, G: Gate + Watch> Crew<'c, 'g, J, G> {
    /// Begins the round of these packets: asks the commands before them, and gives the workers' shares to the pool. After `NoMemory` there are no rows
    /// any more.
    pub fn give<'p, R: Wait + Clock, B: Roll>(
        &mut self,
        rt: &R,
        pool: &mut Pool<'p, Share<'c, 'g, J, G>, Carried, Carrier<'g, G>, B>,
        schedule: &Schedule,
        picked: Picked,
    ) -> Result<Underway, NoMemory>
        requires idle { pool.old ≡ [] }
        requires served { AreServed (crew_now self.old) schedule.now }
        requires picked { (packets : List Record) × IsPicked self.old.harbour picked.first packets picked }
        requires quiet { HasNoneBeside schedule.now picked.first }
        ensures out { IfOk result (λ u. (packets : List Record) → IsPicked self.old.harbour picked.first packets picked → IsOut self.old schedule.now picked.first packets u pool.new) }
        ensures harbour { self.new.harbour ≡ self.old.harbour }
    {
        let harbour = self.harbour;
        let rows = replace(&mut self.rows, Vec::new(harbour.alloc));
        if rows.is_empty() {
            return Err(NoMemory);
        }
        give(rt, harbour, pool, rows, schedule, picked)
    }

    /// Compares rows of the ports with what these say now, where an entry made some stale. It changes no answer, and no clause tells of it.
    pub fn reconcile<R: Wait + Clock>(&mut self, rt: &R)
        ensures same { self.new ≡ self.old }
    {
        let harbour = self.harbour;
        let round = self.round;
        self.round = round.wrapping_add(1);
        reconcile_rows(rt, &harbour.docks, round);
    }

    /// Ends the round whose shares are out, once all are carried. It is to be told then.
    pub fn take<'p, R: Wait + Clock, B: Roll>(
        &mut self,
        rt: &R,
        pool: &mut Pool<'p, Share<'c, 'g, J, G>, Carried, Carrier<'g, G>, B>,
        underway: Underway,
    ) -> Result<Owed, NoMemory>
        requires out { MayTake self.old.harbour underway pool.old }
        ensures tells { IfOk result (λ owed. TakesOwed self.old.harbour underway pool.old owed self.new) }
        ensures owes { IfOk result (λ owed. (text : List ℕ) × (short : Bool) × Owes self.old.harbour owed text short) }
        ensures served { (gs : List (List Event)) (lines : List Line) → AreServed (switch_now self.old.harbour gs) lines → AreServed (crew_now self.new) lines }
        ensures idle { OnOk result (pool.new ≡ []) }
        ensures harbour { self.new.harbour ≡ self.old.harbour }
    {
        let harbour = self.harbour;
        let first = underway.first;
        let rooms = replace(&mut self.rooms, Vec::new(harbour.alloc));
        let worked = take(rt, harbour, pool, underway)?;
        let (owed, rows) = owe(harbour, first, worked, rooms)?;
        self.rows = rows;
        Ok(owed)
    }
}

/// The round of these packets, the one of this number, done and told.
fn run<'g, J: Naming + Send + Sync, G: Gate + Watch + Sync, R: Threads + Wait + Clock + Sync>(
    rt: &R,
    harbour: &Harbour<'g, J, G>,
    round: u32,
    rows: Vec<Vec<Lane<Station>>>,
    schedule: &Schedule,
    first: u32,
    packets: &Batch,
    out: &mut RoundText,
) -> Result<(bool, Vec<Vec<Lane<Station>>>), NoMemory>
    requires run { IsOfSome harbour.now }
    requires ready { (hs : List (List Event)) × AreReady harbour.now hs (rows_in rows.items) }
    requires lines { Each (MayAsk harbour.now) schedule.now }
    requires numbers { first + length packets.now < 2 ^ 32 }
    ensures told { IfOk result (λ r. SaysRound harbour.now schedule.now first packets.now (rows_in rows.items) r.0 (whole_text out.old) (whole_text out.new) (rows_in r.1.items)) }
{
    let worked = work_round(rt, harbour, round, rows, schedule, first, packets)?;
    let told = tell(harbour, first, worked, out)?;
    Ok(told)
}

/// Runs the round of these packets, the one of this number, if there are rows.
fn run_crew<'g, J: Naming + Send + Sync, G: Gate + Watch + Sync, R: Threads + Wait + Clock + Sync>(
    rt: &R,
    harbour: &Harbour<'g, J, G>,
    round: u32,
    rows: &mut Vec<Vec<Lane<Station>>>,
    schedule: &Schedule,
    first: u32,
    packets: &Batch,
    out: &mut RoundText,
) -> Result<bool, NoMemory>
    requires rows { AreRowsOf harbour.now (rows_in rows.old.items) }
    requires served { AreServed (switch_now harbour.now (seen_by (rows_in rows.old.items))) schedule.now }
    requires numbers { first + length packets.now < 2 ^ 32 }
    ensures rows { AreRowsOf harbour.now (rows_in rows.new.items) }
    ensures runs { RunsRows result harbour.now schedule.now first packets.now (rows_in rows.old.items) (rows_in rows.new.items) (whole_text out.old) (whole_text out.new) }
    ensures served { StayServed harbour.now (rows_in rows.old.items) (rows_in rows.new.items) }
{
    let taken = replace(rows, Vec::new(harbour.alloc));
    if taken.is_empty() {
        return Err(NoMemory);
    }
    let (short, left) = run(rt, harbour, round, taken, schedule, first, packets, out)?;
    *rows = left;
    Ok(short)
}

impl<'c, 'g, J: Naming + Send + Sync, G: Gate + Watch + Sync> Crew<'c, 'g, J, G> {
    /// Runs the round of these packets, the first of which has the number `first` in the trace, as `Rounds` says it of the ports as
    /// `switch_now` tells them.
    pub fn run_round<R: Threads + Wait + Clock + Sync>(
        &mut self,
        rt: &R,
        schedule: &Schedule,
        first: u32,
        packets: &Batch,
        out: &mut RoundText,
    ) -> Result<bool, NoMemory>
        requires served { AreServed (crew_now self.old) schedule.now }
        requires numbers { first + length packets.now < 2 ^ 32 }
        ensures runs { IfOk result (λ short. RunsRound schedule.now first packets.now (crew_now self.old) (crew_now self.new) short (whole_text out.old) (whole_text out.new)) }
        ensures served { (lines : List Line) → AreServed (crew_now self.old) lines → AreServed (crew_now self.new) lines }
    {
        let round = self.round;
        self.round = round.wrapping_add(1);
        run_crew(
            rt,
            self.harbour,
            round,
            &mut self.rows,
            schedule,
            first,
            packets,
            out,
        )
    }
}
