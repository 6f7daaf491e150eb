//! The port that threads share.

ghost use Rattle.std.specs.Prelude.{◌≡◌, ◌<◌, ◌≤◌, ◌+◌, ℕ, List, length, Some, true, IfOk, OnErr, OnOk};
ghost use mathlib.Core.List.{IsPrefix};
ghost use Rattle.vsw_core.specs.Exporting.{AreGoodAt};
ghost use Rattle.vsw_flows.specs.Flows.{IsOf};
ghost use Rattle.vsw_port.specs.declared.event.Event.{Event};
ghost use Rattle.vsw_port.specs.Calls.{controller_at};
ghost use Rattle.vsw_live.specs.Calls.{Crosses, CrossesAsked, DoneFits, FitsRoom, IsFast, KeepsLook, Looks, TellsWhy, call_of};
ghost use Rattle.vsw_live.specs.Meeting.{AllMeet, AreOf, IsRightAt, Meets};
ghost use Rattle.vsw_live.specs.Ports.{StandsAt};
ghost use Rattle.vsw_live.specs.Private.Locked.{CrossesSo, IsFateAt, layers_met};
ghost use Rattle.vsw_policy.specs.Obey.{rules_given};
ghost use Rattle.vsw_policy.specs.Sound.{Each, IsGoodRule, is_listed};
ghost use Rattle.vsw_port.specs.Crossed.{EditsPass, IsOwn};
ghost use Rattle.vsw_rows.specs.GoodRows.{opening_of};

use crate::answer::{Fast, Ticket, Told};
use crate::held::Held;
use crate::leaving::leave;
use crate::locked::{Locked, ROWS_AT_ONCE};
use crate::naming::Naming;
use crate::unit::Unit;
use std::alloc::Global;
use std::marker::Model;
use std::sync::atomic::{AtomicU64, Ordering};
use std::sync::{Mutex, MutexGuard, Wait};
use std::thread;
use vsw_answer::{Answer, Desk, Room, RowAnswer, Why, answer_by_row};
use vsw_base::{Crossing, NoMemory};
use vsw_core::Exported;
use vsw_flows::PortStory;
use vsw_policy::Command;
use vsw_port::Outcome;
use vsw_table::{Lookup, Note, Pass};

/// A port that threads share, each with passes of its own. Any thread may call it. A row that has a stamp answers a packet without
/// the lock, as the layers do at the look's load of the word that counts the entries; all else is done under the lock. Of an entry
/// rows' readers see first that the rows which it shakes lost their stamps, and then, by its store of that word, the entry.
#[derive(Drop)]
pub struct LivePort<J: Naming> {
    place: usize,
    passes: u32,
    lookup: Lookup<PortStory>,
    /// How many rows were left to be compared when the lock was let go last. It is a hint, so that who finds nothing to do needn't
    /// take the lock: where it is too low, rows are compared later, which costs walks.
    stale: AtomicU64,
    core: Mutex<Locked<J>>,
}

impl<J: Naming> Model for LivePort<J> {
    ghost use Rattle.vsw_live.specs.Ports.{PortSeen, StandsAt};

    ghost Value = { PortSeen };

    ghost view = { λ p. record { looking = p.lookup; passes = p.passes } };

    ghost invariant = { λ p. StandsAt J.ports p.place (record { looking = p.lookup; passes = p.passes }) };
}

/// How many times a lock is tried before its thread sleeps. A call under it takes a few microseconds, and sleeping and
/// waking more.
const TRIES: u32 = 2_000;

/// Takes a lock. Between two tries other threads may run: who tries without a break takes the lock's cache line from the
/// thread that works under it.
fn take<'b, T, R: Wait>(lock: &'b Mutex<T>, rt: &R) -> MutexGuard<'b, T> {
    for _ in 0..TRIES {
        if let Some(guard) = lock.try_lock() {
            return guard;
        }
        thread::yield_now();
    }
    lock.lock(rt)
}

impl<J: Naming> LivePort<J> {
    pub(crate) fn of(
        place: usize,
        passes: u32,
        lookup: Lookup<PortStory>,
        core: Locked<J>,
    ) -> LivePort<J>
        requires { StandsAt J.ports place (record { looking = lookup; passes = passes }) }
        ensures { result ≡ record { looking = lookup; passes = passes } }
    {
        LivePort {
            place,
            passes,
            lookup,
            stale: AtomicU64::new(0),
            core: Mutex::new(core),
        }
    }

    /// How many rows it has.
    pub fn rows(&self) -> u32
        ensures { result ≡ self.now.looking.2 }
    {
        self.lookup.rows()
    }

    /// Keeps the lock.
    pub fn hold<'b, R: Wait>(&'b self, rt: &R) -> Held<'b, J>
        ensures port { result.port ≡ self.now }
    {
        Held {
            core: self.lock(rt),
            lookup: &self.lookup,
            passes: self.passes,
        }
    }

    /// Gives the pass `more` further permits, each for one entry whose room is taken now. The pass meets the port.
    pub fn grant<R: Wait>(
        &self,
        rt: &R,
        pass: &mut Pass<PortStory>,
        more: u32,
    ) -> Result<(), NoMemory>
        requires pass { IsOf self.now.looking pass.old }
        requires few { length pass.old.view.receipts + pass.old.view.permits + more ≤ 134217728 }
        ensures meets { OnOk result ((h : List Event) × Meets (record { port = self.now; history = h }) more pass.old pass.new) }
        ensures refused { OnErr result (pass.new ≡ pass.old) }
    {
        self.hold(rt).grant(pass, more)
    }

    /// All these passes meet the port, which stays locked so that its entries can be read.
    pub fn settle<'b, R: Wait>(&'b self, rt: &R, passes: &mut [Pass<PortStory>]) -> Held<'b, J>
        requires passes { AreOf self.now.looking passes.old }
        ensures port { result.port ≡ self.now }
        ensures meet { AllMeet result passes.old passes.new }
    {
        let mut held = self.hold(rt);
        held.meet_all(passes);
        held
    }

    /// Looks for a row that answers the packet, without the lock and without memory. Where one does and the packet passes, its
    /// outgoing bytes stand at the front of the room, unless they are its own.
    pub fn fast<'a>(
        &self,
        pass: &mut Pass<PortStory>,
        unit: &'a Unit<'a>,
        desk: &mut Desk,
        room: &mut Room,
    ) -> Fast<'a>
        requires pass { IsOf self.now.looking pass.old }
        ensures fast { IsFast self.now.looking unit.now pass.old pass.new room.new result }
        ensures fits { DoneFits result }
    {
        let why = match answer_by_row(&self.lookup, pass, unit.crossing(), desk) {
            RowAnswer::Read { outcome, count } => {
                leave(unit, desk.edited(), outcome, room);
                return Fast::Done(Answer::of(outcome, count, None));
            }
            RowAnswer::Control => Why::Control,
            RowAnswer::Miss => Why::Miss,
            RowAnswer::Late => Why::Late,
        };
        Fast::Slow(Ticket::of(unit, why))
    }

    /// The layers answer the packet under the lock. Where it passes, its outgoing bytes are written to the front of the room once
    /// the lock is free, unless they are its own. Memory is taken only to make a pair.
    pub fn slow<R: Wait>(
        &self,
        rt: &R,
        pass: &mut Pass<PortStory>,
        ticket: Ticket<'_>,
        desk: &mut Desk,
        room: &mut Room,
    ) -> Answer
        requires pass { IsOf self.now.looking pass.old }
        requires caller { ticket.unit.crossing.caller ≡ pass.old.view.number }
        requires permit { 0 < pass.old.view.permits }
        ensures crosses { Crosses (opening_of self.now.looking.1) pass.old pass.new (call_of ticket.entry.unit result room.new) }
        ensures why { result.why ≡ Some ticket.entry.why }
        ensures look { KeepsLook pass.old.view pass.new.view }
        ensures fits { FitsRoom result.fate }
    {
        self.answer(rt, pass, ticket.unit(), ticket.why(), desk, room)
    }

    /// A row answers the packet, or else the layers do.
    pub fn forward<R: Wait>(
        &self,
        rt: &R,
        pass: &mut Pass<PortStory>,
        unit: &Unit<'_>,
        desk: &mut Desk,
        room: &mut Room,
    ) -> Answer
        requires pass { IsOf self.now.looking pass.old }
        requires caller { unit.now.crossing.caller ≡ pass.old.view.number }
        requires permit { 0 < pass.old.view.permits }
        ensures crosses { Crosses (opening_of self.now.looking.1) pass.old pass.new (call_of unit.now result room.new) }
        ensures why { TellsWhy self.now.looking unit.now.crossing pass.old.view pass.new.view result result.why }
        ensures fits { FitsRoom result.fate }
    {
        match self.fast(pass, unit, desk, room) {
            Fast::Done(answer) => answer,
            Fast::Slow(ticket) => self.slow(rt, pass, ticket, desk, room),
        }
    }

    /// Does what a controller asks, or refuses it. Either is an entry, unless memory is wanting.
    pub fn command<R: Wait>(
        &self,
        rt: &R,
        pass: &mut Pass<PortStory>,
        line: u32,
        controller: u16,
        command: &Command,
    ) -> Told
        requires pass { IsOf self.now.looking pass.old }
        requires caller { controller_at self.now.looking.1.controllers controller ≡ pass.old.view.number }
        requires permit { 0 < pass.old.view.permits }
        requires listed { is_listed self.now.looking.1.controllers controller ≡ true }
        requires good { Each IsGoodRule (rules_given command.now) }
        ensures crosses { CrossesAsked (opening_of self.now.looking.1) line controller command.now result pass.old pass.new }
    {
        let mut core = self.lock(rt);
        let told = core.command(&self.lookup, pass, line, controller, command);
        self.stale.store(u64::from(core.stale()), Ordering::SeqCst);
        told
    }

    /// Compares a row with the layers of now, and makes it current where that can be (`Held::reconcile`, which tells that nothing else
    /// changes). Rows are compared 32 under one lock, with the first of them, and only until all were since a command was done: call it
    /// for rows in turn. Where nothing is left to compare, the lock isn't taken.
    pub fn reconcile<R: Wait>(&self, rt: &R, row: u32)
        requires { row < self.now.looking.2 }
    {
        if row % ROWS_AT_ONCE != 0 || self.stale.load(Ordering::SeqCst) == 0 {
            return;
        }
        let mut held = self.hold(rt);
        held.reconcile(row);
        self.stale.store(u64::from(held.stale()), Ordering::SeqCst);
    }

    /// The rows that are current, in the order of their places, as `Core::export` gives them under one hold of the lock. Each is good
    /// after what the pass then has seen. That these are all current rows can't be said: nothing is known of what lies under a
    /// lock once that is free.
    pub fn export<R: Wait>(
        &self,
        rt: &R,
        alloc: Global,
        pass: &mut Pass<PortStory>,
    ) -> Result<Exported, NoMemory>
        requires pass { IsOf self.now.looking pass.old }
        ensures meets { OnOk result ((h : List Event) × Meets (record { port = self.now; history = h }) 0 pass.old pass.new) }
        ensures good { IfOk result (AreGoodAt (opening_of self.now.looking.1) pass.new.view.front) }
        ensures few { IfOk result (λ exported. length exported.rows ≤ self.now.looking.2) }
        ensures look { OnOk result (KeepsLook pass.old.view pass.new.view) }
        ensures refused { OnErr result (pass.new ≡ pass.old) }
    {
        let mut held = self.hold(rt);
        let exported = held.export(alloc)?;
        held.meet(pass);
        Ok(exported)
    }

    /// What the pass has seen, to be handed to another.
    pub fn note(&self, pass: &mut Pass<PortStory>) -> Note<PortStory>
        requires { IsOf self.now.looking pass.old }
        ensures same { pass.new ≡ pass.old }
        ensures note { (result.view.front ≡ pass.old.view.front) × (result.table ≡ self.now.looking.0) }
    {
        pass.note(&self.lookup)
    }

    /// The pass has seen what the note tells.
    pub fn learn(&self, pass: &mut Pass<PortStory>, note: Note<PortStory>)
        requires pass { IsOf self.now.looking pass.old }
        requires note { note.table ≡ self.now.looking.0 }
        ensures looks { Looks pass.old pass.new }
        ensures told { IsPrefix note.view.front pass.new.view.front }
    {
        pass.learn(&self.lookup, note);
    }

    /// Takes the lock. The type of what is locked tells what core it is by the place that it says. No other core than this
    /// place's was put there, but the type doesn't tell that, so it is tested.
    fn lock<'b, R: Wait>(&'b self, rt: &R) -> MutexGuard<'b, Locked<J>>
        ensures { StandsAt J.ports result.value.0 self.now }
    {
        let core = take(&self.core, rt);
        if core.place() != self.place {
            for _ in rt.forever() {}
        }
        core
    }

    /// The packet crosses the layers. The lock is let go when it has.
    fn cross<R: Wait>(
        &self,
        rt: &R,
        pass: &mut Pass<PortStory>,
        crossing: &Crossing,
        desk: &mut Desk,
    ) -> (Outcome, u32)
        requires pass { IsOf self.now.looking pass.old }
        requires caller { crossing.now.caller ≡ pass.old.view.number }
        requires permit { 0 < pass.old.view.permits }
        ensures crosses { CrossesSo (opening_of self.now.looking.1) pass.old pass.new crossing.now result.0 result.1 }
        ensures fate { IsFateAt (layers_met (opening_of self.now.looking.1) pass.new.view result.1) crossing.now result.0.fate }
        ensures edits { EditsPass (layers_met (opening_of self.now.looking.1) pass.new.view result.1) crossing.now desk.new result.0.kept result.0.fate }
        ensures own { result.0.own ≡ true → IsOwn crossing.now desk.new result.0.kept }
        ensures look { KeepsLook pass.old.view pass.new.view }
    {
        self.lock(rt).cross(&self.lookup, pass, crossing, desk)
    }

    fn answer<R: Wait>(
        &self,
        rt: &R,
        pass: &mut Pass<PortStory>,
        unit: &Unit<'_>,
        why: Why,
        desk: &mut Desk,
        room: &mut Room,
    ) -> Answer
        requires pass { IsOf self.now.looking pass.old }
        requires caller { unit.now.crossing.caller ≡ pass.old.view.number }
        requires permit { 0 < pass.old.view.permits }
        ensures crosses { Crosses (opening_of self.now.looking.1) pass.old pass.new (call_of unit.now result room.new) }
        ensures why { result.why ≡ Some why }
        ensures look { KeepsLook pass.old.view pass.new.view }
        ensures fits { FitsRoom result.fate }
    {
        let (outcome, count) = self.cross(rt, pass, unit.crossing(), desk);
        leave(unit, desk.edited(), outcome, room);
        Answer::of(outcome, count, Some(why))
    }
}
