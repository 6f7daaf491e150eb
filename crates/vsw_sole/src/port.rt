//! A port as one thread has it.

ghost use Rattle.std.specs.Prelude.{◌≡◌, ◌≤◌, ◌<◌, ◌+◌, ◌-◌, ◌^◌, ◌++◌, [], ℕ, List, not, false, true, length, Some, IfOk, OnOk, OnErr};
ghost use Rattle.vsw_base.specs.Frame.{Parts};
ghost use Rattle.vsw_answer.specs.declared.told.Why.TheVariants as why;
ghost use Rattle.vsw_commandfile.specs.declared.line.Line.{Line};
ghost use Rattle.vsw_core.specs.Exporting.{AreGoodAt};
ghost use Rattle.vsw_flows.specs.Flows.{IsOf};
ghost use Rattle.vsw_port.specs.declared.event.Event.TheVariants as event;
ghost use Rattle.vsw_port.specs.Calls.{Asked, Carried};
ghost use Rattle.vsw_port.specs.Next.{IsDone};
ghost use Rattle.vsw_policy.specs.Layers as layers;
ghost use Rattle.vsw_policy.specs.Obey.{is_memory, rules_given};
ghost use Rattle.vsw_policy.specs.Refusals.{reply_of};
ghost use Rattle.vsw_policy.specs.Sound.{Each, IsGoodRule, is_listed};
ghost use Rattle.vsw_port.specs.Core.{AreAtMost, entered, opening_of};
ghost use Rattle.vsw_port.specs.Crossed.{EditsPass, IsOwn, MayBeShort, crossed, is_short};
ghost use Rattle.vsw_sole.specs.Callers.{IsCaller, Numbered, one_if};
ghost use Rattle.vsw_sole.specs.Sole.{IsWhy, layers_of};

use crate::caller::{Caller, ask, carry, refill};
use crate::keeping::{Keeping, is_light};
use crate::open::{callers, copied};
use std::alloc::Global;
use std::marker::Model;
use vsw_answer::{Desk, Why, touch_row};
use vsw_base::{Crossing, Mac, NoMemory, Stack};
use vsw_core::{Core, Exported};
use vsw_flows::PortStory;
use vsw_policy::{Command, Policy, Refusal};
use vsw_port::{Event, Outcome};
use vsw_table::{Lookup, Opened};

/// For how many entries each caller gets room at once, at least.
const BATCH: u32 = 64;

/// A port: its core, the rows that answer packets, and a pass for each caller. Contracts see what the port began with,
/// and the history.
#[derive(Drop)]
pub struct SolePort {
    core: Core,
    lookup: Lookup<PortStory>,
    /// Those of 16 workers, and behind them those of the controllers.
    callers: Vec<Caller>,
    /// In the policy's order.
    controllers: Vec<u16>,
    workers: u32,
    /// How many more entries each caller may make.
    room: u32,
    desk: Desk,
    /// Why no row answered the last packet, if none did.
    why: Option<Why>,
    keeping: Keeping,
    /// Whether the layers are light, as `Core::is_light` tells, and rows aren't kept all the same: none are looked for then.
    light: bool,
    /// The next row to be reconciled.
    next: u32,
    /// How many rows weren't compared with the layers since a command was done last.
    stale: u32,
}

impl Model for SolePort {
    ghost use Rattle.vsw_port.specs.Core.{opening_of};
    ghost use Rattle.vsw_sole.specs.Callers.{IsSole, edited_by};
    ghost use Rattle.vsw_sole.specs.Sole.{SoleSeen};

    ghost Value = { SoleSeen };

    ghost view = { λ s. record { opening = opening_of s.lookup.1; journal = s.core.writer.view.history; room = s.room; edited = edited_by s.why s.desk s.core.edited; why = s.why; workers = s.workers } };

    ghost invariant = { λ s. IsSole s.lookup s.core.writer s.controllers.items s.callers.items s.workers s.room };
}

/// For how many entries room is taken where it is wanted for so many.
fn batch_of(more: u32) -> u32
    ensures { more ≤ result }
{
    if more < BATCH { BATCH } else { more }
}

/// How many entries are left after a call.
fn left(room: u32, entry: bool) -> u32
    requires { 1 ≤ room }
    ensures { result ≡ room - one_if entry }
{
    if entry { room - 1 } else { room }
}

/// How many rows are to be compared with the layers after a command: all where it was done, since a command may take many rows
/// away. One that a packet took away is put anew by its flow's next packet.
fn stale_after(stale: u32, answer: Result<(), Refusal>, rows: u32) -> u32 {
    match answer {
        Ok(()) => rows,
        Err(_) => stale,
    }
}

/// Whether the layers are light after a call: asked anew where it is an entry, since it changed them.
fn light_after(light: bool, entry: bool, keeping: Keeping, core: &Core) -> bool {
    if entry {
        is_light(keeping, core)
    } else {
        light
    }
}

/// Whether an answer is an entry of the history.
fn is_entry(answer: Result<(), Refusal>) -> bool
    ensures { result ≡ not (is_memory answer) }
{
    match answer {
        Err(Refusal::Memory) => false,
        _ => true,
    }
}

/// The place of a controller among these.
fn place_of(controllers: &[u16], controller: u16) -> usize
    ensures value { result ≡ layers.place_of controller controllers.now }
    ensures within { result ≤ length controllers.now }
{
    match controllers.split_first() {
        None => 0,
        Some((first, rest)) => {
            if controller == *first {
                0
            } else {
                1 + place_of(rest, controller)
            }
        }
    }
}

/// Each caller may make at least so many entries.
fn refill_all(
    core: &mut Core,
    lookup: &Lookup<PortStory>,
    callers: &mut Vec<Caller>,
    least: u32,
) -> Result<(), NoMemory>
    requires core { IsOf lookup.now core.old.writer }
    requires callers { Numbered (IsCaller lookup.now core.old.writer.view.history 0) 0 callers.old.items }
    ensures core { IsOf lookup.now core.new.writer }
    ensures history { core.new.writer.view.history ≡ core.old.writer.view.history }
    ensures edited { core.new.edited ≡ core.old.edited }
    ensures length { length callers.new.items ≡ length callers.old.items }
    ensures callers { (room : ℕ) → Numbered (IsCaller lookup.now core.old.writer.view.history room) 0 callers.old.items → Numbered (IsCaller lookup.now core.old.writer.view.history room) 0 callers.new.items }
    ensures least { (room : ℕ) → Numbered (IsCaller lookup.now core.old.writer.view.history room) 0 callers.old.items → OnOk result (Numbered (IsCaller lookup.now core.old.writer.view.history least) 0 callers.new.items) }
{
    for place in 0..callers.len() {
        let caller = &mut callers[place];
        refill(core, lookup, caller, least)?;
    }
    Ok(())
}

impl SolePort {
    /// A port that begins with this policy, none of whose layers has made a pair, with this many rows. Its packets are
    /// brought by workers of numbers below `workers`. With light layers it has rows where they are always kept.
    pub fn open(
        alloc: Global,
        policy: Policy,
        rows: u32,
        workers: u32,
        keeping: Keeping,
    ) -> Result<SolePort, NoMemory>
        requires fresh { AreAtMost 0 policy.layers }
        requires rows { (8 ≤ rows) × (rows ≤ 16384) }
        requires workers { workers ≤ 16 }
        requires controllers { length policy.controllers ≤ 8 }
        ensures opening { IfOk result (λ port. port.opening ≡ opening_of policy) }
        ensures journal { IfOk result (λ port. port.journal ≡ []) }
        ensures workers { IfOk result (λ port. port.workers ≡ workers) }
        ensures why { IfOk result (λ port. port.why ≡ Some why.Light) }
    {
        let controllers = copied(alloc, policy.controllers())?;
        let Opened { lookup, mut writer } = Lookup::open(alloc, rows, &policy)?;
        let callers = callers(alloc, &lookup, &mut writer, 16 + controllers.len())?;
        let core = Core::open(alloc, policy, writer)?;
        let light = is_light(keeping, &core);
        Ok(SolePort {
            core,
            lookup,
            callers,
            controllers,
            workers,
            room: 0,
            desk: Desk::new(),
            why: Some(Why::Light),
            keeping,
            light,
            next: 0,
            stale: 0,
        })
    }

    /// The entries of the history, oldest first.
    pub fn journal(&self) -> &[Event]
        ensures journal { result.now ≡ self.now.journal }
    {
        self.core.journal()
    }

    /// How many entries there are.
    pub fn count(&self) -> u32
        requires { length self.now.journal < 2 ^ 32 }
        ensures { result ≡ length self.now.journal }
    {
        self.core.journal().len() as u32
    }

    /// The controllers, in the policy's order.
    pub fn controllers(&self) -> &[u16]
        ensures { result.now ≡ self.now.opening.controllers }
    {
        &self.controllers
    }

    /// How many workers bring packets: their numbers are below.
    pub fn workers(&self) -> u32
        ensures { result ≡ self.now.workers }
    {
        self.workers
    }

    /// Takes room for so many further entries.
    pub fn reserve(&mut self, more: u32) -> Result<(), NoMemory>
        ensures opening { self.new.opening ≡ self.old.opening }
        ensures journal { self.new.journal ≡ self.old.journal }
        ensures workers { self.new.workers ≡ self.old.workers }
        ensures room { OnOk result (more ≤ self.new.room) }
        ensures kept { self.old.room ≤ self.new.room }
        ensures why { self.new.why ≡ self.old.why }
        ensures refused { OnErr result (self.new ≡ self.old) }
    {
        if more <= self.room {
            return Ok(());
        }
        let least = batch_of(more);
        refill_all(&mut self.core, &self.lookup, &mut self.callers, least)?;
        self.room = least;
        Ok(())
    }

    /// The stack with which the last packet leaves that was carried, where it passed.
    pub fn edited(&self) -> &Stack
        ensures { result.now ≡ self.now.edited }
    {
        match self.why {
            None => self.desk.edited(),
            Some(_) => self.core.edited(),
        }
    }

    /// Why no row answered the last packet, if none did. Before the first packet it is `Light`.
    pub fn why(&self) -> Option<Why>
        ensures { result ≡ self.now.why }
    {
        self.why
    }

    /// Touches the row that may answer the packet of a frame at this port, whose address this is, so that its words are at hand when the packet comes.
    /// Nothing is changed and nothing is told.
    pub fn touch(&self, mac: Mac, frame: &[u8]) {
        touch_row(&self.lookup, mac, frame);
    }

    /// A packet crosses the layers, or a row answers it as they do. It is an entry exactly where it changes them. Where
    /// it passes, `edited` tells its headers. Memory is taken only to make a pair.
    pub fn cross(&mut self, crossing: &Crossing) -> Outcome
        requires room { 1 ≤ self.old.room }
        requires caller { crossing.now.caller < self.old.workers }
        ensures done { (p : Parts) (bytes : List ℕ) → IsDone self.old.opening self.old.journal (Carried crossing.now p result.fate bytes) result.entry }
        ensures exact { record { fate = result.fate; layers = layers_of self.new; entry = result.entry } ≡ crossed (is_short result.fate) (layers_of self.old) crossing.now }
        ensures memory { MayBeShort (is_short result.fate) (layers_of self.old) crossing.now }
        ensures edits { EditsPass (layers_of self.old) crossing.now self.new.edited result.kept result.fate }
        ensures own { result.own ≡ true → IsOwn crossing.now self.new.edited result.kept }
        ensures why { IsWhy crossing.now result.entry self.new.why }
        ensures journal { self.new.journal ≡ self.old.journal ++ entered result.entry (event.Crossing crossing.now result.fate) }
        ensures opening { self.new.opening ≡ self.old.opening }
        ensures workers { self.new.workers ≡ self.old.workers }
        ensures room { self.old.room ≤ self.new.room + 1 }
    {
        let caller = &mut self.callers[crossing.caller as usize];
        let outcome = carry(
            &mut self.core,
            &self.lookup,
            caller,
            crossing,
            &mut self.desk,
            &mut self.why,
            self.light,
        );
        self.light = light_after(self.light, outcome.entry, self.keeping, &self.core);
        self.room = left(self.room, outcome.entry);
        outcome
    }

    /// Does what a controller asks, or refuses it. Either is an entry, with the number of the command's line;
    /// only where memory is wanting there is none.
    pub fn command(&mut self, line: u32, controller: u16, command: &Command) -> Result<(), Refusal>
        requires listed { is_listed self.old.opening.controllers controller ≡ true }
        requires good { Each IsGoodRule (rules_given command.now) }
        requires room { 1 ≤ self.old.room }
        ensures done { (l : Line) → l.number ≡ line → l.controller ≡ controller → l.command ≡ command.now → IsDone self.old.opening self.old.journal (Asked l (reply_of result)) (not (is_memory result)) }
        ensures journal { self.new.journal ≡ self.old.journal ++ entered (not (is_memory result)) (event.Command controller line command.now (reply_of result)) }
        ensures why { self.new.why ≡ self.old.why }
        ensures opening { self.new.opening ≡ self.old.opening }
        ensures workers { self.new.workers ≡ self.old.workers }
        ensures room { self.old.room ≤ self.new.room + 1 }
    {
        let place = place_of(&self.controllers, controller);
        let caller = &mut self.callers[16 + place];
        let answer = ask(
            &mut self.core,
            &self.lookup,
            caller,
            line,
            controller,
            command,
        );
        let entry = is_entry(answer);
        self.light = light_after(self.light, entry, self.keeping, &self.core);
        self.room = left(self.room, entry);
        self.stale = stale_after(self.stale, answer, self.lookup.rows());
        answer
    }

    /// Compares the next so many rows, in turn, with the layers of now, so that those that still say what is so answer
    /// packets again. Once all were compared since a command was done last, nothing is left to do.
    pub fn reconcile(&mut self, rows: u32)
        ensures { self.new ≡ self.old }
    {
        let rows = rows.min(self.stale);
        self.stale -= rows;
        if self.light {
            return;
        }
        reconcile_from(&mut self.core, &self.lookup, &mut self.next, rows);
    }

    /// Compares each row with the layers of now, once, and then gives those that are current, in the order of their places,
    /// with the number of entries after which they are good.
    pub fn export(&mut self, alloc: Global) -> Result<Exported, NoMemory>
        ensures same { self.new ≡ self.old }
        ensures good { IfOk result (AreGoodAt self.old.opening self.old.journal) }
        ensures few { IfOk result (λ exported. length exported.rows ≤ 16384) }
    {
        self.stale = 0;
        let rows = self.lookup.rows();
        reconcile_from(&mut self.core, &self.lookup, &mut self.next, rows);
        self.core.export(alloc, &self.lookup)
    }
}

/// Reconciles so many rows, from this one on.
fn reconcile_from(core: &mut Core, lookup: &Lookup<PortStory>, next: &mut u32, rows: u32)
    requires core { IsOf lookup.now core.old.writer }
    ensures core { IsOf lookup.now core.new.writer }
    ensures history { core.new.writer.view.history ≡ core.old.writer.view.history }
    ensures edited { core.new.edited ≡ core.old.edited }
{
    for _ in 0..rows {
        let row = turn(*next, lookup.rows());
        let _ = core.reconcile(lookup, row);
        *next = row + 1;
    }
}

/// The row itself, or the first where there is none of its number.
fn turn(row: u32, rows: u32) -> u32
    requires { 0 < rows }
    ensures { result < rows }
{
    if row < rows { row } else { 0 }
}
