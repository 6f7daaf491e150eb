//! What lies under a port's lock.

ghost use Rattle.std.specs.Prelude.{◌≡◌, ◌<◌, ◌≤◌, ◌+◌, ℕ, List, length, not, true, IfOk, IsOk, OnErr, OnOk};
ghost use mathlib.Core.List.{IsPrefix};
ghost use Rattle.vsw_core.specs.Exporting.{AreGoodAt, current_rows};
ghost use Rattle.vsw_flows.specs.Flows.{IsOf};
ghost use Rattle.vsw_port.specs.Calls.{controller_at};
ghost use Rattle.vsw_port.specs.History.{AllRight};
ghost use Rattle.vsw_live.specs.Calls.{CrossesAsked, KeepsLook};
ghost use Rattle.vsw_live.specs.Private.Locked.{CrossesSo, HasLookup, IsFateAt, IsLocked, MeetsAt, Rewrites, Stays, layers_met};
ghost use Rattle.vsw_table.specs.Rules.{counted_record};
ghost use Rattle.vsw_policy.specs.Obey.{is_memory, rules_given};
ghost use Rattle.vsw_policy.specs.Refusals.{reply_of};
ghost use Rattle.vsw_policy.specs.Sound.{Each, IsGoodRule, is_listed};
ghost use Rattle.vsw_port.specs.Crossed.{EditsPass, IsOwn};
ghost use Rattle.vsw_rows.specs.GoodRows.{opening_of};

use crate::answer::Told;
use crate::naming::Naming;
use std::alloc::Global;
use std::marker::{Model, PhantomData};
use vsw_answer::Desk;
use vsw_base::{Crossing, NoMemory};
use vsw_core::{Core, Exported};
use vsw_flows::PortStory;
use vsw_policy::{Command, Refusal, Reply};
use vsw_port::{Event, Outcome};
use vsw_table::{Lookup, Pass};

/// How many rows are compared under one lock.
pub(crate) const ROWS_AT_ONCE: u32 = 32;

/// The core of the port at a place. Nothing is known of it once the lock is taken but what its type keeps, and that is told by the
/// place alone: so who takes the lock compares the place.
#[derive(Drop)]
pub(crate) struct Locked<J: Naming> {
    place: usize,
    /// How many rows weren't compared with the layers since a command was done, where they are compared in turn.
    stale: u32,
    core: Core,
    of: PhantomData<J>,
}

impl<J: Naming> Model for Locked<J> {
    ghost use Rattle.std.specs.Prelude.{ℕ};
    ghost use Rattle.vsw_core.specs.Core.{CoreSeen};
    ghost use Rattle.vsw_live.specs.Private.Locked.{IsLocked};

    ghost Value = { ℕ × CoreSeen };

    ghost view = { λ c. (c.place, c.core) };

    ghost invariant = { λ c. IsLocked J.ports c.place c.core.writer };
}

impl<J: Naming> Locked<J> {
    pub(crate) fn new(place: usize, core: Core) -> Locked<J>
        requires { IsLocked J.ports place core.writer }
        ensures { result ≡ (place, core) }
    {
        Locked {
            place,
            stale: 0,
            core,
            of: PhantomData,
        }
    }

    pub(crate) fn place(&self) -> usize
        ensures { result ≡ self.now.0 }
    {
        self.place
    }

    /// The entries, oldest first.
    pub(crate) fn journal(&self, _lookup: &Lookup<PortStory>) -> &[Event]
        requires port { HasLookup J.ports self.now.0 _lookup.now }
        ensures journal { result.now ≡ self.now.1.writer.view.history }
        ensures right { AllRight (opening_of _lookup.now.1) result.now }
    {
        self.core.journal()
    }

    /// The pass meets the port, and has `more` further permits.
    pub(crate) fn grant(
        &mut self,
        lookup: &Lookup<PortStory>,
        pass: &mut Pass<PortStory>,
        more: u32,
    ) -> Result<(), NoMemory>
        requires port { HasLookup J.ports self.old.0 lookup.now }
        requires pass { IsOf lookup.now pass.old }
        requires few { length pass.old.view.receipts + pass.old.view.permits + more ≤ 134217728 }
        ensures place { self.new.0 ≡ self.old.0 }
        ensures history { self.new.1.writer.view.history ≡ self.old.1.writer.view.history }
        ensures meets { OnOk result (MeetsAt J.ports self.old.0 lookup.now self.old.1.writer.view.history more pass.old pass.new) }
        ensures look { OnOk result (KeepsLook pass.old.view pass.new.view) }
        ensures short { OnOk result (length self.old.1.writer.view.history < 4294967295) }
        ensures nothing { more ≡ 0 → IsOk result }
        ensures refused { OnErr result (pass.new ≡ pass.old) }
    {
        self.core.grant(lookup, pass, more)
    }

    /// A packet crosses the layers, as the next call of the port's history. Where it passes, the desk has its headers.
    pub(crate) fn cross(
        &mut self,
        lookup: &Lookup<PortStory>,
        pass: &mut Pass<PortStory>,
        crossing: &Crossing,
        desk: &mut Desk,
    ) -> (Outcome, u32)
        requires port { HasLookup J.ports self.old.0 lookup.now }
        requires pass { IsOf lookup.now pass.old }
        requires caller { crossing.now.caller ≡ pass.old.view.number }
        requires permit { 0 < pass.old.view.permits }
        ensures place { self.new.0 ≡ self.old.0 }
        ensures crosses { CrossesSo (opening_of lookup.now.1) pass.old pass.new crossing.now result.0 result.1 }
        ensures fate { IsFateAt (layers_met (opening_of lookup.now.1) pass.new.view result.1) crossing.now result.0.fate }
        ensures edits { EditsPass (layers_met (opening_of lookup.now.1) pass.new.view result.1) crossing.now desk.new result.0.kept result.0.fate }
        ensures own { result.0.own ≡ true → IsOwn crossing.now desk.new result.0.kept }
        ensures look { KeepsLook pass.old.view pass.new.view }
    {
        cross(&mut self.core, lookup, pass, crossing, desk)
    }

    /// Does what a controller asks, or refuses it, as the next call of the port's history.
    pub(crate) fn command(
        &mut self,
        lookup: &Lookup<PortStory>,
        pass: &mut Pass<PortStory>,
        line: u32,
        controller: u16,
        command: &Command,
    ) -> Told
        requires port { HasLookup J.ports self.old.0 lookup.now }
        requires pass { IsOf lookup.now pass.old }
        requires caller { controller_at lookup.now.1.controllers controller ≡ pass.old.view.number }
        requires permit { 0 < pass.old.view.permits }
        requires listed { is_listed lookup.now.1.controllers controller ≡ true }
        requires good { Each IsGoodRule (rules_given command.now) }
        ensures place { self.new.0 ≡ self.old.0 }
        ensures crosses { CrossesAsked (opening_of lookup.now.1) line controller command.now result pass.old pass.new }
    {
        let told = ask(&mut self.core, lookup, pass, line, controller, command);
        self.stale = stale_after(self.stale, told.reply, lookup.rows());
        told
    }

    /// How many rows are left to be compared with the layers.
    pub(crate) fn stale(&self) -> u32 {
        self.stale
    }

    /// Compares this row and the next ones, so many as are compared at once, with the layers of now, and makes those current
    /// that can be. Where all were compared in turn since a command was done, nothing is left to do: a row that a packet shook is
    /// put anew by the next packet of its flow.
    pub(crate) fn reconcile(&mut self, lookup: &Lookup<PortStory>, row: u32)
        requires port { HasLookup J.ports self.old.0 lookup.now }
        requires row { row < lookup.now.2 }
        ensures place { self.new.0 ≡ self.old.0 }
        ensures rows { Rewrites self.old.1.writer self.new.1.writer }
        ensures edited { self.new.1.edited ≡ self.old.1.edited }
        ensures history { self.new.1.writer.view.history ≡ self.old.1.writer.view.history }
    {
        if self.stale == 0 {
            return;
        }
        let end = lookup.rows().min(row + ROWS_AT_ONCE);
        self.stale = self.stale.saturating_sub(end - row);
        reconcile_all(&mut self.core, lookup, row, end);
    }

    /// The rows that are current, in the order of their places, and after how many entries they are good.
    pub(crate) fn export(
        &mut self,
        alloc: Global,
        lookup: &Lookup<PortStory>,
    ) -> Result<Exported, NoMemory>
        requires port { HasLookup J.ports self.old.0 lookup.now }
        ensures same { self.new ≡ self.old }
        ensures rows { IfOk result (λ exported. exported.rows ≡ current_rows lookup.now.2 self.old.1.writer) }
        ensures good { IfOk result (AreGoodAt (opening_of lookup.now.1) self.old.1.writer.view.history) }
        ensures few { IfOk result (λ exported. length exported.rows ≤ lookup.now.2) }
    {
        self.core.export(alloc, lookup)
    }
}

/// How many rows are to be compared after a command: all where it was done.
fn stale_after(stale: u32, reply: Reply, rows: u32) -> u32 {
    match reply {
        Reply::Ok => rows,
        Reply::Refused(_) => stale,
    }
}

/// Compares these rows with the layers of now.
fn reconcile_all(core: &mut Core, lookup: &Lookup<PortStory>, first: u32, end: u32)
    requires core { IsOf lookup.now core.old.writer }
    requires end { end ≤ lookup.now.2 }
    ensures rows { Rewrites core.old.writer core.new.writer }
    ensures edited { core.new.edited ≡ core.old.edited }
{
    for row in first..end {
        core.reconcile(lookup, row);
    }
}

/// How many entries there are. The pass has then seen them.
fn count(core: &mut Core, lookup: &Lookup<PortStory>, pass: &mut Pass<PortStory>) -> u32
    requires core { IsOf lookup.now core.old.writer }
    requires pass { IsOf lookup.now pass.old }
    ensures count { result ≡ length core.old.writer.view.history }
    ensures history { core.new.writer.view.history ≡ core.old.writer.view.history }
    ensures stays { Stays core.old.writer core.new.writer }
    ensures met { pass.new ≡ record pass.old { view = record pass.old.view { front = core.old.writer.view.history; shown = counted_record core.old.writer.view.history } } }
    ensures seen { IsPrefix pass.old.view.front core.old.writer.view.history }
{
    pass.bound();
    let _ = core.grant(lookup, pass, 0);
    core.journal().len() as u32
}

/// A packet crosses the layers of a core.
fn cross(
    core: &mut Core,
    lookup: &Lookup<PortStory>,
    pass: &mut Pass<PortStory>,
    crossing: &Crossing,
    desk: &mut Desk,
) -> (Outcome, u32)
    requires core { IsOf lookup.now core.old.writer }
    requires right { AllRight (opening_of lookup.now.1) core.old.writer.view.history }
    requires pass { IsOf lookup.now pass.old }
    requires caller { crossing.now.caller ≡ pass.old.view.number }
    requires permit { 0 < pass.old.view.permits }
    ensures stays { Stays core.old.writer core.new.writer }
    ensures right { AllRight (opening_of lookup.now.1) core.new.writer.view.history }
    ensures crosses { CrossesSo (opening_of lookup.now.1) pass.old pass.new crossing.now result.0 result.1 }
    ensures fate { IsFateAt (layers_met (opening_of lookup.now.1) pass.new.view result.1) crossing.now result.0.fate }
    ensures edits { EditsPass (layers_met (opening_of lookup.now.1) pass.new.view result.1) crossing.now desk.new result.0.kept result.0.fate }
    ensures own { result.0.own ≡ true → IsOwn crossing.now desk.new result.0.kept }
    ensures look { KeepsLook pass.old.view pass.new.view }
{
    let count = count(core, lookup, pass);
    let outcome = core.slow(lookup, pass, crossing);
    desk.keep(core.edited());
    (outcome, count)
}

/// Whether an answer is an entry.
fn is_entry(answer: Result<(), Refusal>) -> bool
    ensures { result ≡ not (is_memory answer) }
{
    match answer {
        Err(Refusal::Memory) => false,
        _ => true,
    }
}

/// What is told of a command that was given after so many entries.
fn told(answer: Result<(), Refusal>, count: u32) -> Told
    ensures { result ≡ record { reply = reply_of answer; count = count; entry = not (is_memory answer) } }
{
    Told {
        reply: Reply::of(answer),
        count,
        entry: is_entry(answer),
    }
}

/// A controller asks a core.
fn ask(
    core: &mut Core,
    lookup: &Lookup<PortStory>,
    pass: &mut Pass<PortStory>,
    line: u32,
    controller: u16,
    command: &Command,
) -> Told
    requires core { IsOf lookup.now core.old.writer }
    requires right { AllRight (opening_of lookup.now.1) core.old.writer.view.history }
    requires pass { IsOf lookup.now pass.old }
    requires caller { controller_at lookup.now.1.controllers controller ≡ pass.old.view.number }
    requires permit { 0 < pass.old.view.permits }
    requires listed { is_listed lookup.now.1.controllers controller ≡ true }
    requires good { Each IsGoodRule (rules_given command.now) }
    ensures stays { Stays core.old.writer core.new.writer }
    ensures right { AllRight (opening_of lookup.now.1) core.new.writer.view.history }
    ensures crosses { CrossesAsked (opening_of lookup.now.1) line controller command.now result pass.old pass.new }
{
    let count = count(core, lookup, pass);
    let answer = core.command(lookup, pass, line, controller, command);
    told(answer, count)
}
