//! The port under its lock.

ghost use Rattle.std.specs.Prelude.{◌≡◌, ◌≤◌, ◌<◌, ◌+◌, ℕ, List, not, true, false, length, slice_set, IfOk, IsOk, OnOk, OnErr};
ghost use mathlib.Core.List.{IsPrefix};
ghost use Rattle.vsw_base.specs.Frame.{Parts};
ghost use Rattle.vsw_base.specs.declared.packet.Control.TheVariants as control;
ghost use Rattle.vsw_commandfile.specs.declared.line.Line.{Line};
ghost use Rattle.vsw_core.specs.Calls.{FallsBy, FallsOver, called, grown};
ghost use Rattle.vsw_core.specs.Core.{Begins, current_among, history_of, layers_of};
ghost use Rattle.vsw_core.specs.Exporting.{AreGoodAt, current_rows};
ghost use Rattle.vsw_core.specs.Publishing.{IsSettled, Leaves, NoneStands, StandsUntil};
ghost use Rattle.vsw_core.specs.Reconciling.{OthersStay, Reconciles};
ghost use Rattle.vsw_port.specs.declared.event.Event.TheVariants as event;
ghost use Rattle.vsw_port.specs.Calls.{Asked, Carried, controller_at, named};
ghost use Rattle.vsw_port.specs.History.{AllRight};
ghost use Rattle.vsw_port.specs.Next.{IsDone};
ghost use Rattle.vsw_table.specs.Held.{Meets};
ghost use Rattle.vsw_table.specs.Rules.{counted_record, permits_of};
ghost use Rattle.vsw_flows.specs.Flows.{IsOf};
ghost use Rattle.vsw_policy.specs.Obey.{is_memory, rules_given};
ghost use Rattle.vsw_policy.specs.Refusals.{reply_of};
ghost use Rattle.vsw_policy.specs.Sound.{Each, IsGoodRule, is_listed};
ghost use Rattle.vsw_rows.specs.Entries.{is_obeyed};
ghost use Rattle.vsw_port.specs.Core.{AreAtMost, entered};
ghost use Rattle.vsw_port.specs.Crossed.{EditsPass, IsOwn, MayBeShort, is_short};
ghost use Rattle.vsw_rows.specs.GoodRows.{opening_of};

use crate::counting::count_current;
use crate::crossing::{cross, cross_only};
use crate::exporting::{Exported, export};
use crate::light::is_light;
use crate::rooms::{Former, Rooms};
use crate::{commanding, granting, reconciling};
use std::alloc::Global;
use std::marker::Model;
use vsw_base::{Crossing, NoMemory, Stack};
use vsw_flows::{PortStory, Rows};
use vsw_policy::{Command, Policy, Refusal};
use vsw_port::{Event, Ledger, Outcome};
use vsw_table::{Lookup, Pass, Writer};
use vsw_walk::Scratch;

/// What became of a row that was compared with the layers of now.
#[derive(Clone, Copy, Debug, PartialEq, Eq)]
pub enum Reconciled {
    /// It was current already.
    Fresh,
    /// It says what is so, and is current, if a stamp was left.
    Kept,
    /// It said what isn't so any more. A good row of its identity is there now, and current, if a stamp was left.
    Changed,
    /// It is empty, or packets of its identity would make a pair. It stays as it was.
    Cleared,
    /// Memory is wanting for what it leans on. It isn't current, and its words stay.
    Short,
}

/// A port under its lock. It answers packets and commands at the end of the port's history, adds what changed
/// something, and leaves rows that answer later packets without the lock. A row loses its stamp where a packet's entry
/// shakes it or a command may, before that entry; all other rows go on answering.
#[derive(Drop)]
pub struct Core {
    ledger: Ledger,
    rows: Rows,
    /// The walk of the last packet.
    scratch: Scratch,
    /// The walk over the layers of now, of which a row is made.
    again: Scratch,
    rooms: Rooms,
    /// The row that was reconciled last.
    former: Former,
    /// How many entries the passes may still make together, at most. The journal has room for them.
    permits: u64,
    /// Whether the last packet that was to leave a row has one that stands.
    left: bool,
}

impl Model for Core {
    ghost use Rattle.vsw_core.specs.Core.{CoreSeen, IsOwned};

    ghost Value = { CoreSeen };

    ghost view = { λ c. record { writer = c.rows; edited = c.scratch.stack; left = c.left } };

    ghost invariant = { λ c. IsOwned c.ledger c.rows c.permits };
}

impl Core {
    /// A port that begins with the policy of its writer, none of whose layers has made a pair. Memory is taken so that
    /// a packet takes some only to make a pair, whatever rows it leaves.
    pub fn open(alloc: Global, policy: Policy, writer: Writer<PortStory>) -> Result<Core, NoMemory>
        requires pairs { AreAtMost 0 policy.layers }
        requires begins { Begins policy writer }
        ensures writer { IfOk result (λ core. core.writer ≡ writer) }
    {
        let scratch = Scratch::new(alloc)?;
        let again = Scratch::new(alloc)?;
        let rows = Rows::open(alloc, writer, policy.layers().len(), policy.seed())?;
        Ok(Core {
            ledger: Ledger::open(alloc, policy),
            rows,
            scratch,
            again,
            rooms: Rooms::new(),
            former: Former::room(),
            permits: 0,
            left: false,
        })
    }

    /// The entries of the history, oldest first.
    pub fn journal(&self) -> &[Event]
        ensures journal { result.now ≡ self.now.writer.view.history }
    {
        self.ledger.journal()
    }

    /// The stack with which the last packet leaves that crossed the layers here, where it passed.
    pub fn edited(&self) -> &Stack
        ensures { result.now ≡ self.now.edited }
    {
        self.scratch.stack()
    }

    /// Whether the last packet that crossed by `slow` has a row that stands behind it.
    pub fn left(&self) -> bool
        ensures { result ≡ self.now.left }
    {
        self.left
    }

    /// Takes room for `more` further entries, which the pass may make. The pass has then seen the whole history.
    /// With 0 for `more` it takes no memory.
    pub fn grant(
        &mut self,
        lookup: &Lookup<PortStory>,
        pass: &mut Pass<PortStory>,
        more: u32,
    ) -> Result<(), NoMemory>
        requires core { IsOf lookup.now self.old.writer }
        requires pass { IsOf lookup.now pass.old }
        requires few { length pass.old.view.receipts + pass.old.view.permits + more ≤ 134217728 }
        ensures writer { OnOk result (self.new.writer ≡ record self.old.writer { view = record self.old.writer.view { kept = slice_set self.old.writer.view.kept pass.old.view.number (pass.old.view.permits + more) } }) }
        ensures edited { self.new.edited ≡ self.old.edited }
        ensures left { self.new.left ≡ self.old.left }
        ensures pass { OnOk result (pass.new ≡ record pass.old { view = record pass.old.view { front = self.old.writer.view.history; permits = pass.old.view.permits + more; shown = counted_record self.old.writer.view.history } }) }
        ensures tells { OnOk result (Meets (λ p e. named p.controllers e) lookup.now.1 self.new.writer.view pass.new.view) }
        ensures right { OnOk result (AllRight (opening_of lookup.now.1) self.new.writer.view.history) }
        ensures seen { OnOk result (IsPrefix pass.old.view.front pass.new.view.front) }
        ensures held { OnOk result (pass.old.view.permits ≡ permits_of self.old.writer.view pass.old.view.number) }
        ensures nothing { more ≡ 0 → IsOk result }
        ensures refused { OnErr result ((self.new ≡ self.old) × (pass.new ≡ pass.old)) }
    {
        granting::grant(
            &mut self.ledger,
            &mut self.rows,
            &mut self.permits,
            lookup,
            pass,
            more,
        )
    }

    /// A packet crosses the layers. It is an entry exactly where it changes them. Where it passes, `edited` tells
    /// its headers. Memory is taken only to make a pair. A packet without a control that would now change nothing
    /// leaves a row for those of its identity that follow, unless memory or stamps are wanting: `left` tells. Rows that its
    /// entry shakes fall before; also where memory for the pair is wanting then, which costs them a walk.
    pub fn slow(
        &mut self,
        lookup: &Lookup<PortStory>,
        pass: &mut Pass<PortStory>,
        crossing: &Crossing,
    ) -> Outcome
        requires core { IsOf lookup.now self.old.writer }
        requires pass { IsOf lookup.now pass.old }
        requires caller { crossing.now.caller ≡ pass.old.view.number }
        requires permit { 0 < pass.old.view.permits }
        ensures done { (p : Parts) (bytes : List ℕ) → IsDone (opening_of lookup.now.1) self.old.writer.view.history (Carried crossing.now p result.fate bytes) result.entry }
        ensures memory { MayBeShort (is_short result.fate) (layers_of lookup.now.1 self.old) crossing.now }
        ensures edits { EditsPass (layers_of lookup.now.1 self.old) crossing.now self.new.edited result.kept result.fate }
        ensures own { result.own ≡ true → IsOwn crossing.now self.new.edited result.kept }
        ensures writer { self.new.writer ≡ record self.old.writer { view = grown self.old.writer.view pass.old.view (entered result.entry (event.Crossing crossing.now result.fate)) self.new.writer.view } }
        ensures pass { pass.new ≡ record pass.old { view = called pass.old.view self.new.writer.view.history (entered result.entry (event.Crossing crossing.now result.fate)) } }
        ensures right { AllRight (opening_of lookup.now.1) self.new.writer.view.history }
        ensures held { pass.old.view.permits ≡ permits_of self.old.writer.view pass.old.view.number }
        ensures short { length self.old.writer.view.history < 4294967295 }
        ensures seen { IsPrefix pass.old.view.front self.old.writer.view.history }
        ensures rows { Leaves lookup.now.2 (layers_of lookup.now.1 self.old) (layers_of lookup.now.1 self.new) crossing.now result.fate self.old.writer self.new.writer }
        ensures stands { self.new.left ≡ true → StandsUntil lookup.now.2 (layers_of lookup.now.1 self.new) self.new.writer crossing.now.id crossing.now.moment }
        ensures wanting { crossing.now.control ≡ control.None → IsSettled (layers_of lookup.now.1 self.new) crossing.now → self.new.left ≡ false → NoneStands lookup.now.2 self.new.writer crossing.now.id }
    {
        cross(
            lookup,
            pass,
            crossing,
            &mut self.permits,
            &mut self.ledger,
            &mut self.rows,
            &mut self.scratch,
            &mut self.again,
            &mut self.rooms,
            &mut self.left,
        )
    }

    /// Whether the layers are so few, of so few rules, that a walk over them costs less than a row's answer.
    pub fn is_light(&self) -> bool {
        is_light(self.ledger.policy().layers())
    }

    /// The same as `slow`, but no row is left.
    pub fn cross(
        &mut self,
        lookup: &Lookup<PortStory>,
        pass: &mut Pass<PortStory>,
        crossing: &Crossing,
    ) -> Outcome
        requires core { IsOf lookup.now self.old.writer }
        requires pass { IsOf lookup.now pass.old }
        requires caller { crossing.now.caller ≡ pass.old.view.number }
        requires permit { 0 < pass.old.view.permits }
        ensures done { (p : Parts) (bytes : List ℕ) → IsDone (opening_of lookup.now.1) self.old.writer.view.history (Carried crossing.now p result.fate bytes) result.entry }
        ensures memory { MayBeShort (is_short result.fate) (layers_of lookup.now.1 self.old) crossing.now }
        ensures edits { EditsPass (layers_of lookup.now.1 self.old) crossing.now self.new.edited result.kept result.fate }
        ensures own { result.own ≡ true → IsOwn crossing.now self.new.edited result.kept }
        ensures writer { self.new.writer ≡ record self.old.writer { view = grown self.old.writer.view pass.old.view (entered result.entry (event.Crossing crossing.now result.fate)) self.new.writer.view } }
        ensures pass { pass.new ≡ record pass.old { view = called pass.old.view self.new.writer.view.history (entered result.entry (event.Crossing crossing.now result.fate)) } }
        ensures falls { FallsBy (layers_of lookup.now.1 self.old) (event.Crossing crossing.now result.fate) self.old.writer self.new.writer }
        ensures right { AllRight (opening_of lookup.now.1) self.new.writer.view.history }
        ensures held { pass.old.view.permits ≡ permits_of self.old.writer.view pass.old.view.number }
        ensures short { length self.old.writer.view.history < 4294967295 }
        ensures seen { IsPrefix pass.old.view.front self.old.writer.view.history }
        ensures left { self.new.left ≡ self.old.left }
    {
        cross_only(
            lookup,
            pass,
            crossing,
            &mut self.permits,
            &mut self.ledger,
            &mut self.rows,
            &mut self.scratch,
        )
    }

    /// Does what a controller asks, or refuses it. Either is an entry, with the number of the command's line; only where
    /// memory is wanting there is none. Each row that is current afterwards is spared by a command that was done. Rows may
    /// also fall where it is refused, or memory is wanting, which costs them a walk.
    pub fn command(
        &mut self,
        lookup: &Lookup<PortStory>,
        pass: &mut Pass<PortStory>,
        line: u32,
        controller: u16,
        command: &Command,
    ) -> Result<(), Refusal>
        requires core { IsOf lookup.now self.old.writer }
        requires pass { IsOf lookup.now pass.old }
        requires caller { controller_at lookup.now.1.controllers controller ≡ pass.old.view.number }
        requires permit { 0 < pass.old.view.permits }
        requires listed { is_listed lookup.now.1.controllers controller ≡ true }
        requires good { Each IsGoodRule (rules_given command.now) }
        ensures done { (l : Line) → l.number ≡ line → l.controller ≡ controller → l.command ≡ command.now → IsDone (opening_of lookup.now.1) self.old.writer.view.history (Asked l (reply_of result)) (not (is_memory result)) }
        ensures writer { self.new.writer ≡ record self.old.writer { view = grown self.old.writer.view pass.old.view (entered (not (is_memory result)) (event.Command controller line command.now (reply_of result))) self.new.writer.view } }
        ensures pass { pass.new ≡ record pass.old { view = called pass.old.view self.new.writer.view.history (entered (not (is_memory result)) (event.Command controller line command.now (reply_of result))) } }
        ensures falls { FallsOver (layers_of lookup.now.1 self.old) controller command.now (is_obeyed (reply_of result)) self.old.writer self.new.writer }
        ensures right { AllRight (opening_of lookup.now.1) self.new.writer.view.history }
        ensures held { pass.old.view.permits ≡ permits_of self.old.writer.view pass.old.view.number }
        ensures short { length self.old.writer.view.history < 4294967295 }
        ensures seen { IsPrefix pass.old.view.front self.old.writer.view.history }
        ensures edited { self.new.edited ≡ self.old.edited }
        ensures left { self.new.left ≡ self.old.left }
    {
        commanding::command(
            &mut self.ledger,
            &mut self.rows,
            &mut self.permits,
            lookup,
            pass,
            line,
            controller,
            command,
        )
    }

    /// Compares a row with the layers of now, and makes it current where that can be. Others may give way to it.
    pub fn reconcile(&mut self, lookup: &Lookup<PortStory>, row: u32) -> Reconciled
        requires core { IsOf lookup.now self.old.writer }
        requires row { row < lookup.now.2 }
        ensures reconciles { Reconciles (layers_of lookup.now.1 self.old) self.old.writer self.new.writer row result }
        ensures others { OthersStay self.old.writer self.new.writer row }
        ensures writer { self.new.writer ≡ record self.old.writer { view = record self.old.writer.view { given = self.new.writer.view.given; stamps = self.new.writer.view.stamps; rows = self.new.writer.view.rows } } }
        ensures edited { self.new.edited ≡ self.old.edited }
        ensures left { self.new.left ≡ self.old.left }
    {
        reconciling::reconcile(
            lookup,
            &self.ledger,
            &mut self.rows,
            row,
            &mut self.again,
            &mut self.former,
            &mut self.rooms,
        )
    }

    /// How many rows are current.
    pub fn current(&mut self, lookup: &Lookup<PortStory>) -> u32
        requires core { IsOf lookup.now self.old.writer }
        ensures same { self.new ≡ self.old }
        ensures count { result ≡ current_among lookup.now.2 self.old.writer }
    {
        count_current(lookup, &mut self.rows)
    }

    /// The rows that are current, in the order of their places, and after how many entries they are good. Nothing is
    /// changed, also where memory is wanting.
    pub fn export(
        &mut self,
        alloc: Global,
        lookup: &Lookup<PortStory>,
    ) -> Result<Exported, NoMemory>
        requires core { IsOf lookup.now self.old.writer }
        ensures same { self.new ≡ self.old }
        ensures rows { IfOk result (λ exported. exported.rows ≡ current_rows lookup.now.2 self.old.writer) }
        ensures good { IfOk result (AreGoodAt (opening_of lookup.now.1) (history_of self.old)) }
        ensures few { IfOk result (λ exported. length exported.rows ≤ lookup.now.2) }
    {
        export(alloc, lookup, &self.ledger, &mut self.rows)
    }
}
