//! A port's layers, and the history that leaves them so.

ghost use Rattle.std.specs.Prelude.{◌≡◌, ◌≤◌, ◌<◌, ◌+◌, ◌-◌, ◌^◌, ◌++◌, [], ℕ, List, not, true, length, vec_capacity, OnOk, OnErr};
ghost use Rattle.vsw_port.specs.Walked.{IsWalk};
ghost use Rattle.vsw_base.specs.Frame.{Parts};
ghost use Rattle.vsw_commandfile.specs.declared.line.Line.{Line};
ghost use Rattle.vsw_port.specs.declared.event.Event.TheVariants as event;
ghost use Rattle.vsw_port.specs.Calls.{Asked, Carried};
ghost use Rattle.vsw_port.specs.Next.{IsDone};
ghost use Rattle.vsw_policy.specs.Obey.{is_memory, rules_given};
ghost use Rattle.vsw_policy.specs.Refusals.{reply_of};
ghost use Rattle.vsw_policy.specs.Sound.{Each, IsGoodRule, is_listed};
ghost use Rattle.vsw_port.specs.Core.{AreAtMost, IsHeld, entered, opening_of};
ghost use Rattle.vsw_port.specs.Crossed.{EditsPass, IsOwn, MayBeShort, crossed, is_short};
ghost use Rattle.vsw_port.specs.Ledger.{layers_in};

use crate::copies::copy_command;
use crate::crossing::{Outcome, settle};
use crate::event::Event;
use std::alloc::Global;
use std::marker::Model;
use std::snapshot::Snapshot;
use vsw_base::{Crossing, NoMemory, Ufid};
use vsw_policy::{Command, Policy, Refusal, Reply};
use vsw_walk::{Scratch, Walked};

/// A port's layers and its history. The layers are what the history leaves of those that the port began
/// with; contracts see what it began with, and the history.
#[derive(Drop)]
pub struct Ledger {
    alloc: Global,
    policy: Policy,
    journal: Vec<Event>,
    began: Snapshot<Policy>,
}

impl Model for Ledger {
    ghost use Rattle.std.specs.Prelude.{◌-◌, length, vec_capacity};
    ghost use Rattle.vsw_port.specs.Core.{IsHeld, opening_of};
    ghost use Rattle.vsw_port.specs.Ledger.{LedgerSeen};

    ghost Value = { LedgerSeen };

    ghost view = { λ c. record { opening = opening_of c.began.value; journal = c.journal.items; room = vec_capacity c.journal - length c.journal.items } };

    ghost invariant = { λ c. IsHeld (opening_of c.began.value) c.journal.items c.policy };
}

impl Ledger {
    /// A port that begins with this policy, none of whose layers has made a pair. It takes no memory.
    pub fn open(alloc: Global, policy: Policy) -> Ledger
        requires { AreAtMost 0 policy.layers }
        ensures opening { result.opening ≡ opening_of policy }
        ensures journal { result.journal ≡ [] }
    {
        let began = Snapshot::of(&policy);
        Ledger {
            alloc,
            policy,
            journal: Vec::new(alloc),
            began,
        }
    }

    /// The entries of the history, oldest first.
    pub fn journal(&self) -> &[Event]
        ensures journal { result.now ≡ self.now.journal }
    {
        &self.journal
    }

    /// The layers as they stand, with the controllers that they belong to.
    pub fn policy(&self) -> &Policy
        ensures { IsHeld self.now.opening self.now.journal result.now }
    {
        &self.policy
    }

    /// Takes room for so many further entries.
    pub fn reserve(&mut self, more: u32) -> Result<(), NoMemory>
        ensures opening { self.new.opening ≡ self.old.opening }
        ensures journal { self.new.journal ≡ self.old.journal }
        ensures room { OnOk result (more ≤ self.new.room) }
        ensures kept { self.old.room ≤ self.new.room }
        ensures refused { OnErr result (self.new ≡ self.old) }
    {
        match self.journal.reserve(more as usize) {
            Ok(()) => Ok(()),
            Err(_) => Err(NoMemory),
        }
    }

    /// Settles a packet's walk over the layers that stand: commits it where it passes, and enters it exactly where it
    /// changes them. Memory is taken only to make a pair.
    pub fn settle(&mut self, crossing: &Crossing, walked: &Walked, scratch: &Scratch) -> Outcome
        requires walk { IsWalk (layers_in self.old) crossing.now walked.now scratch.now }
        requires room { 1 ≤ self.old.room }
        requires few { length self.old.journal < 2 ^ 32 - 1 }
        ensures done { (p : Parts) (bytes : List ℕ) → IsDone self.old.opening self.old.journal (Carried crossing.now p result.fate bytes) result.entry }
        ensures exact { record { fate = result.fate; layers = layers_in self.new; entry = result.entry } ≡ crossed (is_short result.fate) (layers_in self.old) crossing.now }
        ensures memory { MayBeShort (is_short result.fate) (layers_in self.old) crossing.now }
        ensures edits { EditsPass (layers_in self.old) crossing.now scratch.now.stack result.kept result.fate }
        ensures own { result.own ≡ true → IsOwn crossing.now scratch.now.stack result.kept }
        ensures journal { self.new.journal ≡ self.old.journal ++ entered result.entry (event.Crossing crossing.now result.fate) }
        ensures opening { self.new.opening ≡ self.old.opening }
        ensures room { self.old.room ≤ self.new.room + length (entered result.entry (event.Crossing crossing.now result.fate)) }
    {
        let outcome = settle(&mut self.policy, crossing, walked, scratch);
        enter_crossing(&mut self.journal, crossing, outcome);
        outcome
    }

    /// Does what a controller asks, or refuses it. Either is an entry, with the number of the command's line;
    /// only where memory is wanting there is none.
    pub fn command(&mut self, line: u32, controller: u16, command: &Command) -> Result<(), Refusal>
        requires listed { is_listed self.old.opening.controllers controller ≡ true }
        requires good { Each IsGoodRule (rules_given command.now) }
        requires room { 1 ≤ self.old.room }
        ensures done { (l : Line) → l.number ≡ line → l.controller ≡ controller → l.command ≡ command.now → IsDone self.old.opening self.old.journal (Asked l (reply_of result)) (not (is_memory result)) }
        ensures journal { self.new.journal ≡ self.old.journal ++ entered (not (is_memory result)) (event.Command controller line command.now (reply_of result)) }
        ensures opening { self.new.opening ≡ self.old.opening }
        ensures room { self.old.room ≤ self.new.room + length (entered (not (is_memory result)) (event.Command controller line command.now (reply_of result))) }
    {
        let Ok(copy) = copy_command(self.alloc, command) else {
            return Err(Refusal::Memory);
        };
        let answer = self.policy.command(controller, command);
        enter_command(&mut self.journal, line, controller, copy, answer);
        answer
    }
}

/// The same packet once more, with a stack of its own, since a journal keeps it.
fn copied(crossing: &Crossing) -> Crossing
    ensures { result ≡ crossing.now }
{
    Crossing {
        caller: crossing.caller,
        packet: crossing.packet,
        id: Ufid {
            dir: crossing.id.dir,
            stack: crossing.id.stack.copy(),
        },
        control: crossing.control,
        moment: crossing.moment,
        sizes: crossing.sizes,
    }
}

/// Enters a packet that changed the layers.
fn enter_crossing(journal: &mut Vec<Event>, crossing: &Crossing, outcome: Outcome)
    requires room { 1 + length journal.old.items ≤ vec_capacity journal.old }
    ensures items { journal.new.items ≡ journal.old.items ++ entered outcome.entry (event.Crossing crossing.now outcome.fate) }
    ensures capacity { vec_capacity journal.new ≡ vec_capacity journal.old }
{
    if outcome.entry {
        journal.push_reserved(Event::Crossing {
            crossing: copied(crossing),
            fate: outcome.fate,
        });
    }
}

/// Enters a command with its reply, unless memory was wanting for it.
fn enter_command(
    journal: &mut Vec<Event>,
    line: u32,
    controller: u16,
    command: Command,
    answer: Result<(), Refusal>,
)
    requires room { 1 + length journal.old.items ≤ vec_capacity journal.old }
    ensures items { journal.new.items ≡ journal.old.items ++ entered (not (is_memory answer)) (event.Command controller line command (reply_of answer)) }
    ensures capacity { vec_capacity journal.new ≡ vec_capacity journal.old }
{
    let reply = match answer {
        Ok(()) => Reply::Ok,
        Err(Refusal::Memory) => return,
        Err(refusal) => Reply::Refused(refusal),
    };
    journal.push_reserved(Event::Command {
        controller,
        line,
        command,
        reply,
    });
}
