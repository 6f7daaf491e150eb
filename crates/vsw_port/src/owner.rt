//! A port as one thread has it.

ghost use Rattle.std.specs.Prelude.{◌≡◌, ◌≤◌, ◌<◌, ◌+◌, ◌-◌, ◌^◌, ◌++◌, [], ℕ, List, not, true, length, IfOk, OnOk, OnErr};
ghost use Rattle.vsw_base.specs.Frame.{Parts};
ghost use Rattle.vsw_commandfile.specs.declared.line.Line.{Line};
ghost use Rattle.vsw_port.specs.declared.event.Event.TheVariants as event;
ghost use Rattle.vsw_port.specs.Calls.{Asked, Carried};
ghost use Rattle.vsw_port.specs.Next.{IsDone};
ghost use Rattle.vsw_policy.specs.Obey.{is_memory, rules_given};
ghost use Rattle.vsw_policy.specs.Refusals.{reply_of};
ghost use Rattle.vsw_policy.specs.Sound.{Each, IsGoodRule, is_listed};
ghost use Rattle.vsw_port.specs.Core.{AreAtMost, IsHeld, entered, layers_of, opening_of};
ghost use Rattle.vsw_port.specs.Crossed.{EditsPass, IsOwn, MayBeShort, crossed, is_short};

use crate::crossing::Outcome;
use crate::event::Event;
use crate::ledger::Ledger;
use std::alloc::Global;
use std::marker::Model;
use vsw_base::{Crossing, NoMemory, Stack};
use vsw_policy::{Command, Policy, Refusal};
use vsw_walk::{Scratch, walk};

/// A port's ledger, with room for a walk. Contracts see what the port began with, and the history.
#[derive(Drop)]
pub struct Core {
    ledger: Ledger,
    scratch: Scratch,
}

impl Model for Core {
    ghost use Rattle.vsw_port.specs.Core.{CoreSeen};

    ghost Value = { CoreSeen };

    ghost view = { λ c. record { opening = c.ledger.opening; journal = c.ledger.journal; room = c.ledger.room; edited = c.scratch.stack } };
}

impl Core {
    /// A port that begins with this policy, none of whose layers has made a pair.
    pub fn open(alloc: Global, policy: Policy) -> Result<Core, NoMemory>
        requires { AreAtMost 0 policy.layers }
        ensures opening { IfOk result (λ core. core.opening ≡ opening_of policy) }
        ensures journal { IfOk result (λ core. core.journal ≡ []) }
    {
        let scratch = Scratch::new(alloc)?;
        Ok(Core {
            ledger: Ledger::open(alloc, policy),
            scratch,
        })
    }

    /// The entries of the history, oldest first.
    pub fn journal(&self) -> &[Event]
        ensures journal { result.now ≡ self.now.journal }
    {
        self.ledger.journal()
    }

    /// How many entries there are.
    pub fn count(&self) -> u32
        requires { length self.now.journal < 2 ^ 32 }
        ensures { result ≡ length self.now.journal }
    {
        self.ledger.journal().len() as u32
    }

    /// The layers as they stand, with the controllers that they belong to.
    pub fn policy(&self) -> &Policy
        ensures { IsHeld self.now.opening self.now.journal result.now }
    {
        self.ledger.policy()
    }

    /// Takes room for so many further entries.
    pub fn reserve(&mut self, more: u32) -> Result<(), NoMemory>
        ensures opening { self.new.opening ≡ self.old.opening }
        ensures journal { self.new.journal ≡ self.old.journal }
        ensures room { OnOk result (more ≤ self.new.room) }
        ensures kept { self.old.room ≤ self.new.room }
        ensures refused { OnErr result (self.new ≡ self.old) }
    {
        self.ledger.reserve(more)
    }

    /// The stack with which the last packet leaves that crossed the layers, where it passed.
    pub fn edited(&self) -> &Stack
        ensures { result.now ≡ self.now.edited }
    {
        self.scratch.stack()
    }

    /// A packet crosses the layers. It is an entry exactly where it changes them. Where it passes, `edited`
    /// tells its headers. Memory is taken only to make a pair.
    pub fn slow(&mut self, crossing: &Crossing) -> Outcome
        requires room { 1 ≤ self.old.room }
        requires few { length self.old.journal < 2 ^ 32 - 1 }
        ensures done { (p : Parts) (bytes : List ℕ) → IsDone self.old.opening self.old.journal (Carried crossing.now p result.fate bytes) result.entry }
        ensures exact { record { fate = result.fate; layers = layers_of self.new; entry = result.entry } ≡ crossed (is_short result.fate) (layers_of self.old) crossing.now }
        ensures memory { MayBeShort (is_short result.fate) (layers_of self.old) crossing.now }
        ensures edits { EditsPass (layers_of self.old) crossing.now self.new.edited result.kept result.fate }
        ensures own { result.own ≡ true → IsOwn crossing.now self.new.edited result.kept }
        ensures journal { self.new.journal ≡ self.old.journal ++ entered result.entry (event.Crossing crossing.now result.fate) }
        ensures opening { self.new.opening ≡ self.old.opening }
        ensures room { self.old.room ≤ self.new.room + 1 }
    {
        let walked = walk(self.ledger.policy(), crossing, &mut self.scratch);
        self.ledger.settle(crossing, &walked, &self.scratch)
    }

    /// Does what a controller asks, or refuses it. Either is an entry, with the number of the command's line;
    /// only where memory is wanting there is none.
    pub fn command(&mut self, line: u32, controller: u16, command: &Command) -> Result<(), Refusal>
        requires listed { is_listed self.old.opening.controllers controller ≡ true }
        requires good { Each IsGoodRule (rules_given command.now) }
        requires room { 1 ≤ self.old.room }
        ensures done { (l : Line) → l.number ≡ line → l.controller ≡ controller → l.command ≡ command.now → IsDone self.old.opening self.old.journal (Asked l (reply_of result)) (not (is_memory result)) }
        ensures journal { self.new.journal ≡ self.old.journal ++ entered (not (is_memory result)) (event.Command controller line command.now (reply_of result)) }
        ensures opening { self.new.opening ≡ self.old.opening }
        ensures room { self.old.room ≤ self.new.room + 1 }
    {
        self.ledger.command(line, controller, command)
    }
}
