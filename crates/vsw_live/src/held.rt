//! A port whose lock is held.

ghost use Rattle.std.specs.Prelude.{◌≡◌, ◌≤◌, ◌<◌, ◌+◌, length, IfOk, IsOk, OnErr, OnOk};
ghost use Rattle.vsw_core.specs.Exporting.{AreGoodAt};
ghost use Rattle.vsw_flows.specs.Flows.{IsOf};
ghost use Rattle.vsw_live.specs.Meeting.{AllMeet, AreOf, IsRightAt, Meets};
ghost use Rattle.vsw_live.specs.Calls.{KeepsLook};
ghost use Rattle.vsw_rows.specs.GoodRows.{opening_of};

use crate::locked::Locked;
use crate::naming::Naming;
use std::alloc::Global;
use std::marker::Model;
use std::sync::MutexGuard;
use vsw_base::NoMemory;
use vsw_core::Exported;
use vsw_flows::PortStory;
use vsw_port::Event;
use vsw_table::{Lookup, Pass};

/// A port whose lock is held. Its history stands still while this is kept: packets that rows answer go on, and all other callers
/// wait.
#[derive(Drop)]
pub struct Held<'a, J: Naming> {
    pub(crate) core: MutexGuard<'a, Locked<J>>,
    pub(crate) lookup: &'a Lookup<PortStory>,
    pub(crate) passes: u32,
}

impl<'a, J: Naming> Model for Held<'a, J> {
    ghost use Rattle.vsw_live.specs.Meeting.{HeldSeen};
    ghost use Rattle.vsw_live.specs.Ports.{StandsAt};

    ghost Value = { HeldSeen };

    ghost view = { λ h. record { port = record { looking = h.lookup.now; passes = h.passes }; history = h.core.value.1.writer.view.history } };

    ghost invariant = { λ h. StandsAt J.ports h.core.value.0 (record { looking = h.lookup.now; passes = h.passes }) };
}

impl<'a, J: Naming> Held<'a, J> {
    /// The entries of the port, oldest first.
    pub fn journal(&self) -> &[Event]
        ensures journal { result.now ≡ self.now.history }
        ensures right { IsRightAt self.now }
    {
        self.core.journal(self.lookup)
    }

    /// The pass meets the port, and has `more` further permits, for whose entries it takes room.
    pub fn grant(&mut self, pass: &mut Pass<PortStory>, more: u32) -> Result<(), NoMemory>
        requires pass { IsOf self.old.port.looking pass.old }
        requires few { length pass.old.view.receipts + pass.old.view.permits + more ≤ 134217728 }
        ensures same { self.new ≡ self.old }
        ensures meets { OnOk result (Meets self.old more pass.old pass.new) }
        ensures look { OnOk result (KeepsLook pass.old.view pass.new.view) }
        ensures nothing { more ≡ 0 → IsOk result }
        ensures refused { OnErr result (pass.new ≡ pass.old) }
    {
        self.core.grant(self.lookup, pass, more)
    }

    /// The pass meets the port.
    pub fn meet(&mut self, pass: &mut Pass<PortStory>)
        requires pass { IsOf self.old.port.looking pass.old }
        ensures same { self.new ≡ self.old }
        ensures meets { Meets self.old 0 pass.old pass.new }
        ensures look { KeepsLook pass.old.view pass.new.view }
    {
        pass.bound();
        let _ = self.grant(pass, 0);
    }

    /// Compares this row and the 31 behind it with the layers of now, and makes those current that can be. No entry is made.
    pub fn reconcile(&mut self, row: u32)
        requires { row < self.old.port.looking.2 }
        ensures same { self.new ≡ self.old }
    {
        self.core.reconcile(self.lookup, row);
    }

    /// The rows that are current, in the order of their places, and after how many entries they are good.
    pub fn export(&mut self, alloc: Global) -> Result<Exported, NoMemory>
        ensures same { self.new ≡ self.old }
        ensures good { IfOk result (AreGoodAt (opening_of self.old.port.looking.1) self.old.history) }
        ensures few { IfOk result (λ exported. length exported.rows ≤ self.old.port.looking.2) }
    {
        self.core.export(alloc, self.lookup)
    }

    /// How many rows are left to be compared since a command was done.
    pub(crate) fn stale(&self) -> u32 {
        self.core.stale()
    }

    /// All these passes do.
    pub fn meet_all(&mut self, passes: &mut [Pass<PortStory>])
        requires passes { AreOf self.old.port.looking passes.old }
        ensures same { self.new ≡ self.old }
        ensures meet { AllMeet self.old passes.old passes.new }
    {
        if let Some((first, rest)) = passes.split_first_mut() {
            self.meet(first);
            self.meet_all(rest);
        }
    }
}
