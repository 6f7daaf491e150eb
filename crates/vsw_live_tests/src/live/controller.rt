//! A controller, which remembers what it was told.

ghost use Rattle.std.specs.Prelude.{◌≡◌, ◌<◌, IfSome};
ghost use Rattle.vsw_flows.specs.Flows.{IsOf};
ghost use Rattle.vsw_live.specs.Ports.{AreNewPasses};
ghost use Rattle.vsw_live_tests.specs.Trials.{Calls, IsTried};
ghost use Rattle.vsw_policy.specs.Obey.{rules_given};
ghost use Rattle.vsw_policy.specs.Sound.{Each, IsGoodRule};

use crate::given::is_good;
use crate::live::commands::{
    add_behind, add_group, add_group_behind, add_layer, put_behind, put_rule, remove_behind,
};
use crate::live::opening::{PERMITS, pass_of};
use crate::live::stages::{ASKED, HELD, LEFT, Stages};
use std::alloc::Global;
use std::marker::Model;
use std::sync::Wait;
use vsw_base::Dir;
use vsw_flows::PortStory;
use vsw_live::{LivePort, Naming, Told};
use vsw_policy::Command;
use vsw_rule::Action;
use vsw_table::Pass;

/// Controller 1 with its pass. Contracts see how many entries it may make.
#[derive(Drop)]
pub struct Controller<'a, J: Naming> {
    port: &'a LivePort<J>,
    pass: Pass<PortStory>,
    left: u32,
    told: Vec<Told>,
}

impl<'a, J: Naming> Model for Controller<'a, J> {
    ghost use Rattle.std.specs.Prelude.{ℕ};
    ghost use Rattle.vsw_live_tests.specs.Trials.{Asks};

    ghost Value = { ℕ };

    ghost view = { λ c. c.left };

    ghost invariant = { λ c. Asks c.port.now.looking c.left c.pass };
}

/// Controller 1 asks for something, in line 1.
fn command_by<J: Naming, R: Wait>(
    rt: &R,
    port: &LivePort<J>,
    pass: &mut Pass<PortStory>,
    command: &Command,
) -> Told
    requires port { IsTried port.now.looking }
    requires pass { IsOf port.now.looking pass.old }
    requires number { pass.old.view.number ≡ 16 }
    requires permit { 0 < pass.old.view.permits }
    requires good { Each IsGoodRule (rules_given command.now) }
    ensures calls { Calls result.entry pass.old pass.new }
{
    port.command(rt, pass, 1, 1, command)
}

impl<'a, J: Naming> Controller<'a, J> {
    /// Controller 1, behind sixteen workers. The passes behind its own are gone.
    pub fn new<R: Wait>(
        rt: &R,
        alloc: Global,
        port: &'a LivePort<J>,
        passes: &mut Vec<Pass<PortStory>>,
    ) -> Option<Controller<'a, J>>
        requires port { IsTried port.now.looking }
        requires new { AreNewPasses port.now.looking 0 passes.old.items }
        ensures new { AreNewPasses port.now.looking 0 passes.new.items }
    {
        match pass_of(rt, port, passes, 16) {
            Some(pass) => Some(Controller {
                port,
                pass,
                left: PERMITS,
                told: Vec::new(alloc),
            }),
            None => None,
        }
    }

    /// Gives a command, where it may, and remembers what it was told.
    pub fn ask<R: Wait>(&mut self, rt: &R, command: &Command) -> Option<Told> {
        if self.left == 0 || !is_good(command) {
            return None;
        }
        self.left -= 1;
        let told = command_by(rt, self.port, &mut self.pass, command);
        match self.told.push(told) {
            Ok(()) => Some(told),
            Err(_) => None,
        }
    }

    /// Gives a command, and gives it up.
    fn give<R: Wait>(&mut self, rt: &R, command: Command) -> Option<Told> {
        self.ask(rt, &command)
    }

    /// Adds a group.
    pub fn group<R: Wait>(&mut self, rt: &R, alloc: Global, group: u16, dir: Dir) -> Option<Told> {
        self.give(rt, add_group(alloc, group, dir))
    }

    /// Puts rule 5.
    pub fn put<R: Wait>(
        &mut self,
        rt: &R,
        alloc: Global,
        action: Action,
        stateful: bool,
    ) -> Option<Told> {
        match put_rule(alloc, action, stateful) {
            Ok(rule) => self.give(rt, rule),
            Err(_) => None,
        }
    }

    /// Adds layer 10 with group 1, for packets out of the port. Whether it was told of both.
    pub fn set_up<R: Wait>(&mut self, rt: &R, alloc: Global, idle: u32, linger: u32) -> bool {
        self.give(rt, add_layer(idle, linger)).is_some()
            && self.group(rt, alloc, 1, Dir::Out).is_some()
    }

    /// Adds a layer behind that lets all pass, with a group for packets into the port. Whether it was told of both.
    pub fn add_behind<R: Wait>(&mut self, rt: &R, alloc: Global) -> bool {
        self.give(rt, add_behind()).is_some() && self.give(rt, add_group_behind(alloc)).is_some()
    }

    /// Puts a rule into that group.
    pub fn put_behind<R: Wait>(&mut self, rt: &R, alloc: Global) -> Option<Told> {
        match put_behind(alloc) {
            Ok(rule) => self.give(rt, rule),
            Err(_) => None,
        }
    }

    /// Removes that layer.
    pub fn remove_behind<R: Wait>(&mut self, rt: &R) -> Option<Told> {
        self.give(rt, remove_behind())
    }

    /// Holds the port's lock from when a row was left until a packet has asked the rows.
    pub fn hold<R: Wait>(&self, rt: &R, stages: &Stages) {
        stages.wait_for(rt, LEFT);
        let _held = self.port.hold(rt);
        stages.reach(HELD);
        stages.wait_for(rt, ASKED);
    }

    /// Reconciles all 64 rows of the port.
    pub fn reconcile<R: Wait>(&self, rt: &R) {
        for row in 0..64u32 {
            self.port.reconcile(rt, row);
        }
    }

    /// What it was told, command by command.
    pub fn told(&self) -> &[Told] {
        &self.told
    }
}
