//! Five workers in threads of their own, one of which has a controller beside it.

ghost use Rattle.vsw_live.specs.Ports.{AreNewPasses};
ghost use Rattle.vsw_live_tests.specs.Trials.{IsTried};

use crate::live::commands::Orders;
use crate::live::controller::Controller;
use crate::live::worker::Worker;
use std::alloc::Global;
use std::sync::Wait;
use std::thread;
use std::thread::Threads;
use vsw_flows::PortStory;
use vsw_live::{LivePort, Naming};
use vsw_rule::Action;
use vsw_table::Pass;

/// What the five do. In each turn a worker sends its packets, and then the controller beside it gives a command.
pub struct Plan {
    pub turns: u32,
    /// How many packets worker 0 to 3 each send in a turn, and how many worker 4, which has the controller beside it.
    pub packets: u32,
    pub beside: u32,
    /// How many answers each worker remembers.
    pub answers: usize,
    /// How long pairs live, in seconds.
    pub idle: u32,
    pub linger: u32,
    /// Whether packets are of eight flows, rules come and go, and all rows are reconciled after each command. Otherwise all
    /// packets are the query, which a rule allows at first.
    pub flows: bool,
    /// Whether worker 0 alone sends two queries, the second while the controller's thread holds the port's lock.
    pub holds: bool,
}

/// What one thread does.
#[derive(Drop)]
pub struct Actor<'a, J: Naming> {
    pub worker: Worker<'a, J>,
    pub controller: Option<Controller<'a, J>>,
}

/// Gives the command of a turn.
fn rule_on<J: Naming, R: Wait>(
    rt: &R,
    controller: &mut Controller<'_, J>,
    turn: u32,
    plan: &Plan,
    orders: &Orders,
) {
    if let Some(order) = orders.of(turn) {
        controller.ask(rt, order);
    }
    if plan.flows {
        controller.reconcile(rt);
    }
}

/// A turn of one thread. What isn't sent is missing among the answers.
fn take_turn<J: Naming, R: Wait>(
    rt: &R,
    actor: &mut Actor<'_, J>,
    turn: u32,
    plan: &Plan,
    orders: &Orders,
) {
    let packets = match &actor.controller {
        Some(_) => plan.beside,
        None => plan.packets,
    };
    for _ in 0..packets {
        actor.worker.go(rt, plan.flows);
    }
    if let Some(controller) = &mut actor.controller {
        rule_on(rt, controller, turn, plan, orders);
    }
}

/// The controller's thread holds the port's lock until worker 0 has asked the rows.
fn hold_or_ask<J: Naming, R: Wait>(rt: &R, actor: &mut Actor<'_, J>, orders: &Orders) {
    if let Some(controller) = &actor.controller {
        controller.hold(rt, &orders.stages);
    } else if actor.worker.number() == 0 {
        actor.worker.ask_while_held(rt, &orders.stages);
    }
}

/// All turns of one thread.
fn act<J: Naming, R: Wait>(rt: &R, actor: &mut Actor<'_, J>, plan: &Plan, orders: &Orders) {
    if plan.holds {
        hold_or_ask(rt, actor, orders);
        return;
    }
    for turn in 0..plan.turns {
        take_turn(rt, actor, turn, plan, orders);
    }
}

/// All five act, each in a thread of its own.
pub fn run<J: Naming + Send + Sync, R: Threads + Wait + Sync>(
    rt: &R,
    actors: &mut [Actor<'_, J>],
    plan: &Plan,
    orders: &Orders,
) {
    thread::for_each_mut(rt, actors, 5, &|_, actor| act(rt, actor, plan, orders));
}

/// Whether the layer is set up, with rule 5 where all packets are the query.
fn set_up<J: Naming, R: Wait>(
    rt: &R,
    alloc: Global,
    controller: &mut Controller<'_, J>,
    plan: &Plan,
) -> bool {
    controller.set_up(rt, alloc, plan.idle, plan.linger)
        && (plan.flows || controller.put(rt, alloc, Action::Allow, false).is_some())
}

/// The controller of a layer that is set up.
fn leader<'a, J: Naming, R: Wait>(
    rt: &R,
    alloc: Global,
    port: &'a LivePort<J>,
    passes: &mut Vec<Pass<PortStory>>,
    plan: &Plan,
) -> Option<Controller<'a, J>>
    requires port { IsTried port.now.looking }
    requires new { AreNewPasses port.now.looking 0 passes.old.items }
    ensures new { AreNewPasses port.now.looking 0 passes.new.items }
{
    let Some(mut controller) = Controller::new(rt, alloc, port, passes) else {
        return None;
    };
    if set_up(rt, alloc, &mut controller, plan) {
        Some(controller)
    } else {
        None
    }
}

/// Whether memory sufficed for one actor more.
fn push<'a, J: Naming>(
    actors: &mut Vec<Actor<'a, J>>,
    worker: Worker<'a, J>,
    controller: Option<Controller<'a, J>>,
) -> bool {
    actors.push(Actor { worker, controller }).is_ok()
}

/// Worker 4 becomes an actor with the controller, if memory suffices.
fn enlist_both<'a, J: Naming, R: Wait>(
    rt: &R,
    alloc: Global,
    port: &'a LivePort<J>,
    passes: &mut Vec<Pass<PortStory>>,
    actors: &mut Vec<Actor<'a, J>>,
    plan: &Plan,
) -> bool
    requires port { IsTried port.now.looking }
    requires new { AreNewPasses port.now.looking 0 passes.old.items }
    ensures new { AreNewPasses port.now.looking 0 passes.new.items }
{
    let Some(controller) = leader(rt, alloc, port, passes, plan) else {
        return false;
    };
    match Worker::new(rt, alloc, port, passes, 4, plan.answers) {
        Some(worker) => push(actors, worker, Some(controller)),
        None => false,
    }
}

/// The worker of this number becomes an actor, if memory suffices.
fn enlist<'a, J: Naming, R: Wait>(
    rt: &R,
    alloc: Global,
    port: &'a LivePort<J>,
    passes: &mut Vec<Pass<PortStory>>,
    actors: &mut Vec<Actor<'a, J>>,
    number: u32,
    answers: usize,
) -> bool
    requires new { AreNewPasses port.now.looking 0 passes.old.items }
    ensures new { AreNewPasses port.now.looking 0 passes.new.items }
{
    match Worker::new(rt, alloc, port, passes, number, answers) {
        Some(worker) => push(actors, worker, None),
        None => false,
    }
}

/// Workers 3 to 0 become actors, if memory suffices.
fn enlist_others<'a, J: Naming, R: Wait>(
    rt: &R,
    alloc: Global,
    port: &'a LivePort<J>,
    passes: &mut Vec<Pass<PortStory>>,
    actors: &mut Vec<Actor<'a, J>>,
    answers: usize,
) -> bool
    requires new { AreNewPasses port.now.looking 0 passes.old.items }
{
    for number in 0..4u32 {
        if !enlist(rt, alloc, port, passes, actors, 3 - number, answers) {
            return false;
        }
    }
    true
}

/// Worker 4 with the controller, and workers 3 to 0 become actors, if memory suffices.
pub fn enlist_all<'a, J: Naming, R: Wait>(
    rt: &R,
    alloc: Global,
    port: &'a LivePort<J>,
    passes: &mut Vec<Pass<PortStory>>,
    actors: &mut Vec<Actor<'a, J>>,
    plan: &Plan,
) -> bool
    requires port { IsTried port.now.looking }
    requires new { AreNewPasses port.now.looking 0 passes.old.items }
{
    enlist_both(rt, alloc, port, passes, actors, plan)
        && enlist_others(rt, alloc, port, passes, actors, plan.answers)
}
