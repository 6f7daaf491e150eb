//! Threads act on a new port, and what they were told is judged.

ghost use Rattle.vsw_live.specs.Ports.{AreNewPasses, StandsAt};
ghost use Rattle.vsw_live_tests.specs.Trials.{IsOpened, IsTried};

use crate::live::commands::Orders;
use crate::live::counting::{is_counted, is_held};
use crate::live::crew::{Actor, Plan, enlist_all, run};
use crate::live::judging::is_judged;
use crate::live::opening::open;
use std::alloc::Global;
use std::marker::Brand;
use std::sync::Wait;
use std::thread::Threads;
use vsw_flows::PortStory;
use vsw_live::{LivePort, Naming, OpenPort};
use vsw_port::Event;
use vsw_table::Pass;

/// The first worker that was told something wrong, or whose controller was.
fn first_wrong<J: Naming>(
    alloc: Global,
    journal: &[Event],
    actors: &[Actor<'_, J>],
    plan: &Plan,
) -> Option<u32> {
    for actor in actors {
        let is_right = if plan.holds {
            is_held(actor)
        } else if plan.flows {
            is_judged(alloc, journal, actor, plan.answers)
        } else {
            is_counted(actor)
        };
        if !is_right {
            return Some(actor.worker.number());
        }
    }
    None
}

fn judged<J: Naming, R: Wait>(
    rt: &R,
    alloc: Global,
    port: &LivePort<J>,
    actors: &[Actor<'_, J>],
    plan: &Plan,
) -> Option<u32> {
    let held = port.hold(rt);
    first_wrong(alloc, held.journal(), actors, plan)
}

fn try_port<J: Naming + Send + Sync, R: Threads + Wait + Sync>(
    rt: &R,
    alloc: Global,
    port: &LivePort<J>,
    passes: &mut Vec<Pass<PortStory>>,
    plan: &Plan,
    orders: &Orders,
) -> Option<Option<u32>>
    requires port { IsTried port.now.looking }
    requires new { AreNewPasses port.now.looking 0 passes.old.items }
{
    let mut actors = Vec::new(alloc);
    if enlist_all(rt, alloc, port, passes, &mut actors, plan) {
        run(rt, &mut actors, plan, orders);
        Some(judged(rt, alloc, port, &actors, plan))
    } else {
        None
    }
}

fn try_opened<J: Naming + Send + Sync, R: Threads + Wait + Sync>(
    rt: &R,
    alloc: Global,
    opened: OpenPort,
    plan: &Plan,
    orders: &Orders,
) -> Option<Option<u32>>
    requires opened { IsOpened opened }
    requires named { StandsAt J.ports 0 opened.port }
{
    let (port, mut passes) = opened.named::<J>(0);
    try_port(rt, alloc, &port, &mut passes, plan, orders)
}

fn try_orders<R: Threads + Wait + Sync>(
    rt: &R,
    alloc: Global,
    plan: &Plan,
    orders: &Orders,
) -> Option<Option<u32>> {
    let opened = open(alloc)?;
    try_opened::<Brand, _>(rt, alloc, opened, plan, orders)
}

/// The first worker of a new port that was told something wrong, or whose controller was.
pub fn tried<R: Threads + Wait + Sync>(rt: &R, alloc: Global, plan: &Plan) -> Option<Option<u32>> {
    match Orders::new(alloc, plan.flows) {
        Some(orders) => try_orders(rt, alloc, plan, &orders),
        None => None,
    }
}
