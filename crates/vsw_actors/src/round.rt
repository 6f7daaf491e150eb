//! A round of callers and the reconciler.

ghost use Rattle.std.specs.Prelude.{◌≡◌, ◌≤◌, ◌+◌, length};
ghost use Rattle.vsw_actors.specs.Private.Seats.{turned};
ghost use Rattle.vsw_workers.specs.Rounds.{AllFinish, Finishes};

use crate::numbering::Numbering;
use std::alloc::Global;
use std::sync::Wait;
use std::thread::Threads;
use vsw_workers::{Forwarder, Gate, run_in_turn, run_round};

/// Who acts in a round, and which round it is. The first rows are those of the workers, the last those of the controllers, and whom
/// the rows between belong to has no thread.
#[derive(Clone, Copy)]
pub struct Lineup {
    pub workers: usize,
    pub controllers: usize,
    pub round: u32,
    /// Where the workers have fewer jobs than this, or none, no thread is started.
    pub fewest: u32,
}

/// Does all jobs of all seats: callers in the order of their rows, and the reconciler behind them. In the round's slice stand the
/// workers, the controllers and the reconciler. Where the workers have too few jobs, all are done in turn by this thread; controllers
/// have no threads either where none of them has a job. The gate is told the same numbers.
pub(crate) fn run_seats<R: Threads + Wait + Sync, F: Forwarder + Send, G: Gate + Sync>(
    rt: &R,
    alloc: Global,
    seats: &mut [F],
    lineup: Lineup,
    gate: &G,
)
    ensures { AllFinish F.what F.done F.todo seats.old seats.new }
{
    let callers = seats.len().saturating_sub(1);
    let workers = lineup.workers.min(callers);
    let controllers = lineup.controllers.min(callers - workers);
    let idle = callers - workers - controllers;
    if count_jobs(seats, 0, workers) < u64::from(lineup.fewest.max(1)) {
        let shifted = Numbering::of(gate, workers + idle, workers);
        run_in_turn(rt, alloc, seats, &shifted);
    } else if count_jobs(seats, callers - controllers, callers) == 0 {
        let shifted = Numbering::of(gate, workers, workers + controllers);
        run_apart(rt, alloc, seats, workers, idle + controllers, &shifted);
    } else {
        run_apart(rt, alloc, seats, workers, idle, gate);
    }
}

/// How many jobs are left to the actors from a place on, up to another.
fn count_jobs<F: Forwarder>(actors: &[F], from: usize, to: usize) -> u64
    requires { to ≤ length actors.now }
{
    let mut count = 0u64;
    for place in from..to {
        count = count.saturating_add(u64::from(actors[place].left()));
    }
    count
}

/// Does all jobs of all actors. So many of them behind the first ones have no threads, and do theirs when the others are done.
fn run_apart<R: Threads + Wait + Sync, F: Forwarder + Send, G: Gate + Sync>(
    rt: &R,
    alloc: Global,
    actors: &mut [F],
    first: usize,
    waiting: usize,
    gate: &G,
)
    requires { first + waiting ≤ length actors.old }
    ensures { AllFinish F.what F.done F.todo actors.old actors.new }
{
    let others = actors.len() - first - waiting;
    turn(actors, first, waiting);
    run_first(rt, alloc, actors, first + others, gate);
    turn(actors, first, others);
}

/// Puts so many things that stand behind the first ones at the end.
fn turn<T>(all: &mut [T], first: usize, count: usize)
    requires { first + count ≤ length all.old }
    ensures { all.new ≡ turned first count all.old }
{
    all[first..].rotate_left(count);
}

/// Does the jobs of the first actors in threads, and then those of the others.
fn run_first<R: Threads + Wait + Sync, F: Forwarder + Send, G: Gate + Sync>(
    rt: &R,
    alloc: Global,
    actors: &mut [F],
    first: usize,
    gate: &G,
)
    requires { first ≤ length actors.old }
    ensures { AllFinish F.what F.done F.todo actors.old actors.new }
{
    let (before, behind) = actors.split_at_mut(first);
    run_round(rt, alloc, before, gate);
    finish_all(rt, alloc, behind);
}

/// Does all jobs of these actors, one actor after the other.
fn finish_all<R: Wait, F: Forwarder>(rt: &R, alloc: Global, actors: &mut [F])
    ensures { AllFinish F.what F.done F.todo actors.old actors.new }
{
    if let Some((actor, others)) = actors.split_first_mut() {
        finish(rt, alloc, actor);
        finish_all(rt, alloc, others);
    }
}

/// Does all jobs of an actor.
fn finish<R: Wait, F: Forwarder>(rt: &R, alloc: Global, actor: &mut F)
    ensures { Finishes F.what F.done F.todo actor.old actor.new }
{
    for job in 0..actor.left() {
        actor.job(rt, alloc);
    }
}
