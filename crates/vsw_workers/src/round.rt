//! One round: all jobs of all actors, each actor in a thread of its own or one after the other.

ghost use Rattle.std.specs.Prelude.{◌≡◌, ℕ, List, ◌<◌, length, slice_index_or};
ghost use Rattle.vsw_workers.specs.Rounds.{AllFinish, DoesSome, Finishes};

use crate::{Forwarder, Gate};
use std::alloc::Global;
use std::sync::Wait;
use std::thread;
use std::thread::Threads;

/// Does every job of every actor, each actor in a thread of its own. Where the system refuses a thread,
/// its actors are run by another, one after the other: so a gate that waits for another actor gives up.
pub fn run_round<R: Threads + Wait + Sync, F: Forwarder + Send, G: Gate + Sync>(
    rt: &R,
    alloc: Global,
    actors: &mut [F],
    gate: &G,
)
    ensures { AllFinish F.what F.done F.todo actors.old actors.new }
{
    run_each(rt, alloc, actors, gate);
}

/// The same, told by places.
fn run_each<R: Threads + Wait + Sync, F: Forwarder + Send, G: Gate + Sync>(
    rt: &R,
    alloc: Global,
    actors: &mut [F],
    gate: &G,
)
    ensures { (i : ℕ) (d : F) → i < length actors.old → Finishes F.what F.done F.todo (slice_index_or actors.old i d) (slice_index_or actors.new i d) }
{
    let threads = actors.len();
    if threads == 0 {
        return;
    }
    thread::for_each_mut(
        rt,
        actors,
        threads,
        &|place, actor| run_actor(rt, alloc, place, actor, gate),
    );
}

/// Does every job of every actor, one actor after the other. No thread is started, so a gate that waits for another actor gives up.
pub fn run_in_turn<R: Wait, F: Forwarder, G: Gate>(
    rt: &R,
    alloc: Global,
    actors: &mut [F],
    gate: &G,
)
    ensures { AllFinish F.what F.done F.todo actors.old actors.new }
{
    run_from(rt, alloc, 0, actors, gate);
}

/// The same of actors of which the first has this place.
fn run_from<R: Wait, F: Forwarder, G: Gate>(
    rt: &R,
    alloc: Global,
    place: usize,
    actors: &mut [F],
    gate: &G,
)
    ensures { AllFinish F.what F.done F.todo actors.old actors.new }
{
    if let Some((actor, others)) = actors.split_first_mut() {
        run_actor(rt, alloc, place, actor, gate);
        run_from(rt, alloc, place.wrapping_add(1), others, gate);
    }
}

/// Does all jobs of the actor at `place`. A place of 2^32 or more, which no memory has room for, would be
/// told modulo 2^32.
fn run_actor<R: Wait, F: Forwarder, G: Gate>(
    rt: &R,
    alloc: Global,
    place: usize,
    actor: &mut F,
    gate: &G,
)
    ensures { Finishes F.what F.done F.todo actor.old actor.new }
{
    let number = (place % 0x1_0000_0000) as u32;
    for job in 0..actor.left() {
        gate.enter(number, job);
        actor.job(rt, alloc);
        gate.leave(number, job);
    }
}

/// Does the next jobs of an actor: `most` of them, or all that are left. The gate is told `number` for the actor, and for the jobs
/// the numbers from `from` on, modulo 2^32.
pub fn do_some<R: Wait, F: Forwarder, G: Gate>(
    rt: &R,
    alloc: Global,
    number: u32,
    from: u32,
    most: u32,
    actor: &mut F,
    gate: &G,
)
    ensures { DoesSome F.what F.done F.todo most actor.old actor.new }
{
    let left = actor.left();
    let count = if left < most { left } else { most };
    for place in 0..count {
        let job = from.wrapping_add(place);
        gate.enter(number, job);
        actor.job(rt, alloc);
        gate.leave(number, job);
    }
}
