//! Packets that cross layers without pairs one after the other, by a table.

use crate::walk::packets::{
    Back, Keyed, Look, Packet, cross, looked, passes_as, places, stack_of, wanted, wanted_back,
};
use crate::walk::wrong::Wrong;
use std::alloc::Global;
use vsw_base::{Dir, Moment, Stack, Verdict};
use vsw_policy::Policy;
use vsw_walk::Scratch;

/// A packet and what must become of it, or what must be left in the scratch.
#[derive(Clone, Copy)]
pub enum Step {
    /// A packet passes as another, and so many of its encapsulations are kept.
    Passes(Dir, Packet, Packet, u8),
    /// A packet meets this verdict. It found no pair, so no moment is too late.
    Meets(Dir, Packet, Verdict),
    WantsNothing,
    /// One pair of this number and rule, in the layer at a place.
    WantsOne(u32, u32, u16),
    /// Two pairs, in the layers at these places.
    WantsTwo(u32, u32),
    /// One pair, whose replies have this key and get this.
    WantsBack(Keyed, Back),
    /// What the packet looked for in the layer that it met after so many others.
    Looks(usize, Option<Look>),
}

fn passes(
    policy: &Policy,
    scratch: &mut Scratch,
    dir: Dir,
    stack: &Stack,
    made: &Stack,
    kept: u8,
) -> bool {
    let walked = cross(policy, dir, stack, scratch);
    passes_as(&walked, scratch, stack, made) && walked.kept == kept
}

fn meets(policy: &Policy, scratch: &mut Scratch, dir: Dir, stack: &Stack, wanted: Verdict) -> bool {
    let walked = cross(policy, dir, stack, scratch);
    walked.verdict == wanted && walked.until == Moment::of(u64::MAX)
}

fn comes_out(policy: &Policy, scratch: &mut Scratch, step: &Step) -> bool {
    match step {
        Step::Passes(dir, came, made, kept) => match (stack_of(came), stack_of(made)) {
            (Ok(stack), Ok(made)) => passes(policy, scratch, *dir, &stack, &made, *kept),
            _ => false,
        },
        Step::Meets(dir, came, verdict) => match stack_of(came) {
            Ok(stack) => meets(policy, scratch, *dir, &stack, *verdict),
            Err(_) => false,
        },
        _ => is_left(scratch, step),
    }
}

/// Whether a step's changes or look are in the scratch.
fn is_left(scratch: &Scratch, step: &Step) -> bool {
    match *step {
        Step::WantsNothing => scratch.changes().is_empty(),
        Step::WantsOne(layer, number, rule) => wanted(scratch) == Some((layer, number, rule)),
        Step::WantsTwo(first, second) => places(scratch) == Some((first, second)),
        Step::WantsBack(key, back) => wanted_back(scratch) == Some((key, back)),
        Step::Looks(met, look) => looked(scratch, met) == look,
        _ => false,
    }
}

/// Tries one step after the other.
fn try_steps(policy: &Policy, scratch: &mut Scratch, steps: &[Step]) -> Result<(), Wrong> {
    for place in 0..steps.len() {
        if !comes_out(policy, scratch, &steps[place]) {
            return Err(Wrong::Step(place));
        }
    }
    Ok(())
}

/// Tries them with a scratch that no packet has used yet.
fn try_anew(alloc: Global, policy: &Policy, steps: &[Step]) -> Result<(), Wrong> {
    match Scratch::new(alloc) {
        Ok(mut scratch) => try_steps(policy, &mut scratch, steps),
        Err(_) => Err(Wrong::Start),
    }
}

/// Tries them with this policy, if it could be made.
pub fn tried(alloc: Global, policy: Option<Policy>, steps: &[Step]) -> Result<(), Wrong> {
    match policy {
        Some(policy) => try_anew(alloc, &policy, steps),
        None => Err(Wrong::Start),
    }
}
