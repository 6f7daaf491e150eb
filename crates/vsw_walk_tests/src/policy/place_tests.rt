//! Pairs of the layers of a policy, by the places of these.

ghost use Rattle.std.specs.Prelude.{◌<◌, IsTrue, length};
ghost use Rattle.vsw_layerflow.specs.Pairs.{AllBelow};
ghost use Rattle.vsw_policy.specs.Layer.{seen, CanTake};
ghost use Rattle.vsw_policy.specs.Layers.{At};

use crate::policy::commands::Ask;
use crate::policy::pair_tests::{left, pair, there};
use crate::policy::trial;
use crate::policy::wrong::Wrong;
use std::alloc::Global;
use vsw_base::{Dir, Moment, Track};
use vsw_layerflow::Pair;
use vsw_policy::{Layer, Policy};

/// Whether a layer can take up a pair.
fn can_take(layer: &Layer, pair: &Pair) -> bool
    requires below { AllBelow layer.now.next_pair layer.now.flows.pairs }
    ensures { IsTrue result → CanTake pair.now (seen layer.now) }
{
    if layer.flows.find(pair.dir, &pair.forward).is_some() {
        return false;
    }
    if layer.flows.find(pair.back().dir, &pair.reverse).is_some() {
        return false;
    }
    if layer.flows.len() == u32::MAX || layer.next_pair == u32::MAX {
        return false;
    }
    pair.number == layer.next_pair
}

/// Whether the layer at a place is there and can take up a pair.
fn fits(policy: &Policy, place: usize, pair: &Pair) -> bool
    ensures within { IsTrue result → place < length policy.now.layers }
    ensures suits { IsTrue result → At place (CanTake pair.now) policy.now.layers }
{
    let layers = policy.layers();
    if place >= layers.len() {
        return false;
    }
    can_take(&layers[place], pair)
}

/// A pair of the flow from this port, with the next number of the layer at a place.
fn next_at(policy: &Policy, place: usize, port: u16) -> Pair {
    match policy.layers().get(place) {
        Some(layer) => pair(layer.next_pair, 1, 5, port),
        None => pair(0, 1, 5, port),
    }
}

/// Opens such a pair, and tells whether it did.
fn open(policy: &mut Policy, place: usize, port: u16) -> bool {
    let pair = next_at(policy, place, port);
    if !fits(policy, place, &pair) {
        return false;
    }
    if policy.reserve_pair(place).is_err() {
        return false;
    }
    policy.add_pair(place, pair);
    true
}

/// Opens a pair in both of two layers: once both have room, nothing can fail.
fn open_both(policy: &mut Policy, first: u16, second: u16) -> bool {
    let first = next_at(policy, 0, first);
    let second = next_at(policy, 1, second);
    if !fits(policy, 0, &first) {
        return false;
    }
    if !fits(policy, 1, &second) {
        return false;
    }
    if policy.reserve_pair(0).is_err() {
        return false;
    }
    if policy.reserve_pair(1).is_err() {
        return false;
    }
    policy.add_pair(0, first);
    policy.add_pair(1, second);
    true
}

/// Closes the pair of a number in the layer at a place.
fn close(policy: &mut Policy, place: usize, number: u32) {
    if place < policy.layers().len() {
        policy.touch_pair(place, number, Track::Closed, Moment::of(7));
    }
}

fn remove(policy: &mut Policy, place: usize, number: u32) {
    if place < policy.layers().len() {
        policy.remove_pair(place, number);
    }
}

/// Which of the ports 1 to 5 have a pair in the layer at a place, as digits, and the number of its next pair.
fn told(policy: &Policy, place: usize) -> Option<(u32, u32)> {
    let layer = policy.layers().get(place)?;
    Some((left(&layer.flows), layer.next_pair))
}

/// The state of the pair from a port, and when it was last used.
fn state(policy: &Policy, place: usize, port: u16) -> Option<(Track, u64)> {
    let pair = policy
        .layers()
        .get(place)?
        .flows
        .find(Dir::Out, &there(port))?;
    Some((pair.state, pair.last_use.micros()))
}

/// Opens pairs from port 3 in the first layer, and from ports 1 and 2 in the second.
fn open_three(policy: &mut Policy) -> bool {
    open_both(policy, 3, 1) && open(policy, 1, 2)
}

const LAYERS: [trial::Step; 2] = [
    trial::Step::Done(1, Ask::AddLayer(10, 10)),
    trial::Step::Done(1, Ask::AddLayer(11, 20)),
];

/// What is done to the pairs of the layer at a place, or told of them.
#[derive(Clone, Copy)]
enum Step {
    /// The pair of a number is closed, or goes.
    Close(usize, u32),
    Remove(usize, u32),
    /// No pair opens from this port.
    Refused(usize, u16),
    /// The ports that have a pair, and the next number.
    Told(usize, (u32, u32)),
    /// The state of the pair from a port, and when it was last used.
    State(usize, u16, (Track, u64)),
}

fn comes_out(policy: &mut Policy, step: &Step) -> bool {
    match *step {
        Step::Close(place, number) => {
            close(policy, place, number);
            true
        }
        Step::Remove(place, number) => {
            remove(policy, place, number);
            true
        }
        Step::Refused(place, port) => !open(policy, place, port),
        Step::Told(place, pairs) => told(policy, place) == Some(pairs),
        Step::State(place, port, seen) => state(policy, place, port) == Some(seen),
    }
}

/// Tries one step after the other.
fn try_steps(policy: &mut Policy, steps: &[Step]) -> Result<(), Wrong> {
    for place in 0..steps.len() {
        if !comes_out(policy, &steps[place]) {
            return Err(Wrong::Step(place));
        }
    }
    Ok(())
}

/// Tries them behind those two layers and three pairs.
fn try_behind(alloc: Global, policy: &mut Policy, steps: &[Step]) -> Result<(), Wrong> {
    if trial::try_steps(alloc, policy, &LAYERS).is_err() || !open_three(policy) {
        return Err(Wrong::Start);
    }
    try_steps(policy, steps)
}

fn tried(alloc: Global, steps: &[Step]) -> Result<(), Wrong> {
    match Policy::new(alloc, &[1]) {
        Ok(mut policy) => try_behind(alloc, &mut policy, steps),
        Err(_) => Err(Wrong::Start),
    }
}

const OPENED: [Step; 4] = [
    Step::Told(0, (3, 1)),
    Step::Told(1, (12, 2)),
    // Its keys are held there, and there is no third layer.
    Step::Refused(1, 2),
    Step::Refused(2, 4),
];

#[test]
fn a_pair_opens_under_the_next_number_in_one_layer(rt: HostRuntime) -> Result<(), Wrong> {
    tried(rt.alloc(), &OPENED)
}

const CHANGED: [Step; 7] = [
    Step::Close(1, 0),
    Step::State(1, 1, (Track::Closed, 7)),
    Step::State(1, 2, (Track::Open, 2_000_000)),
    Step::State(0, 3, (Track::Open, 3_000_000)),
    Step::Remove(1, 0),
    Step::Told(0, (3, 1)),
    Step::Told(1, (2, 2)),
];

#[test]
fn a_pair_changes_and_goes_in_one_layer(rt: HostRuntime) -> Result<(), Wrong> {
    tried(rt.alloc(), &CHANGED)
}
