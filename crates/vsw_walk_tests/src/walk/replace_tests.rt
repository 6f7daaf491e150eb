//! A pair that goes as another comes.

ghost use Rattle.std.specs.Prelude.{◌≡◌, [], None, IsTrue};
ghost use Rattle.vsw_layerflow.specs.Pairs.{AllBelow, pair_of, without};

use crate::walk::flow_tests::{
    Both, First, NOTHING, OPENING, Step, back, pair, put, there, there_from_next, tried,
};
use crate::walk::wrong::Wrong;
use vsw_base::{Dir, LayerKey, Track};
use vsw_layerflow::{Flows, Pair};

/// By what pair 1 is found.
#[derive(Clone, Copy)]
pub enum Keys {
    /// By the keys of `there` and `back`.
    Same,
    /// By the same, but that a reply made it.
    Turned,
    /// By the key of `there`, and its replies by another.
    Other,
    /// By others.
    Apart,
}

fn second(keys: Keys) -> Pair
    ensures { result.number ≡ 1 }
{
    match keys {
        Keys::Same => pair(1, Dir::Out, there(), back()),
        Keys::Turned => pair(1, Dir::In, back(), there()),
        Keys::Other => pair(1, Dir::Out, there(), there_from_next()),
        Keys::Apart => pair(1, Dir::Out, there_from_next(), there_from_next()),
    }
}

/// Whether nobody holds this but the pair of the number.
fn is_free_but(flows: &Flows, number: u32, dir: Dir, key: &LayerKey) -> bool
    ensures { IsTrue result → pair_of dir key.now (without number flows.now.pairs) ≡ None }
{
    // A call that tells that nothing is held twice.
    let _ = flows.len();
    match flows.find(dir, key) {
        None => true,
        Some(pair) => pair.number == number,
    }
}

/// The pair of a number goes as one comes whose number is the greatest. Whether its keys were free.
fn replace(flows: &mut Flows, number: u32, pair: Pair) -> bool
    requires number_last { AllBelow pair.number flows.old.pairs }
{
    if !is_free_but(flows, number, pair.dir, &pair.forward) {
        return false;
    }
    if !is_free_but(flows, number, pair.back().dir, &pair.reverse) {
        return false;
    }
    if flows.len() == u32::MAX || flows.reserve_one().is_err() {
        return false;
    }
    flows.replace(number, &pair);
    true
}

/// Adds pair 0, of `there` and `back`, and then pair 1 for the one of this number.
pub fn replace_first(flows: &mut Flows, number: u32, keys: Keys) -> bool
    requires none { flows.old.pairs ≡ [] }
{
    if !put(flows, pair(0, Dir::Out, there(), back())) {
        return false;
    }
    replace(flows, number, second(keys))
}

// What `there` and `back` lead to once pair 1 has come.
const SECOND: Both = (
    Some((1, Track::Opening)),
    None,
    None,
    Some((1, Track::Opening)),
);

const SAME: [Step; 7] = [
    Step::Counts(1),
    Step::Both(SECOND),
    // Nobody has this number any more.
    Step::Touch(0, Track::Closed, 2_000_000),
    Step::Both(SECOND),
    Step::Remove(1),
    Step::Counts(0),
    Step::Both(NOTHING),
];

#[test]
fn a_pair_of_the_same_keys_comes_for_another(rt: HostRuntime) -> Result<(), Wrong> {
    tried(rt.alloc(), First::Replaced(0, Keys::Same), &SAME)
}

#[test]
fn a_pair_that_a_reply_made_comes_for_another(rt: HostRuntime) -> Result<(), Wrong> {
    tried(rt.alloc(), First::Replaced(0, Keys::Turned), &SAME)
}

// The reply of pair 0 finds nobody.
const OTHER: [Step; 4] = [
    Step::Counts(1),
    Step::Both((Some((1, Track::Opening)), None, None, None)),
    Step::Remove(1),
    Step::Both(NOTHING),
];

#[test]
fn a_pair_of_another_reply_comes_for_another(rt: HostRuntime) -> Result<(), Wrong> {
    tried(rt.alloc(), First::Replaced(0, Keys::Other), &OTHER)
}

const APART: [Step; 4] = [
    Step::Counts(1),
    Step::Both(NOTHING),
    Step::Next(Some((1, Track::Opening))),
    Step::Remove(0),
];

#[test]
fn a_pair_of_other_keys_comes_for_another(rt: HostRuntime) -> Result<(), Wrong> {
    tried(rt.alloc(), First::Replaced(0, Keys::Apart), &APART)
}

const NOBODY_WENT: [Step; 3] = [
    Step::Counts(2),
    Step::Both(OPENING),
    Step::Next(Some((1, Track::Opening))),
];

#[test]
fn a_pair_comes_where_nobody_goes(rt: HostRuntime) -> Result<(), Wrong> {
    tried(rt.alloc(), First::Replaced(7, Keys::Apart), &NOBODY_WENT)
}
