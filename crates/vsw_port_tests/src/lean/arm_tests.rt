//! Each kind of shaking is needed: a row that a change makes wrong, and no other kind of shaking tells it. All
//! moments but those of renewed last uses are below 1,000.

ghost use Rattle.std.specs.Prelude.{◌<◌, ◌^◌};

use crate::lean::layers::add_hiding;
use crate::lean::packets::{FAR, FIRST, OWN, PUBLIC, SECOND, id, packet};
use crate::lean::trial::{Change, Trial};
use std::alloc::Global;
use vsw_base::{Addr, Control, Crossing, Dir, Ufid};

/// One layer, whose pairs live for 240 seconds, and for 10 once they are closed.
fn hiding(alloc: Global) -> Option<Trial> {
    let mut trial = Trial::new(alloc)?;
    if add_hiding(alloc, &mut trial.policy, 10, (240, 10)) {
        Some(trial)
    } else {
        None
    }
}

/// What the first or the second host sends.
fn sent(host: u64) -> Option<Ufid>
    requires host { host < 2 ^ 48 }
{
    id(Dir::Out, host, (OWN, 1234), (FAR, 80)).ok()
}

/// Which packet crosses the layer.
#[derive(Clone, Copy)]
enum Met {
    /// One that the first host sends.
    First,
    /// One that the second host sends, whose row is looked at.
    Itself,
    /// One that comes in to the public address.
    Received,
}

fn identity(met: Met) -> Option<Ufid> {
    match met {
        Met::First => sent(FIRST),
        Met::Itself => sent(SECOND),
        Met::Received => id(Dir::In, FIRST, (FAR, 80), (PUBLIC, 1234)).ok(),
    }
}

/// A packet, its control and its moment.
type Step = (Met, Control, u64);

/// Whether a packet shakes the row of this identity, the kind of its change, and whether the row is another
/// one after it.
type Shaken = (bool, Change, bool);

fn shakes(trial: &mut Trial, row: &Ufid, met: &Crossing) -> Option<Shaken> {
    let before = trial.row(row);
    let look = trial.first_look()?;
    // The check finds the types within a look only where one of them is named beside the call.
    let _address: &Addr = &look.key.src;
    let (shaken, change) = trial.meet(met, &look)?;
    let after = trial.row(row);
    Some((shaken, change, !before.is_same(&after)))
}

/// What a step does to the row of what the second host sends.
fn step(trial: &mut Trial, step: &Step) -> Option<Shaken> {
    match (sent(SECOND), identity(step.0)) {
        (Some(row), Some(met)) => shakes(trial, &row, &packet(&met, step.1, step.2)),
        _ => None,
    }
}

/// What the last of these steps does.
fn last_of(trial: &mut Trial, steps: &[Step]) -> Option<Shaken> {
    let mut shaken = None;
    for place in 0..steps.len() {
        shaken = step(trial, &steps[place]);
    }
    shaken
}

/// What the last of these steps does at a new layer.
fn last(alloc: Global, steps: &[Step]) -> Option<Shaken> {
    match hiding(alloc) {
        Some(mut trial) => last_of(&mut trial, steps),
        None => None,
    }
}

const MISSED: [Step; 1] = [(Met::First, Control::Syn, 1)];

#[test]
fn a_new_pair_holds_the_key_that_was_missed(rt: HostRuntime) {
    assert!(&rt; last(rt.alloc(), &MISSED) == Some((true, Change::Front, true)));
}

const REPLIES: [Step; 1] = [(Met::Received, Control::Syn, 1)];

#[test]
fn replies_of_a_new_pair_hold_the_key_that_was_missed(rt: HostRuntime) {
    assert!(&rt; last(rt.alloc(), &REPLIES) == Some((true, Change::Back, true)));
}

const USED: [Step; 2] = [
    (Met::Received, Control::Syn, 1),
    (Met::Received, Control::None, 60_000_002),
];

#[test]
fn a_pair_is_used_later(rt: HostRuntime) {
    assert!(&rt; last(rt.alloc(), &USED) == Some((true, Change::Used, true)));
}

const CLOSED: [Step; 2] = [
    (Met::Received, Control::Syn, 1),
    (Met::Received, Control::Rst, 2),
];

#[test]
fn a_pair_gets_another_life(rt: HostRuntime) {
    assert!(&rt; last(rt.alloc(), &CLOSED) == Some((true, Change::Moved, true)));
}

const LEFT: [Step; 3] = [
    (Met::Received, Control::Syn, 1),
    (Met::Received, Control::Rst, 2),
    (Met::Itself, Control::Syn, 3),
];

#[test]
fn a_pair_leaves(rt: HostRuntime) {
    assert!(&rt; last(rt.alloc(), &LEFT) == Some((true, Change::Left, true)));
}

const OPENED: [Step; 2] = [
    (Met::Received, Control::Syn, 1),
    (Met::Itself, Control::SynAck, 2),
];

#[test]
fn another_state_of_one_life_shakes_no_row(rt: HostRuntime) {
    assert!(&rt; last(rt.alloc(), &OPENED) == Some((false, Change::Moved, false)));
}
