//! Packets at a layer: dropped, let through by default, translated, tracked and re-opening.

use crate::walk::samples::{
    Has, USED, edit, fragment, inwards, layer_with, outwards, pair, pair_of_fragments, reply,
    reply_inside, request, request_outside,
};
use crate::walk::wrong::Wrong;
use std::alloc::Global;
use vsw_base::{BadShape, Control, Dir, Moment, Stack, Track, Verdict};
use vsw_policy::Layer;
use vsw_rule::{Action, act_of};
use vsw_walk::{Visit, Want, visit};

/// A quarter of the lives of a pair that is open and of one that is closed, in microseconds.
const QUARTER: u64 = 60_000_000;

const CLOSED_QUARTER: u64 = 2_500_000;

/// A packet at a layer, and what must become of it.
#[derive(Clone, Copy)]
enum Step {
    /// Rule 7 drops a SYN.
    Drops,
    /// No rule decides about a packet of this direction, which goes on as it is.
    Goes(Dir),
    /// It is dropped by default.
    Stops(Dir),
    /// A SYN is translated and wants pair 6, and this pair leaves.
    Opens(Option<u32>),
    /// A fragment is translated and wants a pair without states.
    OpensByFragment,
    /// A request or a reply goes on as it should be outside or inside.
    Translates(Dir, Control),
    /// A packet takes what pair 5 writes, so long after the last use.
    Keeps(Dir, Control, u64, Touched),
}

/// What is wanted of a pair: another state, or the moment as its last use.
type Touched = Option<(Track, u64)>;

/// Whether the layer makes this of a request, or of a reply.
fn makes(layer: &Layer, dir: Dir, control: Control, micros: u64, wanted: &Visit) -> bool {
    let stack = match dir {
        Dir::Out => request(),
        Dir::In => reply(),
    };
    match stack {
        Ok(stack) => visit(layer, dir, control, Moment::of(micros), &stack) == *wanted,
        Err(_) => false,
    }
}

fn drops(layer: &Layer) -> bool {
    let wanted = Visit::Stops(Verdict::Rule {
        controller: 3,
        layer: 10,
        group: 2,
        rule: 7,
    });
    makes(layer, Dir::Out, Control::Syn, USED, &wanted)
}

fn goes(layer: &Layer, dir: Dir) -> bool {
    let wanted = Visit::Goes {
        action: Action::Allow,
        leaves: None,
        wants: None,
    };
    makes(layer, dir, Control::None, USED, &wanted)
}

fn stops(layer: &Layer, dir: Dir) -> bool {
    let wanted = Visit::Stops(Verdict::Default {
        controller: 3,
        layer: 10,
        dir,
    });
    makes(layer, dir, Control::None, USED, &wanted)
}

fn opens(layer: &Layer, leaves: Option<u32>) -> bool {
    let wanted = Visit::Goes {
        action: edit(outwards()),
        leaves,
        wants: Some(Want::Make(pair(6, Track::Opening, 77))),
    };
    makes(layer, Dir::Out, Control::Syn, 77, &wanted)
}

fn opens_by_fragment(layer: &Layer) -> bool {
    let wanted = Visit::Goes {
        action: edit(outwards()),
        leaves: None,
        wants: Some(Want::Make(pair_of_fragments(6, 77))),
    };
    match fragment() {
        Ok(stack) => visit(layer, Dir::Out, Control::None, Moment::of(77), &stack) == wanted,
        Err(_) => false,
    }
}

/// The stack with which a packet goes on.
fn after(layer: &Layer, dir: Dir, control: Control, stack: &Stack) -> Option<Stack> {
    match visit(layer, dir, control, Moment::of(USED), stack) {
        Visit::Stops(_) => None,
        Visit::Goes { action, .. } => Some(act_of(&action, stack).apply(stack)),
    }
}

/// Whether the first stack goes on as the second.
fn becomes(
    layer: &Layer,
    dir: Dir,
    control: Control,
    stack: Result<Stack, BadShape>,
    wanted: Result<Stack, BadShape>,
) -> bool {
    match (stack, wanted) {
        (Ok(stack), Ok(wanted)) => match after(layer, dir, control, &stack) {
            Some(made) => made.is_same(&wanted),
            None => false,
        },
        _ => false,
    }
}

fn translates(layer: &Layer, dir: Dir, control: Control) -> bool {
    match dir {
        Dir::Out => becomes(layer, dir, control, request(), request_outside()),
        Dir::In => becomes(layer, dir, control, reply(), reply_inside()),
    }
}

/// What touches pair 5.
fn touch(touched: Touched) -> Option<Want> {
    match touched {
        Some((state, last)) => Some(Want::Touch {
            number: 5,
            state,
            last: Moment::of(last),
        }),
        None => None,
    }
}

fn keeps(layer: &Layer, dir: Dir, control: Control, micros: u64, touched: Touched) -> bool {
    let set = match dir {
        Dir::Out => outwards(),
        Dir::In => inwards(),
    };
    let wanted = Visit::Goes {
        action: edit(set),
        leaves: None,
        wants: touch(touched),
    };
    makes(layer, dir, control, USED.saturating_add(micros), &wanted)
}

fn comes_out(layer: &Layer, step: &Step) -> bool {
    match *step {
        Step::Drops => drops(layer),
        Step::Goes(dir) => goes(layer, dir),
        Step::Stops(dir) => stops(layer, dir),
        Step::Opens(leaves) => opens(layer, leaves),
        Step::OpensByFragment => opens_by_fragment(layer),
        Step::Translates(dir, control) => translates(layer, dir, control),
        Step::Keeps(dir, control, micros, touched) => keeps(layer, dir, control, micros, touched),
    }
}

/// Tries one step after the other.
fn try_steps(layer: &Layer, steps: &[Step]) -> Result<(), Wrong> {
    for place in 0..steps.len() {
        if !comes_out(layer, &steps[place]) {
            return Err(Wrong::Step(place));
        }
    }
    Ok(())
}

/// Tries them at the layer that has this.
fn tried(alloc: Global, has: &Has, steps: &[Step]) -> Result<(), Wrong> {
    try_steps(&layer_with(alloc, has), steps)
}

#[test]
fn a_rule_drops_and_wants_nothing(rt: HostRuntime) -> Result<(), Wrong> {
    tried(rt.alloc(), &Has::Rule(Action::Drop), &[Step::Drops])
}

#[test]
fn a_closed_pair_stays_where_the_syn_is_dropped(rt: HostRuntime) -> Result<(), Wrong> {
    let has = Has::Pair(Action::Drop, Track::Closed);
    tried(rt.alloc(), &has, &[Step::Drops])
}

const OUT_ALONE: [Step; 2] = [Step::Goes(Dir::Out), Step::Stops(Dir::In)];

const IN_ALONE: [Step; 2] = [Step::Stops(Dir::Out), Step::Goes(Dir::In)];

#[test]
fn the_default_of_the_direction_decides_where_no_rule_does(rt: HostRuntime) -> Result<(), Wrong> {
    tried(rt.alloc(), &Has::Defaults(true, false), &OUT_ALONE)?;
    tried(rt.alloc(), &Has::Defaults(false, true), &IN_ALONE)
}

#[test]
fn a_translated_request_wants_a_pair(rt: HostRuntime) -> Result<(), Wrong> {
    tried(
        rt.alloc(),
        &Has::Rule(edit(outwards())),
        &[Step::Opens(None)],
    )
}

#[test]
fn a_syn_opens_a_closed_pair_again(rt: HostRuntime) -> Result<(), Wrong> {
    let has = Has::Pair(edit(outwards()), Track::Closed);
    tried(rt.alloc(), &has, &[Step::Opens(Some(5))])
}

const BOTH_WAYS: [Step; 2] = [
    Step::Translates(Dir::Out, Control::Syn),
    Step::Translates(Dir::In, Control::SynAck),
];

#[test]
fn a_request_and_its_reply_are_translated(rt: HostRuntime) -> Result<(), Wrong> {
    let has = Has::Pair(Action::Drop, Track::Opening);
    tried(rt.alloc(), &has, &BOTH_WAYS)
}

#[test]
fn a_translated_fragment_wants_a_pair_without_states(rt: HostRuntime) -> Result<(), Wrong> {
    let has = Has::Rule(edit(outwards()));
    tried(rt.alloc(), &has, &[Step::OpensByFragment])
}

/// A pair in this state, the direction and the control of a packet, and the state to which it moves
/// the pair, if to any.
type Move = (Track, Dir, Control, Option<Track>);

/// Tries whether a packet takes what the pair writes, though the rule drops, and moves it so.
fn moved(alloc: Global, way: &Move) -> Result<(), Wrong> {
    let (state, dir, control, to) = *way;
    let touched = match to {
        Some(next) => Some((next, USED)),
        None => None,
    };
    tried(
        alloc,
        &Has::Pair(Action::Drop, state),
        &[Step::Keeps(dir, control, 1, touched)],
    )
}

fn all_moved(alloc: Global, ways: &[Move]) -> Result<(), Wrong> {
    for place in 0..ways.len() {
        if moved(alloc, &ways[place]).is_err() {
            return Err(Wrong::Step(place));
        }
    }
    Ok(())
}

const HANDSHAKE: [Move; 2] = [
    (Track::Opening, Dir::In, Control::SynAck, Some(Track::Open)),
    (Track::Open, Dir::Out, Control::None, None),
];

#[test]
fn a_handshake_opens_a_pair(rt: HostRuntime) -> Result<(), Wrong> {
    all_moved(rt.alloc(), &HANDSHAKE)
}

const HALF: Track = Track::Half(Dir::Out);

const ENDS: [Move; 3] = [
    (Track::Open, Dir::Out, Control::Fin, Some(HALF)),
    (HALF, Dir::In, Control::Fin, Some(Track::Closed)),
    (Track::Closed, Dir::Out, Control::None, None),
];

#[test]
fn two_ends_close_a_pair(rt: HostRuntime) -> Result<(), Wrong> {
    all_moved(rt.alloc(), &ENDS)
}

const RENEWED: Touched = Some((Track::Open, USED + QUARTER + 1));

const QUARTERS: [Step; 3] = [
    Step::Keeps(Dir::In, Control::None, QUARTER - 1, None),
    Step::Keeps(Dir::In, Control::None, QUARTER, None),
    Step::Keeps(Dir::In, Control::None, QUARTER + 1, RENEWED),
];

#[test]
fn a_packet_renews_the_last_use_after_a_quarter_of_the_life(rt: HostRuntime) -> Result<(), Wrong> {
    let has = Has::Pair(Action::Drop, Track::Open);
    tried(rt.alloc(), &has, &QUARTERS)
}

const CLOSED: Touched = Some((Track::Closed, USED));

const CLOSED_LATER: Touched = Some((Track::Closed, USED + CLOSED_QUARTER + 1));

const CLOSED_QUARTERS: [Step; 2] = [
    Step::Keeps(Dir::In, Control::Rst, CLOSED_QUARTER, CLOSED),
    Step::Keeps(Dir::In, Control::Rst, CLOSED_QUARTER + 1, CLOSED_LATER),
];

#[test]
fn the_life_is_that_of_the_new_state(rt: HostRuntime) -> Result<(), Wrong> {
    let has = Has::Pair(Action::Drop, Track::Open);
    tried(rt.alloc(), &has, &CLOSED_QUARTERS)
}
