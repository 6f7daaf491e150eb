//! What becomes of a layer's pairs.

ghost use Rattle.std.specs.Prelude.{◌≡◌, ◌+◌};
ghost use Rattle.vsw_layerflow.specs.Pairs.{AllBelow};

use crate::policy::commands::{Ask, Rules, command, rule, spec};
use crate::policy::told::{Rules as ToldRules, told_rules};
use crate::policy::wrong::Wrong;
use std::alloc::Global;
use vsw_base::{Addr, Dir, Ip4, Items, LayerKey, Moment, Set, Track};
use vsw_layerflow::{Flows, Pair};
use vsw_policy::{Groups, HashSeed, Layer, change};
use vsw_rule::Group;

const UNSET: Set = Set {
    dst_mac: None,
    src_mac: None,
    src_ip: None,
    dst_ip: None,
    src_port: None,
    dst_port: None,
    src_ip6: None,
    dst_ip6: None,
};

/// TCP from 10.0.0.5 to port 80 of 10.0.0.9, and back.
pub fn there(port: u16) -> LayerKey {
    LayerKey {
        encaps: 0,
        vni_outer: 0,
        vni_second: 0,
        src: Addr::Four(Ip4::of(0x0a00_0005)),
        dst: Addr::Four(Ip4::of(0x0a00_0009)),
        proto: 6,
        part: false,
        src_port: port,
        dst_port: 80,
    }
}

pub fn back(port: u16) -> LayerKey {
    LayerKey {
        encaps: 0,
        vni_outer: 0,
        vni_second: 0,
        src: Addr::Four(Ip4::of(0x0a00_0009)),
        dst: Addr::Four(Ip4::of(0x0a00_0005)),
        proto: 6,
        part: false,
        src_port: 80,
        dst_port: port,
    }
}

/// The pair of a rule, of the flow from this port, last used as many seconds after the epoch.
pub fn pair(number: u32, group: u16, rule: u16, port: u16) -> Pair
    ensures { result.number ≡ number }
{
    Pair {
        number,
        group,
        rule,
        dir: Dir::Out,
        forward: there(port),
        forward_set: UNSET,
        reverse: back(port),
        reverse_set: UNSET,
        state: Track::Open,
        last_use: Moment::of(u64::from(port).wrapping_mul(1_000_000)),
    }
}

/// Adds a pair whose keys are free, and tells whether it did.
#[tactic(auto, using(vsw_layerflow::proofs::Order::below_new, vsw_layerflow::proofs::Order::below_next, vsw_layerflow::proofs::Order::below_push))]
fn put(flows: &mut Flows, pair: Pair) -> bool
    requires number_last { AllBelow pair.number flows.old.pairs }
    ensures number_last { AllBelow (pair.number + 1) flows.new.pairs }
{
    if flows.find(pair.dir, &pair.forward).is_some() {
        return false;
    }
    if flows.find(pair.back().dir, &pair.reverse).is_some() {
        return false;
    }
    if flows.len() == u32::MAX || flows.reserve_one().is_err() {
        return false;
    }
    flows.add(pair);
    true
}

/// Pairs of rules 5, 6, 7 and 5 of group 1, and of rule 5 of group 2, from ports 1 to 5.
fn flows(alloc: Global) -> Flows {
    let mut flows = Flows::new(alloc);
    let _ = put(&mut flows, pair(0, 1, 5, 1));
    let _ = put(&mut flows, pair(1, 1, 6, 2));
    let _ = put(&mut flows, pair(2, 1, 7, 3));
    let _ = put(&mut flows, pair(3, 1, 5, 4));
    let _ = put(&mut flows, pair(4, 2, 5, 5));
    flows
}

/// A group with rules 5, 6 and 7 of priority 10.
fn group(alloc: Global, number: u16) -> Group {
    let mut rules = Items::new(alloc);
    let _ = rules.push(rule(alloc, 5, 10));
    let _ = rules.push(rule(alloc, 6, 10));
    let _ = rules.push(rule(alloc, 7, 10));
    Group {
        number,
        dir: Dir::Out,
        when: Items::new(alloc),
        rules,
    }
}

/// Such groups 1 and 2.
fn groups(alloc: Global) -> Groups {
    let mut groups = Groups::new(alloc);
    let _ = groups.push(alloc, group(alloc, 1));
    let _ = groups.push(alloc, group(alloc, 2));
    groups
}

/// Layer 10 of controller 1, with those groups and pairs.
fn layer(alloc: Global) -> Layer {
    Layer {
        controller: 1,
        spec: spec(10, 10),
        groups: groups(alloc),
        flows: flows(alloc),
        next_pair: 5,
    }
}

/// That layer alone.
fn layers(alloc: Global) -> Vec<Layer> {
    let mut layers = Vec::new(alloc);
    let _ = layers.push(layer(alloc));
    layers
}

/// Which of the ports 1 to 5 have a pair, as digits.
pub fn left(flows: &Flows) -> u32 {
    let mut digits = 0u32;
    for port in 1u16..6 {
        if flows.find(Dir::Out, &there(port)).is_some()
            && flows.find(Dir::In, &back(port)).is_some()
        {
            digits = digits.wrapping_mul(10).wrapping_add(u32::from(port));
        }
    }
    digits
}

/// Does what controller 1 asks, and tells whether memory sufficed.
fn does(alloc: Global, layers: &mut Vec<Layer>, ask: &Ask) -> bool {
    change(
        alloc,
        &HashSeed::known(),
        &[1],
        layers,
        1,
        &command(alloc, ask),
    )
    .is_ok()
}

/// Which pairs are left in the only layer.
fn left_in(layers: &[Layer]) -> u32 {
    match layers {
        [layer] => left(&layer.flows),
        _ => 0,
    }
}

/// Which pairs are left after a command of controller 1.
fn left_after(alloc: Global, ask: &Ask) -> u32 {
    let mut layers = layers(alloc);
    if does(alloc, &mut layers, ask) {
        left_in(layers.as_slice())
    } else {
        0
    }
}

/// What is asked, and the pairs that are left after it.
type Case = (Ask, u32);

fn are_left(alloc: Global, cases: &[Case]) -> Result<(), Wrong> {
    for place in 0..cases.len() {
        let (ask, digits) = &cases[place];
        if left_after(alloc, ask) != *digits {
            return Err(Wrong::Step(place));
        }
    }
    Ok(())
}

/// Which pairs there are before any command.
fn left_first(alloc: Global) -> u32 {
    left(&flows(alloc))
}

const RULES: [Case; 4] = [
    // Rule 6 stays as it was, 5 changes, and 7 goes.
    (Ask::PutTwo(10, (5, 20), (6, 10)), 25),
    // Their places count for nothing.
    (Ask::PutTwo(10, (7, 10), (5, 10)), 1_345),
    (Ask::PutTwo(10, (8, 10), (9, 10)), 5),
    // Layer 11 isn't there.
    (Ask::PutTwo(11, (8, 10), (9, 10)), 12_345),
];

const PARTS: [Case; 4] = [
    // Rule 6 of group 1 stays as it was, and the rules of group 2 go.
    (
        Ask::PutBoth((10, 1, Rules::Two((5, 20), (6, 10))), (10, 2, Rules::None)),
        2,
    ),
    (
        Ask::PutBoth((10, 2, Rules::One(5, 10)), (10, 1, Rules::None)),
        5,
    ),
    (
        Ask::PutBoth(
            (10, 2, Rules::One(5, 20)),
            (10, 1, Rules::Two((7, 10), (5, 10))),
        ),
        134,
    ),
    (Ask::PutSame(0, (10, 1, Rules::None)), 12_345),
];

#[test]
fn pairs_go_with_a_rule_that_goes_or_changes(rt: HostRuntime) -> Result<(), Wrong> {
    if left_first(rt.alloc()) != 12_345 {
        return Err(Wrong::Start);
    }
    are_left(rt.alloc(), &RULES)?;
    are_left(rt.alloc(), &PARTS)
}

const TIMES: [Case; 5] = [
    (Ask::RemoveGroup(1), 5),
    (Ask::RemoveRule(5), 235),
    // They are open, and live for 240 seconds.
    (Ask::Sweep(10, 242_999_999), 345),
    (Ask::Sweep(10, 243_000_000), 45),
    (Ask::Sweep(11, 243_000_000), 12_345),
];

#[test]
fn pairs_go_with_their_group_their_rule_and_their_time(rt: HostRuntime) -> Result<(), Wrong> {
    are_left(rt.alloc(), &TIMES)
}

/// What is told of the rules of both groups after a command.
fn rules_after(alloc: Global, ask: &Ask) -> [Option<ToldRules>; 2] {
    let mut layers = layers(alloc);
    if does(alloc, &mut layers, ask) {
        [told_rules(&layers, 0), told_rules(&layers, 1)]
    } else {
        [None, None]
    }
}

const OTHERS: [Option<ToldRules>; 2] = [Some((6, 20, 2)), Some((7, 10, 3))];

#[test]
fn other_rules_stand_in_place_of_all_of_one_group(rt: HostRuntime) {
    let ask = Ask::PutTwo(10, (9, 10), (6, 20));
    assert!(rt; rules_after(rt.alloc(), &ask) == OTHERS);
}
