//! Indexes beside the choice over lists.

ghost use Rattle.std.specs.Prelude.{◌≡◌};
ghost use Rattle.vsw_classify.specs.Place.{AreBuiltOf};

use crate::rule::index_samples::{Random, Tally, group, numbers, packet};
use std::alloc::Global;
use vsw_base::{BadShape, Dir, Header, Ip4, Items, Mac, Prefix, Stack};
use vsw_classify::{GroupIndex, build_layer, pick_layer};
use vsw_rule::{Action, Cond, Field, Group, Item, Packet, Rule, choose, pick};

/// UDP from port 1234 of 10.0.0.5 to port 53 of 10.0.0.9.
fn plain() -> Result<Stack, BadShape> {
    let headers = [
        Header::Ether {
            dst: Mac::of(0x0200_0000_0099),
            src: Mac::of(0x0200_0000_0001),
            kind: 0x0800,
        },
        Header::Ip {
            src: Ip4::of(0x0a00_0005),
            dst: Ip4::of(0x0a00_0009),
            proto: 17,
            part: false,
        },
        Header::Ports {
            proto: 17,
            src: 1234,
            dst: 53,
        },
    ];
    Stack::of(&headers)
}

/// A rule that packets to 10.0.0.0/24 meet. Rule 5 allows them, and another drops them.
fn near(alloc: Global, number: u16) -> Option<Rule> {
    let network = Item::Prefix(Prefix {
        value: Ip4::of(0x0a00_0000),
        bits: 24,
    });
    let to = Cond {
        field: Field::DstIp,
        items: Items::of(Vec::from_array(alloc, [network]).ok()?),
    };
    Some(Rule {
        number,
        priority: 10,
        when: Items::of(Vec::from_array(alloc, [to]).ok()?),
        action: if number == 5 {
            Action::Allow
        } else {
            Action::Drop
        },
        stateful: false,
        last: false,
    })
}

fn group_of(alloc: Global, first: u16, second: u16) -> Option<Group> {
    let first = near(alloc, first)?;
    let second = near(alloc, second)?;
    Some(Group {
        number: 1,
        dir: Dir::Out,
        when: Items::of(Vec::new(alloc)),
        rules: Items::of(Vec::from_array(alloc, [first, second]).ok()?),
    })
}

/// The place by the index, and the number by the list, of the rule that the plain packet meets.
fn picked(group: &Group, index: &GroupIndex) -> Option<(Option<u32>, Option<u16>)>
    requires built { index.now ≡ group.now.rules }
{
    let stack = plain().ok()?;
    let packet = Packet::of(&stack);
    let number = match pick(group.rules.as_slice(), &packet) {
        Some(rule) => Some(rule.number),
        None => None,
    };
    Some((index.pick(group, &packet), number))
}

/// What is picked of two rules of these numbers.
fn of_two(alloc: Global, first: u16, second: u16) -> Option<(Option<u32>, Option<u16>)> {
    let group = group_of(alloc, first, second)?;
    match GroupIndex::build(alloc, &group) {
        Ok(index) => picked(&group, &index),
        Err(_) => None,
    }
}

#[test]
fn the_first_of_two_equal_rules_is_picked(rt: HostRuntime) {
    let alloc = rt.alloc();
    let five_first = of_two(alloc, 5, 6);
    let six_first = of_two(alloc, 6, 5);
    assert!(rt; five_first == Some((Some(0), Some(5))) && six_first == Some((Some(0), Some(6))));
}

/// Numbers of rules are their places.
fn compare_place(group: &Group, index: &GroupIndex, stack: &Stack, tally: &mut Tally)
    requires built { index.now ≡ group.now.rules }
{
    let packet = Packet::of(stack);
    let by_list = match pick(group.rules.as_slice(), &packet) {
        Some(rule) => Some(u32::from(rule.number)),
        None => None,
    };
    let by_index = index.pick(group, &packet);
    tally.note(by_list.is_some(), by_index != by_list);
}

fn compare_packets(
    group: &Group,
    index: &GroupIndex,
    random: &mut Random,
    tally: &mut Tally,
) -> Option<()>
    requires built { index.now ≡ group.now.rules }
{
    for _ in 0..20u32 {
        compare_place(group, index, &packet(random)?, tally);
    }
    Some(())
}

fn compare_places(alloc: Global, random: &mut Random, tally: &mut Tally) -> Option<()> {
    let group = group(alloc, 1, random)?;
    match GroupIndex::build(alloc, &group) {
        Ok(index) => compare_packets(&group, &index, random, tally),
        Err(_) => None,
    }
}

fn compare_choice(groups: &[Group], index: &[GroupIndex], stack: &Stack, tally: &mut Tally)
    requires built { AreBuiltOf groups.now index.now }
{
    let by_list = numbers(choose(Dir::Out, groups, stack));
    let by_index = numbers(pick_layer(groups, index, Dir::Out, stack));
    tally.note(by_list.is_some(), by_index != by_list);
}

/// Up to five groups.
fn layer(alloc: Global, random: &mut Random) -> Option<Vec<Group>> {
    let mut groups: Vec<Group> = Vec::new(alloc);
    for number in 0..random.next() % 6 {
        groups.push(group(alloc, number as u16, random)?).ok()?;
    }
    Some(groups)
}

fn compare_layer(
    groups: &[Group],
    index: &[GroupIndex],
    random: &mut Random,
    tally: &mut Tally,
) -> Option<()>
    requires built { AreBuiltOf groups.now index.now }
{
    for _ in 0..20u32 {
        compare_choice(groups, index, &packet(random)?, tally);
    }
    Some(())
}

fn compare_choices(alloc: Global, random: &mut Random, tally: &mut Tally) -> Option<()> {
    let groups = layer(alloc, random)?;
    match build_layer(alloc, &groups) {
        Ok(index) => compare_layer(&groups, &index, random, tally),
        Err(_) => None,
    }
}

/// Rounds of 20 packets each.
const ROUNDS: u32 = 60;

/// Whether enough packets met a rule, and of how many the places differ.
fn tallied_places(alloc: Global) -> Option<(bool, u32)> {
    let mut random = Random::new(1);
    let mut tally = Tally::new();
    for _ in 0..ROUNDS {
        compare_places(alloc, &mut random, &mut tally)?;
    }
    Some((tally.met > 500, tally.differ))
}

#[test]
fn places_are_those_of_the_list(rt: HostRuntime) {
    assert!(rt; tallied_places(rt.alloc()) == Some((true, 0)));
}

/// Whether enough packets met a rule, and of how many the choices differ.
fn tallied_choices(alloc: Global) -> Option<(bool, u32)> {
    let mut random = Random::new(2);
    let mut tally = Tally::new();
    for _ in 0..ROUNDS {
        compare_choices(alloc, &mut random, &mut tally)?;
    }
    Some((tally.met > 500, tally.differ))
}

#[test]
fn choices_are_those_of_the_list(rt: HostRuntime) {
    assert!(rt; tallied_choices(rt.alloc()) == Some((true, 0)));
}
