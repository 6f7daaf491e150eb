//! The choice by the indexes of groups that commands change, beside the choice over lists.

use crate::rule::index_samples::{Random, Tally, group, numbers, packet};
use std::alloc::Global;
use vsw_base::{Dir, Stack};
use vsw_classify::{Groups, IndexedRules};
use vsw_rule::{Group, choose};

fn put_rules(alloc: Global, groups: &mut Groups, drawn: Group) -> Option<()> {
    let number = drawn.number;
    let rules = IndexedRules::of(alloc, drawn.rules).ok()?;
    groups.put_rules(number, rules);
    Some(())
}

fn add_first_rule(alloc: Global, groups: &mut Groups, drawn: &Group) -> Option<()> {
    match drawn.rules.as_slice().first() {
        Some(rule) => groups.add_rule(alloc, drawn.number, rule).ok(),
        None => Some(()),
    }
}

fn put(alloc: Global, groups: &mut Groups, drawn: Group) -> Option<()> {
    groups.remove(drawn.number);
    groups.push(alloc, drawn).ok()
}

/// Does to one of six groups what commands may do: it goes, it comes anew, it gets other rules, or
/// one of them comes or goes.
fn change(alloc: Global, groups: &mut Groups, random: &mut Random) -> Option<()> {
    let number = (random.next() % 6) as u16;
    let drawn = group(alloc, number, random)?;
    match random.next() % 6 {
        0 => {
            groups.remove(number);
            Some(())
        }
        1 => put_rules(alloc, groups, drawn),
        2 => add_first_rule(alloc, groups, &drawn),
        3 => {
            let rule = (random.next() % 16) as u16;
            groups.remove_rule(alloc, number, rule).ok()
        }
        _ => put(alloc, groups, drawn),
    }
}

fn compare(groups: &Groups, stack: &Stack, tally: &mut Tally) {
    let by_list = numbers(choose(Dir::Out, groups.as_slice(), stack));
    let by_index = numbers(groups.choose(Dir::Out, stack));
    tally.note(by_list.is_some(), by_index != by_list);
}

fn compare_packets(groups: &Groups, random: &mut Random, tally: &mut Tally) -> Option<()> {
    for _ in 0..10u32 {
        compare(groups, &packet(random)?, tally);
    }
    Some(())
}

/// Whether enough packets met a rule, and how many differ: 100 changes, with 10 packets after each.
fn tallied(alloc: Global) -> Option<(bool, u32)> {
    let mut random = Random::new(3);
    let mut tally = Tally::new();
    let mut groups = Groups::new(alloc);
    for _ in 0..100u32 {
        change(alloc, &mut groups, &mut random)?;
        compare_packets(&groups, &mut random, &mut tally)?;
    }
    Some((tally.met > 500, tally.differ))
}

#[test]
fn indexes_follow_the_commands(rt: HostRuntime) {
    assert!(rt; tallied(rt.alloc()) == Some((true, 0)));
}
