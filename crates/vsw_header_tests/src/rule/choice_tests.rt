//! The choice among rules of one group and of two.

use crate::rule::samples::{asking, plain, prefix, range};
use std::alloc::{AllocError, Global};
use vsw_base::{Dir, Items, Stack};
use vsw_rule::{Action, Cond, Field, Group, Item, Rule, choose};

/// Groups that a packet may meet.
#[derive(Clone, Copy)]
enum Groups {
    /// Rule 5 in group 1, which allows the plain packet, and rule 7 in group 2, which drops it: which
    /// of them are marked as last, and whether group 2 is for port 80 alone.
    Two {
        five_is_last: bool,
        seven_is_last: bool,
        is_web: bool,
    },
    /// Group 1, of two rules of these numbers and priorities, which allow the plain packet.
    One {
        rules: [(u16, u16); 2],
    },
}

/// What the plain packet meets in this direction: the numbers of the group and of the rule, and the
/// rule's action.
#[derive(Clone, Copy)]
struct Case {
    groups: Groups,
    dir: Dir,
    met: Option<(u16, u16, Action)>,
}

/// A rule that packets to these addresses meet.
fn toward(
    alloc: Global,
    to: Item,
    number: u16,
    priority: u16,
    action: Action,
    last: bool,
) -> Result<Rule, AllocError> {
    Ok(Rule {
        number,
        priority,
        when: asking(alloc, Field::DstIp, to)?,
        action,
        stateful: false,
        last,
    })
}

/// A rule that packets to 10.0.0.0/24 meet.
fn near(alloc: Global, number: u16, priority: u16, last: bool) -> Result<Rule, AllocError> {
    let to = prefix(0x0a00_0000, 24);
    toward(alloc, to, number, priority, Action::Allow, last)
}

fn group(number: u16, when: Items<Cond>, rules: Vec<Rule>) -> Group {
    Group {
        number,
        dir: Dir::Out,
        when,
        rules: Items::of(rules),
    }
}

/// Group 1, of rule 5.
fn first_group(alloc: Global, last: bool) -> Result<Group, AllocError> {
    let rules = Vec::from_array(alloc, [near(alloc, 5, 10, last)?])?;
    Ok(group(1, Items::new(alloc), rules))
}

fn conditions(alloc: Global, is_web: bool) -> Result<Items<Cond>, AllocError> {
    if is_web {
        asking(alloc, Field::DstPort, range(80, 80))
    } else {
        Ok(Items::new(alloc))
    }
}

/// Group 2, of rule 7, which packets to 10.0.0.9 meet.
fn second_group(alloc: Global, is_web: bool, last: bool) -> Result<Group, AllocError> {
    let seven = toward(alloc, prefix(0x0a00_0009, 32), 7, 10, Action::Drop, last)?;
    let rules = Vec::from_array(alloc, [seven])?;
    Ok(group(2, conditions(alloc, is_web)?, rules))
}

fn rules(alloc: Global, rules: &[(u16, u16); 2]) -> Result<Vec<Rule>, AllocError> {
    let [(first, first_priority), (second, second_priority)] = *rules;
    let first = near(alloc, first, first_priority, false)?;
    let second = near(alloc, second, second_priority, false)?;
    Ok(Vec::from_array(alloc, [first, second])?)
}

fn chosen(groups: &[Group], dir: Dir) -> Option<(u16, u16, Action)> {
    let stack = Stack::of(&plain()).ok()?;
    let choice = choose(dir, groups, &stack)?;
    Some((choice.group, choice.rule.number, choice.rule.action))
}

fn met(alloc: Global, case: &Case) -> Result<Option<(u16, u16, Action)>, AllocError> {
    match &case.groups {
        Groups::Two {
            five_is_last,
            seven_is_last,
            is_web,
        } => {
            let first = first_group(alloc, *five_is_last)?;
            let second = second_group(alloc, *is_web, *seven_is_last)?;
            Ok(chosen(&[first, second], case.dir))
        }
        Groups::One { rules: two } => {
            let group = group(1, Items::new(alloc), rules(alloc, two)?);
            Ok(chosen(&[group], case.dir))
        }
    }
}

/// The place of the first case in which the packet meets another rule.
fn wrong_case(alloc: Global, cases: &[Case]) -> Result<Option<usize>, AllocError> {
    for place in 0..cases.len() {
        let case = &cases[place];
        if met(alloc, case)? != case.met {
            return Ok(Some(place));
        }
    }
    Ok(None)
}

const PASSES: Option<(u16, u16, Action)> = Some((1, 5, Action::Allow));

const DROPS: Option<(u16, u16, Action)> = Some((2, 7, Action::Drop));

const UNMARKED: [Case; 2] = [
    Case {
        groups: Groups::Two {
            five_is_last: false,
            seven_is_last: false,
            is_web: false,
        },
        dir: Dir::Out,
        met: DROPS,
    },
    Case {
        groups: Groups::Two {
            five_is_last: false,
            seven_is_last: false,
            is_web: true,
        },
        dir: Dir::Out,
        met: PASSES,
    },
];

#[test]
fn the_last_group_decides_where_none_is_marked(rt: HostRuntime) {
    assert!(rt; wrong_case(rt.alloc(), &UNMARKED) == Ok(None));
}

const MARKED: [Case; 3] = [
    Case {
        groups: Groups::Two {
            five_is_last: false,
            seven_is_last: true,
            is_web: false,
        },
        dir: Dir::Out,
        met: DROPS,
    },
    Case {
        groups: Groups::Two {
            five_is_last: true,
            seven_is_last: false,
            is_web: false,
        },
        dir: Dir::Out,
        met: PASSES,
    },
    Case {
        groups: Groups::Two {
            five_is_last: true,
            seven_is_last: true,
            is_web: false,
        },
        dir: Dir::Out,
        met: PASSES,
    },
];

#[test]
fn the_first_group_that_is_marked_decides(rt: HostRuntime) {
    assert!(rt; wrong_case(rt.alloc(), &MARKED) == Ok(None));
}

const ORDERS: [Case; 4] = [
    Case {
        groups: Groups::One {
            rules: [(5, 10), (6, 10)],
        },
        dir: Dir::Out,
        met: PASSES,
    },
    Case {
        groups: Groups::One {
            rules: [(6, 10), (5, 10)],
        },
        dir: Dir::Out,
        met: Some((1, 6, Action::Allow)),
    },
    Case {
        groups: Groups::One {
            rules: [(5, 10), (6, 9)],
        },
        dir: Dir::Out,
        met: Some((1, 6, Action::Allow)),
    },
    Case {
        groups: Groups::One {
            rules: [(5, 10), (6, 9)],
        },
        dir: Dir::In,
        met: None,
    },
];

#[test]
fn the_least_priority_and_then_the_first_place_decides(rt: HostRuntime) {
    assert!(rt; wrong_case(rt.alloc(), &ORDERS) == Ok(None));
}
