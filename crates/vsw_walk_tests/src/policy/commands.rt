//! The commands that are given: their layers, groups and rules.

use std::alloc::Global;
use vsw_base::{Dir, Items, Moment};
use vsw_policy::{Command, LayerSpec, Part};
use vsw_rule::{Action, Cond, Field, Item, Rule};

/// What a command asks: of layer 10 and its group 1, where it names no others.
#[derive(Clone, Copy)]
pub enum Ask {
    /// A further layer of this number and order.
    AddLayer(u16, u16),
    RemoveLayer(u16),
    /// An outbound group of this number without conditions.
    AddGroup(u16),
    /// An inbound group 2, for packets to port 80, or to 443 and above.
    AddWeb,
    RemoveGroup(u16),
    /// A rule of this number and priority.
    AddRule(u16, u16),
    RemoveRule(u16),
    /// Rules of these numbers and priorities in place of all in this layer's group.
    PutTwo(u16, (u16, u16), (u16, u16)),
    /// So many rules, numbered from 0, and then one of this number.
    PutMany(u16, u16),
    /// Other rules in place of all in two groups.
    PutBoth(Given, Given),
    /// So many parts, all of one group.
    PutSame(u16, Given),
    /// A part without rules for so many groups of layer 10, from this number downwards, and one part more.
    PutGroups(u16, u16, Given),
    SetDefault(Dir, bool),
    /// A sweep of this layer at a moment.
    Sweep(u16, u64),
}

/// The layer, the group and the rules of a part.
pub type Given = (u16, u16, Rules);

/// What rules a part has.
#[derive(Clone, Copy)]
pub enum Rules {
    None,
    /// One of this number and priority.
    One(u16, u16),
    Two((u16, u16), (u16, u16)),
    /// So many rules, numbered from 0, and then one of this number.
    Many(u16, u16),
}

/// Allows 16 pairs, which live for 240 or, closed, 10 seconds.
pub fn spec(layer: u16, order: u16) -> LayerSpec {
    LayerSpec {
        layer,
        order,
        allow_out: false,
        allow_in: true,
        pairs: 16,
        idle: 240,
        linger: 10,
    }
}

fn add_group(alloc: Global, group: u16) -> Command {
    Command::AddGroup {
        layer: 10,
        group,
        dir: Dir::Out,
        when: Items::new(alloc),
    }
}

/// The destination port is 80, or 443 and above.
fn to_web(alloc: Global) -> Cond {
    let mut items = Items::new(alloc);
    let _ = items.push(Item::Range { low: 80, high: 80 });
    let _ = items.push(Item::Range {
        low: 443,
        high: 0xffff,
    });
    Cond {
        field: Field::DstPort,
        items,
    }
}

fn add_web(alloc: Global) -> Command {
    let mut when = Items::new(alloc);
    let _ = when.push(to_web(alloc));
    Command::AddGroup {
        layer: 10,
        group: 2,
        dir: Dir::In,
        when,
    }
}

/// A stateful rule that allows all packets.
pub fn rule(alloc: Global, number: u16, priority: u16) -> Rule {
    Rule {
        number,
        priority,
        when: Items::new(alloc),
        action: Action::Allow,
        stateful: true,
        last: false,
    }
}

fn two(alloc: Global, first: (u16, u16), second: (u16, u16)) -> Items<Rule> {
    let mut rules = Items::new(alloc);
    let _ = rules.push(rule(alloc, first.0, first.1));
    let _ = rules.push(rule(alloc, second.0, second.1));
    rules
}

fn many(alloc: Global, count: u16, last: u16) -> Items<Rule> {
    let mut rules = Items::new(alloc);
    for number in 0..count {
        let _ = rules.push(rule(alloc, number, 10));
    }
    let _ = rules.push(rule(alloc, last, 10));
    rules
}

fn one(alloc: Global, number: u16, priority: u16) -> Items<Rule> {
    let mut rules = Items::new(alloc);
    let _ = rules.push(rule(alloc, number, priority));
    rules
}

fn part(alloc: Global, given: &Given) -> Part {
    let (layer, group, rules) = *given;
    let rules = match rules {
        Rules::None => Items::new(alloc),
        Rules::One(number, priority) => one(alloc, number, priority),
        Rules::Two(first, second) => two(alloc, first, second),
        Rules::Many(count, last) => many(alloc, count, last),
    };
    Part {
        layer,
        group,
        rules,
    }
}

fn put_both(alloc: Global, first: &Given, second: &Given) -> Command {
    let mut parts = Items::new(alloc);
    let _ = parts.push(part(alloc, first));
    let _ = parts.push(part(alloc, second));
    Command::PutMany { parts }
}

fn put_same(alloc: Global, count: u16, given: &Given) -> Command {
    let mut parts = Items::new(alloc);
    for _ in 0..count {
        let _ = parts.push(part(alloc, given));
    }
    Command::PutMany { parts }
}

fn put_groups(alloc: Global, first: u16, count: u16, last: &Given) -> Command {
    let mut parts = Items::new(alloc);
    for place in 0..count {
        let group = first.wrapping_sub(place);
        let _ = parts.push(part(alloc, &(10, group, Rules::None)));
    }
    let _ = parts.push(part(alloc, last));
    Command::PutMany { parts }
}

/// The command that asks this.
pub fn command(alloc: Global, ask: &Ask) -> Command {
    match *ask {
        Ask::AddLayer(layer, order) => Command::AddLayer {
            spec: spec(layer, order),
        },
        Ask::RemoveLayer(layer) => Command::RemoveLayer { layer },
        Ask::AddGroup(group) => add_group(alloc, group),
        Ask::AddWeb => add_web(alloc),
        Ask::RemoveGroup(group) => Command::RemoveGroup { layer: 10, group },
        Ask::AddRule(number, priority) => Command::AddRule {
            layer: 10,
            group: 1,
            rule: rule(alloc, number, priority),
        },
        Ask::RemoveRule(number) => Command::RemoveRule {
            layer: 10,
            group: 1,
            number,
        },
        Ask::PutTwo(layer, first, second) => Command::PutRules {
            layer,
            group: 1,
            rules: two(alloc, first, second),
        },
        Ask::PutMany(count, last) => Command::PutRules {
            layer: 10,
            group: 1,
            rules: many(alloc, count, last),
        },
        Ask::PutBoth(first, second) => put_both(alloc, &first, &second),
        Ask::PutSame(count, given) => put_same(alloc, count, &given),
        Ask::PutGroups(first, count, last) => put_groups(alloc, first, count, &last),
        Ask::SetDefault(dir, allow) => Command::SetDefault {
            layer: 10,
            dir,
            allow,
        },
        Ask::Sweep(layer, micros) => Command::Sweep {
            layer,
            now: Moment::of(micros),
        },
    }
}
