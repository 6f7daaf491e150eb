//! Policies whose layers have made no pair.

ghost use Rattle.std.specs.Prelude.{◌<◌, ◌≤◌, ◌^◌, IsTrue, length};
ghost use Rattle.vsw_policy.specs.Sound.{are_distinct};

use crate::given::give;
use std::alloc::Global;
use vsw_base::{Dir, Ip4, Items, Set};
use vsw_policy::{Command, LayerSpec, Policy};
use vsw_rule::{Action, Cond, Field, Item, Rule};

/// What becomes of packets that a rule matches.
#[derive(Clone, Copy)]
enum Does {
    Allow,
    /// They go to port 1234 of the own address.
    Forward,
    /// They come from port 40,000 of 192.0.2.7.
    Hide,
}

/// A group of a layer, whose one rule matches all or what has a field between two values.
#[derive(Clone, Copy)]
struct Group {
    controller: u16,
    layer: u16,
    group: u16,
    dir: Dir,
    rule: u16,
    within: Option<(Field, u64, u64)>,
    does: Does,
    stateful: bool,
}

/// The controller of a layer, its number, and how many pairs it holds.
type Pairs = (u16, u16, u32);

const UNSET: Set = Set {
    dst_mac: None,
    src_mac: None,
    src_ip: None,
    dst_ip: None,
    src_port: None,
    dst_port: None,
    src_ip6: None,
    dst_ip6: None,
};

fn edit(set: Set) -> Action {
    Action::Edit {
        decap: false,
        set,
        encap: None,
    }
}

fn action_of(does: Does) -> Action {
    match does {
        Does::Allow => Action::Allow,
        Does::Forward => edit(Set {
            dst_ip: Some(Ip4::of(0x0a00_0005)),
            dst_port: Some(1234),
            ..UNSET
        }),
        Does::Hide => edit(Set {
            src_ip: Some(Ip4::of(0xc000_0207)),
            src_port: Some(40_000),
            ..UNSET
        }),
    }
}

/// The conditions of a rule.
fn conditions(alloc: Global, within: Option<(Field, u64, u64)>) -> Items<Cond> {
    let mut when = Items::new(alloc);
    if let Some((field, low, high)) = within {
        let mut items = Items::new(alloc);
        let _ = items.push(Item::Range { low, high });
        let _ = when.push(Cond { field, items });
    }
    when
}

/// Adds layers that drop by default, and whose pairs live for 240 seconds.
fn add_layers(policy: &mut Policy, layers: &[Pairs]) -> bool {
    for place in 0..layers.len() {
        let (controller, layer, pairs) = layers[place];
        let spec = LayerSpec {
            layer,
            order: layer,
            allow_out: false,
            allow_in: false,
            pairs,
            idle: 240,
            linger: 10,
        };
        if !give(policy, controller, Command::AddLayer { spec }) {
            return false;
        }
    }
    true
}

fn group_of(alloc: Global, group: &Group) -> Command {
    Command::AddGroup {
        layer: group.layer,
        group: group.group,
        dir: group.dir,
        when: Items::new(alloc),
    }
}

fn rule_of(alloc: Global, group: &Group) -> Command {
    Command::AddRule {
        layer: group.layer,
        group: group.group,
        rule: Rule {
            number: group.rule,
            priority: 10,
            when: conditions(alloc, group.within),
            action: action_of(group.does),
            stateful: group.stateful,
            last: false,
        },
    }
}

fn add_groups(alloc: Global, policy: &mut Policy, groups: &[Group]) -> bool {
    for place in 0..groups.len() {
        let added = &groups[place];
        if !give(policy, added.controller, group_of(alloc, added))
            || !give(policy, added.controller, rule_of(alloc, added))
        {
            return false;
        }
    }
    true
}

/// Of these controllers, without layers.
fn bare(alloc: Global, controllers: &[u16]) -> Option<Policy>
    requires few { length controllers.now ≤ 8 }
    requires distinct { IsTrue (are_distinct controllers.now) }
{
    match Policy::new(alloc, controllers) {
        Ok(policy) => Some(policy),
        Err(_) => None,
    }
}

/// Of these layers and groups.
fn given(alloc: Global, controllers: &[u16], layers: &[Pairs], groups: &[Group]) -> Option<Policy>
    requires few { length controllers.now ≤ 8 }
    requires distinct { IsTrue (are_distinct controllers.now) }
{
    let mut policy = bare(alloc, controllers)?;
    if add_layers(&mut policy, layers) && add_groups(alloc, &mut policy, groups) {
        Some(policy)
    } else {
        None
    }
}

/// All that goes out passes.
const OUT: Group = Group {
    controller: 1,
    layer: 10,
    group: 1,
    dir: Dir::Out,
    rule: 1,
    within: None,
    does: Does::Allow,
    stateful: false,
};

/// The same in pairs.
const OUT_IN_PAIRS: Group = Group {
    stateful: true,
    ..OUT
};

/// What goes to 10.0.0.0/24 passes, by rule 5.
const NEAR: Group = Group {
    rule: 5,
    within: Some((Field::DstIp, 0x0a00_0000, 0x0a00_00ff)),
    ..OUT
};

/// What comes in to the public address goes to the own one, in pairs.
const PUBLISHED: Group = Group {
    group: 2,
    dir: Dir::In,
    rule: 2,
    within: Some((Field::DstIp, 0xcb00_7104, 0xcb00_7104)),
    does: Does::Forward,
    ..OUT_IN_PAIRS
};

/// The own address alone goes on, hidden.
const HIDDEN: Group = Group {
    controller: 2,
    layer: 20,
    within: Some((Field::SrcIp, 0x0a00_0005, 0x0a00_0005)),
    does: Does::Hide,
    ..OUT_IN_PAIRS
};

/// A policy that desks begin with.
#[derive(Clone, Copy)]
pub enum Made {
    /// Of controller 1, without layers.
    Bare,
    /// Of controllers 1 and 2, without layers.
    BareOfTwo,
    /// One layer, whose rule 5 lets out what goes to 10.0.0.0/24.
    Plain,
    /// A layer that lets all out, and takes what comes in to the public address to the own one, in pairs.
    Published,
    /// A layer that makes a pair of all that goes out, and holds so many.
    Tracked { pairs: u32 },
    /// A layer that makes a pair of all that goes out, and one behind it that lets the own address alone go on, hidden
    /// behind 192.0.2.7.
    Hiding,
}

pub fn policy(alloc: Global, made: Made) -> Option<Policy> {
    match made {
        Made::Bare => bare(alloc, &[1]),
        Made::BareOfTwo => bare(alloc, &[1, 2]),
        Made::Plain => given(alloc, &[1], &[(1, 10, 100)], &[NEAR]),
        Made::Published => given(alloc, &[1], &[(1, 10, 100)], &[OUT, PUBLISHED]),
        Made::Tracked { pairs } => given(alloc, &[1], &[(1, 10, pairs)], &[OUT_IN_PAIRS]),
        Made::Hiding => given(
            alloc,
            &[1, 2],
            &[(1, 10, 100), (2, 20, 100)],
            &[OUT_IN_PAIRS, HIDDEN],
        ),
    }
}
