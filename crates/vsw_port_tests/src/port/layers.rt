//! Layers of controller 1.

ghost use Rattle.std.specs.Prelude.{◌<◌, ◌^◌};

use crate::given::give;
use crate::port::packets::OWN;
use std::alloc::Global;
use vsw_base::{Dir, Ip4, Items, Mac, Outer, Set};
use vsw_policy::{Command, LayerSpec, Policy};
use vsw_rule::{Action, Cond, Field, Item, Rule};

/// The address that stands for those of others.
pub const PUBLIC: u32 = 0xc000_0207;

/// What becomes of packets that a rule matches.
#[derive(Clone, Copy)]
pub enum Does {
    Allow,
    Drop,
    /// They come from the public address.
    HideSource,
    /// The same, and from port 40,000.
    Translate,
    /// They go to port 1234 of the own address.
    Forward,
    /// They are put in network 5001.
    PutIn,
    TakeOut,
}

/// The group of a layer for one direction, whose one rule matches all, or what has this value in a field. Outbound
/// packets have group 1, and inbound ones group 2.
#[derive(Clone, Copy)]
pub struct Ruled {
    pub layer: u16,
    pub dir: Dir,
    pub rule: u16,
    pub priority: u16,
    pub when: Option<(Field, u64)>,
    pub does: Does,
    pub stateful: bool,
}

/// What a policy is given.
#[derive(Clone, Copy)]
pub enum Given {
    /// A layer that allows by default, and holds so many pairs, idle for 240 seconds.
    Open { layer: u16, pairs: u32 },
    /// A layer that drops by default, and holds 100 pairs, idle for so many seconds.
    Strict { layer: u16, idle: u32 },
    Group(Ruled),
}

/// Rule 5 lets out, and makes pairs.
pub const OUT: Ruled = Ruled {
    layer: 10,
    dir: Dir::Out,
    rule: 5,
    priority: 1,
    when: None,
    does: Does::Allow,
    stateful: true,
};

/// Rule 9 lets in, and makes pairs.
pub const BACK: Ruled = Ruled {
    dir: Dir::In,
    rule: 9,
    ..OUT
};

const UNSET: Set = Set {
    dst_mac: None,
    src_mac: None,
    src_ip: None,
    dst_ip: None,
    src_port: None,
    dst_port: None,
    src_ip6: None,
    dst_ip6: None,
};

fn edit(decap: bool, set: Set, encap: Option<Outer>) -> Action {
    Action::Edit { decap, set, encap }
}

fn network() -> Outer {
    Outer {
        dst_mac: Mac::of(0x0200_0000_0a02),
        src_mac: Mac::of(0x0200_0000_0a01),
        src_ip: Ip4::of(0xac10_0001),
        dst_ip: Ip4::of(0xac10_0002),
        vni: 5001,
    }
}

fn action_of(does: Does) -> Action {
    match does {
        Does::Allow => Action::Allow,
        Does::Drop => Action::Drop,
        Does::HideSource => {
            let set = Set {
                src_ip: Some(Ip4::of(PUBLIC)),
                ..UNSET
            };
            edit(false, set, None)
        }
        Does::Translate => {
            let set = Set {
                src_ip: Some(Ip4::of(PUBLIC)),
                src_port: Some(40_000),
                ..UNSET
            };
            edit(false, set, None)
        }
        Does::Forward => {
            let set = Set {
                dst_ip: Some(Ip4::of(OWN)),
                dst_port: Some(1234),
                ..UNSET
            };
            edit(false, set, None)
        }
        Does::PutIn => edit(false, UNSET, Some(network())),
        Does::TakeOut => edit(true, UNSET, None),
    }
}

fn layer(layer: u16, allow: bool, pairs: u32, idle: u32) -> Command {
    let spec = LayerSpec {
        layer,
        order: layer,
        allow_out: allow,
        allow_in: allow,
        pairs,
        idle,
        linger: 10,
    };
    Command::AddLayer { spec }
}

/// The conditions of a rule.
fn conditions(alloc: Global, value: Option<(Field, u64)>) -> Items<Cond> {
    let mut when = Items::new(alloc);
    if let Some((field, value)) = value {
        let mut items = Items::new(alloc);
        let _ = items.push(Item::Range {
            low: value,
            high: value,
        });
        let _ = when.push(Cond { field, items });
    }
    when
}

fn group(alloc: Global, ruled: &Ruled, group: u16) -> Command {
    Command::AddGroup {
        layer: ruled.layer,
        group,
        dir: ruled.dir,
        when: Items::new(alloc),
    }
}

fn rule(alloc: Global, ruled: &Ruled, group: u16) -> Command {
    Command::AddRule {
        layer: ruled.layer,
        group,
        rule: Rule {
            number: ruled.rule,
            priority: ruled.priority,
            when: conditions(alloc, ruled.when),
            action: action_of(ruled.does),
            stateful: ruled.stateful,
            last: false,
        },
    }
}

fn add_group(alloc: Global, policy: &mut Policy, ruled: &Ruled) -> bool {
    let number = match ruled.dir {
        Dir::Out => 1,
        Dir::In => 2,
    };
    give(policy, 1, group(alloc, ruled, number)) && give(policy, 1, rule(alloc, ruled, number))
}

fn add(alloc: Global, policy: &mut Policy, given: &Given) -> bool {
    match given {
        Given::Open {
            layer: number,
            pairs,
        } => give(policy, 1, layer(*number, true, *pairs, 240)),
        Given::Strict {
            layer: number,
            idle,
        } => give(policy, 1, layer(*number, false, 100, *idle)),
        Given::Group(ruled) => add_group(alloc, policy, ruled),
    }
}

/// Whether all was there to be given, and was.
pub fn add_all(alloc: Global, policy: &mut Policy, given: &[Given]) -> bool {
    for place in 0..given.len() {
        if !add(alloc, policy, &given[place]) {
            return false;
        }
    }
    true
}
