//! Layers of controller 1. Their defaults allow.

ghost use Rattle.std.specs.Prelude.{◌<◌, ◌^◌};

use crate::given::give;
use crate::lean::packets::{FIRST, OWN, PUBLIC};
use std::alloc::Global;
use vsw_base::{Dir, Ip4, Items, Set};
use vsw_policy::{Command, LayerSpec, Policy};
use vsw_rule::{Action, Cond, Field, Item, Rule};

const UNSET: Set = Set {
    dst_mac: None,
    src_mac: None,
    src_ip: None,
    dst_ip: None,
    src_port: None,
    dst_port: None,
    src_ip6: None,
    dst_ip6: None,
};

fn edit(set: Set) -> Action {
    Action::Edit {
        decap: false,
        set,
        encap: None,
    }
}

fn add_layer(policy: &mut Policy, layer: u16, idle: u32, linger: u32) -> bool {
    let spec = LayerSpec {
        layer,
        order: layer,
        allow_out: true,
        allow_in: true,
        pairs: 100,
        idle,
        linger,
    };
    give(policy, 1, Command::AddLayer { spec })
}

/// Adds a group of this direction and number.
fn add_group(alloc: Global, policy: &mut Policy, layer: u16, group: u16, dir: Dir) -> bool {
    let added = Command::AddGroup {
        layer,
        group,
        dir,
        when: Items::new(alloc),
    };
    give(policy, 1, added)
}

/// A rule that lets packets on in pairs that have this value of a field.
fn rule(alloc: Global, number: u16, field: Field, value: u64, action: &Action) -> Rule {
    let mut items = Items::new(alloc);
    let _ = items.push(Item::Range {
        low: value,
        high: value,
    });
    let mut when = Items::new(alloc);
    let _ = when.push(Cond { field, items });
    Rule {
        number,
        priority: 10,
        when,
        action: *action,
        stateful: true,
        last: false,
    }
}

/// Adds a group of this direction. Its one rule lets packets on in pairs that have this value of a field.
fn add_rule(
    alloc: Global,
    policy: &mut Policy,
    layer: u16,
    dir: Dir,
    field: Field,
    value: u64,
    action: &Action,
) -> bool {
    let group = match dir {
        Dir::Out => 1,
        Dir::In => 2,
    };
    if !add_group(alloc, policy, layer, group, dir) {
        return false;
    }
    let rule = rule(alloc, group, field, value, action);
    give(policy, 1, Command::AddRule { layer, group, rule })
}

/// What hides a source behind the public address.
fn hide() -> Action {
    edit(Set {
        src_ip: Some(Ip4::of(PUBLIC)),
        ..UNSET
    })
}

/// What takes a destination to the own address.
fn restore() -> Action {
    edit(Set {
        dst_ip: Some(Ip4::of(OWN)),
        ..UNSET
    })
}

/// A layer that hides what the first host sends behind the public address, and takes what comes in to that
/// address to the own one, both in pairs. All else goes on as it came.
pub fn add_hiding(alloc: Global, policy: &mut Policy, layer: u16, times: (u32, u32)) -> bool {
    let public = u64::from(PUBLIC);
    add_layer(policy, layer, times.0, times.1)
        && add_rule(
            alloc,
            policy,
            layer,
            Dir::Out,
            Field::SrcMac,
            FIRST,
            &hide(),
        )
        && add_rule(
            alloc,
            policy,
            layer,
            Dir::In,
            Field::DstIp,
            public,
            &restore(),
        )
}

/// A layer that makes pairs of what goes out to port 80, and of what comes in to port 1, and edits nothing.
pub fn add_tracking(alloc: Global, policy: &mut Policy, layer: u16, times: (u32, u32)) -> bool {
    add_layer(policy, layer, times.0, times.1)
        && add_rule(
            alloc,
            policy,
            layer,
            Dir::Out,
            Field::DstPort,
            80,
            &Action::Allow,
        )
        && add_rule(
            alloc,
            policy,
            layer,
            Dir::In,
            Field::DstPort,
            1,
            &Action::Allow,
        )
}
