//! Two layers of two controllers. The first translates: packets of 10.0.0.0/24 come from port 40000 of
//! 192.0.2.7 behind it, and those to that address go to port 1234 of 10.0.0.5. The second puts packets of
//! that address in network 5001, and takes packets to it out of there. It drops packets to port 23, and
//! makes pairs of those to port 80 and of answers from there, which stay as they are.

ghost use Rattle.std.specs.Prelude.{◌<◌, ◌^◌};

use crate::given::give;
use std::alloc::Global;
use vsw_base::{Dir, Ip4, Ip6, Items, Mac, Outer, Prefix, Prefix6, Set};
use vsw_policy::{Command, LayerSpec, Policy};
use vsw_rule::{Action, Cond, Field, Item, Rule};

/// The address that stands for those of 10.0.0.0/24.
pub const PUBLIC: u32 = 0xc000_0207;

const UNSET: Set = Set {
    dst_mac: None,
    src_mac: None,
    src_ip: None,
    dst_ip: None,
    src_port: None,
    dst_port: None,
    src_ip6: None,
    dst_ip6: None,
};

fn hide_source() -> Action {
    Action::Edit {
        decap: false,
        set: Set {
            src_ip: Some(Ip4::of(PUBLIC)),
            src_port: Some(40_000),
            ..UNSET
        },
        encap: None,
    }
}

fn restore_destination() -> Action {
    Action::Edit {
        decap: false,
        set: Set {
            dst_ip: Some(Ip4::of(0x0a00_0005)),
            dst_port: Some(1234),
            ..UNSET
        },
        encap: None,
    }
}

fn put_in_network() -> Action {
    Action::Edit {
        decap: false,
        set: UNSET,
        encap: Some(Outer {
            dst_mac: Mac::of(0x0200_0000_0a02),
            src_mac: Mac::of(0x0200_0000_0a01),
            src_ip: Ip4::of(0xac10_0001),
            dst_ip: Ip4::of(0xac10_0002),
            vni: 5001,
        }),
    }
}

fn take_out() -> Action {
    Action::Edit {
        decap: true,
        set: UNSET,
        encap: None,
    }
}

/// A condition on one value of a field.
fn is(alloc: Global, field: Field, value: u64) -> Cond {
    let mut items = Items::new(alloc);
    let _ = items.push(Item::Range {
        low: value,
        high: value,
    });
    Cond { field, items }
}

/// One condition.
fn only(alloc: Global, condition: Cond) -> Items<Cond> {
    let mut when = Items::new(alloc);
    let _ = when.push(condition);
    when
}

/// The source address is one of 10.0.0.0/24.
fn is_own(alloc: Global) -> Cond {
    let mut items = Items::new(alloc);
    let _ = items.push(Item::Prefix(Prefix {
        value: Ip4::of(0x0a00_0000),
        bits: 24,
    }));
    Cond {
        field: Field::SrcIp,
        items,
    }
}

/// The packet is in network 5001, and goes to the public address.
fn is_for_us(alloc: Global) -> Items<Cond> {
    let mut when = only(alloc, is(alloc, Field::Vni, 5001));
    let _ = when.push(is(alloc, Field::DstIp, u64::from(PUBLIC)));
    when
}

fn rule(number: u16, when: Items<Cond>, action: &Action, stateful: bool) -> Rule {
    Rule {
        number,
        priority: number,
        when,
        action: *action,
        stateful,
        last: false,
    }
}

fn add_layer(layer: u16) -> Command {
    Command::AddLayer {
        spec: LayerSpec {
            layer,
            order: layer,
            allow_out: false,
            allow_in: false,
            pairs: 16,
            idle: 240,
            linger: 10,
        },
    }
}

fn add_group(alloc: Global, layer: u16, group: u16, dir: Dir) -> Command {
    Command::AddGroup {
        layer,
        group,
        dir,
        when: Items::new(alloc),
    }
}

fn add_rule(layer: u16, group: u16, rule: Rule) -> Command {
    Command::AddRule { layer, group, rule }
}

/// Rule 5 of layer 10, and rule 9 for inbound packets.
fn to_public(alloc: Global) -> Rule {
    rule(5, only(alloc, is_own(alloc)), &hide_source(), true)
}

fn to_own(alloc: Global) -> Rule {
    let public = is(alloc, Field::DstIp, u64::from(PUBLIC));
    rule(9, only(alloc, public), &restore_destination(), true)
}

/// Layer 10 of controller 1: group 1 with rule 5, and for inbound packets group 2 with rule 9.
fn add_translation(alloc: Global, policy: &mut Policy) -> bool {
    give(policy, 1, add_layer(10))
        && give(policy, 1, add_group(alloc, 10, 1, Dir::Out))
        && give(policy, 1, add_rule(10, 1, to_public(alloc)))
        && give(policy, 1, add_group(alloc, 10, 2, Dir::In))
        && give(policy, 1, add_rule(10, 2, to_own(alloc)))
}

/// A stateful rule that allows packets with this value of a field.
fn web(alloc: Global, number: u16, field: Field) -> Rule {
    rule(
        number,
        only(alloc, is(alloc, field, 80)),
        &Action::Allow,
        true,
    )
}

/// Rules 7 and 8 of layer 20, and rule 3 for inbound packets.
fn stop(alloc: Global) -> Rule {
    let telnet = is(alloc, Field::DstPort, 23);
    rule(7, only(alloc, telnet), &Action::Drop, false)
}

fn into_network(alloc: Global) -> Rule {
    let public = is(alloc, Field::SrcIp, u64::from(PUBLIC));
    rule(8, only(alloc, public), &put_in_network(), false)
}

fn out_of_network(alloc: Global) -> Rule {
    rule(3, is_for_us(alloc), &take_out(), false)
}

/// Layer 20 of controller 2, and its group 1 with rules 6, which makes pairs, 7, which drops, and 8.
fn add_network(alloc: Global, policy: &mut Policy) -> bool {
    give(policy, 2, add_layer(20))
        && give(policy, 2, add_group(alloc, 20, 1, Dir::Out))
        && give(policy, 2, add_rule(20, 1, web(alloc, 6, Field::DstPort)))
        && give(policy, 2, add_rule(20, 1, stop(alloc)))
        && give(policy, 2, add_rule(20, 1, into_network(alloc)))
}

/// Group 2 of layer 20, for inbound packets, with rules 3 and 4, which makes pairs.
fn add_way_back(alloc: Global, policy: &mut Policy) -> bool {
    give(policy, 2, add_group(alloc, 20, 2, Dir::In))
        && give(policy, 2, add_rule(20, 2, out_of_network(alloc)))
        && give(policy, 2, add_rule(20, 2, web(alloc, 4, Field::SrcPort)))
}

/// The address that stands for those over IPv6.
pub const HIDDEN: u128 = 0xfd00_0000_0000_0000_0000_0000_0000_0077;

fn hide_address() -> Action {
    Action::Edit {
        decap: false,
        set: Set {
            src_ip6: Some(Ip6::of(HIDDEN)),
            src_port: Some(40_000),
            ..UNSET
        },
        encap: None,
    }
}

/// The destination address is one of fd00::/64.
fn is_near(alloc: Global) -> Cond {
    let mut items = Items::new(alloc);
    let _ = items.push(Item::Prefix6(Prefix6 {
        value: Ip6::of(0xfd00_0000_0000_0000_0000_0000_0000_0000),
        bits: 64,
    }));
    Cond {
        field: Field::DstIp6,
        items,
    }
}

/// Rule 5 of one layer's group 1 has packets to fd00::/64 come from port 40000 of the hidden address, and rule 6 lets all
/// others go. Both make pairs.
pub fn hiding_layer(alloc: Global) -> Option<Policy> {
    let Ok(mut policy) = Policy::new(alloc, &[1]) else {
        return None;
    };
    let near = rule(5, only(alloc, is_near(alloc)), &hide_address(), true);
    let others = rule(6, Items::new(alloc), &Action::Allow, true);
    let added = give(&mut policy, 1, add_layer(10))
        && give(&mut policy, 1, add_group(alloc, 10, 1, Dir::Out))
        && give(&mut policy, 1, add_rule(10, 1, near))
        && give(&mut policy, 1, add_rule(10, 1, others));
    if added { Some(policy) } else { None }
}

/// Both layers, if memory suffices.
pub fn two_layers(alloc: Global) -> Option<Policy> {
    let Ok(mut policy) = Policy::new(alloc, &[1, 2]) else {
        return None;
    };
    let added = add_translation(alloc, &mut policy)
        && add_network(alloc, &mut policy)
        && add_way_back(alloc, &mut policy);
    if added { Some(policy) } else { None }
}
