//! Headers and stacks of frames that were read by hand, conditions and rules.

ghost use Rattle.std.specs.Prelude.{◌<◌, ◌^◌};

use crate::six_tests::{FAR, OWN, ether6};
use std::alloc::{AllocError, Global};
use vsw_base::{Header, Ip4, Ip6, Items, Mac, Prefix, Prefix6, Stack};
use vsw_rule::{Action, BadRule, Cond, Field, Item, Rule};
use vsw_transpose::Transposition;

pub const IPV4: u16 = 0x0800;

pub const ARP: u16 = 0x0806;

pub fn ether(dst: u64, src: u64, kind: u16) -> Header
    requires dst { dst < 2 ^ 48 }
    requires src { src < 2 ^ 48 }
{
    Header::Ether {
        dst: Mac::of(dst),
        src: Mac::of(src),
        kind,
    }
}

pub fn udp(src: u32, dst: u32) -> Header {
    Header::Ip {
        src: Ip4::of(src),
        dst: Ip4::of(dst),
        proto: 17,
        part: false,
    }
}

pub fn ports(src: u16, dst: u16) -> Header {
    Header::Ports {
        proto: 17,
        src,
        dst,
    }
}

/// UDP to port 53 of 10.0.0.9, from this port of this address.
pub fn query(src: u32, src_port: u16) -> [Header; 3] {
    [
        ether(0x0200_0000_0099, 0x0200_0000_0001, IPV4),
        udp(src, 0x0a00_0009),
        ports(src_port, 53),
    ]
}

/// The query of port 1234 of 10.0.0.5.
pub fn plain() -> [Header; 3] {
    query(0x0a00_0005, 1234)
}

/// An encapsulation in network 5001, from 172.16.0.1 to 172.16.0.2.
pub fn encap() -> [Header; 3] {
    [
        ether(0x0200_0000_0a02, 0x0200_0000_0a01, IPV4),
        udp(0xac10_0001, 0xac10_0002),
        Header::Vxlan { vni: 5001 },
    ]
}

/// The query of port 40000 of 192.0.2.7, encapsulated.
pub fn sent() -> [Header; 6] {
    let [a, b, c] = encap();
    let [d, e, f] = query(0xc000_0207, 40_000);
    [a, b, c, d, e, f]
}

pub fn range(low: u64, high: u64) -> Item {
    Item::Range { low, high }
}

pub fn prefix(value: u32, bits: u8) -> Item {
    Item::Prefix(Prefix {
        value: Ip4::of(value),
        bits,
    })
}

pub fn prefix6(value: u128, bits: u8) -> Item {
    Item::Prefix6(Prefix6 {
        value: Ip6::of(value),
        bits,
    })
}

/// UDP over IPv6 from port 1234 of one address to port 53 of another.
pub fn query6(src: u128, dst: u128) -> [Header; 3] {
    [
        ether6(),
        Header::Six {
            src: Ip6::of(src),
            dst: Ip6::of(dst),
            proto: 17,
        },
        ports(1234, 53),
    ]
}

/// From fd00::5 to fd00::9.
pub fn plain6() -> [Header; 3] {
    query6(OWN, FAR)
}

pub fn condition(alloc: Global, field: Field, item: Item) -> Result<Cond, AllocError> {
    Ok(Cond {
        field,
        items: Items::of(Vec::from_array(alloc, [item])?),
    })
}

/// Whether a field of the stack is in this item.
pub fn holds(alloc: Global, field: Field, item: Item, stack: &Stack) -> Result<bool, AllocError> {
    Ok(condition(alloc, field, item)?.holds(stack))
}

/// The one condition that a field is in this item.
pub fn asking(alloc: Global, field: Field, item: Item) -> Result<Items<Cond>, AllocError> {
    let condition = condition(alloc, field, item)?;
    Ok(Items::of(Vec::from_array(alloc, [condition])?))
}

pub fn rule(when: Items<Cond>, action: &Action, stateful: bool) -> Rule {
    Rule {
        number: 1,
        priority: 10,
        when,
        action: *action,
        stateful,
        last: false,
    }
}

/// What the check answers to a rule, and whether the rule is the same as itself.
pub fn checked(when: Items<Cond>, action: &Action, stateful: bool) -> (Result<(), BadRule>, bool) {
    let rule = rule(when, action, stateful);
    (rule.check(), rule.same(&rule))
}

/// How many encapsulations of a frame are kept, if the transposition makes the other frame of it.
pub fn kept(by: &Transposition, from: &Stack, to: &[Header]) -> Option<u8> {
    let made = Stack::of(to).ok()?;
    if by.fits(from) && by.apply(from).is_same(&made) {
        Some(by.kept())
    } else {
        None
    }
}
