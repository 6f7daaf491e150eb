//! Every field on every kind of stack, and the edges of what a rule may ask of it.

ghost use Rattle.std.specs.Prelude.{◌<◌};

use crate::rule::samples::{
    ARP, IPV4, asking, checked, encap, ether, holds, plain, plain6, prefix, query, range, sent, udp,
};
use std::alloc::{AllocError, Global};
use vsw_base::{BadShape, Header, Ip4, Stack};
use vsw_rule::{Action, BadRule, Field, Item};

/// A field: whether its values are IPv4 addresses, the greatest that it can have, and its values on
/// ARP, on a fragment, on UDP under no, one and two encapsulations, and on UDP over IPv6.
#[derive(Clone, Copy)]
struct Row {
    field: Field,
    is_address: bool,
    greatest: u64,
    values: [Option<u64>; 6],
}

/// The greatest values of an Ethernet address, of an IPv4 address and of 16 bits.
const MAC: u64 = 0xffff_ffff_ffff;

const ADDRESS: u64 = 0xffff_ffff;

const WORD: u64 = 0xffff;

// Ethernet: ARP goes to all, and everything else to 02:00:00:00:00:99.
const ALL: Option<u64> = Some(0xffff_ffff_ffff);

const DST: Option<u64> = Some(0x0200_0000_0099);

const SRC: Option<u64> = Some(0x0200_0000_0001);

const ARP_KIND: Option<u64> = Some(0x0806);

const IP_KIND: Option<u64> = Some(0x0800);

const SIX_KIND: Option<u64> = Some(0x86dd);

// IPv4: 10.0.0.5, which is 192.0.2.7 where it is encapsulated, to 10.0.0.9, by UDP.
const FIVE: Option<u64> = Some(0x0a00_0005);

const SEVEN: Option<u64> = Some(0xc000_0207);

const NINE: Option<u64> = Some(0x0a00_0009);

const UDP: Option<u64> = Some(17);

const YES: Option<u64> = Some(1);

const NO: Option<u64> = Some(0);

// Ports: 1234, which is 40000 where it is encapsulated, to 53.
const PLAIN: Option<u64> = Some(1234);

const OTHER: Option<u64> = Some(40_000);

const DNS: Option<u64> = Some(53);

fn rows() -> [Row; 14] {
    [
        Row {
            field: Field::DstMac,
            is_address: false,
            greatest: MAC,
            values: [ALL, DST, DST, DST, DST, DST],
        },
        Row {
            field: Field::SrcMac,
            is_address: false,
            greatest: MAC,
            values: [SRC, SRC, SRC, SRC, SRC, SRC],
        },
        Row {
            field: Field::Kind,
            is_address: false,
            greatest: WORD,
            values: [ARP_KIND, IP_KIND, IP_KIND, IP_KIND, IP_KIND, SIX_KIND],
        },
        Row {
            field: Field::SrcIp,
            is_address: true,
            greatest: ADDRESS,
            values: [None, FIVE, FIVE, SEVEN, SEVEN, None],
        },
        Row {
            field: Field::DstIp,
            is_address: true,
            greatest: ADDRESS,
            values: [None, NINE, NINE, NINE, NINE, None],
        },
        Row {
            field: Field::Proto,
            is_address: false,
            greatest: 255,
            values: [None, UDP, UDP, UDP, UDP, UDP],
        },
        Row {
            field: Field::Part,
            is_address: false,
            greatest: 1,
            values: [None, YES, NO, NO, NO, None],
        },
        Row {
            field: Field::SrcPort,
            is_address: false,
            greatest: WORD,
            values: [None, None, PLAIN, OTHER, OTHER, PLAIN],
        },
        Row {
            field: Field::DstPort,
            is_address: false,
            greatest: WORD,
            values: [None, None, DNS, DNS, DNS, DNS],
        },
        Row {
            field: Field::OuterDstMac,
            is_address: false,
            greatest: MAC,
            values: [
                None,
                None,
                None,
                Some(0x200_0000_0a02),
                Some(0x200_0000_0b02),
                None,
            ],
        },
        Row {
            field: Field::OuterSrcMac,
            is_address: false,
            greatest: MAC,
            values: [
                None,
                None,
                None,
                Some(0x200_0000_0a01),
                Some(0x200_0000_0b01),
                None,
            ],
        },
        Row {
            field: Field::OuterSrcIp,
            is_address: true,
            greatest: ADDRESS,
            values: [None, None, None, Some(0xac10_0001), Some(0xac10_0003), None],
        },
        Row {
            field: Field::OuterDstIp,
            is_address: true,
            greatest: ADDRESS,
            values: [None, None, None, Some(0xac10_0002), Some(0xac10_0004), None],
        },
        Row {
            field: Field::Vni,
            is_address: false,
            greatest: 0xff_ffff,
            values: [None, None, None, Some(5001), Some(7), None],
        },
    ]
}

/// ARP to all.
fn arp() -> [Header; 1] {
    [ether(0xffff_ffff_ffff, 0x0200_0000_0001, ARP)]
}

/// A fragment of UDP from 10.0.0.5 to 10.0.0.9.
fn fragment() -> [Header; 2] {
    let ip = Header::Ip {
        src: Ip4::of(0x0a00_0005),
        dst: Ip4::of(0x0a00_0009),
        proto: 17,
        part: true,
    };
    [ether(0x0200_0000_0099, 0x0200_0000_0001, IPV4), ip]
}

/// The encapsulated query under an encapsulation in network 7, from 172.16.0.3 to 172.16.0.4.
fn twice() -> [Header; 9] {
    let [a, b, c] = encap();
    let [d, e, f] = query(0xc000_0207, 40_000);
    let outer = ether(0x0200_0000_0b02, 0x0200_0000_0b01, IPV4);
    let far = udp(0xac10_0003, 0xac10_0004);
    [outer, far, Header::Vxlan { vni: 7 }, a, b, c, d, e, f]
}

/// A stack of the kind at this place of a row.
fn stack(kind: usize) -> Result<Stack, BadShape> {
    match kind {
        0 => Stack::of(&arp()),
        1 => Stack::of(&fragment()),
        2 => Stack::of(&plain()),
        3 => Stack::of(&sent()),
        4 => Stack::of(&twice()),
        _ => Stack::of(&plain6()),
    }
}

/// Whether each item holds of a field, or doesn't, as it says.
fn are_held(
    alloc: Global,
    field: Field,
    items: &[(Item, bool)],
    stack: &Stack,
) -> Result<bool, AllocError> {
    for (item, is_held) in items {
        if holds(alloc, field, *item, stack)? != *is_held {
            return Ok(false);
        }
    }
    Ok(true)
}

/// Ranges and prefixes around a field's value, and whether they hold: those that end beside it
/// don't.
fn items_around(value: u64, is_address: bool) -> [(Item, bool); 11] {
    let near = (value % 0x1_0000_0000) as u32;
    [
        (range(value, value), true),
        (range(0, value), true),
        (range(value, u64::MAX), true),
        (range(0, value.saturating_sub(1)), value == 0),
        (range(value.saturating_add(1), u64::MAX), false),
        (range(value.saturating_add(1), value), false),
        (prefix(near, 32), is_address),
        (prefix(near ^ 1, 31), is_address),
        (prefix(near ^ 1, 32), false),
        (prefix(0, 0), is_address),
        (prefix(near, 33), false),
    ]
}

/// Whether a field has this value. Of one that a stack hasn't, no range and no prefix holds.
fn has_value(
    alloc: Global,
    row: &Row,
    value: Option<u64>,
    stack: &Stack,
) -> Result<bool, AllocError> {
    match value {
        None => {
            let items = [(range(0, u64::MAX), false), (prefix(0, 0), false)];
            are_held(alloc, row.field, &items, stack)
        }
        Some(value) => {
            let items = items_around(value, row.is_address);
            are_held(alloc, row.field, &items, stack)
        }
    }
}

/// The place of the first field that has another value on a stack of this kind.
fn wrong_field(
    alloc: Global,
    rows: &[Row],
    kind: usize,
    stack: &Stack,
) -> Result<Option<usize>, AllocError>
    requires { kind < 6 }
{
    for place in 0..rows.len() {
        let row = &rows[place];
        if !has_value(alloc, row, row.values[kind], stack)? {
            return Ok(Some(place));
        }
    }
    Ok(None)
}

/// The first kind of stack with a field that has another value, and the field's place.
fn wrong_value(alloc: Global, rows: &[Row]) -> Option<Option<(usize, usize)>> {
    for kind in 0..6 {
        let stack = stack(kind).ok()?;
        if let Some(place) = wrong_field(alloc, rows, kind, &stack).ok()? {
            return Some(Some((kind, place)));
        }
    }
    Some(None)
}

#[test]
fn every_field_has_its_value_on_every_kind_of_stack(rt: HostRuntime) {
    assert!(rt; wrong_value(rt.alloc(), &rows()) == Some(None));
}

/// Ranges and prefixes that a rule may ask of a field with this greatest value, and those that it
/// may not.
fn items_up_to(greatest: u64, is_address: bool) -> [(Item, bool); 11] {
    let beyond = greatest.saturating_add(1);
    [
        (range(0, 0), true),
        (range(0, greatest), true),
        (range(greatest, greatest), true),
        (range(0, beyond), false),
        (range(beyond, beyond), false),
        (range(greatest, 0), false),
        (range(1, 0), false),
        (prefix(0, 0), is_address),
        (prefix(0x0a00_0005, 24), is_address),
        (prefix(0x0a00_0005, 32), is_address),
        (prefix(0x0a00_0005, 33), false),
    ]
}

/// What the check answers to a rule with a good item, or one that may not be.
fn answer_to(is_good: bool) -> Result<(), BadRule> {
    if is_good {
        Ok(())
    } else {
        Err(BadRule::BadRange)
    }
}

/// The place of the first item of a field to which the check answers otherwise.
fn wrong_item(alloc: Global, row: &Row) -> Result<Option<usize>, AllocError> {
    let items = items_up_to(row.greatest, row.is_address);
    for place in 0..11 {
        let (item, is_good) = items[place];
        let when = asking(alloc, row.field, item)?;
        if checked(when, &Action::Allow, false) != (answer_to(is_good), true) {
            return Ok(Some(place));
        }
    }
    Ok(None)
}

/// The places of the first field and item to which the check answers otherwise.
fn wrong_answer(alloc: Global, rows: &[Row]) -> Result<Option<(usize, usize)>, AllocError> {
    for field in 0..rows.len() {
        if let Some(item) = wrong_item(alloc, &rows[field])? {
            return Ok(Some((field, item)));
        }
    }
    Ok(None)
}

#[test]
fn every_field_is_asked_for_values_that_it_can_have(rt: HostRuntime) {
    assert!(rt; wrong_answer(rt.alloc(), &rows()) == Ok(None));
}
