//! Conditions and rules on frames that were read by hand, and rules that are refused.

use crate::rule::samples::{
    ARP, asking, checked, encap, ether, holds, plain, plain6, prefix, prefix6, range, rule, sent,
};
use crate::six_tests::{FAR, HIDDEN, OWN};
use std::alloc::{AllocError, Global};
use vsw_base::{Header, Ip4, Ip6, Items, Mac, Outer, Set, Stack};
use vsw_rule::{Action, BadRule, Field, Item, Rule};

/// ARP under two encapsulations.
fn twice() -> [Header; 7] {
    let [a, b, c] = encap();
    let [d, e, f] = encap();
    [
        a,
        b,
        c,
        d,
        e,
        f,
        ether(0x0200_0000_0099, 0x0200_0000_0001, ARP),
    ]
}

const SET_NONE: Set = Set {
    dst_mac: None,
    src_mac: None,
    src_ip: None,
    dst_ip: None,
    src_port: None,
    dst_port: None,
    src_ip6: None,
    dst_ip6: None,
};

fn edit(decap: bool, encap: Option<Outer>) -> Action {
    Action::Edit {
        decap,
        set: SET_NONE,
        encap,
    }
}

fn outer() -> Outer {
    Outer {
        dst_mac: Mac::of(0x0200_0000_0a02),
        src_mac: Mac::of(0x0200_0000_0a01),
        src_ip: Ip4::of(0xac10_0001),
        dst_ip: Ip4::of(0xac10_0002),
        vni: 5001,
    }
}

/// Fields and items, and whether these hold of the plain packet.
fn edges() -> [(Field, Item, bool); 8] {
    [
        (Field::SrcPort, range(1234, 2000), true),
        (Field::SrcPort, range(1000, 1233), false),
        (Field::SrcPort, range(1235, 1000), false),
        (Field::SrcIp, prefix(0x0a00_0006, 30), true),
        (Field::SrcIp, prefix(0x0a00_0006, 31), false),
        (Field::SrcIp, prefix(0, 0), true),
        (Field::SrcIp, prefix(0x0a00_0005, 33), false),
        (Field::SrcPort, prefix(1234, 32), false),
    ]
}

/// Fields and items, and whether these hold of the plain packet over IPv6.
fn edges6() -> [(Field, Item, bool); 14] {
    [
        (Field::SrcIp6, prefix6(OWN, 128), true),
        (Field::SrcIp6, prefix6(HIDDEN, 128), false),
        // The last bits of both are 0101 and 0100.
        (Field::SrcIp6, prefix6(OWN - 1, 127), true),
        (Field::SrcIp6, prefix6(OWN - 1, 128), false),
        (Field::SrcIp6, prefix6(0, 0), true),
        (Field::SrcIp6, prefix6(0, 1), false),
        (Field::SrcIp6, prefix6(OWN, 129), false),
        (Field::DstIp6, prefix6(FAR, 64), true),
        (
            Field::DstIp6,
            prefix6(FAR + 0x1_0000_0000_0000_0000, 63),
            true,
        ),
        (
            Field::DstIp6,
            prefix6(FAR + 0x1_0000_0000_0000_0000, 64),
            false,
        ),
        (Field::DstIp6, range(0, u64::MAX), false),
        (Field::DstIp6, prefix(0, 0), false),
        (Field::DstIp, prefix6(0, 0), false),
        (Field::DstPort, prefix6(0, 0), false),
    ]
}

/// The place of the first edge at which a stack isn't as told.
fn wrong_edge(
    alloc: Global,
    edges: &[(Field, Item, bool)],
    stack: &Stack,
) -> Result<Option<usize>, AllocError> {
    for place in 0..edges.len() {
        let (field, item, is_held) = edges[place];
        if holds(alloc, field, item, stack)? != is_held {
            return Ok(Some(place));
        }
    }
    Ok(None)
}

#[test]
fn items_hold_up_to_their_edges(rt: HostRuntime) {
    let plain = Stack::of(&plain()).expect(&rt, "it has the shape");
    assert!(rt; wrong_edge(rt.alloc(), &edges(), &plain) == Ok(None));
    let plain6 = Stack::of(&plain6()).expect(&rt, "it has the shape");
    assert!(rt; wrong_edge(rt.alloc(), &edges6(), &plain6) == Ok(None));
    // What holds of an IPv6 address holds of no packet without one.
    assert!(rt; holds(rt.alloc(), Field::SrcIp6, prefix6(0, 0), &plain) == Ok(false));
}

/// Actions of rules that are stateful or not, and whether these match no, one and two
/// encapsulations, of which two are around ARP, and IPv6 without one.
fn needs() -> [(Action, bool, [bool; 4]); 5] {
    [
        (edit(true, None), false, [false, true, true, false]),
        (edit(false, Some(outer())), false, [true, true, false, true]),
        (edit(true, Some(outer())), false, [false, true, true, false]),
        (Action::Allow, true, [true, true, false, true]),
        (Action::Drop, false, [true, true, true, true]),
    ]
}

/// Whether a rule matches a frame, or doesn't, as told.
fn is_matched(rule: &Rule, headers: &[Header], is_match: bool) -> bool {
    match Stack::of(headers) {
        Ok(stack) => rule.matches(&stack) == is_match,
        Err(_) => false,
    }
}

/// Whether a rule matches no, one and two encapsulations and IPv6, as told.
fn are_matched(rule: &Rule, matched: &[bool; 4]) -> bool {
    let [plainly, once, doubly, over_ipv6] = *matched;
    is_matched(rule, &plain(), plainly)
        && is_matched(rule, &sent(), once)
        && is_matched(rule, &twice(), doubly)
        && is_matched(rule, &plain6(), over_ipv6)
}

/// The place of the first action that asks for something else.
fn wrong_need(alloc: Global) -> Option<usize> {
    let needs = needs();
    for place in 0..5 {
        let (action, stateful, matched) = &needs[place];
        if !are_matched(&rule(Items::new(alloc), action, *stateful), matched) {
            return Some(place);
        }
    }
    None
}

#[test]
fn actions_ask_for_what_they_need(rt: HostRuntime) {
    assert!(rt; wrong_need(rt.alloc()) == None);
}

/// An edit of the destination over IPv6 and of nothing else.
fn edit6() -> Action {
    Action::Edit {
        decap: false,
        set: Set {
            dst_ip6: Some(Ip6::of(FAR)),
            ..SET_NONE
        },
        encap: None,
    }
}

/// Fields of IPv6 addresses and others, an item of their condition, and what the check answers.
fn refused6() -> [(Field, Item, Result<(), BadRule>); 9] {
    let bad = Err(BadRule::BadRange);
    [
        (Field::SrcIp6, prefix6(OWN, 0), Ok(())),
        (Field::SrcIp6, prefix6(OWN, 128), Ok(())),
        (Field::DstIp6, prefix6(OWN, 129), bad),
        (Field::DstIp6, prefix6(OWN, 255), bad),
        (Field::SrcIp6, range(0, 0), bad),
        (Field::DstIp6, prefix(0, 0), bad),
        (Field::SrcIp, prefix6(0, 0), bad),
        (Field::OuterDstIp, prefix6(0, 32), bad),
        (Field::DstPort, prefix6(0, 0), bad),
    ]
}

/// The place of the first item of those to which the check of a stateful edit answers otherwise.
fn wrong_answer6(alloc: Global) -> Result<Option<usize>, AllocError> {
    let refused = refused6();
    for place in 0..9 {
        let (field, item, answer) = &refused[place];
        let when = asking(alloc, *field, *item)?;
        if checked(when, &edit6(), true) != (*answer, true) {
            return Ok(Some(place));
        }
    }
    Ok(None)
}

/// Actions of rules that are stateful or not, an item of their condition, and what the check
/// answers.
fn refused() -> [(Action, bool, Item, Result<(), BadRule>); 6] {
    [
        (
            edit(true, None),
            true,
            range(2, 1),
            Err(BadRule::StatefulAction),
        ),
        (
            edit(false, None),
            true,
            range(2, 1),
            Err(BadRule::EmptyAction),
        ),
        (Action::Allow, true, range(2, 1), Err(BadRule::BadRange)),
        (
            Action::Allow,
            true,
            range(0, 0x1_0000),
            Err(BadRule::BadRange),
        ),
        (Action::Allow, true, prefix(1, 32), Err(BadRule::BadRange)),
        (Action::Drop, false, range(0, 0xffff), Ok(())),
    ]
}

/// The place of the first rule to which the check answers otherwise.
fn wrong_answer(alloc: Global) -> Result<Option<usize>, AllocError> {
    let refused = refused();
    for place in 0..6 {
        let (action, stateful, item, answer) = &refused[place];
        let when = asking(alloc, Field::DstPort, *item)?;
        if checked(when, action, *stateful) != (*answer, true) {
            return Ok(Some(place));
        }
    }
    Ok(None)
}

#[test]
fn bad_rules_are_refused_in_order(rt: HostRuntime) {
    assert!(rt; wrong_answer(rt.alloc()) == Ok(None) && wrong_answer6(rt.alloc()) == Ok(None));
    assert!(rt; BadRule::BadRange.number() == 3 && BadRule::BadRange.name() == "BadRange");
}
