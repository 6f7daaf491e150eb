//! The edits of two layers as one, on frames that were read by hand.

ghost use Rattle.std.specs.Prelude.{◌<◌, ◌^◌, IsTrue};
ghost use Rattle.vsw_rule.specs.Edit.{goes_on};
ghost use Rattle.vsw_rule.specs.Match.{can_do};

use crate::rule::samples::{
    ARP, IPV4, encap, ether, kept, plain, plain6, ports, query, query6, sent, udp,
};
use crate::six_tests::{FAR, HIDDEN, OWN, WORLD};
use vsw_base::{Header, Ip4, Ip6, Mac, Outer, Set, Stack};
use vsw_rule::{Action, act_of, compose};
use vsw_transpose::{Act, Change, Transposition};

/// UDP from port 53 of 10.0.0.9, to this port of this address.
fn answer(dst: u32, dst_port: u16) -> [Header; 3] {
    [
        ether(0x0200_0000_0001, 0x0200_0000_0099, IPV4),
        udp(0x0a00_0009, dst),
        ports(53, dst_port),
    ]
}

/// The answer to port 40000 of 192.0.2.7, encapsulated from 172.16.0.2 to 172.16.0.1.
fn received() -> [Header; 6] {
    let [d, e, f] = answer(0xc000_0207, 40_000);
    [
        ether(0x0200_0000_0a01, 0x0200_0000_0a02, IPV4),
        udp(0xac10_0002, 0xac10_0001),
        Header::Vxlan { vni: 5001 },
        d,
        e,
        f,
    ]
}

fn nothing() -> Set {
    Set {
        dst_mac: None,
        src_mac: None,
        src_ip: None,
        dst_ip: None,
        src_port: None,
        dst_port: None,
        src_ip6: None,
        dst_ip6: None,
    }
}

/// The source becomes this port of this address.
fn set_source(address: u32, port: u16) -> Action {
    Action::Edit {
        decap: false,
        set: Set {
            src_ip: Some(Ip4::of(address)),
            src_port: Some(port),
            ..nothing()
        },
        encap: None,
    }
}

/// The destination becomes port 1234 of 10.0.0.5.
fn set_destination() -> Action {
    Action::Edit {
        decap: false,
        set: Set {
            dst_ip: Some(Ip4::of(0x0a00_0005)),
            dst_port: Some(1234),
            ..nothing()
        },
        encap: None,
    }
}

fn put_in_network(vni: u32) -> Action
    requires { vni < 2 ^ 24 }
{
    Action::Edit {
        decap: false,
        set: nothing(),
        encap: Some(Outer {
            dst_mac: Mac::of(0x0200_0000_0a02),
            src_mac: Mac::of(0x0200_0000_0a01),
            src_ip: Ip4::of(0xac10_0001),
            dst_ip: Ip4::of(0xac10_0002),
            vni,
        }),
    }
}

fn take_out() -> Action {
    Action::Edit {
        decap: true,
        set: nothing(),
        encap: None,
    }
}

/// Whether the action can be done to the stack.
fn is_possible(action: &Action, stack: &Stack) -> bool
    ensures goes_on { IsTrue result → IsTrue (goes_on action.now) }
    ensures can { IsTrue result → IsTrue (can_do action.now stack.now) }
{
    match action {
        Action::Allow => true,
        Action::Drop => false,
        Action::Edit { decap: true, .. } => stack.encaps() > 0,
        Action::Edit { encap: Some(_), .. } => stack.encaps() < 2,
        Action::Edit { .. } => true,
    }
}

/// What two actions do to a frame, one after the other, if they can be done.
fn in_turn(first: &Action, second: &Action, headers: &[Header]) -> Option<(Stack, Transposition)> {
    let stack = Stack::of(headers).ok()?;
    if !is_possible(first, &stack) {
        return None;
    }
    let one = act_of(first, &stack);
    let between = one.apply(&stack);
    if !is_possible(second, &between) {
        return None;
    }
    let two = act_of(second, &between);
    let both = compose(&one, &two, &stack);
    Some((stack, both))
}

/// How many encapsulations two actions in turn keep, if they make the one frame of the other.
fn kept_in_turn(first: &Action, second: &Action, from: &[Header], to: &[Header]) -> Option<u8> {
    let (stack, by) = in_turn(first, second, from)?;
    kept(&by, &stack, to)
}

/// Whether two actions in turn do these acts.
fn acts_as(first: &Action, second: &Action, headers: &[Header], acts: &[Act]) -> Option<bool> {
    let (_, by) = in_turn(first, second, headers)?;
    Some(by.is_same(&Transposition::of(acts).ok()?))
}

/// The acts by which the query of port 1234 of 10.0.0.5 is sent.
fn sending() -> [Act; 6] {
    let [a, b, c] = encap();
    [
        Act::Push(a),
        Act::Push(b),
        Act::Push(c),
        Act::Ignore,
        Act::Modify(Change::Ip {
            src: Some(Ip4::of(0xc000_0207)),
            dst: None,
        }),
        Act::Modify(Change::Ports {
            src: Some(40_000),
            dst: None,
        }),
    ]
}

#[test]
fn a_query_is_edited_and_put_in_a_network(rt: HostRuntime) {
    let first = set_source(0xc000_0207, 40_000);
    let second = put_in_network(5001);
    let kept = kept_in_turn(&first, &second, &plain(), &sent());
    let is_sent = acts_as(&first, &second, &plain(), &sending());
    assert!(rt; (kept, is_sent) == (Some(0), Some(true)));
}

#[test]
fn an_answer_is_taken_out_and_edited(rt: HostRuntime) {
    let received = received();
    let delivered = answer(0x0a00_0005, 1234);
    let kept = kept_in_turn(&take_out(), &set_destination(), &received, &delivered);
    let again = in_turn(&take_out(), &take_out(), &received);
    assert!(rt; kept == Some(0) && again.is_none());
}

#[test]
fn what_is_written_last_stands(rt: HostRuntime) {
    let first = set_source(0xc000_0208, 1);
    let second = set_source(0xc000_0207, 40_000);
    let edited = kept_in_turn(&first, &second, &plain(), &query(0xc000_0207, 40_000));
    let taken = kept_in_turn(&first, &take_out(), &sent(), &query(0xc000_0208, 1));
    assert!(rt; (edited, taken) == (Some(0), Some(0)));
}

/// Whether two actions in turn are the transposition that leaves the frame as it is.
fn is_none(first: &Action, second: &Action, headers: &[Header]) -> Option<bool> {
    let (stack, by) = in_turn(first, second, headers)?;
    Some(by.is_same(&Transposition::none(&stack)))
}

#[test]
fn what_was_pushed_is_popped_before_the_frames_own(rt: HostRuntime) {
    let sent = sent();
    let pushed = put_in_network(7);
    let kept = kept_in_turn(&pushed, &take_out(), &sent, &sent);
    let is_none = is_none(&pushed, &take_out(), &sent);
    let other = kept_in_turn(&take_out(), &put_in_network(5001), &sent, &sent);
    assert!(rt; (kept, is_none, other) == (Some(1), Some(true), Some(0)));
}

/// The query of port 1234 of 10.0.0.5 in network 7, and in network 5001 around it.
fn twice() -> [Header; 9] {
    let [a, b, c] = encap();
    let [d, e, _] = encap();
    let [f, g, h] = plain();
    [a, b, c, d, e, Header::Vxlan { vni: 7 }, f, g, h]
}

#[test]
fn the_last_network_stands_outside(rt: HostRuntime) {
    let twice = twice();
    let first = put_in_network(7);
    let second = put_in_network(5001);
    let kept = kept_in_turn(&first, &second, &plain(), &twice);
    assert!(rt; kept == Some(0) && in_turn(&first, &second, &twice).is_none());
}

#[test]
fn what_a_frame_has_not_is_not_written(rt: HostRuntime) {
    let arp = [ether(0x0200_0000_0099, 0x0200_0000_0001, ARP)];
    let kept = kept_in_turn(&set_destination(), &Action::Allow, &arp, &arp);
    assert!(rt; kept == Some(0) && in_turn(&Action::Allow, &Action::Drop, &arp).is_none());
    let first = set_over_ipv6(Some(HIDDEN), Some(WORLD));
    let kept = kept_in_turn(&first, &Action::Allow, &plain(), &query(1, 1234));
    assert!(rt; kept == Some(0));
}

/// These addresses of IPv6, and 0.0.0.1 as the source over IPv4.
fn set_over_ipv6(src: Option<u128>, dst: Option<u128>) -> Action {
    Action::Edit {
        decap: false,
        set: Set {
            src_ip: Some(Ip4::of(1)),
            src_ip6: address(src),
            dst_ip6: address(dst),
            ..nothing()
        },
        encap: None,
    }
}

fn address(number: Option<u128>) -> Option<Ip6> {
    match number {
        Some(number) => Some(Ip6::of(number)),
        None => None,
    }
}

/// Two edits over IPv6, and the addresses that they leave.
type Edits = (
    (Option<u128>, Option<u128>),
    (Option<u128>, Option<u128>),
    (u128, u128),
);

const EDITS: [Edits; 5] = [
    ((None, None), (Some(HIDDEN), None), (HIDDEN, FAR)),
    ((Some(HIDDEN), None), (None, Some(WORLD)), (HIDDEN, WORLD)),
    ((None, Some(WORLD)), (Some(HIDDEN), None), (HIDDEN, WORLD)),
    ((Some(1), Some(2)), (Some(HIDDEN), None), (HIDDEN, 2)),
    ((Some(1), Some(2)), (Some(OWN), Some(FAR)), (OWN, FAR)),
];

/// Whether two edits in turn leave these addresses, and the IPv4 address that they set beside is left out.
fn is_left(edits: &Edits) -> bool {
    let ((src, dst), (last_src, last_dst), (left_src, left_dst)) = *edits;
    let first = set_over_ipv6(src, dst);
    let second = set_over_ipv6(last_src, last_dst);
    kept_in_turn(&first, &second, &plain6(), &query6(left_src, left_dst)) == Some(0)
}

/// The place of the first edits that leave others.
fn wrong_edits(edits: &[Edits]) -> Option<usize> {
    for place in 0..edits.len() {
        if !is_left(&edits[place]) {
            return Some(place);
        }
    }
    None
}

#[test]
fn addresses_of_ipv6_are_set_one_after_the_other(rt: HostRuntime) {
    assert!(rt; wrong_edits(&EDITS) == None);
}
