//! Stacks of each kind.

use crate::six_tests::six;
use vsw_base::{Header, Ip4, Mac, Stack};

const IPV4: u16 = 0x0800;

const IPV6: u16 = 0x86dd;

fn ether(kind: u16) -> Header {
    Header::Ether {
        dst: Mac::of(0x0200_0000_0099),
        src: Mac::of(0x0200_0000_0001),
        kind,
    }
}

fn ip(proto: u8, part: bool) -> Header {
    Header::Ip {
        src: Ip4::of(0x0a00_0005),
        dst: Ip4::of(0x0a00_0009),
        proto,
        part,
    }
}

fn ports(proto: u8) -> Header {
    Header::Ports {
        proto,
        src: 1234,
        dst: 53,
    }
}

fn vxlan(vni: u32) -> Header {
    Header::Vxlan { vni }
}

/// An encapsulation in network `vni`.
fn encap(vni: u32) -> [Header; 3] {
    [ether(IPV4), ip(17, false), vxlan(vni)]
}

/// Whether these are the headers of a frame without encapsulations.
fn is_plain(headers: &[Header]) -> bool {
    match Stack::of(headers) {
        Ok(stack) => {
            stack.headers() == headers && stack.encaps() == 0 && stack.inner() == headers
        }
        Err(_) => false,
    }
}

#[test]
fn plain_stacks_are_taken(rt: HostRuntime) {
    let taken = [
        is_plain(&[ether(0x0806)]),
        is_plain(&[ether(IPV4), ip(1, false)]),
        is_plain(&[ether(IPV4), ip(17, true)]),
        is_plain(&[ether(IPV4), ip(6, false), ports(6)]),
        is_plain(&[ether(IPV6), six(58)]),
        is_plain(&[ether(IPV6), six(17), ports(17)]),
    ];
    assert!(rt; taken == [true; 6]);
}

/// How many encapsulations there are, if the inner header is that of ARP.
fn around_arp(headers: &[Header]) -> Option<u8> {
    let stack = Stack::of(headers).ok()?;
    if stack.inner() == [ether(0x0806)].as_slice() {
        Some(stack.encaps())
    } else {
        None
    }
}

fn are_same(one: &[Header], other: &[Header]) -> Option<bool> {
    let one = Stack::of(one).ok()?;
    Some(one.is_same(&Stack::of(other).ok()?))
}

fn once() -> [Header; 4] {
    let [a, b, c] = encap(0xff_ffff);
    [a, b, c, ether(0x0806)]
}

fn twice() -> [Header; 7] {
    let [a, b, c] = encap(0xff_ffff);
    let [d, e, f] = encap(5001);
    [a, b, c, d, e, f, ether(0x0806)]
}

#[test]
fn encapsulated_stacks_are_taken(rt: HostRuntime) {
    let once = once();
    let twice = twice();
    assert!(rt; (around_arp(&once), around_arp(&twice)) == (Some(1), Some(2)));
    let same = (are_same(&twice, &twice), are_same(&twice, &once));
    assert!(rt; same == (Some(true), Some(false)));
}

/// Whether these aren't the headers of a frame.
fn is_bad(headers: &[Header]) -> bool {
    Stack::of(headers).is_err()
}

#[test]
fn ports_stand_under_whole_tcp_and_udp_alone(rt: HostRuntime) {
    let refused = [
        is_bad(&[ether(IPV4), ip(17, true), ports(17)]),
        is_bad(&[ether(IPV4), ip(17, false)]),
        is_bad(&[ether(IPV4), ip(6, false), ports(17)]),
        is_bad(&[ether(IPV6), six(17)]),
        is_bad(&[ether(IPV6), six(58), ports(17)]),
        is_bad(&[ether(IPV6), six(17), ports(6)]),
        is_bad(&[ether(IPV6)]),
        is_bad(&[ether(IPV6), ip(1, false)]),
        is_bad(&[ether(IPV4), six(58)]),
    ];
    assert!(rt; refused == [true; 9]);
}

#[test]
fn other_encapsulations_are_refused(rt: HostRuntime) {
    let large = [ether(IPV4), ip(17, false), vxlan(0x100_0000), ether(0x0806)];
    let thrice = [
        ether(IPV4),
        ip(17, false),
        vxlan(1),
        ether(IPV4),
        ip(17, false),
        vxlan(2),
        ether(IPV4),
        ip(17, false),
        vxlan(3),
        ether(0x0806),
    ];
    let over_ipv6 = [ether(IPV6), six(17), vxlan(1), ether(0x0806)];
    let refused = [
        is_bad(&encap(5001)),
        is_bad(&large),
        is_bad(&thrice),
        is_bad(&over_ipv6),
    ];
    assert!(rt; refused == [true; 4]);
}
