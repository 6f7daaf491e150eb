//! Frames that were read by hand, with their keys, sums and ports.

ghost use Rattle.std.specs.Prelude.{◌<◌, ◌^◌, length};

use crate::six_tests::{FAR, OWN, ether6, six};
use vsw_base::{Addr, Dir, Header, Ip4, Ip6, LayerKey, Mac, Place, Stack};
use vsw_header::{choose_port, flow_sum, key_of, mirror, same_id, same_key, spread, ufid};

const IPV4: u16 = 0x0800;

fn ether(dst: u64, src: u64, kind: u16) -> Header
    requires dst { dst < 2 ^ 48 }
    requires src { src < 2 ^ 48 }
{
    Header::Ether {
        dst: Mac::of(dst),
        src: Mac::of(src),
        kind,
    }
}

fn ip(src: u32, dst: u32, part: bool) -> Header {
    Header::Ip {
        src: Ip4::of(src),
        dst: Ip4::of(dst),
        proto: 17,
        part,
    }
}

/// UDP to port 53 of 10.0.0.9, from this port of this address.
fn query(src: u32, src_port: u16) -> [Header; 3] {
    [
        ether(0x0200_0000_0099, 0x0200_0000_0001, IPV4),
        ip(src, 0x0a00_0009, false),
        Header::Ports {
            proto: 17,
            src: src_port,
            dst: 53,
        },
    ]
}

/// The query of 10.0.0.5.
fn plain() -> [Header; 3] {
    query(0x0a00_0005, 1234)
}

/// An encapsulation in this network, from 172.16.0.1 to 172.16.0.2.
fn encap(vni: u32) -> [Header; 3] {
    [
        ether(0x0200_0000_0a02, 0x0200_0000_0a01, IPV4),
        ip(0xac10_0001, 0xac10_0002, false),
        Header::Vxlan { vni },
    ]
}

/// The query of 192.0.2.7, in network 5001.
fn encapsulated() -> [Header; 6] {
    let [a, b, c] = encap(5001);
    let [d, e, f] = query(0xc000_0207, 40_000);
    [a, b, c, d, e, f]
}

/// It with a further encapsulation about that one, in network 7.
fn encapsulated_twice() -> [Header; 9] {
    let [a, b, c] = encap(7);
    let [d, e, f] = encap(5001);
    let [g, h, i] = query(0xc000_0207, 40_000);
    [a, b, c, d, e, f, g, h, i]
}

/// The answer to the query of 192.0.2.7.
fn reply() -> [Header; 3] {
    [
        ether(0x0200_0000_0001, 0x0200_0000_0099, IPV4),
        ip(0x0a00_0009, 0xc000_0207, false),
        Header::Ports {
            proto: 17,
            src: 53,
            dst: 40_000,
        },
    ]
}

fn encapsulated_reply() -> [Header; 6] {
    let [a, b, c] = encap(5001);
    let [d, e, f] = reply();
    [a, b, c, d, e, f]
}

/// The key of the query of 10.0.0.5.
fn plain_key() -> LayerKey {
    LayerKey {
        encaps: 0,
        vni_outer: 0,
        vni_second: 0,
        src: Addr::Four(Ip4::of(0x0a00_0005)),
        dst: Addr::Four(Ip4::of(0x0a00_0009)),
        proto: 17,
        part: false,
        src_port: 1234,
        dst_port: 53,
    }
}

/// A frame's sum, and its worker of four.
fn sums(headers: &[Header]) -> Option<(u32, u32)> {
    let stack = Stack::of(headers).ok()?;
    Some((flow_sum(&stack), spread(&stack, 4)))
}

/// UDP from port 1234 of fd00::5 to port 53 of fd00::9.
fn query6() -> [Header; 3] {
    let ports = Header::Ports {
        proto: 17,
        src: 1234,
        dst: 53,
    };
    [ether6(), six(17), ports]
}

#[test]
fn flow_sums_are_of_the_inner_headers(rt: HostRuntime) {
    let sent = sums(&encapsulated()).map(|(sum, _)| sum);
    assert!(rt; (sums(&plain()), sent) == (Some((9664, 0)), Some(0x1_7530)));
    assert!(rt; sums(&query6()) == Some((166_557, 1)));
}

fn has_key(headers: &[Header], key: &LayerKey) -> bool {
    match Stack::of(headers) {
        Ok(stack) => key_of(&stack) == *key,
        Err(_) => false,
    }
}

#[test]
fn keys_are_of_the_networks_and_the_inner_headers(rt: HostRuntime) {
    let key = LayerKey {
        encaps: 1,
        vni_outer: 5001,
        src: Addr::Four(Ip4::of(0xc000_0207)),
        src_port: 40_000,
        ..plain_key()
    };
    assert!(rt; has_key(&plain(), &plain_key()) && has_key(&encapsulated(), &key));
    assert!(rt; same_key(&key, &key) && !same_key(&key, &plain_key()));
}

/// The key of the query of 192.0.2.7 in these networks.
fn key_in(encaps: u8, vni_outer: u32, vni_second: u32) -> LayerKey {
    LayerKey {
        encaps,
        vni_outer,
        vni_second,
        src: Addr::Four(Ip4::of(0xc000_0207)),
        dst: Addr::Four(Ip4::of(0x0a00_0009)),
        proto: 17,
        part: false,
        src_port: 40_000,
        dst_port: 53,
    }
}

/// The key of its reply in these networks.
fn reply_key_in(encaps: u8, vni_outer: u32) -> LayerKey {
    LayerKey {
        encaps,
        vni_outer,
        vni_second: 0,
        src: Addr::Four(Ip4::of(0x0a00_0009)),
        dst: Addr::Four(Ip4::of(0xc000_0207)),
        proto: 17,
        part: false,
        src_port: 53,
        dst_port: 40_000,
    }
}

/// A layer that takes an encapsulation away sees it in the key, and the next one doesn't.
#[test]
fn each_layer_sees_the_key_of_what_came_to_it(rt: HostRuntime) {
    let queries = [
        has_key(&encapsulated_twice(), &key_in(2, 7, 5001)),
        has_key(&encapsulated(), &key_in(1, 5001, 0)),
        has_key(&query(0xc000_0207, 40_000), &key_in(0, 0, 0)),
    ];
    let replies = [
        has_key(&encapsulated_reply(), &reply_key_in(1, 5001)),
        has_key(&reply(), &reply_key_in(0, 0)),
    ];
    assert!(rt; queries == [true; 3] && replies == [true; 2]);
}

#[test]
fn what_a_stack_has_not_is_zero(rt: HostRuntime) {
    let [a, _, _] = query(0x0a00_0005, 1234);
    let fragment = [a, ip(0x0a00_0005, 0x0a00_0009, true)];
    let fragment_key = LayerKey {
        part: true,
        src_port: 0,
        dst_port: 0,
        ..plain_key()
    };
    let arp = [ether(0xffff_ffff_ffff, 0x0200_0000_0001, 0x0806)];
    let arp_key = LayerKey {
        src: Addr::Absent,
        dst: Addr::Absent,
        proto: 0,
        src_port: 0,
        dst_port: 0,
        ..plain_key()
    };
    let unspecified = [
        ether(0xffff_ffff_ffff, 0x0200_0000_0001, IPV4),
        Header::Ip {
            src: Ip4::of(0),
            dst: Ip4::of(0),
            proto: 0,
            part: false,
        },
    ];
    assert!(rt; has_key(&fragment, &fragment_key) && has_key(&arp, &arp_key));
    assert!(rt; !has_key(&unspecified, &arp_key));
}

fn address6(number: u128) -> Addr {
    Addr::Six(Ip6::of(number))
}

/// The key of the query over IPv6.
fn key6() -> LayerKey {
    LayerKey {
        src: address6(OWN),
        dst: address6(FAR),
        ..plain_key()
    }
}

/// The key of its reply.
fn reply_key6() -> LayerKey {
    LayerKey {
        src: address6(FAR),
        dst: address6(OWN),
        src_port: 53,
        dst_port: 1234,
        ..plain_key()
    }
}

#[test]
fn keys_of_ipv6_are_mirrored_too(rt: HostRuntime) {
    assert!(rt; has_key(&query6(), &key6()));
    assert!(rt; mirror(&key6()) == reply_key6() && mirror(&reply_key6()) == key6());
}

#[test]
fn replies_have_the_mirrored_key(rt: HostRuntime) {
    let key = LayerKey {
        src: Addr::Four(Ip4::of(0x0a00_0009)),
        dst: Addr::Four(Ip4::of(0x0a00_0005)),
        src_port: 53,
        dst_port: 1234,
        ..plain_key()
    };
    let is_mirrored = mirror(&key_in(1, 5001, 0)) == reply_key_in(1, 5001);
    assert!(rt; is_mirrored && mirror(&plain_key()) == key);
}

/// Whether two frames in these directions have the same id.
fn are_same(one: (Dir, &[Header]), other: (Dir, &[Header])) -> Option<bool> {
    let stack = Stack::of(one.1).ok()?;
    let second = Stack::of(other.1).ok()?;
    Some(same_id(&ufid(one.0, &stack), &ufid(other.0, &second)))
}

#[test]
fn ids_are_the_direction_and_the_stack(rt: HostRuntime) {
    let plain = plain();
    let same = [
        are_same((Dir::Out, &plain), (Dir::Out, &plain)),
        are_same((Dir::Out, &plain), (Dir::In, &plain)),
        are_same((Dir::Out, &plain), (Dir::Out, &encapsulated())),
    ];
    assert!(rt; same == [Some(true), Some(false), Some(false)]);
}

/// The port of these that the encapsulated query comes from or goes to.
fn found(ports: &[Mac]) -> Option<Option<Place>>
    requires { length ports.now < 2 ^ 32 }
{
    let stack = Stack::of(&encapsulated()).ok()?;
    Some(choose_port(ports, &stack))
}

#[test]
fn ports_are_found_by_their_addresses(rt: HostRuntime) {
    let [
        far,
        outer_source,
        outer_destination,
        inner_source,
        inner_destination,
    ] = [
        Mac::of(0x0200_0000_0002),
        Mac::of(0x0200_0000_0a01),
        Mac::of(0x0200_0000_0a02),
        Mac::of(0x0200_0000_0001),
        Mac::of(0x0200_0000_0099),
    ];
    let out = Place {
        port: 1,
        dir: Dir::Out,
    };
    let entering = Place {
        port: 0,
        dir: Dir::In,
    };
    assert!(rt; found(&[inner_destination, outer_source]) == Some(Some(out)));
    assert!(rt; found(&[inner_destination, far]) == Some(Some(entering)));
    assert!(rt; found(&[far, inner_source, outer_destination]) == Some(None));
}
