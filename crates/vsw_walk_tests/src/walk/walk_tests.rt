//! Walks over two layers, and over none.

use crate::walk::layers::{HIDDEN, PUBLIC, hiding_layer, two_layers};
use crate::walk::packets::{At, End, End6, Packet};
use crate::walk::trial::{Step, tried};
use crate::walk::wrong::Wrong;
use vsw_base::{Dir, Verdict};
use vsw_policy::Policy;

/// A port of one of the addresses behind the first layer.
const OWN: End = (0x0a00_0005, 1234);

/// The port that stands for those behind the first layer.
const PUBLIC_PORT: End = (PUBLIC, 40_000);

/// An address beyond the second layer.
const FAR: u32 = 0x0a00_0109;

const SEEN: [Step; 3] = [
    Step::WantsNothing,
    Step::Passes(
        Dir::Out,
        Packet::Plain(OWN, (FAR, 53)),
        Packet::Covered(PUBLIC_PORT, (FAR, 53)),
        0,
    ),
    Step::WantsOne(0, 0, 5),
];

#[test]
fn the_second_layer_sees_what_the_first_left(rt: HostRuntime) -> Result<(), Wrong> {
    let alloc = rt.alloc();
    tried(alloc, two_layers(alloc), &SEEN)
}

const REVERSE: [Step; 2] = [
    Step::Passes(
        Dir::In,
        Packet::Covered((FAR, 53), PUBLIC_PORT),
        Packet::Plain((FAR, 53), OWN),
        0,
    ),
    Step::WantsOne(0, 0, 9),
];

#[test]
fn inbound_packets_cross_the_layers_in_reverse(rt: HostRuntime) -> Result<(), Wrong> {
    let alloc = rt.alloc();
    tried(alloc, two_layers(alloc), &REVERSE)
}

const CHANGES: [Step; 4] = [
    Step::Meets(Dir::Out, Packet::Plain(OWN, (FAR, 80)), Verdict::Pass),
    Step::WantsTwo(0, 1),
    Step::Meets(
        Dir::In,
        Packet::Plain((FAR, 80), PUBLIC_PORT),
        Verdict::Pass,
    ),
    Step::WantsTwo(1, 0),
];

#[test]
fn changes_stand_in_crossing_order(rt: HostRuntime) -> Result<(), Wrong> {
    let alloc = rt.alloc();
    tried(alloc, two_layers(alloc), &CHANGES)
}

const DROPPED: [Step; 2] = [
    Step::Meets(
        Dir::Out,
        Packet::Plain(OWN, (FAR, 23)),
        Verdict::Rule {
            controller: 2,
            layer: 20,
            group: 1,
            rule: 7,
        },
    ),
    Step::WantsOne(0, 0, 5),
];

#[test]
fn what_was_wanted_before_a_drop_is_told(rt: HostRuntime) -> Result<(), Wrong> {
    let alloc = rt.alloc();
    tried(alloc, two_layers(alloc), &DROPPED)
}

/// From an address beyond the second layer to one behind the first.
const OTHER: Packet = Packet::Plain((FAR, 1234), (OWN.0, 53));

const BY_DEFAULT: [Step; 4] = [
    Step::Meets(
        Dir::Out,
        OTHER,
        Verdict::Default {
            controller: 1,
            layer: 10,
            dir: Dir::Out,
        },
    ),
    Step::WantsNothing,
    Step::Meets(
        Dir::In,
        OTHER,
        Verdict::Default {
            controller: 2,
            layer: 20,
            dir: Dir::In,
        },
    ),
    Step::WantsNothing,
];

#[test]
fn the_first_layer_that_lets_no_packet_on_drops_it(rt: HostRuntime) -> Result<(), Wrong> {
    let alloc = rt.alloc();
    tried(alloc, two_layers(alloc), &BY_DEFAULT)
}

const RECEIVED: Packet = Packet::Covered((FAR, 53), PUBLIC_PORT);

const FREE: [Step; 3] = [
    Step::Passes(Dir::Out, RECEIVED, RECEIVED, 1),
    Step::Passes(Dir::In, RECEIVED, RECEIVED, 1),
    Step::WantsNothing,
];

#[test]
fn a_packet_passes_where_there_are_no_layers(rt: HostRuntime) -> Result<(), Wrong> {
    let alloc = rt.alloc();
    tried(alloc, Policy::new(alloc, &[1]).ok(), &FREE)
}

/// A port of fd00::5, the port that stands for it, and fd00::9.
const OWN6: End6 = (0xfd00_0000_0000_0000_0000_0000_0000_0005, 1234);

const HIDDEN_PORT: End6 = (HIDDEN, 40_000);

const FAR6: u128 = 0xfd00_0000_0000_0000_0000_0000_0000_0009;

/// 2001:db8::7, which no condition holds.
const WORLD: End6 = (0x2001_0db8_0000_0000_0000_0000_0000_0007, 53);

const STOPPED: Verdict = Verdict::Default {
    controller: 1,
    layer: 10,
    dir: Dir::Out,
};

/// UDP and ICMPv6 that are translated, in an encapsulation too, packets that pass as they are, and one that has neither
/// IPv4 nor IPv6, which no stateful rule lets go.
const OVER_IPV6: [Step; 17] = [
    Step::Passes(
        Dir::Out,
        Packet::Six(OWN6, (FAR6, 53)),
        Packet::Six(HIDDEN_PORT, (FAR6, 53)),
        0,
    ),
    Step::WantsOne(0, 0, 5),
    Step::Looks(0, Some((0, 0, At::Six(OWN6.0), 1234, None))),
    Step::WantsBack(
        ((At::Six(FAR6), 53), (At::Six(HIDDEN), 40_000)),
        (None, Some(OWN6.0), Some(1234)),
    ),
    Step::Passes(
        Dir::Out,
        Packet::Echo(OWN6.0, FAR6),
        Packet::Echo(HIDDEN, FAR6),
        0,
    ),
    Step::WantsOne(0, 0, 5),
    Step::WantsBack(
        ((At::Six(FAR6), 0), (At::Six(HIDDEN), 0)),
        (None, Some(OWN6.0), None),
    ),
    Step::Passes(
        Dir::Out,
        Packet::CoveredSix(OWN6, (FAR6, 53)),
        Packet::CoveredSix(HIDDEN_PORT, (FAR6, 53)),
        1,
    ),
    Step::Looks(0, Some((0, 1, At::Six(OWN6.0), 1234, None))),
    Step::Passes(
        Dir::Out,
        Packet::Six(OWN6, WORLD),
        Packet::Six(OWN6, WORLD),
        0,
    ),
    Step::WantsOne(0, 0, 6),
    Step::WantsBack(
        ((At::Six(WORLD.0), 53), (At::Six(OWN6.0), 1234)),
        (None, None, None),
    ),
    Step::Meets(Dir::Out, Packet::Plain(OWN, (FAR, 53)), Verdict::Pass),
    Step::WantsOne(0, 0, 6),
    Step::Meets(Dir::Out, Packet::Arp, STOPPED),
    Step::WantsNothing,
    Step::Looks(0, Some((0, 0, At::Absent, 0, None))),
];

#[test]
fn packets_over_ipv6_want_pairs_with_their_addresses(rt: HostRuntime) -> Result<(), Wrong> {
    let alloc = rt.alloc();
    tried(alloc, hiding_layer(alloc), &OVER_IPV6)
}
