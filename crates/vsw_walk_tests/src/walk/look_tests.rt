//! What a walk looks for in two layers that have no pairs.

use crate::walk::layers::{PUBLIC, two_layers};
use crate::walk::packets::{At, Packet};
use crate::walk::trial::{Step, tried};
use crate::walk::wrong::Wrong;
use vsw_base::{Dir, Verdict};

/// One of the addresses behind the first layer, and one beyond the second.
const OWN: u32 = 0x0a00_0005;

const FAR: u32 = 0x0a00_0109;

const QUERY: [Step; 3] = [
    Step::Meets(
        Dir::Out,
        Packet::Plain((OWN, 1234), (FAR, 53)),
        Verdict::Pass,
    ),
    Step::Looks(0, Some((0, 0, At::Four(OWN), 1234, None))),
    Step::Looks(1, Some((1, 0, At::Four(PUBLIC), 40_000, None))),
];

#[test]
fn a_packet_looks_for_what_the_layers_before_made_of_it(rt: HostRuntime) -> Result<(), Wrong> {
    let alloc = rt.alloc();
    tried(alloc, two_layers(alloc), &QUERY)
}

const RECEIVED: [Step; 4] = [
    Step::Meets(
        Dir::In,
        Packet::Covered((FAR, 53), (PUBLIC, 40_000)),
        Verdict::Pass,
    ),
    Step::Looks(0, Some((1, 1, At::Four(FAR), 53, None))),
    Step::Looks(1, Some((0, 0, At::Four(FAR), 53, None))),
    Step::Looks(2, None),
];

#[test]
fn looks_stand_in_crossing_order(rt: HostRuntime) -> Result<(), Wrong> {
    let alloc = rt.alloc();
    tried(alloc, two_layers(alloc), &RECEIVED)
}

const DROPPED: [Step; 3] = [
    Step::Meets(
        Dir::In,
        Packet::Plain((FAR, 1234), (OWN, 53)),
        Verdict::Default {
            controller: 2,
            layer: 20,
            dir: Dir::In,
        },
    ),
    Step::Looks(0, Some((1, 0, At::Four(FAR), 1234, None))),
    Step::Looks(1, None),
];

#[test]
fn a_drop_by_default_leans_on_what_its_layer_missed(rt: HostRuntime) -> Result<(), Wrong> {
    let alloc = rt.alloc();
    tried(alloc, two_layers(alloc), &DROPPED)
}
