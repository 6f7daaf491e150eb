//! The ports of a file are made, and stand as it says.

use crate::ports_samples::{FILE, defaults, group_names, layer_names, port_names, ports};
use std::alloc::Global;
use vsw_base::Mac;
use vsw_promise::{Port, macs};

const PORTS: [(u16, u32, usize); 4] = [(7, 8, 0), (1, 64, 4), (2, 16384, 1), (0, 0, 0)];

/// By their order, then by the place of their controller, then by their number.
const CROSSED: [(u16, u16, usize); 5] = [(30, 5, 0), (20, 5, 0), (10, 4, 0), (10, 6, 3), (0, 0, 0)];

const ALONE: [(u16, u16, usize); 5] = [(20, 9, 0), (0, 0, 0), (0, 0, 0), (0, 0, 0), (0, 0, 0)];

/// As the file has them.
const GROUPS: [(u16, usize, u16, u16); 4] = [
    (8, 1, 2, 1),
    (3, 0, 0, 0),
    (5, 0, 4, 0),
    (0, 0, 0, 0),
];

fn names(alloc: Global) -> Option<[(u16, u32, usize); 4]> {
    let ports = ports(alloc, FILE)?;
    Some(port_names(ports.as_slice()))
}

#[test]
fn ports_stand_in_the_order_of_the_file(rt: HostRuntime) {
    assert!(&rt; names(rt.alloc()) == Some(PORTS));
}

/// Of ports 1 and 2.
fn crossed(alloc: Global) -> Option<[[(u16, u16, usize); 5]; 2]> {
    let ports = ports(alloc, FILE)?;
    Some([
        layer_names(ports.as_slice(), 1),
        layer_names(ports.as_slice(), 2),
    ])
}

#[test]
fn layers_stand_in_the_order_of_crossing(rt: HostRuntime) {
    assert!(&rt; crossed(rt.alloc()) == Some([CROSSED, ALONE]));
}

/// Of the last layer of port 1: its groups, and its defaults.
fn grouped(alloc: Global) -> Option<([(u16, usize, u16, u16); 4], (bool, bool, u32))> {
    let ports = ports(alloc, FILE)?;
    Some((
        group_names(ports.as_slice(), 1, 3),
        defaults(ports.as_slice(), 1, 3),
    ))
}

#[test]
fn groups_and_rules_stand_in_the_order_of_the_file(rt: HostRuntime) {
    assert!(&rt; grouped(rt.alloc()) == Some((GROUPS, (true, false, 100))));
}

/// Whether the addresses are those of these ports.
fn have_macs(alloc: Global, ports: &[Port]) -> bool {
    let expected = [
        Mac::of(0x0200_0000_0007),
        Mac::of(0x0200_0000_0001),
        Mac::of(0x0200_0000_0002),
    ];
    match macs(alloc, ports) {
        Ok(macs) => macs.as_slice() == &expected[..],
        Err(_) => false,
    }
}

fn addressed(alloc: Global) -> Option<bool> {
    let ports = ports(alloc, FILE)?;
    Some(have_macs(alloc, ports.as_slice()))
}

#[test]
fn addresses_stand_in_the_order_of_ports(rt: HostRuntime) {
    assert!(&rt; addressed(rt.alloc()) == Some(true));
}
