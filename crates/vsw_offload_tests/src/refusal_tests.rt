//! Why bytes are no rows file, and where.

use crate::given::{file, file_with};
use std::alloc::Global;
use vsw_offload::{BadRows, Rows};

fn why(alloc: Global, bytes: &[u8]) -> Option<BadRows> {
    match Rows::read(alloc, bytes) {
        Ok(_) => None,
        Err(why) => Some(why),
    }
}

/// Why so many of the first bytes are no file.
fn why_cut(alloc: Global, len: usize) -> Option<BadRows> {
    let bytes = file();
    if len > 614 {
        return None;
    }
    why(alloc, &bytes[..len])
}

fn why_with(alloc: Global, place: usize, byte: u8) -> Option<BadRows> {
    why(alloc, &file_with(place, byte))
}

/// Why a file is none in which this follows the whole row, and whose port tells two rows.
fn why_behind(alloc: Global, rows: u8, behind: &[u8]) -> Option<BadRows> {
    let mut bytes = Vec::new(alloc);
    bytes.extend_from_slice(&file_with(26, rows)).ok()?;
    bytes.extend_from_slice(behind).ok()?;
    why(alloc, &bytes)
}

/// A file of two ports without rows, of these numbers and last bytes of addresses.
fn two_ports(first: u8, mac: u8, second: u8, other: u8) -> [u8; 48] {
    let mut bytes = [0; 48];
    let all = file();
    for place in 0..12usize {
        bytes[place] = all[place];
    }
    bytes[8] = 2;
    bytes[12] = first;
    bytes[21] = mac;
    bytes[30] = second;
    bytes[39] = other;
    bytes
}

#[test]
fn parts_that_are_cut(rt: HostRuntime) {
    let alloc = rt.alloc();
    let found = [
        why_cut(alloc, 7),
        why_cut(alloc, 11),
        why_cut(alloc, 15),
        why_cut(alloc, 21),
        why_cut(alloc, 25),
        why_cut(alloc, 29),
        why_cut(alloc, 613),
        why_cut(alloc, 614),
    ];
    assert!(&rt;
        found
            == [
                Some(BadRows::NotRows),
                Some(BadRows::Cut { at: 8 }),
                Some(BadRows::Cut { at: 12 }),
                Some(BadRows::Cut { at: 16 }),
                Some(BadRows::Cut { at: 22 }),
                Some(BadRows::Cut { at: 26 }),
                Some(BadRows::Cut { at: 30 }),
                None,
            ]
    );
}

#[test]
fn numbers_that_are_too_great(rt: HostRuntime) {
    let alloc = rt.alloc();
    let found = [
        why_with(alloc, 0, 0x57),
        why_with(alloc, 8, 17),
        why_with(alloc, 27, 0x41),
    ];
    assert!(&rt;
        found
            == [
                Some(BadRows::NotRows),
                Some(BadRows::ManyPorts { at: 8 }),
                Some(BadRows::ManyRows { at: 26 }),
            ]
    );
}

#[test]
fn ports_that_stand_already(rt: HostRuntime) {
    let alloc = rt.alloc();
    let found = [
        why(alloc, &two_ports(1, 1, 1, 2)),
        why(alloc, &two_ports(1, 1, 2, 1)),
        why(alloc, &two_ports(1, 1, 2, 2)),
    ];
    assert!(&rt;
        found
            == [
                Some(BadRows::PortTwice { at: 30 }),
                Some(BadRows::PortTwice { at: 34 }),
                None,
            ]
    );
}

#[test]
fn rows_that_are_none(rt: HostRuntime) {
    let alloc = rt.alloc();
    let found = [
        why_with(alloc, 150, 1),
        why_with(alloc, 158, 4),
        why_with(alloc, 174, 2),
        why_behind(alloc, 2, &file()[30..]),
        why_behind(alloc, 1, &[0]),
        why_behind(alloc, 2, &[0]),
    ];
    assert!(&rt;
        found
            == [
                Some(BadRows::BadRow { at: 30 }),
                Some(BadRows::BadRow { at: 30 }),
                Some(BadRows::BadRow { at: 30 }),
                Some(BadRows::Order { at: 614 }),
                Some(BadRows::Extra { at: 614 }),
                Some(BadRows::Cut { at: 614 }),
            ]
    );
}
