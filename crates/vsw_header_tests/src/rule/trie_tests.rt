//! The trie beside a walk over the list that it was built of.

use crate::rule::index_samples::stirred;
use std::alloc::{AllocError, Global};
use vsw_base::{Ip4, Prefix};
use vsw_index::{PlacedPrefix, Trie};

fn placed(place: u32, value: u32, bits: u8) -> PlacedPrefix {
    PlacedPrefix {
        place,
        prefix: Prefix {
            value: Ip4::of(value),
            bits,
        },
    }
}

const NEAR: u32 = 0x0a00_0009;

const ALL_ONES: u32 = 0xffff_ffff;

/// The place of the first row of a value, a place and the least place of an item from there on that
/// holds the value, to which the answer is another.
fn wrong_row(trie: &Trie, rows: &[(u32, u32, Option<u32>)]) -> Option<usize> {
    for place in 0..rows.len() {
        let (value, from, least) = rows[place];
        if trie.least(value, from) != least {
            return Some(place);
        }
    }
    None
}

/// The first wrong row of these items.
fn tried(
    alloc: Global,
    items: &[PlacedPrefix],
    rows: &[(u32, u32, Option<u32>)],
) -> Option<Option<usize>> {
    let trie = Trie::build(alloc, items).ok()?;
    Some(wrong_row(&trie, rows))
}

#[test]
fn nested_prefixes_answer_by_place(rt: HostRuntime) {
    let items = [
        placed(0, 0x0a00_0000, 8),
        placed(1, 0x0a00_0000, 24),
        placed(2, 0, 0),
    ];
    let rows = [
        (NEAR, 0, Some(0)),
        (NEAR, 1, Some(1)),
        (NEAR, 2, Some(2)),
        (NEAR, 3, None),
        (0x0b00_0001, 0, Some(2)),
    ];
    assert!(rt; tried(rt.alloc(), &items, &rows) == Some(None));
}

#[test]
fn no_items_answer_none(rt: HostRuntime) {
    assert!(rt; tried(rt.alloc(), &[], &[(NEAR, 0, None)]) == Some(None));
}

#[test]
fn greatest_values_and_repeated_places_answer(rt: HostRuntime) {
    let items = [
        placed(ALL_ONES, ALL_ONES, 32),
        placed(7, 0xffff_ff12, 24),
        placed(7, 0xffff_ff34, 24),
        placed(9, ALL_ONES, 32),
        placed(3, ALL_ONES, 33),
    ];
    let rows = [
        (ALL_ONES, 0, Some(7)),
        (ALL_ONES, 8, Some(9)),
        (ALL_ONES, 10, Some(ALL_ONES)),
        (0xffff_ff00, 7, Some(7)),
        (0xffff_ff00, 8, None),
        (0xffff_feff, 0, None),
        (0, 0, None),
    ];
    assert!(rt; tried(rt.alloc(), &items, &rows) == Some(None));
}

fn is_held(value: u32, prefix: &Prefix) -> bool {
    let differing = u64::from(value ^ prefix.value.number());
    match 32u8.checked_sub(prefix.bits) {
        None => false,
        Some(shift) => differing >> u32::from(shift) == 0,
    }
}

fn walked(items: &[PlacedPrefix], value: u32, from: u32) -> Option<u32> {
    let mut found: Option<u32> = None;
    for item in items {
        if item.place >= from && is_held(value, &item.prefix) {
            found = Some(found.unwrap_or(ALL_ONES).min(item.place));
        }
    }
    found
}

/// Prefixes of 8 to 39 bits whose values differ in few bits, at places that repeat.
fn many(alloc: Global) -> Result<Vec<PlacedPrefix>, AllocError> {
    let mut items = Vec::new(alloc);
    let mut state = 1u64;
    for _ in 0..200u32 {
        state = stirred(state);
        let value = (state >> 32) as u32 & 0x1010_0113;
        let bits = (8 + (state >> 24) % 32) as u8;
        items.push(placed((state >> 58) as u32, value, bits))?;
    }
    Ok(items)
}

/// The first of 2,000 look-ups that answers otherwise than the walk.
fn wrong_lookup(trie: &Trie, items: &[PlacedPrefix]) -> Option<u32> {
    let mut state = 2u64;
    for round in 0..2_000u32 {
        state = stirred(state);
        let value = (state >> 32) as u32 & 0x1010_0113;
        let from = ((state >> 20) % 80) as u32;
        if trie.least(value, from) != walked(items, value, from) {
            return Some(round);
        }
    }
    None
}

/// How many items there are, and the first look-up that answers otherwise.
fn looked_up(alloc: Global) -> Option<(usize, Option<u32>)> {
    let items = many(alloc).ok()?;
    let trie = Trie::build(alloc, &items).ok()?;
    Some((trie.items().len(), wrong_lookup(&trie, &items)))
}

#[test]
fn many_items_answer_as_their_list(rt: HostRuntime) {
    assert!(rt; looked_up(rt.alloc()) == Some((200, None)));
}
