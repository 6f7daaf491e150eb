//! The index beside a walk over the list that it was built of.

use crate::rule::index_samples::stirred;
use std::alloc::{AllocError, Global};
use vsw_index::{Interval, PlacedRange};

fn placed(place: u32, low: u64, high: u64) -> PlacedRange {
    PlacedRange { place, low, high }
}

const LAST_PLACE: u32 = 0xffff_ffff;

const GREATEST: u64 = 0xffff_ffff_ffff_ffff;

/// The place of the first row of a value, a place and the least place of an item from there on that
/// holds the value, to which the answer is another.
fn wrong_row(index: &Interval, rows: &[(u64, u32, Option<u32>)]) -> Option<usize> {
    for place in 0..rows.len() {
        let (value, from, least) = rows[place];
        if index.least(value, from) != least {
            return Some(place);
        }
    }
    None
}

/// The first wrong row of these items.
fn tried(
    alloc: Global,
    items: &[PlacedRange],
    rows: &[(u64, u32, Option<u32>)],
) -> Option<Option<usize>> {
    let index = Interval::build(alloc, items).ok()?;
    Some(wrong_row(&index, rows))
}

#[test]
fn overlapping_ranges_answer_by_place(rt: HostRuntime) {
    let items = [placed(0, 10, 20), placed(1, 15, 15)];
    let rows = [
        (15, 0, Some(0)),
        (15, 1, Some(1)),
        (15, 2, None),
        (21, 0, None),
        (20, 0, Some(0)),
        (10, 0, Some(0)),
        (9, 0, None),
    ];
    assert!(rt; tried(rt.alloc(), &items, &rows) == Some(None));
}

#[test]
fn no_items_answer_none(rt: HostRuntime) {
    assert!(rt; tried(rt.alloc(), &[], &[(15, 0, None)]) == Some(None));
}

#[test]
fn greatest_values_and_repeated_places_answer(rt: HostRuntime) {
    let items = [
        placed(LAST_PLACE, GREATEST, GREATEST),
        placed(7, 5, GREATEST),
        placed(7, 0, 0),
        placed(3, 9, 8),
    ];
    let rows = [
        (GREATEST, 0, Some(7)),
        (GREATEST, 8, Some(LAST_PLACE)),
        (GREATEST - 1, 8, None),
        (0, 7, Some(7)),
        (4, 0, None),
        (9, 0, Some(7)),
    ];
    assert!(rt; tried(rt.alloc(), &items, &rows) == Some(None));
}

fn walked(items: &[PlacedRange], value: u64, from: u32) -> Option<u32> {
    let mut found: Option<u32> = None;
    for item in items {
        if item.place >= from && (item.low..=item.high).contains(&value) {
            found = Some(found.unwrap_or(LAST_PLACE).min(item.place));
        }
    }
    found
}

/// Narrow ranges, and every eighth one wide, at places that repeat.
fn many(alloc: Global) -> Result<Vec<PlacedRange>, AllocError> {
    let mut items = Vec::new(alloc);
    let mut state = 1u64;
    for _ in 0..200u32 {
        state = stirred(state);
        let low = (state >> 40) % 4096;
        let width = if state >> 61 == 0 {
            1024
        } else {
            (state >> 30) % 16
        };
        items.push(placed(((state >> 8) % 300) as u32, low, low + width))?;
    }
    Ok(items)
}

/// The first of 2,000 look-ups that answers otherwise than the walk.
fn wrong_lookup(index: &Interval, items: &[PlacedRange]) -> Option<u32> {
    let mut state = 2u64;
    for round in 0..2_000u32 {
        state = stirred(state);
        let value = (state >> 40) % 5200;
        let from = ((state >> 20) % 310) as u32;
        if index.least(value, from) != walked(items, value, from) {
            return Some(round);
        }
    }
    None
}

/// How many items there are, and the first look-up that answers otherwise.
fn looked_up(alloc: Global) -> Option<(usize, Option<u32>)> {
    let items = many(alloc).ok()?;
    let index = Interval::build(alloc, &items).ok()?;
    Some((index.items().len(), wrong_lookup(&index, &items)))
}

#[test]
fn many_items_answer_as_their_list(rt: HostRuntime) {
    assert!(rt; looked_up(rt.alloc()) == Some((200, None)));
}
