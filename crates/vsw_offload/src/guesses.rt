//! Guesses of where rows stand. A guess is tried before a row is looked for, so none has to be right. But where nothing is noted there is no row.

ghost use Rattle.std.specs.Prelude.{◌≡◌, ◌<◌, ◌≤◌, IfOk, length, true, false};
ghost use Rattle.vsw_offload.specs.Private.Noting.{AllNoted, AreNoted, Keeps, is_taken};
ghost use Rattle.vsw_offload.specs.Rows.{key_of};
ghost use Rattle.vsw_words.specs.Slot as spec;

use crate::port_rows::PortRows;
use std::alloc::Global;
use vsw_base::NoMemory;
use vsw_words::slot_of;

/// What stands in a free slot. Rows of a port are fewer.
const NONE: u16 = u16::MAX;

/// Places of rows, those of each port counted from 0, in the slots of their keys or in the ones behind.
#[derive(Drop)]
pub(crate) struct Guesses {
    pub places: Vec<u16>,
    pub slots: u32,
}

/// How many rows all ports have.
fn count(ports: &[PortRows]) -> usize {
    let mut count: usize = 0;
    for port in ports {
        count = count.saturating_add(port.rows.len());
    }
    count
}

/// Slots for so many rows: with eight for each most of them have their own, and most other keys find theirs free.
fn slots_for(rows: usize) -> u32
    ensures { 8 ≤ result }
{
    if rows >= 1 << 27 {
        return 1 << 30;
    }
    (8 * rows + 8) as u32
}

/// Free slots.
fn free(alloc: Global, slots: u32) -> Result<Vec<u16>, NoMemory>
    ensures { IfOk result (λ places. length places.items ≡ slots) }
{
    let mut places = Vec::new(alloc);
    match places.resize(slots as usize, NONE) {
        Ok(()) => Ok(places),
        Err(_) => Err(NoMemory),
    }
}

/// Notes a place in a slot, if it is free.
fn put(places: &mut Vec<u16>, slot: usize, place: u16) -> bool
    requires within { slot < length places.old.items }
    requires place { place < 65535 }
    ensures taken { is_taken places.new.items slot ≡ true }
    ensures kept { Keeps places.old.items places.new.items }
    ensures long { length places.new.items ≡ length places.old.items }
{
    if places[slot] != NONE {
        return false;
    }
    places[slot] = place;
    true
}

/// The same, if there is such a slot.
fn put_next(places: &mut Vec<u16>, slot: usize, place: u16)
    requires place { place < 65535 }
    ensures kept { Keeps places.old.items places.new.items }
    ensures long { length places.new.items ≡ length places.old.items }
{
    if slot < places.len() {
        let _ = put(places, slot, place);
    }
}

/// Notes the place of a row, in its slot or the one behind.
fn note(places: &mut Vec<u16>, slots: u32, row: &[u64; 73], place: u16)
    requires slots { 8 ≤ slots }
    requires long { length places.old.items ≡ slots }
    requires place { place < 65535 }
    ensures taken { is_taken places.new.items (spec.slot (key_of row.now) slots) ≡ true }
    ensures kept { Keeps places.old.items places.new.items }
    ensures long { length places.new.items ≡ length places.old.items }
{
    let Some(key) = row.first_chunk::<16>() else {
        return;
    };
    let slot = slot_of(key, slots);
    if !put(places, slot as usize, place) {
        put_next(places, slot as usize + 1, place);
    }
}

/// The next place. Behind the last one that can be noted it is the same.
fn after(place: u16) -> u16
    requires { place < 65535 }
    ensures { result < 65535 }
{
    if place < NONE - 1 { place + 1 } else { place }
}

/// Notes the places of a port's rows.
fn note_all(places: &mut Vec<u16>, slots: u32, rows: &[[u64; 73]])
    requires slots { 8 ≤ slots }
    requires long { length places.old.items ≡ slots }
    ensures noted { AreNoted places.new.items slots rows.now }
    ensures kept { Keeps places.old.items places.new.items }
    ensures long { length places.new.items ≡ length places.old.items }
{
    let mut place: u16 = 0;
    for row in rows {
        note(places, slots, row, place);
        place = after(place);
    }
}

/// The place in a slot.
#[inline(always)]
fn place_in(places: &[u16], slot: usize) -> usize {
    match places.get(slot) {
        Some(place) => *place as usize,
        None => usize::MAX,
    }
}

impl Guesses {
    /// Guesses for the rows of these ports.
    pub fn of(alloc: Global, ports: &[PortRows]) -> Result<Guesses, NoMemory>
        ensures slots { IfOk result (λ g. 8 ≤ g.slots) }
        ensures noted { IfOk result (λ g. AllNoted g.places.items g.slots ports.now) }
    {
        let slots = slots_for(count(ports));
        let mut places = free(alloc, slots)?;
        for port in ports {
            note_all(&mut places, slots, port.rows.as_slice());
        }
        Ok(Guesses { places, slots })
    }

    /// The slot of a key.
    #[inline(always)]
    pub fn slot(&self, key: &[u64; 16]) -> u32
        requires { 8 ≤ self.now.slots }
        ensures { result ≡ spec.slot key.now self.now.slots }
    {
        slot_of(key, self.slots)
    }

    /// Whether nothing is noted in a slot.
    #[inline(always)]
    pub fn is_free(&self, slot: u32) -> bool
        ensures { result ≡ true → is_taken self.now.places.items slot ≡ false }
    {
        match self.places.get(slot as usize) {
            Some(place) => *place == NONE,
            None => false,
        }
    }

    /// Two places at which a row of the slot's key may stand.
    #[inline(always)]
    pub fn at(&self, slot: u32) -> (usize, usize) {
        (
            place_in(&self.places, slot as usize),
            place_in(&self.places, slot as usize + 1),
        )
    }
}
