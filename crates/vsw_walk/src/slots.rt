//! The slots in which a walk's looks are told. They live on from packet to packet, so that a look is written where it stays.

ghost use Rattle.std.specs.Prelude.{◌≡◌, ◌<◌, ◌+◌, ◌-◌, ◌∷◌, ◌++◌, [], IfOk, IsTrue, length, option_copied, option_map, take};
ghost use Rattle.vsw_header.specs.Key.{key_from};
ghost use Rattle.vsw_layerflow.specs.Pairs.{number_of, pair_of};
ghost use Rattle.vsw_walk.specs.Private.Slots.{HasKey};
ghost use Rattle.vsw_walk.specs.Walk.{look_of};

use crate::scratch::Looked;
use std::alloc::Global;
use vsw_base::{Dir, LayerKey, NoMemory, Stack};
use vsw_header::{blank_key, write_key};
use vsw_layerflow::{Flows, Pair};

/// So many slots, in which blank looks stand.
pub fn slots(alloc: Global, count: usize) -> Result<Vec<Looked>, NoMemory>
    ensures { IfOk result (λ slots. length slots.items ≡ count) }
{
    let blank = Looked {
        key: blank_key(),
        found: None,
        layer: 0,
        dir: Dir::Out,
    };
    match vec![in alloc; blank; count] {
        Ok(slots) => Ok(slots),
        Err(_) => Err(NoMemory),
    }
}

/// The pair that holds this direction and key. Most layers have none.
#[inline(always)]
fn held<'a>(flows: &'a Flows, dir: Dir, key: &LayerKey) -> Option<&'a Pair>
    ensures { option_copied result ≡ pair_of dir key.now flows.now.pairs }
{
    if flows.len() == 0 {
        return None;
    }
    search(flows, dir, key)
}

#[inline(never)]
fn search<'a>(flows: &'a Flows, dir: Dir, key: &LayerKey) -> Option<&'a Pair>
    ensures { option_copied result ≡ pair_of dir key.now flows.now.pairs }
{
    flows.find(dir, key)
}

/// The number of the pair that was found.
#[inline(always)]
fn number_in(found: Option<&Pair>) -> Option<u32>
    ensures { result ≡ option_map number_of (option_copied found.entry) }
{
    match found {
        None => None,
        Some(pair) => Some(pair.number),
    }
}

/// Writes the key of a stack into the slot at a place. Where the slot before is known to have it, the key is copied from there.
#[inline(always)]
fn write_at(stack: &Stack, known: bool, slots: &mut Vec<Looked>, place: usize)
    requires within { place < length slots.old.items }
    requires known { IsTrue known → (0 < place) × HasKey (place - 1) stack.now slots.old.items }
    ensures key { HasKey place stack.now slots.new.items }
    ensures before { take place slots.new.items ≡ take place slots.old.items }
    ensures whole { length slots.new.items ≡ length slots.old.items }
{
    if known {
        slots[place].key = slots[place - 1].key;
    } else {
        write_key(stack, &mut slots[place].key);
    }
}

/// Looks for the pair of this direction and the slot's key, and writes all else of the look into the slot.
#[inline(always)]
fn fill<'a>(flows: &'a Flows, layer: u32, dir: Dir, slot: &mut Looked) -> Option<&'a Pair>
    ensures found { option_copied result ≡ pair_of dir slot.old.key flows.now.pairs }
    ensures filled { slot.new ≡ record { key = slot.old.key; found = option_map number_of (pair_of dir slot.old.key flows.now.pairs); layer = layer; dir = dir } }
{
    let found = held(flows, dir, &slot.key);
    slot.found = number_in(found);
    slot.layer = layer;
    slot.dir = dir;
    found
}

/// The pair that holds this direction and the key of a stack. The look is written into the slot at a place; `known` says that the slot
/// before has the key.
#[inline(always)]
pub fn tell<'a>(
    flows: &'a Flows,
    layer: u32,
    dir: Dir,
    stack: &Stack,
    known: bool,
    slots: &mut Vec<Looked>,
    place: usize,
) -> Option<&'a Pair>
    requires within { place < length slots.old.items }
    requires known { IsTrue known → (0 < place) × HasKey (place - 1) stack.now slots.old.items }
    ensures found { option_copied result ≡ pair_of dir (key_from stack.now) flows.now.pairs }
    ensures told { take (place + 1) slots.new.items ≡ take place slots.old.items ++ look_of layer dir stack.now (pair_of dir (key_from stack.now) flows.now.pairs) ∷ [] }
    ensures key { HasKey place stack.now slots.new.items }
    ensures whole { length slots.new.items ≡ length slots.old.items }
{
    write_at(stack, known, slots, place);
    fill(flows, layer, dir, &mut slots[place])
}
