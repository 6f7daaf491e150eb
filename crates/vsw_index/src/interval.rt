//! The index.

ghost use Rattle.std.specs.Prelude.{◌≡◌, IfOk, OnOk};
ghost use Rattle.std.specs.List.Sorted.{IsNonDecreasingBy, IsPermutation};
ghost use Rattle.vsw_index.specs.RangeLeast.{least_of, Answers};

use crate::block::{Block, blocks_of};
use crate::near::{Near, look};
use crate::placed_range::PlacedRange;
use crate::search::search;
use std::alloc::Global;
use std::marker::Model;
use vsw_base::NoMemory;

/// Placed ranges, indexed. Contracts see the list that it was built of.
#[derive(Drop)]
pub struct Interval {
    items: Vec<PlacedRange>,
    by_place: Vec<PlacedRange>,
    by_low: Vec<PlacedRange>,
    /// A block for each place in `by_low`.
    blocks: Vec<Block>,
}

impl Model for Interval {
    ghost use Rattle.std.specs.Prelude.{List};
    ghost use Rattle.vsw_index.specs.declared.placed_range.PlacedRange.{PlacedRange};

    ghost Value = { List PlacedRange };

    ghost use Rattle.vsw_index.specs.Near.{IsInterval};

    ghost view = { λ s. s.items.items };

    ghost invariant = { λ s. IsInterval s.items.items s.by_place.items s.by_low.items s.blocks.items };
}

fn copy(alloc: Global, items: &[PlacedRange]) -> Result<Vec<PlacedRange>, NoMemory>
    ensures { IfOk result (λ v. v.items ≡ items.now) }
{
    match Vec::from_slice(alloc, items) {
        Ok(copy) => Ok(copy),
        Err(_) => Err(NoMemory),
    }
}

fn put_by_place(ranges: &mut Vec<PlacedRange>) -> Result<(), NoMemory>
    ensures permutation { IsPermutation ranges.old.items ranges.new.items }
    ensures by_place { OnOk result (IsNonDecreasingBy (λ r. r.place) ranges.new.items) }
{
    match ranges.sort_by_key(|range| range.place) {
        Ok(()) => Ok(()),
        Err(_) => Err(NoMemory),
    }
}

/// Those of one low end stay in order.
fn put_by_low(ranges: &mut Vec<PlacedRange>) -> Result<(), NoMemory>
    ensures permutation { IsPermutation ranges.old.items ranges.new.items }
    ensures by_low { OnOk result (IsNonDecreasingBy (λ r. r.low) ranges.new.items) }
{
    match ranges.sort_by_key(|range| range.low) {
        Ok(()) => Ok(()),
        Err(_) => Err(NoMemory),
    }
}

impl Interval {
    /// The index of these items, in any order; places may repeat, ranges may too.
    pub fn build(alloc: Global, items: &[PlacedRange]) -> Result<Interval, NoMemory>
        ensures { IfOk result (λ t. t ≡ items.now) }
    {
        let mut by_place = copy(alloc, items)?;
        put_by_place(&mut by_place)?;
        let mut by_low = copy(alloc, &by_place)?;
        put_by_low(&mut by_low)?;
        let blocks = blocks_of(alloc, &by_low)?;
        let items = copy(alloc, items)?;
        Ok(Interval {
            items,
            by_place,
            by_low,
            blocks,
        })
    }

    /// The items, as they were given.
    pub fn items(&self) -> &[PlacedRange]
        ensures { result.now ≡ self.now }
    {
        &self.items
    }

    /// The least place at or above `from` whose range holds the value.
    pub fn least(&self, value: u64, from: u32) -> Option<u32>
        ensures value { result ≡ least_of self.now value from }
        ensures answers { Answers self.now value from result }
    {
        self.find(value, from)
    }

    fn find(&self, value: u64, from: u32) -> Option<u32>
        ensures { result ≡ least_of self.now value from }
    {
        match look(&self.by_place, value, from) {
            Near::Place(place) => Some(place),
            Near::Nowhere => None,
            Near::Farther => search(&self.by_low, &self.blocks, value, from),
        }
    }
}
