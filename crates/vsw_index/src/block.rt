//! Blocks of ranges, and what bounds each.

ghost use Rattle.std.specs.Prelude.{◌≡◌, ◌<◌, ◌≤◌, length, IfOk};
ghost use Rattle.std.specs.List.{AllWithin};
ghost use Rattle.vsw_index.specs.Block.{AreBlocks, IsWithin};
ghost use Rattle.vsw_index.specs.declared.placed_range.PlacedRange.{PlacedRange};

use crate::memory::push;
use crate::placed_range::PlacedRange;
use std::alloc::Global;
use vsw_base::NoMemory;

/// What bounds the ranges of a block: those from one place in the list up to another, `end`.
#[derive(Clone, Copy)]
pub struct Block {
    pub end: usize,
    pub most_high: u64,
    pub least_place: u32,
    pub most_place: u32,
}

/// Where the block that begins at `at` ends, in a list of `len`: it is of the greatest power of two that
/// divides `at`, as far as the list goes.
fn end_of(at: usize, len: usize) -> usize
    requires { at < len }
    ensures behind { at < result }
    ensures within { result ≤ len }
{
    let mut size = 1;
    while size <= len / 2 && at % (2 * size) == 0 {
        size *= 2;
    }
    if size < len - at { at + size } else { len }
}

/// The bounds of these ranges, as a block that ends at `end`.
fn bounded(ranges: &[PlacedRange], end: usize) -> Block
    ensures end { result.end ≡ end }
    ensures bounds { AllWithin (IsWithin result) ranges.now 0 (length ranges.now) }
{
    let mut block = Block {
        end,
        most_high: 0,
        least_place: u32::MAX,
        most_place: 0,
    };
    for range in ranges {
        block.most_high = block.most_high.max(range.high);
        block.least_place = block.least_place.min(range.place);
        block.most_place = block.most_place.max(range.place);
    }
    block
}

/// A block for each place in the list.
pub fn blocks_of(alloc: Global, ranges: &[PlacedRange]) -> Result<Vec<Block>, NoMemory>
    ensures blocks { IfOk result (λ v. AreBlocks ranges.now v.items) }
    ensures count { IfOk result (λ v. length v.items ≡ length ranges.now) }
{
    let mut blocks: Vec<Block> = Vec::new(alloc);
    for at in 0..ranges.len() {
        let end = end_of(at, ranges.len());
        let block = bounded(&ranges[at..end], end);
        push(&mut blocks, block)?;
    }
    Ok(blocks)
}
