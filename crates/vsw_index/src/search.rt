//! The search for a place.

ghost use Rattle.std.specs.Prelude.{◌≡◌};
ghost use Rattle.vsw_index.specs.RangeLeast.{least_of};
ghost use Rattle.vsw_index.specs.Block as spec;

use crate::block::Block;
use crate::lesser_place::lesser;
use crate::placed_range::PlacedRange;

/// The place of a range that holds the value, if it is at or above `from`.
fn place_of(range: &PlacedRange, value: u64, from: u32) -> Option<u32>
    ensures { result ≡ spec.place_of value from range.now }
{
    if range.low <= value && value <= range.high && from <= range.place {
        Some(range.place)
    } else {
        None
    }
}

/// Whether no range of the block can give a lesser place than was found.
fn is_passed(block: &Block, value: u64, from: u32, found: Option<u32>) -> bool
    ensures { result ≡ spec.is_passed block.now value from found }
{
    block.most_high < value
        || block.most_place < from
        || match found {
            None => false,
            Some(place) => place <= block.least_place,
        }
}

/// The least place at or above `from` whose range holds the value. Ranges that begin behind the value
/// aren't looked at, nor those of blocks that can't give a lesser place.
pub fn search(ranges: &[PlacedRange], blocks: &[Block], value: u64, from: u32) -> Option<u32>
    requires { spec.IsIndex ranges.now blocks.now }
    ensures { result ≡ least_of ranges.now value from }
{
    let behind = ranges.partition_point(|range| range.low <= value);
    let mut found: Option<u32> = None;
    let mut at = 0;
    while at < behind {
        let block = &blocks[at];
        if is_passed(block, value, from, found) {
            at = block.end;
        } else {
            found = lesser(found, place_of(&ranges[at], value, from));
            at += 1;
        }
    }
    found
}
