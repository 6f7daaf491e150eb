//! The first look: at the ranges whose places come next.

ghost use Rattle.std.specs.Prelude.{◌≡◌};
ghost use Rattle.std.specs.List.Sorted.{IsNonDecreasingBy};
ghost use Rattle.vsw_index.specs.Near.{IsNear};
ghost use Rattle.vsw_index.specs.declared.placed_range.PlacedRange.{PlacedRange};

use crate::placed_range::PlacedRange;

/// How many ranges are looked at.
const FEW: usize = 16;

/// What the first look tells.
#[derive(Clone, Copy)]
pub enum Near {
    /// The least place.
    Place(u32),
    /// There is none, for the list ends here.
    Nowhere,
    /// The next few ranges don't hold the value.
    Farther,
}

/// Looks at the next few places at or above `from`. Where many ranges hold the value, one of them is
/// among these; a search by the value would go over most of them.
pub fn look(ranges: &[PlacedRange], value: u64, from: u32) -> Near
    requires { IsNonDecreasingBy (λ (r : PlacedRange). r.place) ranges.now }
    ensures { IsNear ranges.now value from result }
{
    let start = ranges.partition_point(|range| range.place < from);
    let is_last = ranges.len() - start <= FEW;
    let end = if is_last { ranges.len() } else { start + FEW };
    for at in start..end {
        let range = &ranges[at];
        if range.low <= value && value <= range.high {
            return Near::Place(range.place);
        }
    }
    if end == ranges.len() {
        Near::Nowhere
    } else {
        Near::Farther
    }
}
