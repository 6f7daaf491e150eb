//! What is left of a frame once encapsulations went.

ghost use Rattle.std.specs.Prelude.{◌≡◌, ◌≤◌, ◌<◌, ◌+◌, List, drop, length};
ghost use Rattle.vsw_base.specs.declared.header.Header.{Header};
ghost use Rattle.vsw_base.specs.Shape.{encaps, inner};
ghost use Rattle.vsw_frame.specs.Frame.{parts};
ghost use Rattle.vsw_frame.specs.Layout.{IsAround};
ghost use Rattle.vsw_frame.specs.Levels.{level_fields, levels_of, IsInOrder, Stand};

use crate::frame::{Frame, Levels};

/// All levels of a frame.
#[inline(always)]
pub fn all_levels<'a>(frame: &Frame<'a>) -> Levels<'a>
    ensures levels { levels_of result ≡ (parts frame.now).levels }
    ensures count { length (levels_of result) ≡ encaps (parts frame.now).stack + 1 }
    ensures stand { Stand (inner (parts frame.now).stack) result }
{
    Levels {
        first: frame.first,
        second: frame.second,
        third: frame.third,
    }
}

/// The levels without their first.
#[inline(always)]
pub fn within<'a>(levels: &Levels<'a>) -> Levels<'a>
    requires more { 1 < length (levels_of levels.now) }
    requires in_order { IsInOrder levels.now }
    ensures levels { levels_of result ≡ drop 1 (levels_of levels.now) }
    ensures in_order { IsInOrder result }
    ensures stand { (hs : List Header) → Stand hs levels.now → Stand hs result }
    ensures around { (hs : List Header) → Stand hs levels.now → IsAround (level_fields levels.now.first) result.first.bytes.now }
{
    let Some(second) = levels.second else {
        unreachable!()
    };
    Levels {
        first: second,
        second: levels.third,
        third: None,
    }
}

/// The levels without so many of the first.
#[inline(always)]
pub fn levels_without<'a>(levels: &Levels<'a>, dropped: u8) -> Levels<'a>
    requires more { dropped < length (levels_of levels.now) }
    requires in_order { IsInOrder levels.now }
    ensures levels { levels_of result ≡ drop dropped (levels_of levels.now) }
    ensures in_order { IsInOrder result }
    ensures stand { (hs : List Header) → Stand hs levels.now → Stand hs result }
{
    match dropped {
        0 => *levels,
        1 => within(levels),
        _ => within(&within(levels)),
    }
}
