//! The text of 32 bytes, by vectors of 32 lanes.

ghost use Rattle.std.specs.Prelude.{◌≡◌, ◌+◌, ◌*◌, ◌<◌, ◌≤◌, ◌++◌, map, take, drop, length};
ghost use Rattle.std.specs.Simd.Lanes.{Each1};
ghost use Rattle.hex.specs.Hex.{encode_lower};
ghost use Rattle.vsw_report.specs.Digit.{high, low, zipped};

use std::simd::prelude::*;

/// The digits of numbers below sixteen, once for each half of a vector: a look-up reads the half that its lane is in.
const DIGITS: [u8; 32] = *b"0123456789abcdef0123456789abcdef";

#[inline(always)]
fn highs(v: u8x32) -> u8x32
    ensures { result ≡ map high v }
{
    u8x32::from_array(DIGITS).swizzle_dyn_within::<16>(v >> u8x32::splat(4))
}

#[inline(always)]
fn lows(v: u8x32) -> u8x32
    ensures { result ≡ map low v }
{
    u8x32::from_array(DIGITS).swizzle_dyn_within::<16>(v & u8x32::splat(15))
}

/// The first 32 of the digits, high and low in turn.
#[inline(always)]
fn front(high: u8x32, low: u8x32) -> u8x32
    ensures lanes { result ≡ take 32 (zipped high low) }
    ensures long { length result ≡ 32 }
{
    high.shuffle(
        low,
        [
            0, 32, 1, 33, 2, 34, 3, 35, 4, 36, 5, 37, 6, 38, 7, 39, 8, 40, 9, 41, 10, 42, 11, 43,
            12, 44, 13, 45, 14, 46, 15, 47,
        ],
    )
}

/// The last 32 of the digits, high and low in turn.
#[inline(always)]
fn back(high: u8x32, low: u8x32) -> u8x32
    ensures lanes { result ≡ drop 32 (zipped high low) }
    ensures long { length result ≡ 32 }
{
    high.shuffle(
        low,
        [
            16, 48, 17, 49, 18, 50, 19, 51, 20, 52, 21, 53, 22, 54, 23, 55, 24, 56, 25, 57, 26, 58,
            27, 59, 28, 60, 29, 61, 30, 62, 31, 63,
        ],
    )
}

/// Writes the text of the 32 bytes from this place on over the first 64 bytes of `text`.
#[inline(always)]
pub fn write_lanes(bytes: &[u8], from: usize, text: &mut [u8])
    requires bytes { from + 32 ≤ length bytes.now }
    requires text { 64 ≤ length text.old }
    ensures { text.new ≡ encode_lower (take 32 (drop from bytes.now)) ++ drop 64 text.old }
{
    let v = u8x32::from_slice(&bytes[from..]);
    let high = highs(v);
    let low = lows(v);
    front(high, low).copy_to_slice(text);
    back(high, low).copy_to_slice(&mut text[32..]);
}
