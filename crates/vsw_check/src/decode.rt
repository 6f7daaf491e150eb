//! Bytes of hexadecimal text, by a table.

ghost use Rattle.std.specs.Prelude.{◌≡◌, ◌*◌, IfOk, MatchBool, Some, None, length, option_map};
ghost use Rattle.hex.specs.Hex.{hex_digit_value};
ghost use Rattle.vsw_check.specs.Private.Decode.{decoded, pair_of};

use std::alloc::Global;
use vsw_base::NoMemory;

/// The value of each digit, in either case; 16 of a byte that is none.
const VALUES: [u8; 256] = [
    16, 16, 16, 16, 16, 16, 16, 16, 16, 16, 16, 16, 16, 16, 16, 16, 16, 16, 16, 16, 16, 16, 16, 16,
    16, 16, 16, 16, 16, 16, 16, 16, 16, 16, 16, 16, 16, 16, 16, 16, 16, 16, 16, 16, 16, 16, 16, 16,
    0, 1, 2, 3, 4, 5, 6, 7, 8, 9, 16, 16, 16, 16, 16, 16, 16, 10, 11, 12, 13, 14, 15, 16, 16, 16,
    16, 16, 16, 16, 16, 16, 16, 16, 16, 16, 16, 16, 16, 16, 16, 16, 16, 16, 16, 16, 16, 16, 16, 10,
    11, 12, 13, 14, 15, 16, 16, 16, 16, 16, 16, 16, 16, 16, 16, 16, 16, 16, 16, 16, 16, 16, 16, 16,
    16, 16, 16, 16, 16, 16, 16, 16, 16, 16, 16, 16, 16, 16, 16, 16, 16, 16, 16, 16, 16, 16, 16, 16,
    16, 16, 16, 16, 16, 16, 16, 16, 16, 16, 16, 16, 16, 16, 16, 16, 16, 16, 16, 16, 16, 16, 16, 16,
    16, 16, 16, 16, 16, 16, 16, 16, 16, 16, 16, 16, 16, 16, 16, 16, 16, 16, 16, 16, 16, 16, 16, 16,
    16, 16, 16, 16, 16, 16, 16, 16, 16, 16, 16, 16, 16, 16, 16, 16, 16, 16, 16, 16, 16, 16, 16, 16,
    16, 16, 16, 16, 16, 16, 16, 16, 16, 16, 16, 16, 16, 16, 16, 16, 16, 16, 16, 16, 16, 16, 16, 16,
    16, 16, 16, 16, 16, 16, 16, 16, 16, 16, 16, 16, 16, 16,
];

#[inline(always)]
fn digit(byte: u8) -> Option<u8>
    ensures { result ≡ hex_digit_value byte }
{
    let value = VALUES[usize::from(byte)];
    if value < 16 { Some(value) } else { None }
}

/// The byte that two digits write.
#[inline(always)]
#[tactic(auto, using(crate::proofs::Hex::digit_is_small))]
fn pair(high: u8, low: u8) -> Option<u8>
    ensures { result ≡ pair_of high low }
{
    let high = digit(high)?;
    let low = digit(low)?;
    Some(high * 16 + low)
}

/// Writes the bytes that a text of twice their number writes, from the last one on; or answers that it isn't one of digits.
fn decode_into(text: &[u8], out: &mut [u8]) -> bool
    requires { length text.now ≡ 2 * length out.old }
    ensures { MatchBool result (decoded text.now ≡ Some out.new) (decoded text.now ≡ None) }
{
    let mut at = out.len();
    while at > 0 {
        let place = at - 1;
        match pair(text[2 * place], text[2 * place + 1]) {
            Some(byte) => out[place] = byte,
            None => return false,
        }
        at = place;
    }
    true
}

/// The bytes, so many, that a text of twice their number writes; none where it isn't one of digits.
pub(crate) fn decode(alloc: Global, text: &[u8], len: usize) -> Result<Option<Vec<u8>>, NoMemory>
    requires { length text.now ≡ 2 * len }
    ensures { IfOk result (λ o. option_map (λ v. v.items) o ≡ decoded text.now) }
{
    let Ok(mut out) = vec![in alloc; 0u8; len] else {
        return Err(NoMemory);
    };
    if decode_into(text, out.as_mut_slice()) {
        Ok(Some(out))
    } else {
        Ok(None)
    }
}
