//! Numbers of a line.

ghost use Rattle.std.specs.Prelude.{◌≡◌, ◌^◌, map};
ghost use Rattle.vsw_report.specs.Words.{number_in};
ghost use Rattle.vsw_check.specs.Private.Words.{pair_in, four_in};

use crate::parts::Parts;

/// The number that digits write, below 2^32. Zeros may stand before it.
#[tactic(auto, using(crate::proofs::Digits::too_large, crate::proofs::Digits::whole_number))]
pub(crate) fn number(word: &[u8]) -> Option<u32>
    ensures { result ≡ number_in (2 ^ 32) word.now }
{
    let mut value: u32 = 0;
    for byte in word {
        if !byte.is_ascii_digit() {
            return None;
        }
        let more = 10 * u64::from(value) + u64::from(*byte - b'0');
        if more >= 4_294_967_296 {
            return None;
        }
        value = more as u32;
    }
    Some(value)
}

/// The same below 2^16.
#[tactic(auto, using(crate::proofs::Digits::short_number, crate::proofs::Digits::no_short_number, crate::proofs::Digits::long_number))]
pub(crate) fn short_number(word: &[u8]) -> Option<u16>
    ensures { result ≡ number_in (2 ^ 16) word.now }
{
    let value = number(word)?;
    if value < 65_536 {
        Some(value as u16)
    } else {
        None
    }
}

/// C/L: a controller and its layer.
pub(crate) fn pair(path: &mut Parts<'_>) -> Option<(u16, u16)>
    ensures { result ≡ pair_in (map (number_in (2 ^ 16)) path.old) }
{
    let controller = short_number(path.next()?)?;
    let layer = short_number(path.next()?)?;
    match path.next() {
        Some(_) => None,
        None => Some((controller, layer)),
    }
}

/// C/L/G/R: a controller, its layer, the layer's group and the group's rule.
pub(crate) fn four(path: &mut Parts<'_>) -> Option<(u16, u16, u16, u16)>
    ensures { result ≡ four_in (map (number_in (2 ^ 16)) path.old) }
{
    let controller = short_number(path.next()?)?;
    let layer = short_number(path.next()?)?;
    let group = short_number(path.next()?)?;
    let rule = short_number(path.next()?)?;
    match path.next() {
        Some(_) => None,
        None => Some((controller, layer, group, rule)),
    }
}
