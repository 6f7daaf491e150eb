//! Checksums after words changed (RFC 1624).

ghost use Rattle.std.specs.Prelude.{◌≡◌, ◌+◌, length, sum, ◌∷◌, []};
ghost use Rattle.vsw_header.specs.Fold.{fold_of, long_words, HasChanged};
ghost use Rattle.vsw_header.specs.Update.{changes, update_of};

use crate::sum::{complement, plus};

/// The sum after a word of those that it was taken over changed.
#[inline(always)]
pub(crate) fn changed(total: u64, from: u16, to: u16) -> u64
    ensures { fold_of result ≡ fold_of (total + sum (changes (from ∷ []) (to ∷ []))) }
{
    if from == to {
        total
    } else {
        plus(total, u64::from(!from) + u64::from(to))
    }
}

/// The sum after a number of two words changed. They are looked at only where it did.
#[inline(always)]
pub(crate) fn changed_long(total: u64, from: u32, to: u32) -> u64
    ensures { HasChanged total (long_words from) (long_words to) result }
{
    if from == to {
        return total;
    }
    let high = changed(total, (from / 0x1_0000) as u16, (to / 0x1_0000) as u16);
    changed(high, (from % 0x1_0000) as u16, (to % 0x1_0000) as u16)
}

/// The checksum after words changed: `old` was that of words among which `from` became `to`, place
/// by place. Only the places that differ are added (RFC 1624, equation 3), so that where none does,
/// `old` stays.
pub fn update(old: u16, from: &[u16], to: &[u16]) -> u16
    requires { length from.now ≡ length to.now }
    ensures { result ≡ update_of old from.now to.now }
{
    let mut sum = u64::from(!old);
    for i in 0..from.len() {
        sum = changed(sum, from[i], to[i]);
    }
    complement(sum)
}
