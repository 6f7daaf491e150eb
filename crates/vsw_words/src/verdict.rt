//! The verdict and the until that a body's words tell.

ghost use Rattle.std.specs.Prelude.{◌≡◌, ℕ, List};
ghost use Rattle.vsw_base.specs.declared.fate.Verdict.{Verdict};
ghost use Rattle.vsw_words.specs.Doing.{AreOf};
ghost use Rattle.vsw_transpose.specs.declared.act.Act.{Act};

use crate::reading::{verdict_of, word};
use vsw_base::{Moment, Verdict};

/// The verdict of the body that the words are of: words 16 to 72 of a row.
#[inline(always)]
pub fn verdict_in(words: &[u64; 57]) -> Verdict
    ensures { (verdict : Verdict) (by : List Act) (until : ℕ) → AreOf words.now verdict by until → result ≡ verdict }
{
    match verdict_of(word(&words[..], 0), word(&words[..], 3)) {
        Some(verdict) => verdict,
        // The words of a body have a verdict.
        None => Verdict::Pass,
    }
}

/// Until when that holds.
#[inline(always)]
pub fn until_in(words: &[u64; 57]) -> Moment
    ensures { (verdict : Verdict) (by : List Act) (until : ℕ) → AreOf words.now verdict by until → result ≡ until }
{
    Moment::of(word(&words[..], 1))
}
