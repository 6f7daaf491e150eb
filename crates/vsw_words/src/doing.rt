//! What the acts of a body's words come to, told without doing them.

ghost use Rattle.std.specs.Prelude.{◌≡◌, ◌≤◌, ◌+◌, ◌||◌, ◌==◌, ℕ, List, is_some, nat_lt, true};
ghost use Rattle.vsw_base.specs.declared.fate.Verdict.TheVariants.{Pass};
ghost use Rattle.vsw_base.specs.declared.header.Header.{Header};
ghost use Rattle.vsw_base.specs.Shape.{is_stack};
ghost use Rattle.vsw_words.specs.Doing.{AreOf, Moves, doing_by, edits};
ghost use Rattle.vsw_words.specs.Private.Acts as spec;
ghost use Rattle.vsw_transpose.specs.declared.act.Act.{Act};
ghost use Rattle.vsw_transpose.specs.Fits.{fits};
ghost use Rattle.vsw_words.specs.Reading.{or_none, read_acts};

use crate::reading::{behind, word};

/// What acts come to.
#[derive(Clone, Copy, Debug, PartialEq, Eq)]
pub struct Doing {
    /// Encapsulations that are popped.
    pub pops: u8,
    /// Encapsulations that are pushed.
    pub pushes: u8,
    /// Not each header is left as it is.
    pub edits: bool,
}

/// What the acts of the words of a pass come to.
#[inline(always)]
pub fn doing_of(words: &[u64; 57]) -> Doing
    requires { (by : List Act) × (until : ℕ) × AreOf words.now Pass by until }
    ensures value { (by : List Act) (until : ℕ) → AreOf words.now Pass by until → result ≡ doing_by by }
    ensures moves { (by : List Act) (until : ℕ) (hs : List Header) → AreOf words.now Pass by until → is_stack hs ≡ true → fits by hs ≡ true → Moves by hs result }
{
    let mut doing = counted(0, 0, false);
    tally(word(&words[..], 2), behind(&words[..]), 0, 0, &mut doing);
    doing
}

/// Counts on from so many pops and pushes. Behind an act at a header that stays there are none. It leaves what it counted
/// in a room, since a recursion that answers a struct is compiled to no loop.
fn tally(count: u64, words: &[u64], pops: u8, pushes: u8, out: &mut Doing)
    requires few { pops + pushes + count ≤ 18 }
    requires told { is_some (read_acts count words.now) ≡ true }
    ensures { out.new ≡ spec.tallied pops pushes (or_none (read_acts count words.now)) }
{
    if count == 0 {
        *out = counted(pops, pushes, false);
        return;
    }
    let kind = word(words, 0) % 16;
    if kind < 4 {
        tally(count - 1, behind(words), pops, pushes + 1, out);
        return;
    }
    if kind == 4 {
        tally(count - 1, behind(words), pops + 1, pushes, out);
        return;
    }
    if pops + pushes > 0 {
        *out = counted(pops, pushes, true);
        return;
    }
    *out = counted(pops, pushes, are_edits(count, words));
}

/// So many pops and pushes, of three headers each.
#[inline(always)]
fn counted(pops: u8, pushes: u8, rest: bool) -> Doing
    requires few { pops + pushes ≤ 18 }
    ensures { result ≡ spec.counted pops pushes rest }
{
    Doing {
        pops: pops / 3,
        pushes: pushes / 3,
        edits: pops + pushes > 0 || rest,
    }
}

/// Whether one of the acts doesn't leave its header as it is.
fn are_edits(count: u64, words: &[u64]) -> bool
    requires told { is_some (read_acts count words.now) ≡ true }
    ensures { result ≡ edits (or_none (read_acts count words.now)) }
{
    if count == 0 {
        return false;
    }
    if word(words, 0) % 16 == 8 {
        are_edits(count - 1, behind(words))
    } else {
        true
    }
}
