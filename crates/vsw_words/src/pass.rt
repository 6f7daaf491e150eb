//! Acts done at headers as they are read from the words of a body.

ghost use Rattle.std.specs.Prelude.{◌≡◌, ◌≤◌, ◌+◌, ◌++◌, ℕ, List, [], is_some, length, true};
ghost use Rattle.vsw_base.specs.declared.fate.Verdict.TheVariants.{Pass};
ghost use Rattle.vsw_words.specs.Doing.{AreOf};
ghost use Rattle.vsw_transpose.specs.declared.act.Act.{Act};
ghost use Rattle.vsw_transpose.specs.Apply as spec;
ghost use Rattle.vsw_transpose.specs.Fits.{fits};
ghost use Rattle.vsw_words.specs.Reading.{or_none, read_acts, read_joined};

use crate::act::is_pair;
use crate::kind::{push_both, push_new, push_old};
use crate::reading::{behind, first_three, word};
use vsw_base::{Header, Headers, Stack, Writes};

/// Does the acts of the words of a pass at a stack that they fit. It takes no room for them.
#[inline(always)]
pub fn do_words(words: &[u64; 57], stack: &Stack, out: &mut Stack)
    requires { (by : List Act) × (until : ℕ) × AreOf words.now Pass by until × (fits by stack.now ≡ true) }
    ensures { (by : List Act) (until : ℕ) → AreOf words.now Pass by until → out.new ≡ spec.apply by stack.now }
{
    out.rewrite(&Done {
        count: word(&words[..], 2),
        words: behind(&words[..]),
        to: stack,
    });
}

/// So many acts, as words, at a stack.
#[derive(Drop)]
struct Done<'a> {
    count: u64,
    words: &'a [u64],
    to: &'a Stack,
}

impl Writes for Done<'_> {
    ghost gives = { λ s. spec.apply (or_none (read_joined s.count s.words.now)) s.to.now };

    ghost is_ready = { λ s. is_some (read_acts s.count s.words.now) ≡ true };

    #[inline(always)]
    fn write(&self, out: &mut Headers) {
        do_acts(self.count, self.words, self.to.headers(), out);
    }
}

/// Appends what so many acts of a row make of the headers. A change of both addresses of IPv6 is two of these, at one
/// header.
fn do_acts(count: u64, words: &[u64], headers: &[Header], out: &mut Headers)
    requires told { is_some (read_acts count words.now) ≡ true }
    requires room { length out.old + length (spec.apply (or_none (read_joined count words.now)) headers.now) ≤ 9 }
    ensures { out.new ≡ out.old ++ spec.apply (or_none (read_joined count words.now)) headers.now }
{
    if count == 0 {
        append(headers, out);
        return;
    }
    let (head, first, second) = first_three(words);
    let rest = behind(words);
    let kind = head % 16;
    if kind < 4 {
        push_new(kind, head, first, second, out);
        do_acts(count - 1, rest, headers, out);
        return;
    }
    let Some((header, others)) = headers.split_first() else {
        return;
    };
    if kind == 4 {
        do_acts(count - 1, rest, others, out);
        return;
    }
    if is_pair(kind, count - 1, rest) {
        push_both(first, second, count - 1, rest, header, out);
        do_acts(count - 2, behind(rest), others, out);
        return;
    }
    push_old(kind, head, first, second, header, out);
    do_acts(count - 1, rest, others, out);
}

/// Appends headers behind the last act.
fn append(headers: &[Header], out: &mut Headers)
    requires room { length out.old + length headers.now ≤ 9 }
    ensures { out.new ≡ out.old ++ headers.now }
{
    if let Some((first, rest)) = headers.split_first() {
        out.push(*first);
        append(rest, out);
    }
}
