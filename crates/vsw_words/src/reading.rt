//! A body read back from its words.

ghost use Rattle.std.specs.Prelude.{◌≡◌, ◌+◌, ◌*◌, ◌<◌, ◌≤◌, ◌^◌, ◌++◌, ◌∷◌, ◌==◌, ◌&&◌, drop, get_or, [], ℕ, List, Some, true, length, is_some, IfSome};
ghost use Rattle.vsw_base.specs.declared.fate.Verdict.{Verdict};
ghost use Rattle.vsw_transpose.specs.declared.act.Act.{Act};
ghost use Rattle.vsw_transpose.specs.Form.{is_form};
ghost use Rattle.vsw_words.specs.Reading as spec;
ghost use Rattle.vsw_words.specs.Reading.{IsBody, IsTold, IsLast, IsDropper, or_none};
ghost use Rattle.vsw_words.specs.Row.{all_halves, body_words, last_words, verdict_word};
ghost use Rattle.vsw_words.specs.Stage.{is_read};
ghost use Rattle.vsw_words.specs.declared.row.Body.{Body};

use crate::act::{act_of, is_act, joined_act};
use crate::row::Body;
use crate::stage::{Stage, is_whole, next};
use vsw_base::{Dir, Moment, Verdict};
use vsw_transpose::{Acts, Transposition, WritesActs};

/// The body that the words are of: words 16 to 72 of a row. None exactly where they are of no row. It makes
/// a room for the acts: on a packet's way, use `body_to`.
pub fn body_of(words: &[u64; 57]) -> Option<Body>
    ensures told { IfSome result (λ b. IsTold words.now b.verdict b.by b.until) }
    ensures back { (verdict : Verdict) (by : List Act) (until : ℕ) → IsBody verdict by → words.now ≡ body_words verdict by until → result ≡ Some (record { verdict = verdict; by = by; until = until }) }
{
    let mut body = Body::room();
    if body_to(words, &mut body) {
        Some(body)
    } else {
        None
    }
}

/// Reads the body that the words are of into a room. False exactly where they are of no row; what then stands
/// there means nothing.
pub fn body_to(words: &[u64; 57], out: &mut Body) -> bool
    ensures told { result ≡ true → IsTold words.now out.new.verdict out.new.by out.new.until }
    ensures back { (verdict : Verdict) (by : List Act) (until : ℕ) → IsBody verdict by → words.now ≡ body_words verdict by until → (result ≡ true) × (out.new.verdict ≡ verdict) × (out.new.by ≡ by) × (out.new.until ≡ until) }
{
    read_words(&words[..], out)
}

/// Reads the body of a row's words into a room. They are known to be of one, so nothing of them is tested.
pub fn body_from(words: &[u64; 57], out: &mut Body)
    requires { (verdict : Verdict) × (by : List Act) × (until : ℕ) × IsBody verdict by × (words.now ≡ body_words verdict by until) }
    ensures { (verdict : Verdict) (by : List Act) (until : ℕ) → IsBody verdict by → words.now ≡ body_words verdict by until → (out.new.verdict ≡ verdict) × (out.new.by ≡ by) × (out.new.until ≡ until) }
{
    take_words(&words[..], out);
}

fn take_words(words: &[u64], out: &mut Body)
    requires long { length words.now ≡ 57 }
    requires of { (verdict : Verdict) × (by : List Act) × (until : ℕ) × IsBody verdict by × (words.now ≡ body_words verdict by until) }
    ensures { (verdict : Verdict) (by : List Act) (until : ℕ) → IsBody verdict by → words.now ≡ body_words verdict by until → (out.new.verdict ≡ verdict) × (out.new.by ≡ by) × (out.new.until ≡ until) }
{
    if let [verdict, until, count, last @ ..] = words {
        take_body(*verdict, *until, *count, last, out);
    }
}

fn take_body(verdict: u64, until: u64, count: u64, last: &[u64], out: &mut Body)
    requires long { length last.now ≡ 54 }
    requires of { (v : Verdict) × (by : List Act) × (u : ℕ) × IsBody v by × (verdict ∷ until ∷ count ∷ last.now ≡ body_words v by u) }
    ensures { (v : Verdict) (by : List Act) (u : ℕ) → IsBody v by → verdict ∷ until ∷ count ∷ last.now ≡ body_words v by u → (out.new.verdict ≡ v) × (out.new.by ≡ by) × (out.new.until ≡ u) }
{
    out.until = Moment::of(until);
    match verdict_of(verdict, word(last, 0)) {
        // The words of a body have a verdict.
        None => {}
        Some(verdict) => {
            out.verdict = verdict;
            take_last(&verdict, count, last, &mut out.by);
        }
    }
}

/// Reads the acts of a pass, and none of a drop.
fn take_last(verdict: &Verdict, count: u64, last: &[u64], by: &mut Transposition)
    requires long { length last.now ≡ 54 }
    requires of { (xs : List Act) × IsBody verdict.now xs × (count ≡ length (all_halves xs)) × (last.now ≡ last_words verdict.now xs) }
    ensures { (xs : List Act) → IsBody verdict.now xs → count ≡ length (all_halves xs) → last.now ≡ last_words verdict.now xs → by.new ≡ xs }
{
    match verdict {
        Verdict::Pass => take_acts(count, last, by),
        Verdict::Rule { .. } => take_acts(0, &[], by),
        Verdict::Default { .. } => take_acts(0, &[], by),
    }
}

/// Reads so many acts, which are those of a transposition.
fn take_acts(count: u64, words: &[u64], by: &mut Transposition)
    requires acts { is_some (spec.read_acts count words.now) ≡ true }
    requires form { is_form (or_none (spec.read_joined count words.now)) ≡ true }
    requires few { count ≤ 18 }
    ensures { by.new ≡ or_none (spec.read_joined count words.now) }
{
    by.rewrite(&ActWords { count, words });
}

fn read_words(words: &[u64], out: &mut Body) -> bool
    requires { length words.now ≡ 57 }
    ensures told { result ≡ true → IsTold words.now out.new.verdict out.new.by out.new.until }
    ensures back { (verdict : Verdict) (by : List Act) (until : ℕ) → IsBody verdict by → words.now ≡ body_words verdict by until → (result ≡ true) × (out.new.verdict ≡ verdict) × (out.new.by ≡ by) × (out.new.until ≡ until) }
{
    match words {
        [verdict, until, count, last @ ..] => read_body(*verdict, *until, *count, last, out),
        _ => false,
    }
}

fn read_body(verdict: u64, until: u64, count: u64, last: &[u64], out: &mut Body) -> bool
    requires { length last.now ≡ 54 }
    ensures told { result ≡ true → IsTold (verdict ∷ until ∷ count ∷ last.now) out.new.verdict out.new.by out.new.until }
    ensures back { (v : Verdict) (by : List Act) (u : ℕ) → IsBody v by → verdict ∷ until ∷ count ∷ last.now ≡ body_words v by u → (result ≡ true) × (out.new.verdict ≡ v) × (out.new.by ≡ by) × (out.new.until ≡ u) }
{
    out.until = Moment::of(until);
    match verdict_of(verdict, word(last, 0)) {
        None => false,
        Some(verdict) => {
            out.verdict = verdict;
            read_last(&verdict, count, last, &mut out.by)
        }
    }
}

/// The word at a place.
#[inline(always)]
pub(crate) fn word(words: &[u64], place: usize) -> u64
    requires { place < length words.now }
    ensures { result ≡ get_or words.now place 0 }
{
    words[place]
}

/// Reads what stands behind the number of acts.
fn read_last(verdict: &Verdict, count: u64, last: &[u64], by: &mut Transposition) -> bool
    requires { length last.now ≡ 54 }
    ensures told { result ≡ true → IsDropper verdict.now (get_or last.now 0 0) → IsLast verdict.now count last.now by.new }
    ensures back { (xs : List Act) → IsBody verdict.now xs → count ≡ length (all_halves xs) → last.now ≡ last_words verdict.now xs → (result ≡ true) × (by.new ≡ xs) }
{
    match verdict {
        Verdict::Pass => read_pass(count, last, by),
        Verdict::Rule { .. } => read_drop(count, last, by),
        Verdict::Default { .. } => read_drop(count, last, by),
    }
}

/// Reads what a drop does to the headers: nothing.
fn read_drop(count: u64, last: &[u64], by: &mut Transposition) -> bool
    requires { 0 < length last.now }
    ensures value { result ≡ ((count == 0) && spec.are_zero (drop 1 last.now)) }
    ensures bare { by.new ≡ [] }
{
    by.rewrite(&ActWords {
        count: 0,
        words: &[],
    });
    count == 0 && are_zero(&last[1..])
}

/// The verdict of its word and the word of who drops.
#[inline(always)]
pub(crate) fn verdict_of(word: u64, dropper: u64) -> Option<Verdict>
    ensures value { result ≡ spec.verdict_of word dropper }
    ensures word { IfSome result (λ v. (word ≡ verdict_word v) × IsDropper v dropper) }
{
    if word == 0 {
        Some(Verdict::Pass)
    } else if word == 1 {
        Some(Verdict::Rule {
            controller: (dropper % 0x1_0000) as u16,
            layer: (dropper / 0x1_0000 % 0x1_0000) as u16,
            group: (dropper / 0x1_0000_0000 % 0x1_0000) as u16,
            rule: (dropper / 0x1_0000_0000_0000 % 0x1_0000) as u16,
        })
    } else if word == 2 && dropper < 0x1_0000_0000 {
        Some(Verdict::Default {
            controller: (dropper % 0x1_0000) as u16,
            layer: (dropper / 0x1_0000 % 0x1_0000) as u16,
            dir: Dir::Out,
        })
    } else if word == 3 && dropper < 0x1_0000_0000 {
        Some(Verdict::Default {
            controller: (dropper % 0x1_0000) as u16,
            layer: (dropper / 0x1_0000 % 0x1_0000) as u16,
            dir: Dir::In,
        })
    } else {
        None
    }
}

/// So many acts, as words.
#[derive(Drop)]
struct ActWords<'a> {
    count: u64,
    words: &'a [u64],
}

impl WritesActs for ActWords<'_> {
    ghost gives = { λ a. or_none (spec.read_joined a.count a.words.now) };

    ghost is_ready = { λ a. (is_some (spec.read_acts a.count a.words.now) ≡ true) × (a.count ≤ 18) };

    #[inline(always)]
    fn write(&self, out: &mut Acts) {
        write_acts(self.count, self.words, out);
    }
}

/// Reads so many acts of a transposition, with 0 behind them. Only when all are found to be of one does it
/// write them.
fn read_pass(count: u64, words: &[u64], by: &mut Transposition) -> bool
    ensures told { result ≡ true → spec.read_joined count words.now ≡ Some by.new }
    ensures form { result ≡ true → is_form by.new ≡ true }
    ensures back { (xs : List Act) → spec.read_joined count words.now ≡ Some xs → is_form xs ≡ true → count ≤ 18 → (result ≡ true) × (by.new ≡ xs) }
{
    if count > 18 {
        return false;
    }
    if !are_acts(Stage::Pops, count, words) {
        return false;
    }
    by.rewrite(&ActWords { count, words });
    true
}

/// Whether the words are of so many acts, with 0 behind them, and the acts go on to a whole form.
fn are_acts(stage: Stage, count: u64, words: &[u64]) -> bool
    ensures { result ≡ is_read stage (spec.read_acts count words.now) }
{
    if count == 0 {
        return is_whole(stage) && are_zero(words);
    }
    match words {
        [head, first, second, rest @ ..] => {
            is_act(*head, *first, *second)
                && are_acts(
                    next(stage, &act_of(*head, *first, *second)),
                    count - 1,
                    rest,
                )
        }
        _ => false,
    }
}

/// Appends the acts that so many acts of a row tell. A change of both addresses of IPv6 is two of these.
fn write_acts(count: u64, words: &[u64], out: &mut Acts)
    requires told { is_some (spec.read_acts count words.now) ≡ true }
    requires room { length out.old + count ≤ 18 }
    ensures { out.new ≡ out.old ++ or_none (spec.read_joined count words.now) }
{
    if count == 0 {
        return;
    }
    let (head, first, second) = first_three(words);
    let rest = behind(words);
    match joined_act(head, first, second, count - 1, rest) {
        None => {
            out.push(act_of(head, first, second));
            write_acts(count - 1, rest, out);
        }
        Some(both) => {
            out.push(both);
            write_acts(count - 2, behind(rest), out);
        }
    }
}

/// The words of the first act.
#[inline(always)]
pub(crate) fn first_three(words: &[u64]) -> (u64, u64, u64)
    requires { 3 ≤ length words.now }
    ensures { result ≡ (get_or words.now 0 0, get_or words.now 1 0, get_or words.now 2 0) }
{
    (words[0], words[1], words[2])
}

/// The words behind those of an act.
#[inline(always)]
pub(crate) fn behind(words: &[u64]) -> &[u64]
    requires { 3 ≤ length words.now }
    ensures { result.now ≡ drop 3 words.now }
{
    &words[3..]
}

/// All are read, in no order: that is quicker than to stop at the first one that isn't 0.
#[inline(always)]
fn are_zero(words: &[u64]) -> bool
    ensures { result ≡ spec.are_zero words.now }
{
    let mut all = 0;
    for word in words {
        all |= *word;
    }
    all == 0
}
