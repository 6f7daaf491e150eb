//! The words of a row, and its body read back from them.

ghost use Rattle.std.specs.Prelude.{◌≡◌, ◌+◌, ◌*◌, ◌<◌, ◌≤◌, ◌^◌, ◌++◌, IsTrue, List, [], ◌∷◌, drop, length, true};
ghost use Rattle.vsw_base.specs.declared.fate.Verdict.TheVariants.{Pass};
ghost use Rattle.vsw_base.specs.Fits.{AreFit};
ghost use Rattle.vsw_transpose.specs.Fits.{fits};
ghost use Rattle.vsw_words.specs.Reading.{IsBody, IsVerdictFit, IsRanged, AreRanged};
ghost use Rattle.vsw_words.specs.Row as spec;
ghost use Rattle.vsw_words.specs.Key.{joined};
ghost use Rattle.vsw_words.specs.Row.{IsBare, acts_words, all_halves, filled, four_bounds, halves};

use crate::act::{act_words, second_half, second_words};
use crate::key::key_words;
use vsw_base::{Dir, Moment, Ufid, Verdict};
use vsw_transpose::{Act, Transposition};

/// What a row says of the packets of a flow.
#[derive(Drop)]
pub struct Body {
    pub verdict: Verdict,
    pub by: Transposition,
    pub until: Moment,
}

impl Body {
    /// A body to read others into. It clears room for the acts: make it once.
    pub fn room() -> Body
        ensures verdict { result.verdict ≡ Pass }
        ensures until { result.until ≡ 0 }
    {
        Body {
            verdict: Verdict::Pass,
            by: Transposition::room(),
            until: Moment::of(0),
        }
    }
}

/// Writes the row of an identity: its words, the verdict, what is done to the headers, and until when that holds. What is
/// done to packets that pass fits their headers.
pub fn row_of(id: &Ufid, verdict: &Verdict, by: &Transposition, until: Moment, out: &mut [u64; 73])
    requires bare { IsBare verdict.now by.now }
    requires fits { verdict.now ≡ Pass → fits by.now id.now.stack ≡ true }
    ensures words { out.new ≡ spec.row_words id.now verdict.now by.now until }
    ensures body { IsBody verdict.now by.now }
    ensures fit { AreFit id.now.stack }
{
    // It tells the proof that the stack is one.
    let _ = id.stack.headers();
    write_row(id, verdict, by.acts(), until, out);
}

/// The number of words beyond which a row is 0, in the order in which a look loads them, told by the first seven of these: words 0, 2, 3, 8, 16, 17
/// and 18. Of words that aren't a row's it is some number from 7 to 73.
pub fn words_in_use(front: &[u64; 7]) -> usize
    ensures value { result ≡ spec.in_use front.now }
    ensures few { result ≤ 73 }
    ensures front { 7 ≤ result }
{
    let body = body_in_use(front[4], front[6]);
    if is_plain_head(front[0]) && body <= 27 {
        4 + body
    } else {
        (16 + body).max(43)
    }
}

/// Whether a key's first word says that there are no encapsulations and no IPv6.
fn is_plain_head(head: u64) -> bool
    ensures { result ≡ spec.is_plain_head head }
{
    head / 4 % 4 == 0 && head / 128 % 2 == 0
}

/// The number of words beyond which a body is 0.
fn body_in_use(verdict: u64, count: u64) -> usize
    ensures value { result ≡ spec.body_in_use verdict count }
    ensures range { (3 ≤ result) × (result ≤ 57) }
{
    if verdict == 0 {
        3 + 3 * count.min(18) as usize
    } else {
        4
    }
}

fn write_row(id: &Ufid, verdict: &Verdict, by: &[Act], until: Moment, out: &mut [u64])
    requires bare { IsBare verdict.now by.now }
    requires few { length (all_halves by.now) ≤ 18 }
    requires room { length out.old ≡ 73 }
    ensures words { out.new ≡ spec.row_words id.now verdict.now by.now until }
    ensures ranges { AreRanged by.now }
    ensures numbers { IsVerdictFit verdict.now }
    ensures fit { AreFit id.now.stack }
{
    let mut key = [0; 16];
    key_words(id, &mut key);
    out[..16].copy_from_slice(&key);
    write_body(verdict, by, until, &mut out[16..]);
}

fn write_body(verdict: &Verdict, by: &[Act], until: Moment, out: &mut [u64])
    requires few { length (all_halves by.now) ≤ 18 }
    requires room { length out.old ≡ 57 }
    ensures words { out.new ≡ spec.body_words verdict.now by.now until }
    ensures ranges { AreRanged by.now }
    ensures numbers { IsVerdictFit verdict.now }
{
    out[..3].copy_from_slice(&[verdict_word(verdict), until.micros(), count_of(by)]);
    write_last(verdict, by, &mut out[3..]);
}

/// The number of acts of the row.
fn count_of(acts: &[Act]) -> u64
    requires { length (all_halves acts.now) ≤ 18 }
    ensures { result ≡ length (all_halves acts.now) }
{
    match acts.split_first() {
        None => 0,
        Some((first, rest)) => halves_of(first) + count_of(rest),
    }
}

/// The number of acts of the row that tell an act.
#[inline(always)]
#[tactic(auto, using(crate::proofs::Halves::number_of))]
fn halves_of(act: &Act) -> u64
    ensures { result ≡ length (halves act.now) }
{
    match second_half(act) {
        None => 1,
        Some(_) => 2,
    }
}

/// Writes what stands behind the number of acts.
fn write_last(verdict: &Verdict, by: &[Act], out: &mut [u64])
    requires few { length (all_halves by.now) ≤ 18 }
    requires room { length out.old ≡ 54 }
    ensures words { out.new ≡ spec.last_words verdict.now by.now }
    ensures ranges { AreRanged by.now }
{
    match verdict {
        Verdict::Pass => write_acts(by, out),
        _ => {
            note_ranges(by);
            out.fill(0);
            out[0] = dropper_word(verdict);
        }
    }
}

/// Writes the words of the acts, and 0 behind them.
fn write_acts(acts: &[Act], out: &mut [u64])
    requires room { 3 * length (all_halves acts.now) ≤ length out.old }
    ensures words { out.new ≡ filled (length out.old) (acts_words (all_halves acts.now)) }
    ensures ranges { AreRanged acts.now }
{
    match acts.split_first() {
        None => out.fill(0),
        Some((first, rest)) => {
            let used = write_act(first, out);
            write_acts(rest, &mut out[used..]);
        }
    }
}

/// Writes the words of an act to the front, and answers how many they are: three, or six for both addresses of IPv6.
#[inline(always)]
fn write_act(act: &Act, out: &mut [u64]) -> usize
    requires room { 3 * length (halves act.now) ≤ length out.old }
    ensures words { out.new ≡ acts_words (halves act.now) ++ drop (3 * length (halves act.now)) out.old }
    ensures used { result ≡ 3 * length (halves act.now) }
    ensures range { IsRanged act.now }
{
    out[..3].copy_from_slice(&act_words(act));
    match second_half(act) {
        None => 3,
        Some(dst) => {
            out[3..6].copy_from_slice(&second_words(dst));
            6
        }
    }
}

/// Says that the numbers of acts lie in the ranges of their types.
fn note_ranges(acts: &[Act])
    ensures { AreRanged acts.now }
{
    if let Some((first, rest)) = acts.split_first() {
        let _ = act_words(first);
        note_ranges(rest);
    }
}

fn verdict_word(verdict: &Verdict) -> u64
    ensures word { result ≡ spec.verdict_word verdict.now }
    ensures numbers { IsVerdictFit verdict.now }
{
    match verdict {
        Verdict::Pass => 0,
        Verdict::Rule {
            controller,
            layer,
            group,
            rule,
        } => {
            let _numbers = (*controller, *layer, *group, *rule);
            1
        }
        Verdict::Default {
            controller,
            layer,
            dir,
        } => {
            let _numbers = (*controller, *layer);
            match dir {
                Dir::Out => 2,
                Dir::In => 3,
            }
        }
    }
}

fn dropper_word(verdict: &Verdict) -> u64
    ensures { result ≡ spec.dropper_word verdict.now }
{
    match *verdict {
        Verdict::Pass => 0,
        Verdict::Rule {
            controller,
            layer,
            group,
            rule,
        } => four(controller, layer, group, rule),
        Verdict::Default {
            controller,
            layer,
            ..
        } => four(controller, layer, 0, 0),
    }
}

fn four(first: u16, second: u16, third: u16, fourth: u16) -> u64
    ensures { result ≡ joined four_bounds (first ∷ second ∷ third ∷ fourth ∷ []) }
{
    let high = u64::from(fourth) * 0x1_0000 + u64::from(third);
    (high * 0x1_0000 + u64::from(second)) * 0x1_0000 + u64::from(first)
}
