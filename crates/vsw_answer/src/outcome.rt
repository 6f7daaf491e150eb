//! What the words of a row's body make of a packet.

ghost use Rattle.std.specs.Prelude.{◌≡◌, ◌<◌, ◌+◌, ◌*◌, ℕ, List, None, Some, false, true, nat_lt, if◌then◌else◌};
ghost use Rattle.vsw_answer.specs.Private.Said.{IsEdited, IsOf, fate_passed, fate_said};
ghost use Rattle.vsw_base.specs.declared.fate.Fate.TheVariants as fate;
ghost use Rattle.vsw_base.specs.declared.fate.Verdict.TheVariants as verdict;
ghost use Rattle.vsw_words.specs.Doing.{AreOf};
ghost use Rattle.vsw_frame.specs.Bytes.{total_over};
ghost use Rattle.vsw_port.specs.Crossed.{IsOwn};
ghost use Rattle.vsw_port.specs.Long as long;
ghost use Rattle.vsw_transpose.specs.declared.act.Act.{Act};
ghost use Rattle.vsw_transpose.specs.Apply.{apply};
ghost use Rattle.vsw_transpose.specs.Fits as fit;
ghost use Rattle.vsw_words.specs.declared.row.Body.{Body};

use vsw_base::{Cause, Crossing, Fate, Sizes, Stack, Verdict};
use vsw_port::Outcome;
use vsw_words::{do_words, doing_of, verdict_in};

/// The most bytes that the total length of an IPv4 header can tell.
const MOST: u64 = 65_535;

fn dropped(cause: Cause) -> Outcome
    ensures { result ≡ record { fate = fate.Drop cause; entry = false; kept = 0; own = false } }
{
    Outcome {
        fate: Fate::Drop(cause),
        entry: false,
        kept: 0,
        own: false,
    }
}

/// The bytes of a frame without so many of its encapsulations.
#[inline(always)]
fn size_without(sizes: Sizes, drops: u8) -> u32
    ensures { result ≡ long.size_without sizes drops }
{
    match drops {
        0 => sizes.whole,
        1 => sizes.one,
        _ => sizes.two,
    }
}

/// The outermost total length where so many encapsulations are pushed; 0 where none is.
#[inline(always)]
#[tactic(auto, using(crate::proofs::Sizes::total_is))]
fn total(pushes: u8, len: u32) -> u64
    ensures { result ≡ total_over pushes len }
{
    if pushes == 0 {
        0
    } else {
        50 * u64::from(pushes) - 14 + u64::from(len)
    }
}

/// So many bytes with as many encapsulations in front, 50 bytes each, which their total length can tell.
#[inline(always)]
#[tactic(auto, using(crate::proofs::Sizes::short_is))]
fn grown(pushes: u8, len: u32) -> u32
    requires short { nat_lt 65535 (total_over pushes len) ≡ false }
    ensures { result ≡ len + 50 * pushes }
{
    if pushes == 0 {
        len
    } else {
        len + 50 * u32::from(pushes)
    }
}

/// The bytes of what leaves, where so many encapsulations are popped and pushed. None where that is more than a total
/// length can tell.
#[inline(always)]
fn size_with(sizes: Sizes, pops: u8, pushes: u8) -> Option<u32>
    ensures { result ≡ (if nat_lt 65535 (total_over pushes (long.size_without sizes pops)) then None else Some (long.size_without sizes pops + 50 * pushes)) }
{
    let len = size_without(sizes, pops);
    if total(pushes, len) > MOST {
        return None;
    }
    Some(grown(pushes, len))
}

/// Does the acts of the words at the headers, if they change anything.
#[inline(always)]
fn edit(words: &[u64; 57], stack: &Stack, edits: bool, edited: &mut Stack)
    requires body { (by : List Act) × (until : ℕ) × AreOf words.now verdict.Pass by until × (fit.fits by stack.now ≡ true) }
    requires same { (by : List Act) (until : ℕ) → AreOf words.now verdict.Pass by until → fit.fits by stack.now ≡ true → edits ≡ false → apply by stack.now ≡ stack.now }
    ensures { (by : List Act) (until : ℕ) → AreOf words.now verdict.Pass by until → fit.fits by stack.now ≡ true → edited.new ≡ apply by stack.now }
{
    if edits {
        do_words(words, stack, edited);
    } else {
        edited.copy_from(stack);
    }
}

/// A packet passes with its headers edited by the acts of the words, unless it gets too long.
#[inline(always)]
fn pass(crossing: &Crossing, words: &[u64; 57], edited: &mut Stack) -> Outcome
    requires body { (by : List Act) × (until : ℕ) × AreOf words.now verdict.Pass by until × (fit.fits by crossing.now.id.stack ≡ true) }
    ensures fate { (by : List Act) (until : ℕ) → AreOf words.now verdict.Pass by until → fit.fits by crossing.now.id.stack ≡ true → result.fate ≡ fate_passed crossing.now by }
    ensures edited { (by : List Act) (until : ℕ) → AreOf words.now verdict.Pass by until → fit.fits by crossing.now.id.stack ≡ true → IsEdited crossing.now by edited.new result }
    ensures own { result.own ≡ true → IsOwn crossing.now edited.new result.kept }
    ensures entry { result.entry ≡ false }
{
    // It tells the proof that the headers are those of a stack.
    let _ = crossing.id.stack.headers();
    let doing = doing_of(words);
    edit(words, &crossing.id.stack, doing.edits, edited);
    match size_with(crossing.sizes, doing.pops, doing.pushes) {
        None => dropped(Cause::Long),
        Some(len) => Outcome {
            fate: Fate::Pass { len },
            entry: false,
            kept: crossing.id.stack.encaps().saturating_sub(doing.pops),
            own: !doing.edits,
        },
    }
}

/// What the words of a body make of the packet. Where it passes, `edited` has its headers.
#[inline(always)]
pub fn outcome_by(crossing: &Crossing, words: &[u64; 57], edited: &mut Stack) -> Outcome
    requires body { (b : Body) × IsOf crossing.now words.now b }
    ensures fate { (b : Body) → IsOf crossing.now words.now b → result.fate ≡ fate_said crossing.now b }
    ensures edited { (b : Body) → IsOf crossing.now words.now b → IsEdited crossing.now b.by edited.new result }
    ensures own { result.own ≡ true → IsOwn crossing.now edited.new result.kept }
    ensures entry { result.entry ≡ false }
{
    match verdict_in(words) {
        Verdict::Pass => pass(crossing, words, edited),
        Verdict::Rule {
            controller,
            layer,
            group,
            rule,
        } => dropped(Cause::Rule {
            controller,
            layer,
            group,
            rule,
        }),
        Verdict::Default {
            controller,
            layer,
            dir,
        } => dropped(Cause::Default {
            controller,
            layer,
            dir,
        }),
    }
}
