//! What became of a packet or a command, read from its words.

ghost use Rattle.std.specs.Prelude.{◌≡◌, ◌∷◌, [], IfOk, option_map};
ghost use Rattle.hex.specs.Hex.{decode_of};
ghost use Rattle.vsw_report.specs.Words.{bare_cause, cause_in, fate_in, long_cause, passed, pass_in, path_cause, reply_in};
ghost use Rattle.vsw_report.specs.declared.told.What.TheVariants as what;

use crate::decode::decode;
use crate::name::{dir, refusal};
use crate::number::{four, number, pair, short_number};
use crate::parts::Parts;
use std::alloc::Global;
use vsw_base::{Cause, Fate, Items, NoMemory};
use vsw_policy::Reply;

/// A cause of one word.
fn bare(word: &[u8]) -> Option<Cause>
    ensures { result ≡ bare_cause word.now }
{
    if word == b"long".as_slice() {
        Some(Cause::Long)
    } else if word == b"memory".as_slice() {
        Some(Cause::Memory)
    } else {
        None
    }
}

/// A rule, or a layer that is full.
#[tactic(auto, using(crate::proofs::Levels::layer_is, crate::proofs::Levels::rule_is))]
fn with_path(word: &[u8], path: &[u8]) -> Option<Cause>
    ensures { result ≡ path_cause word.now path.now }
{
    let mut parts = Parts::of(path, b'/');
    if word == b"rule".as_slice() {
        let (controller, layer, group, rule) = four(&mut parts)?;
        Some(Cause::Rule {
            controller,
            layer,
            group,
            rule,
        })
    } else if word == b"full".as_slice() {
        let (controller, layer) = pair(&mut parts)?;
        Some(Cause::Full { controller, layer })
    } else {
        None
    }
}

/// A layer's default, or a pair of a layer that is taken.
#[tactic(auto, using(crate::proofs::Levels::layer_is))]
fn with_more(word: &[u8], path: &[u8], last: &[u8]) -> Option<Cause>
    ensures { result ≡ long_cause word.now path.now last.now }
{
    let mut parts = Parts::of(path, b'/');
    if word == b"default".as_slice() {
        let dir = dir(last)?;
        let (controller, layer) = pair(&mut parts)?;
        Some(Cause::Default {
            controller,
            layer,
            dir,
        })
    } else if word == b"taken".as_slice() {
        let number = number(last)?;
        let (controller, layer) = pair(&mut parts)?;
        Some(Cause::Taken {
            controller,
            layer,
            pair: number,
        })
    } else {
        None
    }
}

/// Why a packet was dropped.
fn cause(words: &mut Parts<'_>) -> Option<Cause>
    ensures { result ≡ cause_in words.old }
{
    let word = words.next()?;
    let Some(path) = words.next() else {
        return bare(word);
    };
    let Some(last) = words.next() else {
        return with_path(word, path);
    };
    match words.next() {
        Some(_) => None,
        None => with_more(word, path, last),
    }
}

/// The bytes of a pass, as many as its length.
#[tactic(auto, using(crate::proofs::Hex::not_decoded, crate::proofs::Hex::wrong_length, crate::proofs::Hex::is_decoded))]
fn bytes(alloc: Global, len: u32, text: &[u8]) -> Result<Option<(Fate, Items<u8>)>, NoMemory>
    ensures { IfOk result (λ o. option_map (λ p. what.Fate p.0 p.1) o ≡ passed len (decode_of text.now)) }
{
    if text.len() != 2 * len as usize {
        return Ok(None);
    }
    match decode(alloc, text, len as usize)? {
        Some(bytes) => Ok(Some((Fate::Pass { len }, Items::of(bytes)))),
        None => Ok(None),
    }
}

/// LEN HEX: a pass.
fn pass(alloc: Global, words: &mut Parts<'_>) -> Result<Option<(Fate, Items<u8>)>, NoMemory>
    ensures { IfOk result (λ o. option_map (λ p. what.Fate p.0 p.1) o ≡ pass_in words.old) }
{
    let Some(len) = words.next() else {
        return Ok(None);
    };
    let Some(text) = words.next() else {
        return Ok(None);
    };
    if let Some(_) = words.next() {
        return Ok(None);
    }
    match number(len) {
        Some(len) => bytes(alloc, len, text),
        None => Ok(None),
    }
}

/// pass LEN HEX, or drop and a cause.
pub(crate) fn fate(
    alloc: Global,
    words: &mut Parts<'_>,
) -> Result<Option<(Fate, Items<u8>)>, NoMemory>
    ensures { IfOk result (λ o. option_map (λ p. what.Fate p.0 p.1) o ≡ fate_in words.old) }
{
    let Some(word) = words.next() else {
        return Ok(None);
    };
    if word == b"pass".as_slice() {
        pass(alloc, words)
    } else if word == b"drop".as_slice() {
        match cause(words) {
            Some(cause) => Ok(Some((Fate::Drop(cause), Items::new(alloc)))),
            None => Ok(None),
        }
    } else {
        Ok(None)
    }
}

fn accepted(word: &[u8]) -> Option<Reply>
    ensures { option_map (λ r. what.Reply r) result ≡ reply_in (word.now ∷ []) }
{
    if word == b"ok".as_slice() {
        Some(Reply::Ok)
    } else {
        None
    }
}

/// ok, or refused NUMBER NAME.
pub(crate) fn reply(words: &mut Parts<'_>) -> Option<Reply>
    ensures { option_map (λ r. what.Reply r) result ≡ reply_in words.old }
{
    let word = words.next()?;
    let Some(number) = words.next() else {
        return accepted(word);
    };
    let _name = words.next()?;
    if let Some(_) = words.next() {
        return None;
    }
    if word == b"refused".as_slice() {
        Some(Reply::Refused(refusal(short_number(number)?)?))
    } else {
        None
    }
}
