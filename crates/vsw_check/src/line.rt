//! A line, read from its words. Zeros before a number, capital digits and another name than the number's are let pass here.

ghost use Rattle.std.specs.Prelude.{◌≡◌, ◌==◌, ◌^◌, ◌∷◌, [], IfOk, option_map};
ghost use Rattle.std.specs.List.{slice_split};
ghost use Rattle.vsw_report.specs.Words.{fate_in, headed_in, lettered_in, line_of as line_of_words, loose_in, number_in, of_loose, reply_in, told_in, mark_in, behind};
ghost use Rattle.vsw_report.specs.declared.told.By.TheVariants.{Controller, Worker};
ghost use Rattle.vsw_check.specs.Private.Built.{line_of};
ghost use Rattle.vsw_check.specs.Private.Words.{at_with};

use crate::fate::{fate, reply};
use crate::name::{behind, fault, mark};
use crate::number::{number, short_number};
use crate::parts::Parts;
use crate::said::{At, Said};
use std::alloc::Global;
use vsw_base::NoMemory;
use vsw_report::{Loose, LooseCause};

fn at(item: &[u8], count: &[u8]) -> Option<At>
    ensures { result ≡ at_with (number_in (2 ^ 32) item.now) (mark_in count.now) (number_in (2 ^ 32) (behind count.now)) }
{
    let item = number(item)?;
    let entry = mark(count)?;
    let count = number(behind(count))?;
    Some(At { item, entry, count })
}

/// The line of a packet at a port, behind the letter of its worker.
#[tactic(auto, using(crate::proofs::Levels::told_is))]
fn packet_line(
    alloc: Global,
    worker: &[u8],
    words: &mut Parts<'_>,
) -> Result<Option<Said>, NoMemory>
    ensures { IfOk result (λ o. option_map line_of o ≡ told_in (option_map (λ n. Worker n) (number_in (2 ^ 32) worker.now)) fate_in words.old) }
{
    let Some(item) = words.next() else {
        return Ok(None);
    };
    let Some(count) = words.next() else {
        return Ok(None);
    };
    let Some(worker) = number(worker) else {
        return Ok(None);
    };
    let Some(at) = at(item, count) else {
        return Ok(None);
    };
    match fate(alloc, words)? {
        Some((fate, bytes)) => Ok(Some(Said::Packet {
            worker,
            at,
            fate,
            bytes,
        })),
        None => Ok(None),
    }
}

/// The line of a command at a port, behind the letter of its controller.
#[tactic(auto, using(crate::proofs::Levels::told_is))]
fn command_line(controller: &[u8], words: &mut Parts<'_>) -> Option<Said>
    ensures { option_map line_of result ≡ told_in (option_map (λ n. Controller n) (number_in (2 ^ 16) controller.now)) reply_in words.old }
{
    let item = words.next()?;
    let count = words.next()?;
    let controller = short_number(controller)?;
    let at = at(item, count)?;
    let reply = reply(words)?;
    Some(Said::Command {
        controller,
        at,
        reply,
    })
}

fn bare_loose(packet: u32, word: &[u8]) -> Option<Loose>
    ensures { option_map (λ l. of_loose l) result ≡ loose_in packet (word.now ∷ []) }
{
    if word == b"snapped".as_slice() {
        Some(Loose {
            packet,
            cause: LooseCause::Snapped,
        })
    } else if word == b"noport".as_slice() {
        Some(Loose {
            packet,
            cause: LooseCause::NoPort,
        })
    } else {
        None
    }
}

/// The line of a loose packet, behind its number.
fn loose(packet: u32, words: &mut Parts<'_>) -> Option<Loose>
    ensures { option_map (λ l. of_loose l) result ≡ loose_in packet words.old }
{
    let word = words.next()?;
    let Some(number) = words.next() else {
        return bare_loose(packet, word);
    };
    let _name = words.next()?;
    if let Some(_) = words.next() {
        return None;
    }
    if word == b"malformed".as_slice() {
        Some(Loose {
            packet,
            cause: LooseCause::Malformed(fault(short_number(number)?)?),
        })
    } else {
        None
    }
}

fn loose_begins(word: &[u8]) -> Option<Said>
    ensures { option_map line_of result ≡ headed_in word.now [] }
{
    if word == b"loose".as_slice() {
        Some(Said::LooseBegins)
    } else {
        None
    }
}

fn round(word: &[u8], first: &[u8]) -> Option<Said>
    ensures { option_map line_of result ≡ headed_in word.now (first.now ∷ []) }
{
    if word == b"round".as_slice() {
        Some(Said::Round(number(first)?))
    } else {
        None
    }
}

fn port(word: &[u8], port: &[u8], before: &[u8], after: &[u8]) -> Option<Said>
    ensures { option_map line_of result ≡ headed_in word.now (port.now ∷ before.now ∷ after.now ∷ []) }
{
    if word == b"port".as_slice() {
        let port = short_number(port)?;
        let before = number(before)?;
        let after = number(after)?;
        Some(Said::Port {
            port,
            before,
            after,
        })
    } else {
        None
    }
}

/// A line that begins with a word of its kind.
fn headed(word: &[u8], words: &mut Parts<'_>) -> Option<Said>
    ensures { option_map line_of result ≡ headed_in word.now words.old }
{
    let Some(first) = words.next() else {
        return loose_begins(word);
    };
    let Some(second) = words.next() else {
        return round(word, first);
    };
    let third = words.next()?;
    match words.next() {
        Some(_) => None,
        None => port(word, first, second, third),
    }
}

fn lettered(alloc: Global, word: &[u8], words: &mut Parts<'_>) -> Result<Option<Said>, NoMemory>
    ensures { IfOk result (λ o. option_map line_of o ≡ lettered_in word.now words.old) }
{
    match word {
        [] => Ok(None),
        [b'w', worker @ ..] => packet_line(alloc, worker, words),
        [b'c', controller @ ..] => Ok(command_line(controller, words)),
        _ => Ok(headed(word, words)),
    }
}

/// The line that these words tell.
pub(crate) fn read_words(alloc: Global, line: &[u8]) -> Result<Option<Said>, NoMemory>
    ensures { IfOk result (λ o. option_map line_of o ≡ line_of_words (slice_split (λ b. b == 32) line.now)) }
{
    let mut words = Parts::of(line, b' ');
    let Some(word) = words.next() else {
        return Ok(None);
    };
    match number(word) {
        Some(packet) => match loose(packet, &mut words) {
            Some(loose) => Ok(Some(Said::Loose(loose))),
            None => Ok(None),
        },
        None => lettered(alloc, word, &mut words),
    }
}
