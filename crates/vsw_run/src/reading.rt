//! The words of the command line.

ghost use Rattle.std.specs.Prelude.{◌≡◌, IfSome, option_map};
ghost use Rattle.vsw_run.specs.Seen.{IsWithin, asked_seen};
ghost use Rattle.vsw_run.specs.Words.{asked_by, asked_in, generate_in};

use crate::claim::{Claim, read_check};
use crate::forward::{Request, read_forward, read_offload};
use crate::numbers::read_number;
use crate::query::{Query, read_engine};
use crate::words::Word;

/// The greatest number that packets are drawn from.
const MOST_START: u32 = 2_147_483_647;

/// Most packets of a workload.
const MOST_PACKETS: u32 = 1_048_576;

/// What the words ask for: to forward, to forward and hand packets on between the ports, to forward while the trace is read, to forward and
/// put the rows that are current, to check a report, to answer a trace from a rows file, or to generate so many packets, which are drawn
/// from a number.
#[derive(Clone, Copy)]
pub enum Asked<'a> {
    Forward(Request<'a>),
    Deliver(Request<'a>),
    Stream(Request<'a>),
    Offload(Request<'a>),
    Check(Claim<'a>),
    Engine(Query<'a>),
    Generate { start: u32, packets: u32 },
}

fn read_generate(words: &[Word]) -> Option<Asked<'_>>
    ensures { option_map asked_seen result ≡ generate_in words.now }
{
    match words {
        [start, packets] => {
            let start = read_number(start.text(), 0, MOST_START)?;
            let packets = read_number(packets.text(), 1, MOST_PACKETS)?;
            Some(Asked::Generate { start, packets })
        }
        _ => None,
    }
}

/// What the words after a command ask for.
fn read_after<'a>(command: &str, words: &'a [Word]) -> Option<Asked<'a>>
    ensures { option_map asked_seen result ≡ asked_by command.now words.now }
{
    match command {
        "forward" => Some(Asked::Forward(read_forward(words)?)),
        "deliver" => Some(Asked::Deliver(read_forward(words)?)),
        "stream" => Some(Asked::Stream(read_forward(words)?)),
        "offload" => Some(Asked::Offload(read_offload(words)?)),
        "check" => Some(Asked::Check(read_check(words)?)),
        "engine" => Some(Asked::Engine(read_engine(words)?)),
        "generate" => read_generate(words),
        _ => None,
    }
}

fn read(words: &[Word]) -> Option<Asked<'_>>
    ensures { option_map asked_seen result ≡ asked_in words.now }
{
    match words {
        [_, command, rest @ ..] => read_after(command.text(), rest),
        _ => None,
    }
}

/// What the words ask for, if they are of the grammar. The first word is the program's name.
#[tactic(auto, using(crate::proofs::Bounds::within))]
pub fn read_words(words: &[Word]) -> Option<Asked<'_>>
    ensures asked { option_map asked_seen result ≡ asked_in words.now }
    ensures within { IfSome result IsWithin }
{
    read(words)
}
