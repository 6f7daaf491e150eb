//! The words of `forward`, of `deliver`, of `stream` and of `offload`: three names.

ghost use Rattle.std.specs.Prelude.{◌≡◌, option_map};
ghost use Rattle.vsw_run.specs.Seen.{names_seen, request_seen};
ghost use Rattle.vsw_run.specs.Words.{forward_in, offload_in, request_of};

use crate::names::{Named, name_at, read_named, read_plain};
use crate::words::Word;

/// What `forward`, `deliver`, `stream` and `offload` are asked for.
#[derive(Clone, Copy)]
pub struct Request<'a> {
    pub workers: u32,
    pub policy: &'a str,
    pub commands: &'a str,
    pub trace: &'a str,
}

/// The request of so many workers, if these are three names and none is empty.
fn with_names<'a>(workers: u32, named: &Named<'a>) -> Option<Request<'a>>
    ensures { option_map request_seen result ≡ request_of workers (names_seen named.now) }
{
    let policy = name_at(named, 0)?;
    let commands = name_at(named, 1)?;
    let trace = name_at(named, 2)?;
    let more = name_at(named, 3).is_some();
    if more || policy.is_empty() || commands.is_empty() || trace.is_empty() {
        return None;
    }
    Some(Request {
        workers,
        policy,
        commands,
        trace,
    })
}

/// What the words after `forward`, `deliver` and `stream` ask for.
pub fn read_forward(words: &[Word]) -> Option<Request<'_>>
    ensures { option_map request_seen result ≡ forward_in words.now }
{
    let named = read_named(words)?;
    with_names(named.workers, &named)
}

/// What the words after `offload` ask for: a run of one worker.
pub fn read_offload(words: &[Word]) -> Option<Request<'_>>
    ensures { option_map request_seen result ≡ offload_in words.now }
{
    with_names(1, &read_plain(words)?)
}
