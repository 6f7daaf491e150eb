//! The words of `check`: four names.

ghost use Rattle.std.specs.Prelude.{◌≡◌, option_map};
ghost use Rattle.vsw_run.specs.Seen.{claim_seen, names_seen};
ghost use Rattle.vsw_run.specs.Words.{check_in, claim_of};

use crate::forward::Request;
use crate::names::{Named, name_at, read_named};
use crate::words::Word;

/// What `check` is asked for: a run, and the report that is checked.
#[derive(Clone, Copy)]
pub struct Claim<'a> {
    pub run: Request<'a>,
    pub report: &'a str,
}

/// The claim, if these are four names and none is empty.
fn with_names<'a>(named: &Named<'a>) -> Option<Claim<'a>>
    ensures { option_map claim_seen result ≡ claim_of named.now.workers (names_seen named.now) }
{
    let policy = name_at(named, 0)?;
    let commands = name_at(named, 1)?;
    let trace = name_at(named, 2)?;
    let report = name_at(named, 3)?;
    let more = name_at(named, 4).is_some();
    if more || policy.is_empty() || commands.is_empty() || trace.is_empty() || report.is_empty() {
        return None;
    }
    let workers = named.workers;
    let run = Request {
        workers,
        policy,
        commands,
        trace,
    };
    Some(Claim { run, report })
}

/// What the words after `check` ask for.
pub fn read_check(words: &[Word]) -> Option<Claim<'_>>
    ensures { option_map claim_seen result ≡ check_in words.now }
{
    with_names(&read_named(words)?)
}
