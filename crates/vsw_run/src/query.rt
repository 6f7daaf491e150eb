//! The words of `engine`: two names.

ghost use Rattle.std.specs.Prelude.{◌≡◌, option_map};
ghost use Rattle.vsw_run.specs.Seen.{names_seen, query_seen};
ghost use Rattle.vsw_run.specs.Words.{engine_in, query_of};

use crate::names::{Named, name_at, read_plain};
use crate::words::Word;

/// What `engine` is asked for: a rows file, and a trace that its rows answer.
#[derive(Clone, Copy)]
pub struct Query<'a> {
    pub rows: &'a str,
    pub trace: &'a str,
}

/// The query, if these are two names and neither is empty.
fn with_names<'a>(named: &Named<'a>) -> Option<Query<'a>>
    ensures { option_map query_seen result ≡ query_of (names_seen named.now) }
{
    let rows = name_at(named, 0)?;
    let trace = name_at(named, 1)?;
    let more = name_at(named, 2).is_some();
    if more || rows.is_empty() || trace.is_empty() {
        return None;
    }
    Some(Query { rows, trace })
}

/// What the words after `engine` ask for.
pub fn read_engine(words: &[Word]) -> Option<Query<'_>>
    ensures { option_map query_seen result ≡ engine_in words.now }
{
    with_names(&read_plain(words)?)
}
