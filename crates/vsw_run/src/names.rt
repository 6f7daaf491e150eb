//! Names among the words of a command, with an option among them.

ghost use Rattle.std.specs.Prelude.{◌≡◌, ◌≤◌, length, option_map, slice_get};
ghost use Rattle.std.specs.List.{position_or_len};
ghost use Rattle.std.specs.Option.{option_copied};
ghost use Rattle.vsw_run.specs.Seen.{named_seen, names_seen, option_seen};
ghost use Rattle.vsw_run.specs.Words.{behind_in, is_dashed, joined_in, named_in, option_in, plain_in};

use crate::numbers::read_number;
use crate::words::Word;

/// Most workers of a run.
const MOST_WORKERS: u32 = 16;

/// The option, and the words after it.
#[derive(Clone, Copy)]
struct Opted<'a> {
    workers: u32,
    rest: &'a [Word],
}

/// A number of workers, and names: those before the option, those after it, and those behind `--`.
#[derive(Clone, Copy)]
pub struct Named<'a> {
    pub workers: u32,
    pub before: &'a [Word],
    pub after: &'a [Word],
    pub behind: &'a [Word],
}

fn begins_with_dash(word: &str) -> bool
    ensures { result ≡ is_dashed word.now }
{
    match word.as_bytes() {
        [first, _, ..] => *first == b'-',
        _ => false,
    }
}

/// How many names stand before the first word that begins with a dash and has more.
fn names_before(words: &[Word]) -> usize
    ensures place { result ≡ position_or_len is_dashed words.now }
    ensures within { result ≤ length words.now }
{
    for (place, word) in words.iter().enumerate() {
        if begins_with_dash(word.text()) {
            return place;
        }
    }
    words.len()
}

/// The names at the end of the words. A dashed word is a name only behind `--`.
fn read_behind(words: &[Word]) -> Option<&[Word]>
    ensures { option_copied result ≡ behind_in words.now }
{
    match words {
        [] => Some(words),
        [first, rest @ ..] if first.text() == "--" => Some(rest),
        _ => None,
    }
}

/// The option as one word.
fn read_joined(word: &str) -> Option<u32>
    ensures { result ≡ joined_in word.now }
{
    read_number(word.strip_prefix("--workers=")?, 1, MOST_WORKERS)
}

/// The option that the words begin with. `--workers` takes the next word, whatever it is.
fn read_option(words: &[Word]) -> Option<Opted<'_>>
    ensures { option_map option_seen result ≡ option_in words.now }
{
    let (first, rest) = words.split_first()?;
    if first.text() == "--workers" {
        let (number, rest) = rest.split_first()?;
        let workers = read_number(number.text(), 1, MOST_WORKERS)?;
        return Some(Opted { workers, rest });
    }
    let workers = read_joined(first.text())?;
    Some(Opted { workers, rest })
}

/// The name at a place, if there are so many.
pub fn name_at<'a>(named: &Named<'a>, place: usize) -> Option<&'a str>
    ensures { option_copied result ≡ slice_get (names_seen named.now) place }
{
    let Named {
        before,
        after,
        behind,
        ..
    } = *named;
    if place < before.len() {
        return Some(before[place].text());
    }
    let place = place - before.len();
    if place < after.len() {
        return Some(after[place].text());
    }
    let place = place - after.len();
    if place < behind.len() {
        return Some(behind[place].text());
    }
    None
}

/// The names among the words after a command that takes no option.
pub fn read_plain(words: &[Word]) -> Option<Named<'_>>
    ensures { option_map names_seen result ≡ plain_in words.now }
{
    let (before, rest) = words.split_at(names_before(words));
    let behind = read_behind(rest)?;
    Some(Named {
        workers: 1,
        before,
        after: &[],
        behind,
    })
}

/// The names among the words after a command, and the number of workers.
pub fn read_named(words: &[Word]) -> Option<Named<'_>>
    ensures { option_map named_seen result ≡ named_in words.now }
{
    let (before, rest) = words.split_at(names_before(words));
    if let Some(behind) = read_behind(rest) {
        return Some(Named {
            workers: 1,
            before,
            after: &[],
            behind,
        });
    }
    let Opted { workers, rest } = read_option(rest)?;
    let (after, rest) = rest.split_at(names_before(rest));
    let behind = read_behind(rest)?;
    Some(Named {
        workers,
        before,
        after,
        behind,
    })
}
