//! Bytes cut at a byte: a report into lines, a line into words, a path into numbers.

ghost use Rattle.std.specs.Prelude.{◌≡◌, ◌==◌, ◌+◌, ◌<◌, ◌≤◌, ℕ, drop, length, option_map};
ghost use Rattle.std.specs.List.{list_any, position, position_or_len, slice_split};
ghost use Rattle.vsw_check.specs.Private.Parts.{IsCut, IsNext};

use std::marker::Model;

fn has(block: &[u8], separator: u8) -> bool
    ensures { result ≡ list_any (λ b. b == separator) block.now }
{
    block.contains(&separator)
}

/// How many of the first bytes, whole blocks of 64, are told at once to hold no separator.
fn free_front(bytes: &[u8], separator: u8) -> usize
    ensures within { result ≤ length bytes.now }
    ensures front { position_or_len (λ b. b == separator) bytes.now ≡ result + position_or_len (λ b. b == separator) (drop result bytes.now) }
{
    let mut at = 0;
    while bytes.len() - at >= 64 {
        if has(&bytes[at..at + 64], separator) {
            return at;
        }
        at += 64;
    }
    at
}

fn first_of(bytes: &[u8], separator: u8) -> Option<usize>
    ensures { result ≡ position (λ b. b == separator) bytes.now }
{
    bytes.iter().position(|byte| *byte == separator)
}

/// The place of the first separator.
fn place_of(bytes: &[u8], separator: u8) -> Option<usize>
    ensures { result ≡ position (λ b. b == separator) bytes.now }
{
    let from = free_front(bytes, separator);
    match first_of(&bytes[from..], separator) {
        Some(more) => Some(from + more),
        None => None,
    }
}

/// The bytes before the first separator, and those behind it.
pub(crate) fn cut(bytes: &[u8], separator: u8) -> Option<(&[u8], &[u8])>
    ensures { IsCut separator bytes.now (option_map (λ p. (p.0.now, p.1.now)) result) }
{
    match place_of(bytes, separator) {
        Some(end) => Some((&bytes[..end], &bytes[end + 1..])),
        None => None,
    }
}

/// The parts of bytes between separators that weren't taken yet.
#[derive(Drop)]
pub(crate) struct Parts<'a> {
    rest: Option<&'a [u8]>,
    separator: u8,
}

impl<'a> Model for Parts<'a> {
    ghost use Rattle.std.specs.Prelude.{List, ℕ, option_map};
    ghost use Rattle.vsw_check.specs.Private.Parts.{parts_of};

    ghost Value = { List (List ℕ) };

    ghost view = { λ s. parts_of s.separator (option_map (λ r. r.now) s.rest) };
}

impl<'a> Parts<'a> {
    /// All parts. No bytes are one part without a byte.
    pub fn of(bytes: &'a [u8], separator: u8) -> Parts<'a>
        ensures { result ≡ slice_split (λ b. b == separator) bytes.now }
    {
        Parts {
            rest: Some(bytes),
            separator,
        }
    }

    /// The next part.
    pub fn next(&mut self) -> Option<&'a [u8]>
        ensures { IsNext self.old (option_map (λ p. p.now) result) self.new }
    {
        let Some(rest) = self.rest else {
            return None;
        };
        match cut(rest, self.separator) {
            Some((part, behind)) => {
                self.rest = Some(behind);
                Some(part)
            }
            None => {
                self.rest = None;
                Some(rest)
            }
        }
    }
}
