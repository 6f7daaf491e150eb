//! Reading a report.

ghost use Rattle.std.specs.Prelude.{◌≡◌, ◌≤◌, length, IfOk, codes, bytes_eq};
ghost use Rattle.std.specs.List.{slice_split};
ghost use Rattle.vsw_check.specs.Private.Built.{Takes, Ends, Reads};
ghost use Rattle.vsw_check.specs.Private.Machine.{is_feed};
ghost use Rattle.vsw_check.specs.Report.{IsRead};

use crate::built::Built;
use crate::parts::cut;
use crate::place::{Place, is_end, step};
use crate::reader::Reader;
use crate::said::told_kind;
use std::alloc::Global;
use vsw_base::{Items, NoMemory};
use vsw_report::Round;

/// A report that was read.
#[derive(Drop)]
pub struct Report {
    pub rounds: Items<Round>,
}

/// Why bytes are no report.
#[derive(Clone, Copy, Debug, PartialEq, Eq)]
pub enum BadReport {
    /// The first line up to which no report's text begins, counted from 1. Where the bytes end too early, the line behind the last whole one.
    Line { number: u32 },
    /// There was no memory for what was read.
    Memory,
}

/// Takes in the next line; none where it can't stand here.
fn take(
    reader: &mut Reader,
    alloc: Global,
    place: Place,
    built: &mut Built,
    line: &[u8],
) -> Result<Option<Place>, NoMemory>
    ensures { IfOk result (λ o. Takes place built.old built.new line.now o) }
{
    let Some(said) = reader.read(alloc, line)? else {
        return Ok(None);
    };
    let Some(there) = step(place, told_kind(&said)) else {
        return Ok(None);
    };
    built.put(alloc, place, said)?;
    Ok(Some(there))
}

/// Ends the report before what is left, which has no line feed.
fn finish(
    alloc: Global,
    place: Place,
    built: Built,
    number: u32,
    rest: &[u8],
) -> Result<Report, BadReport>
    ensures { Ends place built number rest.now result }
{
    if is_end(place) && rest.is_empty() {
        match built.finish(alloc, place) {
            Ok(rounds) => Ok(Report { rounds }),
            Err(_) => Err(BadReport::Memory),
        }
    } else {
        Err(BadReport::Line { number })
    }
}

fn behind_head(alloc: Global, bytes: &[u8]) -> Result<Report, BadReport>
    requires { length bytes.now ≤ 268435456 }
    ensures { Reads (slice_split is_feed bytes.now) result }
{
    let mut reader = Reader::new(alloc);
    let mut place = Place::AtFirst;
    let mut built = Built::new(alloc);
    let mut number = 2;
    let mut rest = bytes;
    loop {
        let Some((line, more)) = cut(rest, b'\n') else {
            return finish(alloc, place, built, number, rest);
        };
        match take(&mut reader, alloc, place, &mut built, line) {
            Ok(Some(there)) => place = there,
            Ok(None) => return Err(BadReport::Line { number }),
            Err(_) => return Err(BadReport::Memory),
        }
        number += 1;
        rest = more;
    }
}

fn is_head(line: &[u8]) -> bool
    ensures { result ≡ bytes_eq line.now (codes "vsw report 1") }
{
    line == b"vsw report 1".as_slice()
}

/// The rounds of which the bytes are the report, or its first bad line. Want of memory may be told at any line before that one.
///
/// Each line is read once, and none is kept as text. Memory goes to the values alone: 72 bytes a line, in rooms up to twice as long (thrice while
/// they grow), and the bytes of a pass, half as many as their digits. That is 0.6 times the report where packets of 361 bytes passed, and at most
/// some 20 times where all lines are of the shortest.
pub fn read_report(alloc: Global, bytes: &[u8]) -> Result<Report, BadReport>
    requires { length bytes.now ≤ 268435456 }
    ensures { IsRead bytes.now result }
{
    let Some((head, rest)) = cut(bytes, b'\n') else {
        return Err(BadReport::Line { number: 1 });
    };
    if is_head(head) {
        behind_head(alloc, rest)
    } else {
        Err(BadReport::Line { number: 1 })
    }
}
