//! Marks: where each line of a text ends, and what places it in the report.

ghost use Rattle.std.specs.Prelude.{◌≡◌, ◌≤◌, ◌+◌, ◌-◌, ◌++◌, ◌∷◌, [], OnOk, OnErr, length, take, drop, slice_range};
ghost use Rattle.vsw_report.specs.Marks.{any_short, entry_end, entry_len, entry_short, is_entry_mark, is_read_mark, reads_end, reads_len, reads_short};

use crate::Page;
use vsw_base::NoMemory;

/// A line of a text. The text of the line before ends where this one's begins.
#[derive(Clone, Copy)]
pub struct Mark {
    pub count: u32,
    pub entry: bool,
    pub short: bool,
    pub end: usize,
}

/// Lines that go over together: where the marks behind them begin and where their text ends, and whether one tells of
/// want of memory.
#[derive(Clone, Copy)]
pub struct Run {
    pub passed: usize,
    pub end: usize,
    pub short: bool,
}

fn is_read_at(mark: &Mark, count: u32) -> bool
    ensures { result ≡ is_read_mark count mark.now }
{
    !mark.entry && mark.count == count
}

fn is_entry_at(mark: &Mark, count: u32) -> bool
    ensures { result ≡ is_entry_mark count mark.now }
{
    mark.entry && mark.count == count
}

/// The reads at a count with which the marks behind the first `passed` begin. Their text begins at `from`.
pub fn reads_from(marks: &[Mark], passed: usize, from: usize, count: u32) -> Run
    requires { passed ≤ length marks.now }
    ensures passed { result.passed ≡ passed + reads_len count (drop passed marks.now) }
    ensures end { result.end ≡ reads_end count from (drop passed marks.now) }
    ensures short { result.short ≡ reads_short count (drop passed marks.now) }
{
    let mut at = passed;
    let mut end = from;
    let mut short = false;
    while at < marks.len() {
        let mark = marks[at];
        if !is_read_at(&mark, count) {
            break;
        }
        at += 1;
        end = mark.end;
        short = short || mark.short;
    }
    Run {
        passed: at,
        end,
        short,
    }
}

/// The entry of a count, if the marks behind the first `passed` begin with it.
pub fn entry_from(marks: &[Mark], passed: usize, from: usize, count: u32) -> Run
    requires { passed ≤ length marks.now }
    ensures passed { result.passed ≡ passed + entry_len count (drop passed marks.now) }
    ensures end { result.end ≡ entry_end count from (drop passed marks.now) }
    ensures short { result.short ≡ entry_short count (drop passed marks.now) }
{
    if passed < marks.len() {
        let mark = marks[passed];
        if is_entry_at(&mark, count) {
            return Run {
                passed: passed + 1,
                end: mark.end,
                short: mark.short,
            };
        }
    }
    Run {
        passed,
        end: from,
        short: false,
    }
}

/// Whether one of the lines behind the first `passed` tells of want of memory.
pub fn is_any_short(marks: &[Mark], passed: usize) -> bool
    requires { passed ≤ length marks.now }
    ensures { result ≡ any_short (drop passed marks.now) }
{
    let mut at = passed;
    while at < marks.len() {
        if marks[at].short {
            return true;
        }
        at += 1;
    }
    false
}

/// Appends a part of a text.
pub fn copy(out: &mut Vec<u8>, text: &[u8], from: usize, end: usize) -> Result<(), NoMemory>
    requires { (from ≤ end) × (end ≤ length text.now) }
    ensures { OnOk result (out.new.items ≡ out.old.items ++ slice_range text.now from end) }
{
    if from == end {
        return Ok(());
    }
    match out.extend_from_slice(&text[from..end]) {
        Ok(()) => Ok(()),
        Err(_) => Err(NoMemory),
    }
}

/// Marks what a text has behind its first `len` bytes, or takes it back.
pub fn add_mark(
    marks: &mut Vec<Mark>,
    text: &mut Page,
    len: usize,
    entry: bool,
    count: u32,
    short: bool,
) -> Result<(), NoMemory>
    ensures marked { OnOk result (marks.new.items ≡ marks.old.items ++ record { count = count; entry = entry; short = short; end = length text.old } ∷ []) }
    ensures whole { OnOk result (text.new ≡ text.old) }
    ensures kept { OnErr result (marks.new.items ≡ marks.old.items) }
    ensures cut { OnErr result (text.new ≡ take len text.old) }
{
    let mark = Mark {
        count,
        entry,
        short,
        end: text.as_slice().len(),
    };
    match marks.push(mark) {
        Ok(()) => Ok(()),
        Err(_) => {
            text.truncate(len);
            Err(NoMemory)
        }
    }
}
