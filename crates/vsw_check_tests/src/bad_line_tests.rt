//! A small report with one line changed, and cut short.

use crate::reading::{bad_line, is_read};
use std::alloc::{AllocError, Global};

/// The lines of a small report, each without its line feed.
const LINES: [&[u8]; 9] = [
    b"vsw report 1",
    b"round 0",
    b"port 1 0 1",
    b"w0 0 @0 drop long",
    b"w1 1 +0 pass 2 6869",
    b"c1 1 @1 refused 10 Memory",
    b"loose",
    b"2 noport",
    b"3 malformed 1 ShortEther",
];

/// The report with the line at this place changed.
fn text_with(alloc: Global, place: usize, line: &[u8]) -> Result<Vec<u8>, AllocError> {
    let mut text = Vec::new(alloc);
    for (at, own) in LINES.iter().enumerate() {
        text.extend_from_slice(if at == place { line } else { own })?;
        text.extend_from_slice(b"\n")?;
    }
    Ok(text)
}

/// The first bad line of the report with the line of this number changed.
fn bad_with(alloc: Global, number: u32, line: &[u8]) -> Option<u32> {
    match text_with(alloc, number.wrapping_sub(1) as usize, line) {
        Ok(text) => bad_line(alloc, &text),
        Err(_) => None,
    }
}

fn is_whole(alloc: Global) -> bool {
    match text_with(alloc, 9, b"") {
        Ok(text) => is_read(alloc, &text),
        Err(_) => false,
    }
}

#[test]
fn small_report_is_read(rt: HostRuntime) {
    assert!(&rt; is_whole(rt.alloc()));
}

/// Lines that are wrong wherever they stand, and lines that are wrong where they stand here.
const CHANGES: [(u32, &[u8]); 41] = [
    (1, b"vsw report 2"),
    (1, b"vsw report 1 "),
    (1, b""),
    (2, b"round 00"),
    (2, b"round"),
    (2, b"round 4294967296"),
    (2, b"Round 0"),
    (2, b"port 1 0 1"),
    (3, b"port 65536 0 1"),
    (3, b"port 1 2 1"),
    (3, b"port 1 0"),
    (3, b"port 01 0 1"),
    (3, b"port 1 0 1 "),
    (4, b"w0 0 @1 drop long"),
    (4, b"w0 0 @0 drop short"),
    (4, b"w0 0 @0  drop long"),
    (4, b"w0 0 0 drop long"),
    (4, b"w0 0 @0 drop rule 1/2/3"),
    (4, b"w0 0 @0 drop full 1/65536"),
    (4, b"w0 0 @0 drop default 1/2 up"),
    (4, b"w0 0 @0 ok"),
    (4, b"w 0 @0 drop long"),
    (5, b"w1 1 +0 pass 2 6A69"),
    (5, b"w1 1 +0 pass 3 6869"),
    (5, b"w1 1 +0 pass 2 686"),
    (5, b"w1 1 +0 pass 0"),
    (5, b"w1 1 +1 pass 2 6869"),
    (6, b"c1 1 @1 refused 10 NoLayer"),
    (6, b"c1 1 @1 refused 13 Memory"),
    (6, b"c1 1 @1 drop long"),
    (6, b"c1 1 +1 ok"),
    (7, b"loose "),
    (7, b"lose"),
    (7, b"2 noport"),
    (7, b"round 1"),
    (8, b"2 noport 1"),
    (8, b"4294967296 noport"),
    (8, b"-2 noport"),
    (9, b"3 malformed 1 ShortIp"),
    (9, b"3 malformed 13 ShortEther"),
    (9, b"3 malformed 01 ShortEther"),
];

#[test]
fn changed_line_is_told_by_its_number(rt: HostRuntime) {
    for (number, line) in CHANGES {
        assert_eq!(&rt;
            bad_with(rt.alloc(), number, line),
            Some(number),
            "line {number}"
        );
    }
}

/// Where a line is left out or wrong by itself only for what follows, the line that follows is bad.
#[test]
fn next_line_is_bad(rt: HostRuntime) {
    assert_eq!(&rt; bad_with(rt.alloc(), 5, b"w1 1 @0 pass 2 6869"), Some(6));
    assert_eq!(&rt; bad_with(rt.alloc(), 3, b"port 1 0 2"), Some(7));
    assert_eq!(&rt; bad_with(rt.alloc(), 3, b"loose"), Some(4));
}

/// How many of the first bytes are line feeds.
fn feeds(bytes: &[u8]) -> u32 {
    let mut count: u32 = 0;
    for byte in bytes {
        if *byte == b'\n' {
            count = count.wrapping_add(1);
        }
    }
    count
}

/// Whether a report may be cut here: behind the head line, or at the end of a line from `loose` on.
fn may_end(bytes: &[u8]) -> bool {
    let whole = feeds(bytes);
    bytes.last() == Some(&b'\n') && (whole == 1 || whole >= 7)
}

/// At how many places the report cut there is told otherwise than it has to be.
fn wrong_cuts(alloc: Global, text: &[u8]) -> u32 {
    let mut wrong: u32 = 0;
    for end in 0..text.len() {
        let front = &text[..end];
        let expected = if may_end(front) {
            None
        } else {
            Some(feeds(front).wrapping_add(1))
        };
        if bad_line(alloc, front) != expected {
            wrong = wrong.wrapping_add(1);
        }
    }
    wrong
}

fn cut_small(alloc: Global) -> Option<u32> {
    match text_with(alloc, 9, b"") {
        Ok(text) => Some(wrong_cuts(alloc, &text)),
        Err(_) => None,
    }
}

#[test]
fn report_that_ends_too_early_is_bad_behind_its_last_line(rt: HostRuntime) {
    assert_eq!(&rt; cut_small(rt.alloc()), Some(0));
}
