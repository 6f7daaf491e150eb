//! What reading a text gives, for tests.

use std::alloc::Global;
use vsw_check::{BadReport, read_report};
use vsw_report::{HEAD_LINE, print_round};

/// Bytes of a report at most.
pub const LIMIT: usize = 268_435_456;

/// Whether a text is read, and printed again as it stands.
pub fn is_read(alloc: Global, text: &[u8]) -> bool {
    if text.len() > LIMIT {
        return false;
    }
    let Ok(report) = read_report(alloc, text) else {
        return false;
    };
    let mut out = Vec::new(alloc);
    if out.extend_from_slice(HEAD_LINE).is_err() {
        return false;
    }
    for round in report.rounds.as_slice() {
        if print_round(round, &mut out).is_err() {
            return false;
        }
    }
    out.as_slice() == text
}

/// The number of the first bad line; none of a report, and none where there was no memory.
pub fn bad_line(alloc: Global, text: &[u8]) -> Option<u32> {
    if text.len() > LIMIT {
        return None;
    }
    match read_report(alloc, text) {
        Err(BadReport::Line { number }) => Some(number),
        Err(BadReport::Memory) => None,
        Ok(_) => None,
    }
}
