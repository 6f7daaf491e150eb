//! Reports that other runs put are read, and printed again as they stand.

use crate::examples::{ADDRESSES6, COMMANDS, FIRST, ROLL_OUT, TRANSLATION};
use crate::reading::{bad_line, is_read};

#[test]
fn reports_of_the_examples_are_read(rt: HostRuntime) {
    assert!(&rt; is_read(rt.alloc(), FIRST));
    assert!(&rt; is_read(rt.alloc(), COMMANDS));
    assert!(&rt; is_read(rt.alloc(), ADDRESSES6));
    assert!(&rt; is_read(rt.alloc(), ROLL_OUT));
    assert!(&rt; is_read(rt.alloc(), TRANSLATION));
}

#[test]
fn report_without_rounds_is_read(rt: HostRuntime) {
    assert!(&rt; is_read(rt.alloc(), b"vsw report 1\n"));
}

#[test]
fn no_bytes_are_no_report(rt: HostRuntime) {
    assert_eq!(&rt; bad_line(rt.alloc(), b""), Some(1));
    assert_eq!(&rt; bad_line(rt.alloc(), b"\n"), Some(1));
    assert_eq!(&rt; bad_line(rt.alloc(), b"vsw report 1"), Some(1));
}

/// The last byte of the first line's bytes is another: it is still a report.
#[test]
fn another_digit_is_read(rt: HostRuntime) {
    let other = b"vsw report 1\nround 0\nport 1 0 0\nw0 0 @0 pass 2 6868\nloose\n";
    assert!(&rt; is_read(rt.alloc(), other));
}
