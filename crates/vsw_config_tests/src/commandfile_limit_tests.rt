//! Lists and files at their limits, and one above.

use crate::commandfile_samples::{FILE, is_said_of};
use crate::samples::{Text, check_all, with_list};
use std::alloc::Global;

/// Whether this is said of a file of so many of this byte, and these behind them.
fn is_said_of_many(alloc: Global, count: usize, byte: u8, end: &[u8], expected: &str) -> bool {
    let mut file = Text::new(alloc);
    file.fill(count, byte);
    file.put(end);
    is_said_of(alloc, &file, expected)
}

fn lines(alloc: Global) -> [bool; 4] {
    [
        is_said_of_many(alloc, 65_536, b'\n', b"", "read 0"),
        is_said_of_many(alloc, 65_537, b'\n', b"", "lines"),
        is_said_of_many(alloc, 65_535, b'\n', b"x", "65536 Json /"),
        is_said_of_many(alloc, 65_536, b'\n', b"x", "lines"),
    ]
}

#[test]
fn lines_are_counted_before_they_are_read(rt: HostRuntime) {
    check_all(&rt, &lines(rt.alloc()));
}

fn bytes(alloc: Global) -> [bool; 3] {
    [
        is_said_of_many(alloc, 16_777_216, b' ', b"", "read 0"),
        is_said_of_many(alloc, 16_777_216, b' ', b"x", "commands"),
        is_said_of_many(alloc, 16_777_217, b'\n', b"", "commands"),
    ]
}

#[test]
fn bytes_are_counted_before_lines(rt: HostRuntime) {
    check_all(&rt, &bytes(rt.alloc()));
}

/// Whether this is said of the file with a list of so many items in place of another list.
fn is_said_of_list(alloc: Global, old: &str, count: usize, item: &str, expected: &str) -> bool {
    let file = with_list(alloc, FILE, old, count, item);
    is_said_of(alloc, &file, expected)
}

const RULE: &str =
    r#"{"rule":8,"priority":9,"when":[],"action":"drop","stateful":false,"last":true}"#;

const RULES: &str =
    r#"[{"rule":8,"priority":9,"when":[],"action":"drop","stateful":false,"last":true}]"#;

fn rules(alloc: Global) -> [bool; 4] {
    [
        is_said_of_list(alloc, RULES, 0, RULE, "read 9"),
        is_said_of_list(alloc, RULES, 2, RULE, "read 9"),
        is_said_of_list(alloc, RULES, 1025, RULE, "read 9"),
        is_said_of_list(alloc, RULES, 1025, "1", "7 Shape /rules/0"),
    ]
}

#[test]
fn rules_are_neither_counted_nor_compared(rt: HostRuntime) {
    check_all(&rt, &rules(rt.alloc()));
}

const CONDITION: &str = r#"{"field":"dst_port","any":[53]}"#;

const CONDITIONS: &str = r#"[{"field":"dst_port","any":[53]}]"#;

fn conditions(alloc: Global) -> [bool; 3] {
    [
        is_said_of_list(alloc, CONDITIONS, 16, CONDITION, "read 9"),
        is_said_of_list(alloc, CONDITIONS, 17, CONDITION, "4 Many /when_all"),
        is_said_of_list(alloc, "[53]", 65, "53", "4 Many /when_all/0/any"),
    ]
}

#[test]
fn sixteen_conditions_are_read(rt: HostRuntime) {
    check_all(&rt, &conditions(rt.alloc()));
}
