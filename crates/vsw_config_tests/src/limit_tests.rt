//! Lists and files at their limits, and one above.

use crate::samples::{ONE, Text, check_all, is_said, is_said_of, put_list, with_list};
use std::alloc::Global;

/// Whether this is said of the first file with a list of so many items in place of another list.
fn is_said_of_list(alloc: Global, old: &str, count: usize, item: &str, expected: &str) -> bool {
    let file = with_list(alloc, ONE, old, count, item);
    is_said_of(alloc, &file, expected)
}

const CONDITIONS: &str = r#"[{"field":"dst_ip","any":["10.0.0.0/24"]}]"#;

const CONDITION: &str = r#"{"field":"dst_port","any":[1]}"#;

fn conditions(alloc: Global) -> [bool; 3] {
    let many = "Many /ports/0/layers/0/groups/0/rules/0/when";
    [
        is_said_of_list(alloc, CONDITIONS, 16, CONDITION, "read"),
        is_said_of_list(alloc, CONDITIONS, 17, CONDITION, many),
        is_said_of_list(alloc, CONDITIONS, 17, "1", many),
    ]
}

#[test]
fn sixteen_conditions_are_read(rt: HostRuntime) {
    check_all(&rt, &conditions(rt.alloc()));
}

const ITEMS: &str = r#"["10.0.0.0/24"]"#;

fn items(alloc: Global) -> [bool; 2] {
    let many = "Many /ports/0/layers/0/groups/0/rules/0/when/0/any";
    [
        is_said_of_list(alloc, ITEMS, 64, r#""10.0.0.1""#, "read"),
        is_said_of_list(alloc, ITEMS, 65, r#""10.0.0.1""#, many),
    ]
}

#[test]
fn sixty_four_items_are_read(rt: HostRuntime) {
    check_all(&rt, &items(rt.alloc()));
}

const RULES: &str = concat!(
    r#"[{"rule":5,"priority":10,"when":[{"field":"dst_ip","any":["10.0.0.0/24"]}],"#,
    r#""action":"allow","stateful":false,"last":false}]"#,
);

fn rules(alloc: Global) -> [bool; 2] {
    let shape = "Shape /ports/0/layers/0/groups/0/rules/0";
    let many = "Many /ports/0/layers/0/groups/0/rules";
    [
        is_said_of_list(alloc, RULES, 1024, "1", shape),
        is_said_of_list(alloc, RULES, 1025, "1", many),
    ]
}

#[test]
fn rules_are_counted_before_they_are_read(rt: HostRuntime) {
    check_all(&rt, &rules(rt.alloc()));
}

const GROUPS: &str = concat!(
    r#"[{"group":1,"dir":"out","when":[],"#,
    r#""rules":[{"rule":5,"priority":10,"when":[{"field":"dst_ip","any":["10.0.0.0/24"]}],"#,
    r#""action":"allow","stateful":false,"last":false}]}]"#,
);

fn groups(alloc: Global) -> [bool; 2] {
    let shape = "Shape /ports/0/layers/0/groups/0";
    let many = "Many /ports/0/layers/0/groups";
    [
        is_said_of_list(alloc, GROUPS, 32, "1", shape),
        is_said_of_list(alloc, GROUPS, 33, "1", many),
    ]
}

#[test]
fn groups_are_counted_before_they_are_read(rt: HostRuntime) {
    check_all(&rt, &groups(rt.alloc()));
}

/// Whether this is said of a file with so many ports that are none.
fn is_said_of_ports(alloc: Global, count: usize, expected: &str) -> bool {
    let mut file = Text::new(alloc);
    file.put(br#"{"version":1,"controllers":[1],"ports":"#);
    put_list(&mut file, count, "1");
    file.put(b"}");
    is_said_of(alloc, &file, expected)
}

fn ports(alloc: Global) -> [bool; 3] {
    [
        is_said_of_ports(alloc, 0, "read"),
        is_said_of_ports(alloc, 16, "Shape /ports/0"),
        is_said_of_ports(alloc, 17, "ports"),
    ]
}

#[test]
fn ports_are_counted_before_they_are_read(rt: HostRuntime) {
    check_all(&rt, &ports(rt.alloc()));
}

/// Appends a layer without groups, whose number has these last two digits.
fn put_layer(out: &mut Text, number: usize) {
    const DIGITS: &[u8; 10] = b"0123456789";
    out.put(br#"{"controller":1,"layer":1"#);
    out.put(&[DIGITS[number / 10 % 10], DIGITS[number % 10]]);
    out.put(br#","order":1,"default_out":"drop","default_in":"drop","#);
    out.put(br#""pairs":100,"idle":240,"linger":10,"groups":[]},"#);
}

/// The first file with so many further layers in front.
fn with_layers(alloc: Global, count: usize) -> Text {
    let mut file = Text::new(alloc);
    match ONE.split_once(r#""layers":["#) {
        None => file.put(b"nothing to change"),
        Some((before, after)) => {
            file.put(before.as_bytes());
            file.put(br#""layers":["#);
            for number in 0..count {
                put_layer(&mut file, number);
            }
            file.put(after.as_bytes());
        }
    }
    file
}

fn layers(alloc: Global) -> [bool; 2] {
    [
        is_said_of(alloc, &with_layers(alloc, 15), "read"),
        is_said_of(alloc, &with_layers(alloc, 16), "Many /ports/0/layers/16"),
    ]
}

#[test]
fn seventeenth_layer_of_a_controller_is_too_many(rt: HostRuntime) {
    check_all(&rt, &layers(rt.alloc()));
}

/// Whether this is said of a file that is filled up with spaces.
fn is_said_of_long(alloc: Global, len: usize, text: &str, expected: &str) -> bool {
    let mut file = Text::new(alloc);
    file.put(text.as_bytes());
    file.fill(len, b' ');
    is_said_of(alloc, &file, expected)
}

fn bytes(alloc: Global) -> [bool; 4] {
    [
        is_said_of_long(alloc, 4_194_304, ONE, "read"),
        is_said_of_long(alloc, 4_194_305, ONE, "policy"),
        is_said_of_long(alloc, 4_194_304, "x", "Json /"),
        is_said_of_long(alloc, 4_194_305, "x", "policy"),
    ]
}

#[test]
fn bytes_are_counted_before_they_are_read(rt: HostRuntime) {
    check_all(&rt, &bytes(rt.alloc()));
}

fn other_bytes(alloc: Global) -> [bool; 5] {
    [
        is_said(alloc, b"", "Json /"),
        is_said(alloc, b"{", "Json /"),
        is_said(alloc, b"\xff", "Json /"),
        is_said(alloc, b"[]", "Shape /"),
        is_said(alloc, b"null", "Shape /"),
    ]
}

#[test]
fn other_bytes_are_no_json(rt: HostRuntime) {
    check_all(&rt, &other_bytes(rt.alloc()));
}
