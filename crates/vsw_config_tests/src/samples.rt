//! Policy files, and what is said of them.

use std::alloc::Global;
use std::process::Abort;
use vsw_config::{ConfigFault, Step, read_policy};

/// A policy of one layer, whose one rule lets packets to 10.0.0.0/24 go out.
pub const ONE: &str = concat!(
    r#"{"version":1,"controllers":[1],"#,
    r#""ports":[{"port":1,"mac":"02:00:00:00:00:01","rows":64,"layers":[{"controller":1,"#,
    r#""layer":10,"order":1,"default_out":"drop","default_in":"drop","pairs":100,"idle":240,"#,
    r#""linger":10,"groups":[{"group":1,"dir":"out","when":[],"rules":[{"rule":5,"priority":10,"#,
    r#""when":[{"field":"dst_ip","any":["10.0.0.0/24"]}],"action":"allow","stateful":false,"#,
    r#""last":false}]}]}]}]}"#,
);

/// A policy of version 2, whose one rule has packets to fd00::/64 come from fd00::77.
pub const OF_IPV6: &str = concat!(
    r#"{"version":2,"controllers":[1],"#,
    r#""ports":[{"port":1,"mac":"02:00:00:00:00:01","rows":64,"layers":[{"controller":1,"#,
    r#""layer":10,"order":1,"default_out":"drop","default_in":"drop","pairs":100,"idle":240,"#,
    r#""linger":10,"groups":[{"group":1,"dir":"out","when":[],"rules":[{"rule":5,"priority":10,"#,
    r#""when":[{"field":"dst_ip6","any":["fd00::/64"]}],"#,
    r#""action":{"decap":false,"set":{"src_ip6":"fd00::77"},"encap":null},"stateful":true,"#,
    r#""last":false}]}]}]}]}"#,
);

/// A text that is put together. Where memory is wanting it isn't whole, and then it is no file and is not what is said.
#[derive(Drop)]
pub struct Text {
    bytes: Vec<u8>,
    whole: bool,
}

impl Text {
    pub fn new(alloc: Global) -> Text {
        Text {
            bytes: Vec::new(alloc),
            whole: true,
        }
    }

    /// Appends bytes.
    pub fn put(&mut self, bytes: &[u8]) {
        if self.bytes.extend_from_slice(bytes).is_err() {
            self.whole = false;
        }
    }

    /// Appends a number in decimal digits.
    pub fn put_number(&mut self, alloc: Global, number: usize) {
        match format!(in alloc; "{number}") {
            Ok(text) => self.put(text.as_bytes()),
            Err(_) => self.whole = false,
        }
    }

    /// Makes it so long, with this byte at its end.
    pub fn fill(&mut self, len: usize, byte: u8) {
        if self.bytes.resize(len, byte).is_err() {
            self.whole = false;
        }
    }

    /// All that was put, if it is whole.
    pub fn whole(&self) -> Option<&[u8]> {
        if self.whole { Some(&self.bytes) } else { None }
    }

    /// Whether it is whole, and these bytes.
    pub fn is(&self, bytes: &[u8]) -> bool {
        self.whole && self.bytes.as_slice() == bytes
    }
}

/// A text with one piece in place of the first occurrence of another.
pub fn replaced(alloc: Global, text: &str, old: &str, new: &[u8]) -> Text {
    let mut out = Text::new(alloc);
    match text.split_once(old) {
        None => out.put(b"nothing to change"),
        Some((before, after)) => {
            out.put(before.as_bytes());
            out.put(new);
            out.put(after.as_bytes());
        }
    }
    out
}

/// Appends a list of one item so many times.
pub fn put_list(out: &mut Text, count: usize, item: &str) {
    out.put(b"[");
    for place in 0..count {
        if place > 0 {
            out.put(b",");
        }
        out.put(item.as_bytes());
    }
    out.put(b"]");
}

/// A text with a list of one item so many times in place of the first occurrence of a piece.
pub fn with_list(alloc: Global, text: &str, old: &str, count: usize, item: &str) -> Text {
    let mut out = Text::new(alloc);
    match text.split_once(old) {
        None => out.put(b"nothing to change"),
        Some((before, after)) => {
            out.put(before.as_bytes());
            put_list(&mut out, count, item);
            out.put(after.as_bytes());
        }
    }
    out
}

/// Appends a path as a complaint has it, whose innermost step stands first.
pub fn put_path(alloc: Global, out: &mut Text, path: &[Step]) {
    if path.is_empty() {
        out.put(b"/");
    }
    for i in 0..path.len() {
        out.put(b"/");
        match path[path.len() - 1 - i] {
            Step::Member(word) => out.put(word.text().as_bytes()),
            Step::Place(place) => out.put_number(alloc, place),
        }
    }
}

/// Appends a fault as a complaint has it: its kind and path, or the limit.
fn put_fault(alloc: Global, out: &mut Text, fault: &ConfigFault) {
    match fault {
        ConfigFault::Bad { kind, path } => {
            out.put(kind.name().as_bytes());
            out.put(b" ");
            put_path(alloc, out, path.as_slice());
        }
        ConfigFault::PolicyLimit => out.put(b"policy"),
        ConfigFault::PortsLimit => out.put(b"ports"),
        ConfigFault::ControllersLimit => out.put(b"controllers"),
        ConfigFault::Memory => out.put(b"memory"),
    }
}

/// Whether this is what is said of a file: `read`, or the fault.
pub fn is_said(alloc: Global, bytes: &[u8], expected: &str) -> bool {
    let mut out = Text::new(alloc);
    match read_policy(alloc, bytes) {
        Ok(_) => out.put(b"read"),
        Err(fault) => put_fault(alloc, &mut out, &fault),
    }
    out.is(expected.as_bytes())
}

/// Whether this is what is said of a file that was put together.
pub fn is_said_of(alloc: Global, file: &Text, expected: &str) -> bool {
    match file.whole() {
        Some(bytes) => is_said(alloc, bytes, expected),
        None => false,
    }
}

/// Whether a change of a file makes what is said of it: what goes, what comes, and what is said.
fn is_right(alloc: Global, file: &str, change: &[&str; 3]) -> bool {
    let file = replaced(alloc, file, change[0], change[1].as_bytes());
    is_said_of(alloc, &file, change[2])
}

/// The place of the first change of a file of which another thing is said, if there is one.
pub fn first_wrong(alloc: Global, file: &str, changes: &[[&str; 3]]) -> Option<usize> {
    for place in 0..changes.len() {
        if !is_right(alloc, file, &changes[place]) {
            return Some(place);
        }
    }
    None
}

/// Fails where another thing is said of a change than it says.
pub fn check(rt: &impl Abort, alloc: Global, changes: &[[&str; 3]]) {
    let wrong = first_wrong(alloc, ONE, changes);
    assert!(rt; wrong.is_none(), "{wrong:?}");
}

/// Fails at the first place where something isn't as it should be.
pub fn check_all(rt: &impl Abort, right: &[bool]) {
    for place in 0..right.len() {
        assert!(rt; right[place], "{place}");
    }
}
