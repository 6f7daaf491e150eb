//! A commands file, its changes, and what is said of them.

use crate::samples::{Text, put_path, replaced};
use std::alloc::Global;
use std::process::Abort;
use vsw_base::Items;
use vsw_commandfile::{CommandsFault, Line, read_commands};
use vsw_config::{PolicyFile, read_policy};

/// Controllers 1 and 2, and ports 7 and 1.
pub const POLICY: &str = concat!(
    r#"{"version":1,"controllers":[1,2],"ports":["#,
    r#"{"port":7,"mac":"02:00:00:00:00:07","rows":8,"layers":[]},"#,
    r#"{"port":1,"mac":"02:00:00:00:00:01","rows":8,"layers":[]}]}"#,
);

/// A line of each command, whose packet has the line's number. Lines 2 and 6 are blank, and the last has
/// no line feed.
pub const FILE: &str = concat!(
    r#"{"at":1,"when":"before","controller":1,"port":1,"do":"add_layer","layer":10,"order":3,"#,
    r#""default_out":"drop","default_in":"allow","pairs":100,"idle":240,"linger":11}"#,
    "\n\n",
    r#"{"at":3,"when":"during","controller":2,"port":1,"do":"remove_layer","layer":20}"#,
    "\n",
    r#"{"at":4,"when":"during","controller":1,"port":1,"do":"add_group","layer":10,"group":5,"#,
    r#""dir":"in","when_all":[{"field":"dst_port","any":[53]}]}"#,
    "\r\n",
    r#"{"at":5,"when":"before","controller":1,"port":7,"do":"remove_group","layer":10,"group":5}"#,
    "\n \t\r\n",
    r#"{"at":7,"when":"before","controller":1,"port":1,"do":"put_rules","layer":10,"group":4,"#,
    r#""rules":[{"rule":8,"priority":9,"when":[],"action":"drop","stateful":false,"last":true}]}"#,
    "\n",
    r#" {"at":8,"when":"before","controller":1,"port":1,"do":"add_rule","layer":10,"group":4,"#,
    r#""rule":{"rule":6,"priority":9,"when":[],"action":"allow","stateful":true,"last":false}}"#,
    "\n",
    r#"{"at":9,"when":"before","controller":1,"port":1,"do":"remove_rule","layer":10,"group":4,"#,
    r#""rule":6}"#,
    "\n",
    r#"{"at":10,"when":"before","controller":1,"port":1,"do":"set_default","layer":10,"#,
    r#""dir":"out","default":"allow"}"#,
    "\n",
    r#"{"at":11,"when":"before","controller":1,"port":1,"do":"sweep","layer":10,"now":90000000}"#,
);

/// The same of version 2.
pub const POLICY_OF_2: &str = concat!(
    r#"{"version":2,"controllers":[1,2],"ports":["#,
    r#"{"port":7,"mac":"02:00:00:00:00:07","rows":8,"layers":[]},"#,
    r#"{"port":1,"mac":"02:00:00:00:00:01","rows":8,"layers":[]}]}"#,
);

fn policy(alloc: Global, text: &str) -> Option<PolicyFile> {
    read_policy(alloc, text.as_bytes()).ok()
}

/// The lines of a commands file beside this policy.
pub fn lines_beside(alloc: Global, policy_text: &str, bytes: &[u8]) -> Option<Items<Line>> {
    let policy = policy(alloc, policy_text)?;
    read_commands(alloc, bytes, &policy).ok()
}

/// The lines of a commands file.
pub fn lines_of(alloc: Global, bytes: &[u8]) -> Option<Items<Line>> {
    lines_beside(alloc, POLICY, bytes)
}

/// Appends a fault as a complaint has it: the line, the kind and the path, or the limit.
fn put_fault(alloc: Global, out: &mut Text, fault: &CommandsFault) {
    match fault {
        CommandsFault::Bad { line, kind, path } => {
            out.put_number(alloc, *line as usize);
            out.put(b" ");
            out.put(kind.name().as_bytes());
            out.put(b" ");
            put_path(alloc, out, path.as_slice());
        }
        CommandsFault::CommandsLimit => out.put(b"commands"),
        CommandsFault::LinesLimit => out.put(b"lines"),
        CommandsFault::Memory => out.put(b"memory"),
    }
}

/// Appends what is said of a file: how many lines it gives, or the fault.
fn put_said(alloc: Global, out: &mut Text, policy: &PolicyFile, bytes: &[u8]) {
    match read_commands(alloc, bytes, policy) {
        Ok(lines) => {
            out.put(b"read ");
            out.put_number(alloc, lines.len());
        }
        Err(fault) => put_fault(alloc, out, &fault),
    }
}

/// Whether this is what is said of a file beside this policy.
pub fn is_said_beside(alloc: Global, policy_text: &str, bytes: &[u8], expected: &str) -> bool {
    let mut out = Text::new(alloc);
    match policy(alloc, policy_text) {
        Some(policy) => put_said(alloc, &mut out, &policy, bytes),
        None => out.put(b"no policy"),
    }
    out.is(expected.as_bytes())
}

/// Whether this is what is said of a file.
pub fn is_said(alloc: Global, bytes: &[u8], expected: &str) -> bool {
    is_said_beside(alloc, POLICY, bytes, expected)
}

/// Whether this is what is said of a file that was put together.
pub fn is_said_of(alloc: Global, file: &Text, expected: &str) -> bool {
    match file.whole() {
        Some(bytes) => is_said(alloc, bytes, expected),
        None => false,
    }
}

/// Whether a change makes what is said of it: what goes, what comes, and what is said.
fn is_right(alloc: Global, change: &[&str; 3]) -> bool {
    let file = replaced(alloc, FILE, change[0], change[1].as_bytes());
    is_said_of(alloc, &file, change[2])
}

/// The place of the first change of the file of which another thing is said, if there is one.
fn first_wrong(alloc: Global, changes: &[[&str; 3]]) -> Option<usize> {
    for place in 0..changes.len() {
        if !is_right(alloc, &changes[place]) {
            return Some(place);
        }
    }
    None
}

/// Fails where another thing is said of a change than it says.
pub fn check(rt: &impl Abort, alloc: Global, changes: &[[&str; 3]]) {
    let wrong = first_wrong(alloc, changes);
    assert!(rt; wrong.is_none(), "{wrong:?}");
}
