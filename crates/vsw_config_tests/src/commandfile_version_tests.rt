//! What commands beside a policy of version 2 may ask beside those of version 1.

use crate::commandfile_samples::{POLICY, POLICY_OF_2, is_said_beside, lines_beside};
use crate::samples::{Text, put_list};
use std::alloc::Global;
use vsw_base::Items;
use vsw_commandfile::Line;
use vsw_policy::{Command, Part};
use vsw_rule::Rule;

/// The front of a command over several groups, up to what it asks.
const PUT_MANY: &str = r#"{"at":1,"when":"before","controller":1,"port":1,"do":"put_many""#;

/// What follows that, and what is said of it.
const PARTS: [[&str; 2]; 24] = [
    [r#","parts":[]"#, "read 1"],
    [r#""#, "1 Shape /"],
    [r#","part":[]"#, "1 Shape /"],
    [r#","parts":[],"layer":10"#, "1 Shape /"],
    [r#","parts":[],"rules":[]"#, "1 Shape /"],
    [r#","parts":{}"#, "1 Shape /parts"],
    [r#","parts":null"#, "1 Shape /parts"],
    [r#","parts":"[]""#, "1 Shape /parts"],
    [r#","parts":[1]"#, "1 Shape /parts/0"],
    [r#","parts":[[]]"#, "1 Shape /parts/0"],
    [r#","parts":[{}]"#, "1 Shape /parts/0"],
    [r#","parts":[{"group":1,"rules":[]}]"#, "1 Shape /parts/0"],
    [r#","parts":[{"layer":10,"rules":[]}]"#, "1 Shape /parts/0"],
    [r#","parts":[{"layer":10,"group":1}]"#, "1 Shape /parts/0"],
    [
        r#","parts":[{"layer":10,"group":1,"rules":[]},{"layer":-1,"group":2,"rules":[],"note":1}]"#,
        "1 Shape /parts/1",
    ],
    [
        r#","parts":[{"layer":10,"group":1,"rules":[]},{"layer":10,"group":1,"rules":[]}]"#,
        "read 1",
    ],
    [
        r#","parts":[{"layer":65536,"group":-1,"rules":1}]"#,
        "1 Shape /parts/0/layer",
    ],
    [
        r#","parts":[{"layer":10,"group":1,"rules":[]},{"layer":10,"group":-1,"rules":1}]"#,
        "1 Shape /parts/1/group",
    ],
    [
        r#","parts":[{"layer":10,"group":1,"rules":{}}]"#,
        "1 Shape /parts/0/rules",
    ],
    [
        r#","parts":[{"layer":10,"group":1,"rules":[{"rule":8,"priority":9,"when":[],"action":"drop","stateful":false,"last":true},{"rule":8,"priority":9,"when":[],"action":"drop","stateful":false,"last":true}]}]"#,
        "read 1",
    ],
    [
        r#","parts":[{"layer":10,"group":1,"rules":[{"rule":8,"priority":9,"when":[],"action":"drop","stateful":false,"last":true},{"rule":8,"priority":9,"when":[],"action":"drop","stateful":false,"last":true},1]}]"#,
        "1 Shape /parts/0/rules/2",
    ],
    [
        r#","parts":[{"layer":10,"group":1,"rules":[{"rule":8,"priority":9,"when":[],"action":"drop","stateful":false,"last":true},{"rule":8,"priority":9,"when":[],"action":"drop","stateful":false,"last":true},{"rule":8,"priority":9,"when":[],"action":"drop","stateful":true,"last":true}]}]"#,
        "1 BadRule /parts/0/rules/2",
    ],
    [
        r#","parts":[{"layer":10,"group":1,"rules":[]},{"layer":10,"group":2,"rules":[{"rule":1,"priority":9,"when":[],"action":{"decap":false,"set":{"dst_ip6":"::/0"},"encap":null},"stateful":true,"last":false}]}]"#,
        "1 Shape /parts/1/rules/0/action/set/dst_ip6",
    ],
    [
        r#","parts":[{"layer":10,"group":1,"rules":[]},{"layer":10,"group":2,"rules":[{"rule":1,"priority":9,"when":[{"field":"src_ip6","any":["fd00::/8"]}],"action":{"decap":false,"set":{"dst_ip6":"::1"},"encap":null},"stateful":true,"last":false}]}]"#,
        "read 1",
    ],
];

/// The command with this behind its front.
fn put_many(alloc: Global, parts: &str) -> Text {
    let mut file = Text::new(alloc);
    file.put(PUT_MANY.as_bytes());
    file.put(parts.as_bytes());
    file.put(b"}");
    file
}

/// Whether this is what is said of a command beside a policy of version 2, and of its verb beside one of version 1.
fn is_right(alloc: Global, file: &Text, expected: &str) -> bool {
    match file.whole() {
        Some(bytes) => is_said_beside(alloc, POLICY_OF_2, bytes, expected)
            && is_said_beside(alloc, POLICY, bytes, "1 Shape /do"),
        None => false,
    }
}

/// The place of the first command of which another thing is said, if there is one.
fn first_wrong(alloc: Global, commands: &[[&str; 2]]) -> Option<usize> {
    for place in 0..commands.len() {
        let [parts, expected] = commands[place];
        if !is_right(alloc, &put_many(alloc, parts), expected) {
            return Some(place);
        }
    }
    None
}

/// A command of so many parts.
fn of_parts(alloc: Global, count: usize) -> Text {
    let mut file = Text::new(alloc);
    file.put(PUT_MANY.as_bytes());
    file.put(br#","parts":"#);
    put_list(&mut file, count, r#"{"layer":10,"group":1,"rules":[]}"#);
    file.put(b"}");
    file
}

#[test]
fn parts_of_a_command_are_read(rt: HostRuntime) {
    let wrong = first_wrong(rt.alloc(), &PARTS);
    assert!(&rt; wrong.is_none(), "{wrong:?}");
    // They are neither counted nor compared.
    assert!(&rt; is_right(rt.alloc(), &of_parts(rt.alloc(), 1_100), "read 1"));
}

/// Other commands that speak of IPv6, and what is said of them beside a policy of version 1. Beside one of version 2 they
/// are read.
const OTHERS: [[&str; 2]; 3] = [
    [
        r#"{"at":1,"when":"before","controller":1,"port":1,"do":"add_group","layer":10,"group":5,"dir":"in","when_all":[{"field":"src_ip6","any":["fd00::5"]}]}"#,
        "1 Shape /when_all/0/field",
    ],
    [
        r#"{"at":1,"when":"before","controller":1,"port":1,"do":"add_rule","layer":10,"group":4,"rule":{"rule":6,"priority":9,"when":[],"action":{"decap":false,"set":{"dst_ip6":"fd00::5"},"encap":null},"stateful":true,"last":false}}"#,
        "1 Shape /rule/action/set",
    ],
    [
        r#"{"at":1,"when":"before","controller":1,"port":1,"do":"put_rules","layer":10,"group":4,"rules":[{"rule":6,"priority":9,"when":[{"field":"dst_ip6","any":[]}],"action":"drop","stateful":false,"last":false}]}"#,
        "1 Shape /rules/0/when/0/field",
    ],
];

/// The place of the first of them of which another thing is said, if there is one.
fn first_wrong_other(alloc: Global, commands: &[[&str; 2]]) -> Option<usize> {
    for place in 0..commands.len() {
        let [text, expected] = commands[place];
        if !is_said_beside(alloc, POLICY, text.as_bytes(), expected)
            || !is_said_beside(alloc, POLICY_OF_2, text.as_bytes(), "read 1")
        {
            return Some(place);
        }
    }
    None
}

/// A command over two groups: the first gets no rules, and the second rules 8 and 7.
const TWO_PARTS: &str = concat!(
    r#","parts":[{"layer":10,"group":1,"rules":[]},{"layer":20,"group":2,"rules":["#,
    r#"{"rule":8,"priority":9,"when":[],"action":"drop","stateful":false,"last":true},"#,
    r#"{"rule":7,"priority":9,"when":[],"action":"allow","stateful":true,"last":false}]}]"#,
);

fn numbers(rules: &[Rule]) -> (usize, u16, u16) {
    match rules {
        [first, second] => (2, first.number, second.number),
        _ => (rules.len(), 0, 0),
    }
}

/// The layer and the group of a part, and how many rules and which it has.
fn told(part: &Part) -> (u16, u16, (usize, u16, u16)) {
    (part.layer, part.group, numbers(part.rules.as_slice()))
}

fn are_two(parts: &[Part]) -> bool {
    match parts {
        [first, second] => told(first) == (10, 1, (0, 0, 0)) && told(second) == (20, 2, (2, 8, 7)),
        _ => false,
    }
}

fn is_asked(lines: &[Line]) -> bool {
    match lines {
        [line] => match &line.command {
            Command::PutMany { parts } => are_two(parts.as_slice()),
            Command::AddLayer { .. }
            | Command::RemoveLayer { .. }
            | Command::AddGroup { .. }
            | Command::RemoveGroup { .. }
            | Command::PutRules { .. }
            | Command::AddRule { .. }
            | Command::RemoveRule { .. }
            | Command::SetDefault { .. }
            | Command::Sweep { .. } => false,
        },
        _ => false,
    }
}

/// Whether the command is read to its two parts, in their order.
fn asks_two(alloc: Global) -> Option<bool> {
    let file = put_many(alloc, TWO_PARTS);
    let lines: Items<Line> = lines_beside(alloc, POLICY_OF_2, file.whole()?)?;
    Some(is_asked(lines.as_slice()))
}

#[test]
fn commands_of_version_2_are_read(rt: HostRuntime) {
    let wrong = first_wrong_other(rt.alloc(), &OTHERS);
    assert!(&rt; wrong.is_none(), "{wrong:?}");
    assert!(&rt; asks_two(rt.alloc()) == Some(true));
}
