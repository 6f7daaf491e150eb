//! Refusals of each kind, and values at their limits.

use crate::commandfile_samples::check;

/// A refusal of each kind, on the first line and on later ones.
const KINDS: [[&str; 3]; 9] = [
    [r#"{"at":1,"#, r#"{"at":1"#, "1 Json /"],
    [r#"{"at":3,"#, r#"{"at" 3,"#, "3 Json /"],
    [r#"{"at":11,"#, r#"{"at":11,]"#, "11 Json /"],
    [
        r#""controller":1"#,
        r#""controller":9"#,
        "1 Unknown /controller",
    ],
    [
        r#"3,"when":"during","controller":2"#,
        r#"3,"when":"during","controller":3"#,
        "3 Unknown /controller",
    ],
    [r#""port":7"#, r#""port":2"#, "5 Unknown /port"],
    [r#""linger":11"#, r#""linger":0"#, "1 Shape /linger"],
    [
        r#""drop","stateful":false"#,
        r#""drop","stateful":true"#,
        "7 BadRule /rules/0",
    ],
    [
        r#""allow","stateful":true"#,
        r#""drop","stateful":true"#,
        "8 BadRule /rule",
    ],
];

#[test]
fn each_kind_is_told_with_its_line_and_path(rt: HostRuntime) {
    check(&rt, rt.alloc(), &KINDS);
}

/// Members of each line: missing, unknown, and of another form.
const FRONTS: [[&str; 3]; 15] = [
    [r#"{"at":1,"#, "{", "1 Shape /"],
    [r#"{"at":1,"#, r#"{"at":4294967295,"#, "read 9"],
    [r#"{"at":1,"#, r#"{"at":4294967296,"#, "1 Shape /at"],
    [r#"{"at":1,"#, r#"{"at":-0,"#, "1 Shape /at"],
    [r#"{"at":1,"#, r#"{"at":1.0,"#, "1 Shape /at"],
    [r#"{"at":1,"#, r#"{"at":"1","#, "1 Shape /at"],
    [r#""when":"before","#, "", "1 Shape /"],
    [r#""when":"before""#, r#""when":"after""#, "1 Shape /when"],
    [
        r#""when":"before""#,
        r#""when":["before"]"#,
        "1 Shape /when",
    ],
    [r#""controller":1,"#, "", "1 Shape /"],
    [
        r#""controller":1,"#,
        r#""controller":65537,"#,
        "1 Shape /controller",
    ],
    [r#""port":1,"#, "", "1 Shape /"],
    [r#""port":1,"#, r#""port":null,"#, "1 Shape /port"],
    [r#""do":"add_layer","#, "", "1 Shape /"],
    [r#""do":"add_layer","#, r#""do":1,"#, "1 Shape /do"],
];

#[test]
fn members_of_each_line_are_tested(rt: HostRuntime) {
    check(&rt, rt.alloc(), &FRONTS);
}

/// Members of each command that are missing, or of another command.
const MEMBERS: [[&str; 3]; 18] = [
    [r#""order":3,"#, "", "1 Shape /"],
    [r#""linger":11"#, r#""linger":11,"groups":[]"#, "1 Shape /"],
    [r#","layer":20"#, "", "3 Shape /"],
    [r#","layer":20"#, r#","layer":20,"group":1"#, "3 Shape /"],
    [r#""when_all""#, r#""whenall""#, "4 Shape /"],
    [r#""dir":"in","#, "", "4 Shape /"],
    [r#","group":5}"#, "}", "5 Shape /"],
    [r#","group":5}"#, r#","group":5,"dir":"in"}"#, "5 Shape /"],
    [r#""rules":["#, r#""rule":["#, "7 Shape /"],
    [r#""rules":["#, r#""when_all":[],"rules":["#, "7 Shape /"],
    [r#""rule":{"#, r#""rules":{"#, "8 Shape /"],
    [r#""rule":{"#, r#""now":1,"rule":{"#, "8 Shape /"],
    [r#""rule":6}"#, r#""number":6}"#, "9 Shape /"],
    [r#""rule":6}"#, r#""rule":6,"rules":[]}"#, "9 Shape /"],
    [
        r#""default":"allow""#,
        r#""default_out":"allow""#,
        "10 Shape /",
    ],
    [r#""dir":"out","#, r#""dir":"out","group":1,"#, "10 Shape /"],
    [r#","now":90000000"#, "", "11 Shape /"],
    [r#","now":90000000"#, r#","now":1,"dir":"in""#, "11 Shape /"],
];

#[test]
fn members_of_each_command_are_tested(rt: HostRuntime) {
    check(&rt, rt.alloc(), &MEMBERS);
}

/// Values of the commands at their limits, past them, and of another form.
const VALUES: [[&str; 3]; 20] = [
    [r#""layer":10"#, r#""layer":65536"#, "1 Shape /layer"],
    [
        r#""default_in":"allow""#,
        r#""default_in":true"#,
        "1 Shape /default_in",
    ],
    [r#""pairs":100"#, r#""pairs":65536"#, "read 9"],
    [r#""pairs":100"#, r#""pairs":65537"#, "1 Shape /pairs"],
    [r#""idle":240"#, r#""idle":86401"#, "1 Shape /idle"],
    [r#""dir":"in""#, r#""dir":"up""#, "4 Shape /dir"],
    [
        r#"[{"field":"dst_port","any":[53]}]"#,
        "{}",
        "4 Shape /when_all",
    ],
    [
        r#""any":[53]"#,
        r#""any":["53"]"#,
        "4 Shape /when_all/0/any/0",
    ],
    [r#""any":[53]"#, r#""any":[[9,5],65536]"#, "read 9"],
    [r#""group":5}"#, r#""group":-1}"#, "5 Shape /group"],
    [
        r#""rules":[{"rule""#,
        r#""rules":[1,{"rule""#,
        "7 Shape /rules/0",
    ],
    [r#""rule":8"#, r#""rule":65536"#, "7 Shape /rules/0/rule"],
    [
        r#""action":"drop""#,
        r#""action":null"#,
        "7 Shape /rules/0/action",
    ],
    [r#""last":false}"#, r#""last":0}"#, "8 Shape /rule/last"],
    [r#","last":false}"#, "}", "8 Shape /rule"],
    [r#""rule":6}"#, r#""rule":{}}"#, "9 Shape /rule"],
    [
        r#""default":"allow""#,
        r#""default":"deny""#,
        "10 Shape /default",
    ],
    [
        r#""now":90000000"#,
        r#""now":18446744073709551615"#,
        "read 9",
    ],
    [
        r#""now":90000000"#,
        r#""now":18446744073709551616"#,
        "11 Shape /now",
    ],
    [r#""now":90000000"#, r#""now":-1"#, "11 Shape /now"],
];

#[test]
fn values_of_commands_are_tested(rt: HostRuntime) {
    check(&rt, rt.alloc(), &VALUES);
}
