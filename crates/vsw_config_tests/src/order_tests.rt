//! The order of the tests, and what stands twice.

use crate::samples::check;

/// Two faults each, of which the first in the order of reading is told.
const TWO_FAULTS: [[&str; 3]; 11] = [
    [r#"{"version":1"#, r#"{"note":1,"version":3"#, "Shape /"],
    [
        r#"1,"controllers":[1]"#,
        r#"3,"controllers":[1,2,3,4,5,6,7,8,9]"#,
        "Shape /version",
    ],
    ["[1]", r#"["x",2,3,4,5,6,7,8,9]"#, "controllers"],
    [
        r#"[1],"ports":["#,
        r#"[1,1],"ports":[1,"#,
        "Twice /controllers/1",
    ],
    [
        r#""controller":1,"layer":10"#,
        r#""controller":2,"layer":-1"#,
        "Unknown /ports/0/layers/0/controller",
    ],
    [
        r#""controller":1,"layer":10"#,
        r#""controller":-1,"layer":-1"#,
        "Shape /ports/0/layers/0/controller",
    ],
    [
        r#""allow","stateful":false,"last":false"#,
        r#""drop","stateful":true"#,
        "Shape /ports/0/layers/0/groups/0/rules/0",
    ],
    [
        r#""allow","stateful":false,"last":false"#,
        r#""drop","stateful":true,"last":0"#,
        "Shape /ports/0/layers/0/groups/0/rules/0/last",
    ],
    [
        r#""rules":[{"rule":5,"priority":10"#,
        concat!(
            r#""rules":[{"rule":5,"priority":10,"when":[],"action":"allow","#,
            r#""stateful":false,"last":false},{"rule":5,"priority":-1"#,
        ),
        "Twice /ports/0/layers/0/groups/0/rules/1/rule",
    ],
    [
        r#""rules":[{"rule":5"#,
        concat!(
            r#""rules":[{"rule":5,"priority":10,"when":[],"action":"allow","#,
            r#""stateful":false,"last":false},{"note":1,"rule":5"#,
        ),
        "Shape /ports/0/layers/0/groups/0/rules/1",
    ],
    [
        r#""dst_ip","any":["10.0.0.0/24"]"#,
        r#""dst_ip6","any":1"#,
        "Shape /ports/0/layers/0/groups/0/rules/0/when/0/field",
    ],
];

#[test]
fn first_fault_is_told(rt: HostRuntime) {
    check(&rt, rt.alloc(), &TWO_FAULTS);
}

/// Numbers and addresses that stand twice, also in another spelling, and members of which the last counts.
const TWICE: [[&str; 3]; 9] = [
    ["[1]", "[1,2,1]", "Twice /controllers/2"],
    [
        r#""ports":["#,
        r#""ports":[{"port":2,"mac":"02:00:00:00:00:aB","rows":8,"layers":[]},"#,
        "read",
    ],
    [
        r#""ports":[{"port":1,"#,
        concat!(
            r#""ports":[{"port":2,"mac":"02:00:00:00:00:aB","rows":8,"layers":[]},"#,
            r#"{"port":2,"#,
        ),
        "Twice /ports/1/port",
    ],
    [
        r#""ports":[{"port":1,"mac":"02:00:00:00:00:01""#,
        concat!(
            r#""ports":[{"port":2,"mac":"02:00:00:00:00:aB","rows":8,"layers":[]},"#,
            r#"{"port":1,"mac":"02:00:00:00:00:Ab""#,
        ),
        "Twice /ports/1/mac",
    ],
    [
        r#""groups":["#,
        r#""groups":[{"group":1,"dir":"in","when":[],"rules":[]},"#,
        "Twice /ports/0/layers/0/groups/1/group",
    ],
    [
        r#""groups":["#,
        concat!(
            r#""groups":[{"group":2,"dir":"in","when":[],"rules":[{"rule":5,"#,
            r#""priority":10,"when":[],"action":"allow","stateful":false,"#,
            r#""last":false}]},"#,
        ),
        "read",
    ],
    [
        r#""rules":["#,
        concat!(
            r#""rules":[{"rule":5,"priority":10,"when":[],"action":"allow","#,
            r#""stateful":false,"last":false},"#,
        ),
        "Twice /ports/0/layers/0/groups/0/rules/1/rule",
    ],
    [r#""rows":64"#, r#""rows":7,"rows":64"#, "read"],
    [
        r#""rows":64"#,
        r#""rows":64,"rows":7"#,
        "Shape /ports/0/rows",
    ],
];

#[test]
fn what_stands_twice_is_told_at_the_second(rt: HostRuntime) {
    check(&rt, rt.alloc(), &TWICE);
}
