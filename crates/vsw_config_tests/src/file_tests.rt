//! Refusals of each kind, and values at their limits.

use crate::samples::check;

/// A refusal of each kind, and of a limit.
const KINDS: [[&str; 3]; 5] = [
    [
        r#","last":false"#,
        "",
        "Shape /ports/0/layers/0/groups/0/rules/0",
    ],
    [
        r#""controller":1"#,
        r#""controller":2"#,
        "Unknown /ports/0/layers/0/controller",
    ],
    [
        r#""allow","stateful":false"#,
        r#""drop","stateful":true"#,
        "BadRule /ports/0/layers/0/groups/0/rules/0",
    ],
    [
        r#""layers":["#,
        concat!(
            r#""layers":[{"controller":1,"layer":10,"order":1,"default_out":"drop","#,
            r#""default_in":"drop","pairs":100,"idle":240,"linger":10,"#,
            r#""groups":[{"group":1,"dir":"out","when":[],"rules":[{"rule":5,"#,
            r#""priority":10,"when":[{"field":"dst_ip","any":["10.0.0.0/24"]}],"#,
            r#""action":"allow","stateful":false,"last":false}]}]},"#,
        ),
        "Twice /ports/0/layers/1/layer",
    ],
    ["[1]", "[1,2,3,4,5,6,7,8,9]", "controllers"],
];

#[test]
fn each_kind_is_told_with_its_path(rt: HostRuntime) {
    check(&rt, rt.alloc(), &KINDS);
}

/// Members that are missing or unknown: the object is of the wrong form.
const MEMBERS: [[&str; 3]; 11] = [
    [r#"{"version":1"#, r#"{"note":1,"version":1"#, "Shape /"],
    [r#""version":1,"#, "", "Shape /"],
    [r#""rows":64,"#, "", "Shape /ports/0"],
    [r#""rows":64,"#, r#""rows":64,"note":1,"#, "Shape /ports/0"],
    [r#""order":1,"#, "", "Shape /ports/0/layers/0"],
    [
        r#""order":1,"#,
        r#""order":1,"note":1,"#,
        "Shape /ports/0/layers/0",
    ],
    [r#""dir":"out","#, "", "Shape /ports/0/layers/0/groups/0"],
    [
        r#""dir":"out","#,
        r#""dir":"out","note":1,"#,
        "Shape /ports/0/layers/0/groups/0",
    ],
    [
        r#""stateful":false,"#,
        r#""stateful":false,"note":1,"#,
        "Shape /ports/0/layers/0/groups/0/rules/0",
    ],
    [
        r#""field":"dst_ip","#,
        "",
        "Shape /ports/0/layers/0/groups/0/rules/0/when/0",
    ],
    [
        r#""field":"dst_ip","#,
        r#""field":"dst_ip","note":1,"#,
        "Shape /ports/0/layers/0/groups/0/rules/0/when/0",
    ],
];

#[test]
fn missing_and_unknown_members_are_told_at_their_object(rt: HostRuntime) {
    check(&rt, rt.alloc(), &MEMBERS);
}

/// Values of the wrong form, and numbers past their limits.
const VALUES: [[&str; 3]; 25] = [
    [r#""version":1"#, r#""version":0"#, "Shape /version"],
    [r#""version":1"#, r#""version":3"#, "Shape /version"],
    [r#""version":1"#, r#""version":"1""#, "Shape /version"],
    [
        r#""controllers":[1]"#,
        r#""controllers":1"#,
        "Shape /controllers",
    ],
    ["[1]", r#"[1,"2"]"#, "Shape /controllers/1"],
    [r#""port":1"#, r#""port":65536"#, "Shape /ports/0/port"],
    [
        "02:00:00:00:00:01",
        "02:00:00:00:00:0g",
        "Shape /ports/0/mac",
    ],
    [r#""02:00:00:00:00:01""#, "1", "Shape /ports/0/mac"],
    [r#""rows":64"#, r#""rows":7"#, "Shape /ports/0/rows"],
    [r#""rows":64"#, r#""rows":16385"#, "Shape /ports/0/rows"],
    [
        r#""layer":10"#,
        r#""layer":-1"#,
        "Shape /ports/0/layers/0/layer",
    ],
    [
        r#""layer":10"#,
        r#""layer":10.0"#,
        "Shape /ports/0/layers/0/layer",
    ],
    [
        r#""layer":10"#,
        r#""layer":1e1"#,
        "Shape /ports/0/layers/0/layer",
    ],
    [
        r#""layer":10"#,
        r#""layer":-0"#,
        "Shape /ports/0/layers/0/layer",
    ],
    [
        r#""order":1"#,
        r#""order":65536"#,
        "Shape /ports/0/layers/0/order",
    ],
    [
        r#""default_out":"drop""#,
        r#""default_out":"deny""#,
        "Shape /ports/0/layers/0/default_out",
    ],
    [
        r#""default_in":"drop""#,
        r#""default_in":false"#,
        "Shape /ports/0/layers/0/default_in",
    ],
    [
        r#""pairs":100"#,
        r#""pairs":65537"#,
        "Shape /ports/0/layers/0/pairs",
    ],
    [
        r#""idle":240"#,
        r#""idle":0"#,
        "Shape /ports/0/layers/0/idle",
    ],
    [
        r#""idle":240"#,
        r#""idle":86401"#,
        "Shape /ports/0/layers/0/idle",
    ],
    [
        r#""linger":10"#,
        r#""linger":86401"#,
        "Shape /ports/0/layers/0/linger",
    ],
    [
        r#""dir":"out""#,
        r#""dir":"up""#,
        "Shape /ports/0/layers/0/groups/0/dir",
    ],
    [
        r#""priority":10"#,
        r#""priority":65536"#,
        "Shape /ports/0/layers/0/groups/0/rules/0/priority",
    ],
    [
        r#""stateful":false"#,
        r#""stateful":0"#,
        "Shape /ports/0/layers/0/groups/0/rules/0/stateful",
    ],
    [
        r#""last":false"#,
        r#""last":"false""#,
        "Shape /ports/0/layers/0/groups/0/rules/0/last",
    ],
];

#[test]
fn wrong_values_are_told_where_they_stand(rt: HostRuntime) {
    check(&rt, rt.alloc(), &VALUES);
}

/// Values at their limits.
const FITTING: [[&str; 3]; 13] = [
    [r#""version":1"#, r#""version":2"#, "read"],
    [r#""port":1"#, r#""port":0"#, "read"],
    [r#""port":1"#, r#""port":65535"#, "read"],
    [r#""rows":64"#, r#""rows":8"#, "read"],
    [r#""rows":64"#, r#""rows":16384"#, "read"],
    [r#""pairs":100"#, r#""pairs":0"#, "read"],
    [r#""pairs":100"#, r#""pairs":65536"#, "read"],
    [r#""idle":240"#, r#""idle":1"#, "read"],
    [r#""idle":240"#, r#""idle":86400"#, "read"],
    [r#""linger":10"#, r#""linger":1"#, "read"],
    [r#""linger":10"#, r#""linger":86400"#, "read"],
    ["02:00:00:00:00:01", "fF:Ff:00:aB:Ab:01", "read"],
    ["[1]", "[1,2,3,4,5,6,7,8]", "read"],
];

#[test]
fn values_at_their_limits_are_read(rt: HostRuntime) {
    check(&rt, rt.alloc(), &FITTING);
}
