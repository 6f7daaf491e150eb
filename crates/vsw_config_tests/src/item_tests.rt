//! Conditions and actions.

use crate::samples::check;

/// Items of all forms. The conditions of a group aren't judged.
const ITEMS: [[&str; 3]; 12] = [
    [r#""10.0.0.0/24""#, r#""10.0.0.1""#, "read"],
    [
        r#""10.0.0.0/24""#,
        r#"["10.0.0.0","10.0.0.255"],"0.0.0.0/0""#,
        "read",
    ],
    [r#""10.0.0.0/24""#, "", "read"],
    [
        r#""dst_ip","any":["10.0.0.0/24"]"#,
        r#""dst_port","any":[53,[1000,65535]]"#,
        "read",
    ],
    [
        r#""dst_ip","any":["10.0.0.0/24"]"#,
        r#""part","any":[0,1]"#,
        "read",
    ],
    [
        r#""dst_ip","any":["10.0.0.0/24"]"#,
        r#""kind","any":[65535]"#,
        "read",
    ],
    [
        r#""dst_ip","any":["10.0.0.0/24"]"#,
        r#""proto","any":[[6,17]]"#,
        "read",
    ],
    [
        r#""dst_ip","any":["10.0.0.0/24"]"#,
        r#""src_mac","any":["02:00:00:00:0A:02"]"#,
        "read",
    ],
    [
        r#""dst_ip","any":["10.0.0.0/24"]"#,
        r#""outer_dst_mac","any":[["02:00:00:00:0a:02","ff:ff:ff:ff:ff:ff"]]"#,
        "read",
    ],
    [
        r#""dst_ip","any":["10.0.0.0/24"]"#,
        r#""outer_src_ip","any":["172.16.0.0/12"]"#,
        "read",
    ],
    [
        r#""dst_ip","any":["10.0.0.0/24"]"#,
        r#""vni","any":[16777215]"#,
        "read",
    ],
    [
        r#""when":[],"rules""#,
        r#""when":[{"field":"part","any":[2,[5,1]]}],"rules""#,
        "read",
    ],
];

#[test]
fn items_of_all_forms_are_read(rt: HostRuntime) {
    check(&rt, rt.alloc(), &ITEMS);
}

/// Items of other forms.
const OTHER_ITEMS: [[&str; 3]; 17] = [
    [
        r#""10.0.0.0/24""#,
        r#""10.0.0.0/33""#,
        "Shape /ports/0/layers/0/groups/0/rules/0/when/0/any/0",
    ],
    [
        r#""10.0.0.0/24""#,
        r#""10.0.0.256""#,
        "Shape /ports/0/layers/0/groups/0/rules/0/when/0/any/0",
    ],
    [
        r#""10.0.0.0/24""#,
        r#""10.0.0.01""#,
        "Shape /ports/0/layers/0/groups/0/rules/0/when/0/any/0",
    ],
    [
        r#""10.0.0.0/24""#,
        "167772160",
        "Shape /ports/0/layers/0/groups/0/rules/0/when/0/any/0",
    ],
    [
        r#""10.0.0.0/24""#,
        r#"["10.0.0.0","10.0.0.9/32"]"#,
        "Shape /ports/0/layers/0/groups/0/rules/0/when/0/any/0/1",
    ],
    [
        r#""10.0.0.0/24""#,
        r#"[5,"10.0.0.9"]"#,
        "Shape /ports/0/layers/0/groups/0/rules/0/when/0/any/0/0",
    ],
    [
        r#""10.0.0.0/24""#,
        r#"["10.0.0.0"]"#,
        "Shape /ports/0/layers/0/groups/0/rules/0/when/0/any/0",
    ],
    [
        r#""10.0.0.0/24""#,
        r#"["10.0.0.0","10.0.0.1","10.0.0.2"]"#,
        "Shape /ports/0/layers/0/groups/0/rules/0/when/0/any/0",
    ],
    [
        r#""dst_ip","any":["10.0.0.0/24"]"#,
        r#""dst_port","any":[1,"53"]"#,
        "Shape /ports/0/layers/0/groups/0/rules/0/when/0/any/1",
    ],
    [
        r#""dst_ip","any":["10.0.0.0/24"]"#,
        r#""dst_port","any":[18446744073709551616]"#,
        "Shape /ports/0/layers/0/groups/0/rules/0/when/0/any/0",
    ],
    [
        r#""dst_ip","any":["10.0.0.0/24"]"#,
        r#""dst_mac","any":["02:00:00:00:00"]"#,
        "Shape /ports/0/layers/0/groups/0/rules/0/when/0/any/0",
    ],
    [
        r#""dst_ip","any":["10.0.0.0/24"]"#,
        r#""dst_mac","any":[2]"#,
        "Shape /ports/0/layers/0/groups/0/rules/0/when/0/any/0",
    ],
    [
        r#""dst_ip","any":["10.0.0.0/24"]"#,
        r#""dst_ip6","any":[]"#,
        "Shape /ports/0/layers/0/groups/0/rules/0/when/0/field",
    ],
    [
        r#""dst_ip","any":["10.0.0.0/24"]"#,
        r#""src_ip6","any":["fd00::/64"]"#,
        "Shape /ports/0/layers/0/groups/0/rules/0/when/0/field",
    ],
    [
        r#""when":[],"rules""#,
        r#""when":[{"field":"dst_ip6","any":["fd00::/64"]}],"rules""#,
        "Shape /ports/0/layers/0/groups/0/when/0/field",
    ],
    [
        r#""10.0.0.0/24""#,
        r#""fd00::/64""#,
        "Shape /ports/0/layers/0/groups/0/rules/0/when/0/any/0",
    ],
    [
        r#""dst_ip","any":["10.0.0.0/24"]"#,
        r#""dst_ip","any":{}"#,
        "Shape /ports/0/layers/0/groups/0/rules/0/when/0/any",
    ],
];

#[test]
fn items_of_other_forms_are_told(rt: HostRuntime) {
    check(&rt, rt.alloc(), &OTHER_ITEMS);
}

/// Rules that are of the right form, and may not be so.
const JUDGED: [[&str; 3]; 7] = [
    [
        r#""dst_ip","any":["10.0.0.0/24"]"#,
        r#""dst_port","any":[65536]"#,
        "BadRule /ports/0/layers/0/groups/0/rules/0",
    ],
    [
        r#""dst_ip","any":["10.0.0.0/24"]"#,
        r#""dst_port","any":[18446744073709551615]"#,
        "BadRule /ports/0/layers/0/groups/0/rules/0",
    ],
    [
        r#""dst_ip","any":["10.0.0.0/24"]"#,
        r#""part","any":[2]"#,
        "BadRule /ports/0/layers/0/groups/0/rules/0",
    ],
    [
        r#""dst_ip","any":["10.0.0.0/24"]"#,
        r#""proto","any":[256]"#,
        "BadRule /ports/0/layers/0/groups/0/rules/0",
    ],
    [
        r#""dst_ip","any":["10.0.0.0/24"]"#,
        r#""vni","any":[16777216]"#,
        "BadRule /ports/0/layers/0/groups/0/rules/0",
    ],
    [
        r#""10.0.0.0/24""#,
        r#"["10.0.0.9","10.0.0.0"]"#,
        "BadRule /ports/0/layers/0/groups/0/rules/0",
    ],
    [
        r#""allow""#,
        r#"{"decap":false,"set":{},"encap":null}"#,
        "BadRule /ports/0/layers/0/groups/0/rules/0",
    ],
];

#[test]
fn rules_are_judged(rt: HostRuntime) {
    check(&rt, rt.alloc(), &JUDGED);
}

/// Edits, and what isn't one.
const ACTIONS: [[&str; 3]; 17] = [
    [
        r#""allow""#,
        r#"{"decap":true,"set":{},"encap":null}"#,
        "read",
    ],
    [
        r#""allow""#,
        r#"{"decap":false,"set":{"dst_port":65535},"encap":null}"#,
        "read",
    ],
    [
        r#""allow""#,
        concat!(
            r#"{"decap":false,"set":{},"encap":{"dst_mac":"02:00:00:00:0a:02","#,
            r#""src_mac":"02:00:00:00:0a:01","src_ip":"172.16.0.1","#,
            r#""dst_ip":"172.16.0.2","vni":16777215}}"#,
        ),
        "read",
    ],
    [
        r#""allow""#,
        r#""pass""#,
        "Shape /ports/0/layers/0/groups/0/rules/0/action",
    ],
    [
        r#""allow""#,
        "null",
        "Shape /ports/0/layers/0/groups/0/rules/0/action",
    ],
    [
        r#""allow""#,
        r#"{"set":{},"encap":null}"#,
        "Shape /ports/0/layers/0/groups/0/rules/0/action",
    ],
    [
        r#""allow""#,
        r#"{"decap":1,"set":{},"encap":null}"#,
        "Shape /ports/0/layers/0/groups/0/rules/0/action/decap",
    ],
    [
        r#""allow""#,
        r#"{"decap":false,"set":null,"encap":null}"#,
        "Shape /ports/0/layers/0/groups/0/rules/0/action/set",
    ],
    [
        r#""allow""#,
        r#"{"decap":false,"set":{"vni":1},"encap":null}"#,
        "Shape /ports/0/layers/0/groups/0/rules/0/action/set",
    ],
    [
        r#""allow""#,
        r#"{"decap":false,"set":{"src_ip6":"fd00::77"},"encap":null}"#,
        "Shape /ports/0/layers/0/groups/0/rules/0/action/set",
    ],
    [
        r#""allow""#,
        r#"{"decap":false,"set":{"dst_ip6":"fd00::77"},"encap":null}"#,
        "Shape /ports/0/layers/0/groups/0/rules/0/action/set",
    ],
    [
        r#""allow""#,
        r#"{"decap":false,"set":{"src_ip":"x","dst_ip6":1},"encap":null}"#,
        "Shape /ports/0/layers/0/groups/0/rules/0/action/set",
    ],
    [
        r#""allow""#,
        r#"{"decap":false,"set":{"src_port":65536},"encap":null}"#,
        "Shape /ports/0/layers/0/groups/0/rules/0/action/set/src_port",
    ],
    [
        r#""allow""#,
        r#"{"decap":false,"set":{"dst_ip":"10.0.0.0/24"},"encap":null}"#,
        "Shape /ports/0/layers/0/groups/0/rules/0/action/set/dst_ip",
    ],
    [
        r#""allow""#,
        r#"{"decap":false,"set":{},"encap":false}"#,
        "Shape /ports/0/layers/0/groups/0/rules/0/action/encap",
    ],
    [
        r#""allow""#,
        concat!(
            r#"{"decap":false,"set":{},"encap":{"dst_mac":"02:00:00:00:0a:02","#,
            r#""src_mac":"02:00:00:00:0a:01","src_ip":"172.16.0.1","#,
            r#""dst_ip":"172.16.0.2"}}"#,
        ),
        "Shape /ports/0/layers/0/groups/0/rules/0/action/encap",
    ],
    [
        r#""allow""#,
        concat!(
            r#"{"decap":false,"set":{},"encap":{"dst_mac":"02:00:00:00:0a:02","#,
            r#""src_mac":"02:00:00:00:0a:01","src_ip":"172.16.0.1","#,
            r#""dst_ip":"172.16.0.2","vni":16777216}}"#,
        ),
        "Shape /ports/0/layers/0/groups/0/rules/0/action/encap/vni",
    ],
];

#[test]
fn edits_are_read_and_others_told(rt: HostRuntime) {
    check(&rt, rt.alloc(), &ACTIONS);
}
