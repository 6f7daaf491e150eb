//! What a policy of version 2 may say beside those of version 1.

use crate::samples::{OF_IPV6, first_wrong};

/// Conditions on IPv6 addresses.
const ITEMS: [[&str; 3]; 10] = [
    [r#""fd00::/64""#, r#""::/0""#, "read"],
    [r#""fd00::/64""#, r#""::""#, "read"],
    [r#""fd00::/64""#, r#""fd00::9""#, "read"],
    [r#""fd00::/64""#, r#""1:2:3:4:5:6:7::""#, "read"],
    [r#""fd00::/64""#, r#""FD00::aB/128""#, "read"],
    [r#""fd00::/64""#, r#""#, "read"],
    [r#""fd00::/64""#, r#""fd00::/64","fd00::/64""#, "read"],
    [
        r#""dst_ip6","any":["fd00::/64"]"#,
        r#""src_ip6","any":["fd00::5","fd00::/8"]"#,
        "read",
    ],
    [
        r#""dst_ip6","any":["fd00::/64"]"#,
        r#""dst_ip","any":["10.0.0.0/24"]"#,
        "read",
    ],
    [
        r#""when":[],"rules""#,
        r#""when":[{"field":"src_ip6","any":["::1"]}],"rules""#,
        "read",
    ],
];

/// Conditions of other forms, and other versions.
const OTHER_ITEMS: [[&str; 3]; 24] = [
    [
        r#""fd00::/64""#,
        r#""fd00::/129""#,
        "Shape /ports/0/layers/0/groups/0/rules/0/when/0/any/0",
    ],
    [
        r#""fd00::/64""#,
        r#""fd00::/064""#,
        "Shape /ports/0/layers/0/groups/0/rules/0/when/0/any/0",
    ],
    [
        r#""fd00::/64""#,
        r#""fd00::/""#,
        "Shape /ports/0/layers/0/groups/0/rules/0/when/0/any/0",
    ],
    [
        r#""fd00::/64""#,
        r#""fd00::/-1""#,
        "Shape /ports/0/layers/0/groups/0/rules/0/when/0/any/0",
    ],
    [
        r#""fd00::/64""#,
        r#""1::2::3""#,
        "Shape /ports/0/layers/0/groups/0/rules/0/when/0/any/0",
    ],
    [
        r#""fd00::/64""#,
        r#""1:2:3:4:5:6:7:8::""#,
        "Shape /ports/0/layers/0/groups/0/rules/0/when/0/any/0",
    ],
    [
        r#""fd00::/64""#,
        r#""fd00""#,
        "Shape /ports/0/layers/0/groups/0/rules/0/when/0/any/0",
    ],
    [
        r#""fd00::/64""#,
        r#""10.0.0.0/8""#,
        "Shape /ports/0/layers/0/groups/0/rules/0/when/0/any/0",
    ],
    [
        r#""fd00::/64""#,
        r#""::ffff:10.0.0.5""#,
        "Shape /ports/0/layers/0/groups/0/rules/0/when/0/any/0",
    ],
    [
        r#""fd00::/64""#,
        r#"5"#,
        "Shape /ports/0/layers/0/groups/0/rules/0/when/0/any/0",
    ],
    [
        r#""fd00::/64""#,
        r#"["fd00::","fd00::9"]"#,
        "Shape /ports/0/layers/0/groups/0/rules/0/when/0/any/0",
    ],
    [
        r#""fd00::/64""#,
        r#"["fd00::/64"]"#,
        "Shape /ports/0/layers/0/groups/0/rules/0/when/0/any/0",
    ],
    [
        r#""fd00::/64""#,
        r#"null"#,
        "Shape /ports/0/layers/0/groups/0/rules/0/when/0/any/0",
    ],
    [
        r#""fd00::/64""#,
        r#"{}"#,
        "Shape /ports/0/layers/0/groups/0/rules/0/when/0/any/0",
    ],
    [
        r#""fd00::/64""#,
        r#""fd00::/64",5"#,
        "Shape /ports/0/layers/0/groups/0/rules/0/when/0/any/1",
    ],
    [
        r#""version":2"#,
        r#""version":1"#,
        "Shape /ports/0/layers/0/groups/0/rules/0/when/0/field",
    ],
    [r#""version":2"#, r#""version":3"#, "Shape /version"],
    [r#""version":2"#, r#""version":2.0"#, "Shape /version"],
    [
        r#""dst_ip6","any""#,
        r#""dst_ip7","any""#,
        "Shape /ports/0/layers/0/groups/0/rules/0/when/0/field",
    ],
    [
        r#""dst_ip6","any":["fd00::/64"]"#,
        r#""outer_src_ip6","any":[]"#,
        "Shape /ports/0/layers/0/groups/0/rules/0/when/0/field",
    ],
    [
        r#""dst_ip6","any":["fd00::/64"]"#,
        r#""dst_ip","any":["fd00::/64"]"#,
        "Shape /ports/0/layers/0/groups/0/rules/0/when/0/any/0",
    ],
    [
        r#""dst_ip6","any":["fd00::/64"]"#,
        r#""dst_port","any":["fd00::9"]"#,
        "Shape /ports/0/layers/0/groups/0/rules/0/when/0/any/0",
    ],
    [
        r#""dst_ip6","any":["fd00::/64"]"#,
        r#""dst_ip6","any":"fd00::/64""#,
        "Shape /ports/0/layers/0/groups/0/rules/0/when/0/any",
    ],
    [
        r#""dst_ip6","any":["fd00::/64"]"#,
        r#""dst_ip6","any":[[0,5]]"#,
        "Shape /ports/0/layers/0/groups/0/rules/0/when/0/any/0",
    ],
];

/// Edits over IPv6, and what isn't one. Names come first, then members in the order of the format.
const SETS: [[&str; 3]; 14] = [
    [r#""src_ip6":"fd00::77""#, r#""dst_ip6":"::""#, "read"],
    [
        r#""src_ip6":"fd00::77""#,
        r#""dst_mac":"02:00:00:00:00:01","src_mac":"02:00:00:00:00:02","src_ip":"10.0.0.5","dst_ip":"10.0.0.9","src_port":1,"dst_port":2,"src_ip6":"::1","dst_ip6":"::2""#,
        "read",
    ],
    [
        r#""src_ip6":"fd00::77""#,
        r#""#,
        "BadRule /ports/0/layers/0/groups/0/rules/0",
    ],
    [
        r#""src_ip6":"fd00::77""#,
        r#""src_ip6":"10.0.0.5""#,
        "Shape /ports/0/layers/0/groups/0/rules/0/action/set/src_ip6",
    ],
    [
        r#""src_ip6":"fd00::77""#,
        r#""src_ip6":"fd00::77/128""#,
        "Shape /ports/0/layers/0/groups/0/rules/0/action/set/src_ip6",
    ],
    [
        r#""src_ip6":"fd00::77""#,
        r#""src_ip6":119"#,
        "Shape /ports/0/layers/0/groups/0/rules/0/action/set/src_ip6",
    ],
    [
        r#""src_ip6":"fd00::77""#,
        r#""src_ip6":null"#,
        "Shape /ports/0/layers/0/groups/0/rules/0/action/set/src_ip6",
    ],
    [
        r#""src_ip6":"fd00::77""#,
        r#""src_ip":"fd00::77""#,
        "Shape /ports/0/layers/0/groups/0/rules/0/action/set/src_ip",
    ],
    [
        r#""src_ip6":"fd00::77""#,
        r#""src_ip6":"fd00::77","dst_ip6":"1::2::3""#,
        "Shape /ports/0/layers/0/groups/0/rules/0/action/set/dst_ip6",
    ],
    [
        r#""src_ip6":"fd00::77""#,
        r#""ip6":"::""#,
        "Shape /ports/0/layers/0/groups/0/rules/0/action/set",
    ],
    [
        r#""src_ip6":"fd00::77""#,
        r#""dst_ip6":1,"src_ip6":1"#,
        "Shape /ports/0/layers/0/groups/0/rules/0/action/set/src_ip6",
    ],
    [
        r#""src_ip6":"fd00::77""#,
        r#""src_ip6":1,"dst_port":65536"#,
        "Shape /ports/0/layers/0/groups/0/rules/0/action/set/dst_port",
    ],
    [
        r#""encap":null"#,
        r#""encap":{"dst_mac":"02:00:00:00:0a:02","src_mac":"02:00:00:00:0a:01","src_ip":"fd00::1","dst_ip":"172.16.0.2","vni":1}"#,
        "Shape /ports/0/layers/0/groups/0/rules/0/action/encap/src_ip",
    ],
    [
        r#""encap":null"#,
        r#""encap":{"dst_mac":"02:00:00:00:0a:02","src_mac":"02:00:00:00:0a:01","src_ip6":"fd00::1","dst_ip":"172.16.0.2","vni":1}"#,
        "Shape /ports/0/layers/0/groups/0/rules/0/action/encap",
    ],
];

#[test]
fn version_2_speaks_of_ipv6(rt: HostRuntime) {
    let wrong = [
        first_wrong(rt.alloc(), OF_IPV6, &ITEMS),
        first_wrong(rt.alloc(), OF_IPV6, &OTHER_ITEMS),
        first_wrong(rt.alloc(), OF_IPV6, &SETS),
    ];
    assert!(&rt; wrong == [None; 3], "{wrong:?}");
}
