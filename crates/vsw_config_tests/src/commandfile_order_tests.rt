//! The order of the tests.

use crate::commandfile_samples::check;

/// Two faults of one line, of which the first in the order of reading is told.
const TWO_FAULTS: [[&str; 3]; 12] = [
    [r#"{"at":1,"#, r#"{"note":1,"at":-1,"#, "1 Shape /at"],
    [
        r#"{"at":1,"when":"before""#,
        r#"{"at":-1,"when":"after""#,
        "1 Shape /at",
    ],
    [
        r#""before","controller":1"#,
        r#""after","controller":9"#,
        "1 Shape /when",
    ],
    [
        r#""controller":1,"port":1"#,
        r#""controller":9,"port":9"#,
        "1 Unknown /controller",
    ],
    [
        r#""port":1,"do":"add_layer""#,
        r#""port":9,"do":"add""#,
        "1 Unknown /port",
    ],
    [r#""do":"add_layer""#, r#""do":"put_many""#, "1 Shape /do"],
    [
        r#""do":"add_layer","#,
        r#""note":1,"do":"Add_layer","#,
        "1 Shape /do",
    ],
    [r#""do":"add_layer","#, r#""note":1,"#, "1 Shape /"],
    [r#""layer":10"#, r#""note":1,"layer":-1"#, "1 Shape /"],
    [
        r#""layer":10,"order":3"#,
        r#""layer":-1,"order":-1"#,
        "1 Shape /layer",
    ],
    [
        r#""when":[],"action":"drop","stateful":false,"last":true}"#,
        r#""when":[],"action":"drop","stateful":true,"last":1}"#,
        "7 Shape /rules/0/last",
    ],
    [
        r#""when":[],"action":"drop","stateful":false,"last":true}"#,
        r#""when":[],"action":"drop","stateful":true,"last":true},1"#,
        "7 BadRule /rules/0",
    ],
];

#[test]
fn first_fault_of_a_line_is_told(rt: HostRuntime) {
    check(&rt, rt.alloc(), &TWO_FAULTS);
}

/// Two lines with a fault, of which the first is told; and members that stand twice, of which the last
/// counts.
const TWO_LINES: [[&str; 3]; 6] = [
    [
        "\"linger\":11}\n\n{\"at\":3",
        "\"linger\":0}\n\n{\"at\" 3",
        "1 Shape /linger",
    ],
    [
        "\"layer\":20}\n{\"at\":4",
        "\"layer\":-1}\n{",
        "3 Shape /layer",
    ],
    [r#"{"at":1,"#, r#"{"at":-1,"at":1,"#, "read 9"],
    [r#"{"at":1,"#, r#"{"at":1,"at":-1,"#, "1 Shape /at"],
    [
        r#""do":"remove_layer""#,
        r#""do":"sweep","do":"remove_layer""#,
        "read 9",
    ],
    [
        r#""do":"remove_layer""#,
        r#""do":"remove_layer","do":"sweep""#,
        "3 Shape /",
    ],
];

#[test]
fn first_line_with_a_fault_is_told(rt: HostRuntime) {
    check(&rt, rt.alloc(), &TWO_LINES);
}
