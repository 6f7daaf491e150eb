//! Lines that are blank, or no JSON object.

use crate::commandfile_samples::is_said;
use crate::samples::check_all;
use std::alloc::Global;

/// Files, and what is said of each.
const FILES: [[&str; 2]; 18] = [
    ["", "read 0"],
    ["\n", "read 0"],
    [" \t\r", "read 0"],
    ["\r\n\r\n \t \n", "read 0"],
    ["\u{c}\n", "1 Json /"],
    ["\u{a0}\n", "1 Json /"],
    ["\n\n\0", "3 Json /"],
    ["{}", "1 Shape /"],
    ["{}\n", "1 Shape /"],
    ["\n {} ", "2 Shape /"],
    ["\r\n[]\r\n", "2 Shape /"],
    ["null", "1 Shape /"],
    ["7\n", "1 Shape /"],
    ["{\n}\n", "1 Json /"],
    ["{}{}\n", "1 Json /"],
    ["{\"at\":1\n", "1 Json /"],
    ["\n{\"at\":1}\nx", "2 Shape /"],
    ["// a remark\n", "1 Json /"],
];

/// The place of the first file of which another thing is said, if there is one.
fn first_wrong_file(alloc: Global, files: &[[&str; 2]]) -> Option<usize> {
    for place in 0..files.len() {
        let file = &files[place];
        if !is_said(alloc, file[0].as_bytes(), file[1]) {
            return Some(place);
        }
    }
    None
}

#[test]
fn blank_lines_are_counted_and_others_are_objects(rt: HostRuntime) {
    let wrong = first_wrong_file(rt.alloc(), &FILES);
    assert!(&rt; wrong.is_none(), "{wrong:?}");
}

fn other_bytes(alloc: Global) -> [bool; 2] {
    [
        is_said(alloc, b"\n\xff\n", "2 Json /"),
        is_said(alloc, b"{\"at\":\"\xc3\"}", "1 Json /"),
    ]
}

#[test]
fn other_bytes_are_no_json(rt: HostRuntime) {
    check_all(&rt, &other_bytes(rt.alloc()));
}
