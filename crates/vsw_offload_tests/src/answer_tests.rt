//! What the rows of a file answer frames.

use crate::given::file_with;
use std::alloc::Global;
use vsw_base::{Dir, Fate, Moment, Place};
use vsw_frame::{FrameRoom, read_frame};
use vsw_offload::Rows;

/// The query of docs/GUIDE.md's first example.
const QUERY: [u8; 44] = [
    0x02, 0x00, 0x00, 0x00, 0x00, 0x99, 0x02, 0x00, 0x00, 0x00, 0x00, 0x01, 0x08, 0x00, 0x45, 0x00,
    0x00, 0x1e, 0x00, 0x00, 0x40, 0x00, 0x40, 0x11, 0x26, 0xc2, 0x0a, 0x00, 0x00, 0x05, 0x0a, 0x00,
    0x00, 0x09, 0x04, 0xd2, 0x00, 0x35, 0x00, 0x0a, 0x7e, 0x5c, 0x68, 0x69,
];

/// The query with another last byte of its destination port.
fn to_port(last: u8) -> [u8; 44] {
    let mut bytes = QUERY;
    bytes[37] = last;
    bytes
}

/// Whether bytes begin with others.
fn begins(bytes: &[u8], with: &[u8]) -> bool {
    with.len() <= bytes.len() && &bytes[..with.len()] == with
}

/// What a file's rows answer a frame at a moment: where it passes, it leaves as it came.
fn answered(alloc: Global, file: &[u8], frame: &[u8], dir: Dir, moment: u64) -> Option<Fate> {
    let rows = Rows::read(alloc, file).ok()?;
    let mut room = FrameRoom::new();
    let read = read_frame(frame, &mut room).ok()?;
    let mut out = [0; 65_700];
    let fate = rows.answer(Place { port: 0, dir }, &read, Moment::of(moment), &mut out)?;
    if begins(&out, frame) {
        Some(fate)
    } else {
        None
    }
}

#[test]
fn a_row_answers_its_frames(rt: HostRuntime) {
    let alloc = rt.alloc();
    let file = file_with(613, 0);
    let found = [
        answered(alloc, &file, &QUERY, Dir::Out, 0),
        answered(alloc, &file, &to_port(54), Dir::Out, 0),
        answered(alloc, &file, &QUERY, Dir::In, 0),
    ];
    assert!(&rt; found == [Some(Fate::Pass { len: 44 }), None, None]);
}

#[test]
fn a_row_answers_up_to_its_until(rt: HostRuntime) {
    let alloc = rt.alloc();
    let file = file_with(173, 0);
    let found = [
        answered(alloc, &file, &QUERY, Dir::Out, 0x00ff_ffff_ffff_ffff),
        answered(alloc, &file, &QUERY, Dir::Out, 0x0100_0000_0000_0000),
    ];
    assert!(&rt; found == [Some(Fate::Pass { len: 44 }), None]);
}
