//! The bytes of rows files.

use crate::given::{file, row};
use std::alloc::Global;
use vsw_base::{Items, Mac};
use vsw_offload::{PortRows, Rows, write_rows};

/// The file of one port with these rows.
fn written(alloc: Global, first: &[u64; 73], second: &[u64; 73]) -> Option<Vec<u8>> {
    let mut rows = Items::new(alloc);
    rows.push(*first).ok()?;
    rows.push(*second).ok()?;
    let mut ports = Vec::new(alloc);
    ports
        .push(PortRows {
            port: 1,
            mac: Mac::of(0x0200_0000_0001),
            entries: 0,
            rows,
        })
        .ok()?;
    write_rows(alloc, &ports).ok()
}

/// Whether the bytes are read, and written again as they are.
fn is_back(alloc: Global, bytes: &[u8]) -> bool {
    let Ok(rows) = Rows::read(alloc, bytes) else {
        return false;
    };
    match write_rows(alloc, rows.port_rows()) {
        Ok(again) => again.as_slice() == bytes,
        Err(_) => false,
    }
}

/// The row of another source port, which comes behind the first one's.
fn later_row() -> [u64; 73] {
    let mut words = row();
    words[0] = 0x0035_04d3_0800_1131;
    words
}

/// A row of the first one's key that ends earlier.
fn same_key() -> [u64; 73] {
    let mut words = row();
    words[17] = 5;
    words
}

fn is_file_of_one(bytes: &Option<Vec<u8>>) -> bool {
    match bytes {
        Some(bytes) => bytes.as_slice() == file().as_slice(),
        None => false,
    }
}

/// Whether both orders give one file.
fn is_same(left: &Option<Vec<u8>>, right: &Option<Vec<u8>>) -> bool {
    match (left, right) {
        (Some(left), Some(right)) => left.as_slice() == right.as_slice() && left.len() == 1198,
        _ => false,
    }
}

#[test]
fn a_row_is_written_to_the_byte(rt: HostRuntime) {
    let alloc = rt.alloc();
    assert!(&rt; is_file_of_one(&written(alloc, &row(), &same_key())));
    assert!(&rt; is_back(alloc, &file()));
}

#[test]
fn rows_stand_in_the_order_of_their_keys(rt: HostRuntime) {
    let alloc = rt.alloc();
    let first = written(alloc, &row(), &later_row());
    let second = written(alloc, &later_row(), &row());
    assert!(&rt; is_same(&first, &second));
}

/// Whether each of a thousand changed files is refused, or is one that is written so.
fn hold(alloc: Global) -> bool {
    for change in 0..1000usize {
        let mut bytes = file();
        bytes[change * 389 % 614] ^= (change % 255 + 1) as u8;
        if Rows::read(alloc, &bytes).is_ok() && !is_back(alloc, &bytes) {
            return false;
        }
    }
    true
}

#[test]
fn changed_files_are_refused_or_files(rt: HostRuntime) {
    assert!(&rt; hold(rt.alloc()));
}
