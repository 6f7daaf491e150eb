//! The files that a host in memory has open.

ghost use Rattle.std.specs.Prelude.{◌≡◌, ◌≤◌, ◌<◌, min, length, take, IfSome, IfNone, All, vec_capacity};
ghost use Rattle.vsw_host.specs.Memory.{openings};
ghost use Rattle.vsw_host.specs.MemoryInside.{IsWithin, OpensNext, OpensNone, ReadsNext};

use crate::memory_file::{MemoryFile, find_place};

/// How many files may be opened.
pub(crate) const OPENINGS: usize = 16;

/// A file that was opened, by its place in the list of files, and how many of its bytes were read.
#[derive(Clone, Copy)]
pub(crate) struct Opening {
    pub file: usize,
    pub read: usize,
}

/// Opens the file of this name, where there is one and another may be opened, and answers its number.
pub(crate) fn open_file(files: &[MemoryFile], opened: &mut Vec<Opening>, name: &str) -> Option<u32>
    requires room { openings ≤ vec_capacity opened.old }
    ensures some { IfSome result (OpensNext files.now opened.old.items opened.new.items name.now) }
    ensures why { IfNone result (OpensNone files.now opened.old.items name.now) }
    ensures none { IfNone result (opened.new.items ≡ opened.old.items) }
    ensures room { openings ≤ vec_capacity opened.new }
{
    let file = find_place(files, name)?;
    let number = opened.len();
    if number >= OPENINGS || opened.push(Opening { file, read: 0 }).is_err() {
        return None;
    }
    Some(number as u32)
}

/// Copies at most `most` of the bytes, as many as the buffer has room for, to its front, and answers how
/// many.
fn copy_front(bytes: &[u8], most: usize, buffer: &mut [u8]) -> usize
    ensures count { result ≡ min (min (length buffer.new) most) (length bytes.now) }
    ensures front { take result buffer.new ≡ take result bytes.now }
{
    let count = buffer.len().min(most).min(bytes.len());
    buffer[..count].copy_from_slice(&bytes[..count]);
    count
}

/// Reads the next bytes of the file of this number, at most `most` and as many as the buffer has room for.
pub(crate) fn read_next(
    files: &[MemoryFile],
    opened: &mut [Opening],
    most: usize,
    number: usize,
    buffer: &mut [u8],
) -> usize
    requires is_open { number < length opened.old }
    requires within { All (IsWithin files.now) opened.old }
    ensures reads { ReadsNext files.now opened.old opened.new most number buffer.new result }
    ensures within { All (IsWithin files.now) opened.new }
{
    let Opening { file, read } = opened[number];
    let count = copy_front(&files[file].bytes.as_slice()[read..], most, buffer);
    opened[number] = Opening {
        file,
        read: read + count,
    };
    count
}
