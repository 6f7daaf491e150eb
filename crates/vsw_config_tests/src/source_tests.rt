//! Files in memory, read by pieces.

ghost use Rattle.std.specs.Prelude.{◌<◌};
ghost use Rattle.vsw_host.specs.Memory.{outside};

use std::alloc::{AllocError, Global};
use vsw_base::{Items, Text};
use vsw_host::{MemoryFile, MemoryHost, Source, Unopened, are_distinct};

/// So many bytes, no two pieces of which are alike.
fn bytes_of(alloc: Global, count: u32) -> Result<Vec<u8>, AllocError> {
    let mut bytes = Vec::with_capacity(alloc, count as usize)?;
    for place in 0..count {
        bytes.push((place % 251) as u8)?;
    }
    Ok(bytes)
}

fn files_of(alloc: Global, count: u32) -> Result<Vec<MemoryFile>, AllocError> {
    let mut files = Vec::new(alloc);
    files.push(MemoryFile {
        name: Text::of("file".to_string(alloc)?),
        bytes: Items::of(bytes_of(alloc, count)?),
    })?;
    Ok(files)
}

/// A host of one file of so many bytes, which fails in the call of this number.
fn host_of(alloc: Global, count: u32, failing: u64) -> Option<MemoryHost> {
    let files = files_of(alloc, count).ok()?;
    if !are_distinct(&files) {
        return None;
    }
    let failing = vec![in alloc; failing; 1].ok()?;
    MemoryHost::new(alloc, files, 0, failing).ok()
}

/// The lengths of the next four pieces, whose bytes go to the end of `got`. A fault counts as no byte.
fn read_four(host: &mut MemoryHost, source: &Source, got: &mut Vec<u8>) -> Option<[usize; 4]>
    requires open { source.now.file < (outside host.old).opens }
{
    let mut lens = [0; 4];
    let mut room = [0; 65_536];
    for turn in 0..4 {
        if let Ok(count) = source.next(host, &mut room) {
            got.extend_from_slice(room.get(..count)?).ok()?;
            lens[turn] = count;
        }
    }
    Some(lens)
}

/// The lengths of the first four pieces of the host's file, if it has these bytes.
fn lens_of(alloc: Global, host: &mut MemoryHost, bytes: &[u8]) -> Option<[usize; 4]> {
    let source = Source::open(alloc, host, "file").ok()?;
    let mut got = Vec::new(alloc);
    match read_four(host, &source, &mut got) {
        Some(lens) if got.as_slice() == bytes => Some(lens),
        _ => None,
    }
}

/// The same for a host of a file of so many bytes.
fn lens_from(alloc: Global, count: u32, failing: u64, bytes: &[u8]) -> Option<[usize; 4]> {
    let mut host = host_of(alloc, count, failing)?;
    lens_of(alloc, &mut host, bytes)
}

/// The length of a file, the call that fails, and the lengths of the first four pieces.
type Pieces = (u32, u64, [usize; 4]);

const PIECES: [Pieces; 6] = [
    (0, 0, [0; 4]),
    (1, 0, [1, 0, 0, 0]),
    (65_536, 0, [65_536, 0, 0, 0]),
    (70_000, 0, [65_536, 4_464, 0, 0]),
    (70_000, 2, [0, 65_536, 4_464, 0]),
    (70_000, 3, [65_536, 0, 4_464, 0]),
];

fn comes_in(alloc: Global, pieces: &Pieces) -> bool {
    let (count, failing, lens) = *pieces;
    match bytes_of(alloc, count) {
        Ok(bytes) => lens_from(alloc, count, failing, &bytes) == Some(lens),
        Err(_) => false,
    }
}

/// The place of the first of them that come in otherwise is the error.
fn all_come_in(alloc: Global) -> Result<(), usize> {
    for place in 0..PIECES.len() {
        if !comes_in(alloc, &PIECES[place]) {
            return Err(place);
        }
    }
    Ok(())
}

#[test]
fn a_file_is_read_by_pieces(rt: HostRuntime) -> Result<(), usize> {
    all_come_in(rt.alloc())
}

fn faults(alloc: Global, host: &mut MemoryHost, name: &str) -> bool {
    matches!(Source::open(alloc, host, name), Err(Unopened::Fault))
}

fn both_fault(alloc: Global, host: &mut MemoryHost) -> [bool; 2] {
    [faults(alloc, host, "other"), faults(alloc, host, "file")]
}

fn refused(alloc: Global) -> Option<[bool; 2]> {
    let mut host = host_of(alloc, 1, 2)?;
    Some(both_fault(alloc, &mut host))
}

#[test]
fn a_missing_file_is_not_opened(rt: HostRuntime) {
    assert!(rt; refused(rt.alloc()) == Some([true, true]));
}
