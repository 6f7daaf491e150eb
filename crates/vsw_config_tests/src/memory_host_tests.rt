//! Files in memory, read through the calls of a host.

ghost use Rattle.std.specs.Prelude.{◌<◌};

use std::alloc::{AllocError, Global};
use vsw_base::{Items, Text};
use vsw_host::{Failed, Host, MemoryFile, MemoryHost, ReadEnd, are_distinct, read_file};

fn file(alloc: Global, name: &str, bytes: Vec<u8>) -> Result<MemoryFile, AllocError> {
    Ok(MemoryFile {
        name: Text::of(name.to_string(alloc)?),
        bytes: Items::of(bytes),
    })
}

/// Two files, `short` of five bytes and `long` of 100,000.
fn files_of(alloc: Global) -> Result<Vec<MemoryFile>, AllocError> {
    let mut files = Vec::new(alloc);
    files.push(file(alloc, "short", b"12345".to_vec(alloc)?)?)?;
    files.push(file(alloc, "long", vec![in alloc; 7; 100_000]?)?)?;
    Ok(files)
}

/// A host of them, with room for eight bytes.
fn host_of(alloc: Global, failing: &[u64]) -> Option<MemoryHost> {
    let files = files_of(alloc).ok()?;
    if !are_distinct(&files) {
        return None;
    }
    let failing = failing.to_vec(alloc).ok()?;
    MemoryHost::new(alloc, files, 8, failing).ok()
}

/// Which of nine calls succeed.
fn call(host: &mut MemoryHost) -> [bool; 9] {
    [
        host.open("short").is_ok(),
        host.open("short").is_ok(),
        host.put(b"one").is_ok(),
        host.put(b"two").is_ok(),
        host.complain(b"three").is_ok(),
        host.complain(b"four").is_ok(),
        host.put(b"five").is_ok(),
        host.put(b"beyond").is_ok(),
        host.open("other").is_ok(),
    ]
}

/// Which of the calls succeed, and whether what they wrote is as it must be.
fn called(alloc: Global, failing: &[u64]) -> Option<([bool; 9], bool, bool)> {
    let mut host = host_of(alloc, failing)?;
    let answers = call(&mut host);
    let put = host.written() == b"onefive".as_slice();
    let complained = host.complained() == b"three".as_slice();
    Some((answers, put, complained))
}

#[test]
fn calls_fail_by_their_numbers(rt: HostRuntime) {
    let answers = [true, false, true, false, true, false, true, false, false];
    assert!(rt; called(rt.alloc(), &[2, 4, 6]) == Some((answers, true, true)));
}

/// What three reads answer, and the two buffers of which the first is read into twice.
type Reads = ([Result<usize, Failed>; 3], [u8; 2], [u8; 4]);

fn read_thrice(host: &mut MemoryHost) -> Option<Reads> {
    let file = host.open("short").ok()?;
    let mut first = [0; 2];
    let mut last = [0; 4];
    let counts = [
        host.read(file, &mut first),
        host.read(file, &mut last),
        host.read(file, &mut first),
    ];
    Some((counts, first, last))
}

fn reads(alloc: Global) -> Option<Reads> {
    let mut host = host_of(alloc, &[])?;
    read_thrice(&mut host)
}

#[test]
fn reads_go_on_to_the_end(rt: HostRuntime) {
    assert!(rt; reads(rt.alloc()) == Some(([Ok(2), Ok(3), Ok(0)], *b"12", *b"345\0")));
}

/// A file, the most bytes to take of it, the call that fails, how its reading ends, and the bytes
/// that were got.
type Reading = (&'static str, u64, u64, ReadEnd, usize);

const READINGS: [Reading; 7] = [
    ("short", 5, 0, ReadEnd::Whole, 5),
    ("long", 100_000, 0, ReadEnd::Whole, 100_000),
    ("other", 5, 0, ReadEnd::Fault, 0),
    ("short", 4, 0, ReadEnd::Long, 5),
    ("long", 4, 0, ReadEnd::Long, 65_536),
    ("long", 100_000, 1, ReadEnd::Fault, 0),
    ("long", 100_000, 3, ReadEnd::Fault, 65_536),
];

/// How the reading of a file ends, and the bytes that were got.
fn read_to(alloc: Global, host: &mut MemoryHost, name: &str, limit: u64) -> (ReadEnd, usize) {
    let mut got = Vec::new(alloc);
    let end = read_file(host, name, limit, &mut got);
    (end, got.len())
}

fn ends_so(alloc: Global, reading: &Reading) -> bool {
    let (name, limit, failing, end, len) = *reading;
    match host_of(alloc, &[failing]) {
        Some(mut host) => read_to(alloc, &mut host, name, limit) == (end, len),
        None => false,
    }
}

/// The place of the first reading that ends otherwise is the error.
fn all_end_so(alloc: Global) -> Result<(), usize> {
    for place in 0..READINGS.len() {
        if !ends_so(alloc, &READINGS[place]) {
            return Err(place);
        }
    }
    Ok(())
}

#[test]
fn files_are_read_whole_or_as_far_as_told(rt: HostRuntime) -> Result<(), usize> {
    all_end_so(rt.alloc())
}

/// Whether the short file is read whole, as it is.
fn reads_short(alloc: Global, host: &mut MemoryHost) -> bool {
    let mut got = Vec::new(alloc);
    read_file(host, "short", 5, &mut got) == ReadEnd::Whole && got.as_slice() == b"12345".as_slice()
}

/// The same where one read gives at most so many bytes.
fn reads_short_by(alloc: Global, most: usize) -> bool
    requires { 0 < most }
{
    match host_of(alloc, &[]) {
        Some(mut host) => {
            host.read_at_most(most);
            reads_short(alloc, &mut host)
        }
        None => false,
    }
}

/// The first bound of a read under which the file isn't read so is the error.
fn reads_short_by_all(alloc: Global) -> Result<(), usize> {
    for most in [1, 2, 7, 4_096] {
        if !reads_short_by(alloc, most) {
            return Err(most);
        }
    }
    Ok(())
}

#[test]
fn small_reads_give_the_same_bytes(rt: HostRuntime) -> Result<(), usize> {
    reads_short_by_all(rt.alloc())
}
