//! Runs over files in memory.

use crate::memory::{FORWARD, HEADER, STREAM, file, words_of};
use std::alloc::{AllocError, Global};
use std::sync::Wait;
use std::thread::Threads;
use std::time::Clock;
use vsw_app::{Open, run_words};
use vsw_host::{MemoryFile, MemoryHost, are_distinct};
use vsw_run::{Status, Word};

/// A policy of port 1 with one group of outbound rules, which stand between these two.
pub const POLICY_START: &[u8] =
    b"{\"version\":1,\"controllers\":[1],\"ports\":[{\"port\":1,\"mac\":\"02:00:00:00:00:01\",\"rows\":64,\"layers\":[{\"controller\":1,\"layer\":10,\"order\":1,\"default_out\":\"drop\",\"default_in\":\"drop\",\"pairs\":100,\"idle\":240,\"linger\":10,\"groups\":[{\"group\":1,\"dir\":\"out\",\"when\":[],\"rules\":[";

pub const POLICY_END: &[u8] = b"]}]}]}]}";

/// Rule 5 allows 10.0.0.0/24, and rule 6 of the same priority drops it.
pub const ALLOW: &[u8] =
    b"{\"rule\":5,\"priority\":10,\"when\":[{\"field\":\"dst_ip\",\"any\":[\"10.0.0.0/24\"]}],\"action\":\"allow\",\"stateful\":false,\"last\":false}";

pub const DROP: &[u8] =
    b"{\"rule\":6,\"priority\":10,\"when\":[{\"field\":\"dst_ip\",\"any\":[\"10.0.0.0/24\"]}],\"action\":\"drop\",\"stateful\":false,\"last\":false}";

/// The header of a record of 44 bytes at moment 0.
pub const RECORD: &[u8] = b"\x00\x00\x00\x00\x00\x00\x00\x00\x2c\x00\x00\x00\x2c\x00\x00\x00";

/// UDP from 10.0.0.5:1234 to 10.0.0.9:53 with the text "hi", from port 1.
pub const QUERY: &[u8] =
    b"\x02\x00\x00\x00\x00\x99\x02\x00\x00\x00\x00\x01\x08\x00\x45\x00\x00\x1e\x00\x00\x40\x00\x40\x11\x26\xc2\x0a\x00\x00\x05\x0a\x00\x00\x09\x04\xd2\x00\x35\x00\x0a\x7e\x5c\x68\x69";

/// Its line in a report.
pub const QUERY_LINE: &[u8] =
    b"w0 0 @0 pass 44 02000000009902000000000108004500001e00004000401126c20a0000050a00000904d20035000a7e5c6869\n";

/// The same packet to 10.9.0.9, its checksums left as they were.
pub const FAR: &[u8] =
    b"\x02\x00\x00\x00\x00\x99\x02\x00\x00\x00\x00\x01\x08\x00\x45\x00\x00\x1e\x00\x00\x40\x00\x40\x11\x26\xc2\x0a\x00\x00\x05\x0a\x09\x00\x09\x04\xd2\x00\x35\x00\x0a\x7e\x5c\x68\x69";

/// These pieces, one after another.
fn joined(alloc: Global, pieces: &[&[u8]]) -> Result<Vec<u8>, AllocError> {
    let mut bytes = Vec::new(alloc);
    for piece in pieces {
        bytes.extend_from_slice(piece)?;
    }
    Ok(bytes)
}

/// The three files of a run.
#[derive(Drop)]
pub struct Files<'a> {
    pub policy: &'a [&'a [u8]],
    pub commands: &'a [u8],
    pub trace: &'a [&'a [u8]],
}

fn held(alloc: Global, files: &Files<'_>) -> Result<Vec<MemoryFile>, AllocError> {
    let mut held = Vec::new(alloc);
    held.push(file(alloc, "policy", joined(alloc, files.policy)?)?)?;
    held.push(file(alloc, "commands", files.commands.to_vec(alloc)?)?)?;
    held.push(file(alloc, "trace", joined(alloc, files.trace)?)?)?;
    Ok(held)
}

/// A host that holds these files, no two of one name, and of whose calls these fail.
fn holding(
    alloc: Global,
    held: Vec<MemoryFile>,
    room: usize,
    failing: &[u64],
) -> Result<MemoryHost, Wrong> {
    match failing.to_vec(alloc) {
        Ok(failing) if are_distinct(&held) => {
            MemoryHost::new(alloc, held, room, failing).map_err(|_| Wrong::Start)
        }
        _ => Err(Wrong::Start),
    }
}

pub fn host_of(
    alloc: Global,
    files: &Files<'_>,
    room: usize,
    failing: &[u64],
) -> Result<MemoryHost, Wrong> {
    match held(alloc, files) {
        Ok(held) => holding(alloc, held, room, failing),
        Err(_) => Err(Wrong::Start),
    }
}

/// The files of a check: those of a run, and a report.
fn held_claim(
    alloc: Global,
    files: &Files<'_>,
    report: &[&[u8]],
) -> Result<Vec<MemoryFile>, AllocError> {
    let mut held = held(alloc, files)?;
    held.push(file(alloc, "report", joined(alloc, report)?)?)?;
    Ok(held)
}

/// A host of these files and of this report, of whose calls these fail.
pub fn host_of_claim(
    alloc: Global,
    files: &Files<'_>,
    report: &[&[u8]],
    failing: &[u64],
) -> Result<MemoryHost, Wrong> {
    match held_claim(alloc, files, report) {
        Ok(held) => holding(alloc, held, ROOM, failing),
        Err(_) => Err(Wrong::Start),
    }
}

/// The files of a run that answers from rows: the first bytes of a rows file, and bytes behind them, and a trace.
fn held_rows(
    alloc: Global,
    rows: &[&[u8]],
    trace: &[&[u8]],
) -> Result<Vec<MemoryFile>, AllocError> {
    let mut held = Vec::new(alloc);
    held.push(file(alloc, "rows", joined(alloc, rows)?)?)?;
    held.push(file(alloc, "trace", joined(alloc, trace)?)?)?;
    Ok(held)
}

/// A host of these rows and of this trace, of whose calls these fail.
pub fn host_of_rows(
    alloc: Global,
    rows: &[&[u8]],
    trace: &[&[u8]],
    failing: &[u64],
) -> Result<MemoryHost, Wrong> {
    match held_rows(alloc, rows, trace) {
        Ok(held) => holding(alloc, held, ROOM, failing),
        Err(_) => Err(Wrong::Start),
    }
}

fn held_policy(alloc: Global, policy: &[&[u8]]) -> Result<Vec<MemoryFile>, AllocError> {
    let mut held = Vec::new(alloc);
    held.push(file(alloc, "policy", joined(alloc, policy)?)?)?;
    Ok(held)
}

/// A host that holds no file but this policy.
pub fn host_of_policy(alloc: Global, policy: &[&[u8]]) -> Result<MemoryHost, Wrong> {
    match held_policy(alloc, policy) {
        Ok(held) => holding(alloc, held, 4_096, &[]),
        Err(_) => Err(Wrong::Start),
    }
}

/// What came out otherwise.
#[derive(Clone, Copy, Debug)]
pub enum Wrong {
    /// What a run needs couldn't be made.
    Start,
    /// The run ended so.
    Status(Status),
    Put,
    Complaint,
    /// The run at this place of a table, or with this length.
    Run(usize),
    /// The run of which this call fails.
    Call(u64),
}

/// How a run ends: its status, the pieces of what is put, and what is complained.
pub type Ending<'a> = (Status, &'a [&'a [u8]], &'a [u8]);

fn is_joined(alloc: Global, bytes: &[u8], pieces: &[&[u8]]) -> bool {
    match joined(alloc, pieces) {
        Ok(wanted) => bytes == wanted.as_slice(),
        Err(_) => false,
    }
}

/// Runs, and compares how the run ends.
fn check_words<R: Threads + Wait + Clock + Sync>(
    rt: &R,
    alloc: Global,
    host: &mut MemoryHost,
    words: &[Word],
    wanted: Ending<'_>,
) -> Result<(), Wrong> {
    let status = run_words(rt, alloc, words, host, &Open);
    if status != wanted.0 {
        Err(Wrong::Status(status))
    } else if !is_joined(alloc, host.written(), wanted.1) {
        Err(Wrong::Put)
    } else if host.complained() != wanted.2 {
        Err(Wrong::Complaint)
    } else {
        Ok(())
    }
}

pub fn check<R: Threads + Wait + Clock + Sync>(
    rt: &R,
    alloc: Global,
    host: &mut MemoryHost,
    words: &[&str],
    wanted: Ending<'_>,
) -> Result<(), Wrong> {
    match words_of(alloc, words) {
        Ok(words) => check_words(rt, alloc, host, &words, wanted),
        Err(_) => Err(Wrong::Start),
    }
}

/// Runs over these files by these words, with these calls failing.
fn check_words_of<R: Threads + Wait + Clock + Sync>(
    rt: &R,
    alloc: Global,
    words: &[&str],
    files: &Files<'_>,
    failing: &[u64],
    wanted: Ending<'_>,
) -> Result<(), Wrong> {
    match host_of(alloc, files, ROOM, failing) {
        Ok(mut host) => check(rt, alloc, &mut host, words, wanted),
        Err(wrong) => Err(wrong),
    }
}

/// Runs over these files by `forward`, and then by `stream`, with these calls failing: both end so.
pub fn check_files<R: Threads + Wait + Clock + Sync>(
    rt: &R,
    alloc: Global,
    files: &Files<'_>,
    failing: &[u64],
    wanted: Ending<'_>,
) -> Result<(), Wrong> {
    check_words_of(rt, alloc, FORWARD, files, failing, wanted)?;
    check_words_of(rt, alloc, STREAM, files, failing, wanted)
}

/// Runs over a trace of these pieces, with these calls failing.
pub fn check_trace<R: Threads + Wait + Clock + Sync>(
    rt: &R,
    alloc: Global,
    trace: &[&[u8]],
    failing: &[u64],
    wanted: Ending<'_>,
) -> Result<(), Wrong> {
    let files = Files {
        policy: POLICY,
        commands: b"",
        trace,
    };
    check_files(rt, alloc, &files, failing, wanted)
}

/// The room for what is put, and for what is complained.
pub const ROOM: usize = 262_144;

/// The policy of the rule that allows.
pub const POLICY: &[&[u8]] = &[POLICY_START, ALLOW, POLICY_END];

/// A trace of the query, and its report.
pub const TRACE: &[&[u8]] = &[HEADER, RECORD, QUERY];

pub const REPORT: &[&[u8]] = &[HEAD, ROUND, QUERY_LINE, b"loose\n"];

pub const HEAD: &[u8] = b"vsw report 1\n";

pub const ROUND: &[u8] = b"round 0\nport 1 0 0\n";

fn low(len: usize) -> u8 {
    (len % 256) as u8
}

fn high(len: usize) -> u8 {
    (len / 256 % 256) as u8
}

/// Appends the record of a packet of moment 0 that isn't snapped.
pub fn add(trace: &mut Vec<u8>, packet: &[u8]) -> Result<(), AllocError> {
    trace.extend_from_slice(&[0; 8])?;
    for _ in 0..2 {
        trace.extend_from_slice(&[low(packet.len()), high(packet.len()), 0, 0])?;
    }
    trace.extend_from_slice(packet)?;
    Ok(())
}
