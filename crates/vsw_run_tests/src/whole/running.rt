//! Runs over files in memory.

use crate::memory::{FORWARD, empty_trace, file, text_of, words_of};
use std::alloc::{AllocError, Global};
use std::sync::Wait;
use std::thread::Threads;
use std::time::Clock;
use vsw_app::{Open, run_words};
use vsw_host::{MemoryFile, MemoryHost, are_distinct};
use vsw_run::{Status, Word};

/// How a run comes out otherwise.
#[derive(Clone, Copy, Debug)]
pub enum Wrong {
    /// The host or the words couldn't be made.
    Start,
    Status,
    Complaint,
    /// Something else is put.
    Report,
}

/// Appends the record of a packet of this number, 1,000 microseconds after the one before it. It had
/// so many bytes more than were captured.
pub fn add(trace: &mut Vec<u8>, number: u16, packet: &[u8], lost: u16) -> Option<()> {
    let moment = u32::from(number) * 1_000;
    let captured = u32::try_from(packet.len()).ok()?;
    let original = captured.saturating_add(u32::from(lost));
    for word in [0, moment, captured, original] {
        trace.extend_from_slice(&word.to_le_bytes()).ok()?;
    }
    trace.extend_from_slice(packet).ok()
}

/// Appends the record of a frame, a text of hexadecimal digits.
fn add_frame(alloc: Global, trace: &mut Vec<u8>, number: usize, frame: &str) -> Option<()> {
    let number = u16::try_from(number).ok()?;
    let packet = hex::decode(alloc, frame.as_bytes()).ok()?;
    add(trace, number, &packet, 0)
}

fn add_frames(alloc: Global, trace: &mut Vec<u8>, frames: &[&str]) -> Option<()> {
    for (number, frame) in frames.iter().enumerate() {
        add_frame(alloc, trace, number, frame)?;
    }
    Some(())
}

/// A capture of these frames, each a text of hexadecimal digits.
fn trace_of(alloc: Global, frames: &[&str]) -> Option<Vec<u8>> {
    let mut trace = empty_trace(alloc).ok()?;
    add_frames(alloc, &mut trace, frames)?;
    Some(trace)
}

fn add_file(
    alloc: Global,
    files: &mut Vec<MemoryFile>,
    name: &str,
    bytes: Vec<u8>,
) -> Result<(), AllocError> {
    files.push(file(alloc, name, bytes)?)?;
    Ok(())
}

/// Appends the files of a policy and commands, each in pieces.
fn add_texts(
    alloc: Global,
    files: &mut Vec<MemoryFile>,
    policy: &[&str],
    commands: &[&str],
) -> Result<(), AllocError> {
    add_file(alloc, files, "policy", text_of(alloc, policy)?)?;
    add_file(alloc, files, "commands", text_of(alloc, commands)?)
}

/// A host of these files, of whose calls these fail.
fn host_with(alloc: Global, files: Vec<MemoryFile>, failing: &[u64]) -> Option<MemoryHost> {
    if !are_distinct(&files) {
        return None;
    }
    MemoryHost::new(alloc, files, 262_144, failing.to_vec(alloc).ok()?).ok()
}

/// A host of three files, of whose calls these fail.
pub fn host_of(
    alloc: Global,
    policy: &[&str],
    commands: &[&str],
    trace: Vec<u8>,
    failing: &[u64],
) -> Option<MemoryHost> {
    let mut files = Vec::new(alloc);
    add_file(alloc, &mut files, "trace", trace).ok()?;
    add_texts(alloc, &mut files, policy, commands).ok()?;
    host_with(alloc, files, failing)
}

/// The same, whose trace is of these frames.
pub fn host_over(
    alloc: Global,
    policy: &[&str],
    commands: &[&str],
    frames: &[&str],
    failing: &[u64],
) -> Option<MemoryHost> {
    let trace = trace_of(alloc, frames)?;
    host_of(alloc, policy, commands, trace, failing)
}

fn run<R: Threads + Wait + Clock + Sync>(
    rt: &R,
    alloc: Global,
    texts: &[&str],
    host: &mut MemoryHost,
) -> Option<Status> {
    let words = words_of(alloc, texts).ok()?;
    Some(run_words(rt, alloc, &words, host, &Open))
}

/// Runs by these words, and compares how the run ends and what it complains.
pub fn end<R: Threads + Wait + Clock + Sync>(
    rt: &R,
    alloc: Global,
    texts: &[&str],
    host: &mut MemoryHost,
    status: Status,
    complaint: &str,
) -> Result<(), Wrong> {
    match run(rt, alloc, texts, host) {
        None => Err(Wrong::Start),
        Some(seen) if seen != status => Err(Wrong::Status),
        Some(_) if host.complained() != complaint.as_bytes() => Err(Wrong::Complaint),
        Some(_) => Ok(()),
    }
}

/// What follows these pieces, where the bytes begin with them.
fn after<'a>(bytes: &'a [u8], pieces: &[&str]) -> Option<&'a [u8]> {
    let mut rest = bytes;
    for piece in pieces {
        if !rest.starts_with(piece.as_bytes()) {
            return None;
        }
        rest = rest.get(piece.len()..)?;
    }
    Some(rest)
}

/// Compares what was put with these pieces, one after another.
fn compare(put: &[u8], report: &[&str]) -> Result<(), Wrong> {
    match after(put, report) {
        Some(rest) if rest.is_empty() => Ok(()),
        _ => Err(Wrong::Report),
    }
}

fn try_run<R: Threads + Wait + Clock + Sync>(
    rt: &R,
    alloc: Global,
    texts: &[&str],
    host: &mut MemoryHost,
    status: Status,
    report: &[&str],
    complaint: &str,
) -> Result<(), Wrong> {
    end(rt, alloc, texts, host, status, complaint)?;
    compare(host.written(), report)
}

/// Runs by these words over this host, if it could be made, and compares how the run ends, what it
/// puts, in pieces, and what it complains.
pub fn tried<R: Threads + Wait + Clock + Sync>(
    rt: &R,
    alloc: Global,
    texts: &[&str],
    host: Option<MemoryHost>,
    status: Status,
    report: &[&str],
    complaint: &str,
) -> Result<(), Wrong> {
    match host {
        Some(mut host) => try_run(rt, alloc, texts, &mut host, status, report, complaint),
        None => Err(Wrong::Start),
    }
}

/// What follows port 1's lines in a report's first round, where it has so many entries and these
/// lines.
fn after_lines<'a>(put: &'a [u8], entries: &str, lines: &[&str]) -> Option<&'a [u8]> {
    let rest = after(put, &["vsw report 1\nround 0\nport 1 0 ", entries, "\n"])?;
    after(rest, lines)
}

fn try_round<R: Threads + Wait + Clock + Sync>(
    rt: &R,
    alloc: Global,
    host: &mut MemoryHost,
    entries: &str,
    lines: &[&str],
) -> Result<(), Wrong> {
    end(rt, alloc, FORWARD, host, Status::Done, "")?;
    match after_lines(host.written(), entries, lines) {
        Some(rest) => compare(rest, &["loose\n"]),
        None => Err(Wrong::Report),
    }
}

/// Runs over this policy and these frames, and compares the report: port 1 has so many entries of history
/// and these lines, and no packet is loose.
pub fn check<R: Threads + Wait + Clock + Sync>(
    rt: &R,
    alloc: Global,
    policy: &[&str],
    frames: &[&str],
    entries: &str,
    lines: &[&str],
) -> Result<(), Wrong> {
    match host_over(alloc, policy, &[], frames, &[]) {
        Some(mut host) => try_round(rt, alloc, &mut host, entries, lines),
        None => Err(Wrong::Start),
    }
}
