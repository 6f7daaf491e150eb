//! Runs over files in memory.

use crate::memory::{empty_trace, file, text_of, words_of};
use crate::workers::files::THREE_LAYERS;
use crate::workers::flows::{PACKETS, flow_of, sent};
use std::alloc::{AllocError, Global};
use std::process::Abort;
use std::sync::Wait;
use std::test::Fail;
use std::thread::Threads;
use std::time::Clock;
use vsw_app::{Watch, run_words};
use vsw_host::{MemoryFile, MemoryHost, are_distinct};
use vsw_run::{Status, Word};
use vsw_workers::Gate;

/// Appends the record of a packet of this number, 1,000 microseconds after the one before it.
pub fn add(trace: &mut Vec<u8>, number: u32, packet: &[u8]) -> Result<(), Fail> {
    let length = u32::try_from(packet.len())?;
    for word in [0, number.wrapping_mul(1_000), length, length] {
        trace.extend_from_slice(&word.to_le_bytes())?;
    }
    trace.extend_from_slice(packet)?;
    Ok(())
}

pub fn files(
    alloc: Global,
    policy: &[&str],
    commands: &str,
    trace: Vec<u8>,
) -> Result<Vec<MemoryFile>, AllocError> {
    let trace = file(alloc, "trace", trace)?;
    let policy = file(alloc, "policy", text_of(alloc, policy)?)?;
    let commands = file(alloc, "commands", text_of(alloc, &[commands])?)?;
    Ok(Vec::from_array(alloc, [policy, commands, trace])?)
}

/// A host of these files, with room for so many bytes that are put.
pub fn host_of(
    rt: &impl Abort,
    alloc: Global,
    held: Vec<MemoryFile>,
    room: usize,
) -> Result<MemoryHost, Fail> {
    assert!(rt; are_distinct(&held));
    Ok(MemoryHost::new(alloc, held, room, Vec::new(alloc))?)
}

/// Runs, and gives what is put.
fn run_on<R: Abort + Threads + Wait + Clock + Sync, G: Gate + Watch + Sync>(
    rt: &R,
    alloc: Global,
    words: &[Word],
    host: &mut MemoryHost,
    gate: &G,
) -> Result<Vec<u8>, AllocError> {
    let status = run_words(rt, alloc, words, host, gate);
    assert!(rt; status == Status::Done && host.complained().is_empty());
    host.written().to_vec(alloc)
}

/// What is put of a run by this command with so many workers over these files, under this gate, where it is at most so many bytes.
pub fn report_by<R: Abort + Threads + Wait + Clock + Sync, G: Gate + Watch + Sync>(
    rt: &R,
    alloc: Global,
    command: &str,
    workers: &str,
    held: Vec<MemoryFile>,
    room: usize,
    gate: &G,
) -> Result<Vec<u8>, Fail> {
    let mut host = host_of(rt, alloc, held, room)?;
    let words = words_of(
        alloc,
        &[
            "vsw",
            command,
            "--workers",
            workers,
            "policy",
            "commands",
            "trace",
        ],
    )?;
    Ok(run_on(rt, alloc, &words, &mut host, gate)?)
}

/// The same by `forward`.
pub fn report_within<R: Abort + Threads + Wait + Clock + Sync, G: Gate + Watch + Sync>(
    rt: &R,
    alloc: Global,
    workers: &str,
    held: Vec<MemoryFile>,
    room: usize,
    gate: &G,
) -> Result<Vec<u8>, Fail> {
    report_by(rt, alloc, "forward", workers, held, room, gate)
}

/// The same of at most 262,144 bytes.
pub fn report_of<R: Abort + Threads + Wait + Clock + Sync, G: Gate + Watch + Sync>(
    rt: &R,
    alloc: Global,
    workers: &str,
    held: Vec<MemoryFile>,
    gate: &G,
) -> Result<Vec<u8>, Fail> {
    report_within(rt, alloc, workers, held, 262_144, gate)
}

/// A capture of four packets of each flow.
pub fn flows(alloc: Global) -> Result<Vec<u8>, Fail> {
    let mut trace = empty_trace(alloc)?;
    for packet in 0..PACKETS {
        add(&mut trace, packet, &sent(alloc, flow_of(packet))?)?;
    }
    Ok(trace)
}

/// What is put of a run by this command over the three layers and the hundred flows.
pub fn report_of_flows_by<R: Abort + Threads + Wait + Clock + Sync, G: Gate + Watch + Sync>(
    rt: &R,
    alloc: Global,
    command: &str,
    workers: &str,
    commands: &str,
    gate: &G,
) -> Result<Vec<u8>, Fail> {
    let held = files(alloc, THREE_LAYERS, commands, flows(alloc)?)?;
    report_by(rt, alloc, command, workers, held, 262_144, gate)
}

/// The same by `forward`.
pub fn report_of_flows<R: Abort + Threads + Wait + Clock + Sync, G: Gate + Watch + Sync>(
    rt: &R,
    alloc: Global,
    workers: &str,
    commands: &str,
    gate: &G,
) -> Result<Vec<u8>, Fail> {
    report_of_flows_by(rt, alloc, "forward", workers, commands, gate)
}
