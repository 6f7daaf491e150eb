//! The files of a small run, its report, and the host that holds them.

use crate::memory::{FORWARD, STREAM, empty_trace, file, text_of};
use crate::whole::frames::{OTHER_QUERY, QUERY, REPLY, SENT_QUERY, SENT_REPLY};
use crate::whole::policies::THREE_LAYERS;
use crate::whole::running::{add, tried};
use std::alloc::{AllocError, Global};
use std::sync::Wait;
use std::thread::Threads;
use std::time::Clock;
use vsw_host::{MemoryFile, MemoryHost, are_distinct};
use vsw_run::Status;

/// The words of a run by four workers.
pub const FORWARD_BY_FOUR: &[&str] = &[
    "vsw",
    "forward",
    "--workers",
    "4",
    "policy",
    "commands",
    "trace",
];

/// The words of the same run by `stream`.
pub const STREAM_BY_FOUR: &[&str] = &[
    "vsw",
    "stream",
    "--workers",
    "4",
    "policy",
    "commands",
    "trace",
];

/// Before the second packet two commands: a sweep, which takes no pair, and one that is refused. So the packets behind them are of a round of their
/// own, in which nothing changes, and their lines are the same whatever threads do first.
pub const SWEEP: &str =
    "{\"at\":1,\"when\":\"before\",\"controller\":1,\"port\":1,\"do\":\"sweep\",\"layer\":10,\"now\":0}\n";

pub const REMOVE: &str =
    "{\"at\":1,\"when\":\"before\",\"controller\":2,\"port\":1,\"do\":\"remove_group\",\"layer\":20,\"group\":9}\n";

pub const COMMANDS: &[&str] = &[SWEEP, REMOVE];

/// A query, the reply to what leaves of it, a query whose reply would be the same, and the query again.
pub const FRAMES: &[&str] = &[QUERY, SENT_REPLY, OTHER_QUERY, QUERY];

/// What a run over the three layers, both commands and these frames puts, in pieces. Worked out by tools/plain_switch.py.
pub const REPORT: &[&str] = &[
    "vsw report 1\n",
    "round 0\nport 1 0 1\nw0 0 +0 pass 94 ",
    SENT_QUERY,
    "\nloose\n",
    "round 1\nport 1 1 3\nc1 1 +1 ok\nc2 2 +2 refused 3 NoGroup\nw0 1 @3 pass 44 ",
    REPLY,
    "\nw0 2 @3 drop taken 2/20 0\nw0 3 @3 pass 94 ",
    SENT_QUERY,
    "\nloose\n",
];

/// The same by four workers, of which worker 1 has the third packet.
pub const REPORT_BY_FOUR: &[&str] = &[
    "vsw report 1\n",
    "round 0\nport 1 0 1\nw0 0 +0 pass 94 ",
    SENT_QUERY,
    "\nloose\n",
    "round 1\nport 1 1 3\nc1 1 +1 ok\nc2 2 +2 refused 3 NoGroup\nw0 1 @3 pass 44 ",
    REPLY,
    "\nw0 3 @3 pass 94 ",
    SENT_QUERY,
    "\nw1 2 @3 drop taken 2/20 0\nloose\n",
];

/// What both put up to the head line, and up to the first round.
pub const HEAD: &[&str] = &["vsw report 1\n"];

pub const FIRST: &[&str] = &[
    "vsw report 1\n",
    "round 0\nport 1 0 1\nw0 0 +0 pass 94 ",
    SENT_QUERY,
    "\nloose\n",
];

/// A run by so many workers: its words and its report.
pub const RUNS: [(&[&str], &[&str]); 4] = [
    (FORWARD, REPORT),
    (FORWARD_BY_FOUR, REPORT_BY_FOUR),
    (STREAM, REPORT),
    (STREAM_BY_FOUR, REPORT_BY_FOUR),
];

fn add_frame(alloc: Global, trace: &mut Vec<u8>, number: u16, frame: &str) -> Option<()> {
    let packet = hex::decode(alloc, frame.as_bytes()).ok()?;
    add(trace, number, &packet, 0)
}

/// A capture of these frames, each a text of hexadecimal digits.
pub fn trace_of(alloc: Global, frames: &[&str]) -> Option<Vec<u8>> {
    let mut trace = empty_trace(alloc).ok()?;
    for (number, frame) in frames.iter().enumerate() {
        add_frame(alloc, &mut trace, u16::try_from(number).ok()?, frame)?;
    }
    Some(trace)
}

fn held(
    alloc: Global,
    policy: &[u8],
    commands: &[u8],
    trace: &[u8],
) -> Result<Vec<MemoryFile>, AllocError> {
    let mut held = Vec::new(alloc);
    held.push(file(alloc, "policy", policy.to_vec(alloc)?)?)?;
    held.push(file(alloc, "commands", commands.to_vec(alloc)?)?)?;
    held.push(file(alloc, "trace", trace.to_vec(alloc)?)?)?;
    Ok(held)
}

/// A host of three files, of whose calls these fail.
pub fn host_of(
    alloc: Global,
    policy: &[u8],
    commands: &[u8],
    trace: &[u8],
    failing: &[u64],
) -> Option<MemoryHost> {
    let files = held(alloc, policy, commands, trace).ok()?;
    if !are_distinct(&files) {
        return None;
    }
    MemoryHost::new(alloc, files, 262_144, failing.to_vec(alloc).ok()?).ok()
}

/// The bytes of the small run's files.
#[derive(Drop)]
pub struct Small {
    pub policy: Vec<u8>,
    pub commands: Vec<u8>,
    pub trace: Vec<u8>,
}

impl Small {
    /// Those with these commands and frames.
    pub fn of(alloc: Global, commands: &[&str], frames: &[&str]) -> Option<Small> {
        Some(Small {
            policy: text_of(alloc, THREE_LAYERS).ok()?,
            commands: text_of(alloc, commands).ok()?,
            trace: trace_of(alloc, frames)?,
        })
    }

    /// Those of the small run, whose trace has so many bytes at most.
    pub fn cut(alloc: Global, len: usize) -> Option<Small> {
        let mut small = Small::of(alloc, COMMANDS, FRAMES)?;
        small.trace.truncate(len);
        Some(small)
    }

    /// A host that holds them, of whose calls these fail.
    pub fn host(&self, alloc: Global, failing: &[u64]) -> Option<MemoryHost> {
        host_of(alloc, &self.policy, &self.commands, &self.trace, failing)
    }
}

/// How a run ends: its status, the pieces of what is put, and what is complained.
pub type Ending = (Status, &'static [&'static str], &'static str);

/// Whether a run over these files by these words ends so.
pub fn ends<R: Threads + Wait + Clock + Sync>(
    rt: &R,
    alloc: Global,
    words: &[&str],
    host: Option<MemoryHost>,
    wanted: Ending,
) -> bool {
    tried(rt, alloc, words, host, wanted.0, wanted.1, wanted.2).is_ok()
}

/// Where something came out otherwise.
#[derive(Clone, Copy, Debug)]
pub enum WrongAt {
    /// The files couldn't be made.
    Start,
    /// The run at this place of a table, or over a file of so many bytes.
    Place(usize),
    /// The run of which this call fails.
    Call(u64),
}
