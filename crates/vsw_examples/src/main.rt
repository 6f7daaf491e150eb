//! Runs the README's example and those of docs/GUIDE.md, one after another, and prints what each puts and complains: so the
//! gate compares both. `data/` holds the files of examples/.
#![tactic(auto)]

use std::alloc::Global;
use std::process::ExitCode;
use std::sync::Wait;
use std::thread::Threads;
use std::time::Clock;
use vsw_app::{Open, run_words};
use vsw_base::{Items, Text};
use vsw_host::{Host, MemoryFile, MemoryHost, ReadEnd, RealHost, are_distinct, read_file};
use vsw_run::Word;

/// The files of each run of `forward`: a folder, with its trace, and in it a policy and commands.
const RUNS: &[[&str; 3]] = &[
    ["first", "policy.json", "commands.jsonl"],
    ["1-addresses", "policy.json", "commands.jsonl"],
    ["2-two-controllers", "policy.json", "commands.jsonl"],
    ["3-translation", "policy.json", "commands.jsonl"],
    ["4-vxlan", "policy.json", "commands.jsonl"],
    ["5-groups", "policy.json", "commands.jsonl"],
    ["6-drops", "policy.json", "commands.jsonl"],
    ["7-commands", "policy.json", "commands.jsonl"],
    ["10-ipv6", "policy.json", "commands.jsonl"],
    ["11-roll-out", "policy.json", "commands.jsonl"],
    ["14-two-machines", "policy.json", "commands.jsonl"],
    ["8-bad-files", "bad-address.json", "commands.jsonl"],
    ["8-bad-files", "bad-range.json", "commands.jsonl"],
    ["8-bad-files", "comma.json", "commands.jsonl"],
    ["8-bad-files", "ipv6-in-version-1.json", "commands.jsonl"],
    ["8-bad-files", "missing-member.json", "commands.jsonl"],
    ["8-bad-files", "policy.json", "moment-as-text.jsonl"],
    ["8-bad-files", "nine-controllers.json", "commands.jsonl"],
    ["8-bad-files", "policy.json", "not-json.jsonl"],
    ["8-bad-files", "policy.json", "put-many-in-version-1.jsonl"],
    ["8-bad-files", "same-rule-twice.json", "commands.jsonl"],
    ["8-bad-files", "stateful-drop.json", "commands.jsonl"],
    ["8-bad-files", "policy.json", "unknown-controller.jsonl"],
    ["8-bad-files", "unknown-member.json", "commands.jsonl"],
    ["8-bad-files", "policy.json", "unknown-word.jsonl"],
    ["8-bad-files", "wrong-controller.json", "commands.jsonl"],
];

/// The files of the run of `deliver`.
const DELIVERED: [&str; 3] = ["14-two-machines", "policy.json", "commands.jsonl"];

/// The files of the run of `stream`.
const STREAMED: [&str; 3] = ["7-commands", "policy.json", "commands.jsonl"];

/// Bytes of a file, at most.
const LIMIT: u64 = 1_048_576;

/// Bytes that a run puts, at most, and as many that it complains.
const ROOM: usize = 1_048_576;

/// The file of this name in a folder, as a host in memory holds it under another name.
fn held(
    alloc: Global,
    host: &mut RealHost,
    folder: &str,
    file: &str,
    name: &str,
) -> Option<MemoryFile> {
    let path = format!(in alloc; "{folder}/{file}").ok()?;
    let mut bytes = Vec::new(alloc);
    if read_file(host, path.as_str(), LIMIT, &mut bytes) != ReadEnd::Whole {
        return None;
    }
    Some(MemoryFile {
        name: Text::of(name.to_string(alloc).ok()?),
        bytes: Items::of(bytes),
    })
}

/// A host in memory with the files of a run.
fn host_of(alloc: Global, host: &mut RealHost, run: &[&str; 3]) -> Option<MemoryHost> {
    let [folder, policy, commands] = *run;
    let mut files = Vec::new(alloc);
    files
        .push(held(alloc, host, folder, policy, "policy")?)
        .ok()?;
    files
        .push(held(alloc, host, folder, commands, "commands")?)
        .ok()?;
    files
        .push(held(alloc, host, folder, "trace.pcap", "trace")?)
        .ok()?;
    if !are_distinct(&files) {
        return None;
    }
    MemoryHost::new(alloc, files, ROOM, Vec::new(alloc)).ok()
}

fn words(alloc: Global, command: &str) -> Option<Vec<Word>> {
    let mut words = Vec::new(alloc);
    for text in ["vsw", command, "policy", "commands", "trace"] {
        words.push(Word::of(text.to_string(alloc).ok()?)).ok()?;
    }
    Some(words)
}

/// Runs over these files by a command, and puts what that puts and complains.
fn show<R: Threads + Wait + Clock + Sync>(
    rt: &R,
    alloc: Global,
    host: &mut RealHost,
    command: &str,
    run: &[&str; 3],
) -> Option<()> {
    let mut inner = host_of(alloc, host, run)?;
    run_words(rt, alloc, &words(alloc, command)?, &mut inner, &Open);
    host.put(inner.written()).ok()?;
    host.put(inner.complained()).ok()
}

fn main(rt: HostRuntime) -> ExitCode {
    let alloc = rt.alloc();
    let mut host = RealHost::new(alloc, rt);
    for run in RUNS {
        if show(&rt, alloc, &mut host, "forward", run).is_none() {
            return ExitCode::from(1);
        }
    }
    for (command, run) in [("deliver", &DELIVERED), ("stream", &STREAMED)] {
        if show(&rt, alloc, &mut host, command, run).is_none() {
            return ExitCode::from(1);
        }
    }
    ExitCode::from(0)
}
