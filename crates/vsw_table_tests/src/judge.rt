//! A plain check of finished lookups, from the log alone.
use vsw_stamps::{Load, Loaded};

/// The row that an actor reads, as far as it has read it.
#[derive(Drop)]
struct Reading {
    row: u32,
    stamp: u64,
    words: [Option<u64>; 73],
    count: Option<u64>,
}

/// A reading of a row of which nothing but the stamp was read.
fn begun(row: u32, stamp: u64) -> Reading {
    Reading {
        row,
        stamp,
        words: [None; 73],
        count: None,
    }
}

/// How many of an actor's lookups of whole rows showed one stamp twice, with the count between; None if the words of one
/// aren't those of one version of a row, whose word 0 is the count, and word k the version times 1,000 plus k.
pub fn judged(log: &[Loaded], actor: u32) -> Option<usize> {
    let mut reading = begun(0, 0);
    let mut finished = 0usize;
    for loaded in log {
        if loaded.actor != actor {
            continue;
        }
        match loaded.load {
            Load::Stamp { row, stamp, .. } => reading = begun(row, stamp),
            Load::Word { row, word, value } => {
                if row == reading.row && word < 73 {
                    reading.words[word as usize] = Some(value);
                }
            }
            Load::Count { count } => reading.count = Some(count),
            Load::Again { row, stamp } => {
                if row == reading.row && stamp == reading.stamp && stamp != 0 {
                    if !is_right(&reading) {
                        return None;
                    }
                    finished = finished.saturating_add(1);
                }
            }
        }
    }
    Some(finished)
}

/// Whether the words are of one version of a row that is good after as many entries as were counted. Of a row that wasn't read whole nothing is asked.
fn is_right(reading: &Reading) -> bool {
    match reading.count {
        Some(count) => !is_whole(&reading.words) || is_one_version(&reading.words, count),
        None => false,
    }
}

fn is_whole(words: &[Option<u64>; 73]) -> bool {
    for word in words {
        if word.is_none() {
            return false;
        }
    }
    true
}

fn is_one_version(words: &[Option<u64>; 73], count: u64) -> bool {
    let version = words[1].unwrap_or(0);
    for k in 1..73 {
        if words[k].unwrap_or(0) != version.saturating_add(k as u64).saturating_sub(1) {
            return false;
        }
    }
    words[0] == Some(count)
}
