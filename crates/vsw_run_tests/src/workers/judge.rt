//! Whether the report of a run over the hundred flows is legal, line by line.
//!
//! A flow's first packet makes its pairs, so it is an entry; its other packets are reads behind that entry, and all leave alike. A command that removes
//! layer 10 changes none of that, since layer 20 keeps the flow's pair. Behind one that drops, packets are reads that are dropped.

use crate::workers::flows::{FLOWS, PACKETS, flow_of, left, worker_of};
use crate::workers::line::{Line, line_of};
use std::alloc::{AllocError, Global};
use std::test::Fail;

/// What the lines so far come to.
#[derive(Drop)]
pub struct Judge {
    alloc: Global,
    workers: u32,
    /// The fate of packets behind the command, if it isn't the one before it.
    dropped: Option<&'static str>,
    /// Whether the command is an entry so far, and how many entries there are.
    is_asked: bool,
    count: u32,
    /// By flows, whether its pairs are there; by workers, the packet that may come next at the earliest.
    paired: Vec<bool>,
    next: Vec<u32>,
    packets: u32,
}

/// So many words.
fn filled<T: Copy + Drop>(alloc: Global, count: u32, word: T) -> Result<Vec<T>, AllocError> {
    let mut words = Vec::new(alloc);
    for _ in 0..count {
        words.push(word)?;
    }
    Ok(words)
}

/// The word at a place becomes this one; what it was.
fn replaced<T: Copy>(words: &mut [T], place: u32, word: T) -> Option<T> {
    let found = words.get_mut(place as usize)?;
    let before = *found;
    *found = word;
    Some(before)
}

/// Whether this fate is that of a packet of this flow that leaves.
fn leaves(alloc: Global, flow: u16, fate: &str) -> Result<bool, Fail> {
    let bytes = left(alloc, flow)?;
    let text = hex::encode(alloc, bytes.as_slice())?;
    Ok(fate.strip_prefix("pass 94 ") == Some(text.as_str()))
}

impl Judge {
    pub fn new(
        alloc: Global,
        workers: u32,
        dropped: Option<&'static str>,
    ) -> Result<Judge, AllocError> {
        Ok(Judge {
            alloc,
            workers,
            dropped,
            is_asked: false,
            count: 0,
            paired: filled(alloc, FLOWS.wrapping_add(1), false)?,
            next: filled(alloc, workers, 0)?,
            packets: 0,
        })
    }

    /// Whether packets are dropped here.
    fn drops(&self) -> bool {
        self.is_asked && self.dropped.is_some()
    }

    /// Whether a packet's line is in its worker's order, and is an entry where its packet makes pairs.
    fn is_next(&mut self, worker: u32, line: &Line<'_>) -> bool {
        let flow = flow_of(line.item);
        let drops = self.drops();
        let makes_pairs = !drops
            && replaced(&mut self.paired, u32::from(flow), true) == Some(false);
        let next = replaced(&mut self.next, worker, line.item.wrapping_add(1));
        self.packets = self.packets.wrapping_add(1);
        let in_turn = match next {
            Some(next) => next <= line.item && line.item < PACKETS,
            None => false,
        };
        in_turn && worker == worker_of(flow, self.workers) && line.is_entry == makes_pairs
    }

    /// Whether a packet of this flow has this fate here.
    fn is_fate(&self, flow: u16, fate: &str) -> Result<bool, Fail> {
        match self.dropped {
            Some(dropped) if self.is_asked => Ok(fate == dropped),
            _ => leaves(self.alloc, flow, fate),
        }
    }

    /// Whether a packet's line may come next.
    fn packet(&mut self, worker: &str, line: &Line<'_>) -> Result<bool, Fail> {
        match worker.parse::<u32>() {
            Ok(worker) if self.is_next(worker, line) => {
                self.is_fate(flow_of(line.item), line.rest)
            }
            _ => Ok(false),
        }
    }

    /// Whether a line is the command's only one.
    fn command(&mut self, line: &Line<'_>) -> bool {
        let is_first = !self.is_asked;
        self.is_asked = true;
        is_first && line.by == "c1" && line.item == 1 && line.is_entry && line.rest == "ok"
    }

    /// Whether a line stands at its count, and is one of those that may come next.
    fn step(&mut self, line: &Line<'_>) -> Result<bool, Fail> {
        if line.count != self.count {
            return Ok(false);
        }
        if line.is_entry {
            self.count = self.count.wrapping_add(1);
        }
        match line.by.strip_prefix('w') {
            Some(worker) => self.packet(worker, line),
            None => Ok(self.command(line)),
        }
    }

    /// Whether the port ends here with so many entries, and nothing is missing.
    fn is_done(&self, entries: &str) -> bool {
        entries.parse::<u32>() == Ok(self.count) && self.packets == PACKETS && self.is_asked
    }
}

/// The lines of port 1, and how many entries it ends with. None where the report isn't of one round in which nothing is loose.
fn lines_of(report: &str) -> Option<(&str, &str)> {
    let rest = report.strip_prefix("vsw report 1\nround 0\nport 1 0 ")?;
    rest.strip_suffix("\nloose\n")?.split_once('\n')
}

fn is_legal(text: &str, judge: &mut Judge) -> Result<bool, Fail> {
    match line_of(text) {
        Some(line) => judge.step(&line),
        None => Ok(false),
    }
}

fn wrong_line<'t>(lines: &'t str, judge: &mut Judge) -> Result<Option<&'t str>, Fail> {
    for text in lines.split('\n') {
        if !is_legal(text, judge)? {
            return Ok(Some(text));
        }
    }
    Ok(None)
}

/// The first line that isn't legal behind those before it, or what else is wrong.
pub fn first_wrong<'t>(report: &'t str, judge: &mut Judge) -> Result<Option<&'t str>, Fail> {
    let Some((entries, lines)) = lines_of(report) else {
        return Ok(Some("its front"));
    };
    match wrong_line(lines, judge)? {
        None if !judge.is_done(entries) => Ok(Some("its end")),
        wrong => Ok(wrong),
    }
}
