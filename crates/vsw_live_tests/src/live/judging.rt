//! Whether each answer is that of its count.

use crate::live::crew::Actor;
use crate::live::packets::crossing_of;
use crate::live::replay::Replay;
use crate::live::worker::Answered;
use std::alloc::Global;
use vsw_base::{Crossing, Fate};
use vsw_live::{Naming, Told};
use vsw_port::Event;

/// How many answers were judged, how many of them rows gave, and how many were wrong.
#[derive(Clone, Copy)]
struct Tally {
    judged: usize,
    by_rows: usize,
    wrong: usize,
}

/// What one worker remembers, as far as it isn't judged yet.
#[derive(Drop)]
struct Share<'n> {
    worker: u32,
    packet: u32,
    left: &'n [Answered],
    tally: Tally,
}

/// Whether the packet was answered as one that changes nothing of the layers as they stand.
fn is_read(replay: &mut Replay, worker: u32, packet: u32, note: &Answered) -> bool {
    match crossing_of(worker, packet) {
        Some(crossing) => replay.read(&crossing) == Some(note.fate),
        None => false,
    }
}

/// Whether this is the packet that its worker sent with this number.
fn is_sent(sent: &Crossing, worker: u32, packet: u32) -> bool {
    let Some(own) = crossing_of(worker, packet) else {
        return false;
    };
    sent.packet == packet
        && sent.id.dir == own.id.dir
        && sent.id.stack.headers() == own.id.stack.headers()
        && sent.control == own.control
        && sent.moment == own.moment
        && sent.sizes == own.sizes
}

impl<'n> Share<'n> {
    /// One answer is judged.
    fn step(&mut self, rest: &'n [Answered], note: &Answered, right: bool) {
        self.left = rest;
        self.packet = self.packet.wrapping_add(1);
        self.tally.judged = self.tally.judged.wrapping_add(1);
        if note.why.is_none() {
            self.tally.by_rows = self.tally.by_rows.wrapping_add(1);
        }
        if !right {
            self.tally.wrong = self.tally.wrong.wrapping_add(1);
        }
    }

    /// The reads of this count that come next.
    fn reads(&mut self, replay: &mut Replay, count: u32) {
        for _ in 0..self.left.len() {
            let [note, rest @ ..] = self.left else {
                return;
            };
            if note.entry || note.count != count {
                return;
            }
            let right = is_read(replay, self.worker, self.packet, note);
            self.step(rest, note, right);
        }
    }

    /// An entry of this number. If it is the worker's, the next answer tells it.
    fn entry(&mut self, crossing: &Crossing, fate: Fate, count: u32) {
        if crossing.caller != self.worker {
            return;
        }
        match self.left {
            [note, rest @ ..] => {
                let told = note.entry && note.count == count && note.fate == fate;
                let right = told
                    && note.why.is_some()
                    && is_sent(crossing, self.worker, self.packet);
                self.step(rest, note, right);
            }
            [] => self.tally.wrong = self.tally.wrong.wrapping_add(1),
        }
    }
}

/// Judges the answers of one worker along all entries. Whether these follow from another.
fn follow(replay: &mut Replay, share: &mut Share<'_>, journal: &[Event]) -> bool {
    let mut count = 0u32;
    for event in journal {
        share.reads(replay, count);
        if let Event::Crossing { crossing, fate } = event {
            share.entry(crossing, *fate, count);
        }
        if !replay.enter(event) {
            return false;
        }
        count = count.wrapping_add(1);
    }
    share.reads(replay, count);
    true
}

/// Judges what a worker remembers by the entries of the port. An answer of another count, or an entry that was told otherwise
/// or not at all, is wrong or keeps those behind it from being judged.
fn judge(alloc: Global, journal: &[Event], worker: u32, notes: &[Answered]) -> Option<Tally> {
    let mut share = Share {
        worker,
        packet: 0,
        left: notes,
        tally: Tally {
            judged: 0,
            by_rows: 0,
            wrong: 0,
        },
    };
    let mut replay = Replay::new(alloc)?;
    if follow(&mut replay, &mut share, journal) {
        Some(share.tally)
    } else {
        None
    }
}

/// Whether the controller was told of each command among these entries, in order, and of no other.
fn are_told(journal: &[Event], told: &[Told]) -> bool {
    let mut left = told;
    let mut count = 0u32;
    for event in journal {
        if let Event::Command { reply, .. } = event {
            match left {
                [first, rest @ ..] => {
                    if !first.entry || first.count != count || first.reply != *reply {
                        return false;
                    }
                    left = rest;
                }
                [] => return false,
            }
        }
        count = count.wrapping_add(1);
    }
    left.is_empty()
}

/// Whether all these answers of a worker were judged and right, rows among them. They aren't where entries don't follow from
/// another.
fn are_right<J: Naming>(
    alloc: Global,
    journal: &[Event],
    actor: &Actor<'_, J>,
    answers: usize,
) -> bool {
    match judge(alloc, journal, actor.worker.number(), actor.worker.notes()) {
        Some(tally) => tally.judged == answers && tally.wrong == 0 && tally.by_rows > 0,
        None => false,
    }
}

/// Whether the worker was told what the entries tell, in so many answers, and a controller beside it was told of its commands.
pub fn is_judged<J: Naming>(
    alloc: Global,
    journal: &[Event],
    actor: &Actor<'_, J>,
    answers: usize,
) -> bool {
    let are_obeyed = match &actor.controller {
        Some(controller) => are_told(journal, controller.told()),
        None => true,
    };
    are_obeyed && are_right(alloc, journal, actor, answers)
}
