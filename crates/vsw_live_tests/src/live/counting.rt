//! Whether each answer of a query is that of its count.

use crate::live::crew::Actor;
use crate::live::worker::Answered;
use vsw_answer::Why;
use vsw_base::Fate;
use vsw_live::{Naming, Told};

/// How many packets a worker sends.
pub const PACKETS: usize = 500;

/// How many commands are given: 100 behind the three that set up the layer.
const COMMANDS: usize = 103;

/// Whether the answer is that of its count: after an odd one packets pass, and after an even one they are dropped.
fn is_right(answer: &Answered) -> bool {
    let passes = match answer.fate {
        Fate::Pass { .. } => true,
        Fate::Drop(_) => false,
    };
    passes == (answer.count % 2 == 1) && !answer.entry
}

/// Whether all packets of a worker were answered, and rightly.
fn are_right(notes: &[Answered]) -> bool {
    for note in notes {
        if !is_right(note) {
            return false;
        }
    }
    notes.len() == PACKETS
}

/// Whether all commands became entries, in order and with no other.
fn are_entries(told: &[Told]) -> bool {
    for place in 0..told.len() {
        let told = &told[place];
        if !told.entry || told.count as usize != place {
            return false;
        }
    }
    told.len() == COMMANDS
}

/// Whether a row answered.
fn have_rows(notes: &[Answered]) -> bool {
    for note in notes {
        if note.why.is_none() {
            return true;
        }
    }
    false
}

/// Whether worker 0 was told of both queries, and a row answered the second one.
pub fn is_held<J: Naming>(actor: &Actor<'_, J>) -> bool {
    match actor.worker.notes() {
        [first, second] => first.why == Some(Why::Miss) && second.why.is_none() && is_right(second),
        [] => actor.worker.number() != 0,
        _ => false,
    }
}

/// Whether the worker or the controller beside it was told what counts tell, and a row answered worker 0.
pub fn is_counted<J: Naming>(actor: &Actor<'_, J>) -> bool {
    let notes = actor.worker.notes();
    match &actor.controller {
        Some(controller) => are_entries(controller.told()),
        None => are_right(notes) && (actor.worker.number() != 0 || have_rows(notes)),
    }
}
