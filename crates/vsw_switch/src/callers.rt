//! The callers of a port, and the lines that they leave.

ghost use Rattle.std.specs.Prelude.{◌≡◌, ◌≤◌, ◌<◌, [], IfOk, OnOk, length, not, replicate};
ghost use Rattle.vsw_commandfile.specs.declared.line.Line.{Line};
ghost use Rattle.vsw_frame.specs.Frame.{parts};
ghost use Rattle.vsw_report.specs.Line.{text_of};
ghost use Rattle.vsw_policy.specs.Obey.{is_memory};
ghost use Rattle.vsw_switch.specs.Does.{packet_line, reply_line, told_at};
ghost use Rattle.vsw_answer.specs.Transit.{len_of};

use std::alloc::Global;
use vsw_answer::{Answer, Room, Watch, Why, bytes_of};
use vsw_base::{Crossing, NoMemory};
use vsw_commandfile::Line;
use vsw_frame::Frame;
use vsw_policy::{Refusal, Reply};
use vsw_port::Outcome;
use vsw_report::Caller;

/// So many callers with no lines.
pub(crate) fn callers(alloc: Global, count: usize) -> Result<Vec<Caller>, NoMemory>
    ensures { IfOk result (λ callers. callers.items ≡ replicate count []) }
{
    let mut callers = Vec::new(alloc);
    for _ in 0..count {
        if callers.push(Caller::new(alloc)).is_err() {
            return Err(NoMemory);
        }
    }
    Ok(callers)
}

/// A packet's worker tells what became of it: of a pass with its frame's own bytes or those at the front of the room.
pub(crate) fn tell_packet(
    workers: &mut Vec<Caller>,
    crossing: &Crossing,
    count: u32,
    outcome: &Outcome,
    frame: &Frame<'_>,
    room: &Room,
) -> Result<(), NoMemory>
    requires worker { crossing.now.caller < length workers.old.items }
    requires len { len_of outcome.now.fate ≤ 65700 }
    ensures told { OnOk result (workers.new.items ≡ told_at crossing.now.caller (text_of (packet_line crossing.now (parts frame.now) outcome.now room.now count)) workers.old.items) }
    ensures stays { length workers.new.items ≡ length workers.old.items }
{
    let bytes = bytes_of(outcome.fate, outcome.own, frame, room);
    let worker = &mut workers[crossing.caller as usize];
    worker.tell_packet(
        crossing.caller,
        crossing.packet,
        outcome.entry,
        count,
        &outcome.fate,
        bytes,
    )
}

/// The watch is told what became of a packet, and why no row answered it, if none did.
pub(crate) fn tell_watch<G: Watch>(
    watch: &G,
    crossing: &Crossing,
    count: u32,
    outcome: Outcome,
    why: Option<Why>,
) {
    let answer = Answer::of(outcome, count, why);
    watch.answered(crossing.caller, crossing.packet, &answer);
}

/// The controller at a place tells the answer to its command, which is an entry unless memory was wanting.
pub(crate) fn tell_reply(
    controllers: &mut Vec<Caller>,
    place: usize,
    line: &Line,
    count: u32,
    answer: Result<(), Refusal>,
) -> Result<(), NoMemory>
    requires place { place < length controllers.old.items }
    ensures told { OnOk result (controllers.new.items ≡ told_at place (text_of (reply_line line.now answer count)) controllers.old.items) }
    ensures stays { length controllers.new.items ≡ length controllers.old.items }
{
    let entry = is_entry(answer);
    let controller = &mut controllers[place];
    controller.tell_reply(
        line.controller,
        line.number,
        entry,
        count,
        Reply::of(answer),
    )
}

/// Whether an answer is an entry of the port's history.
fn is_entry(answer: Result<(), Refusal>) -> bool
    ensures { result ≡ not (is_memory answer) }
{
    match answer {
        Err(Refusal::Memory) => false,
        _ => true,
    }
}
