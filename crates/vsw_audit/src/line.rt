//! One line of a report, against what its port does next.

ghost use Rattle.std.specs.Prelude.{◌≡◌, ◌≤◌, ◌<◌, ◌-◌, ◌^◌, IfOk, IfSome, OnOk, Some, get_or, length, true};
ghost use Rattle.std.specs.List.{slice_get, slice_set};
ghost use Rattle.vsw_base.specs.declared.flow.Crossing.{Crossing};
ghost use Rattle.vsw_base.specs.Frame.{Parts};
ghost use Rattle.vsw_commandfile.specs.declared.line.Line.{Line};
ghost use Rattle.vsw_policy.specs.Layers as layers;
ghost use Rattle.vsw_policy.specs.Sound as sound;
ghost use Rattle.vsw_policy.specs.Sound.{Each};
ghost use Rattle.vsw_port.specs.Calls.{Ask, Carried, Carry, Job};
ghost use Rattle.vsw_audit.specs.Private.Tasks.{CanBeAsked, HasJobs, caller_in, carried_in, job_in, site_of, work_in};
ghost use Rattle.vsw_pcap.specs.Batch.{lent_record};
ghost use Rattle.vsw_audit.specs.Private.Lines.{JudgesBy, JudgesLineBy, Steps, stage};
ghost use Rattle.vsw_audit.specs.declared.task.Work.TheVariants as work;

use crate::ask::ask;
use crate::carry::{Rooms, carry};
use crate::task::{Task, Work, mark, next_task, task_at};
use vsw_base::{Dir, Fate, NoMemory, Place};
use vsw_frame::{FrameRoom, read_frame};
use vsw_pcap::{Batch, Captured};
use vsw_port::Ledger;
use vsw_promise::Schedule;
use vsw_report::{By, ToldLine, What};

/// Workers of a port.
const WORKERS: u32 = 16;

/// What a report is judged by, beside the policy.
#[derive(Drop)]
pub(crate) struct Files<'a> {
    pub controllers: &'a [u16],
    pub commands: &'a Schedule,
    pub records: &'a Batch,
}

/// The place of a number among these, or how many there are.
pub(crate) fn place_of(numbers: &[u16], number: u16) -> u32
    requires { length numbers.now ≤ 8 }
    ensures value { result ≡ layers.place_of number numbers.now }
    ensures within { result ≤ length numbers.now }
{
    match numbers {
        [] => 0,
        [first, rest @ ..] => {
            if number == *first {
                0
            } else {
                1 + place_of(rest, number)
            }
        }
    }
}

/// Whether a number is one of these.
fn is_listed(numbers: &[u16], number: u16) -> bool
    ensures { result ≡ sound.is_listed numbers.now number }
{
    match numbers {
        [] => false,
        [first, rest @ ..] => number == *first || is_listed(rest, number),
    }
}

/// The number of the caller whose line it is.
fn caller_of(controllers: &[u16], by: By) -> Option<u32>
    requires { length controllers.now ≤ 8 }
    ensures value { result ≡ caller_in controllers.now by }
    ensures within { IfSome result (λ caller. caller < 24) }
{
    match by {
        By::Worker(number) => { if number < WORKERS { Some(number) } else { None } }
        By::Controller(number) => {
            if is_listed(controllers, number) {
                Some(WORKERS + place_of(controllers, number))
            } else {
                None
            }
        }
    }
}

fn same_by(a: By, b: By) -> bool
    ensures told { result ≡ true → a ≡ b }
    ensures back { a ≡ b → result ≡ true }
{
    a == b
}

/// Whether a line is of this caller and of this item.
fn is_of(line: &ToldLine, by: By, item: u32) -> bool
    ensures told { result ≡ true → (line.now.by ≡ by) × (line.now.item ≡ item) }
    ensures back { line.now.by ≡ by → line.now.item ≡ item → result ≡ true }
{
    line.item == item && same_by(line.by, by)
}

/// Whether a history has so many entries.
pub(crate) fn is_count(ledger: &Ledger, count: u32) -> bool
    ensures told { result ≡ true → count ≡ length ledger.now.journal }
    ensures back { count ≡ length ledger.now.journal → result ≡ true }
{
    count as usize == ledger.journal().len()
}

/// Takes room for one more entry. A history that has no count for it takes no more entries.
fn make_room(ledger: &mut Ledger) -> Result<(), NoMemory>
    ensures few { OnOk result (length ledger.old.journal < 2 ^ 32 - 1) }
    ensures room { OnOk result (1 ≤ ledger.new.room) }
    ensures opening { ledger.new.opening ≡ ledger.old.opening }
    ensures journal { ledger.new.journal ≡ ledger.old.journal }
{
    if ledger.journal().len() >= u32::MAX as usize {
        return Err(NoMemory);
    }
    ledger.reserve(1)
}

/// Replays a record of which this is told, as a caller brings it to the port at a place.
fn carry_record(
    ledger: &mut Ledger,
    rooms: &mut Rooms,
    headers: &mut FrameRoom,
    captured: &Captured<'_>,
    caller: u32,
    packet: u32,
    port: u32,
    dir: Dir,
    fate: Fate,
    bytes: &[u8],
    entry: bool,
) -> Result<bool, NoMemory>
    requires room { 1 ≤ ledger.old.room }
    requires few { length ledger.old.journal < 2 ^ 32 - 1 }
    ensures judges { (x : Crossing) (p : Parts) → carried_in port caller packet dir (lent_record captured.now) ≡ Some (Carry x p) → JudgesBy ledger.old (Carried x p fate bytes.now) entry ledger.new result }
    ensures opening { ledger.new.opening ≡ ledger.old.opening }
{
    let read = read_frame(captured.bytes, headers);
    match &read {
        Err(_) => Ok(false),
        Ok(frame) => {
            rooms.bring(caller, packet, Place { port, dir }, captured.moment, frame);
            carry(ledger, rooms, frame, fate, bytes, entry)
        }
    }
}

/// Replays packet `packet`, which the line is told of.
fn judge_packet(
    files: &Files<'_>,
    port: u32,
    ledger: &mut Ledger,
    rooms: &mut Rooms,
    headers: &mut FrameRoom,
    caller: u32,
    packet: u32,
    dir: Dir,
    line: &ToldLine,
) -> Result<bool, NoMemory>
    requires there { packet < length files.now.records.now }
    requires count { line.now.count ≡ length ledger.old.journal }
    requires room { 1 ≤ ledger.old.room }
    requires few { length ledger.old.journal < 2 ^ 32 - 1 }
    ensures judges { (j : Job) → work_in (site_of files.now port ledger.old) caller (work.Carries packet dir) ≡ Some j → JudgesLineBy ledger.old j line.now ledger.new result }
    ensures opening { ledger.new.opening ≡ ledger.old.opening }
{
    let What::Fate { fate, bytes } = &line.what else {
        return Ok(false);
    };
    if !is_of(line, By::Worker(caller), packet) {
        return Ok(false);
    }
    let captured = files.records.at(packet as usize);
    carry_record(
        ledger,
        rooms,
        headers,
        &captured,
        caller,
        packet,
        port,
        dir,
        *fate,
        bytes.as_slice(),
        line.entry,
    )
}

/// Replays the command at a place, which the line is told of.
fn judge_command(
    files: &Files<'_>,
    ledger: &mut Ledger,
    place: u32,
    line: &ToldLine,
) -> Result<bool, NoMemory>
    requires there { place < length files.now.commands.now }
    requires can_ask { Each (CanBeAsked ledger.old.opening.controllers) files.now.commands.now }
    requires count { line.now.count ≡ length ledger.old.journal }
    requires room { 1 ≤ ledger.old.room }
    ensures judges { (l : Line) → slice_get files.now.commands.now place ≡ Some l → JudgesLineBy ledger.old (Ask l) line.now ledger.new result }
    ensures opening { ledger.new.opening ≡ ledger.old.opening }
{
    let What::Reply(reply) = &line.what else {
        return Ok(false);
    };
    let command = files.commands.line(place);
    if !is_of(line, By::Controller(command.controller), command.number) {
        return Ok(false);
    }
    ask(ledger, command, *reply, line.entry)
}

/// Replays the task of a port which the line is told of.
fn judge(
    files: &Files<'_>,
    port: u32,
    ledger: &mut Ledger,
    rooms: &mut Rooms,
    headers: &mut FrameRoom,
    task: Task,
    line: &ToldLine,
) -> Result<bool, NoMemory>
    requires can_ask { Each (CanBeAsked ledger.old.opening.controllers) files.now.commands.now }
    requires some { (j : Job) × (job_in (site_of files.now port ledger.old) task ≡ Some j) }
    ensures judges { (j : Job) → job_in (site_of files.now port ledger.old) task ≡ Some j → JudgesLineBy ledger.old j line.now ledger.new result }
    ensures opening { ledger.new.opening ≡ ledger.old.opening }
{
    if line.count as usize != ledger.journal().len() {
        return Ok(false);
    }
    make_room(ledger)?;
    match task.work {
        Work::Asks { place } => judge_command(files, ledger, place, line),
        Work::Carries { packet, dir } => judge_packet(
            files, port, ledger, rooms, headers, task.doer, packet, dir, line,
        ),
    }
}

/// How far a caller is.
fn cursor_at(cursors: &[usize], caller: u32) -> usize
    requires { caller < length cursors.now }
    ensures { result ≡ get_or cursors.now caller 0 }
{
    cursors[caller as usize]
}

/// A caller is so far.
fn set_cursor(cursors: &mut Vec<usize>, caller: u32, place: usize)
    requires within { caller < length cursors.old.items }
    ensures { cursors.new.items ≡ slice_set cursors.old.items caller place }
{
    cursors[caller as usize] = place;
}

/// Replays the next task of the line's caller, if it has one and the line tells what becomes of it.
pub(crate) fn replay_line(
    files: &Files<'_>,
    port: u32,
    ledger: &mut Ledger,
    rooms: &mut Rooms,
    headers: &mut FrameRoom,
    tasks: &mut Vec<Task>,
    cursors: &mut Vec<usize>,
    line: &ToldLine,
) -> Result<bool, NoMemory>
    requires few { length files.now.controllers.now ≤ 8 }
    requires same { files.now.controllers.now ≡ ledger.old.opening.controllers }
    requires can_ask { Each (CanBeAsked ledger.old.opening.controllers) files.now.commands.now }
    requires known { HasJobs (site_of files.now port ledger.old) tasks.old.items }
    requires cursors { length cursors.old.items ≡ 24 }
    ensures steps { IfOk result (λ answer. Steps (site_of files.now port ledger.old) line.now (stage ledger.old.journal tasks.old.items cursors.old.items) (stage ledger.new.journal tasks.new.items cursors.new.items) answer) }
    ensures opening { ledger.new.opening ≡ ledger.old.opening }
{
    let Some(caller) = caller_of(files.controllers, line.by) else {
        return Ok(false);
    };
    let from = cursor_at(cursors, caller);
    let Some(place) = next_task(tasks, caller, from) else {
        return Ok(false);
    };
    let task = task_at(tasks, place);
    let answer = judge(files, port, ledger, rooms, headers, task, line)?;
    if !answer {
        return Ok(false);
    }
    mark(tasks, place, line.entry, line.count);
    set_cursor(cursors, caller, place + 1);
    Ok(true)
}
