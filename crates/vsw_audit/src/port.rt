//! One port's part of a round.

ghost use Rattle.std.specs.Prelude.{◌≡◌, ◌≤◌, ◌<◌, ◌+◌, ◌^◌, [], ◌++◌, ℕ, List, Some, true, IfOk, OnOk, length, drop, replicate};
ghost use Rattle.std.specs.List.{slice_get};
ghost use Rattle.vsw_pcap.specs.declared.capture.Record.{Record};
ghost use Rattle.vsw_policy.specs.Sound.{Each};
ghost use Rattle.vsw_promise.specs.Jobs.{Jobs};
ghost use Rattle.vsw_promise.specs.Ports.{PortSeen};
ghost use Rattle.vsw_promise.specs.Rounds.{opening_of};
ghost use Rattle.vsw_check.specs.Report.{IsTold};
ghost use Rattle.vsw_audit.specs.Private.Rounds.{AllReplay, AreDone, AreSeats, Finds, IsSeat, PortReplays, StandFrom, aims_of, histories, jobs_at};
ghost use Rattle.vsw_audit.specs.Private.Rounds as rounds;
ghost use Rattle.vsw_audit.specs.Private.Runs.{FollowsJobs};
ghost use Rattle.vsw_audit.specs.Private.Tasks.{AreTasks, CanBeAsked, HasJobs, IsKnown, site_of};

use crate::carry::Rooms;
use crate::dealing::Aim;
use crate::filling::fill;
use crate::line::{Files, is_count, replay_line};
use crate::task::{Task, is_behind, is_ordered, lead, next_task};
use std::alloc::Global;
use vsw_base::NoMemory;
use vsw_frame::FrameRoom;
use vsw_port::Ledger;
use vsw_report::{PortRound, ToldLine};

/// Callers of a port: sixteen workers, and at most eight controllers.
const CALLERS: u32 = 24;

/// A port of the policy, in the midst of its report.
#[derive(Drop)]
pub(crate) struct Seat {
    pub number: u16,
    pub ledger: Ledger,
}

/// What all ports use, one after the other.
#[derive(Drop)]
pub(crate) struct Desk {
    pub rooms: Rooms,
    tasks: Vec<Task>,
    /// How far each caller is.
    cursors: Vec<usize>,
}

impl Desk {
    pub(crate) fn new(alloc: Global) -> Result<Desk, NoMemory> {
        let rooms = Rooms::new(alloc)?;
        Ok(Desk {
            rooms,
            tasks: Vec::new(alloc),
            cursors: Vec::new(alloc),
        })
    }
}

/// The line at a place.
fn line_at(lines: &[ToldLine], place: usize) -> &ToldLine
    requires { place < length lines.now }
    ensures { slice_get lines.now place ≡ Some result.now }
{
    &lines[place]
}

/// Replays these lines, one after the other.
fn replay_lines(
    files: &Files<'_>,
    port: u32,
    ledger: &mut Ledger,
    rooms: &mut Rooms,
    headers: &mut FrameRoom,
    tasks: &mut Vec<Task>,
    cursors: &mut Vec<usize>,
    lines: &[ToldLine],
) -> Result<bool, NoMemory>
    requires few { length files.now.controllers.now ≤ 8 }
    requires same { files.now.controllers.now ≡ ledger.old.opening.controllers }
    requires can_ask { Each (CanBeAsked ledger.old.opening.controllers) files.now.commands.now }
    requires known { HasJobs (site_of files.now port ledger.old) tasks.old.items }
    requires cursors { cursors.old.items ≡ replicate 24 0 }
    ensures follows { FollowsJobs (site_of files.now port ledger.old) tasks.old.items ledger.old lines.now ledger.new tasks.new.items cursors.new.items result }
    ensures opening { ledger.new.opening ≡ ledger.old.opening }
{
    for place in 0..lines.len() {
        let line = line_at(lines, place);
        let answer = replay_line(files, port, ledger, rooms, headers, tasks, cursors, line)?;
        if !answer {
            return Ok(false);
        }
    }
    Ok(true)
}

/// Whether no caller has a task left.
fn are_done(tasks: &[Task], cursors: &[usize]) -> bool
    requires { length cursors.now ≡ 24 }
    ensures { AreDone tasks.now cursors.now result }
{
    for caller in 0..CALLERS {
        if next_task(tasks, caller, cursors[caller as usize]).is_some() {
            return false;
        }
    }
    true
}

/// Whether the entries of the first so many tasks come first and in their order, no other count is less, and one worker did all in order.
fn is_settled(workers: u32, split: usize, low: u32, high: u32, tasks: &[Task]) -> bool
    requires { split ≤ length tasks.now }
    ensures { result ≡ rounds.is_settled workers split low high tasks.now }
{
    let Some(least) = lead(&tasks[..split], u64::from(low)) else {
        return false;
    };
    is_behind(&tasks[split..], least)
        && (workers != 1 || is_ordered(tasks, u64::from(low), u64::from(high)))
}

/// No caller has begun.
fn reset(cursors: &mut Vec<usize>) -> Result<(), NoMemory>
    ensures { OnOk result (cursors.new.items ≡ replicate 24 0) }
{
    cursors.clear();
    match cursors.resize(CALLERS as usize, 0) {
        Ok(()) => Ok(()),
        Err(_) => Err(NoMemory),
    }
}

/// Replays the tasks of a port by its lines, up to this number of entries, and looks at what they told. So many of the tasks are commands before the
/// packets.
fn replay_tasks(
    files: &Files<'_>,
    workers: u32,
    port: u32,
    ledger: &mut Ledger,
    rooms: &mut Rooms,
    headers: &mut FrameRoom,
    tasks: &mut Vec<Task>,
    cursors: &mut Vec<usize>,
    split: usize,
    told: &PortRound,
) -> Result<bool, NoMemory>
    requires few { length files.now.controllers.now ≤ 8 }
    requires same { files.now.controllers.now ≡ ledger.old.opening.controllers }
    requires can_ask { Each (CanBeAsked ledger.old.opening.controllers) files.now.commands.now }
    requires known { HasJobs (site_of files.now port ledger.old) tasks.old.items }
    requires split { split ≤ length tasks.old.items }
    requires low { told.now.before ≡ length ledger.old.journal }
    requires told { IsTold told.now }
    ensures finds { (p : PortSeen) (jobs : Jobs) → told.now.port ≡ p.number → opening_of p ≡ ledger.old.opening → split ≡ length jobs.first → AreTasks (site_of files.now port ledger.old) tasks.old.items (jobs.first ++ jobs.later) → Each (IsKnown ledger.old.opening.controllers) (jobs.first ++ jobs.later)
        → IfOk result (λ answer. Finds (PortReplays workers p ledger.old.journal jobs told.now) ledger.new.journal answer) }
    ensures opening { ledger.new.opening ≡ ledger.old.opening }
{
    reset(cursors)?;
    let lines = told.lines.as_slice();
    let answer = replay_lines(files, port, ledger, rooms, headers, tasks, cursors, lines)?;
    if !answer {
        return Ok(false);
    }
    let after = is_count(ledger, told.after);
    if !after {
        return Ok(false);
    }
    let done = are_done(tasks, cursors);
    if !done {
        return Ok(false);
    }
    Ok(is_settled(workers, split, told.before, told.after, tasks))
}

/// Whether a round is that of the port of this number.
fn is_port(told: &PortRound, number: u16) -> bool
    ensures told { result ≡ true → told.now.port ≡ number }
    ensures back { told.now.port ≡ number → result ≡ true }
{
    told.port == number
}

/// Replays the round of a port at a place.
pub(crate) fn replay_port(
    files: &Files<'_>,
    workers: u32,
    port: u32,
    seat: &mut Seat,
    desk: &mut Desk,
    headers: &mut FrameRoom,
    aims: &[Option<Aim>],
    first: u32,
    told: &PortRound,
) -> Result<bool, NoMemory>
    requires few { length files.now.controllers.now ≤ 8 }
    requires same { files.now.controllers.now ≡ seat.old.ledger.opening.controllers }
    requires can_ask { Each (CanBeAsked seat.old.ledger.opening.controllers) files.now.commands.now }
    requires workers { (1 ≤ workers) × (workers ≤ 16) }
    requires numbers { first + length aims.now < 2 ^ 32 }
    requires dealt { (macs : List ℕ) × (packets : List (ℕ × Record)) × (aims.now ≡ aims_of workers macs packets) × StandFrom files.now.records.now first packets }
    requires told { IsTold told.now }
    ensures finds { (p : PortSeen) (macs : List ℕ) (packets : List (ℕ × Record)) → IsSeat p seat.old → aims.now ≡ aims_of workers macs packets → StandFrom files.now.records.now first packets
        → IfOk result (λ answer. Finds (PortReplays workers p seat.old.ledger.journal (jobs_at files.now.commands.now workers macs first port p.number packets) told.now) seat.new.ledger.journal answer) }
    ensures number { seat.new.number ≡ seat.old.number }
    ensures opening { seat.new.ledger.opening ≡ seat.old.ledger.opening }
{
    let here = is_port(told, seat.number);
    if !here {
        return Ok(false);
    }
    let before = is_count(&seat.ledger, told.before);
    if !before {
        return Ok(false);
    }
    let split = fill(&mut desk.tasks, files, aims, first, seat.number, port)?;
    replay_tasks(
        files,
        workers,
        port,
        &mut seat.ledger,
        &mut desk.rooms,
        headers,
        &mut desk.tasks,
        &mut desk.cursors,
        split,
        told,
    )
}

/// Replays the rounds of these ports, from the one at this place on.
pub(crate) fn replay_ports(
    files: &Files<'_>,
    workers: u32,
    port: u32,
    seats: &mut [Seat],
    desk: &mut Desk,
    headers: &mut FrameRoom,
    aims: &[Option<Aim>],
    first: u32,
    told: &[PortRound],
) -> Result<bool, NoMemory>
    requires few { length files.now.controllers.now ≤ 8 }
    requires same { Each (λ s. files.now.controllers.now ≡ s.ledger.opening.controllers) seats.old }
    requires can_ask { Each (CanBeAsked files.now.controllers.now) files.now.commands.now }
    requires workers { (1 ≤ workers) × (workers ≤ 16) }
    requires numbers { first + length aims.now < 2 ^ 32 }
    requires places { port + length seats.old ≤ 16 }
    requires dealt { (macs : List ℕ) × (packets : List (ℕ × Record)) × (aims.now ≡ aims_of workers macs packets) × StandFrom files.now.records.now first packets }
    requires told { Each IsTold told.now }
    ensures finds { (ps : List PortSeen) (macs : List ℕ) (packets : List (ℕ × Record)) → AreSeats ps seats.old → aims.now ≡ aims_of workers macs packets → StandFrom files.now.records.now first packets
        → IfOk result (λ answer. Finds (AllReplay files.now.commands.now workers macs first packets port ps (histories seats.old) told.now) (histories seats.new) answer) }
    ensures seats { (ps : List PortSeen) → AreSeats ps seats.old → AreSeats ps seats.new }
    ensures same { Each (λ s. files.now.controllers.now ≡ s.ledger.opening.controllers) seats.new }
    ensures long { length seats.new ≡ length seats.old }
{
    let Some((seat, seats)) = seats.split_first_mut() else {
        return Ok(told.is_empty());
    };
    let Some((here, told)) = told.split_first() else {
        return Ok(false);
    };
    let answer = replay_port(files, workers, port, seat, desk, headers, aims, first, here)?;
    if !answer {
        return Ok(false);
    }
    replay_ports(
        files,
        workers,
        port + 1,
        seats,
        desk,
        headers,
        aims,
        first,
        told,
    )
}
