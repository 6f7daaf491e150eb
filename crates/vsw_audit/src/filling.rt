//! What a port has to do in a round.

ghost use Rattle.std.specs.Prelude.{◌≡◌, ◌≤◌, ◌<◌, ◌+◌, ◌^◌, ◌++◌, ◌∷◌, [], ℕ, List, OnOk, IfOk, length};
ghost use Rattle.vsw_pcap.specs.declared.capture.Record.{Record};
ghost use Rattle.vsw_policy.specs.Sound.{Each};
ghost use Rattle.vsw_audit.specs.Private.Rounds.{StandFrom, aims_of, asked_jobs, is_for, jobs_at, new_task, tasks_aimed, tasks_asked};
ghost use Rattle.vsw_audit.specs.Private.Tasks.{AddsJobs, AreTasks, Site};
ghost use Rattle.vsw_commandfile.specs.declared.line.Line.{Line};

use crate::dealing::Aim;
use crate::line::{Files, place_of};
use crate::task::{Task, Work};
use vsw_base::NoMemory;
use vsw_commandfile::Line;
use vsw_promise::Schedule;

/// Adds a task of which nothing was told yet.
fn push(tasks: &mut Vec<Task>, doer: u32, work: Work) -> Result<(), NoMemory>
    ensures { OnOk result (tasks.new.items ≡ tasks.old.items ++ new_task doer work ∷ []) }
{
    let task = Task {
        doer,
        work,
        entry: false,
        count: 0,
    };
    match tasks.push(task) {
        Ok(()) => Ok(()),
        Err(_) => Err(NoMemory),
    }
}

/// Whether a command is for the port of this number, and runs beside the packets or before them.
fn is_for(number: u16, during: bool, line: &Line) -> bool
    ensures { result ≡ is_for number during line.now }
{
    line.port == number && if during { line.during } else { !line.during }
}

/// Adds the commands at these places of the file that are for the port.
fn add_at(
    tasks: &mut Vec<Task>,
    commands: &Schedule,
    controllers: &[u16],
    number: u16,
    during: bool,
    places: &[u32],
) -> Result<(), NoMemory>
    requires few { length controllers.now ≤ 8 }
    requires within { Each (λ place. place < length commands.now) places.now }
    ensures { OnOk result (tasks.new.items ≡ tasks.old.items ++ tasks_asked commands.now controllers.now number during places.now) }
{
    for place in places {
        let line = commands.line(*place);
        if is_for(number, during, line) {
            let doer = 16 + place_of(controllers, line.controller);
            push(tasks, doer, Work::Asks { place: *place })?;
        }
    }
    Ok(())
}

/// Adds the commands of the round that are for the port, those beside the packets or those before them.
fn add_commands(
    tasks: &mut Vec<Task>,
    files: &Files<'_>,
    first: u32,
    number: u16,
    during: bool,
) -> Result<(), NoMemory>
    requires few { length files.now.controllers.now ≤ 8 }
    ensures { AddsJobs files.now (asked_jobs during files.now.commands.now first number) tasks.old.items tasks.new.items result }
{
    let places = files.commands.places(first);
    add_at(
        tasks,
        files.commands,
        files.controllers,
        number,
        during,
        places,
    )
}

/// Adds the packets that go to the port, the first of which has this number.
fn add_packets(
    tasks: &mut Vec<Task>,
    aims: &[Option<Aim>],
    first: u32,
    port: u32,
) -> Result<(), NoMemory>
    requires few { first + length aims.now < 2 ^ 32 }
    ensures { OnOk result (tasks.new.items ≡ tasks.old.items ++ tasks_aimed first port aims.now) }
{
    for place in 0..aims.len() {
        if let Some(aim) = aims[place] {
            if aim.port == port {
                let work = Work::Carries {
                    packet: first + place as u32,
                    dir: aim.dir,
                };
                push(tasks, aim.worker, work)?;
            }
        }
    }
    Ok(())
}

/// The tasks of the port of this number at a place. How many of them are commands before the packets.
pub(crate) fn fill(
    tasks: &mut Vec<Task>,
    files: &Files<'_>,
    aims: &[Option<Aim>],
    first: u32,
    number: u16,
    port: u32,
) -> Result<usize, NoMemory>
    requires few { length files.now.controllers.now ≤ 8 }
    requires numbers { first + length aims.now < 2 ^ 32 }
    ensures tasks { (s : Site) (workers : ℕ) (macs : List ℕ) (packets : List (ℕ × Record)) → s.commands ≡ files.now.commands.now → s.opening.controllers ≡ files.now.controllers.now → s.place ≡ port → StandFrom s.records first packets → aims.now ≡ aims_of workers macs packets
        → IfOk result (λ split. AreTasks s tasks.new.items ((jobs_at s.commands workers macs first port number packets).first ++ (jobs_at s.commands workers macs first port number packets).later) × (split ≡ length (jobs_at s.commands workers macs first port number packets).first)) }
{
    tasks.clear();
    add_commands(tasks, files, first, number, false)?;
    let split = tasks.len();
    add_commands(tasks, files, first, number, true)?;
    add_packets(tasks, aims, first, port)?;
    Ok(split)
}
