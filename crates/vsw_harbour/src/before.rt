//! The commands before the packets, one after the other.

ghost use Rattle.std.specs.Prelude.{◌≤◌, ◌<◌, ◌+◌, ◌∷◌, [], List, OnOk, length};
ghost use Rattle.vsw_dock.specs.Lanes.{IsOwn, IsTaken};
ghost use Rattle.vsw_commandfile.specs.declared.line.Line.{Line};
ghost use Rattle.vsw_dock.specs.Work.{job_in};
ghost use Rattle.vsw_dock.specs.ActorsDone.{AreAlike};
ghost use Rattle.vsw_dock.specs.Docks.{locals, port_in, takes};
ghost use Rattle.vsw_dock.specs.Opening.{rows_in};
ghost use Rattle.vsw_harbour.specs.Able.{IsAble, IsLine};
ghost use Rattle.vsw_harbour.specs.Harbour.{MayAsk, asks_of};
ghost use Rattle.vsw_harbour.specs.Steps.{AreAt, AsksTurned, DidAll, MayGo, PlacesTurned, RoundTurned, placed_ask};
ghost use Rattle.vsw_harbour.specs.Working.{AllDo, CallerDoes};
ghost use Rattle.vsw_policy.specs.Sound.{Each};

use crate::harbour::Harbour;
use crate::meeting::meet_again;
use crate::place::place_of;
use crate::row::step;
use std::alloc::Global;
use std::sync::Wait;
use vsw_base::NoMemory;
use vsw_commandfile::Line;
use vsw_dock::{Dock, Lane, Naming, Station, Watch, Work};
use vsw_promise::Schedule;

/// Of these rows, the first of which is caller `at`'s, that of a caller asks a line.
fn step_row<'w, 'g, J: Naming, G: Watch, R: Wait>(
    rt: &R,
    alloc: Global,
    docks: &[Dock<'g, J, G>],
    rows: &mut [Vec<Lane<Station>>],
    at: usize,
    caller: usize,
    place: usize,
    job: &Work<'w>,
)
    requires few { length docks.now ≤ 16 }
    requires within { place < length docks.now }
    requires line { IsLine job.now }
    requires alike { AreAlike locals docks.now }
    requires small { at + length rows.old ≤ 65536 }
    requires own { IsOwn port_in (job_in job.now) caller docks.now }
    requires taken { IsTaken takes 0 place job.now docks.now }
    requires able { IsAble at caller docks.now (rows_in rows.old) }
    ensures works { CallerDoes at caller docks.now place (job_in job.now) (rows_in rows.old) (rows_in rows.new) }
{
    if let Some((row, others)) = rows.split_first_mut() {
        if at == caller {
            step(rt, alloc, docks, row, caller, place, job);
        } else {
            step_row(rt, alloc, docks, others, at + 1, caller, place, job);
        }
    }
}

/// A command is asked by its controller.
fn do_ask<'g, J: Naming, G: Watch, R: Wait>(
    rt: &R,
    harbour: &Harbour<'g, J, G>,
    rows: &mut [Vec<Lane<Station>>],
    line: &Line,
)
    requires may { MayGo harbour.now (asks_of harbour.now) (rows_in rows.old) }
    requires line { MayAsk harbour.now line.now }
    ensures works { AllDo harbour.now (placed_ask harbour.now.docks line.now ∷ []) (rows_in rows.old) (rows_in rows.new) }
{
    let place = place_of(&harbour.numbers, line.port);
    let caller = 16 + place_of(&harbour.controllers, line.controller);
    let job = Work::Line(line);
    step_row(
        rt,
        harbour.alloc,
        &harbour.docks,
        rows,
        0,
        caller,
        place,
        &job,
    );
}

/// A command is asked by its controller, and all callers meet the ports.
fn ask_one<'g, J: Naming, G: Watch, R: Wait>(
    rt: &R,
    harbour: &Harbour<'g, J, G>,
    rows: &mut [Vec<Lane<Station>>],
    line: &Line,
) -> Result<(), NoMemory>
    requires may { MayGo harbour.now (asks_of harbour.now) (rows_in rows.old) }
    requires line { MayAsk harbour.now line.now }
    ensures did { OnOk result (DidAll harbour.now (placed_ask harbour.now.docks line.now ∷ []) (rows_in rows.old) (rows_in rows.new)) }
    ensures may { OnOk result (MayGo harbour.now (asks_of harbour.now) (rows_in rows.new)) }
{
    do_ask(rt, harbour, rows, line);
    meet_again(rt, harbour, rows, &harbour.asks)?;
    Ok(())
}

/// A command is asked if it runs before the packets.
#[tactic(auto, using(crate::proofs::Turning::before_turned, crate::proofs::Turning::during_turned))]
fn ask_if<'g, J: Naming, G: Watch, R: Wait>(
    rt: &R,
    harbour: &Harbour<'g, J, G>,
    rows: &mut [Vec<Lane<Station>>],
    line: &Line,
) -> Result<(), NoMemory>
    requires may { MayGo harbour.now (asks_of harbour.now) (rows_in rows.old) }
    requires line { MayAsk harbour.now line.now }
    ensures turned { OnOk result (AsksTurned harbour.now (line.now ∷ []) (rows_in rows.old) (rows_in rows.new)) }
    ensures may { OnOk result (MayGo harbour.now (asks_of harbour.now) (rows_in rows.new)) }
{
    if line.during {
        return Ok(());
    }
    ask_one(rt, harbour, rows, line)?;
    Ok(())
}

/// Of the commands at these places of the file, those that run before the packets, one after the other.
pub fn ask_each<'g, J: Naming, G: Watch, R: Wait>(
    rt: &R,
    harbour: &Harbour<'g, J, G>,
    rows: &mut [Vec<Lane<Station>>],
    schedule: &Schedule,
    places: &[u32],
) -> Result<(), NoMemory>
    requires may { MayGo harbour.now (asks_of harbour.now) (rows_in rows.old) }
    requires lines { Each (MayAsk harbour.now) schedule.now }
    requires places { (cs : List Line) × AreAt schedule.now places.now cs }
    ensures turned { OnOk result (PlacesTurned harbour.now schedule.now places.now (rows_in rows.old) (rows_in rows.new)) }
    ensures may { OnOk result (MayGo harbour.now (asks_of harbour.now) (rows_in rows.new)) }
{
    if let Some((first, later)) = places.split_first() {
        ask_if(rt, harbour, rows, schedule.line(*first))?;
        ask_each(rt, harbour, rows, schedule, later)?;
    }
    Ok(())
}

/// The commands before the packets of the round that begins with this packet, one after the other.
pub fn ask_before<'g, J: Naming, G: Watch, R: Wait>(
    rt: &R,
    harbour: &Harbour<'g, J, G>,
    rows: &mut [Vec<Lane<Station>>],
    schedule: &Schedule,
    first: u32,
) -> Result<(), NoMemory>
    requires may { MayGo harbour.now (asks_of harbour.now) (rows_in rows.old) }
    requires lines { Each (MayAsk harbour.now) schedule.now }
    ensures turned { OnOk result (RoundTurned harbour.now schedule.now first (rows_in rows.old) (rows_in rows.new)) }
    ensures may { OnOk result (MayGo harbour.now (asks_of harbour.now) (rows_in rows.new)) }
{
    ask_each(rt, harbour, rows, schedule, schedule.places(first))?;
    Ok(())
}
