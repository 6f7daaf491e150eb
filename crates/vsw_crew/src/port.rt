//! The lines of all callers at one port, brought together and given back.

ghost use Rattle.std.specs.Prelude.{◌≡◌, ◌≤◌, ◌++◌, ◌∷◌, [], OnOk, drop, length, map, set, take};
ghost use Rattle.std.specs.List.{flat_map};
ghost use Rattle.vsw_policy.specs.Layers.{place_of};
ghost use Rattle.vsw_crew.specs.Texts.{caller_at, row_at};
ghost use Rattle.vsw_crew.specs.Private.Port.{AreOnce, all_gone, gone, lines_at, pair_at, quiet};
ghost use Rattle.vsw_crew.specs.Private.Ports.{TellsPort, TellsPortShort};
ghost use Rattle.vsw_report.specs.Whole.{whole_text};

use crate::caller_lines::Lines;
use std::alloc::Global;
use std::mem::replace;
use vsw_base::NoMemory;
use vsw_report::{Caller, RoundText, merge_text, port_line};

/// The callers of a port while its lines are merged. Their rooms serve one port after the other.
#[derive(Drop)]
pub struct Gathered {
    /// By number.
    pub team: Vec<Caller>,
    /// Two for each controller: its lines of the commands before the packets, and its others.
    pub controllers: Vec<Caller>,
}

/// A port's number, and how many entries its history had before and after the round.
#[derive(Clone, Copy)]
pub struct Span {
    pub number: u16,
    pub before: u32,
    pub after: u32,
}

/// Appends a caller.
pub fn push(callers: &mut Vec<Caller>, caller: Caller) -> Result<(), NoMemory>
    ensures { OnOk result (callers.new.items ≡ callers.old.items ++ caller ∷ []) }
{
    match callers.push(caller) {
        Ok(()) => Ok(()),
        Err(_) => Err(NoMemory),
    }
}

/// Takes the lines of workers at a port.
fn take_team(alloc: Global, rows: &mut [Lines], place: usize, team: &mut [Caller])
    requires same { length team.old ≡ length rows.old }
    ensures team { team.new ≡ map (caller_at place) rows.old }
    ensures rows { all_gone place rows.new ≡ all_gone place rows.old }
{
    for k in 0..rows.len() {
        team[k] = rows[k].take(alloc, place);
    }
}

/// The room of a worker who has no lines, or that of nobody.
fn room_of(alloc: Global, team: &mut [Caller], number: usize) -> Caller
    requires quiet { team.old ≡ quiet (length team.old) }
    ensures none { result ≡ [] }
    ensures team { team.new ≡ team.old }
{
    if number < team.len() {
        replace(&mut team[number], Caller::new(alloc))
    } else {
        Caller::new(alloc)
    }
}

/// Gives workers who have no lines their rooms back, and leaves nobody lines at the port.
fn give_back(alloc: Global, rows: &mut [Lines], place: usize, team: &mut [Caller])
    requires quiet { team.old ≡ quiet (length team.old) }
    ensures team { team.new ≡ team.old }
    ensures rows { rows.new ≡ all_gone place rows.old }
{
    for k in 0..rows.len() {
        let room = room_of(alloc, team, k);
        rows[k].put(place, room);
    }
}

/// Drops what these callers have at a port.
fn clear(alloc: Global, rows: &mut [Lines], place: usize)
    ensures { rows.new ≡ all_gone place rows.old }
{
    for k in 0..rows.len() {
        rows[k].put(place, Caller::new(alloc));
    }
}

/// Takes the lines of one caller at a port, if there are such.
fn take_at(alloc: Global, rows: &mut [Lines], caller: usize, place: usize) -> Caller
    ensures taken { result ≡ caller_at place (row_at caller rows.old) }
    ensures rows { rows.new ≡ set rows.old caller (gone place (row_at caller rows.old)) }
{
    if caller < rows.len() {
        rows[caller].take(alloc, place)
    } else {
        Caller::new(alloc)
    }
}

/// Takes the lines of the controllers at these places of the policy, each controller's first ones before its others.
fn take_controllers(
    alloc: Global,
    places: &[usize],
    firsts: &mut [Lines],
    laters: &mut [Lines],
    place: usize,
    out: &mut Vec<Caller>,
) -> Result<(), NoMemory>
    requires once { AreOnce places.now }
    ensures told { OnOk result (out.new.items ≡ out.old.items ++ flat_map (pair_at place firsts.old laters.old) places.now) }
    ensures firsts { OnOk result (all_gone place firsts.new ≡ all_gone place firsts.old) }
    ensures laters { OnOk result (all_gone place laters.new ≡ all_gone place laters.old) }
{
    for at in 0..places.len() {
        let controller = places[at];
        push(out, take_at(alloc, firsts, controller, place))?;
        push(out, take_at(alloc, laters, controller, place))?;
    }
    Ok(())
}

/// Takes the lines of all callers at a port.
fn gather(
    alloc: Global,
    workers: usize,
    places: &[usize],
    place: usize,
    lines: &mut [Lines],
    firsts: &mut [Lines],
    gathered: &mut Gathered,
) -> Result<(), NoMemory>
    requires few { workers ≤ 16 }
    requires rows { 16 ≤ length lines.old }
    requires once { AreOnce places.now }
    requires team { length gathered.old.team.items ≡ workers }
    ensures team { OnOk result (gathered.new.team.items ≡ map (caller_at place) (take workers lines.old)) }
    ensures controllers { OnOk result (gathered.new.controllers.items ≡ flat_map (pair_at place firsts.old (drop 16 lines.old)) places.now) }
    ensures lines { OnOk result (all_gone place lines.new ≡ all_gone place lines.old) }
    ensures firsts { OnOk result (all_gone place firsts.new ≡ all_gone place firsts.old) }
{
    gathered.controllers.clear();
    take_team(alloc, &mut lines[..workers], place, &mut gathered.team);
    take_controllers(
        alloc,
        places,
        firsts,
        &mut lines[16..],
        place,
        &mut gathered.controllers,
    )
}

/// Appends the part of the port at a place, and takes its lines. Answers whether want of memory is told in it.
pub fn tell_port(
    alloc: Global,
    workers: usize,
    places: &[usize],
    place: usize,
    span: Span,
    lines: &mut [Lines],
    firsts: &mut [Lines],
    gathered: &mut Gathered,
    out: &mut RoundText,
) -> Result<bool, NoMemory>
    requires few { workers ≤ 16 }
    requires rows { 16 ≤ length lines.old }
    requires once { AreOnce places.now }
    requires quiet { gathered.old.team.items ≡ quiet workers }
    requires grows { span.before ≤ span.after }
    ensures text { TellsPort result span.number span.before span.after (lines_at workers places.now lines.old firsts.old place) (whole_text out.old) (whole_text out.new) }
    ensures short { TellsPortShort result span.before span.after (lines_at workers places.now lines.old firsts.old place) }
    ensures quiet { OnOk result (gathered.new.team.items ≡ quiet workers) }
    ensures lines { OnOk result (lines.new ≡ all_gone place lines.old) }
    ensures firsts { OnOk result (firsts.new ≡ all_gone place firsts.old) }
{
    port_line(&mut out.end, span.number, span.before, span.after)?;
    gather(alloc, workers, places, place, lines, firsts, gathered)?;
    let short = merge_text(
        &mut gathered.team,
        &mut gathered.controllers,
        span.before,
        span.after,
        out,
    )?;
    give_back(alloc, lines, place, &mut gathered.team);
    clear(alloc, firsts, place);
    Ok(short)
}
