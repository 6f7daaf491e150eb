//! The parts of all ports.

ghost use Rattle.std.specs.Prelude.{◌≡◌, ◌≤◌, ◌++◌, ◌∷◌, [], ◌||◌, OnOk, IfOk, length, map};
ghost use Rattle.vsw_policy.specs.Layers as layers;
ghost use Rattle.vsw_crew.specs.Texts.{AreRising};
ghost use Rattle.vsw_crew.specs.Private.Port.{AreOnce, lines_at, quiet};
ghost use Rattle.vsw_crew.specs.Private.Ports.{TellsPorts, TellsPortsShort, gone_to};
ghost use Rattle.vsw_report.specs.Whole.{whole_text};

use crate::caller_lines::Lines;
use crate::port::{Gathered, Span, push, tell_port};
use std::alloc::Global;
use vsw_base::NoMemory;
use vsw_report::{Caller, RoundText};

/// The place of a number among these, or behind them.
fn place_of(numbers: &[u16], number: u16) -> usize
    ensures value { result ≡ layers.place_of number numbers.now }
    ensures within { result ≤ length numbers.now }
{
    match numbers {
        [] => 0,
        [first, rest @ ..] => {
            if number == *first {
                0
            } else {
                1 + place_of(rest, number)
            }
        }
    }
}

fn add(places: &mut Vec<usize>, place: usize) -> Result<(), NoMemory>
    ensures { OnOk result (places.new.items ≡ places.old.items ++ place ∷ []) }
{
    match places.push(place) {
        Ok(()) => Ok(()),
        Err(_) => Err(NoMemory),
    }
}

/// The places of listed controllers in the policy.
pub fn places_of(alloc: Global, controllers: &[u16], listed: &[u16]) -> Result<Vec<usize>, NoMemory>
    ensures { IfOk result (λ places. places.items ≡ map (λ n. layers.place_of n controllers.now) listed.now) }
{
    let mut places = Vec::new(alloc);
    for number in listed {
        add(&mut places, place_of(controllers, *number))?;
    }
    Ok(places)
}

/// So many callers with no lines.
fn spare(alloc: Global, workers: usize) -> Result<Vec<Caller>, NoMemory>
    ensures { IfOk result (λ team. team.items ≡ quiet workers) }
{
    let mut team = Vec::new(alloc);
    let mut made = 0;
    while made < workers {
        push(&mut team, Caller::new(alloc))?;
        made += 1;
    }
    Ok(team)
}

/// Rooms for the callers of a port.
pub fn rooms(alloc: Global, workers: usize) -> Result<Gathered, NoMemory>
    ensures { IfOk result (λ rooms. rooms.team.items ≡ quiet workers) }
{
    let team = spare(alloc, workers)?;
    Ok(Gathered {
        team,
        controllers: Vec::new(alloc),
    })
}

fn either(one: bool, more: bool) -> bool
    ensures { result ≡ (one || more) }
{
    one || more
}

/// Appends the parts of all ports, and takes their lines. Answers whether want of memory is told in them.
pub fn tell_ports(
    alloc: Global,
    workers: usize,
    places: &[usize],
    numbers: &[u16],
    befores: &[u32],
    afters: &[u32],
    lines: &mut [Lines],
    firsts: &mut [Lines],
    out: &mut RoundText,
) -> Result<bool, NoMemory>
    requires few { workers ≤ 16 }
    requires rows { 16 ≤ length lines.old }
    requires once { AreOnce places.now }
    requires befores { length befores.now ≡ length numbers.now }
    requires afters { length afters.now ≡ length numbers.now }
    requires grows { AreRising befores.now afters.now }
    ensures text { TellsPorts result numbers.now befores.now afters.now (lines_at workers places.now lines.old firsts.old) (whole_text out.old) (whole_text out.new) }
    ensures short { TellsPortsShort result numbers.now befores.now afters.now (lines_at workers places.now lines.old firsts.old) }
    ensures lines { OnOk result (lines.new ≡ map (gone_to (length numbers.now)) lines.old) }
{
    let mut gathered = rooms(alloc, workers)?;
    let mut short = false;
    for place in 0..numbers.len() {
        let span = Span {
            number: numbers[place],
            before: befores[place],
            after: afters[place],
        };
        let told = tell_port(
            alloc,
            workers,
            places,
            place,
            span,
            lines,
            firsts,
            &mut gathered,
            out,
        )?;
        short = either(short, told);
    }
    Ok(short)
}
