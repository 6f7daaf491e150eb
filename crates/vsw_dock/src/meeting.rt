//! All stations meet the ports between rounds.

ghost use Rattle.std.specs.Prelude.{◌≡◌, ◌≤◌, ◌<◌, ◌++◌, ◌∷◌, [], length, map, IfOk, OnErr, OnOk};
ghost use Rattle.vsw_flows.specs.Flows.{IsOf};
ghost use Rattle.vsw_dock.specs.Meeting.{AreHeld, AreLanes, LaneMeets, RowMeets};
ghost use Rattle.vsw_dock.specs.Private.Met.{MetAt};

use crate::dock::Dock;
use crate::station::Station;
use std::alloc::Global;
use std::sync::Wait;
use vsw_actors::Lane;
use vsw_base::NoMemory;
use vsw_live::{Held, Naming};

/// Puts one thing more at the end.
fn put<T: Drop>(all: &mut Vec<T>, one: T) -> Result<(), NoMemory>
    ensures items { OnOk result (all.new.items ≡ all.old.items ++ one ∷ []) }
{
    match all.push(one) {
        Ok(()) => Ok(()),
        Err(_) => Err(NoMemory),
    }
}

/// Takes the locks of further ports.
fn hold_more<'a, 'g, J: Naming, G, R: Wait>(
    rt: &R,
    docks: &'a [Dock<'g, J, G>],
    helds: &mut Vec<Held<'a, J>>,
) -> Result<(), NoMemory>
    ensures { OnOk result (map (λ h. h.port) helds.new.items ≡ map (λ h. h.port) helds.old.items ++ map (λ d. d.live) docks.now) }
{
    match docks.split_first() {
        None => Ok(()),
        Some((dock, others)) => {
            put(helds, dock.port().hold(rt))?;
            hold_more(rt, others, helds)
        }
    }
}

/// Takes the lock of each port, in order. All histories stand still while these are kept.
#[tactic(auto, using(crate::proofs::Same::held_is))]
pub fn hold_all<'a, 'g, J: Naming, G, R: Wait>(
    rt: &R,
    alloc: Global,
    docks: &'a [Dock<'g, J, G>],
) -> Result<Vec<Held<'a, J>>, NoMemory>
    ensures { IfOk result (λ helds. AreHeld docks.now helds.items) }
{
    let mut helds = Vec::new(alloc);
    hold_more(rt, docks, &mut helds)?;
    Ok(helds)
}

/// How many entries a port has. That it has 2^32 or more counts as want of memory, and nothing else does.
pub fn count_of<J: Naming>(held: &Held<'_, J>) -> Result<u32, NoMemory>
    ensures count { IfOk result (λ count. count ≡ length held.now.history) }
    ensures many { OnErr result (4294967296 ≤ length held.now.history) }
{
    let count = held.journal().len();
    if count > u32::MAX as usize {
        return Err(NoMemory);
    }
    Ok(count as u32)
}

/// A lane meets its port.
fn meet_lane<J: Naming>(
    held: &mut Held<'_, J>,
    lane: &mut Lane<Station>,
    more: u32,
) -> Result<(), NoMemory>
    requires of { IsOf held.old.port.looking lane.old.station.pass }
    ensures same { held.new ≡ held.old }
    ensures meets { OnOk result (LaneMeets more held.old lane.old lane.new) }
{
    lane.station.meet(held, more)?;
    lane.base = held.journal().len();
    Ok(())
}

/// The lane at a place meets the port there.
fn meet_at<J: Naming>(
    helds: &mut [Held<'_, J>],
    row: &mut [Lane<Station>],
    place: usize,
    more: u32,
) -> Result<(), NoMemory>
    requires lanes { AreLanes helds.old row.old }
    requires place { place < length row.old }
    ensures same { helds.new ≡ helds.old }
    ensures met { OnOk result (MetAt more place helds.old row.old row.new) }
{
    let held = &mut helds[place];
    let lane = &mut row[place];
    meet_lane(held, lane, more)
}

/// The lanes of a caller meet the ports. Each has at least `more` permits then.
pub fn meet_row<J: Naming>(
    helds: &mut [Held<'_, J>],
    row: &mut [Lane<Station>],
    more: u32,
) -> Result<(), NoMemory>
    requires lanes { AreLanes helds.old row.old }
    ensures same { helds.new ≡ helds.old }
    ensures meet { OnOk result (RowMeets more helds.old row.old row.new) }
{
    for place in 0..row.len() {
        meet_at(helds, row, place, more)?;
    }
    Ok(())
}
