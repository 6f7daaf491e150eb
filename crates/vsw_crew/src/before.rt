//! The beginning of a round: the commands before the packets.

ghost use Rattle.std.specs.Prelude.{◌≡◌, ◌≤◌, ◌++◌, List, IfOk, OnOk, drop, length, map, take};
ghost use Rattle.vsw_crew.specs.Crew.{AreReady, IsOfSome};
ghost use Rattle.vsw_crew.specs.Private.Round.{BeginsRound, HasAsked, InEachRun};
ghost use Rattle.vsw_crew.specs.Private.Rows.{cleared, lines_of};
ghost use Rattle.vsw_harbour.specs.HarbourOpening.{rows_in};
ghost use Rattle.vsw_harbour.specs.Harbour.{MayAsk};
ghost use Rattle.vsw_port.specs.declared.event.Event.{Event};
ghost use Rattle.vsw_policy.specs.Sound.{Each};

use crate::Lines;
use crate::lines::{are_whole, take_rows};
use std::alloc::Global;
use std::sync::Wait;
use vsw_base::NoMemory;
use vsw_harbour::{Harbour, Lane, Naming, Station, Watch, ask_before, meet_all};
use vsw_promise::Schedule;

/// All callers meet the ports, and the commands before the packets of the round that begins with this one are asked.
fn meet_to_ask<'g, J: Naming, G: Watch, R: Wait>(
    rt: &R,
    harbour: &Harbour<'g, J, G>,
    rows: &mut [Vec<Lane<Station>>],
    schedule: &Schedule,
    first: u32,
) -> Result<(), NoMemory>
    requires ready { (hs : List (List Event)) × AreReady harbour.now hs (rows_in rows.old) }
    requires lines { Each (MayAsk harbour.now) schedule.now }
    ensures asked { OnOk result (InEachRun harbour.now schedule.now (rows_in rows.old) (λ s hs. HasAsked harbour.now s hs first (rows_in rows.new))) }
{
    meet_all(rt, harbour.alloc, &harbour.docks, rows, &harbour.asks)?;
    ask_before(rt, harbour, rows, schedule, first)?;
    Ok(())
}

/// The same. Where no command names the packet nobody asks, and no meeting is needed.
fn meet_and_ask<'g, J: Naming, G: Watch, R: Wait>(
    rt: &R,
    harbour: &Harbour<'g, J, G>,
    rows: &mut [Vec<Lane<Station>>],
    schedule: &Schedule,
    first: u32,
) -> Result<(), NoMemory>
    requires ready { (hs : List (List Event)) × AreReady harbour.now hs (rows_in rows.old) }
    requires lines { Each (MayAsk harbour.now) schedule.now }
    ensures asked { OnOk result (InEachRun harbour.now schedule.now (rows_in rows.old) (λ s hs. HasAsked harbour.now s hs first (rows_in rows.new))) }
{
    if schedule.places(first).is_empty() {
        return Ok(());
    }
    meet_to_ask(rt, harbour, rows, schedule, first)?;
    Ok(())
}

/// Takes the lines of the rows behind those of the workers.
fn take_firsts(alloc: Global, rows: &mut [Vec<Lane<Station>>]) -> Result<Vec<Lines>, NoMemory>
    requires many { 16 ≤ length rows.old }
    ensures lines { IfOk result (λ firsts. firsts.items ≡ map lines_of (drop 16 (rows_in rows.old))) }
    ensures rows { OnOk result (rows_in rows.new ≡ take 16 (rows_in rows.old) ++ map cleared (drop 16 (rows_in rows.old))) }
{
    let mut firsts = Vec::new(alloc);
    take_rows(alloc, &mut rows[16..], &mut firsts)?;
    Ok(firsts)
}

/// Begins a round: the commands before its packets are asked. Gives what the controllers tell of them.
fn begin_rows<'g, J: Naming, G: Watch, R: Wait>(
    rt: &R,
    harbour: &Harbour<'g, J, G>,
    rows: &mut [Vec<Lane<Station>>],
    schedule: &Schedule,
    first: u32,
) -> Result<Vec<Lines>, NoMemory>
    requires run { IsOfSome harbour.now }
    requires ready { (hs : List (List Event)) × AreReady harbour.now hs (rows_in rows.old) }
    requires lines { Each (MayAsk harbour.now) schedule.now }
    ensures begun { IfOk result (λ firsts. BeginsRound harbour.now schedule.now first (rows_in rows.old) firsts.items (rows_in rows.new)) }
{
    meet_and_ask(rt, harbour, rows, schedule, first)?;
    if !are_whole(rows) {
        return Err(NoMemory);
    }
    let firsts = take_firsts(harbour.alloc, rows)?;
    Ok(firsts)
}

/// The same of rows that can be handed on.
pub(crate) fn begin<'g, J: Naming, G: Watch, R: Wait>(
    rt: &R,
    harbour: &Harbour<'g, J, G>,
    rows: &mut Vec<Vec<Lane<Station>>>,
    schedule: &Schedule,
    first: u32,
) -> Result<Vec<Lines>, NoMemory>
    requires run { IsOfSome harbour.now }
    requires ready { (hs : List (List Event)) × AreReady harbour.now hs (rows_in rows.old.items) }
    requires lines { Each (MayAsk harbour.now) schedule.now }
    ensures begun { IfOk result (λ firsts. BeginsRound harbour.now schedule.now first (rows_in rows.old.items) firsts.items (rows_in rows.new.items)) }
{
    let firsts = begin_rows(rt, harbour, rows.as_mut_slice(), schedule, first)?;
    Ok(firsts)
}
