//! A round by threads that stay: its shares are given to a pool, and taken back.

ghost use Rattle.std.specs.Arc.{arc_value};
ghost use Rattle.std.specs.Prelude.{◌≡◌, ◌≤◌, ◌<◌, ◌+◌, ◌++◌, ◌∷◌, [], ℕ, List, IfOk, OnOk, drop, length, replicate};
ghost use Rattle.vsw_actors.specs.Picks.{AtMost};
ghost use Rattle.vsw_crew.specs.Crew.{AreReady, IsOfSome};
ghost use Rattle.vsw_crew.specs.Private.Flowing.{DoesRound};
ghost use Rattle.vsw_crew.specs.Private.Shifting.{ArePut, AreShares, GoesOut, HasComeBack, HasGoneOut, needs_of, picks_many, shares_of};
ghost use Rattle.vsw_crew.specs.Shares.{DoesShare, IsShare, ShareSeen, share_of};
ghost use Rattle.vsw_hands.specs.Hands.{AllDone};
ghost use Rattle.vsw_crew.specs.Shift.{HasNoneBeside, IsPicked};
ghost use Rattle.vsw_harbour.specs.Harbour.{IsHarbour, MayAsk, callers};
ghost use Rattle.vsw_harbour.specs.HarbourOpening.{rows_in};
ghost use Rattle.vsw_harbour.specs.Meeting.{AllMeet};
ghost use Rattle.vsw_harbour.specs.Standing.{RowsStand, no_calls};
ghost use Rattle.vsw_policy.specs.Sound.{Each};
ghost use Rattle.vsw_port.specs.declared.event.Event.{Event};
ghost use Rattle.vsw_pcap.specs.declared.capture.Record.{Record};

use crate::before::begin;
use crate::beside::meet_after;
use crate::lines::count_first;
use crate::picked::Picked;
use crate::round::Worked;
use crate::share::{Carried, Carrier, Share};
use crate::underway::Underway;
use std::alloc::Global;
use std::mem::replace;
use std::sync::{Arc, Wait};
use std::time::Clock;
use vsw_actors::Pick;
use vsw_base::NoMemory;
use vsw_hands::{Pool, Roll};
use vsw_harbour::{Harbour, Lane, Naming, Station, Watch, meet_all};
use vsw_pcap::Batch;
use vsw_promise::Schedule;
use vsw_workers::Gate;

fn add_need(need: u32, needs: &mut Vec<u32>) -> Result<(), NoMemory>
    ensures { OnOk result (needs.new.items ≡ needs.old.items ++ need ∷ []) }
{
    match needs.push(need) {
        Ok(()) => Ok(()),
        Err(_) => Err(NoMemory),
    }
}

fn add_needs(picks: &[Vec<Pick>], needs: &mut Vec<u32>) -> Result<(), NoMemory>
    requires few { Each (λ p. length p.items < 4294967296) picks.now }
    ensures { OnOk result (needs.new.items ≡ needs.old.items ++ picks_many picks.now) }
{
    if let Some((own, others)) = picks.split_first() {
        add_need(own.len() as u32, needs)?;
        add_needs(others, needs)?;
    }
    Ok(())
}

/// So many callers that need nothing.
pub(crate) fn no_needs(alloc: Global, count: usize) -> Result<Vec<u32>, NoMemory>
    ensures { IfOk result (λ needs. needs.items ≡ replicate count 0) }
{
    match vec![in alloc; 0; count] {
        Ok(needs) => Ok(needs),
        Err(_) => Err(NoMemory),
    }
}

pub(crate) fn append(out: &mut Vec<u32>, needs: &[u32]) -> Result<(), NoMemory>
    ensures { OnOk result (out.new.items ≡ out.old.items ++ needs.now) }
{
    match out.extend_from_slice(needs) {
        Ok(()) => Ok(()),
        Err(_) => Err(NoMemory),
    }
}

/// By callers, as many entries as each share has packets, and none where there is no share.
fn needs(alloc: Global, picks: &[Vec<Pick>], callers: usize) -> Result<Vec<u32>, NoMemory>
    requires few { Each (λ p. length p.items < 4294967296) picks.now }
    requires within { length picks.now ≤ callers }
    ensures { IfOk result (λ needs. needs.items ≡ needs_of picks.now callers) }
{
    let mut needs = Vec::new(alloc);
    add_needs(picks, &mut needs)?;
    let others = no_needs(alloc, callers - picks.len())?;
    append(&mut needs, &others)?;
    Ok(needs)
}

/// All callers meet the ports. Each may then make as many entries as its share has packets.
fn meet_picked<'g, J: Naming, G, R: Wait + Clock>(
    rt: &R,
    harbour: &Harbour<'g, J, G>,
    rows: &mut Vec<Vec<Lane<Station>>>,
    picks: &[Vec<Pick>],
) -> Result<(), NoMemory>
    requires stand { (hs : List (List Event)) × RowsStand 0 harbour.now.docks hs (no_calls harbour.now.docks) (rows_in rows.old.items) }
    requires size { length (rows_in rows.old.items) ≡ callers harbour.now }
    requires few { Each (λ p. length p.items < 4294967296) picks.now }
    requires within { length picks.now ≤ callers harbour.now }
    ensures met { OnOk result (AllMeet harbour.now.docks (needs_of picks.now (callers harbour.now)) (rows_in rows.old.items) (rows_in rows.new.items)) }
{
    let needs = needs(harbour.alloc, picks, rows.len())?;
    meet_all(
        rt,
        harbour.alloc,
        &harbour.docks,
        rows.as_mut_slice(),
        &needs,
    )?;
    Ok(())
}

/// Gives a worker's share to the pool.
fn give_one<'p, 'c, 'g, J: Naming, G: Gate + Watch, R: Wait + Clock, B: Roll>(
    rt: &R,
    harbour: &'c Harbour<'g, J, G>,
    pool: &mut Pool<'p, Share<'c, 'g, J, G>, Carried, Carrier<'g, G>, B>,
    number: u32,
    row: Vec<Lane<Station>>,
    packets: &Arc<Batch>,
    first: u32,
    picks: Vec<Pick>,
) -> Result<(), NoMemory>
    requires share { IsShare (share_of number harbour.now.docks row.items (arc_value packets.now) first picks.items) }
    ensures given { OnOk result (pool.new ≡ pool.old ++ share_of number harbour.now.docks row.items (arc_value packets.now) first picks.items ∷ []) }
{
    let Ok(packets) = Arc::try_clone(packets) else {
        return Err(NoMemory);
    };
    let share = Share::new(number, &harbour.docks, row, packets, first, picks);
    pool.give(rt, share)
}

/// Gives the shares of the first rows to the pool, those from this worker on. In the places of these rows there are none afterwards.
fn give_each<'p, 'c, 'g, J: Naming, G: Gate + Watch, R: Wait + Clock, B: Roll>(
    rt: &R,
    harbour: &'c Harbour<'g, J, G>,
    pool: &mut Pool<'p, Share<'c, 'g, J, G>, Carried, Carrier<'g, G>, B>,
    number: u32,
    rows: &mut [Vec<Lane<Station>>],
    packets: &Arc<Batch>,
    first: u32,
    picks: &mut [Vec<Pick>],
) -> Result<(), NoMemory>
    requires shares { AreShares number harbour.now.docks (arc_value packets.now) first rows.old picks.old }
    ensures given { OnOk result (pool.new ≡ pool.old ++ shares_of number harbour.now.docks (arc_value packets.now) first rows.old picks.old) }
    ensures left { OnOk result (drop (length picks.old) rows.new ≡ drop (length picks.old) rows.old) }
    ensures many { length rows.new ≡ length rows.old }
{
    if let Some((own, more)) = picks.split_first_mut() {
        if let Some((row, others)) = rows.split_first_mut() {
            let taken = replace(row, Vec::new(harbour.alloc));
            let picked = replace(own, Vec::new(harbour.alloc));
            give_one(rt, harbour, pool, number, taken, packets, first, picked)?;
            give_each(
                rt,
                harbour,
                pool,
                number.wrapping_add(1),
                others,
                packets,
                first,
                more,
            )?;
        }
    }
    Ok(())
}

/// Begins a round: asks the commands before its packets, and gives the workers' shares to the pool.
pub(crate) fn give<'p, 'c, 'g, J: Naming, G: Gate + Watch, R: Wait + Clock, B: Roll>(
    rt: &R,
    harbour: &'c Harbour<'g, J, G>,
    pool: &mut Pool<'p, Share<'c, 'g, J, G>, Carried, Carrier<'g, G>, B>,
    rows: Vec<Vec<Lane<Station>>>,
    schedule: &Schedule,
    picked: Picked,
) -> Result<Underway, NoMemory>
    requires idle { pool.old ≡ [] }
    requires run { IsOfSome harbour.now }
    requires ready { (hs : List (List Event)) × AreReady harbour.now hs (rows_in rows.items) }
    requires lines { Each (MayAsk harbour.now) schedule.now }
    requires picked { (packets : List Record) × IsPicked harbour.now picked.first packets picked }
    requires quiet { HasNoneBeside schedule.now picked.first }
    ensures out { IfOk result (λ u. GoesOut harbour.now (rows_in rows.items) schedule.now picked u pool.new) }
{
    let Picked {
        first,
        packets,
        picks,
        loose,
    } = picked;
    let befores = count_first(harbour.alloc, &rows)?;
    let mut rows = rows;
    let firsts = begin(rt, harbour, &mut rows, schedule, first)?;
    let mut picks = picks;
    meet_picked(rt, harbour, &mut rows, picks.as_slice())?;
    give_each(
        rt,
        harbour,
        pool,
        0,
        rows.as_mut_slice(),
        &packets,
        first,
        picks.as_mut_slice(),
    )?;
    Ok(Underway {
        first,
        befores,
        firsts,
        loose,
        rows,
    })
}

/// Puts what is told of shares in the places of the first rows.
fn put_back(rows: &mut [Vec<Lane<Station>>], tolds: &mut [Carried]) -> Result<(), NoMemory>
    ensures put { OnOk result (ArePut tolds.old rows.old rows.new) }
    ensures many { length rows.new ≡ length rows.old }
{
    if let Some((told, others)) = tolds.split_first_mut() {
        let Some((row, more)) = rows.split_first_mut() else {
            return Err(NoMemory);
        };
        let Some(taken) = told.row.take() else {
            return Err(NoMemory);
        };
        *row = taken;
        put_back(more, others)?;
    }
    Ok(())
}

/// Ends a round of whose shares this is told: puts the rows back, and all callers meet the ports.
pub(crate) fn end_round<'c, 'g, J: Naming, G, R: Wait + Clock>(
    rt: &R,
    harbour: &'c Harbour<'g, J, G>,
    underway: Underway,
    tolds: Vec<Carried>,
) -> Result<Worked, NoMemory>
    requires harbour { (numbers : List ℕ) × (macs : List ℕ) × (listed : List ℕ) × (asks : List ℕ) × IsHarbour harbour.now numbers macs listed asks }
    requires out { HasComeBack harbour.now underway tolds.items }
    ensures worked { IfOk result (λ w. (out : List ShareSeen) → AllDone DoesShare out tolds.items → DoesRound harbour.now underway out w) }
{
    let Underway {
        first: _,
        befores,
        firsts,
        loose,
        rows,
    } = underway;
    let mut rows = rows;
    let mut tolds = tolds;
    put_back(rows.as_mut_slice(), tolds.as_mut_slice())?;
    meet_after(rt, harbour, &mut rows)?;
    Ok(Worked {
        befores,
        rows,
        firsts,
        loose,
    })
}

/// Ends a round: takes what is told of its shares, and all callers meet the ports.
pub(crate) fn take<'p, 'c, 'g, J: Naming, G: Gate + Watch, R: Wait + Clock, B: Roll>(
    rt: &R,
    harbour: &'c Harbour<'g, J, G>,
    pool: &mut Pool<'p, Share<'c, 'g, J, G>, Carried, Carrier<'g, G>, B>,
    underway: Underway,
) -> Result<Worked, NoMemory>
    requires out { HasGoneOut harbour.now underway pool.old }
    ensures worked { IfOk result (DoesRound harbour.now underway pool.old) }
    ensures idle { OnOk result (pool.new ≡ []) }
{
    let tolds = pool.take(rt, harbour.alloc)?;
    end_round(rt, harbour, underway, tolds)
}
