//! What is done beside each other: the packets, and the commands beside them.

ghost use Rattle.std.specs.Prelude.{◌≡◌, ◌++◌, ◌∷◌, [], List, IfOk, OnOk, length};
ghost use Rattle.vsw_harbour.specs.Rows.{HaveDone, MayBegin};
ghost use Rattle.vsw_crew.specs.Private.Round.{DoesBeside};
ghost use Rattle.vsw_crew.specs.Private.Rows.{needs_in};
ghost use Rattle.vsw_harbour.specs.Deal.{AreFew, AreWork, dealt, shared};
ghost use Rattle.vsw_harbour.specs.Work.{job_in};
ghost use Rattle.vsw_harbour.specs.Docks.{is_of, locals, pass_in, permits, port_in, takes, tells};
ghost use Rattle.vsw_harbour.specs.HarbourOpening.{rows_in};
ghost use Rattle.vsw_harbour.specs.Harbour.{asks_of, callers};
ghost use Rattle.vsw_harbour.specs.Meeting.{AllMeet, AreLanesAt};
ghost use Rattle.vsw_harbour.specs.Standing.{RowsStand, no_calls};
ghost use Rattle.vsw_port.specs.declared.event.Event.{Event};
ghost use Rattle.vsw_policy.specs.Sound.{Each};
ghost use Rattle.vsw_promise.specs.Jobs as jobs;

use std::alloc::Global;
use std::sync::Wait;
use std::thread::Threads;
use vsw_base::NoMemory;
use vsw_harbour::{
    Harbour, Lane, Lineup, Naming, Placed, Station, Watch, Work, meet_all, run_rows,
};
use vsw_workers::Gate;

/// A round of fewer packets starts no thread: it takes less time than starting threads does.
const PACKETS_FOR_THREADS: u32 = 256;

fn add_need(need: u32, needs: &mut Vec<u32>) -> Result<(), NoMemory>
    ensures { OnOk result (needs.new.items ≡ needs.old.items ++ need ∷ []) }
{
    match needs.push(need) {
        Ok(()) => Ok(()),
        Err(_) => Err(NoMemory),
    }
}

fn add_needs<'w>(shares: &[Vec<Placed<Work<'w>>>], needs: &mut Vec<u32>) -> Result<(), NoMemory>
    requires few { AreFew shares.now }
    ensures needs { OnOk result (needs.new.items ≡ needs.old.items ++ needs_in shares.now) }
{
    if let Some((share, others)) = shares.split_first() {
        add_need(share.len() as u32, needs)?;
        add_needs(others, needs)?;
    }
    Ok(())
}

/// All callers meet the ports. Each may then make as many entries as its share has jobs.
fn meet_for<'g, 'w, J: Naming, G, R: Wait>(
    rt: &R,
    harbour: &Harbour<'g, J, G>,
    rows: &mut Vec<Vec<Lane<Station>>>,
    shares: &[Vec<Placed<Work<'w>>>],
) -> Result<(), NoMemory>
    requires stand { (hs : List (List Event)) × RowsStand 0 harbour.now.docks hs (no_calls harbour.now.docks) (rows_in rows.old.items) }
    requires size { length (rows_in rows.old.items) ≡ callers harbour.now }
    requires shares { length shares.now ≡ callers harbour.now }
    requires few { AreFew shares.now }
    ensures met { OnOk result (AllMeet harbour.now.docks (needs_in shares.now) (rows_in rows.old.items) (rows_in rows.new.items)) }
{
    let mut needs = Vec::new(harbour.alloc);
    add_needs(shares, &mut needs)?;
    meet_all(
        rt,
        harbour.alloc,
        &harbour.docks,
        rows.as_mut_slice(),
        &needs,
    )?;
    Ok(())
}

/// All callers meet the ports, and may then ask commands before the packets of the next round.
pub(crate) fn meet_after<'g, J: Naming, G, R: Wait>(
    rt: &R,
    harbour: &Harbour<'g, J, G>,
    rows: &mut Vec<Vec<Lane<Station>>>,
) -> Result<(), NoMemory>
    requires lanes { Each (AreLanesAt harbour.now.docks) (rows_in rows.old.items) }
    requires size { length (rows_in rows.old.items) ≡ callers harbour.now }
    ensures met { OnOk result (AllMeet harbour.now.docks (asks_of harbour.now) (rows_in rows.old.items) (rows_in rows.new.items)) }
{
    meet_all(
        rt,
        harbour.alloc,
        &harbour.docks,
        rows.as_mut_slice(),
        &harbour.asks,
    )?;
    Ok(())
}

/// The callers do their shares in the round of this number: in turn where there are few packets, else each in a thread of its own where
/// it is one of the workers or the controllers have jobs.
fn work<'g, 'w, J: Naming + Send + Sync, G: Gate + Watch + Sync, R: Threads + Wait + Sync>(
    rt: &R,
    harbour: &Harbour<'g, J, G>,
    workers: usize,
    round: u32,
    rows: Vec<Vec<Lane<Station>>>,
    shares: Vec<Vec<Placed<Work<'w>>>>,
) -> Result<Vec<Vec<Lane<Station>>>, NoMemory>
    requires begin { MayBegin port_in locals pass_in job_in tells is_of permits takes 0 harbour.now.docks rows.items shares.items }
    ensures done { IfOk result (λ after. HaveDone port_in locals pass_in job_in tells is_of permits 0 harbour.now.docks rows.items shares.entry.items after.items) }
{
    let lineup = Lineup {
        workers,
        controllers: harbour.controllers.len(),
        round,
        fewest: PACKETS_FOR_THREADS,
    };
    let after = run_rows(
        rt,
        harbour.alloc,
        &harbour.docks,
        rows,
        shares,
        lineup,
        harbour.gate,
    )?;
    Ok(after)
}

/// All callers meet the ports, do their shares, and meet again.
pub(crate) fn do_beside<
    'g,
    'w,
    J: Naming + Send + Sync,
    G: Gate + Watch + Sync,
    R: Threads + Wait + Sync,
>(
    rt: &R,
    harbour: &Harbour<'g, J, G>,
    round: u32,
    rows: Vec<Vec<Lane<Station>>>,
    shares: Vec<Vec<Placed<Work<'w>>>>,
) -> Result<Vec<Vec<Lane<Station>>>, NoMemory>
    requires stand { (hs : List (List Event)) × RowsStand 0 harbour.now.docks hs (no_calls harbour.now.docks) (rows_in rows.items) }
    requires size { length (rows_in rows.items) ≡ callers harbour.now }
    requires dealt { (js : List jobs.Placed) × (shared shares.items ≡ dealt harbour.now.controllers js) }
    requires fit { AreWork (length harbour.now.docks) harbour.now.controllers shares.items }
    requires few { AreFew shares.items }
    ensures did { IfOk result (λ after. DoesBeside harbour.now (rows_in rows.items) shares.entry.items (rows_in after.items)) }
{
    let workers = harbour.workers as usize;
    let mut rows = rows;
    meet_for(rt, harbour, &mut rows, &shares)?;
    let mut after = work(rt, harbour, workers, round, rows, shares)?;
    meet_after(rt, harbour, &mut after)?;
    Ok(after)
}
