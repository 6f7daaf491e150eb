//! A round: what its callers do.

ghost use Rattle.std.specs.Prelude.{◌≡◌, ◌<◌, ◌+◌, ◌^◌, ◌++◌, List, IfOk, OnOk, length};
ghost use Rattle.vsw_crew.specs.Crew.{AreReady, IsOfSome};
ghost use Rattle.vsw_crew.specs.Private.Round.{WorksRound, jobs_here, macs_in};
ghost use Rattle.vsw_harbour.specs.Deal.{AreFew, AreWork, dealt, shared};
ghost use Rattle.vsw_harbour.specs.HarbourOpening.{rows_in};
ghost use Rattle.vsw_harbour.specs.Harbour.{MayAsk};
ghost use Rattle.vsw_port.specs.Order.{numbered};
ghost use Rattle.vsw_port.specs.declared.event.Event.{Event};
ghost use Rattle.vsw_policy.specs.Sound.{Each};
ghost use Rattle.vsw_promise.specs.Jobs.{loose_among};

use crate::Lines;
use crate::before::begin;
use crate::beside::do_beside;
use crate::lines::count_first;
use std::sync::Wait;
use std::thread::Threads;
use vsw_base::NoMemory;
use vsw_harbour::{Harbour, Lane, Naming, Placed, Station, Watch, Work, deal};
use vsw_pcap::Batch;
use vsw_promise::Schedule;
use vsw_report::Loose;
use vsw_workers::Gate;

/// A round that was done, and is to be told.
#[derive(Drop)]
pub(crate) struct Worked {
    /// How many entries each port had before it.
    pub befores: Vec<u32>,
    pub rows: Vec<Vec<Lane<Station>>>,
    /// What the controllers tell of the commands before the packets.
    pub firsts: Vec<Lines>,
    pub loose: Vec<Loose>,
}

/// What each caller is dealt of the round of these packets.
fn share<'g, 'a, J: Naming, G>(
    harbour: &Harbour<'g, J, G>,
    schedule: &'a Schedule,
    first: u32,
    packets: &'a Batch,
    loose: &mut Vec<Loose>,
) -> Result<Vec<Vec<Placed<Work<'a>>>>, NoMemory>
    requires lines { Each (MayAsk harbour.now) schedule.now }
    requires numbers { first + length packets.now < 2 ^ 32 }
    ensures shares { IfOk result (λ shares. shared shares.items ≡ dealt harbour.now.controllers (jobs_here harbour.now schedule.now first packets.now)) }
    ensures fit { IfOk result (λ shares. AreWork (length harbour.now.docks) harbour.now.controllers shares.items) }
    ensures few { IfOk result (λ shares. AreFew shares.items) }
    ensures loose { OnOk result (loose.new.items ≡ loose.old.items ++ loose_among (macs_in harbour.now) (numbered first packets.now)) }
{
    let shares = deal(
        harbour.alloc,
        harbour.workers,
        &harbour.controllers,
        &harbour.numbers,
        harbour.macs.as_slice(),
        schedule,
        first,
        packets,
        loose,
    )?;
    Ok(shares)
}

/// Does all that the round of these packets is, the one of this number.
pub(crate) fn work_round<
    'g,
    J: Naming + Send + Sync,
    G: Gate + Watch + Sync,
    R: Threads + Wait + Sync,
>(
    rt: &R,
    harbour: &Harbour<'g, J, G>,
    round: u32,
    rows: Vec<Vec<Lane<Station>>>,
    schedule: &Schedule,
    first: u32,
    packets: &Batch,
) -> Result<Worked, NoMemory>
    requires run { IsOfSome harbour.now }
    requires ready { (hs : List (List Event)) × AreReady harbour.now hs (rows_in rows.items) }
    requires lines { Each (MayAsk harbour.now) schedule.now }
    requires numbers { first + length packets.now < 2 ^ 32 }
    ensures worked { IfOk result (λ w. WorksRound harbour.now schedule.now first packets.now (rows_in rows.items) w.befores.items w.firsts.items w.loose.items (rows_in w.rows.items)) }
{
    let befores = count_first(harbour.alloc, &rows)?;
    let mut rows = rows;
    let firsts = begin(rt, harbour, &mut rows, schedule, first)?;
    let mut loose = Vec::new(harbour.alloc);
    let shares = share(harbour, schedule, first, packets, &mut loose)?;
    let rows = do_beside(rt, harbour, round, rows, shares)?;
    Ok(Worked {
        befores,
        rows,
        firsts,
        loose,
    })
}
