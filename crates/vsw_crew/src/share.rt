//! A worker's part of a round, and the hand that does it.

ghost use Rattle.std.specs.Arc.{arc_value};
ghost use Rattle.std.specs.Prelude.{◌≡◌};
ghost use Rattle.vsw_crew.specs.Shares.{GoesOn, IsShare, share_of};
ghost use Rattle.vsw_crew.specs.Private.Carrying.{Carries};

use std::alloc::Global;
use std::marker::Model;
use std::sync::{Arc, Wait};
use std::time::Clock;
use vsw_actors::{Pick, carry_on, jobs_of};
use vsw_base::NoMemory;
use vsw_dock::Dock;
use vsw_hands::{Hand, Worked};
use vsw_harbour::{Lane, Naming, Station, Watch};
use vsw_pcap::Batch;
use vsw_workers::Gate;

/// The most packets that are carried in one piece. Behind it another thread may go on, so that all threads are done at one time where there are fewer of them than
/// workers.
const PIECE: u32 = 128;

/// A worker's part of a round: its row of lanes, and of the round's packets those that are its, the first `next` of which are carried.
#[derive(Drop)]
pub struct Share<'c, 'g, J: Naming, G> {
    number: u32,
    docks: &'c [Dock<'g, J, G>],
    row: Vec<Lane<Station>>,
    packets: Arc<Batch>,
    first: u32,
    picks: Vec<Pick>,
    next: u32,
}

impl<'c, 'g, J: Naming, G> Model for Share<'c, 'g, J, G> {
    ghost use Rattle.std.specs.Arc.{arc_value};
    ghost use Rattle.vsw_crew.specs.Shares.{IsShare, ShareSeen};
    ghost use Rattle.vsw_harbour.specs.Docks.{pass_in};
    ghost use Rattle.vsw_harbour.specs.Lanes.{fronts_of};

    ghost Value = { ShareSeen };

    ghost view = { λ s. record { number = s.number; docks = s.docks.now; histories = fronts_of pass_in s.row.items; row = s.row.items; packets = arc_value s.packets; first = s.first; picks = s.picks.items; next = s.next } };

    ghost invariant = { λ s. IsShare (record { number = s.number; docks = s.docks.now; histories = fronts_of pass_in s.row.items; row = s.row.items; packets = arc_value s.packets; first = s.first; picks = s.picks.items; next = s.next }) };
}

impl<'c, 'g, J: Naming, G> Share<'c, 'g, J, G> {
    /// The share of a worker, of which nothing is carried yet.
    pub(crate) fn new(
        number: u32,
        docks: &'c [Dock<'g, J, G>],
        row: Vec<Lane<Station>>,
        packets: Arc<Batch>,
        first: u32,
        picks: Vec<Pick>,
    ) -> Share<'c, 'g, J, G>
        requires { IsShare (share_of number docks.now row.items (arc_value packets) first picks.items) }
        ensures { result ≡ share_of number docks.now row.items (arc_value packets) first picks.items }
    {
        Share {
            number,
            docks,
            row,
            packets,
            first,
            picks,
            next: 0,
        }
    }
}

/// What is told of a share: the row, which has carried all, if there was memory.
#[derive(Drop)]
pub struct Carried {
    pub(crate) row: Option<Vec<Lane<Station>>>,
}

/// Carries the next packets of a share.
fn carry_piece<'c, 'g, J: Naming, G: Gate + Watch, R: Wait + Clock>(
    rt: &R,
    alloc: Global,
    gate: &G,
    share: Share<'c, 'g, J, G>,
) -> Worked<Share<'c, 'g, J, G>, Carried>
    ensures { Carries share.entry result }
{
    let Share {
        number,
        docks,
        row,
        packets,
        first,
        picks,
        next,
    } = share;
    let Ok(jobs) = jobs_of(alloc, number, first, &packets, picks.as_slice()) else {
        return Worked::Done(Carried { row: None });
    };
    let Ok(row) = carry_on(rt, alloc, number, docks, row, jobs, next, PIECE, gate) else {
        return Worked::Done(Carried { row: None });
    };
    if picks.len() - next as usize > PIECE as usize {
        return Worked::More(Share {
            number,
            docks,
            row,
            packets,
            first,
            picks,
            next: next + PIECE,
        });
    }
    Worked::Done(Carried { row: Some(row) })
}

/// Who carries the packets of shares, and tells the gate of each.
#[derive(Drop)]
pub struct Carrier<'g, G> {
    pub(crate) alloc: Global,
    pub(crate) gate: &'g G,
}

impl<'c, 'g, J: Naming, G: Gate + Watch> Hand<Share<'c, 'g, J, G>, Carried> for Carrier<'g, G> {
    ghost use Rattle.vsw_crew.specs.Shares.{GoesOn, DoesShare};

    ghost goes = { GoesOn };

    ghost does = { DoesShare };

    fn work<R: Wait + Clock>(
        &self,
        rt: &R,
        share: Share<'c, 'g, J, G>,
    ) -> Worked<Share<'c, 'g, J, G>, Carried> {
        carry_piece(rt, self.alloc, self.gate, share)
    }
}
