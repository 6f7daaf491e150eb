//! Pseudo-random crossings of layers that make pairs. Wherever no look of a row is shaken, a walk gives what
//! the row says.

ghost use Rattle.std.specs.Prelude.{◌<◌};

use crate::lean::layers::{add_hiding, add_tracking};
use crate::lean::packets::{FAR, FIRST, OWN, PUBLIC, SECOND, id, packet};
use crate::lean::rows::Rows;
use crate::lean::trial::Trial;
use std::alloc::Global;
use vsw_base::{BadShape, Control, Dir, Ufid};
use vsw_policy::Policy;

/// Draws of a linear congruential generator.
#[derive(Drop)]
struct Draws {
    last: u64,
}

impl Draws {
    /// A number below this one.
    fn next(&mut self, below: u64) -> u64
        requires some { 0 < below }
        ensures below { result < below }
    {
        self.last = self.last.wrapping_mul(1_103_515_245).wrapping_add(12_345) % 0x8000_0000;
        self.last / 0x1_0000 % below
    }

    /// An outbound packet of one of two hosts, or an inbound one to one of two addresses, with one of six ports
    /// on either side.
    fn id(&mut self) -> Result<Ufid, BadShape> {
        let far = (FAR, 78 + self.next(6) as u16);
        let port = self.next(6) as u16;
        let first = self.next(2) == 0;
        if self.next(2) == 0 {
            let host = if first { FIRST } else { SECOND };
            return id(Dir::Out, host, (OWN, port), far);
        }
        let own = if first { PUBLIC } else { OWN };
        id(Dir::In, FIRST, far, (own, port))
    }

    /// A control; half of the packets have none.
    fn control(&mut self) -> Control {
        match self.next(8) {
            0 => Control::Syn,
            1 => Control::SynAck,
            2 => Control::Fin,
            3 => Control::Rst,
            _ => Control::None,
        }
    }
}

/// Adds three layers, whose pairs live for some seconds.
fn add_three(alloc: Global, policy: &mut Policy) -> bool {
    add_tracking(alloc, policy, 10, (4, 1))
        && add_hiding(alloc, policy, 20, (8, 2))
        && add_tracking(alloc, policy, 30, (6, 6))
}

/// Makes rows of this many identities.
fn fill(rows: &mut Rows, trial: &mut Trial, draws: &mut Draws, count: u32) -> bool {
    for _ in 0..count {
        let Ok(id) = draws.id() else {
            return false;
        };
        if !rows.add(id) {
            return false;
        }
    }
    rows.renew(trial)
}

/// How many crossings changed the layers and shook no row, and how many shook one.
#[derive(Clone, Copy)]
struct Counts {
    quiet: u32,
    shaken: u32,
}

/// A crossing. Where a row is shaken, all are made anew; where none is, all are what a walk gives. None where
/// this isn't so.
fn step(
    trial: &mut Trial,
    rows: &mut Rows,
    draws: &mut Draws,
    moment: u64,
    counts: Counts,
) -> Option<Counts> {
    let Ok(id) = draws.id() else {
        return None;
    };
    let crossing = packet(&id, draws.control(), moment);
    let (changed, shaken) = trial.cross(&crossing, rows)?;
    let stands = if changed && shaken {
        rows.renew(trial)
    } else {
        rows.are_right(trial)
    };
    if !stands {
        return None;
    }
    Some(Counts {
        quiet: counts.quiet.saturating_add(u32::from(changed && !shaken)),
        shaken: counts.shaken.saturating_add(u32::from(changed && shaken)),
    })
}

/// So many crossings, at most 0.2 seconds apart.
fn cross(trial: &mut Trial, rows: &mut Rows, draws: &mut Draws, crossings: u32) -> Option<Counts> {
    let mut moment = 0_u64;
    let mut counts = Counts {
        quiet: 0,
        shaken: 0,
    };
    for _ in 0..crossings {
        moment = moment.saturating_add(draws.next(200_000));
        counts = step(trial, rows, draws, moment, counts)?;
    }
    Some(counts)
}

/// So many crossings of three layers, beside eight rows.
fn try_rows(alloc: Global, trial: &mut Trial, crossings: u32) -> Option<Counts> {
    let mut draws = Draws { last: 1 };
    let mut rows = Rows::new(alloc);
    if add_three(alloc, &mut trial.policy) && fill(&mut rows, trial, &mut draws, 8) {
        cross(trial, &mut rows, &mut draws, crossings)
    } else {
        None
    }
}

/// Whether each row was right, and enough crossings shook one and shook none.
fn are_right(alloc: Global, crossings: u32) -> bool {
    let Some(mut trial) = Trial::new(alloc) else {
        return false;
    };
    match try_rows(alloc, &mut trial, crossings) {
        Some(counts) => counts.shaken > 100 && counts.quiet > 100,
        None => false,
    }
}

#[test]
fn rows_that_are_not_shaken_stay_right(rt: HostRuntime) {
    assert!(&rt; are_right(rt.alloc(), 100_000));
}
