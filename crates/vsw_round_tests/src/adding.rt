//! A hand that adds numbers up, and a lead that looks at the sums.

ghost use Rattle.std.specs.Prelude.{◌≡◌};
ghost use Rattle.vsw_hands.specs.Hands.{Works};
ghost use Rattle.vsw_round_tests.specs.Adding.{IsOf, IsSumOf};

use std::alloc::Global;
use std::sync::Wait;
use std::sync::atomic::{AtomicU64, Ordering};
use std::thread;
use std::time::Clock;
use vsw_hands::{Hand, Lead, Pool, Roll, Worked};

/// A share: the numbers from `left` down to 1 are to be added to `sum`, one a piece.
#[derive(Clone, Copy, Debug, PartialEq, Eq)]
pub struct Part {
    pub round: u64,
    pub place: u64,
    pub left: u64,
    pub sum: u64,
}

/// What is told of a share: its sum, and whether as many threads as there ought to be were at the round's shares at once.
#[derive(Clone, Copy, Debug, PartialEq, Eq)]
pub struct Sum {
    pub round: u64,
    pub place: u64,
    pub sum: u64,
    pub met: bool,
}

/// Adds up. Where a round's shares are `met` many, each ends only while all others are at work, or after a long wait.
#[derive(Drop)]
pub struct Adding<'a> {
    pub arrived: &'a AtomicU64,
    pub met: u64,
}

impl<'a> Adding<'a> {
    /// Waits until all shares of a round have come here, for a while. Whether they have.
    fn meet(&self, round: u64) -> bool {
        let wanted = round.wrapping_add(1).wrapping_mul(self.met);
        let _ = self.arrived.fetch_add(1, Ordering::SeqCst);
        for _ in 0..20_000_000u32 {
            if self.arrived.load(Ordering::SeqCst) >= wanted {
                return true;
            }
            thread::yield_now();
        }
        false
    }
}

impl<'a> Hand<Part, Sum> for Adding<'a> {
    ghost use Rattle.vsw_round_tests.specs.Adding.{IsOf, IsSumOf};

    ghost goes = { IsOf };

    ghost does = { IsSumOf };

    fn work<R: Wait + Clock>(&self, _rt: &R, share: Part) -> Worked<Part, Sum> {
        if share.left != 0 {
            return Worked::More(Part {
                round: share.round,
                place: share.place,
                left: share.left - 1,
                sum: share.sum.wrapping_add(share.left),
            });
        }
        let met = self.met == 0 || self.meet(share.round);
        Worked::Done(Sum {
            round: share.round,
            place: share.place,
            sum: share.sum,
            met,
        })
    }
}

/// Leads through rounds of so many shares of so many pieces.
#[derive(Clone, Copy, Debug, PartialEq, Eq)]
pub struct Counting {
    pub rounds: u64,
    pub shares: u64,
    pub pieces: u64,
    /// How many sums were told, and how many of them were right and stood at the place of their share.
    pub told: u64,
    pub right: u64,
    /// How many were told by hands that met.
    pub met: u64,
}

impl Counting {
    /// Looks at what was told of a round.
    fn look(&mut self, round: u64, sums: &Vec<Sum>)
        ensures { self.new.rounds ≡ self.old.rounds }
    {
        let wanted = self.pieces.wrapping_mul(self.pieces.wrapping_add(1)) / 2;
        let mut place: u64 = 0;
        for sum in sums.iter() {
            self.told = self.told.wrapping_add(1);
            if sum.round == round && sum.place == place && sum.sum == wanted {
                self.right = self.right.wrapping_add(1);
            }
            if sum.met {
                self.met = self.met.wrapping_add(1);
            }
            place = place.wrapping_add(1);
        }
    }
}

/// Gives the shares of a round, and looks at what is told. False if memory is wanting.
fn lead_round<R: Wait + Clock, B: Roll>(
    rt: &R,
    alloc: Global,
    counting: &mut Counting,
    round: u64,
    pool: &mut Pool<'_, Part, Sum, Adding<'_>, B>,
) -> bool
    ensures { counting.new.rounds ≡ counting.old.rounds }
{
    for place in 0..counting.shares {
        let part = Part {
            round,
            place,
            left: counting.pieces,
            sum: 0,
        };
        if pool.give(rt, part).is_err() {
            return false;
        }
    }
    match pool.take(rt, alloc) {
        Ok(sums) => {
            counting.look(round, &sums);
            true
        }
        Err(_) => false,
    }
}

impl<'a> Lead<Global, Part, Sum, Adding<'a>> for Counting {
    ghost may = { λ lead thing. Unit {0} };

    ghost leads = { λ before thing after later. after.rounds ≡ before.rounds };

    fn lead<R: Wait + Clock, B: Roll>(
        &mut self,
        rt: &R,
        with: &mut Global,
        pool: &mut Pool<'_, Part, Sum, Adding<'a>, B>,
    ) {
        let alloc = *with;
        for round in 0..self.rounds {
            if !lead_round(rt, alloc, self, round, pool) {
                return;
            }
        }
    }
}
