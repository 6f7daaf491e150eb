//! A watch that looks whether the rounds of a run follow each other.

use std::sync::atomic::{AtomicU64, Ordering};
use std::thread;
use vsw_app::{Answer, Watch};
use vsw_workers::Gate;

/// How many packets a round has.
pub const ROUND: u32 = 100;

/// How often the worker of a round's first packet gives way to others before it has told its answer.
const TURNS: u32 = 20_000;

/// How many packets of each of four rounds were answered, and how many answers came while one of the round before was wanting. Any thread may tell.
#[derive(Drop)]
pub struct RoundsApart {
    answered: [AtomicU64; 4],
    early: AtomicU64,
}

impl RoundsApart {
    pub fn new() -> RoundsApart {
        RoundsApart {
            answered: [
                AtomicU64::new(0),
                AtomicU64::new(0),
                AtomicU64::new(0),
                AtomicU64::new(0),
            ],
            early: AtomicU64::new(0),
        }
    }

    /// How many packets of each round were answered.
    pub fn answered_by_round(&self) -> [u64; 4] {
        [
            self.answered[0].load(Ordering::SeqCst),
            self.answered[1].load(Ordering::SeqCst),
            self.answered[2].load(Ordering::SeqCst),
            self.answered[3].load(Ordering::SeqCst),
        ]
    }

    /// How many answers came too early.
    pub fn early(&self) -> u64 {
        self.early.load(Ordering::SeqCst)
    }

    /// Whether all packets of the round before this one were answered.
    fn is_begun(&self, round: usize) -> bool {
        match round.checked_sub(1) {
            None => true,
            Some(before) => match self.answered.get(before) {
                None => false,
                Some(count) => count.load(Ordering::SeqCst) == u64::from(ROUND),
            },
        }
    }
}

impl Gate for RoundsApart {
    fn enter(&self, _actor: u32, _job: u32) {}

    fn leave(&self, _actor: u32, _job: u32) {}
}

impl Watch for RoundsApart {
    fn answered(&self, _worker: u32, packet: u32, _answer: &Answer) {
        let round = (packet / ROUND) as usize;
        if !self.is_begun(round) {
            self.early.fetch_add(1, Ordering::SeqCst);
        }
        if packet % ROUND == 0 {
            for _ in 0..TURNS {
                thread::yield_now();
            }
        }
        if let Some(count) = self.answered.get(round) {
            count.fetch_add(1, Ordering::SeqCst);
        }
    }
}
