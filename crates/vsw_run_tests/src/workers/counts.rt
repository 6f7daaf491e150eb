//! A gate that counts each actor's jobs.

use std::sync::atomic::{AtomicU64, Ordering};
use vsw_app::{Answer, Watch};
use vsw_workers::Gate;

/// What a job adds where it is entered, and where it is left.
const ENTERED: u64 = 1;

const LEFT: u64 = 1_000_000;

/// How many jobs actors 0 to 5 have entered and left, each as one number, and at the end those of all others. Any thread may tell.
#[derive(Drop)]
pub struct Counts {
    words: [AtomicU64; 7],
}

impl Counts {
    pub fn new() -> Counts {
        Counts {
            words: [
                AtomicU64::new(0),
                AtomicU64::new(0),
                AtomicU64::new(0),
                AtomicU64::new(0),
                AtomicU64::new(0),
                AtomicU64::new(0),
                AtomicU64::new(0),
            ],
        }
    }

    /// What was told.
    pub fn told(&self) -> [u64; 7] {
        [
            self.words[0].load(Ordering::SeqCst),
            self.words[1].load(Ordering::SeqCst),
            self.words[2].load(Ordering::SeqCst),
            self.words[3].load(Ordering::SeqCst),
            self.words[4].load(Ordering::SeqCst),
            self.words[5].load(Ordering::SeqCst),
            self.words[6].load(Ordering::SeqCst),
        ]
    }

    fn add(&self, actor: u32, more: u64) {
        let place = actor.min(6) as usize;
        self.words[place].fetch_add(more, Ordering::SeqCst);
    }
}

impl Gate for Counts {
    fn enter(&self, actor: u32, _job: u32) {
        self.add(actor, ENTERED);
    }

    fn leave(&self, actor: u32, _job: u32) {
        self.add(actor, LEFT);
    }
}

impl Watch for Counts {
    fn answered(&self, _worker: u32, _packet: u32, _answer: &Answer) {}
}
