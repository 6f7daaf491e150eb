//! A gate at which the feeder of a streamed round waits for a worker.

use std::sync::atomic::{AtomicU64, Ordering};
use std::thread;
use vsw_app::{Answer, Watch};
use vsw_workers::Gate;

/// How often the feeder looks for a worker before it gives up: seconds at least, as each look gives way to other threads.
const TURNS: u32 = 10_000_000;

/// How often it looks for one more job.
const MORE: u32 = 100_000;

/// Where the feeder, which is actor 0, waits in front of its second job until an actor behind it has left a job. Any thread may call it. An actor says
/// that it has by one add, and the feeder has seen it from the load on that finds it. Only the round's first packet was handed over then, so
/// there is one such job; where all packets of the round are dealt before the workers begin there are more.
#[derive(Drop)]
pub struct Waiting {
    left: AtomicU64,
    seen: AtomicU64,
}

impl Waiting {
    pub fn new() -> Waiting {
        Waiting {
            left: AtomicU64::new(0),
            seen: AtomicU64::new(0),
        }
    }

    /// How many jobs the feeder has seen of the actors behind it.
    pub fn seen(&self) -> u64 {
        self.seen.load(Ordering::SeqCst)
    }

    /// Looks so often at most whether more jobs than these were left.
    fn look(&self, turns: u32, jobs: u64) {
        for _ in 0..turns {
            if self.left.load(Ordering::SeqCst) > jobs {
                return;
            }
            thread::yield_now();
        }
    }
}

impl Gate for Waiting {
    fn enter(&self, actor: u32, job: u32) {
        if actor != 0 || job != 1 {
            return;
        }
        self.look(TURNS, 0);
        self.look(MORE, 1);
        let seen = self.left.load(Ordering::SeqCst);
        self.seen.fetch_add(seen, Ordering::SeqCst);
    }

    fn leave(&self, actor: u32, _job: u32) {
        if actor != 0 {
            self.left.fetch_add(1, Ordering::SeqCst);
        }
    }
}

impl Watch for Waiting {
    fn answered(&self, _worker: u32, _packet: u32, _answer: &Answer) {}
}
