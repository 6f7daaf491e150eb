//! A gate at which so many actors wait for each other.

use std::sync::atomic::{AtomicU64, Ordering};
use std::thread;
use vsw_app::{Answer, Watch};
use vsw_workers::Gate;

/// How often an actor looks for the others before it gives up: seconds at least, as each look gives way to the threads that haven't begun.
const TURNS: u32 = 10_000_000;

/// Where the first so many actors wait for each other in their first jobs. Any thread may call it. An actor says that it is here by one
/// add, and has seen all others from the load on that reads how many there are. One thread that does the jobs of two never sees all.
#[derive(Drop)]
pub struct Meeting {
    actors: u32,
    here: AtomicU64,
    met: AtomicU64,
}

impl Meeting {
    /// For so many actors.
    pub fn of(actors: u32) -> Meeting {
        Meeting {
            actors,
            here: AtomicU64::new(0),
            met: AtomicU64::new(0),
        }
    }

    /// How many of them have seen all others.
    pub fn met(&self) -> u64 {
        self.met.load(Ordering::SeqCst)
    }
}

impl Gate for Meeting {
    fn enter(&self, actor: u32, job: u32) {
        if job > 0 || actor >= self.actors {
            return;
        }
        self.here.fetch_add(1, Ordering::SeqCst);
        for _ in 0..TURNS {
            if self.here.load(Ordering::SeqCst) == u64::from(self.actors) {
                self.met.fetch_add(1, Ordering::SeqCst);
                return;
            }
            thread::yield_now();
        }
    }

    fn leave(&self, _actor: u32, _job: u32) {}
}

impl Watch for Meeting {
    fn answered(&self, _worker: u32, _packet: u32, _answer: &Answer) {}
}
