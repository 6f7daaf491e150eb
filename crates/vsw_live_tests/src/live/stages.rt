//! How far two threads have come that wait for each other.

use std::sync::Wait;
use std::sync::atomic::{AtomicU64, Ordering};

/// A row was left for the packets that follow.
pub const LEFT: u64 = 1;

/// The port's lock is held.
pub const HELD: u64 = 2;

/// A packet has asked the rows.
pub const ASKED: u64 = 3;

/// The stage that was reached last.
#[derive(Drop)]
pub struct Stages {
    last: AtomicU64,
}

impl Stages {
    /// None was reached.
    pub fn new() -> Stages {
        Stages {
            last: AtomicU64::new(0),
        }
    }

    /// This one is reached.
    pub fn reach(&self, stage: u64) {
        self.last.fetch_max(stage, Ordering::SeqCst);
    }

    /// Waits until this one is.
    pub fn wait_for<R: Wait>(&self, rt: &R, stage: u64) {
        for _ in rt.forever() {
            if self.last.load(Ordering::SeqCst) >= stage {
                return;
            }
        }
    }
}
