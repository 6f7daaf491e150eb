//! A host that waits for workers while the trace is read on, and the gate that tells it of them.

ghost use Rattle.vsw_host.specs.Memory.{outside};

use std::sync::atomic::{AtomicU64, Ordering};
use std::thread;
use vsw_app::{Answer, Watch};
use vsw_host::{Failed, Host, MemoryHost};
use vsw_workers::Gate;

/// How often a read looks for a worker in a job before it gives up: seconds at least, as each look gives way to other threads.
const TURNS: u32 = 10_000_000;

/// How often a worker looks, in the first job of its share, for a read that has seen one.
const MORE: u32 = 100_000;

/// The trace is the third file that is opened.
const TRACE: u32 = 2;

/// Who is in a job, and how many reads have seen one. Any thread may call it. A worker is in a job from one add on up to a subtraction.
#[derive(Drop)]
pub struct ReadingOn {
    inside: AtomicU64,
    seen: AtomicU64,
}

impl ReadingOn {
    pub fn new() -> ReadingOn {
        ReadingOn {
            inside: AtomicU64::new(0),
            seen: AtomicU64::new(0),
        }
    }

    /// How many reads have seen a worker in a job.
    pub fn seen(&self) -> u64 {
        self.seen.load(Ordering::SeqCst)
    }

    /// Waits for a worker that is in a job.
    fn look(&self) {
        for _ in 0..TURNS {
            if self.inside.load(Ordering::SeqCst) > 0 {
                self.seen.fetch_add(1, Ordering::SeqCst);
                return;
            }
            thread::yield_now();
        }
    }
}

impl Gate for ReadingOn {
    fn enter(&self, _actor: u32, job: u32) {
        self.inside.fetch_add(1, Ordering::SeqCst);
        if job > 0 {
            return;
        }
        for _ in 0..MORE {
            if self.seen() > 0 {
                return;
            }
            thread::yield_now();
        }
    }

    fn leave(&self, _actor: u32, _job: u32) {
        self.inside.fetch_sub(1, Ordering::SeqCst);
    }
}

impl Watch for ReadingOn {
    fn answered(&self, _worker: u32, _packet: u32, _answer: &Answer) {}
}

/// A host in memory, one read of whose trace waits for a worker.
#[derive(Drop)]
pub struct WaitingHost<'a> {
    pub host: MemoryHost,
    pub gate: &'a ReadingOn,
    /// Reads of the trace up to the one that waits.
    pub left: u32,
}

impl<'a> Host for WaitingHost<'a> {
    ghost outside = { λ h. outside h.host };

    fn open(&mut self, name: &str) -> Result<u32, Failed> {
        self.host.open(name)
    }

    fn read(&mut self, file: u32, buffer: &mut [u8]) -> Result<usize, Failed> {
        if file == TRACE {
            if self.left == 1 {
                self.gate.look();
            }
            self.left = self.left.saturating_sub(1);
        }
        self.host.read(file, buffer)
    }

    fn put(&mut self, bytes: &[u8]) -> Result<(), Failed> {
        self.host.put(bytes)
    }

    fn complain(&mut self, bytes: &[u8]) -> Result<(), Failed> {
        self.host.complain(bytes)
    }
}
