//! A watch that writes down what it is told.

use std::alloc::{AllocError, Global};
use std::sync::atomic::{AtomicU64, Ordering};
use vsw_app::{Answer, Watch, Why};
use vsw_base::Fate;
use vsw_workers::Gate;

/// What was told of each packet, as one number. Any thread may tell. A packet's number is there from one add on; more adds show, since each counts.
#[derive(Drop)]
pub struct Notes {
    words: Vec<AtomicU64>,
    /// Of how many packets it was told that have no word.
    lost: AtomicU64,
}

/// Why no row answered: 0 where one did.
fn why_of(answer: &Answer) -> u64 {
    match answer.why() {
        None => 0,
        Some(Why::Control) => 1,
        Some(Why::Miss) => 2,
        Some(Why::Late) => 3,
        Some(Why::Light) => 4,
    }
}

/// The length of a packet that passed, else 0.
fn length_of(answer: &Answer) -> u64 {
    match answer.fate() {
        Fate::Pass { len } => u64::from(len),
        Fate::Drop(_) => 0,
    }
}

/// What is told, in decimal digits: from the last on one for that it was told, one for why, one for an entry, two for the worker,
/// five for the length, and the count.
fn note_of(worker: u32, answer: &Answer) -> u64 {
    let entry = if answer.entry() { 100 } else { 0 };
    1u64.wrapping_add(why_of(answer).wrapping_mul(10))
        .wrapping_add(entry)
        .wrapping_add(u64::from(worker).wrapping_mul(1_000))
        .wrapping_add(length_of(answer).wrapping_mul(100_000))
        .wrapping_add(u64::from(answer.count()).wrapping_mul(10_000_000_000))
}

impl Notes {
    /// Nothing is told of so many packets.
    pub fn new(alloc: Global, packets: u32) -> Result<Notes, AllocError> {
        let mut words = Vec::new(alloc);
        for _ in 0..packets {
            words.push(AtomicU64::new(0))?;
        }
        let lost = AtomicU64::new(0);
        Ok(Notes { words, lost })
    }

    /// What was told of a packet.
    pub fn told(&self, packet: u32) -> u64 {
        match self.words.get(packet as usize) {
            Some(word) => word.load(Ordering::SeqCst),
            None => 0,
        }
    }

    /// Whether nothing was told of other packets.
    pub fn is_whole(&self) -> bool {
        self.lost.load(Ordering::SeqCst) == 0
    }
}

impl Gate for Notes {
    fn enter(&self, _actor: u32, _job: u32) {}

    fn leave(&self, _actor: u32, _job: u32) {}
}

impl Watch for Notes {
    fn answered(&self, worker: u32, packet: u32, answer: &Answer) {
        let word = match self.words.get(packet as usize) {
            Some(word) => word,
            None => &self.lost,
        };
        word.fetch_add(note_of(worker, answer), Ordering::SeqCst);
    }
}
