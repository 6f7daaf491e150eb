//! Ports that have memory for no command.

use std::alloc::Global;
use std::sync::Wait;
use std::sync::atomic::{AtomicU64, Ordering};
use vsw_actors::{Port, RowPort};
use vsw_base::NoMemory;

/// A port that has memory for no command. Any thread may use it. It counts how many rows were reconciled, and keeps the last one's
/// number; each is one step on an atomic word.
#[derive(Drop)]
pub struct Refusing {
    pub number: u16,
    pub rows: u32,
    pub reconciled: AtomicU64,
    pub last: AtomicU64,
}

impl Refusing {
    pub fn new(number: u16, rows: u32) -> Refusing {
        Refusing {
            number,
            rows,
            reconciled: AtomicU64::new(0),
            last: AtomicU64::new(0),
        }
    }
}

impl RowPort for Refusing {
    ghost row_count = { λ p. p.rows };

    fn rows(&self) -> u32 {
        self.rows
    }

    fn reconcile<R: Wait>(&self, _rt: &R, row: u32) {
        self.reconciled.fetch_add(1, Ordering::SeqCst);
        self.last.store(u64::from(row), Ordering::SeqCst);
    }
}

/// The numbers of the first four lines that an actor asked there.
#[derive(Drop)]
pub struct Notes {
    pub asked: [u32; 4],
    pub count: usize,
}

/// Writes down a line's number.
fn note(station: &mut Notes, line: u32) {
    if station.count < 4 {
        station.asked[station.count] = line;
        station.count += 1;
    }
}

/// These ports hand nothing on. A parcel, if one came, would be a line once more.
impl Port<u32> for Refusing {
    ghost use Rattle.vsw_round_tests.specs.Refusing.{asked, fits, holds, is_of, locals, parcel_in, pass, permits, port, takes, tells};

    type Station = Notes;

    type Parcel = u32;

    ghost port_in = { port };

    ghost locals = { locals };

    ghost pass_in = { pass };

    ghost job_in = { asked };

    ghost tells = { tells };

    ghost is_of = { is_of };

    ghost permits = { permits };

    ghost takes = { takes };

    ghost fits = { fits };

    ghost holds = { holds };

    ghost parcel_in = { parcel_in };

    fn parcel(_alloc: Global, _ports: &[Self]) -> Result<u32, NoMemory> {
        Ok(0)
    }

    fn work<R: Wait>(
        &self,
        _rt: &R,
        _alloc: Global,
        station: &mut Notes,
        _place: usize,
        job: &u32,
        _parcel: &mut u32,
    ) -> bool {
        note(station, *job);
        false
    }

    fn receive<R: Wait>(&self, _rt: &R, _alloc: Global, station: &mut Notes, parcel: &u32) {
        note(station, *parcel);
    }

    fn place(_parcel: &u32) -> usize {
        0
    }
}
