//! Rounds over gates: two actors at work at once, and what a gate is told.

ghost use Rattle.std.specs.Prelude.{take, drop, ◌≤◌};

use std::alloc::Global;
use std::sync::Wait;
use std::sync::atomic::{AtomicU64, Ordering};
use std::thread;
use vsw_workers::{Forwarder, Gate, do_some, run_round};

/// How often an actor looks for the other one before it gives up: seconds at least, as each look gives way to other threads.
const TURNS: u32 = 10_000_000;

/// Writes down three numbers, one a job.
#[derive(Drop)]
struct Clerk {
    number: u32,
    jobs: [u32; 3],
    place: usize,
    written: u32,
    ghost inside: { place ≤ 3 },
}

impl Forwarder for Clerk {
    type What = u32;

    type Job = u32;

    ghost what = { λ clerk. clerk.number };

    ghost done = { λ clerk. take clerk.place clerk.jobs };

    ghost todo = { λ clerk. drop clerk.place clerk.jobs };

    fn job<R: Wait>(&mut self, _rt: &R, _alloc: Global) -> bool {
        if self.place == 3 {
            return false;
        }
        self.written = self
            .written
            .wrapping_mul(10)
            .wrapping_add(self.jobs[self.place]);
        self.place += 1;
        true
    }

    fn left(&self) -> u32 {
        (3 - self.place) as u32
    }
}

fn new_clerk(number: u32, place: usize) -> Clerk
    requires { place ≤ 3 }
{
    Clerk {
        number,
        jobs: [1, 2, 3],
        place,
        written: 0,
    }
}

/// Where two actors wait for each other in their first jobs. Any thread may call it. An actor says that
/// it is here by one store, and has seen the other from the load on that reads the other's.
#[derive(Drop)]
struct Meeting {
    here: [AtomicU64; 2],
    saw: [AtomicU64; 2],
}

impl Gate for Meeting {
    fn enter(&self, actor: u32, job: u32) {
        if job > 0 || actor > 1 {
            return;
        }
        let place = actor as usize;
        self.here[place].store(1, Ordering::SeqCst);
        for _ in 0..TURNS {
            if self.here[1 - place].load(Ordering::SeqCst) == 1 {
                self.saw[place].store(1, Ordering::SeqCst);
                return;
            }
            thread::yield_now();
        }
    }

    fn leave(&self, _actor: u32, _job: u32) {}
}

#[test]
fn two_actors_see_each_other_in_their_first_jobs(rt: HostRuntime) {
    let meeting = Meeting {
        here: [AtomicU64::new(0), AtomicU64::new(0)],
        saw: [AtomicU64::new(0), AtomicU64::new(0)],
    };
    let mut clerks = [new_clerk(7, 0), new_clerk(8, 0)];
    run_round(&rt, rt.alloc(), &mut clerks, &meeting);
    let saw = [
        meeting.saw[0].load(Ordering::SeqCst),
        meeting.saw[1].load(Ordering::SeqCst),
    ];
    assert_eq!(rt; saw, [1, 1]);
}

/// Counts what it is told of three actors. Any thread may call it; each actor has words of its own, and
/// one store a call. `wrong` is set by a call out of order.
#[derive(Drop)]
struct Watch {
    entered: [AtomicU64; 3],
    left: [AtomicU64; 3],
    wrong: AtomicU64,
}

impl Watch {
    fn count(
        &self,
        words: &[AtomicU64; 3],
        others: &[AtomicU64; 3],
        actor: u32,
        job: u32,
        ahead: u64,
    ) {
        if actor > 2 {
            self.wrong.store(1, Ordering::SeqCst);
            return;
        }
        let place = actor as usize;
        let before = words[place].fetch_add(1, Ordering::SeqCst);
        let other = others[place].load(Ordering::SeqCst);
        if before != u64::from(job) || other != before.wrapping_add(ahead) {
            self.wrong.store(1, Ordering::SeqCst);
        }
    }
}

impl Gate for Watch {
    fn enter(&self, actor: u32, job: u32) {
        self.count(&self.entered, &self.left, actor, job, 0);
    }

    fn leave(&self, actor: u32, job: u32) {
        self.count(&self.left, &self.entered, actor, job, 1);
    }
}

fn words() -> [AtomicU64; 3] {
    [AtomicU64::new(0), AtomicU64::new(0), AtomicU64::new(0)]
}

fn read(words: &[AtomicU64; 3]) -> [u64; 3] {
    [
        words[0].load(Ordering::SeqCst),
        words[1].load(Ordering::SeqCst),
        words[2].load(Ordering::SeqCst),
    ]
}

#[test]
fn each_job_is_told_by_its_actors_place_and_its_number(rt: HostRuntime) {
    let watch = Watch {
        entered: words(),
        left: words(),
        wrong: AtomicU64::new(0),
    };
    let mut clerks = [new_clerk(7, 0), new_clerk(8, 3), new_clerk(9, 1)];
    run_round(&rt, rt.alloc(), &mut clerks, &watch);
    let written = [clerks[0].written, clerks[1].written, clerks[2].written];
    assert_eq!(rt; written, [123, 0, 23]);
    assert_eq!(rt; read(&watch.entered), [3, 0, 2]);
    assert_eq!(rt; read(&watch.left), [3, 0, 2]);
    assert_eq!(rt; watch.wrong.load(Ordering::SeqCst), 0);
}

#[test]
fn jobs_done_a_part_at_a_time_are_told_by_the_numbers_given(rt: HostRuntime) {
    let watch = Watch {
        entered: words(),
        left: words(),
        wrong: AtomicU64::new(0),
    };
    let mut clerk = new_clerk(9, 0);
    do_some(&rt, rt.alloc(), 2, 0, 2, &mut clerk, &watch);
    assert_eq!(rt; clerk.written, 12);
    assert_eq!(rt; read(&watch.left), [0, 0, 2]);
    do_some(&rt, rt.alloc(), 2, 2, 5, &mut clerk, &watch);
    assert_eq!(rt; clerk.written, 123);
    assert_eq!(rt; read(&watch.left), [0, 0, 3]);
    assert_eq!(rt; watch.wrong.load(Ordering::SeqCst), 0);
}

#[test]
fn a_round_of_no_actors_ends(rt: HostRuntime) {
    let watch = Watch {
        entered: words(),
        left: words(),
        wrong: AtomicU64::new(0),
    };
    let mut clerks: [Clerk; 0] = [];
    run_round(&rt, rt.alloc(), &mut clerks, &watch);
    assert_eq!(rt; read(&watch.entered), [0, 0, 0]);
}
