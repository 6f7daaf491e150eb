//! Hands in threads that stay.

use crate::{Adding, Counting};
use std::alloc::Global;
use std::sync::Wait;
use std::sync::atomic::AtomicU64;
use std::thread::Threads;
use std::time::Clock;
use vsw_base::NoMemory;
use vsw_hands::run_hands;

/// What came of so many rounds of so many shares, each of so many pieces, with so many threads beside the lead. Shares that are to meet wait
/// for each other.
fn run<R: Threads + Wait + Clock + Sync>(
    rt: &R,
    alloc: Global,
    threads: usize,
    rounds: u64,
    shares: u64,
    pieces: u64,
    meet: bool,
) -> Result<Counting, NoMemory> {
    let arrived = AtomicU64::new(0);
    let hand = Adding {
        arrived: &arrived,
        met: if meet { shares } else { 0 },
    };
    let mut lead = Counting {
        rounds,
        shares,
        pieces,
        told: 0,
        right: 0,
        met: 0,
    };
    let mut with = alloc;
    run_hands(rt, alloc, &hand, threads, &mut lead, &mut with)?;
    Ok(lead)
}

#[test]
fn sums_of_four_hands_are_right_and_in_order(rt: HostRuntime) {
    let went = run(&rt, rt.alloc(), 3, 500, 4, 20, false).expect(&rt, "memory");
    assert_eq!(rt; (went.told, went.right), (2_000, 2_000));
}

#[test]
fn lead_without_hands_does_all_work(rt: HostRuntime) {
    let went = run(&rt, rt.alloc(), 0, 50, 7, 10, false).expect(&rt, "memory");
    assert_eq!(rt; (went.told, went.right), (350, 350));
}

#[test]
fn share_of_many_pieces_is_told_once(rt: HostRuntime) {
    let went = run(&rt, rt.alloc(), 2, 3, 1, 10_000, false).expect(&rt, "memory");
    assert_eq!(rt; (went.told, went.right), (3, 3));
}

#[test]
fn hands_have_threads_of_their_own(rt: HostRuntime) {
    let went = run(&rt, rt.alloc(), 3, 20, 4, 1, true).expect(&rt, "memory");
    assert_eq!(rt; (went.told, went.right, went.met), (80, 80, 80));
}

#[test]
fn rounds_without_shares_tell_nothing(rt: HostRuntime) {
    let went = run(&rt, rt.alloc(), 2, 5, 0, 1, false).expect(&rt, "memory");
    assert_eq!(rt; (went.rounds, went.told), (5, 0));
}
