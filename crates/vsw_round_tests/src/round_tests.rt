//! What three workers have carried after a round.

ghost use Rattle.std.specs.Prelude.{◌≡◌, ◌∷◌, [], IfSome, IfOk, Vec, length};
ghost use Rattle.vsw_actors.specs.declared.actor.Placed.{Placed};
ghost use Rattle.vsw_actors.specs.declared.lane.Lane.{Lane};
ghost use Rattle.vsw_round_tests.specs.Carrying.{AreThreeRows, AreThreeShares, IsRow, IsShare};

use crate::carrying::{Load, Packet};
use crate::refusing::Refusing;
use std::alloc::Global;
use std::sync::Wait;
use std::sync::atomic::{AtomicU64, Ordering};
use std::thread::Threads;
use vsw_actors::{Lane, Lineup, Placed, run_rows};
use vsw_workers::Gate;

/// Holds nobody up. Any thread may call it.
#[derive(Drop)]
struct Open;

impl Gate for Open {
    fn enter(&self, _actor: u32, _job: u32) {}

    fn leave(&self, _actor: u32, _job: u32) {}
}

/// Counts the jobs of each actor. Any thread may call it; a call is one step on an atomic word.
#[derive(Drop)]
struct Counting {
    jobs: [AtomicU64; 5],
}

impl Gate for Counting {
    fn enter(&self, actor: u32, _job: u32) {
        if let Some(jobs) = self.jobs.get(actor as usize) {
            jobs.fetch_add(1, Ordering::SeqCst);
        }
    }

    fn leave(&self, _actor: u32, _job: u32) {}
}

fn new_counting() -> Counting {
    Counting {
        jobs: [
            AtomicU64::new(0),
            AtomicU64::new(0),
            AtomicU64::new(0),
            AtomicU64::new(0),
            AtomicU64::new(0),
        ],
    }
}

/// A lane on which this worker has carried nothing.
fn new_lane(worker: u32) -> Lane<Load>
    ensures worker { result.station.worker ≡ worker }
    ensures base { result.base ≡ 0 }
{
    Lane {
        station: Load {
            worker,
            carried: [0; 4],
            count: 0,
        },
        base: 0,
    }
}

fn new_row(alloc: Global, worker: u32) -> Option<Vec<Lane<Load>>>
    ensures { IfSome result (λ v. IsRow worker v.items) }
{
    let mut row = Vec::with_capacity(alloc, 2).ok()?;
    row.push_reserved(new_lane(worker));
    row.push_reserved(new_lane(worker));
    Some(row)
}

fn three_rows(alloc: Global) -> Option<Vec<Vec<Lane<Load>>>>
    ensures { IfSome result (λ v. AreThreeRows v.items) }
{
    let mut rows = Vec::with_capacity(alloc, 3).ok()?;
    rows.push_reserved(new_row(alloc, 0)?);
    rows.push_reserved(new_row(alloc, 1)?);
    rows.push_reserved(new_row(alloc, 2)?);
    Some(rows)
}

fn placed(worker: u32, place: usize, number: u32) -> Placed<Packet>
    ensures worker { result.job.worker ≡ worker }
    ensures place { result.place ≡ place }
{
    Placed {
        place,
        job: Packet { worker, number },
    }
}

/// Three packets that a worker brings: the first and the last to the second port, the other to the first.
fn new_share(alloc: Global, worker: u32, numbers: [u32; 3]) -> Option<Vec<Placed<Packet>>>
    ensures { IfSome result (λ v. IsShare worker v.items) }
{
    let mut share = Vec::with_capacity(alloc, 3).ok()?;
    share.push_reserved(placed(worker, 1, numbers[0]));
    share.push_reserved(placed(worker, 0, numbers[1]));
    share.push_reserved(placed(worker, 1, numbers[2]));
    Some(share)
}

/// The third worker brings nothing.
fn two_shares(alloc: Global) -> Option<Vec<Vec<Placed<Packet>>>>
    ensures { IfSome result (λ v. AreThreeShares v.items) }
{
    let mut shares = Vec::with_capacity(alloc, 3).ok()?;
    shares.push_reserved(new_share(alloc, 0, [10, 11, 12])?);
    shares.push_reserved(new_share(alloc, 1, [20, 21, 22])?);
    shares.push_reserved(Vec::new(alloc));
    Some(shares)
}

/// The first worker brings nothing.
fn last_shares(alloc: Global) -> Option<Vec<Vec<Placed<Packet>>>>
    ensures { IfSome result (λ v. AreThreeShares v.items) }
{
    let mut shares = Vec::with_capacity(alloc, 3).ok()?;
    shares.push_reserved(Vec::new(alloc));
    shares.push_reserved(new_share(alloc, 1, [20, 21, 22])?);
    shares.push_reserved(new_share(alloc, 2, [30, 31, 32])?);
    Some(shares)
}

fn three_shares(alloc: Global) -> Option<Vec<Vec<Placed<Packet>>>>
    ensures { IfSome result (λ v. AreThreeShares v.items) }
{
    let mut shares = Vec::with_capacity(alloc, 3).ok()?;
    shares.push_reserved(new_share(alloc, 0, [10, 11, 12])?);
    shares.push_reserved(new_share(alloc, 1, [20, 21, 22])?);
    shares.push_reserved(new_share(alloc, 2, [30, 31, 32])?);
    Some(shares)
}

/// A round of three workers at two ports.
fn round<R: Threads + Wait + Sync, G: Gate + Sync>(
    rt: &R,
    alloc: Global,
    ports: &[Refusing],
    shares: Vec<Vec<Placed<Packet>>>,
    lineup: Lineup,
    gate: &G,
) -> Option<Vec<Vec<Lane<Load>>>>
    requires ports { length ports.now ≡ 2 }
    requires shares { AreThreeShares shares.items }
{
    let rows = three_rows(alloc)?;
    run_rows(rt, alloc, ports, rows, shares, lineup, gate).ok()
}

/// The first round of so many workers and controllers.
fn lineup(workers: usize, controllers: usize) -> Lineup {
    Lineup {
        workers,
        controllers,
        round: 0,
        fewest: 1,
    }
}

/// What a worker carried at the port at a place, with zeros behind it; nines for no worker and no port.
fn carried_at(rows: &[Vec<Lane<Load>>], worker: usize, place: usize) -> [u32; 4] {
    let Some(row) = rows.get(worker) else {
        return [9; 4];
    };
    match row.get(place) {
        Some(lane) => lane.station.carried,
        None => [9; 4],
    }
}

/// What three workers carried at two ports.
fn carried_by_all(rows: &[Vec<Lane<Load>>]) -> [[u32; 4]; 6] {
    [
        carried_at(rows, 0, 0),
        carried_at(rows, 0, 1),
        carried_at(rows, 1, 0),
        carried_at(rows, 1, 1),
        carried_at(rows, 2, 0),
        carried_at(rows, 2, 1),
    ]
}

const TWO: [[u32; 4]; 6] = [
    [11, 0, 0, 0],
    [10, 12, 0, 0],
    [21, 0, 0, 0],
    [20, 22, 0, 0],
    [0, 0, 0, 0],
    [0, 0, 0, 0],
];

const THREE: [[u32; 4]; 6] = [
    [11, 0, 0, 0],
    [10, 12, 0, 0],
    [21, 0, 0, 0],
    [20, 22, 0, 0],
    [31, 0, 0, 0],
    [30, 32, 0, 0],
];

#[test]
fn two_busy_workers_carry_all(rt: HostRuntime) {
    let ports = [Refusing::new(1, 0), Refusing::new(2, 0)];
    let shares = two_shares(rt.alloc()).expect(&rt, "memory");
    let rows = round(&rt, rt.alloc(), &ports, shares, lineup(2, 0), &Open).expect(&rt, "memory");
    assert_eq!(rt; carried_by_all(&rows), TWO);
}

#[test]
fn all_workers_carry_if_none_may_rest(rt: HostRuntime) {
    let ports = [Refusing::new(1, 0), Refusing::new(2, 0)];
    let shares = three_shares(rt.alloc()).expect(&rt, "memory");
    let rows = round(&rt, rt.alloc(), &ports, shares, lineup(3, 0), &Open).expect(&rt, "memory");
    assert_eq!(rt; carried_by_all(&rows), THREE);
}

#[test]
fn a_worker_behind_the_busy_ones_carries_its_packets(rt: HostRuntime) {
    let ports = [Refusing::new(1, 0), Refusing::new(2, 0)];
    let shares = three_shares(rt.alloc()).expect(&rt, "memory");
    let rows = round(&rt, rt.alloc(), &ports, shares, lineup(2, 0), &Open).expect(&rt, "memory");
    assert_eq!(rt; carried_by_all(&rows), THREE);
}

/// How many jobs the gate was told of by each actor of a round at ports of 10 and 600 rows.
fn counted<R: Threads + Wait + Sync>(
    rt: &R,
    alloc: Global,
    shares: Vec<Vec<Placed<Packet>>>,
    lineup: Lineup,
) -> Option<[u64; 5]>
    requires shares { AreThreeShares shares.items }
{
    let ports = [Refusing::new(1, 10), Refusing::new(2, 600)];
    let counting = new_counting();
    let _rows = round(rt, alloc, &ports, shares, lineup, &counting)?;
    Some([
        counting.jobs[0].load(Ordering::SeqCst),
        counting.jobs[1].load(Ordering::SeqCst),
        counting.jobs[2].load(Ordering::SeqCst),
        counting.jobs[3].load(Ordering::SeqCst),
        counting.jobs[4].load(Ordering::SeqCst),
    ])
}

#[test]
fn reconciler_stands_behind_controllers_without_jobs(rt: HostRuntime) {
    let shares = two_shares(rt.alloc()).expect(&rt, "memory");
    let jobs = counted(&rt, rt.alloc(), shares, lineup(2, 1)).expect(&rt, "memory");
    assert_eq!(rt; jobs, [3, 3, 0, 266, 0]);
}

#[test]
fn controllers_stand_behind_the_workers_that_are_asked_for(rt: HostRuntime) {
    let shares = three_shares(rt.alloc()).expect(&rt, "memory");
    let jobs = counted(&rt, rt.alloc(), shares, lineup(1, 1)).expect(&rt, "memory");
    assert_eq!(rt; jobs, [3, 3, 266, 0, 0]);
}

#[test]
fn actors_of_a_round_without_packets_are_told_by_the_same_numbers(rt: HostRuntime) {
    let shares = last_shares(rt.alloc()).expect(&rt, "memory");
    let jobs = counted(&rt, rt.alloc(), shares, lineup(1, 2)).expect(&rt, "memory");
    assert_eq!(rt; jobs, [0, 3, 3, 266, 0]);
}

/// Where the actors behind the first one, two of them, wait for each other in their first jobs. Any thread may call it. An actor says that it is here
/// by one store, and has seen the other from the load on that reads the other's.
#[derive(Drop)]
struct Meeting {
    /// How often an actor looks for the other one before it gives up.
    turns: u32,
    here: [AtomicU64; 2],
    saw: [AtomicU64; 2],
}

impl Gate for Meeting {
    fn enter(&self, actor: u32, job: u32) {
        if job > 0 || actor == 0 || actor > 2 {
            return;
        }
        let place = actor as usize - 1;
        self.here[place].store(1, Ordering::SeqCst);
        for _ in 0..self.turns {
            if self.here[1 - place].load(Ordering::SeqCst) == 1 {
                self.saw[place].store(1, Ordering::SeqCst);
                return;
            }
        }
    }

    fn leave(&self, _actor: u32, _job: u32) {}
}

/// Which of the two actors behind the first one saw the other in such a round of one worker and two controllers.
fn seen<R: Threads + Wait + Sync>(
    rt: &R,
    alloc: Global,
    shares: Vec<Vec<Placed<Packet>>>,
    lineup: Lineup,
    turns: u32,
) -> Option<[u64; 2]>
    requires shares { AreThreeShares shares.items }
{
    let ports = [Refusing::new(1, 0), Refusing::new(2, 0)];
    let meeting = Meeting {
        turns,
        here: [AtomicU64::new(0), AtomicU64::new(0)],
        saw: [AtomicU64::new(0), AtomicU64::new(0)],
    };
    let _rows = round(rt, alloc, &ports, shares, lineup, &meeting)?;
    Some([
        meeting.saw[0].load(Ordering::SeqCst),
        meeting.saw[1].load(Ordering::SeqCst),
    ])
}

#[test]
fn controllers_beside_packets_see_each_other(rt: HostRuntime) {
    let shares = three_shares(rt.alloc()).expect(&rt, "memory");
    let saw = seen(&rt, rt.alloc(), shares, lineup(1, 2), 100_000_000).expect(&rt, "memory");
    assert_eq!(rt; saw, [1, 1]);
}

/// The first controller is done before the second begins: it looks in vain.
#[test]
fn controllers_without_packets_beside_them_take_turns(rt: HostRuntime) {
    let shares = last_shares(rt.alloc()).expect(&rt, "memory");
    let saw = seen(&rt, rt.alloc(), shares, lineup(1, 2), 1_000_000).expect(&rt, "memory");
    assert_eq!(rt; saw, [0, 1]);
}

/// The worker has three packets.
fn lineup_from(fewest: u32) -> Lineup {
    Lineup {
        workers: 1,
        controllers: 2,
        round: 0,
        fewest,
    }
}

#[test]
fn controllers_beside_as_many_packets_as_are_asked_for_see_each_other(rt: HostRuntime) {
    let shares = three_shares(rt.alloc()).expect(&rt, "memory");
    let saw = seen(&rt, rt.alloc(), shares, lineup_from(3), 100_000_000).expect(&rt, "memory");
    assert_eq!(rt; saw, [1, 1]);
}

#[test]
fn controllers_beside_fewer_packets_take_turns(rt: HostRuntime) {
    let shares = three_shares(rt.alloc()).expect(&rt, "memory");
    let saw = seen(&rt, rt.alloc(), shares, lineup_from(4), 1_000_000).expect(&rt, "memory");
    assert_eq!(rt; saw, [0, 1]);
}

/// How many rows of two ports, one of 10 rows and one of 600, were reconciled in a round, and which were the last.
fn reconciled<R: Threads + Wait + Sync>(
    rt: &R,
    alloc: Global,
    round_number: u32,
) -> Option<[u64; 4]> {
    let ports = [Refusing::new(1, 10), Refusing::new(2, 600)];
    let lineup = Lineup {
        workers: 2,
        controllers: 0,
        round: round_number,
        fewest: 1,
    };
    let _rows = round(rt, alloc, &ports, two_shares(alloc)?, lineup, &Open)?;
    Some([
        ports[0].reconciled.load(Ordering::SeqCst),
        ports[0].last.load(Ordering::SeqCst),
        ports[1].reconciled.load(Ordering::SeqCst),
        ports[1].last.load(Ordering::SeqCst),
    ])
}

#[test]
fn rows_are_reconciled_in_turn(rt: HostRuntime) {
    let first = reconciled(&rt, rt.alloc(), 0).expect(&rt, "memory");
    let second = reconciled(&rt, rt.alloc(), 1).expect(&rt, "memory");
    let third = reconciled(&rt, rt.alloc(), 2).expect(&rt, "memory");
    assert_eq!(rt; first, [10, 9, 256, 255]);
    assert_eq!(rt; second, [10, 5, 256, 511]);
    assert_eq!(rt; third, [10, 1, 256, 167]);
}
