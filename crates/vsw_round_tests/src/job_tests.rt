//! Where an actor does which job.

ghost use Rattle.std.specs.Prelude.{◌≡◌, ◌∷◌, [], IfSome};
ghost use Rattle.vsw_actors.specs.declared.lane.Lane.{Lane};
ghost use Rattle.vsw_round_tests.specs.declared.refusing.Notes.{Notes};

use crate::refusing::{Notes, Refusing};
use std::alloc::Global;
use vsw_actors::{Actor, Lane, Placed};
use vsw_workers::Forwarder;

/// A lane on which nothing was asked.
fn new_lane() -> Lane<Notes>
    ensures { result.base ≡ 0 }
{
    Lane {
        station: Notes {
            asked: [0; 4],
            count: 0,
        },
        base: 0,
    }
}

fn two_lanes(alloc: Global) -> Option<Vec<Lane<Notes>>>
    ensures { IfSome result (λ v. (a : Lane Notes) × (b : Lane Notes) × (v.items ≡ a ∷ b ∷ []) × (a.base ≡ 0) × (b.base ≡ 0)) }
{
    let mut lanes = Vec::with_capacity(alloc, 2).ok()?;
    lanes.push_reserved(new_lane());
    lanes.push_reserved(new_lane());
    Some(lanes)
}

fn three_jobs(alloc: Global) -> Option<Vec<Placed<u32>>>
    ensures { IfSome result (λ v. v.items ≡ record { place = 1; job = 10 } ∷ record { place = 0; job = 20 } ∷ record { place = 1; job = 30 } ∷ []) }
{
    let mut jobs = Vec::with_capacity(alloc, 3).ok()?;
    jobs.push_reserved(Placed { place: 1, job: 10 });
    jobs.push_reserved(Placed { place: 0, job: 20 });
    jobs.push_reserved(Placed { place: 1, job: 30 });
    Some(jobs)
}

/// What was asked at the port at a place, with zeros behind it; nines for no port.
fn asked_at(lanes: &[Lane<Notes>], place: usize) -> [u32; 4] {
    match lanes.get(place) {
        Some(lane) => lane.station.asked,
        None => [9; 4],
    }
}

#[test]
fn each_job_is_done_at_its_port_and_in_its_turn(rt: HostRuntime) {
    let ports = [Refusing::new(1, 0), Refusing::new(2, 0)];
    let lanes = two_lanes(rt.alloc()).expect(&rt, "memory");
    let jobs = three_jobs(rt.alloc()).expect(&rt, "memory");
    let mut actor = Actor::begin(16, &ports, lanes, jobs, 0);
    for _ in 0..actor.left() {
        actor.job(&rt, rt.alloc());
    }
    let left = actor.left();
    let (lanes, _jobs) = actor.end();
    assert_eq!(rt; left, 0);
    assert_eq!(rt; asked_at(&lanes, 0), [20, 0, 0, 0]);
    assert_eq!(rt; asked_at(&lanes, 1), [10, 30, 0, 0]);
    assert_eq!(rt; asked_at(&lanes, 2), [9; 4]);
}
