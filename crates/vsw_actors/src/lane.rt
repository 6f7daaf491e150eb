//! An actor's station in the midst of a round.

ghost use Rattle.std.specs.Prelude.{◌≡◌, ◌<◌, ◌+◌, ℕ, length, true};
ghost use Rattle.vsw_policy.specs.Sound.{Each};
ghost use Rattle.vsw_actors.specs.Actors.{handed};
ghost use Rattle.vsw_actors.specs.Lanes.{IsFit, IsHop, IsReady, IsTaken, IsUsable, SpendsAt, Works, WorksAt, front_of, fronts_of};

use crate::port::Port;
use std::alloc::Global;
use std::sync::Wait;

/// A station of an actor, and how many entries of the port's history its pass had seen as the round began.
#[derive(Drop)]
pub struct Lane<S> {
    pub station: S,
    pub base: usize,
}

/// Does a job at a port, which has this place. Answers whether its call handed a packet on, which the parcel then holds.
pub fn step<J, P: Port<J>, R: Wait>(
    rt: &R,
    alloc: Global,
    port: &P,
    lane: &mut Lane<P::Station>,
    place: usize,
    job: &J,
    parcel: &mut P::Parcel,
) -> bool
    requires usable { IsUsable P.port_in P.pass_in P.is_of P.permits (P.job_in job.now) port.now lane.old }
    requires taken { P.takes port.now place job.now }
    requires fits { P.fits port.now job.now parcel.old }
    ensures moves { Works P.port_in P.locals P.pass_in P.tells port.now place (P.job_in job.now) (handed result (P.parcel_in parcel.new)) lane.old lane.new }
    ensures fit { (k : ℕ) (more : ℕ) → IsFit P.pass_in P.is_of P.permits k (more + 1) port.now lane.old → IsFit P.pass_in P.is_of P.permits k more port.now lane.new }
    ensures front { front_of P.pass_in lane.new ≡ front_of P.pass_in lane.old }
    ensures holds { result ≡ true → P.holds parcel.new × IsHop place (P.job_in job.now) (P.parcel_in parcel.new) }
    ensures fits { (p : P) (j : J) → P.fits p j parcel.old → P.fits p j parcel.new }
{
    port.work(rt, alloc, &mut lane.station, place, job, parcel)
}

/// Does a job at the port at this place, where the first port here has the place `at`.
pub fn step_at<J, P: Port<J>, R: Wait>(
    rt: &R,
    alloc: Global,
    ports: &[P],
    lanes: &mut [Lane<P::Station>],
    at: usize,
    place: usize,
    job: &J,
    parcel: &mut P::Parcel,
) -> bool
    requires same { length ports.now ≡ length lanes.old }
    requires small { at + length ports.now < 65536 }
    requires ready { IsReady P.port_in P.pass_in P.is_of P.permits at place (P.job_in job.now) ports.now lanes.old }
    requires taken { IsTaken P.takes at place job.now ports.now }
    requires fits { Each (λ p. P.fits p job.now parcel.old) ports.now }
    ensures does { WorksAt P.port_in P.locals P.pass_in P.tells ports.now at place (P.job_in job.now) (handed result (P.parcel_in parcel.new)) lanes.old lanes.new }
    ensures fit { SpendsAt P.pass_in P.is_of P.permits at place ports.now lanes.old lanes.new }
    ensures fronts { fronts_of P.pass_in lanes.new ≡ fronts_of P.pass_in lanes.old }
    ensures holds { result ≡ true → P.holds parcel.new × IsHop place (P.job_in job.now) (P.parcel_in parcel.new) }
    ensures fits { (p : P) (j : J) → P.fits p j parcel.old → P.fits p j parcel.new }
{
    if let Some((port, others)) = ports.split_first() {
        if let Some((lane, rest)) = lanes.split_first_mut() {
            return if at == place {
                step(rt, alloc, port, lane, place, job, parcel)
            } else {
                step_at(rt, alloc, others, rest, at + 1, place, job, parcel)
            };
        }
    }
    false
}
