//! An actor of a round: what it has to do, over all ports, and how far it is.

ghost use Rattle.std.specs.Prelude.{◌≡◌, ◌<◌, ◌≤◌, ◌+◌, ◌-◌, ◌++◌, ℕ, List, [], drop, length, take};
ghost use Rattle.vsw_actors.specs.Lanes.{AreFit, AreLedOn, IsOwn, IsTaken, Spends, fronts_of};
ghost use Rattle.vsw_actors.specs.Actors.{AreAlike, AreMine, Begins, DoesAll, HasDone, IsRoomy};

use crate::hop::receive_at;
use crate::lane::{Lane, step_at};
use crate::port::Port;
use std::alloc::Global;
use std::collections::LinkedList;
use std::marker::Model;
use std::sync::Wait;
use vsw_port::Event;
use vsw_workers::Forwarder;

/// A job, and the place of the port at which it is to be done.
#[derive(Drop)]
pub struct Placed<J> {
    pub place: usize,
    pub job: J,
}

/// What an actor is in a round: its number, the ports, and the history of each as the round began. No value of it is made.
pub struct Begun<P> {
    pub number: u64,
    pub ports: LinkedList<P>,
    pub histories: LinkedList<LinkedList<Event>>,
}

/// A worker or a controller in a round: the ports with its lanes, its jobs, the first `next` of which are done, and room for a packet that is
/// handed on.
#[derive(Drop)]
pub struct Actor<'a, J, P: Port<J>> {
    number: u64,
    ports: &'a [P],
    lanes: Vec<Lane<P::Station>>,
    jobs: Vec<Placed<J>>,
    next: usize,
    parcel: P::Parcel,
}

impl<'a, J, P: Port<J>> Model for Actor<'a, J, P> {
    ghost use Rattle.std.specs.Prelude.{◌≡◌, ◌<◌, ◌≤◌, ◌+◌, ◌-◌, ℕ, List, length, map, take, drop};
    ghost use Rattle.vsw_actors.specs.declared.actor.Begun.{Begun};
    ghost use Rattle.vsw_actors.specs.declared.actor.Placed.{Placed};
    ghost use Rattle.vsw_actors.specs.Lanes.{AreFit, fronts_of};
    ghost use Rattle.vsw_actors.specs.Actors.{AreAlike, AreMine, HasDone, IsRoomy};

    ghost Value = { Begun P × List (Placed J) × List (Placed J) };

    ghost view = { λ a. (record { number = a.number; ports = a.ports.now; histories = fronts_of P.pass_in a.lanes.items }, take a.next a.jobs.items, drop a.next a.jobs.items) };

    ghost invariant = { λ a. (length a.ports.now ≡ length a.lanes.items) × (length a.ports.now < 65536) × (a.next ≤ length a.jobs.items) × (length a.jobs.items < 4294967296)
        × AreFit P.pass_in P.is_of P.permits a.number (length (drop a.next a.jobs.items)) a.ports.now a.lanes.items
        × AreMine P.port_in P.job_in P.takes a.number a.ports.now (drop a.next a.jobs.items)
        × HasDone P.port_in P.locals P.pass_in P.job_in P.tells a.number a.ports.now (fronts_of P.pass_in a.lanes.items) a.lanes.items (take a.next a.jobs.items)
        × AreAlike P.locals a.ports.now × IsRoomy P.fits a.ports.now a.parcel };
}

impl<'a, J, P: Port<J>> Actor<'a, J, P> {
    /// Begins a round.
    pub fn begin(
        number: u64,
        ports: &'a [P],
        lanes: Vec<Lane<P::Station>>,
        jobs: Vec<Placed<J>>,
        parcel: P::Parcel,
    ) -> Actor<'a, J, P>
        requires ports { (length ports.now ≡ length lanes.items) × (length ports.now < 65536) }
        requires few { length jobs.items < 4294967296 }
        requires begins { Begins P.port_in P.pass_in P.tells number ports.now lanes.items }
        requires fit { AreFit P.pass_in P.is_of P.permits number (length jobs.items) ports.now lanes.items }
        requires mine { AreMine P.port_in P.job_in P.takes number ports.now jobs.items }
        requires alike { AreAlike P.locals ports.now }
        requires roomy { IsRoomy P.fits ports.now parcel }
        ensures { result ≡ (record { number = number; ports = ports.now; histories = fronts_of P.pass_in lanes.items }, [], jobs.items) }
    {
        Actor {
            number,
            ports,
            lanes,
            jobs,
            next: 0,
            parcel,
        }
    }

    /// Goes on with a round in which the first `next` jobs are done.
    pub fn resume(
        number: u64,
        ports: &'a [P],
        lanes: Vec<Lane<P::Station>>,
        jobs: Vec<Placed<J>>,
        next: usize,
        parcel: P::Parcel,
    ) -> Actor<'a, J, P>
        requires ports { (length ports.now ≡ length lanes.items) × (length ports.now < 65536) }
        requires few { length jobs.items < 4294967296 }
        requires next { next ≤ length jobs.items }
        requires fit { AreFit P.pass_in P.is_of P.permits number (length (drop next jobs.items)) ports.now lanes.items }
        requires mine { AreMine P.port_in P.job_in P.takes number ports.now (drop next jobs.items) }
        requires done { HasDone P.port_in P.locals P.pass_in P.job_in P.tells number ports.now (fronts_of P.pass_in lanes.items) lanes.items (take next jobs.items) }
        requires alike { AreAlike P.locals ports.now }
        requires roomy { IsRoomy P.fits ports.now parcel }
        ensures { result ≡ (record { number = number; ports = ports.now; histories = fronts_of P.pass_in lanes.items }, take next jobs.items, drop next jobs.items) }
    {
        Actor {
            number,
            ports,
            lanes,
            jobs,
            next,
            parcel,
        }
    }

    /// Its lanes at the end of a round, or of a part of it, and its jobs, whose rooms serve again.
    pub fn end(self) -> (Vec<Lane<P::Station>>, Vec<Placed<J>>)
    where
        P::Parcel: Drop,
        ensures fit { AreFit P.pass_in P.is_of P.permits self.entry.0.number (length self.entry.2) self.entry.0.ports result.0.items }
        ensures done { HasDone P.port_in P.locals P.pass_in P.job_in P.tells self.entry.0.number self.entry.0.ports self.entry.0.histories result.0.items self.entry.1 }
        ensures ports { (length self.entry.0.ports ≡ length result.0.items) × (length self.entry.0.ports < 65536) }
        ensures fronts { fronts_of P.pass_in result.0.items ≡ self.entry.0.histories }
        ensures mine { AreMine P.port_in P.job_in P.takes self.entry.0.number self.entry.0.ports self.entry.2 }
        ensures few { length result.1.items < 4294967296 }
        ensures jobs { result.1.items ≡ self.entry.1 ++ self.entry.2 }
    {
        let Actor { lanes, jobs, .. } = self;
        (lanes, jobs)
    }
}

impl<'a, J, P: Port<J>> Forwarder for Actor<'a, J, P> {
    type What = Begun<P>;

    type Job = Placed<J>;

    ghost what = { λ a. a.0 };

    ghost done = { λ a. a.1 };

    ghost todo = { λ a. a.2 };

    fn job<R: Wait>(&mut self, rt: &R, alloc: Global) -> bool {
        if self.next >= self.jobs.len() {
            return false;
        }
        let placed = &self.jobs[self.next];
        step_in(
            rt,
            alloc,
            self.ports,
            &mut self.lanes,
            placed.place,
            &placed.job,
            &mut self.parcel,
        );
        self.next += 1;
        true
    }

    fn left(&self) -> u32 {
        (self.jobs.len() - self.next) as u32
    }
}

/// Does a job of an actor at the port at its place, and what its call handed on at the port to which that goes. A packet has at most one
/// call at a port, so each lane needs one permit.
fn step_all<J, P: Port<J>, R: Wait>(
    rt: &R,
    alloc: Global,
    ports: &[P],
    lanes: &mut [Lane<P::Station>],
    place: usize,
    job: &J,
    parcel: &mut P::Parcel,
)
    requires same { length ports.now ≡ length lanes.old }
    requires small { length ports.now < 65536 }
    requires own { (k : ℕ) × IsOwn P.port_in (P.job_in job.now) k ports.now × AreFit P.pass_in P.is_of P.permits k 1 ports.now lanes.old }
    requires taken { IsTaken P.takes 0 place job.now ports.now }
    requires within { place < length ports.now }
    requires roomy { IsRoomy P.fits ports.now parcel.old }
    ensures does { AreLedOn P.port_in P.pass_in P.tells ports.now (DoesAll P.port_in P.locals place (P.job_in job.now) ports.now) lanes.old lanes.new }
    ensures fit { Spends P.pass_in P.is_of P.permits ports.now lanes.old lanes.new }
    ensures fronts { fronts_of P.pass_in lanes.new ≡ fronts_of P.pass_in lanes.old }
    ensures roomy { IsRoomy P.fits ports.now parcel.new }
{
    if step_at(rt, alloc, ports, lanes, 0, place, job, parcel) {
        let next = P::place(parcel);
        receive_at(rt, alloc, ports, lanes, 0, next, parcel);
    }
}

/// The same of lanes in their room.
pub fn step_in<J, P: Port<J>, R: Wait>(
    rt: &R,
    alloc: Global,
    ports: &[P],
    lanes: &mut Vec<Lane<P::Station>>,
    place: usize,
    job: &J,
    parcel: &mut P::Parcel,
)
    requires same { length ports.now ≡ length lanes.old.items }
    requires small { length ports.now < 65536 }
    requires own { (k : ℕ) × IsOwn P.port_in (P.job_in job.now) k ports.now × AreFit P.pass_in P.is_of P.permits k 1 ports.now lanes.old.items }
    requires taken { IsTaken P.takes 0 place job.now ports.now }
    requires within { place < length ports.now }
    requires roomy { IsRoomy P.fits ports.now parcel.old }
    ensures same { length lanes.new.items ≡ length lanes.old.items }
    ensures does { AreLedOn P.port_in P.pass_in P.tells ports.now (DoesAll P.port_in P.locals place (P.job_in job.now) ports.now) lanes.old.items lanes.new.items }
    ensures fit { Spends P.pass_in P.is_of P.permits ports.now lanes.old.items lanes.new.items }
    ensures fronts { fronts_of P.pass_in lanes.new.items ≡ fronts_of P.pass_in lanes.old.items }
    ensures roomy { IsRoomy P.fits ports.now parcel.new }
{
    step_all(rt, alloc, ports, lanes.as_mut_slice(), place, job, parcel);
}
