//! What an actor needs of a port.

ghost use Rattle.std.specs.Prelude.{◌≡◌, ◌≤◌, ◌<◌, ◌+◌, ℕ, List, IfOk, true};
ghost use Rattle.vsw_port.specs.Calls.{Call, Job, job_doer};
ghost use Rattle.vsw_many.specs.Passes.{PassNow};
ghost use Rattle.vsw_promise.specs.Jobs as jobs;
ghost use Rattle.vsw_promise.specs.Ports.{PortSeen};
ghost use Rattle.vsw_promise.specs.Rounds.{opening_of};
ghost use Rattle.vsw_actors.specs.Actors.{IsRoomy, handed};
ghost use Rattle.vsw_actors.specs.Lanes.{CrossesOn, CrossesTold};

use std::alloc::Global;
use std::sync::Wait;
use vsw_base::NoMemory;

/// A port that does jobs of one kind, packets or lines of the commands file, for the actors that have a station at it. Any thread
/// may call it. Each station is one actor's: its pass, and where its calls are told. A packet that leaves for another port is put into
/// the actor's parcel, and that port does it at once.
pub trait Port<J> {
    type Station;

    type Parcel;

    ghost port_in: { Self → PortSeen };

    /// The addresses of the ports to which it hands packets on.
    ghost locals: { Self → List ℕ };

    ghost pass_in: { Self.Station → PassNow };

    ghost job_in: { J → Job };

    /// The calls that a station tells, in their order, if it had memory for all.
    ghost tells: { Self.Station → List Call → Type 0 };

    /// Whether a station is one at this port, and for how many entries it has room there.
    ghost is_of: { Self → Self.Station → Type 0 };

    ghost permits: { Self.Station → ℕ };

    /// Whether this job may be done here, at the port at this place.
    ghost takes: { Self → ℕ → J → Type 0 };

    /// Whether a parcel has room for what this job hands on here.
    ghost fits: { Self → J → Self.Parcel → Type 0 };

    /// Whether a parcel holds a packet that was handed on, and as which job, at which place.
    ghost holds: { Self.Parcel → Type 0 };

    ghost parcel_in: { Self.Parcel → jobs.Placed };

    /// A parcel for what these ports hand on. Where they hand nothing on, it takes no memory.
    fn parcel(alloc: Global, ports: &[Self]) -> Result<Self::Parcel, NoMemory>
        ensures { IfOk result (IsRoomy fits ports.now) };

    /// Does a job, at the port at this place, and tells it. Answers whether its call handed a packet on, which the parcel then holds.
    fn work<R: Wait>(
        &self,
        rt: &R,
        alloc: Global,
        station: &mut Self::Station,
        place: usize,
        job: &J,
        parcel: &mut Self::Parcel,
    ) -> bool
        requires station { is_of self.now station.old }
        requires own { job_doer (port_in self.now).controllers (job_in job.now) ≡ (pass_in station.old).number }
        requires permit { 0 < permits station.old }
        requires taken { takes self.now place job.now }
        requires fits { fits self.now job.now parcel.old }
        ensures crosses { CrossesOn pass_in tells (opening_of (port_in self.now)) (locals self.now) place (job_in job.now) (handed result (parcel_in parcel.new)) station.old station.new }
        ensures station { is_of self.now station.new }
        ensures permits { permits station.old ≤ permits station.new + 1 }
        ensures holds { result ≡ true → holds parcel.new }
        ensures fits { (p : Self) (j : J) → fits p j parcel.old → fits p j parcel.new };

    /// Does the job that a parcel holds, and tells it. What was handed on once isn't handed on again.
    fn receive<R: Wait>(
        &self,
        rt: &R,
        alloc: Global,
        station: &mut Self::Station,
        parcel: &Self::Parcel,
    )
        requires station { is_of self.now station.old }
        requires own { job_doer (port_in self.now).controllers (parcel_in parcel.now).1 ≡ (pass_in station.old).number }
        requires permit { 0 < permits station.old }
        requires holds { holds parcel.now }
        ensures crosses { CrossesTold pass_in tells (opening_of (port_in self.now)) (parcel_in parcel.now).1 station.old station.new }
        ensures station { is_of self.now station.new }
        ensures permits { permits station.old ≤ permits station.new + 1 };

    /// The place of the port that does what a parcel holds.
    fn place(parcel: &Self::Parcel) -> usize
        ensures { result ≡ (parcel_in parcel.now).0 };
}
