//! Packets at ports without layers: each passes, and changes nothing.

ghost use Rattle.std.specs.Prelude.{◌≡◌};

use crate::refusing::Refusing;
use std::alloc::Global;
use std::sync::Wait;
use vsw_actors::Port;
use vsw_base::NoMemory;

/// A packet, and the worker that brings it.
#[derive(Drop)]
pub struct Packet {
    pub worker: u32,
    pub number: u32,
}

/// The numbers of the first four packets that a worker carried there.
#[derive(Drop)]
pub struct Load {
    pub worker: u32,
    pub carried: [u32; 4],
    pub count: usize,
}

/// Writes down a packet's number.
fn note(station: &mut Load, packet: u32)
    ensures { station.new.worker ≡ station.old.worker }
{
    if station.count < 4 {
        station.carried[station.count] = packet;
        station.count += 1;
    }
}

/// These ports hand nothing on. A parcel, if one came, would be a packet once more.
impl Port<Packet> for Refusing {
    ghost use Rattle.vsw_round_tests.specs.Carrying.{brought, fits, holds, is_of, parcel_in, pass, permits, takes, tells};
    ghost use Rattle.vsw_round_tests.specs.Refusing.{locals, port};

    type Station = Load;

    type Parcel = Packet;

    ghost port_in = { port };

    ghost locals = { locals };

    ghost pass_in = { pass };

    ghost job_in = { brought };

    ghost tells = { tells };

    ghost is_of = { is_of };

    ghost permits = { permits };

    ghost takes = { takes };

    ghost fits = { fits };

    ghost holds = { holds };

    ghost parcel_in = { parcel_in };

    fn parcel(_alloc: Global, _ports: &[Self]) -> Result<Packet, NoMemory> {
        Ok(Packet {
            worker: 0,
            number: 0,
        })
    }

    fn work<R: Wait>(
        &self,
        _rt: &R,
        _alloc: Global,
        station: &mut Load,
        _place: usize,
        job: &Packet,
        _parcel: &mut Packet,
    ) -> bool {
        note(station, job.number);
        false
    }

    fn receive<R: Wait>(&self, _rt: &R, _alloc: Global, station: &mut Load, parcel: &Packet) {
        note(station, parcel.number);
    }

    fn place(_parcel: &Packet) -> usize {
        0
    }
}
