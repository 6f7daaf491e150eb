//! A packet that was handed on, at the port to which it goes.

ghost use Rattle.std.specs.Prelude.{◌≡◌, ◌<◌, ◌+◌, ℕ, length};
ghost use Rattle.vsw_many.specs.Actors.{Moves};
ghost use Rattle.vsw_promise.specs.Rounds.{opening_of};
ghost use Rattle.vsw_actors.specs.Lanes.{AreLedOn, DoesAt, IsFit, IsLedOn, IsReady, IsUsable, SpendsNext, front_of, fronts_of};

use crate::lane::Lane;
use crate::port::Port;
use std::alloc::Global;
use std::sync::Wait;

/// Does what a parcel holds at a port.
fn receive<J, P: Port<J>, R: Wait>(
    rt: &R,
    alloc: Global,
    port: &P,
    lane: &mut Lane<P::Station>,
    parcel: &P::Parcel,
)
    requires usable { IsUsable P.port_in P.pass_in P.is_of P.permits (P.parcel_in parcel.now).1 port.now lane.old }
    requires holds { P.holds parcel.now }
    ensures moves { IsLedOn P.port_in P.pass_in P.tells port.now (Moves (opening_of (P.port_in port.now)) (P.parcel_in parcel.now).1) lane.old lane.new }
    ensures fit { (k : ℕ) (more : ℕ) → IsFit P.pass_in P.is_of P.permits k (more + 1) port.now lane.old → IsFit P.pass_in P.is_of P.permits k more port.now lane.new }
    ensures front { front_of P.pass_in lane.new ≡ front_of P.pass_in lane.old }
{
    port.receive(rt, alloc, &mut lane.station, parcel);
}

/// Does what a parcel holds at the port at this place, where the first port here has the place `at`.
pub(crate) fn receive_at<J, P: Port<J>, R: Wait>(
    rt: &R,
    alloc: Global,
    ports: &[P],
    lanes: &mut [Lane<P::Station>],
    at: usize,
    place: usize,
    parcel: &P::Parcel,
)
    requires same { length ports.now ≡ length lanes.old }
    requires small { at + length ports.now < 65536 }
    requires ready { IsReady P.port_in P.pass_in P.is_of P.permits at place (P.parcel_in parcel.now).1 ports.now lanes.old }
    requires holds { P.holds parcel.now }
    ensures does { AreLedOn P.port_in P.pass_in P.tells ports.now (DoesAt P.port_in at place (P.parcel_in parcel.now).1 ports.now) lanes.old lanes.new }
    ensures fit { SpendsNext P.pass_in P.is_of P.permits at place ports.now lanes.old lanes.new }
    ensures fronts { fronts_of P.pass_in lanes.new ≡ fronts_of P.pass_in lanes.old }
{
    if let Some((port, others)) = ports.split_first() {
        if let Some((lane, rest)) = lanes.split_first_mut() {
            if at == place {
                receive(rt, alloc, port, lane, parcel);
            } else {
                receive_at(rt, alloc, others, rest, at + 1, place, parcel);
            }
        }
    }
}
