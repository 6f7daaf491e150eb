//! A piece of an actor's work, from lanes that travel to lanes that travel.

ghost use Rattle.std.specs.Prelude.{◌+◌, IfOk, drop, length, take};
ghost use Rattle.vsw_actors.specs.Actors.{HasDone};
ghost use Rattle.vsw_actors.specs.Going.{IsHalfway};
ghost use Rattle.vsw_actors.specs.Lanes.{AreFit, fronts_of};

use crate::actor::{Actor, Placed};
use crate::lane::Lane;
use crate::port::Port;
use std::alloc::Global;
use std::sync::Wait;
use vsw_base::NoMemory;
use vsw_workers::{Gate, do_some};

/// Does the next jobs of an actor, at most so many, of whose jobs the first `next` are done. The gate is told of each. After `NoMemory` the
/// lanes are gone, and nothing was done.
#[tactic(auto, using(crate::proofs::Pieces::taken_more, crate::proofs::Pieces::dropped_more))]
pub fn carry_on<R: Wait, J: Drop, P: Port<J>, G: Gate>(
    rt: &R,
    alloc: Global,
    number: u32,
    ports: &[P],
    lanes: Vec<Lane<P::Station>>,
    jobs: Vec<Placed<J>>,
    next: u32,
    most: u32,
    gate: &G,
) -> Result<Vec<Lane<P::Station>>, NoMemory>
where
    P::Station: Drop,
    P::Parcel: Drop,
    requires halfway { IsHalfway P.port_in P.locals P.pass_in P.job_in P.tells P.is_of P.permits P.takes number ports.now lanes.items jobs.items next }
    ensures fit { IfOk result (λ after. AreFit P.pass_in P.is_of P.permits number (length (drop (next + most) jobs.items)) ports.now after.items) }
    ensures done { IfOk result (λ after. HasDone P.port_in P.locals P.pass_in P.job_in P.tells number ports.now (fronts_of P.pass_in lanes.items) after.items (take (next + most) jobs.items)) }
{
    let parcel = P::parcel(alloc, ports)?;
    let mut actor = Actor::resume(u64::from(number), ports, lanes, jobs, next as usize, parcel);
    do_some(rt, alloc, number, next, most, &mut actor, gate);
    let (lanes, _jobs) = actor.end();
    Ok(lanes)
}
