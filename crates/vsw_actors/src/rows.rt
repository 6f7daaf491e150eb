//! A round of all actors, from rows of lanes to rows of lanes.

ghost use Rattle.std.specs.Prelude.{◌≡◌, ◌<◌, ◌+◌, ◌++◌, ◌∷◌, [], IfOk, IsTrue, OnOk, length, vec_len};
ghost use Rattle.vsw_actors.specs.Private.Rows.{AllEnd, begun_rows};
ghost use Rattle.vsw_actors.specs.Private.Seats.{callers_in, seats_of};
ghost use Rattle.vsw_actors.specs.Rows.{HaveDone, MayBegin};
ghost use Rattle.vsw_workers.specs.Rounds.{AllFinish};

use crate::actor::{Actor, Placed};
use crate::lane::Lane;
use crate::port::Port;
use crate::reconciler::{Reconciler, RowPort};
use crate::round::{Lineup, run_seats};
use crate::seat::Seat;
use std::alloc::Global;
use std::sync::Wait;
use std::thread::Threads;
use vsw_base::NoMemory;
use vsw_workers::Gate;

/// Does the jobs of all actors of a round: actor k, from 0, has row k of lanes, one lane a port, and share k of the jobs. Beside them
/// 256 rows of each port are reconciled, in turn from round to round, which no clause tells. The round's slice has the workers, the
/// controllers and the reconciler, and by their places in it the gate is told. Gives the rows back, in order.
pub fn run_rows<
    'a,
    R: Threads + Wait + Sync,
    J: Send + Drop,
    P: Port<J> + RowPort + Sync,
    G: Gate + Sync,
>(
    rt: &R,
    alloc: Global,
    ports: &'a [P],
    rows: Vec<Vec<Lane<P::Station>>>,
    shares: Vec<Vec<Placed<J>>>,
    lineup: Lineup,
    gate: &G,
) -> Result<Vec<Vec<Lane<P::Station>>>, NoMemory>
where
    P::Station: Send + Drop,
    P::Parcel: Send + Drop,
    requires begin { MayBegin P.port_in P.locals P.pass_in P.job_in P.tells P.is_of P.permits P.takes 0 ports.now rows.items shares.items }
    ensures done { IfOk result (λ after. HaveDone P.port_in P.locals P.pass_in P.job_in P.tells P.is_of P.permits 0 ports.now rows.items shares.items after.items) }
{
    let actors = begin_all(alloc, ports, rows, shares)?;
    let actors = run_all(rt, alloc, ports, actors, lineup, gate)?;
    end_all(alloc, actors)
}

/// Does all jobs of these actors, and those of the reconciler beside them.
fn run_all<
    'a,
    R: Threads + Wait + Sync,
    J: Send + Drop,
    P: Port<J> + RowPort + Sync,
    G: Gate + Sync,
>(
    rt: &R,
    alloc: Global,
    ports: &'a [P],
    actors: Vec<Actor<'a, J, P>>,
    lineup: Lineup,
    gate: &G,
) -> Result<Vec<Actor<'a, J, P>>, NoMemory>
where
    P::Station: Send + Drop,
    P::Parcel: Send + Drop,
    ensures { IfOk result (λ v. AllFinish (λ a. a.0) (λ a. a.1) (λ a. a.2) actors.entry.items v.items) }
{
    let reconciler = Reconciler::begin(ports, lineup.round);
    let mut seats = seat_all(alloc, actors, reconciler)?;
    run_seats(rt, alloc, seats.as_mut_slice(), lineup, gate);
    let after = callers_of(alloc, seats)?;
    Ok(after)
}

/// Begins a round of all actors.
fn begin_all<'a, J: Drop, P: Port<J>>(
    alloc: Global,
    ports: &'a [P],
    rows: Vec<Vec<Lane<P::Station>>>,
    shares: Vec<Vec<Placed<J>>>,
) -> Result<Vec<Actor<'a, J, P>>, NoMemory>
where
    P::Station: Drop,
    P::Parcel: Drop,
    requires begin { MayBegin P.port_in P.locals P.pass_in P.job_in P.tells P.is_of P.permits P.takes 0 ports.now rows.items shares.items }
    ensures { IfOk result (λ v. v.items ≡ begun_rows P.pass_in 0 ports.now rows.items shares.items) }
{
    let mut rows = rows;
    let mut shares = shares;
    let mut actors = Vec::new(alloc);
    while !rows.is_empty() {
        let number = actors.len() as u64;
        let lanes = first(&mut rows);
        let jobs = first(&mut shares);
        let parcel = P::parcel(alloc, ports)?;
        put(
            &mut actors,
            Actor::begin(number, ports, lanes, jobs, parcel),
        )?;
    }
    Ok(actors)
}

/// The seats of all actors, and behind them the reconciler's.
fn seat_all<'a, J: Drop, P: Port<J>>(
    alloc: Global,
    actors: Vec<Actor<'a, J, P>>,
    reconciler: Reconciler<'a, P>,
) -> Result<Vec<Seat<'a, J, P>>, NoMemory>
where
    P::Station: Drop,
    P::Parcel: Drop,
    ensures { IfOk result (λ v. v.items ≡ seats_of actors.entry.items reconciler.entry) }
{
    let mut seats = Vec::new(alloc);
    for actor in actors {
        put(&mut seats, Seat::Caller(actor))?;
    }
    put(&mut seats, Seat::Reconciler(reconciler))?;
    Ok(seats)
}

/// The callers among these seats.
fn callers_of<'a, J: Drop, P: Port<J>>(
    alloc: Global,
    seats: Vec<Seat<'a, J, P>>,
) -> Result<Vec<Actor<'a, J, P>>, NoMemory>
where
    P::Station: Drop,
    P::Parcel: Drop,
    ensures { IfOk result (λ v. v.items ≡ callers_in seats.entry.items) }
{
    let mut actors = Vec::new(alloc);
    for seat in seats {
        put_caller(&mut actors, seat)?;
    }
    Ok(actors)
}

/// Puts the caller of a seat at the end, if it is one.
fn put_caller<'a, J: Drop, P: Port<J>>(
    actors: &mut Vec<Actor<'a, J, P>>,
    seat: Seat<'a, J, P>,
) -> Result<(), NoMemory>
where
    P::Station: Drop,
    P::Parcel: Drop,
    ensures { OnOk result (actors.new.items ≡ actors.old.items ++ callers_in (seat.entry ∷ [])) }
{
    match seat {
        Seat::Caller(actor) => put(actors, actor),
        Seat::Reconciler(_) => Ok(()),
    }
}

/// The rows of all actors, as they are at the end.
fn end_all<'a, J: Drop, P: Port<J>>(
    alloc: Global,
    actors: Vec<Actor<'a, J, P>>,
) -> Result<Vec<Vec<Lane<P::Station>>>, NoMemory>
where
    P::Station: Drop,
    P::Parcel: Drop,
    ensures { IfOk result (λ v. AllEnd P.port_in P.locals P.pass_in P.job_in P.tells P.is_of P.permits actors.entry.items v.items) }
{
    let mut actors = actors;
    let mut rows = Vec::new(alloc);
    while !actors.is_empty() {
        let (lanes, _jobs) = first(&mut actors).end();
        put(&mut rows, lanes)?;
    }
    Ok(rows)
}

/// Takes the first thing out.
fn first<T>(all: &mut Vec<T>) -> T
    requires { 0 < length all.old.items }
    ensures { all.old.items ≡ result ∷ all.new.items }
{
    all.remove(0)
}

/// Puts one thing more at the end.
fn put<T: Drop>(all: &mut Vec<T>, one: T) -> Result<(), NoMemory>
    ensures items { OnOk result (all.new.items ≡ all.old.items ++ one ∷ []) }
    ensures len { OnOk result (vec_len all.new ≡ vec_len all.old + 1) }
{
    match all.push(one) {
        Ok(()) => Ok(()),
        Err(_) => Err(NoMemory),
    }
}
