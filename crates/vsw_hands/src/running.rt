//! The threads of the hands, and the lead beside them.

ghost use Rattle.std.specs.Prelude.{◌≡◌, OnErr, OnOk};

use crate::board::Board;
use crate::hand::Hand;
use crate::lead::Lead;
use crate::pool::Pool;
use crate::roll::Roll;
use std::alloc::Global;
use std::marker::Brand;
use std::snapshot::Snapshot;
use std::sync::Wait;
use std::thread;
use std::thread::{Scope, Threads};
use std::time::Clock;
use vsw_base::NoMemory;

/// Starts so many threads that work for the hand, or fewer where the system refuses one.
fn start_all<
    's,
    E,
    R: Wait + Clock + Sync,
    W: Hand<S, T> + Send + Sync,
    S: Send + Drop + 's,
    T: Send + Drop + 's,
    B: Roll + Send + Sync + 's,
>(scope: &Scope<'s, E>, rt: &'s R, hand: &'s W, board: &'s Board<S, T, W, B>, count: usize) {
    for _ in 0..count {
        let work = move || {
            board.serve(rt, hand);
        };
        if scope.spawn(work).is_err() {
            return;
        }
    }
}

/// Leads in this thread, and ends the others.
fn lead_here<R: Wait + Clock, W: Hand<S, T>, L: Lead<H, S, T, W>, H, S: Drop, T: Drop, B: Roll>(
    rt: &R,
    alloc: Global,
    hand: &W,
    board: &Board<S, T, W, B>,
    lead: &mut L,
    with: &mut H,
)
    requires may { L.may lead.old with.old }
    ensures { L.leads lead.old with.old lead.new with.new }
{
    let mut pool = Pool::new(board, hand, alloc);
    lead.lead(rt, with, &mut pool);
    board.end(rt);
}

/// Does nothing. By this use a reference that comes back is tied to the one that was lent.
fn take_back<A>(one: &mut A)
    ensures { one.new ≡ one.old }
{}

/// The hands work in threads of a scope, while this thread leads.
fn run_beside<
    R: Threads + Wait + Clock + Sync,
    W: Hand<S, T> + Send + Sync,
    L: Lead<H, S, T, W>,
    H,
    S: Send + Drop,
    T: Send + Drop,
    B: Roll + Send + Sync,
>(
    rt: &R,
    alloc: Global,
    hand: &W,
    board: &Board<S, T, W, B>,
    count: usize,
    lead: &mut L,
    with: &mut H,
)
    requires may { L.may lead.old with.old }
    ensures { L.leads lead.old with.old lead.new with.new }
{
    let (lead, with) = thread::scope(
        thread::scope_env(),
        rt,
        move |scope| -> (&mut L, &mut H)
            requires may { L.may lead.now with.now }
            ensures lead_back { result.0.ghost_name ≡ lead.entry.ghost_name }
            ensures with_back { result.1.ghost_name ≡ with.entry.ghost_name }
            ensures leads { L.leads lead.entry.now with.entry.now result.0.now result.1.now }
        {
            start_all(scope, rt, hand, board, count);
            lead_here(rt, alloc, hand, board, &mut *lead, &mut *with);
            (lead, with)
        },
    );
    take_back(lead);
    take_back(with);
}

/// Names the roll, and runs.
fn run_named<
    B: Roll + Send + Sync,
    R: Threads + Wait + Clock + Sync,
    W: Hand<S, T> + Send + Sync,
    L: Lead<H, S, T, W>,
    H,
    S: Send + Drop,
    T: Send + Drop,
>(
    rt: &R,
    alloc: Global,
    roll: boxcar::Vec<Snapshot<S>>,
    hand: &W,
    count: usize,
    lead: &mut L,
    with: &mut H,
)
    requires named { roll ≡ B.shelves }
    requires may { L.may lead.old with.old }
    ensures { L.leads lead.old with.old lead.new with.new }
{
    let board: Board<S, T, W, B> = Board::new(alloc, roll);
    run_beside(rt, alloc, hand, &board, count, lead, with);
}

/// Starts up to `count` threads, each of which works for `hand`, and leads. Where the system refuses a thread there are fewer, and the lead
/// does their work. After `NoMemory` nothing was done.
pub fn run_hands<
    R: Threads + Wait + Clock + Sync,
    W: Hand<S, T> + Send + Sync,
    L: Lead<H, S, T, W>,
    H,
    S: Send + Drop,
    T: Send + Drop,
>(rt: &R, alloc: Global, hand: &W, count: usize, lead: &mut L, with: &mut H) -> Result<(), NoMemory>
    requires may { L.may lead.old with.old }
    ensures leads { OnOk result (L.leads lead.old with.old lead.new with.new) }
    ensures err { OnErr result ((lead.new ≡ lead.old) × (with.new ≡ with.old)) }
{
    let Ok(roll) = boxcar::Vec::new(alloc) else {
        return Err(NoMemory);
    };
    run_named::<Brand, R, W, L, H, S, T>(rt, alloc, roll, hand, count, lead, with);
    Ok(())
}
