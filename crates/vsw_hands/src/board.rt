//! The board: tasks that wait for a thread, and what was told.

ghost use Rattle.std.specs.Prelude.{◌≡◌, ◌<◌, ◌++◌, ◌∷◌, [], All, IfOk, IfSome, OnOk, length, map};
ghost use Rattle.boxcar.specs.Table.{Shows};
ghost use Rattle.vsw_hands.specs.Hands.{AllDone};
ghost use Rattle.vsw_hands.specs.Private.Briefs.{share_of};

use crate::hand::Hand;
use crate::roll::Roll;
use crate::task::{Brief, Done, Task, go_on};
use crate::worked::Worked;
use std::alloc::Global;
use std::marker::PhantomData;
use std::snapshot::Snapshot;
use std::sync::atomic::{AtomicU64, AtomicUsize, Ordering};
use std::sync::{Condvar, Mutex, Wait};
use std::thread;
use std::time::Clock;
use vsw_base::NoMemory;

/// How often a thread looks for a task before it sleeps. Tasks follow each other within microseconds while there is input, and waking takes longer.
const LOOKS: u32 = 2_000;

/// What all threads of a run share. The counts let a thread look for work without a lock; nothing is proved of them.
#[derive(Drop)]
pub(crate) struct Board<S, T, W: Hand<S, T>, B: Roll> {
    /// Each share that was given, for contracts alone.
    roll: boxcar::Vec<Snapshot<S>>,
    todo: Mutex<Vec<Task<S, T, W, B>>>,
    done: Mutex<Vec<Done<S, T, W, B>>>,
    /// How many tasks wait.
    waiting: AtomicUsize,
    /// How many tasks are done since the lead took what was told.
    finished: AtomicUsize,
    /// 1 once the lead gives no more.
    over: AtomicU64,
    /// How many threads sleep until a task waits or the lead gives no more.
    asleep: AtomicUsize,
    woken: Condvar,
    ghost named: { roll ≡ B.shelves },
}

/// Puts one thing more at the end.
pub(crate) fn push<A: Drop>(all: &mut Vec<A>, one: A) -> Result<(), NoMemory>
    ensures { OnOk result (all.new.items ≡ all.old.items ++ one ∷ []) }
{
    match all.push(one) {
        Ok(()) => Ok(()),
        Err(_) => Err(NoMemory),
    }
}

/// Takes the first thing out, and puts this one at the end.
fn exchange<A>(all: &mut Vec<A>, last: A) -> A
    requires { 0 < length all.old.items }
{
    let first = all.remove(0);
    all.push_reserved(last);
    first
}

/// The place of what was told of the share with this number.
fn place_of<S, T, W: Hand<S, T>, B: Roll>(
    dones: &Vec<Done<S, T, W, B>>,
    number: usize,
) -> Option<usize>
    ensures { IfSome result (λ place. place < length dones.now.items) }
{
    for place in 0..dones.len() {
        let done = &dones[place];
        if done.brief.index() == number {
            return Some(place);
        }
    }
    None
}

/// Takes out what was told of the share with this number.
fn pick<S, T, W: Hand<S, T>, B: Roll>(
    dones: &mut Vec<Done<S, T, W, B>>,
    number: usize,
) -> Option<Done<S, T, W, B>> {
    let place = place_of(dones, number)?;
    Some(dones.remove(place))
}

impl<S: Drop, T: Drop, W: Hand<S, T>, B: Roll> Board<S, T, W, B> {
    /// A board with nothing on it.
    pub(crate) fn new(alloc: Global, roll: boxcar::Vec<Snapshot<S>>) -> Self
        requires named { roll ≡ B.shelves }
    {
        Board {
            roll,
            todo: Mutex::new(Vec::new(alloc)),
            done: Mutex::new(Vec::new(alloc)),
            waiting: AtomicUsize::new(0),
            finished: AtomicUsize::new(0),
            over: AtomicU64::new(0),
            asleep: AtomicUsize::new(0),
            woken: Condvar::new(),
        }
    }

    /// Writes a share into the roll.
    pub(crate) fn brief<R: Wait + Clock>(
        &self,
        rt: &R,
        share: S,
    ) -> Result<(Task<S, T, W, B>, Brief<S>), NoMemory>
        requires goes { W.goes share share }
        ensures shown { IfOk result (λ r. Shows B.shelves r.1) }
        ensures share { IfOk result (λ r. share_of r.1 ≡ share) }
    {
        let Ok(brief) = self.roll.push_shown(rt, Snapshot::of(&share)) else {
            return Err(NoMemory);
        };
        let task = Task {
            share,
            brief: brief.again(),
            of: PhantomData,
        };
        Ok((task, brief))
    }

    /// Puts a task at the end, where so many are out. Nothing is put if there is no room for what will be told of all.
    pub(crate) fn put<R: Wait + Clock>(
        &self,
        rt: &R,
        task: Task<S, T, W, B>,
        out: usize,
    ) -> Result<(), NoMemory> {
        if self.done.lock(rt).reserve(out.saturating_add(1)).is_err() {
            return Err(NoMemory);
        }
        let mut todo = self.todo.lock(rt);
        if todo.push(task).is_err() {
            return Err(NoMemory);
        }
        self.waiting.store(todo.len(), Ordering::SeqCst);
        if self.asleep.load(Ordering::SeqCst) != 0 {
            self.woken.notify_one();
        }
        Ok(())
    }

    /// The first task that waits.
    fn next<R: Wait + Clock>(&self, rt: &R) -> Option<Task<S, T, W, B>> {
        if self.waiting.load(Ordering::SeqCst) == 0 {
            return None;
        }
        let mut todo = self.todo.lock(rt);
        if todo.is_empty() {
            return None;
        }
        let task = todo.remove(0);
        self.waiting.store(todo.len(), Ordering::SeqCst);
        Some(task)
    }

    /// The first task that waits, in whose place this one is put at the end. This one if none waits.
    fn turn<R: Wait + Clock>(&self, rt: &R, task: Task<S, T, W, B>) -> Task<S, T, W, B> {
        if self.waiting.load(Ordering::SeqCst) == 0 {
            return task;
        }
        let mut todo = self.todo.lock(rt);
        if todo.is_empty() {
            return task;
        }
        exchange(&mut todo, task)
    }

    /// Puts what was told. It counts though there be no room for it: `gather` misses it then.
    fn tell<R: Wait + Clock>(&self, rt: &R, done: Done<S, T, W, B>) {
        let _ = self.done.lock(rt).push(done);
        let _ = self.finished.fetch_add(1, Ordering::SeqCst);
    }

    /// Works on tasks until one is done. False if none waits.
    fn work<R: Wait + Clock>(&self, rt: &R, hand: &W) -> bool {
        let Some(first) = self.next(rt) else {
            return false;
        };
        let mut task = first;
        for _ in rt.forever() {
            match go_on(rt, hand, task) {
                Worked::More(more) => task = self.turn(rt, more),
                Worked::Done(done) => {
                    self.tell(rt, done);
                    return true;
                }
            }
        }
        unreachable!()
    }

    /// Sleeps until a task waits or the lead gives no more. Who puts a task has the lock, too, and so sees that this thread sleeps.
    fn sleep<R: Wait + Clock>(&self, rt: &R) {
        let todo = self.todo.lock(rt);
        let _ = self.asleep.fetch_add(1, Ordering::SeqCst);
        let todo = self.woken.wait_while(rt, todo, |todo| {
            todo.is_empty() && self.over.load(Ordering::SeqCst) == 0
        });
        let _ = self.asleep.fetch_sub(1, Ordering::SeqCst);
        drop(todo);
    }

    /// Lets other threads run, and sleeps once so many looks found no task. Answers how many have found none then.
    fn rest<R: Wait + Clock>(&self, rt: &R, looks: u32) -> u32 {
        if looks < LOOKS {
            thread::yield_now();
            looks + 1
        } else {
            self.sleep(rt);
            0
        }
    }

    /// Works until the lead gives no more.
    pub(crate) fn serve<R: Wait + Clock>(&self, rt: &R, hand: &W) {
        let mut looks = 0;
        for _ in rt.forever() {
            if self.work(rt, hand) {
                looks = 0;
            } else if self.over.load(Ordering::SeqCst) == 1 {
                return;
            } else {
                looks = self.rest(rt, looks);
            }
        }
        unreachable!()
    }

    /// Works until so many tasks are done.
    pub(crate) fn help<R: Wait + Clock>(&self, rt: &R, hand: &W, out: usize) {
        for _ in rt.forever() {
            if self.finished.load(Ordering::SeqCst) >= out {
                return;
            }
            if !self.work(rt, hand) {
                thread::yield_now();
            }
        }
        unreachable!()
    }

    /// Tells the threads that no more is given, and wakes those that sleep.
    pub(crate) fn end<R: Wait + Clock>(&self, rt: &R) {
        let todo = self.todo.lock(rt);
        self.over.store(1, Ordering::SeqCst);
        drop(todo);
        self.woken.notify_all();
    }

    /// What was told, if it was told of this share.
    fn told_of(&self, brief: &Brief<S>, done: Done<S, T, W, B>) -> Option<T>
        requires shown { Shows B.shelves brief.now }
        ensures { IfSome result (λ told. W.does (share_of brief.now) told) }
    {
        let Done {
            told,
            brief: own,
            of: _,
        } = done;
        if own.index() != brief.index() {
            return None;
        }
        self.roll.agrees(brief, &own);
        Some(told)
    }

    /// What was told of these shares, in their order.
    pub(crate) fn gather<R: Wait + Clock>(
        &self,
        rt: &R,
        alloc: Global,
        briefs: &Vec<Brief<S>>,
    ) -> Result<Vec<T>, NoMemory>
        requires shown { All (Shows B.shelves) briefs.now.items }
        ensures { IfOk result (λ tolds. AllDone W.does (map share_of briefs.now.items) tolds.items) }
    {
        let mut tolds = Vec::new(alloc);
        if tolds.reserve(briefs.len()).is_err() {
            return Err(NoMemory);
        }
        let mut dones = self.done.lock(rt);
        let mut place = 0;
        while place < briefs.len() {
            let brief = &briefs[place];
            let Some(done) = pick(&mut dones, brief.index()) else {
                return Err(NoMemory);
            };
            let Some(told) = self.told_of(brief, done) else {
                return Err(NoMemory);
            };
            push(&mut tolds, told)?;
            place += 1;
        }
        Ok(tolds)
    }

    /// Takes off all that was told.
    pub(crate) fn clear<R: Wait + Clock>(&self, rt: &R) {
        self.done.lock(rt).clear();
        self.finished.store(0, Ordering::SeqCst);
    }
}
