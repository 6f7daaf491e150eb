//! The tasks of a port in a round.

ghost use Rattle.std.specs.Prelude.{◌≡◌, ◌≤◌, ◌<◌, ◌^◌, Some, IfSome, length};
ghost use Rattle.std.specs.List.{slice_get, slice_set};
ghost use Rattle.vsw_audit.specs.Private.Tasks.{NextTask, are_behind, are_ordered, lead_behind, lead_of, marked, next_low};
ghost use Rattle.vsw_audit.specs.declared.task.Task.{Task};

use vsw_base::Dir;

/// What a task asks for.
#[derive(Clone, Copy)]
pub(crate) enum Work {
    /// The command at a place of the file.
    Asks { place: u32 },
    /// The packet of this number, which comes in this direction.
    Carries { packet: u32, dir: Dir },
}

/// A task of a port, and what the line of it told.
#[derive(Clone, Copy)]
pub(crate) struct Task {
    /// The caller: the workers from 0 on, the controllers from 16 on.
    pub doer: u32,
    pub work: Work,
    pub entry: bool,
    pub count: u32,
}

fn doer_at(tasks: &[Task], place: usize) -> u32
    requires { place < length tasks.now }
    ensures { (t : Task) → slice_get tasks.now place ≡ Some t → result ≡ t.doer }
{
    tasks[place].doer
}

/// The place of a caller's next task, from a place on.
pub(crate) fn next_task(tasks: &[Task], caller: u32, from: usize) -> Option<usize>
    ensures next { NextTask caller from tasks.now result }
    ensures within { IfSome result (λ place. place < length tasks.now) }
{
    let mut place = from;
    while place < tasks.len() {
        if doer_at(tasks, place) == caller {
            return Some(place);
        }
        place += 1;
    }
    None
}

/// The task at a place.
pub(crate) fn task_at(tasks: &[Task], place: usize) -> Task
    requires { place < length tasks.now }
    ensures { (t : Task) → slice_get tasks.now place ≡ Some t → result ≡ t }
{
    tasks[place]
}

/// Keeps what a line told of the task at a place.
pub(crate) fn mark(tasks: &mut Vec<Task>, place: usize, entry: bool, count: u32)
    requires within { place < length tasks.old.items }
    ensures { (t : Task) → slice_get tasks.old.items place ≡ Some t → tasks.new.items ≡ slice_set tasks.old.items place (marked entry count t) }
{
    let task = tasks[place];
    tasks[place] = Task {
        doer: task.doer,
        work: task.work,
        entry,
        count,
    };
}

/// The number behind a task, if it is no entry or has this number.
fn behind(task: Task, low: u64) -> Option<u64>
    requires { low ≤ 2 ^ 32 }
    ensures value { result ≡ lead_behind low task }
    ensures few { IfSome result (λ next. next ≤ 2 ^ 32) }
{
    if !task.entry {
        return Some(low);
    }
    if u64::from(task.count) == low {
        Some(low + 1)
    } else {
        None
    }
}

/// The number behind the entries among these, where they have the numbers from this one on, one after the other.
pub(crate) fn lead(tasks: &[Task], low: u64) -> Option<u64>
    requires { low ≤ 2 ^ 32 }
    ensures { result ≡ lead_of low tasks.now }
{
    let mut next = low;
    for place in 0..tasks.len() {
        next = behind(tasks[place], next)?;
    }
    Some(next)
}

/// Whether no count is less.
pub(crate) fn is_behind(tasks: &[Task], least: u64) -> bool
    ensures { result ≡ are_behind least tasks.now }
{
    for place in 0..tasks.len() {
        if u64::from(tasks[place].count) < least {
            return false;
        }
    }
    true
}

/// The least count that may follow.
fn next_low(task: Task) -> u64
    ensures { result ≡ next_low task }
{
    if task.entry {
        u64::from(task.count) + 1
    } else {
        u64::from(task.count)
    }
}

/// Whether the counts never fall, and rise after an entry, from one count up to another.
pub(crate) fn is_ordered(tasks: &[Task], low: u64, high: u64) -> bool
    ensures { result ≡ are_ordered low tasks.now high }
{
    let mut least = low;
    for place in 0..tasks.len() {
        let task = tasks[place];
        if u64::from(task.count) < least {
            return false;
        }
        least = next_low(task);
    }
    least <= high
}
