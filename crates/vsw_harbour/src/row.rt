//! The lanes of a caller.

ghost use Rattle.std.specs.Prelude.{◌≡◌, ◌≤◌, ◌<◌, length};
ghost use Rattle.vsw_dock.specs.Lanes.{AreFit, IsOwn, IsTaken};
ghost use Rattle.vsw_dock.specs.Work.{job_in};
ghost use Rattle.vsw_dock.specs.ActorsDone.{AreAlike};
ghost use Rattle.vsw_dock.specs.Docks.{is_of, locals, pass_in, permits, port_in, takes};
ghost use Rattle.vsw_harbour.specs.Able.{IsLine};
ghost use Rattle.vsw_harbour.specs.Working.{RowDoes};

use std::alloc::Global;
use std::sync::Wait;
use vsw_dock::{Dock, Lane, Naming, Parcel, Station, Watch, Work, step_at};

/// The lanes of a caller ask a line at the port at a place, and nothing at the others. A line hands nothing on.
fn step_lanes<'w, 'g, J: Naming, G: Watch, R: Wait>(
    rt: &R,
    alloc: Global,
    docks: &[Dock<'g, J, G>],
    lanes: &mut [Lane<Station>],
    caller: usize,
    place: usize,
    job: &Work<'w>,
)
    requires few { length docks.now ≤ 16 }
    requires within { place < length docks.now }
    requires line { IsLine job.now }
    requires alike { AreAlike locals docks.now }
    requires own { IsOwn port_in (job_in job.now) caller docks.now }
    requires taken { IsTaken takes 0 place job.now docks.now }
    requires fit { AreFit pass_in is_of permits caller 1 docks.now lanes.old }
    ensures works { RowDoes caller docks.now (place, job_in job.now) lanes.old lanes.new }
{
    let mut none = Parcel::none(alloc);
    step_at(rt, alloc, docks, lanes, 0, place, job, &mut none);
}

/// The row of a caller asks a line at the port at a place, and nothing at the others.
pub fn step<'w, 'g, J: Naming, G: Watch, R: Wait>(
    rt: &R,
    alloc: Global,
    docks: &[Dock<'g, J, G>],
    row: &mut Vec<Lane<Station>>,
    caller: usize,
    place: usize,
    job: &Work<'w>,
)
    requires few { length docks.now ≤ 16 }
    requires within { place < length docks.now }
    requires line { IsLine job.now }
    requires alike { AreAlike locals docks.now }
    requires own { IsOwn port_in (job_in job.now) caller docks.now }
    requires taken { IsTaken takes 0 place job.now docks.now }
    requires fit { AreFit pass_in is_of permits caller 1 docks.now row.old.items }
    ensures works { RowDoes caller docks.now (place, job_in job.now) row.old.items row.new.items }
{
    step_lanes(rt, alloc, docks, row.as_mut_slice(), caller, place, job);
}
