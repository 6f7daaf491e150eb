//! Where rounds begin.

ghost use Rattle.std.specs.Prelude.{◌≡◌, ◌≤◌};
ghost use Rattle.vsw_replay.specs.Private.Cut.{is_named_by, IsNextCut};

use vsw_promise::Schedule;

/// The most packets of a round.
const ROUND_MOST: u32 = 1_024;

/// Whether a command names this packet.
pub fn is_named(schedule: &Schedule, first: u32) -> bool
    ensures { result ≡ is_named_by schedule.now first }
{
    !schedule.places(first).is_empty()
}

/// The next packet with which a round begins, if the trace has it.
pub fn next_cut(schedule: &Schedule, first: u32) -> u32
    requires few { first ≤ 1048576 }
    ensures next { IsNextCut schedule.now first result }
{
    let multiple = (first / ROUND_MOST + 1) * ROUND_MOST;
    match schedule.after(first) {
        Some(named) => multiple.min(named),
        None => multiple,
    }
}
