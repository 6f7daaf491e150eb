//! Where a trace is cut.

ghost use Rattle.std.specs.Prelude.{◌≡◌, ◌≤◌, ◌<◌, ◌+◌, Some};
ghost use Rattle.vsw_promise.specs.Schedule.{least_from};
ghost use Rattle.vsw_audit.specs.Private.Rounds.{cut_numbers, lesser_of};

use vsw_promise::Schedule;

/// The most packets of a round.
const ROUND_MOST: u32 = 1_024;

/// The lesser of a number and another one, if there is one.
fn lesser(named: Option<u32>, multiple: u32) -> u32
    ensures { Some result ≡ lesser_of named (Some multiple) }
{
    match named {
        Some(named) => named.min(multiple),
        None => multiple,
    }
}

/// The next cut after one of a trace of so many records.
pub(crate) fn next_cut(commands: &Schedule, first: u32, total: u32) -> Option<u32>
    requires { total ≤ 1048576 }
    ensures { result ≡ least_from (first + 1) (cut_numbers commands.now total) }
{
    let named = commands.after(first);
    if first >= total {
        return named;
    }
    let multiple = (first / ROUND_MOST + 1) * ROUND_MOST;
    if multiple < total {
        Some(lesser(named, multiple))
    } else {
        named
    }
}
