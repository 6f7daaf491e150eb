//! Forwarding a trace, and putting the rows that are current at its end.

ghost use Rattle.std.specs.Prelude.{◌≡◌, All, false};
ghost use Rattle.vsw_app.specs.Stages.{HasExported};
ghost use Rattle.vsw_commandfile.specs.Good.{CanAsk};
ghost use Rattle.vsw_config.specs.Good.{IsGoodPolicy};
ghost use Rattle.vsw_replay.specs.Exports.{ExportsTrace};
ghost use Rattle.vsw_run.specs.Seen.{request_seen};

use crate::ending::ending_of;
use crate::given::{Given, open_given};
use std::alloc::Global;
use vsw_base::Items;
use vsw_commandfile::Line;
use vsw_config::PolicyFile;
use vsw_host::Host;
use vsw_promise::Schedule;
use vsw_replay::{TraceEnd, export_trace};
use vsw_run::{Ending, Request};

/// Runs the trace of this name through the ports of a policy, with these commands, and puts the rows.
fn export_through<H: Host>(
    alloc: Global,
    host: &mut H,
    policy: &PolicyFile,
    lines: Items<Line>,
    trace: &str,
) -> TraceEnd
    requires good { IsGoodPolicy policy.now }
    requires asked { All (CanAsk policy.now) lines }
    ensures { ExportsTrace (record { workers = 1; policy = policy.now; commands = lines; local = false }) (H.outside host.old) (H.outside host.new) trace.now result }
{
    let Ok(schedule) = Schedule::new(alloc, lines) else {
        return TraceEnd::Memory;
    };
    export_trace(alloc, host, policy, &schedule, trace)
}

/// Runs over the files that the words name with one worker, each read and judged before the next is opened, and puts the rows that are
/// current once the whole trace was read. It waits for nobody.
pub(crate) fn offload<H: Host>(alloc: Global, host: &mut H, request: &Request<'_>) -> Ending
    requires alone { request.now.workers ≡ 1 }
    ensures { HasExported (request_seen request.now) (H.outside host.old) (H.outside host.new) result }
{
    let Given { policy, lines } = match open_given(alloc, host, request) {
        Ok(given) => given,
        Err(end) => return end,
    };
    ending_of(export_through(alloc, host, &policy, lines, request.trace))
}
