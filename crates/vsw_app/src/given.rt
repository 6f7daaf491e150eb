//! The policy and the commands of a run, read and judged one after the other.

ghost use Rattle.vsw_app.specs.Stages.{ReadsGiven};
ghost use Rattle.vsw_run.specs.Seen.{request_seen};

use std::alloc::Global;
use vsw_base::Items;
use vsw_commandfile::Line;
use vsw_config::PolicyFile;
use vsw_files::{open_commands, open_policy};
use vsw_host::Host;
use vsw_run::{Ending, Request};

/// What a run is given besides its trace: a policy, and the commands under it.
#[derive(Drop)]
pub(crate) struct Given {
    pub policy: PolicyFile,
    pub lines: Items<Line>,
}

/// Reads the policy, and once that is good the commands.
pub(crate) fn open_given<H: Host>(
    alloc: Global,
    host: &mut H,
    request: &Request<'_>,
) -> Result<Given, Ending>
    ensures { ReadsGiven (request_seen request.now) (H.outside host.old) (H.outside host.new) result }
{
    let policy = match open_policy(alloc, host, request.policy) {
        Ok(policy) => policy,
        Err(end) => return Err(end),
    };
    match open_commands(alloc, host, &policy, request.commands) {
        Ok(lines) => Ok(Given { policy, lines }),
        Err(end) => Err(end),
    }
}
