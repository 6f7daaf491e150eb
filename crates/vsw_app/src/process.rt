//! What the process ends with, told from how its run ended.

ghost use Rattle.std.specs.Prelude.{◌≡◌, ◌↔◌};
ghost use Rattle.vsw_run.specs.Complaint.{number_of};
ghost use Rattle.vsw_app.specs.Exit.{status_without, Exits};

use crate::open::Open;
use crate::run::run_words;
use std::alloc::Global;
use std::io;
use std::process::ExitCode;
use std::sync::Wait;
use std::thread::Threads;
use std::time::Clock;
use vsw_host::Host;
use vsw_run::{Status, Word};

/// How a run ends whose words can't be had: one that isn't UTF-8 is of no grammar.
pub fn status_without(error: io::ErrorKind) -> Status
    ensures { result ≡ status_without error }
{
    match error {
        io::ErrorKind::OutOfMemory => Status::Memory,
        _ => Status::Usage,
    }
}

/// The exit status of how a run ended (docs/FORMATS.md).
pub fn exit_code(status: Status) -> u8
    ensures number { result ≡ number_of status }
    ensures done { (result ≡ 0) ↔ (status ≡ Status.Done) }
{
    match status {
        Status::Done => 0,
        Status::Usage => 2,
        Status::ReadFault => 3,
        Status::WriteFault => 4,
        Status::Refused => 5,
        Status::Limit => 6,
        Status::Illegal => 8,
        Status::Memory => 9,
    }
}

/// Runs with a gate and a watch that do nothing, and answers what the process ends with.
pub fn run_process<R: Threads + Wait + Clock + Sync, H: Host>(
    rt: &R,
    alloc: Global,
    words: &[Word],
    host: &mut H,
) -> ExitCode
    ensures { Exits words.now (H.outside host.old) (H.outside host.new) result }
{
    let status = run_words(rt, alloc, words, host, &Open);
    ExitCode::from(exit_code(status))
}
