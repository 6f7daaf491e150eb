//! Exporting the rows that are current behind a trace.

ghost use Rattle.std.specs.Prelude.{◌≡◌, ◌<◌, ◌+◌, ℕ, List, All, length, IfOk, OnOk, false};
ghost use Rattle.vsw_commandfile.specs.Good.{CanAsk};
ghost use Rattle.vsw_config.specs.Good.{IsGoodPolicy};
ghost use Rattle.vsw_crew.specs.Switch.{IsAt};
ghost use Rattle.vsw_port.specs.declared.event.Event.{Event};
ghost use Rattle.vsw_promise.specs.Jobs.{Setting};
ghost use Rattle.vsw_replay.specs.Exports.{ExportsTrace};
ghost use Rattle.vsw_replay.specs.Private.Exporting.{IsFile, IsWritten, PutsRows};

use crate::ending::TraceEnd;
use crate::quiet::run_quietly;
use std::alloc::Global;
use vsw_base::NoMemory;
use vsw_config::PolicyFile;
use vsw_crew::Switch;
use vsw_host::Host;
use vsw_offload::{begin_rows, write_port};
use vsw_promise::Schedule;

/// Appends the rows of the port at a place.
fn write_at(
    alloc: Global,
    switch: &mut Switch,
    place: u32,
    out: &mut Vec<u8>,
) -> Result<(), NoMemory>
    requires within { place < length switch.old.ports }
    ensures same { switch.new ≡ switch.old }
    ensures writes { OnOk result ((s : Setting) (hs : List (List Event)) (front : List ℕ) → IsAt s hs switch.old → IsWritten s hs place front out.old.items → IsWritten s hs (place + 1) front out.new.items) }
{
    let rows = switch.export(alloc, place)?;
    write_port(alloc, &rows, out)
}

/// The rows file of all ports. Only one port's rows stand in memory beside it.
fn rows_file(alloc: Global, switch: &mut Switch) -> Result<Vec<u8>, NoMemory>
    ensures { IfOk result (λ file. (s : Setting) (hs : List (List Event)) → IsAt s hs switch.old → IsFile s hs file.items) }
{
    let ports = switch.ports();
    let mut file = begin_rows(alloc, ports)?;
    for place in 0..ports {
        write_at(alloc, switch, place, &mut file)?;
    }
    Ok(file)
}

/// Puts the rows file, at once, after a run that put nothing.
fn put_rows<H: Host>(alloc: Global, host: &mut H, switch: &mut Switch) -> TraceEnd
    ensures { PutsRows switch.old (H.outside host.old) (H.outside host.new) result }
{
    match rows_file(alloc, switch) {
        Ok(file) => match host.put(file.as_slice()) {
            Ok(()) => TraceEnd::Done,
            Err(_) => TraceEnd::WriteFault,
        },
        Err(_) => TraceEnd::Memory,
    }
}

/// Runs the trace of this name in one thread, which tells nobody, and, once all of it was run and memory was wanting nowhere, puts
/// the rows file of its ports.
pub fn export_trace<H: Host>(
    alloc: Global,
    host: &mut H,
    policy: &PolicyFile,
    schedule: &Schedule,
    trace: &str,
) -> TraceEnd
    requires good { IsGoodPolicy policy.now }
    requires asked { All (CanAsk policy.now) schedule.now }
    ensures { ExportsTrace (record { workers = 1; policy = policy.now; commands = schedule.now; local = false }) (H.outside host.old) (H.outside host.new) trace.now result }
{
    let Ok(mut switch) = Switch::open_keeping(alloc, 1, policy, false) else {
        return TraceEnd::Memory;
    };
    match run_quietly(alloc, host, &mut switch, schedule, trace) {
        TraceEnd::Done => put_rows(alloc, host, &mut switch),
        end => end,
    }
}
