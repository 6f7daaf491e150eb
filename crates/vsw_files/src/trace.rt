//! Reading a trace as a whole, of a run that checks.

ghost use Rattle.std.specs.Prelude.{◌≡◌, ◌≤◌, [], Ok};
ghost use Rattle.vsw_files.specs.Claimed.{ReadsTraceNext};
ghost use Rattle.vsw_files.specs.Private.Whole.{EndsSo, IfStopped, IfUnread, OpensTrace, ReadsWhole};
ghost use Rattle.vsw_host.specs.Outside.{SameOutputs};
ghost use Rattle.vsw_reading.specs.Reads.{IsOpen};

use std::alloc::Global;
use vsw_base::NoMemory;
use vsw_host::{Host, Source, Unopened};
use vsw_reading::{Reading, Stop, begin_reading, fill, peek};
use vsw_run::Ending;

/// The most records of a trace.
const RECORDS_MOST: u32 = 1_048_576;

/// Looks at what follows, where as many records were read as a trace may have. `Full` is answered where a byte does.
fn look_past<H: Host>(host: &mut H, reading: &mut Reading, stop: Stop) -> Stop
    requires near { IsOpen (H.outside host.old) reading.old }
    ensures ends { IfStopped (H.outside host.old) reading.old stop (λ start name. EndsSo start (H.outside host.new) name reading.new.batch (Ok result)) }
    ensures later { IfStopped (H.outside host.old) reading.old stop (λ start name. start.input_faults ≤ (H.outside host.new).input_faults) }
    ensures outputs { SameOutputs (H.outside host.old) (H.outside host.new) }
{
    match stop {
        Stop::Full => peek(host, reading),
        _ => stop,
    }
}

/// Reads all records into the batch, as many as a trace may have. `Full` is answered where a byte follows these.
fn read_records<H: Host>(host: &mut H, reading: &mut Reading) -> Result<Stop, NoMemory>
    requires near { IsOpen (H.outside host.old) reading.old }
    requires empty { reading.old.batch ≡ [] }
    ensures ends { IfUnread (H.outside host.old) reading.old (λ start name. EndsSo start (H.outside host.new) name reading.new.batch result) }
    ensures later { IfUnread (H.outside host.old) reading.old (λ start name. start.input_faults ≤ (H.outside host.new).input_faults) }
    ensures outputs { SameOutputs (H.outside host.old) (H.outside host.new) }
{
    match fill(host, reading, RECORDS_MOST) {
        Ok(stop) => Ok(look_past(host, reading, stop)),
        Err(_) => Err(NoMemory),
    }
}

/// Reads a trace of which nothing was read to its end.
fn read_whole<H: Host>(host: &mut H, reading: &mut Reading) -> Result<(), Ending>
    requires near { IsOpen (H.outside host.old) reading.old }
    requires empty { reading.old.batch ≡ [] }
    ensures whole { IfUnread (H.outside host.old) reading.old (λ start name. ReadsWhole start (H.outside host.new) name reading.new.batch result) }
    ensures later { IfUnread (H.outside host.old) reading.old (λ start name. start.input_faults ≤ (H.outside host.new).input_faults) }
    ensures outputs { SameOutputs (H.outside host.old) (H.outside host.new) }
{
    match read_records(host, reading) {
        Ok(Stop::End) => Ok(()),
        Ok(Stop::Full) => Err(Ending::Records),
        Ok(Stop::Fault) => Err(Ending::ReadFault),
        Ok(Stop::Bad(bad)) => Err(Ending::Trace(bad)),
        Err(_) => Err(Ending::Memory),
    }
}

/// Opens the trace of this name, and reads it to its end.
fn read_trace<H: Host>(alloc: Global, host: &mut H, name: &str) -> Result<Reading, Ending>
    ensures { OpensTrace (H.outside host.old) (H.outside host.new) name.now result }
{
    match Source::open(alloc, host, name) {
        Ok(source) => {
            let mut reading = begin_reading(alloc, source);
            match read_whole(host, &mut reading) {
                Ok(()) => Ok(reading),
                Err(end) => Err(end),
            }
        }
        Err(Unopened::Fault) => Err(Ending::ReadFault),
        Err(Unopened::Memory) => Err(Ending::Memory),
    }
}

/// Reads the whole trace of this name, after the commands. Its records are in the batch.
pub fn open_trace<H: Host>(alloc: Global, host: &mut H, name: &str) -> Result<Reading, Ending>
    ensures { ReadsTraceNext (H.outside host.old) (H.outside host.new) name.now result }
{
    read_trace(alloc, host, name)
}
