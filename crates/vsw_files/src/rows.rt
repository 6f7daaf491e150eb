//! Reading rows, of a run that answers a trace from them.

ghost use Rattle.std.specs.Prelude.{◌≡◌};
ghost use Rattle.vsw_files.specs.Answering.{JudgesRows, ReadsRows};
ghost use Rattle.vsw_run.specs.Words.{Query};

use std::alloc::Global;
use vsw_host::{Host, ReadEnd, read_file};
use vsw_offload::{BadRows, Rows};
use vsw_run::{Ending, RowsFault};

/// Bytes of the longest rows file that is read.
const ROWS_MAX: u64 = 160_000_000;

/// The rows in these bytes, or how the run ends.
fn judged_rows(alloc: Global, bytes: &[u8]) -> Result<Rows, Ending>
    ensures { JudgesRows bytes.now result }
{
    match Rows::read(alloc, bytes) {
        Ok(rows) => Ok(rows),
        Err(BadRows::Memory) => Err(Ending::Memory),
        Err(why) => Err(Ending::Rows(RowsFault::Bad(why))),
    }
}

/// Reads the rows file of this name, before the trace is opened. Its bytes aren't kept.
pub fn open_rows<H: Host>(alloc: Global, host: &mut H, name: &str) -> Result<Rows, Ending>
    ensures { (q : Query) → q.rows ≡ name.now → ReadsRows q (H.outside host.old) (H.outside host.new) result }
{
    let mut bytes = Vec::new(alloc);
    match read_file(host, name, ROWS_MAX, &mut bytes) {
        ReadEnd::Whole => judged_rows(alloc, &bytes),
        ReadEnd::Fault => Err(Ending::ReadFault),
        ReadEnd::Long => Err(Ending::Rows(RowsFault::RowsLimit)),
        ReadEnd::Memory => Err(Ending::Memory),
    }
}
