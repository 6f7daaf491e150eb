//! Answering a trace from a rows file.

ghost use Rattle.vsw_files.specs.Answering.{HasAnswered};
ghost use Rattle.vsw_run.specs.Seen.{query_seen};

use std::alloc::Global;
use vsw_engine::answer_trace;
use vsw_files::open_rows;
use vsw_host::Host;
use vsw_run::{Ending, Query};

/// Answers a trace from a rows file alone: reads and judges the rows, and then opens the trace. It waits for nobody.
pub fn engine<H: Host>(alloc: Global, host: &mut H, query: &Query<'_>) -> Ending
    ensures { HasAnswered (query_seen query.now) (H.outside host.old) (H.outside host.new) result }
{
    match open_rows(alloc, host, query.rows) {
        Ok(rows) => answer_trace(alloc, host, &rows, query.trace),
        Err(end) => end,
    }
}
