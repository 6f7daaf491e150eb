//! Reading a report, of a run that checks.

ghost use Rattle.std.specs.Prelude.{◌≤◌, length};
ghost use Rattle.vsw_files.specs.Claimed.{JudgesReport, ReadsReportNext};

use std::alloc::Global;
use vsw_check::{BadReport, Report, read_report};
use vsw_host::{Host, ReadEnd, read_file};
use vsw_run::{Ending, ReportFault};

/// Bytes of the longest report that is checked.
const REPORT_MAX: u64 = 268_435_456;

/// The report in these bytes, or how the run ends.
fn judged_report(alloc: Global, bytes: &[u8]) -> Result<Report, Ending>
    requires { length bytes.now ≤ 268435456 }
    ensures { JudgesReport bytes.now result }
{
    match read_report(alloc, bytes) {
        Ok(report) => Ok(report),
        Err(BadReport::Line { number }) => Err(Ending::Report(ReportFault::Line { number })),
        Err(BadReport::Memory) => Err(Ending::Memory),
    }
}

/// Reads the report of this name, after the trace. Its text isn't kept.
pub fn open_report<H: Host>(alloc: Global, host: &mut H, name: &str) -> Result<Report, Ending>
    ensures { ReadsReportNext (H.outside host.old) (H.outside host.new) name.now result }
{
    let mut bytes = Vec::new(alloc);
    match read_file(host, name, REPORT_MAX, &mut bytes) {
        ReadEnd::Whole => judged_report(alloc, &bytes),
        ReadEnd::Fault => Err(Ending::ReadFault),
        ReadEnd::Long => Err(Ending::Report(ReportFault::ReportLimit)),
        ReadEnd::Memory => Err(Ending::Memory),
    }
}
