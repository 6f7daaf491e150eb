//! How a run ends.

use vsw_commandfile::CommandsFault;
use vsw_config::ConfigFault;
use vsw_offload::BadRows;
use vsw_pcap::BadTrace;

/// What is wrong with a report that was to be checked.
#[derive(Clone, Copy, Debug, PartialEq, Eq)]
pub enum ReportFault {
    /// No report's text begins with the lines up to this one, counted from 1, and some does with those before it.
    Line { number: u32 },
    /// It has more bytes than a report may have.
    ReportLimit,
}

/// What is wrong with rows that were to answer a trace.
#[derive(Clone, Copy, Debug, PartialEq, Eq)]
pub enum RowsFault {
    /// They are no rows file: the first part, as they are read, that is at fault.
    Bad(BadRows),
    /// They have more bytes than a rows file may have.
    RowsLimit,
}

/// How a run ended, with what the complaint names.
#[derive(Drop)]
pub enum Ending {
    /// All files were read to their ends, and the whole report was put. No want of memory stands in it. Of a run that checks: the report is legal.
    Done,
    /// The words aren't of the grammar.
    Usage,
    /// A file couldn't be opened or read.
    ReadFault,
    /// The report, or the answer, couldn't be put.
    WriteFault,
    /// The policy is refused, or over a limit.
    Policy(ConfigFault),
    /// The commands are refused, or over a limit.
    Commands(CommandsFault),
    /// The trace is refused.
    Trace(BadTrace),
    /// The trace has more records than it may have.
    Records,
    /// The report that was to be checked is refused, or over its limit.
    Report(ReportFault),
    /// The rows that were to answer the trace are refused, or over their limit.
    Rows(RowsFault),
    /// The report that was checked isn't that of such a run.
    Illegal,
    /// There was no memory: for the run itself, or for a packet or a command of the report.
    Memory,
}

/// The exit status of a run. The program ends with the number.
#[derive(Clone, Copy, Debug, PartialEq, Eq)]
pub enum Status {
    /// 0.
    Done,
    /// 2.
    Usage,
    /// 3.
    ReadFault,
    /// 4.
    WriteFault,
    /// 5.
    Refused,
    /// 6.
    Limit,
    /// 8.
    Illegal,
    /// 9.
    Memory,
}
