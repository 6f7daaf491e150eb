//! How the run of a trace ends.

use vsw_pcap::BadTrace;

/// How the run of a trace ended.
#[derive(Clone, Copy)]
pub enum TraceEnd {
    /// The trace was read to its end, and the whole report was put. No want of memory stands in it.
    Done,
    /// The trace couldn't be opened or read.
    ReadFault,
    /// The report couldn't be put.
    WriteFault,
    /// The trace is refused.
    Refused(BadTrace),
    /// The trace has more records than it may have.
    Records,
    /// There was no memory: for the run itself, or for a packet or a command of the report.
    Memory,
}
