//! Answers from a rows file of one row, for the query.

use crate::app::rows::{BUT_ONE, ENGINE, FRONT, HEAD, QUERY_LINE, ROWS, ZEROS};
use crate::app::running::{Ending, QUERY, RECORD, TRACE, Wrong, check, host_of_rows};
use crate::memory::HEADER;
use std::alloc::Global;
use std::sync::Wait;
use std::thread::Threads;
use std::time::Clock;
use vsw_run::Status;

/// The query to port 54, its checksum left as it was; from an address of no port; and cut.
const OTHER_PORT: &[u8] =
    b"\x02\x00\x00\x00\x00\x99\x02\x00\x00\x00\x00\x01\x08\x00\x45\x00\x00\x1e\x00\x00\x40\x00\x40\x11\x26\xc2\x0a\x00\x00\x05\x0a\x00\x00\x09\x04\xd2\x00\x36\x00\x0a\x7e\x5c\x68\x69";

const STRANGE: &[u8] =
    b"\x02\x00\x00\x00\x00\x99\x02\x00\x00\x00\x00\x02\x08\x00\x45\x00\x00\x1e\x00\x00\x40\x00\x40\x11\x26\xc2\x0a\x00\x00\x05\x0a\x00\x00\x09\x04\xd2\x00\x35\x00\x0a\x7e\x5c\x68\x69";

/// The header of a record of 44 bytes, of which one wasn't captured.
const SNAPPED: &[u8] = b"\x00\x00\x00\x00\x00\x00\x00\x00\x2c\x00\x00\x00\x2d\x00\x00\x00";

/// Answers this trace from these rows, with these calls failing.
fn answer<R: Threads + Wait + Clock + Sync>(
    rt: &R,
    alloc: Global,
    rows: &[&[u8]],
    trace: &[&[u8]],
    failing: &[u64],
    wanted: Ending<'_>,
) -> Result<(), Wrong> {
    match host_of_rows(alloc, rows, trace, failing) {
        Ok(mut host) => check(rt, alloc, &mut host, ENGINE, wanted),
        Err(wrong) => Err(wrong),
    }
}

#[test]
fn a_row_answers_its_packet(rt: HostRuntime) -> Result<(), Wrong> {
    let wanted = (Status::Done, [HEAD, QUERY_LINE].as_slice(), b"".as_slice());
    answer(&rt, rt.alloc(), ROWS, TRACE, &[], wanted)
}

/// Traces, with what is put behind the head, how it ends, and what is complained.
const TRACES: [(&[&[u8]], &[u8], Status, &[u8]); 8] = [
    (
        &[HEADER, RECORD, OTHER_PORT],
        b"0 1 none\n",
        Status::Done,
        b"",
    ),
    (&[HEADER, RECORD, STRANGE], b"0 noport\n", Status::Done, b""),
    (&[HEADER, SNAPPED, QUERY], b"0 snapped\n", Status::Done, b""),
    (&[HEADER], b"", Status::Done, b""),
    (
        &[HEADER, RECORD, STRANGE, RECORD, OTHER_PORT],
        b"0 noport\n1 1 none\n",
        Status::Done,
        b"",
    ),
    (
        &[HEADER, RECORD, OTHER_PORT, b"123"],
        b"0 1 none\n",
        Status::Refused,
        b"vsw: refused trace Cut 84\n",
    ),
    (
        &[HEADER, b"\0\0\0\0\0\0\0\0\x01\0\0\0\x01\0\0\0x"],
        b"0 malformed 1 ShortEther\n",
        Status::Done,
        b"",
    ),
    (
        &[HEADER, b"\0\0\0\0\0\0\0\0\x01\0\x10\0\x01\0\x10\0"],
        b"",
        Status::Refused,
        b"vsw: refused trace Huge 24\n",
    ),
];

#[test]
fn other_packets_need_the_layers(rt: HostRuntime) -> Result<(), Wrong> {
    for (place, (trace, lines, status, complaint)) in TRACES.iter().enumerate() {
        let put = [HEAD, *lines];
        let wanted = (*status, put.as_slice(), *complaint);
        if answer(&rt, rt.alloc(), ROWS, trace, &[], wanted).is_err() {
            return Err(Wrong::Run(place));
        }
    }
    Ok(())
}

/// Bytes that are no rows file, and what is said of them.
const NO_ROWS: [(&[&[u8]], &[u8]); 5] = [
    (&[FRONT, BUT_ONE], b"vsw: refused rows Cut 30\n"),
    (&[FRONT, ZEROS, b"\0"], b"vsw: refused rows Extra 614\n"),
    (&[b"VSWROWS2"], b"vsw: refused rows NotRows\n"),
    (&[b"VSWROWS1\x11\0\0\0"], b"vsw: refused rows ManyPorts 8\n"),
    (
        &[b"VSWROWS1\x01\0\0\0\x01\0\0\0\x02\0\0\0\0\x01\0\0\0\0\x01\x40\0\0"],
        b"vsw: refused rows ManyRows 26\n",
    ),
];

#[test]
fn what_is_no_rows_file_is_refused_before_the_trace(rt: HostRuntime) -> Result<(), Wrong> {
    for (place, (rows, complaint)) in NO_ROWS.iter().enumerate() {
        let wanted = (Status::Refused, [].as_slice(), *complaint);
        if answer(&rt, rt.alloc(), rows, &[b"no trace"], &[], wanted).is_err() {
            return Err(Wrong::Run(place));
        }
    }
    Ok(())
}

#[test]
fn a_trace_with_a_bad_header_puts_nothing(rt: HostRuntime) -> Result<(), Wrong> {
    let complaint = b"vsw: refused trace NotPcap\n".as_slice();
    let wanted = (Status::Refused, [].as_slice(), complaint);
    answer(&rt, rt.alloc(), ROWS, &[b"no trace"], &[], wanted)
}

/// Calls of the host that fail, with what was put: the rows are opened by call 1 and read by 2 and 3, the trace is opened by 4, and read by 5 and 6; then the
/// head is put by 7, and the lines by 8.
const FAULTS: [(u64, &[&[u8]], Status, &[u8]); 6] = [
    (1, &[], Status::ReadFault, b"vsw: read fault\n"),
    (2, &[], Status::ReadFault, b"vsw: read fault\n"),
    (4, &[], Status::ReadFault, b"vsw: read fault\n"),
    (5, &[], Status::ReadFault, b"vsw: read fault\n"),
    (7, &[], Status::WriteFault, b"vsw: write fault\n"),
    (8, &[HEAD], Status::WriteFault, b"vsw: write fault\n"),
];

#[test]
fn a_call_that_fails_ends_the_run(rt: HostRuntime) -> Result<(), Wrong> {
    for (call, put, status, complaint) in FAULTS {
        let wanted = (status, put, complaint);
        if answer(&rt, rt.alloc(), ROWS, TRACE, &[call], wanted).is_err() {
            return Err(Wrong::Call(call));
        }
    }
    Ok(())
}
