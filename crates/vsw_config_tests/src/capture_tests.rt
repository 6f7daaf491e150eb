//! Captures as tcpdump writes them, read whole and byte by byte.

ghost use Rattle.std.specs.Prelude.{◌≡◌, ◌<◌};

use std::alloc::Global;
use vsw_base::Moment;
use vsw_pcap::{BadTrace, Batch, Captured, Found, Next, Reader, Record};

/// A header in little-endian order and microseconds: version 2.4, snap length 262,144, link type 1.
const LITTLE: &[u8; 24] =
    b"\xd4\xc3\xb2\xa1\x02\x00\x04\x00\x00\x00\x00\x00\x00\x00\x00\x00\x00\x00\x04\x00\x01\x00\x00\x00";

/// The same in big-endian order and nanoseconds.
const BIG_NANOS: &[u8; 24] =
    b"\xa1\xb2\x3c\x4d\x00\x02\x00\x04\x00\x00\x00\x00\x00\x00\x00\x00\x00\x04\x00\x00\x00\x00\x00\x01";

/// The header of a record of 44 bytes at moment 0, and the same one second and 999,999,999
/// nanoseconds later, in big-endian order.
const AT_START: &[u8; 16] = b"\x00\x00\x00\x00\x00\x00\x00\x00\x2c\x00\x00\x00\x2c\x00\x00\x00";

const LATER_NANOS: &[u8; 16] = b"\x00\x00\x00\x01\x3b\x9a\xc9\xff\x00\x00\x00\x2c\x00\x00\x00\x2c";

/// The header of a record at 1,000 microseconds, of whose 94 bytes 12 were captured.
const SNAPPED: &[u8; 16] = b"\x00\x00\x00\x00\xe8\x03\x00\x00\x0c\x00\x00\x00\x5e\x00\x00\x00";

/// UDP from 10.0.0.5, port 1234, to 10.0.0.9, port 53.
const QUERY: &[u8; 44] = b"\x02\x00\x00\x00\x00\x99\x02\x00\x00\x00\x00\x01\x08\x00\
\x45\x00\x00\x1e\x00\x00\x40\x00\x40\x11\x26\xc2\x0a\x00\x00\x05\x0a\x00\x00\x09\
\x04\xd2\x00\x35\x00\x0a\x7e\x5c\x68\x69";

/// What a reader gave, and the fault that it came to, if there was one.
#[derive(Drop)]
struct Transcript {
    records: Vec<Record>,
    fault: Option<BadTrace>,
}

/// Takes the records that are in hand, and answers what comes instead of the next one.
fn drain(reader: &mut Reader, records: &mut Vec<Record>) -> Option<Next>
    ensures finished { reader.new.finished ≡ reader.old.finished }
{
    loop {
        match reader.next().ok()? {
            Next::Record(record) => records.push(record).ok()?,
            other => return Some(other),
        }
    }
}

/// Reads a capture that is fed in pieces of so many bytes.
fn read_by(alloc: Global, size: usize, capture: &[u8]) -> Option<Transcript>
    requires { 0 < size }
{
    let mut reader = Reader::new(alloc);
    let mut records = Vec::new(alloc);
    let mut at = 0;
    while at < capture.len() {
        let end = at + size.min(capture.len() - at);
        reader.feed(&capture[at..end]).ok()?;
        at = end;
        drain(&mut reader, &mut records)?;
    }
    reader.finish();
    let fault = match drain(&mut reader, &mut records)? {
        Next::Bad(bad) => Some(bad),
        _ => None,
    };
    Some(Transcript { records, fault })
}

/// One slice after the other.
fn joined(alloc: Global, parts: &[&[u8]]) -> Option<Vec<u8>> {
    let mut whole = Vec::new(alloc);
    for part in parts {
        whole.extend_from_slice(part).ok()?;
    }
    Some(whole)
}

fn is_record(record: &Record, micros: u64, original: u32, bytes: &[u8]) -> bool {
    record.moment == Moment::of(micros)
        && record.original == original
        && record.bytes.as_slice() == bytes
}

fn are_both(records: &[Record]) -> bool {
    match records {
        [first, second] => {
            is_record(first, 0, 44, QUERY) && is_record(second, 1_000, 94, &QUERY[..12])
        }
        _ => false,
    }
}

fn reads_both(alloc: Global, size: usize, capture: &[u8]) -> bool
    requires { 0 < size }
{
    match read_by(alloc, size, capture) {
        Some(read) => read.fault.is_none() && are_both(&read.records),
        None => false,
    }
}

/// Reads a capture in pieces of each size. The first one with which both records aren't read is the
/// error.
fn reads_both_by_all(alloc: Global, capture: &[u8]) -> Result<(), usize> {
    for size in [1, 7, 60, 4_096] {
        if !reads_both(alloc, size, capture) {
            return Err(size);
        }
    }
    Ok(())
}

/// The error of a test that has no capture to read.
const NO_CAPTURE: usize = 0;

#[test]
fn two_records_are_read_however_they_are_fed(rt: HostRuntime) -> Result<(), usize> {
    let alloc = rt.alloc();
    match joined(alloc, &[LITTLE, AT_START, QUERY, SNAPPED, &QUERY[..12]]) {
        Some(capture) => reads_both_by_all(alloc, &capture),
        None => Err(NO_CAPTURE),
    }
}

/// Takes the records that are in hand into a batch, and answers what comes instead of the next one.
fn drain_into(reader: &mut Reader, batch: &mut Batch) -> Option<Found>
    ensures finished { reader.new.finished ≡ reader.old.finished }
{
    loop {
        match reader.read_into(batch).ok()? {
            Found::Record => {}
            other => return Some(other),
        }
    }
}

/// Reads a capture that is fed in pieces of so many bytes into a batch, and answers what comes after its records.
fn batch_by(alloc: Global, size: usize, capture: &[u8], batch: &mut Batch) -> Option<Found>
    requires { 0 < size }
{
    let mut reader = Reader::new(alloc);
    let mut at = 0;
    while at < capture.len() {
        let end = at + size.min(capture.len() - at);
        reader.feed(&capture[at..end]).ok()?;
        at = end;
        drain_into(&mut reader, batch)?;
    }
    reader.finish();
    drain_into(&mut reader, batch)
}

fn lends(record: &Captured<'_>, micros: u64, original: u32, bytes: &[u8]) -> bool {
    record.moment.micros() == micros && record.original == original && record.bytes == bytes
}

fn lends_both(batch: &Batch) -> bool {
    batch.len() == 2
        && lends(&batch.at(0), 0, 44, QUERY)
        && lends(&batch.at(1), 1_000, 94, &QUERY[..12])
}

/// Whether a capture of two records and a cut one is lent by a batch, which is cleared after that.
fn is_lent(alloc: Global, size: usize, capture: &[u8], batch: &mut Batch) -> bool
    requires { 0 < size }
{
    let Some(Found::Bad(BadTrace::Cut { at: 112 })) = batch_by(alloc, size, capture, batch) else {
        return false;
    };
    if !lends_both(batch) {
        return false;
    }
    batch.clear();
    batch.len() == 0
}

/// Lends a capture in pieces of each size. The first one with which it isn't lent is the error.
fn is_lent_by_all(alloc: Global, capture: &[u8]) -> Result<(), usize> {
    let mut batch = Batch::new(alloc);
    for size in [1, 7, 64] {
        if !is_lent(alloc, size, capture, &mut batch) {
            return Err(size);
        }
    }
    Ok(())
}

#[test]
fn a_batch_lends_each_record_before_and_after_it_is_cleared(rt: HostRuntime) -> Result<(), usize> {
    let alloc = rt.alloc();
    let parts: [&[u8]; 6] = [
        LITTLE,
        AT_START,
        QUERY,
        SNAPPED,
        &QUERY[..12],
        &SNAPPED[..3],
    ];
    match joined(alloc, &parts) {
        Some(capture) => is_lent_by_all(alloc, &capture),
        None => Err(NO_CAPTURE),
    }
}

fn is_later(records: &[Record]) -> bool {
    match records {
        [only] => is_record(only, 1_999_999, 44, QUERY),
        _ => false,
    }
}

fn reads_later(alloc: Global) -> Option<bool> {
    let capture = joined(alloc, &[BIG_NANOS, LATER_NANOS, QUERY])?;
    let read = read_by(alloc, 1, &capture)?;
    Some(read.fault.is_none() && is_later(&read.records))
}

#[test]
fn nanoseconds_in_the_other_order_are_rounded_down(rt: HostRuntime) {
    assert_eq!(rt; reads_later(rt.alloc()), Some(true));
}

/// A header in little-endian order with another version, or another link type.
const OLDER: &[u8; 24] =
    b"\xd4\xc3\xb2\xa1\x02\x00\x03\x00\x00\x00\x00\x00\x00\x00\x00\x00\x00\x00\x04\x00\x01\x00\x00\x00";

const RAW_IP: &[u8; 24] =
    b"\xd4\xc3\xb2\xa1\x02\x00\x04\x00\x00\x00\x00\x00\x00\x00\x00\x00\x00\x00\x04\x00\x65\x00\x00\x00";

/// The headers of records of 262,144 and 262,145 captured bytes.
const LONGEST: &[u8; 16] = b"\x00\x00\x00\x00\x00\x00\x00\x00\x00\x00\x04\x00\x00\x00\x04\x00";

const TOO_LONG: &[u8; 16] = b"\x00\x00\x00\x00\x00\x00\x00\x00\x01\x00\x04\x00\x01\x00\x04\x00";

/// Whether a capture comes to this end or fault, fed in pieces of so many bytes.
fn comes_by(alloc: Global, size: usize, capture: &[u8], fault: Option<BadTrace>) -> bool
    requires { 0 < size }
{
    match read_by(alloc, size, capture) {
        Some(read) => read.fault == fault,
        None => false,
    }
}

/// Whether a capture in these parts comes to it fed whole and byte by byte.
fn comes_to(alloc: Global, parts: &[&[u8]], fault: Option<BadTrace>) -> bool {
    match joined(alloc, parts) {
        Some(capture) => {
            comes_by(alloc, 4_096, &capture, fault) && comes_by(alloc, 1, &capture, fault)
        }
        None => false,
    }
}

/// The place of the first one that is false is the error.
fn are_true(answers: &[bool]) -> Result<(), usize> {
    match answers.iter().position(|answer| !*answer) {
        Some(place) => Err(place),
        None => Ok(()),
    }
}

fn refused(alloc: Global) -> [bool; 5] {
    [
        comes_to(alloc, &[LITTLE], None),
        comes_to(alloc, &[&LITTLE[..23]], Some(BadTrace::NotPcap)),
        comes_to(alloc, &[QUERY], Some(BadTrace::NotPcap)),
        comes_to(alloc, &[OLDER], Some(BadTrace::Version)),
        comes_to(alloc, &[RAW_IP], Some(BadTrace::LinkType)),
    ]
}

#[test]
fn headers_are_refused(rt: HostRuntime) -> Result<(), usize> {
    are_true(&refused(rt.alloc()))
}

const CUT: BadTrace = BadTrace::Cut { at: 84 };

const LONG: BadTrace = BadTrace::Cut { at: 24 };

const HUGE: BadTrace = BadTrace::Huge { at: 24 };

fn told(alloc: Global) -> [bool; 5] {
    [
        comes_to(alloc, &[LITTLE, AT_START, QUERY, &SNAPPED[..3]], Some(CUT)),
        comes_to(alloc, &[LITTLE, LONGEST, QUERY], Some(LONG)),
        comes_to(alloc, &[LITTLE, TOO_LONG], Some(HUGE)),
        CUT.number() == 4,
        HUGE.name() == "Huge",
    ]
}

#[test]
fn cut_and_huge_records_are_told_by_their_byte(rt: HostRuntime) -> Result<(), usize> {
    are_true(&told(rt.alloc()))
}
