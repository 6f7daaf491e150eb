//! Captures of libpcap's classic file format, version 2.4: their header and the record at the front.

ghost use Rattle.std.specs.Prelude.{◌≡◌, ◌+◌, ◌≤◌, ◌++◌, ◌∷◌, [], length, drop, Ok, Err, IfOk, OnOk, OnErr};
ghost use Rattle.vsw_pcap.specs.Capture.{number, fraction_of, form_of, tested, header_of, captured_of, front_of, moment_of, record_of, FitsIn};

use crate::batch::Batch;
use crate::fault::BadTrace;
use byteorder::{BigEndian, ByteOrder, LittleEndian};
use std::alloc::Global;
use vsw_base::{Items, Moment, NoMemory};

/// Bytes of a capture's header.
pub const HEADER_LEN: usize = 24;

/// Bytes of a record's header.
pub const RECORD_LEN: usize = 16;

/// The greatest captured length of a record, in bytes.
const MOST_CAPTURED: u32 = 262_144;

/// The order of the bytes of a capture's numbers.
#[derive(Clone, Copy)]
pub enum Order {
    /// The lowest byte first.
    Little,
    /// The highest byte first.
    Big,
}

/// What the fractions of a capture's seconds count.
#[derive(Clone, Copy)]
pub enum Fraction {
    Micros,
    Nanos,
}

/// How a capture is written, as its magic tells.
#[derive(Clone, Copy)]
pub struct Form {
    pub order: Order,
    pub fraction: Fraction,
}

/// What stands at the front of a capture's records.
#[derive(Clone, Copy)]
pub enum Front {
    /// A whole record with so many captured bytes.
    Whole(usize),
    /// No byte, or a record that isn't whole.
    Part,
    /// A record whose captured length is too great.
    Oversize,
}

/// A record of a capture: a packet, or the beginning of one.
#[derive(Drop)]
pub struct Record {
    pub moment: Moment,
    /// Bytes of the packet, of which perhaps not all were captured.
    pub original: u32,
    /// The captured bytes.
    pub bytes: Items<u8>,
}

/// The number in the two bytes from place `at` on.
fn short_at(order: Order, bytes: &[u8], at: usize) -> u16
    requires { at + 2 ≤ length bytes.now }
    ensures { result ≡ number order 2 (drop at bytes.now) }
{
    match order {
        Order::Little => LittleEndian::read_u16(&bytes[at..]),
        Order::Big => BigEndian::read_u16(&bytes[at..]),
    }
}

/// The number in the four bytes from place `at` on.
fn word_at(order: Order, bytes: &[u8], at: usize) -> u32
    requires { at + 4 ≤ length bytes.now }
    ensures { result ≡ number order 4 (drop at bytes.now) }
{
    match order {
        Order::Little => LittleEndian::read_u32(&bytes[at..]),
        Order::Big => BigEndian::read_u32(&bytes[at..]),
    }
}

/// What fractions count under this magic, where it is one.
fn fraction_under(magic: u32) -> Option<Fraction>
    ensures { result ≡ fraction_of magic }
{
    match magic {
        0xa1b2_c3d4 => Some(Fraction::Micros),
        0xa1b2_3c4d => Some(Fraction::Nanos),
        _ => None,
    }
}

/// The form that the magic at the front tells.
fn read_form(bytes: &[u8]) -> Option<Form>
    requires { 4 ≤ length bytes.now }
    ensures { result ≡ form_of bytes.now }
{
    if let Some(fraction) = fraction_under(LittleEndian::read_u32(bytes)) {
        return Some(Form {
            order: Order::Little,
            fraction,
        });
    }
    let fraction = fraction_under(BigEndian::read_u32(bytes))?;
    Some(Form {
        order: Order::Big,
        fraction,
    })
}

/// The form of the capture that begins with these bytes. Snap length and time zone aren't looked at.
pub fn read_header(bytes: &[u8]) -> Result<Form, BadTrace>
    ensures { result ≡ header_of bytes.now }
{
    if bytes.len() < HEADER_LEN {
        return Err(BadTrace::NotPcap);
    }
    let Some(form) = read_form(bytes) else {
        return Err(BadTrace::NotPcap);
    };
    if short_at(form.order, bytes, 4) != 2 || short_at(form.order, bytes, 6) != 4 {
        return Err(BadTrace::Version);
    }
    if word_at(form.order, bytes, 20) != 1 {
        return Err(BadTrace::LinkType);
    }
    Ok(form)
}

/// What stands at the front of these bytes.
pub fn read_front(form: Form, bytes: &[u8]) -> Front
    ensures front { result ≡ front_of form bytes.now }
    ensures fits { FitsIn result (length bytes.now) }
{
    if bytes.len() < RECORD_LEN {
        return Front::Part;
    }
    let captured = word_at(form.order, bytes, 8);
    if captured > MOST_CAPTURED {
        return Front::Oversize;
    }
    let captured = captured as usize;
    if bytes.len() < RECORD_LEN + captured {
        return Front::Part;
    }
    Front::Whole(captured)
}

/// The moment of the record at the front. Nanoseconds are rounded down to microseconds.
fn read_moment(form: Form, bytes: &[u8]) -> Moment
    requires { 16 ≤ length bytes.now }
    ensures { result ≡ moment_of form bytes.now }
{
    let seconds = u64::from(word_at(form.order, bytes, 0));
    let fraction = u64::from(word_at(form.order, bytes, 4));
    let micros = match form.fraction {
        Fraction::Micros => fraction,
        Fraction::Nanos => fraction / 1_000,
    };
    Moment::of(1_000_000 * seconds + micros)
}

/// The record at the front, which has so many captured bytes.
pub fn read_record(
    alloc: Global,
    form: Form,
    bytes: &[u8],
    captured: usize,
) -> Result<Record, NoMemory>
    requires { 16 + captured ≤ length bytes.now }
    ensures { IfOk result (λ r. r ≡ record_of form bytes.now captured) }
{
    let end = RECORD_LEN + captured;
    let Ok(copy) = Vec::from_slice(alloc, &bytes[RECORD_LEN..end]) else {
        return Err(NoMemory);
    };
    Ok(Record {
        moment: read_moment(form, bytes),
        original: word_at(form.order, bytes, 12),
        bytes: Items::of(copy),
    })
}

/// Copies the record at the front, which has so many captured bytes, to the end of a batch.
pub fn copy_record(
    form: Form,
    bytes: &[u8],
    captured: usize,
    batch: &mut Batch,
) -> Result<(), NoMemory>
    requires { 16 + captured ≤ length bytes.now }
    ensures ok { OnOk result (batch.new ≡ batch.old ++ record_of form bytes.now captured ∷ []) }
    ensures err { OnErr result (batch.new ≡ batch.old) }
{
    let moment = read_moment(form, bytes);
    let original = word_at(form.order, bytes, 12);
    batch.push(moment, original, &bytes[RECORD_LEN..RECORD_LEN + captured])
}
