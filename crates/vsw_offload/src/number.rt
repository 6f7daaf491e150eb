//! Numbers at a place of a file.

ghost use Rattle.std.specs.Prelude.{◌≡◌, ◌≤◌, ◌+◌, ◌*◌, ◌<◌, ◌^◌, drop, length, take};
ghost use Rattle.std.specs.List.{flat_map};
ghost use Rattle.byteorder.specs.Endian.{big_bytes, big_number, little_bytes, little_number};
ghost use Rattle.vsw_header.specs.Sum.{AreBytes};
ghost use Rattle.vsw_offload.specs.Bad as spec;
ghost use Rattle.vsw_offload.specs.Rows.{AreWords, row_bytes};

use byteorder::{BigEndian, ByteOrder, LittleEndian};
use vsw_base::Mac;

/// Bytes of a row.
pub(crate) const ROW_LEN: usize = 584;

/// Elements of a slice of bytes are below 256.
#[inline(always)]
fn are_bytes(bytes: &[u8])
    ensures { AreBytes bytes.now }
{}

/// The number in the first four bytes, the lowest first.
fn number(bytes: &[u8]) -> u32
    requires { 4 ≤ length bytes.now }
    ensures value { result ≡ little_number 4 bytes.now }
    ensures back { little_bytes 4 result ≡ take 4 bytes.now }
{
    are_bytes(bytes);
    LittleEndian::read_u32(bytes)
}

/// The number in the four bytes from a place on, the lowest first.
pub(crate) fn number_at(bytes: &[u8], at: usize) -> u32
    requires { at + 4 ≤ length bytes.now }
    ensures value { result ≡ little_number 4 (drop at bytes.now) }
    ensures back { little_bytes 4 result ≡ take 4 (drop at bytes.now) }
    ensures below { result < 2 ^ 32 }
{
    number(&bytes[at..])
}

/// The address in the first six bytes, the highest first.
fn address(bytes: &[u8]) -> Mac
    requires { 6 ≤ length bytes.now }
    ensures value { result ≡ big_number 6 bytes.now }
    ensures back { big_bytes 6 result ≡ take 6 bytes.now }
{
    are_bytes(bytes);
    Mac::of(BigEndian::read_u48(bytes))
}

/// The address in the six bytes from a place on, the highest first.
pub(crate) fn address_at(bytes: &[u8], at: usize) -> Mac
    requires { at + 6 ≤ length bytes.now }
    ensures value { result ≡ big_number 6 (drop at bytes.now) }
    ensures back { big_bytes 6 result ≡ take 6 (drop at bytes.now) }
    ensures below { result < 2 ^ 48 }
{
    let mac = address(&bytes[at..]);
    let _ = mac.number();
    mac
}

/// Reads words of eight bytes each, the lowest first.
fn words(bytes: &[u8], out: &mut [u64])
    requires long { length bytes.now ≡ 8 * length out.old }
    ensures words { out.new ≡ spec.words_in (length out.old) bytes.now }
    ensures back { flat_map (little_bytes 8) out.new ≡ bytes.now }
    ensures below { AreWords out.new }
{
    are_bytes(bytes);
    LittleEndian::read_u64_into(bytes, out);
}

/// Reads the words of the row that begins at a place.
pub(crate) fn row_at(bytes: &[u8], at: usize, out: &mut [u64; 73])
    requires { at + 584 ≤ length bytes.now }
    ensures words { out.new ≡ spec.row_at bytes.now at }
    ensures back { row_bytes out.new ≡ take 584 (drop at bytes.now) }
    ensures below { AreWords out.new }
{
    words(&bytes[at..at + ROW_LEN], out);
}
