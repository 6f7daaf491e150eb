//! An IPv4 header (RFC 791, section 3.1) whose addresses are changed.

ghost use Rattle.std.specs.Prelude.{◌≡◌, ◌≤◌, ◌++◌, IsTrue, drop, length};
ghost use Rattle.byteorder.specs.Endian.{big_bytes, big_number};
ghost use Rattle.vsw_header.specs.IpChange.{address_words, ip_changed, checksum_changed};
ghost use Rattle.vsw_header.specs.Update.{update_of};

use crate::sum::complement;
use crate::sum_change::changed_long;
use byteorder::{BigEndian, ByteOrder};
use vsw_base::Ip4;

/// Offset of the checksum, which the source and the destination address follow.
const CHECKSUM: usize = 10;

/// Offset of the source address.
const SRC: usize = 12;

/// Offset of the destination address.
const DST: usize = 16;

/// Offset of what follows the addresses.
const END: usize = 20;

/// Whether these addresses stand there.
#[inline(always)]
fn are_there(bytes: &[u8], src: Ip4, dst: Ip4) -> bool
    requires { 20 ≤ length bytes.now }
    ensures { IsTrue result → (src ≡ big_number 4 (drop 12 bytes.now)) × (dst ≡ big_number 4 (drop 16 bytes.now)) }
{
    BigEndian::read_u32(&bytes[SRC..]) == src.number()
        && BigEndian::read_u32(&bytes[DST..]) == dst.number()
}

/// Whether these addresses stand there, so that the header with them is the one that there is.
#[inline(always)]
fn is_same(bytes: &[u8], src: Ip4, dst: Ip4) -> bool
    requires { 20 ≤ length bytes.now }
    ensures { IsTrue result → ip_changed src dst bytes.now ≡ bytes.now }
{
    are_there(bytes, src, dst)
}

/// A checksum, updated for the words of two addresses that differ.
#[inline(always)]
fn updated(old: u16, from_src: u32, from_dst: u32, src: Ip4, dst: Ip4) -> u16
    ensures { result ≡ update_of old (address_words from_src from_dst) (address_words src dst) }
{
    let total = changed_long(u64::from(!old), from_src, src.number());
    complement(changed_long(total, from_dst, dst.number()))
}

/// The checksum that stands there, updated for the words of the addresses that differ.
#[inline(always)]
fn checksum(bytes: &[u8], src: Ip4, dst: Ip4) -> u16
    requires { 20 ≤ length bytes.now }
    ensures { result ≡ checksum_changed src dst bytes.now }
{
    updated(
        BigEndian::read_u16(&bytes[CHECKSUM..]),
        BigEndian::read_u32(&bytes[SRC..]),
        BigEndian::read_u32(&bytes[DST..]),
        src,
        dst,
    )
}

/// The bytes of a checksum and two addresses.
fn written(checksum: u16, src: Ip4, dst: Ip4) -> [u8; END - CHECKSUM]
    ensures bytes { result ≡ big_bytes 2 checksum ++ big_bytes 4 src ++ big_bytes 4 dst }
    ensures len { length result ≡ 10 }
{
    let [c0, c1] = checksum.to_be_bytes();
    let [s0, s1, s2, s3] = src.number().to_be_bytes();
    let [d0, d1, d2, d3] = dst.number().to_be_bytes();
    [c0, c1, s0, s1, s2, s3, d0, d1, d2, d3]
}

/// Changes the addresses of the header that the bytes begin with, and updates its checksum for the
/// words that differ (RFC 1624).
pub fn change_ip(bytes: &mut [u8], src: Ip4, dst: Ip4)
    requires { 20 ≤ length bytes.old }
    ensures { bytes.new ≡ ip_changed src dst bytes.old }
{
    if is_same(bytes, src, dst) {
        return;
    }
    let checksum = checksum(bytes, src, dst);
    bytes[CHECKSUM..END].copy_from_slice(&written(checksum, src, dst));
}
