//! The IPv4 header (RFC 791, section 3.1): version and header length in words of 4 bytes (1 byte),
//! service (1), total length (2), id (2), flags and fragment offset (2), time to live (1), protocol
//! (1), checksum (2), source (4), destination (4), options. Numbers have their highest byte first.

ghost use Rattle.std.specs.Prelude.{◌≡◌, ◌≤◌, IfOk, drop, length, take};
ghost use Rattle.vsw_base.specs.Ipv4.{ip_header, ip_total, is_part, ip_fields, ip_of};
ghost use Rattle.vsw_base.specs.Fits.{IsFit};
ghost use Rattle.vsw_base.specs.declared.header.Header.TheVariants.{Ip};
ghost use Rattle.vsw_header.specs.Ip.{ip_bytes, ip_view, ip_seen, pushed_ip_bytes};

use crate::sum::fresh;
use byteorder::{BigEndian, ByteOrder};
use vsw_base::{BadFrame, Ip4};

/// Bytes of an IPv4 header without options.
const IP_LEN: usize = 20;

/// Offset of the total length.
const TOTAL: usize = 2;

/// Offset of flags and fragment offset.
const FRAGMENT: usize = 6;

/// Offset of the protocol.
const PROTO: usize = 9;

/// Offset of the source address.
const SRC: usize = 12;

/// Offset of the destination address.
const DST: usize = 16;

/// The bits of flags and fragment offset that mark a fragment: more fragments, and the offset.
const PART_BITS: u16 = 0x3fff;

/// An IPv4 header and what follows it.
#[derive(Clone, Copy, Debug, PartialEq, Eq)]
pub struct IpPart<'a> {
    pub src: Ip4,
    pub dst: Ip4,
    pub proto: u8,
    /// Whether this is a fragment.
    pub part: bool,
    /// Up to the total length.
    pub payload: &'a [u8],
    /// After the total length.
    pub trailer: &'a [u8],
}

/// Bytes of the header that the bytes begin with, its options among them.
#[inline(always)]
pub fn header_len(bytes: &[u8]) -> usize
    requires { 1 ≤ length bytes.now }
    ensures value { result ≡ ip_header bytes.now }
    ensures small { result ≤ 60 }
{
    4 * usize::from(bytes[0] & 0x0f)
}

/// Bytes of the packet with its header.
#[inline(always)]
fn total_len(bytes: &[u8]) -> usize
    requires { 20 ≤ length bytes.now }
    ensures { result ≡ ip_total bytes.now }
{
    usize::from(BigEndian::read_u16(&bytes[TOTAL..]))
}

/// Whether this is a fragment.
#[inline(always)]
fn is_fragment(bytes: &[u8]) -> bool
    requires { 20 ≤ length bytes.now }
    ensures { result ≡ is_part bytes.now }
{
    BigEndian::read_u16(&bytes[FRAGMENT..]) & PART_BITS != 0
}

/// The fields of a header whose lengths were found to be right.
#[inline(always)]
fn fields<'a>(bytes: &'a [u8], header: usize, total: usize) -> IpPart<'a>
    requires within { (20 ≤ length bytes.now) × (total ≤ length bytes.now) × (header ≤ total) }
    requires lengths { (header ≡ ip_header bytes.now) × (total ≡ ip_total bytes.now) }
    ensures fields { ip_view result ≡ ip_fields bytes.now }
    ensures fit { IsFit (Ip result.src result.dst result.proto result.part) }
{
    IpPart {
        src: Ip4::of(BigEndian::read_u32(&bytes[SRC..])),
        dst: Ip4::of(BigEndian::read_u32(&bytes[DST..])),
        proto: bytes[PROTO],
        part: is_fragment(bytes),
        payload: &bytes[..total][header..],
        trailer: &bytes[total..],
    }
}

/// The header that the bytes begin with. Options are skipped, and the checksum isn't looked at:
/// captures under checksum offload hold wrong ones.
#[inline(always)]
pub fn read_ip<'a>(bytes: &'a [u8]) -> Result<IpPart<'a>, BadFrame>
    ensures fields { ip_seen result ≡ ip_of bytes.now }
    ensures fit { IfOk result (λ part. IsFit (Ip part.src part.dst part.proto part.part)) }
{
    if bytes.len() < IP_LEN {
        return Err(BadFrame::ShortIp);
    }
    if bytes[0] >> 4 != 4 {
        return Err(BadFrame::IpVersion);
    }
    let header = header_len(bytes);
    let total = total_len(bytes);
    if header < IP_LEN || total < header || bytes.len() < total {
        return Err(BadFrame::IpLength);
    }
    Ok(fields(bytes, header, total))
}

/// The bytes of the header of an encapsulation: version 4, header length 5 words, service 0, id 0,
/// don't fragment, time to live 64, UDP.
fn header(src: Ip4, dst: Ip4, total: u16, checksum: u16) -> [u8; IP_LEN]
    ensures bytes { result ≡ ip_bytes src dst total checksum }
    ensures len { length result ≡ 20 }
{
    let [t0, t1] = total.to_be_bytes();
    let [c0, c1] = checksum.to_be_bytes();
    let [s0, s1, s2, s3] = src.number().to_be_bytes();
    let [d0, d1, d2, d3] = dst.number().to_be_bytes();
    [
        0x45, 0, t0, t1, 0, 0, 0x40, 0, 64, 17, c0, c1, s0, s1, s2, s3, d0, d1, d2, d3,
    ]
}

/// Writes the header of an encapsulation at the front. `total` counts its bytes and all that follow
/// it.
#[tactic(auto, unfolding(crate::specs::Ip::pushed_checksum))]
pub fn write_ip(out: &mut [u8], src: Ip4, dst: Ip4, total: u16)
    requires { 20 ≤ length out.old }
    ensures front { take 20 out.new ≡ pushed_ip_bytes src dst total }
    ensures rest { drop 20 out.new ≡ drop 20 out.old }
{
    let checksum = fresh(&header(src, dst, total, 0));
    out[..IP_LEN].copy_from_slice(&header(src, dst, total, checksum));
}
