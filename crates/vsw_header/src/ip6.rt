//! The IPv6 header (RFC 8200, section 3): version (4 bits), traffic class (8), flow label (20), payload
//! length (2 bytes), next header (1), hop limit (1), source (16), destination (16). Numbers have their
//! highest byte first.

ghost use Rattle.std.specs.Prelude.{◌≡◌, ◌≤◌, ◌+◌, IfOk, drop, length};
ghost use Rattle.byteorder.specs.Endian.{big_number};
ghost use Rattle.vsw_base.specs.Ipv6.{ip6_total, ip6_fields, ip6_of};
ghost use Rattle.vsw_base.specs.Fits.{IsFit};
ghost use Rattle.vsw_base.specs.declared.header.Header.TheVariants.{Six};
ghost use Rattle.vsw_header.specs.Ip6.{ip6_view, ip6_seen};

use byteorder::{BigEndian, ByteOrder};
use vsw_base::{BadFrame, Ip6};

/// Bytes of an IPv6 header.
const IP6_LEN: usize = 40;

/// Offset of the payload length.
const PAYLOAD: usize = 4;

/// Offset of the next header.
const PROTO: usize = 6;

/// Offset of the source address.
const SRC: usize = 8;

/// Offset of the destination address.
const DST: usize = 24;

/// An IPv6 header and what follows it.
#[derive(Clone, Copy, Debug, PartialEq, Eq)]
pub struct Ip6Part<'a> {
    pub src: Ip6,
    pub dst: Ip6,
    /// The next header: extension headers aren't read.
    pub proto: u8,
    /// Up to the payload length.
    pub payload: &'a [u8],
    /// After the payload length.
    pub trailer: &'a [u8],
}

/// The address at this offset.
#[inline(always)]
fn address(bytes: &[u8], at: usize) -> Ip6
    requires { at + 16 ≤ length bytes.now }
    ensures { result ≡ big_number 16 (drop at bytes.now) }
{
    Ip6::of(BigEndian::read_u128(&bytes[at..]))
}

/// Bytes of the packet with its header.
#[inline(always)]
fn total_len(bytes: &[u8]) -> usize
    requires { 40 ≤ length bytes.now }
    ensures { result ≡ ip6_total bytes.now }
{
    IP6_LEN + usize::from(BigEndian::read_u16(&bytes[PAYLOAD..]))
}

/// The fields of a header whose length was found to be right.
#[inline(always)]
fn fields<'a>(bytes: &'a [u8], total: usize) -> Ip6Part<'a>
    requires within { (40 ≤ total) × (total ≤ length bytes.now) }
    requires length { total ≡ ip6_total bytes.now }
    ensures fields { ip6_view result ≡ ip6_fields bytes.now }
    ensures fit { IsFit (Six result.src result.dst result.proto) }
{
    Ip6Part {
        src: address(bytes, SRC),
        dst: address(bytes, DST),
        proto: bytes[PROTO],
        payload: &bytes[..total][IP6_LEN..],
        trailer: &bytes[total..],
    }
}

/// The header that the bytes begin with. A payload length of 0 is an empty payload.
#[inline(always)]
pub fn read_ip6<'a>(bytes: &'a [u8]) -> Result<Ip6Part<'a>, BadFrame>
    ensures fields { ip6_seen result ≡ ip6_of bytes.now }
    ensures fit { IfOk result (λ part. IsFit (Six part.src part.dst part.proto)) }
{
    if bytes.len() < IP6_LEN {
        return Err(BadFrame::ShortIp6);
    }
    if bytes[0] >> 4 != 6 {
        return Err(BadFrame::Ip6Version);
    }
    let total = total_len(bytes);
    if bytes.len() < total {
        return Err(BadFrame::Ip6Length);
    }
    Ok(fields(bytes, total))
}
