//! The Ethernet header (RFC 894): destination (6 bytes), source (6), type (2). Numbers have their
//! highest byte first.

ghost use Rattle.std.specs.Prelude.{◌≡◌, ◌≤◌, ◌++◌, IfOk, drop, length, take};
ghost use Rattle.byteorder.specs.Endian.{big_bytes, big_number};
ghost use Rattle.vsw_base.specs.Ethernet.{ether_of};
ghost use Rattle.vsw_base.specs.Fits.{IsFit};
ghost use Rattle.vsw_base.specs.declared.header.Header.TheVariants.{Ether};
ghost use Rattle.vsw_header.specs.EtherChange.{ether_changed};
ghost use Rattle.vsw_header.specs.Ether.{ether_bytes, ether_seen};

use byteorder::{BigEndian, ByteOrder};
use vsw_base::{BadFrame, Mac};

/// Bytes of an Ethernet header.
const ETHER_LEN: usize = 14;

/// Offset of the source address.
const SRC: usize = 6;

/// Offset of the type.
const KIND: usize = 12;

/// An Ethernet header and what follows it.
#[derive(Clone, Copy, Debug, PartialEq, Eq)]
pub struct EtherPart<'a> {
    pub dst: Mac,
    pub src: Mac,
    pub kind: u16,
    pub rest: &'a [u8],
}

/// The address that the bytes begin with.
#[inline(always)]
fn read_mac(bytes: &[u8]) -> Mac
    requires { 6 ≤ length bytes.now }
    ensures { result ≡ big_number 6 bytes.now }
{
    Mac::of_bytes([bytes[0], bytes[1], bytes[2], bytes[3], bytes[4], bytes[5]])
}

/// The header that the bytes begin with.
#[inline(always)]
pub fn read_ether<'a>(bytes: &'a [u8]) -> Result<EtherPart<'a>, BadFrame>
    ensures fields { ether_seen result ≡ ether_of bytes.now }
    ensures fit { IfOk result (λ part. IsFit (Ether part.dst part.src part.kind)) }
{
    if bytes.len() < ETHER_LEN {
        return Err(BadFrame::ShortEther);
    }
    Ok(EtherPart {
        dst: read_mac(bytes),
        src: read_mac(&bytes[SRC..]),
        kind: BigEndian::read_u16(&bytes[KIND..]),
        rest: &bytes[ETHER_LEN..],
    })
}

/// The bytes of a header.
fn header(dst: Mac, src: Mac, kind: u16) -> [u8; ETHER_LEN]
    ensures bytes { result ≡ ether_bytes dst src kind }
    ensures len { length result ≡ 14 }
{
    let [_, _, d0, d1, d2, d3, d4, d5] = dst.number().to_be_bytes();
    let [_, _, s0, s1, s2, s3, s4, s5] = src.number().to_be_bytes();
    let [k0, k1] = kind.to_be_bytes();
    [d0, d1, d2, d3, d4, d5, s0, s1, s2, s3, s4, s5, k0, k1]
}

/// Writes a header at the front.
pub fn write_ether(out: &mut [u8], dst: Mac, src: Mac, kind: u16)
    requires { 14 ≤ length out.old }
    ensures front { take 14 out.new ≡ ether_bytes dst src kind }
    ensures rest { drop 14 out.new ≡ drop 14 out.old }
{
    out[..ETHER_LEN].copy_from_slice(&header(dst, src, kind));
}

/// The bytes of two addresses.
fn addresses(dst: Mac, src: Mac) -> [u8; KIND]
    ensures bytes { result ≡ big_bytes 6 dst ++ big_bytes 6 src }
    ensures len { length result ≡ 12 }
{
    let [_, _, d0, d1, d2, d3, d4, d5] = dst.number().to_be_bytes();
    let [_, _, s0, s1, s2, s3, s4, s5] = src.number().to_be_bytes();
    [d0, d1, d2, d3, d4, d5, s0, s1, s2, s3, s4, s5]
}

/// Changes the addresses of the header that the bytes begin with.
pub fn change_ether(bytes: &mut [u8], dst: Mac, src: Mac)
    requires { 14 ≤ length bytes.old }
    ensures { bytes.new ≡ ether_changed dst src bytes.old }
{
    bytes[..KIND].copy_from_slice(&addresses(dst, src));
}
