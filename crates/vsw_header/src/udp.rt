//! The UDP header (RFC 768): source port (2 bytes), destination port (2), length (2), checksum (2).
//! Numbers have their highest byte first.

ghost use Rattle.std.specs.Prelude.{◌≡◌};
ghost use Rattle.vsw_base.specs.Udp.{udp_of};
ghost use Rattle.vsw_header.specs.Udp.{udp_seen};

use byteorder::{BigEndian, ByteOrder};
use vsw_base::BadFrame;

/// Bytes of a UDP header.
const UDP_LEN: usize = 8;

/// Offset of the destination port.
const DST: usize = 2;

/// Offset of the length.
const LENGTH: usize = 4;

/// A UDP header and what follows it.
#[derive(Clone, Copy, Debug, PartialEq, Eq)]
pub struct UdpPart<'a> {
    pub src: u16,
    pub dst: u16,
    /// Up to the UDP length.
    pub payload: &'a [u8],
    /// After the UDP length.
    pub slack: &'a [u8],
}

/// The header that the bytes begin with. The checksum isn't looked at: captures under checksum
/// offload hold wrong ones.
#[inline(always)]
pub fn read_udp<'a>(bytes: &'a [u8]) -> Result<UdpPart<'a>, BadFrame>
    ensures { udp_seen result ≡ udp_of bytes.now }
{
    if bytes.len() < UDP_LEN {
        return Err(BadFrame::ShortUdp);
    }
    let length = usize::from(BigEndian::read_u16(&bytes[LENGTH..]));
    if length < UDP_LEN || bytes.len() < length {
        return Err(BadFrame::UdpLength);
    }
    Ok(UdpPart {
        src: BigEndian::read_u16(bytes),
        dst: BigEndian::read_u16(&bytes[DST..]),
        payload: &bytes[..length][UDP_LEN..],
        slack: &bytes[length..],
    })
}
