//! The TCP header (RFC 9293, section 3.1): source port (2 bytes), destination port (2), sequence
//! number (4), acknowledgment number (4), data offset in words of 4 bytes (the high half of 1
//! byte), flags (1), window (2), checksum (2), urgent pointer (2), options. Numbers have their
//! highest byte first.

ghost use Rattle.std.specs.Prelude.{◌≡◌};
ghost use Rattle.vsw_base.specs.Tcp.{control_of, tcp_of};
ghost use Rattle.vsw_header.specs.Tcp.{tcp_seen};

use byteorder::{BigEndian, ByteOrder};
use vsw_base::{BadFrame, Control};

/// Bytes of a TCP header without options.
const TCP_LEN: usize = 20;

/// Offset of the destination port.
const DST: usize = 2;

/// Offset of the data offset.
const DATA_OFFSET: usize = 12;

/// Offset of the flags.
const FLAGS: usize = 13;

const FIN: u8 = 0x01;

const SYN: u8 = 0x02;

const RST: u8 = 0x04;

const ACK: u8 = 0x10;

/// A TCP header and what follows it.
#[derive(Clone, Copy, Debug, PartialEq, Eq)]
pub struct TcpPart<'a> {
    pub src: u16,
    pub dst: u16,
    pub control: Control,
    pub payload: &'a [u8],
}

/// What the flags ask for.
#[inline(always)]
fn control(flags: u8) -> Control
    ensures { result ≡ control_of flags }
{
    if flags & RST != 0 {
        Control::Rst
    } else if flags & FIN != 0 {
        Control::Fin
    } else if flags & SYN == 0 {
        Control::None
    } else if flags & ACK != 0 {
        Control::SynAck
    } else {
        Control::Syn
    }
}

/// The header that the bytes begin with. Options are skipped, and the checksum isn't looked at:
/// captures under checksum offload hold wrong ones.
#[inline(always)]
pub fn read_tcp<'a>(bytes: &'a [u8]) -> Result<TcpPart<'a>, BadFrame>
    ensures { tcp_seen result ≡ tcp_of bytes.now }
{
    if bytes.len() < TCP_LEN {
        return Err(BadFrame::ShortTcp);
    }
    let header_len = 4 * usize::from(bytes[DATA_OFFSET] >> 4);
    if header_len < TCP_LEN || bytes.len() < header_len {
        return Err(BadFrame::TcpOffset);
    }
    Ok(TcpPart {
        src: BigEndian::read_u16(bytes),
        dst: BigEndian::read_u16(&bytes[DST..]),
        control: control(bytes[FLAGS]),
        payload: &bytes[header_len..],
    })
}
