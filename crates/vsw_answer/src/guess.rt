//! A packet's row is touched before the packet is read.

use byteorder::{BigEndian, ByteOrder};
use vsw_base::{Dir, Mac};
use vsw_flows::PortStory;
use vsw_table::Lookup;
use vsw_words::slot_of;

/// The bytes of a frame that are looked at: Ethernet, IPv4 without options, and two ports.
const FRONT: usize = 38;

/// The type of IPv4 behind Ethernet (RFC 894), and IPv4's version and length of five words (RFC 791, 3.1).
const PLAIN_IP: u32 = 0x08_0045;

/// More fragments, and the fragment's offset (RFC 791, 3.1).
const FRAGMENT: u16 = 0x3fff;

/// The protocols of TCP and UDP, which begin with two ports.
const TCP: u8 = 6;

const UDP: u8 = 17;

/// A key's first word without protocol, ports and direction: of IPv4 with ports, and nothing around it.
const HEAD: u64 = 0x0800_0031;

/// Whether the front of a frame is that of a whole packet of TCP or UDP over IPv4 without options.
fn is_plain(front: &[u8; FRONT]) -> bool {
    let protocol = front[23];
    BigEndian::read_u32(&front[12..16]) >> 8 == PLAIN_IP
        && BigEndian::read_u16(&front[20..22]) & FRAGMENT == 0
        && (protocol == TCP || protocol == UDP)
}

/// The bit of the direction in a key's first word, if one of the addresses of Ethernet is this one.
fn direction(mac: Mac, dst: u64, src: u64) -> Option<u64> {
    if src == mac.number() {
        Some(0)
    } else if dst == mac.number() {
        Some(2)
    } else {
        None
    }
}

/// The key of the packet at the port of this address, as the front of its frame lets guess it.
fn guess(mac: Mac, front: &[u8; FRONT]) -> Option<[u64; 16]> {
    if !is_plain(front) {
        return None;
    }
    let dst = BigEndian::read_u64(&front[..8]) >> 16;
    let src = BigEndian::read_u64(&front[4..12]) & 0xffff_ffff_ffff;
    let direction = direction(mac, dst, src)?;
    let src_port = u64::from(BigEndian::read_u16(&front[34..36]));
    let dst_port = u64::from(BigEndian::read_u16(&front[36..]));
    let head = dst_port << 48 | src_port << 32 | HEAD | u64::from(front[23]) << 8 | direction;
    let addresses = BigEndian::read_u64(&front[26..34]);
    Some([
        head, 0, dst, src, 0, 0, 0, 0, addresses, 0, 0, 0, 0, 0, 0, 0,
    ])
}

/// Touches the row that may answer the packet of a frame at the port of this address, so that its words are at hand when the packet is looked for. The
/// row is guessed; nothing is changed and nothing is told.
pub fn touch_row(lookup: &Lookup<PortStory>, mac: Mac, frame: &[u8]) {
    if let Some(front) = frame.first_chunk::<FRONT>() {
        if let Some(key) = guess(mac, front) {
            lookup.touch(slot_of(&key, lookup.rows()));
        }
    }
}
