//! TCP (RFC 9293, section 3.1) and UDP (RFC 768) headers whose endpoints are changed, and UDP headers
//! that lose their checksum. Numbers have their highest byte first.

ghost use Rattle.std.specs.Prelude.{◌≡◌, ◌≤◌, ◌++◌, ◌∷◌, [], IsTrue, length};
ghost use Rattle.byteorder.specs.Endian.{big_bytes};
ghost use Rattle.vsw_header.specs.L4Change as change;
ghost use Rattle.vsw_header.specs.Fold.{HasChanged};
ghost use Rattle.vsw_header.specs.Sum.{six_words};
ghost use Rattle.vsw_header.specs.L4Change.{address_words, are_alike, checksum_changed, tcp_changed, udp_changed, udp_checksum_changed};

use crate::sum::complement;
use crate::sum_change::{changed, changed_long};
use byteorder::{BigEndian, ByteOrder};
use vsw_base::{Ip4, Ip6};

/// Offset of a TCP checksum.
const TCP_CHECKSUM: usize = 16;

/// Offset of a UDP checksum.
const UDP_CHECKSUM: usize = 6;

/// Bytes of the ports, which TCP and UDP begin with.
const PORTS_LEN: usize = 4;

/// Numbers past those of 32, 64 and 96 bits.
const LONG: u128 = 0x1_0000_0000;

const LONG_2: u128 = LONG * LONG;

const LONG_3: u128 = LONG_2 * LONG;

/// The addresses of a packet, both of one kind.
#[derive(Clone, Copy, Debug, PartialEq, Eq)]
pub enum Addresses {
    Four { src: Ip4, dst: Ip4 },
    Six { src: Ip6, dst: Ip6 },
}

/// The addresses and the ports of a packet.
#[derive(Clone, Copy, Debug, PartialEq, Eq)]
pub struct Endpoints {
    pub at: Addresses,
    pub src_port: u16,
    pub dst_port: u16,
}

/// The sum after an IPv6 address changed.
#[inline(always)]
fn changed_six(total: u64, from: Ip6, to: Ip6) -> u64
    ensures { HasChanged total (six_words from) (six_words to) result }
{
    let (from, to) = (from.number(), to.number());
    let first = changed_long(total, (from / LONG_3) as u32, (to / LONG_3) as u32);
    let second = changed_long(
        first,
        (from / LONG_2 % LONG) as u32,
        (to / LONG_2 % LONG) as u32,
    );
    let third = changed_long(
        second,
        (from / LONG % LONG) as u32,
        (to / LONG % LONG) as u32,
    );
    changed_long(third, (from % LONG) as u32, (to % LONG) as u32)
}

/// The sum after a packet's addresses changed.
#[inline(always)]
fn changed_addresses(total: u64, from: &Addresses, to: &Addresses) -> u64
    requires { IsTrue (are_alike from.now to.now) }
    ensures { HasChanged total (address_words from.now) (address_words to.now) result }
{
    match from {
        Addresses::Four { src, dst } => match to {
            Addresses::Four {
                src: to_src,
                dst: to_dst,
            } => {
                let total = changed_long(total, src.number(), to_src.number());
                changed_long(total, dst.number(), to_dst.number())
            }
            Addresses::Six { .. } => unreachable!(),
        },
        Addresses::Six { src, dst } => match to {
            Addresses::Six {
                src: to_src,
                dst: to_dst,
            } => {
                let total = changed_six(total, *src, *to_src);
                changed_six(total, *dst, *to_dst)
            }
            Addresses::Four { .. } => unreachable!(),
        },
    }
}

/// The sum after ports changed.
#[inline(always)]
fn changed_ports(total: u64, from_src: u16, from_dst: u16, src: u16, dst: u16) -> u64
    ensures { HasChanged total (from_src ∷ from_dst ∷ []) (src ∷ dst ∷ []) result }
{
    let total = changed(total, from_src, src);
    changed(total, from_dst, dst)
}

/// A checksum, updated for the words that differ.
#[inline(always)]
fn updated(old: u16, from: &Endpoints, to: &Endpoints) -> u16
    requires { IsTrue (are_alike from.now.at to.now.at) }
    ensures { result ≡ checksum_changed old from.now to.now }
{
    let total = changed_addresses(u64::from(!old), &from.at, &to.at);
    complement(changed_ports(
        total,
        from.src_port,
        from.dst_port,
        to.src_port,
        to.dst_port,
    ))
}

/// A UDP checksum, updated for the words that differ: 0 says that there is none.
fn udp_updated(old: u16, from: &Endpoints, to: &Endpoints) -> u16
    requires { IsTrue (are_alike from.now.at to.now.at) }
    ensures { result ≡ udp_checksum_changed old from.now to.now }
{
    if old == 0 {
        return 0;
    }
    match updated(old, from, to) {
        0 => 0xffff,
        checksum => checksum,
    }
}

/// The bytes of two ports.
fn ports(src: u16, dst: u16) -> [u8; PORTS_LEN]
    ensures bytes { result ≡ big_bytes 2 src ++ big_bytes 2 dst }
    ensures len { length result ≡ 4 }
{
    let [s0, s1] = src.to_be_bytes();
    let [d0, d1] = dst.to_be_bytes();
    [s0, s1, d0, d1]
}

/// Changes the ports of the TCP header that the bytes begin with, and updates its checksum for the
/// words of the endpoints that differ (RFC 1624).
pub fn change_tcp(bytes: &mut [u8], from: &Endpoints, to: &Endpoints)
    requires room { 20 ≤ length bytes.old }
    requires alike { IsTrue (are_alike from.now.at to.now.at) }
    ensures { bytes.new ≡ tcp_changed from.now to.now bytes.old }
{
    let checksum = updated(BigEndian::read_u16(&bytes[TCP_CHECKSUM..]), from, to);
    BigEndian::write_u16(&mut bytes[TCP_CHECKSUM..], checksum);
    bytes[..PORTS_LEN].copy_from_slice(&ports(to.src_port, to.dst_port));
}

/// Changes the ports of the UDP header that the bytes begin with, and updates its checksum for the
/// words of the endpoints that differ (RFC 1624): 0 stays, and for an updated one of 0 stands 0xffff.
pub fn change_udp(bytes: &mut [u8], from: &Endpoints, to: &Endpoints)
    requires room { 8 ≤ length bytes.old }
    requires alike { IsTrue (are_alike from.now.at to.now.at) }
    ensures { bytes.new ≡ udp_changed from.now to.now bytes.old }
{
    let checksum = udp_updated(BigEndian::read_u16(&bytes[UDP_CHECKSUM..]), from, to);
    BigEndian::write_u16(&mut bytes[UDP_CHECKSUM..], checksum);
    bytes[..PORTS_LEN].copy_from_slice(&ports(to.src_port, to.dst_port));
}

/// Takes the checksum from the UDP header that the bytes begin with.
pub fn uncheck_udp(bytes: &mut [u8])
    requires { 8 ≤ length bytes.old }
    ensures { bytes.new ≡ change.unchecked bytes.old }
{
    BigEndian::write_u16(&mut bytes[UDP_CHECKSUM..], 0);
}
