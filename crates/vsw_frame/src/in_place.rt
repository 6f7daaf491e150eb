//! Frames that are changed in place.

ghost use Rattle.std.specs.Prelude.{◌≡◌, ◌≤◌, ◌+◌, ◌++◌, IsTrue, length, take, drop};
ghost use Rattle.vsw_frame.specs.Change.{addresses_changed, segment_changed, packet_changed, frame_changed};
ghost use Rattle.vsw_frame.specs.Headers.{ends_of, ends_with};
ghost use Rattle.vsw_frame.specs.Room.{HasPacket, HasFrame, front_len, header_of, ports_len};
ghost use Rattle.vsw_header.specs.L4Change.{are_alike};

use vsw_base::Header;
use vsw_header::{
    Addresses, Endpoints, change_ether, change_ip, change_ip6, change_tcp, change_udp, header_len,
};

/// IPv4's protocol number of TCP.
const TCP: u8 = 6;

/// Bytes of an Ethernet header.
const ETHER_LEN: usize = 14;

/// Bytes of an IPv6 header.
const IP6_LEN: usize = 40;

/// Changes the ports and the checksum of a segment.
fn change_segment(bytes: &mut [u8], proto: u8, from: &Endpoints, to: &Endpoints)
    requires room { ports_len proto ≤ length bytes.old }
    requires alike { IsTrue (are_alike from.now.at to.now.at) }
    ensures { bytes.new ≡ segment_changed proto from.now to.now bytes.old }
{
    if proto == TCP {
        change_tcp(bytes, from, to);
    } else {
        change_udp(bytes, from, to);
    }
}

/// What is edited of a packet; ports that aren't there are 0.
#[derive(Clone, Copy)]
pub struct Ends {
    pub at: Endpoints,
    /// The protocol of the ports, where there are any.
    pub over: Option<u8>,
}

/// What is edited of the packet that the headers begin with.
#[inline(always)]
fn read_ends(headers: &[Header]) -> Option<Ends>
    ensures { result ≡ ends_of headers.now }
{
    match headers {
        [Header::Ip { src, dst, .. }, rest @ ..] => Some(ends_with(
            Addresses::Four {
                src: *src,
                dst: *dst,
            },
            rest,
        )),
        [Header::Six { src, dst, .. }, rest @ ..] => Some(ends_with(
            Addresses::Six {
                src: *src,
                dst: *dst,
            },
            rest,
        )),
        []
        | [
            Header::Ether { .. } | Header::Vxlan { .. } | Header::Ports { .. },
            ..
        ] => None,
    }
}

/// What is edited of a packet with these addresses, by the headers behind them.
#[inline(always)]
fn ends_with(at: Addresses, headers: &[Header]) -> Ends
    ensures { result ≡ ends_with at headers.now }
{
    match headers {
        [
            Header::Ports {
                proto,
                src: src_port,
                dst: dst_port,
            },
            ..
        ] => Ends {
            at: Endpoints {
                at,
                src_port: *src_port,
                dst_port: *dst_port,
            },
            over: Some(*proto),
        },
        []
        | [
            Header::Ether { .. } | Header::Ip { .. } | Header::Vxlan { .. } | Header::Six { .. },
            ..
        ] => Ends {
            at: Endpoints {
                at,
                src_port: 0,
                dst_port: 0,
            },
            over: None,
        },
    }
}

/// Whether the addresses are of one kind.
#[inline(always)]
fn are_alike(at: &Addresses, other: &Addresses) -> bool
    ensures { result ≡ are_alike at.now other.now }
{
    match at {
        Addresses::Four { .. } => matches!(other, Addresses::Four { .. }),
        Addresses::Six { .. } => matches!(other, Addresses::Six { .. }),
    }
}

/// Bytes of the header with these addresses, IPv4's options included.
#[inline(always)]
fn addressed_len(bytes: &[u8], at: &Addresses) -> usize
    requires { 1 ≤ length bytes.now }
    ensures { result ≡ header_of at.now bytes.now }
{
    match at {
        Addresses::Four { .. } => header_len(bytes),
        Addresses::Six { .. } => IP6_LEN,
    }
}

/// Changes the addresses of the header that the bytes begin with.
fn change_addresses(bytes: &mut [u8], at: &Addresses)
    requires { front_len at.now ≤ length bytes.old }
    ensures { bytes.new ≡ addresses_changed at.now bytes.old }
{
    match at {
        Addresses::Four { src, dst } => change_ip(bytes, *src, *dst),
        Addresses::Six { src, dst } => change_ip6(bytes, *src, *dst),
    }
}

/// Changes a packet with ports.
fn change_whole(bytes: &mut [u8], proto: u8, from: &Endpoints, to: &Endpoints)
    requires alike { IsTrue (are_alike from.now.at to.now.at) }
    requires header { front_len to.now.at ≤ header_of to.now.at bytes.old }
    requires some { 1 ≤ length bytes.old }
    requires room { header_of to.now.at bytes.old + ports_len proto ≤ length bytes.old }
    ensures { bytes.new ≡ addresses_changed to.now.at (take (header_of to.now.at bytes.old) bytes.old) ++ segment_changed proto from.now to.now (drop (header_of to.now.at bytes.old) bytes.old) }
{
    let len = addressed_len(bytes, &to.at);
    change_addresses(&mut bytes[..len], &to.at);
    change_segment(&mut bytes[len..], proto, from, to);
}

/// Changes the packet that the bytes begin with, IPv4 or IPv6 on.
fn change_packet(bytes: &mut [u8], from: &[Header], to: &[Header])
    requires { HasPacket to.now bytes.old }
    ensures { bytes.new ≡ packet_changed from.now to.now bytes.old }
{
    let Some(from) = read_ends(from) else {
        return;
    };
    let Some(to) = read_ends(to) else {
        return;
    };
    if !are_alike(&from.at.at, &to.at.at) {
        return;
    }
    if from.over.is_none() {
        change_addresses(bytes, &to.at.at);
        return;
    }
    match to.over {
        None => change_addresses(bytes, &to.at.at),
        Some(proto) => change_whole(bytes, proto, &from.at, &to.at),
    }
}

/// Changes a frame whose headers are `from` to one whose headers are `to`: addresses and ports are written
/// over the old ones, and checksums updated for the words that differ (RFC 1624). Payloads stay.
pub fn change_frame(bytes: &mut [u8], from: &[Header], to: &[Header])
    requires room { HasFrame to.now bytes.old }
    ensures changed { bytes.new ≡ frame_changed from.now to.now bytes.old }
{
    let [Header::Ether { .. }, from @ ..] = from else {
        return;
    };
    let [Header::Ether { dst, src, .. }, to @ ..] = to else {
        return;
    };
    change_ether(&mut bytes[..ETHER_LEN], *dst, *src);
    change_packet(&mut bytes[ETHER_LEN..], from, to);
}
