//! Encapsulations in front of a frame.

ghost use Rattle.std.specs.Prelude.{◌≡◌, ◌≤◌, ◌<◌, ◌^◌, ◌+◌, ◌*◌, length, drop};
ghost use Rattle.vsw_base.specs.Shape.{encaps};
ghost use Rattle.vsw_frame.specs.Headers.{outer_of};
ghost use Rattle.vsw_frame.specs.Push.{encap_pushed, packet_pushed, pushed, AreEncaps};

use vsw_base::{Header, Ip4, Mac};
use vsw_header::{write_ether, write_ip, write_udp_vxlan};

/// The Ethernet type of IPv4 (RFC 894).
const IPV4: u16 = 0x0800;

/// Bytes of an Ethernet header.
const ETHER_LEN: usize = 14;

/// Bytes of an IPv4 header.
const IP_LEN: usize = 20;

/// Bytes of IPv4, UDP and VXLAN headers.
const PACKET_LEN: usize = 36;

/// Bytes of an encapsulation: Ethernet, IPv4, UDP and VXLAN.
pub const ENCAP_LEN: usize = 50;

/// The headers that an encapsulation is made of.
#[derive(Drop)]
struct Outer {
    dst: Mac,
    src: Mac,
    src_ip: Ip4,
    dst_ip: Ip4,
    vni: u32,
}

/// The encapsulation that the headers begin with.
fn outermost(headers: &[Header]) -> Option<Outer>
    ensures { result ≡ outer_of headers.now }
{
    match headers {
        [
            Header::Ether { dst, src, .. },
            Header::Ip {
                src: src_ip,
                dst: dst_ip,
                ..
            },
            Header::Vxlan { vni },
            ..
        ] => Some(Outer {
            dst: *dst,
            src: *src,
            src_ip: *src_ip,
            dst_ip: *dst_ip,
            vni: *vni,
        }),
        []
        | [_]
        | [_, _]
        | [
            Header::Ip { .. } | Header::Vxlan { .. } | Header::Ports { .. } | Header::Six { .. },
            _,
            _,
            ..
        ]
        | [
            Header::Ether { .. },
            Header::Ether { .. } | Header::Vxlan { .. } | Header::Ports { .. } | Header::Six { .. },
            _,
            ..
        ]
        | [
            Header::Ether { .. },
            Header::Ip { .. },
            Header::Ether { .. } | Header::Ip { .. } | Header::Ports { .. } | Header::Six { .. },
            ..
        ] => None,
    }
}

/// Writes the IPv4, UDP and VXLAN headers in front of the frame that stands behind their room.
fn write_packet(out: &mut [u8], port: u16, outer: &Outer)
    requires room { 36 ≤ length out.old }
    requires fits { length out.old ≤ 65535 }
    requires small { outer.now.vni < 2 ^ 24 }
    ensures { out.new ≡ packet_pushed port outer.now.src_ip outer.now.dst_ip outer.now.vni (drop 36 out.old) }
{
    let inner = out.len() - PACKET_LEN;
    write_ip(out, outer.src_ip, outer.dst_ip, out.len() as u16);
    write_udp_vxlan(&mut out[IP_LEN..], port, inner as u32, outer.vni);
}

/// Writes an encapsulation in front of the frame that stands behind its room.
fn write_encap(out: &mut [u8], port: u16, outer: &Outer)
    requires room { 50 ≤ length out.old }
    requires fits { length out.old ≤ 65549 }
    requires small { outer.now.vni < 2 ^ 24 }
    ensures { out.new ≡ encap_pushed port outer.now.dst outer.now.src outer.now.src_ip outer.now.dst_ip outer.now.vni (drop 50 out.old) }
{
    write_ether(out, outer.dst, outer.src, IPV4);
    write_packet(&mut out[ETHER_LEN..], port, outer);
}

/// Writes encapsulations in front of the frame that stands behind their room, the innermost first, each with
/// this UDP source port and without a UDP checksum (RFC 7348, section 5).
pub fn write_encaps(out: &mut [u8], port: u16, headers: &[Header])
    requires whole { AreEncaps headers.now }
    requires room { 50 * encaps headers.now ≤ length out.old }
    requires fits { 0 < encaps headers.now → length out.old ≤ 65549 }
    ensures written { out.new ≡ pushed port headers.now (drop (50 * encaps headers.now) out.old) }
{
    let Some(outer) = outermost(headers) else {
        return;
    };
    write_encaps(&mut out[ENCAP_LEN..], port, &headers[3..]);
    write_encap(out, port, &outer);
}
