//! Frames between two ends.

ghost use Rattle.std.specs.Prelude.{◌≡◌, ◌≤◌, ◌-◌, ◌<◌, ◌++◌, length, take};
ghost use Rattle.vsw_generate.specs.Packets as spec;
ghost use Rattle.vsw_generate.specs.Packets.{udp_bytes, packet_bytes, frame_bytes, answer_bytes, query, turned, bytes_by, len_by};

use vsw_base::{Header, Headers, Ip4, Mac, Stack};
use vsw_frame::write_encaps;
use vsw_header::{flow_sum, write_ether, write_ip};

/// The Ethernet type of IPv4 (RFC 894).
const IPV4: u16 = 0x0800;

/// Bytes of an Ethernet header.
const ETHER_LEN: usize = 14;

/// Bytes of an IPv4 header.
const IP_LEN: usize = 20;

/// Who a frame goes to and comes from.
#[derive(Drop)]
pub struct Ends {
    pub dst: Mac,
    pub src: Mac,
    pub src_ip: Ip4,
    pub dst_ip: Ip4,
    pub src_port: u16,
    pub dst_port: u16,
}

/// Writes a frame, with a payload of as many bytes as are left.
pub(crate) fn write_frame(out: &mut [u8], ends: &Ends)
    requires room { 42 ≤ length out.old }
    requires fits { length out.old ≤ 65549 }
    ensures { out.new ≡ frame_bytes ends.now (length out.old - 42) }
{
    write_ether(out, ends.dst, ends.src, IPV4);
    write_packet(&mut out[ETHER_LEN..], ends);
}

fn write_packet(out: &mut [u8], ends: &Ends)
    requires room { 28 ≤ length out.old }
    requires fits { length out.old ≤ 65535 }
    ensures { out.new ≡ packet_bytes ends.now (length out.old - 28) }
{
    write_ip(out, ends.src_ip, ends.dst_ip, out.len() as u16);
    write_udp(&mut out[IP_LEN..], ends.src_port, ends.dst_port);
}

/// Writes a UDP header without a checksum (RFC 768), and the payload.
fn write_udp(out: &mut [u8], src: u16, dst: u16)
    requires room { 8 ≤ length out.old }
    requires fits { length out.old ≤ 65535 }
    ensures { out.new ≡ udp_bytes src dst (length out.old - 8) }
{
    let [s0, s1] = src.to_be_bytes();
    let [d0, d1] = dst.to_be_bytes();
    let [l0, l1] = (out.len() as u16).to_be_bytes();
    out[..8].copy_from_slice(&[s0, s1, d0, d1, l0, l1, 0, 0]);
    out[8..].fill(0x61);
}

/// The ends of the query of a flow.
pub(crate) fn query_of(flow: u8) -> Ends
    ensures { result ≡ query flow }
{
    Ends {
        dst: Mac::of(0x0200_0000_0099),
        src: Mac::of(0x0200_0000_0001),
        src_ip: Ip4::of(0x0a00_0005),
        dst_ip: Ip4::of(0x0a00_0009 + 256 * u32::from(flow % 4)),
        src_port: 10_000 + u16::from(flow),
        dst_port: 53,
    }
}

/// The ends of the answer.
fn turned_of(ends: &Ends) -> Ends
    ensures { result ≡ turned ends.now }
{
    Ends {
        dst: ends.src,
        src: ends.dst,
        src_ip: ends.dst_ip,
        dst_ip: ends.src_ip,
        src_port: ends.dst_port,
        dst_port: ends.src_port,
    }
}

/// The source port of an encapsulation of a frame between these ends.
fn port_of(ends: &Ends) -> u16
    ensures { result ≡ spec.port_of ends.now }
{
    let mut headers = Headers::new();
    headers.push(Header::Ether {
        dst: ends.dst,
        src: ends.src,
        kind: IPV4,
    });
    headers.push(Header::Ip {
        src: ends.src_ip,
        dst: ends.dst_ip,
        proto: 17,
        part: false,
    });
    headers.push(Header::Ports {
        proto: 17,
        src: ends.src_port,
        dst: ends.dst_port,
    });
    49_152 + (flow_sum(&Stack::new(headers)) % 16_384) as u16
}

/// Writes a frame in one encapsulation, with a payload of as many bytes as are left.
fn write_answer(out: &mut [u8], ends: &Ends)
    requires room { 92 ≤ length out.old }
    requires fits { length out.old ≤ 65549 }
    ensures { out.new ≡ answer_bytes ends.now (length out.old - 92) }
{
    write_frame(&mut out[50..], ends);
    let tunnel = [
        Header::Ether {
            dst: Mac::of(0x0200_0000_0a01),
            src: Mac::of(0x0200_0000_0a02),
            kind: IPV4,
        },
        Header::Ip {
            src: Ip4::of(0xac10_0002),
            dst: Ip4::of(0xac10_0001),
            proto: 17,
            part: false,
        },
        Header::Vxlan { vni: 5001 },
    ];
    write_encaps(out, port_of(ends), &tunnel);
}

/// Writes a packet at the front of the room, and tells its length.
pub(crate) fn write_one(out: &mut [u8], flow: u8, kind: u32, size: usize) -> usize
    requires room { 200 ≤ length out.old }
    requires small { size < 64 }
    ensures len { result ≡ len_by kind size }
    ensures bytes { take result out.new ≡ bytes_by flow kind size }
{
    let ends = query_of(flow);
    if kind == 3 {
        write_answer(&mut out[..size + 92], &turned_of(&ends));
        return size + 92;
    }
    write_frame(&mut out[..size + 42], &ends);
    size + 42
}
