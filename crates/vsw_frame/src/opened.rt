//! The headers of one frame, as far as its ports.

ghost use Rattle.std.specs.Prelude.{◌≡◌, ◌≤◌, ◌<◌, ◌^◌, ◌+◌, ◌++◌, ◌∷◌, [], IfOk, IfSome, IsTrue, List, OnOk, length, option_map};
ghost use Rattle.vsw_base.specs.Shape.{ipv6_kind, is_plain, is_packet, is_packet6};
ghost use Rattle.vsw_base.specs.declared.header.Header.{Header as H};
ghost use Rattle.vsw_base.specs.declared.header.Header.TheVariants.{Ip, Six};
ghost use Rattle.vsw_base.specs.Frame.{opened_of, end_of, end6_of, within, ports, control_in, payload_in, slack_in, ether_header};
ghost use Rattle.vsw_frame.specs.Seen.{added, Adds, end_seen, end_fields, opened_seen, opened_six, inner_seen, IsOver};
ghost use Rattle.vsw_header.specs.Ether.{ether_view};
ghost use Rattle.vsw_header.specs.Ip.{ip_view};
ghost use Rattle.vsw_header.specs.Ip6.{ip6_view};

use vsw_base::{BadFrame, Control, Header, Headers};
use vsw_header::{
    EtherPart, Ip6Part, IpPart, TcpPart, UdpPart, read_ether, read_ip, read_ip6, read_tcp,
    read_udp, read_vxlan,
};

/// The Ethernet type of IPv4 (RFC 894).
const IPV4: u16 = 0x0800;

/// The Ethernet type of IPv6 (RFC 2464).
const IPV6: u16 = 0x86dd;

/// IPv4's protocol numbers of TCP and UDP, which are next headers of IPv6 too.
const TCP: u8 = 6;

const UDP: u8 = 17;

/// The UDP port of VXLAN, and bytes of its header (RFC 7348, section 5).
const VXLAN_PORT: u16 = 4789;

const VXLAN_LEN: usize = 8;

/// What follows Ethernet and IPv4 or IPv6.
#[derive(Clone, Copy)]
pub enum End<'a> {
    /// Of another Ethernet type, a fragment, or neither TCP nor UDP: carried unread.
    Rest(&'a [u8]),
    OverTcp(TcpPart<'a>),
    /// Over IPv4, where it may hold an encapsulation.
    OverUdp(UdpPart<'a>),
    /// Over IPv6, where it is plain whatever its port.
    OverUdp6(UdpPart<'a>),
}

/// One frame, opened as far as its ports.
#[derive(Clone, Copy)]
pub struct Opened<'a> {
    /// After the length that IPv4 or IPv6 says.
    pub trailer: &'a [u8],
    pub end: End<'a>,
}

/// An encapsulation's VNI and inner frame.
#[derive(Clone, Copy)]
pub struct Inner<'a> {
    pub vni: u32,
    pub frame: &'a [u8],
}

/// Looks for an encapsulation: UDP over IPv4 to VXLAN's port with a VXLAN header.
#[inline(always)]
pub fn look_within<'a>(end: &End<'a>) -> Option<Inner<'a>>
    ensures found { inner_seen result ≡ within (end_fields end.now) }
    ensures fit { IfSome result (λ i. i.vni < 2 ^ 24) }
    ensures short { IfSome result (λ i. length i.frame.now ≤ length (payload_in (end_fields end.now))) }
{
    let End::OverUdp(udp) = end else {
        return None;
    };
    if udp.dst != VXLAN_PORT {
        return None;
    }
    let vni = read_vxlan(udp.payload)?;
    Some(Inner {
        vni,
        frame: &udp.payload[VXLAN_LEN..],
    })
}

#[inline(always)]
fn read_end<'a>(ip: &IpPart<'a>) -> Result<End<'a>, BadFrame>
    ensures fields { end_seen result ≡ end_of (ip_view ip.now) }
    ensures short { IfOk result (λ end. length (payload_in (end_fields end)) ≤ length ip.now.payload.now) }
    ensures shape { IfOk result (λ end. IsTrue (is_packet (Ip ip.now.src ip.now.dst ip.now.proto ip.now.part ∷ ports (end_fields end)))) }
{
    if ip.part {
        return Ok(End::Rest(ip.payload));
    }
    match ip.proto {
        TCP => match read_tcp(ip.payload) {
            Ok(tcp) => Ok(End::OverTcp(tcp)),
            Err(fault) => Err(fault),
        },
        UDP => match read_udp(ip.payload) {
            Ok(udp) => Ok(End::OverUdp(udp)),
            Err(fault) => Err(fault),
        },
        _ => Ok(End::Rest(ip.payload)),
    }
}

#[inline(always)]
fn read_end6<'a>(ip: &Ip6Part<'a>) -> Result<End<'a>, BadFrame>
    ensures fields { end_seen result ≡ end6_of (ip6_view ip.now) }
    ensures short { IfOk result (λ end. length (payload_in (end_fields end)) ≤ length ip.now.payload.now) }
    ensures shape { IfOk result (λ end. IsTrue (is_packet6 (Six ip.now.src ip.now.dst ip.now.proto ∷ ports (end_fields end)))) }
    ensures plain { IfOk result (λ end. (front : List H) → IsOver front (end_fields end)) }
{
    match ip.proto {
        TCP => match read_tcp(ip.payload) {
            Ok(tcp) => Ok(End::OverTcp(tcp)),
            Err(fault) => Err(fault),
        },
        UDP => match read_udp(ip.payload) {
            Ok(udp) => Ok(End::OverUdp6(udp)),
            Err(fault) => Err(fault),
        },
        _ => Ok(End::Rest(ip.payload)),
    }
}

#[inline(always)]
fn push_one(headers: &mut Headers, header: Header)
    requires room { length headers.old ≤ 8 }
    ensures kept { Adds headers.old headers.new }
    ensures added { added headers.old headers.new ≡ header ∷ [] }
{
    headers.push(header);
}

#[inline(always)]
fn push_two(headers: &mut Headers, first: Header, second: Header)
    requires room { length headers.old ≤ 7 }
    ensures kept { Adds headers.old headers.new }
    ensures added { added headers.old headers.new ≡ first ∷ second ∷ [] }
{
    headers.push(first);
    headers.push(second);
}

/// Opens what follows an Ethernet header of IPv6's type, and pushes both headers.
#[inline(always)]
fn read_packet6<'a>(
    ether: &EtherPart<'a>,
    first: Header,
    headers: &mut Headers,
) -> Result<Opened<'a>, BadFrame>
    requires room { length headers.old ≤ 7 }
    requires front { first ≡ ether_header (ether_view ether.now) }
    requires kind { ether.now.kind ≡ ipv6_kind }
    ensures fields { opened_seen (added headers.old headers.new) result ≡ opened_six (ether_view ether.now) }
    ensures kept { OnOk result (Adds headers.old headers.new) }
    ensures shape { IfOk result (λ o. IsTrue (is_plain (added headers.old headers.new ++ ports (end_fields o.end)))) }
    ensures few { OnOk result (length (added headers.old headers.new) ≤ 2) }
    ensures over { IfOk result (λ o. IsOver (added headers.old headers.new) (end_fields o.end)) }
    ensures short { IfOk result (λ o. length (payload_in (end_fields o.end)) ≤ length ether.now.rest.now) }
{
    let ip = match read_ip6(ether.rest) {
        Ok(ip) => ip,
        Err(fault) => return Err(fault),
    };
    let end = match read_end6(&ip) {
        Ok(end) => end,
        Err(fault) => return Err(fault),
    };
    let second = Header::Six {
        src: ip.src,
        dst: ip.dst,
        proto: ip.proto,
    };
    push_two(headers, first, second);
    Ok(Opened {
        trailer: ip.trailer,
        end,
    })
}

/// Opens a frame, and pushes its Ethernet header, and IPv4 or IPv6 where the type says so.
#[inline(always)]
pub fn read_headers<'a>(bytes: &'a [u8], headers: &mut Headers) -> Result<Opened<'a>, BadFrame>
    requires room { length headers.old ≤ 7 }
    ensures fields { opened_seen (added headers.old headers.new) result ≡ opened_of bytes.now }
    ensures kept { OnOk result (Adds headers.old headers.new) }
    ensures shape { IfOk result (λ o. IsTrue (is_plain (added headers.old headers.new ++ ports (end_fields o.end)))) }
    ensures few { OnOk result (length (added headers.old headers.new) ≤ 2) }
    ensures over { IfOk result (λ o. IsOver (added headers.old headers.new) (end_fields o.end)) }
    ensures short { IfOk result (λ o. length (payload_in (end_fields o.end)) ≤ length bytes.now) }
{
    let ether = match read_ether(bytes) {
        Ok(ether) => ether,
        Err(fault) => return Err(fault),
    };
    let first = Header::Ether {
        dst: ether.dst,
        src: ether.src,
        kind: ether.kind,
    };
    if ether.kind == IPV6 {
        return read_packet6(&ether, first, headers);
    }
    if ether.kind != IPV4 {
        push_one(headers, first);
        return Ok(Opened {
            trailer: &[],
            end: End::Rest(ether.rest),
        });
    }
    let ip = match read_ip(ether.rest) {
        Ok(ip) => ip,
        Err(fault) => return Err(fault),
    };
    let end = match read_end(&ip) {
        Ok(end) => end,
        Err(fault) => return Err(fault),
    };
    let second = Header::Ip {
        src: ip.src,
        dst: ip.dst,
        proto: ip.proto,
        part: ip.part,
    };
    push_two(headers, first, second);
    Ok(Opened {
        trailer: ip.trailer,
        end,
    })
}
