//! What is found in a frame: its headers from the outside inwards, and its levels from the inside outwards.

ghost use Rattle.std.specs.Prelude.{◌≡◌, ◌≤◌, ◌<◌, ◌^◌, ◌+◌, ◌*◌, ◌++◌, ◌∷◌, [], ℕ, List, None, Ok, IfOk, IsTrue, OnOk, length};
ghost use Rattle.vsw_base.specs.declared.header.Header.{Header};
ghost use Rattle.vsw_base.specs.declared.header.Header.TheVariants.{Vxlan};
ghost use Rattle.vsw_base.specs.Frame.{frame_in, plain_parts, encap_parts, opened_of, ports, control_in, payload_in};
ghost use Rattle.vsw_frame.specs.Seen.{added, Adds, end_fields, opened_fields, found_parts, found_seen, Finds};

use crate::frame::Level;
use crate::opened::{End, Opened, look_within, read_headers};
use vsw_base::{BadFrame, Control, Header, Headers};

/// What a frame says but for its headers.
#[derive(Clone, Copy)]
pub struct Found<'a> {
    pub control: Control,
    /// The levels, outermost first.
    pub first: Level<'a>,
    pub second: Option<Level<'a>>,
    pub third: Option<Level<'a>>,
    /// What follows the last header.
    pub payload: &'a [u8],
}

#[inline(always)]
fn push_ports(headers: &mut Headers, end: &End<'_>)
    requires room { length headers.old ≤ 8 }
    ensures { headers.new ≡ headers.old ++ ports (end_fields end.now) }
{
    match end {
        End::Rest(_) => {}
        End::OverTcp(tcp) => headers.push(Header::Ports {
            proto: 6,
            src: tcp.src,
            dst: tcp.dst,
        }),
        End::OverUdp(udp) | End::OverUdp6(udp) => headers.push(Header::Ports {
            proto: 17,
            src: udp.src,
            dst: udp.dst,
        }),
    }
}

#[inline(always)]
fn control(end: &End<'_>) -> Control
    ensures { result ≡ control_in (end_fields end.now) }
{
    match end {
        End::OverTcp(tcp) => tcp.control,
        End::Rest(_) | End::OverUdp(_) | End::OverUdp6(_) => Control::None,
    }
}

#[inline(always)]
fn payload<'a>(end: &End<'a>) -> &'a [u8]
    ensures { result.now ≡ payload_in (end_fields end.now) }
{
    match end {
        End::Rest(payload) => payload,
        End::OverTcp(tcp) => tcp.payload,
        End::OverUdp(udp) | End::OverUdp6(udp) => udp.payload,
    }
}

/// A frame in which no encapsulation is looked for, or found. Its ports are pushed.
#[inline(always)]
fn plain<'a>(bytes: &'a [u8], opened: &Opened<'a>, headers: &mut Headers) -> Found<'a>
    requires room { length headers.old ≤ 8 }
    ensures pushed { headers.new ≡ headers.old ++ ports (end_fields opened.now.end) }
    ensures parts { (front : List Header) → Ok (opened_fields front opened.now) ≡ opened_of bytes.now → found_parts (front ++ ports (end_fields opened.now.end)) result ≡ plain_parts bytes.now (opened_fields front opened.now) }
    ensures first { result.first.bytes.now ≡ bytes.now }
    ensures single { (result.second ≡ None) × (result.third ≡ None) }
{
    push_ports(headers, &opened.end);
    Found {
        control: control(&opened.end),
        first: Level { bytes },
        second: None,
        third: None,
        payload: payload(&opened.end),
    }
}

/// An encapsulation around what was found in its inner frame.
#[inline(always)]
fn encapsulated<'a>(bytes: &'a [u8], opened: &Opened<'a>, inner: &Found<'a>) -> Found<'a>
    requires levels { inner.now.third ≡ None }
    ensures parts { (front hs : List Header) (vni : ℕ) → Ok (opened_fields front opened.now) ≡ opened_of bytes.now → found_parts (front ++ Vxlan vni ∷ hs) result ≡ encap_parts bytes.now (opened_fields front opened.now) vni (found_parts hs inner.now) }
    ensures first { result.first.bytes.now ≡ bytes.now }
    ensures second { result.second ≡ Some inner.now.first }
    ensures third { result.third ≡ inner.now.second }
{
    Found {
        control: inner.control,
        first: Level { bytes },
        second: Some(inner.first),
        third: inner.second,
        payload: inner.payload,
    }
}

/// What a frame says in which so many encapsulations are looked for. Its headers are pushed, outermost first.
#[inline(always)]
#[cycle(find)]
pub fn find<'a>(depth: u8, bytes: &'a [u8], headers: &mut Headers) -> Result<Found<'a>, BadFrame>
    requires { length headers.old + 3 * depth ≤ 6 }
    ensures parts { found_seen (added headers.old headers.new) result ≡ frame_in depth bytes.now }
    ensures kept { OnOk result (Adds headers.old headers.new) }
    ensures finds { IfOk result (Finds depth bytes.now (added headers.old headers.new)) }
{
    let opened = match read_headers(bytes, headers) {
        Ok(opened) => opened,
        Err(fault) => return Err(fault),
    };
    if depth == 0 {
        return Ok(plain(bytes, &opened, headers));
    }
    let Some(inner) = look_within(&opened.end) else {
        return Ok(plain(bytes, &opened, headers));
    };
    headers.push(Header::Vxlan { vni: inner.vni });
    match find_inner(depth - 1, inner.frame, headers) {
        Ok(found) => Ok(encapsulated(bytes, &opened, &found)),
        Err(fault) => Err(fault),
    }
}

/// The same, of what an encapsulation holds. It stands apart, so that the outermost level is inlined: of most frames nothing is handed on
/// through memory.
#[inline(never)]
#[cycle(find)]
fn find_inner<'a>(depth: u8, bytes: &'a [u8], headers: &mut Headers) -> Result<Found<'a>, BadFrame>
    requires { length headers.old + 3 * depth ≤ 6 }
    ensures parts { found_seen (added headers.old headers.new) result ≡ frame_in depth bytes.now }
    ensures kept { OnOk result (Adds headers.old headers.new) }
    ensures finds { IfOk result (Finds depth bytes.now (added headers.old headers.new)) }
{
    find(depth, bytes, headers)
}
