//! Stacks: the headers of a frame.

ghost use Rattle.std.specs.Prelude.{◌≡◌, ◌↔◌, ◌*◌, ◌≤◌, [], List, Ok, Err, IsTrue, length, if◌then◌else◌};
ghost use Rattle.vsw_base.specs.declared.header.Header.{Header};
ghost use Rattle.vsw_base.specs.Shape.{is_stack, encaps, inner, is_covered};
ghost use Rattle.vsw_base.specs.Shape as shape;

use crate::address::Mac;
use crate::header::Header;
use crate::headers::Headers;
use std::marker::Model;

/// The headers aren't of the shape of a stack.
#[derive(Clone, Copy, Debug, PartialEq, Eq)]
pub struct BadShape;

/// The headers of a frame, outermost first: at most two VXLAN encapsulations of three headers each
/// (Ethernet, IPv4, VXLAN), then Ethernet, IPv4 or IPv6 where the type says so, and ports where the packet
/// is unfragmented TCP or UDP.
#[derive(Drop)]
pub struct Stack {
    headers: Headers,
}

impl Model for Stack {
    ghost use Rattle.std.specs.Prelude.{List, IsTrue};
    ghost use Rattle.vsw_base.specs.declared.header.Header.{Header};
    ghost use Rattle.vsw_base.specs.Shape.{is_stack};

    ghost Value = { List Header };

    ghost view = { λ s. s.headers };

    ghost invariant = { λ s. IsTrue (is_stack s.headers) };
}

/// What writes headers into a room that has none. `is_ready` is what it needs beside room.
pub trait Writes {
    ghost gives: { Self → List Header };

    ghost is_ready: { Self → Type 0 };

    fn write(&self, out: &mut Headers)
        requires ready { is_ready self.now }
        requires empty { out.old ≡ [] }
        requires room { length (gives self.now) ≤ 9 }
        ensures { out.new ≡ gives self.now };
}

fn is_shape(headers: &[Header]) -> bool
    ensures { result ≡ is_stack headers.now }
{
    is_plain(headers)
        || headers.len() >= 3
            && is_encap(&headers[..3])
            && (is_plain(&headers[3..])
                || headers.len() >= 6 && is_encap(&headers[3..6]) && is_plain(&headers[6..]))
}

fn is_plain(headers: &[Header]) -> bool
    ensures { result ≡ shape.is_plain headers.now }
{
    match headers {
        [Header::Ether { kind, .. }, rest @ ..] => match *kind {
            0x0800 => is_packet(rest),
            0x86dd => is_packet6(rest),
            _ => rest.is_empty(),
        },
        []
        | [
            Header::Ip { .. } | Header::Vxlan { .. } | Header::Ports { .. } | Header::Six { .. },
            ..
        ] => false,
    }
}

fn is_packet(headers: &[Header]) -> bool
    ensures { result ≡ shape.is_packet headers.now }
{
    match headers {
        [Header::Ip { proto, part, .. }, rest @ ..] => {
            if !*part && (*proto == 6 || *proto == 17) {
                is_ports(*proto, rest)
            } else {
                rest.is_empty()
            }
        }
        []
        | [
            Header::Ether { .. } | Header::Vxlan { .. } | Header::Ports { .. } | Header::Six { .. },
            ..
        ] => false,
    }
}

fn is_packet6(headers: &[Header]) -> bool
    ensures { result ≡ shape.is_packet6 headers.now }
{
    match headers {
        [Header::Six { proto, .. }, rest @ ..] => {
            if *proto == 6 || *proto == 17 {
                is_ports(*proto, rest)
            } else {
                rest.is_empty()
            }
        }
        []
        | [
            Header::Ether { .. } | Header::Ip { .. } | Header::Vxlan { .. } | Header::Ports { .. },
            ..
        ] => false,
    }
}

/// Whether ports of this protocol stand there, and nothing behind them.
fn is_ports(proto: u8, headers: &[Header]) -> bool
    ensures { result ≡ shape.is_ports proto headers.now }
{
    match headers {
        [Header::Ports { proto: of, .. }, rest @ ..] => *of == proto && rest.is_empty(),
        []
        | [
            Header::Ether { .. } | Header::Ip { .. } | Header::Vxlan { .. } | Header::Six { .. },
            ..
        ] => false,
    }
}

fn is_encap(headers: &[Header]) -> bool
    ensures { result ≡ shape.is_encap headers.now }
{
    match headers {
        [
            Header::Ether { kind, .. },
            Header::Ip { proto, part, .. },
            Header::Vxlan { vni },
        ] => *kind == 0x0800 && *proto == 17 && !*part && *vni < 0x100_0000,
        [] | [_] | [_, _] | [_, _, _, _, ..] => false,
        [
            Header::Ip { .. } | Header::Vxlan { .. } | Header::Ports { .. } | Header::Six { .. },
            _,
            _,
        ] => false,
        [
            Header::Ether { .. },
            Header::Ether { .. } | Header::Vxlan { .. } | Header::Ports { .. } | Header::Six { .. },
            _,
        ] => false,
        [
            Header::Ether { .. },
            Header::Ip { .. },
            Header::Ether { .. } | Header::Ip { .. } | Header::Ports { .. } | Header::Six { .. },
        ] => false,
    }
}

/// Whether an encapsulation stands in front: only there the third header of a stack is VXLAN.
#[inline(always)]
fn is_covered(headers: &[Header]) -> bool
    ensures { result ≡ is_covered headers.now }
{
    match headers {
        [_, _, Header::Vxlan { .. }, ..] => true,
        [] | [_] | [_, _] => false,
        [
            _,
            _,
            Header::Ether { .. } | Header::Ip { .. } | Header::Ports { .. } | Header::Six { .. },
            ..
        ] => false,
    }
}

/// The number of encapsulations in front of the headers of a stack. It looks at two places.
#[inline(always)]
fn count(headers: &[Header]) -> u8
    requires { IsTrue (is_stack headers.now) }
    ensures { result ≡ encaps headers.now }
{
    if !is_covered(headers) {
        return 0;
    }
    match headers {
        [_, _, _, rest @ ..] => 1 + u8::from(is_covered(rest)),
        [] | [_] | [_, _] => 0,
    }
}

/// Writes the headers into a room that has none.
#[inline(always)]
fn fill(out: &mut Headers, headers: &[Header])
    requires empty { out.old ≡ [] }
    requires room { length headers.now ≤ 9 }
    ensures { out.new ≡ headers.now }
{
    for header in headers {
        out.push(*header);
    }
}

fn copied(headers: &[Header]) -> Headers
    requires { length headers.now ≤ 9 }
    ensures { result ≡ headers.now }
{
    let mut copy = Headers::new();
    fill(&mut copy, headers);
    copy
}

impl Stack {
    /// The stack of these headers.
    #[tactic(auto, using(crate::proofs::Stacks::stack_short))]
    pub fn of(headers: &[Header]) -> Result<Stack, BadShape>
        ensures { result ≡ (if is_stack headers.now then Ok headers.now else Err (record {})) }
    {
        if !is_shape(headers) {
            return Err(BadShape);
        }
        Ok(Stack {
            headers: copied(headers),
        })
    }

    /// The stack of headers that are known to be of its shape.
    pub fn new(headers: Headers) -> Stack
        requires { IsTrue (is_stack headers) }
        ensures { result ≡ headers }
    {
        Stack { headers }
    }

    /// It becomes the stack of the headers that are written.
    #[inline(always)]
    #[tactic(auto, using(crate::proofs::Stacks::stack_short))]
    pub fn rewrite<W: Writes>(&mut self, by: &W)
        requires ready { W.is_ready by.now }
        requires shape { IsTrue (is_stack (W.gives by.now)) }
        ensures { self.new ≡ W.gives by.now }
    {
        self.headers.clear();
        by.write(&mut self.headers);
    }

    /// A stack to write others into: a bare Ethernet header of zeros. It clears nine places: make it once.
    pub fn room() -> Stack
        ensures { IsTrue (is_stack result) }
    {
        let mut headers = Headers::new();
        headers.push(Header::Ether {
            dst: Mac::of(0),
            src: Mac::of(0),
            kind: 0,
        });
        Stack { headers }
    }

    /// It becomes the other stack.
    #[inline(always)]
    pub fn copy_from(&mut self, other: &Stack)
        ensures { self.new ≡ other.now }
    {
        self.headers.copy_from(&other.headers);
    }

    /// The same stack once more. It is for what is kept: on a packet's way, write into a room.
    pub fn copy(&self) -> Stack
        ensures { result ≡ self.now }
    {
        Stack {
            headers: copied(self.headers()),
        }
    }

    /// The headers, outermost first.
    #[inline(always)]
    pub fn headers(&self) -> &[Header]
        ensures all { result.now ≡ self.now }
        ensures shape { IsTrue (is_stack result.now) }
        ensures room { length result.now ≤ 9 }
    {
        self.headers.as_slice()
    }

    /// The number of encapsulations, 0 to 2. Three headers stand for each, before the inner ones.
    #[tactic(auto, using(crate::proofs::Stacks::in_front))]
    pub fn encaps(&self) -> u8
        ensures count { result ≡ encaps self.now }
        ensures few { result ≤ 2 }
        ensures before { 3 * result ≤ length self.now }
    {
        count(self.headers())
    }

    /// The inner headers, which stand behind the encapsulations: Ethernet, IPv4 or IPv6, and ports, or as many
    /// of these as there are.
    pub fn inner(&self) -> &[Header]
        ensures { result.now ≡ inner self.now }
    {
        &self.headers()[3 * usize::from(self.encaps())..]
    }

    /// Whether two stacks are the same.
    pub fn is_same(&self, other: &Stack) -> bool
        ensures { IsTrue result ↔ (self.now ≡ other.now) }
    {
        self.headers() == other.headers()
    }
}
