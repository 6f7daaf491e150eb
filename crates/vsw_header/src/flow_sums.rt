//! Flow sums: a number that a flow and its replies have in common.

ghost use Rattle.std.specs.Prelude.{◌≡◌, ◌≤◌, ◌<◌, ◌*◌, ◌%◌, IsTrue, length};
ghost use Rattle.vsw_base.specs.Shape.{is_stack};
ghost use Rattle.vsw_base.specs.Shape as shape;
ghost use Rattle.vsw_header.specs.FlowSum.{ip_sum, ip6_sum, header_sum, sum_of, flow_sum_of};
ghost use Rattle.vsw_header.specs.Mirror.{mirrored};

use vsw_base::{Header, Ip4, Ip6, Stack};

#[inline(always)]
fn ip_words(address: Ip4) -> u32
    ensures value { result ≡ ip_sum address }
    ensures small { result ≤ 2 * 65535 }
{
    let number = address.number();
    number / 0x1_0000 + number % 0x1_0000
}

#[inline(always)]
fn ip6_words(address: Ip6) -> u32
    ensures value { result ≡ ip6_sum address }
    ensures small { result ≤ 8 * 65535 }
{
    let number = address.number();
    (number / 0x1_0000_0000_0000_0000_0000_0000_0000
        + number / 0x1_0000_0000_0000_0000_0000_0000 % 0x1_0000
        + number / 0x1_0000_0000_0000_0000_0000 % 0x1_0000
        + number / 0x1_0000_0000_0000_0000 % 0x1_0000
        + number / 0x1_0000_0000_0000 % 0x1_0000
        + number / 0x1_0000_0000 % 0x1_0000
        + number / 0x1_0000 % 0x1_0000
        + number % 0x1_0000) as u32
}

#[inline(always)]
fn words(header: &Header) -> u32
    ensures value { result ≡ header_sum header.now }
    ensures small { result ≤ 17 * 65535 }
{
    match *header {
        Header::Ether { dst, src, kind } => dst.sum() + src.sum() + u32::from(kind),
        Header::Ip {
            src,
            dst,
            proto,
            ..
        } => ip_words(src) + ip_words(dst) + u32::from(proto),
        Header::Vxlan { .. } => 0,
        Header::Ports { src, dst, .. } => u32::from(src) + u32::from(dst),
        Header::Six { src, dst, proto } => ip6_words(src) + ip6_words(dst) + u32::from(proto),
    }
}

fn sum(headers: &[Header]) -> u32
    requires { length headers.now ≤ 9 }
    ensures value { result ≡ sum_of headers.now }
    ensures small { result ≤ 17 * 65535 * length headers.now }
{
    match headers {
        [] => 0,
        [header, rest @ ..] => words(header) + sum(rest),
    }
}

/// The inner headers, of which there are few.
fn inner(stack: &Stack) -> &[Header]
    ensures all { result.now ≡ shape.inner stack.now }
    ensures shape { IsTrue (is_stack stack.now) }
    ensures room { length result.now ≤ 9 }
{
    &stack.headers()[3 * usize::from(stack.encaps())..]
}

/// The sum of the 16-bit words of the inner headers: three of an Ethernet address, two of an IPv4
/// address, eight of an IPv6 address, and the type, the protocol and the ports as they are.
#[tactic(auto, using(crate::proofs::Mirrors::sums_alike))]
pub fn flow_sum(stack: &Stack) -> u32
    ensures value { result ≡ flow_sum_of stack.now }
    ensures mirror { flow_sum_of (mirrored stack.now) ≡ result }
{
    sum(inner(stack))
}

/// The worker, of so many, that takes the packets of a flow and of its replies.
pub fn spread(stack: &Stack, workers: u32) -> u32
    requires { 1 ≤ workers }
    ensures value { result ≡ flow_sum_of stack.now % workers }
    ensures mirror { flow_sum_of (mirrored stack.now) % workers ≡ result }
    ensures below { result < workers }
{
    flow_sum(stack) % workers
}
