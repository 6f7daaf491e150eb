//! The words of an identity.

ghost use Rattle.std.specs.Prelude.{drop, ◌≡◌, ◌*◌, ◌/◌, ◌%◌, ◌<◌, ◌≤◌, ◌^◌, IsTrue, [], ◌∷◌, length};
ghost use Rattle.vsw_base.specs.Fits.{AreFit};
ghost use Rattle.vsw_base.specs.Shape.{is_stack, encaps, inner};
ghost use Rattle.vsw_words.specs.Key as spec;
ghost use Rattle.vsw_words.specs.Key.{head_word, head_bounds, vni_bounds, joined, bit, side, packet_fields, ports_of};
ghost use Rattle.vsw_words.specs.Levels.{macs_at, pair_at, six_at, vni_at, level_words, plain_words, FitsFirst, FitsSecond, FitsSix, FitsPorts, FitsBehind, FitsThird};

use vsw_base::{Dir, Header, Ufid};

/// The words of an identity. `id_of` (specs/Id.antt) gives the identity back from them, so two identities
/// with the same words are the same.
pub fn key_words(id: &Ufid, out: &mut [u64; 16])
    ensures words { out.new ≡ spec.key_words id.now.dir id.now.stack }
    ensures fit { AreFit id.now.stack }
{
    write_key(id.dir, id.stack.headers(), out);
}

/// Writes the words of a direction and the headers of a stack.
#[inline(always)]
fn write_key(dir: Dir, headers: &[Header], out: &mut [u64; 16])
    requires { IsTrue (is_stack headers.now) }
    ensures words { out.new ≡ spec.key_words dir headers.now }
    ensures fit { AreFit headers.now }
{
    if headers.len() <= 3 {
        write_plain(dir, headers, out);
    } else {
        write_encapsulated(dir, headers, out);
    }
}

/// Writes the words of headers without encapsulation, as most packets have them.
#[inline(always)]
fn write_plain(dir: Dir, headers: &[Header], out: &mut [u64; 16])
    ensures words { out.new ≡ plain_words dir headers.now }
    ensures first { FitsFirst headers.now }
    ensures second { FitsSecond headers.now }
    ensures six { FitsSix headers.now }
    ensures third { FitsThird headers.now }
{
    let first = head(bit_of(dir), 0, headers);
    let (dst, src) = macs(headers);
    let (src_high, src_low, dst_high, dst_low) = six(headers);
    *out = [
        first,
        0,
        dst,
        src,
        0,
        0,
        0,
        0,
        addresses(headers),
        0,
        0,
        src_high,
        src_low,
        dst_high,
        dst_low,
        0,
    ];
}

/// Writes the words of headers with encapsulations.
fn write_encapsulated(dir: Dir, headers: &[Header], out: &mut [u64; 16])
    requires { IsTrue (is_stack headers.now) }
    ensures words { out.new ≡ spec.key_words dir headers.now }
    ensures fit { AreFit headers.now }
{
    let count = count(headers);
    let last = inner_of(headers, count);
    let first = head(bit_of(dir), count as u64, last);
    write_levels(
        first,
        headers,
        after(headers),
        after(after(headers)),
        last,
        out,
    );
}

/// Writes the words behind the first one, by the headers from each level on and the inner ones.
fn write_levels(
    first: u64,
    headers: &[Header],
    second: &[Header],
    third: &[Header],
    last: &[Header],
    out: &mut [u64; 16],
)
    ensures words { out.new ≡ level_words first headers.now second.now third.now last.now }
    ensures one { FitsFirst headers.now × FitsSecond headers.now }
    ensures two { FitsFirst second.now × FitsSecond second.now }
    ensures three { FitsFirst third.now × FitsSecond third.now }
    ensures six { FitsSix last.now }
{
    let (dst, src) = macs(headers);
    let (second_dst, second_src) = macs(second);
    let (third_dst, third_src) = macs(third);
    let (src_high, src_low, dst_high, dst_low) = six(last);
    *out = [
        first,
        vnis(vni(headers), vni(second)),
        dst,
        src,
        second_dst,
        second_src,
        third_dst,
        third_src,
        addresses(headers),
        addresses(second),
        addresses(third),
        src_high,
        src_low,
        dst_high,
        dst_low,
        0,
    ];
}

/// The headers behind a level, if there are any.
#[inline(always)]
fn after(headers: &[Header]) -> &[Header]
    ensures { result.now ≡ drop 3 headers.now }
{
    if headers.len() < 3 {
        &[]
    } else {
        &headers[3..]
    }
}

/// Destination and source of an Ethernet header at the front; 0 where there is none.
#[inline(always)]
fn macs(headers: &[Header]) -> (u64, u64)
    ensures value { result ≡ macs_at headers.now }
    ensures fits { FitsFirst headers.now }
{
    match headers {
        [] => (0, 0),
        [Header::Ether { dst, src, kind }, ..] => {
            let _kind = *kind;
            (dst.number(), src.number())
        }
        [
            Header::Ip { .. } | Header::Vxlan { .. } | Header::Ports { .. } | Header::Six { .. },
            ..
        ] => (0, 0),
    }
}

/// The addresses of an IPv4 header behind the first header, the source in the high half; 0 where there is none.
#[inline(always)]
fn addresses(headers: &[Header]) -> u64
    ensures value { result ≡ pair_at headers.now }
    ensures fits { FitsSecond headers.now }
{
    match headers {
        [
            _,
            Header::Ip {
                src,
                dst,
                proto,
                ..
            },
            ..
        ] => {
            let _proto = *proto;
            u64::from(src.number()) * 0x1_0000_0000 + u64::from(dst.number())
        }
        [] | [_] => 0,
        [
            _,
            Header::Ether { .. } | Header::Vxlan { .. } | Header::Ports { .. } | Header::Six { .. },
            ..
        ] => 0,
    }
}

/// The halves of the source and the destination of an IPv6 header behind the first header, the high one first; 0 where
/// there is none.
#[inline(always)]
fn six(headers: &[Header]) -> (u64, u64, u64, u64)
    ensures value { result ≡ six_at headers.now }
    ensures fits { FitsSix headers.now }
{
    match headers {
        [_, Header::Six { src, dst, proto }, ..] => {
            let _proto = *proto;
            let (src_high, src_low) = halves(src.number());
            let (dst_high, dst_low) = halves(dst.number());
            (src_high, src_low, dst_high, dst_low)
        }
        [] | [_] => (0, 0, 0, 0),
        [
            _,
            Header::Ether { .. } | Header::Ip { .. } | Header::Vxlan { .. } | Header::Ports { .. },
            ..
        ] => (0, 0, 0, 0),
    }
}

/// The high and the low half of an address of IPv6.
#[inline(always)]
fn halves(number: u128) -> (u64, u64)
    ensures { result ≡ (number / 2 ^ 64, number % 2 ^ 64) }
{
    (
        (number >> 64) as u64,
        (number % 0x1_0000_0000_0000_0000) as u64,
    )
}

/// The network of a VXLAN header behind the first two; 0 where there is none.
#[inline(always)]
fn vni(headers: &[Header]) -> u32
    ensures { result ≡ vni_at headers.now }
{
    match headers {
        [_, _, Header::Vxlan { vni }, ..] => *vni,
        [] | [_] | [_, _] => 0,
        [
            _,
            _,
            Header::Ether { .. } | Header::Ip { .. } | Header::Ports { .. } | Header::Six { .. },
            ..
        ] => 0,
    }
}

/// The number of encapsulations. Three headers stand for each, and one to three behind them.
#[inline(always)]
#[tactic(auto, using(crate::proofs::Counted::counted))]
fn count(headers: &[Header]) -> usize
    requires { IsTrue (is_stack headers.now) }
    ensures count { result ≡ encaps headers.now }
    ensures before { 3 * result ≤ length headers.now }
    ensures few { result ≤ 2 }
{
    if headers.len() <= 3 {
        0
    } else if headers.len() <= 6 {
        1
    } else {
        2
    }
}

/// The headers behind so many encapsulations.
#[inline(always)]
fn inner_of(headers: &[Header], count: usize) -> &[Header]
    requires count { count ≡ encaps headers.now }
    requires before { 3 * count ≤ length headers.now }
    ensures { result.now ≡ inner headers.now }
{
    &headers[3 * count..]
}

/// The first word. The fields stand in the order of `head_bounds` (specs/Key.antt), the lowest first.
#[inline(always)]
fn pack(
    dir: u64,
    count: u64,
    ip: bool,
    ports: bool,
    part: bool,
    six: bool,
    proto: u8,
    kind: u16,
    src: u16,
    dst: u16,
) -> u64
    requires dir { dir < 2 }
    requires count { count < 4 }
    ensures { result ≡ joined head_bounds (1 ∷ dir ∷ count ∷ bit ip ∷ bit ports ∷ bit part ∷ bit six ∷ proto ∷ kind ∷ src ∷ dst ∷ []) }
{
    let high = (u64::from(dst) * 0x1_0000 + u64::from(src)) * 0x1_0000 + u64::from(kind);
    let all = ((high * 256 + u64::from(proto)) * 2 + u64::from(six)) * 2 + u64::from(part);
    ((((all * 2 + u64::from(ports)) * 2 + u64::from(ip)) * 4 + count) * 2 + dir) * 2 + 1
}

/// The first word of inner headers behind so many encapsulations.
#[inline(always)]
fn head(dir: u64, count: u64, inner: &[Header]) -> u64
    requires dir { dir < 2 }
    requires count { count < 4 }
    ensures value { result ≡ head_word dir count inner.now }
    ensures fits { FitsThird inner.now }
{
    match inner {
        [] => (count * 2 + dir) * 2 + 1,
        [Header::Ether { kind, .. }, packet @ ..] => packet_head(dir, count, *kind, packet),
        [
            Header::Ip { .. } | Header::Vxlan { .. } | Header::Ports { .. } | Header::Six { .. },
            ..
        ] => (count * 2 + dir) * 2 + 1,
    }
}

/// The first word of what stands behind Ethernet of this type.
#[inline(always)]
fn packet_head(dir: u64, count: u64, kind: u16, packet: &[Header]) -> u64
    requires dir { dir < 2 }
    requires count { count < 4 }
    ensures value { result ≡ joined head_bounds (1 ∷ dir ∷ count ∷ packet_fields kind packet.now) }
    ensures fits { FitsBehind packet.now }
{
    match packet {
        [] => pack(dir, count, false, false, false, false, 0, kind, 0, 0),
        [Header::Ip { proto, part, .. }, rest @ ..] => {
            let (there, src, dst) = ports(rest);
            pack(
                dir, count, true, there, *part, false, *proto, kind, src, dst,
            )
        }
        [Header::Six { proto, .. }, rest @ ..] => {
            let (there, src, dst) = ports(rest);
            pack(
                dir, count, false, there, false, true, *proto, kind, src, dst,
            )
        }
        [
            Header::Ether { .. } | Header::Vxlan { .. } | Header::Ports { .. },
            ..
        ] => (count * 2 + dir) * 2 + 1,
    }
}

/// Whether ports stand at the front, and which.
#[inline(always)]
fn ports(headers: &[Header]) -> (bool, u16, u16)
    ensures value { result ≡ ports_of headers.now }
    ensures fits { FitsPorts headers.now }
{
    match headers {
        [Header::Ports { proto, src, dst }, ..] => {
            let _proto = *proto;
            (true, *src, *dst)
        }
        [] => (false, 0, 0),
        [
            Header::Ether { .. } | Header::Ip { .. } | Header::Vxlan { .. } | Header::Six { .. },
            ..
        ] => (false, 0, 0),
    }
}

/// The words of both networks.
#[inline(always)]
fn vnis(first: u32, second: u32) -> u64
    ensures { result ≡ joined vni_bounds (first ∷ second ∷ []) }
{
    u64::from(second) * 0x100_0000 + u64::from(first)
}

fn bit_of(dir: Dir) -> u64
    ensures value { result ≡ side dir }
    ensures small { result < 2 }
{
    match dir {
        Dir::Out => 0,
        Dir::In => 1,
    }
}
