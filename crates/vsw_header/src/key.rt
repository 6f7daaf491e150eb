//! The keys by which a layer finds its pairs.

ghost use Rattle.std.specs.Prelude.{◌≡◌, [], get_or};
ghost use Rattle.vsw_base.specs.Shape.{vnis};
ghost use Rattle.vsw_header.specs.Key.{packet_of, ports_of, key_behind, key_from, mirror_of};

use vsw_base::{Addr, Header, LayerKey, Stack};

/// The network of the encapsulation at this place, the outermost being 0; 0 where there is none.
fn vni_at(headers: &[Header], place: usize) -> u32
    ensures { result ≡ get_or (vnis headers.now) place 0 }
{
    match headers {
        [] => 0,
        [Header::Vxlan { vni }, rest @ ..] => {
            if place == 0 {
                *vni
            } else {
                vni_at(rest, place - 1)
            }
        }
        [
            Header::Ether { .. } | Header::Ip { .. } | Header::Ports { .. } | Header::Six { .. },
            rest @ ..,
        ] => vni_at(rest, place),
    }
}

/// Writes source, destination, protocol and fragment mark of inner headers.
#[inline(always)]
fn write_packet(headers: &[Header], key: &mut LayerKey)
    ensures { key.new ≡ record key.old { src = (packet_of headers.now).0; dst = (packet_of headers.now).1; proto = (packet_of headers.now).2; part = (packet_of headers.now).3 } }
{
    match headers {
        [
            _,
            Header::Ip {
                src,
                dst,
                proto,
                part,
            },
            ..
        ] => {
            key.src = Addr::Four(*src);
            key.dst = Addr::Four(*dst);
            key.proto = *proto;
            key.part = *part;
        }
        [_, Header::Six { src, dst, proto }, ..] => {
            key.src = Addr::Six(*src);
            key.dst = Addr::Six(*dst);
            key.proto = *proto;
            key.part = false;
        }
        []
        | [_]
        | [
            _,
            Header::Ether { .. } | Header::Vxlan { .. } | Header::Ports { .. },
            ..
        ] => {
            key.src = Addr::Absent;
            key.dst = Addr::Absent;
            key.proto = 0;
            key.part = false;
        }
    }
}

/// Source and destination port of inner headers.
#[inline(always)]
fn ports(headers: &[Header]) -> (u16, u16)
    ensures { result ≡ ports_of headers.now }
{
    match headers {
        [_, _, Header::Ports { src, dst, .. }, ..] => (*src, *dst),
        []
        | [_]
        | [_, _]
        | [
            _,
            _,
            Header::Ether { .. } | Header::Ip { .. } | Header::Vxlan { .. } | Header::Six { .. },
            ..
        ] => (0, 0),
    }
}

/// Writes the key of inner headers behind encapsulations, so many and of these networks.
#[inline(always)]
fn write_behind(headers: &[Header], encaps: u8, vni_outer: u32, vni_second: u32, key: &mut LayerKey)
    ensures { key.new ≡ key_behind headers.now encaps vni_outer vni_second }
{
    key.encaps = encaps;
    key.vni_outer = vni_outer;
    key.vni_second = vni_second;
    write_packet(headers, key);
    (key.src_port, key.dst_port) = ports(headers);
}

/// Writes the key of a stack with encapsulations. It stands apart, so that the plain case is short where it is inlined.
#[inline(never)]
fn write_within(stack: &Stack, key: &mut LayerKey)
    ensures { key.new ≡ key_from stack.now }
{
    let all = stack.headers();
    write_behind(
        stack.inner(),
        stack.encaps(),
        vni_at(all, 0),
        vni_at(all, 1),
        key,
    );
}

/// Writes the key of a stack: its VNIs, and the inner addresses, protocol, fragment mark and ports. It is written where it stays: a copy
/// right behind the writing waits for each of its parts.
#[inline(always)]
#[tactic(auto, using(crate::proofs::Keys::plain_key))]
pub fn write_key(stack: &Stack, key: &mut LayerKey)
    ensures { key.new ≡ key_from stack.now }
{
    if stack.encaps() == 0 {
        write_behind(stack.headers(), 0, 0, 0, key);
    } else {
        write_within(stack, key);
    }
}

/// The key of no headers, to write others into.
pub fn blank_key() -> LayerKey
    ensures { result ≡ key_behind [] 0 0 0 }
{
    LayerKey {
        encaps: 0,
        vni_outer: 0,
        vni_second: 0,
        src: Addr::Absent,
        dst: Addr::Absent,
        proto: 0,
        part: false,
        src_port: 0,
        dst_port: 0,
    }
}

/// The key of a stack.
pub fn key_of(stack: &Stack) -> LayerKey
    ensures { result ≡ key_from stack.now }
{
    let mut key = blank_key();
    write_key(stack, &mut key);
    key
}

/// The key of the replies: source and destination exchanged.
pub fn mirror(key: &LayerKey) -> LayerKey
    ensures value { result ≡ mirror_of key.now }
    ensures back { mirror_of result ≡ key.now }
{
    LayerKey {
        src: key.dst,
        dst: key.src,
        src_port: key.dst_port,
        dst_port: key.src_port,
        ..*key
    }
}
