//! Packets, and what becomes of them.

ghost use Rattle.std.specs.Prelude.{◌<◌, ◌^◌};
ghost use Rattle.vsw_walk.specs.Made.{Leads};

use vsw_base::{
    Addr, BadShape, Control, Crossing, Dir, Header, Ip4, Ip6, Mac, Moment, Sizes, Stack, Ufid,
    Verdict,
};
use vsw_policy::Policy;
use vsw_transpose::Transposition;
use vsw_walk::{Scratch, Walked, Wanted, walk};

/// An address and a port.
pub type End = (u32, u16);

pub type End6 = (u128, u16);

/// UDP from one end to another.
#[derive(Clone, Copy)]
pub enum Packet {
    Plain(End, End),
    /// In network 5001, from 172.16.0.1 to 172.16.0.2.
    Covered(End, End),
    /// Over IPv6.
    Six(End6, End6),
    CoveredSix(End6, End6),
    /// ICMPv6.
    Echo(u128, u128),
    /// Ethernet alone.
    Arp,
}

fn ether(dst: u64, src: u64) -> Header
    requires dst { dst < 2 ^ 48 }
    requires src { src < 2 ^ 48 }
{
    Header::Ether {
        dst: Mac::of(dst),
        src: Mac::of(src),
        kind: 0x0800,
    }
}

fn inner(kind: u16) -> Header {
    Header::Ether {
        dst: Mac::of(0x0200_0000_0099),
        src: Mac::of(0x0200_0000_0001),
        kind,
    }
}

fn six(src: u128, dst: u128, proto: u8) -> Header {
    Header::Six {
        src: Ip6::of(src),
        dst: Ip6::of(dst),
        proto,
    }
}

fn udp(src: u32, dst: u32) -> Header {
    Header::Ip {
        src: Ip4::of(src),
        dst: Ip4::of(dst),
        proto: 17,
        part: false,
    }
}

fn ports(src: u16, dst: u16) -> Header {
    Header::Ports {
        proto: 17,
        src,
        dst,
    }
}

fn plain(src: End, dst: End) -> Result<Stack, BadShape> {
    Stack::of(&[
        ether(0x0200_0000_0099, 0x0200_0000_0001),
        udp(src.0, dst.0),
        ports(src.1, dst.1),
    ])
}

fn covered(src: End, dst: End) -> Result<Stack, BadShape> {
    Stack::of(&[
        ether(0x0200_0000_0a02, 0x0200_0000_0a01),
        udp(0xac10_0001, 0xac10_0002),
        Header::Vxlan { vni: 5001 },
        ether(0x0200_0000_0099, 0x0200_0000_0001),
        udp(src.0, dst.0),
        ports(src.1, dst.1),
    ])
}

fn plain_six(src: End6, dst: End6) -> Result<Stack, BadShape> {
    Stack::of(&[inner(0x86dd), six(src.0, dst.0, 17), ports(src.1, dst.1)])
}

fn covered_six(src: End6, dst: End6) -> Result<Stack, BadShape> {
    Stack::of(&[
        ether(0x0200_0000_0a02, 0x0200_0000_0a01),
        udp(0xac10_0001, 0xac10_0002),
        Header::Vxlan { vni: 5001 },
        inner(0x86dd),
        six(src.0, dst.0, 17),
        ports(src.1, dst.1),
    ])
}

/// The headers of a packet.
pub fn stack_of(packet: &Packet) -> Result<Stack, BadShape> {
    match *packet {
        Packet::Plain(src, dst) => plain(src, dst),
        Packet::Covered(src, dst) => covered(src, dst),
        Packet::Six(src, dst) => plain_six(src, dst),
        Packet::CoveredSix(src, dst) => covered_six(src, dst),
        Packet::Echo(src, dst) => Stack::of(&[inner(0x86dd), six(src, dst, 58)]),
        Packet::Arp => Stack::of(&[inner(0x0806)]),
    }
}

/// What becomes of a packet of this direction and stack.
pub fn cross(policy: &Policy, dir: Dir, stack: &Stack, scratch: &mut Scratch) -> Walked
    ensures { Leads stack.now scratch.new result.kept }
{
    let crossing = Crossing {
        caller: 0,
        packet: 0,
        id: Ufid {
            dir,
            stack: stack.copy(),
        },
        control: Control::None,
        moment: Moment::of(1_000),
        sizes: Sizes {
            whole: 44,
            one: 0,
            two: 0,
        },
    };
    walk(policy, &crossing, scratch)
}

/// Whether a packet that came with this stack passes, and as this one: by its edits in turn, and by all of
/// them as one transposition.
pub fn passes_as(walked: &Walked, scratch: &Scratch, stack: &Stack, made: &Stack) -> bool
    requires { Leads stack.now scratch.now walked.now.kept }
{
    let mut by = Transposition::room();
    walked.compose(stack, scratch, &mut by);
    matches!(walked.verdict, Verdict::Pass)
        && scratch.stack().is_same(made)
        && by.apply(stack).is_same(made)
}

/// Place of the layer, number and rule of the pair, where one pair is wanted and nothing else.
pub fn wanted(scratch: &Scratch) -> Option<(u32, u32, u16)> {
    match scratch.changes() {
        [Wanted::Make { layer, pair }] => Some((*layer, pair.number, pair.rule)),
        _ => None,
    }
}

/// Places of the layers, where two pairs are wanted and nothing else.
pub fn places(scratch: &Scratch) -> Option<(u32, u32)> {
    match scratch.changes() {
        [
            Wanted::Make { layer: first, .. },
            Wanted::Make { layer: second, .. },
        ] => Some((*first, *second)),
        _ => None,
    }
}

/// What a packet looked for in a layer: the layer's place, encapsulations, source address and
/// source port of the key, and the pair.
pub type Look = (u32, u8, At, u16, Option<u32>);

/// An address of a key by its number, as constants can have it.
#[derive(Clone, Copy, PartialEq)]
pub enum At {
    Absent,
    Four(u32),
    Six(u128),
}

fn told(address: Addr) -> At {
    match address {
        Addr::Absent => At::Absent,
        Addr::Four(four) => At::Four(four.number()),
        Addr::Six(six) => At::Six(six.number()),
    }
}

/// What the packet looked for in the layer that it met after so many others.
pub fn looked(scratch: &Scratch, met: usize) -> Option<Look> {
    let look = scratch.looked().get(met)?;
    let key = &look.key;
    let address = told(key.src);
    Some((look.layer, key.encaps, address, key.src_port, look.found))
}

/// Source, destination and ports of a key.
pub type Keyed = ((At, u16), (At, u16));

/// The addresses of IPv6 and the destination port that replies of a pair get.
pub type Back = (Option<u128>, Option<u128>, Option<u16>);

fn number_of(address: Option<Ip6>) -> Option<u128> {
    match address {
        Some(address) => Some(address.number()),
        None => None,
    }
}

/// The key of the replies and what they get, where one pair is wanted and nothing else.
pub fn wanted_back(scratch: &Scratch) -> Option<(Keyed, Back)> {
    match scratch.changes() {
        [Wanted::Make { pair, .. }] => {
            let (key, set) = (&pair.reverse, &pair.reverse_set);
            let ends = ((told(key.src), key.src_port), (told(key.dst), key.dst_port));
            let back = (number_of(set.src_ip6), number_of(set.dst_ip6), set.dst_port);
            Some((ends, back))
        }
        _ => None,
    }
}
