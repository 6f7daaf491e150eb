//! Packets.

ghost use Rattle.std.specs.Prelude.{◌<◌, ◌^◌};

use vsw_base::{BadShape, Control, Crossing, Dir, Header, Ip4, Mac, Moment, Sizes, Stack, Ufid};

/// Two hosts of one address: rules tell them apart, and keys don't.
pub const FIRST: u64 = 0x0200_0000_0001;

pub const SECOND: u64 = 0x0200_0000_0002;

/// An address of the own side, the one that stands for it, and one beyond.
pub const OWN: u32 = 0x0a00_0005;

pub const PUBLIC: u32 = 0xc000_0207;

pub const FAR: u32 = 0x0a00_0109;

/// The identity of TCP packets from a port of an address to a port of another, sent by this host.
pub fn id(dir: Dir, host: u64, src: (u32, u16), dst: (u32, u16)) -> Result<Ufid, BadShape>
    requires host { host < 2 ^ 48 }
{
    let stack = Stack::of(&[
        Header::Ether {
            dst: Mac::of(0x0200_0000_0099),
            src: Mac::of(host),
            kind: 0x0800,
        },
        Header::Ip {
            src: Ip4::of(src.0),
            dst: Ip4::of(dst.0),
            proto: 6,
            part: false,
        },
        Header::Ports {
            proto: 6,
            src: src.1,
            dst: dst.1,
        },
    ])?;
    Ok(Ufid { dir, stack })
}

/// A packet of this identity, at a moment in microseconds.
pub fn packet(id: &Ufid, control: Control, moment: u64) -> Crossing {
    Crossing {
        caller: 0,
        packet: 0,
        id: Ufid {
            dir: id.dir,
            stack: id.stack.copy(),
        },
        control,
        moment: Moment::of(moment),
        sizes: Sizes {
            whole: 60,
            one: 0,
            two: 0,
        },
    }
}
