//! UDP packets of 44 bytes, of worker 0.

ghost use Rattle.std.specs.Prelude.{◌<◌, ◌^◌};

use vsw_base::{Control, Crossing, Dir, Header, Ip4, Mac, Moment, Sizes, Stack, Ufid};

/// Addresses and ports of the two sides.
pub const OWN: (u32, u16) = (0x0a00_0005, 1234);

pub const OTHER: (u32, u16) = (0x0a00_0006, 1234);

pub const FAR: (u32, u16) = (0x0a00_0009, 53);

/// The address that stands for the own one, and a far port.
pub const PUBLIC: (u32, u16) = (0xcb00_7104, 80);

fn headers(src: (u32, u16), dst: (u32, u16)) -> [Header; 3] {
    [
        Header::Ether {
            dst: Mac::of(0x0200_0000_0099),
            src: Mac::of(0x0200_0000_0001),
            kind: 0x0800,
        },
        Header::Ip {
            src: Ip4::of(src.0),
            dst: Ip4::of(dst.0),
            proto: 17,
            part: false,
        },
        Header::Ports {
            proto: 17,
            src: src.1,
            dst: dst.1,
        },
    ]
}

/// The identity of packets from an address and port to another.
pub fn id(dir: Dir, src: (u32, u16), dst: (u32, u16)) -> Option<Ufid> {
    match Stack::of(&headers(src, dst)) {
        Ok(stack) => Some(Ufid { dir, stack }),
        Err(_) => None,
    }
}

/// A packet of this identity, at a moment in microseconds.
pub fn packet(id: &Ufid, control: Control, moment: u64) -> Crossing {
    Crossing {
        caller: 0,
        packet: 0,
        id: Ufid {
            dir: id.dir,
            stack: id.stack.copy(),
        },
        control,
        moment: Moment::of(moment),
        sizes: Sizes {
            whole: 44,
            one: 0,
            two: 0,
        },
    }
}
