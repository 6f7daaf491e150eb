//! Packets.

ghost use Rattle.std.specs.Prelude.{◌<◌, ◌^◌};

use vsw_base::{Control, Crossing, Dir, Header, Ip4, Mac, Moment, Sizes, Stack, Ufid};

/// The protocol numbers of TCP and UDP.
pub const TCP: u8 = 6;

pub const UDP: u8 = 17;

/// Two addresses of the own side, and two beyond.
pub const OWN: u32 = 0x0a00_0005;

pub const OTHER: u32 = 0x0a00_0006;

const NEAR: u32 = 0x0a00_0009;

pub const FAR: u32 = 0x0a00_0109;

fn ether() -> Header {
    Header::Ether {
        dst: Mac::of(0x0200_0000_0099),
        src: Mac::of(0x0200_0000_0001),
        kind: 0x0800,
    }
}

fn ip(proto: u8, src: u32, dst: u32) -> Header {
    Header::Ip {
        src: Ip4::of(src),
        dst: Ip4::of(dst),
        proto,
        part: false,
    }
}

fn ports(proto: u8, src: u16, dst: u16) -> Header {
    Header::Ports { proto, src, dst }
}

fn crossing(dir: Dir, stack: Stack, control: Control, whole: u32) -> Crossing {
    Crossing {
        caller: 0,
        packet: 0,
        id: Ufid { dir, stack },
        control,
        moment: Moment::of(1_000),
        sizes: Sizes {
            whole,
            one: 0,
            two: 0,
        },
    }
}

/// A packet of so many bytes, from a port of an address to a port of another.
pub fn packet(
    dir: Dir,
    proto: u8,
    src: (u32, u16),
    dst: (u32, u16),
    control: Control,
    whole: u32,
) -> Option<Crossing> {
    match Stack::of(&[ether(), ip(proto, src.0, dst.0), ports(proto, src.1, dst.1)]) {
        Ok(stack) => Some(crossing(dir, stack, control, whole)),
        Err(_) => None,
    }
}

/// An inbound UDP packet in network 5001.
pub fn covered(src: (u32, u16), dst: (u32, u16)) -> Option<Crossing> {
    let headers = [
        ether(),
        ip(UDP, 0xac10_0002, 0xac10_0001),
        Header::Vxlan { vni: 5001 },
        ether(),
        ip(UDP, src.0, dst.0),
        ports(UDP, src.1, dst.1),
    ];
    match Stack::of(&headers) {
        Ok(stack) => Some(crossing(Dir::In, stack, Control::None, 94)),
        Err(_) => None,
    }
}

/// Between a port of the own address and port 53, 44 bytes long.
fn short(dir: Dir, proto: u8, port: u16, control: Control) -> Option<Crossing> {
    let own = (OWN, port);
    let near = (NEAR, 53);
    match dir {
        Dir::Out => packet(dir, proto, own, near, control, 44),
        Dir::In => packet(dir, proto, near, own, control, 44),
    }
}

/// Packet `number` of port 1234, 1,000 microseconds after the one before.
pub fn numbered(number: u32, dir: Dir, proto: u8, control: Control) -> Option<Crossing> {
    let mut crossing = short(dir, proto, 1234, control)?;
    crossing.packet = number;
    crossing.moment = Moment::of(u64::from(number) * 1_000);
    Some(crossing)
}

/// What a packet asks for, one of eight times.
fn control_of(word: u32) -> Control {
    match word % 32 {
        0 => Control::Syn,
        1 => Control::SynAck,
        2 => Control::Fin,
        3 => Control::Rst,
        _ => Control::None,
    }
}

/// Packet `number`, 50,000 microseconds after the one before: of this flow, and of the worker by the flow's last bit.
/// UDP packets ask for nothing.
pub fn of_flow(number: u32, flow: u16, dir: Dir, word: u32) -> Option<Crossing> {
    let port = 1_000u16.wrapping_add(flow);
    let mut crossing = if flow % 3 == 0 {
        short(dir, UDP, port, Control::None)?
    } else {
        short(dir, TCP, port, control_of(word))?
    };
    crossing.caller = u32::from(flow % 2);
    crossing.packet = number;
    crossing.moment = Moment::of(u64::from(number) * 50_000);
    Some(crossing)
}
