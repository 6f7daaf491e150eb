//! The packets that are sent: one query, or those of eight flows, each known by its worker and its number.

ghost use Rattle.std.specs.Prelude.{◌≡◌, IfSome};
ghost use Rattle.vsw_frame.specs.Frame.{parts};
ghost use Rattle.vsw_answer.specs.Transit.{IsOfFrame};

use vsw_base::{Control, Crossing, Dir, Moment, Ufid};
use vsw_frame::{Frame, FrameRoom, read_frame};

/// UDP from 10.0.0.5:1234 to 10.0.0.9:53, 44 bytes. Byte 35 tells the flow.
pub const QUERY: [u8; 44] = [
    0x02, 0, 0, 0, 0, 0x99, 0x02, 0, 0, 0, 0, 0x01, 0x08, 0, 0x45, 0, 0, 0x1e, 0, 0, 0x40, 0, 0x40,
    0x11, 0x26, 0xc2, 0x0a, 0, 0, 5, 0x0a, 0, 0, 9, 0x04, 0xd2, 0, 0x35, 0, 0x0a, 0x7e, 0x5c, 0x68,
    0x69,
];

/// Its reply. Byte 37 tells the flow.
const REPLY: [u8; 44] = [
    0x02, 0, 0, 0, 0, 0x01, 0x02, 0, 0, 0, 0, 0x99, 0x08, 0, 0x45, 0, 0, 0x1e, 0, 0, 0x40, 0, 0x40,
    0x11, 0x26, 0xc2, 0x0a, 0, 0, 9, 0x0a, 0, 0, 5, 0, 0x35, 0x04, 0xd2, 0, 0x0a, 0x7e, 0x5c, 0x68,
    0x69,
];

/// A packet as a worker brings it, at a moment in microseconds.
#[derive(Clone, Copy)]
pub struct Packet {
    pub bytes: [u8; 44],
    pub number: u32,
    pub dir: Dir,
    pub control: Control,
    pub moment: u64,
}

/// The query.
pub fn query(dir: Dir, control: Control, moment: u64) -> Packet {
    Packet {
        bytes: QUERY,
        number: 0,
        dir,
        control,
        moment,
    }
}

/// A query of another flow, of port 1235.
pub fn beside(moment: u64) -> Packet {
    Packet {
        bytes: bytes_of(Dir::Out, 0xd3),
        ..query(Dir::Out, Control::None, moment)
    }
}

/// A word that looks random, by the worker and the number of its packet.
fn word(worker: u32, number: u32) -> u32 {
    let first = worker.wrapping_mul(0x85eb_ca6b) ^ number.wrapping_mul(0x9e37_79b1);
    (first ^ (first / 0x8000)).wrapping_mul(0x2c1b_3c6d)
}

/// The query or its reply, of the flow of this byte: ports 1232 to 1239.
fn bytes_of(dir: Dir, flow: u8) -> [u8; 44] {
    match dir {
        Dir::Out => {
            let mut bytes = QUERY;
            bytes[35] = flow;
            bytes
        }
        Dir::In => {
            let mut bytes = REPLY;
            bytes[37] = flow;
            bytes
        }
    }
}

/// A packet of one of eight flows. One of four comes in, and a worker sends ten a millisecond.
pub fn packet_of(worker: u32, number: u32) -> Packet {
    let word = word(worker, number);
    let dir = if word / 0x1_0000 % 4 == 0 {
        Dir::In
    } else {
        Dir::Out
    };
    Packet {
        bytes: bytes_of(dir, 0xd0 | (word / 0x100_0000 % 8) as u8),
        number,
        dir,
        control: Control::None,
        moment: u64::from(number).wrapping_mul(100),
    }
}

/// The packet of this frame, as its worker brings it.
pub fn crossing(frame: &Frame<'_>, worker: u32, packet: &Packet) -> Crossing
    ensures caller { result.caller ≡ worker }
    ensures of { IsOfFrame result (parts frame.now) }
{
    Crossing {
        caller: worker,
        packet: packet.number,
        id: Ufid {
            dir: packet.dir,
            stack: frame.stack().copy(),
        },
        control: packet.control,
        moment: Moment::of(packet.moment),
        sizes: frame.sizes(),
    }
}

/// The packet of a flow that a worker brought with this number, made once more.
pub fn crossing_of(worker: u32, number: u32) -> Option<Crossing> {
    let packet = packet_of(worker, number);
    let mut room = FrameRoom::new();
    match read_frame(&packet.bytes, &mut room) {
        Ok(frame) => Some(crossing(&frame, worker, &packet)),
        Err(_) => None,
    }
}
