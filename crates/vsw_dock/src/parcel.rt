//! Packets that are handed on from one port to another.

ghost use Rattle.std.specs.Prelude.{◌≡◌, ◌≤◌, [], IfOk, length, vec_capacity};
ghost use Rattle.vsw_base.specs.declared.packet.Dir.TheVariants as dir;
ghost use Rattle.vsw_dock.specs.Private.Does.{parcel_of};

use std::alloc::Global;
use std::marker::Model;
use vsw_actors::Packet;
use vsw_base::{Dir, NoMemory, Place};

/// Bytes of the longest frame that is read.
const FRAME_MAX: usize = 65_600;

/// A packet that left a port for another, as its worker brings it there, with its frame.
#[derive(Drop)]
pub struct Parcel {
    worker: u32,
    number: u32,
    port: u32,
    micros: u64,
    frame: Vec<u8>,
}

impl Model for Parcel {
    ghost use Rattle.std.specs.Prelude.{vec_capacity};
    ghost use Rattle.vsw_dock.specs.Seen.{ParcelSeen};

    ghost Value = { ParcelSeen };

    ghost view = { λ p. record { worker = p.worker; number = p.number; port = p.port; micros = p.micros; bytes = p.frame.items; room = vec_capacity p.frame } };
}

/// Puts bytes into a room in place of others.
fn put(room: &mut Vec<u8>, bytes: &[u8])
    requires { length bytes.now ≤ vec_capacity room.old }
    ensures bytes { room.new.items ≡ bytes.now }
    ensures room { vec_capacity room.old ≤ vec_capacity room.new }
{
    room.clear();
    if room.extend_from_slice(bytes).is_err() {
        unreachable!();
    }
}

impl Parcel {
    /// No packet, with this room for one.
    fn with(frame: Vec<u8>) -> Parcel
        ensures bytes { result.bytes ≡ frame.items }
        ensures room { result.room ≡ vec_capacity frame }
    {
        Parcel {
            worker: 0,
            number: 0,
            port: 0,
            micros: 0,
            frame,
        }
    }

    /// No packet, and no room for one, which takes no memory.
    pub fn none(alloc: Global) -> Parcel
        ensures { result.bytes ≡ [] }
    {
        Parcel::with(Vec::new(alloc))
    }

    /// No packet, and room for each frame that is read.
    pub fn new(alloc: Global) -> Result<Parcel, NoMemory>
        ensures { IfOk result (λ p. 65600 ≤ p.room) }
    {
        match Vec::with_capacity(alloc, FRAME_MAX) {
            Ok(frame) => Ok(Parcel::with(frame)),
            Err(_) => Err(NoMemory),
        }
    }

    /// Puts a packet in that left its port with these bytes for the port at another place.
    pub(crate) fn put(&mut self, packet: &Packet<'_>, port: u32, bytes: &[u8])
        requires { length bytes.now ≤ self.old.room }
        ensures holds { self.new ≡ parcel_of packet.now port bytes.now self.new.room }
        ensures room { self.old.room ≤ self.new.room }
    {
        put(&mut self.frame, bytes);
        self.worker = packet.worker;
        self.number = packet.number;
        self.port = port;
        self.micros = packet.micros;
    }

    /// The place of the port to which the packet goes.
    pub fn port(&self) -> u32
        ensures { result ≡ self.now.port }
    {
        self.port
    }

    /// The packet as its worker brings it.
    pub(crate) fn packet(&self) -> Packet<'_>
        ensures worker { result.worker ≡ self.now.worker }
        ensures number { result.number ≡ self.now.number }
        ensures place { result.place ≡ record { port = self.now.port; dir = dir.In } }
        ensures micros { result.micros ≡ self.now.micros }
        ensures bytes { result.bytes.now ≡ self.now.bytes }
    {
        Packet {
            worker: self.worker,
            number: self.number,
            place: Place {
                port: self.port,
                dir: Dir::In,
            },
            micros: self.micros,
            bytes: self.frame.as_slice(),
        }
    }
}
