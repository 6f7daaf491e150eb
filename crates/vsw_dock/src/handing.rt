//! What leaves a port for another.

ghost use Rattle.std.specs.Prelude.{◌≡◌, ◌≤◌, length, true};
ghost use Rattle.vsw_actors.specs.Actors.{handed};
ghost use Rattle.vsw_dock.specs.Docks.{HasRoom, holds, parcel_in};
ghost use Rattle.vsw_dock.specs.Private.Does.{handed_as, packet_deed};
ghost use Rattle.vsw_frame.specs.Frame.{parts};
ghost use Rattle.vsw_hairpin.specs.Handing.{handed_by};
ghost use Rattle.vsw_live.specs.Calls.{FitsRoom};

use crate::parcel::Parcel;
use vsw_actors::Packet;
use vsw_answer::{Answer, Room, bytes_of};
use vsw_base::{Fate, Mac};
use vsw_frame::{Frame, FrameRoom};
use vsw_hairpin::hand_on;

/// Puts a packet with this fate that left its port with these bytes into a parcel, if it is for another of these ports.
fn hand_bytes(
    locals: &[Mac],
    packet: &Packet<'_>,
    fate: Fate,
    bytes: &[u8],
    parcel: &mut Parcel,
) -> bool
    requires few { length locals.now ≤ 16 }
    requires room { 65600 ≤ parcel.old.room }
    ensures hands { handed_as locals.now packet.now fate bytes.now ≡ handed result (parcel_in parcel.new) }
    ensures holds { result ≡ true → holds parcel.new }
    ensures room { parcel.old.room ≤ parcel.new.room }
{
    let mut headers = FrameRoom::new();
    match hand_on(locals, packet.place, fate, bytes, &mut headers) {
        None => false,
        Some((port, _)) => {
            parcel.put(packet, port, bytes);
            true
        }
    }
}

/// Puts a packet that was answered so into a parcel, if it left for another of these ports: its frame's own bytes, or those at the front of the
/// room. Where there are no such ports nothing is read.
pub(crate) fn hand(
    locals: &[Mac],
    packet: &Packet<'_>,
    answer: &Answer,
    frame: &Frame<'_>,
    room: &Room,
    parcel: &mut Parcel,
) -> bool
    requires few { length locals.now ≤ 16 }
    requires fits { FitsRoom answer.now.fate }
    requires room { HasRoom locals.now parcel.old }
    ensures hands { handed_by locals.now packet.now.place.port (packet_deed packet.now (parts frame.now) answer.now room.now) ≡ handed result (parcel_in parcel.new) }
    ensures holds { result ≡ true → holds parcel.new }
    ensures room { parcel.old.room ≤ parcel.new.room }
{
    if locals.is_empty() {
        return false;
    }
    let fate = answer.fate();
    let bytes = bytes_of(fate, answer.own(), frame, room);
    hand_bytes(locals, packet, fate, bytes, parcel)
}
