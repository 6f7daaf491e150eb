//! A frame that passes leaves with its outgoing bytes.

ghost use Rattle.std.specs.Prelude.{◌≡◌, ◌≤◌, false, length, true};
ghost use Rattle.vsw_frame.specs.Frame.{parts};
ghost use Rattle.vsw_answer.specs.Transit.{CanLeave, IsUnedited, Leaves, bytes_in, len_of};

use crate::room::Room;
use vsw_base::{Fate, Stack};
use vsw_frame::{Frame, own_bytes, rewrite_to};
use vsw_port::Outcome;

/// Writes the outgoing bytes of a frame that passes to the front of `out`.
fn write(frame: &Frame<'_>, edited: &Stack, outcome: Outcome, out: &mut Vec<u8>)
    requires can { CanLeave (parts frame.now) edited.now outcome.kept outcome.fate }
    requires room { length out.old.items ≡ 65700 }
    ensures leaves { Leaves (parts frame.now) edited.now outcome.kept false outcome.fate out.new.items }
    ensures room { length out.new.items ≡ 65700 }
{
    if let Fate::Pass { .. } = outcome.fate {
        let _ = rewrite_to(frame, edited, outcome.kept, out);
    }
}

/// A frame that passes leaves with its outgoing bytes at the front of the room, or with its own bytes where nothing of
/// it was edited: then nothing is written.
pub fn leave(frame: &Frame<'_>, edited: &Stack, outcome: Outcome, room: &mut Room)
    requires can { CanLeave (parts frame.now) edited.now outcome.kept outcome.fate }
    requires own { outcome.own ≡ true → IsUnedited (parts frame.now) edited.now outcome.kept }
    ensures leaves { Leaves (parts frame.now) edited.now outcome.kept outcome.own outcome.fate room.new }
{
    if outcome.own {
        // It tells the proof that the definition of outgoing bytes gives the frame's own.
        let _ = own_bytes(frame);
        return;
    }
    write(frame, edited, outcome, &mut room.out);
}

/// The bytes with which a frame leaves that has this fate and was written to the room, if nothing was edited: its own,
/// and else those at the front of the room. A drop has none.
#[inline(always)]
pub fn bytes_of<'a>(fate: Fate, own: bool, frame: &Frame<'a>, room: &'a Room) -> &'a [u8]
    requires len { len_of fate ≤ 65700 }
    ensures { result.now ≡ bytes_in own (parts frame.now) fate room.now }
{
    match fate {
        Fate::Pass { len } => { if own { frame.bytes() } else { room.bytes(len) } }
        Fate::Drop(_) => &[],
    }
}
