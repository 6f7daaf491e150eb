//! A frame leaves as its packet was answered.

ghost use Rattle.std.specs.Prelude.{◌≡◌, List, true};
ghost use Rattle.vsw_policy.specs.Layer.{LayerSeen};
ghost use Rattle.vsw_live.specs.Calls.{FitsRoom};
ghost use Rattle.vsw_live.specs.Private.Locked.{IsFateAt, LeavesSo};
ghost use Rattle.vsw_port.specs.Crossed.{EditsPass, IsOwn};

use crate::unit::Unit;
use vsw_answer::Room;
use vsw_base::Stack;
use vsw_port::Outcome;

/// Writes the bytes with which the packet's frame leaves, if it passes, to the front of the room, unless they are its own.
pub(crate) fn leave(unit: &Unit<'_>, edited: &Stack, outcome: Outcome, room: &mut Room)
    requires answered { (ls : List LayerSeen) × IsFateAt ls unit.now.crossing outcome.fate × EditsPass ls unit.now.crossing edited.now outcome.kept outcome.fate }
    requires own { outcome.own ≡ true → IsOwn unit.now.crossing edited.now outcome.kept }
    ensures shows { LeavesSo unit.now edited.now outcome room.new }
    ensures fits { FitsRoom outcome.fate }
{
    // It tells the proof that the packet's headers are those of a stack.
    let _ = unit.crossing().id.stack.headers();
    vsw_answer::leave(unit.frame(), edited, outcome, room);
}
