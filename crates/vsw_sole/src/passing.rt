//! A frame crosses the layers of its port.

ghost use Rattle.std.specs.Prelude.{◌≡◌, ◌≤◌, ◌<◌, ◌++◌, length};
ghost use Rattle.vsw_frame.specs.Frame.{parts};
ghost use Rattle.vsw_port.specs.declared.event.Event.TheVariants as event;
ghost use Rattle.vsw_port.specs.Calls.{Carried};
ghost use Rattle.vsw_port.specs.Next.{IsNext};
ghost use Rattle.vsw_port.specs.Core.{entered};
ghost use Rattle.vsw_port.specs.Crossed.{MayBeShort, is_short};
ghost use Rattle.vsw_sole.specs.Sole.{layers_of};
ghost use Rattle.vsw_answer.specs.Transit.{IsOfFrame, bytes_in, len_of, met, told};

use crate::SolePort;
use vsw_answer::{Room, leave};
use vsw_base::Crossing;
use vsw_frame::Frame;
use vsw_port::Outcome;

/// A frame crosses the layers of its port: the next call of the port's history. Where it passes, `bytes_of` tells its
/// outgoing bytes. A drop changes nothing; `memory` tells when it may be for want of memory.
#[inline(always)]
pub fn transit(
    port: &mut SolePort,
    crossing: &Crossing,
    frame: &Frame<'_>,
    room: &mut Room,
) -> Outcome
    requires room { 1 ≤ port.old.room }
    requires caller { crossing.now.caller < port.old.workers }
    requires of { IsOfFrame crossing.now (parts frame.now) }
    ensures next { IsNext port.old.opening port.old.journal (record { deed = Carried crossing.now (parts frame.now) result.fate (bytes_in result.own (parts frame.now) result.fate room.new); entry = result.entry; count = length port.old.journal }) }
    ensures exact { told result.fate result.entry (bytes_in result.own (parts frame.now) result.fate room.new) (layers_of port.new) ≡ met (is_short result.fate) (layers_of port.old) crossing.now (parts frame.now) }
    ensures memory { MayBeShort (is_short result.fate) (layers_of port.old) crossing.now }
    ensures journal { port.new.journal ≡ port.old.journal ++ entered result.entry (event.Crossing crossing.now result.fate) }
    ensures opening { port.new.opening ≡ port.old.opening }
    ensures workers { port.new.workers ≡ port.old.workers }
    ensures len { len_of result.fate ≤ 65700 }
{
    // It tells the proof that the packet's headers are those of a frame.
    let _ = crossing.id.stack.headers();
    let outcome = port.cross(crossing);
    leave(frame, port.edited(), outcome, room);
    outcome
}
