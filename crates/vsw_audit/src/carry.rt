//! What is told of a packet, against its crossing.

ghost use Rattle.std.specs.Prelude.{◌≡◌, ◌≤◌, ◌<◌, ◌-◌, ◌^◌, ◌&&◌, not, ℕ, List, OnOk, length, true, bytes_eq};
ghost use Rattle.vsw_frame.specs.Frame.{parts};
ghost use Rattle.vsw_port.specs.Calls.{Carried};
ghost use Rattle.vsw_port.specs.Cross.{made_by, makes};
ghost use Rattle.vsw_port.specs.Crossed.{is_short};
ghost use Rattle.vsw_port.specs.Ledger.{layers_in};
ghost use Rattle.vsw_port.specs.Walked.{IsWalk};
ghost use Rattle.vsw_promise.specs.Jobs.{crossing_by};
ghost use Rattle.vsw_answer.specs.Transit.{IsOfFrame};
ghost use Rattle.vsw_audit.specs.Private.Lines.{JudgesBy};

use std::alloc::Global;
use vsw_answer::{Room, bytes_of, leave};
use vsw_base::{
    Cause, Control, Crossing, Dir, Fate, Moment, NoMemory, Place, Sizes, Stack, Ufid, Verdict,
};
use vsw_frame::Frame;
use vsw_policy::Policy;
use vsw_port::{Ledger, Outcome, judge};
use vsw_walk::{Scratch, Walked, Wanted, walk};

/// The rooms in which packet after packet is replayed. Each is written over by the next one.
#[derive(Drop)]
pub(crate) struct Rooms {
    pub crossing: Crossing,
    scratch: Scratch,
    room: Room,
}

impl Rooms {
    /// Rooms in which no packet was replayed.
    pub(crate) fn new(alloc: Global) -> Result<Rooms, NoMemory> {
        let scratch = Scratch::new(alloc)?;
        let room = Room::new(alloc)?;
        let crossing = Crossing {
            caller: 0,
            packet: 0,
            id: Ufid {
                dir: Dir::Out,
                stack: Stack::room(),
            },
            control: Control::None,
            moment: Moment::of(0),
            sizes: Sizes {
                whole: 0,
                one: 0,
                two: 0,
            },
        };
        Ok(Rooms {
            crossing,
            scratch,
            room,
        })
    }

    /// Packet `packet`, which came at this moment, as this caller brings it to the port at a place.
    pub(crate) fn bring(
        &mut self,
        caller: u32,
        packet: u32,
        place: Place,
        moment: Moment,
        frame: &Frame<'_>,
    )
        ensures crossing { self.new.crossing ≡ crossing_by caller packet place moment (parts frame.now) }
    {
        let crossing = &mut self.crossing;
        crossing.caller = caller;
        crossing.packet = packet;
        crossing.id.dir = place.dir;
        crossing.id.stack.copy_from(frame.stack());
        crossing.control = frame.control();
        crossing.moment = moment;
        crossing.sizes = frame.sizes();
    }
}

/// Whether a pair is to be made.
fn has_make(changes: &[Wanted]) -> bool
    ensures { result ≡ makes changes.now }
{
    let [change, rest @ ..] = changes else {
        return false;
    };
    match change {
        Wanted::Make { .. } => true,
        Wanted::Touch { .. } => has_make(rest),
        Wanted::Leave { .. } => has_make(rest),
    }
}

/// Whether the packet makes a pair, where memory suffices.
fn makes_pair(policy: &Policy, crossing: &Crossing, walked: &Walked, scratch: &Scratch) -> bool
    requires walk { IsWalk policy.now.layers crossing.now walked.now scratch.now }
    ensures { result ≡ makes (made_by policy.now.layers crossing.now) }
{
    let Verdict::Pass = walked.verdict else {
        return false;
    };
    if judge(policy, crossing, walked, scratch).is_some() {
        return false;
    }
    has_make(scratch.changes())
}

fn same_fate(a: Fate, b: Fate) -> bool
    ensures told { result ≡ true → a ≡ b }
    ensures back { a ≡ b → result ≡ true }
{
    a == b
}

fn same_bytes(a: &[u8], b: &[u8]) -> bool
    ensures { result ≡ bytes_eq a.now b.now }
{
    a == b
}

/// Whether a packet was dropped for want of memory.
fn is_wanting(fate: Fate) -> bool
    ensures { result ≡ is_short fate }
{
    match fate {
        Fate::Drop(Cause::Memory) => true,
        _ => false,
    }
}

/// Whether a packet is told to have been dropped for want of memory, and not to be an entry.
fn is_short_read(fate: Fate, entry: bool) -> bool
    ensures { result ≡ (is_short fate && not entry) }
{
    is_wanting(fate) && !entry
}

/// Whether what became of a packet, and its outgoing bytes, are what is told.
fn is_told(outcome: Outcome, own: &[u8], fate: Fate, bytes: &[u8], entry: bool) -> bool
    ensures told { result ≡ true → (outcome.entry ≡ entry) × (outcome.fate ≡ fate) × (bytes.now ≡ own.now) }
    ensures back { outcome.entry ≡ entry → outcome.fate ≡ fate → bytes.now ≡ own.now → result ≡ true }
{
    outcome.entry == entry && same_fate(outcome.fate, fate) && same_bytes(bytes, own)
}

/// Replays a packet of which this is told: it crosses the layers of its port, and what becomes of it is compared. Of a read that was told of want of
/// memory it is asked whether a pair was to be made, and nothing is changed.
pub(crate) fn carry(
    ledger: &mut Ledger,
    rooms: &mut Rooms,
    frame: &Frame<'_>,
    fate: Fate,
    bytes: &[u8],
    entry: bool,
) -> Result<bool, NoMemory>
    requires of { IsOfFrame rooms.old.crossing (parts frame.now) }
    requires room { 1 ≤ ledger.old.room }
    requires few { length ledger.old.journal < 2 ^ 32 - 1 }
    ensures judges { JudgesBy ledger.old (Carried rooms.old.crossing (parts frame.now) fate bytes.now) entry ledger.new result }
    ensures opening { ledger.new.opening ≡ ledger.old.opening }
{
    // It tells the proof that the packet's headers are those of a frame.
    let _ = rooms.crossing.id.stack.headers();
    let walked = walk(ledger.policy(), &rooms.crossing, &mut rooms.scratch);
    if is_short_read(fate, entry) {
        let pair = makes_pair(ledger.policy(), &rooms.crossing, &walked, &rooms.scratch);
        return Ok(pair && bytes.is_empty());
    }
    let outcome = ledger.settle(&rooms.crossing, &walked, &rooms.scratch);
    if is_wanting(outcome.fate) {
        return Err(NoMemory);
    }
    leave(frame, rooms.scratch.stack(), outcome, &mut rooms.room);
    let own = bytes_of(outcome.fate, outcome.own, frame, &rooms.room);
    Ok(is_told(outcome, own, fate, bytes, entry))
}
