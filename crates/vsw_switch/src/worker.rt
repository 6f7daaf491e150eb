//! The rooms in which packet after packet is brought to its port, and once more to the one to which it is handed on.

ghost use Rattle.std.specs.Prelude.{◌≡◌, ◌≤◌, ◌<◌, ◌%◌};
ghost use Rattle.vsw_header.specs.FlowSum.{flow_sum_of};
ghost use Rattle.vsw_frame.specs.Frame.{parts};
ghost use Rattle.vsw_promise.specs.Jobs.{crossing_by};

use std::alloc::Global;
use vsw_answer::Room;
use vsw_base::{Control, Crossing, Dir, Fate, Moment, NoMemory, Place, Sizes, Stack, Ufid};
use vsw_frame::{Frame, FrameRoom};
use vsw_header::spread;
use vsw_port::Outcome;

/// A packet on its way, room for its outgoing bytes, and what became of it. All are written over by the next packet.
#[derive(Drop)]
pub(crate) struct Worker {
    pub crossing: Crossing,
    pub room: Room,
    pub outcome: Outcome,
}

/// Rooms of a packet that is handed on: its way, and the headers of its frame.
#[derive(Drop)]
pub(crate) struct Handed {
    pub worker: Worker,
    pub headers: FrameRoom,
}

/// Rooms of a packet at its own port, and at the one to which it is handed on.
#[derive(Drop)]
pub(crate) struct Rooms {
    pub own: Worker,
    pub handed: Handed,
}

impl Rooms {
    /// Rooms in which no packet was brought.
    pub(crate) fn new(alloc: Global) -> Result<Rooms, NoMemory> {
        let own = Worker::new(alloc)?;
        let worker = Worker::new(alloc)?;
        let headers = FrameRoom::new();
        Ok(Rooms {
            own,
            handed: Handed { worker, headers },
        })
    }
}

/// The worker, of so many, that brings a frame. One worker brings all, and no sum is taken.
pub(crate) fn worker_for(workers: u32, stack: &Stack) -> u32
    requires { 1 ≤ workers }
    ensures value { result ≡ flow_sum_of stack.now % workers }
    ensures below { result < workers }
{
    if workers == 1 {
        0
    } else {
        spread(stack, workers)
    }
}

impl Worker {
    /// Rooms in which no packet was brought.
    pub(crate) fn new(alloc: Global) -> Result<Worker, NoMemory> {
        let room = Room::new(alloc)?;
        let crossing = Crossing {
            caller: 0,
            packet: 0,
            id: Ufid {
                dir: Dir::Out,
                stack: Stack::room(),
            },
            control: Control::None,
            moment: Moment::of(0),
            sizes: Sizes {
                whole: 0,
                one: 0,
                two: 0,
            },
        };
        let outcome = Outcome {
            fate: Fate::Pass { len: 0 },
            entry: false,
            kept: 0,
            own: false,
        };
        Ok(Worker {
            crossing,
            room,
            outcome,
        })
    }

    /// Packet `packet`, which came at this moment, is brought to the port at a place by this caller.
    pub(crate) fn bring(
        &mut self,
        caller: u32,
        packet: u32,
        place: Place,
        moment: Moment,
        frame: &Frame<'_>,
    )
        ensures { self.new.crossing ≡ crossing_by caller packet place moment (parts frame.now) }
    {
        let crossing = &mut self.crossing;
        crossing.caller = caller;
        crossing.packet = packet;
        crossing.id.dir = place.dir;
        crossing.id.stack.copy_from(frame.stack());
        crossing.control = frame.control();
        crossing.moment = moment;
        crossing.sizes = frame.sizes();
    }
}
