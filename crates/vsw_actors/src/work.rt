//! What an actor of a round is to do.

use vsw_base::Place;
use vsw_commandfile::Line;

/// A packet that goes to a port. Its captured bytes are a frame.
#[derive(Clone, Copy)]
pub struct Packet<'a> {
    /// Who brings it.
    pub worker: u32,
    /// Its number in the trace.
    pub number: u32,
    pub place: Place,
    /// When it came, in microseconds since the epoch. A `Moment` here would keep packets from being passed by value.
    pub micros: u64,
    pub bytes: &'a [u8],
}

/// A job: a packet for its worker, or a command for its controller. The trace and the commands file lend what it needs.
#[derive(Clone, Copy)]
pub enum Work<'a> {
    Packet(Packet<'a>),
    Line(&'a Line),
}
