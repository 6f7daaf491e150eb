//! What a report tells, round by round.

use crate::told::ToldLine;
use vsw_base::{BadFrame, Items};

/// A round: the packets from `first` up to the next round's.
#[derive(Drop)]
pub struct Round {
    /// The number of its first packet in the trace, from 0.
    pub first: u32,
    /// The ports in the policy's order.
    pub ports: Items<PortRound>,
    /// The packets that reached no port, in packet order.
    pub loose: Items<Loose>,
}

/// What happened at a port in a round.
#[derive(Drop)]
pub struct PortRound {
    pub port: u16,
    /// How many entries the port's history had before the round.
    pub before: u32,
    /// Entries after the round.
    pub after: u32,
    /// By count; at each count the reads first, by workers and then by controllers, each caller's in its order.
    pub lines: Items<ToldLine>,
}

/// A packet that reached no port.
#[derive(Clone, Copy, Debug, PartialEq, Eq)]
pub struct Loose {
    pub packet: u32,
    pub cause: LooseCause,
}

/// Why a packet reached no port. The tests are made in this order.
#[derive(Clone, Copy, Debug, PartialEq, Eq)]
pub enum LooseCause {
    /// Fewer bytes were captured than the packet had.
    Snapped,
    /// The bytes aren't a frame.
    Malformed(BadFrame),
    /// None of its addresses is a port's.
    NoPort,
}
