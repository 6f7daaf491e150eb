//! Packets that cross the layers of a policy.

use crate::given::have_numbers;
use crate::port::layers::{Given, PUBLIC, add_all};
use crate::port::packets::{FAR, OTHER, OWN, TCP, UDP, covered, packet};
use std::alloc::Global;
use vsw_base::{Control, Crossing, Dir, Moment};
use vsw_policy::Policy;
use vsw_port::{Stop, commit};
use vsw_walk::{Scratch, walk};

/// Of the first three layers that a packet meets, each one's place, the source port that is looked for, and
/// the pair that is found.
pub type Looks = [Option<(u32, u16, Option<u32>)>; 3];

fn look_at(scratch: &Scratch, met: usize) -> Option<(u32, u16, Option<u32>)> {
    let look = scratch.looked().get(met)?;
    Some((look.layer, look.key.src_port, look.found))
}

fn looks(scratch: &Scratch) -> Looks {
    [
        look_at(scratch, 0),
        look_at(scratch, 1),
        look_at(scratch, 2),
    ]
}

/// What a packet that was walked and carried out came to: what its walk looked for, and until when it holds, in
/// microseconds.
#[derive(Clone, Copy)]
struct Crossed {
    becomes: Result<bool, Stop>,
    looks: Looks,
    until: u64,
}

/// A policy, and room for walks.
#[derive(Drop)]
struct Trial {
    policy: Policy,
    scratch: Scratch,
}

impl Trial {
    /// Without layers.
    fn new(alloc: Global) -> Option<Trial> {
        let Ok(policy) = Policy::new(alloc, &[1]) else {
            return None;
        };
        match Scratch::new(alloc) {
            Ok(scratch) => Some(Trial { policy, scratch }),
            Err(_) => None,
        }
    }

    /// The packet is walked, and its walk carried out.
    fn cross(&mut self, crossing: &Crossing) -> Option<Crossed> {
        if !have_numbers(self.policy.layers()) {
            return None;
        }
        let walked = walk(&self.policy, crossing, &mut self.scratch);
        let looks = looks(&self.scratch);
        let becomes = commit(&mut self.policy, crossing, &walked, &mut self.scratch);
        Some(Crossed {
            becomes,
            looks,
            until: walked.until.micros(),
        })
    }

    /// How many pairs the layer at a place has, and the number of its next one.
    fn told(&self, place: usize) -> Option<(u32, u32)> {
        let layer = self.policy.layers().get(place)?;
        Some((layer.flows.len(), layer.next_pair))
    }
}

/// Which packet is sent.
#[derive(Clone, Copy)]
pub enum Sent {
    /// Outbound UDP of the own address to port 53 beyond, of 44 bytes.
    Out { port: u16 },
    /// The same of the other address.
    OfOther { port: u16 },
    /// The same of port 1234 of the own address, and of so many bytes.
    Long { whole: u32 },
    /// Outbound TCP of the own address to port 80 beyond.
    Connect { port: u16, control: Control },
    /// Inbound UDP of port 53 beyond to the public address.
    In { port: u16 },
    /// The same to port 40,000, in network 5001.
    Covered,
}

fn out(src: (u32, u16), whole: u32) -> Option<Crossing> {
    packet(Dir::Out, UDP, src, (FAR, 53), Control::None, whole)
}

fn packet_of(sent: Sent) -> Option<Crossing> {
    match sent {
        Sent::Out { port } => out((OWN, port), 44),
        Sent::OfOther { port } => out((OTHER, port), 44),
        Sent::Long { whole } => out((OWN, 1234), whole),
        Sent::Connect { port, control } => {
            packet(Dir::Out, TCP, (OWN, port), (FAR, 80), control, 60)
        }
        Sent::In { port } => packet(Dir::In, UDP, (FAR, 53), (PUBLIC, port), Control::None, 44),
        Sent::Covered => covered((FAR, 53), (PUBLIC, 40_000)),
    }
}

/// What is tried, and what must come of it.
#[derive(Clone, Copy)]
pub enum Step {
    /// What becomes of a packet: whether it changes something, or why it is dropped.
    Becomes {
        sent: Sent,
        becomes: Result<bool, Stop>,
    },
    /// What the walk of a packet looks for at this moment, and until when it holds, in microseconds. The walk is carried
    /// out.
    Looks {
        sent: Sent,
        moment: u64,
        looks: Looks,
        until: u64,
    },
    /// How many pairs the layer at a place has, and the number of its next one.
    Has {
        place: usize,
        pairs: u32,
        next: u32,
    },
}

fn becomes(trial: &mut Trial, sent: Sent, becomes: Result<bool, Stop>) -> bool {
    let Some(crossing) = packet_of(sent) else {
        return false;
    };
    match trial.cross(&crossing) {
        Some(crossed) => crossed.becomes == becomes,
        None => false,
    }
}

fn looks_for(trial: &mut Trial, sent: Sent, moment: u64, looks: Looks, until: u64) -> bool {
    let Some(mut crossing) = packet_of(sent) else {
        return false;
    };
    crossing.moment = Moment::of(moment);
    match trial.cross(&crossing) {
        Some(crossed) => crossed.becomes.is_ok()
            && crossed.looks == looks
            && crossed.until == until,
        None => false,
    }
}

fn comes_out(trial: &mut Trial, step: &Step) -> bool {
    match *step {
        Step::Becomes { sent, becomes: end } => becomes(trial, sent, end),
        Step::Looks {
            sent,
            moment,
            looks,
            until,
        } => looks_for(trial, sent, moment, looks, until),
        Step::Has { place, pairs, next } => trial.told(place) == Some((pairs, next)),
    }
}

/// The place of the first step that doesn't come out as it says.
fn first_wrong(trial: &mut Trial, steps: &[Step]) -> Option<usize> {
    for place in 0..steps.len() {
        if !comes_out(trial, &steps[place]) {
            return Some(place);
        }
    }
    None
}

/// Whether a policy of controller 1 was given all this, and the first step that then doesn't come out as it says.
pub fn tried(alloc: Global, given: &[Given], steps: &[Step]) -> Option<(bool, Option<usize>)> {
    let mut trial = Trial::new(alloc)?;
    let made = add_all(alloc, &mut trial.policy, given);
    Some((made, first_wrong(&mut trial, steps)))
}

/// What `tried` tells where each step comes out as it says.
pub const RIGHT: Option<(bool, Option<usize>)> = Some((true, None));
