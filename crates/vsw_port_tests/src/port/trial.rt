//! A port, and tables of steps that are tried at it.

ghost use Rattle.std.specs.Prelude.{◌≡◌};

use crate::given::{is_good, is_listed};
use crate::port::commands::{Asked, command};
use crate::port::packets::{UDP, numbered};
use std::alloc::Global;
use vsw_base::{Cause, Control, Crossing, Dir, Fate};
use vsw_policy::{Command, Policy, Refusal, Reply};
use vsw_port::{Core, Event};

pub const PASS: Fate = Fate::Pass { len: 44 };

/// Where a call stands, and what it was told: whether it is an entry, its count, and a fate or a reply.
type Told<T> = Option<(bool, usize, T)>;

/// A port of controllers 1 and 2, at first without layers.
#[derive(Drop)]
struct Trial {
    core: Core,
    /// Whether what memory was wanting for is asked once more.
    again: bool,
}

impl Trial {
    fn new(alloc: Global) -> Option<Trial> {
        let Ok(policy) = Policy::new(alloc, &[1, 2]) else {
            return None;
        };
        match Core::open(alloc, policy) {
            Ok(core) => Some(Trial { core, again: false }),
            Err(_) => None,
        }
    }

    /// A packet crosses the layers.
    fn send(&mut self, crossing: &Crossing) -> Told<Fate> {
        let count = self.core.journal().len();
        if count >= 1_000 || self.core.reserve(1).is_err() {
            return None;
        }
        let outcome = self.core.slow(crossing);
        Some((outcome.entry, count, outcome.fate))
    }

    /// A controller asks, by this line of the commands file.
    fn ask(&mut self, line: u32, controller: u16, command: &Command) -> Told<Reply> {
        let count = self.core.journal().len();
        if !is_listed(self.core.policy().controllers(), controller) || !is_good(command) {
            return None;
        }
        if self.core.reserve(1).is_err() {
            return None;
        }
        let reply = Reply::of(self.core.command(line, controller, command));
        Some((self.core.journal().len() > count, count, reply))
    }

    /// The line of the command that is this entry, or the number of the packet.
    fn entry(&self, number: usize) -> Option<u32> {
        match self.core.journal().get(number)? {
            Event::Command { line, .. } => Some(*line),
            Event::Crossing { crossing, .. } => Some(crossing.packet),
        }
    }

    /// How many pairs the first layer holds, and the number of its next one.
    fn pairs(&self) -> Option<(u32, u32)> {
        let layer = self.core.policy().layers().first()?;
        Some((layer.flows.len(), layer.next_pair))
    }
}

/// What is tried at a port, and what must come of it.
#[derive(Clone, Copy)]
pub enum Step {
    /// A packet has this fate, as the entry of this count or as a read at it.
    Sends {
        number: u32,
        dir: Dir,
        proto: u8,
        control: Control,
        told: (bool, usize, Fate),
    },
    /// A command has this reply, as the entry of this count.
    Asks {
        line: u32,
        controller: u16,
        asked: Asked,
        count: usize,
        reply: Reply,
    },
    /// A command of controller 1 is refused for this cause, as the entry of this count, and a packet then passes as a
    /// read.
    Refuses {
        number: u32,
        asked: Asked,
        count: usize,
        cause: Refusal,
    },
    /// Layers 11 to 25 are added, and groups 2 to 32 of layer 10.
    Fills,
    /// The first layer holds so many pairs, and its next one gets this number.
    HasPairs {
        pairs: u32,
        next: u32,
    },
    /// The entry of this count is the command of this line, or the packet of this number.
    IsEntry {
        count: usize,
        of: u32,
    },
}

/// Whether memory was wanting for a packet. Then it is no entry.
fn is_short(told: Told<Fate>) -> bool {
    match told {
        None => true,
        Some((entry, _, fate)) => !entry && fate == Fate::Drop(Cause::Memory),
    }
}

/// Whether memory was wanting for a command. Then it is no entry.
fn is_undone(told: Told<Reply>) -> bool {
    match told {
        None => true,
        Some((entry, _, reply)) => !entry && reply == Reply::Refused(Refusal::Memory),
    }
}

/// Sends a packet, and once more where that is so and memory was wanting.
fn sent(trial: &mut Trial, number: u32, dir: Dir, proto: u8, control: Control) -> Told<Fate> {
    let crossing = numbered(number, dir, proto, control)?;
    let told = trial.send(&crossing);
    if trial.again && is_short(told) {
        return trial.send(&crossing);
    }
    told
}

/// Asks, and once more where that is so and memory was wanting.
fn replied(
    alloc: Global,
    trial: &mut Trial,
    line: u32,
    controller: u16,
    asked: Asked,
) -> Told<Reply> {
    let command = command(alloc, asked)?;
    let told = trial.ask(line, controller, &command);
    if trial.again && is_undone(told) {
        return trial.ask(line, controller, &command);
    }
    told
}

fn refuses(
    alloc: Global,
    trial: &mut Trial,
    number: u32,
    asked: Asked,
    count: usize,
    cause: Refusal,
) -> bool {
    let reply = replied(alloc, trial, number, 1, asked);
    let after = sent(trial, number, Dir::Out, UDP, Control::None);
    reply == Some((true, count, Reply::Refused(cause)))
        && after == Some((false, count.wrapping_add(1), PASS))
}

fn fills(alloc: Global, trial: &mut Trial) -> bool {
    for layer in 11..26 {
        if replied(alloc, trial, 7, 1, Asked::AddLayer { layer }).is_none() {
            return false;
        }
    }
    for group in 2..33 {
        if replied(alloc, trial, 8, 1, Asked::AddGroup { layer: 10, group }).is_none() {
            return false;
        }
    }
    true
}

fn comes_out(alloc: Global, trial: &mut Trial, step: &Step) -> bool {
    match *step {
        Step::Sends {
            number,
            dir,
            proto,
            control,
            told,
        } => sent(trial, number, dir, proto, control) == Some(told),
        Step::Asks {
            line,
            controller,
            asked,
            count,
            reply,
        } => replied(alloc, trial, line, controller, asked) == Some((true, count, reply)),
        Step::Refuses {
            number,
            asked,
            count,
            cause,
        } => refuses(alloc, trial, number, asked, count, cause),
        Step::Fills => fills(alloc, trial),
        Step::HasPairs { pairs, next } => trial.pairs() == Some((pairs, next)),
        Step::IsEntry { count, of } => trial.entry(count) == Some(of),
    }
}

/// The place of the first step that doesn't come out as it says.
fn first_wrong(alloc: Global, trial: &mut Trial, steps: &[Step]) -> Option<usize> {
    for place in 0..steps.len() {
        if !comes_out(alloc, trial, &steps[place]) {
            return Some(place);
        }
    }
    None
}

/// A port at which these steps come out as they say.
fn opened(alloc: Global, before: &[Step]) -> Option<Trial> {
    let mut trial = Trial::new(alloc)?;
    match first_wrong(alloc, &mut trial, before) {
        None => Some(trial),
        Some(_) => None,
    }
}

/// The first step that doesn't come out as it says, of some and of those that follow, once a port could be opened by
/// the steps before. Then what memory is wanting for may be asked once more.
pub fn tried(
    alloc: Global,
    before: &[Step],
    steps: &[Step],
    then: &[Step],
    again: bool,
) -> Option<[Option<usize>; 2]> {
    let mut trial = opened(alloc, before)?;
    trial.again = again;
    Some([
        first_wrong(alloc, &mut trial, steps),
        first_wrong(alloc, &mut trial, then),
    ])
}

/// What `tried` tells where each step comes out as it says.
pub const RIGHT: Option<[Option<usize>; 2]> = Some([None, None]);
