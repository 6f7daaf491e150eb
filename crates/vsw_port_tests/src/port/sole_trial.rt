//! A port that answers by rows, and a core in which each packet is walked and settled. Both get the same packets and
//! commands.

ghost use Rattle.std.specs.Prelude.{◌≡◌, ◌≤◌};

use crate::given::{is_good, is_listed};
use crate::port::commands::{Asked, command};
use std::alloc::Global;
use vsw_base::{Crossing, Fate};
use vsw_policy::{Command, Policy, Reply};
use vsw_port::{Core, Event};
use vsw_sole::{Keeping, SolePort};

/// Whether two entries are one: the same packet with the same fate, or the same line with the same reply.
fn is_same(one: &Event, other: &Event) -> bool {
    match (one, other) {
        (
            Event::Crossing { crossing, fate },
            Event::Crossing {
                crossing: second,
                fate: told,
            },
        ) => {
            crossing.packet == second.packet && crossing.caller == second.caller && fate == told
        }
        (
            Event::Command { line, reply, .. },
            Event::Command {
                line: second,
                reply: told,
                ..
            },
        ) => { line == second && reply == told }
        _ => false,
    }
}

fn are_same(ones: &[Event], others: &[Event]) -> bool {
    if ones.len() != others.len() {
        return false;
    }
    for place in 0..ones.len() {
        if !is_same(&ones[place], &others[place]) {
            return false;
        }
    }
    true
}

/// A port that answers by rows, of controllers 1 and 2, at first without layers, with workers 0 and 1.
fn port(alloc: Global, rows: u32) -> Option<SolePort>
    requires { (8 ≤ rows) × (rows ≤ 16384) }
{
    let Ok(policy) = Policy::new(alloc, &[1, 2]) else {
        return None;
    };
    match SolePort::open(alloc, policy, rows, 2, Keeping::WhereCheaper) {
        Ok(port) => Some(port),
        Err(_) => None,
    }
}

/// The same in which each packet is walked and settled.
fn plain(alloc: Global) -> Option<Core> {
    let Ok(policy) = Policy::new(alloc, &[1, 2]) else {
        return None;
    };
    match Core::open(alloc, policy) {
        Ok(core) => Some(core),
        Err(_) => None,
    }
}

/// Both of them.
#[derive(Drop)]
pub struct Trial {
    port: SolePort,
    plain: Core,
}

impl Trial {
    pub fn new(alloc: Global, rows: u32) -> Option<Trial>
        requires { (8 ≤ rows) × (rows ≤ 16384) }
    {
        let port = port(alloc, rows)?;
        match plain(alloc) {
            Some(plain) => Some(Trial { port, plain }),
            None => None,
        }
    }

    /// The fate of a packet, where both are told the same: the outcome, and after a pass the headers.
    pub fn send(&mut self, crossing: &Crossing) -> Option<Fate> {
        if self.plain.journal().len() >= 100_000 || crossing.caller >= self.port.workers() {
            return None;
        }
        if self.port.reserve(1).is_err() || self.plain.reserve(1).is_err() {
            return None;
        }
        let outcome = self.port.cross(crossing);
        if outcome != self.plain.slow(crossing) {
            return None;
        }
        if let Fate::Pass { .. } = outcome.fate {
            if self.port.edited().headers() != self.plain.edited().headers() {
                return None;
            }
        }
        Some(outcome.fate)
    }

    fn given(&mut self, line: u32, controller: u16, command: &Command) -> Option<Reply> {
        if !is_listed(self.plain.policy().controllers(), controller) || !is_good(command) {
            return None;
        }
        if !is_listed(self.port.controllers(), controller) {
            return None;
        }
        if self.port.reserve(1).is_err() || self.plain.reserve(1).is_err() {
            return None;
        }
        let answer = Reply::of(self.port.command(line, controller, command));
        let plain = Reply::of(self.plain.command(line, controller, command));
        if answer == plain { Some(answer) } else { None }
    }

    /// The reply to a command, where both are told the same.
    pub fn ask(
        &mut self,
        alloc: Global,
        line: u32,
        controller: u16,
        asked: Asked,
    ) -> Option<Reply> {
        let command = command(alloc, asked)?;
        self.given(line, controller, &command)
    }

    /// The next so many rows are reconciled.
    pub fn reconcile(&mut self, rows: u32) {
        self.port.reconcile(rows);
    }

    /// Whether both have the same history, of more than so many entries.
    pub fn agrees(&self, least: usize) -> bool {
        self.port.journal().len() > least && are_same(self.port.journal(), self.plain.journal())
    }
}
