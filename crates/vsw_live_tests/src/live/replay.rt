//! A policy to which the entries of a port are done once more: packets by a walk that is carried out, commands by its own call.

ghost use Rattle.std.specs.Prelude.{◌≡◌, ◌<◌, ◌-◌, ◌^◌, IsTrue, map};
ghost use Rattle.vsw_policy.specs.Layer.{seen};
ghost use Rattle.vsw_policy.specs.Sound.{Each, is_listed};

use crate::given::is_good;
use std::alloc::Global;
use vsw_base::{Cause, Crossing, Fate, Stack, Verdict};
use vsw_policy::{Command, Layer, Policy, Reply};
use vsw_port::{Event, commit, is_long, outgoing_size};
use vsw_walk::{Scratch, Walked, walk};

/// Whether each layer has a number for one more pair.
fn have_numbers(layers: &[Layer]) -> bool
    ensures { IsTrue result → Each (λ l. l.next_pair < 2 ^ 32 - 1) (map seen layers.now) }
{
    match layers {
        [] => true,
        [first, rest @ ..] => first.next_pair < u32::MAX && have_numbers(rest),
    }
}

fn is_listed(controllers: &[u16], controller: u16) -> bool
    ensures { result ≡ is_listed controllers.now controller }
{
    controllers.iter().any(|listed| controller == *listed)
}

/// The fate of a packet that its walk lets pass.
fn passing(crossing: &Crossing, edited: &Stack, kept: u8) -> Fate {
    if is_long(crossing, edited, kept) {
        return Fate::Drop(Cause::Long);
    }
    Fate::Pass {
        len: outgoing_size(crossing, edited, kept),
    }
}

/// What its walk says of a packet.
fn fate_of(crossing: &Crossing, walked: &Walked, scratch: &Scratch) -> Fate {
    match walked.verdict {
        Verdict::Pass => passing(crossing, scratch.stack(), walked.kept),
        Verdict::Rule {
            controller,
            layer,
            group,
            rule,
        } => Fate::Drop(Cause::Rule {
            controller,
            layer,
            group,
            rule,
        }),
        Verdict::Default {
            controller,
            layer,
            dir,
        } => Fate::Drop(Cause::Default {
            controller,
            layer,
            dir,
        }),
    }
}

/// The packet is walked, and its walk carried out. Its fate, where the layers were changed.
fn change_by(policy: &mut Policy, scratch: &mut Scratch, crossing: &Crossing) -> Option<Fate> {
    if !have_numbers(policy.layers()) {
        return None;
    }
    let walked = walk(policy, crossing, scratch);
    match commit(policy, crossing, &walked, scratch) {
        Ok(true) => Some(fate_of(crossing, &walked, scratch)),
        _ => None,
    }
}

/// Does what a controller asks, or refuses it.
fn obey(policy: &mut Policy, controller: u16, command: &Command) -> Option<Reply> {
    if !is_listed(policy.controllers(), controller) || !is_good(command) {
        return None;
    }
    Some(Reply::of(policy.command(controller, command)))
}

/// A policy, and room for walks.
#[derive(Drop)]
pub struct Replay {
    policy: Policy,
    scratch: Scratch,
}

impl Replay {
    /// The policy with which the port was opened.
    pub fn new(alloc: Global) -> Option<Replay> {
        let Ok(policy) = Policy::new(alloc, &[1, 2]) else {
            return None;
        };
        match Scratch::new(alloc) {
            Ok(scratch) => Some(Replay { policy, scratch }),
            Err(_) => None,
        }
    }

    /// The fate of a packet that changes nothing.
    pub fn read(&mut self, crossing: &Crossing) -> Option<Fate> {
        let walked = walk(&self.policy, crossing, &mut self.scratch);
        let passes = walked.verdict == Verdict::Pass;
        if passes && !self.scratch.changes().is_empty() {
            return None;
        }
        Some(fate_of(crossing, &walked, &self.scratch))
    }

    /// Does an entry once more. Whether it changes the policy and is told as it was.
    pub fn enter(&mut self, event: &Event) -> bool {
        match event {
            Event::Command {
                controller,
                command,
                reply,
                ..
            } => obey(&mut self.policy, *controller, command) == Some(*reply),
            Event::Crossing { crossing, fate } => {
                change_by(&mut self.policy, &mut self.scratch, crossing) == Some(*fate)
            }
        }
    }
}
