//! Commands given to a policy one after the other, and what is seen of its layers, by a table.

ghost use Rattle.std.specs.Prelude.{◌≤◌, IsTrue, length};
ghost use Rattle.vsw_policy.specs.Sound.{are_distinct};

use crate::given::{is_good, is_listed};
use crate::policy::commands::{Ask, command};
use crate::policy::told::{
    Rules, Told, count_groups, defaults, named, told_group, told_items, told_rules,
};
use crate::policy::wrong::Wrong;
use std::alloc::Global;
use vsw_policy::{Command, Layer, Policy, Refusal, Reply};
use vsw_rule::Field;

/// Whether a command has this reply, where it may be given.
fn replies(policy: &mut Policy, controller: u16, command: &Command, wanted: Reply) -> bool {
    if !is_listed(policy.controllers(), controller) || !is_good(command) {
        return false;
    }
    Reply::of(policy.command(controller, command)) == wanted
}

/// A command and its reply, or what is seen of the layers.
#[derive(Clone, Copy)]
pub enum Step {
    /// What this controller asks is done.
    Done(u16, Ask),
    Refused(u16, Ask, Refusal),
    /// Controller 1 adds layers of order 10, from this number up to below that one.
    AddLayers(u16, u16),
    /// It adds groups to its layer 10, from this number downwards, so many of them.
    AddGroups(u16, u16),
    Layers(usize),
    /// The controller and the number of the layer at a place.
    Layer(usize, (u16, u16)),
    /// So many groups are in the layer at a place.
    Groups(usize, usize),
    /// What is told of the group at a place of the first layer, of its first condition, and of its
    /// rules.
    Group(usize, Told),
    Items(usize, (Field, usize)),
    Rules(usize, Rules),
    Defaults(bool, bool),
}

fn is_seen(layers: &[Layer], step: &Step) -> bool {
    match *step {
        Step::Layers(count) => layers.len() == count,
        Step::Layer(place, name) => named(layers, place) == Some(name),
        Step::Groups(place, count) => count_groups(layers, place) == Some(count),
        Step::Group(place, told) => told_group(layers, place) == Some(told),
        Step::Items(place, items) => told_items(layers, place) == Some(items),
        Step::Rules(place, rules) => told_rules(layers, place) == Some(rules),
        Step::Defaults(out, back) => defaults(layers) == Some((out, back)),
        _ => false,
    }
}

/// Whether what a controller asks has this reply.
fn answers(alloc: Global, policy: &mut Policy, controller: u16, ask: &Ask, wanted: Reply) -> bool {
    replies(policy, controller, &command(alloc, ask), wanted)
}

fn add_layers(alloc: Global, policy: &mut Policy, first: u16, end: u16) -> bool {
    for number in first..end {
        if !answers(alloc, policy, 1, &Ask::AddLayer(number, 10), Reply::Ok) {
            return false;
        }
    }
    true
}

fn add_groups(alloc: Global, policy: &mut Policy, first: u16, count: u16) -> bool {
    for place in 0..count {
        let ask = Ask::AddGroup(first.wrapping_sub(place));
        if !answers(alloc, policy, 1, &ask, Reply::Ok) {
            return false;
        }
    }
    true
}

fn comes_out(alloc: Global, policy: &mut Policy, step: &Step) -> bool {
    match step {
        Step::Done(controller, ask) => answers(alloc, policy, *controller, ask, Reply::Ok),
        Step::Refused(controller, ask, refusal) => {
            answers(alloc, policy, *controller, ask, Reply::Refused(*refusal))
        }
        Step::AddLayers(first, end) => add_layers(alloc, policy, *first, *end),
        Step::AddGroups(first, count) => add_groups(alloc, policy, *first, *count),
        _ => is_seen(policy.layers(), step),
    }
}

/// Tries one step after the other.
pub fn try_steps(alloc: Global, policy: &mut Policy, steps: &[Step]) -> Result<(), Wrong> {
    for place in 0..steps.len() {
        if !comes_out(alloc, policy, &steps[place]) {
            return Err(Wrong::Step(place));
        }
    }
    Ok(())
}

/// Tries them with a policy of these controllers that was given nothing yet.
pub fn tried(alloc: Global, controllers: &[u16], steps: &[Step]) -> Result<(), Wrong>
    requires few { length controllers.now ≤ 8 }
    requires distinct { IsTrue (are_distinct controllers.now) }
{
    match Policy::new(alloc, controllers) {
        Ok(mut policy) => try_steps(alloc, &mut policy, steps),
        Err(_) => Err(Wrong::Start),
    }
}
