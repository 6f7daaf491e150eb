//! Packets of many flows with commands between, on few rows and on many.

ghost use Rattle.std.specs.Prelude.{◌≤◌};

use crate::port::commands::Asked;
use crate::port::packets::of_flow;
use crate::port::sole_trial::Trial;
use std::alloc::Global;
use vsw_base::{Cause, Dir, Fate};
use vsw_policy::Reply;
use vsw_rule::Action;

/// Layer 10 of controller 1 lets out with a pair, and layer 20 of controller 2 edits: the line of each command, its
/// controller, and what it asks.
const LIGHT: [(u32, u16, Asked); 6] = [
    (1, 1, Asked::AddOutLayer { layer: 10 }),
    (2, 2, Asked::AddOutLayer { layer: 20 }),
    (
        3,
        1,
        Asked::AddGroup {
            layer: 10,
            group: 1,
        },
    ),
    (
        4,
        2,
        Asked::AddGroup {
            layer: 20,
            group: 1,
        },
    ),
    (
        5,
        1,
        Asked::PutRule {
            layer: 10,
            action: Action::Allow,
            stateful: true,
        },
    ),
    (
        5,
        2,
        Asked::PutEdit {
            layer: 20,
            mac: 0x0200_0000_0077,
            stateful: false,
        },
    ),
];

/// Whether both are told the same of each command.
fn set_up(alloc: Global, trial: &mut Trial) -> bool {
    for place in 0..LIGHT.len() {
        let (line, controller, asked) = LIGHT[place];
        if trial.ask(alloc, line, controller, asked).is_none() {
            return false;
        }
    }
    true
}

/// Layers more from 31 on: with six, a walk over all costs more than a row's answer, so rows are looked for.
fn add_open_layers(alloc: Global, trial: &mut Trial, count: u16) -> bool {
    for number in 0..count {
        let asked = Asked::AddOpenLayer {
            layer: number.wrapping_add(31),
        };
        if trial.ask(alloc, 6, 1, asked).is_none() {
            return false;
        }
    }
    true
}

/// The next word of a sequence that looks random.
fn next(word: u32) -> u32 {
    word.wrapping_mul(1_664_525).wrapping_add(1_013_904_223)
}

/// A packet's flow, of forty, most often one of eight.
fn flow_of(word: u32) -> u16 {
    let few = word / 0x1_0000 % 4 != 0;
    let flow = word / 0x10_0000 % 40;
    if few { (flow % 8) as u16 } else { flow as u16 }
}

fn dir_of(word: u32) -> Dir {
    if word / 0x100 % 4 == 0 {
        Dir::In
    } else {
        Dir::Out
    }
}

/// The controller's command of a step, which most often is obeyed.
fn asked_at(step: u32, word: u32) -> (u16, Asked) {
    let even = word / 0x10_0000 % 2 == 0;
    match word / 0x1000 % 6 {
        0 => (
            1,
            Asked::PutRule {
                layer: 10,
                action: Action::Allow,
                stateful: even,
            },
        ),
        1 => (
            1,
            Asked::PutRule {
                layer: 10,
                action: Action::Drop,
                stateful: false,
            },
        ),
        2 => (
            2,
            Asked::PutEdit {
                layer: 20,
                mac: u64::from(word),
                stateful: false,
            },
        ),
        3 => (
            2,
            Asked::PutEdit {
                layer: 20,
                mac: u64::from(word),
                stateful: true,
            },
        ),
        4 => (
            1,
            Asked::Sweep {
                now: u64::from(step) * 50_000,
            },
        ),
        _ => (
            2,
            Asked::SetDefault {
                layer: 20,
                allow: even,
            },
        ),
    }
}

/// One packet, or a command once in forty steps. Answers whether both were told the same.
fn goes(alloc: Global, trial: &mut Trial, step: u32, word: u32) -> bool {
    if step % 40 == 39 {
        let (controller, asked) = asked_at(step, word);
        return trial.ask(alloc, step, controller, asked).is_some();
    }
    if step % 64 == 0 {
        trial.reconcile(8);
    }
    match of_flow(step, flow_of(word), dir_of(word), word / 0x1_0000) {
        Some(crossing) => trial.send(&crossing).is_some(),
        None => false,
    }
}

/// How many of so many steps come before the first of which both aren't told the same.
fn run_at_random(alloc: Global, trial: &mut Trial, steps: u32) -> u32 {
    let mut word = 1;
    for step in 0..steps {
        word = next(word);
        if !goes(alloc, trial, step, word) {
            return step;
        }
    }
    steps
}

/// The fate of an outbound packet of flow 3.
fn fate(trial: &mut Trial, number: u32) -> Option<Fate> {
    let crossing = of_flow(number, 3, Dir::Out, 0)?;
    trial.send(&crossing)
}

const DROP: Asked = Asked::PutRule {
    layer: 20,
    action: Action::Drop,
    stateful: false,
};

const PASSED: Option<Fate> = Some(Fate::Pass { len: 44 });

const DROPPED: Option<Fate> = Some(Fate::Drop(Cause::Rule {
    controller: 2,
    layer: 20,
    group: 1,
    rule: 5,
}));

/// How many of six steps come out as they must before one doesn't. The first packet makes a pair, the second leaves a
/// row, and the third finds it. Two more follow the command, and are dropped.
fn run_around_drop(alloc: Global, trial: &mut Trial) -> u32 {
    for step in 0..6u32 {
        let right = if step < 3 {
            fate(trial, step) == PASSED
        } else if step == 3 {
            trial.ask(alloc, 7, 2, DROP) == Some(Reply::Ok)
        } else {
            fate(trial, step - 1) == DROPPED
        };
        if !right {
            return step;
        }
    }
    6
}

/// What is tried at a port.
#[derive(Clone, Copy)]
enum Run {
    /// 4,000 steps at random.
    Random,
    /// A command that drops a flow, between its packets.
    AroundDrop,
}

/// How many steps come out as they must before one doesn't, where the layers could be set up.
fn ran(alloc: Global, trial: &mut Trial, open: u16, run: Run) -> Option<u32> {
    if !set_up(alloc, trial) || !add_open_layers(alloc, trial, open) {
        return None;
    }
    match run {
        Run::Random => Some(run_at_random(alloc, trial, 4_000)),
        Run::AroundDrop => Some(run_around_drop(alloc, trial)),
    }
}

/// The same of a port with so many rows and so many open layers, and whether both have the same history then, of more
/// than so many entries.
fn tried(alloc: Global, rows: u32, open: u16, run: Run, least: usize) -> Option<(Option<u32>, bool)>
    requires { (8 ≤ rows) × (rows ≤ 16384) }
{
    let mut trial = Trial::new(alloc, rows)?;
    let steps = ran(alloc, &mut trial, open, run);
    Some((steps, trial.agrees(least)))
}

const ALL: Option<(Option<u32>, bool)> = Some((Some(4_000), true));

#[test]
fn many_rows_answer_as_the_layers_do(rt: HostRuntime) {
    assert!(&rt; tried(rt.alloc(), 1_024, 6, Run::Random, 150) == ALL);
}

#[test]
fn rows_that_are_full_answer_as_the_layers_do(rt: HostRuntime) {
    assert!(&rt; tried(rt.alloc(), 8, 6, Run::Random, 150) == ALL);
}

#[test]
fn light_layers_answer_without_rows(rt: HostRuntime) {
    assert!(&rt; tried(rt.alloc(), 64, 0, Run::Random, 150) == ALL);
}

const SIX: Option<(Option<u32>, bool)> = Some((Some(6), true));

#[test]
fn row_does_not_answer_after_a_command(rt: HostRuntime) {
    assert!(&rt; tried(rt.alloc(), 16, 6, Run::AroundDrop, 0) == SIX);
}
