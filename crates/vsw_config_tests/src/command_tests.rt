//! Each command, read to the value that it was written for.

use crate::commandfile_samples::{FILE, lines_of};
use std::alloc::Global;
use vsw_base::{Dir, Moment};
use vsw_commandfile::Line;
use vsw_policy::{Command, LayerSpec};
use vsw_rule::{Action, Cond, Field, Item, Rule};

/// The number, the packet, whether it runs during its round, the controller and the port.
fn front(line: &Line) -> (u32, u32, bool, u16, u16) {
    (
        line.number,
        line.at,
        line.during,
        line.controller,
        line.port,
    )
}

fn front_at(lines: &[Line], place: usize) -> (u32, u32, bool, u16, u16) {
    match lines.get(place) {
        Some(line) => front(line),
        None => (0, 0, false, 0, 0),
    }
}

fn fronts(lines: &[Line]) -> [(u32, u32, bool, u16, u16); 10] {
    [
        front_at(lines, 0),
        front_at(lines, 1),
        front_at(lines, 2),
        front_at(lines, 3),
        front_at(lines, 4),
        front_at(lines, 5),
        front_at(lines, 6),
        front_at(lines, 7),
        front_at(lines, 8),
        front_at(lines, 9),
    ]
}

const FRONTS: [(u32, u32, bool, u16, u16); 10] = [
    (1, 1, false, 1, 1),
    (3, 3, true, 2, 1),
    (4, 4, true, 1, 1),
    (5, 5, false, 1, 7),
    (7, 7, false, 1, 1),
    (8, 8, false, 1, 1),
    (9, 9, false, 1, 1),
    (10, 10, false, 1, 1),
    (11, 11, false, 1, 1),
    (0, 0, false, 0, 0),
];

fn fronts_read(alloc: Global) -> Option<[(u32, u32, bool, u16, u16); 10]> {
    match lines_of(alloc, FILE.as_bytes()) {
        Some(lines) => Some(fronts(lines.as_slice())),
        None => None,
    }
}

#[test]
fn lines_say_who_asks_and_when(rt: HostRuntime) {
    assert!(&rt; fronts_read(rt.alloc()) == Some(FRONTS));
}

const SPEC: LayerSpec = LayerSpec {
    layer: 10,
    order: 3,
    allow_out: false,
    allow_in: true,
    pairs: 100,
    idle: 240,
    linger: 11,
};

fn is_port_53(conditions: &[Cond]) -> bool {
    match conditions {
        [only] => only.field == Field::DstPort
            && only.items.as_slice() == [Item::Range { low: 53, high: 53 }].as_slice(),
        _ => false,
    }
}

fn is_rule(rule: &Rule, number: u16, action: &Action, stateful: bool, last: bool) -> bool {
    rule.number == number
        && rule.priority == 9
        && rule.when.is_empty()
        && rule.action == *action
        && rule.stateful == stateful
        && rule.last == last
}

fn is_eighth_rule(rules: &[Rule]) -> bool {
    match rules {
        [only] => is_rule(only, 8, &Action::Drop, false, true),
        _ => false,
    }
}

/// Whether this is what the line of this place asks for.
fn is_asked(place: usize, command: &Command) -> bool {
    match command {
        Command::AddLayer { spec } => place == 0 && *spec == SPEC,
        Command::RemoveLayer { layer } => place == 1 && *layer == 20,
        Command::AddGroup {
            layer,
            group,
            dir,
            when,
        } => place == 2
            && *layer == 10
            && *group == 5
            && *dir == Dir::In
            && is_port_53(when.as_slice()),
        Command::RemoveGroup { layer, group } => place == 3 && *layer == 10 && *group == 5,
        Command::PutRules {
            layer,
            group,
            rules,
        } => place == 4 && *layer == 10 && *group == 4 && is_eighth_rule(rules.as_slice()),
        // The policy beside has version 1.
        Command::PutMany { .. } => false,
        Command::AddRule { layer, group, rule } => place == 5
            && *layer == 10
            && *group == 4
            && is_rule(rule, 6, &Action::Allow, true, false),
        Command::RemoveRule {
            layer,
            group,
            number,
        } => place == 6 && *layer == 10 && *group == 4 && *number == 6,
        Command::SetDefault { layer, dir, allow } => place == 7
            && *layer == 10
            && *dir == Dir::Out
            && *allow,
        Command::Sweep { layer, now } => place == 8
            && *layer == 10
            && *now == Moment::of(90_000_000),
    }
}

/// How many lines ask for what they were written for, from the first on.
fn count_asked(lines: &[Line]) -> usize {
    for (place, line) in lines.iter().enumerate() {
        if !is_asked(place, &line.command) {
            return place;
        }
    }
    lines.len()
}

fn asked(alloc: Global) -> Option<usize> {
    match lines_of(alloc, FILE.as_bytes()) {
        Some(lines) => Some(count_asked(lines.as_slice())),
        None => None,
    }
}

#[test]
fn each_command_is_read(rt: HostRuntime) {
    assert!(&rt; asked(rt.alloc()) == Some(9));
}
