//! The commands that are given, for layer 10 and for one behind it.

use crate::live::stages::Stages;
use std::alloc::{AllocError, Global};
use vsw_base::{Dir, Items};
use vsw_policy::{Command, LayerSpec};
use vsw_rule::{Action, Cond, Field, Item, Rule};

/// A layer that drops by default, whose pairs live for so many seconds after their last use, and for so many where they are closed.
pub fn add_layer(idle: u32, linger: u32) -> Command {
    Command::AddLayer {
        spec: LayerSpec {
            layer: 10,
            order: 10,
            allow_out: false,
            allow_in: false,
            pairs: 100,
            idle,
            linger,
        },
    }
}

/// A group without conditions.
pub fn add_group(alloc: Global, group: u16, dir: Dir) -> Command {
    Command::AddGroup {
        layer: 10,
        group,
        dir,
        when: Items::new(alloc),
    }
}

/// A layer behind it that lets all pass.
pub fn add_behind() -> Command {
    Command::AddLayer {
        spec: LayerSpec {
            layer: 20,
            order: 20,
            allow_out: true,
            allow_in: true,
            pairs: 100,
            idle: 60,
            linger: 10,
        },
    }
}

/// Its group of packets into the port.
pub fn add_group_behind(alloc: Global) -> Command {
    Command::AddGroup {
        layer: 20,
        group: 3,
        dir: Dir::In,
        when: Items::new(alloc),
    }
}

/// It goes.
pub fn remove_behind() -> Command {
    Command::RemoveLayer { layer: 20 }
}

/// Rule 5, which matches all packets.
fn rule_for_all(alloc: Global, action: Action, stateful: bool) -> Result<Items<Rule>, AllocError> {
    let rule = Rule {
        number: 5,
        priority: 10,
        when: Items::new(alloc),
        action,
        stateful,
        last: false,
    };
    Ok(Items::of(Vec::from_array(alloc, [rule])?))
}

/// Puts rule 5, for all packets, into group 1.
pub fn put_rule(alloc: Global, action: Action, stateful: bool) -> Result<Command, AllocError> {
    Ok(Command::PutRules {
        layer: 10,
        group: 1,
        rules: rule_for_all(alloc, action, stateful)?,
    })
}

/// Puts a rule that allows into the group of the layer behind.
pub fn put_behind(alloc: Global) -> Result<Command, AllocError> {
    Ok(Command::PutRules {
        layer: 20,
        group: 3,
        rules: rule_for_all(alloc, Action::Allow, false)?,
    })
}

/// That the source port is one of four, from this one on.
fn is_from(alloc: Global, low: u64) -> Result<Cond, AllocError> {
    let item = Item::Range {
        low,
        high: low.saturating_add(3),
    };
    let items = Vec::from_array(alloc, [item])?;
    Ok(Cond {
        field: Field::SrcPort,
        items: Items::of(items),
    })
}

/// Adds a rule for four source ports, from this one on.
fn add_rule(
    alloc: Global,
    number: u16,
    low: u64,
    action: Action,
    stateful: bool,
) -> Result<Command, AllocError> {
    let when = Vec::from_array(alloc, [is_from(alloc, low)?])?;
    let rule = Rule {
        number,
        priority: number,
        when: Items::of(when),
        action,
        stateful,
        last: false,
    };
    Ok(Command::AddRule {
        layer: 10,
        group: 1,
        rule,
    })
}

/// Removes a rule, and its pairs.
fn remove(number: u16) -> Command {
    Command::RemoveRule {
        layer: 10,
        group: 1,
        number,
    }
}

/// What inbound packets get that are of no pair.
fn set_default(allow: bool) -> Command {
    Command::SetDefault {
        layer: 10,
        dir: Dir::In,
        allow,
    }
}

/// Rule 5 is for ports 1232 to 1235, and rule 6, which makes pairs, for ports 1236 to 1239. After eight turns the rules are as
/// they were at first, when there was none.
fn rules_order(alloc: Global, turn: u32) -> Result<Command, AllocError> {
    match turn {
        0 => add_rule(alloc, 5, 1232, Action::Drop, false),
        1 => add_rule(alloc, 6, 1236, Action::Allow, true),
        2 => Ok(remove(5)),
        3 => add_rule(alloc, 5, 1232, Action::Allow, false),
        4 => Ok(set_default(true)),
        5 => Ok(set_default(false)),
        6 => Ok(remove(6)),
        _ => Ok(remove(5)),
    }
}

/// Rule 5 is put once more: at even turns one that drops, and at odd ones one that allows.
fn rule_order(alloc: Global, turn: u32) -> Result<Command, AllocError> {
    if turn % 2 == 0 {
        put_rule(alloc, Action::Drop, false)
    } else {
        put_rule(alloc, Action::Allow, false)
    }
}

/// The commands of eight turns, and how far threads have come that wait for each other.
#[derive(Drop)]
pub struct Orders {
    orders: Vec<Command>,
    pub stages: Stages,
}

impl Orders {
    fn push(&mut self, order: Result<Command, AllocError>) -> bool {
        match order {
            Ok(order) => self.orders.push(order).is_ok(),
            Err(_) => false,
        }
    }

    /// Pushes all eight, if memory suffices: of many rules, or of the one that is put.
    fn fill(&mut self, alloc: Global, many: bool) -> bool {
        for turn in 0..8u32 {
            let order = if many {
                rules_order(alloc, turn)
            } else {
                rule_order(alloc, turn)
            };
            if !self.push(order) {
                return false;
            }
        }
        true
    }

    /// All eight, if memory suffices.
    pub fn new(alloc: Global, many: bool) -> Option<Orders> {
        let mut orders = Orders {
            orders: Vec::new(alloc),
            stages: Stages::new(),
        };
        if orders.fill(alloc, many) {
            Some(orders)
        } else {
            None
        }
    }

    /// The command of a turn.
    pub fn of(&self, turn: u32) -> Option<&Command> {
        self.orders.get(turn as usize % 8)
    }
}
