//! What controllers ask.

ghost use Rattle.std.specs.Prelude.{◌<◌, ◌^◌};

use std::alloc::Global;
use vsw_base::{Dir, Items, Mac, Moment, Set};
use vsw_policy::{Command, LayerSpec};
use vsw_rule::{Action, Rule};

/// What is asked. Rules and groups have no conditions, and pairs live for 100 or, closed, 10 seconds.
#[derive(Clone, Copy)]
pub enum Asked {
    /// A layer that drops by default, with room for 100 pairs.
    AddLayer {
        layer: u16,
    },
    /// One that allows outbound packets by default, with room for 50 pairs.
    AddOutLayer {
        layer: u16,
    },
    /// One that allows all by default, with room for none.
    AddOpenLayer {
        layer: u16,
    },
    RemoveLayer {
        layer: u16,
    },
    /// An outbound one.
    AddGroup {
        layer: u16,
        group: u16,
    },
    RemoveGroup {
        layer: u16,
        group: u16,
    },
    /// Rule 5 alone, in group 1.
    PutRule {
        layer: u16,
        action: Action,
        stateful: bool,
    },
    /// The same of a rule that edits the inner destination address.
    PutEdit {
        layer: u16,
        mac: u64,
        stateful: bool,
    },
    /// So many rules, with numbers from 0 on, in group 1 of layer 10.
    PutRules {
        count: u16,
    },
    /// One more in this group.
    AddRule {
        number: u16,
    },
    RemoveRule {
        number: u16,
    },
    /// What inbound packets get that no rule decides.
    SetDefault {
        layer: u16,
        allow: bool,
    },
    /// Pairs of layer 10 go that have been idle for long at this moment, in microseconds.
    Sweep {
        now: u64,
    },
}

/// A layer that allows or drops outbound and inbound packets by default.
fn add_layer(layer: u16, allow: (bool, bool), pairs: u32) -> Command {
    let spec = LayerSpec {
        layer,
        order: layer,
        allow_out: allow.0,
        allow_in: allow.1,
        pairs,
        idle: 100,
        linger: 10,
    };
    Command::AddLayer { spec }
}

fn edit(mac: u64) -> Action {
    let set = Set {
        dst_mac: Some(Mac::of(mac % 0x1_0000_0000_0000)),
        src_mac: None,
        src_ip: None,
        dst_ip: None,
        src_port: None,
        dst_port: None,
        src_ip6: None,
        dst_ip6: None,
    };
    Action::Edit {
        decap: false,
        set,
        encap: None,
    }
}

fn rule(alloc: Global, number: u16, action: Action, stateful: bool) -> Rule {
    Rule {
        number,
        priority: 10,
        when: Items::new(alloc),
        action,
        stateful,
        last: false,
    }
}

fn put_rule(alloc: Global, layer: u16, action: Action, stateful: bool) -> Option<Command> {
    match Vec::from_array(alloc, [rule(alloc, 5, action, stateful)]) {
        Ok(rules) => Some(Command::PutRules {
            layer,
            group: 1,
            rules: Items::of(rules),
        }),
        Err(_) => None,
    }
}

fn put_rules(alloc: Global, count: u16) -> Option<Command> {
    let mut rules = Items::new(alloc);
    for number in 0..count {
        let next = rule(alloc, number, Action::Allow, true);
        if rules.push(next).is_err() {
            return None;
        }
    }
    Some(Command::PutRules {
        layer: 10,
        group: 1,
        rules,
    })
}

/// The command that asks this, where memory is there.
pub fn command(alloc: Global, asked: Asked) -> Option<Command> {
    match asked {
        Asked::AddLayer { layer } => Some(add_layer(layer, (false, false), 100)),
        Asked::AddOutLayer { layer } => Some(add_layer(layer, (true, false), 50)),
        Asked::AddOpenLayer { layer } => Some(add_layer(layer, (true, true), 0)),
        Asked::RemoveLayer { layer } => Some(Command::RemoveLayer { layer }),
        Asked::AddGroup { layer, group } => Some(Command::AddGroup {
            layer,
            group,
            dir: Dir::Out,
            when: Items::new(alloc),
        }),
        Asked::RemoveGroup { layer, group } => Some(Command::RemoveGroup { layer, group }),
        Asked::PutRule {
            layer,
            action,
            stateful,
        } => put_rule(alloc, layer, action, stateful),
        Asked::PutEdit {
            layer,
            mac,
            stateful,
        } => put_rule(alloc, layer, edit(mac), stateful),
        Asked::PutRules { count } => put_rules(alloc, count),
        Asked::AddRule { number } => Some(Command::AddRule {
            layer: 10,
            group: 1,
            rule: rule(alloc, number, Action::Allow, true),
        }),
        Asked::RemoveRule { number } => Some(Command::RemoveRule {
            layer: 10,
            group: 1,
            number,
        }),
        Asked::SetDefault { layer, allow } => Some(Command::SetDefault {
            layer,
            dir: Dir::In,
            allow,
        }),
        Asked::Sweep { now } => Some(Command::Sweep {
            layer: 10,
            now: Moment::of(now),
        }),
    }
}
