//! What a controller asks of its layer 10.

use std::alloc::Global;
use vsw_base::{Dir, Items, Set};
use vsw_policy::{Command, LayerSpec};
use vsw_rule::{Action, Rule};

/// What is asked.
#[derive(Clone, Copy)]
pub enum Asked {
    /// The layer drops by default, and holds 100 pairs, which live for so many seconds.
    AddLayer {
        idle: u32,
    },
    RemoveLayer,
    AddGroup {
        group: u16,
        dir: Dir,
    },
    /// Group 1 gets one rule, which matches all.
    PutRule {
        number: u16,
        action: Action,
        stateful: bool,
    },
    /// The same of rule 5: packets go on with this source port.
    PutPort {
        port: u16,
    },
}

fn add_layer(idle: u32) -> Command {
    let spec = LayerSpec {
        layer: 10,
        order: 10,
        allow_out: false,
        allow_in: false,
        pairs: 100,
        idle,
        linger: 10,
    };
    Command::AddLayer { spec }
}

fn put_rule(alloc: Global, number: u16, action: Action, stateful: bool) -> Command {
    let mut rules = Items::new(alloc);
    let _ = rules.push(Rule {
        number,
        priority: 10,
        when: Items::new(alloc),
        action,
        stateful,
        last: false,
    });
    Command::PutRules {
        layer: 10,
        group: 1,
        rules,
    }
}

fn to_port(port: u16) -> Action {
    let set = Set {
        dst_mac: None,
        src_mac: None,
        src_ip: None,
        dst_ip: None,
        src_port: Some(port),
        dst_port: None,
        src_ip6: None,
        dst_ip6: None,
    };
    Action::Edit {
        decap: false,
        set,
        encap: None,
    }
}

/// The command that asks this.
pub fn command(alloc: Global, asked: Asked) -> Command {
    match asked {
        Asked::AddLayer { idle } => add_layer(idle),
        Asked::RemoveLayer => Command::RemoveLayer { layer: 10 },
        Asked::AddGroup { group, dir } => Command::AddGroup {
            layer: 10,
            group,
            dir,
            when: Items::new(alloc),
        },
        Asked::PutRule {
            number,
            action,
            stateful,
        } => put_rule(alloc, number, action, stateful),
        Asked::PutPort { port } => put_rule(alloc, 5, to_port(port), false),
    }
}
