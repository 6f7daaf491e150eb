//! A policy file, and what is looked up in its ports.

use std::alloc::Global;
use vsw_base::Items;
use vsw_config::read_policy;
use vsw_policy::Layer;
use vsw_promise::{Port, ports_of};
use vsw_rule::Group;

/// Controllers 30, 10 and 20. Port 7 has no layers. Port 1 has four, which the file names in another
/// order than that in which they are crossed; port 2 has one.
pub const FILE: &str = concat!(
    r#"{"version":1,"controllers":[30,10,20],"ports":["#,
    r#"{"port":7,"mac":"02:00:00:00:00:07","rows":8,"layers":[]},"#,
    r#"{"port":1,"mac":"02:00:00:00:00:01","rows":64,"layers":["#,
    r#"{"controller":10,"layer":6,"order":20,"default_out":"allow","default_in":"drop","#,
    r#""pairs":100,"idle":240,"linger":10,"groups":["#,
    r#"{"group":8,"dir":"out","when":[{"field":"proto","any":[17]}],"rules":["#,
    r#"{"rule":2,"priority":10,"when":[],"action":"allow","stateful":false,"last":false},"#,
    r#"{"rule":1,"priority":10,"when":[],"action":"drop","stateful":false,"last":true}]},"#,
    r#"{"group":3,"dir":"in","when":[],"rules":[]},"#,
    r#"{"group":5,"dir":"in","when":[],"rules":["#,
    r#"{"rule":4,"priority":10,"when":[],"action":"allow","stateful":true,"last":false}]}]},"#,
    r#"{"controller":20,"layer":5,"order":10,"default_out":"drop","default_in":"allow","#,
    r#""pairs":0,"idle":1,"linger":1,"groups":[]},"#,
    r#"{"controller":30,"layer":5,"order":10,"default_out":"drop","default_in":"drop","#,
    r#""pairs":0,"idle":1,"linger":1,"groups":[]},"#,
    r#"{"controller":10,"layer":4,"order":20,"default_out":"drop","default_in":"drop","#,
    r#""pairs":0,"idle":1,"linger":1,"groups":[]}]},"#,
    r#"{"port":2,"mac":"02:00:00:00:00:02","rows":16384,"layers":["#,
    r#"{"controller":20,"layer":9,"order":0,"default_out":"drop","default_in":"drop","#,
    r#""pairs":0,"idle":1,"linger":1,"groups":[]}]}]}"#,
);

/// The ports of a file; `None` where it is refused, or there is no memory.
pub fn ports(alloc: Global, text: &str) -> Option<Items<Port>> {
    match read_policy(alloc, text.as_bytes()) {
        Ok(file) => ports_of(alloc, &file).ok(),
        Err(_) => None,
    }
}

/// The number, the rows, and how many layers.
fn port_at(ports: &[Port], place: usize) -> (u16, u32, usize) {
    match ports.get(place) {
        Some(port) => (port.number, port.rows, port.policy.layers().len()),
        None => (0, 0, 0),
    }
}

pub fn port_names(ports: &[Port]) -> [(u16, u32, usize); 4] {
    [
        port_at(ports, 0),
        port_at(ports, 1),
        port_at(ports, 2),
        port_at(ports, 3),
    ]
}

fn layer_at(ports: &[Port], port: usize, place: usize) -> Option<&Layer> {
    ports.get(port)?.policy.layers().get(place)
}

/// The controller, the number, and how many groups.
fn layer_name(ports: &[Port], port: usize, place: usize) -> (u16, u16, usize) {
    match layer_at(ports, port, place) {
        Some(layer) => (
            layer.controller,
            layer.spec.layer,
            layer.groups.as_slice().len(),
        ),
        None => (0, 0, 0),
    }
}

pub fn layer_names(ports: &[Port], port: usize) -> [(u16, u16, usize); 5] {
    [
        layer_name(ports, port, 0),
        layer_name(ports, port, 1),
        layer_name(ports, port, 2),
        layer_name(ports, port, 3),
        layer_name(ports, port, 4),
    ]
}

fn groups_at(ports: &[Port], port: usize, place: usize) -> &[Group] {
    match layer_at(ports, port, place) {
        Some(layer) => layer.groups.as_slice(),
        None => &[],
    }
}

fn rule_at(group: &Group, place: usize) -> u16 {
    match group.rules.as_slice().get(place) {
        Some(rule) => rule.number,
        None => 0,
    }
}

/// The number, how many conditions, and the numbers of its first two rules.
fn group_name(groups: &[Group], place: usize) -> (u16, usize, u16, u16) {
    match groups.get(place) {
        Some(group) => (
            group.number,
            group.when.len(),
            rule_at(group, 0),
            rule_at(group, 1),
        ),
        None => (0, 0, 0, 0),
    }
}

pub fn group_names(ports: &[Port], port: usize, place: usize) -> [(u16, usize, u16, u16); 4] {
    let groups = groups_at(ports, port, place);
    [
        group_name(groups, 0),
        group_name(groups, 1),
        group_name(groups, 2),
        group_name(groups, 3),
    ]
}

/// The defaults, outbound and inbound, and the most pairs.
pub fn defaults(ports: &[Port], port: usize, place: usize) -> (bool, bool, u32) {
    match layer_at(ports, port, place) {
        Some(layer) => (layer.spec.allow_out, layer.spec.allow_in, layer.spec.pairs),
        None => (false, false, 0),
    }
}
