//! Four policy files, read to the values that they were written for.

use crate::samples::{OF_IPV6, ONE};
use std::alloc::Global;
use std::process::Abort;
use vsw_base::{Dir, Ip4, Ip6, Items, Mac, Outer, Prefix, Prefix6, Set};
use vsw_config::{LayerFile, PolicyFile, PortFile, read_policy};
use vsw_policy::{HashSeed, LayerSpec};
use vsw_rule::{Action, Cond, Field, Group, Item, Rule};

/// This item alone. Where memory is wanting an item is missing, and then the value is no file that is read.
fn one<T: Drop>(alloc: Global, item: T) -> Items<T> {
    and(Items::new(alloc), item)
}

fn and<T: Drop>(items: Items<T>, item: T) -> Items<T> {
    let mut items = items;
    let _ = items.push(item);
    items
}

/// Whether a file is read to this value.
fn is_read(alloc: Global, text: &str, expected: PolicyFile) -> bool {
    read_policy(alloc, text.as_bytes()) == Ok(expected)
}

/// Fails where a file is read to another value.
fn check(rt: &impl Abort, alloc: Global, text: &str, expected: PolicyFile) {
    assert!(rt; is_read(alloc, text, expected));
}

/// The one condition that the field is in this prefix.
fn in_prefix(alloc: Global, field: Field, value: u32, bits: u8) -> Items<Cond> {
    let prefix = Prefix {
        value: Ip4::of(value),
        bits,
    };
    let items = one(alloc, Item::Prefix(prefix));
    one(alloc, Cond { field, items })
}

/// The one condition that the field has this value.
fn is_value(alloc: Global, field: Field, value: u64) -> Items<Cond> {
    let range = Item::Range {
        low: value,
        high: value,
    };
    let items = one(alloc, range);
    one(alloc, Cond { field, items })
}

fn rule(number: u16, when: Items<Cond>, action: Action, stateful: bool) -> Rule {
    Rule {
        number,
        priority: 10,
        when,
        action,
        stateful,
        last: false,
    }
}

/// A group without conditions, of one rule.
fn group(alloc: Global, number: u16, dir: Dir, rule: Rule) -> Group {
    let rules = one(alloc, rule);
    Group {
        number,
        dir,
        when: Items::new(alloc),
        rules,
    }
}

fn layer(controller: u16, number: u16, order: u16, groups: Items<Group>) -> LayerFile {
    let spec = LayerSpec {
        layer: number,
        order,
        allow_out: false,
        allow_in: false,
        pairs: 100,
        idle: 240,
        linger: 10,
    };
    LayerFile {
        controller,
        spec,
        groups,
    }
}

fn file(
    alloc: Global,
    version: u8,
    controllers: Items<u16>,
    layers: Items<LayerFile>,
) -> PolicyFile {
    let port = PortFile {
        port: 1,
        mac: Mac::of(0x0200_0000_0001),
        rows: 64,
        layers,
    };
    let ports = one(alloc, port);
    PolicyFile {
        version,
        controllers,
        ports,
        seed: HashSeed::known(),
    }
}

const NOTHING: Set = Set {
    dst_mac: None,
    src_mac: None,
    src_ip: None,
    dst_ip: None,
    src_port: None,
    dst_port: None,
    src_ip6: None,
    dst_ip6: None,
};

fn first(alloc: Global) -> PolicyFile {
    let when = in_prefix(alloc, Field::DstIp, 0x0a00_0000, 24);
    let group = group(alloc, 1, Dir::Out, rule(5, when, Action::Allow, false));
    let groups = one(alloc, group);
    let layers = one(alloc, layer(1, 10, 1, groups));
    file(alloc, 1, one(alloc, 1), layers)
}

#[test]
fn one_layer_is_read(rt: HostRuntime) {
    check(&rt, rt.alloc(), ONE, first(rt.alloc()));
}

/// Three controllers, each with a layer: one that keeps the state of all flows, one that translates the
/// address and port of 10.0.0.5, and one that puts what goes to 10.0.0.0/16 into VXLAN and takes VNI
/// 5001 out again.
const THREE: &str = concat!(
    r#"{"version":1,"controllers":[1,2,3],"#,
    r#""ports":[{"port":1,"mac":"02:00:00:00:00:01","rows":64,"layers":["#,
    r#"{"controller":1,"layer":10,"order":1,"default_out":"drop","default_in":"drop","#,
    r#""pairs":100,"idle":240,"linger":10,"groups":[{"group":1,"dir":"out","when":[],"#,
    r#""rules":[{"rule":1,"priority":10,"when":[],"action":"allow","stateful":true,"#,
    r#""last":false}]}]},"#,
    r#"{"controller":2,"layer":20,"order":2,"default_out":"drop","default_in":"drop","#,
    r#""pairs":100,"idle":240,"linger":10,"groups":[{"group":1,"dir":"out","when":[],"#,
    r#""rules":[{"rule":1,"priority":10,"when":[{"field":"src_ip","any":["10.0.0.5"]}],"#,
    r#""action":{"decap":false,"set":{"src_ip":"192.0.2.7","src_port":40000},"encap":null},"#,
    r#""stateful":true,"last":false}]}]},"#,
    r#"{"controller":3,"layer":30,"order":3,"default_out":"drop","default_in":"drop","#,
    r#""pairs":100,"idle":240,"linger":10,"groups":[{"group":1,"dir":"out","when":[],"#,
    r#""rules":[{"rule":1,"priority":10,"when":[{"field":"dst_ip","any":["10.0.0.0/16"]}],"#,
    r#""action":{"decap":false,"set":{},"encap":{"dst_mac":"02:00:00:00:0a:02","#,
    r#""src_mac":"02:00:00:00:0a:01","src_ip":"172.16.0.1","dst_ip":"172.16.0.2","vni":5001}},"#,
    r#""stateful":false,"last":false}]},{"group":2,"dir":"in","when":[],"#,
    r#""rules":[{"rule":1,"priority":10,"when":[{"field":"vni","any":[5001]}],"#,
    r#""action":{"decap":true,"set":{},"encap":null},"stateful":false,"last":false}]}]}"#,
    "]}]}",
);

fn stateful_layer(alloc: Global) -> LayerFile {
    let rule = rule(1, Items::new(alloc), Action::Allow, true);
    let group = group(alloc, 1, Dir::Out, rule);
    layer(1, 10, 1, one(alloc, group))
}

fn translating_layer(alloc: Global) -> LayerFile {
    let when = in_prefix(alloc, Field::SrcIp, 0x0a00_0005, 32);
    let action = Action::Edit {
        decap: false,
        set: Set {
            dst_mac: None,
            src_mac: None,
            src_ip: Some(Ip4::of(0xc000_0207)),
            dst_ip: None,
            src_port: Some(40000),
            dst_port: None,
            src_ip6: None,
            dst_ip6: None,
        },
        encap: None,
    };
    let group = group(alloc, 1, Dir::Out, rule(1, when, action, true));
    layer(2, 20, 2, one(alloc, group))
}

fn encapsulation() -> Outer {
    Outer {
        dst_mac: Mac::of(0x0200_0000_0a02),
        src_mac: Mac::of(0x0200_0000_0a01),
        src_ip: Ip4::of(0xac10_0001),
        dst_ip: Ip4::of(0xac10_0002),
        vni: 5001,
    }
}

fn encapsulating_group(alloc: Global) -> Group {
    let when = in_prefix(alloc, Field::DstIp, 0x0a00_0000, 16);
    let action = Action::Edit {
        decap: false,
        set: NOTHING,
        encap: Some(encapsulation()),
    };
    group(alloc, 1, Dir::Out, rule(1, when, action, false))
}

fn decapsulating_group(alloc: Global) -> Group {
    let when = is_value(alloc, Field::Vni, 5001);
    let action = Action::Edit {
        decap: true,
        set: NOTHING,
        encap: None,
    };
    group(alloc, 2, Dir::In, rule(1, when, action, false))
}

fn tunnel_layer(alloc: Global) -> LayerFile {
    let groups = one(alloc, encapsulating_group(alloc));
    let groups = and(groups, decapsulating_group(alloc));
    layer(3, 30, 3, groups)
}

fn three(alloc: Global) -> PolicyFile {
    let controllers = and(and(one(alloc, 1), 2), 3);
    let layers = one(alloc, stateful_layer(alloc));
    let layers = and(layers, translating_layer(alloc));
    let layers = and(layers, tunnel_layer(alloc));
    file(alloc, 1, controllers, layers)
}

#[test]
fn three_layers_are_read(rt: HostRuntime) {
    check(&rt, rt.alloc(), THREE, three(rt.alloc()));
}

/// What comes for 203.0.113.4 is sent on to 10.0.0.5, port 1234.
const FORWARDING: &str = concat!(
    r#"{"version":1,"controllers":[1],"#,
    r#""ports":[{"port":1,"mac":"02:00:00:00:00:01","rows":64,"layers":["#,
    r#"{"controller":1,"layer":10,"order":1,"default_out":"drop","default_in":"drop","#,
    r#""pairs":100,"idle":240,"linger":10,"groups":[{"group":1,"dir":"out","when":[],"#,
    r#""rules":[{"rule":1,"priority":10,"when":[],"action":"allow","stateful":false,"#,
    r#""last":false}]},{"group":2,"dir":"in","when":[],"#,
    r#""rules":[{"rule":2,"priority":10,"when":[{"field":"dst_ip","any":["203.0.113.4"]}],"#,
    r#""action":{"decap":false,"set":{"dst_ip":"10.0.0.5","dst_port":1234},"encap":null},"#,
    r#""stateful":true,"last":false}]}]}]}]}"#,
);

fn forwarding_group(alloc: Global) -> Group {
    let when = in_prefix(alloc, Field::DstIp, 0xcb00_7104, 32);
    let action = Action::Edit {
        decap: false,
        set: Set {
            dst_mac: None,
            src_mac: None,
            src_ip: None,
            dst_ip: Some(Ip4::of(0x0a00_0005)),
            src_port: None,
            dst_port: Some(1234),
            src_ip6: None,
            dst_ip6: None,
        },
        encap: None,
    };
    group(alloc, 2, Dir::In, rule(2, when, action, true))
}

fn forwarding(alloc: Global) -> PolicyFile {
    let rule = rule(1, Items::new(alloc), Action::Allow, false);
    let groups = one(alloc, group(alloc, 1, Dir::Out, rule));
    let groups = and(groups, forwarding_group(alloc));
    file(alloc, 1, one(alloc, 1), one(alloc, layer(1, 10, 1, groups)))
}

#[test]
fn two_groups_are_read(rt: HostRuntime) {
    check(&rt, rt.alloc(), FORWARDING, forwarding(rt.alloc()));
}

fn hiding(alloc: Global) -> Rule {
    let prefix = Prefix6 {
        value: Ip6::of(0xfd00_0000_0000_0000_0000_0000_0000_0000),
        bits: 64,
    };
    let items = one(alloc, Item::Prefix6(prefix));
    let field = Field::DstIp6;
    let when = one(alloc, Cond { field, items });
    let action = Action::Edit {
        decap: false,
        set: Set {
            src_ip6: Some(Ip6::of(0xfd00_0000_0000_0000_0000_0000_0000_0077)),
            ..NOTHING
        },
        encap: None,
    };
    rule(5, when, action, true)
}

fn of_ipv6(alloc: Global) -> PolicyFile {
    let group = group(alloc, 1, Dir::Out, hiding(alloc));
    let layers = one(alloc, layer(1, 10, 1, one(alloc, group)));
    file(alloc, 2, one(alloc, 1), layers)
}

#[test]
fn rules_over_ipv6_are_read(rt: HostRuntime) {
    check(&rt, rt.alloc(), OF_IPV6, of_ipv6(rt.alloc()));
}
