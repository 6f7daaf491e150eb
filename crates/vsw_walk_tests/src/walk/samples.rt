//! A layer, its rule and its pair, and packets of one TCP connection through it, which were worked out
//! by hand.

use std::alloc::Global;
use vsw_base::{Addr, BadShape, Dir, Header, Ip4, Items, LayerKey, Mac, Moment, Set, Stack, Track};
use vsw_layerflow::{Flows, Pair};
use vsw_policy::{Groups, Layer, LayerSpec};
use vsw_rule::{Action, Group, Rule};

/// The host inside, the name that it has outside, and the host that it speaks to.
pub const INSIDE: u32 = 0x0a00_0005;

pub const OUTSIDE: u32 = 0xc000_0207;

pub const SERVER: u32 = 0x0a00_0009;

/// A second after the epoch, in microseconds, when the pair was last used.
pub const USED: u64 = 1_000_000;

fn ether() -> Header {
    Header::Ether {
        dst: Mac::of(0x0200_0000_0099),
        src: Mac::of(0x0200_0000_0001),
        kind: 0x0800,
    }
}

fn ip(src: u32, dst: u32, part: bool) -> Header {
    Header::Ip {
        src: Ip4::of(src),
        dst: Ip4::of(dst),
        proto: 6,
        part,
    }
}

/// A whole packet of TCP between these addresses and ports.
fn tcp(src: u32, dst: u32, src_port: u16, dst_port: u16) -> Result<Stack, BadShape> {
    Stack::of(&[
        ether(),
        ip(src, dst, false),
        Header::Ports {
            proto: 6,
            src: src_port,
            dst: dst_port,
        },
    ])
}

/// From port 40000 inside to port 80 of the server.
pub fn request() -> Result<Stack, BadShape> {
    tcp(INSIDE, SERVER, 40_000, 80)
}

/// From the server to port 50000 outside.
pub fn reply() -> Result<Stack, BadShape> {
    tcp(SERVER, OUTSIDE, 80, 50_000)
}

/// The request and the reply once they were translated.
pub fn request_outside() -> Result<Stack, BadShape> {
    tcp(OUTSIDE, SERVER, 50_000, 80)
}

pub fn reply_inside() -> Result<Stack, BadShape> {
    tcp(SERVER, INSIDE, 80, 40_000)
}

/// A fragment from inside to the server.
pub fn fragment() -> Result<Stack, BadShape> {
    Stack::of(&[ether(), ip(INSIDE, SERVER, true)])
}

pub fn nothing() -> Set {
    Set {
        dst_mac: None,
        src_mac: None,
        src_ip: None,
        dst_ip: None,
        src_port: None,
        dst_port: None,
        src_ip6: None,
        dst_ip6: None,
    }
}

/// The source becomes port 50000 outside.
pub fn outwards() -> Set {
    Set {
        src_ip: Some(Ip4::of(OUTSIDE)),
        src_port: Some(50_000),
        ..nothing()
    }
}

/// The destination becomes port 40000 inside.
pub fn inwards() -> Set {
    Set {
        dst_ip: Some(Ip4::of(INSIDE)),
        dst_port: Some(40_000),
        ..nothing()
    }
}

pub fn edit(set: Set) -> Action {
    Action::Edit {
        decap: false,
        set,
        encap: None,
    }
}

/// TCP, without encapsulation.
fn key(src: u32, dst: u32, part: bool, src_port: u16, dst_port: u16) -> LayerKey {
    LayerKey {
        encaps: 0,
        vni_outer: 0,
        vni_second: 0,
        src: Addr::Four(Ip4::of(src)),
        dst: Addr::Four(Ip4::of(dst)),
        proto: 6,
        part,
        src_port,
        dst_port,
    }
}

/// The pair of this number that rule 7 of group 2 wants for the request.
pub fn pair(number: u32, state: Track, last: u64) -> Pair {
    Pair {
        number,
        group: 2,
        rule: 7,
        dir: Dir::Out,
        forward: key(INSIDE, SERVER, false, 40_000, 80),
        forward_set: outwards(),
        reverse: key(SERVER, OUTSIDE, false, 80, 50_000),
        reverse_set: inwards(),
        state,
        last_use: Moment::of(last),
    }
}

/// What it wants for the fragment, which has no ports.
pub fn pair_of_fragments(number: u32, last: u64) -> Pair {
    Pair {
        number,
        group: 2,
        rule: 7,
        dir: Dir::Out,
        forward: key(INSIDE, SERVER, true, 0, 0),
        forward_set: outwards(),
        reverse: key(SERVER, OUTSIDE, true, 0, 0),
        reverse_set: Set {
            dst_ip: Some(Ip4::of(INSIDE)),
            ..nothing()
        },
        state: Track::Plain,
        last_use: Moment::of(last),
    }
}

fn rule(alloc: Global, action: &Action) -> Rule {
    Rule {
        number: 7,
        priority: 10,
        when: Items::new(alloc),
        action: *action,
        stateful: true,
        last: false,
    }
}

/// Layer 10 of controller 3. Outbound packets go on where no rule decides, and inbound ones don't.
/// Pairs live for 240 or, closed, 10 seconds, and the next one has number 6.
fn layer(groups: Groups, flows: Flows) -> Layer {
    Layer {
        controller: 3,
        spec: LayerSpec {
            layer: 10,
            order: 1,
            allow_out: true,
            allow_in: false,
            pairs: 16,
            idle: 240,
            linger: 10,
        },
        groups,
        flows,
        next_pair: 6,
    }
}

/// Stateful rule 7 of group 2 does this to all outbound packets.
fn groups_of(alloc: Global, action: &Action) -> Groups {
    let mut rules = Items::new(alloc);
    let _ = rules.push(rule(alloc, action));
    let group = Group {
        number: 2,
        dir: Dir::Out,
        when: Items::new(alloc),
        rules,
    };
    let mut groups = Groups::new(alloc);
    let _ = groups.push(alloc, group);
    groups
}

/// One pair alone.
fn flows_of(alloc: Global, pair: Pair) -> Flows {
    let mut flows = Flows::new(alloc);
    if flows.reserve_one().is_ok() {
        flows.add(pair);
    }
    flows
}

/// What the layer has.
#[derive(Clone, Copy)]
pub enum Has {
    /// No rules and no pairs. Whether outbound and inbound packets go on.
    Defaults(bool, bool),
    /// A rule that does this, and no pairs.
    Rule(Action),
    /// Such a rule, and pair 5 in this state.
    Pair(Action, Track),
}

pub fn layer_with(alloc: Global, has: &Has) -> Layer {
    match has {
        Has::Defaults(out, back) => {
            let mut layer = layer(Groups::new(alloc), Flows::new(alloc));
            layer.spec.allow_out = *out;
            layer.spec.allow_in = *back;
            layer
        }
        Has::Rule(action) => layer(groups_of(alloc, action), Flows::new(alloc)),
        Has::Pair(action, state) => layer(
            groups_of(alloc, action),
            flows_of(alloc, pair(5, *state, USED)),
        ),
    }
}
