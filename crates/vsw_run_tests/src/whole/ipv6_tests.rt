//! Packets over IPv6: their pairs, their faults, what policies of version 2 say of them, and encapsulations around them.

use crate::memory::FORWARD;
use crate::whole::frames::{
    LABELLED, LABELLED_TWICE, LISTENER, QUERY, QUERY_6, QUERY_6_HIDDEN, QUERY_6_PORT, REPLY_6,
    REPLY_6_HIDDEN, REPLY_6_PORT, TEXT_6, TEXT_6_HIDDEN,
};
use crate::whole::policies::{
    END, HIDING, LAYER, LAYER_END, PORT, PORT_OF_2, SETTING_PORT, THREE_LAYERS, UNWRAPPING,
};
use crate::whole::running::{Wrong, check, host_over, tried};
use vsw_run::Status;

/// A policy of version 1, which tells IPv6 by its Ethernet type.
const BY_TYPE: &[&str] = &[PORT, LAYER, SETTING_PORT, LAYER_END, END];

#[test]
fn a_flow_over_ipv6_keeps_its_state(rt: HostRuntime) -> Result<(), Wrong> {
    let lines = &[
        "w0 0 +0 pass 64 ",
        QUERY_6_PORT,
        "\nw0 1 @1 pass 64 ",
        REPLY_6,
        "\nw0 2 +1 pass 90 ",
        LISTENER,
        "\n",
    ];
    let frames = &[QUERY_6, REPLY_6_PORT, LISTENER];
    check(&rt, rt.alloc(), BY_TYPE, frames, "2", lines)?;
    // Other layers let it pass by a stateful rule, and drop it where a condition is on IPv4.
    let line = &["w0 0 @0 drop default 2/20 out\n"];
    check(&rt, rt.alloc(), THREE_LAYERS, &[QUERY_6], "0", line)?;
    let line = &["w0 0 @0 pass 64 ", LABELLED, "\n"];
    let unwrapping = &[PORT, UNWRAPPING, END];
    check(&rt, rt.alloc(), unwrapping, &[LABELLED_TWICE], "0", line)
}

/// The query with 39 bytes of IPv6, with version 4, and with a payload length of 11.
const SHORT: &str =
    "02000000009902000000000186dd60000000000a1140fd000000000000000000000000000005fd0000000000000000000000000000";

const OTHER_VERSION: &str =
    "02000000009902000000000186dd45000000000a1140fd000000000000000000000000000005fd00000000000000000000000000000904d20035000a985a6869";

const LONG: &str =
    "02000000009902000000000186dd60000000000b1140fd000000000000000000000000000005fd00000000000000000000000000000904d20035000a985a6869";

const MALFORMED: &[&str] = &[
    "vsw report 1\nround 0\nport 1 0 0\nloose\n",
    "0 malformed 10 ShortIp6\n1 malformed 11 Ip6Version\n2 malformed 12 Ip6Length\n",
];

#[test]
fn malformed_packets_over_ipv6_are_named(rt: HostRuntime) -> Result<(), Wrong> {
    let frames = &[SHORT, OTHER_VERSION, LONG];
    let host = host_over(rt.alloc(), BY_TYPE, &[], frames, &[]);
    tried(&rt, rt.alloc(), FORWARD, host, Status::Done, MALFORMED, "")
}

/// A policy of version 2, and the same of version 1.
const BY_ADDRESS: &[&str] = &[PORT_OF_2, LAYER, HIDING, LAYER_END, END];

const OF_VERSION_1: &[&str] = &[PORT, LAYER, HIDING, LAYER_END, END];

#[test]
fn version_2_sets_addresses_of_ipv6(rt: HostRuntime) -> Result<(), Wrong> {
    let lines = &[
        "w0 0 +0 pass 64 ",
        QUERY_6_HIDDEN,
        "\nw0 1 @1 pass 64 ",
        REPLY_6,
        "\nw0 2 +1 pass 94 ",
        TEXT_6_HIDDEN,
        "\nw0 3 @2 drop default 1/10 out\n",
    ];
    let frames = &[QUERY_6, REPLY_6_HIDDEN, TEXT_6, QUERY];
    check(&rt, rt.alloc(), BY_ADDRESS, frames, "2", lines)?;
    let host = host_over(rt.alloc(), OF_VERSION_1, &[], frames, &[]);
    let complaint = "vsw: refused policy Shape /ports/0/layers/0/groups/0/rules/0/when/0/field\n";
    tried(
        &rt,
        rt.alloc(),
        FORWARD,
        host,
        Status::Refused,
        &[],
        complaint,
    )
}
