//! Pairs of flows, and entries of the history.

use crate::whole::frames::{
    FIN_IN, FIN_OUT, LAST_ACK, OTHER_QUERY, QUERY, SENT_QUERY, SYN, SYN_ACK, SYN_AGAIN, TEXT,
};
use crate::whole::policies::{END, IDLE_100, LAYER_END, ONE_PAIR, PORT, STATEFUL, THREE_LAYERS};
use crate::whole::running::{Wrong, check};

const QUERIES: &[&str] = &[QUERY, OTHER_QUERY, QUERY];

#[test]
fn a_full_layer_takes_no_further_flow(rt: HostRuntime) -> Result<(), Wrong> {
    let lines = &[
        "w0 0 +0 pass 94 ",
        SENT_QUERY,
        "\nw0 1 @1 drop full 1/10\nw0 2 @1 pass 94 ",
        SENT_QUERY,
        "\n",
    ];
    check(&rt, rt.alloc(), ONE_PAIR, QUERIES, "1", lines)
}

#[test]
fn two_flows_have_no_common_reply(rt: HostRuntime) -> Result<(), Wrong> {
    let lines = &[
        "w0 0 +0 pass 94 ",
        SENT_QUERY,
        "\nw0 1 @1 drop taken 2/20 0\nw0 2 @1 pass 94 ",
        SENT_QUERY,
        "\n",
    ];
    check(&rt, rt.alloc(), THREE_LAYERS, QUERIES, "1", lines)
}

#[test]
fn a_connection_opens_closes_and_opens_again(rt: HostRuntime) -> Result<(), Wrong> {
    let policy = &[PORT, IDLE_100, STATEFUL, LAYER_END, END];
    let frames = &[SYN, SYN_ACK, TEXT, FIN_OUT, FIN_IN, LAST_ACK, SYN_AGAIN];
    let lines = &[
        "w0 0 +0 pass 54 ",
        SYN,
        "\nw0 1 +1 pass 54 ",
        SYN_ACK,
        "\nw0 2 @2 pass 56 ",
        TEXT,
        "\nw0 3 +2 pass 54 ",
        FIN_OUT,
        "\nw0 4 +3 pass 54 ",
        FIN_IN,
        "\nw0 5 @4 pass 54 ",
        LAST_ACK,
        "\nw0 6 +4 pass 54 ",
        SYN_AGAIN,
        "\n",
    ];
    check(&rt, rt.alloc(), policy, frames, "5", lines)
}
