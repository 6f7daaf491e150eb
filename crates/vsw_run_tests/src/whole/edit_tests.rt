//! Packets that leave with other headers than they came with.

use crate::whole::frames::{
    ANSWER, FRAGMENT, OUTSIDE, QUERY, REPLY, SENT_FRAGMENT, SENT_QUERY, SENT_REPLY, THRICE_WRAPPED,
    UNFLAGGED, WRAPPED,
};
use crate::whole::policies::{
    END, LAYER, LAYER_END, PORT, SETTING, THREE_LAYERS, TURNING, UNWRAPPING,
};
use crate::whole::running::{Wrong, check};

#[test]
fn three_layers_edit_a_query_one_after_another(rt: HostRuntime) -> Result<(), Wrong> {
    let line = &["w0 0 +0 pass 94 ", SENT_QUERY, "\n"];
    check(&rt, rt.alloc(), THREE_LAYERS, &[QUERY], "1", line)
}

#[test]
fn its_reply_crosses_them_in_reverse(rt: HostRuntime) -> Result<(), Wrong> {
    let lines = &[
        "w0 0 +0 pass 94 ",
        SENT_QUERY,
        "\nw0 1 @1 pass 44 ",
        REPLY,
        "\n",
    ];
    check(
        &rt,
        rt.alloc(),
        THREE_LAYERS,
        &[QUERY, SENT_REPLY],
        "1",
        lines,
    )
}

#[test]
fn a_flow_from_outside_edits_the_replies_too(rt: HostRuntime) -> Result<(), Wrong> {
    let policy = &[PORT, LAYER, TURNING, LAYER_END, END];
    let lines = &[
        "w0 0 @0 pass 44 ",
        QUERY,
        "\nw0 1 +0 pass 44 ",
        REPLY,
        "\nw0 2 @1 pass 44 ",
        ANSWER,
        "\n",
    ];
    check(
        &rt,
        rt.alloc(),
        policy,
        &[QUERY, OUTSIDE, QUERY],
        "1",
        lines,
    )
}

#[test]
fn a_third_encapsulation_is_plain_udp(rt: HostRuntime) -> Result<(), Wrong> {
    let line = &["w0 0 @0 pass 94 ", WRAPPED, "\n"];
    check(
        &rt,
        rt.alloc(),
        &[PORT, UNWRAPPING, END],
        &[THRICE_WRAPPED],
        "0",
        line,
    )
}

#[test]
fn nothing_is_decapped_without_the_flag(rt: HostRuntime) -> Result<(), Wrong> {
    let line = &["w0 0 @0 drop default 1/20 in\n"];
    check(
        &rt,
        rt.alloc(),
        &[PORT, UNWRAPPING, END],
        &[UNFLAGGED],
        "0",
        line,
    )
}

#[test]
fn of_a_fragment_only_the_address_is_set(rt: HostRuntime) -> Result<(), Wrong> {
    let policy = &[PORT, LAYER, SETTING, LAYER_END, END];
    let line = &["w0 0 @0 pass 44 ", SENT_FRAGMENT, "\n"];
    check(&rt, rt.alloc(), policy, &[FRAGMENT], "0", line)
}
