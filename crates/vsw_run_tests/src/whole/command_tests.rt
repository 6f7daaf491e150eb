//! Commands in a run: rounds that they cut, their replies, and where they change what becomes of packets.

use crate::memory::FORWARD;
use crate::whole::frames::{FIN_IN, FIN_OUT, LAST_ACK, QUERY, SYN, SYN_ACK, SYN_AGAIN, TEXT};
use crate::whole::policies::{
    ALLOWING, EMPTY_GROUP, END, IDLE_100, LAYER, LAYER_END, PORT, PORT_OF_2, STATEFUL,
};
use crate::whole::running::{Wrong, host_over, tried};
use std::alloc::Global;
use std::sync::Wait;
use std::thread::Threads;
use std::time::Clock;
use vsw_run::Status;

/// The policy of one layer, number 10 of controller 1, whose rule 5 of group 1 allows 10.0.0.0/24.
const POLICY: &[&str] = &[PORT, LAYER, ALLOWING, LAYER_END, END];

/// The same policy, in which two controllers are listed.
const POLICY_OF_TWO: &[&str] = &[
    r#"{"version":1,"controllers":[1,2],"ports":[{"port":1,"mac":"02:00:00:00:00:01","rows":64,"layers":["#,
    LAYER,
    ALLOWING,
    LAYER_END,
    END,
];

/// Rule 5 once more, dropping.
const DROP_5: &str =
    r#"{"rule":5,"priority":10,"when":[{"field":"dst_ip","any":["10.0.0.0/24"]}],"action":"drop","stateful":false,"last":false}"#;

/// Runs over this policy, these commands and these frames, and compares what is put.
fn check<R: Threads + Wait + Clock + Sync>(
    rt: &R,
    alloc: Global,
    policy: &[&str],
    commands: &[&str],
    frames: &[&str],
    report: &[&str],
) -> Result<(), Wrong> {
    let host = host_over(alloc, policy, commands, frames, &[]);
    tried(rt, alloc, FORWARD, host, Status::Done, report, "")
}

#[test]
fn rules_that_are_put_decide_from_their_packet_on(rt: HostRuntime) -> Result<(), Wrong> {
    let commands = &[
        r#"{"at":1,"when":"before","controller":1,"port":1,"do":"put_rules","layer":10,"group":1,"rules":["#,
        DROP_5,
        "]}\n",
    ];
    let report = &[
        "vsw report 1\nround 0\nport 1 0 0\nw0 0 @0 pass 44 ",
        QUERY,
        "\nloose\nround 1\nport 1 0 1\nc1 1 +0 ok\nw0 1 @1 drop rule 1/10/1/5\nloose\n",
    ];
    check(&rt, rt.alloc(), POLICY, commands, &[QUERY, QUERY], report)
}

#[test]
fn rules_for_the_other_direction_leave_a_packet_alone(rt: HostRuntime) -> Result<(), Wrong> {
    let commands = &[
        r#"{"at":1,"when":"before","controller":1,"port":1,"do":"add_group","layer":10,"group":2,"dir":"in","when_all":[]}"#,
        "\n",
        r#"{"at":1,"when":"before","controller":1,"port":1,"do":"put_rules","layer":10,"group":2,"rules":["#,
        DROP_5,
        "]}",
    ];
    let report = &[
        "vsw report 1\nround 0\nport 1 0 0\nw0 0 @0 pass 44 ",
        QUERY,
        "\nloose\nround 1\nport 1 0 2\nc1 1 +0 ok\nc1 2 +1 ok\nw0 1 @2 pass 44 ",
        QUERY,
        "\nloose\n",
    ];
    check(&rt, rt.alloc(), POLICY, commands, &[QUERY, QUERY], report)
}

#[test]
fn a_sweep_takes_a_closed_connection_away(rt: HostRuntime) -> Result<(), Wrong> {
    let policy = &[PORT, IDLE_100, STATEFUL, LAYER_END, END];
    let commands = &[
        "\n",
        r#"{"at":6,"when":"before","controller":1,"port":1,"do":"sweep","layer":10,"now":10000000}"#,
        "\n",
    ];
    let frames = &[SYN, SYN_ACK, TEXT, FIN_OUT, FIN_IN, LAST_ACK, SYN_AGAIN];
    let report = &[
        "vsw report 1\nround 0\nport 1 0 4\nw0 0 +0 pass 54 ",
        SYN,
        "\nw0 1 +1 pass 54 ",
        SYN_ACK,
        "\nw0 2 @2 pass 56 ",
        TEXT,
        "\nw0 3 +2 pass 54 ",
        FIN_OUT,
        "\nw0 4 +3 pass 54 ",
        FIN_IN,
        "\nw0 5 @4 pass 54 ",
        LAST_ACK,
        "\nloose\nround 6\nport 1 4 6\nc1 2 +4 ok\nw0 6 +5 pass 54 ",
        SYN_AGAIN,
        "\nloose\n",
    ];
    check(&rt, rt.alloc(), policy, commands, frames, report)
}

#[test]
fn commands_are_refused_by_number_and_name(rt: HostRuntime) -> Result<(), Wrong> {
    let commands = &[
        r#"{"at":0,"when":"during","controller":1,"port":1,"do":"add_rule","layer":10,"group":1,"rule":"#,
        DROP_5,
        r#"}"#,
        "\n",
        r#"{"at":0,"when":"before","controller":1,"port":1,"do":"add_layer","layer":10,"order":1,"default_out":"drop","default_in":"drop","pairs":0,"idle":1,"linger":1}"#,
        "\n",
        r#"{"at":0,"when":"before","controller":1,"port":1,"do":"put_rules","layer":10,"group":9,"rules":[]}"#,
        "\n",
        r#"{"at":0,"when":"before","controller":2,"port":1,"do":"add_layer","layer":10,"order":1,"default_out":"drop","default_in":"drop","pairs":0,"idle":1,"linger":1}"#,
        "\n",
    ];
    let report = &[
        "vsw report 1\nround 0\nport 1 0 4\nc1 2 +0 refused 2 LayerExists\nc1 3 +1 refused 3 NoGroup\nc2 4 +2 ok\nc1 1 +3 refused 6 RuleExists\nw0 0 @4 drop default 2/10 out\nloose\n",
    ];
    check(&rt, rt.alloc(), POLICY_OF_TWO, commands, &[QUERY], report)
}

#[test]
fn commands_of_rounds_that_never_begin_do_not_run(rt: HostRuntime) -> Result<(), Wrong> {
    let commands = &[
        r#"{"at":5,"when":"before","controller":1,"port":1,"do":"remove_layer","layer":10}"#,
        "\n",
        r#"{"at":1,"when":"during","controller":1,"port":1,"do":"remove_layer","layer":11}"#,
        "\n",
    ];
    let report = &[
        "vsw report 1\nround 0\nport 1 0 0\nw0 0 @0 pass 44 ",
        QUERY,
        "\nloose\nround 1\nport 1 0 1\nc1 2 +0 refused 1 NoLayer\nw0 1 @1 pass 44 ",
        QUERY,
        "\nloose\n",
    ];
    // The files take three calls each, the trace its opening and one piece, then the head line and the first round are put: the
    // next call reads on.
    let host = host_over(rt.alloc(), POLICY, commands, &[QUERY, QUERY], &[11]);
    let complaint = "vsw: read fault\n";
    tried(
        &rt,
        rt.alloc(),
        FORWARD,
        host,
        Status::ReadFault,
        report,
        complaint,
    )
}

/// The policy of version 2, with a second group.
const POLICY_OF_2: &[&str] = &[PORT_OF_2, LAYER, ALLOWING, EMPTY_GROUP, LAYER_END, END];

/// The front of a command over several groups, up to its parts, and eleven parts of one group.
const PUT_MANY: &str =
    r#"{"at":1,"when":"before","controller":1,"port":1,"do":"put_many","parts":["#;

const ELEVEN: &str = concat!(
    r#"{"layer":10,"group":1,"rules":[]},{"layer":10,"group":1,"rules":[]},{"layer":10,"group":1,"rules":[]},"#,
    r#"{"layer":10,"group":1,"rules":[]},{"layer":10,"group":1,"rules":[]},{"layer":10,"group":1,"rules":[]},"#,
    r#"{"layer":10,"group":1,"rules":[]},{"layer":10,"group":1,"rules":[]},{"layer":10,"group":1,"rules":[]},"#,
    r#"{"layer":10,"group":1,"rules":[]},{"layer":10,"group":1,"rules":[]}"#,
);

const NO_RULES: &str = r#"{"layer":10,"group":1,"rules":[]}"#;

/// Rule 9 alone, which drops, in group 2 and in group 9.
const RULE_9: &str =
    r#",{"layer":10,"group":2,"rules":[{"rule":9,"priority":10,"when":[],"action":"drop","stateful":false,"last":false}]}"#;

const RULE_9_ELSEWHERE: &str =
    r#",{"layer":10,"group":9,"rules":[{"rule":9,"priority":10,"when":[],"action":"drop","stateful":false,"last":false}]}"#;

/// What is put up to the command's line, of two queries.
const FIRST: &str = "vsw report 1\nround 0\nport 1 0 0\nw0 0 @0 pass 44 ";

#[test]
fn rules_of_two_groups_are_put_at_once(rt: HostRuntime) -> Result<(), Wrong> {
    let commands = &[PUT_MANY, NO_RULES, RULE_9, "]}"];
    let report = &[
        FIRST,
        QUERY,
        "\nloose\nround 1\nport 1 0 1\nc1 1 +0 ok\nw0 1 @1 drop rule 1/10/2/9\nloose\n",
    ];
    let frames = &[QUERY, QUERY];
    check(&rt, rt.alloc(), POLICY_OF_2, commands, frames, report)?;
    let commands = &[PUT_MANY, NO_RULES, RULE_9_ELSEWHERE, "]}"];
    let report = &[
        FIRST,
        QUERY,
        "\nloose\nround 1\nport 1 0 1\nc1 1 +0 refused 3 NoGroup\nw0 1 @1 pass 44 ",
        QUERY,
        "\nloose\n",
    ];
    check(&rt, rt.alloc(), POLICY_OF_2, commands, frames, report)
}

#[test]
fn many_parts_and_those_of_one_group_are_refused(rt: HostRuntime) -> Result<(), Wrong> {
    let commands = &[
        PUT_MANY, ELEVEN, ",", ELEVEN, ",", ELEVEN, "]}\n", PUT_MANY, NO_RULES, ",", NO_RULES,
        "]}\n", PUT_MANY, "]}",
    ];
    let report = &[
        FIRST,
        QUERY,
        "\nloose\nround 1\nport 1 0 3\nc1 1 +0 refused 11 ManyParts\nc1 2 +1 refused 12 PartTwice\nc1 3 +2 ok\nw0 1 @3 pass 44 ",
        QUERY,
        "\nloose\n",
    ];
    check(
        &rt,
        rt.alloc(),
        POLICY_OF_2,
        commands,
        &[QUERY, QUERY],
        report,
    )
}
