//! What is said of policies that are no good.

use crate::app::running::{Wrong, check, host_of_policy};
use crate::memory::FORWARD;
use std::alloc::{AllocError, Global};
use std::sync::Wait;
use std::thread::Threads;
use std::time::Clock;
use vsw_run::Status;

/// The pieces of a policy file: up to the layers of the only port, up to the rules of the only group, a
/// rule, the end of a layer, and the end of the file.
const START: &[u8] =
    br#"{"version":1,"controllers":[1],"ports":[{"port":1,"mac":"02:00:00:00:00:01","rows":64,"layers":["#;

const LAYER: &[u8] =
    br#"{"controller":1,"layer":10,"order":1,"default_out":"drop","default_in":"drop","pairs":100,"idle":240,"linger":10,"groups":[{"group":1,"dir":"out","when":[],"rules":["#;

const RULE: &[u8] =
    br#"{"rule":5,"priority":10,"when":[{"field":"dst_ip","any":["10.0.0.0/24"]}],"action":"allow","stateful":false,"last":false}"#;

const LAYER_END: &[u8] = b"]}]}";

const END: &[u8] = b"]}]}";

/// Runs over a policy of these pieces, and compares the status and the complaint. The host holds no other
/// file, and nothing is put.
fn check_policy<R: Threads + Wait + Clock + Sync>(
    rt: &R,
    alloc: Global,
    policy: &[&[u8]],
    status: Status,
    complaint: &[u8],
) -> Result<(), Wrong> {
    match host_of_policy(alloc, policy) {
        Ok(mut host) => check(rt, alloc, &mut host, FORWARD, (status, &[], complaint)),
        Err(wrong) => Err(wrong),
    }
}

fn check_refused<R: Threads + Wait + Clock + Sync>(
    rt: &R,
    alloc: Global,
    policy: &[&[u8]],
    complaint: &[u8],
) -> Result<(), Wrong> {
    check_policy(rt, alloc, policy, Status::Refused, complaint)
}

fn check_limit<R: Threads + Wait + Clock + Sync>(
    rt: &R,
    alloc: Global,
    policy: &[&[u8]],
    complaint: &[u8],
) -> Result<(), Wrong> {
    check_policy(rt, alloc, policy, Status::Limit, complaint)
}

const WITHOUT_LAST: &[u8] =
    br#"{"rule":5,"priority":10,"when":[{"field":"dst_ip","any":["10.0.0.0/24"]}],"action":"allow","stateful":false}"#;

#[test]
fn a_missing_member_is_told_at_its_object(rt: HostRuntime) -> Result<(), Wrong> {
    let policy = &[START, LAYER, WITHOUT_LAST, LAYER_END, END];
    let words = b"vsw: refused policy Shape /ports/0/layers/0/groups/0/rules/0\n";
    check_refused(&rt, rt.alloc(), policy, words)
}

const OF_ANOTHER: &[u8] =
    br#"{"controller":2,"layer":10,"order":1,"default_out":"drop","default_in":"drop","pairs":100,"idle":240,"linger":10,"groups":[{"group":1,"dir":"out","when":[],"rules":["#;

#[test]
fn a_controller_that_is_not_listed_is_told(rt: HostRuntime) -> Result<(), Wrong> {
    let policy = &[START, OF_ANOTHER, RULE, LAYER_END, END];
    let words = b"vsw: refused policy Unknown /ports/0/layers/0/controller\n";
    check_refused(&rt, rt.alloc(), policy, words)
}

const STATEFUL_DROP: &[u8] =
    br#"{"rule":5,"priority":10,"when":[{"field":"dst_ip","any":["10.0.0.0/24"]}],"action":"drop","stateful":true,"last":false}"#;

#[test]
fn a_rule_that_may_not_be_so_is_told(rt: HostRuntime) -> Result<(), Wrong> {
    let policy = &[START, LAYER, STATEFUL_DROP, LAYER_END, END];
    let words = b"vsw: refused policy BadRule /ports/0/layers/0/groups/0/rules/0\n";
    check_refused(&rt, rt.alloc(), policy, words)
}

#[test]
fn what_stands_twice_is_told_where_it_stands_again(rt: HostRuntime) -> Result<(), Wrong> {
    let policy = &[
        START, LAYER, RULE, LAYER_END, b",", LAYER, RULE, LAYER_END, END,
    ];
    let words = b"vsw: refused policy Twice /ports/0/layers/1/layer\n";
    check_refused(&rt, rt.alloc(), policy, words)
}

#[test]
fn a_file_that_is_no_json_is_told_as_a_whole(rt: HostRuntime) -> Result<(), Wrong> {
    let words = b"vsw: refused policy Json /\n";
    check_refused(&rt, rt.alloc(), &[START, LAYER], words)?;
    check_refused(&rt, rt.alloc(), &[], words)?;
    check_refused(&rt, rt.alloc(), &[b"\"\xff\""], words)?;
    check_refused(&rt, rt.alloc(), &[b"7"], b"vsw: refused policy Shape /\n")
}

const SEVENTEEN_PORTS: &[u8] =
    br#"{"version":1,"controllers":[],"ports":[0,0,0,0,0,0,0,0,0,0,0,0,0,0,0,0,0]}"#;

#[test]
fn the_limits_on_lists_are_told(rt: HostRuntime) -> Result<(), Wrong> {
    let controllers = br#"{"version":1,"controllers":[1,2,3,4,5,6,7,8,9],"ports":[]}"#;
    check_limit(&rt, rt.alloc(), &[controllers], b"vsw: limit controllers\n")?;
    check_limit(&rt, rt.alloc(), &[SEVENTEEN_PORTS], b"vsw: limit ports\n")
}

fn spaces(alloc: Global, count: usize) -> Result<Vec<u8>, AllocError> {
    vec![in alloc; b' '; count]
}

#[test]
fn a_file_of_one_byte_too_many_is_not_read_on(rt: HostRuntime) -> Result<(), Wrong> {
    let alloc = rt.alloc();
    let Ok(most) = spaces(alloc, 4_194_304) else {
        return Err(Wrong::Start);
    };
    let words = b"vsw: refused policy Json /\n";
    check_refused(&rt, alloc, &[&most], words)?;
    check_limit(&rt, alloc, &[&most, b" "], b"vsw: limit policy\n")
}

#[test]
fn a_good_policy_lets_the_commands_be_opened(rt: HostRuntime) -> Result<(), Wrong> {
    let policy = &[START, LAYER, RULE, LAYER_END, END];
    let words = b"vsw: read fault\n";
    check_policy(&rt, rt.alloc(), policy, Status::ReadFault, words)
}
