//! What rules, defaults and groups decide.

use crate::memory::{FORWARD, empty_trace};
use crate::whole::frames::{ARP, QUERY, QUERY_FRONT};
use crate::whole::policies::{
    ALLOWING, DROPPING, DROPPING_80, END, LAST, LAYER, LAYER_END, PORT, TWO_RULES, TWO_RULES_TURNED,
};
use crate::whole::running::{Wrong, add, check, host_of, tried};
use std::alloc::Global;
use vsw_host::MemoryHost;
use vsw_run::Status;

/// The line of the query that passes as it came.
const PASSES: &[&str] = &["w0 0 @0 pass 44 ", QUERY, "\n"];

#[test]
fn a_query_passes_by_its_rule(rt: HostRuntime) -> Result<(), Wrong> {
    let policy = &[PORT, LAYER, ALLOWING, LAYER_END, END];
    check(&rt, rt.alloc(), policy, &[QUERY], "0", PASSES)
}

#[test]
fn all_passes_a_port_without_layers(rt: HostRuntime) -> Result<(), Wrong> {
    let lines = &["w0 0 @0 pass 44 ", QUERY, "\nw0 1 @0 pass 42 ", ARP, "\n"];
    check(&rt, rt.alloc(), &[PORT, END], &[QUERY, ARP], "0", lines)
}

#[test]
fn the_last_group_with_a_matching_rule_decides(rt: HostRuntime) -> Result<(), Wrong> {
    let policy = &[PORT, LAYER, ALLOWING, DROPPING, LAYER_END, END];
    let line = &["w0 0 @0 drop rule 1/10/2/7\n"];
    check(&rt, rt.alloc(), policy, &[QUERY], "0", line)
}

#[test]
fn a_rule_marked_last_is_chosen_at_once(rt: HostRuntime) -> Result<(), Wrong> {
    let policy = &[PORT, LAYER, LAST, DROPPING, LAYER_END, END];
    check(&rt, rt.alloc(), policy, &[QUERY], "0", PASSES)
}

#[test]
fn a_group_whose_condition_fails_is_ignored(rt: HostRuntime) -> Result<(), Wrong> {
    let policy = &[PORT, LAYER, ALLOWING, DROPPING_80, LAYER_END, END];
    check(&rt, rt.alloc(), policy, &[QUERY], "0", PASSES)
}

#[test]
fn the_first_of_two_rules_of_one_priority_decides(rt: HostRuntime) -> Result<(), Wrong> {
    let policy = &[PORT, LAYER, TWO_RULES, LAYER_END, END];
    check(&rt, rt.alloc(), policy, &[QUERY], "0", PASSES)?;
    let turned = &[PORT, LAYER, TWO_RULES_TURNED, LAYER_END, END];
    let line = &["w0 0 @0 drop rule 1/10/1/6\n"];
    check(&rt, rt.alloc(), turned, &[QUERY], "0", line)
}

/// A trace of the query, of which its first 40 bytes were captured.
fn snapped(alloc: Global) -> Option<Vec<u8>> {
    let mut trace = empty_trace(alloc).ok()?;
    let packet = hex::decode(alloc, QUERY_FRONT.as_bytes()).ok()?;
    add(&mut trace, 0, &packet, 4)?;
    Some(trace)
}

fn host_of_snapped(alloc: Global) -> Option<MemoryHost> {
    let policy = &[PORT, LAYER, ALLOWING, LAYER_END, END];
    host_of(alloc, policy, &[], snapped(alloc)?, &[])
}

const SNAPPED: &[&str] = &["vsw report 1\nround 0\nport 1 0 0\nloose\n0 snapped\n"];

#[test]
fn a_snapped_packet_is_loose(rt: HostRuntime) -> Result<(), Wrong> {
    let host = host_of_snapped(rt.alloc());
    tried(&rt, rt.alloc(), FORWARD, host, Status::Done, SNAPPED, "")
}
