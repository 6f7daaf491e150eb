//! What a watch is told: each packet's answer once, by its worker.

use crate::memory::empty_trace;
use crate::workers::files::{ONE_LAYER, OPENS, REMOVES, THREE_LAYERS};
use crate::workers::flows::{PACKETS, flow_of, sent, worker_of};
use crate::workers::notes::Notes;
use crate::workers::running::{add, files, report_of, report_of_flows};
use std::alloc::Global;
use std::process::Abort;
use std::sync::Wait;
use std::test::Fail;
use std::thread::Threads;
use std::time::Clock;

/// UDP from 10.0.0.5:1234 to 10.0.0.9:53 with the text "hi", from port 1.
const QUERY: &str =
    "02000000009902000000000108004500001e00004000401126c20a0000050a00000904d20035000a7e5c6869";

/// What worker 0 tells of it, at count 0: it passes with 44 bytes and is no entry. No row had it first, and then one answers.
const TOLD: [u64; 3] = [4_400_021, 4_400_001, 4_400_001];

fn queries(alloc: Global) -> Result<Vec<u8>, Fail> {
    let mut trace = empty_trace(alloc)?;
    let query = hex::decode(alloc, QUERY.as_bytes())?;
    for packet in 0..3u32 {
        add(&mut trace, packet, &query)?;
    }
    Ok(trace)
}

fn tell_queries<R: Abort + Threads + Wait + Clock + Sync>(
    rt: &R,
    alloc: Global,
    notes: &Notes,
) -> Result<(), Fail> {
    let held = files(alloc, ONE_LAYER, "", queries(alloc)?)?;
    report_of(rt, alloc, "2", held, notes)?;
    Ok(())
}

fn check_queries(rt: &impl Abort, notes: &Notes) {
    let told = [notes.told(0), notes.told(1), notes.told(2)];
    assert_eq!(rt; told, TOLD);
    assert!(rt; notes.is_whole());
}

#[test]
fn the_first_packet_misses_and_rows_answer_the_next(rt: HostRuntime) -> Result<(), Fail> {
    let notes = Notes::new(rt.alloc(), 3)?;
    tell_queries(&rt, rt.alloc(), &notes)?;
    check_queries(&rt, &notes);
    Ok(())
}

/// What one worker tells of four packets of a flow at three layers, but for the length and the count. The first makes two pairs: at layers
/// without any no row was looked for. No row has the second, and then rows answer.
const ALONE: [u64; 4] = [141, 21, 1, 1];

/// Four packets of one flow.
fn alike(alloc: Global) -> Result<Vec<u8>, Fail> {
    let mut trace = empty_trace(alloc)?;
    for packet in 0..4u32 {
        add(&mut trace, packet, &sent(alloc, 1)?)?;
    }
    Ok(trace)
}

fn tell_alone<R: Abort + Threads + Wait + Clock + Sync>(
    rt: &R,
    alloc: Global,
    notes: &Notes,
) -> Result<(), Fail> {
    let held = files(alloc, THREE_LAYERS, "", alike(alloc)?)?;
    report_of(rt, alloc, "1", held, notes)?;
    Ok(())
}

fn check_alone(rt: &impl Abort, notes: &Notes) {
    for packet in 0..4u32 {
        assert_eq!(rt;
            notes.told(packet) % 100_000,
            ALONE[packet as usize],
            "{packet}"
        );
    }
    assert!(rt; notes.is_whole());
}

#[test]
fn one_worker_tells_that_rows_answer(rt: HostRuntime) -> Result<(), Fail> {
    let notes = Notes::new(rt.alloc(), 4)?;
    tell_alone(&rt, rt.alloc(), &notes)?;
    check_alone(&rt, &notes);
    Ok(())
}

/// Whether a packet that left with 94 bytes was told once, by its worker.
fn is_told(notes: &Notes, packet: u32, workers: u32) -> bool {
    let told = notes.told(packet);
    told % 10 == 1
        && told / 1_000 % 100 == u64::from(worker_of(flow_of(packet), workers))
        && told / 100_000 % 100_000 == 94
}

fn check_flows(rt: &impl Abort, notes: &Notes, workers: u32) {
    for packet in 0..PACKETS {
        assert!(rt; is_told(notes, packet, workers));
    }
    assert!(rt; notes.is_whole());
}

#[test]
fn each_packet_of_four_workers_is_told_once(rt: HostRuntime) -> Result<(), Fail> {
    let notes = Notes::new(rt.alloc(), PACKETS)?;
    report_of_flows(&rt, rt.alloc(), "4", REMOVES, &notes)?;
    check_flows(&rt, &notes, 4);
    Ok(())
}

/// How many flows leave rows before the first command, and ask for them behind the second.
const FLOWS: u32 = 16;

/// A frame of a round in which no packet leaves a row: it ends within its Ethernet header.
const CUT: [u8; 4] = [2, 0, 0, 0];

/// Packets of each flow before the two commands, one that is malformed between them, and one of each flow behind them.
fn around(alloc: Global) -> Result<Vec<u8>, Fail> {
    let mut trace = empty_trace(alloc)?;
    for packet in 0..FLOWS {
        add(&mut trace, packet, &sent(alloc, flow_of(packet))?)?;
    }
    add(&mut trace, FLOWS, &CUT)?;
    for packet in 0..FLOWS {
        let number = packet.wrapping_add(FLOWS + 1);
        add(&mut trace, number, &sent(alloc, flow_of(packet))?)?;
    }
    Ok(trace)
}

/// How many packets from one on, up to another, were told once with this cause, where 0 is a row's answer and 2 a miss.
fn count_with(notes: &Notes, from: u32, to: u32, cause: u64) -> u32 {
    let mut count = 0u32;
    for packet in from..to {
        if notes.told(packet) % 100 == cause.wrapping_mul(10).wrapping_add(1) {
            count = count.wrapping_add(1);
        }
    }
    count
}

fn tell_around<R: Abort + Threads + Wait + Clock + Sync>(
    rt: &R,
    alloc: Global,
    notes: &Notes,
) -> Result<(), Fail> {
    let held = files(alloc, ONE_LAYER, OPENS, around(alloc)?)?;
    report_of(rt, alloc, "2", held, notes)?;
    Ok(())
}

#[test]
fn a_round_reconciles_all_rows_that_a_command_shook(rt: HostRuntime) -> Result<(), Fail> {
    let notes = Notes::new(rt.alloc(), 2 * FLOWS + 1)?;
    tell_around(&rt, rt.alloc(), &notes)?;
    assert_eq!(rt; count_with(&notes, 0, FLOWS, 2), FLOWS);
    assert_eq!(rt; count_with(&notes, FLOWS + 1, 2 * FLOWS + 1, 0), FLOWS);
    Ok(())
}
