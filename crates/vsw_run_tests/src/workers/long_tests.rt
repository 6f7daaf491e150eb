//! A history of more entries than two bytes count, by one worker and by two.

use crate::memory::empty_trace;
use crate::workers::files::SHORT_LIFE;
use crate::workers::running::{files, report_within};
use std::alloc::Global;
use std::process::Abort;
use std::sync::Wait;
use std::test::Fail;
use std::thread::Threads;
use std::time::Clock;
use vsw_app::Open;

/// How many packets there are, each of which becomes an entry.
const PACKETS: u32 = 66_000;

/// How many bytes the host has room for: 120 for each line, and some for the heads of rounds.
const ROOM: usize = 8_000_000;

/// UDP from 10.0.0.5:1234 to 10.0.0.9:53 with the text "hi", from port 1.
const QUERY: &str =
    "02000000009902000000000108004500001e00004000401126c20a0000050a00000904d20035000a7e5c6869";

/// How the report ends: the last packet is the entry of its number.
const END: &str =
    "\nw0 65999 +65999 pass 44 02000000009902000000000108004500001e00004000401126c20a0000050a00000904d20035000a7e5c6869\nloose\n";

/// Appends the record of a packet of this number, 300 milliseconds after the one before it.
fn add(trace: &mut Vec<u8>, number: u32, packet: &[u8]) -> Result<(), Fail> {
    let length = u32::try_from(packet.len())?;
    let tenths = number.wrapping_mul(3);
    for word in [tenths / 10, tenths % 10 * 100_000, length, length] {
        trace.extend_from_slice(&word.to_le_bytes())?;
    }
    trace.extend_from_slice(packet)?;
    Ok(())
}

fn queries(alloc: Global) -> Result<Vec<u8>, Fail> {
    let mut trace = empty_trace(alloc)?;
    let query = hex::decode(alloc, QUERY.as_bytes())?;
    for packet in 0..PACKETS {
        add(&mut trace, packet, &query)?;
    }
    Ok(trace)
}

/// Whether a run with so many workers ends well, and its report as it must.
fn ends_well<R: Abort + Threads + Wait + Clock + Sync>(
    rt: &R,
    alloc: Global,
    workers: &str,
) -> Result<bool, Fail> {
    let held = files(alloc, SHORT_LIFE, "", queries(alloc)?)?;
    let report = report_within(rt, alloc, workers, held, ROOM, &Open)?;
    Ok(report.ends_with(END.as_bytes()))
}

#[test]
fn one_worker_makes_66_000_entries(rt: HostRuntime) -> Result<(), Fail> {
    let well = ends_well(&rt, rt.alloc(), "1")?;
    assert!(rt; well);
    Ok(())
}

#[test]
fn two_workers_make_66_000_entries(rt: HostRuntime) -> Result<(), Fail> {
    let well = ends_well(&rt, rt.alloc(), "2")?;
    assert!(rt; well);
    Ok(())
}
