//! Packets that are handed on between two ports by many workers. The ports have no layers, so no packet is an entry, and a report has each worker's lines in its order.

use crate::workers::flows::{PACKETS, flow_of, sent, worker_of};
use crate::workers::running::{files, flows, report_by};
use std::alloc::Global;
use std::process::Abort;
use std::sync::Wait;
use std::test::Fail;
use std::thread::Threads;
use std::time::Clock;
use vsw_app::Open;

/// Port 1, and port 2 of the address that all packets go to.
const TWO_PORTS: &[&str] = &[
    r#"{"version":1,"controllers":[1],"ports":[{"port":1,"mac":"02:00:00:00:00:01","rows":64,"layers":[]},"#,
    r#"{"port":2,"mac":"02:00:00:00:00:99","rows":64,"layers":[]}]}"#,
];

/// Appends the line of a packet that leaves as it came.
fn add_line(alloc: Global, report: &mut Vec<u8>, worker: u32, packet: u32) -> Result<(), Fail> {
    let bytes = sent(alloc, flow_of(packet))?;
    let text = hex::encode(alloc, bytes.as_slice())?;
    let line = format!(in alloc; "w{worker} {packet} @0 pass 44 {text}\n")?;
    report.extend_from_slice(line.as_bytes())?;
    Ok(())
}

/// Appends the lines of a worker, one for each of its packets.
fn add_worker(alloc: Global, report: &mut Vec<u8>, worker: u32, workers: u32) -> Result<(), Fail> {
    for packet in 0..PACKETS {
        if worker_of(flow_of(packet), workers) == worker {
            add_line(alloc, report, worker, packet)?;
        }
    }
    Ok(())
}

/// Appends the lines of a port.
fn add_port(alloc: Global, report: &mut Vec<u8>, head: &[u8], workers: u32) -> Result<(), Fail> {
    report.extend_from_slice(head)?;
    for worker in 0..workers {
        add_worker(alloc, report, worker, workers)?;
    }
    Ok(())
}

/// The report of a run in which each packet has a line at both ports.
fn wanted(alloc: Global, workers: u32) -> Result<Vec<u8>, Fail> {
    let mut report = Vec::new(alloc);
    add_port(
        alloc,
        &mut report,
        b"vsw report 1\nround 0\nport 1 0 0\n",
        workers,
    )?;
    add_port(alloc, &mut report, b"port 2 0 0\n", workers)?;
    report.extend_from_slice(b"loose\n")?;
    Ok(report)
}

fn check<R: Abort + Threads + Wait + Clock + Sync>(
    rt: &R,
    alloc: Global,
    name: &str,
    workers: u32,
) -> Result<(), Fail> {
    let held = files(alloc, TWO_PORTS, "", flows(alloc)?)?;
    let report = report_by(rt, alloc, "deliver", name, held, 262_144, &Open)?;
    assert!(rt; report == wanted(alloc, workers)?, "{name} workers");
    Ok(())
}

#[test]
fn each_packet_has_a_line_at_both_ports_by_one_worker(rt: HostRuntime) -> Result<(), Fail> {
    for (name, workers) in [("1", 1), ("2", 2), ("16", 16)] {
        check(&rt, rt.alloc(), name, workers)?;
    }
    Ok(())
}
