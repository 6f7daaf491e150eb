//! Frames with one byte spoiled.

use crate::hostile::files::{FORWARD_BY_FOUR, host_of};
use crate::memory::{FORWARD, empty_trace, text_of};
use crate::whole::frames::{QUERY, SENT_QUERY, SENT_REPLY};
use crate::whole::policies::THREE_LAYERS;
use crate::whole::running::{Wrong, add, end, tried};
use std::alloc::{AllocError, Global};
use std::sync::Wait;
use std::thread::Threads;
use std::time::Clock;
use vsw_host::MemoryHost;
use vsw_run::Status;

/// Bytes of the reply's frame, each of which is set to 0x00 in one packet and to 0xff in the next: packets 1 to 188, behind the query.
const BYTES: usize = 94;

/// What becomes of the reply as it is, and of one whose layer 20 finds no pair.
const PASS: &str =
    "pass 44 02000000000102000000009908004500001e00004000401126c20a0000090a000005003504d2000a7e5c6869";

const DEFAULT: &str = "drop default 2/20 in";

/// What becomes of the packets from one number to another; all others leave as the reply does. Worked out by tools/plain_switch.py: in the outer
/// headers most bytes are of no matter, and what is edited or checked of the inner ones is told by all bytes that leave.
const SPOILED: &[(usize, usize, &str)] = &[
    (25, 26, "noport"),
    (28, 28, "noport"),
    (29, 30, "malformed 3 IpVersion"),
    (34, 36, "malformed 4 IpLength"),
    (42, 42, "noport"),
    (44, 44, "noport"),
    (47, 48, "noport"),
    (73, 76, "noport"),
    (78, 80, "malformed 8 UdpLength"),
    (85, 85, "noport"),
    (94, 98, "drop default 3/30 in"),
    (101, 102, "noport"),
    (104, 104, "noport"),
    (106, 106, "noport"),
    (108, 108, "noport"),
    (110, 112, "noport"),
    (
        113,
        113,
        "pass 44 02000000000100000000009908004500001e00004000401126c20a0000090a000005003504d2000a7e5c6869",
    ),
    (
        114,
        114,
        "pass 44 020000000001ff000000009908004500001e00004000401126c20a0000090a000005003504d2000a7e5c6869",
    ),
    (
        116,
        116,
        "pass 44 02000000000102ff0000009908004500001e00004000401126c20a0000090a000005003504d2000a7e5c6869",
    ),
    (
        118,
        118,
        "pass 44 0200000000010200ff00009908004500001e00004000401126c20a0000090a000005003504d2000a7e5c6869",
    ),
    (
        120,
        120,
        "pass 44 020000000001020000ff009908004500001e00004000401126c20a0000090a000005003504d2000a7e5c6869",
    ),
    (
        122,
        122,
        "pass 44 02000000000102000000ff9908004500001e00004000401126c20a0000090a000005003504d2000a7e5c6869",
    ),
    (
        123,
        123,
        "pass 44 02000000000102000000000008004500001e00004000401126c20a0000090a000005003504d2000a7e5c6869",
    ),
    (
        124,
        124,
        "pass 44 0200000000010200000000ff08004500001e00004000401126c20a0000090a000005003504d2000a7e5c6869",
    ),
    (125, 126, DEFAULT),
    (128, 128, DEFAULT),
    (129, 130, "malformed 3 IpVersion"),
    (
        132,
        132,
        "pass 44 020000000001020000000099080045ff001e00004000401126c20a0000090a000005003504d2000a7e5c6869",
    ),
    (134, 136, "malformed 4 IpLength"),
    (
        138,
        138,
        "pass 44 02000000000102000000009908004500001eff004000401126c20a0000090a000005003504d2000a7e5c6869",
    ),
    (
        140,
        140,
        "pass 44 02000000000102000000009908004500001e00ff4000401126c20a0000090a000005003504d2000a7e5c6869",
    ),
    (
        141,
        141,
        "pass 44 02000000000102000000009908004500001e00000000401126c20a0000090a000005003504d2000a7e5c6869",
    ),
    (142, 142, DEFAULT),
    (144, 144, DEFAULT),
    (
        145,
        145,
        "pass 44 02000000000102000000009908004500001e00004000001126c20a0000090a000005003504d2000a7e5c6869",
    ),
    (
        146,
        146,
        "pass 44 02000000000102000000009908004500001e00004000ff1126c20a0000090a000005003504d2000a7e5c6869",
    ),
    (147, 148, DEFAULT),
    (
        149,
        149,
        "pass 44 02000000000102000000009908004500001e000040004011b8c10a0000090a000005003504d2000a7e5c6869",
    ),
    (
        150,
        150,
        "pass 44 02000000000102000000009908004500001e000040004011b7c20a0000090a000005003504d2000a7e5c6869",
    ),
    (
        151,
        151,
        "pass 44 02000000000102000000009908004500001e00004000401126030a0000090a000005003504d2000a7e5c6869",
    ),
    (
        152,
        152,
        "pass 44 02000000000102000000009908004500001e00004000401127020a0000090a000005003504d2000a7e5c6869",
    ),
    (153, 154, DEFAULT),
    (156, 156, DEFAULT),
    (158, 162, DEFAULT),
    (164, 168, DEFAULT),
    (170, 176, DEFAULT),
    (178, 180, "malformed 8 UdpLength"),
    (
        181,
        181,
        "pass 44 02000000000102000000009908004500001e00004000401126c20a0000090a000005003504d2000a505c6869",
    ),
    (
        182,
        182,
        "pass 44 02000000000102000000009908004500001e00004000401126c20a0000090a000005003504d2000a4f5d6869",
    ),
    (
        183,
        183,
        "pass 44 02000000000102000000009908004500001e00004000401126c20a0000090a000005003504d2000a7d716869",
    ),
    (
        184,
        184,
        "pass 44 02000000000102000000009908004500001e00004000401126c20a0000090a000005003504d2000a7e706869",
    ),
    (
        185,
        185,
        "pass 44 02000000000102000000009908004500001e00004000401126c20a0000090a000005003504d2000a7e5c0069",
    ),
    (
        186,
        186,
        "pass 44 02000000000102000000009908004500001e00004000401126c20a0000090a000005003504d2000a7e5cff69",
    ),
    (
        187,
        187,
        "pass 44 02000000000102000000009908004500001e00004000401126c20a0000090a000005003504d2000a7e5c6800",
    ),
    (
        188,
        188,
        "pass 44 02000000000102000000009908004500001e00004000401126c20a0000090a000005003504d2000a7e5c68ff",
    ),
];

fn told_of(packet: usize) -> &'static str {
    for (first, last, told) in SPOILED {
        if *first <= packet && packet <= *last {
            return told;
        }
    }
    PASS
}

/// Whether a packet of which this is told has its line at the port.
fn is_at_port(told: &str) -> bool {
    told.starts_with("pass") || told.starts_with("drop")
}

/// Appends a packet's line to those at the port, or to the loose ones.
fn put_line(
    alloc: Global,
    packet: usize,
    port: &mut Vec<u8>,
    loose: &mut Vec<u8>,
) -> Result<(), AllocError> {
    let told = told_of(packet);
    let number = packet.to_string(alloc)?;
    if is_at_port(told) {
        put(port, &["w0 ", number.as_str(), " @1 ", told, "\n"])
    } else {
        put(loose, &[number.as_str(), " ", told, "\n"])
    }
}

fn put(lines: &mut Vec<u8>, pieces: &[&str]) -> Result<(), AllocError> {
    for piece in pieces {
        lines.extend_from_slice(piece.as_bytes())?;
    }
    Ok(())
}

/// The report of one worker.
fn report(alloc: Global) -> Result<Vec<u8>, AllocError> {
    let (mut port, mut loose) = (Vec::new(alloc), Vec::new(alloc));
    put(
        &mut port,
        &[
            "vsw report 1\nround 0\nport 1 0 1\nw0 0 +0 pass 94 ",
            SENT_QUERY,
            "\n",
        ],
    )?;
    put(&mut loose, &["loose\n"])?;
    for packet in 1..=2 * BYTES {
        put_line(alloc, packet, &mut port, &mut loose)?;
    }
    port.extend_from_slice(&loose)?;
    Ok(port)
}

/// Appends the reply with its byte at this place set to a value.
fn add_spoiled(
    trace: &mut Vec<u8>,
    reply: &[u8],
    at: usize,
    value: u8,
    spoiled: &mut Vec<u8>,
) -> Option<()> {
    spoiled.clear();
    spoiled.extend_from_slice(reply).ok()?;
    *spoiled.get_mut(at)? = value;
    add(trace, 0, spoiled, 0)
}

/// The query, and behind it all spoiled replies.
fn trace(alloc: Global) -> Option<Vec<u8>> {
    let mut trace = empty_trace(alloc).ok()?;
    add(
        &mut trace,
        0,
        &hex::decode(alloc, QUERY.as_bytes()).ok()?,
        0,
    )?;
    let reply = hex::decode(alloc, SENT_REPLY.as_bytes()).ok()?;
    let mut spoiled = Vec::new(alloc);
    for at in 0..BYTES {
        add_spoiled(&mut trace, &reply, at, 0x00, &mut spoiled)?;
        add_spoiled(&mut trace, &reply, at, 0xff, &mut spoiled)?;
    }
    Some(trace)
}

fn host(alloc: Global) -> Option<MemoryHost> {
    let policy = text_of(alloc, THREE_LAYERS).ok()?;
    host_of(alloc, &policy, &[], &trace(alloc)?, &[])
}

#[test]
fn any_byte_of_a_reply_may_be_spoiled(rt: HostRuntime) -> Result<(), Wrong> {
    let Ok(report) = report(rt.alloc()) else {
        return Err(Wrong::Start);
    };
    let Ok(text) = std::str::from_utf8(&report) else {
        return Err(Wrong::Start);
    };
    tried(
        &rt,
        rt.alloc(),
        FORWARD,
        host(rt.alloc()),
        Status::Done,
        &[text],
        "",
    )
}

/// Lines of the report: the head, the round, the port and the word `loose`, and one for each packet.
const LINES: usize = 4 + 1 + 2 * BYTES;

fn count_lines(text: &[u8]) -> usize {
    let mut count: usize = 0;
    for byte in text {
        if *byte == b'\n' {
            count = count.saturating_add(1);
        }
    }
    count
}

/// Runs by four workers, and counts the lines.
fn check_lines<R: Threads + Wait + Clock + Sync>(
    rt: &R,
    alloc: Global,
    host: &mut MemoryHost,
) -> Result<(), Wrong> {
    end(rt, alloc, FORWARD_BY_FOUR, host, Status::Done, "")?;
    if count_lines(host.written()) == LINES {
        Ok(())
    } else {
        Err(Wrong::Report)
    }
}

#[test]
fn each_spoiled_packet_of_four_workers_has_a_line(rt: HostRuntime) -> Result<(), Wrong> {
    match host(rt.alloc()) {
        Some(mut host) => check_lines(&rt, rt.alloc(), &mut host),
        None => Err(Wrong::Start),
    }
}
