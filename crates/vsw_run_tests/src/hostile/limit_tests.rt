//! Packets as long as they may be, and one byte longer.

use crate::hostile::files::{Ending, WrongAt, ends, host_of};
use crate::memory::{FORWARD, empty_trace, text_of};
use crate::whole::policies::THREE_LAYERS;
use std::alloc::{AllocError, Global};
use vsw_host::MemoryHost;
use vsw_run::Status;

const NO_PORT: &[&str] = &["vsw report 1\nround 0\nport 1 0 0\nloose\n0 noport\n"];

const TOO_LONG: &[&str] = &["vsw report 1\nround 0\nport 1 0 0\nloose\n0 malformed 9 TooLong\n"];

const HEAD: &[&str] = &["vsw report 1\n"];

const HUGE: &str = "vsw: refused trace Huge 24\n";

/// A packet's bytes, and how a run over it alone ends: a frame has at most 65,600, a record 262,144. All are 0, so the packet is of no port.
const LENGTHS: [(u32, Ending); 4] = [
    (65_600, (Status::Done, NO_PORT, "")),
    (65_601, (Status::Done, TOO_LONG, "")),
    (262_144, (Status::Done, TOO_LONG, "")),
    (262_145, (Status::Refused, HEAD, HUGE)),
];

fn zeros(alloc: Global, count: usize) -> Result<Vec<u8>, AllocError> {
    vec![in alloc; 0; count]
}

/// A trace of one packet of so many zeros.
fn trace_of(alloc: Global, len: u32) -> Option<Vec<u8>> {
    let mut trace = empty_trace(alloc).ok()?;
    for word in [0, 0, len, len] {
        trace.extend_from_slice(&word.to_le_bytes()).ok()?;
    }
    let packet = zeros(alloc, usize::try_from(len).ok()?).ok()?;
    trace.extend_from_slice(&packet).ok()?;
    Some(trace)
}

/// A host of this trace, without commands.
fn host_over(alloc: Global, len: u32) -> Option<MemoryHost> {
    let policy = text_of(alloc, THREE_LAYERS).ok()?;
    host_of(alloc, &policy, &[], &trace_of(alloc, len)?, &[])
}

#[test]
fn a_packet_may_be_as_long_as_its_limits(rt: HostRuntime) -> Result<(), WrongAt> {
    for (place, (len, wanted)) in LENGTHS.into_iter().enumerate() {
        let host = host_over(rt.alloc(), len);
        if !ends(&rt, rt.alloc(), FORWARD, host, wanted) {
            return Err(WrongAt::Place(place));
        }
    }
    Ok(())
}
