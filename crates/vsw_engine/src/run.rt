//! The run: a trace is read in batches, and the lines of each batch are put before the next is read.

ghost use Rattle.std.specs.Prelude.{◌≡◌, ◌≤◌, ◌<◌, ◌+◌, ◌*◌, ℕ, [], IfOk, length};
ghost use Rattle.vsw_engine.specs.Private.Going.{AnswersFrom, GoesFurther, IsFilled, IsFirst, IsNear, IsOpened, PutsFilled, ReadsNext, unheaded_of};
ghost use Rattle.vsw_engine.specs.Runs.{AnswersTrace};
ghost use Rattle.vsw_host.specs.Outside.{DoesPut, SameInputs};
ghost use Rattle.vsw_reading.specs.Reads.{IsOpen};

use crate::desk::Desk;
use crate::line::write_lines;
use crate::sheet::Sheet;
use std::alloc::Global;
use vsw_host::{Failed, Host, Source, Unopened};
use vsw_offload::Rows;
use vsw_pcap::BadTrace;
use vsw_reading::{HEADER_LEN, Reading, Stop, begin_reading, fill, peek};
use vsw_run::Ending;

/// Records of a batch. The lines of so many are in memory at a time.
const BATCH: u32 = 64;

/// The most records of a trace.
const RECORDS_MOST: u32 = 1_048_576;

/// The first line of what is put.
const HEAD_LINE: &[u8] = b"vsw engine 1\n";

/// Puts a text.
fn put_text<H: Host>(host: &mut H, text: &Sheet) -> Result<(), Failed>
    ensures { DoesPut (H.outside host.old) (H.outside host.new) text.now result }
{
    host.put(text.as_slice())
}

/// Puts the lines of the batch, of which the first packet has this number.
fn put_batch<H: Host>(
    host: &mut H,
    rows: &Rows,
    reading: &Reading,
    desk: &mut Desk,
    first: u32,
    stop: Stop,
) -> Result<(), Ending>
    requires near { IsNear (H.outside host.old) reading.now first stop }
    requires room { length desk.old.out.items ≡ 65700 }
    ensures puts { PutsFilled rows.now (H.outside host.old) reading.now first stop (H.outside host.new) result }
    ensures inputs { SameInputs (H.outside host.old) (H.outside host.new) }
    ensures room { length desk.new.out.items ≡ 65700 }
{
    match write_lines(rows, &reading.batch, first, desk) {
        Ok(()) => match put_text(host, &desk.text) {
            Ok(()) => Ok(()),
            Err(_) => Err(Ending::WriteFault),
        },
        Err(_) => Err(Ending::Memory),
    }
}

/// Reads the batch that begins with this packet, or finds that the trace has more records than it may have.
fn read_next<H: Host>(host: &mut H, reading: &mut Reading, first: u32) -> Result<Stop, Ending>
    requires near { IsOpen (H.outside host.old) reading.old }
    requires few { first ≤ 1048576 }
    requires whole { (k : ℕ) × (first ≡ 64 * k) }
    ensures goes { ReadsNext (H.outside host.old) reading.old first (H.outside host.new) reading.new result }
    ensures near { IfOk result (λ stop. IsNear (H.outside host.new) reading.new first stop) }
{
    reading.batch.clear();
    if first == RECORDS_MOST {
        return match peek(host, reading) {
            Stop::Full => Err(Ending::Records),
            stop => Ok(stop),
        };
    }
    match fill(host, reading, BATCH) {
        Ok(stop) => Ok(stop),
        Err(_) => Err(Ending::Memory),
    }
}

/// Puts the lines of the batch that was read, and reads the next one, or ends the run.
fn run_batch<H: Host>(
    host: &mut H,
    rows: &Rows,
    reading: &mut Reading,
    desk: &mut Desk,
    first: u32,
    stop: Stop,
) -> Result<Stop, Ending>
    requires near { IsNear (H.outside host.old) reading.old first stop }
    requires room { length desk.old.out.items ≡ 65700 }
    ensures goes { GoesFurther rows.now (H.outside host.old) reading.old first stop (H.outside host.new) reading.new result }
    ensures near { IfOk result (λ next. IsNear (H.outside host.new) reading.new (first + 64) next) }
    ensures room { length desk.new.out.items ≡ 65700 }
{
    match put_batch(host, rows, reading, desk, first, stop) {
        Ok(()) => match stop {
            Stop::Full => read_next(host, reading, first + BATCH),
            Stop::End => Err(Ending::Done),
            Stop::Fault => Err(Ending::ReadFault),
            Stop::Bad(bad) => Err(Ending::Trace(bad)),
        },
        Err(end) => Err(end),
    }
}

/// Answers a trace of which the first batch was read.
fn run_batches<H: Host>(
    host: &mut H,
    rows: &Rows,
    reading: &mut Reading,
    desk: &mut Desk,
    stop: Stop,
) -> Ending
    requires near { IsNear (H.outside host.old) reading.old 0 stop }
    requires room { length desk.old.out.items ≡ 65700 }
    ensures answers { AnswersFrom rows.now (λ start name. IsFilled rows.now start (H.outside host.old) name reading.old 0 stop) (H.outside host.new) result }
{
    let mut first = 0;
    let mut stop = stop;
    loop {
        match run_batch(host, rows, reading, desk, first, stop) {
            Ok(next) => {
                first += BATCH;
                stop = next;
            }
            Err(end) => return end,
        }
    }
}

/// How a run ends of whose trace no header was accepted.
fn unheaded(stop: Stop, seen: usize) -> Option<Ending>
    ensures { result ≡ unheaded_of stop seen }
{
    match stop {
        Stop::Fault if seen < HEADER_LEN => Some(Ending::ReadFault),
        Stop::Bad(BadTrace::NotPcap) => Some(Ending::Trace(BadTrace::NotPcap)),
        Stop::Bad(BadTrace::Version) => Some(Ending::Trace(BadTrace::Version)),
        Stop::Bad(BadTrace::LinkType) => Some(Ending::Trace(BadTrace::LinkType)),
        _ => None,
    }
}

/// Puts the head line, once the header was accepted, and then the lines. The first batch was read.
fn run_headed<H: Host>(
    host: &mut H,
    rows: &Rows,
    reading: &mut Reading,
    desk: &mut Desk,
    stop: Stop,
) -> Ending
    requires near { IsNear (H.outside host.old) reading.old 0 stop }
    requires room { length desk.old.out.items ≡ 65700 }
    ensures answers { AnswersFrom rows.now (λ start name. IsFirst start (H.outside host.old) name reading.old stop) (H.outside host.new) result }
{
    match unheaded(stop, reading.seen) {
        None => match host.put(HEAD_LINE) {
            Ok(()) => run_batches(host, rows, reading, desk, stop),
            Err(_) => Ending::WriteFault,
        },
        Some(end) => end,
    }
}

/// Answers a trace that was opened, and of which nothing was read.
fn run_opened<H: Host>(host: &mut H, rows: &Rows, reading: &mut Reading, desk: &mut Desk) -> Ending
    requires near { IsOpen (H.outside host.old) reading.old }
    requires empty { reading.old.batch ≡ [] }
    requires room { length desk.old.out.items ≡ 65700 }
    ensures answers { AnswersFrom rows.now (λ start name. IsOpened start (H.outside host.old) name reading.old) (H.outside host.new) result }
{
    match fill(host, reading, BATCH) {
        Ok(stop) => run_headed(host, rows, reading, desk, stop),
        Err(_) => Ending::Memory,
    }
}

/// Answers the trace of this name from rows: opens it, puts the head line once the trace's header was accepted, and then the lines of
/// batch after batch, or what ends the trace. It waits for nobody.
pub fn answer_trace<H: Host>(alloc: Global, host: &mut H, rows: &Rows, name: &str) -> Ending
    ensures { AnswersTrace rows.now (H.outside host.old) (H.outside host.new) name.now result }
{
    let Ok(mut desk) = Desk::new(alloc) else {
        return Ending::Memory;
    };
    match Source::open(alloc, host, name) {
        Ok(source) => {
            let mut reading = begin_reading(alloc, source);
            run_opened(host, rows, &mut reading, &mut desk)
        }
        Err(Unopened::Fault) => Ending::ReadFault,
        Err(Unopened::Memory) => Ending::Memory,
    }
}
