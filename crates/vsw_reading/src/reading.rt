//! A trace that is read in pieces, and the records of which the next ones are in its batch.

ghost use Rattle.std.specs.Prelude.{◌≡◌, ◌<◌, ℕ, List, [], length, Some, None, OnOk, OnErr, false, nat_lt, if◌then◌else◌};
ghost use Rattle.vsw_host.specs.Outside.{Outside, SameOutputs};
ghost use Rattle.vsw_host.specs.Source.{IsReading};
ghost use Rattle.vsw_pcap.specs.declared.capture.Record.{Record};
ghost use Rattle.vsw_reading.specs.declared.reading.Stop.TheVariants.{Full};
ghost use Rattle.vsw_reading.specs.Reads.{IsRead, IsOpen, Holds, HasGrown, Fills, Peeks};
ghost use Rattle.vsw_reading.specs.Private.Steps.{ReadsBehind, Counts, TakesPiece, Steps};

use std::alloc::Global;
use vsw_base::NoMemory;
use vsw_host::{Failed, Host, Source};
use vsw_pcap::{BadTrace, Batch, Found, Reader};

/// Bytes of a capture's header.
pub const HEADER_LEN: usize = 24;

/// The most bytes of a piece.
const PIECE: usize = 65_536;

/// Why no further record is read.
#[derive(Clone, Copy)]
pub enum Stop {
    /// The batch holds as many as were asked for.
    Full,
    /// The trace ended after its last record.
    End,
    /// The host couldn't read.
    Fault,
    /// The trace is refused.
    Bad(BadTrace),
}

/// A trace that is read in pieces, and the records that were read last.
#[derive(Drop)]
pub struct Reading {
    pub source: Source,
    pub reader: Reader,
    pub batch: Batch,
    /// Bytes that were read, counted up to those of a header.
    pub seen: usize,
}

/// A trace of which nothing was read.
pub fn begin_reading(alloc: Global, mut source: Source) -> Reading
    ensures read { (start now : Outside) (name : List ℕ) → IsReading start now name source.file [] → IsRead start now name result [] [] }
    ensures batch { result.batch ≡ [] }
{
    let room = source.take_room(alloc);
    Reading {
        source,
        reader: Reader::in_room(alloc, room),
        batch: Batch::new(alloc),
        seen: 0,
    }
}

/// Reads the next piece behind the bytes that the reader has in hand. Answers how many bytes came.
fn read_behind<H: Host>(
    host: &mut H,
    source: &Source,
    reader: &mut Reader,
) -> Result<Result<usize, Failed>, NoMemory>
    requires open { source.now.file < (H.outside host.old).opens }
    ensures reads { ReadsBehind (H.outside host.old) (H.outside host.new) source.now.file reader.old reader.new result }
    ensures outputs { SameOutputs (H.outside host.old) (H.outside host.new) }
{
    let len = reader.left();
    let mut room = reader.lend(PIECE)?;
    match source.next(host, &mut room[len..len + PIECE]) {
        Ok(count) => {
            reader.take_back(room, len + count);
            Ok(Ok(count))
        }
        Err(failed) => {
            reader.take_back(room, len);
            Ok(Err(failed))
        }
    }
}

/// Counts the bytes of a piece, or tells the reader of the end, where the piece is empty.
fn count_piece(reading: &mut Reading, count: usize)
    requires unfinished { reading.old.reader.finished ≡ false }
    ensures counts { Counts reading.old reading.new count }
    ensures source { reading.new.source ≡ reading.old.source }
    ensures batch { reading.new.batch ≡ reading.old.batch }
{
    if count == 0 {
        reading.reader.finish();
        return;
    }
    reading.seen = HEADER_LEN.min(reading.seen.saturating_add(count));
}

/// Reads the next piece, where the bytes in hand don't tell what follows. Answers whether the host could.
fn read_piece<H: Host>(host: &mut H, reading: &mut Reading) -> Result<bool, NoMemory>
    requires near { IsOpen (H.outside host.old) reading.old }
    requires unfinished { reading.old.reader.finished ≡ false }
    ensures takes { (start : Outside) (name : List ℕ) (bytes : List ℕ) (records : List Record) → IsRead start (H.outside host.old) name reading.old bytes records → TakesPiece start (H.outside host.new) name reading.new bytes records result }
    ensures batch { reading.new.batch ≡ reading.old.batch }
    ensures outputs { SameOutputs (H.outside host.old) (H.outside host.new) }
{
    match read_behind(host, &reading.source, &mut reading.reader) {
        Ok(Ok(count)) => {
            count_piece(reading, count);
            Ok(true)
        }
        Ok(Err(_)) => Ok(false),
        Err(_) => Err(NoMemory),
    }
}

/// Why a batch of so many records takes no further one, if it doesn't.
fn full(held: usize, most: u32) -> Option<Stop>
    ensures { result ≡ if nat_lt held most then None else Some Full }
{
    if held < most as usize {
        None
    } else {
        Some(Stop::Full)
    }
}

/// Reads the next record into the batch, or the next piece. Answers why it stops, if it does.
fn step<H: Host>(host: &mut H, reading: &mut Reading, most: u32) -> Result<Option<Stop>, NoMemory>
    requires near { IsOpen (H.outside host.old) reading.old }
    requires room { length reading.old.batch < most }
    ensures steps { (start : Outside) (name : List ℕ) (given : List Record) → Holds start (H.outside host.old) name reading.old given → Steps start (H.outside host.new) name reading.new given most result }
    ensures grown { HasGrown reading.old.batch reading.new.batch }
    ensures outputs { SameOutputs (H.outside host.old) (H.outside host.new) }
{
    match reading.reader.read_into(&mut reading.batch) {
        Ok(Found::Record) => Ok(full(reading.batch.len(), most)),
        Ok(Found::More) => match read_piece(host, reading) {
            Ok(true) => Ok(None),
            Ok(false) => Ok(Some(Stop::Fault)),
            Err(_) => Err(NoMemory),
        },
        Ok(Found::End) => Ok(Some(Stop::End)),
        Ok(Found::Bad(bad)) => Ok(Some(Stop::Bad(bad))),
        Err(_) => Err(NoMemory),
    }
}

/// Reads records into the batch, behind those that it holds, until it holds so many, or the trace stops.
pub fn fill<H: Host>(host: &mut H, reading: &mut Reading, most: u32) -> Result<Stop, NoMemory>
    requires near { IsOpen (H.outside host.old) reading.old }
    requires room { length reading.old.batch < most }
    ensures fills { (start : Outside) (name : List ℕ) (given : List Record) → Holds start (H.outside host.old) name reading.old given → Fills start (H.outside host.new) name reading.new given most result }
    ensures grown { HasGrown reading.old.batch reading.new.batch }
    ensures outputs { SameOutputs (H.outside host.old) (H.outside host.new) }
{
    for _ in 0..u64::MAX {
        match step(host, reading, most) {
            Ok(None) => {}
            Ok(Some(stop)) => return Ok(stop),
            Err(_) => return Err(NoMemory),
        }
    }
    Err(NoMemory)
}

/// What follows the last record that a trace may have: a byte, in hand or behind what was read, or why there is none.
pub fn peek<H: Host>(host: &mut H, reading: &mut Reading) -> Stop
    requires near { IsOpen (H.outside host.old) reading.old }
    ensures peeks { (start : Outside) (name : List ℕ) (bytes : List ℕ) (records : List Record) → IsRead start (H.outside host.old) name reading.old bytes records → Peeks start (H.outside host.new) name reading.new bytes result }
    ensures reader { reading.new.reader ≡ reading.old.reader }
    ensures batch { reading.new.batch ≡ reading.old.batch }
    ensures outputs { SameOutputs (H.outside host.old) (H.outside host.new) }
{
    if reading.reader.left() > 0 {
        return Stop::Full;
    }
    let mut byte = [0; 1];
    match reading.source.next(host, &mut byte) {
        Err(_) => Stop::Fault,
        Ok(0) => Stop::End,
        Ok(_) => Stop::Full,
    }
}
