//! The lines of a batch, in a room that lives on.

ghost use Rattle.std.specs.Prelude.{◌≡◌, ◌≤◌, ◌+◌, ◌*◌, ◌++◌, ℕ, [], OnOk, IfOk, IfSome, codes, decimal, length, take};
ghost use Rattle.vsw_engine.specs.Private.Lines.{front_text, pass_text};

use crate::text::pass_before;
use std::alloc::Global;
use std::marker::Model;
use vsw_base::NoMemory;
use vsw_report::{put, put_hex, put_piece};

/// Bytes of the front of a pass, up to its bytes, and some.
const FRONT_LEN: usize = 64;

/// A text that grows line by line. What stands behind it in its room is left over, and written over by the next line, so
/// that a room that is large enough is never cleared.
#[derive(Drop)]
pub(crate) struct Sheet {
    room: Vec<u8>,
    len: usize,
}

impl Model for Sheet {
    ghost use Rattle.std.specs.Prelude.{ℕ, List, ◌≤◌, length, take};

    ghost Value = { List ℕ };

    ghost invariant = { λ s. s.len ≤ length s.room.items };

    ghost view = { λ s. take s.len s.room.items };
}

/// Where a text ends that is so much longer.
fn end_of(len: usize, more: usize) -> Option<usize>
    ensures { IfSome result (λ end. end ≡ len + more) }
{
    len.checked_add(more)
}

/// Where a text ends at most that gets the line of a pass with so many bytes.
fn end_of_pass(len: usize, bytes: usize) -> Option<usize>
    ensures { IfSome result (λ end. end ≡ len + (128 + 2 * bytes)) }
{
    len.checked_add(bytes.checked_mul(2)?.checked_add(2 * FRONT_LEN)?)
}

/// Makes a room longer, to twice the length that is wanted.
fn lengthen(room: &mut Vec<u8>, end: usize) -> Result<(), NoMemory>
    ensures long { OnOk result (end ≤ length room.new.items) }
    ensures kept { (k : ℕ) → k ≤ length room.old.items → take k room.new.items ≡ take k room.old.items }
    ensures whole { length room.old.items ≤ length room.new.items }
{
    if end <= room.len() {
        return Ok(());
    }
    let Some(twice) = end.checked_mul(2) else {
        return Err(NoMemory);
    };
    match room.resize(twice, 0) {
        Ok(()) => Ok(()),
        Err(_) => Err(NoMemory),
    }
}

/// Writes the line of a pass up to its bytes.
#[inline(always)]
#[tactic(auto, using(vsw_report::proofs::Pieces::piece_is))]
fn put_front(page: &mut [u8], at: usize, packet: u32, port: u32, len: u32) -> usize
    requires { at + 64 ≤ length page.old }
    ensures end { result ≤ at + 64 }
    ensures written { take result page.new ≡ take at page.old ++ front_text packet port ++ codes "pass " ++ decimal len ++ codes " " }
{
    let mut room = [0u8; 128];
    let start = pass_before(&mut room, FRONT_LEN, packet, port, len);
    put_piece(page, at, &room, start, FRONT_LEN)
}

/// Writes the line of a pass.
fn put_pass(page: &mut [u8], at: usize, packet: u32, port: u32, len: u32, bytes: &[u8]) -> usize
    requires { at + (128 + 2 * length bytes.now) ≤ length page.old }
    ensures end { result ≤ length page.old }
    ensures written { take result page.new ≡ take at page.old ++ pass_text packet port len bytes.now }
{
    let at = put_front(page, at, packet, port, len);
    let at = put_hex(page, at, bytes);
    put(page, at, b"\n")
}

/// Adds bytes to the text that is the first `len` bytes of a room, and answers where it ends.
fn add(room: &mut Vec<u8>, len: usize, bytes: &[u8]) -> Result<usize, NoMemory>
    requires { len ≤ length room.old.items }
    ensures ok { IfOk result (λ end. take end room.new.items ≡ take len room.old.items ++ bytes.now) }
    ensures end { IfOk result (λ end. end ≤ length room.new.items) }
    ensures whole { length room.old.items ≤ length room.new.items }
{
    let Some(end) = end_of(len, bytes.len()) else {
        return Err(NoMemory);
    };
    lengthen(room, end)?;
    Ok(put(room.as_mut_slice(), len, bytes))
}

/// Adds the line of a pass.
fn add_pass(
    room: &mut Vec<u8>,
    len: usize,
    packet: u32,
    port: u32,
    count: u32,
    bytes: &[u8],
) -> Result<usize, NoMemory>
    requires { len ≤ length room.old.items }
    ensures ok { IfOk result (λ end. take end room.new.items ≡ take len room.old.items ++ pass_text packet port count bytes.now) }
    ensures end { IfOk result (λ end. end ≤ length room.new.items) }
    ensures whole { length room.old.items ≤ length room.new.items }
{
    let Some(end) = end_of_pass(len, bytes.len()) else {
        return Err(NoMemory);
    };
    lengthen(room, end)?;
    Ok(put_pass(room.as_mut_slice(), len, packet, port, count, bytes))
}

impl Sheet {
    /// A text with no lines, which takes no memory.
    pub fn new(alloc: Global) -> Sheet
        ensures { result ≡ [] }
    {
        Sheet {
            room: Vec::new(alloc),
            len: 0,
        }
    }

    /// No lines again. The room stays.
    pub fn clear(&mut self)
        ensures { self.new ≡ [] }
    {
        self.len = 0;
    }

    /// The text.
    pub fn as_slice(&self) -> &[u8]
        ensures { result.now ≡ self.now }
    {
        &self.room[..self.len]
    }

    /// Appends bytes.
    pub fn word(&mut self, bytes: &[u8]) -> Result<(), NoMemory>
        ensures { OnOk result (self.new ≡ self.old ++ bytes.now) }
    {
        self.len = add(&mut self.room, self.len, bytes)?;
        Ok(())
    }

    /// Appends the line of a pass with so many bytes.
    pub fn pass(&mut self, packet: u32, port: u32, len: u32, bytes: &[u8]) -> Result<(), NoMemory>
        ensures { OnOk result (self.new ≡ self.old ++ pass_text packet port len bytes.now) }
    {
        self.len = add_pass(&mut self.room, self.len, packet, port, len, bytes)?;
        Ok(())
    }
}
