//! The reader of a capture that comes in pieces.

ghost use Rattle.std.specs.Prelude.{◌≡◌, ◌≤◌, ◌<◌, ◌^◌, ◌+◌, ◌-◌, nat_lt, ℕ, List, length, take, drop, ◌++◌, [], false, true, Some, Ok, OnOk, OnErr, IfOk};
ghost use Rattle.vsw_pcap.specs.Capture.{front_of};
ghost use Rattle.vsw_pcap.specs.Reader.{start_of, pause_of, answer_at, after_at, next_of, after_next, unfed, fed_with, finished_at, BeginsIn, Moves, Stands, Tells};
ghost use Rattle.vsw_pcap.specs.Batch.{found_of, with_next, MovesTo, ReadsInto};
ghost use Rattle.vsw_pcap.specs.declared.capture.Record.{Record};
ghost use Rattle.vsw_pcap.specs.declared.fault.BadTrace.{BadTrace};

use crate::batch::{Batch, Found};
use crate::capture::{
    Form, Front, HEADER_LEN, RECORD_LEN, Record, copy_record, read_front, read_header, read_record,
};
use crate::fault::BadTrace;
use std::alloc::Global;
use std::marker::Model;
use std::mem::replace;
use vsw_base::NoMemory;

/// What a reader finds next.
#[derive(Drop)]
pub enum Next {
    Record(Record),
    /// The bytes in hand don't tell; more may follow.
    More,
    /// The capture ended after its last record.
    End,
    /// The capture is refused. Each later answer is the same.
    Bad(BadTrace),
}

/// Where the next record begins.
enum Start {
    /// After so many bytes of header, in a capture of this form.
    Records(Form, usize),
    /// The header isn't whole yet.
    Unknown,
    /// The header was refused.
    Refused(BadTrace),
}

/// A reader of a capture, which takes the capture's bytes in pieces of any lengths.
///
/// A piece is read by its caller right behind the bytes in hand, in the reader's own room (`lend`, `take_back`), or copied there
/// (`feed`). The bytes in hand are first moved to the room's front: where a piece comes only after the answer More, they are less than
/// one record.
#[derive(Drop)]
pub struct Reader {
    alloc: Global,
    /// The room. The bytes that came are its first `filled`; what stands behind them is left over.
    room: Vec<u8>,
    filled: usize,
    /// Bytes of the room that are consumed.
    from: usize,
    /// Bytes of the capture that are consumed.
    at: u64,
    /// The form, once a record was given.
    form: Option<Form>,
    finished: bool,
}

impl Model for Reader {
    ghost use Rattle.std.specs.Prelude.{◌<◌, ◌≤◌, ◌+◌, ◌^◌, length, take, drop};
    ghost use Rattle.vsw_pcap.specs.Progress.{Progress};

    ghost Value = { Progress };

    ghost view = { λ r. record { form = r.form; at = r.at; left = drop r.from (take r.filled r.room.items); finished = r.finished } };

    ghost invariant = { λ r. (r.from ≤ r.filled) × (r.filled ≤ length r.room.items) × (r.at + length (drop r.from (take r.filled r.room.items)) < 2 ^ 64) };
}

/// Moves the bytes from one place up to another to the front.
fn move_front(room: &mut Vec<u8>, from: usize, end: usize)
    requires order { from ≤ end }
    requires within { end ≤ length room.old.items }
    ensures moved { take (end - from) room.new.items ≡ drop from (take end room.old.items) }
    ensures whole { length room.new.items ≡ length room.old.items }
{
    if from == 0 {
        return;
    }
    room.copy_within(from..end, 0);
}

/// Makes a room longer, to twice the length that is wanted.
fn lengthen(room: &mut Vec<u8>, end: usize) -> Result<(), NoMemory>
    ensures long { OnOk result (end ≤ length room.new.items) }
    ensures kept { (k : ℕ) → k ≤ length room.old.items → take k room.new.items ≡ take k room.old.items }
    ensures whole { length room.old.items ≤ length room.new.items }
{
    if end <= room.len() {
        return Ok(());
    }
    match room.resize(end.saturating_mul(2), 0) {
        Ok(()) => Ok(()),
        Err(_) => Err(NoMemory),
    }
}

/// Whether the place after so many bytes more can be told.
fn has_place(at: u64, more: usize) -> bool
    ensures { result ≡ nat_lt (at + more) (2 ^ 64) }
{
    at.checked_add(more as u64).is_some()
}

/// The answer where no whole record stands at the front of these bytes, which begin at byte `at`.
fn pause(at: u64, left: &[u8], finished: bool) -> Next
    ensures { result ≡ pause_of at left.now finished }
{
    if !finished {
        Next::More
    } else if left.is_empty() {
        Next::End
    } else {
        Next::Bad(BadTrace::Cut { at })
    }
}

/// What is found where the reader answers this.
fn found(answer: &Next) -> Found
    ensures { result ≡ found_of answer.now }
{
    match answer {
        Next::Record(_) => Found::Record,
        Next::More => Found::More,
        Next::End => Found::End,
        Next::Bad(bad) => Found::Bad(*bad),
    }
}

impl Reader {
    /// A reader that was fed nothing.
    pub fn new(alloc: Global) -> Reader
        ensures value { result ≡ unfed }
        ensures stands { Stands result [] [] }
    {
        Reader::in_room(alloc, Vec::new(alloc))
    }

    /// A reader that was fed nothing, and whose room is this one.
    pub fn in_room(alloc: Global, room: Vec<u8>) -> Reader
        ensures value { result ≡ unfed }
        ensures stands { Stands result [] [] }
    {
        Reader {
            alloc,
            room,
            filled: 0,
            from: 0,
            at: 0,
            form: None,
            finished: false,
        }
    }

    /// Lends its room, of which the first bytes are those in hand, and behind them are at least so many more. Until bytes are taken
    /// back it holds none. Bytes past 2^64 count as want of memory.
    pub fn lend(&mut self, more: usize) -> Result<Vec<u8>, NoMemory>
        ensures bytes { IfOk result (λ room. take (length self.old.left) room.items ≡ self.old.left) }
        ensures long { IfOk result (λ room. length self.old.left + more ≤ length room.items) }
        ensures place { OnOk result (self.old.at + (length self.old.left + more) < 2 ^ 64) }
        ensures ok { OnOk result (self.new ≡ record self.old { left = [] }) }
        ensures err { OnErr result (self.new ≡ self.old) }
    {
        let len = self.left();
        if !has_place(self.at + len as u64, more) {
            return Err(NoMemory);
        }
        lengthen(&mut self.room, len + more)?;
        move_front(&mut self.room, self.from, self.filled);
        self.from = 0;
        self.filled = 0;
        Ok(replace(&mut self.room, Vec::new(self.alloc)))
    }

    /// Takes a room, of which the first so many bytes are from now on those in hand.
    pub fn take_back(&mut self, room: Vec<u8>, len: usize)
        requires within { len ≤ length room.items }
        requires place { self.old.at + len < 2 ^ 64 }
        ensures { self.new ≡ record self.old { left = take len room.items } }
    {
        self.room = room;
        self.from = 0;
        self.filled = len;
    }

    /// Takes the next bytes of the capture, and copies them. Bytes past 2^64 count as want of memory.
    pub fn feed(&mut self, piece: &[u8]) -> Result<(), NoMemory>
        requires open { self.old.finished ≡ false }
        ensures ok { OnOk result (self.new ≡ fed_with piece.now self.old) }
        ensures err { OnErr result (self.new ≡ self.old) }

        // The same in the words of the bytes fed and the records given.
        ensures stands { OnOk result ((bytes : List ℕ) (records : List Record) → Stands self.old bytes records → Stands self.new (bytes ++ piece.now) records) }

        // A refused capture stays refused.
        ensures refused { OnOk result ((bad : BadTrace) → next_of self.old ≡ Next.Bad bad → next_of self.new ≡ Next.Bad bad) }
    {
        self.copy_in(piece)
    }

    /// Copies a piece behind the bytes in hand.
    fn copy_in(&mut self, piece: &[u8]) -> Result<(), NoMemory>
        ensures ok { OnOk result (self.new ≡ fed_with piece.now self.old) }
        ensures err { OnErr result (self.new ≡ self.old) }
    {
        let len = self.left();
        let end = len.saturating_add(piece.len());
        let mut room = self.lend(piece.len())?;
        room[len..end].copy_from_slice(piece);
        self.take_back(room, end);
        Ok(())
    }

    /// Says that no byte follows.
    pub fn finish(&mut self)
        ensures value { self.new ≡ finished_at self.old }
        ensures stands { (bytes : List ℕ) (records : List Record) → Stands self.old bytes records → Stands self.new bytes records }
        ensures refused { (bad : BadTrace) → next_of self.old ≡ Next.Bad bad → next_of self.new ≡ Next.Bad bad }
    {
        self.finished = true;
    }

    /// What stands next in the capture. Where there is no memory for a record, nothing changes, and
    /// the next call tries again.
    pub fn next(&mut self) -> Result<Next, NoMemory>
        ensures answer { IfOk result (λ answer. answer ≡ next_of self.old) }
        ensures after { OnOk result (self.new ≡ after_next self.old) }
        ensures err { OnErr result (self.new ≡ self.old) }

        // The same in the words of the bytes fed and the records given.
        ensures moves { IfOk result (λ answer. Moves self.old self.new answer) }
        ensures tells { IfOk result (λ answer. (bytes : List ℕ) (records : List Record) → Stands self.old bytes records → Tells self.new bytes records answer) }
    {
        self.take_next()
    }

    /// Reads the next record into a batch, behind those that it holds. Where there is no memory for it, nothing
    /// changes, and the next call tries again.
    pub fn read_into(&mut self, batch: &mut Batch) -> Result<Found, NoMemory>
        ensures found { IfOk result (λ found. found ≡ found_of (next_of self.old)) }
        ensures after { OnOk result (self.new ≡ after_next self.old) }
        ensures batch { OnOk result (batch.new ≡ with_next (next_of self.old) batch.old) }
        ensures err { OnErr result (self.new ≡ self.old) }
        ensures same { OnErr result (batch.new ≡ batch.old) }

        // The same in the words of the bytes fed and the records given.
        ensures moves { IfOk result (λ found. MovesTo self.old self.new found) }
        ensures finished { self.new.finished ≡ self.old.finished }
        ensures reads { IfOk result (λ found. (bytes : List ℕ) (records : List Record) → Stands self.old bytes records → ReadsInto self.new bytes records batch.old batch.new found) }
    {
        self.take_into(batch)
    }

    /// Bytes in hand that no record has taken.
    pub fn left(&self) -> usize
        ensures { result ≡ length self.now.left }
    {
        self.filled - self.from
    }

    /// The bytes in hand that no record has taken.
    fn in_hand(&self) -> &[u8]
        ensures { result.now ≡ self.now.left }
    {
        &self.room[..self.filled][self.from..]
    }

    /// The byte of the capture that stands after so many of those in hand.
    fn place(&self, header: usize) -> u64
        requires { header ≤ length self.now.left }
        ensures { result ≡ self.now.at + header }
    {
        self.at + header as u64
    }

    /// Takes a record's bytes off those in hand, with what stands before it.
    fn consume(&mut self, form: Form, len: usize)
        requires { len ≤ length self.old.left }
        ensures { self.new ≡ record self.old { form = Some form; at = self.old.at + len; left = drop len self.old.left } }
    {
        self.form = Some(form);
        self.from += len;
        self.at += len as u64;
    }

    /// Where the next record begins.
    fn start(&self) -> Start
        ensures value { result ≡ start_of self.now }
        ensures within { BeginsIn result (length self.now.left) }
    {
        if let Some(form) = self.form {
            return Start::Records(form, 0);
        }
        let left = self.in_hand();
        if left.len() < HEADER_LEN && !self.finished {
            return Start::Unknown;
        }
        match read_header(left) {
            Ok(form) => Start::Records(form, HEADER_LEN),
            Err(bad) => Start::Refused(bad),
        }
    }

    /// The next answer, by where the next record begins.
    #[tactic(auto, unfolding(crate::specs::Reader::next_of, crate::specs::Reader::after_next))]
    fn take_next(&mut self) -> Result<Next, NoMemory>
        ensures answer { IfOk result (λ answer. answer ≡ next_of self.old) }
        ensures after { OnOk result (self.new ≡ after_next self.old) }
        ensures err { OnErr result (self.new ≡ self.old) }
    {
        match self.start() {
            Start::Records(form, header) => self.take_front(form, header),
            Start::Unknown => Ok(Next::More),
            Start::Refused(bad) => Ok(Next::Bad(bad)),
        }
    }

    /// The next answer, by what stands at the front after so many bytes of header.
    fn take_front(&mut self, form: Form, header: usize) -> Result<Next, NoMemory>
        requires { header ≤ length self.old.left }
        ensures answer { IfOk result (λ answer. answer ≡ answer_at (front_of form (drop header self.old.left)) form (self.old.at + header) (drop header self.old.left) self.old.finished) }
        ensures after { OnOk result (self.new ≡ after_at (front_of form (drop header self.old.left)) form header self.old) }
        ensures err { OnErr result (self.new ≡ self.old) }
    {
        let left = &self.in_hand()[header..];
        let at = self.place(header);
        match read_front(form, left) {
            Front::Whole(captured) => {
                let record = read_record(self.alloc, form, left, captured)?;
                self.consume(form, header + RECORD_LEN + captured);
                Ok(Next::Record(record))
            }
            Front::Oversize => Ok(Next::Bad(BadTrace::Huge { at })),
            Front::Part => Ok(pause(at, left, self.finished)),
        }
    }

    /// The next answer, by where the next record begins, which goes into a batch.
    #[tactic(auto, unfolding(crate::specs::Reader::next_of, crate::specs::Reader::after_next))]
    fn take_into(&mut self, batch: &mut Batch) -> Result<Found, NoMemory>
        ensures found { IfOk result (λ found. found ≡ found_of (next_of self.old)) }
        ensures after { OnOk result (self.new ≡ after_next self.old) }
        ensures batch { OnOk result (batch.new ≡ with_next (next_of self.old) batch.old) }
        ensures err { OnErr result (self.new ≡ self.old) }
        ensures same { OnErr result (batch.new ≡ batch.old) }
    {
        match self.start() {
            Start::Records(form, header) => self.front_into(form, header, batch),
            Start::Unknown => Ok(Found::More),
            Start::Refused(bad) => Ok(Found::Bad(bad)),
        }
    }

    /// The next answer, by what stands at the front after so many bytes of header.
    fn front_into(
        &mut self,
        form: Form,
        header: usize,
        batch: &mut Batch,
    ) -> Result<Found, NoMemory>
        requires { header ≤ length self.old.left }
        ensures found { IfOk result (λ found. found ≡ found_of (answer_at (front_of form (drop header self.old.left)) form (self.old.at + header) (drop header self.old.left) self.old.finished)) }
        ensures after { OnOk result (self.new ≡ after_at (front_of form (drop header self.old.left)) form header self.old) }
        ensures batch { OnOk result (batch.new ≡ with_next (answer_at (front_of form (drop header self.old.left)) form (self.old.at + header) (drop header self.old.left) self.old.finished) batch.old) }
        ensures err { OnErr result (self.new ≡ self.old) }
        ensures same { OnErr result (batch.new ≡ batch.old) }
    {
        let left = &self.in_hand()[header..];
        let at = self.place(header);
        match read_front(form, left) {
            Front::Whole(captured) => {
                copy_record(form, left, captured, batch)?;
                self.consume(form, header + RECORD_LEN + captured);
                Ok(Found::Record)
            }
            Front::Oversize => Ok(Found::Bad(BadTrace::Huge { at })),
            Front::Part => Ok(found(&pause(at, left, self.finished))),
        }
    }
}
