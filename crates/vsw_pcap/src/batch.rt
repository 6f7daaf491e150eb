//! Records in a room that lives on.

ghost use Rattle.std.specs.Prelude.{◌≡◌, ◌<◌, ◌≤◌, ◌++◌, ◌∷◌, [], Some, OnOk, OnErr, length};
ghost use Rattle.std.specs.List.{slice_get};
ghost use Rattle.vsw_pcap.specs.Batch.{lent_record};
ghost use Rattle.vsw_pcap.specs.Marks.{marked, IsWithin};

use crate::fault::BadTrace;
use std::alloc::Global;
use std::marker::Model;
use vsw_base::{Moment, NoMemory};

/// A record that a batch lends.
#[derive(Clone, Copy)]
pub struct Captured<'a> {
    pub moment: Moment,
    /// Bytes of the packet, of which perhaps not all were captured.
    pub original: u32,
    /// The captured bytes.
    pub bytes: &'a [u8],
}

/// What a reader found next.
#[derive(Clone, Copy)]
pub enum Found {
    /// A record, which the batch holds as its last.
    Record,
    /// The bytes in hand don't tell; more may follow.
    More,
    /// The capture ended after its last record.
    End,
    /// The capture is refused. Each later answer is the same.
    Bad(BadTrace),
}

/// A record of a batch, with the places at which its bytes begin and end among those of all.
#[derive(Drop)]
struct Mark {
    moment: Moment,
    original: u32,
    begin: usize,
    end: usize,
}

/// Records of a capture, in rooms that those of the next round find again.
#[derive(Drop)]
pub struct Batch {
    /// The captured bytes of all records.
    bytes: Vec<u8>,
    marks: Vec<Mark>,
}

impl Model for Batch {
    ghost use Rattle.std.specs.Prelude.{List, length};
    ghost use Rattle.vsw_pcap.specs.declared.capture.Record.{Record};
    ghost use Rattle.vsw_pcap.specs.Marks.{all_marked, AreWithin};

    ghost Value = { List Record };

    ghost view = { λ s. all_marked s.bytes.items s.marks.items };

    ghost invariant = { λ s. AreWithin (length s.bytes.items) s.marks.items };
}

/// Appends a slice; where there is no memory for it, nothing changes.
fn append(bytes: &mut Vec<u8>, more: &[u8]) -> Result<(), NoMemory>
    ensures ok { OnOk result (bytes.new.items ≡ bytes.old.items ++ more.now) }
    ensures err { OnErr result (bytes.new.items ≡ bytes.old.items) }
{
    match bytes.extend_from_slice(more) {
        Ok(()) => Ok(()),
        Err(_) => Err(NoMemory),
    }
}

/// Appends a mark; where there is no memory for it, nothing changes.
fn append_mark(marks: &mut Vec<Mark>, mark: Mark) -> Result<(), NoMemory>
    ensures ok { OnOk result (marks.new.items ≡ marks.old.items ++ mark ∷ []) }
    ensures err { OnErr result (marks.new.items ≡ marks.old.items) }
{
    match marks.push(mark) {
        Ok(()) => Ok(()),
        Err(_) => Err(NoMemory),
    }
}

/// The record of a mark among these bytes.
fn lend<'a>(bytes: &'a [u8], mark: &Mark) -> Captured<'a>
    requires within { IsWithin (length bytes.now) mark.now }
    ensures { marked bytes.now mark.now ≡ lent_record result }
{
    Captured {
        moment: mark.moment,
        original: mark.original,
        bytes: &bytes[mark.begin..mark.end],
    }
}

impl Batch {
    /// A batch of no records, which takes no memory.
    pub fn new(alloc: Global) -> Batch
        ensures { result ≡ [] }
    {
        Batch {
            bytes: Vec::new(alloc),
            marks: Vec::new(alloc),
        }
    }

    /// Forgets its records. Its rooms stay.
    pub fn clear(&mut self)
        ensures { self.new ≡ [] }
    {
        self.bytes.clear();
        self.marks.clear();
    }

    /// How many records it holds.
    pub fn len(&self) -> usize
        ensures { result ≡ length self.now }
    {
        self.marks.len()
    }

    /// The record at a place.
    pub fn at(&self, place: usize) -> Captured<'_>
        requires { place < length self.now }
        ensures { slice_get self.now place ≡ Some (lent_record result) }
    {
        lend(&self.bytes, &self.marks[place])
    }

    /// Appends a record, which came at this moment and had `original` bytes; those that were captured are copied. Where there is
    /// no memory for it, nothing changes.
    pub fn push(&mut self, moment: Moment, original: u32, bytes: &[u8]) -> Result<(), NoMemory>
        ensures ok { OnOk result (self.new ≡ self.old ++ record { moment = moment; original = original; bytes = bytes.now } ∷ []) }
        ensures err { OnErr result (self.new ≡ self.old) }
    {
        let begin = self.bytes.len();
        append(&mut self.bytes, bytes)?;
        let end = self.bytes.len();
        let mark = Mark {
            moment,
            original,
            begin,
            end,
        };
        if append_mark(&mut self.marks, mark).is_err() {
            self.bytes.truncate(begin);
            return Err(NoMemory);
        }
        Ok(())
    }
}
