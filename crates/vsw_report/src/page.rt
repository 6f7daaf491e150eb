//! A text that grows line by line in a room that lives on.

ghost use Rattle.std.specs.Prelude.{◌≡◌, ◌≤◌, ℕ, ◌+◌, ◌*◌, ◌++◌, ◌∷◌, [], OnOk, OnErr, IfOk, IfSome, length, take};
ghost use Rattle.vsw_report.specs.Front.{fronted};
ghost use Rattle.vsw_report.specs.Print.{line_text};
ghost use Rattle.vsw_report.specs.declared.told.By.TheVariants as by;
ghost use Rattle.vsw_report.specs.declared.told.What.TheVariants as what;

use crate::line::{LINE_LEN, put_packet, put_reply};
use crate::piece::Front;
use crate::told::By;
use std::alloc::{AllocError, Global};
use std::marker::Model;
use std::mem::swap;
use vsw_base::{Fate, NoMemory};
use vsw_policy::Reply;

/// A text that grows line by line. What stands behind it in its room is left over, and written over by the next line, so
/// that a room that is large enough is never cleared.
#[derive(Drop)]
pub struct Page {
    room: Vec<u8>,
    len: usize,
}

impl Model for Page {
    ghost use Rattle.std.specs.Prelude.{ℕ, List, ◌≤◌, length, take};

    ghost Value = { List ℕ };

    ghost invariant = { λ s. s.len ≤ length s.room.items };

    ghost view = { λ s. take s.len s.room.items };
}

/// How long a room must be for a line behind so many bytes, with the text of so many more.
pub fn end_of(len: usize, bytes: usize) -> Option<usize>
    ensures { IfSome result (λ end. end ≡ len + (128 + 2 * bytes)) }
{
    len.checked_add(bytes.checked_mul(2)?.checked_add(LINE_LEN)?)
}

/// Makes a room longer, to twice the length that is wanted.
fn lengthen(room: &mut Vec<u8>, end: usize) -> Result<(), AllocError>
    ensures long { OnOk result (end ≤ length room.new.items) }
    ensures kept { (k : ℕ) → k ≤ length room.old.items → take k room.new.items ≡ take k room.old.items }
    ensures whole { length room.old.items ≤ length room.new.items }
{
    if end <= room.len() {
        return Ok(());
    }
    match end.checked_mul(2) {
        Some(twice) => room.resize(twice, 0),
        None => Err(AllocError),
    }
}

/// Adds a packet's line to the text that is the first `len` bytes of a room, and answers where it ends.
fn add_packet(
    room: &mut Vec<u8>,
    len: usize,
    front: &Front,
    fate: &Fate,
    bytes: &[u8],
) -> Result<usize, NoMemory>
    requires { len ≤ length room.old.items }
    ensures ok { IfOk result (λ end. take end room.new.items ≡ take len room.old.items ++ line_text (fronted front.now (what.Fate fate.now bytes.now))) }
    ensures err { OnErr result (take len room.new.items ≡ take len room.old.items) }
    ensures end { IfOk result (λ end. end ≤ length room.new.items) }
    ensures whole { length room.old.items ≤ length room.new.items }
{
    let Some(end) = end_of(len, bytes.len()) else {
        return Err(NoMemory);
    };
    if lengthen(room, end).is_err() {
        return Err(NoMemory);
    }
    Ok(put_packet(room.as_mut_slice(), len, front, fate, bytes))
}

/// Adds the line of a command.
fn add_reply(room: &mut Vec<u8>, len: usize, front: &Front, reply: Reply) -> Result<usize, NoMemory>
    requires { len ≤ length room.old.items }
    ensures ok { IfOk result (λ end. take end room.new.items ≡ take len room.old.items ++ line_text (fronted front.now (what.Reply reply))) }
    ensures err { OnErr result (take len room.new.items ≡ take len room.old.items) }
    ensures end { IfOk result (λ end. end ≤ length room.new.items) }
    ensures whole { length room.old.items ≤ length room.new.items }
{
    let Some(end) = end_of(len, 0) else {
        return Err(NoMemory);
    };
    if lengthen(room, end).is_err() {
        return Err(NoMemory);
    }
    Ok(put_reply(room.as_mut_slice(), len, front, reply))
}

impl Page {
    /// A text with no lines, which takes no memory.
    pub fn new(alloc: Global) -> Page
        ensures { result ≡ [] }
    {
        Page {
            room: Vec::new(alloc),
            len: 0,
        }
    }

    /// No lines again. The room stays.
    pub fn clear(&mut self)
        ensures { self.new ≡ [] }
    {
        self.len = 0;
    }

    /// The text.
    pub fn as_slice(&self) -> &[u8]
        ensures { result.now ≡ self.now }
    {
        &self.room[..self.len]
    }

    /// Has the text of another, which is empty then, and both have the other's room.
    pub(crate) fn take_text(&mut self, text: &mut Vec<u8>)
        ensures taken { self.new ≡ text.old.items }
        ensures empty { text.new.items ≡ [] }
    {
        swap(&mut self.room, text);
        self.len = self.room.len();
        text.clear();
    }

    /// Takes the room of a page whose text is left over, if it is longer than its own, and gives its own for it.
    pub(crate) fn take_room(&mut self, spare: &mut Page)
        requires { self.old ≡ [] }
        ensures { self.new ≡ [] }
    {
        if self.room.len() < spare.room.len() {
            swap(&mut self.room, &mut spare.room);
            self.len = 0;
            spare.len = 0;
        }
    }

    /// Cuts the text after so many bytes.
    pub fn truncate(&mut self, len: usize)
        ensures { self.new ≡ take len self.old }
    {
        if len < self.len {
            self.len = len;
        }
    }

    /// Appends what became of a packet that a worker brought: of a pass its outgoing bytes, and none of a drop. Where there
    /// is no memory for the line, nothing changes.
    pub fn packet_line(
        &mut self,
        worker: u32,
        packet: u32,
        entry: bool,
        count: u32,
        fate: &Fate,
        bytes: &[u8],
    ) -> Result<(), NoMemory>
        ensures ok { OnOk result (self.new ≡ self.old ++ line_text (record { by = by.Worker worker; item = packet; entry = entry; count = count; what = what.Fate fate.now bytes.now })) }
        ensures err { OnErr result (self.new ≡ self.old) }
    {
        let front = Front {
            by: By::Worker(worker),
            item: packet,
            entry,
            count,
        };
        self.len = add_packet(&mut self.room, self.len, &front, fate, bytes)?;
        Ok(())
    }

    /// Appends the reply to a controller's command. Where there is no memory for the line, nothing changes.
    pub fn reply_line(
        &mut self,
        controller: u16,
        line: u32,
        entry: bool,
        count: u32,
        reply: Reply,
    ) -> Result<(), NoMemory>
        ensures ok { OnOk result (self.new ≡ self.old ++ line_text (record { by = by.Controller controller; item = line; entry = entry; count = count; what = what.Reply reply })) }
        ensures err { OnErr result (self.new ≡ self.old) }
    {
        let front = Front {
            by: By::Controller(controller),
            item: line,
            entry,
            count,
        };
        self.len = add_reply(&mut self.room, self.len, &front, reply)?;
        Ok(())
    }
}
