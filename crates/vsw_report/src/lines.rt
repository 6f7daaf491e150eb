//! The lines of one caller, which wait to be merged.

ghost use Rattle.std.specs.Prelude.{◌≡◌, ◌≤◌, ◌++◌, ◌∷◌, [], OnOk, OnErr, IfOk, length, slice_range};
ghost use Rattle.vsw_report.specs.Line.{are_short, text_of, texts};
ghost use Rattle.vsw_report.specs.Order.{has_lines};
ghost use Rattle.vsw_report.specs.Whole.{whole_text};
ghost use Rattle.vsw_report.specs.Steps.{first_entry, first_reads, past_entry, past_reads};
ghost use Rattle.vsw_report.specs.Short.{drops_short, tells_short};
ghost use Rattle.vsw_report.specs.declared.told.By.TheVariants as by;
ghost use Rattle.vsw_report.specs.declared.told.What.TheVariants as what;

use crate::Page;
use crate::marks::{Mark, add_mark, copy, entry_from, is_any_short, reads_from};
use crate::sheets::RoundText;
use std::alloc::Global;
use std::marker::Model;
use vsw_base::{Cause, Fate, NoMemory};
use vsw_policy::{Refusal, Reply};

/// The lines of a worker or a controller at a port in a round, in its order, as texts. Lines that go over pass a cursor;
/// their text and marks stay until all have gone over.
#[derive(Drop)]
pub struct Caller {
    text: Page,
    marks: Vec<Mark>,
    /// Lines that have gone over, and where their text ends.
    passed: usize,
    from: usize,
}

impl Model for Caller {
    ghost use Rattle.std.specs.Prelude.{◌≤◌, List, length, drop};
    ghost use Rattle.vsw_report.specs.Line.{TextLine};
    ghost use Rattle.vsw_report.specs.Marks.{AreEnds, lines_in};

    ghost Value = { List TextLine };

    ghost invariant = { λ s. (s.passed ≤ length s.marks.items) × AreEnds s.from (drop s.passed s.marks.items) (length s.text) };

    ghost view = { λ s. lines_in s.from (drop s.passed s.marks.items) s.text };
}

/// The shortest text whose room is taken. A shorter one is copied, which costs less than it does to put two pieces more.
const TAKEN_LEN: usize = 16_384;

/// Whether a packet was dropped for want of memory.
fn is_short_fate(fate: &Fate) -> bool
    ensures { result ≡ drops_short fate.now }
{
    matches!(fate, Fate::Drop(Cause::Memory))
}

/// Whether a command was refused for want of memory.
fn is_short_reply(reply: Reply) -> bool
    ensures { result ≡ tells_short (what.Reply reply) }
{
    matches!(reply, Reply::Refused(Refusal::Memory))
}

/// Appends a text from a place on. A long one isn't copied: its room is taken.
fn move_text(out: &mut RoundText, text: &mut Page, from: usize) -> Result<(), NoMemory>
    requires { from ≤ length text.old }
    ensures text { OnOk result (whole_text out.new ≡ whole_text out.old ++ slice_range text.old from (length text.old)) }
    ensures left { OnErr result (text.new ≡ text.old) }
{
    let len = text.as_slice().len();
    if from == 0 && TAKEN_LEN <= len {
        out.take(text)
    } else {
        copy(&mut out.end, text.as_slice(), from, len)
    }
}

impl Caller {
    /// A caller with no lines, which takes no memory.
    pub fn new(alloc: Global) -> Caller
        ensures { result ≡ [] }
    {
        Caller {
            text: Page::new(alloc),
            marks: Vec::new(alloc),
            passed: 0,
            from: 0,
        }
    }

    /// Tells what became of a packet that a worker brought: of a pass its outgoing bytes, and none of a drop. Where there
    /// is no memory for the line, nothing changes.
    pub fn tell_packet(
        &mut self,
        worker: u32,
        packet: u32,
        entry: bool,
        count: u32,
        fate: &Fate,
        bytes: &[u8],
    ) -> Result<(), NoMemory>
        ensures ok { OnOk result (self.new ≡ self.old ++ text_of (record { by = by.Worker worker; item = packet; entry = entry; count = count; what = what.Fate fate.now bytes.now }) ∷ []) }
        ensures err { OnErr result (self.new ≡ self.old) }
    {
        let len = self.text.as_slice().len();
        let short = is_short_fate(fate);
        self.text
            .packet_line(worker, packet, entry, count, fate, bytes)?;
        add_mark(&mut self.marks, &mut self.text, len, entry, count, short)
    }

    /// Tells the reply to a controller's command. Where there is no memory for the line, nothing changes.
    pub fn tell_reply(
        &mut self,
        controller: u16,
        line: u32,
        entry: bool,
        count: u32,
        reply: Reply,
    ) -> Result<(), NoMemory>
        ensures ok { OnOk result (self.new ≡ self.old ++ text_of (record { by = by.Controller controller; item = line; entry = entry; count = count; what = what.Reply reply }) ∷ []) }
        ensures err { OnErr result (self.new ≡ self.old) }
    {
        let len = self.text.as_slice().len();
        let short = is_short_reply(reply);
        self.text.reply_line(controller, line, entry, count, reply)?;
        add_mark(&mut self.marks, &mut self.text, len, entry, count, short)
    }

    /// Appends the reads at a count, with which its lines begin, and answers whether one tells of want of memory.
    pub(crate) fn move_reads(&mut self, count: u32, out: &mut Vec<u8>) -> Result<bool, NoMemory>
        ensures text { OnOk result (out.new.items ≡ out.old.items ++ texts (first_reads count self.old)) }
        ensures short { IfOk result (λ short. short ≡ are_short (first_reads count self.old)) }
        ensures rest { OnOk result (self.new ≡ past_reads count self.old) }
    {
        let run = reads_from(&self.marks, self.passed, self.from, count);
        copy(out, self.text.as_slice(), self.from, run.end)?;
        self.passed = run.passed;
        self.from = run.end;
        Ok(run.short)
    }

    /// Appends the entry of a count, if its lines begin with it.
    pub(crate) fn move_entry(&mut self, count: u32, out: &mut Vec<u8>) -> Result<bool, NoMemory>
        ensures text { OnOk result (out.new.items ≡ out.old.items ++ texts (first_entry count self.old)) }
        ensures short { IfOk result (λ short. short ≡ are_short (first_entry count self.old)) }
        ensures rest { OnOk result (self.new ≡ past_entry count self.old) }
    {
        let run = entry_from(&self.marks, self.passed, self.from, count);
        copy(out, self.text.as_slice(), self.from, run.end)?;
        self.passed = run.passed;
        self.from = run.end;
        Ok(run.short)
    }

    /// Whether there are lines that haven't gone over.
    pub(crate) fn has_lines(&self) -> bool
        ensures { result ≡ has_lines self.now }
    {
        self.passed < self.marks.len()
    }

    /// Appends all lines, and answers whether one tells of want of memory. A long text isn't copied: its room is taken.
    pub(crate) fn move_all(&mut self, out: &mut RoundText) -> Result<bool, NoMemory>
        ensures text { OnOk result (whole_text out.new ≡ whole_text out.old ++ texts self.old) }
        ensures short { IfOk result (λ short. short ≡ are_short self.old) }
        ensures rest { OnOk result (self.new ≡ []) }
    {
        let short = is_any_short(&self.marks, self.passed);
        move_text(out, &mut self.text, self.from)?;
        self.text.clear();
        self.marks.clear();
        self.passed = 0;
        self.from = 0;
        Ok(short)
    }

    /// With no lines, takes back the room that was taken of the port at a place.
    pub fn take_room(&mut self, out: &mut RoundText, place: usize)
        ensures same { self.new ≡ self.old }
        ensures text { whole_text out.new ≡ whole_text out.old }
    {
        if self.marks.is_empty() && self.from == 0 {
            out.lend(place, &mut self.text);
        }
    }

    /// No lines again. The rooms stay.
    pub(crate) fn clear(&mut self)
        ensures { self.new ≡ [] }
    {
        self.text.clear();
        self.marks.clear();
        self.passed = 0;
        self.from = 0;
    }
}
