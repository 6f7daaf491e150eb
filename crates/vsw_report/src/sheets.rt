//! A round's text in pieces: long texts of callers go into it as they are, without a copy.

ghost use Rattle.std.specs.Prelude.{◌≡◌, ◌≤◌, ◌<◌, ◌++◌, ◌∷◌, [], OnOk, OnErr, get_or, length, take};
ghost use Rattle.vsw_report.specs.Whole.{whole_text};

use crate::Page;
use std::alloc::Global;
use std::marker::Model;
use std::mem::swap;
use vsw_base::NoMemory;

/// Texts one after the other, each in a room of its own. Rooms behind the used ones are spare; what they hold is left over.
#[derive(Drop)]
pub struct Sheets {
    pages: Vec<Page>,
    used: usize,
}

impl Model for Sheets {
    ghost use Rattle.std.specs.Prelude.{ℕ, List, ◌≤◌, length, take};

    ghost Value = { List (List ℕ) };

    ghost invariant = { λ s. s.used ≤ length s.pages.items };

    ghost view = { λ s. take s.used s.pages.items };
}

/// The text of a round: that of the sheets, and then that of the end, to which one appends.
#[derive(Drop)]
pub struct RoundText {
    pub sheets: Sheets,
    pub end: Vec<u8>,
}

/// Takes a room behind the used ones, where none is spare.
fn reserve(pages: &mut Vec<Page>, used: usize) -> Result<(), NoMemory>
    requires { used ≤ length pages.old.items }
    ensures room { OnOk result (used < length pages.new.items) }
    ensures kept { take used pages.new.items ≡ take used pages.old.items }
    ensures whole { length pages.old.items ≤ length pages.new.items }
{
    if used < pages.len() {
        return Ok(());
    }
    let page = Page::new(*pages.allocator());
    match pages.push(page) {
        Ok(()) => Ok(()),
        Err(_) => Err(NoMemory),
    }
}

impl Sheets {
    /// No sheets, which take no memory.
    pub fn new(alloc: Global) -> Sheets
        ensures { result ≡ [] }
    {
        Sheets {
            pages: Vec::new(alloc),
            used: 0,
        }
    }

    /// No sheets again. Their rooms are spare.
    pub fn clear(&mut self)
        ensures { self.new ≡ [] }
    {
        self.used = 0;
    }

    /// How many sheets there are.
    pub fn len(&self) -> usize
        ensures { result ≡ length self.now }
    {
        self.used
    }

    /// The text of the sheet at a place.
    pub fn text(&self, place: usize) -> &[u8]
        requires { place < length self.now }
        ensures { result.now ≡ get_or self.now place [] }
    {
        self.pages[place].as_slice()
    }

    /// A page's text is a further sheet. The page has none then, and a spare room. Where there is no memory, nothing changes.
    pub(crate) fn add_page(&mut self, page: &mut Page) -> Result<(), NoMemory>
        ensures added { OnOk result (self.new ≡ self.old ++ page.old ∷ []) }
        ensures taken { OnOk result (page.new ≡ []) }
        ensures same { OnErr result (self.new ≡ self.old) }
        ensures left { OnErr result (page.new ≡ page.old) }
    {
        reserve(&mut self.pages, self.used)?;
        swap(&mut self.pages[self.used], page);
        page.clear();
        self.used += 1;
        Ok(())
    }

    /// A text is a further sheet, and empty then, in a spare room. Where there is no memory, nothing changes.
    pub(crate) fn add_text(&mut self, text: &mut Vec<u8>) -> Result<(), NoMemory>
        ensures added { OnOk result (self.new ≡ self.old ++ text.old.items ∷ []) }
        ensures taken { OnOk result (text.new.items ≡ []) }
        ensures same { OnErr result (self.new ≡ self.old) }
        ensures left { OnErr result (text.new.items ≡ text.old.items) }
    {
        reserve(&mut self.pages, self.used)?;
        let page = &mut self.pages[self.used];
        page.take_text(text);
        self.used += 1;
        Ok(())
    }

    /// A page without text gets the spare room at a place, if there is one that is longer than its own.
    pub(crate) fn lend(&mut self, place: usize, page: &mut Page)
        requires { page.old ≡ [] }
        ensures sheets { self.new ≡ self.old }
        ensures page { page.new ≡ [] }
    {
        if self.used <= place && place < self.pages.len() {
            let spare = &mut self.pages[place];
            page.take_room(spare);
        }
    }
}

impl RoundText {
    /// No text, which takes no memory.
    pub fn new(alloc: Global) -> RoundText
        ensures { whole_text result ≡ [] }
    {
        RoundText {
            sheets: Sheets::new(alloc),
            end: Vec::new(alloc),
        }
    }

    /// No text again. The rooms stay.
    pub fn clear(&mut self)
        ensures { whole_text self.new ≡ [] }
    {
        self.sheets.clear();
        self.end.clear();
    }

    /// Appends a page's text by taking its room. The page has no text then, and another room. Where there is no memory, the
    /// page stays as it was.
    pub(crate) fn take(&mut self, page: &mut Page) -> Result<(), NoMemory>
        ensures text { OnOk result (whole_text self.new ≡ whole_text self.old ++ page.old) }
        ensures taken { OnOk result (page.new ≡ []) }
        ensures left { OnErr result (page.new ≡ page.old) }
    {
        self.sheets.add_text(&mut self.end)?;
        self.sheets.add_page(page)
    }

    /// A page without text gets the room back that was taken of the port at a place, where it is spare and longer than its own.
    pub(crate) fn lend(&mut self, place: usize, page: &mut Page)
        requires { page.old ≡ [] }
        ensures text { whole_text self.new ≡ whole_text self.old }
        ensures page { page.new ≡ [] }
    {
        // Before the text of each port stands that of its head.
        let sheet = place.saturating_mul(2).saturating_add(1);
        self.sheets.lend(sheet, page);
    }
}
