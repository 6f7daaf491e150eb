//! What the writer finds of a row, and the search among the eight places at which a row may stand.

ghost use Rattle.std.specs.Prelude.{◌≡◌, ◌<◌, MatchBool, true, false};
ghost use Rattle.vsw_table.specs.Rules.{row_at};
ghost use Rattle.vsw_flows.specs.Finding.{Adds, HasKey, IsFound, IsSought};

use crate::falling::{is_current, rows_of};
use crate::story::PortStory;
use vsw_table::{Lookup, Writer};
use vsw_words::slot_of;

/// What stands at the eight places at which a row with some key words may stand.
#[derive(Clone, Copy, Debug, PartialEq, Eq)]
pub enum Found {
    /// A current row with these key words.
    Own { row: u32 },
    /// No such row, and this one may be put: it isn't current, or all eight are, and it gives way.
    Free { row: u32 },
}

/// What stands at the first of them.
#[derive(Clone, Copy, Debug, PartialEq, Eq)]
pub enum Sought {
    /// A current row with these key words.
    Own { row: u32 },
    /// No such row, and this one isn't current.
    Unused { row: u32 },
    /// Current rows with other key words.
    Used,
}

/// Reads the words of a row.
pub fn read_words(
    writer: &mut Writer<PortStory>,
    lookup: &Lookup<PortStory>,
    row: u32,
    out: &mut [u64; 73],
)
    requires table { (writer.old.table ≡ lookup.now.0) × (row < lookup.now.2) }
    ensures same { writer.new ≡ writer.old }
    ensures words { out.new ≡ row_at writer.old.view.rows row }
{
    for place in 0..73 {
        out[place as usize] = writer.word(lookup, row, place);
    }
}

/// Whether the row has these key words. Most rows differ in the first word.
fn has_key(
    writer: &mut Writer<PortStory>,
    lookup: &Lookup<PortStory>,
    row: u32,
    key: &[u64; 16],
) -> bool
    requires table { (writer.old.table ≡ lookup.now.0) × (row < lookup.now.2) }
    ensures same { writer.new ≡ writer.old }
    ensures exact { MatchBool result (HasKey writer.old key.now row) (HasKey writer.old key.now row → ⊥) }
{
    for place in 0..16 {
        if writer.word(lookup, row, place) != key[place as usize] {
            return false;
        }
    }
    true
}

/// What stands at one place more. The first place that isn't current is kept.
fn add_place(
    writer: &mut Writer<PortStory>,
    lookup: &Lookup<PortStory>,
    row: u32,
    key: &[u64; 16],
    before: Sought,
) -> Sought
    requires table { (writer.old.table ≡ lookup.now.0) × (row < lookup.now.2) }
    ensures same { writer.new ≡ writer.old }
    ensures adds { Adds writer.old key.now row before result }
{
    if is_current(lookup, writer, row) {
        if has_key(writer, lookup, row, key) {
            return Sought::Own { row };
        }
        return before;
    }
    match before {
        Sought::Used => Sought::Unused { row },
        found => found,
    }
}

/// What stands at the eight places from a slot on.
fn seek(writer: &mut Writer<PortStory>, lookup: &Lookup<PortStory>, key: &[u64; 16]) -> Sought
    requires table { writer.old.table ≡ lookup.now.0 }
    ensures same { writer.new ≡ writer.old }
    ensures found { IsSought lookup.now.2 key.now writer.old result }
{
    let rows = lookup.rows();
    let slot = slot_of(key, rows);
    let mut found = Sought::Used;
    for step in 0..8 {
        found = add_place(writer, lookup, (slot + step) % rows, key, found);
        if let Sought::Own { .. } = found {
            return found;
        }
    }
    found
}

/// The search among eight places. Where all are current the count of stamps tells who gives way.
pub fn search(writer: &mut Writer<PortStory>, lookup: &Lookup<PortStory>, key: &[u64; 16]) -> Found
    requires table { writer.old.table ≡ lookup.now.0 }
    ensures same { writer.new ≡ writer.old }
    ensures found { IsFound lookup.now.2 key.now writer.old result }
{
    match seek(writer, lookup, key) {
        Sought::Own { row } => Found::Own { row },
        Sought::Unused { row } => Found::Free { row },
        Sought::Used => {
            let slot = slot_of(key, rows_of(lookup, writer));
            Found::Free {
                row: writer.victim(slot),
            }
        }
    }
}
