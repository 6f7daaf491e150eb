//! Rows that fall: their stamps are taken away, and they leave the spots at which they stood.

ghost use Rattle.std.specs.Prelude.{◌≡◌, ◌≤◌, ◌<◌, ◌+◌, ℕ, length, true, false};
ghost use Rattle.vsw_table.specs.Rules.{stamp_at};
ghost use Rattle.vsw_flows.specs.Flows.{Any, Falls, IsCurrent};
ghost use Rattle.vsw_flows.specs.Standing.{Fell};

use crate::leaning::Leaning;
use crate::story::PortStory;
use vsw_table::{Lookup, Writer};

/// How many rows the lookup has: as many as its writer has stamps.
pub fn rows_of(lookup: &Lookup<PortStory>, writer: &Writer<PortStory>) -> u32
    requires table { writer.now.table ≡ lookup.now.0 }
    ensures rows { result ≡ lookup.now.2 }
    ensures stamps { length writer.now.view.stamps ≡ result }
    ensures words { length writer.now.view.rows ≡ result }
    ensures range { (8 ≤ result) × (result ≤ 16384) }
{
    let _ = writer.rows();
    let all = lookup.rows();
    all
}

/// Whether the row is current.
pub fn is_current(lookup: &Lookup<PortStory>, writer: &mut Writer<PortStory>, row: u32) -> bool
    requires table { (writer.old.table ≡ lookup.now.0) × (row < lookup.now.2) }
    ensures same { writer.new ≡ writer.old }
    ensures told { result ≡ true → IsCurrent writer.old row }
    ensures back { result ≡ false → stamp_at writer.old.view.stamps row ≡ 0 }
{
    writer.is_current(lookup, row)
}

/// Whether a mark, a row's number and one, tells a current row.
fn is_standing(lookup: &Lookup<PortStory>, writer: &mut Writer<PortStory>, mark: u32) -> bool
    requires table { writer.old.table ≡ lookup.now.0 }
    ensures same { writer.new ≡ writer.old }
    ensures told { result ≡ true → (0 < mark) × (mark ≤ lookup.now.2) × (lookup.now.2 ≤ 16384) }
    ensures back { result ≡ false → (place : ℕ) → place + 1 ≡ mark → IsCurrent writer.old place → ⊥ }
{
    if mark == 0 {
        return false;
    }
    if mark > rows_of(lookup, writer) {
        return false;
    }
    is_current(lookup, writer, mark - 1)
}

/// The row with a mark falls, if it is current.
pub fn fall(
    lookup: &Lookup<PortStory>,
    writer: &mut Writer<PortStory>,
    leaning: &mut Leaning,
    mark: u32,
)
    requires table { writer.old.table ≡ lookup.now.0 }
    ensures { Fell mark writer.old writer.new leaning.old leaning.new }
{
    if is_standing(lookup, writer, mark) {
        writer.shake(lookup, mark - 1);
        leaning.leave(mark - 1);
    }
}

/// All rows fall. Afterwards they may lean on this many layers.
pub fn fall_all(
    lookup: &Lookup<PortStory>,
    writer: &mut Writer<PortStory>,
    leaning: &mut Leaning,
    layers: usize,
)
    requires table { writer.old.table ≡ lookup.now.0 }
    ensures falls { Falls Any writer.old writer.new }
    ensures none { (place : ℕ) → IsCurrent writer.new place → ⊥ }
    ensures kept { leaning.new.kept ≡ leaning.old.kept }
{
    let rows = rows_of(lookup, writer);
    for row in 0..rows {
        writer.shake(lookup, row);
    }
    leaning.grow(rows, layers);
}
