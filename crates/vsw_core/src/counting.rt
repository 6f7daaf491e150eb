//! Rows that are current are counted.

ghost use Rattle.std.specs.Prelude.{◌≡◌, ◌<◌, true, false};
ghost use Rattle.vsw_core.specs.Core.{current_among};
ghost use Rattle.vsw_flows.specs.Flows.{IsCurrent};
ghost use Rattle.vsw_table.specs.Rules.{stamp_at};

use vsw_flows::{PortStory, Rows};
use vsw_table::Lookup;

/// Whether the row is current.
pub fn is_current(lookup: &Lookup<PortStory>, rows: &mut Rows, row: u32) -> bool
    requires table { (rows.old.table ≡ lookup.now.0) × (row < lookup.now.2) }
    ensures same { rows.new ≡ rows.old }
    ensures told { result ≡ true → IsCurrent rows.old row }
    ensures back { result ≡ false → stamp_at rows.old.view.stamps row ≡ 0 }
{
    rows.is_current(lookup, row)
}

/// How many rows are current.
pub fn count_current(lookup: &Lookup<PortStory>, rows: &mut Rows) -> u32
    requires table { rows.old.table ≡ lookup.now.0 }
    ensures same { rows.new ≡ rows.old }
    ensures count { result ≡ current_among lookup.now.2 rows.old }
{
    let mut count = 0;
    for row in 0..lookup.rows() {
        if is_current(lookup, rows, row) {
            count += 1;
        }
    }
    count
}
