//! The writer takes the stamps of exactly those rows away that an entry has made bad.
ghost use Rattle.std.specs.Prelude.{◌≡◌, ◌≢◌, ◌<◌, ℕ, length};
ghost use Rattle.vsw_table.specs.Rules.{stamp_at, row_at};
ghost use Rattle.vsw_table_tests.specs.Flows.{IsTold, AreTallies};

use crate::flows::{Flows, is_told, row_of};
use vsw_table::{Lookup, Writer};

/// Takes a row's stamp away, unless the row tells its flow's tally.
fn settle_row(lookup: &Lookup<Flows>, writer: &mut Writer<Flows>, tallies: &[u64; 16], row: u32)
    requires { (writer.old.table ≡ lookup.now.0) × (row < lookup.now.2) }
    ensures same { writer.new ≡ record writer.old { view = record writer.old.view { stamps = writer.new.view.stamps } } }
    ensures kept { stamp_at writer.new.view.stamps row ≢ 0 → IsTold tallies.now (row_at writer.old.view.rows row) }
    ensures others { (r : ℕ) → stamp_at writer.new.view.stamps r ≢ 0 → stamp_at writer.old.view.stamps r ≢ 0 }
{
    let flow = writer.word(lookup, row, 0);
    let first = writer.word(lookup, row, 16);
    let last = writer.word(lookup, row, 72);
    if !is_told(tallies, flow, first, last) {
        writer.shake(lookup, row);
    }
}

/// How many rows there are.
fn rows_of(lookup: &Lookup<Flows>, writer: &Writer<Flows>) -> u32
    requires { writer.now.table ≡ lookup.now.0 }
    ensures { (result ≡ lookup.now.2) × (result ≡ length writer.now.view.stamps) }
{
    let rows = lookup.rows();
    // It tells the proof that the writer has as many.
    let _ = writer.rows();
    rows
}

/// The same for all rows.
pub fn settle(lookup: &Lookup<Flows>, writer: &mut Writer<Flows>, tallies: &[u64; 16])
    requires { writer.old.table ≡ lookup.now.0 }
    ensures same { writer.new ≡ record writer.old { view = record writer.old.view { stamps = writer.new.view.stamps } } }
    ensures kept { (r : ℕ) → stamp_at writer.new.view.stamps r ≢ 0 → IsTold tallies.now (row_at writer.old.view.rows r) }
{
    let rows = rows_of(lookup, writer);
    for row in 0..rows {
        settle_row(lookup, writer, tallies, row);
    }
    // It tells the proof that no further row has a stamp.
    rows_of(lookup, writer);
}

/// Writes a row of a flow, in the place of one that gives way.
pub fn put_flow(lookup: &Lookup<Flows>, writer: &mut Writer<Flows>, tallies: &[u64; 16], flow: u32)
    requires table { (writer.old.table ≡ lookup.now.0) × (lookup.now.2 ≡ 16) × (flow < 16) }
    requires tallies { AreTallies writer.old.view.history tallies.now }
    ensures { (writer.new.table ≡ writer.old.table) × (writer.new.view.history ≡ writer.old.view.history) × (writer.new.view.opening ≡ writer.old.view.opening) }
{
    // They tell the proof that the writer has as many rows as the lookup.
    let _ = writer.rows();
    let _ = lookup.rows();
    let place = writer.victim(flow);
    let tally = tallies[flow as usize];
    writer.put(lookup, place, &row_of(u64::from(flow), tally));
}
