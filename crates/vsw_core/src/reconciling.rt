//! A row that isn't current, compared with what the layers of now make of its packets.

ghost use Rattle.std.specs.Prelude.{◌≡◌, ◌<◌, ◌+◌, ◌∷◌, length, false, true, drop, take};
ghost use Rattle.vsw_base.specs.declared.fate.Verdict.TheVariants.{Pass};
ghost use Rattle.vsw_flows.specs.Flows.{IsOf, Puts};
ghost use Rattle.vsw_core.specs.Private.Comparing.{IsCompared, IsRead, IsSame, row_by};
ghost use Rattle.vsw_core.specs.Reconciling.{IsOld, OthersStay, Reconciles};
ghost use Rattle.vsw_core.specs.Walks.{IsWholeWalk};
ghost use Rattle.vsw_policy.specs.Layer.{LayerSeen};
ghost use Rattle.vsw_rows.specs.Good.{Row};
ghost use Rattle.vsw_rows.specs.Way.{plain};
ghost use Rattle.vsw_table.specs.Rules.{row_at};
ghost use Rattle.vsw_port.specs.Ledger.{layers_in};
ghost use Rattle.vsw_rows.specs.Rows.{IsEmpty, IsFormed, IsFresh, Says, layers_after};
ghost use Rattle.vsw_transpose.specs.Apply.{apply};
ghost use Rattle.vsw_transpose.specs.Fits as fit;
ghost use Rattle.vsw_words.specs.Law.{IsId};
ghost use Rattle.vsw_words.specs.Key as key;

use crate::counting::is_current;
use crate::crossing::{walk_now, wants_change};
use crate::owner::Reconciled;
use crate::rooms::{Former, Rooms};
use crate::writing::write_row;
use vsw_base::{Control, Crossing, Moment, Sizes, Stack, Verdict};
use vsw_flows::{PortStory, Rows};
use vsw_port::Ledger;
use vsw_table::Lookup;
use vsw_transpose::Transposition;
use vsw_walk::{Scratch, Walked};
use vsw_words::{Body, body_to, identity_to, row_of};

/// Compares a row with the layers of now, and makes it current where that can be.
pub fn reconcile(
    lookup: &Lookup<PortStory>,
    ledger: &Ledger,
    rows: &mut Rows,
    row: u32,
    again: &mut Scratch,
    former: &mut Former,
    rooms: &mut Rooms,
) -> Reconciled
    requires core { IsOf lookup.now rows.old }
    requires row { row < lookup.now.2 }
    requires layers { layers_in ledger.now ≡ layers_after lookup.now.1 rows.old.view.history }
    ensures reconciles { Reconciles (layers_after lookup.now.1 rows.old.view.history) rows.old rows.new row result }
    ensures others { OthersStay rows.old rows.new row }
    ensures writer { rows.new ≡ record rows.old { view = record rows.old.view { given = rows.new.view.given; stamps = rows.new.view.stamps; rows = rows.new.view.rows } } }
{
    if is_current(lookup, rows, row) {
        return Reconciled::Fresh;
    }
    if !read_row(lookup, rows, row, &mut rooms.words, former) {
        return Reconciled::Cleared;
    }
    renew(lookup, ledger, rows, row, again, former, rooms)
}

/// The same of a row that isn't current and was read.
fn renew(
    lookup: &Lookup<PortStory>,
    ledger: &Ledger,
    rows: &mut Rows,
    row: u32,
    again: &mut Scratch,
    former: &mut Former,
    rooms: &mut Rooms,
) -> Reconciled
    requires core { IsOf lookup.now rows.old }
    requires row { row < lookup.now.2 }
    requires layers { layers_in ledger.now ≡ layers_after lookup.now.1 rows.old.view.history }
    requires old { IsOld rows.old row }
    requires read { IsRead (row_at rows.old.view.rows row) former.old.crossing former.old.body }
    ensures reconciles { Reconciles (layers_after lookup.now.1 rows.old.view.history) rows.old rows.new row result }
    ensures others { OthersStay rows.old rows.new row }
    ensures writer { rows.new ≡ record rows.old { view = record rows.old.view { given = rows.new.view.given; stamps = rows.new.view.stamps; rows = rows.new.view.rows } } }
{
    let walked = walk_now(ledger, &former.crossing, again);
    // At moment 0 no last use is renewed, so what a packet wants changed is a pair that is made.
    if wants_change(&walked, again) {
        return Reconciled::Cleared;
    }
    if is_same(
        &former.crossing,
        &former.body,
        &walked,
        again,
        &mut former.stack,
    ) {
        if keep(lookup, rows, row, former, &walked, again, &mut rooms.words) {
            return Reconciled::Kept;
        }
        return Reconciled::Short;
    }
    if write_row(lookup, rows, row, &former.crossing, &walked, again, rooms) {
        return Reconciled::Changed;
    }
    Reconciled::Short
}

/// Whether the row isn't empty. What it says of which packets is then read.
fn read_row(
    lookup: &Lookup<PortStory>,
    rows: &mut Rows,
    row: u32,
    words: &mut [u64; 73],
    out: &mut Former,
) -> bool
    requires core { IsOf lookup.now rows.old }
    requires row { row < lookup.now.2 }
    ensures same { rows.new ≡ rows.old }
    ensures empty { result ≡ false → IsEmpty (row_at rows.old.view.rows row) }
    ensures read { result ≡ true → IsRead (row_at rows.old.view.rows row) out.new.crossing out.new.body }
{
    if rows.is_empty(lookup, row) {
        return false;
    }
    rows.words(lookup, row, words);
    // Words that aren't empty say a row, so neither is refused.
    read_packet(words, &mut out.crossing);
    read_body(words, &mut out.body);
    true
}

/// The packet of a row's identity of which nothing else shows.
fn read_packet(words: &[u64; 73], out: &mut Crossing)
    ensures { (r : Row) → Says words.now r → out.new ≡ plain r.id }
{
    out.caller = 0;
    out.packet = 0;
    out.control = Control::None;
    out.moment = Moment::of(0);
    out.sizes = Sizes {
        whole: 0,
        one: 0,
        two: 0,
    };
    if let Some(key) = words.first_chunk::<16>() {
        let _ = identity_to(key, &mut out.id);
    }
}

/// What a row says of these packets.
fn read_body(words: &[u64; 73], out: &mut Body)
    ensures { (r : Row) → Says words.now r → (out.new.verdict ≡ r.verdict) × (out.new.by ≡ r.acts) × (out.new.until ≡ r.until) }
{
    if let Some(body) = words.last_chunk::<57>() {
        let _ = body_to(body, out);
    }
}

/// Whether the row still says what the walk of its packets came to.
fn is_same(
    crossing: &Crossing,
    body: &Body,
    walked: &Walked,
    again: &Scratch,
    room: &mut Stack,
) -> bool
    ensures told { result ≡ true → IsSame crossing.now.id.stack body.now walked.now again.now }
    ensures back { IsSame crossing.now.id.stack body.now walked.now again.now → result ≡ true }
{
    if body.verdict != walked.verdict {
        return false;
    }
    match body.verdict {
        Verdict::Pass => makes_same(
            &body.by,
            &crossing.id.stack,
            walked.kept,
            again.stack(),
            room,
        ),
        Verdict::Rule { .. } => true,
        Verdict::Default { .. } => true,
    }
}

/// Whether the acts make this stack of the first one, and keep so many of its encapsulations.
fn makes_same(by: &Transposition, first: &Stack, kept: u8, last: &Stack, room: &mut Stack) -> bool
    ensures told { result ≡ true → (fit.fits by.now first.now ≡ true) × (apply by.now first.now ≡ last.now) × (fit.kept by.now ≡ kept) }
    ensures back { fit.fits by.now first.now ≡ true → apply by.now first.now ≡ last.now → fit.kept by.now ≡ kept → result ≡ true }
{
    if !by.fits(first) {
        return false;
    }
    by.apply_to(first, room);
    room.is_same(last) && by.kept() == kept
}

/// Puts a row that says what is so, until when that holds now; answers whether there was memory for its looks.
fn keep(
    lookup: &Lookup<PortStory>,
    rows: &mut Rows,
    row: u32,
    former: &Former,
    walked: &Walked,
    again: &Scratch,
    words: &mut [u64; 73],
) -> bool
    requires core { IsOf lookup.now rows.old }
    requires row { row < lookup.now.2 }
    requires compared { IsCompared (layers_after lookup.now.1 rows.old.view.history) (row_at rows.old.view.rows row) former.now.crossing former.now.body walked.now again.now }
    requires same { IsSame former.now.crossing.id.stack former.now.body walked.now again.now }
    ensures puts { Puts rows.old rows.new row words.new result }
    ensures says { Says words.new (record (row_by former.now.crossing former.now.body) { until = walked.now.until }) }
{
    row_of(
        &former.crossing.id,
        &former.body.verdict,
        &former.body.by,
        walked.until,
        words,
    );
    rows.put(lookup, row, words, again.looked())
}
