//! The writer's steps on rows.
ghost use Rattle.std.specs.Prelude.{◌≡◌, ◌<◌, ◌≤◌, slice_set, slice_index_or, [], true, length};
ghost use Rattle.vsw_table.specs.Places.{table_size};
ghost use Rattle.vsw_table.specs.Rules.{stamp_at, row_at, HasRows};
ghost use Rattle.vsw_table.specs.Steps.{with_word, shaken, StandsAt};
ghost use Rattle.vsw_table.specs.Held.{renewed};

use crate::place::{stamp_place, word_place};
use crate::rule::{Find, Kept, Key, PutWord, Restamp, Shake};
use crate::view::View;
use atomic_table::{Seat, Shared};
use vsw_stamps::Story;

/// Loads a word of the table. Only the writer stores, so it finds what its view keeps.
pub(crate) fn find<S: Story>(
    shared: &Shared<S::Entry, View<S::Opening, S::Entry>, Key<S::Opening>, Kept<S>>,
    writer: &mut Seat<S::Entry, View<S::Opening, S::Entry>>,
    place: usize,
) -> u64
    requires table { (writer.old.table_id ≡ shared.now.table_id) × (place < shared.now.table_id.words) }
    requires writer { (writer.old.me.0.writes ≡ true) × (writer.old.me.1 ≡ []) }
    ensures seat { (writer.new.table_id ≡ writer.old.table_id) × (writer.new.me ≡ writer.old.me) }
    ensures word { StandsAt writer.old.me.0 place result × (length writer.old.me.0.history < 4294967295) }
{
    shared.load::<Find>(writer, place)
}

/// A row's stamp.
pub(crate) fn stamp_of<S: Story>(
    shared: &Shared<S::Entry, View<S::Opening, S::Entry>, Key<S::Opening>, Kept<S>>,
    writer: &mut Seat<S::Entry, View<S::Opening, S::Entry>>,
    rows: usize,
    row: usize,
) -> u64
    requires table { (writer.old.table_id ≡ shared.now.table_id) × (shared.now.table_id.words ≡ table_size rows) × (row < rows) × (rows ≤ 16384) }
    requires writer { (writer.old.me.0.writes ≡ true) × (writer.old.me.1 ≡ []) × HasRows rows writer.old.me.0.stamps writer.old.me.0.rows }
    ensures seat { (writer.new.table_id ≡ writer.old.table_id) × (writer.new.me ≡ writer.old.me) }
    ensures stamp { result ≡ stamp_at writer.old.me.0.stamps row }
    ensures short { length writer.old.me.0.history < 4294967295 }
{
    find(shared, writer, stamp_place(rows, row))
}

/// A word of a row.
pub(crate) fn word_of<S: Story>(
    shared: &Shared<S::Entry, View<S::Opening, S::Entry>, Key<S::Opening>, Kept<S>>,
    writer: &mut Seat<S::Entry, View<S::Opening, S::Entry>>,
    rows: usize,
    row: usize,
    word: usize,
) -> u64
    requires table { (writer.old.table_id ≡ shared.now.table_id) × (shared.now.table_id.words ≡ table_size rows) × (row < rows) × (word < 73) × (rows ≤ 16384) }
    requires writer { (writer.old.me.0.writes ≡ true) × (writer.old.me.1 ≡ []) × HasRows rows writer.old.me.0.stamps writer.old.me.0.rows }
    ensures seat { (writer.new.table_id ≡ writer.old.table_id) × (writer.new.me ≡ writer.old.me) }
    ensures word { result ≡ slice_index_or (row_at writer.old.me.0.rows row) word 0 }
{
    find(shared, writer, word_place(rows, row, word))
}

/// Takes a row's stamp away. Where it is 0 already nothing is stored: a load costs a seventh of a store.
pub(crate) fn shake_row<S: Story>(
    shared: &Shared<S::Entry, View<S::Opening, S::Entry>, Key<S::Opening>, Kept<S>>,
    writer: &mut Seat<S::Entry, View<S::Opening, S::Entry>>,
    rows: usize,
    row: usize,
)
    requires table { (writer.old.table_id ≡ shared.now.table_id) × (shared.now.table_id.words ≡ table_size rows) × (rows ≡ shared.now.key.rows) × (row < rows) × (rows ≤ 16384) }
    requires writer { (writer.old.me.0.writes ≡ true) × (writer.old.me.1 ≡ []) × HasRows rows writer.old.me.0.stamps writer.old.me.0.rows }
    ensures { (writer.new.table_id ≡ writer.old.table_id) × (writer.new.me ≡ (shaken writer.old.me.0 row, [])) }
{
    if stamp_of(shared, writer, rows, row) != 0 {
        shared.store::<Shake>(writer, stamp_place(rows, row), 0);
    }
}

/// Stores a word of a row whose stamp is 0, if it differs.
fn put_word<S: Story>(
    shared: &Shared<S::Entry, View<S::Opening, S::Entry>, Key<S::Opening>, Kept<S>>,
    writer: &mut Seat<S::Entry, View<S::Opening, S::Entry>>,
    rows: usize,
    row: usize,
    word: usize,
    value: u64,
)
    requires table { (writer.old.table_id ≡ shared.now.table_id) × (shared.now.table_id.words ≡ table_size rows) × (rows ≡ shared.now.key.rows) × (rows ≤ 16384) }
    requires place { (row < rows) × (word < 73) }
    requires writer { (writer.old.me.0.writes ≡ true) × (writer.old.me.1 ≡ []) × HasRows rows writer.old.me.0.stamps writer.old.me.0.rows }
    requires zero { stamp_at writer.old.me.0.stamps row ≡ 0 }
    ensures { (writer.new.table_id ≡ writer.old.table_id) × (writer.new.me ≡ (with_word writer.old.me.0 row word value, [])) }
{
    let place = word_place(rows, row, word);
    if find(shared, writer, place) != value {
        shared.store::<PutWord>(writer, place, value);
    }
}

/// Stores the words of a row whose stamp is 0.
pub(crate) fn put_row<S: Story>(
    shared: &Shared<S::Entry, View<S::Opening, S::Entry>, Key<S::Opening>, Kept<S>>,
    writer: &mut Seat<S::Entry, View<S::Opening, S::Entry>>,
    rows: usize,
    row: usize,
    words: &[u64; 73],
)
    requires table { (writer.old.table_id ≡ shared.now.table_id) × (shared.now.table_id.words ≡ table_size rows) × (rows ≡ shared.now.key.rows) × (rows ≤ 16384) }
    requires place { row < rows }
    requires writer { (writer.old.me.0.writes ≡ true) × (writer.old.me.1 ≡ []) × HasRows rows writer.old.me.0.stamps writer.old.me.0.rows }
    requires zero { stamp_at writer.old.me.0.stamps row ≡ 0 }
    ensures { (writer.new.table_id ≡ writer.old.table_id) × (writer.new.me ≡ (record writer.old.me.0 { rows = slice_set writer.old.me.0.rows row words.now }, [])) }
{
    for word in 0..73 {
        put_word(shared, writer, rows, row, word, words[word]);
    }
}

/// Gives a row that is good a stamp that no row had before, if one is left. Gives how many were given then.
pub(crate) fn renew_row<S: Story>(
    shared: &Shared<S::Entry, View<S::Opening, S::Entry>, Key<S::Opening>, Kept<S>>,
    writer: &mut Seat<S::Entry, View<S::Opening, S::Entry>>,
    given: u64,
    rows: usize,
    row: usize,
) -> u64
    requires table { (writer.old.table_id ≡ shared.now.table_id) × (shared.now.table_id.words ≡ table_size rows) × (rows ≡ shared.now.key.rows) × (row < rows) × (rows ≤ 16384) }
    requires writer { (writer.old.me.0.writes ≡ true) × (writer.old.me.1 ≡ []) }
    requires given { given ≡ writer.old.me.0.given }
    requires zero { stamp_at writer.old.me.0.stamps row ≡ 0 }
    requires good { S.good shared.now.key.opening.value writer.old.me.0.history (row_at writer.old.me.0.rows row) }
    ensures seat { (writer.new.table_id ≡ writer.old.table_id) × (writer.new.me ≡ (renewed writer.old.me.0 row, [])) }
    ensures given { result ≡ writer.new.me.0.given }
{
    if given == u64::MAX {
        return given;
    }
    shared.store::<Restamp>(writer, stamp_place(rows, row), given + 1);
    given + 1
}
