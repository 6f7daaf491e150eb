//! The writer's steps on the history, with a pass that is lent to it.
ghost use Rattle.std.specs.Prelude.{◌≡◌, ◌≢◌, ◌+◌, ◌++◌, ◌∷◌, ℕ, ◌<◌, ◌≤◌, [], true, false, length, Some};
ghost use Rattle.vsw_table.specs.Rules.{lent, granted, advanced, writer_of, pass_of, moved, stamp_at, row_at};
ghost use Rattle.vsw_table.specs.Steps.{IsHeld, Tells};

use crate::rule::{Add, Grant, Kept, Key, Leave, Lend};
use crate::view::View;
use atomic_table::{Seat, Shared};
use vsw_stamps::Story;

/// The writer's seat takes in all that the pass keeps.
pub(crate) fn lend<S: Story>(
    shared: &Shared<S::Entry, View<S::Opening, S::Entry>, Key<S::Opening>, Kept<S>>,
    writer: &mut Seat<S::Entry, View<S::Opening, S::Entry>>,
    pass: &mut Seat<S::Entry, View<S::Opening, S::Entry>>,
)
    requires table { (writer.old.table_id ≡ shared.now.table_id) × (pass.old.table_id ≡ shared.now.table_id) × (0 < shared.now.table_id.words) }
    requires writer { (writer.old.me.0.writes ≡ true) × (writer.old.me.0.live ≡ true) × (writer.old.me.1 ≡ []) }
    requires pass { (pass.old.me.0.live ≡ true) × (pass.old.me.0.writes ≡ false) × (pass.old.me.0.crosses ≡ true) × (pass.old.me.0.told ≡ []) }
    ensures { (writer.new.table_id ≡ writer.old.table_id) × (writer.new.me ≡ (lent writer.old.me.0 pass.old.me.0, [])) }
{
    let whole = shared.split_seat::<Leave>(pass);
    shared.join_seat::<Lend>(writer, whole);
}

/// Grants permits, and loads word 0. The permits come in by the number of a `fetch_max`, which leaves the word as it
/// is, since 2^32 and the count are above any number of permits; where none are granted a load does.
pub(crate) fn grant<S: Story>(
    shared: &Shared<S::Entry, View<S::Opening, S::Entry>, Key<S::Opening>, Kept<S>>,
    writer: &mut Seat<S::Entry, View<S::Opening, S::Entry>>,
    more: u32,
) -> u64
    requires table { (writer.old.table_id ≡ shared.now.table_id) × (0 < shared.now.table_id.words) }
    requires writer { (writer.old.me.0.writes ≡ true) × (writer.old.me.0.crosses ≡ true) × (writer.old.me.1 ≡ []) }
    requires room { length writer.old.me.0.receipts + writer.old.me.0.permits + more ≤ 134217728 }
    requires opens { writer.old.me.0.opening ≡ Some shared.now.key.opening.value }
    ensures seat { (writer.new.table_id ≡ writer.old.table_id) × (writer.new.me ≡ (granted writer.old.me.0 more, [])) }
    ensures word { result ≡ 4294967296 + length writer.old.me.0.history }
    ensures tells { Tells S.who writer.new.me.0 shared.now.key.opening.value }
    ensures held { IsHeld writer.old.me.0 }
{
    if more == 0 {
        return shared.load::<Grant<S>>(writer, 0);
    }
    shared.fetch_max::<Grant<S>>(writer, 0, u64::from(more))
}

/// Adds an entry. Each row that has a stamp must stay good: a stamp that is left where the row is bad would answer
/// packets by rules of before, one that is taken away without need costs one walk.
pub(crate) fn add<S: Story>(
    shared: &Shared<S::Entry, View<S::Opening, S::Entry>, Key<S::Opening>, Kept<S>>,
    writer: &mut Seat<S::Entry, View<S::Opening, S::Entry>>,
    word: u64,
    entry: &S::Entry,
)
    requires table { (writer.old.table_id ≡ shared.now.table_id) × (0 < shared.now.table_id.words) }
    requires writer { (writer.old.me.0.writes ≡ true) × (writer.old.me.0.crosses ≡ true) × (writer.old.me.1 ≡ []) }
    requires entry { (S.who shared.now.key.opening.value entry.now ≡ writer.old.me.0.number) × (0 < writer.old.me.0.permits) }
    requires stays { (r : ℕ) → stamp_at writer.old.me.0.stamps r ≢ 0 → S.good shared.now.key.opening.value (writer.old.me.0.history ++ entry.now ∷ []) (row_at writer.old.me.0.rows r) }
    requires word { (word ≡ 4294967296 + length writer.old.me.0.history) × (length writer.old.me.0.history < 4294967295) }
    ensures seat { (writer.new.table_id ≡ writer.old.table_id) × (writer.new.me ≡ (advanced writer.old.me.0 entry.now, [])) }
{
    shared.compare_exchange_with::<Add>(writer, 0, word, word + 1, entry);
}

/// The pass has a seat of its own again.
pub(crate) fn part<S: Story>(
    shared: &Shared<S::Entry, View<S::Opening, S::Entry>, Key<S::Opening>, Kept<S>>,
    writer: &mut Seat<S::Entry, View<S::Opening, S::Entry>>,
) -> Seat<S::Entry, View<S::Opening, S::Entry>>
    requires table { (writer.old.table_id ≡ shared.now.table_id) × (0 < shared.now.table_id.words) }
    requires writer { (writer.old.me.0.writes ≡ true) × (writer.old.me.0.live ≡ true) × (writer.old.me.0.crosses ≡ true) × (writer.old.me.1 ≡ []) }
    ensures writer { (writer.new.table_id ≡ writer.old.table_id) × (writer.new.me ≡ (writer_of writer.old.me.0, [])) }
    ensures pass { (result.table_id ≡ writer.old.table_id) × (result.me ≡ (pass_of writer.old.me.0, [])) }
{
    shared.split_seat::<Lend>(writer)
}
