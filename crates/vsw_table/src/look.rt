//! A look: what it loads, in which order, and what it makes of it.
ghost use Rattle.std.specs.Prelude.{◌≡◌, ◌⊎◌, ◌+◌, ◌-◌, ◌<◌, ◌≤◌, ◌%◌, ◌++◌, ◌∷◌, ℕ, List, [], true, false, length, Some, Option, MatchBool, MatchOption, IfSome, slice_index_or, replicate};
ghost use Rattle.vsw_stamps.specs.declared.step.Load.TheVariants.{Again};
ghost use Rattle.vsw_stamps.specs.Machine.{finished_by, is_closed, longer};
ghost use Rattle.vsw_stamps.specs.Order.{word_at};
ghost use Rattle.vsw_stamps.specs.Sound.{AreRight, Fills};
ghost use Rattle.vsw_table.specs.declared.view.Tried.{Tried};
ghost use Rattle.vsw_table.specs.Places.{table_size};
ghost use Rattle.vsw_table.specs.Private.Parts.{Apart, AreFar, AreOther};
ghost use Rattle.vsw_table.specs.Steps.{stamped, worded, compared, ended, Counted};
ghost use Rattle.vsw_table.specs.Held.{HasTop, IsRead, Differs, Found, FoundNear, IsMissed, MissedNear};

use crate::place::{place_behind, stamp_place};
use crate::rule::{Compare, Count, End, Kept, Key, ReadStamp, ReadWord};
use crate::view::View;
use atomic_table::{Seat, Shared};
use vsw_stamps::Story;

/// Loads a row's stamp.
pub(crate) fn read_stamp<S: Story>(
    shared: &Shared<S::Entry, View<S::Opening, S::Entry>, Key<S::Opening>, Kept<S>>,
    seat: &mut Seat<S::Entry, View<S::Opening, S::Entry>>,
    rows: usize,
    row: usize,
) -> u64
    requires table { (seat.old.table_id ≡ shared.now.table_id) × (shared.now.table_id.words ≡ table_size rows) × (rows ≡ shared.now.key.rows) × (row < rows) × (rows ≤ 16384) }
    requires pass { (seat.old.me.0.live ≡ true) × (seat.old.me.0.writes ≡ false) × (seat.old.me.1 ≡ []) }
    ensures { (seat.new.table_id ≡ seat.old.table_id) × (seat.new.me ≡ (stamped seat.old.me.0 row result, [])) }
{
    shared.load::<ReadStamp>(seat, stamp_place(rows, row))
}

/// Loads the next word of the row whose stamp was loaded last: that of the turn which comes so many behind `from`, in the same part of the row.
#[inline(always)]
pub(crate) fn read_word<S: Story>(
    shared: &Shared<S::Entry, View<S::Opening, S::Entry>, Key<S::Opening>, Kept<S>>,
    seat: &mut Seat<S::Entry, View<S::Opening, S::Entry>>,
    rows: usize,
    row: usize,
    from: usize,
    behind: usize,
) -> u64
    requires table { (seat.old.table_id ≡ shared.now.table_id) × (shared.now.table_id.words ≡ table_size rows) × (rows ≡ shared.now.key.rows) × (row < rows) × (rows ≤ 16384) }
    requires pass { (seat.old.me.0.live ≡ true) × (seat.old.me.0.writes ≡ false) × (seat.old.me.1 ≡ []) }
    requires top { HasTop seat.old.me.0.tried seat.old.me.0.shown.rows row (from + behind) × (from + behind < 73) × (is_closed seat.old.me.0.shown ≡ false) }
    requires part { (from + behind < 31) ⊎ (31 ≤ from) }
    ensures { (seat.new.table_id ≡ seat.old.table_id) × (seat.new.me ≡ (worded seat.old.me.0 (result ∷ []), [])) }
{
    shared.load::<ReadWord>(seat, place_behind(rows, row, from, behind))
}

/// Loads words of a row, from the turn `from` on, which lie in one part of it.
pub(crate) fn read_words<S: Story>(
    shared: &Shared<S::Entry, View<S::Opening, S::Entry>, Key<S::Opening>, Kept<S>>,
    seat: &mut Seat<S::Entry, View<S::Opening, S::Entry>>,
    rows: usize,
    row: usize,
    from: usize,
    words: &mut [u64],
)
    requires table { (seat.old.table_id ≡ shared.now.table_id) × (shared.now.table_id.words ≡ table_size rows) × (rows ≡ shared.now.key.rows) × (row < rows) × (rows ≤ 16384) }
    requires pass { (seat.old.me.0.live ≡ true) × (seat.old.me.0.writes ≡ false) × (seat.old.me.1 ≡ []) }
    requires top { HasTop seat.old.me.0.tried seat.old.me.0.shown.rows row from × (from + length words.old ≤ 73) × (is_closed seat.old.me.0.shown ≡ false) }
    requires part { (from + length words.old ≤ 31) ⊎ (31 ≤ from) }
    ensures length { length words.new ≡ length words.old }
    ensures seat { (seat.new.table_id ≡ seat.old.table_id) × (seat.new.me ≡ (worded seat.old.me.0 words.new, [])) }
{
    for i in 0..words.len() {
        words[i] = read_word(shared, seat, rows, row, from, i);
    }
}

/// The words of a key that are loaded first.
#[inline(always)]
fn plain_words(key: &[u64; 16]) -> [u64; 4]
    ensures long { length result ≡ 4 }
    ensures words { (turn : ℕ) → turn < 4 → slice_index_or result turn 0 ≡ slice_index_or key.now (word_at turn) 0 }
{
    [key[0], key[2], key[3], key[8]]
}

/// The other words of a key, in the order in which they are loaded.
#[inline(always)]
fn other_words(key: &[u64; 16]) -> [u64; 12]
    ensures long { length result ≡ 12 }
    ensures words { (turn : ℕ) → turn < 12 → slice_index_or result turn 0 ≡ slice_index_or key.now (word_at (31 + turn)) 0 }
{
    [
        key[1], key[4], key[5], key[6], key[7], key[9], key[10], key[11], key[12], key[13],
        key[14], key[15],
    ]
}

/// The seven words of a row that are loaded first: of the key, and of the body.
#[inline(always)]
fn front_of(plain: &[u64; 4], three: &[u64]) -> [u64; 7]
    requires three { length three.now ≡ 3 }
    ensures { result ≡ plain.now ++ three.now }
{
    [
        plain[0], plain[1], plain[2], plain[3], three[0], three[1], three[2],
    ]
}

/// Whether a key has no words but those that are loaded first.
#[inline(always)]
fn is_plain(key: &[u64; 16]) -> bool
    ensures { result ≡ true → (turn : ℕ) → turn < 12 → slice_index_or key.now (word_at (31 + turn)) 0 ≡ 0 }
{
    let front = key[1] | key[4] | key[5] | key[6] | key[7] | key[9];
    (front | key[10] | key[11] | key[12] | key[13] | key[14] | key[15]) == 0
}

/// Makes all words 0.
fn clear(words: &mut [u64])
    ensures { words.new ≡ replicate (length words.old) 0 }
{
    for i in 0..words.len() {
        words[i] = 0;
    }
}

/// Loads words of a row, from the turn `from` on, which lie in one part of it, as long as they are the wanted ones. Says whether all were.
#[inline(always)]
fn has_words<S: Story>(
    shared: &Shared<S::Entry, View<S::Opening, S::Entry>, Key<S::Opening>, Kept<S>>,
    seat: &mut Seat<S::Entry, View<S::Opening, S::Entry>>,
    rows: usize,
    row: usize,
    from: usize,
    wanted: &[u64],
) -> bool
    requires table { (seat.old.table_id ≡ shared.now.table_id) × (shared.now.table_id.words ≡ table_size rows) × (rows ≡ shared.now.key.rows) × (row < rows) × (rows ≤ 16384) }
    requires pass { (seat.old.me.0.live ≡ true) × (seat.old.me.0.writes ≡ false) × (seat.old.me.1 ≡ []) }
    requires top { HasTop seat.old.me.0.tried seat.old.me.0.shown.rows row from × (from + length wanted.now ≤ 73) × (is_closed seat.old.me.0.shown ≡ false) }
    requires part { (from + length wanted.now ≤ 31) ⊎ (31 ≤ from) }
    ensures { (seat.new.table_id ≡ seat.old.table_id) × ((words : List ℕ) × (seat.new.me ≡ (worded seat.old.me.0 words, [])) × MatchBool result (words ≡ wanted.now) (Apart words wanted.now)) }
{
    for i in 0..wanted.len() {
        let word = read_word(shared, seat, rows, row, from, i);
        if word != wanted[i] {
            return false;
        }
    }
    true
}

/// Loads the words that are in use of a row whose words of the far part aren't, behind the seven that are loaded first. The rest of the body is 0.
fn read_near<S: Story>(
    shared: &Shared<S::Entry, View<S::Opening, S::Entry>, Key<S::Opening>, Kept<S>>,
    seat: &mut Seat<S::Entry, View<S::Opening, S::Entry>>,
    rows: usize,
    row: usize,
    used: usize,
    rest: &mut [u64],
)
    requires table { (seat.old.table_id ≡ shared.now.table_id) × (shared.now.table_id.words ≡ table_size rows) × (rows ≡ shared.now.key.rows) × (row < rows) × (rows ≤ 16384) }
    requires pass { (seat.old.me.0.live ≡ true) × (seat.old.me.0.writes ≡ false) × (seat.old.me.1 ≡ []) }
    requires top { HasTop seat.old.me.0.tried seat.old.me.0.shown.rows row 7 × (length rest.old ≡ 54) × (is_closed seat.old.me.0.shown ≡ false) }
    requires used { (7 ≤ used) × (used ≤ 31) }
    ensures table { seat.new.table_id ≡ seat.old.table_id }
    ensures seat { (words : List ℕ) × (seat.new.me ≡ (worded seat.old.me.0 words, [])) × (length words ≡ used - 7) × (rest.new ≡ words ++ replicate (54 - length words) 0) }
{
    let (read, beyond) = rest.split_at_mut(used - 7);
    read_words(shared, seat, rows, row, 7, read);
    clear(beyond);
}

/// Loads the words that are in use of a row behind the seven that are loaded first: those of the near part, the key's other words, and those left of the body. The rest
/// of the body is 0. Says whether the key's words were the wanted ones.
#[inline(never)]
fn read_far<S: Story>(
    shared: &Shared<S::Entry, View<S::Opening, S::Entry>, Key<S::Opening>, Kept<S>>,
    seat: &mut Seat<S::Entry, View<S::Opening, S::Entry>>,
    rows: usize,
    row: usize,
    used: usize,
    others: &[u64; 12],
    rest: &mut [u64],
) -> bool
    requires table { (seat.old.table_id ≡ shared.now.table_id) × (shared.now.table_id.words ≡ table_size rows) × (rows ≡ shared.now.key.rows) × (row < rows) × (rows ≤ 16384) }
    requires pass { (seat.old.me.0.live ≡ true) × (seat.old.me.0.writes ≡ false) × (seat.old.me.1 ≡ []) }
    requires top { HasTop seat.old.me.0.tried seat.old.me.0.shown.rows row 7 × (length rest.old ≡ 54) × (is_closed seat.old.me.0.shown ≡ false) }
    requires used { used ≤ 73 }
    ensures table { seat.new.table_id ≡ seat.old.table_id }
    ensures seat { (words : List ℕ) × (seat.new.me ≡ (worded seat.old.me.0 words, [])) × MatchBool result (AreFar used others.now words rest.new) (AreOther others.now words) }
{
    let (near, far) = rest.split_at_mut(24);
    read_words(shared, seat, rows, row, 7, near);
    if !has_words(shared, seat, rows, row, 31, others) {
        return false;
    }
    let (read, beyond) = far.split_at_mut(used.max(43) - 43);
    read_words(shared, seat, rows, row, 43, read);
    clear(beyond);
    true
}

/// Loads the words of a row that are in use, as long as those of its key are this key's, and clears the rest of the body. Says whether its key is this one.
pub(crate) fn read_row<S: Story>(
    shared: &Shared<S::Entry, View<S::Opening, S::Entry>, Key<S::Opening>, Kept<S>>,
    seat: &mut Seat<S::Entry, View<S::Opening, S::Entry>>,
    rows: usize,
    row: usize,
    key: &[u64; 16],
    body: &mut [u64; 57],
) -> bool
    requires table { (seat.old.table_id ≡ shared.now.table_id) × (shared.now.table_id.words ≡ table_size rows) × (rows ≡ shared.now.key.rows) × (row < rows) × (rows ≤ 16384) }
    requires pass { (seat.old.me.0.live ≡ true) × (seat.old.me.0.writes ≡ false) × (seat.old.me.1 ≡ []) }
    requires top { HasTop seat.old.me.0.tried seat.old.me.0.shown.rows row 0 × (is_closed seat.old.me.0.shown ≡ false) }
    ensures table { seat.new.table_id ≡ seat.old.table_id }
    ensures seat { (words : List ℕ) × (seat.new.me ≡ (worded seat.old.me.0 words, [])) × MatchBool result (Fills S.used words (key.now ++ body.new)) (Differs words key.now) }
{
    let plain = plain_words(key);
    if !has_words(shared, seat, rows, row, 0, &plain) {
        return false;
    }
    let (three, rest) = body.split_at_mut(3);
    read_words(shared, seat, rows, row, 4, three);
    let used = S::words_used(&front_of(&plain, three));
    if used <= 31 && is_plain(key) {
        read_near(shared, seat, rows, row, used, rest);
        return true;
    }
    read_far(shared, seat, rows, row, used, &other_words(key), rest)
}

/// Loads word 0, which counts the entries: the moment at which the row that is being read was good, if it still has its
/// stamp afterwards.
pub(crate) fn count<S: Story>(
    shared: &Shared<S::Entry, View<S::Opening, S::Entry>, Key<S::Opening>, Kept<S>>,
    seat: &mut Seat<S::Entry, View<S::Opening, S::Entry>>,
) -> u64
    requires table { (seat.old.table_id ≡ shared.now.table_id) × (0 < shared.now.table_id.words) }
    requires pass { (seat.old.me.0.live ≡ true) × (seat.old.me.0.writes ≡ false) × (seat.old.me.1 ≡ []) }
    ensures { (seat.new.table_id ≡ seat.old.table_id) × (seat.new.me.1 ≡ []) × Counted (λ u. u) seat.old.me.0 result seat.new.me.0 }
{
    shared.load::<Count>(seat, 0)
}

/// Loads word 0 where no row was found.
fn end<S: Story>(
    shared: &Shared<S::Entry, View<S::Opening, S::Entry>, Key<S::Opening>, Kept<S>>,
    seat: &mut Seat<S::Entry, View<S::Opening, S::Entry>>,
) -> u64
    requires table { (seat.old.table_id ≡ shared.now.table_id) × (0 < shared.now.table_id.words) }
    requires pass { (seat.old.me.0.live ≡ true) × (seat.old.me.0.writes ≡ false) × (seat.old.me.1 ≡ []) }
    ensures { (seat.new.table_id ≡ seat.old.table_id) × (seat.new.me.1 ≡ []) × Counted ended seat.old.me.0 result seat.new.me.0 }
{
    shared.load::<End>(seat, 0)
}

/// Loads a row's stamp again. If it is the same, and not 0, the words that were read are of a row that was good when the
/// entries were counted.
fn read_again<S: Story>(
    shared: &Shared<S::Entry, View<S::Opening, S::Entry>, Key<S::Opening>, Kept<S>>,
    seat: &mut Seat<S::Entry, View<S::Opening, S::Entry>>,
    rows: usize,
    row: usize,
) -> u64
    requires table { (seat.old.table_id ≡ shared.now.table_id) × (shared.now.table_id.words ≡ table_size rows) × (rows ≡ shared.now.key.rows) × (row < rows) × (rows ≤ 16384) }
    requires pass { (seat.old.me.0.live ≡ true) × (seat.old.me.0.writes ≡ false) × (seat.old.me.0.crosses ≡ true) × (seat.old.me.1 ≡ []) }
    requires top { (n : ℕ) × HasTop seat.old.me.0.tried seat.old.me.0.shown.rows row n × (is_closed seat.old.me.0.shown ≡ true) }
    ensures seat { (seat.new.table_id ≡ seat.old.table_id) × (seat.new.me ≡ (compared seat.old.me.0 result, [])) }
    ensures right { (o : S.Opening) → seat.old.me.0.opening ≡ Some o → AreRight (S.good o) (longer seat.old.me.0.front seat.old.me.0.told) (finished_by (Again row result) seat.old.me.0.shown.count seat.old.me.0.shown.rows) }
{
    shared.load::<Compare<S>>(seat, stamp_place(rows, row))
}

/// Tries one row: its stamp, its words in use, word 0, and its stamp again. Some is the count of a hit.
pub(crate) fn try_row<S: Story>(
    shared: &Shared<S::Entry, View<S::Opening, S::Entry>, Key<S::Opening>, Kept<S>>,
    seat: &mut Seat<S::Entry, View<S::Opening, S::Entry>>,
    rows: usize,
    row: usize,
    key: &[u64; 16],
    body: &mut [u64; 57],
) -> Option<u64>
    requires table { (seat.old.table_id ≡ shared.now.table_id) × (shared.now.table_id.words ≡ table_size rows) × (rows ≡ shared.now.key.rows) × (row < rows) × (rows ≤ 16384) }
    requires pass { (seat.old.me.0.live ≡ true) × (seat.old.me.0.writes ≡ false) × (seat.old.me.0.crosses ≡ true) × (seat.old.me.0.told ≡ []) × (seat.old.me.1 ≡ []) }
    ensures table { seat.new.table_id ≡ seat.old.table_id }
    ensures same { IsRead seat.old.me.0 seat.new.me.0 × (seat.new.me.1 ≡ []) }
    ensures hit { IfSome result (λ n. (length seat.new.me.0.front ≡ n) × (n < 4294967296) × (seat.new.me.0.tried ≡ []) × ((o : S.Opening) → seat.old.me.0.opening ≡ Some o → S.good o seat.new.me.0.front (key.now ++ body.new))) }
    ensures found { MatchOption result ((x : Tried) × (seat.new.me.0.tried ≡ x ∷ seat.old.me.0.tried) × IsMissed key.now row x) (λ n. (seat.old.me.0.looks < seat.new.me.0.looks) × Found S.used (key.now ++ body.new) row seat.new.me.0.last) }
{
    let stamp = read_stamp(shared, seat, rows, row);
    if stamp == 0 {
        return None;
    }
    if !read_row(shared, seat, rows, row, key, body) {
        return None;
    }
    let word = count(shared, seat);
    if read_again(shared, seat, rows, row) != stamp {
        return None;
    }
    Some(word % (1 << 32))
}

/// The row so many behind a slot; behind the last one comes the first.
#[inline(always)]
fn row_behind(rows: usize, slot: usize, behind: usize) -> usize
    requires { (slot < rows) × (rows ≤ 16384) × (behind < 8) }
    ensures row { result ≡ (slot + behind) % rows }
    ensures inside { result < rows }
{
    let row = slot + behind;
    if row < rows { row } else { row % rows }
}

/// Tries each of the eight rows from `slot` on by itself. Says whether one was found, and how many entries there were.
pub(crate) fn look_from<S: Story>(
    shared: &Shared<S::Entry, View<S::Opening, S::Entry>, Key<S::Opening>, Kept<S>>,
    seat: &mut Seat<S::Entry, View<S::Opening, S::Entry>>,
    rows: usize,
    slot: usize,
    key: &[u64; 16],
    body: &mut [u64; 57],
) -> (bool, u64)
    requires table { (seat.old.table_id ≡ shared.now.table_id) × (shared.now.table_id.words ≡ table_size rows) × (rows ≡ shared.now.key.rows) × (slot < rows) × (rows ≤ 16384) }
    requires pass { (seat.old.me.0.live ≡ true) × (seat.old.me.0.writes ≡ false) × (seat.old.me.0.crosses ≡ true) × (seat.old.me.0.told ≡ []) × (seat.old.me.0.tried ≡ []) × (seat.old.me.1 ≡ []) }
    ensures table { seat.new.table_id ≡ seat.old.table_id }
    ensures same { IsRead seat.old.me.0 seat.new.me.0 × (seat.new.me.1 ≡ []) × (seat.new.me.0.tried ≡ []) }
    ensures count { (length seat.new.me.0.front ≡ result.1) × (seat.old.me.0.looks < seat.new.me.0.looks) × (result.1 < 4294967296) }
    ensures found { MatchBool result.0
        (((o : S.Opening) → seat.old.me.0.opening ≡ Some o → S.good o seat.new.me.0.front (key.now ++ body.new)) × FoundNear S.used (key.now ++ body.new) rows slot seat.new.me.0.last)
        (MissedNear key.now rows slot seat.new.me.0.last) }
{
    for i in 0..8 {
        let row = row_behind(rows, slot, i);
        if let Some(count) = try_row(shared, seat, rows, row, key, body) {
            return (true, count);
        }
    }
    (false, end(shared, seat) % (1 << 32))
}
