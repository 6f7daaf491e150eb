//! A row of a port is found by its key.

ghost use Rattle.std.specs.Prelude.{◌≡◌, ◌<◌, ◌++◌, ◌∷◌, [], IfNone, IfSome, get_or, length, true, false};
ghost use Rattle.vsw_offload.specs.Private.Finding.{HasNone, HasOne};
ghost use Rattle.vsw_offload.specs.Rows as spec;
ghost use Rattle.vsw_offload.specs.Rows.{Rise, key_of};

use crate::guesses::Guesses;
use crate::order::is_less;

/// The row in the middle, and those in front of it and behind it.
fn middle(rows: &[[u64; 73]]) -> Option<(&[[u64; 73]], &[u64; 73], &[[u64; 73]])>
    ensures some { IfSome result (λ m. rows.now ≡ m.0.now ++ m.1.now ∷ m.2.now) }
    ensures none { IfNone result (rows.now ≡ []) }
{
    let (front, back) = rows.split_at(rows.len() / 2);
    match back.split_first() {
        None => None,
        Some((row, behind)) => Some((front, row, behind)),
    }
}

/// Whether a row's key comes before a key.
fn is_below(row: &[u64; 73], key: &[u64; 16]) -> bool
    ensures { result ≡ spec.is_less (key_of row.now) key.now }
{
    is_less(&row[..16], key)
}

/// Whether a row has the key.
#[inline(always)]
fn has_key(row: &[u64; 73], key: &[u64; 16]) -> bool
    ensures told { result ≡ true → key_of row.now ≡ key.now }
    ensures back { key_of row.now ≡ key.now → result ≡ true }
{
    match row.first_chunk::<16>() {
        None => false,
        Some(front) => *front == *key,
    }
}

/// The row of a key among rows whose keys rise.
pub(crate) fn find<'a>(rows: &'a [[u64; 73]], key: &[u64; 16]) -> Option<&'a [u64; 73]>
    requires rise { Rise rows.now }
    ensures one { IfSome result (λ words. HasOne rows.now words.now) }
    ensures key { IfSome result (λ words. key_of words.now ≡ key.now) }
    ensures none { IfNone result (HasNone rows.now key.now) }
{
    match middle(rows) {
        None => None,
        Some((front, row, behind)) => {
            if is_below(row, key) {
                find(behind, key)
            } else if has_key(row, key) {
                Some(row)
            } else {
                find(front, key)
            }
        }
    }
}

/// Whether the row at a place has the key.
#[inline(always)]
fn is_at(rows: &[[u64; 73]], place: usize, key: &[u64; 16]) -> bool
    ensures within { result ≡ true → place < length rows.now }
    ensures key { result ≡ true → key_of (get_or rows.now place []) ≡ key.now }
{
    place < rows.len() && has_key(&rows[place], key)
}

/// The place of the row of a key, if one of the guesses is right.
#[inline(always)]
pub(crate) fn guessed(
    rows: &[[u64; 73]],
    guesses: &Guesses,
    slot: u32,
    key: &[u64; 16],
) -> Option<usize>
    ensures within { IfSome result (λ place. place < length rows.now) }
    ensures key { IfSome result (λ place. key_of (get_or rows.now place []) ≡ key.now) }
{
    let (first, next) = guesses.at(slot);
    if is_at(rows, first, key) {
        return Some(first);
    }
    if is_at(rows, next, key) {
        return Some(next);
    }
    None
}
