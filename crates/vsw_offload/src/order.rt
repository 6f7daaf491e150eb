//! The order of rows by their keys.

ghost use Rattle.std.specs.Prelude.{◌≡◌, true, false};
ghost use Rattle.vsw_offload.specs.Private.Reading.{is_next};
ghost use Rattle.vsw_offload.specs.Rows as spec;

/// Whether words come before others: the first that differ decide.
pub(crate) fn is_less(left: &[u64], right: &[u64]) -> bool
    ensures { result ≡ spec.is_less left.now right.now }
{
    match left.split_first() {
        None => !right.is_empty(),
        Some((x, xs)) => match right.split_first() {
            None => false,
            Some((y, ys)) => *x < *y || (*x == *y && is_less(xs, ys)),
        },
    }
}

/// Whether the key of a row comes before that of another.
pub(crate) fn is_before(left: &[u64; 73], right: &[u64; 73]) -> bool
    ensures { result ≡ spec.is_before left.now right.now }
{
    is_less(&left[..16], &right[..16])
}

/// Whether a row comes behind the last of these.
#[tactic(auto, using(crate::proofs::Rising::next_last))]
pub(crate) fn is_next(rows: &[[u64; 73]], words: &[u64; 73]) -> bool
    ensures { result ≡ is_next rows.now words.now }
{
    match rows.split_last() {
        None => true,
        Some((last, _)) => is_before(last, words),
    }
}
