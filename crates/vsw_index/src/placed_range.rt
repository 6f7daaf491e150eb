//! What an interval index is built of.

/// A range at a place, both ends in it; with `low` above `high` it holds nothing. Places are numbers of
/// the caller's, the least goes first.
#[derive(Clone, Copy, Debug, PartialEq, Eq)]
pub struct PlacedRange {
    pub place: u32,
    pub low: u64,
    pub high: u64,
}
