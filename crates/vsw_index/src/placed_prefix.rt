//! What a trie is built of.

use vsw_base::Prefix;

/// A prefix at a place: places are numbers of the caller's, the least goes first.
#[derive(Clone, Copy, Debug, PartialEq, Eq)]
pub struct PlacedPrefix {
    pub place: u32,
    pub prefix: Prefix,
}
