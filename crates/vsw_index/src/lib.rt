//! Indexes of places: the least place at or above a bound whose prefix holds an address, or whose range a value.
#![tactic(auto)]

mod block;
mod chain;
mod interval;
mod lesser_place;
mod memory;
mod near;
mod order;
mod placed_prefix;
mod placed_range;
mod search;
mod span;
mod trie;

pub use interval::Interval;
pub use placed_prefix::PlacedPrefix;
pub use placed_range::PlacedRange;
pub use trie::Trie;
