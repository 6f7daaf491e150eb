//! Rings: what one thread hands to another, item by item, up to an end.
#![tactic(auto)]

mod drain;
mod feed;
mod rule;
mod taken;

pub use drain::{Drain, agree};
pub use feed::{Feed, open};
pub use rule::{AnyItem, Rule};
pub use taken::Taken;
