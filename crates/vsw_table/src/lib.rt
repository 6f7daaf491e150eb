//! Rows that any thread reads without a lock, each with a stamp of its own, beside a history that one writer adds to.
#![tactic(auto)]

mod law;
mod look;
mod lookup;
mod place;
mod put;
mod rule;
mod steps;
mod view;

pub use law::laws;
pub use lookup::{Look, Lookup, Note, Opened, Pass, Writer};
