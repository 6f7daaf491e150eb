//! The text that was put fixes the histories: laws over the rounds of a run and their text.
#![tactic(auto)]

mod law;

pub use law::{file_laws, laws};
