//! Row words: keys, bodies and identities as 64-bit words, read back from them, and acts done as they are read.
#![tactic(auto)]

mod act;
mod doing;
#[cfg(test)]
mod doing_tests;
mod head;
mod identity_reading;
mod key;
mod kind;
mod law;
mod pass;
mod reading;
mod row;
mod slots;
mod stage;
mod verdict;

pub use doing::{Doing, doing_of};
pub use identity_reading::identity_to;
pub use key::key_words;
pub use law::laws;
pub use pass::do_words;
pub use reading::{body_from, body_of, body_to};
pub use row::{Body, row_of, words_in_use};
pub use slots::slot_of;
pub use verdict::{until_in, verdict_in};
