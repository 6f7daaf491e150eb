//! A round of many workers over several ports: from what a pass promises of one call to the rounds of a run, and the text that tells of them. Definitions and laws alone.
#![tactic(auto)]

mod crew_law;
mod law;

pub use crew_law::{crew_laws, journal_laws, split_laws, turn_laws};
pub use law::{actor_laws, deal_laws, lock_laws, pass_laws, port_laws, run_laws};
