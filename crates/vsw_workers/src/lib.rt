//! Rounds of actors: each does its jobs in order, in a thread of its own or in turn, and a round ends when all are done.
#![tactic(auto)]

mod actor;
mod round;

pub use actor::{Forwarder, Gate};
pub use round::{do_some, run_in_turn, run_round};
