//! A switch of one thread: its ports, its packets, and its rounds.
#![tactic(auto)]

mod arrival;
mod callers;
mod live;
mod numbers;
mod round;
mod switch;
mod tally;
mod worker;

pub use round::run_round;
pub use switch::Switch;
pub use tally::Tally;
