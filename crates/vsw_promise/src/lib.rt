//! What the rounds of a run are: its ports, the order of its commands, and what its report tells.
#![tactic(auto)]

mod law;
mod layers;
mod order_law;
mod port;
mod schedule;

pub use law::{jobs_alone, rounds_exist, samples};
pub use order_law::order_laws;
pub use port::{Port, macs, ports_of};
pub use schedule::Schedule;
