//! Packets that are handed on between the ports of a switch.
#![tactic(auto)]

mod law;
mod onward;

pub use law::{existence_laws, handing_laws};
pub use onward::{hand_on, local};
