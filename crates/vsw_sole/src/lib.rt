//! A port as one thread has it, and one frame's way through it.
#![tactic(auto)]

mod caller;
mod keeping;
mod open;
mod passing;
mod port;

pub use keeping::Keeping;
pub use passing::transit;
pub use port::SolePort;
