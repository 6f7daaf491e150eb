//! A port that threads share: packets by its rows without a lock, and else packets and commands by its layers under one.
#![tactic(auto)]

mod answer;
mod held;
mod leaving;
mod live;
mod locked;
mod naming;
mod opening;
mod unit;

pub use answer::{Fast, Ticket, Told};
pub use held::Held;
pub use live::LivePort;
pub use naming::Naming;
pub use opening::{OpenPort, name_all};
pub use unit::Unit;
