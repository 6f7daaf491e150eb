//! Lookups without a lock as a pure machine of steps, and what holds of every list of steps.
#![tactic(auto)]

mod law;
mod machine;
mod scan;
mod shown;
mod step;
mod store;
mod story;

pub use law::{laws, laws_of_runs};
pub use machine::Machine;
pub use shown::{Record, Seen};
pub use step::{Load, Loaded, NotNow, Step};
pub use story::{Story, TestStory};
