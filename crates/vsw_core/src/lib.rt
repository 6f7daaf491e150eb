//! A port under its lock: its layers and history, and its rows under their writer.
#![tactic(auto)]

mod commanding;
mod counting;
mod crossing;
mod exporting;
mod granting;
mod light;
mod owner;
mod reconciling;
mod rooms;
mod writing;

pub use exporting::Exported;
pub use owner::{Core, Reconciled};
