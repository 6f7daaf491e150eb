//! The rows of unified flows of a port under their writer, each with a stamp of its own.
#![tactic(auto)]

mod falling;
mod gists;
mod leaners;
mod leaning;
mod looks;
mod mixing;
mod obeying;
mod places;
mod putting;
mod rows;
mod shaking;
mod spot;
mod spread;
mod story;

pub use places::Found;
pub use rows::Rows;
pub use shaking::moves_none;
pub use story::PortStory;
