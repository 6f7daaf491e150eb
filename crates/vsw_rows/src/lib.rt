//! Rows of unified flows: when one is good, which changes shake it, and that good rows stay good and answer as the layers do.
#![tactic(auto)]

mod growing_law;
mod law;
mod lean_law;
mod shaking;
mod words_law;

pub use growing_law::growing_laws;
pub use law::laws;
pub use lean_law::lean_laws;
pub use shaking::{shake, shakes};
pub use words_law::words_laws;
