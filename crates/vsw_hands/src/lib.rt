//! Threads that stay for many rounds: hands take shares from a board and work on them piece by piece, while one thread gives shares, helps, and takes what is told.
#![tactic(auto)]

mod board;
mod hand;
mod lead;
mod pool;
mod roll;
mod running;
mod task;
mod worked;

pub use hand::Hand;
pub use lead::Lead;
pub use pool::Pool;
pub use roll::Roll;
pub use running::run_hands;
pub use worked::Worked;
