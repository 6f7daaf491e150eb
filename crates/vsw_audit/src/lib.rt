//! Judging a report by replaying it, and what it is to judge one: laws over the rounds of a run.
#![tactic(auto)]

mod ask;
mod carry;
mod check;
mod cuts;
mod dealing;
mod filling;
mod law;
mod line;
mod port;
mod round;
mod task;

pub use check::check_report;
pub use law::laws;
