//! The files of a run, each read and judged before the next is opened: the policy, the commands, and of a run that checks the whole trace and
//! the report; of one that answers from rows the rows.
#![tactic(auto)]

mod early;
mod report;
mod rows;
mod trace;

pub use early::{open_commands, open_policy};
pub use report::open_report;
pub use rows::open_rows;
pub use trace::open_trace;
