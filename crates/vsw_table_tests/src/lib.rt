//! Tests of `vsw_stamps` and `vsw_table`, kept apart from them: with tests of its own, a crate is proved once more.
#![tactic(auto)]

mod callers;
mod counted;
mod flows;
#[cfg(test)]
mod judge;
#[cfg(test)]
mod machine_row_tests;
#[cfg(test)]
mod machine_trial;
#[cfg(test)]
mod refused_tests;
#[cfg(test)]
mod row_tests;
#[cfg(test)]
mod run_tests;
mod settling;
#[cfg(test)]
mod thread_tests;

pub use callers::{add_and_put, add_and_tell, counts_of};
pub use counted::Counted;
pub use flows::Flows;
pub use settling::{put_flow, settle};
