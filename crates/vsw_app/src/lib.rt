//! The program: its words, its run, how that ends, and what the process ends with.
#![tactic(auto)]

mod check;
mod complaint;
mod ending;
mod engine;
mod given;
mod offload;
mod open;
mod process;
mod run;
mod through;
mod way;

pub use open::Open;
pub use process::{exit_code, run_process, status_without};
pub use run::run_words;
pub use vsw_replay::{Answer, Watch, Why};
