//! A trace or a generated workload, run through the switch round by round.
#![tactic(auto)]

mod ahead;
mod begun;
mod cut;
mod draw;
mod ending;
mod export;
mod quiet;
mod run;
mod runner;
mod sheets;
mod stream;
mod streaming;
mod summary;
mod trace;

pub use ending::TraceEnd;
pub use export::export_trace;
pub use run::{WorkloadEnd, run_workload};
pub use runner::Runner;
pub use stream::stream_trace;
pub use trace::run_trace;
pub use vsw_crew::{Answer, Crew, Naming, Switch, Tally, Watch, Why, run_round};
