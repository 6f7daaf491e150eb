//! A trace, answered from the rows of a file alone: a line for each packet, put batch by batch.
#![tactic(auto)]

mod desk;
mod line;
mod run;
mod sheet;
mod text;

pub use run::answer_trace;
