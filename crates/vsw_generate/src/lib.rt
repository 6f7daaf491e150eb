//! A generated workload: packets that are drawn from a number, the same at each run.
#![tactic(auto)]

mod draws;
mod frame;
mod policy;
mod workload;

pub use workload::{Made, Workload};
