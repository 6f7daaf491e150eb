//! Reading a report: its rounds, or the first line up to which no report begins.
#![tactic(auto)]

mod built;
mod decode;
mod fate;
mod law;
mod line;
mod name;
mod number;
mod parts;
mod place;
mod reader;
mod report;
mod said;

pub use law::laws;
pub use report::{BadReport, Report, read_report};
