//! What holds of every report: laws over histories, merged lines, rounds, and rounds of any number of workers.
#![tactic(auto)]

mod agreement_law;
mod law;
mod merging_law;

pub use agreement_law::agreement_laws;
pub use law::{controller_laws, cover_laws, line_laws, report_laws, short_laws, value_laws};
pub use merging_law::{beside_laws, merging_laws};
