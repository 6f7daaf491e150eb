//! What a run of the program is: the words of its command line, what it opens, reads, puts and complains, and how it ends.
#![tactic(auto)]

mod claim;
mod ending;
mod forward;
mod grammar_law;
mod law;
mod names;
mod numbers;
mod query;
mod reading;
mod words;

pub use claim::Claim;
pub use ending::{Ending, ReportFault, RowsFault, Status};
pub use forward::Request;
pub use grammar_law::grammar_laws;
pub use law::{done_laws, export_laws, order_laws, program_laws, statuses};
pub use query::Query;
pub use reading::{Asked, read_words};
pub use words::Word;
