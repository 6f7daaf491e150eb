//! The rows of ports as a file, written and read to the byte, and what such rows answer a frame.
#![tactic(auto)]

mod answer;
mod fault;
mod finding;
mod guesses;
mod heads;
mod id;
mod judging;
mod law;
mod making;
mod number;
mod order;
mod placing;
mod port_rows;
mod reading;
mod rows;
mod writing;

pub use answer::{AnswerRoom, Given};
pub use fault::BadRows;
pub use id::id_of;
pub use law::{file_laws, laws};
pub use port_rows::PortRows;
pub use rows::Rows;
pub use writing::{begin_rows, write_port, write_rows};
