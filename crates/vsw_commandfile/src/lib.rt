//! The commands file: its lines, what each asks, and that what is read may be asked.
#![tactic(auto)]

mod command;
mod fault;
mod law;
mod line;
mod lines;
mod read;
mod verb;

pub use fault::CommandsFault;
pub use law::laws;
pub use line::Line;
pub use read::read_commands;
