//! What the program reaches outside of itself: files, output, faults. The real host, and one in memory for tests.
#![tactic(auto)]

mod host;
mod memory_file;
mod memory_host;
mod opening;
mod reading;
mod real_host;
mod retrying;
mod source;

pub use host::{Failed, Host};
pub use memory_file::{MemoryFile, are_distinct};
pub use memory_host::MemoryHost;
pub use reading::{ReadEnd, read_file};
pub use real_host::RealHost;
pub use retrying::{read_some, write_some, write_whole};
pub use source::{Source, Unopened};
