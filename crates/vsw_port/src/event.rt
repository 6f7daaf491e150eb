//! What stands in a port's history.

use vsw_base::{Crossing, Fate};
use vsw_policy::{Command, Reply};

/// An entry of a port's history.
#[derive(Drop)]
pub enum Event {
    /// A command, with the number of its line in the commands file, from 1, and its reply.
    Command {
        controller: u16,
        line: u32,
        command: Command,
        reply: Reply,
    },
    /// A packet that changed something, and its fate.
    Crossing {
        crossing: Crossing,
        fate: Fate,
    },
}
