//! What is wrong with a commands file.

ghost use Rattle.std.specs.Prelude.{◌≡◌};
ghost use Rattle.vsw_commandfile.specs.Commands.{of_line};

use vsw_base::Items;
use vsw_config::{Fault, Kind, Step};

/// Why a commands file is refused.
#[derive(PartialEq, Eq, Drop)]
pub enum CommandsFault {
    /// A line is no such line; this is the first, and the first place in it, in the order of reading. The
    /// innermost step of the path stands first.
    Bad {
        /// The number of the line, from 1.
        line: u32,
        kind: Kind,
        path: Items<Step>,
    },
    /// It has more than 16,777,216 bytes.
    CommandsLimit,
    /// It has more than 65,536 lines.
    LinesLimit,
    /// There was no memory for the lines or the path.
    Memory,
}

/// The answer of a line of this number.
pub(crate) fn of_line<T: Drop>(number: u32, answer: Result<T, Fault>) -> Result<T, CommandsFault>
    ensures { result ≡ of_line number answer }
{
    match answer {
        Ok(value) => Ok(value),
        Err(Fault::Bad { kind, path }) => Err(CommandsFault::Bad {
            line: number,
            kind,
            path,
        }),
        Err(Fault::Memory) => Err(CommandsFault::Memory),
    }
}
