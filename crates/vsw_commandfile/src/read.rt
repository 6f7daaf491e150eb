//! Reading a commands file.

ghost use Rattle.std.specs.Prelude.{◌≡◌, ◌≤◌, length};
ghost use Rattle.vsw_config.specs.Fault.{Says};
ghost use Rattle.vsw_commandfile.specs.Lines.{lines_of};
ghost use Rattle.vsw_commandfile.specs.Commands.{Tells, line_in, line_at, lines_from, commands_file_of};

use crate::fault::{CommandsFault, of_line};
use crate::line::{Line, one_line};
use crate::lines::{Lines, count_lines, is_blank};
use std::alloc::Global;
use vsw_base::Items;
use vsw_config::{Fault, PolicyFile, json};

/// Bytes of the longest commands file that is read.
const MOST_BYTES: usize = 16_777_216;

/// The most lines of a commands file, blank ones too.
const MOST_LINES: usize = 65_536;

/// The line of this number that the text spells.
#[tactic(auto, unfolding(crate::specs::Commands::line_in))]
fn line_in(alloc: Global, policy: &PolicyFile, number: u32, text: &[u8]) -> Result<Line, Fault>
    ensures { Says result (line_in policy.now number text.now) }
{
    let value = json(alloc, text)?;
    let line = one_line(alloc, policy, number, &value)?;
    Ok(line)
}

/// The line of this number, unless it is blank.
#[tactic(auto, unfolding(crate::specs::Commands::line_at))]
fn line_at(
    alloc: Global,
    policy: &PolicyFile,
    number: u32,
    text: &[u8],
) -> Result<Option<Line>, CommandsFault>
    ensures { Tells result (line_at policy.now number text.now) }
{
    if is_blank(text) {
        return Ok(None);
    }
    let line = of_line(number, line_in(alloc, policy, number, text))?;
    Ok(Some(line))
}

fn read_lines(
    alloc: Global,
    policy: &PolicyFile,
    bytes: &[u8],
) -> Result<Items<Line>, CommandsFault>
    requires { length (lines_of bytes.now) ≤ 65536 }
    ensures { Tells result (lines_from policy.now 1 (lines_of bytes.now)) }
{
    let mut lines = Items::new(alloc);
    let mut number = 0;
    for text in Lines::of(bytes) {
        number += 1;
        if let Some(line) = line_at(alloc, policy, number, text)? {
            lines.push(line).map_err(|_| CommandsFault::Memory)?;
        }
    }
    Ok(lines)
}

/// Reads a commands file of a policy: lines, each a JSON object or blank, in at most 16,777,216 bytes.
pub fn read_commands(
    alloc: Global,
    bytes: &[u8],
    policy: &PolicyFile,
) -> Result<Items<Line>, CommandsFault>
    ensures { Tells result (commands_file_of policy.now bytes.now) }
{
    if bytes.len() > MOST_BYTES {
        return Err(CommandsFault::CommandsLimit);
    }
    if count_lines(bytes) > MOST_LINES {
        return Err(CommandsFault::LinesLimit);
    }
    read_lines(alloc, policy, bytes)
}
