//! The text of a round.

ghost use Rattle.std.specs.Prelude.{◌≡◌, OnOk, length};
ghost use Rattle.vsw_port.specs.Order.{ascending};
ghost use Rattle.vsw_crew.specs.Texts.{AreRising, AreSized, TellsTexts, TellsTextsShort, all_emptied, texts_by_port};
ghost use Rattle.vsw_report.specs.Whole.{whole_text};

use crate::caller_lines::Lines;
use crate::ports::{places_of, tell_ports};
use std::alloc::Global;
use vsw_base::NoMemory;
use vsw_report::{Loose, RoundText, loose_part, round_line};

/// Appends the text of a round: of each port its line and the lines of its callers in the order of the report, and then the
/// loose packets. `lines` stand by the numbers of the callers, workers 0 to 15 and then the controllers in the policy's order;
/// `firsts` are the controllers' lines of the commands before the packets. Answers whether want of memory is told in it. All
/// lines are taken; the workers keep their rooms. After `NoMemory` nothing is said of what was appended, nor of what lines there
/// are.
pub fn tell_round(
    alloc: Global,
    workers: u32,
    controllers: &[u16],
    listed: &[u16],
    numbers: &[u16],
    first: u32,
    befores: &[u32],
    afters: &[u32],
    lines: &mut [Lines],
    firsts: &mut [Lines],
    loose: &[Loose],
    out: &mut RoundText,
) -> Result<bool, NoMemory>
    requires sizes { AreSized workers (length controllers.now) numbers.now befores.now afters.now lines.old }
    requires listed { listed.now ≡ ascending controllers.now }
    requires grows { AreRising befores.now afters.now }
    ensures text { TellsTexts result first numbers.now befores.now afters.now (texts_by_port workers controllers.now listed.now lines.old firsts.old (length numbers.now)) loose.now (whole_text out.old) (whole_text out.new) }
    ensures short { TellsTextsShort result numbers.now befores.now afters.now (texts_by_port workers controllers.now listed.now lines.old firsts.old (length numbers.now)) }
    ensures taken { OnOk result (lines.new ≡ all_emptied lines.old) }
{
    let places = places_of(alloc, controllers, listed)?;
    round_line(&mut out.end, first)?;
    let short = tell_ports(
        alloc,
        workers as usize,
        &places,
        numbers,
        befores,
        afters,
        lines,
        firsts,
        out,
    )?;
    loose_part(&mut out.end, loose)?;
    Ok(short)
}
