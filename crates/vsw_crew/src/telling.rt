//! A round that was done is told.

ghost use Rattle.std.specs.Prelude.{◌≡◌, IfOk, OnOk, length};
ghost use Rattle.vsw_crew.specs.Private.Owing.{IsSomeRound, TellsSo};
ghost use Rattle.vsw_crew.specs.Private.Round.{numbers_in};
ghost use Rattle.vsw_crew.specs.Private.Telling.{SaysShort, SaysText};
ghost use Rattle.vsw_harbour.specs.HarbourOpening.{rows_in};
ghost use Rattle.vsw_crew.specs.Texts.{AreRising, AreSized, all_emptied};
ghost use Rattle.vsw_report.specs.Whole.{whole_text};

use crate::lines::{are_whole, count_first, give_all, take_all};
use crate::round::Worked;
use crate::{Lines, tell_round};
use vsw_base::NoMemory;
use vsw_harbour::{Harbour, Lane, Naming, Station};
use vsw_report::{Loose, RoundText};

/// Appends the text of a round, out of the lines of all callers and the controllers' of the commands before the packets.
pub(crate) fn say<'g, J: Naming, G>(
    harbour: &Harbour<'g, J, G>,
    first: u32,
    befores: &[u32],
    afters: &[u32],
    lines: &mut Vec<Lines>,
    firsts: Vec<Lines>,
    loose: &[Loose],
    out: &mut RoundText,
) -> Result<bool, NoMemory>
    requires sizes { AreSized harbour.now.workers (length harbour.now.controllers) (numbers_in harbour.now) befores.now afters.now lines.old.items }
    requires grows { AreRising befores.now afters.now }
    ensures text { SaysText result harbour.now first befores.now afters.now lines.old.items firsts.items loose.now (whole_text out.old) (whole_text out.new) }
    ensures short { SaysShort result harbour.now befores.now afters.now lines.old.items firsts.items }
    ensures taken { OnOk result (lines.new.items ≡ all_emptied lines.old.items) }
{
    let mut firsts = firsts;
    let short = tell_round(
        harbour.alloc,
        harbour.workers,
        &harbour.controllers,
        &harbour.listed,
        &harbour.numbers,
        first,
        befores,
        afters,
        lines.as_mut_slice(),
        &mut firsts,
        loose,
        out,
    )?;
    Ok(short)
}

/// Appends the text of a round that was done, and answers whether want of memory is told in it. Gives the rows back, without lines.
pub(crate) fn tell<'g, J: Naming, G>(
    harbour: &Harbour<'g, J, G>,
    first: u32,
    worked: Worked,
    out: &mut RoundText,
) -> Result<(bool, Vec<Vec<Lane<Station>>>), NoMemory>
    requires worked { IsSomeRound harbour.now first worked }
    ensures told { IfOk result (λ r. TellsSo harbour.now first worked r.0 (whole_text out.old) (whole_text out.new) (rows_in r.1.items)) }
{
    let Worked {
        befores,
        rows,
        firsts,
        loose,
    } = worked;
    let mut rows = rows;
    if !are_whole(&rows) {
        return Err(NoMemory);
    }
    let afters = count_first(harbour.alloc, &rows)?;
    let mut lines = take_all(harbour.alloc, &mut rows)?;
    let short = say(
        harbour, first, &befores, &afters, &mut lines, firsts, &loose, out,
    )?;
    give_all(harbour.alloc, &mut rows, &mut lines);
    Ok((short, rows))
}
