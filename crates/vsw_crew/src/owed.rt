//! A round that was done and is to be told.

ghost use Rattle.std.specs.Prelude.{◌≡◌, ◌++◌, ℕ, Bool, List, IfOk, OnOk};
ghost use Rattle.vsw_crew.specs.Private.Owing.{GivesRooms, IsSomeRound, OwesSo};
ghost use Rattle.vsw_crew.specs.Private.Rows.{AreGone};
ghost use Rattle.vsw_crew.specs.Shift.{Owes};
ghost use Rattle.vsw_harbour.specs.HarbourOpening.{rows_in};
ghost use Rattle.vsw_policy.specs.Sound.{Each};
ghost use Rattle.vsw_report.specs.Whole.{whole_text};

use crate::Lines;
use crate::lines::{are_whole, count_first, give_all, take_all};
use crate::round::Worked;
use crate::telling::say;
use vsw_base::NoMemory;
use vsw_harbour::{Harbour, Lane, Naming, Station};
use vsw_report::{Loose, RoundText};

/// A round that was done, and of which nothing is told yet.
#[derive(Drop)]
pub struct Owed {
    /// The number of its first packet.
    pub(crate) first: u32,
    /// How many entries each port had before it, and after it.
    pub(crate) befores: Vec<u32>,
    pub(crate) afters: Vec<u32>,
    /// What the callers tell, and the controllers of the commands before the packets.
    pub(crate) lines: Vec<Lines>,
    pub(crate) firsts: Vec<Lines>,
    pub(crate) loose: Vec<Loose>,
}

/// Gives rows rooms for their lines, if there are as many.
fn give_rooms<'g, J: Naming, G>(
    harbour: &Harbour<'g, J, G>,
    rows: &mut Vec<Vec<Lane<Station>>>,
    rooms: &mut Vec<Lines>,
)
    requires gone { Each AreGone rooms.old.items }
    ensures { GivesRooms (rows_in rows.old.items) (rows_in rows.new.items) }
{
    if rooms.len() == rows.len() {
        give_all(harbour.alloc, rows, rooms);
    }
}

/// Takes the lines of a round that was done, which is to be told then. Gives the rows back, without lines and with these rooms.
pub(crate) fn owe<'g, J: Naming, G>(
    harbour: &Harbour<'g, J, G>,
    first: u32,
    worked: Worked,
    rooms: Vec<Lines>,
) -> Result<(Owed, Vec<Vec<Lane<Station>>>), NoMemory>
    requires gone { Each AreGone rooms.items }
    requires worked { IsSomeRound harbour.now first worked }
    ensures owed { IfOk result (λ r. OwesSo harbour.now first worked r.0 (rows_in r.1.items)) }
{
    let Worked {
        befores,
        rows,
        firsts,
        loose,
    } = worked;
    let mut rows = rows;
    if !are_whole(&rows) {
        return Err(NoMemory);
    }
    let afters = count_first(harbour.alloc, &rows)?;
    let lines = take_all(harbour.alloc, &mut rows)?;
    let mut rooms = rooms;
    give_rooms(harbour, &mut rows, &mut rooms);
    let owed = Owed {
        first,
        befores,
        afters,
        lines,
        firsts,
        loose,
    };
    Ok((owed, rows))
}

/// Appends the text of a round that is owed, and answers whether want of memory is told in it. Gives the rooms of its lines.
pub(crate) fn pay<'g, J: Naming, G>(
    harbour: &Harbour<'g, J, G>,
    owed: Owed,
    out: &mut RoundText,
) -> Result<(bool, Vec<Lines>), NoMemory>
    requires owes { (text : List ℕ) × (short : Bool) × Owes harbour.now owed text short }
    ensures text { OnOk result ((text : List ℕ) (short : Bool) → Owes harbour.now owed text short → whole_text out.new ≡ whole_text out.old ++ text) }
    ensures short { IfOk result (λ r. (text : List ℕ) (short : Bool) → Owes harbour.now owed text short → r.0 ≡ short) }
    ensures gone { IfOk result (λ r. Each AreGone r.1.items) }
{
    let Owed {
        first,
        befores,
        afters,
        lines,
        firsts,
        loose,
    } = owed;
    let mut lines = lines;
    let short = say(
        harbour, first, &befores, &afters, &mut lines, firsts, &loose, out,
    )?;
    Ok((short, lines))
}
