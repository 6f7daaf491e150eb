//! All callers meet the ports.

ghost use Rattle.std.specs.Prelude.{◌≡◌, [], OnOk, length};
ghost use Rattle.vsw_dock.specs.Meeting.{AreLanes, RowMeets};
ghost use Rattle.vsw_dock.specs.Opening.{rows_in};
ghost use Rattle.vsw_harbour.specs.Harbour.{callers};
ghost use Rattle.vsw_harbour.specs.Meeting.{AllMeet, AreLanesAt, RowsMeet};
ghost use Rattle.vsw_harbour.specs.Standing.{RowsMay};
ghost use Rattle.vsw_harbour.specs.Steps.{DidAll, MetAgain};
ghost use Rattle.vsw_policy.specs.Sound.{Each};

use crate::harbour::Harbour;
use std::alloc::Global;
use std::sync::Wait;
use vsw_base::NoMemory;
use vsw_dock::{Dock, Held, Lane, Naming, Station, hold_all, meet_row};

/// The row of a caller meets the ports.
fn meet_one<J: Naming>(
    helds: &mut [Held<'_, J>],
    row: &mut Vec<Lane<Station>>,
    need: u32,
) -> Result<(), NoMemory>
    requires lanes { AreLanes helds.old row.old.items }
    ensures same { helds.new ≡ helds.old }
    ensures meet { OnOk result (RowMeets need helds.old row.old.items row.new.items) }
{
    meet_row(helds, row.as_mut_slice(), need)?;
    Ok(())
}

/// The rows of callers meet the ports, one after the other.
fn meet_each<J: Naming>(
    helds: &mut [Held<'_, J>],
    rows: &mut [Vec<Lane<Station>>],
    needs: &[u32],
) -> Result<(), NoMemory>
    requires lanes { Each (AreLanes helds.old) (rows_in rows.old) }
    requires needs { length needs.now ≡ length rows.old }
    ensures meet { OnOk result (RowsMeet needs.now helds.old (rows_in rows.old) (rows_in rows.new)) }
{
    if let Some((row, others)) = rows.split_first_mut() {
        if let Some((need, more)) = needs.split_first() {
            meet_one(helds, row, *need)?;
            meet_each(helds, others, more)?;
        }
    }
    Ok(())
}

/// The callers of these rows meet the ports, whose locks are held meanwhile. Each may then make so many entries as it needs.
pub fn meet_all<'g, J: Naming, G, R: Wait>(
    rt: &R,
    alloc: Global,
    docks: &[Dock<'g, J, G>],
    rows: &mut [Vec<Lane<Station>>],
    needs: &[u32],
) -> Result<(), NoMemory>
    requires lanes { Each (AreLanesAt docks.now) (rows_in rows.old) }
    requires needs { length needs.now ≡ length rows.old }
    ensures meet { OnOk result (AllMeet docks.now needs.now (rows_in rows.old) (rows_in rows.new)) }
{
    let mut helds = hold_all(rt, alloc, docks)?;
    meet_each(helds.as_mut_slice(), rows, needs)?;
    Ok(())
}

/// All callers of a run meet its ports, whatever each has done of its own since all stood somewhere. Each may then make so many entries as it needs.
pub fn meet_again<'g, J: Naming, G, R: Wait>(
    rt: &R,
    harbour: &Harbour<'g, J, G>,
    rows: &mut [Vec<Lane<Station>>],
    needs: &[u32],
) -> Result<(), NoMemory>
    requires lanes { Each (AreLanesAt harbour.now.docks) (rows_in rows.old) }
    requires size { length rows.old ≡ callers harbour.now }
    requires needs { length needs.now ≡ callers harbour.now }
    ensures did { OnOk result (MetAgain harbour.now (rows_in rows.old) (rows_in rows.new)) }
    ensures idle { OnOk result (DidAll harbour.now [] (rows_in rows.old) (rows_in rows.new)) }
    ensures may { OnOk result (RowsMay needs.now (rows_in rows.new)) }
{
    meet_all(rt, harbour.alloc, &harbour.docks, rows, needs)?;
    Ok(())
}
