//! Permits: how many entries the passes may still make, and room in the journal for these.

ghost use Rattle.std.specs.Prelude.{◌≡◌, ◌≤◌, ◌+◌, ℕ, length, slice_set, IfOk, IsOk, OnOk, OnErr};
ghost use mathlib.Core.List.{IsPrefix};
ghost use Rattle.vsw_core.specs.Core.{IsOwned};
ghost use Rattle.vsw_flows.specs.Flows.{IsOf};
ghost use Rattle.vsw_port.specs.Calls.{named};
ghost use Rattle.vsw_port.specs.History.{AllRight};
ghost use Rattle.vsw_table.specs.Held.{Meets};
ghost use Rattle.vsw_table.specs.Rules.{counted_record, permits_of};
ghost use Rattle.vsw_rows.specs.GoodRows.{opening_of};

use vsw_base::NoMemory;
use vsw_flows::{PortStory, Rows};
use vsw_port::Ledger;
use vsw_table::{Lookup, Pass};

/// Takes room for `more` entries beside those that the passes may make already, and tells how many these are together.
fn take_room(ledger: &mut Ledger, permits: u64, more: u32) -> Result<u64, NoMemory>
    requires room { permits ≤ ledger.old.room }
    ensures total { IfOk result (λ total. (total ≡ permits + more) × (total ≤ ledger.new.room)) }
    ensures opening { ledger.new.opening ≡ ledger.old.opening }
    ensures journal { ledger.new.journal ≡ ledger.old.journal }
    ensures nothing { more ≡ 0 → IsOk result }
    ensures refused { OnErr result (ledger.new ≡ ledger.old) }
{
    if more == 0 {
        return Ok(permits);
    }
    let Ok(given) = u32::try_from(permits) else {
        return Err(NoMemory);
    };
    let Some(total) = given.checked_add(more) else {
        return Err(NoMemory);
    };
    ledger.reserve(total)?;
    Ok(u64::from(total))
}

/// Takes room for `more` further entries, which the pass may make.
pub(crate) fn grant(
    ledger: &mut Ledger,
    rows: &mut Rows,
    permits: &mut u64,
    lookup: &Lookup<PortStory>,
    pass: &mut Pass<PortStory>,
    more: u32,
) -> Result<(), NoMemory>
    requires owned { IsOwned ledger.old rows.old permits.old }
    requires core { IsOf lookup.now rows.old }
    requires pass { IsOf lookup.now pass.old }
    requires few { length pass.old.view.receipts + pass.old.view.permits + more ≤ 134217728 }
    ensures owned { IsOwned ledger.new rows.new permits.new }
    ensures writer { OnOk result (rows.new ≡ record rows.old { view = record rows.old.view { kept = slice_set rows.old.view.kept pass.old.view.number (pass.old.view.permits + more) } }) }
    ensures pass { OnOk result (pass.new ≡ record pass.old { view = record pass.old.view { front = rows.old.view.history; permits = pass.old.view.permits + more; shown = counted_record rows.old.view.history } }) }
    ensures tells { OnOk result (Meets (λ p e. named p.controllers e) lookup.now.1 rows.new.view pass.new.view) }
    ensures right { OnOk result (AllRight (opening_of lookup.now.1) rows.new.view.history) }
    ensures seen { OnOk result (IsPrefix pass.old.view.front pass.new.view.front) }
    ensures held { OnOk result (pass.old.view.permits ≡ permits_of rows.old.view pass.old.view.number) }
    ensures nothing { more ≡ 0 → IsOk result }
    ensures refused { OnErr result ((rows.new ≡ rows.old) × (pass.new ≡ pass.old)) }
{
    // It tells the proof that the entries are right.
    let _ = ledger.policy();
    let total = take_room(ledger, *permits, more)?;
    rows.meet(lookup, pass, more);
    *permits = total;
    Ok(())
}
