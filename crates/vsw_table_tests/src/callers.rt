//! What one caller does with its pass and another's: each clause follows from what `vsw_table` says of its calls.
ghost use Rattle.std.specs.Prelude.{◌≡◌, ◌≢◌, ◌<◌, ◌+◌, ◌++◌, ◌∷◌, ℕ, [], length, IfSome, Some};
ghost use Rattle.vsw_table.specs.Rules.{stamp_at};
ghost use mathlib.Core.List.{IsPrefix};

use crate::counted::{Counted, row};
use vsw_table::{Look, Lookup, Pass, Writer};

/// Adds an entry of the first caller, where no row has a stamp, and tells the second one of it.
pub fn add_and_tell(
    lookup: &Lookup<Counted>,
    writer: &mut Writer<Counted>,
    first: &mut Pass<Counted>,
    second: &mut Pass<Counted>,
    entry: u64,
)
    requires table { (writer.old.table ≡ lookup.now.0) × (first.old.table ≡ lookup.now.0) × (second.old.table ≡ lookup.now.0) }
    requires permit { (first.old.view.number ≡ 0) × (0 < first.old.view.permits) }
    requires opens { (writer.old.view.opening ≡ Some lookup.now.1) × (first.old.view.opening ≡ Some lookup.now.1) }
    requires stamps { (r : ℕ) → stamp_at writer.old.view.stamps r ≡ 0 }
    ensures receipt { first.new.view.receipts ≡ first.old.view.receipts ++ entry ∷ [] }
    ensures told { IsPrefix first.new.view.front second.new.view.front }
{
    writer.advance(lookup, first, &entry);
    let note = first.note(lookup);
    second.learn(lookup, note);
}

/// Adds an entry of a caller, where no row but row 3 has a stamp, and writes row 3 anew.
pub fn add_and_put(
    lookup: &Lookup<Counted>,
    writer: &mut Writer<Counted>,
    pass: &mut Pass<Counted>,
    count: u32,
)
    requires table { (writer.old.table ≡ lookup.now.0) × (pass.old.table ≡ lookup.now.0) × (3 < lookup.now.2) }
    requires permit { (pass.old.view.number ≡ 0) × (0 < pass.old.view.permits) }
    requires opens { (writer.old.view.opening ≡ Some lookup.now.1) × (pass.old.view.opening ≡ Some lookup.now.1) }
    requires entries { length writer.old.view.history ≡ count }
    requires stamps { (r : ℕ) → r ≢ 3 → stamp_at writer.old.view.stamps r ≡ 0 }
    ensures entries { length writer.new.view.history ≡ count + 1 }
{
    writer.shake(lookup, 3);
    writer.advance(lookup, pass, &7);
    writer.put(lookup, 3, &row(u64::from(count) + 1));
}

/// Looks for a row. How many entries there were before the look, and at which count of them the row was good.
pub fn counts_of(
    lookup: &Lookup<Counted>,
    pass: &mut Pass<Counted>,
    key: &[u64; 16],
    body: &mut [u64; 57],
) -> Option<(u32, u32)>
    requires { (pass.old.table ≡ lookup.now.0) × (0 < lookup.now.2) × (pass.old.view.opening ≡ Some lookup.now.1) }
    ensures { IfSome result (λ n. length pass.new.view.front ≡ n.1) }
{
    let before = lookup.now(pass);
    match lookup.look(pass, 0, key, body) {
        Look::Hit { count } => Some((before, count)),
        Look::Miss { .. } => None,
    }
}
