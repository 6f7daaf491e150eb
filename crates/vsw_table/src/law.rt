//! What holds of every table that keeps the rule.
ghost use Rattle.std.specs.Prelude.{◌≡◌, ℕ, List};
ghost use Rattle.atomic_table.specs.Table as table;
ghost use Rattle.vsw_stamps.specs.Machine.{finished};
ghost use Rattle.vsw_stamps.specs.Sound.{AllGood, AreBetween, AreRight, Sound};
ghost use Rattle.vsw_table.specs.Rules.{IsKept};
ghost use Rattle.vsw_table.specs.declared.view.View.{View};

use vsw_stamps::Story;

/// The table shows a machine that steps, each of whose conditions holds, have led to. So each lookup that was ever
/// finished on it held words of one row, which was good after the entries that one load of word 0 between the two
/// loads of its stamp counted.
pub fn laws<S: Story>()
    ensures sound { (o : S.Opening) (rows : ℕ) (s : table.State S.Entry (View S.Opening S.Entry)) (k : IsKept S.who S.good o rows s) → Sound (S.good o) k.shown.machine }
    ensures lookups { (o : S.Opening) (rows : ℕ) (s : table.State S.Entry (View S.Opening S.Entry)) (k : IsKept S.who S.good o rows s) → AreRight (S.good o) k.shown.machine.history (finished k.shown.machine.log) × AreBetween k.shown.machine.log }
    ensures whole { (o : S.Opening) (rows : ℕ) (s : table.State S.Entry (View S.Opening S.Entry)) (k : IsKept S.who S.good o rows s) → AllGood (S.good o) S.used k.shown.machine.history (finished k.shown.machine.log) }
{}
