//! What holds of every list of steps, of any number of actors.
ghost use Rattle.std.specs.Prelude.{◌≡◌, ℕ, List, true};
ghost use Rattle.vsw_stamps.specs.Machine.{State, Can, Leads, can, fresh, finished, run};
ghost use Rattle.vsw_stamps.specs.Sound.{AllGood, AreBetween, AreRight, Sound};

use crate::{Step, Story, TestStory};

/// Whatever the steps, each finished lookup held words of one row, good after the entries that one load of
/// word 0 between its two loads of the stamp counted.
pub fn laws<S: Story>()
    ensures sound { (o : S.Opening) (rows : ℕ) (steps : List (Step S.Entry)) (m : State S.Entry) → Leads (S.good o) (fresh rows) steps m → Sound (S.good o) m }
    ensures lookups { (o : S.Opening) (rows : ℕ) (steps : List (Step S.Entry)) (m : State S.Entry) → Leads (S.good o) (fresh rows) steps m → AreRight (S.good o) m.history (finished m.log) × AreBetween m.log }
    ensures whole { (o : S.Opening) (rows : ℕ) (steps : List (Step S.Entry)) (m : State S.Entry) → Leads (S.good o) (fresh rows) steps m → AllGood (S.good o) S.used m.history (finished m.log) }
{}

/// The same where steps whose conditions don't hold are left out, as a `Machine` does.
pub fn laws_of_runs<S: TestStory>()
    ensures conditions { (o : S.Opening) (m : State S.Entry) (step : Step S.Entry) → (can S.test m step ≡ true → Can (S.good o) m step) × (Can (S.good o) m step → can S.test m step ≡ true) }
    ensures sound { (o : S.Opening) (rows : ℕ) (steps : List (Step S.Entry)) → Sound (S.good o) (run S.test (fresh rows) steps) }
    ensures lookups { (o : S.Opening) (rows : ℕ) (steps : List (Step S.Entry)) → AreRight (S.good o) (run S.test (fresh rows) steps).history (finished (run S.test (fresh rows) steps).log) × AreBetween (run S.test (fresh rows) steps).log }
{}
