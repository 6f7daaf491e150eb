//! The machine.
ghost use Rattle.std.specs.Prelude.{◌≡◌, ◌+◌, ◌<◌, IfOk, MatchBool, MatchResult, Ok, Err, true, max, List, reverse};
ghost use Rattle.vsw_stamps.specs.Machine.{fresh, can, next};
ghost use Rattle.vsw_stamps.specs.Sound.{Sound};

use crate::step::{Loaded, NotNow, Step};
use crate::store::Store;
use crate::story::TestStory;
use std::alloc::Global;
use std::marker::Model;
use vsw_base::NoMemory;

/// Rows, their history and the actors that read them. Steps come one at a time, in any order.
#[derive(Drop)]
pub struct Machine<S: TestStory> {
    store: Store<S>,
}

impl<S: TestStory> Model for Machine<S> {
    ghost use Rattle.vsw_stamps.specs.Store.{Stored};
    ghost use Rattle.vsw_stamps.specs.Sound.{Sound};

    ghost Value = { Stored S.Entry };

    ghost view = { λ m. m.store };

    ghost invariant = { λ m. (o : S.Opening) → Sound (S.good o) m.store.state };
}

impl<S: TestStory> Machine<S>
where
    S::Entry: Copy,
{
    /// A machine of this many rows, with one actor, number 0, and no room for steps yet.
    pub fn new(alloc: Global, rows: u32) -> Result<Self, NoMemory>
        ensures state { IfOk result (λ m. m.state ≡ fresh rows) }
        ensures sound { IfOk result (λ m. (o : S.Opening) → Sound (S.good o) m.state) }
    {
        match Store::new(alloc, rows) {
            Ok(store) => Ok(Machine { store }),
            Err(_) => Err(NoMemory),
        }
    }

    /// Makes room for `more` further steps.
    pub fn reserve(&mut self, more: u32) -> Result<(), NoMemory>
        ensures state { self.new.state ≡ self.old.state }
        ensures room { MatchResult result (λ _. self.new.room ≡ max self.old.room more) (λ _. self.new.room ≡ self.old.room) }
    {
        match self.store.reserve(more) {
            Ok(()) => Ok(()),
            Err(_) => Err(NoMemory),
        }
    }

    /// The entries, in order.
    pub fn history(&self) -> &[S::Entry]
        ensures { result.now ≡ self.now.state.history }
    {
        self.store.history()
    }

    /// All loads so far, the oldest first.
    pub fn log(&self) -> &[Loaded]
        ensures { result.now ≡ reverse self.now.state.log }
    {
        self.store.log()
    }

    /// Makes the step, unless its condition doesn't hold.
    pub fn step(&mut self, step: &Step<S::Entry>) -> Result<(), NotNow<S::Entry>>
        requires room { 0 < self.old.room }
        ensures made { MatchBool (can S.test self.old.state step.now) ((result ≡ Ok tt) × (self.new.state ≡ next self.old.state step.now) × (self.new.room + 1 ≡ self.old.room)) ((result ≡ Err (record { step = step.now })) × (self.new ≡ self.old)) }
        ensures sound { (o : S.Opening) → Sound (S.good o) self.new.state }
    {
        let made = self.store.step(step);
        if made {
            Ok(())
        } else {
            Err(NotNow { step: *step })
        }
    }
}
