//! How a machine is held in memory, and its steps there.
ghost use Rattle.std.specs.Prelude.{◌≡◌, ◌≢◌, ◌+◌, ◌<◌, ◌≤◌, ◌++◌, ◌∷◌, [], ℕ, length, true, IfOk, OnOk, OnErr, slice_set, slice_index_or, IsTrue, max, MatchResult, is_some, IfSome, reverse, ◌/◌, ◌%◌, if◌then◌else◌};
ghost use Rattle.std.specs.Vec.{vec_len, vec_capacity};
ghost use Rattle.vsw_stamps.specs.Machine.{fresh, logged, is_live, is_current, rows_good, actor_at, next};
ghost use Rattle.vsw_stamps.specs.Store.{Stored, Made, actor_of};
ghost use Rattle.vsw_stamps.specs.declared.step.Step.TheVariants.{Split, Join, LoadStamp, LoadWord, LoadCount, LoadStampAgain, StoreWord, ClearStamp, StoreStamp, StoreCount};

use crate::scan::{Sight, has_closed, holds_row};
use crate::step::{Load, Loaded, Step};
use crate::story::TestStory;
use std::alloc::{AllocError, Global};
use std::marker::Model;

/// How many entries there may be.
const LIMIT: u64 = 0xffff_ffff;

#[derive(Drop)]
pub(crate) struct Store<S: TestStory> {
    given: u64,
    stamps: Vec<u64>,
    rows: Vec<[u64; 73]>,
    history: Vec<S::Entry>,
    sights: Vec<Sight>,
    log: Vec<Loaded>,
    room: usize,
}

impl<S: TestStory> Model for Store<S> {
    ghost use Rattle.std.specs.Prelude.{◌≡◌, ◌+◌, ◌≤◌, ◌%◌, length, reverse};
    ghost use Rattle.std.specs.Vec.{vec_len, vec_capacity};
    ghost use Rattle.vsw_stamps.specs.Store.{Stored, actors_of, AllWithinFirst};

    ghost Value = { Stored S.Entry };

    ghost view = { λ s. record { state = record { given = s.given; stamps = s.stamps.items; rows = s.rows.items; history = s.history.items; actors = actors_of s.history.items s.sights.items; log = reverse s.log.items }; room = s.room } };

    ghost invariant = { λ s. AllWithinFirst (length s.history.items) s.sights.items × (length s.rows.items ≡ length s.stamps.items)
        × (vec_len s.history + s.room ≤ vec_capacity s.history) × (vec_len s.sights + s.room ≤ vec_capacity s.sights) × (vec_len s.log + s.room ≤ vec_capacity s.log) };
}

fn add<T: Drop>(items: &mut Vec<T>, item: T)
    requires room { vec_len items.old < vec_capacity items.old }
    ensures items { items.new.items ≡ items.old.items ++ item ∷ [] }
    ensures len { vec_len items.new ≡ vec_len items.old + 1 }
    ensures capacity { vec_capacity items.old ≤ vec_capacity items.new }
{
    if items.push(item).is_err() {
        unreachable!();
    }
}

/// Replaces what stands at a place.
fn put(sights: &mut Vec<Sight>, place: u32, sight: Sight)
    requires place { place < vec_len sights.old }
    ensures items { sights.new.items ≡ slice_set sights.old.items place sight }
    ensures len { vec_len sights.new ≡ vec_len sights.old }
    ensures capacity { vec_capacity sights.new ≡ vec_capacity sights.old }
{
    sights[place as usize] = sight;
}

/// Whether each current row is good after these entries.
#[tactic(auto, using(crate::proofs::Holds::one_bad))]
fn are_good<S: TestStory>(entries: &[S::Entry], stamps: &[u64], rows: &[[u64; 73]]) -> bool
    requires rows { length rows.now ≡ length stamps.now }
    ensures { result ≡ rows_good S.test entries.now stamps.now rows.now (length stamps.now) }
{
    for row in 0..stamps.len() {
        if stamps[row] != 0 && !S::is_good(entries, &rows[row]) {
            return false;
        }
    }
    true
}

impl<S: TestStory> Store<S>
where
    S::Entry: Copy,
{
    pub(crate) fn new(alloc: Global, rows: u32) -> Result<Self, AllocError>
        ensures { IfOk result (λ s. s.state ≡ fresh rows) }
    {
        let mut stamps = Vec::new(alloc);
        stamps.resize(rows as usize, 0)?;
        let mut words = Vec::new(alloc);
        words.resize(rows as usize, [0; 73])?;
        let mut sights = Vec::new(alloc);
        sights.push(Sight {
            live: true,
            count: 0,
        })?;
        Ok(Store {
            given: 0,
            stamps,
            rows: words,
            history: Vec::new(alloc),
            sights,
            log: Vec::new(alloc),
            room: 0,
        })
    }

    /// Makes room for `more` further steps.
    pub(crate) fn reserve(&mut self, more: u32) -> Result<(), AllocError>
        ensures state { self.new.state ≡ self.old.state }
        ensures room { MatchResult result (λ _. self.new.room ≡ max self.old.room more) (λ _. self.new.room ≡ self.old.room) }
    {
        let more = more as usize;
        self.history.reserve(more)?;
        self.sights.reserve(more)?;
        self.log.reserve(more)?;
        self.room = self.room.max(more);
        Ok(())
    }

    pub(crate) fn history(&self) -> &[S::Entry]
        ensures { result.now ≡ self.now.state.history }
    {
        self.history.as_slice()
    }

    pub(crate) fn log(&self) -> &[Loaded]
        ensures { result.now ≡ reverse self.now.state.log }
    {
        self.log.as_slice()
    }

    /// The live actor of this number.
    fn sight(&self, actor: u32) -> Option<Sight>
        ensures live { is_some result ≡ is_live self.now.state actor }
        ensures front { IfSome result (λ s. (s.live ≡ true) × (s.count ≤ length self.now.state.history) × (actor_of self.now.state.history s ≡ actor_at self.now.state actor) × (actor < length self.now.state.actors)) }
    {
        if actor as usize >= self.sights.len() {
            return None;
        }
        let sight = self.sights[actor as usize];
        if sight.live { Some(sight) } else { None }
    }

    #[tactic(auto, using(crate::proofs::Views::within_more, crate::proofs::Views::actors_more))]
    fn split(&mut self, actor: u32) -> bool
        requires room { 0 < self.old.room }
        ensures { Made S.test (Split actor) self.old self.new result }
    {
        let Some(sight) = self.sight(actor) else {
            return false;
        };
        add(&mut self.sights, sight);
        self.room -= 1;
        true
    }

    #[tactic(auto, using(crate::proofs::Views::within_set, crate::proofs::Views::joined, crate::proofs::Views::actors_length))]
    fn join(&mut self, actor: u32, other: u32) -> bool
        requires room { 0 < self.old.room }
        ensures { Made S.test (Join actor other) self.old self.new result }
    {
        let Some(one) = self.sight(actor) else {
            return false;
        };
        let Some(two) = self.sight(other) else {
            return false;
        };
        if actor == other {
            return false;
        }
        let joined = Sight {
            live: true,
            count: one.count.max(two.count),
        };
        let spent = Sight {
            live: false,
            count: two.count,
        };
        put(&mut self.sights, actor, joined);
        put(&mut self.sights, other, spent);
        self.room -= 1;
        true
    }

    /// Adds a load to the log.
    fn note(&mut self, actor: u32, load: Load)
        requires room { 0 < self.old.room }
        ensures { (self.new.state ≡ logged self.old.state actor load) × (self.new.room + 1 ≡ self.old.room) }
    {
        add(&mut self.log, Loaded { actor, load });
        self.room -= 1;
    }

    fn load_stamp(&mut self, actor: u32, row: u32) -> bool
        requires room { 0 < self.old.room }
        ensures { Made S.test (LoadStamp actor row) self.old self.new result }
    {
        if self.sight(actor).is_none() || row as usize >= self.stamps.len() {
            return false;
        }
        let stamp = self.stamps[row as usize];
        let afresh = has_closed(self.log.as_slice(), actor)
            || holds_row(self.log.as_slice(), actor, row);
        self.note(actor, Load::Stamp { row, stamp, afresh });
        true
    }

    fn load_word(&mut self, actor: u32, row: u32, word: u32) -> bool
        requires room { 0 < self.old.room }
        ensures { Made S.test (LoadWord actor row word) self.old self.new result }
    {
        if self.sight(actor).is_none() || row as usize >= self.stamps.len() || word >= 73 {
            return false;
        }
        if has_closed(self.log.as_slice(), actor) || !holds_row(self.log.as_slice(), actor, row) {
            return false;
        }
        let value = self.rows[row as usize][word as usize];
        self.note(actor, Load::Word { row, word, value });
        true
    }

    #[tactic(auto, using(crate::proofs::Views::within_set, crate::proofs::Views::all_seen, crate::proofs::Views::actors_length))]
    fn load_count(&mut self, actor: u32) -> bool
        requires room { 0 < self.old.room }
        ensures { Made S.test (LoadCount actor) self.old self.new result }
    {
        if self.sight(actor).is_none() {
            return false;
        }
        let sight = Sight {
            live: true,
            count: self.history.len(),
        };
        put(&mut self.sights, actor, sight);
        let count = self.history.len() as u64;
        self.note(actor, Load::Count { count });
        true
    }

    fn load_stamp_again(&mut self, actor: u32, row: u32) -> bool
        requires room { 0 < self.old.room }
        ensures { Made S.test (LoadStampAgain actor row) self.old self.new result }
    {
        if self.sight(actor).is_none() || row as usize >= self.stamps.len() {
            return false;
        }
        if !has_closed(self.log.as_slice(), actor) || !holds_row(self.log.as_slice(), actor, row) {
            return false;
        }
        let stamp = self.stamps[row as usize];
        self.note(actor, Load::Again { row, stamp });
        true
    }

    /// Whether the row is current.
    fn is_current(&self, row: usize) -> bool
        requires row { row < length self.now.state.stamps }
        ensures { result ≡ is_current self.now.state row }
    {
        self.stamps[row] != 0
    }

    fn store_word(&mut self, row: u32, word: u32, value: u64) -> bool
        requires room { 0 < self.old.room }
        ensures { Made S.test (StoreWord row word value) self.old self.new result }
    {
        if row as usize >= self.stamps.len() || word >= 73 || self.is_current(row as usize) {
            return false;
        }
        self.rows[row as usize][word as usize] = value;
        self.room -= 1;
        true
    }

    fn clear_stamp(&mut self, row: u32) -> bool
        requires room { 0 < self.old.room }
        ensures { Made S.test (ClearStamp row) self.old self.new result }
    {
        if row as usize >= self.stamps.len() {
            return false;
        }
        self.stamps[row as usize] = 0;
        self.room -= 1;
        true
    }

    fn store_stamp(&mut self, row: u32) -> bool
        requires room { 0 < self.old.room }
        ensures { Made S.test (StoreStamp row) self.old self.new result }
    {
        if row as usize >= self.stamps.len() || self.is_current(row as usize) {
            return false;
        }
        if self.given == u64::MAX {
            return false;
        }
        if !S::is_good(self.history.as_slice(), &self.rows[row as usize]) {
            return false;
        }
        self.given += 1;
        self.stamps[row as usize] = self.given;
        self.room -= 1;
        true
    }

    fn store_count(&mut self, entry: S::Entry) -> bool
        requires room { 0 < self.old.room }
        ensures { Made S.test (StoreCount entry) self.old self.new result }
    {
        if self.history.len() as u64 >= LIMIT || !self.stay_good(entry) {
            return false;
        }
        self.grow(entry);
        true
    }

    /// Adds an entry.
    #[tactic(auto, using(crate::proofs::Views::within_more_entries, crate::proofs::Views::actors_later))]
    fn grow(&mut self, entry: S::Entry)
        requires room { 0 < self.old.room }
        ensures { (self.new.state ≡ next self.old.state (StoreCount entry)) × (self.new.room + 1 ≡ self.old.room) }
    {
        add(&mut self.history, entry);
        self.room -= 1;
    }

    /// Whether each current row is good with one more entry.
    fn stay_good(&mut self, entry: S::Entry) -> bool
        requires room { 0 < self.old.room }
        ensures good { result ≡ rows_good S.test (self.old.state.history ++ entry ∷ []) self.old.state.stamps self.old.state.rows (length self.old.state.stamps) }
        ensures same { self.new ≡ self.old }
    {
        add(&mut self.history, entry);
        let good = are_good::<S>(
            self.history.as_slice(),
            self.stamps.as_slice(),
            self.rows.as_slice(),
        );
        self.history.pop();
        good
    }

    /// Makes the step, unless its condition doesn't hold. Says whether it was made.
    pub(crate) fn step(&mut self, step: &Step<S::Entry>) -> bool
        requires room { 0 < self.old.room }
        ensures { Made S.test step.now self.old self.new result }
    {
        match step {
            Step::Split { actor } => self.split(*actor),
            Step::Join { actor, other } => self.join(*actor, *other),
            Step::LoadStamp { actor, row } => self.load_stamp(*actor, *row),
            Step::LoadWord { actor, row, word } => self.load_word(*actor, *row, *word),
            Step::LoadCount { actor } => self.load_count(*actor),
            Step::LoadStampAgain { actor, row } => self.load_stamp_again(*actor, *row),
            Step::StoreWord { row, word, value } => self.store_word(*row, *word, *value),
            Step::ClearStamp { row } => self.clear_stamp(*row),
            Step::StoreStamp { row } => self.store_stamp(*row),
            Step::StoreCount { entry } => self.store_count(*entry),
        }
    }
}
