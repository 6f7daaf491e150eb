//! The pairs of a layer, found by what either direction of them looks for.

ghost use Rattle.std.specs.Prelude.{◌≡◌, ◌≤◌, ◌<◌, ◌+◌, ◌-◌, ◌^◌, ◌++◌, ◌∷◌, [], OnOk, None, option_copied, length, filter, not};
ghost use Rattle.vsw_layerflow.specs.declared.pair.Pair.{Pair};
ghost use Rattle.vsw_layerflow.specs.Pairs.{pair_of, turned, touched, without, numbered, put_by_number, of_rule, of_marked, AllApart, AllBelow, AreRising};
ghost use Rattle.vsw_layerflow.specs.Life.{is_over};

use crate::maps::{
    drop_pair, keep_known, keep_living, keep_others, keep_unmarked, lead_over, put_pair, put_place,
    set_use, take_place,
};
use crate::pair::{Look, Pair, Probe, probes_agree};
use crate::seed::{HashSeed, Seeded};
use indexmap::IndexMap;
use std::alloc::Global;
use std::marker::Model;
use vsw_base::{Dir, LayerKey, Moment, NoMemory, Track};

/// The pairs of a layer, in the order of their numbers, and room for more. A direction and key leads
/// to the number of its pair, and a number to the pair. No call reads the pairs in their order, so the
/// map keeps them in any: a pair that goes leaves its place to the last.
#[derive(Drop)]
pub struct Flows {
    pairs: IndexMap<u64, Pair, Seeded>,
    places: IndexMap<Probe, u32, Seeded>,
}

impl Model for Flows {
    ghost use Rattle.std.specs.Prelude.{min, ◌/◌};
    ghost use Rattle.std.specs.Map.{values_of};
    ghost use Rattle.indexmap.specs.IndexMap.{spare};
    ghost use Rattle.vsw_layerflow.specs.Pairs.{Pairs};
    ghost use Rattle.vsw_layerflow.specs.Index.{in_order, IsIndex};

    ghost Value = { Pairs };

    ghost view = { λ s. record { pairs = values_of (in_order s.pairs.entries); spare = min (spare s.pairs) (spare s.places / 2) } };

    ghost invariant = { λ s. IsIndex (in_order s.pairs.entries) s.places.entries };
}

impl Flows {
    /// No pairs, hashed from the seed that everyone knows. It takes no memory.
    pub fn new(alloc: Global) -> Flows
        ensures { result.pairs ≡ [] }
    {
        Flows::with_seed(alloc, &HashSeed::known())
    }

    /// No pairs, hashed from this seed. It takes no memory.
    pub fn with_seed(alloc: Global, seed: &HashSeed) -> Flows
        ensures { result.pairs ≡ [] }
    {
        Flows {
            pairs: IndexMap::with_hasher(alloc, seed.seeded()),
            places: IndexMap::with_hasher(alloc, seed.seeded()),
        }
    }

    /// How many pairs there are.
    pub fn len(&self) -> u32
        ensures count { result ≡ length self.now.pairs }
        ensures in_order { AreRising self.now.pairs }
        ensures apart { AllApart self.now.pairs }
    {
        self.pairs.len() as u32
    }

    /// The pair that holds this direction and key: its own direction and its forward key, or the other
    /// direction and its reverse key.
    pub fn find(&self, dir: Dir, key: &LayerKey) -> Option<&Pair>
        ensures { option_copied result ≡ pair_of dir key.now self.now.pairs }
    {
        probes_agree();
        let number = self.places.get(Look { dir, key })?;
        self.pairs.get(&(*number as u64))
    }

    /// The pair of this number.
    pub fn of_number(&self, number: u32) -> Option<&Pair>
        ensures { option_copied result ≡ numbered number self.now.pairs }
    {
        self.pairs.get(&(number as u64))
    }

    /// Takes room for one more pair.
    pub fn reserve_one(&mut self) -> Result<(), NoMemory>
        ensures room { OnOk result (1 ≤ self.new.spare) }
        ensures spare { self.old.spare ≤ self.new.spare }
        ensures same { self.new.pairs ≡ self.old.pairs }
    {
        if self.pairs.reserve(1).is_err() || self.places.reserve(2).is_err() {
            return Err(NoMemory);
        }
        Ok(())
    }

    /// Adds a pair of a new number, at its place by number. It takes no memory.
    pub fn add(&mut self, pair: Pair)
        requires room { 1 ≤ self.old.spare }
        requires forward_free { pair_of pair.dir pair.forward self.old.pairs ≡ None }
        requires reverse_free { pair_of (turned pair.dir) pair.reverse self.old.pairs ≡ None }
        requires number_new { numbered pair.number self.old.pairs ≡ None }
        requires few { length self.old.pairs < 2 ^ 32 - 1 }
        ensures added { self.new.pairs ≡ put_by_number pair self.old.pairs }
        ensures last { AllBelow pair.number self.old.pairs → self.new.pairs ≡ self.old.pairs ++ pair ∷ [] }
        ensures spare { self.old.spare ≤ self.new.spare + 1 }
    {
        put_pair(&mut self.pairs, &pair);
        put_place(&mut self.places, pair.front(), pair.number);
        put_place(&mut self.places, pair.back(), pair.number);
    }

    /// The pair of this number goes, and one of a new number comes, at its place by number. It takes no memory.
    pub fn replace(&mut self, number: u32, pair: &Pair)
        requires room { 1 ≤ self.old.spare }
        requires forward_free { pair_of pair.now.dir pair.now.forward (without number self.old.pairs) ≡ None }
        requires reverse_free { pair_of (turned pair.now.dir) pair.now.reverse (without number self.old.pairs) ≡ None }
        requires number_new { numbered pair.now.number (without number self.old.pairs) ≡ None }
        requires few { length (without number self.old.pairs) < 2 ^ 32 - 1 }
        ensures replaced { self.new.pairs ≡ put_by_number pair.now (without number self.old.pairs) }
        ensures last { AllBelow pair.now.number (without number self.old.pairs) → self.new.pairs ≡ without number self.old.pairs ++ pair.now ∷ [] }
        ensures spare { self.old.spare ≤ self.new.spare + 1 }
    {
        lead_over(&mut self.places, &self.pairs, number, pair);
        drop_pair(&mut self.pairs, number);
        put_pair(&mut self.pairs, pair);
    }

    /// The pair of this number gets another state and last use.
    pub fn touch(&mut self, number: u32, state: Track, last: Moment)
        ensures touched { self.new.pairs ≡ touched number state last self.old.pairs }
        ensures spare { self.old.spare ≤ self.new.spare }
    {
        set_use(&mut self.pairs, number, state, last);
    }

    /// The pair of this number goes. The others stay in order.
    pub fn remove(&mut self, number: u32)
        ensures gone { self.new.pairs ≡ without number self.old.pairs }
        ensures spare { self.old.spare ≤ self.new.spare }
    {
        let Some(pair) = self.pairs.get(&(number as u64)) else {
            return;
        };
        take_place(&mut self.places, pair.front());
        take_place(&mut self.places, pair.back());
        drop_pair(&mut self.pairs, number);
    }

    /// The pairs that this rule made go; answers how many. The others stay in order.
    pub fn drop_rule(&mut self, group: u16, rule: u16) -> u32
        ensures gone { self.new.pairs ≡ filter (λ p. not (of_rule group rule p)) self.old.pairs }
        ensures count { result ≡ length (filter (of_rule group rule) self.old.pairs) }
        ensures spare { self.old.spare ≤ self.new.spare }
    {
        let before = self.pairs.len();
        keep_others(&mut self.pairs, group, rule);
        keep_known(&mut self.places, &self.pairs);
        (before - self.pairs.len()) as u32
    }

    /// The pairs go that the marked rules of this group made, in one pass; answers how many. The others
    /// stay in order. A rule is marked by its number, and one beyond the marks isn't.
    pub fn drop_marked(&mut self, group: u16, marks: &[bool]) -> u32
        ensures gone { self.new.pairs ≡ filter (λ p. not (of_marked group marks.now p)) self.old.pairs }
        ensures count { result ≡ length (filter (of_marked group marks.now) self.old.pairs) }
        ensures spare { self.old.spare ≤ self.new.spare }
    {
        let before = self.pairs.len();
        keep_unmarked(&mut self.pairs, group, marks);
        keep_known(&mut self.places, &self.pairs);
        (before - self.pairs.len()) as u32
    }

    /// The pairs whose life has ended by `now` go; answers how many. The others stay in order. The
    /// times that a pair lives idle or closed are in seconds.
    pub fn sweep(&mut self, now: Moment, idle: u32, linger: u32) -> u32
        ensures gone { self.new.pairs ≡ filter (λ p. not (is_over now idle linger p)) self.old.pairs }
        ensures count { result ≡ length (filter (is_over now idle linger) self.old.pairs) }
        ensures spare { self.old.spare ≤ self.new.spare }
    {
        let before = self.pairs.len();
        keep_living(&mut self.pairs, now, idle, linger);
        keep_known(&mut self.places, &self.pairs);
        (before - self.pairs.len()) as u32
    }
}
