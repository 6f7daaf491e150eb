//! The policy of a port.

ghost use Rattle.std.specs.Prelude.{◌≡◌, ◌≢◌, ◌≤◌, ◌<◌, ◌+◌, ℕ, [], false, true, IsTrue, length, map, IfOk, OnOk, OnErr};
ghost use Rattle.vsw_policy.specs.Layer.{seen, with_pair, with_touched, without_pair, CanTake};
ghost use Rattle.vsw_policy.specs.Layers.{PolicySeen, room_at, At, changed_at};
ghost use Rattle.vsw_policy.specs.Obey.{obey, told, is_memory, rules_given};
ghost use Rattle.vsw_policy.specs.Own.{OthersStay};
ghost use Rattle.vsw_policy.specs.Sound.{Each, IsGoodRule, IsSound, is_listed, are_distinct};

use crate::Layer;
use crate::changes::change;
use crate::command::Command;
use crate::judge::judge;
use crate::pairs::{add_at, remove_at, replace_at, reserve_at, touch_at};
use crate::refusal::Refusal;
use std::alloc::Global;
use std::marker::Model;
use vsw_base::{Items, Moment, NoMemory, Track};
use vsw_layerflow::{HashSeed, Pair};

/// The layers of a port, and the controllers that they belong to.
#[derive(Drop)]
pub struct Policy {
    alloc: Global,
    /// What the pairs of its layers are hashed from, those of layers to come too.
    seed: HashSeed,
    named: Items<u16>,
    ordered: Vec<Layer>,
}

impl Model for Policy {
    ghost use Rattle.std.specs.Prelude.{map};
    ghost use Rattle.vsw_policy.specs.Layer.{seen, room};
    ghost use Rattle.vsw_policy.specs.Layers.{PolicySeen};
    ghost use Rattle.vsw_policy.specs.Sound.{IsSound};

    ghost Value = { PolicySeen };

    ghost view = { λ s. record { controllers = s.named; layers = map seen s.ordered.items; rooms = map room s.ordered.items } };

    ghost invariant = { λ s. IsSound (record { controllers = s.named; layers = map seen s.ordered.items; rooms = map room s.ordered.items }) };
}

impl Policy {
    /// A policy without layers. Its pairs are hashed from the seed that everyone knows.
    pub fn new(alloc: Global, controllers: &[u16]) -> Result<Policy, NoMemory>
        requires few { length controllers.now ≤ 8 }
        requires distinct { IsTrue (are_distinct controllers.now) }
        ensures { IfOk result (λ policy. policy ≡ record { controllers = controllers.now; layers = []; rooms = [] }) }
    {
        Policy::with_seed(alloc, controllers, &HashSeed::known())
    }

    /// A policy without layers. What strangers pick is hashed from this seed in it.
    pub fn with_seed(
        alloc: Global,
        controllers: &[u16],
        seed: &HashSeed,
    ) -> Result<Policy, NoMemory>
        requires few { length controllers.now ≤ 8 }
        requires distinct { IsTrue (are_distinct controllers.now) }
        ensures { IfOk result (λ policy. policy ≡ record { controllers = controllers.now; layers = []; rooms = [] }) }
    {
        match Vec::from_slice(alloc, controllers) {
            Ok(named) => Ok(Policy {
                alloc,
                seed: seed.copied(),
                named: Items::of(named),
                ordered: Vec::new(alloc),
            }),
            Err(_) => Err(NoMemory),
        }
    }

    /// What is to be hashed from that strangers pick.
    pub fn seed(&self) -> &HashSeed {
        &self.seed
    }

    /// The controllers, in the order that decides between layers of one order.
    pub fn controllers(&self) -> &[u16]
        ensures { result.now ≡ self.now.controllers }
    {
        self.named.as_slice()
    }

    /// The layers, in the order in which outbound packets cross them.
    pub fn layers(&self) -> &[Layer]
        ensures layers { map seen result.now ≡ self.now.layers }
        ensures sound { IsSound self.now }
        ensures few { length result.now ≤ 128 }
    {
        &self.ordered
    }

    /// Does what a controller asks, or refuses it.
    pub fn command(&mut self, controller: u16, command: &Command) -> Result<(), Refusal>
        requires listed { is_listed self.old.controllers controller ≡ true }
        requires good { Each IsGoodRule (rules_given command.now) }
        ensures exact { is_memory result ≡ false → told result self.new.layers ≡ obey self.old.controllers self.old.layers controller command.now }
        ensures unchanged { OnErr result (self.new.layers ≡ self.old.layers) }
        ensures controllers { self.new.controllers ≡ self.old.controllers }
        ensures others { OthersStay controller self.old.layers self.new.layers }
    {
        let Ok(refused) = judge(self.alloc, &self.ordered, controller, command) else {
            return Err(Refusal::Memory);
        };
        if let Some(refusal) = refused {
            return Err(refusal);
        }
        match change(
            self.alloc,
            &self.seed,
            self.named.as_slice(),
            &mut self.ordered,
            controller,
            command,
        ) {
            Ok(()) => Ok(()),
            Err(NoMemory) => Err(Refusal::Memory),
        }
    }

    /// Takes room for one more pair in the layer at a place.
    pub fn reserve_pair(&mut self, place: usize) -> Result<(), NoMemory>
        requires within { place < length self.old.layers }
        ensures room { OnOk result (1 ≤ room_at self.new place) }
        ensures rooms { (k : ℕ) → room_at self.old k ≤ room_at self.new k }
        ensures layers { self.new.layers ≡ self.old.layers }
        ensures controllers { self.new.controllers ≡ self.old.controllers }
    {
        reserve_at(&mut self.ordered, place)
    }

    /// Adds a pair to the layer at a place, whose next number it has. It takes no memory.
    pub fn add_pair(&mut self, place: usize, pair: Pair)
        requires room { 1 ≤ room_at self.old place }
        requires suits { At place (CanTake pair) self.old.layers }
        ensures added { self.new.layers ≡ changed_at place (with_pair pair) self.old.layers }
        ensures room { room_at self.old place ≤ room_at self.new place + 1 }
        ensures rooms { (k : ℕ) → k ≢ place → room_at self.old k ≤ room_at self.new k }
        ensures controllers { self.new.controllers ≡ self.old.controllers }
    {
        add_at(&mut self.ordered, place, pair);
    }

    /// A pair of the layer at a place gets another state and last use.
    pub fn touch_pair(&mut self, place: usize, number: u32, state: Track, last: Moment)
        requires within { place < length self.old.layers }
        ensures touched { self.new.layers ≡ changed_at place (with_touched number state last) self.old.layers }
        ensures rooms { (k : ℕ) → room_at self.old k ≤ room_at self.new k }
        ensures controllers { self.new.controllers ≡ self.old.controllers }
    {
        touch_at(&mut self.ordered, place, number, state, last);
    }

    /// A pair of the layer at a place goes.
    pub fn remove_pair(&mut self, place: usize, number: u32)
        requires within { place < length self.old.layers }
        ensures gone { self.new.layers ≡ changed_at place (without_pair number) self.old.layers }
        ensures rooms { (k : ℕ) → room_at self.old k ≤ room_at self.new k }
        ensures controllers { self.new.controllers ≡ self.old.controllers }
    {
        remove_at(&mut self.ordered, place, number);
    }

    /// A pair of the layer at a place goes, and a pair comes that has the layer's next number. It takes no memory.
    pub fn replace_pair(&mut self, place: usize, number: u32, pair: &Pair)
        requires within { place < length self.old.layers }
        requires room { 1 ≤ room_at self.old place }
        requires suits { At place (CanTake pair.now) (changed_at place (without_pair number) self.old.layers) }
        ensures replaced { self.new.layers ≡ changed_at place (with_pair pair.now) (changed_at place (without_pair number) self.old.layers) }
        ensures room { room_at self.old place ≤ room_at self.new place + 1 }
        ensures rooms { (k : ℕ) → k ≢ place → room_at self.old k ≤ room_at self.new k }
        ensures controllers { self.new.controllers ≡ self.old.controllers }
    {
        replace_at(&mut self.ordered, place, number, pair);
    }
}
