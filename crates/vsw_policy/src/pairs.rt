//! What is changed of the pairs of the layer at a place.

ghost use Rattle.std.specs.Prelude.{◌≡◌, ◌≢◌, ◌≤◌, ◌<◌, ◌+◌, ℕ, OnOk, length, map, get_or};
ghost use Rattle.vsw_policy.specs.Layer.{seen, room, with_pair, with_touched, without_pair, CanTake};
ghost use Rattle.vsw_policy.specs.Layers.{At, changed_at};

use crate::Layer;
use vsw_base::{Moment, NoMemory, Track};
use vsw_layerflow::Pair;

pub fn reserve_at(layers: &mut Vec<Layer>, place: usize) -> Result<(), NoMemory>
    requires within { place < length layers.old.items }
    ensures room { OnOk result (1 ≤ get_or (map room layers.new.items) place 0) }
    ensures rooms { (k : ℕ) → get_or (map room layers.old.items) k 0 ≤ get_or (map room layers.new.items) k 0 }
    ensures layers { map seen layers.new.items ≡ map seen layers.old.items }
{
    layers[place].reserve_pair()
}

pub fn add_at(layers: &mut Vec<Layer>, place: usize, pair: Pair)
    requires room { 1 ≤ get_or (map room layers.old.items) place 0 }
    requires suits { At place (CanTake pair) (map seen layers.old.items) }
    ensures added { map seen layers.new.items ≡ changed_at place (with_pair pair) (map seen layers.old.items) }
    ensures room { get_or (map room layers.old.items) place 0 ≤ get_or (map room layers.new.items) place 0 + 1 }
    ensures rooms { (k : ℕ) → k ≢ place → get_or (map room layers.old.items) k 0 ≤ get_or (map room layers.new.items) k 0 }
{
    layers[place].add_pair(pair);
}

pub fn touch_at(layers: &mut Vec<Layer>, place: usize, number: u32, state: Track, last: Moment)
    requires within { place < length layers.old.items }
    ensures touched { map seen layers.new.items ≡ changed_at place (with_touched number state last) (map seen layers.old.items) }
    ensures rooms { (k : ℕ) → get_or (map room layers.old.items) k 0 ≤ get_or (map room layers.new.items) k 0 }
{
    layers[place].touch_pair(number, state, last);
}

pub fn remove_at(layers: &mut Vec<Layer>, place: usize, number: u32)
    requires within { place < length layers.old.items }
    ensures gone { map seen layers.new.items ≡ changed_at place (without_pair number) (map seen layers.old.items) }
    ensures rooms { (k : ℕ) → get_or (map room layers.old.items) k 0 ≤ get_or (map room layers.new.items) k 0 }
{
    layers[place].remove_pair(number);
}

pub fn replace_at(layers: &mut Vec<Layer>, place: usize, number: u32, pair: &Pair)
    requires within { place < length layers.old.items }
    requires room { 1 ≤ get_or (map room layers.old.items) place 0 }
    requires suits { At place (CanTake pair.now) (changed_at place (without_pair number) (map seen layers.old.items)) }
    ensures replaced { map seen layers.new.items ≡ changed_at place (with_pair pair.now) (changed_at place (without_pair number) (map seen layers.old.items)) }
    ensures room { get_or (map room layers.old.items) place 0 ≤ get_or (map room layers.new.items) place 0 + 1 }
    ensures rooms { (k : ℕ) → k ≢ place → get_or (map room layers.old.items) k 0 ≤ get_or (map room layers.new.items) k 0 }
{
    layers[place].replace_pair(number, pair);
}
