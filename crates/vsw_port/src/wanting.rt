//! A pair that is wanted of a layer.

ghost use Rattle.std.specs.Prelude.{◌≡◌, ◌<◌, ◌^◌, None, Some, false, true, length, map, nat_le, option_copied, option_map};
ghost use Rattle.std.specs.List.{slice_get};
ghost use Rattle.vsw_port.specs.Admit as spec;
ghost use Rattle.vsw_port.specs.Admit.{staying};
ghost use Rattle.vsw_port.specs.Holds.{CanHold};
ghost use Rattle.vsw_port.specs.Private.Threaded as threaded;
ghost use Rattle.vsw_port.specs.Private.Threaded.{HasLeft, LeftThere, other_than};
ghost use Rattle.vsw_policy.specs.Layer.{LayerSeen, seen};
ghost use Rattle.vsw_layerflow.specs.Pairs.{AllApart, back, holder, number_of};

use crate::stop::Stop;
use vsw_layerflow::pair::probes_agree;
use vsw_layerflow::{Flows, Pair};
use vsw_policy::Layer;

/// How many pairs stay where the pair of this number leaves.
fn count_staying(flows: &Flows, left: Option<u32>) -> u32
    requires there { HasLeft left flows.now.pairs }
    ensures count { result ≡ length (staying left flows.now.pairs) }
    ensures apart { AllApart flows.now.pairs }
{
    match left {
        None => flows.len(),
        Some(_) => flows.len() - 1,
    }
}

/// The number, where it isn't that of the pair that leaves.
fn other_than(left: Option<u32>, number: u32) -> Option<u32>
    ensures { result ≡ other_than left number }
{
    match left {
        None => Some(number),
        Some(left) => { if left == number { None } else { Some(number) } }
    }
}

/// Whether it is the pair that leaves that holds what replies of this one look for.
fn leaves_free(flows: &Flows, left: Option<u32>, pair: &Pair) -> bool
    requires apart { AllApart flows.now.pairs }
    ensures { result ≡ true → holder (back pair.now) (staying left flows.now.pairs) ≡ None }
{
    let Some(number) = left else {
        return false;
    };
    let Some(gone) = flows.of_number(number) else {
        return false;
    };
    // It tells the proof what equal keys are.
    probes_agree();
    gone.dir == pair.dir && gone.reverse == pair.reverse
}

/// The number of the pair that stays and holds what replies of this one look for.
fn taker(flows: &Flows, left: Option<u32>, pair: &Pair) -> Option<u32>
    requires apart { AllApart flows.now.pairs }
    ensures { result ≡ option_map number_of (holder (back pair.now) (staying left flows.now.pairs)) }
{
    // A look by number takes less than one by key.
    if leaves_free(flows, left, pair) {
        return None;
    }
    let probe = pair.back();
    match flows.find(probe.dir, &probe.key) {
        None => None,
        Some(held) => other_than(left, held.number),
    }
}

/// Whether so many pairs are as many as a layer may have.
fn is_full(limit: u32, count: u32) -> bool
    ensures full { result ≡ nat_le limit count }
    ensures bound { limit < 2 ^ 32 }
{
    limit <= count
}

/// Why the layer doesn't take the pair, where the one of this number leaves.
fn refused(layer: &Layer, left: Option<u32>, pair: &Pair) -> Option<Stop>
    requires there { HasLeft left layer.now.flows.pairs }
    ensures exact { result ≡ spec.refused (seen layer.now) (staying left layer.now.flows.pairs) pair.now }
    ensures holds { result ≡ None → CanHold (seen layer.now) }
{
    if is_full(layer.spec.pairs, count_staying(&layer.flows, left)) {
        return Some(Stop::Full {
            controller: layer.controller,
            layer: layer.spec.layer,
        });
    }
    let pair = taker(&layer.flows, left, pair)?;
    Some(Stop::Taken {
        controller: layer.controller,
        layer: layer.spec.layer,
        pair,
    })
}

/// The number of the pair that leaves the layer at a place, of what was told to leave last: a place and
/// a number.
fn left_at(place: u32, left: Option<(u32, u32)>) -> Option<u32>
    ensures { result ≡ threaded.left_at place left }
{
    let (at, number) = left?;
    if place == at { Some(number) } else { None }
}

fn layer_at(layers: &[Layer], place: u32) -> Option<&Layer>
    ensures { option_map seen (option_copied result) ≡ slice_get (map seen layers.now) place }
{
    layers.get(place as usize)
}

/// Why the layer at a place doesn't take the pair.
pub fn refused_at(
    layers: &[Layer],
    place: u32,
    left: Option<(u32, u32)>,
    pair: &Pair,
) -> Option<Stop>
    requires there { LeftThere (map seen layers.now) left }
    ensures exact { result ≡ spec.refused_at (slice_get (map seen layers.now) place) (threaded.left_at place left) pair.now }
    ensures holds { result ≡ None → (l : LayerSeen) → slice_get (map seen layers.now) place ≡ Some l → CanHold l }
{
    let Some(layer) = layer_at(layers, place) else {
        return None;
    };
    refused(layer, left_at(place, left), pair)
}
