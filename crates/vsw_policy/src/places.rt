//! Where the layer of a name is, and where a new one goes.

ghost use Rattle.std.specs.Prelude.{◌≡◌, ◌≤◌, map, filter, length};
ghost use Rattle.std.specs.List.{list_any, position, position_or_len};
ghost use Rattle.vsw_policy.specs.Layer.{seen};
ghost use Rattle.vsw_policy.specs.Layers as spec;
ghost use Rattle.vsw_policy.specs.Obey as obey;

use crate::{Layer, LayerSpec};
use vsw_rule::Group;

fn is_layer(controller: u16, number: u16, layer: &Layer) -> bool
    ensures { result ≡ spec.is_layer controller number (seen layer.now) }
{
    controller == layer.controller && number == layer.spec.layer
}

/// The place of the layer of a controller that has this number.
pub fn layer_place(layers: &[Layer], controller: u16, number: u16) -> Option<usize>
    ensures { result ≡ position (spec.is_layer controller number) (map seen layers.now) }
{
    layers
        .iter()
        .position(|layer| is_layer(controller, number, layer))
}

/// Whether there is one.
pub fn has_layer(layers: &[Layer], controller: u16, number: u16) -> bool
    ensures { result ≡ list_any (spec.is_layer controller number) (map seen layers.now) }
{
    layer_place(layers, controller, number).is_some()
}

/// How many layers a controller has.
pub fn count_layers(layers: &[Layer], controller: u16) -> usize
    ensures { result ≡ length (filter (spec.is_of controller) (map seen layers.now)) }
{
    let mut count = 0;
    let mut left = layers.len();
    while left > 0 {
        left -= 1;
        if controller == layers[left].controller {
            count += 1;
        }
    }
    count
}

/// The groups of a layer, and none where it isn't there.
pub fn groups_in(layers: &[Layer], controller: u16, number: u16) -> &[Group]
    ensures { result.now ≡ obey.groups_in (map seen layers.now) controller number }
{
    match layer_place(layers, controller, number) {
        Some(place) => layers[place].groups.as_slice(),
        None => &[],
    }
}

/// The place of a controller in the list.
fn place_of(controllers: &[u16], controller: u16) -> usize
    ensures value { result ≡ spec.place_of controller controllers.now }
    ensures within { result ≤ length controllers.now }
{
    match controllers {
        [] => 0,
        [first, rest @ ..] => {
            if controller == *first {
                0
            } else {
                1 + place_of(rest, controller)
            }
        }
    }
}

/// Whether a new layer comes before this one.
fn is_before(controllers: &[u16], controller: u16, new: &LayerSpec, layer: &Layer) -> bool
    ensures { result ≡ spec.is_before controllers.now (obey.empty_layer controller new.now) (seen layer.now) }
{
    if new.order != layer.spec.order {
        return new.order < layer.spec.order;
    }
    let place = place_of(controllers, controller);
    let other = place_of(controllers, layer.controller);
    if place != other {
        return place < other;
    }
    new.layer < layer.spec.layer
}

/// The first layer that a new one comes before.
fn place_before(
    controllers: &[u16],
    layers: &[Layer],
    controller: u16,
    new: &LayerSpec,
) -> Option<usize>
    ensures { result ≡ position (spec.is_before controllers.now (obey.empty_layer controller new.now)) (map seen layers.now) }
{
    layers
        .iter()
        .position(|layer| is_before(controllers, controller, new, layer))
}

/// The place where a new layer goes: in front of the first that it comes before.
pub fn place_for(controllers: &[u16], layers: &[Layer], controller: u16, new: &LayerSpec) -> usize
    ensures place { result ≡ position_or_len (spec.is_before controllers.now (obey.empty_layer controller new.now)) (map seen layers.now) }
    ensures within { result ≤ length layers.now }
{
    match place_before(controllers, layers, controller, new) {
        Some(place) => place,
        None => layers.len(),
    }
}
