//! What a command changes among the layers.

ghost use Rattle.std.specs.Prelude.{◌≡◌, OnOk, OnErr, map};
ghost use Rattle.vsw_policy.specs.Groups.{changed, removed};
ghost use Rattle.vsw_policy.specs.Layer.{seen};
ghost use Rattle.vsw_policy.specs.Layers.{is_layer};
ghost use Rattle.vsw_policy.specs.Obey as obey;
ghost use Rattle.vsw_policy.specs.Obey.{after};

use crate::command::Command;
use crate::parts::put_many;
use crate::places::{layer_place, place_for};
use crate::{Groups, Layer, LayerSpec};
use std::alloc::Global;
use vsw_base::NoMemory;
use vsw_layerflow::{Flows, HashSeed};

/// A layer without groups and pairs.
fn empty_layer(alloc: Global, seed: &HashSeed, controller: u16, spec: &LayerSpec) -> Layer
    ensures { seen result ≡ obey.empty_layer controller spec.now }
{
    Layer {
        controller,
        spec: *spec,
        groups: Groups::new(alloc),
        flows: Flows::with_seed(alloc, seed),
        next_pair: 0,
    }
}

/// Adds an empty layer in its place.
fn add_layer(
    alloc: Global,
    seed: &HashSeed,
    controllers: &[u16],
    layers: &mut Vec<Layer>,
    controller: u16,
    spec: &LayerSpec,
) -> Result<(), NoMemory>
    ensures ok { OnOk result (map seen layers.new.items ≡ obey.placed controllers.now (obey.empty_layer controller spec.now) (map seen layers.old.items)) }
    ensures err { OnErr result (map seen layers.new.items ≡ map seen layers.old.items) }
{
    let place = place_for(controllers, layers, controller, spec);
    match layers.insert(place, empty_layer(alloc, seed, controller, spec)) {
        Ok(()) => Ok(()),
        Err(_) => Err(NoMemory),
    }
}

fn remove_layer(layers: &mut Vec<Layer>, controller: u16, layer: u16)
    ensures { map seen layers.new.items ≡ removed (is_layer controller layer) (map seen layers.old.items) }
{
    let Some(place) = layer_place(layers, controller, layer) else {
        return;
    };
    let _ = layers.remove(place);
}

/// The layer after a command that names it. One that adds or removes a layer, or names several, changes
/// nothing within.
fn change_within(alloc: Global, layer: &mut Layer, command: &Command) -> Result<(), NoMemory>
    ensures ok { OnOk result (seen layer.new ≡ obey.within command.now (seen layer.old)) }
    ensures err { OnErr result (seen layer.new ≡ seen layer.old) }
{
    match command {
        Command::AddLayer { .. } => Ok(()),
        Command::RemoveLayer { .. } => Ok(()),
        Command::PutMany { .. } => Ok(()),
        Command::AddGroup {
            group,
            dir,
            when,
            ..
        } => layer.add_group(alloc, *group, *dir, when.as_slice()),
        Command::RemoveGroup { group, .. } => {
            layer.remove_group(*group);
            Ok(())
        }
        Command::PutRules { group, rules, .. } => {
            layer.put_rules(alloc, *group, rules.as_slice())
        }
        Command::AddRule { group, rule, .. } => layer.add_rule(alloc, *group, rule),
        Command::RemoveRule { group, number, .. } => layer.remove_rule(alloc, *group, *number),
        Command::SetDefault { dir, allow, .. } => {
            layer.set_default(*dir, *allow);
            Ok(())
        }
        Command::Sweep { now, .. } => {
            layer.sweep(*now);
            Ok(())
        }
    }
}

/// Changes the layer that a command names.
fn change_named(
    alloc: Global,
    layers: &mut Vec<Layer>,
    controller: u16,
    layer: u16,
    command: &Command,
) -> Result<(), NoMemory>
    ensures ok { OnOk result (map seen layers.new.items ≡ changed (is_layer controller layer) (obey.within command.now) (map seen layers.old.items)) }
    ensures err { OnErr result (map seen layers.new.items ≡ map seen layers.old.items) }
{
    let Some(place) = layer_place(layers, controller, layer) else {
        return Ok(());
    };
    change_within(alloc, &mut layers[place], command)
}

/// The layers after a command. Memory is taken before anything changes. The seed is for a layer that is added.
pub fn change(
    alloc: Global,
    seed: &HashSeed,
    controllers: &[u16],
    layers: &mut Vec<Layer>,
    controller: u16,
    command: &Command,
) -> Result<(), NoMemory>
    ensures ok { OnOk result (map seen layers.new.items ≡ after controllers.now (map seen layers.old.items) controller command.now) }
    ensures err { OnErr result (map seen layers.new.items ≡ map seen layers.old.items) }
{
    match command {
        Command::AddLayer { spec } => add_layer(alloc, seed, controllers, layers, controller, spec),
        Command::RemoveLayer { layer } => {
            remove_layer(layers, controller, *layer);
            Ok(())
        }
        Command::AddGroup { layer, .. } => change_named(alloc, layers, controller, *layer, command),
        Command::RemoveGroup { layer, .. } => {
            change_named(alloc, layers, controller, *layer, command)
        }
        Command::PutRules { layer, .. } => change_named(alloc, layers, controller, *layer, command),
        Command::PutMany { parts } => put_many(alloc, layers, controller, parts.as_slice()),
        Command::AddRule { layer, .. } => change_named(alloc, layers, controller, *layer, command),
        Command::RemoveRule { layer, .. } => {
            change_named(alloc, layers, controller, *layer, command)
        }
        Command::SetDefault { layer, .. } => {
            change_named(alloc, layers, controller, *layer, command)
        }
        Command::Sweep { layer, .. } => change_named(alloc, layers, controller, *layer, command),
    }
}
