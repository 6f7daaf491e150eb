//! The layers of a port, made by their controllers' commands.

ghost use Rattle.std.specs.Prelude.{◌≡◌, [], ◌∷◌, true, false, None, OnOk, map, length, filter, nat_le};
ghost use Rattle.std.specs.List.{list_any};
ghost use Rattle.vsw_policy.specs.Groups.{changed, is_group, with_rules};
ghost use Rattle.vsw_policy.specs.declared.command.Command.TheVariants as command;
ghost use Rattle.vsw_policy.specs.Layers.{is_of, is_layer};
ghost use Rattle.vsw_policy.specs.Obey.{tests, first_refusal, after, within, rules_given, groups_in, placed};
ghost use Rattle.vsw_policy.specs.Sound.{Each, IsGoodRule, IsGoodGroup, IsGoodLayer, is_listed};
ghost use Rattle.vsw_promise.specs.File.{AreLayers};
ghost use Rattle.vsw_promise.specs.Groups.{with_groups, Admits, AdmitsAll};
ghost use Rattle.vsw_promise.specs.Ports.{whole, in_order};

use std::alloc::Global;
use vsw_base::NoMemory;
use vsw_config::LayerFile;
use vsw_policy::{Command, Policy, Refusal, copy_conditions, copy_rules};
use vsw_rule::Group;

/// Does what a controller asks, for which there is no refusal but want of memory.
fn obeyed(policy: &mut Policy, controller: u16, command: &Command) -> Result<(), NoMemory>
    requires listed { is_listed policy.old.controllers controller ≡ true }
    requires good { Each IsGoodRule (rules_given command.now) }
    requires allowed { first_refusal (tests policy.old.layers controller command.now) ≡ None }
    ensures ok { OnOk result (policy.new.layers ≡ after policy.old.controllers policy.old.layers controller command.now) }
    ensures controllers { policy.new.controllers ≡ policy.old.controllers }
{
    match policy.command(controller, command) {
        Ok(()) => Ok(()),
        Err(Refusal::Memory) => Err(NoMemory),
        Err(_) => unreachable!(),
    }
}

fn add_layer(policy: &mut Policy, layer: &LayerFile) -> Result<(), NoMemory>
    requires listed { is_listed policy.old.controllers layer.now.controller ≡ true }
    requires new { list_any (is_layer layer.now.controller layer.now.spec.layer) policy.old.layers ≡ false }
    requires room { nat_le 16 (length (filter (is_of layer.now.controller) policy.old.layers)) ≡ false }
    ensures ok { OnOk result (policy.new.layers ≡ after policy.old.controllers policy.old.layers layer.now.controller (command.AddLayer layer.now.spec)) }
    ensures controllers { policy.new.controllers ≡ policy.old.controllers }
{
    obeyed(
        policy,
        layer.controller,
        &Command::AddLayer { spec: layer.spec },
    )
}

/// Adds a group, still without its rules.
fn add_empty(
    alloc: Global,
    policy: &mut Policy,
    controller: u16,
    layer: u16,
    group: &Group,
) -> Result<(), NoMemory>
    requires { Admits policy.old.controllers policy.old.layers controller layer group.now }
    ensures ok { OnOk result (policy.new.layers ≡ changed (is_layer controller layer) (with_groups (with_rules [] group.now ∷ [])) policy.old.layers) }
    ensures controllers { policy.new.controllers ≡ policy.old.controllers }
{
    let when = copy_conditions(alloc, group.when.as_slice())?;
    obeyed(
        policy,
        controller,
        &Command::AddGroup {
            layer,
            group: group.number,
            dir: group.dir,
            when,
        },
    )
}

/// Puts the rules of a group into the one of its number.
fn put_rules(
    alloc: Global,
    policy: &mut Policy,
    controller: u16,
    layer: u16,
    group: &Group,
) -> Result<(), NoMemory>
    requires listed { is_listed policy.old.controllers controller ≡ true }
    requires there { list_any (is_layer controller layer) policy.old.layers ≡ true }
    requires has { list_any (is_group group.now.number) (groups_in policy.old.layers controller layer) ≡ true }
    requires good { IsGoodGroup group.now }
    ensures ok { OnOk result (policy.new.layers ≡ changed (is_layer controller layer) (within (command.PutRules layer group.now.number group.now.rules)) policy.old.layers) }
    ensures controllers { policy.new.controllers ≡ policy.old.controllers }
{
    let rules = copy_rules(alloc, group.rules.as_slice())?;
    obeyed(
        policy,
        controller,
        &Command::PutRules {
            layer,
            group: group.number,
            rules,
        },
    )
}

/// Adds a group behind those of a layer.
fn add_group(
    alloc: Global,
    policy: &mut Policy,
    controller: u16,
    layer: u16,
    group: &Group,
) -> Result<(), NoMemory>
    requires { Admits policy.old.controllers policy.old.layers controller layer group.now }
    ensures ok { OnOk result (policy.new.layers ≡ changed (is_layer controller layer) (with_groups (group.now ∷ [])) policy.old.layers) }
    ensures controllers { policy.new.controllers ≡ policy.old.controllers }
{
    add_empty(alloc, policy, controller, layer, group)?;
    put_rules(alloc, policy, controller, layer, group)
}

/// Adds groups behind those of a layer, in their order.
fn add_groups(
    alloc: Global,
    policy: &mut Policy,
    controller: u16,
    layer: u16,
    groups: &[Group],
) -> Result<(), NoMemory>
    requires { AdmitsAll policy.old.controllers policy.old.layers controller layer groups.now }
    ensures ok { OnOk result (policy.new.layers ≡ changed (is_layer controller layer) (with_groups groups.now) policy.old.layers) }
    ensures controllers { policy.new.controllers ≡ policy.old.controllers }
{
    match groups {
        [] => Ok(()),
        [first, rest @ ..] => {
            add_group(alloc, policy, controller, layer, first)?;
            add_groups(alloc, policy, controller, layer, rest)
        }
    }
}

/// Adds a layer with its groups, in its place among the layers.
fn add_whole(alloc: Global, policy: &mut Policy, layer: &LayerFile) -> Result<(), NoMemory>
    requires good { IsGoodLayer policy.old.controllers (whole layer.now) }
    requires new { list_any (is_layer layer.now.controller layer.now.spec.layer) policy.old.layers ≡ false }
    requires room { nat_le 16 (length (filter (is_of layer.now.controller) policy.old.layers)) ≡ false }
    ensures ok { OnOk result (policy.new.layers ≡ placed policy.old.controllers (whole layer.now) policy.old.layers) }
    ensures controllers { policy.new.controllers ≡ policy.old.controllers }
{
    add_layer(policy, layer)?;
    add_groups(
        alloc,
        policy,
        layer.controller,
        layer.spec.layer,
        layer.groups.as_slice(),
    )
}

/// Adds layers, each in its place, to a policy that has none.
pub fn add_layers(alloc: Global, policy: &mut Policy, layers: &[LayerFile]) -> Result<(), NoMemory>
    requires empty { policy.old.layers ≡ [] }
    requires layers { AreLayers policy.old.controllers (map whole layers.now) }
    ensures ok { OnOk result (policy.new.layers ≡ in_order policy.old.controllers (map whole layers.now)) }
    ensures controllers { policy.new.controllers ≡ policy.old.controllers }
{
    match layers {
        [] => Ok(()),
        [layer, rest @ ..] => {
            add_layers(alloc, policy, rest)?;
            add_whole(alloc, policy, layer)
        }
    }
}
