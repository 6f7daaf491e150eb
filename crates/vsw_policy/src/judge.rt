//! What a command is refused for.

ghost use Rattle.std.specs.Prelude.{◌≡◌, List, IfOk, map};
ghost use Rattle.vsw_base.specs.declared.packet.Dir.{Dir};
ghost use Rattle.vsw_rule.specs.declared.rule.Cond.{Cond};
ghost use Rattle.vsw_policy.specs.Layer.{seen};
ghost use Rattle.vsw_policy.specs.declared.command.Command.TheVariants as command;
ghost use Rattle.vsw_policy.specs.Obey.{tests, first_refusal};

use crate::command::Command;
use crate::judge_many::judge_put_many;
use crate::limits::{MOST_GROUPS, MOST_LAYERS, MOST_RULES};
use crate::places::{count_layers, groups_in, has_layer};
use crate::refusal::Refusal;
use crate::{Layer, LayerSpec, has_group, has_rule, has_twice, rules_in};
use std::alloc::Global;
use vsw_base::NoMemory;
use vsw_rule::Rule;

fn judge_add_layer(layers: &[Layer], controller: u16, spec: &LayerSpec) -> Option<Refusal>
    ensures { result ≡ first_refusal (tests (map seen layers.now) controller (command.AddLayer spec.now)) }
{
    if has_layer(layers, controller, spec.layer) {
        return Some(Refusal::LayerExists);
    }
    if count_layers(layers, controller) >= MOST_LAYERS {
        return Some(Refusal::ManyLayers);
    }
    None
}

fn judge_add_group(layers: &[Layer], controller: u16, layer: u16, group: u16) -> Option<Refusal>
    ensures { (dir : Dir) (when : List Cond) → result ≡ first_refusal (tests (map seen layers.now) controller (command.AddGroup layer group dir when)) }
{
    if !has_layer(layers, controller, layer) {
        return Some(Refusal::NoLayer);
    }
    let groups = groups_in(layers, controller, layer);
    if has_group(groups, group) {
        return Some(Refusal::GroupExists);
    }
    if groups.len() >= MOST_GROUPS {
        return Some(Refusal::ManyGroups);
    }
    None
}

fn judge_put_rules(
    alloc: Global,
    layers: &[Layer],
    controller: u16,
    layer: u16,
    group: u16,
    rules: &[Rule],
) -> Result<Option<Refusal>, NoMemory>
    ensures { IfOk result (λ refusal. refusal ≡ first_refusal (tests (map seen layers.now) controller (command.PutRules layer group rules.now))) }
{
    if !has_layer(layers, controller, layer) {
        return Ok(Some(Refusal::NoLayer));
    }
    if !has_group(groups_in(layers, controller, layer), group) {
        return Ok(Some(Refusal::NoGroup));
    }
    if has_twice(alloc, rules)? {
        return Ok(Some(Refusal::RuleExists));
    }
    if rules.len() > MOST_RULES {
        return Ok(Some(Refusal::ManyRules));
    }
    Ok(None)
}

/// Whether a layer is missing.
fn judge_layer(layers: &[Layer], controller: u16, layer: u16) -> Option<Refusal>
    ensures { result ≡ first_refusal (tests (map seen layers.now) controller (command.RemoveLayer layer)) }
{
    if has_layer(layers, controller, layer) {
        None
    } else {
        Some(Refusal::NoLayer)
    }
}

/// Whether a layer or a group of it is missing.
fn judge_group(layers: &[Layer], controller: u16, layer: u16, group: u16) -> Option<Refusal>
    ensures { result ≡ first_refusal (tests (map seen layers.now) controller (command.RemoveGroup layer group)) }
{
    if !has_layer(layers, controller, layer) {
        return Some(Refusal::NoLayer);
    }
    if !has_group(groups_in(layers, controller, layer), group) {
        return Some(Refusal::NoGroup);
    }
    None
}

fn judge_add_rule(
    layers: &[Layer],
    controller: u16,
    layer: u16,
    group: u16,
    rule: &Rule,
) -> Option<Refusal>
    ensures { result ≡ first_refusal (tests (map seen layers.now) controller (command.AddRule layer group rule.now)) }
{
    if !has_layer(layers, controller, layer) {
        return Some(Refusal::NoLayer);
    }
    let groups = groups_in(layers, controller, layer);
    if !has_group(groups, group) {
        return Some(Refusal::NoGroup);
    }
    let rules = rules_in(groups, group);
    if has_rule(rules, rule.number) {
        return Some(Refusal::RuleExists);
    }
    if rules.len() >= MOST_RULES {
        return Some(Refusal::ManyRules);
    }
    None
}

fn judge_remove_rule(
    layers: &[Layer],
    controller: u16,
    layer: u16,
    group: u16,
    number: u16,
) -> Option<Refusal>
    ensures { result ≡ first_refusal (tests (map seen layers.now) controller (command.RemoveRule layer group number)) }
{
    if !has_layer(layers, controller, layer) {
        return Some(Refusal::NoLayer);
    }
    let groups = groups_in(layers, controller, layer);
    if !has_group(groups, group) {
        return Some(Refusal::NoGroup);
    }
    if !has_rule(rules_in(groups, group), number) {
        return Some(Refusal::NoRule);
    }
    None
}

/// The first refusal that applies to a command, if any.
pub fn judge(
    alloc: Global,
    layers: &[Layer],
    controller: u16,
    command: &Command,
) -> Result<Option<Refusal>, NoMemory>
    ensures { IfOk result (λ refusal. refusal ≡ first_refusal (tests (map seen layers.now) controller command.now)) }
{
    match command {
        Command::AddLayer { spec } => Ok(judge_add_layer(layers, controller, spec)),
        Command::AddGroup { layer, group, .. } => {
            Ok(judge_add_group(layers, controller, *layer, *group))
        }
        Command::PutRules {
            layer,
            group,
            rules,
        } => judge_put_rules(alloc, layers, controller, *layer, *group, rules.as_slice()),
        Command::PutMany { parts } => judge_put_many(alloc, layers, controller, parts.as_slice()),
        Command::RemoveLayer { layer } => Ok(judge_layer(layers, controller, *layer)),
        Command::RemoveGroup { layer, group } => {
            Ok(judge_group(layers, controller, *layer, *group))
        }
        Command::AddRule { layer, group, rule } => {
            Ok(judge_add_rule(layers, controller, *layer, *group, rule))
        }
        Command::RemoveRule {
            layer,
            group,
            number,
        } => Ok(judge_remove_rule(layers, controller, *layer, *group, *number)),
        Command::SetDefault { layer, .. } => Ok(judge_layer(layers, controller, *layer)),
        Command::Sweep { layer, .. } => Ok(judge_layer(layers, controller, *layer)),
    }
}
