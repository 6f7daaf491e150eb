//! What a command that puts rules into several groups is refused for.

ghost use Rattle.std.specs.Prelude.{◌≡◌, IfOk, map};
ghost use Rattle.std.specs.List.{list_any};
ghost use Rattle.vsw_policy.specs.Layer.{seen};
ghost use Rattle.vsw_policy.specs.declared.command.Command.TheVariants as command;
ghost use Rattle.vsw_policy.specs.Obey as obey;
ghost use Rattle.vsw_policy.specs.Obey.{tests, first_refusal};

use crate::command::Part;
use crate::limits::{MOST_PARTS, MOST_RULES};
use crate::places::{groups_in, has_layer};
use crate::refusal::Refusal;
use crate::{Layer, has_group, has_twice};
use std::alloc::Global;
use vsw_base::NoMemory;

/// Whether a part names a layer that is missing.
fn any_lacks_layer(layers: &[Layer], controller: u16, parts: &[Part]) -> bool
    ensures { result ≡ list_any (obey.lacks_layer (map seen layers.now) controller) parts.now }
{
    parts
        .iter()
        .any(|part| !has_layer(layers, controller, part.layer))
}

fn lacks_group(layers: &[Layer], controller: u16, part: &Part) -> bool
    ensures { result ≡ obey.lacks_group (map seen layers.now) controller part.now }
{
    !has_group(groups_in(layers, controller, part.layer), part.group)
}

/// Whether a part names a group that is missing.
fn any_lacks_group(layers: &[Layer], controller: u16, parts: &[Part]) -> bool
    ensures { result ≡ list_any (obey.lacks_group (map seen layers.now) controller) parts.now }
{
    parts
        .iter()
        .any(|part| lacks_group(layers, controller, part))
}

/// Whether a part has two rules of one number.
fn any_repeats_rule(alloc: Global, parts: &[Part]) -> Result<bool, NoMemory>
    ensures { IfOk result (λ repeats. repeats ≡ list_any obey.repeats_rule parts.now) }
{
    let mut repeats = false;
    for part in parts {
        repeats = repeats || has_twice(alloc, part.rules.as_slice())?;
    }
    Ok(repeats)
}

/// Whether a part has more rules than a group may have.
fn any_exceeds_rules(parts: &[Part]) -> bool
    ensures { result ≡ list_any obey.exceeds_rules parts.now }
{
    parts.iter().any(|part| part.rules.len() > MOST_RULES)
}

fn is_among(part: &Part, others: &[Part]) -> bool
    ensures { result ≡ list_any (obey.same_part part.now) others.now }
{
    others.iter().any(|other| part.layer == other.layer && part.group == other.group)
}

/// Whether two parts are of one group. It is asked of few parts, so the recursion isn't deep.
fn has_part_twice(parts: &[Part]) -> bool
    ensures { result ≡ obey.has_part_twice parts.now }
{
    match parts.split_first() {
        None => false,
        Some((part, rest)) => is_among(part, rest) || has_part_twice(rest),
    }
}

/// The first refusal that applies to a command that puts rules into several groups, if any.
pub fn judge_put_many(
    alloc: Global,
    layers: &[Layer],
    controller: u16,
    parts: &[Part],
) -> Result<Option<Refusal>, NoMemory>
    ensures { IfOk result (λ refusal. refusal ≡ first_refusal (tests (map seen layers.now) controller (command.PutMany parts.now))) }
{
    if any_lacks_layer(layers, controller, parts) {
        return Ok(Some(Refusal::NoLayer));
    }
    if any_lacks_group(layers, controller, parts) {
        return Ok(Some(Refusal::NoGroup));
    }
    if any_repeats_rule(alloc, parts)? {
        return Ok(Some(Refusal::RuleExists));
    }
    if any_exceeds_rules(parts) {
        return Ok(Some(Refusal::ManyRules));
    }
    if parts.len() > MOST_PARTS {
        return Ok(Some(Refusal::ManyParts));
    }
    if has_part_twice(parts) {
        return Ok(Some(Refusal::PartTwice));
    }
    Ok(None)
}
