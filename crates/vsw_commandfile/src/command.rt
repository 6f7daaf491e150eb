//! The command of a line, by what it is to do.

ghost use Rattle.std.specs.Prelude.{◌≡◌, []};
ghost use Rattle.serde_json.specs.View.{view};
ghost use Rattle.vsw_config.specs.Fault.{Says};
ghost use Rattle.vsw_config.specs.Value.{whole_of};
ghost use Rattle.vsw_config.specs.Rule.{rule_of};
ghost use Rattle.vsw_commandfile.specs.Command as spec;

use crate::verb::Verb;
use serde_json::Value;
use std::alloc::Global;
use vsw_base::{Items, Moment};
use vsw_config::{
    AllowsReader, CondsReader, DirReader, Fault, ReadItem, ReadValue, ShortReader, Word, items,
    list, member, object_in, one_rule, spec_in, whole,
};
use vsw_policy::{Command, Part};
use vsw_rule::Rule;

/// Reads a rule alone: it is compared with no other.
#[derive(Drop)]
struct AloneReader {
    version: u8,
}

impl ReadValue<Rule> for AloneReader {
    ghost value_of = { λ reader. rule_of reader.version [] };

    fn value(&self, alloc: Global, value: &Value) -> Result<Rule, Fault> {
        one_rule(alloc, self.version, &[], value)
    }
}

impl ReadItem<Rule> for AloneReader {
    ghost item_of = { λ reader done. rule_of reader.version [] };

    fn item(&self, alloc: Global, _done: &[Rule], value: &Value) -> Result<Rule, Fault> {
        self.value(alloc, value)
    }
}

/// Reads any number of rules, each alone.
#[derive(Drop)]
struct RulesReader {
    version: u8,
}

impl ReadValue<Items<Rule>> for RulesReader {
    ghost value_of = { λ reader. spec.rules_of reader.version };

    #[tactic(auto, unfolding(crate::specs::Command::rules_of))]
    fn value(&self, alloc: Global, value: &Value) -> Result<Items<Rule>, Fault> {
        let version = self.version;
        let values = items(alloc, value)?;
        let rules = list(alloc, &AloneReader { version }, values)?;
        Ok(rules)
    }
}

/// Reads a moment, in microseconds.
struct MomentReader;

impl ReadValue<Moment> for MomentReader {
    ghost value_of = { λ reader. whole_of };

    fn value(&self, alloc: Global, value: &Value) -> Result<Moment, Fault> {
        let micros = whole(alloc, value)?;
        Ok(Moment::of(micros))
    }
}

#[tactic(auto, unfolding(crate::specs::Command::add_layer))]
fn add_layer(alloc: Global, object: &Value) -> Result<Command, Fault>
    ensures { Says result (spec.add_layer (view object.now)) }
{
    let layer = member(alloc, object, Word::Layer, &ShortReader)?;
    let spec = spec_in(alloc, layer, object)?;
    Ok(Command::AddLayer { spec })
}

#[tactic(auto, unfolding(crate::specs::Command::remove_layer))]
fn remove_layer(alloc: Global, object: &Value) -> Result<Command, Fault>
    ensures { Says result (spec.remove_layer (view object.now)) }
{
    let layer = member(alloc, object, Word::Layer, &ShortReader)?;
    Ok(Command::RemoveLayer { layer })
}

#[tactic(auto, unfolding(crate::specs::Command::add_group))]
fn add_group(alloc: Global, version: u8, object: &Value) -> Result<Command, Fault>
    ensures { Says result (spec.add_group version (view object.now)) }
{
    let layer = member(alloc, object, Word::Layer, &ShortReader)?;
    let group = member(alloc, object, Word::Group, &ShortReader)?;
    let dir = member(alloc, object, Word::Dir, &DirReader)?;
    let when = member(alloc, object, Word::WhenAll, &CondsReader { version })?;
    Ok(Command::AddGroup {
        layer,
        group,
        dir,
        when,
    })
}

#[tactic(auto, unfolding(crate::specs::Command::remove_group))]
fn remove_group(alloc: Global, object: &Value) -> Result<Command, Fault>
    ensures { Says result (spec.remove_group (view object.now)) }
{
    let layer = member(alloc, object, Word::Layer, &ShortReader)?;
    let group = member(alloc, object, Word::Group, &ShortReader)?;
    Ok(Command::RemoveGroup { layer, group })
}

#[tactic(auto, unfolding(crate::specs::Command::put_rules))]
fn put_rules(alloc: Global, version: u8, object: &Value) -> Result<Command, Fault>
    ensures { Says result (spec.put_rules version (view object.now)) }
{
    let layer = member(alloc, object, Word::Layer, &ShortReader)?;
    let group = member(alloc, object, Word::Group, &ShortReader)?;
    let rules = member(alloc, object, Word::Rules, &RulesReader { version })?;
    Ok(Command::PutRules {
        layer,
        group,
        rules,
    })
}

const PART_WORDS: [Word; 3] = [Word::Layer, Word::Group, Word::Rules];

/// Reads the rules that one group gets beside others.
#[derive(Drop)]
struct PartReader {
    version: u8,
}

impl ReadItem<Part> for PartReader {
    ghost item_of = { λ reader done. spec.part_of reader.version };

    #[tactic(auto, unfolding(crate::specs::Command::part_of))]
    fn item(&self, alloc: Global, _done: &[Part], value: &Value) -> Result<Part, Fault> {
        let version = self.version;
        let object = object_in(alloc, &PART_WORDS, value)?;
        let layer = member(alloc, object, Word::Layer, &ShortReader)?;
        let group = member(alloc, object, Word::Group, &ShortReader)?;
        let rules = member(alloc, object, Word::Rules, &RulesReader { version })?;
        Ok(Part {
            layer,
            group,
            rules,
        })
    }
}

/// Reads the parts, of any number.
#[derive(Drop)]
struct PartsReader {
    version: u8,
}

impl ReadValue<Items<Part>> for PartsReader {
    ghost value_of = { λ reader. spec.parts_of reader.version };

    #[tactic(auto, unfolding(crate::specs::Command::parts_of))]
    fn value(&self, alloc: Global, value: &Value) -> Result<Items<Part>, Fault> {
        let version = self.version;
        let values = items(alloc, value)?;
        let parts = list(alloc, &PartReader { version }, values)?;
        Ok(parts)
    }
}

#[tactic(auto, unfolding(crate::specs::Command::put_many))]
fn put_many(alloc: Global, version: u8, object: &Value) -> Result<Command, Fault>
    ensures { Says result (spec.put_many version (view object.now)) }
{
    let parts = member(alloc, object, Word::Parts, &PartsReader { version })?;
    Ok(Command::PutMany { parts })
}

#[tactic(auto, unfolding(crate::specs::Command::add_rule))]
fn add_rule(alloc: Global, version: u8, object: &Value) -> Result<Command, Fault>
    ensures { Says result (spec.add_rule version (view object.now)) }
{
    let layer = member(alloc, object, Word::Layer, &ShortReader)?;
    let group = member(alloc, object, Word::Group, &ShortReader)?;
    let rule = member(alloc, object, Word::Rule, &AloneReader { version })?;
    Ok(Command::AddRule { layer, group, rule })
}

#[tactic(auto, unfolding(crate::specs::Command::remove_rule))]
fn remove_rule(alloc: Global, object: &Value) -> Result<Command, Fault>
    ensures { Says result (spec.remove_rule (view object.now)) }
{
    let layer = member(alloc, object, Word::Layer, &ShortReader)?;
    let group = member(alloc, object, Word::Group, &ShortReader)?;
    let number = member(alloc, object, Word::Rule, &ShortReader)?;
    Ok(Command::RemoveRule {
        layer,
        group,
        number,
    })
}

#[tactic(auto, unfolding(crate::specs::Command::set_default))]
fn set_default(alloc: Global, object: &Value) -> Result<Command, Fault>
    ensures { Says result (spec.set_default (view object.now)) }
{
    let layer = member(alloc, object, Word::Layer, &ShortReader)?;
    let dir = member(alloc, object, Word::Dir, &DirReader)?;
    let allow = member(alloc, object, Word::Default, &AllowsReader)?;
    Ok(Command::SetDefault { layer, dir, allow })
}

#[tactic(auto, unfolding(crate::specs::Command::sweep))]
fn sweep(alloc: Global, object: &Value) -> Result<Command, Fault>
    ensures { Says result (spec.sweep (view object.now)) }
{
    let layer = member(alloc, object, Word::Layer, &ShortReader)?;
    let now = member(alloc, object, Word::Now, &MomentReader)?;
    Ok(Command::Sweep { layer, now })
}

/// What a line asks for that is to do this.
pub(crate) fn command(
    alloc: Global,
    version: u8,
    verb: Verb,
    object: &Value,
) -> Result<Command, Fault>
    ensures { Says result (spec.command_of version verb (view object.now)) }
{
    match verb {
        Verb::AddLayer => add_layer(alloc, object),
        Verb::RemoveLayer => remove_layer(alloc, object),
        Verb::AddGroup => add_group(alloc, version, object),
        Verb::RemoveGroup => remove_group(alloc, object),
        Verb::PutRules => put_rules(alloc, version, object),
        Verb::PutMany => put_many(alloc, version, object),
        Verb::AddRule => add_rule(alloc, version, object),
        Verb::RemoveRule => remove_rule(alloc, object),
        Verb::SetDefault => set_default(alloc, object),
        Verb::Sweep => sweep(alloc, object),
    }
}
