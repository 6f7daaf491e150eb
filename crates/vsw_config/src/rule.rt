//! Rules.

ghost use Rattle.std.specs.Prelude.{◌≡◌, ◌==◌};
ghost use Rattle.std.specs.List.{list_any};
ghost use Rattle.serde_json.specs.View.{view};
ghost use Rattle.vsw_config.specs.Fault.{Says};
ghost use Rattle.vsw_config.specs.Rule.{fresh_rule, rule_of, rules_of};
ghost use Rattle.vsw_config.specs.Rule as spec;

use crate::action::ActionReader;
use crate::condition::CondsReader;
use crate::{
    Fault, Kind, ReadItem, ReadValue, ShortReader, TruthReader, Word, fresh, here, items_up_to,
    list, member, object_in, short,
};
use serde_json::Value;
use std::alloc::Global;
use vsw_base::Items;
use vsw_rule::Rule;

/// The most rules of a group.
const MOST_RULES: usize = 1024;

const RULE_WORDS: [Word; 6] = [
    Word::Rule,
    Word::Priority,
    Word::When,
    Word::Action,
    Word::Stateful,
    Word::Last,
];

fn is_taken(number: u16, rules: &[Rule]) -> bool
    ensures { result ≡ list_any (λ r. r.number == number) rules.now }
{
    rules.iter().any(|rule| rule.number == number)
}

/// Reads a number that none of these rules has.
#[derive(Drop)]
struct NumberReader<'a> {
    done: &'a [Rule],
}

impl<'a> ReadValue<u16> for NumberReader<'a> {
    ghost value_of = { λ reader. fresh_rule reader.done.now };

    #[tactic(auto, unfolding(crate::specs::Rule::fresh_rule))]
    fn value(&self, alloc: Global, value: &Value) -> Result<u16, Fault> {
        let number = short(alloc, value)?;
        fresh(alloc, is_taken(number, self.done), number)
    }
}

/// The rule, if it may be so.
#[tactic(auto, unfolding(crate::specs::Rule::judged))]
fn judged(alloc: Global, rule: Rule) -> Result<Rule, Fault>
    ensures { result ≡ spec.judged rule }
{
    match rule.check() {
        Ok(()) => Ok(rule),
        Err(_) => Err(here(alloc, Kind::BadRule)),
    }
}

/// A rule, read against those that stand before it.
#[tactic(auto, unfolding(crate::specs::Rule::rule_of))]
pub fn one_rule(alloc: Global, version: u8, done: &[Rule], value: &Value) -> Result<Rule, Fault>
    ensures { Says result (rule_of version done.now (view value.now)) }
{
    let object = object_in(alloc, &RULE_WORDS, value)?;
    let number = member(alloc, object, Word::Rule, &NumberReader { done })?;
    let priority = member(alloc, object, Word::Priority, &ShortReader)?;
    let when = member(alloc, object, Word::When, &CondsReader { version })?;
    let action = member(alloc, object, Word::Action, &ActionReader { version })?;
    let stateful = member(alloc, object, Word::Stateful, &TruthReader)?;
    let last = member(alloc, object, Word::Last, &TruthReader)?;
    let rule = Rule {
        number,
        priority,
        when,
        action,
        stateful,
        last,
    };
    let rule = judged(alloc, rule)?;
    Ok(rule)
}

#[derive(Drop)]
struct RuleReader {
    version: u8,
}

impl ReadItem<Rule> for RuleReader {
    ghost item_of = { λ reader. rule_of reader.version };

    fn item(&self, alloc: Global, done: &[Rule], value: &Value) -> Result<Rule, Fault> {
        one_rule(alloc, self.version, done, value)
    }
}

/// Reads the rules of a group.
#[derive(Drop)]
pub(crate) struct RulesReader {
    pub version: u8,
}

impl ReadValue<Items<Rule>> for RulesReader {
    ghost value_of = { λ reader. rules_of reader.version };

    #[tactic(auto, unfolding(crate::specs::Rule::rules_of))]
    fn value(&self, alloc: Global, value: &Value) -> Result<Items<Rule>, Fault> {
        let version = self.version;
        let values = items_up_to(alloc, MOST_RULES, value)?;
        let rules = list(alloc, &RuleReader { version }, values)?;
        Ok(rules)
    }
}
