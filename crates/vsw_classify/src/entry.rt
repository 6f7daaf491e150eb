//! What is entered of a group's rules: each under one of its conditions, or in a list.

ghost use Rattle.std.specs.Prelude.{◌≡◌, ◌<◌, ◌++◌, ◌^◌, ℕ, List, IfOk, IfSome, OnOk, length, map, slice_get, option_copied, Some};
ghost use Rattle.vsw_rule.specs.declared.rule.Rule.{Rule};
ghost use Rattle.vsw_classify.specs.Private.Rank as ranked;
ghost use Rattle.std.specs.List.Sorted.{IsNonDecreasing};
ghost use Rattle.vsw_classify.specs.Private.Entry as entered;

use crate::chosen::Sample;
use crate::memory::push;
use crate::order::rule_at;
use std::alloc::Global;
use vsw_base::NoMemory;
use vsw_rule::{Cond, Field, Item, Rule};

/// An item of the condition that a rule is entered under, with the condition's field and the rule's rank.
#[derive(Clone, Copy)]
pub struct Entry {
    pub rank: u32,
    pub field: Field,
    pub item: Item,
}

/// What is gathered of a group's rules.
#[derive(Drop)]
pub struct Gathered {
    /// Ranks of the rules that no condition tells anything of, ascending.
    pub listed: Vec<u32>,
    pub entries: Vec<Entry>,
}

fn enter_items(
    entries: &mut Vec<Entry>,
    rank: u32,
    field: Field,
    items: &[Item],
) -> Result<(), NoMemory>
    ensures { OnOk result (entries.new.items ≡ entries.old.items ++ map (entered.entry_of rank field) items.now) }
{
    for item in items {
        push(
            entries,
            Entry {
                rank,
                field,
                item: *item,
            },
        )?;
    }
    Ok(())
}

fn condition_at(rule: &Rule, at: usize) -> &Cond
    requires { at < length rule.now.when }
    ensures { Some result.now ≡ slice_get rule.now.when at }
{
    &rule.when.as_slice()[at]
}

/// Enters a rule under the condition at this place, or lists it.
fn enter(
    listed: &mut Vec<u32>,
    entries: &mut Vec<Entry>,
    rank: u32,
    rule: &Rule,
    under: Option<usize>,
) -> Result<(), NoMemory>
    requires { IfSome under (λ at. at < length rule.now.when) }
    ensures { OnOk result (entered.Enters under rule.now rank listed.old.items entries.old.items listed.new.items entries.new.items) }
{
    match under {
        None => push(listed, rank),
        Some(at) => {
            let condition = condition_at(rule, at);
            enter_items(entries, rank, condition.field, condition.items.as_slice())
        }
    }
}

#[tactic(auto, using(crate::proofs::Gathered::steps, crate::proofs::Gathered::steps_none))]
/// Enters the rule at this rank, if there is one.
fn enter_at(
    listed: &mut Vec<u32>,
    entries: &mut Vec<Entry>,
    rank: u32,
    rule: Option<&Rule>,
    sample: &Sample<'_>,
) -> Result<(), NoMemory>
    ensures { OnOk result ((rules : List Rule) (keys : List ℕ) → ranked.rule_at rules keys rank ≡ option_copied rule.entry → entered.Steps rules keys rank listed.old.items entries.old.items listed.new.items entries.new.items) }
{
    match rule {
        None => Ok(()),
        Some(rule) => enter(listed, entries, rank, rule, sample.chosen(rule)),
    }
}

/// Enters each rule at its rank.
pub fn gather(
    alloc: Global,
    rules: &[Rule],
    keys: &[u64],
    sample: &Sample<'_>,
) -> Result<Gathered, NoMemory>
    requires { length keys.now < 2 ^ 32 }
    ensures { IfOk result (λ g. entered.IsGathered rules.now keys.now g.listed.items g.entries.items) }
{
    let mut listed: Vec<u32> = Vec::new(alloc);
    let mut entries: Vec<Entry> = Vec::new(alloc);
    for rank in 0..keys.len() {
        let rule = rule_at(rules, keys, rank as u32);
        enter_at(&mut listed, &mut entries, rank as u32, rule, sample)?;
    }
    Ok(Gathered { listed, entries })
}
