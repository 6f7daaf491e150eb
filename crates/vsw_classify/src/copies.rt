//! Copies of conditions and rules, since a command only lends its own.

ghost use Rattle.std.specs.Prelude.{◌≡◌, ◌++◌, ◌∷◌, [], IfOk, OnOk};
ghost use Rattle.vsw_classify.specs.Groups.{is_rule, removed};

use crate::places::rule_place;
use std::alloc::Global;
use vsw_base::{Items, NoMemory};
use vsw_rule::{Cond, Item, Rule};

fn copy_items(alloc: Global, items: &[Item]) -> Result<Items<Item>, NoMemory>
    ensures { IfOk result (λ copy. copy ≡ items.now) }
{
    match Vec::from_slice(alloc, items) {
        Ok(copy) => Ok(Items::of(copy)),
        Err(_) => Err(NoMemory),
    }
}

fn copy_condition(alloc: Global, condition: &Cond) -> Result<Cond, NoMemory>
    ensures { IfOk result (λ copy. copy ≡ condition.now) }
{
    let items = copy_items(alloc, condition.items.as_slice())?;
    Ok(Cond {
        field: condition.field,
        items,
    })
}

pub fn copy_conditions(alloc: Global, conditions: &[Cond]) -> Result<Items<Cond>, NoMemory>
    ensures { IfOk result (λ copy. copy ≡ conditions.now) }
{
    let mut copies = Items::new(alloc);
    for condition in conditions {
        let copy = copy_condition(alloc, condition)?;
        if copies.push(copy).is_err() {
            return Err(NoMemory);
        }
    }
    Ok(copies)
}

pub fn copy_rule(alloc: Global, rule: &Rule) -> Result<Rule, NoMemory>
    ensures { IfOk result (λ copy. copy ≡ rule.now) }
{
    let when = copy_conditions(alloc, rule.when.as_slice())?;
    Ok(Rule {
        number: rule.number,
        priority: rule.priority,
        when,
        action: rule.action,
        stateful: rule.stateful,
        last: rule.last,
    })
}

/// A copy of one rule comes behind the others.
fn push_copy(alloc: Global, copies: &mut Items<Rule>, rule: &Rule) -> Result<(), NoMemory>
    ensures { OnOk result (copies.new ≡ copies.old ++ rule.now ∷ []) }
{
    let copy = copy_rule(alloc, rule)?;
    match copies.push(copy) {
        Ok(()) => Ok(()),
        Err(_) => Err(NoMemory),
    }
}

/// Copies of these rules come behind the others.
fn push_copies(alloc: Global, copies: &mut Items<Rule>, rules: &[Rule]) -> Result<(), NoMemory>
    ensures { OnOk result (copies.new ≡ copies.old ++ rules.now) }
{
    for rule in rules {
        push_copy(alloc, copies, rule)?;
    }
    Ok(())
}

pub fn copy_rules(alloc: Global, rules: &[Rule]) -> Result<Items<Rule>, NoMemory>
    ensures { IfOk result (λ copy. copy ≡ rules.now) }
{
    let mut copies = Items::new(alloc);
    push_copies(alloc, &mut copies, rules)?;
    Ok(copies)
}

/// Copies of these rules, and of one more behind them.
pub(crate) fn copy_with(alloc: Global, rules: &[Rule], rule: &Rule) -> Result<Items<Rule>, NoMemory>
    ensures { IfOk result (λ copy. copy ≡ rules.now ++ rule.now ∷ []) }
{
    let mut copies = copy_rules(alloc, rules)?;
    push_copy(alloc, &mut copies, rule)?;
    Ok(copies)
}

/// Copies of these rules, but for the one of this number.
pub(crate) fn copy_without(
    alloc: Global,
    rules: &[Rule],
    number: u16,
) -> Result<Items<Rule>, NoMemory>
    ensures { IfOk result (λ copy. copy ≡ removed (is_rule number) rules.now) }
{
    let Some(place) = rule_place(rules, number) else {
        return copy_rules(alloc, rules);
    };
    let mut copies = copy_rules(alloc, &rules[..place])?;
    push_copies(alloc, &mut copies, &rules[place + 1..])?;
    Ok(copies)
}
