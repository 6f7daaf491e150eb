//! What a command leaves of what a look is told by the layer that it names.

ghost use Rattle.std.specs.Prelude.{◌≡◌, true, option_copied};
ghost use Rattle.std.specs.List.{find, list_all, list_any};
ghost use Rattle.vsw_spares.specs.Between.{AreBetween};
ghost use Rattle.vsw_spares.specs.Leaving as leaving;
ghost use Rattle.vsw_spares.specs.Spared.{all_same, leaves};
ghost use Rattle.vsw_policy.specs.Groups.{is_group, is_rule, rules_in};
ghost use Rattle.vsw_policy.specs.Layer.{seen};
ghost use Rattle.vsw_policy.specs.declared.command.Command.TheVariants.{AddRule, PutRules, RemoveGroup, RemoveRule, SetDefault, Sweep};
ghost use Rattle.vsw_walk.specs.Visit as visit;

use crate::between::Between;
use crate::keyed::{may_apply, may_match, none_may, picks_same};
use vsw_base::{Dir, Items, Moment};
use vsw_policy::Layer;
use vsw_rule::{Group, Rule};
use vsw_walk::Looked;

fn allows(layer: &Layer, dir: Dir) -> bool
    ensures { result ≡ visit.allows layer.now.spec dir }
{
    match dir {
        Dir::Out => layer.spec.allow_out,
        Dir::In => layer.spec.allow_in,
    }
}

/// Another default. A pair is looked for only where the default would be the look's own and another: a command asks each row.
pub fn default_leaves(layer: &Layer, look: &Looked, number: u16, dir: Dir, allow: bool) -> bool
    ensures { result ≡ leaves (SetDefault number dir allow) (seen layer.now) look.now }
{
    if dir != look.dir || allow == allows(layer, dir) {
        return true;
    }
    layer.flows.find(look.dir, &look.key).is_some()
}

/// A sweep.
pub fn sweep_leaves(layer: &Layer, look: &Looked, number: u16, now: Moment) -> bool
    ensures { result ≡ leaves (Sweep number now) (seen layer.now) look.now }
{
    match layer.flows.find(look.dir, &look.key) {
        Some(pair) => !pair.is_over(now, layer.spec.idle, layer.spec.linger),
        None => true,
    }
}

fn group_of(groups: &[Group], number: u16) -> Option<&Group>
    ensures { option_copied result ≡ find (is_group number) groups.now }
{
    groups.iter().find(|group| number == group.number)
}

fn adds(look: &Looked, rule: &Rule, group: &Group) -> bool
    ensures { result ≡ leaving.adds look.now rule.now group.now }
{
    !may_apply(look.dir, &look.key, group) || !may_match(&look.key, rule)
}

fn one_goes(look: &Looked, number: u16, rule: &Rule) -> bool
    ensures { result ≡ leaving.one_goes look.now number rule.now }
{
    number != rule.number || !may_match(&look.key, rule)
}

fn none_goes(look: &Looked, number: u16, rules: &[Rule]) -> bool
    ensures { result ≡ list_all (leaving.one_goes look.now number) rules.now }
{
    rules.iter().all(|rule| one_goes(look, number, rule))
}

fn drops(look: &Looked, number: u16, group: &Group) -> bool
    ensures { result ≡ leaving.drops look.now number group.now }
{
    !may_apply(look.dir, &look.key, group) || none_goes(look, number, group.rules.as_slice())
}

fn clears(look: &Looked, group: &Group) -> bool
    ensures { result ≡ leaving.clears look.now group.now }
{
    !may_apply(look.dir, &look.key, group) || none_may(&look.key, group.rules.as_slice())
}

fn rules_stay_adding(look: &Looked, number: u16, rule: &Rule, groups: &[Group]) -> bool
    ensures { result ≡ leaving.in_group (leaving.adds look.now rule.now) (find (is_group number) groups.now) }
{
    match group_of(groups, number) {
        None => true,
        Some(group) => adds(look, rule, group),
    }
}

fn rules_stay_dropping(look: &Looked, number: u16, rule: u16, groups: &[Group]) -> bool
    ensures { result ≡ leaving.in_group (leaving.drops look.now rule) (find (is_group number) groups.now) }
{
    match group_of(groups, number) {
        None => true,
        Some(group) => drops(look, rule, group),
    }
}

fn rules_stay_clearing(look: &Looked, number: u16, groups: &[Group]) -> bool
    ensures { result ≡ leaving.in_group (leaving.clears look.now) (find (is_group number) groups.now) }
{
    match group_of(groups, number) {
        None => true,
        Some(group) => clears(look, group),
    }
}

/// A further rule.
pub fn add_rule_leaves(layer: &Layer, look: &Looked, number: u16, group: u16, rule: &Rule) -> bool
    ensures { result ≡ true → leaves (AddRule number group rule.now) (seen layer.now) look.now ≡ true }
{
    if rules_stay_adding(look, group, rule, layer.groups.as_slice()) {
        return true;
    }
    layer.flows.find(look.dir, &look.key).is_some()
}

/// A rule goes.
pub fn remove_rule_leaves(layer: &Layer, look: &Looked, number: u16, group: u16, rule: u16) -> bool
    ensures { result ≡ true → leaves (RemoveRule number group rule) (seen layer.now) look.now ≡ true }
{
    match layer.flows.find(look.dir, &look.key) {
        Some(pair) => !(pair.group == group && pair.rule == rule),
        None => rules_stay_dropping(look, group, rule, layer.groups.as_slice()),
    }
}

/// A group goes.
pub fn remove_group_leaves(layer: &Layer, look: &Looked, number: u16, group: u16) -> bool
    ensures { result ≡ true → leaves (RemoveGroup number group) (seen layer.now) look.now ≡ true }
{
    match layer.flows.find(look.dir, &look.key) {
        Some(pair) => pair.group != group,
        None => rules_stay_clearing(look, group, layer.groups.as_slice()),
    }
}

fn has_number(rules: &[Rule], number: u16) -> bool
    ensures { result ≡ list_any (is_rule number) rules.now }
{
    rules.iter().any(|rule| number == rule.number)
}

fn rules_stay_putting(
    look: &Looked,
    number: u16,
    rules: &[Rule],
    groups: &[Group],
    between: &Between<'_>,
) -> bool
    requires { AreBetween (rules_in groups.now number) rules.now between.now.old.now between.now.new.now }
    ensures { result ≡ true → all_same look.now number (λ h. rules.now) groups.now ≡ true }
{
    match group_of(groups, number) {
        None => true,
        Some(group) => picks_same(look, group, rules, between),
    }
}

/// Other rules, between which and the old ones this stands that comes or goes.
pub fn put_rules_leaves(
    layer: &Layer,
    look: &Looked,
    number: u16,
    group: u16,
    rules: &Items<Rule>,
    between: &Between<'_>,
) -> bool
    requires { AreBetween (rules_in layer.now.groups group) rules.now between.now.old.now between.now.new.now }
    ensures { result ≡ true → leaves (PutRules number group rules.now) (seen layer.now) look.now ≡ true }
{
    match layer.flows.find(look.dir, &look.key) {
        Some(pair) => pair.group != group || !has_number(between.old, pair.rule),
        None => rules_stay_putting(
            look,
            group,
            rules.as_slice(),
            layer.groups.as_slice(),
            between,
        ),
    }
}
