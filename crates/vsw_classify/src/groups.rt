//! The groups of a layer, and what a command changes of them.

ghost use Rattle.std.specs.Prelude.{◌≡◌, ◌++◌, ◌∷◌, [], option_map, IfOk, OnOk, OnErr};
ghost use Rattle.vsw_rule.specs.Choice as choice;
ghost use Rattle.vsw_rule.specs.ChoiceSeen.{seen};
ghost use Rattle.vsw_classify.specs.Place.{AreBuiltOf};
ghost use Rattle.vsw_classify.specs.Groups.{is_group, changed, removed, with_rules, with_rule, without_rule};

use crate::copies::{copy_with, copy_without};
use crate::indexed::IndexedRules;
use crate::places::{group_place, rules_in};
use crate::{GroupIndex, build_layer, pick_layer};
use std::alloc::Global;
use std::marker::Model;
use vsw_base::{Dir, NoMemory, Stack};
use vsw_rule::{Choice, Group, Rule};

/// The groups of a layer, in the order in which they were added, and the index of each one's rules.
/// Contracts see the groups.
#[derive(Drop)]
pub struct Groups {
    groups: Vec<Group>,
    indexes: Vec<GroupIndex>,
}

impl Model for Groups {
    ghost use Rattle.std.specs.Prelude.{List};
    ghost use Rattle.vsw_rule.specs.declared.rule.Group.{Group};
    ghost use Rattle.vsw_classify.specs.Place.{AreBuiltOf};

    ghost Value = { List Group };

    ghost view = { λ s. s.groups.items };

    ghost invariant = { λ s. AreBuiltOf s.groups.items s.indexes.items };
}

/// A group and its index come behind the others; where there is no memory for both, nothing changes.
fn push_both(
    groups: &mut Vec<Group>,
    indexes: &mut Vec<GroupIndex>,
    group: Group,
    index: GroupIndex,
) -> Result<(), NoMemory>
    requires beside { AreBuiltOf groups.old.items indexes.old.items }
    requires of_group { index ≡ group.rules }
    ensures ok { OnOk result (groups.new.items ≡ groups.old.items ++ group ∷ []) }
    ensures err { OnErr result (groups.new.items ≡ groups.old.items) }
    ensures built { AreBuiltOf groups.new.items indexes.new.items }
{
    if indexes.push(index).is_err() {
        return Err(NoMemory);
    }
    if groups.push(group).is_err() {
        let _ = indexes.pop();
        return Err(NoMemory);
    }
    Ok(())
}

/// A group goes, with its index.
fn remove_both(groups: &mut Vec<Group>, indexes: &mut Vec<GroupIndex>, group: u16)
    requires beside { AreBuiltOf groups.old.items indexes.old.items }
    ensures gone { groups.new.items ≡ removed (is_group group) groups.old.items }
    ensures built { AreBuiltOf groups.new.items indexes.new.items }
{
    let Some(place) = group_place(groups, group) else {
        return;
    };
    let _ = groups.remove(place);
    let _ = indexes.remove(place);
}

/// A group gets other rules, with their index.
fn put_both(groups: &mut Vec<Group>, indexes: &mut Vec<GroupIndex>, group: u16, rules: IndexedRules)
    requires beside { AreBuiltOf groups.old.items indexes.old.items }
    ensures put { groups.new.items ≡ changed (is_group group) (with_rules rules) groups.old.items }
    ensures built { AreBuiltOf groups.new.items indexes.new.items }
{
    let Some(place) = group_place(groups, group) else {
        return;
    };
    let IndexedRules { rules, index } = rules;
    groups[place].rules = rules;
    indexes[place] = index;
}

impl Groups {
    /// No groups, which take no memory.
    pub fn new(alloc: Global) -> Groups
        ensures { result ≡ [] }
    {
        Groups {
            groups: Vec::new(alloc),
            indexes: Vec::new(alloc),
        }
    }

    /// These groups, with an index for each. `NoMemory` where growth was refused, or a group has 2^32
    /// rules or more.
    pub fn of(alloc: Global, groups: Vec<Group>) -> Result<Groups, NoMemory>
        ensures { IfOk result (λ all. all ≡ groups.items) }
    {
        let indexes = build_layer(alloc, &groups)?;
        Ok(Groups { groups, indexes })
    }

    /// The groups.
    pub fn as_slice(&self) -> &[Group]
        ensures { result.now ≡ self.now }
    {
        &self.groups
    }

    /// The rule that a packet of this direction and stack meets: of the picks of those groups that are
    /// of the direction and whose conditions hold, the first that is marked last; where none is, the last
    /// pick. It is found by the indexes.
    #[inline(always)]
    pub fn choose(&self, dir: Dir, stack: &Stack) -> Option<Choice<'_>>
        ensures { option_map seen result ≡ choice.choose dir self.now stack.now }
    {
        pick_layer(&self.groups, &self.indexes, dir, stack)
    }

    /// Adds a group behind the others.
    pub fn push(&mut self, alloc: Global, group: Group) -> Result<(), NoMemory>
        ensures ok { OnOk result (self.new ≡ self.old ++ group ∷ []) }
        ensures err { OnErr result (self.new ≡ self.old) }
    {
        let index = GroupIndex::build(alloc, &group)?;
        push_both(&mut self.groups, &mut self.indexes, group, index)
    }

    /// A group goes, with its rules.
    pub fn remove(&mut self, group: u16)
        ensures { self.new ≡ removed (is_group group) self.old }
    {
        remove_both(&mut self.groups, &mut self.indexes, group);
    }

    /// Puts other rules in place of all that a group has. It takes no memory.
    pub fn put_rules(&mut self, group: u16, rules: IndexedRules)
        ensures { self.new ≡ changed (is_group group) (with_rules rules) self.old }
    {
        put_both(&mut self.groups, &mut self.indexes, group, rules);
    }

    /// Adds a rule behind those of a group.
    pub fn add_rule(&mut self, alloc: Global, group: u16, rule: &Rule) -> Result<(), NoMemory>
        ensures ok { OnOk result (self.new ≡ changed (is_group group) (with_rule rule.now) self.old) }
        ensures err { OnErr result (self.new ≡ self.old) }
    {
        let copies = copy_with(alloc, rules_in(&self.groups, group), rule)?;
        let rules = IndexedRules::of(alloc, copies)?;
        self.put_rules(group, rules);
        Ok(())
    }

    /// A rule of a group goes.
    pub fn remove_rule(&mut self, alloc: Global, group: u16, number: u16) -> Result<(), NoMemory>
        ensures ok { OnOk result (self.new ≡ changed (is_group group) (without_rule number) self.old) }
        ensures err { OnErr result (self.new ≡ self.old) }
    {
        let copies = copy_without(alloc, rules_in(&self.groups, group), number)?;
        let rules = IndexedRules::of(alloc, copies)?;
        self.put_rules(group, rules);
        Ok(())
    }
}
