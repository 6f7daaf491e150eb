//! The index of a group.

ghost use Rattle.std.specs.Prelude.{◌≡◌, IfOk};
ghost use Rattle.vsw_rule.specs.Choice as choice;
ghost use Rattle.vsw_classify.specs.Place.{PicksAt, at_place};
ghost use Rattle.vsw_classify.specs.Private.Layer.{marks_last};

use crate::chosen::Sample;
use crate::entry::gather;
use crate::field_index::{FieldIndex, fields_of};
use crate::order::{keys_of, place_at};
use crate::ranks::{first_listed, first_offered};
use std::alloc::Global;
use std::marker::Model;
use std::snapshot::Snapshot;
use vsw_base::{Items, NoMemory};
use vsw_rule::{Group, Packet, Rule};

/// An index of a group's rules. Contracts see the rules that it was built of.
#[derive(Drop)]
pub struct GroupIndex {
    rules: Snapshot<Items<Rule>>,
    /// By rank: what leads to a rule's place.
    keys: Vec<u64>,
    /// Ranks that are offered to each packet, ascending.
    listed: Vec<u32>,
    fields: Vec<FieldIndex>,
    /// Whether a rule is marked last.
    has_last: bool,
}

impl Model for GroupIndex {
    ghost use Rattle.std.specs.Prelude.{◌≡◌, List};
    ghost use Rattle.vsw_rule.specs.declared.rule.Rule.{Rule};
    ghost use Rattle.vsw_classify.specs.Private.Layer.{marks_last};
    ghost use Rattle.vsw_classify.specs.Private.Search.{IsIndex};

    ghost Value = { List Rule };

    ghost view = { λ s. s.rules.value };

    ghost invariant = { λ s. IsIndex s.rules.value s.keys.items s.listed.items s.fields.items × (s.has_last ≡ marks_last s.rules.value) };
}

fn has_last(rules: &[Rule]) -> bool
    ensures { result ≡ marks_last rules.now }
{
    rules.iter().any(|rule| rule.last)
}

impl GroupIndex {
    /// The index of a group's rules. `NoMemory` where growth was refused, or the group has 2^32 rules or more.
    pub fn build(alloc: Global, group: &Group) -> Result<GroupIndex, NoMemory>
        ensures { IfOk result (λ index. index ≡ group.now.rules) }
    {
        GroupIndex::of(alloc, &group.rules)
    }

    /// The index of these rules. `NoMemory` where growth was refused, or there are 2^32 rules or more.
    pub fn of(alloc: Global, rules: &Items<Rule>) -> Result<GroupIndex, NoMemory>
        ensures { IfOk result (λ index. index ≡ rules.now) }
    {
        let snapshot = Snapshot::of(rules);
        let rules = rules.as_slice();
        let keys = keys_of(alloc, rules)?;
        let gathered = gather(alloc, rules, &keys, &Sample::of(rules))?;
        let fields = fields_of(alloc, &gathered.entries)?;
        Ok(GroupIndex {
            rules: snapshot,
            keys,
            listed: gathered.listed,
            fields,
            has_last: has_last(rules),
        })
    }

    /// The place of the group's pick.
    pub fn pick(&self, group: &Group, packet: &Packet<'_>) -> Option<u32>
        requires built { self.now ≡ group.now.rules }
        ensures value { at_place group.now.rules result ≡ choice.pick group.now.rules packet.now }
        ensures picks { PicksAt group.now.rules packet.now result }
    {
        self.find(group.rules.as_slice(), packet)
    }

    /// Whether a rule is marked last.
    pub(crate) fn has_last(&self) -> bool
        ensures { result ≡ marks_last self.now }
    {
        self.has_last
    }

    fn find(&self, rules: &[Rule], packet: &Packet<'_>) -> Option<u32>
        requires built { self.now ≡ rules.now }
        ensures { PicksAt rules.now packet.now result }
    {
        let count = self.keys.len() as u32;
        let listed = first_listed(&self.listed, rules, &self.keys, packet, count);
        let rank = first_offered(&self.fields, rules, &self.keys, packet, listed);
        place_at(&self.keys, rank)
    }
}
