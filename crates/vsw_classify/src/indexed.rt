//! Rules with their index.

ghost use Rattle.std.specs.Prelude.{◌≡◌, IfOk};

use crate::GroupIndex;
use std::alloc::Global;
use std::marker::Model;
use vsw_base::{Items, NoMemory};
use vsw_rule::Rule;

/// The rules of a group and the index of them. Contracts see the rules.
#[derive(Drop)]
pub struct IndexedRules {
    pub(crate) rules: Items<Rule>,
    pub(crate) index: GroupIndex,
}

impl Model for IndexedRules {
    ghost use Rattle.std.specs.Prelude.{◌≡◌, List};
    ghost use Rattle.vsw_rule.specs.declared.rule.Rule.{Rule};

    ghost Value = { List Rule };

    ghost view = { λ s. s.rules };

    ghost invariant = { λ s. s.index ≡ s.rules };
}

impl IndexedRules {
    /// These rules, with an index of them. `NoMemory` where growth was refused, or there are 2^32 rules
    /// or more.
    pub fn of(alloc: Global, rules: Items<Rule>) -> Result<IndexedRules, NoMemory>
        ensures { IfOk result (λ indexed. indexed ≡ rules) }
    {
        let index = GroupIndex::of(alloc, &rules)?;
        Ok(IndexedRules { rules, index })
    }

    /// The rules.
    pub fn as_slice(&self) -> &[Rule]
        ensures { result.now ≡ self.now }
    {
        self.rules.as_slice()
    }
}
