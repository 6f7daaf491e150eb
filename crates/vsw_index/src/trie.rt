//! The trie.

ghost use Rattle.std.specs.Prelude.{◌≡◌, IfOk};
ghost use Rattle.vsw_index.specs.PrefixLeast.{least_of, Answers};

use crate::chain::{Node, chain_of, climb};
use crate::order::put_in_order;
use crate::placed_prefix::PlacedPrefix;
use crate::span::spans_of;
use std::alloc::Global;
use std::marker::Model;
use vsw_base::NoMemory;

/// Placed prefixes, indexed. Contracts see the list that it was built of.
#[derive(Drop)]
pub struct Trie {
    items: Vec<PlacedPrefix>,
    nodes: Vec<Node>,
}

impl Model for Trie {
    ghost use Rattle.std.specs.Prelude.{List};
    ghost use Rattle.vsw_index.specs.declared.placed_prefix.PlacedPrefix.{PlacedPrefix};

    ghost Value = { List PlacedPrefix };

    ghost use Rattle.vsw_index.specs.Chain.{IsChain, Agrees};

    ghost view = { λ s. s.items.items };

    ghost invariant = { λ s. IsChain s.nodes.items × Agrees s.items.items s.nodes.items };
}

fn copy(alloc: Global, items: &[PlacedPrefix]) -> Result<Vec<PlacedPrefix>, NoMemory>
    ensures { IfOk result (λ v. v.items ≡ items.now) }
{
    match Vec::from_slice(alloc, items) {
        Ok(copy) => Ok(copy),
        Err(_) => Err(NoMemory),
    }
}

impl Trie {
    /// The trie of these items, in any order; places may repeat, prefixes may too.
    pub fn build(alloc: Global, items: &[PlacedPrefix]) -> Result<Trie, NoMemory>
        ensures { IfOk result (λ t. t ≡ items.now) }
    {
        let mut spans = spans_of(alloc, items)?;
        put_in_order(&mut spans);
        let nodes = chain_of(alloc, &spans)?;
        let items = copy(alloc, items)?;
        Ok(Trie { items, nodes })
    }

    /// The items, as they were given.
    pub fn items(&self) -> &[PlacedPrefix]
        ensures { result.now ≡ self.now }
    {
        &self.items
    }

    /// The least place at or above `from` whose prefix holds the address `value`.
    pub fn least(&self, value: u32, from: u32) -> Option<u32>
        ensures value { result ≡ least_of self.now value from }
        ensures answers { Answers self.now value from result }
    {
        climb(&self.nodes, value, from)
    }
}
