//! One command that puts rules into several groups.

ghost use Rattle.std.specs.Prelude.{◌≡◌, IfOk, OnOk, OnErr, map};
ghost use Rattle.vsw_policy.specs.Layer.{seen};
ghost use Rattle.vsw_policy.specs.Obey as obey;
ghost use Rattle.vsw_policy.specs.Private.Parts.{part_of};

use crate::Layer;
use crate::command::Part;
use crate::places::layer_place;
use std::alloc::Global;
use vsw_base::NoMemory;
use vsw_classify::{IndexedRules, copy_rules};

/// A part whose rules have their index.
#[derive(Drop)]
pub struct IndexedPart {
    pub layer: u16,
    pub group: u16,
    pub rules: IndexedRules,
}

fn index_part(alloc: Global, part: &Part) -> Result<IndexedPart, NoMemory>
    ensures { IfOk result (λ indexed. part_of indexed ≡ part.now) }
{
    let rules = IndexedRules::of(alloc, copy_rules(alloc, part.rules.as_slice())?)?;
    Ok(IndexedPart {
        layer: part.layer,
        group: part.group,
        rules,
    })
}

/// The parts with their indexes.
fn index_parts(alloc: Global, parts: &[Part]) -> Result<Vec<IndexedPart>, NoMemory>
    ensures { IfOk result (λ indexed. map part_of indexed.items ≡ parts.now) }
{
    let mut indexed: Vec<IndexedPart> = Vec::new(alloc);
    for part in parts {
        if indexed.push(index_part(alloc, part)?).is_err() {
            return Err(NoMemory);
        }
    }
    Ok(indexed)
}

/// Puts the rules of a part into its group. It takes no memory.
fn put_part(layers: &mut Vec<Layer>, controller: u16, part: IndexedPart)
    ensures { map seen layers.new.items ≡ obey.put_part controller (part_of part) (map seen layers.old.items) }
{
    let Some(place) = layer_place(layers, controller, part.layer) else {
        return;
    };
    layers[place].put_indexed(part.group, part.rules);
}

/// Puts the rules of each part into its group. All indexes are made before the first group changes.
pub fn put_many(
    alloc: Global,
    layers: &mut Vec<Layer>,
    controller: u16,
    parts: &[Part],
) -> Result<(), NoMemory>
    ensures ok { OnOk result (map seen layers.new.items ≡ obey.put_parts controller parts.now (map seen layers.old.items)) }
    ensures err { OnErr result (map seen layers.new.items ≡ map seen layers.old.items) }
{
    for part in index_parts(alloc, parts)? {
        put_part(layers, controller, part);
    }
    Ok(())
}
