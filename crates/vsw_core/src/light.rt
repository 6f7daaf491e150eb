//! Whether rows pay at these layers.

use vsw_policy::Layer;

/// How many tests of a rule cost as much as a row's answer does beyond the shortest walk.
const ALLOWANCE: usize = 24;
/// How many of them a layer costs beside those of its rules.
const LAYER: usize = 3;
/// How many a layer costs besides once it has pairs: a look for one, and an entry for its last use.
const PAIRS: usize = 8;
/// From how many rules on a group is asked by its index, which costs about as many tests.
const INDEXED: usize = 8;
/// How many rules more make an index cost a test more.
const SPREAD: usize = 128;

/// What a choice among so many rules of a group costs.
fn choice(rules: usize) -> usize {
    if rules < INDEXED {
        return rules;
    }
    (rules / SPREAD).saturating_add(INDEXED)
}

/// What is left of an allowance after a walk over the layer, if it costs no more.
fn left_after(layer: &Layer, allowance: usize) -> Option<usize> {
    let mut left = allowance.checked_sub(LAYER)?;
    if layer.flows.len() > 0 {
        left = left.checked_sub(PAIRS)?;
    }
    for group in layer.groups.as_slice() {
        left = left.checked_sub(choice(group.rules.len()))?;
    }
    Some(left)
}

/// Whether a walk over the layers costs less than a row's answer, by a rough count. Nothing that is proved hangs on it.
pub fn is_light(layers: &[Layer]) -> bool {
    let mut allowance = ALLOWANCE;
    for layer in layers {
        match left_after(layer, allowance) {
            Some(left) => allowance = left,
            None => return false,
        }
    }
    true
}
