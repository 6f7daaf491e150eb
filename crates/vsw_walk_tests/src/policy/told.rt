//! What is seen of layers.

use vsw_base::Dir;
use vsw_policy::Layer;
use vsw_rule::{Field, Group};

/// The controller and the number of the layer at a place.
pub fn named(layers: &[Layer], layer: usize) -> Option<(u16, u16)> {
    let layer = layers.get(layer)?;
    Some((layer.controller, layer.spec.layer))
}

/// The group at a place of the layer at a place.
fn group_at(layers: &[Layer], layer: usize, group: usize) -> Option<&Group> {
    layers.get(layer)?.groups.as_slice().get(group)
}

/// How many groups the layer at a place has.
pub fn count_groups(layers: &[Layer], layer: usize) -> Option<usize> {
    Some(layers.get(layer)?.groups.as_slice().len())
}

/// The number and direction of a group, and how many conditions and rules it has.
pub type Told = (u16, Dir, usize, usize);

/// What is told of the group at a place of the first layer.
pub fn told_group(layers: &[Layer], group: usize) -> Option<Told> {
    let group = group_at(layers, 0, group)?;
    Some((group.number, group.dir, group.when.len(), group.rules.len()))
}

/// How many items the first condition of the group at a place of the first layer has.
pub fn told_items(layers: &[Layer], group: usize) -> Option<(Field, usize)> {
    let condition = group_at(layers, 0, group)?.when.as_slice().get(0)?;
    Some((condition.field, condition.items.len()))
}

/// The number and priority of a group's last rule, and how many rules it has.
pub type Rules = (u16, u16, usize);

/// What is told of the rules in the group at a place of the first layer.
pub fn told_rules(layers: &[Layer], group: usize) -> Option<Rules> {
    let rules = &group_at(layers, 0, group)?.rules;
    match rules.as_slice() {
        [] => Some((0, 0, 0)),
        [.., last] => Some((last.number, last.priority, rules.len())),
    }
}

/// What the first layer does with outbound and with inbound packets that meet no rule.
pub fn defaults(layers: &[Layer]) -> Option<(bool, bool)> {
    let spec = &layers.get(0)?.spec;
    Some((spec.allow_out, spec.allow_in))
}
