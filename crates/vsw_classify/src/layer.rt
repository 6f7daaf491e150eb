//! The choice in a layer.

ghost use Rattle.std.specs.Prelude.{◌≡◌, ◌≤◌, ◌<◌, length, drop, is_none, IfOk, None, Option, option_copied, option_map, slice_index_or};
ghost use Rattle.vsw_rule.specs.Choice as spec;
ghost use Rattle.vsw_rule.specs.Choice.{Chosen};
ghost use Rattle.vsw_rule.specs.ChoiceSeen.{seen};
ghost use Rattle.vsw_rule.specs.Private.FromEnd.{from_end};
ghost use Rattle.vsw_classify.specs.Place.{AreBuiltOf};
ghost use Rattle.vsw_classify.specs.Private.Layer.{over, with_group};
ghost use Rattle.vsw_rule.specs.declared.rule.Group.{Group};

use crate::index::GroupIndex;
use crate::memory::push;
use std::alloc::Global;
use vsw_base::{Dir, NoMemory, Stack};
use vsw_rule::{Choice, Group, Packet, Rule, applies, asked, wins};

/// An index for each of a layer's groups, in their order.
pub fn build_layer(alloc: Global, groups: &[Group]) -> Result<Vec<GroupIndex>, NoMemory>
    ensures { IfOk result (λ v. AreBuiltOf groups.now v.items) }
{
    let mut indexes: Vec<GroupIndex> = Vec::new(alloc);
    for group in groups {
        push(&mut indexes, GroupIndex::build(alloc, group)?)?;
    }
    Ok(indexes)
}

/// The group's pick.
fn picked<'a>(group: &'a Group, index: &GroupIndex, packet: &Packet<'_>) -> Option<&'a Rule>
    requires built { index.now ≡ group.now.rules }
    ensures { option_copied result ≡ spec.pick group.now.rules packet.now }
{
    match index.pick(group, packet) {
        None => None,
        Some(place) => group.rules.as_slice().get(place as usize),
    }
}

/// The group's pick, where the group applies and its pick is chosen over what later groups choose. Where
/// these choose, only a rule marked last can be.
fn chosen_in<'a>(
    group: &'a Group,
    index: &GroupIndex,
    dir: Dir,
    packet: &Packet<'_>,
    later: Option<&Rule>,
) -> Option<&'a Rule>
    requires built { index.now ≡ group.now.rules }
    ensures { (o : Option Chosen) → is_none o ≡ is_none (option_copied later.entry) → over group.now.number (option_copied result) o ≡ with_group dir packet.now group.now o }
{
    if later.is_some() && !index.has_last() {
        return None;
    }
    if !applies(group, dir, packet) {
        return None;
    }
    match picked(group, index, packet) {
        Some(rule) if wins(rule, later) => Some(rule),
        _ => None,
    }
}

/// The index of the group at a place.
fn index_at<'a>(groups: &[Group], index: &'a [GroupIndex], at: usize) -> &'a GroupIndex
    requires built { AreBuiltOf groups.now index.now }
    requires within { at < length groups.now }
    ensures { (d : Group) → result.now ≡ (slice_index_or groups.now at d).rules }
{
    &index[at]
}

/// The choice among so many groups, behind which none chooses.
fn choose_among<'a>(
    groups: &'a [Group],
    index: &[GroupIndex],
    count: usize,
    dir: Dir,
    stack: &Stack,
) -> Option<Choice<'a>>
    requires built { AreBuiltOf groups.now index.now }
    requires within { count ≤ length groups.now }
    requires rest { from_end dir (drop count groups.now) stack.now ≡ None }
    ensures { option_map seen result ≡ from_end dir groups.now stack.now }
{
    let packet = Packet::of(stack);
    let mut found: Option<&'a Rule> = None;
    let mut number = 0;
    let mut left = count;
    while left > 0 {
        left -= 1;
        let group = &groups[left];
        let own = index_at(groups, index, left);
        if let Some(rule) = chosen_in(group, own, dir, &packet, found) {
            found = Some(rule);
            number = group.number;
        }
    }
    match found {
        None => None,
        Some(rule) => Some(Choice {
            group: number,
            rule,
        }),
    }
}

/// The choice among a layer's groups, by their indexes: of the picks of those that are of the packet's
/// direction and whose conditions hold, the first that is marked last; where none is, the last pick.
#[inline(always)]
pub fn pick_layer<'a>(
    groups: &'a [Group],
    index: &[GroupIndex],
    dir: Dir,
    stack: &Stack,
) -> Option<Choice<'a>>
    requires built { AreBuiltOf groups.now index.now }
    ensures { option_map seen result ≡ spec.choose dir groups.now stack.now }
{
    let count = asked(dir, groups);
    if count == 0 {
        return None;
    }
    choose_among(groups, index, count, dir, stack)
}
