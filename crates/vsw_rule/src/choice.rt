//! The rule that a packet meets.

ghost use Rattle.std.specs.Prelude.{◌≡◌, ◌≤◌, ◌||◌, List, Option, None, false, drop, is_none, length, option_copied, option_map, if◌then◌else◌};
ghost use Rattle.vsw_base.specs.declared.header.Header.{Header};
ghost use Rattle.vsw_rule.specs.Choice.{Chosen};
ghost use Rattle.vsw_rule.specs.Choice as spec;
ghost use Rattle.vsw_rule.specs.ChoiceSeen.{seen};
ghost use Rattle.vsw_rule.specs.Private.FromEnd.{after, from_end};

use crate::matching::all_hold;
use crate::packet::Packet;
use crate::rule::{Group, Rule};
use vsw_base::{Dir, Stack};

/// A rule that was chosen, and the number of its group.
#[derive(Clone, Copy)]
pub struct Choice<'a> {
    pub group: u16,
    pub rule: &'a Rule,
}

/// The one of lesser priority, and of two equals the first.
fn better<'a>(rule: &'a Rule, found: Option<&'a Rule>) -> Option<&'a Rule>
    ensures { option_copied result ≡ spec.better rule.now (option_copied found.entry) }
{
    match found {
        Some(best) if best.priority < rule.priority => Some(best),
        _ => Some(rule),
    }
}

/// A group's pick: of the rules that match the one of least priority, and of these the first.
pub fn pick<'a>(rules: &'a [Rule], packet: &Packet<'_>) -> Option<&'a Rule>
    ensures value { option_copied result ≡ spec.pick rules.now packet.now }
    ensures picks { spec.Picks rules.now packet.now (option_copied result) }
{
    least(rules, packet)
}

/// Goes over the rules from the last to the first.
fn least<'a>(rules: &'a [Rule], packet: &Packet<'_>) -> Option<&'a Rule>
    ensures { option_copied result ≡ spec.pick rules.now packet.now }
{
    let mut found: Option<&'a Rule> = None;
    let mut left = rules.len();
    while left > 0 {
        left -= 1;
        let rule = &rules[left];
        if rule.meets(packet) {
            found = better(rule, found);
        }
    }
    found
}

/// Whether the group is of this direction and all its conditions hold.
pub fn applies(group: &Group, dir: Dir, packet: &Packet<'_>) -> bool
    ensures { result ≡ spec.applies dir packet.now group.now }
{
    group.dir == dir && (group.when.is_empty() || all_hold(group.when.as_slice(), packet))
}

/// Whether a packet of this direction can meet a rule of the group.
#[inline(always)]
fn asks(group: &Group, dir: Dir) -> bool
    ensures { (hs : List Header) (later : Option Chosen) → result ≡ false → (if spec.applies dir hs group.now then after group.now.number (spec.pick group.now.rules hs) later else later) ≡ later }
{
    group.dir == dir && !group.rules.is_empty()
}

/// How many groups are left without those at the end that no packet of this direction meets a rule of.
#[inline(always)]
pub fn asked(dir: Dir, groups: &[Group]) -> usize
    ensures within { result ≤ length groups.now }
    ensures rest { (hs : List Header) → from_end dir (drop result groups.now) hs ≡ None }
{
    let mut left = groups.len();
    while left > 0 {
        if asks(&groups[left - 1], dir) {
            return left;
        }
        left -= 1;
    }
    0
}

/// Whether a pick is chosen, where later groups choose this: one marked last is, at once; any other gives
/// way to what later groups choose.
#[inline(always)]
pub fn wins(picked: &Rule, later: Option<&Rule>) -> bool
    ensures { result ≡ (picked.now.last || is_none (option_copied later.entry)) }
{
    picked.last || later.is_none()
}

/// The choice among so many groups, behind which none chooses.
fn choose_among<'a>(
    dir: Dir,
    groups: &'a [Group],
    count: usize,
    stack: &Stack,
) -> Option<Choice<'a>>
    requires within { count ≤ length groups.now }
    requires rest { from_end dir (drop count groups.now) stack.now ≡ None }
    ensures { option_map seen result ≡ from_end dir groups.now stack.now }
{
    let packet = Packet::of(stack);
    let mut found: Option<&'a Rule> = None;
    let mut number = 0;
    let mut left = count;
    while left > 0 {
        left -= 1;
        let group = &groups[left];
        if applies(group, dir, &packet) {
            if let Some(rule) = pick(group.rules.as_slice(), &packet) {
                if wins(rule, found) {
                    found = Some(rule);
                    number = group.number;
                }
            }
        }
    }
    match found {
        None => None,
        Some(rule) => Some(Choice {
            group: number,
            rule,
        }),
    }
}

/// The choice among a layer's groups: of the picks of those that are of the packet's direction and whose
/// conditions hold, the first that is marked last; where none is, the last pick.
#[inline(always)]
pub fn choose<'a>(dir: Dir, groups: &'a [Group], stack: &Stack) -> Option<Choice<'a>>
    ensures { option_map seen result ≡ spec.choose dir groups.now stack.now }
{
    let count = asked(dir, groups);
    if count == 0 {
        return None;
    }
    choose_among(dir, groups, count, stack)
}
