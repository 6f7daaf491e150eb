//! Where the group or the rule of a number is, and which rules are there.

ghost use Rattle.std.specs.Prelude.{◌≡◌, ℕ, ◌<◌, false, IfOk, length, get_or};
ghost use Rattle.std.specs.List.{list_any, position};
ghost use Rattle.vsw_classify.specs.Groups as spec;

use std::alloc::Global;
use vsw_base::NoMemory;
use vsw_rule::{Group, Rule};

/// How many numbers there are for the rules of a group.
const NUMBERS: usize = 65_536;

/// The place of the group of this number.
pub(crate) fn group_place(groups: &[Group], number: u16) -> Option<usize>
    ensures { result ≡ position (spec.is_group number) groups.now }
{
    groups.iter().position(|group| number == group.number)
}

/// The rules of the group of this number, and none where it isn't there.
pub fn rules_in(groups: &[Group], number: u16) -> &[Rule]
    ensures { result.now ≡ spec.rules_in groups.now number }
{
    match group_place(groups, number) {
        Some(place) => groups[place].rules.as_slice(),
        None => &[],
    }
}

/// Whether there is a group of this number.
pub fn has_group(groups: &[Group], number: u16) -> bool
    ensures { result ≡ list_any (spec.is_group number) groups.now }
{
    group_place(groups, number).is_some()
}

/// The place of the rule of this number.
pub(crate) fn rule_place(rules: &[Rule], number: u16) -> Option<usize>
    ensures { result ≡ position (spec.is_rule number) rules.now }
{
    rules.iter().position(|rule| number == rule.number)
}

/// Whether there is a rule of this number.
pub fn has_rule(rules: &[Rule], number: u16) -> bool
    ensures { result ≡ list_any (spec.is_rule number) rules.now }
{
    rule_place(rules, number).is_some()
}

/// So many marks, none of them set.
fn no_marks(alloc: Global, count: usize) -> Result<Vec<bool>, NoMemory>
    ensures size { IfOk result (λ marks. length marks.items ≡ count) }
    ensures none { IfOk result (λ marks. (n : ℕ) → n < count → get_or marks.items n false ≡ false) }
{
    match vec![in alloc; false; count] {
        Ok(marks) => Ok(marks),
        Err(_) => Err(NoMemory),
    }
}

/// Whether two rules have one number. It takes 64 KiB for as long as it looks.
pub fn has_twice(alloc: Global, rules: &[Rule]) -> Result<bool, NoMemory>
    ensures { IfOk result (λ twice. twice ≡ spec.has_twice rules.now) }
{
    let mut marks = no_marks(alloc, NUMBERS)?;
    let mut twice = false;
    let mut left = rules.len();
    while left > 0 {
        left -= 1;
        let number = usize::from(rules[left].number);
        twice = marks[number] || twice;
        marks[number] = true;
    }
    Ok(twice)
}
