//! Which rules of a group are gone where others stand in their place.

ghost use Rattle.std.specs.Prelude.{◌≡◌, ℕ, false, length, get_or};
ghost use Rattle.std.specs.List.{list_any};
ghost use Rattle.vsw_policy.specs.Staying as staying;

use vsw_rule::Rule;

/// How many numbers there are for the rules of a group.
const NUMBERS: usize = 65_536;

fn is_same(a: &Rule, b: &Rule) -> bool
    ensures { result ≡ staying.same_rule a.now b.now }
{
    *a == *b
}

/// Whether a rule isn't among these.
pub fn is_gone(rules: &[Rule], rule: &Rule) -> bool
    ensures { result ≡ staying.is_gone rules.now rule.now }
{
    !rules.iter().any(|other| is_same(rule, other))
}

/// A mark for each number, none of them set.
pub fn unmarked() -> [bool; NUMBERS]
    ensures size { length result ≡ 65536 }
    ensures none { (n : ℕ) → get_or result n false ≡ false }
{
    [false; NUMBERS]
}

/// Marks the numbers of the old rules that aren't among the new ones; tells whether there are any.
pub fn mark_gone(marks: &mut [bool], old: &[Rule], new: &[Rule]) -> bool
    requires size { length marks.old ≡ 65536 }
    requires none { (n : ℕ) → get_or marks.old n false ≡ false }
    ensures marked { (n : ℕ) → get_or marks.new n false ≡ staying.number_goes old.now new.now n }
    ensures any { result ≡ list_any (staying.is_gone new.now) old.now }
{
    let mut any = false;
    let mut left = old.len();
    while left > 0 {
        left -= 1;
        let rule = &old[left];
        if is_gone(new, rule) {
            marks[usize::from(rule.number)] = true;
            any = true;
        }
    }
    any
}
