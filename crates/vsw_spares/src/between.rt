//! Where two lists of rules differ.

ghost use Rattle.std.specs.Prelude.{◌≡◌, length};
ghost use Rattle.vsw_spares.specs.Between.{AreBetween};
ghost use Rattle.vsw_policy.specs.Staying.{same_rule};

use vsw_rule::Rule;

/// What stands between a front and a rest that two lists of rules share.
#[derive(Clone, Copy)]
pub struct Between<'a> {
    pub old: &'a [Rule],
    pub new: &'a [Rule],
}

fn is_same(a: &Rule, b: &Rule) -> bool
    ensures { result ≡ same_rule a.now b.now }
{
    *a == *b
}

/// Without the rest that both share.
fn before_rest<'a>(old: &'a [Rule], new: &'a [Rule]) -> Between<'a>
    ensures { AreBetween old.now new.now result.old.now result.new.now }
{
    let Some((last, front)) = old.split_last() else {
        return Between { old, new };
    };
    let Some((other, beside)) = new.split_last() else {
        return Between { old, new };
    };
    if is_same(last, other) {
        before_rest(front, beside)
    } else {
        Between { old, new }
    }
}

/// Without the front and the rest that both share.
pub fn differing<'a>(old: &'a [Rule], new: &'a [Rule]) -> Between<'a>
    ensures { AreBetween old.now new.now result.old.now result.new.now }
{
    let Some((first, rest)) = old.split_first() else {
        return Between { old, new };
    };
    let Some((other, beside)) = new.split_first() else {
        return Between { old, new };
    };
    if is_same(first, other) {
        differing(rest, beside)
    } else {
        before_rest(old, new)
    }
}
