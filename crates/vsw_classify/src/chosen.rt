//! The condition that a rule is entered under. Each would do; the fewer other rules stand near it, the fewer
//! are tried in vain.

ghost use Rattle.std.specs.Prelude.{◌≡◌, ◌<◌, true, IfSome, length, slice_get};
ghost use Rattle.vsw_classify.specs.Private.Entry as entered;

use vsw_base::Prefix;
use vsw_rule::{Cond, Item, Rule};

/// How many of a group's rules a condition is held against.
const SAMPLED: usize = 16;

/// A group of fewer rules is tried rule by rule.
const FEW: usize = 8;

/// The rules that conditions are held against.
#[derive(Drop)]
pub struct Sample<'a> {
    rules: &'a [Rule],
}

/// The least and the greatest of some values; of none the least is above the greatest.
#[derive(Clone, Copy)]
struct Hull {
    low: u64,
    high: u64,
}

fn prefix_hull(prefix: &Prefix) -> Hull {
    let value = u64::from(prefix.value.number());
    if prefix.bits > 32 {
        return Hull {
            low: value,
            high: value,
        };
    }
    let shift = 32 - u32::from(prefix.bits);
    let low = value >> shift << shift;
    Hull {
        low,
        high: low | (0xffff_ffffu64 >> prefix.bits),
    }
}

fn item_hull(item: &Item) -> Hull {
    match item {
        Item::Range { low, high } => Hull {
            low: *low,
            high: *high,
        },
        Item::Prefix(prefix) => prefix_hull(prefix),
        // `may_enter` leaves these out, so it is of no matter which values they are near.
        Item::Prefix6(_) => Hull {
            low: 0,
            high: u64::MAX,
        },
    }
}

fn hull_of(items: &[Item]) -> Hull {
    let mut hull = Hull {
        low: u64::MAX,
        high: 0,
    };
    for item in items {
        let more = item_hull(item);
        hull.low = hull.low.min(more.low);
        hull.high = hull.high.max(more.high);
    }
    hull
}

/// Whether the rule has a condition on this one's field whose values may be this one's.
fn is_near(condition: &Cond, hull: Hull, rule: &Rule) -> bool {
    for other in rule.when.as_slice() {
        if other.field == condition.field {
            let beside = hull_of(other.items.as_slice());
            if beside.low <= hull.high && hull.low <= beside.high {
                return true;
            }
        }
    }
    false
}

/// Whether a rule may be entered under the condition at this place: the indexes hold no IPv6 addresses.
fn may_enter(conditions: &[Cond], at: usize) -> bool
    requires { at < length conditions.now }
    ensures { result ≡ entered.may_enter (slice_get conditions.now at) }
{
    !conditions[at].field.is_ip6()
}

impl<'a> Sample<'a> {
    pub fn of(rules: &'a [Rule]) -> Sample<'a> {
        Sample { rules }
    }

    /// How many of the sampled rules are near the condition.
    fn crowd(&self, condition: &Cond) -> usize {
        let hull = hull_of(condition.items.as_slice());
        let step = self.rules.len() / SAMPLED + 1;
        let mut count = 0;
        for turn in 0..SAMPLED {
            if let Some(rule) = self.rules.get(turn.wrapping_mul(step)) {
                count += usize::from(is_near(condition, hull, rule));
            }
        }
        count
    }

    /// The place of the condition that the fewest sampled rules are near. None where the rule has no
    /// conditions but on IPv6 addresses, or the group few rules.
    pub fn chosen(&self, rule: &Rule) -> Option<usize>
        ensures within { IfSome result (λ at. at < length rule.now.when) }
        ensures may { IfSome result (λ at. entered.may_enter (slice_get rule.now.when at) ≡ true) }
    {
        if self.rules.len() < FEW {
            return None;
        }
        self.least_crowded(rule.when.as_slice())
    }

    fn least_crowded(&self, conditions: &[Cond]) -> Option<usize>
        ensures within { IfSome result (λ at. at < length conditions.now) }
        ensures may { IfSome result (λ at. entered.may_enter (slice_get conditions.now at) ≡ true) }
    {
        let mut found = None;
        let mut least = usize::MAX;
        for at in 0..conditions.len() {
            if !may_enter(conditions, at) {
                continue;
            }
            let crowd = self.crowd(&conditions[at]);
            if crowd < least {
                least = crowd;
                found = Some(at);
            }
        }
        found
    }
}
