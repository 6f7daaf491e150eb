//! The search over all that a group's index has.

ghost use Rattle.std.specs.Prelude.{◌≡◌, ℕ};
ghost use Rattle.std.specs.List.{Contains};
ghost use Rattle.std.specs.List.Sorted.{IsNonDecreasing};
ghost use Rattle.vsw_classify.specs.Private.Rank.{meets_at};
ghost use Rattle.vsw_classify.specs.Private.Search.{Narrows, OfferedIn};

use crate::field_index::FieldIndex;
use crate::order::meets;
use vsw_rule::{Packet, Rule};

/// The least rank below `limit` of a rule that matches, among those of the list; where there is none,
/// `limit`.
pub fn first_listed(
    listed: &[u32],
    rules: &[Rule],
    keys: &[u64],
    packet: &Packet<'_>,
    limit: u32,
) -> u32
    requires { IsNonDecreasing listed.now }
    ensures { Narrows (meets_at rules.now keys.now packet.now) (Contains listed.now) limit result }
{
    for rank in listed {
        if *rank >= limit {
            return limit;
        }
        if meets(rules, keys, *rank, packet) {
            return *rank;
        }
    }
    limit
}

/// The same among those that the fields' indexes offer.
pub fn first_offered(
    fields: &[FieldIndex],
    rules: &[Rule],
    keys: &[u64],
    packet: &Packet<'_>,
    limit: u32,
) -> u32
    ensures { Narrows (meets_at rules.now keys.now packet.now) (OfferedIn fields.now packet.now) limit result }
{
    let mut best = limit;
    for index in fields {
        best = index.narrow(rules, keys, packet, best);
    }
    best
}
