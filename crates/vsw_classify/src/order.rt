//! Ranks: the order in which the rules of a group are tried.

ghost use Rattle.std.specs.Prelude.{◌≡◌, ◌<◌, ◌≤◌, ◌+◌, ◌*◌, ◌%◌, ◌^◌, ℕ, IfOk, length, option_copied};
ghost use Rattle.std.specs.List.Sorted.{IsPermutation, IsNonDecreasing};
ghost use Rattle.vsw_classify.specs.Private.Rank as ranked;

use crate::memory::push;
use std::alloc::Global;
use vsw_base::NoMemory;
use vsw_rule::{Packet, Rule};

/// More than any place.
const PLACES: u64 = 0x1_0000_0000;

/// What a rule stands in the order by: its priority, then its place.
fn key(priority: u16, place: u64) -> u64
    requires { place < 2 ^ 32 }
    ensures { result ≡ priority * 4294967296 + place }
{
    u64::from(priority) * PLACES + place
}

fn unordered(alloc: Global, rules: &[Rule]) -> Result<Vec<u64>, NoMemory>
    requires { length rules.now < 2 ^ 32 }
    ensures { IfOk result (λ v. v.items ≡ ranked.keys_from 0 rules.now) }
{
    let mut keys: Vec<u64> = Vec::new(alloc);
    for place in 0..rules.len() {
        push(&mut keys, key(rules[place].priority, place as u64))?;
    }
    Ok(keys)
}

fn put_in_order(keys: &mut Vec<u64>)
    ensures permutation { IsPermutation keys.old.items keys.new.items }
    ensures in_order { IsNonDecreasing keys.new.items }
{
    keys.sort_unstable_by_key(|key| *key);
}

#[tactic(auto, using(crate::proofs::Ranked::ranks))]
/// The keys of the rules, the least first: the one at each rank leads to a rule's place.
pub fn keys_of(alloc: Global, rules: &[Rule]) -> Result<Vec<u64>, NoMemory>
    ensures { IfOk result (λ v. ranked.IsRanked rules.now v.items) }
{
    if rules.len() as u64 >= PLACES {
        return Err(NoMemory);
    }
    let mut keys = unordered(alloc, rules)?;
    put_in_order(&mut keys);
    Ok(keys)
}

/// The place of the rule at a rank.
pub fn place_at(keys: &[u64], rank: u32) -> Option<u32>
    ensures { result ≡ ranked.place_at keys.now rank }
{
    match keys.get(rank as usize) {
        None => None,
        Some(key) => Some((*key % PLACES) as u32),
    }
}

/// The rule at a rank.
pub fn rule_at<'a>(rules: &'a [Rule], keys: &[u64], rank: u32) -> Option<&'a Rule>
    ensures { option_copied result ≡ ranked.rule_at rules.now keys.now rank }
{
    match place_at(keys, rank) {
        None => None,
        Some(place) => rules.get(place as usize),
    }
}

/// Whether the rule at a rank matches.
pub fn meets(rules: &[Rule], keys: &[u64], rank: u32, packet: &Packet<'_>) -> bool
    ensures { result ≡ ranked.meets_at rules.now keys.now packet.now rank }
{
    match rule_at(rules, keys, rank) {
        None => false,
        Some(rule) => rule.meets(packet),
    }
}
