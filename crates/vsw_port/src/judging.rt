//! A walk is judged.

ghost use Rattle.std.specs.Prelude.{◌≡◌, None, map};
ghost use Rattle.vsw_port.specs.Admit.{stop_of};
ghost use Rattle.vsw_port.specs.Holds.{AllHold, HoldsOf};
ghost use Rattle.vsw_port.specs.Private.Threaded as threaded;
ghost use Rattle.vsw_port.specs.Private.Threaded.{AllThere, LeftThere, refusal_after};
ghost use Rattle.vsw_port.specs.Walked.{IsWalk};
ghost use Rattle.vsw_base.specs.declared.fate.Verdict.TheVariants.{Pass};
ghost use Rattle.vsw_walk.specs.Walk.{walk_of};
ghost use Rattle.vsw_policy.specs.Layer.{seen};

use crate::length::is_walk_long;
use crate::stop::Stop;
use crate::wanting::refused_at;
use vsw_base::{Crossing, Verdict};
use vsw_policy::{Layer, Policy};
use vsw_walk::{Scratch, Walked, Wanted};

/// Why the layers don't take the pair that is wanted, if one is. The pair that leaves a layer is told right before.
fn refusal_by(layers: &[Layer], left: Option<(u32, u32)>, change: &Wanted) -> Option<Stop>
    requires left { LeftThere (map seen layers.now) left }
    ensures exact { result ≡ threaded.refusal_by (map seen layers.now) left change.now }
    ensures holds { result ≡ None → HoldsOf (map seen layers.now) change.now }
{
    match change {
        Wanted::Make { layer, pair } => refused_at(layers, *layer, left, pair),
        Wanted::Touch { .. } | Wanted::Leave { .. } => None,
    }
}

/// The place of the layer that a pair leaves by the change, and the pair's number.
fn left_by(change: &Wanted) -> Option<(u32, u32)>
    ensures { result ≡ threaded.left_by change.now }
{
    match change {
        Wanted::Make { .. } | Wanted::Touch { .. } => None,
        Wanted::Leave { layer, number } => Some((*layer, *number)),
    }
}

/// The first refusal of a wanted pair.
fn judge_changes(layers: &[Layer], changes: &[Wanted]) -> Option<Stop>
    requires there { AllThere (map seen layers.now) changes.now }
    ensures exact { result ≡ refusal_after (map seen layers.now) None changes.now }
    ensures hold { result ≡ None → AllHold (map seen layers.now) changes.now }
{
    let mut left = None;
    for change in changes {
        if let Some(stop) = refusal_by(layers, left, change) {
            return Some(stop);
        }
        left = left_by(change);
    }
    None
}

/// The first refusal of a wanted pair. Most packets want none.
#[inline(always)]
fn judge_all(layers: &[Layer], changes: &[Wanted]) -> Option<Stop>
    requires { AllThere (map seen layers.now) changes.now }
    ensures exact { result ≡ refusal_after (map seen layers.now) None changes.now }
    ensures hold { result ≡ None → AllHold (map seen layers.now) changes.now }
{
    if changes.is_empty() {
        return None;
    }
    judge_changes(layers, changes)
}

/// Why the packet is dropped after this walk of it, but for want of memory.
#[tactic(auto, using(crate::proofs::Firsts::refusal_is))]
#[inline(always)]
pub fn judge(
    policy: &Policy,
    crossing: &Crossing,
    walked: &Walked,
    scratch: &Scratch,
) -> Option<Stop>
    requires walk { IsWalk policy.now.layers crossing.now walked.now scratch.now }
    ensures exact { result ≡ stop_of policy.now.layers crossing.now (walk_of policy.now.layers crossing.now) }
    ensures hold { result ≡ None → walked.now.verdict ≡ Pass → AllHold policy.now.layers scratch.now.changes }
{
    let Verdict::Pass = walked.verdict else {
        return None;
    };
    if is_walk_long(crossing, walked, scratch) {
        return Some(Stop::Long);
    }
    judge_all(policy.layers(), scratch.changes())
}
