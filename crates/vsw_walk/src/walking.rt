//! The walk over the layers.

ghost use Rattle.std.specs.Prelude.{◌≡◌, ◌≤◌, ◌<◌, ◌+◌, ◌++◌, ◌*◌, ℕ, List, None, IsTrue, true, false, length, map, option_copied, option_map, reverse};
ghost use Rattle.vsw_base.specs.declared.fate.Verdict.TheVariants.{Pass};
ghost use Rattle.vsw_base.specs.declared.header.Header.{Header};
ghost use Rattle.vsw_walk.specs.Met.{ended_with, from, met, stepped, stopped};
ghost use Rattle.vsw_walk.specs.Walk.{Walk, after, crossed, leaving, placed, until_after, until_of, walk_of, wanting};
ghost use Rattle.vsw_walk.specs.Going.{GoesOn, wants_by};
ghost use Rattle.vsw_walk.specs.Made.{Leads};
ghost use Rattle.vsw_policy.specs.Layer.{seen};
ghost use Rattle.vsw_layerflow.specs.Pairs.{number_of};
ghost use Rattle.vsw_rule.specs.declared.rule.Action.TheVariants.{Edit};
ghost use Rattle.vsw_rule.specs.Match.{can_do};
ghost use Rattle.vsw_walk.specs.Known as known;

use crate::scratch::Scratch;
use crate::{Decision, decide, last_use, set_towards};
use vsw_base::{Crossing, Dir, Moment, Track, Verdict};
use vsw_layerflow::Pair;
use vsw_policy::{Layer, Policy};
use vsw_rule::Rule;

/// What a walk comes to. The stack with which a packet passes is in the scratch.
#[derive(Clone, Copy, Debug, PartialEq, Eq)]
pub struct Walked {
    pub verdict: Verdict,
    /// How many of the frame's encapsulations are kept, where the packet passes.
    pub kept: u8,
    /// The moment up to which a packet of this identity without a control changes nothing, where it wants no
    /// pair made. A walk at a later moment comes to the same, but wants the last use of a pair renewed; of a
    /// packet that is then dropped as too long even that isn't done. It is the greatest if no pair was found,
    /// or the packet is dropped.
    pub until: Moment,
}

/// The packet goes on by a rule of a group. How many encapsulations are kept of so many.
#[inline(always)]
fn go_by_rule(
    layer: &Layer,
    place: u32,
    group: u16,
    rule: &Rule,
    leaves: Option<&Pair>,
    crossing: &Crossing,
    kept: u8,
    scratch: &mut Scratch,
) -> u8
    requires can { IsTrue (can_do rule.now.action scratch.old.stack) }
    requires room { length scratch.old.changes + 2 ≤ 256 }
    requires few { length scratch.old.looked ≤ 128 }
    requires edits { length scratch.old.edits < length scratch.old.looked }
    ensures { GoesOn rule.now.action (leaving place (option_map number_of (option_copied leaves.entry)) ++ wanting place (wants_by crossing.now layer.now.next_pair scratch.old.stack group rule.now)) scratch.old scratch.new kept result }
{
    scratch.leave(place, leaves);
    if !rule.stateful {
        return scratch.go_on(&rule.action, kept);
    }
    scratch.make(
        place,
        layer.next_pair,
        group,
        rule,
        crossing.id.dir,
        crossing.control,
        crossing.moment,
        kept,
    )
}

/// The packet goes on by a pair of the layer, which gets this state. How many encapsulations are kept of
/// so many.
#[inline(never)]
fn go_by_pair(
    layer: &Layer,
    place: u32,
    pair: &Pair,
    state: Track,
    crossing: &Crossing,
    kept: u8,
    scratch: &mut Scratch,
) -> u8
    requires room { length scratch.old.changes + 2 ≤ 256 }
    requires few { length scratch.old.looked ≤ 128 }
    requires edits { length scratch.old.edits < length scratch.old.looked }
    ensures { GoesOn (Edit false (known.set_towards crossing.now.id.dir pair.now) None) (wanting place (known.touch layer.now.spec state crossing.now.moment pair.now)) scratch.old scratch.new kept result }
{
    if let Some(last) = last_use(&layer.spec, pair, state, crossing.moment) {
        scratch.touch(place, pair, state, last);
    }
    scratch.write(set_towards(pair, crossing.id.dir), kept)
}

/// The packet meets the layer at this place. Whether it goes on; where it is dropped, the verdict is told.
#[inline(always)]
fn step(
    layer: &Layer,
    place: u32,
    crossing: &Crossing,
    walked: &mut Walked,
    scratch: &mut Scratch,
) -> bool
    requires leads { Leads crossing.now.id.stack scratch.old walked.old.kept }
    requires room { length scratch.old.changes + 2 ≤ 256 }
    requires looks { length scratch.old.looked + 1 ≤ 128 }
    ensures leads { Leads crossing.now.id.stack scratch.new walked.new.kept }
    ensures room { length scratch.new.changes ≤ length scratch.old.changes + 2 }
    ensures looks { length scratch.new.looked ≤ length scratch.old.looked + 1 }
    ensures verdict { result ≡ true → walked.new.verdict ≡ walked.old.verdict }
    ensures value { (next : List Header → ℕ → Walk) → after scratch.old (met crossing.now place (seen layer.now) scratch.old.stack walked.old.kept next) ≡ stepped (stopped result walked.new.verdict) scratch.new walked.new.kept next }
{
    let found = scratch.look(layer, place, crossing.id.dir);
    match decide(
        layer,
        found,
        crossing.id.dir,
        crossing.control,
        scratch.stack(),
    ) {
        Decision::Drops(verdict) => {
            walked.verdict = verdict;
            false
        }
        Decision::Allows { leaves } => {
            scratch.leave(place, leaves);
            true
        }
        Decision::ByRule {
            group,
            rule,
            leaves,
        } => {
            walked.kept = go_by_rule(
                layer,
                place,
                group,
                rule,
                leaves,
                crossing,
                walked.kept,
                scratch,
            );
            true
        }
        Decision::ByPair { pair, state } => {
            walked.kept = go_by_pair(layer, place, pair, state, crossing, walked.kept, scratch);
            true
        }
    }
}

/// The packet crosses these layers in order, of which the first has this place.
fn go_out(
    layers: &[Layer],
    place: u32,
    crossing: &Crossing,
    walked: &mut Walked,
    scratch: &mut Scratch,
)
    requires leads { Leads crossing.now.id.stack scratch.old walked.old.kept }
    requires passes { walked.old.verdict ≡ Pass }
    requires places { place + length layers.now ≤ 128 }
    requires room { length scratch.old.changes + 2 * length layers.now ≤ 256 }
    requires looks { length scratch.old.looked + length layers.now ≤ 128 }
    ensures leads { Leads crossing.now.id.stack scratch.new walked.new.kept }
    ensures value { from crossing.now scratch.old walked.old.kept (placed place (map seen layers.now)) ≡ ended_with walked.new.verdict scratch.new walked.new.kept }
{
    let [layer, rest @ ..] = layers else {
        return;
    };
    if step(layer, place, crossing, walked, scratch) {
        go_out(rest, place + 1, crossing, walked, scratch);
    }
}

/// The packet crosses these layers in reverse, of which the first has place 0.
#[tactic(auto, using(crate::proofs::Places::last_first))]
fn go_in(layers: &[Layer], crossing: &Crossing, walked: &mut Walked, scratch: &mut Scratch)
    requires leads { Leads crossing.now.id.stack scratch.old walked.old.kept }
    requires passes { walked.old.verdict ≡ Pass }
    requires few { length layers.now ≤ 128 }
    requires room { length scratch.old.changes + 2 * length layers.now ≤ 256 }
    requires looks { length scratch.old.looked + length layers.now ≤ 128 }
    ensures leads { Leads crossing.now.id.stack scratch.new walked.new.kept }
    ensures value { from crossing.now scratch.old walked.old.kept (reverse (placed 0 (map seen layers.now))) ≡ ended_with walked.new.verdict scratch.new walked.new.kept }
{
    let Some((layer, rest)) = layers.split_last() else {
        return;
    };
    if step(layer, rest.len() as u32, crossing, walked, scratch) {
        go_in(rest, crossing, walked, scratch);
    }
}

/// The packet crosses these layers, of which the first has place 0, in the order of its direction.
fn cross(layers: &[Layer], crossing: &Crossing, walked: &mut Walked, scratch: &mut Scratch)
    requires leads { Leads crossing.now.id.stack scratch.old walked.old.kept }
    requires passes { walked.old.verdict ≡ Pass }
    requires few { length layers.now ≤ 128 }
    requires room { length scratch.old.changes + 2 * length layers.now ≤ 256 }
    requires looks { length scratch.old.looked + length layers.now ≤ 128 }
    ensures leads { Leads crossing.now.id.stack scratch.new walked.new.kept }
    ensures value { from crossing.now scratch.old walked.old.kept (crossed crossing.now.id.dir (placed 0 (map seen layers.now))) ≡ ended_with walked.new.verdict scratch.new walked.new.kept }
{
    match crossing.id.dir {
        Dir::Out => go_out(layers, 0, crossing, walked, scratch),
        Dir::In => go_in(layers, crossing, walked, scratch),
    }
}

/// What becomes of a packet that crosses the policy's layers, what it wants of their pairs, and what it
/// looks for there. It takes no memory.
#[tactic(auto, unfolding(crate::specs::Walk::walk_of))]
pub fn walk(policy: &Policy, crossing: &Crossing, scratch: &mut Scratch) -> Walked
    ensures verdict { result.verdict ≡ (walk_of policy.now.layers crossing.now).verdict }
    ensures changes { scratch.new.changes ≡ (walk_of policy.now.layers crossing.now).changes }
    ensures looked { scratch.new.looked ≡ (walk_of policy.now.layers crossing.now).looked }
    ensures until { result.until ≡ until_of (walk_of policy.now.layers crossing.now) }
    ensures stack { result.verdict ≡ Pass → scratch.new.stack ≡ (walk_of policy.now.layers crossing.now).stack }
    ensures kept { result.verdict ≡ Pass → result.kept ≡ (walk_of policy.now.layers crossing.now).kept }
    ensures leads { Leads crossing.now.id.stack scratch.new result.kept }
{
    let first = &crossing.id.stack;
    scratch.begin(first);
    let mut walked = Walked {
        verdict: Verdict::Pass,
        kept: first.encaps(),
        until: Moment::of(u64::MAX),
    };
    cross(policy.layers(), crossing, &mut walked, scratch);
    walked.until = until(walked.verdict, scratch.due());
    walked
}

/// Until when a walk holds that ends with this verdict, and of whose pairs the first is due at `due`.
fn until(verdict: Verdict, due: Option<Moment>) -> Moment
    ensures { result ≡ until_after verdict due }
{
    match (verdict, due) {
        (Verdict::Pass, Some(moment)) => moment,
        _ => Moment::of(u64::MAX),
    }
}
