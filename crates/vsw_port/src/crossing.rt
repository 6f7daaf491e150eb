//! A packet's walk is settled at its port.

ghost use Rattle.std.specs.Prelude.{◌≡◌, ◌-◌, ◌<◌, ◌^◌, false, true};
ghost use Rattle.vsw_port.specs.Walked.{IsWalk};
ghost use Rattle.vsw_base.specs.declared.fate.Fate.TheVariants.{Drop};
ghost use Rattle.vsw_base.specs.declared.fate.Verdict.TheVariants as verdict;
ghost use Rattle.vsw_policy.specs.Sound.{Each};
ghost use Rattle.vsw_port.specs.Crossed.{EditsPass, IsOwn, MayBeShort, crossed, is_short};

use crate::committing::commit;
use crate::length::{is_unedited, size_walked};
use vsw_base::{Cause, Crossing, Fate, Verdict};
use vsw_policy::Policy;
use vsw_walk::{Scratch, Walked};

/// What became of a packet at its port.
#[derive(Clone, Copy, Debug, PartialEq, Eq)]
pub struct Outcome {
    pub fate: Fate,
    /// Whether it changed the layers, and so is an entry of the port's history.
    pub entry: bool,
    /// How many encapsulations of its frame are kept, where it passes.
    pub kept: u8,
    /// Whether it leaves with the headers with which it came, where it passes: nothing of it was edited.
    pub own: bool,
}

/// The packet is dropped, and nothing is changed.
fn dropped(cause: Cause) -> Outcome
    ensures { result ≡ record { fate = Drop cause; entry = false; kept = 0; own = false } }
{
    Outcome {
        fate: Fate::Drop(cause),
        entry: false,
        kept: 0,
        own: false,
    }
}

/// A packet that its walk lets pass is committed.
#[tactic(auto, using(crate::proofs::Unedited::own_of))]
fn pass(policy: &mut Policy, crossing: &Crossing, walked: &Walked, scratch: &Scratch) -> Outcome
    requires numbers { Each (λ l. l.next_pair < 2 ^ 32 - 1) policy.old.layers }
    requires passes { walked.now.verdict ≡ verdict.Pass }
    requires walk { IsWalk policy.old.layers crossing.now walked.now scratch.now }
    ensures exact { record { fate = result.fate; layers = policy.new.layers; entry = result.entry } ≡ crossed (is_short result.fate) policy.old.layers crossing.now }
    ensures memory { MayBeShort (is_short result.fate) policy.old.layers crossing.now }
    ensures controllers { policy.new.controllers ≡ policy.old.controllers }
    ensures edits { EditsPass policy.old.layers crossing.now scratch.now.stack result.kept result.fate }
    ensures own { result.own ≡ true → IsOwn crossing.now scratch.now.stack result.kept }
{
    match commit(policy, crossing, walked, scratch) {
        Ok(entry) => Outcome {
            fate: Fate::Pass {
                len: size_walked(crossing, walked, scratch),
            },
            entry,
            kept: walked.kept,
            own: is_unedited(scratch),
        },
        Err(stop) => dropped(stop.cause()),
    }
}

/// A packet's walk is settled: committed where it passes, and dropped else.
pub fn settle(
    policy: &mut Policy,
    crossing: &Crossing,
    walked: &Walked,
    scratch: &Scratch,
) -> Outcome
    requires numbers { Each (λ l. l.next_pair < 2 ^ 32 - 1) policy.old.layers }
    requires walk { IsWalk policy.old.layers crossing.now walked.now scratch.now }
    ensures exact { record { fate = result.fate; layers = policy.new.layers; entry = result.entry } ≡ crossed (is_short result.fate) policy.old.layers crossing.now }
    ensures memory { MayBeShort (is_short result.fate) policy.old.layers crossing.now }
    ensures controllers { policy.new.controllers ≡ policy.old.controllers }
    ensures edits { EditsPass policy.old.layers crossing.now scratch.now.stack result.kept result.fate }
    ensures own { result.own ≡ true → IsOwn crossing.now scratch.now.stack result.kept }
{
    match walked.verdict {
        Verdict::Pass => pass(policy, crossing, walked, scratch),
        Verdict::Rule {
            controller,
            layer,
            group,
            rule,
        } => dropped(Cause::Rule {
            controller,
            layer,
            group,
            rule,
        }),
        Verdict::Default {
            controller,
            layer,
            dir,
        } => dropped(Cause::Default {
            controller,
            layer,
            dir,
        }),
    }
}
