//! What a layer decides about a packet.

ghost use Rattle.std.specs.Prelude.{◌≡◌, ℕ, List, Bool, Some, IsTrue, option_copied, option_map};
ghost use Rattle.vsw_base.specs.declared.header.Header.{Header};
ghost use Rattle.vsw_rule.specs.Edit.{goes_on};
ghost use Rattle.vsw_policy.specs.Layer.{seen};
ghost use Rattle.vsw_layerflow.specs.Pairs.{number_of};
ghost use Rattle.vsw_rule.specs.declared.rule.Rule.{Rule};
ghost use Rattle.vsw_rule.specs.Match.{can_do};
ghost use Rattle.vsw_walk.specs.Decision.{IfRule, made_by};
ghost use Rattle.vsw_walk.specs.Visit as spec;

use crate::outcome::Decision;
use vsw_base::{Control, Dir, Stack, Verdict};
use vsw_layerflow::{Pair, Tracked, track};
use vsw_policy::{Layer, LayerSpec};
use vsw_rule::{Action, Rule};

/// Whether packets of this direction go on that meet no rule.
#[inline(always)]
fn allows(defaults: &LayerSpec, dir: Dir) -> bool
    ensures { result ≡ spec.allows defaults.now dir }
{
    match dir {
        Dir::Out => defaults.allow_out,
        Dir::In => defaults.allow_in,
    }
}

#[inline(always)]
fn by_default<'a>(layer: &Layer, dir: Dir, leaves: Option<&'a Pair>) -> Decision<'a>
    ensures value { (control : Control) (moment : ℕ) (hs : List Header) → made_by (seen layer.now) dir control moment hs result ≡ spec.by_default (seen layer.now) dir (option_map number_of (option_copied leaves.entry)) }
    ensures none { (test : Rule → Bool) → IfRule result (λ rule. IsTrue (test rule)) }
{
    if allows(&layer.spec, dir) {
        return Decision::Allows { leaves };
    }
    Decision::Drops(Verdict::Default {
        controller: layer.controller,
        layer: layer.spec.layer,
        dir,
    })
}

#[inline(always)]
fn by_rule<'a>(layer: &Layer, group: u16, rule: &'a Rule, leaves: Option<&'a Pair>) -> Decision<'a>
    ensures value { (dir : Dir) (control : Control) (moment : ℕ) (hs : List Header) → made_by (seen layer.now) dir control moment hs result ≡ spec.by_rule (seen layer.now) dir control moment hs (option_map number_of (option_copied leaves.entry)) group rule.now }
    ensures goes_on { IfRule result (λ rule. IsTrue (goes_on rule.action)) }
    ensures can { (hs : List Header) → IsTrue (can_do rule.now.action hs) → IfRule result (λ rule. IsTrue (can_do rule.action hs)) }
{
    if matches!(rule.action, Action::Drop) {
        return Decision::Drops(Verdict::Rule {
            controller: layer.controller,
            layer: layer.spec.layer,
            group,
            rule: rule.number,
        });
    }
    Decision::ByRule {
        group,
        rule,
        leaves,
    }
}

/// What the rule says that is chosen, and where none is the default. This pair leaves, if the packet goes
/// on.
#[inline(always)]
fn ask<'a>(layer: &'a Layer, dir: Dir, stack: &Stack, leaves: Option<&'a Pair>) -> Decision<'a>
    ensures value { (control : Control) (moment : ℕ) → made_by (seen layer.now) dir control moment stack.now result ≡ spec.asked (seen layer.now) dir control moment stack.now (option_map number_of (option_copied leaves.entry)) }
    ensures goes_on { IfRule result (λ rule. IsTrue (goes_on rule.action)) }
    ensures can { IfRule result (λ rule. IsTrue (can_do rule.action stack.now)) }
{
    match layer.groups.choose(dir, stack) {
        None => by_default(layer, dir, leaves),
        Some(choice) => by_rule(layer, choice.group, choice.rule, leaves),
    }
}

/// `ask` about a packet that re-opens a pair.
#[inline(never)]
fn ask_again<'a>(layer: &'a Layer, dir: Dir, stack: &Stack, pair: &'a Pair) -> Decision<'a>
    ensures value { (control : Control) (moment : ℕ) → made_by (seen layer.now) dir control moment stack.now result ≡ spec.asked (seen layer.now) dir control moment stack.now (Some pair.now.number) }
    ensures goes_on { IfRule result (λ rule. IsTrue (goes_on rule.action)) }
    ensures can { IfRule result (λ rule. IsTrue (can_do rule.action stack.now)) }
{
    ask(layer, dir, stack, Some(pair))
}

/// What the layer decides about a packet of this direction, control and stack, where `found` holds its
/// direction and key, or no pair does. A pair decides, and the rules aren't asked, unless the packet
/// re-opens it.
#[inline(always)]
pub fn decide<'a>(
    layer: &'a Layer,
    found: Option<&'a Pair>,
    dir: Dir,
    control: Control,
    stack: &Stack,
) -> Decision<'a>
    ensures value { (moment : ℕ) → made_by (seen layer.now) dir control moment stack.now result ≡ spec.by_pair (seen layer.now) dir control moment stack.now (option_copied found.entry) }
    ensures goes_on { IfRule result (λ rule. IsTrue (goes_on rule.action)) }
    ensures can { IfRule result (λ rule. IsTrue (can_do rule.action stack.now)) }
{
    let Some(pair) = found else {
        return ask(layer, dir, stack, None);
    };
    match track(pair.state, pair.dir, control, dir) {
        Tracked::To(state) => Decision::ByPair { pair, state },
        Tracked::Reopen => ask_again(layer, dir, stack, pair),
    }
}
