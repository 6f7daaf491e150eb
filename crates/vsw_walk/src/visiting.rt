//! What a layer makes of a packet, as one value.

ghost use Rattle.std.specs.Prelude.{◌≡◌, IsTrue, option_copied, option_map};
ghost use Rattle.vsw_rule.specs.Edit.{edited, goes_on};
ghost use Rattle.vsw_header.specs.Key.{key_from};
ghost use Rattle.vsw_policy.specs.Layer.{seen};
ghost use Rattle.vsw_layerflow.specs.Pairs.{number_of};
ghost use Rattle.vsw_rule.specs.Match.{can_do};
ghost use Rattle.vsw_walk.specs.Known.{touch};
ghost use Rattle.vsw_walk.specs.Visit as spec;
ghost use Rattle.vsw_walk.specs.Visit.{IfGoes, visit_of};

use crate::deciding::decide;
use crate::known::{last_use, set_towards};
use crate::outcome::{Decision, Visit, Want};
use crate::wanted::{reverse_set, set_of, wanted_pair};
use vsw_base::{Control, Dir, LayerKey, Moment, Stack, Track};
use vsw_header::key_of;
use vsw_layerflow::Pair;
use vsw_policy::{Layer, LayerSpec};
use vsw_rule::{Action, Rule, edit_stack};

/// The key of the stack after the action.
fn key_after(action: &Action, stack: &Stack) -> LayerKey
    requires can { IsTrue (can_do action.now stack.now) }
    ensures { result ≡ key_from (edited action.now stack.now) }
{
    match action {
        Action::Edit { decap, set, encap } => {
            let mut after = Stack::room();
            edit_stack(*decap, set, encap, stack, &mut after);
            key_of(&after)
        }
        Action::Allow | Action::Drop => key_of(stack),
    }
}

/// The number of a pair that leaves.
fn number_in(leaves: Option<&Pair>) -> Option<u32>
    ensures { result ≡ option_map number_of (option_copied leaves.entry) }
{
    match leaves {
        None => None,
        Some(pair) => Some(pair.number),
    }
}

/// The pair that the rule wants, if it is stateful.
fn wanted(
    number: u32,
    group: u16,
    rule: &Rule,
    dir: Dir,
    control: Control,
    moment: Moment,
    stack: &Stack,
) -> Option<Want>
    requires can { IsTrue (can_do rule.now.action stack.now) }
    ensures { result ≡ spec.wanted number dir control moment stack.now group rule.now }
{
    if !rule.stateful {
        return None;
    }
    let back = reverse_set(&set_of(&rule.action), stack);
    let left = key_after(&rule.action, stack);
    let met = key_of(stack);
    Some(Want::Make(wanted_pair(
        number, group, rule, dir, control, moment, &met, &back, &left,
    )))
}

/// What is wanted of the pair, where a packet of this moment moves it to this state.
fn touched(times: &LayerSpec, pair: &Pair, state: Track, moment: Moment) -> Option<Want>
    ensures { result ≡ touch times.now state moment pair.now }
{
    match last_use(times, pair, state, moment) {
        None => None,
        Some(last) => Some(Want::Touch {
            number: pair.number,
            state,
            last,
        }),
    }
}

/// What the layer makes of a packet of this direction, control, moment and stack. The pair that decides is
/// the one that holds the packet's direction and key. The answer is large: on a packet's way, `decide`.
pub fn visit(layer: &Layer, dir: Dir, control: Control, moment: Moment, stack: &Stack) -> Visit
    ensures value { result ≡ visit_of (seen layer.now) dir control moment stack.now }
    ensures goes_on { IfGoes result (λ action. IsTrue (goes_on action)) }
    ensures can { IfGoes result (λ action. IsTrue (can_do action stack.now)) }
{
    let found = layer.flows.find(dir, &key_of(stack));
    match decide(layer, found, dir, control, stack) {
        Decision::Drops(verdict) => Visit::Stops(verdict),
        Decision::Allows { leaves } => Visit::Goes {
            action: Action::Allow,
            leaves: number_in(leaves),
            wants: None,
        },
        Decision::ByRule {
            group,
            rule,
            leaves,
        } => Visit::Goes {
            action: rule.action,
            leaves: number_in(leaves),
            wants: wanted(layer.next_pair, group, rule, dir, control, moment, stack),
        },
        Decision::ByPair { pair, state } => Visit::Goes {
            action: Action::Edit {
                decap: false,
                set: *set_towards(pair, dir),
                encap: None,
            },
            leaves: None,
            wants: touched(&layer.spec, pair, state, moment),
        },
    }
}
