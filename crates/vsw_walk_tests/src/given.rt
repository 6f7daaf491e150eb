//! Commands that are given to a policy.

ghost use Rattle.std.specs.Prelude.{◌≡◌, IsTrue, flat_map};
ghost use Rattle.vsw_policy.specs.Obey.{rules_given};
ghost use Rattle.vsw_policy.specs.Sound.{Each, IsGoodRule, is_listed};

use vsw_policy::{Command, Part, Policy};
use vsw_rule::Rule;

fn are_good(rules: &[Rule]) -> bool
    ensures { IsTrue result → Each IsGoodRule rules.now }
{
    match rules {
        [] => true,
        [first, rest @ ..] => first.check().is_ok() && are_good(rest),
    }
}

#[tactic(auto, using(crate::proofs::Parts::good_joined))]
fn parts_are_good(parts: &[Part]) -> bool
    ensures { IsTrue result → Each IsGoodRule (flat_map (λ p. p.rules) parts.now) }
{
    match parts {
        [] => true,
        [first, rest @ ..] => are_good(first.rules.as_slice()) && parts_are_good(rest),
    }
}

/// Whether the rules that a command brings are good.
pub fn is_good(command: &Command) -> bool
    ensures { IsTrue result → Each IsGoodRule (rules_given command.now) }
{
    match command {
        Command::PutRules { rules, .. } => are_good(rules.as_slice()),
        Command::AddRule { rule, .. } => rule.check().is_ok(),
        Command::PutMany { parts } => parts_are_good(parts.as_slice()),
        Command::AddLayer { .. }
        | Command::RemoveLayer { .. }
        | Command::AddGroup { .. }
        | Command::RemoveGroup { .. }
        | Command::RemoveRule { .. }
        | Command::SetDefault { .. }
        | Command::Sweep { .. } => true,
    }
}

/// Whether a controller is one of these.
pub fn is_listed(controllers: &[u16], controller: u16) -> bool
    ensures { result ≡ is_listed controllers.now controller }
{
    controllers.iter().any(|listed| controller == *listed)
}

fn gives(policy: &mut Policy, controller: u16, command: &Command) -> bool {
    if !is_listed(policy.controllers(), controller) || !is_good(command) {
        return false;
    }
    policy.command(controller, command).is_ok()
}

/// Whether a command may be given, and was done.
pub fn give(policy: &mut Policy, controller: u16, command: Command) -> bool {
    gives(policy, controller, &command)
}
