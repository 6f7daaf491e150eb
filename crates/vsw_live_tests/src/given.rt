//! Commands that are given to a policy.

ghost use Rattle.std.specs.Prelude.{◌≡◌, IsTrue};
ghost use Rattle.vsw_policy.specs.Obey.{rules_given};
ghost use Rattle.vsw_policy.specs.Sound.{Each, IsGoodRule, is_listed};

use vsw_policy::{Command, Policy};
use vsw_rule::Rule;

fn are_good(rules: &[Rule]) -> bool
    ensures { IsTrue result → Each IsGoodRule rules.now }
{
    match rules {
        [] => true,
        [first, rest @ ..] => first.check().is_ok() && are_good(rest),
    }
}

pub fn is_good(command: &Command) -> bool
    ensures { IsTrue result → Each IsGoodRule (rules_given command.now) }
{
    match command {
        Command::PutRules { rules, .. } => are_good(rules.as_slice()),
        Command::AddRule { rule, .. } => rule.check().is_ok(),
        Command::AddLayer { .. }
        | Command::RemoveLayer { .. }
        | Command::AddGroup { .. }
        | Command::RemoveGroup { .. }
        | Command::RemoveRule { .. }
        | Command::SetDefault { .. }
        | Command::Sweep { .. } => true,
        // None of these tests gives one.
        Command::PutMany { .. } => false,
    }
}

fn is_listed(controllers: &[u16], controller: u16) -> bool
    ensures { result ≡ is_listed controllers.now controller }
{
    controllers.iter().any(|listed| controller == *listed)
}

/// Whether a command may be given, and was done.
pub fn give(policy: &mut Policy, controller: u16, command: Command) -> bool {
    if !is_listed(policy.controllers(), controller) || !is_good(&command) {
        return false;
    }
    policy.command(controller, &command).is_ok()
}
