//! What is told of a command, against what is done.

ghost use Rattle.std.specs.Prelude.{◌≡◌, ◌≤◌, ◌<◌, ◌-◌, ◌^◌, length, true};
ghost use Rattle.vsw_policy.specs.Obey.{rules_given};
ghost use Rattle.vsw_policy.specs.Obey as obey;
ghost use Rattle.vsw_policy.specs.Sound.{Each, IsGoodRule, is_listed};
ghost use Rattle.vsw_port.specs.Calls.{Asked};
ghost use Rattle.vsw_audit.specs.Private.Lines.{JudgesBy};

use vsw_base::NoMemory;
use vsw_commandfile::Line;
use vsw_policy::{Refusal, Reply};
use vsw_port::Ledger;

fn same_reply(a: Reply, b: Reply) -> bool
    ensures told { result ≡ true → a ≡ b }
    ensures back { a ≡ b → result ≡ true }
{
    a == b
}

/// Whether memory was wanting.
fn is_memory(answer: Result<(), Refusal>) -> bool
    ensures { result ≡ obey.is_memory answer }
{
    match answer {
        Err(Refusal::Memory) => true,
        _ => false,
    }
}

/// Replays a command of which this is told: it is done or refused, and the reply is compared. Where it is told to be no entry, memory was wanting,
/// and nothing is done.
pub(crate) fn ask(
    ledger: &mut Ledger,
    command: &Line,
    reply: Reply,
    entry: bool,
) -> Result<bool, NoMemory>
    requires listed { is_listed ledger.old.opening.controllers command.now.controller ≡ true }
    requires good { Each IsGoodRule (rules_given command.now.command) }
    requires room { 1 ≤ ledger.old.room }
    ensures judges { JudgesBy ledger.old (Asked command.now reply) entry ledger.new result }
    ensures opening { ledger.new.opening ≡ ledger.old.opening }
{
    if !entry {
        return Ok(same_reply(reply, Reply::Refused(Refusal::Memory)));
    }
    let answer = ledger.command(command.number, command.controller, &command.command);
    if is_memory(answer) {
        return Err(NoMemory);
    }
    Ok(same_reply(reply, Reply::of(answer)))
}
