//! Reading and judging the policy and the commands, in the order of the words.

ghost use Rattle.std.specs.Prelude.{◌≡◌};
ghost use Rattle.vsw_host.specs.Outside.{Outside};
ghost use Rattle.vsw_run.specs.Words.{Request};
ghost use Rattle.vsw_files.specs.Early.{JudgesPolicy, JudgesCommands, HasPolicy, ReadsPolicy, ReadsCommands};

use std::alloc::Global;
use vsw_base::Items;
use vsw_commandfile::{CommandsFault, Line, read_commands};
use vsw_config::{ConfigFault, PolicyFile, read_policy};
use vsw_host::{Host, ReadEnd, read_file};
use vsw_run::Ending;

/// Bytes of the longest policy file.
const POLICY_MAX: u64 = 4_194_304;

/// Bytes of the longest commands file.
const COMMANDS_MAX: u64 = 16_777_216;

/// The policy, with a seed for its hashing that is drawn from what the host has of secrets too.
fn with_secret<H: Host>(host: &H, policy: PolicyFile) -> PolicyFile
    ensures { result ≡ policy }
{
    let mut secret = [0; 32];
    host.fill_secret(&mut secret);
    let seed = policy.seed.with_bytes(&secret);
    PolicyFile { seed, ..policy }
}

/// The policy in these bytes, or how the run ends.
fn judged_policy<H: Host>(alloc: Global, host: &H, bytes: &[u8]) -> Result<PolicyFile, Ending>
    ensures { JudgesPolicy bytes.now result }
{
    match read_policy(alloc, bytes) {
        Ok(policy) => Ok(with_secret(host, policy)),
        Err(ConfigFault::Memory) => Err(Ending::Memory),
        Err(why) => Err(Ending::Policy(why)),
    }
}

/// Reads the policy file of this name.
pub fn open_policy<H: Host>(alloc: Global, host: &mut H, name: &str) -> Result<PolicyFile, Ending>
    ensures { (q : Request) → q.policy ≡ name.now → ReadsPolicy q (H.outside host.old) (H.outside host.new) result }
{
    let mut bytes = Vec::new(alloc);
    match read_file(host, name, POLICY_MAX, &mut bytes) {
        ReadEnd::Whole => judged_policy(alloc, host, &bytes),
        ReadEnd::Fault => Err(Ending::ReadFault),
        ReadEnd::Long => Err(Ending::Policy(ConfigFault::PolicyLimit)),
        ReadEnd::Memory => Err(Ending::Memory),
    }
}

/// The commands in these bytes, under this policy, or how the run ends.
fn judged_commands(alloc: Global, policy: &PolicyFile, bytes: &[u8]) -> Result<Items<Line>, Ending>
    ensures { JudgesCommands policy.now bytes.now result }
{
    match read_commands(alloc, bytes, policy) {
        Ok(lines) => Ok(lines),
        Err(CommandsFault::Memory) => Err(Ending::Memory),
        Err(why) => Err(Ending::Commands(why)),
    }
}

/// Reads the commands file of this name, after the policy.
pub fn open_commands<H: Host>(
    alloc: Global,
    host: &mut H,
    policy: &PolicyFile,
    name: &str,
) -> Result<Items<Line>, Ending>
    ensures { (q : Request) (start : Outside) → q.commands ≡ name.now → HasPolicy q start (H.outside host.old) policy.now → ReadsCommands q start (H.outside host.new) policy.now result }
{
    let mut bytes = Vec::new(alloc);
    match read_file(host, name, COMMANDS_MAX, &mut bytes) {
        ReadEnd::Whole => judged_commands(alloc, policy, &bytes),
        ReadEnd::Fault => Err(Ending::ReadFault),
        ReadEnd::Long => Err(Ending::Commands(CommandsFault::CommandsLimit)),
        ReadEnd::Memory => Err(Ending::Memory),
    }
}
