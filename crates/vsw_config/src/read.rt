//! Reading a policy file.

ghost use Rattle.std.specs.Prelude.{IfOk};
ghost use Rattle.serde_json.specs.View.{view};
ghost use Rattle.vsw_config.specs.Good.{IsGoodPolicy};
ghost use Rattle.vsw_config.specs.Policy.{Tells, policy_file_of, policy_of};
ghost use Rattle.vsw_config.specs.Policy as spec;

use crate::file::{ConfigFault, PolicyFile, PortFile};
use crate::port::ports;
use crate::{
    Fault, FreshNumbers, Step, Word, items_in, json, list, number_in, object_in, under_step,
};
use serde_json::Value;
use std::alloc::Global;
use vsw_base::Items;
use vsw_policy::HashSeed;

/// Bytes of the longest policy file that is read.
const MOST_BYTES: usize = 4_194_304;

const MOST_CONTROLLERS: usize = 8;

const MOST_PORTS: usize = 16;

const FILE_WORDS: [Word; 3] = [Word::Version, Word::Controllers, Word::Ports];

impl From<Fault> for ConfigFault {
    ghost use Rattle.std.specs.Prelude.{◌≡◌};
    ghost use Rattle.vsw_config.specs.Policy.{as_config_fault};

    ghost from_gives = { λ x y. y ≡ as_config_fault x };

    fn from(fault: Fault) -> ConfigFault {
        match fault {
            Fault::Bad { kind, path } => ConfigFault::Bad { kind, path },
            Fault::Memory => ConfigFault::Memory,
        }
    }
}

#[tactic(auto, unfolding(crate::specs::Policy::controllers_in, crate::specs::Policy::few_in))]
fn controllers_in(alloc: Global, object: &Value) -> Result<Items<u16>, ConfigFault>
    ensures { Tells result (spec.controllers_in (view object.now)) }
{
    let values = items_in(alloc, object, Word::Controllers)?;
    if values.len() > MOST_CONTROLLERS {
        return Err(ConfigFault::ControllersLimit);
    }
    let controllers = list(alloc, &FreshNumbers, values);
    let controllers = under_step(Step::Member(Word::Controllers), controllers)?;
    Ok(controllers)
}

#[tactic(auto, unfolding(crate::specs::Policy::ports_in, crate::specs::Policy::few_in))]
fn ports_in(
    alloc: Global,
    version: u8,
    known: &[u16],
    object: &Value,
) -> Result<Items<PortFile>, ConfigFault>
    ensures { Tells result (spec.ports_in version known.now (view object.now)) }
{
    let values = items_in(alloc, object, Word::Ports)?;
    if values.len() > MOST_PORTS {
        return Err(ConfigFault::PortsLimit);
    }
    let ports = under_step(
        Step::Member(Word::Ports),
        ports(alloc, version, known, values),
    )?;
    Ok(ports)
}

#[tactic(auto, unfolding(crate::specs::Policy::policy_of))]
fn policy(alloc: Global, seed: HashSeed, value: &Value) -> Result<PolicyFile, ConfigFault>
    ensures { Tells result (policy_of (view value.now)) }
{
    let object = object_in(alloc, &FILE_WORDS, value)?;
    let version = number_in(alloc, 1, 2, object, Word::Version)? as u8;
    let controllers = controllers_in(alloc, object)?;
    let ports = ports_in(alloc, version, controllers.as_slice(), object)?;
    Ok(PolicyFile {
        version,
        controllers,
        ports,
        seed,
    })
}

fn whole_file(alloc: Global, bytes: &[u8]) -> Result<PolicyFile, ConfigFault>
    ensures { Tells result (policy_file_of bytes.now) }
{
    if bytes.len() > MOST_BYTES {
        return Err(ConfigFault::PolicyLimit);
    }
    let value = json(alloc, bytes)?;
    let seed = HashSeed::known().with_bytes(bytes);
    let policy = policy(alloc, seed, &value)?;
    Ok(policy)
}

/// Reads a policy file: a JSON value of at most 4,194,304 bytes. What it answers is a good one.
pub fn read_policy(alloc: Global, bytes: &[u8]) -> Result<PolicyFile, ConfigFault>
    ensures exact { Tells result (policy_file_of bytes.now) }
    ensures good { IfOk result IsGoodPolicy }
{
    whole_file(alloc, bytes)
}
