//! Ports.

ghost use Rattle.std.specs.Prelude.{◌≡◌, ◌≤◌, ◌++◌, IfOk, OnOk, IsTrue, map, length};
ghost use Rattle.vsw_policy.specs.Sound.{Each, are_distinct};
ghost use Rattle.vsw_config.specs.Good.{IsGoodPolicy};
ghost use Rattle.vsw_promise.specs.File.{AreLayers};
ghost use Rattle.vsw_promise.specs.Ports.{whole};
ghost use Rattle.vsw_promise.specs.Ports as spec;

use crate::layers::add_layers;
use std::alloc::Global;
use vsw_base::{Items, Mac, NoMemory};
use vsw_config::{PolicyFile, PortFile};
use vsw_policy::{HashSeed, Policy};

/// A port of the switch.
#[derive(Drop)]
pub struct Port {
    /// The name that the policy's author gave.
    pub number: u16,
    pub mac: Mac,
    /// Rows of its table of flows.
    pub rows: u32,
    pub policy: Policy,
}

fn port_of(
    alloc: Global,
    controllers: &[u16],
    seed: &HashSeed,
    file: &PortFile,
) -> Result<Port, NoMemory>
    requires few { length controllers.now ≤ 8 }
    requires distinct { IsTrue (are_distinct controllers.now) }
    requires layers { AreLayers controllers.now (map whole file.now.layers) }
    ensures { IfOk result (λ port. spec.port_seen port ≡ spec.port_of controllers.now file.now) }
{
    let mut policy = Policy::with_seed(alloc, controllers, seed)?;
    add_layers(alloc, &mut policy, file.layers.as_slice())?;
    Ok(Port {
        number: file.port,
        mac: file.mac,
        rows: file.rows,
        policy,
    })
}

/// Adds ports behind those that are made.
fn add_ports(
    alloc: Global,
    controllers: &[u16],
    seed: &HashSeed,
    files: &[PortFile],
    made: &mut Items<Port>,
) -> Result<(), NoMemory>
    requires few { length controllers.now ≤ 8 }
    requires distinct { IsTrue (are_distinct controllers.now) }
    requires layers { Each (λ p. AreLayers controllers.now (map whole p.layers)) files.now }
    ensures { OnOk result (map spec.port_seen made.new ≡ map spec.port_seen made.old ++ map (spec.port_of controllers.now) files.now) }
{
    match files {
        [] => Ok(()),
        [first, rest @ ..] => {
            let port = port_of(alloc, controllers, seed, first)?;
            if made.push(port).is_err() {
                return Err(NoMemory);
            }
            add_ports(alloc, controllers, seed, rest, made)
        }
    }
}

/// The ports of a good policy file, in its order, each with its layers.
pub fn ports_of(alloc: Global, file: &PolicyFile) -> Result<Items<Port>, NoMemory>
    requires { IsGoodPolicy file.now }
    ensures { IfOk result (λ ports. map spec.port_seen ports ≡ spec.ports_of file.now) }
{
    let mut ports = Items::new(alloc);
    add_ports(
        alloc,
        file.controllers.as_slice(),
        &file.seed,
        file.ports.as_slice(),
        &mut ports,
    )?;
    Ok(ports)
}

/// The addresses of ports, in their order.
pub fn macs(alloc: Global, ports: &[Port]) -> Result<Items<Mac>, NoMemory>
    ensures { IfOk result (λ macs. macs ≡ map (λ p. p.mac) ports.now) }
{
    let mut macs = Items::new(alloc);
    for port in ports {
        if macs.push(port.mac).is_err() {
            return Err(NoMemory);
        }
    }
    Ok(macs)
}
