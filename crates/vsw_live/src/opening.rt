//! Ports are opened, and then named.

ghost use Rattle.std.specs.Prelude.{◌≡◌, ◌≤◌, ◌<◌, ◌+◌, ◌++◌, ◌∷◌, [], length, vec_len, IfOk, OnOk};
ghost use Rattle.vsw_live.specs.Ports.{AreNewPasses, StandsAt, items_of, passes_of, ports_of};
ghost use Rattle.vsw_live.specs.Private.Opening.{HasPasses};
ghost use Rattle.vsw_table.specs.Rules.{first_view};
ghost use Rattle.vsw_port.specs.Core.{AreAtMost};

use crate::live::LivePort;
use crate::locked::Locked;
use crate::naming::Naming;
use std::alloc::Global;
use std::marker::Model;
use vsw_base::NoMemory;
use vsw_core::Core;
use vsw_flows::PortStory;
use vsw_policy::Policy;
use vsw_table::{Lookup, Opened, Pass, Writer};

/// A port without a name, which no thread shares yet.
#[derive(Drop)]
pub struct OpenPort {
    lookup: Lookup<PortStory>,
    core: Core,
    count: u32,
    passes: Vec<Pass<PortStory>>,
}

impl Model for OpenPort {
    ghost use Rattle.vsw_live.specs.Ports.{OpenSeen};
    ghost use Rattle.vsw_live.specs.Private.Opening.{HasPasses};

    ghost Value = { OpenSeen };

    ghost view = { λ o. record { port = record { looking = o.lookup; passes = o.count }; passes = o.passes.items } };

    ghost invariant = { λ o. HasPasses o.lookup o.count o.core.writer o.passes.items };
}

/// Puts one thing more at the end.
fn put<T: Drop>(all: &mut Vec<T>, one: T) -> Result<(), NoMemory>
    ensures items { OnOk result (all.new.items ≡ all.old.items ++ one ∷ []) }
    ensures len { OnOk result (vec_len all.new ≡ vec_len all.old + 1) }
{
    match all.push(one) {
        Ok(()) => Ok(()),
        Err(_) => Err(NoMemory),
    }
}

/// One pass more.
fn add_pass(
    passes: &mut Vec<Pass<PortStory>>,
    lookup: &Lookup<PortStory>,
    writer: &mut Writer<PortStory>,
    count: u32,
) -> Result<(), NoMemory>
    requires few { count < 24 }
    requires has { HasPasses lookup.now count writer.old passes.old.items }
    ensures has { OnOk result (HasPasses lookup.now (count + 1) writer.new passes.new.items) }
{
    let pass = writer.pass(lookup);
    put(passes, pass)
}

/// So many passes of a new writer.
fn make_passes(
    alloc: Global,
    lookup: &Lookup<PortStory>,
    writer: &mut Writer<PortStory>,
    count: u32,
) -> Result<Vec<Pass<PortStory>>, NoMemory>
    requires few { count ≤ 24 }
    requires table { writer.old.table ≡ lookup.now.0 }
    requires first { writer.old.view ≡ first_view lookup.now.1 lookup.now.2 }
    ensures { IfOk result (λ v. HasPasses lookup.now count writer.new v.items) }
{
    let mut passes = Vec::new(alloc);
    for number in 0..count {
        add_pass(&mut passes, lookup, writer, number)?;
    }
    Ok(passes)
}

impl OpenPort {
    /// Opens a port that begins with this policy, none of whose layers has made a pair, with so many rows and passes.
    pub fn open(alloc: Global, policy: Policy, rows: u32, passes: u32) -> Result<OpenPort, NoMemory>
        requires pairs { AreAtMost 0 policy.layers }
        requires rows { (8 ≤ rows) × (rows ≤ 16384) }
        requires passes { passes ≤ 24 }
        ensures opens { IfOk result (λ o. o.port.looking.1 ≡ policy) }
        ensures rows { IfOk result (λ o. o.port.looking.2 ≡ rows) }
        ensures count { IfOk result (λ o. (o.port.passes ≡ passes) × (length o.passes ≡ passes)) }
        ensures passes { IfOk result (λ o. AreNewPasses o.port.looking 0 o.passes) }
    {
        let Opened { lookup, mut writer } = Lookup::open(alloc, rows, &policy)?;
        let made = make_passes(alloc, &lookup, &mut writer, passes)?;
        let core = Core::open(alloc, policy, writer)?;
        Ok(OpenPort {
            lookup,
            core,
            count: passes,
            passes: made,
        })
    }

    /// Names the port by its place in the run's list, and gives its passes.
    pub fn named<J: Naming>(self, place: usize) -> (LivePort<J>, Vec<Pass<PortStory>>)
        requires { StandsAt J.ports place self.port }
        ensures port { result.0 ≡ self.port }
        ensures passes { result.1.items ≡ self.passes }
    {
        let OpenPort {
            lookup,
            core,
            count,
            passes,
        } = self;
        let locked = Locked::new(place, core);
        (LivePort::of(place, count, lookup, locked), passes)
    }
}

/// Takes the first port out.
fn first(ports: &mut Vec<OpenPort>) -> OpenPort
    requires { 0 < length ports.old.items }
    ensures { ports.old.items ≡ result ∷ ports.new.items }
{
    ports.remove(0)
}

/// Names all ports of a run by their places, in the order of the list, and gives the passes of each.
pub fn name_all<J: Naming>(
    alloc: Global,
    opened: Vec<OpenPort>,
) -> Result<(Vec<LivePort<J>>, Vec<Vec<Pass<PortStory>>>), NoMemory>
    requires ports { J.ports ≡ ports_of opened.items }
    ensures ports { IfOk result (λ r. r.0.items ≡ ports_of opened.items) }
    ensures passes { IfOk result (λ r. items_of r.1.items ≡ passes_of opened.items) }
{
    let mut left = opened;
    let mut ports = Vec::new(alloc);
    let mut passes = Vec::new(alloc);
    while !left.is_empty() {
        let place = ports.len();
        let one = first(&mut left);
        let (port, own) = one.named::<J>(place);
        put(&mut ports, port)?;
        put(&mut passes, own)?;
    }
    Ok((ports, passes))
}
