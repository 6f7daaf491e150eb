//! The ports of a policy file are opened, and then named.

ghost use Rattle.std.specs.Prelude.{◌≡◌, ◌≤◌, ◌<◌, [], ℕ, Bool, length, IfOk, if◌then◌else◌};
ghost use Rattle.vsw_harbour.specs.HarbourOpening.{AreIdle, docks_of, rows_from, rows_in};
ghost use Rattle.vsw_harbour.specs.Ports as live;
ghost use Rattle.vsw_harbour.specs.Mustered.{IsMustered};
ghost use Rattle.vsw_harbour.specs.Opening.{ArePortsFor, IsOpenFor};
ghost use Rattle.vsw_config.specs.Good.{IsGoodPolicy};
ghost use Rattle.vsw_config.specs.declared.file.PolicyFile.{PolicyFile};

use crate::lists::{callers_of, copied, needs_of};
use crate::{
    Dock, Harbour, Lane, Naming, OpenDocks, OpenPort, Station, dock_all, name_all, open_ports,
    rows_of,
};
use std::alloc::Global;
use std::marker::Model;
use vsw_base::{Items, Mac, NoMemory};
use vsw_config::PolicyFile;
use vsw_port::ascending;
use vsw_promise::ports_of;

/// The ports of a policy file with a pass for each caller, opened and still without names, and whether they hand packets on to each other.
#[derive(Drop)]
pub struct OpenHarbour {
    workers: u32,
    local: bool,
    docks: OpenDocks,
    controllers: Vec<u16>,
    listed: Vec<u16>,
    asks: Vec<u32>,
}

impl Model for OpenHarbour {
    ghost use Rattle.vsw_harbour.specs.Opening.{HasLists, OpenHarbourSeen};

    ghost Value = { OpenHarbourSeen };

    ghost view = { λ o. record { workers = o.workers; local = o.local; controllers = o.controllers.items; numbers = o.docks.numbers.items; macs = o.docks.macs.items; ports = o.docks.ports.items } };

    ghost invariant = { λ o. HasLists o.controllers.items o.listed.items o.asks.items };
}

/// The ports of a policy file, opened with a pass for each caller.
fn open_docks(alloc: Global, file: &PolicyFile) -> Result<OpenDocks, NoMemory>
    requires good { IsGoodPolicy file.now }
    ensures { IfOk result (λ o. ArePortsFor file.now o.numbers.items o.macs.items o.ports.items) }
{
    let callers = callers_of(file.controllers.as_slice());
    let made = ports_of(alloc, file)?;
    let docks = open_ports(alloc, made, callers)?;
    Ok(docks)
}

/// The addresses of the ports to which packets are handed on: all of these, or none.
fn locals_among(local: bool, macs: &[Mac]) -> &[Mac]
    ensures { result.now ≡ (if local then macs.now else []) }
{
    if local { macs } else { &[] }
}

/// The docks of ports that are named, and a row for each of so many callers.
fn dock_named<'g, J: Naming, G>(
    alloc: Global,
    numbers: &[u16],
    macs: &[Mac],
    locals: &[Mac],
    opened: Vec<OpenPort>,
    callers: u32,
    gate: &'g G,
) -> Result<(Vec<Dock<'g, J, G>>, Vec<Vec<Lane<Station>>>), NoMemory>
    requires named { J.ports ≡ live.ports_of opened.items }
    requires idle { AreIdle (live.passes_of opened.items) }
    requires few { length locals.now ≤ 16 }
    ensures docks { IfOk result (λ r. r.0.items ≡ docks_of locals.now numbers.now macs.now (live.ports_of opened.items)) }
    ensures rows { IfOk result (λ r. rows_in r.1.items ≡ rows_from callers (live.passes_of opened.items)) }
{
    let (ports, passes) = name_all::<J>(alloc, opened)?;
    let docks = dock_all(alloc, numbers, macs, locals, ports, gate)?;
    let rows = rows_of(alloc, passes, callers)?;
    Ok((docks, rows))
}

impl OpenHarbour {
    /// Opens the ports of a policy file for so many workers, which hand packets on to each other or don't.
    pub fn open(
        alloc: Global,
        workers: u32,
        file: &PolicyFile,
        local: bool,
    ) -> Result<OpenHarbour, NoMemory>
        requires good { IsGoodPolicy file.now }
        requires some { 0 < length file.now.ports }
        requires more { 2 ≤ workers }
        requires most { workers ≤ 16 }
        ensures { IfOk result (λ o. IsOpenFor workers file.now local o) }
    {
        let docks = open_docks(alloc, file)?;
        let controllers = copied(alloc, file.controllers.as_slice())?;
        let listed = ascending(alloc, file.controllers.as_slice())?;
        let asks = needs_of(alloc, file.controllers.as_slice())?;
        Ok(OpenHarbour {
            workers,
            local,
            docks,
            controllers,
            listed,
            asks,
        })
    }

    /// Names the ports, and gives the harbour, where the gate is told each answer to a packet, and a row for each of its callers.
    pub fn named<'g, J: Naming, G>(
        self,
        alloc: Global,
        gate: &'g G,
    ) -> Result<(Harbour<'g, J, G>, Vec<Vec<Lane<Station>>>), NoMemory>
        requires named { J.ports ≡ live.ports_of self.ports }
        requires open_for { (workers : ℕ) × (file : PolicyFile) × (local : Bool) × IsOpenFor workers file local self }
        ensures { IfOk result (λ r. (workers : ℕ) (file : PolicyFile) (local : Bool) → IsOpenFor workers file local self → IsMustered workers file local r.0 (rows_in r.1.items)) }
    {
        let OpenHarbour {
            workers,
            local,
            docks,
            controllers,
            listed,
            asks,
        } = self;
        let OpenDocks {
            numbers,
            macs,
            ports,
        } = docks;
        let callers = callers_of(&controllers);
        let locals = locals_among(local, &macs);
        let (docks, rows) = dock_named::<J, G>(
            alloc, &numbers, &macs, locals, ports, callers, gate,
        )?;
        let harbour = Harbour {
            alloc,
            workers,
            docks,
            numbers,
            macs: Items::of(macs),
            controllers,
            listed,
            asks,
            gate,
        };
        Ok((harbour, rows))
    }
}
