//! Docks and rows before the first round.

ghost use Rattle.std.specs.Prelude.{◌≡◌, ◌≤◌, ◌<◌, ◌++◌, ◌∷◌, [], drop, length, map, IfOk, OnOk};
ghost use Rattle.vsw_dock.specs.Opening.{AreIdle, AreOpened, CanOpen, IsIdle, IsOpened, docks_of, first_lane, first_lanes, new_lane, rows_from, rows_in};
ghost use Rattle.vsw_dock.specs.Private.Same.{AreLater};
ghost use Rattle.vsw_live.specs.Ports.{items_of};
ghost use Rattle.vsw_policy.specs.Sound.{Each};

use crate::dock::Dock;
use crate::station::Station;
use std::alloc::Global;
use vsw_actors::Lane;
use vsw_base::{Items, Mac, NoMemory};
use vsw_flows::PortStory;
use vsw_live::{LivePort, Naming, OpenPort};
use vsw_promise::{Port, macs};
use vsw_table::Pass;

/// The ports of a policy, opened and still without names, with their numbers and addresses.
#[derive(Drop)]
pub struct OpenDocks {
    pub numbers: Vec<u16>,
    pub macs: Vec<Mac>,
    pub ports: Vec<OpenPort>,
}

/// Puts one thing more at the end.
fn put<T: Drop>(all: &mut Vec<T>, one: T) -> Result<(), NoMemory>
    ensures items { OnOk result (all.new.items ≡ all.old.items ++ one ∷ []) }
{
    match all.push(one) {
        Ok(()) => Ok(()),
        Err(_) => Err(NoMemory),
    }
}

/// The numbers of ports.
fn numbers_of(alloc: Global, ports: &[Port]) -> Result<Vec<u16>, NoMemory>
    ensures { IfOk result (λ numbers. numbers.items ≡ map (λ p. p.number) ports.now) }
{
    let mut numbers = Vec::new(alloc);
    for port in ports {
        if numbers.push(port.number).is_err() {
            return Err(NoMemory);
        }
    }
    Ok(numbers)
}

/// A port of the policy, with so many passes.
fn open_port(alloc: Global, port: Port, passes: u32) -> Result<OpenPort, NoMemory>
    requires can { CanOpen port }
    requires passes { passes ≤ 24 }
    ensures { IfOk result (λ o. IsOpened passes port o) }
{
    let opened = OpenPort::open(alloc, port.policy, port.rows, passes)?;
    Ok(opened)
}

fn open_all(alloc: Global, made: Items<Port>, passes: u32) -> Result<Vec<OpenPort>, NoMemory>
    requires can { Each CanOpen made }
    requires passes { passes ≤ 24 }
    ensures { IfOk result (λ ports. AreOpened passes made ports.items) }
{
    let mut ports = Vec::new(alloc);
    for port in made.into_vec() {
        put(&mut ports, open_port(alloc, port, passes)?)?;
    }
    Ok(ports)
}

/// Opens the ports of a policy, each with so many passes.
pub fn open_ports(alloc: Global, made: Items<Port>, passes: u32) -> Result<OpenDocks, NoMemory>
    requires can { Each CanOpen made }
    requires passes { passes ≤ 24 }
    ensures numbers { IfOk result (λ o. o.numbers.items ≡ map (λ p. p.number) made) }
    ensures macs { IfOk result (λ o. o.macs.items ≡ map (λ p. p.mac) made) }
    ensures ports { IfOk result (λ o. AreOpened passes made o.ports.items) }
{
    let numbers = numbers_of(alloc, made.as_slice())?;
    let macs = macs(alloc, made.as_slice())?;
    let ports = open_all(alloc, made, passes)?;
    Ok(OpenDocks {
        numbers,
        macs: macs.into_vec(),
        ports,
    })
}

/// Takes the first port out.
fn first_port<J: Naming>(ports: &mut Vec<LivePort<J>>) -> LivePort<J>
    requires { 0 < length ports.old.items }
    ensures { ports.old.items ≡ result ∷ ports.new.items }
{
    ports.remove(0)
}

/// The same addresses once more.
fn copied(alloc: Global, macs: &[Mac]) -> Result<Vec<Mac>, NoMemory>
    ensures { IfOk result (λ copy. copy.items ≡ macs.now) }
{
    let mut copy = Vec::new(alloc);
    match copy.extend_from_slice(macs) {
        Ok(()) => Ok(copy),
        Err(_) => Err(NoMemory),
    }
}

fn add_docks<'g, J: Naming, G>(
    alloc: Global,
    numbers: &[u16],
    macs: &[Mac],
    locals: &[Mac],
    left: &mut Vec<LivePort<J>>,
    watch: &'g G,
    docks: &mut Vec<Dock<'g, J, G>>,
) -> Result<(), NoMemory>
    requires few { length locals.now ≤ 16 }
    ensures { OnOk result (docks.new.items ≡ docks.old.items ++ docks_of locals.now numbers.now macs.now left.old.items) }
{
    if let Some((number, later_numbers)) = numbers.split_first() {
        if let Some((mac, later_macs)) = macs.split_first() {
            if !left.is_empty() {
                let port = first_port(left);
                let copy = copied(alloc, locals)?;
                put(docks, Dock::new(*number, *mac, copy, port, watch))?;
                add_docks(alloc, later_numbers, later_macs, locals, left, watch, docks)?;
            }
        }
    }
    Ok(())
}

/// The docks of these ports, in order, each of which hands packets on to the ports of these addresses.
pub fn dock_all<'g, J: Naming, G>(
    alloc: Global,
    numbers: &[u16],
    macs: &[Mac],
    locals: &[Mac],
    ports: Vec<LivePort<J>>,
    watch: &'g G,
) -> Result<Vec<Dock<'g, J, G>>, NoMemory>
    requires few { length locals.now ≤ 16 }
    ensures { IfOk result (λ docks. docks.items ≡ docks_of locals.now numbers.now macs.now ports.items) }
{
    let mut docks = Vec::new(alloc);
    let mut left = ports;
    add_docks(alloc, numbers, macs, locals, &mut left, watch, &mut docks)?;
    Ok(docks)
}

/// Takes the first pass out.
fn first_pass(passes: &mut Vec<Pass<PortStory>>) -> Pass<PortStory>
    requires { 0 < length passes.old.items }
    ensures { passes.old.items ≡ result ∷ passes.new.items }
{
    passes.remove(0)
}

/// A lane with a pass that has made nothing.
fn lane_of(alloc: Global, pass: Pass<PortStory>) -> Result<Lane<Station>, NoMemory>
    requires { IsIdle pass }
    ensures { IfOk result (λ l. l ≡ new_lane pass) }
{
    let station = Station::new(alloc, pass)?;
    Ok(Lane { station, base: 0 })
}

/// Adds a lane with the first pass of a port, if it has one.
fn add_lane(
    alloc: Global,
    passes: &mut Vec<Pass<PortStory>>,
    row: &mut Vec<Lane<Station>>,
) -> Result<(), NoMemory>
    requires idle { Each IsIdle passes.old.items }
    ensures lane { OnOk result (row.new.items ≡ row.old.items ++ first_lane passes.old.items) }
    ensures later { OnOk result (passes.new.items ≡ drop 1 passes.old.items) }
{
    if passes.is_empty() {
        return Ok(());
    }
    let lane = lane_of(alloc, first_pass(passes))?;
    put(row, lane)
}

/// Adds a lane with the first pass of each port.
fn add_lanes(
    alloc: Global,
    left: &mut [Vec<Pass<PortStory>>],
    row: &mut Vec<Lane<Station>>,
) -> Result<(), NoMemory>
    requires idle { AreIdle (items_of left.old) }
    ensures lanes { OnOk result (row.new.items ≡ row.old.items ++ first_lanes (items_of left.old)) }
    ensures later { OnOk result (AreLater (items_of left.old) (items_of left.new)) }
{
    if let Some((passes, others)) = left.split_first_mut() {
        add_lane(alloc, passes, row)?;
        add_lanes(alloc, others, row)?;
    }
    Ok(())
}

/// The row of the next caller.
fn row_of(
    alloc: Global,
    left: &mut Vec<Vec<Pass<PortStory>>>,
) -> Result<Vec<Lane<Station>>, NoMemory>
    requires idle { AreIdle (items_of left.old.items) }
    ensures lanes { IfOk result (λ row. row.items ≡ first_lanes (items_of left.old.items)) }
    ensures later { OnOk result (AreLater (items_of left.old.items) (items_of left.new.items)) }
{
    let mut row = Vec::new(alloc);
    add_lanes(alloc, left.as_mut_slice(), &mut row)?;
    Ok(row)
}

/// A row for each of so many callers: caller k has the pass of number k at each port.
pub fn rows_of(
    alloc: Global,
    passes: Vec<Vec<Pass<PortStory>>>,
    count: u32,
) -> Result<Vec<Vec<Lane<Station>>>, NoMemory>
    requires idle { AreIdle (items_of passes.items) }
    ensures { IfOk result (λ rows. rows_in rows.items ≡ rows_from count (items_of passes.items)) }
{
    let mut left = passes;
    let mut rows = Vec::new(alloc);
    for _ in 0..count {
        put(&mut rows, row_of(alloc, &mut left)?)?;
    }
    Ok(rows)
}
