//! A switch.

ghost use Rattle.std.specs.Prelude.{◌≡◌, ◌≤◌, ◌<◌, ◌^◌, ◌++◌, ◌∷◌, [], List, IfOk, OnOk, if◌then◌else◌, length, map, true};
ghost use Rattle.std.specs.List.{flat_map, list_any};
ghost use Rattle.vsw_commandfile.specs.declared.line.Line.{Line};
ghost use Rattle.vsw_port.specs.Calls.{Ask};
ghost use Rattle.vsw_port.specs.declared.event.Event.{Event};
ghost use Rattle.vsw_policy.specs.Obey.{rules_given};
ghost use Rattle.vsw_policy.specs.Sound.{Each, IsGoodRule, are_distinct, is_listed};
ghost use Rattle.vsw_config.specs.Good.{IsGoodPolicy};
ghost use Rattle.vsw_promise.specs.Jobs.{Setting};
ghost use Rattle.vsw_promise.specs.Ports.{port_seen, ports_of};
ghost use Rattle.vsw_report.specs.Whole.{whole_text};
ghost use Rattle.vsw_switch.specs.Close.{AreCounted, IsCounted, begun, entries_in, is_short_now, last_of, next_round, round_now, text_now};
ghost use Rattle.vsw_switch.specs.Does.{Asks, DoesAll, Forwards, numbers_in};
ghost use Rattle.vsw_pcap.specs.Batch.{lent_record};
ghost use Rattle.vsw_switch.specs.Export.{GivesAt, HasRowsAt};
ghost use Rattle.vsw_switch.specs.Stay.{ArePorts, CanOpen, port_at_first, standing};
ghost use Rattle.vsw_switch.specs.Switch.{AreServed, IsAt, IsOpened, IsServed, Serves, SwitchNow};

use crate::arrival::arrive;
use crate::live::Live;
use crate::numbers::place_of;
use crate::tally::{Tally, sum};
use crate::worker::Rooms;
use std::alloc::Global;
use std::marker::Model;
use vsw_answer::Watch;
use vsw_base::{Items, Mac, NoMemory};
use vsw_commandfile::Line;
use vsw_config::PolicyFile;
use vsw_frame::FrameRoom;
use vsw_offload::PortRows;
use vsw_pcap::{Batch, Captured};
use vsw_promise::{Port, macs, ports_of};
use vsw_report::{Loose, RoundText, loose_part, round_line};
use vsw_sole::Keeping;

/// The ports of a switch in the midst of a run, and the round so far.
#[derive(Drop)]
pub struct Switch {
    workers: u32,
    ports: Vec<Live>,
    /// The numbers of the ports.
    numbers: Vec<u16>,
    /// Their addresses.
    macs: Items<Mac>,
    /// Whether packets are handed on between the ports.
    local: bool,
    loose: Vec<Loose>,
    rooms: Rooms,
    /// Where the headers of a frame stand while it is forwarded.
    headers: FrameRoom,
}

impl Model for Switch {
    ghost use Rattle.std.specs.Prelude.{[], if◌then◌else◌};
    ghost use Rattle.vsw_switch.specs.Stay.{ArePorts};
    ghost use Rattle.vsw_switch.specs.Switch.{SwitchNow};

    ghost Value = { SwitchNow };

    ghost view = { λ s. record { workers = s.workers; locals = if s.local then s.macs else []; ports = s.ports.items; loose = s.loose.items } };

    ghost invariant = { λ s. ArePorts s.workers s.numbers.items s.macs s.ports.items };
}

/// The ports before the first round.
fn open_all(
    alloc: Global,
    workers: u32,
    keeping: Keeping,
    made: Items<Port>,
) -> Result<Vec<Live>, NoMemory>
    requires can { Each CanOpen (map port_seen made) }
    requires few { workers ≤ 16 }
    ensures { IfOk result (λ ports. ports.items ≡ map (port_at_first workers) (map port_seen made)) }
{
    let mut ports = Vec::new(alloc);
    for port in made.into_vec() {
        if ports
            .push(Live::open(alloc, workers, keeping, port)?)
            .is_err()
        {
            return Err(NoMemory);
        }
    }
    Ok(ports)
}

/// The numbers of ports.
fn numbers_of(alloc: Global, ports: &[Port]) -> Result<Vec<u16>, NoMemory>
    ensures { IfOk result (λ numbers. numbers.items ≡ map (λ p. p.number) ports.now) }
{
    let mut numbers = Vec::new(alloc);
    for port in ports {
        if numbers.push(port.number).is_err() {
            return Err(NoMemory);
        }
    }
    Ok(numbers)
}

/// The port at a place is asked.
fn ask_at(ports: &mut Vec<Live>, place: usize, line: &Line) -> Result<(), NoMemory>
    requires within { place < length ports.old.items }
    requires listed { Each (λ p. is_listed p.opening.controllers line.now.controller ≡ true) ports.old.items }
    requires good { Each IsGoodRule (rules_given line.now.command) }
    ensures does { OnOk result (DoesAll ((place, Ask line.now) ∷ []) ports.old.items ports.new.items) }
    ensures stays { map standing ports.new.items ≡ map standing ports.old.items }
{
    let port = &mut ports[place];
    port.ask(line)
}

/// The addresses to which packets are handed on: all of these, or none.
fn locals(local: bool, macs: &[Mac]) -> &[Mac]
    ensures { result.now ≡ (if local then macs.now else []) }
{
    if local { macs } else { &[] }
}

/// Before a round the ports take the rooms back that were taken of them.
fn take_rooms(ports: &mut Vec<Live>, out: &mut RoundText)
    ensures same { ports.new.items ≡ ports.old.items }
    ensures text { whole_text out.new ≡ whole_text out.old }
{
    for place in 0..ports.len() {
        let port = &mut ports[place];
        port.take_room(out, place);
    }
}

/// Appends the parts of ports of the round's text, and begins their next rounds. Answers whether want of memory is told
/// of one.
fn close_all(ports: &mut Vec<Live>, out: &mut RoundText) -> Result<bool, NoMemory>
    ensures text { Each IsCounted ports.old.items → OnOk result (whole_text out.new ≡ whole_text out.old ++ flat_map text_now ports.old.items) }
    ensures short { Each IsCounted ports.old.items → IfOk result (λ short. short ≡ list_any is_short_now ports.old.items) }
    ensures begun { Each IsCounted ports.old.items → OnOk result (ports.new.items ≡ map begun ports.old.items) }
    ensures stays { map standing ports.new.items ≡ map standing ports.old.items }
{
    let mut short = false;
    for place in 0..ports.len() {
        let port = &mut ports[place];
        let told = port.close(out)?;
        short = short || told;
    }
    Ok(short)
}

/// The rows that are current at the port at a place.
fn export_at(alloc: Global, ports: &mut Vec<Live>, place: usize) -> Result<PortRows, NoMemory>
    requires within { place < length ports.old.items }
    ensures same { ports.new.items ≡ ports.old.items }
    ensures gives { IfOk result (GivesAt place ports.old.items) }
    ensures few { IfOk result (λ rows. length rows.rows ≤ 16384) }
{
    let port = &mut ports[place];
    port.export(alloc)
}

/// What became of the packets of the round that was closed last, at these ports.
fn last_of(ports: &[Live]) -> Result<Tally, NoMemory>
    ensures { IfOk result (λ tally. tally ≡ last_of ports.now) }
{
    match ports.split_first() {
        None => Ok(Tally::none()),
        Some((first, rest)) => {
            let others = last_of(rest)?;
            first.last().and(others)
        }
    }
}

/// How many entries the histories of these ports have.
fn entries_in(ports: &[Live]) -> Result<u64, NoMemory>
    ensures { IfOk result (λ entries. entries ≡ entries_in ports.now) }
{
    match ports.split_first() {
        None => Ok(0),
        Some((first, rest)) => {
            let others = entries_in(rest)?;
            sum(u64::from(first.entries()), others)
        }
    }
}

impl Switch {
    /// The switch of a policy file with so many workers, before the first round. A local one hands packets on between its ports.
    fn open_with(
        alloc: Global,
        workers: u32,
        file: &PolicyFile,
        local: bool,
        keeping: Keeping,
    ) -> Result<Switch, NoMemory>
        requires good { IsGoodPolicy file.now }
        requires some { 0 < workers }
        requires few { workers ≤ 16 }
        ensures opens { IfOk result (λ switch. IsOpened workers file.now local switch) }
        ensures served { IfOk result (λ switch. Serves file.now switch) }
    {
        let made = ports_of(alloc, file)?;
        let macs = macs(alloc, made.as_slice())?;
        let numbers = numbers_of(alloc, made.as_slice())?;
        let ports = open_all(alloc, workers, keeping, made)?;
        Ok(Switch {
            workers,
            ports,
            numbers,
            macs,
            local,
            loose: Vec::new(alloc),
            rooms: Rooms::new(alloc)?,
            headers: FrameRoom::new(),
        })
    }

    /// The switch of a policy file with so many workers, before the first round. A local one hands packets on between its ports.
    pub fn open(
        alloc: Global,
        workers: u32,
        file: &PolicyFile,
        local: bool,
    ) -> Result<Switch, NoMemory>
        requires good { IsGoodPolicy file.now }
        requires some { 0 < workers }
        requires few { workers ≤ 16 }
        ensures opens { IfOk result (λ switch. IsOpened workers file.now local switch) }
        ensures served { IfOk result (λ switch. Serves file.now switch) }
    {
        Switch::open_with(alloc, workers, file, local, Keeping::WhereCheaper)
    }

    /// The same, whose ports keep rows whatever their layers are. Who exports them wants these.
    pub fn open_keeping(
        alloc: Global,
        workers: u32,
        file: &PolicyFile,
        local: bool,
    ) -> Result<Switch, NoMemory>
        requires good { IsGoodPolicy file.now }
        requires some { 0 < workers }
        requires few { workers ≤ 16 }
        ensures opens { IfOk result (λ switch. IsOpened workers file.now local switch) }
        ensures served { IfOk result (λ switch. Serves file.now switch) }
    {
        Switch::open_with(alloc, workers, file, local, Keeping::Always)
    }

    /// Asks a command of its port, and tells the reply. After `NoMemory` nothing is said of the port's history.
    pub fn ask(&mut self, line: &Line) -> Result<(), NoMemory>
        requires { IsServed self.old line.now }
        ensures asks { OnOk result (Asks self.old line.now self.new) }
        ensures served { (lines : List Line) → AreServed self.old lines → AreServed self.new lines }
    {
        let place = place_of(&self.numbers, line.port);
        ask_at(&mut self.ports, place, line)
    }

    /// Forwards packet `packet` to its port, and to the one to which it is handed on, and tells what became of it there, the watch
    /// too, or why it is loose. After `NoMemory` nothing is said of the ports' histories.
    pub fn forward<G: Watch>(
        &mut self,
        watch: &G,
        packet: u32,
        captured: &Captured<'_>,
    ) -> Result<(), NoMemory>
        ensures forwards { OnOk result (Forwards self.old packet (lent_record captured.now) self.new) }
        ensures served { (lines : List Line) → AreServed self.old lines → AreServed self.new lines }
    {
        let macs = self.macs.as_slice();
        match arrive(
            &mut self.ports,
            watch,
            macs,
            locals(self.local, macs),
            self.workers,
            packet,
            captured,
            &mut self.rooms,
            &mut self.headers,
        )? {
            None => Ok(()),
            Some(cause) => push(&mut self.loose, Loose { packet, cause }),
        }
    }

    /// Touches the rows that may answer the packets from one place up to another. Nothing is seen of it.
    pub(crate) fn touch(&self, packets: &Batch, from: usize, end: usize)
        requires { end ≤ length packets.now }
    {
        for port in &self.ports {
            port.touch(packets, from, end);
        }
    }

    /// Before a round takes the rooms back that the last one's text took. Nothing is seen of it.
    pub fn take_rooms(&mut self, out: &mut RoundText)
        ensures same { self.new ≡ self.old }
        ensures text { whole_text out.new ≡ whole_text out.old }
        ensures served { (lines : List Line) → AreServed self.old lines → AreServed self.new lines }
    {
        take_rooms(&mut self.ports, out);
    }

    /// Appends the text of the round, of which this is the first packet, and begins the next. Answers whether want of memory
    /// is told in it. After `NoMemory` nothing is said of what was appended.
    pub fn close(&mut self, first: u32, out: &mut RoundText) -> Result<bool, NoMemory>
        ensures text { AreCounted self.old → OnOk result (whole_text out.new ≡ whole_text out.old ++ round_now first self.old) }
        ensures short { AreCounted self.old → IfOk result (λ short. short ≡ list_any is_short_now self.old.ports) }
        ensures next { AreCounted self.old → OnOk result (self.new ≡ next_round self.old) }
        ensures served { (lines : List Line) → AreServed self.old lines → AreServed self.new lines }
        ensures apart { OnOk result (are_distinct (numbers_in self.old) ≡ true) }
    {
        round_line(&mut out.end, first)?;
        let short = close_all(&mut self.ports, out)?;
        loose_part(&mut out.end, &self.loose)?;
        self.loose.clear();
        Ok(short)
    }

    /// What became of the packets of the round that was closed last. A number of more than 64 bits counts as want of memory.
    pub fn last(&self) -> Result<Tally, NoMemory>
        ensures { IfOk result (λ tally. tally ≡ last_of self.now.ports) }
    {
        last_of(&self.ports)
    }

    /// How many ports there are.
    pub fn ports(&self) -> u32
        ensures { result ≡ length self.now.ports }
    {
        self.ports.len() as u32
    }

    /// The rows that are current at the port at a place, each compared with the layers of now before, once. Nothing else is seen of it.
    pub fn export(&mut self, alloc: Global, place: u32) -> Result<PortRows, NoMemory>
        requires { place < length self.old.ports }
        ensures same { self.new ≡ self.old }
        ensures rows { IfOk result (λ rows. (s : Setting) (hs : List (List Event)) → IsAt s hs self.old → HasRowsAt place (ports_of s.policy) hs rows) }
        ensures few { IfOk result (λ rows. length rows.rows ≤ 16384) }
    {
        export_at(alloc, &mut self.ports, place as usize)
    }

    /// How many entries the histories of all ports have. A number of more than 64 bits counts as want of memory.
    pub fn entries(&self) -> Result<u64, NoMemory>
        ensures { IfOk result (λ entries. entries ≡ entries_in self.now.ports) }
    {
        entries_in(&self.ports)
    }
}

/// Adds a loose packet.
fn push(loose: &mut Vec<Loose>, packet: Loose) -> Result<(), NoMemory>
    ensures { OnOk result (loose.new.items ≡ loose.old.items ++ packet ∷ []) }
{
    match loose.push(packet) {
        Ok(()) => Ok(()),
        Err(_) => Err(NoMemory),
    }
}
