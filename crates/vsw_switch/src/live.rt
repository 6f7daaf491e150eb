//! A port in the midst of a run.

ghost use Rattle.std.specs.Prelude.{◌≡◌, ◌≤◌, ◌<◌, ◌-◌, ◌^◌, ◌++◌, nat_lt, IfOk, OnOk, length, true};
ghost use Rattle.vsw_frame.specs.Frame.{parts};
ghost use Rattle.vsw_port.specs.Calls.{Ask};
ghost use Rattle.vsw_policy.specs.Obey.{rules_given};
ghost use Rattle.vsw_policy.specs.Sound.{Each, IsGoodRule, is_listed};
ghost use Rattle.vsw_promise.specs.Ports.{port_seen};
ghost use Rattle.vsw_report.specs.Whole.{whole_text};
ghost use Rattle.vsw_switch.specs.Close.{IsCounted, begun, is_short_now, text_now};
ghost use Rattle.vsw_switch.specs.Does.{Does, Makes, packet_call};
ghost use Rattle.vsw_switch.specs.Export.{Gives};
ghost use Rattle.vsw_switch.specs.Stay.{CanOpen, port_at_first, standing};
ghost use Rattle.vsw_answer.specs.Transit.{IsOfFrame, len_of};

use crate::callers::{callers, tell_packet, tell_reply, tell_watch};
use crate::numbers::place_of;
use crate::tally::Tally;
use std::alloc::Global;
use std::marker::Model;
use vsw_answer::{Room, Watch, Why};
use vsw_base::{Crossing, Mac, NoMemory};
use vsw_commandfile::Line;
use vsw_frame::Frame;
use vsw_offload::PortRows;
use vsw_pcap::Batch;
use vsw_port::{Outcome, ascending};
use vsw_promise::Port;
use vsw_report::{Caller, RoundText, merge_text, port_line};
use vsw_sole::{Keeping, SolePort, transit};

/// The most rows of a port that are reconciled at the end of a round.
const RECONCILED: u32 = 256;

/// A port, with what is told of it in this round.
#[derive(Drop)]
pub(crate) struct Live {
    number: u16,
    mac: Mac,
    port: SolePort,
    /// Entries of its history when the round began.
    before: u32,
    /// By number.
    workers: Vec<Caller>,
    /// By number.
    controllers: Vec<Caller>,
    /// The numbers of the controllers, ascending.
    listed: Vec<u16>,
    /// What became of its packets.
    tally: Tally,
    /// What became of those of the round before.
    last: Tally,
}

impl Model for Live {
    ghost use Rattle.std.specs.Prelude.{length};
    ghost use Rattle.vsw_switch.specs.Stay.{IsPort};
    ghost use Rattle.vsw_switch.specs.Switch.{PortNow};

    ghost Value = { PortNow };

    ghost view = { λ s. record { number = s.number; mac = s.mac; opening = s.port.opening; journal = s.port.journal; before = s.before; workers = s.workers.items; controllers = s.controllers.items; tally = s.tally; last = s.last } };

    ghost invariant = { λ s. IsPort s.port.opening s.listed.items s.before (length s.port.journal) s.port.workers s.workers.items s.controllers.items };
}

/// Whether a history of so many entries takes one more: each has a count below 2^32 - 1.
fn has_count(entries: usize) -> bool
    ensures { result ≡ nat_lt entries 4294967295 }
{
    entries < u32::MAX as usize
}

/// Takes room for one more entry, and answers its count. A history that has no such count takes no more entries.
fn reserve(port: &mut SolePort) -> Result<u32, NoMemory>
    ensures count { IfOk result (λ count. count ≡ length port.old.journal) }
    ensures few { IfOk result (λ count. count < 2 ^ 32 - 1) }
    ensures room { OnOk result (1 ≤ port.new.room) }
    ensures opening { port.new.opening ≡ port.old.opening }
    ensures journal { port.new.journal ≡ port.old.journal }
    ensures workers { port.new.workers ≡ port.old.workers }
{
    let count = port.journal().len();
    if !has_count(count) {
        return Err(NoMemory);
    }
    port.reserve(1)?;
    Ok(count as u32)
}

/// How many rows are reconciled after a round with these packets: one for four packets, so that rounds of few cost little.
fn rows_after(tally: Tally) -> u32 {
    let rows = tally.pass / 4 + tally.drop / 4;
    if rows < u64::from(RECONCILED) {
        rows as u32
    } else {
        RECONCILED
    }
}

/// The first of these callers takes the room back that was taken of the port at a place.
fn take_room(callers: &mut Vec<Caller>, out: &mut RoundText, place: usize)
    ensures same { callers.new.items ≡ callers.old.items }
    ensures text { whole_text out.new ≡ whole_text out.old }
{
    if callers.is_empty() {
        return;
    }
    let first = &mut callers[0];
    first.take_room(out, place);
}

impl Live {
    /// A port before the first round.
    pub(crate) fn open(
        alloc: Global,
        workers: u32,
        keeping: Keeping,
        port: Port,
    ) -> Result<Live, NoMemory>
        requires can { CanOpen (port_seen port) }
        requires few { workers ≤ 16 }
        ensures { IfOk result (λ live. live ≡ port_at_first workers (port_seen port)) }
    {
        let listed = ascending(alloc, port.policy.controllers())?;
        let controllers = callers(alloc, listed.len())?;
        let sole = SolePort::open(alloc, port.policy, port.rows, workers, keeping)?;
        let workers = callers(alloc, workers as usize)?;
        Ok(Live {
            number: port.number,
            mac: port.mac,
            port: sole,
            before: 0,
            workers,
            controllers,
            listed,
            tally: Tally::none(),
            last: Tally::none(),
        })
    }

    /// Touches the rows that may answer the packets from one place up to another, if rows were looked for last.
    pub(crate) fn touch(&self, packets: &Batch, from: usize, end: usize)
        requires { end ≤ length packets.now }
    {
        if matches!(self.port.why(), Some(Why::Light)) {
            return;
        }
        for place in from..end {
            let captured = packets.at(place);
            self.port.touch(self.mac, captured.bytes);
        }
    }

    /// Carries a packet, and tells what became of it, the watch first. A pass has left with its frame's own bytes or those at the front of the
    /// room. The outcome is written where it stays. After `NoMemory` nothing is said of the history.
    pub(crate) fn carry<G: Watch>(
        &mut self,
        watch: &G,
        crossing: &Crossing,
        frame: &Frame<'_>,
        room: &mut Room,
        outcome: &mut Outcome,
    ) -> Result<(), NoMemory>
        requires worker { crossing.now.caller < length self.old.workers }
        requires of { IsOfFrame crossing.now (parts frame.now) }
        ensures makes { OnOk result (Makes self.old (packet_call crossing.now (parts frame.now) outcome.new room.new (length self.old.journal)) self.new) }
        ensures len { OnOk result (len_of outcome.new.fate ≤ 65700) }
        ensures stays { standing self.new ≡ standing self.old }
    {
        let count = reserve(&mut self.port)?;
        *outcome = transit(&mut self.port, crossing, frame, room);
        tell_watch(watch, crossing, count, *outcome, self.port.why());
        let tally = self.tally.and(Tally::of(outcome.fate))?;
        self.tally = tally;
        tell_packet(&mut self.workers, crossing, count, outcome, frame, room)?;
        Ok(())
    }

    /// Does or refuses what a controller asks, and tells the reply. After `NoMemory` nothing is said of the history.
    pub(crate) fn ask(&mut self, line: &Line) -> Result<(), NoMemory>
        requires listed { is_listed self.old.opening.controllers line.now.controller ≡ true }
        requires good { Each IsGoodRule (rules_given line.now.command) }
        ensures does { OnOk result (Does self.old (Ask line.now) self.new) }
        ensures stays { standing self.new ≡ standing self.old }
    {
        let count = reserve(&mut self.port)?;
        let answer = self
            .port
            .command(line.number, line.controller, &line.command);
        let place = place_of(&self.listed, line.controller);
        tell_reply(&mut self.controllers, place, line, count, answer)
    }

    /// Before a round its first worker takes the room back that was taken of the port at this place.
    pub(crate) fn take_room(&mut self, out: &mut RoundText, place: usize)
        ensures same { self.new ≡ self.old }
        ensures text { whole_text out.new ≡ whole_text out.old }
    {
        take_room(&mut self.workers, out, place);
    }

    /// Appends its part of the round's text, and begins the next round. Answers whether want of memory is told.
    pub(crate) fn close(&mut self, out: &mut RoundText) -> Result<bool, NoMemory>
        ensures text { IsCounted self.old → OnOk result (whole_text out.new ≡ whole_text out.old ++ text_now self.old) }
        ensures short { IsCounted self.old → IfOk result (λ short. short ≡ is_short_now self.old) }
        ensures begun { IsCounted self.old → OnOk result (self.new ≡ begun self.old) }
        ensures stays { standing self.new ≡ standing self.old }
    {
        let after = self.port.count();
        port_line(&mut out.end, self.number, self.before, after)?;
        let short = merge_text(
            &mut self.workers,
            &mut self.controllers,
            self.before,
            after,
            out,
        )?;
        self.port.reconcile(rows_after(self.tally));
        self.before = after;
        self.last = self.tally;
        self.tally = Tally::none();
        Ok(short)
    }

    /// What became of the packets of the round that was closed last.
    pub(crate) fn last(&self) -> Tally
        ensures { result ≡ self.now.last }
    {
        self.last
    }

    /// The rows that are current, each compared with the layers of now before, once. Nothing else is seen of it.
    pub(crate) fn export(&mut self, alloc: Global) -> Result<PortRows, NoMemory>
        ensures same { self.new ≡ self.old }
        ensures gives { IfOk result (Gives self.old) }
        ensures few { IfOk result (λ rows. length rows.rows ≤ 16384) }
    {
        let exported = self.port.export(alloc)?;
        Ok(PortRows {
            port: u32::from(self.number),
            mac: self.mac,
            entries: exported.count,
            rows: exported.rows,
        })
    }

    /// How many entries its history has.
    pub(crate) fn entries(&self) -> u32
        ensures { result ≡ length self.now.journal }
    {
        self.port.count()
    }
}
