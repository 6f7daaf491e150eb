//! Where a caller stands at a port.

ghost use Rattle.std.specs.Prelude.{◌≡◌, ◌≤◌, ◌<◌, ◌+◌, nat_lt, [], true, length, IfOk, IsOk, Ok, OnErr, OnOk};
ghost use Rattle.vsw_flows.specs.Flows.{IsOf};
ghost use Rattle.vsw_base.specs.Frame.{Parts, frame_of};
ghost use Rattle.vsw_dock.specs.Meeting.{StationMeets};
ghost use Rattle.vsw_actors.specs.Actors.{handed};
ghost use Rattle.vsw_dock.specs.Docks.{HasRoom, holds, parcel_in};
ghost use Rattle.vsw_dock.specs.Private.Does.{Does, HandsPacket, Tells, packet_line, reply_line};
ghost use Rattle.vsw_frame.specs.Frame.{parts};
ghost use Rattle.vsw_port.specs.Calls.{Ask, controller_at};
ghost use Rattle.vsw_live.specs.Calls.{Crosses, FitsRoom, call_of, one_if};
ghost use Rattle.vsw_report.specs.Line.{text_of};
ghost use Rattle.vsw_policy.specs.Obey.{rules_given};
ghost use Rattle.vsw_policy.specs.Sound.{Each, IsGoodRule, is_listed};
ghost use Rattle.vsw_promise.specs.Jobs.{crossing_by};
ghost use Rattle.vsw_rows.specs.GoodRows.{opening_of};
ghost use Rattle.vsw_answer.specs.Transit.{IsOfFrame};

use crate::handing::hand;
use crate::parcel::Parcel;
use std::alloc::Global;
use std::marker::Model;
use std::mem::replace;
use std::sync::Wait;
use vsw_actors::Packet;
use vsw_answer::{Answer, Desk, Room, bytes_of};
use vsw_base::{Control, Crossing, Dir, Mac, Moment, NoMemory, Sizes, Stack, Ufid};
use vsw_commandfile::Line;
use vsw_flows::PortStory;
use vsw_frame::{Frame, FrameRoom, read_frame};
use vsw_live::{Held, LivePort, Naming, Told, Unit};
use vsw_report::Caller;
use vsw_table::Pass;

/// The most permits that a pass is ever given.
const GRANTED_MAX: u32 = 134_217_728;

/// A caller's pass at a port, its rooms there, and the lines of what it has done there in the round. It is one actor's.
#[derive(Drop)]
pub struct Station {
    pass: Pass<PortStory>,
    desk: Desk,
    room: Room,
    crossing: Crossing,
    /// The headers of the packet that it carries.
    headers: FrameRoom,
    lines: Caller,
    /// Whether there was memory for all lines.
    whole: bool,
    /// Permits that are left.
    left: u32,
    /// Permits that it was ever given. Each that isn't left became an entry.
    granted: u32,
}

impl Model for Station {
    ghost use Rattle.vsw_dock.specs.Private.Does.{IsCounted};
    ghost use Rattle.vsw_dock.specs.Seen.{StationSeen};

    ghost Value = { StationSeen };

    ghost view = { λ s. record { pass = s.pass; lines = s.lines; whole = s.whole } };

    ghost invariant = { λ s. IsCounted s.pass s.left s.granted };
}

/// A room in which no packet was brought.
fn no_crossing() -> Crossing {
    Crossing {
        caller: 0,
        packet: 0,
        id: Ufid {
            dir: Dir::Out,
            stack: Stack::room(),
        },
        control: Control::None,
        moment: Moment::of(0),
        sizes: Sizes {
            whole: 0,
            one: 0,
            two: 0,
        },
    }
}

/// A packet is brought by its worker.
fn bring(crossing: &mut Crossing, packet: &Packet<'_>, frame: &Frame<'_>)
    ensures { crossing.new ≡ crossing_by packet.now.worker packet.now.number packet.now.place packet.now.micros (parts frame.now) }
{
    crossing.caller = packet.worker;
    crossing.packet = packet.number;
    crossing.id.dir = packet.place.dir;
    crossing.id.stack.copy_from(frame.stack());
    crossing.control = frame.control();
    crossing.moment = Moment::of(packet.micros);
    crossing.sizes = frame.sizes();
}

/// An entry takes a permit.
fn spend(left: &mut u32, entry: bool)
    requires { 0 < left.old }
    ensures { left.old ≡ left.new + one_if entry }
{
    if entry {
        *left -= 1;
    }
}

/// Lines aren't whole from the first on for which memory was wanting.
fn mark(whole: &mut bool, told: Result<(), NoMemory>)
    ensures { whole.new ≡ true → (whole.old ≡ true) × IsOk told }
{
    if told.is_err() {
        *whole = false;
    }
}

/// A packet crosses the port with its frame. The two stand together for this call alone: the frame is told of afterwards.
fn cross<J: Naming, R: Wait>(
    rt: &R,
    port: &LivePort<J>,
    pass: &mut Pass<PortStory>,
    crossing: &Crossing,
    frame: &Frame<'_>,
    desk: &mut Desk,
    room: &mut Room,
) -> Answer
    requires of { IsOf port.now.looking pass.old }
    requires frame { IsOfFrame crossing.now (parts frame.now) }
    requires caller { crossing.now.caller ≡ pass.old.view.number }
    requires permit { 0 < pass.old.view.permits }
    ensures crosses { Crosses (opening_of port.now.looking.1) pass.old pass.new (call_of (record { crossing = crossing.now; parts = parts frame.now }) result room.new) }
    ensures fits { FitsRoom result.fate }
{
    let unit = Unit::of(crossing, frame);
    port.forward(rt, pass, &unit, desk, room)
}

/// Tells what became of a packet: of a pass with its frame's own bytes, or those at the front of the room.
fn tell_packet(
    lines: &mut Caller,
    whole: &mut bool,
    packet: &Packet<'_>,
    answer: &Answer,
    frame: &Frame<'_>,
    room: &Room,
)
    requires fits { FitsRoom answer.now.fate }
    ensures told { Tells lines.old whole.old lines.new whole.new (text_of (packet_line packet.now (parts frame.now) answer.now room.now)) }
{
    let fate = answer.fate();
    let told = lines.tell_packet(
        packet.worker,
        packet.number,
        answer.entry(),
        answer.count(),
        &fate,
        bytes_of(fate, answer.own(), frame, room),
    );
    mark(whole, told);
}

/// Tells the answer to a command.
fn tell_reply(lines: &mut Caller, whole: &mut bool, line: &Line, answer: Told)
    ensures told { Tells lines.old whole.old lines.new whole.new (text_of (reply_line line.now answer)) }
{
    let told = lines.tell_reply(
        line.controller,
        line.number,
        answer.entry,
        answer.count,
        answer.reply,
    );
    mark(whole, told);
}

/// Whether a pass that was ever given so many permits may be given `more` of them.
fn may_be_given(granted: u32, more: u32) -> bool
    ensures { result ≡ nat_lt (granted + more) 134217729 }
{
    u64::from(granted) + u64::from(more) <= u64::from(GRANTED_MAX)
}

impl Station {
    /// A station with a pass that is new, and no lines.
    pub fn new(alloc: Global, pass: Pass<PortStory>) -> Result<Station, NoMemory>
        requires receipts { pass.view.receipts ≡ [] }
        requires permits { pass.view.permits ≡ 0 }
        ensures { IfOk result (λ s. s ≡ record { pass = pass; lines = []; whole = true }) }
    {
        let room = Room::new(alloc)?;
        Ok(Station {
            pass,
            desk: Desk::new(),
            room,
            crossing: no_crossing(),
            headers: FrameRoom::new(),
            lines: Caller::new(alloc),
            whole: true,
            left: 0,
            granted: 0,
        })
    }

    /// Whether its lines tell all that was done.
    pub fn is_whole(&self) -> bool
        ensures { result ≡ self.now.whole }
    {
        self.whole
    }

    /// Its lines, which leave it without any.
    pub fn take_lines(&mut self, alloc: Global) -> Caller
        ensures lines { result ≡ self.old.lines }
        ensures left { self.new ≡ record self.old { lines = [] } }
    {
        replace(&mut self.lines, Caller::new(alloc))
    }

    /// Rooms for the lines of the next round.
    pub fn put_lines(&mut self, lines: Caller)
        requires { lines ≡ [] }
        ensures { self.new ≡ record self.old { lines = []; whole = true } }
    {
        self.lines = lines;
        self.whole = true;
    }

    /// A packet is carried by its worker, and told. Answers, too, whether it left for another of these ports: then the parcel holds it.
    pub(crate) fn carry<J: Naming, R: Wait>(
        &mut self,
        rt: &R,
        port: &LivePort<J>,
        packet: &Packet<'_>,
        locals: &[Mac],
        parcel: &mut Parcel,
    ) -> (Answer, bool)
        requires of { IsOf port.now.looking self.old.pass }
        requires worker { packet.now.worker ≡ self.old.pass.view.number }
        requires permit { 0 < self.old.pass.view.permits }
        requires frame { (parts : Parts) × (frame_of packet.now.bytes.now ≡ Ok parts) }
        requires few { length locals.now ≤ 16 }
        requires room { HasRoom locals.now parcel.old }
        ensures does { HandsPacket (opening_of port.now.looking.1) locals.now packet.now (handed result.1 (parcel_in parcel.new)) self.old self.new }
        ensures holds { result.1 ≡ true → holds parcel.new }
        ensures room { parcel.old.room ≤ parcel.new.room }
    {
        let Ok(frame) = read_frame(packet.bytes, &mut self.headers) else {
            unreachable!();
        };
        bring(&mut self.crossing, packet, &frame);
        let answer = cross(
            rt,
            port,
            &mut self.pass,
            &self.crossing,
            &frame,
            &mut self.desk,
            &mut self.room,
        );
        spend(&mut self.left, answer.entry());
        tell_packet(
            &mut self.lines,
            &mut self.whole,
            packet,
            &answer,
            &frame,
            &self.room,
        );
        let handed = hand(locals, packet, &answer, &frame, &self.room, parcel);
        (answer, handed)
    }

    /// A line of the commands file is asked by its controller, and told.
    pub(crate) fn ask<J: Naming, R: Wait>(&mut self, rt: &R, port: &LivePort<J>, line: &Line)
        requires of { IsOf port.now.looking self.old.pass }
        requires controller { controller_at port.now.looking.1.controllers line.now.controller ≡ self.old.pass.view.number }
        requires permit { 0 < self.old.pass.view.permits }
        requires listed { is_listed port.now.looking.1.controllers line.now.controller ≡ true }
        requires good { Each IsGoodRule (rules_given line.now.command) }
        ensures does { Does (opening_of port.now.looking.1) (Ask line.now) self.old self.new }
    {
        let told = port.command(
            rt,
            &mut self.pass,
            line.number,
            line.controller,
            &line.command,
        );
        spend(&mut self.left, told.entry);
        tell_reply(&mut self.lines, &mut self.whole, line, told);
    }

    /// Its pass meets the port, and has at least `more` permits then.
    pub(crate) fn meet<J: Naming>(
        &mut self,
        held: &mut Held<'_, J>,
        more: u32,
    ) -> Result<(), NoMemory>
        requires of { IsOf held.old.port.looking self.old.pass }
        ensures same { held.new ≡ held.old }
        ensures meets { OnOk result (StationMeets more held.old self.old self.new) }
        ensures refused { OnErr result (self.new ≡ self.old) }
    {
        let wanted = more.saturating_sub(self.left);
        if !may_be_given(self.granted, wanted) {
            return Err(NoMemory);
        }
        held.grant(&mut self.pass, wanted)?;
        self.left += wanted;
        self.granted += wanted;
        Ok(())
    }
}
