//! A worker, which remembers what it was answered.

ghost use Rattle.std.specs.Prelude.{◌≡◌, ◌<◌, false, IfSome};
ghost use Rattle.vsw_flows.specs.Flows.{IsOf};
ghost use Rattle.vsw_live.specs.Ports.{AreNewPasses};
ghost use Rattle.vsw_live_tests.specs.Trials.{Calls};

use crate::live::opening::{PERMITS, pass_of};
use crate::live::packets::{Packet, crossing, packet_of, query};
use crate::live::stages::{ASKED, HELD, LEFT, Stages};
use std::alloc::Global;
use std::marker::Model;
use std::sync::Wait;
use vsw_answer::{Answer, Desk, Room, Why, bytes_of};
use vsw_base::{Control, Dir, Fate};
use vsw_flows::PortStory;
use vsw_frame::{Frame, FrameRoom, read_frame};
use vsw_live::{Fast, LivePort, Naming, Unit};
use vsw_table::Pass;

/// What a packet was told: its fate, its count, whether it is an entry, why no row answered, and whether its frame leaves
/// with its own bytes.
#[derive(Clone, Copy)]
pub struct Answered {
    pub fate: Fate,
    pub count: u32,
    pub entry: bool,
    pub why: Option<Why>,
    pub own: bool,
}

fn told_of(answer: &Answer) -> Answered
    ensures entry { result.entry ≡ answer.now.entry }
{
    Answered {
        fate: answer.fate(),
        count: answer.count(),
        entry: answer.entry(),
        why: answer.why(),
        own: answer.own(),
    }
}

/// Whom a packet asks: `fast`, and `slow` where that didn't answer; the same, and the port's lock is held until `fast` has answered, by
/// this thread or by another that waits for it; or both by `forward`.
#[derive(Clone, Copy)]
pub enum By<'s> {
    Two,
    Held,
    Stages(&'s Stages),
    One,
}

/// A packet crosses the port by `fast`, and only then by `slow`.
fn by_two<J: Naming, R: Wait>(
    rt: &R,
    port: &LivePort<J>,
    pass: &mut Pass<PortStory>,
    unit: &Unit<'_>,
    desk: &mut Desk,
    room: &mut Room,
) -> Answer
    requires pass { IsOf port.now.looking pass.old }
    requires caller { unit.now.crossing.caller ≡ pass.old.view.number }
    requires permit { 0 < pass.old.view.permits }
    ensures calls { Calls result.entry pass.old pass.new }
{
    match port.fast(pass, unit, desk, room) {
        Fast::Done(answer) => answer,
        Fast::Slow(ticket) => port.slow(rt, pass, ticket, desk, room),
    }
}

/// The same, and the port's lock is held until `fast` has answered.
fn by_held<J: Naming, R: Wait>(
    rt: &R,
    port: &LivePort<J>,
    pass: &mut Pass<PortStory>,
    unit: &Unit<'_>,
    desk: &mut Desk,
    room: &mut Room,
) -> Answer
    requires pass { IsOf port.now.looking pass.old }
    requires caller { unit.now.crossing.caller ≡ pass.old.view.number }
    requires permit { 0 < pass.old.view.permits }
    ensures calls { Calls result.entry pass.old pass.new }
{
    let fast = {
        let _held = port.hold(rt);
        port.fast(pass, unit, desk, room)
    };
    match fast {
        Fast::Done(answer) => answer,
        Fast::Slow(ticket) => port.slow(rt, pass, ticket, desk, room),
    }
}

/// The same, and another thread holds the port's lock until `fast` has answered.
fn by_stages<J: Naming, R: Wait>(
    rt: &R,
    port: &LivePort<J>,
    pass: &mut Pass<PortStory>,
    unit: &Unit<'_>,
    desk: &mut Desk,
    room: &mut Room,
    stages: &Stages,
) -> Answer
    requires pass { IsOf port.now.looking pass.old }
    requires caller { unit.now.crossing.caller ≡ pass.old.view.number }
    requires permit { 0 < pass.old.view.permits }
    ensures calls { Calls result.entry pass.old pass.new }
{
    stages.wait_for(rt, HELD);
    let fast = port.fast(pass, unit, desk, room);
    stages.reach(ASKED);
    match fast {
        Fast::Done(answer) => answer,
        Fast::Slow(ticket) => port.slow(rt, pass, ticket, desk, room),
    }
}

/// A packet crosses the port.
fn cross<J: Naming, R: Wait>(
    rt: &R,
    port: &LivePort<J>,
    pass: &mut Pass<PortStory>,
    unit: &Unit<'_>,
    desk: &mut Desk,
    room: &mut Room,
    by: By<'_>,
) -> Answered
    requires pass { IsOf port.now.looking pass.old }
    requires caller { unit.now.crossing.caller ≡ pass.old.view.number }
    requires permit { 0 < pass.old.view.permits }
    ensures calls { Calls result.entry pass.old pass.new }
{
    match by {
        By::Two => told_of(&by_two(rt, port, pass, unit, desk, room)),
        By::Held => told_of(&by_held(rt, port, pass, unit, desk, room)),
        By::Stages(stages) => told_of(&by_stages(rt, port, pass, unit, desk, room, stages)),
        By::One => told_of(&port.forward(rt, pass, unit, desk, room)),
    }
}

/// How many rows an export gives, and after how many entries they are good.
fn exported<J: Naming, R: Wait>(
    rt: &R,
    alloc: Global,
    port: &LivePort<J>,
    pass: &mut Pass<PortStory>,
) -> Option<(usize, u32)>
    requires pass { IsOf port.now.looking pass.old }
    ensures calls { Calls false pass.old pass.new }
{
    match port.export(rt, alloc, pass) {
        Ok(exported) => Some((exported.rows.len(), exported.count)),
        Err(_) => None,
    }
}

/// Whether a frame left with the bytes with which it came.
fn is_as_it_came(answered: &Answered, frame: &Frame<'_>, room: &Room) -> bool {
    match answered.fate {
        Fate::Pass { len } if len <= 65_700 => {
            bytes_of(Fate::Pass { len }, answered.own, frame, room) == frame.bytes()
        }
        _ => false,
    }
}

/// A worker with its pass. Contracts see how many entries it may make.
#[derive(Drop)]
pub struct Worker<'a, J: Naming> {
    port: &'a LivePort<J>,
    pass: Pass<PortStory>,
    number: u32,
    left: u32,
    sent: u32,
    desk: Desk,
    room: Room,
    notes: Vec<Answered>,
    /// Whether the last frame left with the bytes with which it came.
    came: bool,
}

impl<'a, J: Naming> Model for Worker<'a, J> {
    ghost use Rattle.std.specs.Prelude.{ℕ};
    ghost use Rattle.vsw_live_tests.specs.Trials.{Holds};

    ghost Value = { ℕ };

    ghost view = { λ w. w.left };

    ghost invariant = { λ w. Holds w.port.now.looking w.number w.left w.pass };
}

/// Room to write into, and room for so many answers.
fn rooms(alloc: Global, answers: usize) -> Option<(Room, Vec<Answered>)> {
    match (Room::new(alloc), Vec::with_capacity(alloc, answers)) {
        (Ok(room), Ok(notes)) => Some((room, notes)),
        _ => None,
    }
}

impl<'a, J: Naming> Worker<'a, J> {
    /// The worker of this number, which remembers so many answers. The passes behind its own are gone.
    pub fn new<R: Wait>(
        rt: &R,
        alloc: Global,
        port: &'a LivePort<J>,
        passes: &mut Vec<Pass<PortStory>>,
        number: u32,
        answers: usize,
    ) -> Option<Worker<'a, J>>
        requires new { AreNewPasses port.now.looking 0 passes.old.items }
        ensures new { AreNewPasses port.now.looking 0 passes.new.items }
    {
        let Some(pass) = pass_of(rt, port, passes, number) else {
            return None;
        };
        match rooms(alloc, answers) {
            Some((room, notes)) => Some(Worker {
                port,
                pass,
                number,
                left: PERMITS,
                sent: 0,
                desk: Desk::new(),
                room,
                notes,
                came: false,
            }),
            None => None,
        }
    }

    /// Sends a packet, where it has a permit.
    pub fn send<R: Wait>(&mut self, rt: &R, by: By<'_>, packet: &Packet) -> Option<Answered> {
        if self.left == 0 {
            return None;
        }
        let mut room = FrameRoom::new();
        let Ok(frame) = read_frame(&packet.bytes, &mut room) else {
            return None;
        };
        let crossing = crossing(&frame, self.number, packet);
        let unit = Unit::of(&crossing, &frame);
        let answered = cross(
            rt,
            self.port,
            &mut self.pass,
            &unit,
            &mut self.desk,
            &mut self.room,
            by,
        );
        if answered.entry {
            self.left -= 1;
        }
        self.came = is_as_it_came(&answered, &frame, &self.room);
        Some(answered)
    }

    /// Its next packet of a flow, or the query once more.
    fn next(&self, flows: bool) -> Packet {
        if flows {
            packet_of(self.number, self.sent)
        } else {
            query(Dir::Out, Control::None, 0)
        }
    }

    /// Sends its next packet, and remembers the answer. Whether it did.
    pub fn go<R: Wait>(&mut self, rt: &R, flows: bool) -> bool {
        self.go_by(rt, By::One, flows)
    }

    /// The same, asking so.
    fn go_by<R: Wait>(&mut self, rt: &R, by: By<'_>, flows: bool) -> bool {
        let packet = self.next(flows);
        let Some(answered) = self.send(rt, by, &packet) else {
            return false;
        };
        self.sent = self.sent.wrapping_add(1);
        self.notes.push(answered).is_ok()
    }

    /// Leaves a row for the query, and asks the rows once more while another thread holds the lock. Remembers both answers.
    pub fn ask_while_held<R: Wait>(&mut self, rt: &R, stages: &Stages) {
        self.go(rt, false);
        stages.reach(LEFT);
        self.go_by(rt, By::Stages(stages), false);
        stages.reach(ASKED);
    }

    /// How many rows an export of the port gives, and after how many entries they are good.
    pub fn export<R: Wait>(&mut self, rt: &R, alloc: Global) -> Option<(usize, u32)> {
        exported(rt, alloc, self.port, &mut self.pass)
    }

    pub fn number(&self) -> u32 {
        self.number
    }

    /// What it was answered, packet by packet.
    pub fn notes(&self) -> &[Answered] {
        &self.notes
    }

    /// Whether the last frame left with the bytes with which it came.
    pub fn left_as_it_came(&self) -> bool {
        self.came
    }
}
