//! A core over rows, with the passes of worker 0 and of the first controller, which has number 1.

ghost use Rattle.std.specs.Prelude.{◌≡◌, ◌≤◌, ◌<◌, ◌+◌, [], IfSome, IsTrue, map};
ghost use Rattle.vsw_core.specs.Core.{Begins};
ghost use Rattle.vsw_flows.specs.Flows.{IsOf};
ghost use Rattle.vsw_live_tests.specs.Desks.{IsFirst, Sits};
ghost use Rattle.vsw_policy.specs.Layer.{seen};
ghost use Rattle.vsw_port.specs.Core.{AreAtMost};

use crate::given::is_good;
use std::alloc::Global;
use std::marker::Model;
use vsw_base::{Crossing, Fate, Header, Stack, Ufid, Verdict};
use vsw_core::{Core, Reconciled};
use vsw_flows::PortStory;
use vsw_policy::{Command, Layer, Policy, Reply};
use vsw_port::Event;
use vsw_table::{Look, Lookup, Opened, Pass, Writer};
use vsw_transpose::Transposition;
use vsw_words::{body_of, key_words, slot_of};

/// A core, the passes of worker 0 and of controller 1, and how many entries each may still make.
#[derive(Drop)]
pub struct Seats {
    core: Core,
    worker: Pass<PortStory>,
    sends: u32,
    controller: Pass<PortStory>,
    asks: u32,
}

/// A lookup, and who sits at it.
#[derive(Drop)]
pub struct Desk {
    lookup: Lookup<PortStory>,
    seats: Seats,
}

impl Model for Desk {
    ghost use Rattle.std.specs.Prelude.{ℕ};
    ghost use Rattle.vsw_live_tests.specs.Desks.{Sits};

    ghost Value = { ℕ };

    ghost view = { λ d. d.seats.sends };

    ghost invariant = { λ d. Sits d.lookup d.seats.core d.seats.worker d.seats.sends d.seats.controller d.seats.asks };
}

/// What a look tells: what a row says, with the source port of its packets once they passed; or that none says it. And how many
/// entries there are.
#[derive(Clone, Copy, PartialEq, Eq)]
pub enum Seen {
    Row {
        verdict: Verdict,
        port: Option<u16>,
        until: u64,
        count: u32,
    },
    None {
        count: u32,
    },
}

fn are_fresh(layers: &[Layer]) -> bool
    ensures { IsTrue result → AreAtMost 0 (map seen layers.now) }
{
    match layers {
        [] => true,
        [first, rest @ ..] => first.next_pair == 0 && are_fresh(rest),
    }
}

/// Whether controller 1 is the first of these.
fn is_first(controllers: &[u16]) -> bool
    ensures { IsTrue result → IsFirst controllers.now }
{
    match controllers {
        [] => false,
        [first, ..] => *first == 1,
    }
}

/// Whether the layers have made no pair, and controller 1 is the first.
fn is_fresh(policy: &Policy) -> bool
    ensures { IsTrue result → AreAtMost 0 policy.now.layers × IsFirst policy.now.controllers }
{
    are_fresh(policy.layers()) && is_first(policy.controllers())
}

/// The pass behind those of sixteen workers, of which one was made.
fn controller_of(lookup: &Lookup<PortStory>, writer: &mut Writer<PortStory>) -> Pass<PortStory>
    requires table { writer.old.table ≡ lookup.now.0 }
    requires begins { Begins lookup.now.1 writer.old × (writer.old.view.passes ≡ 1) }
    ensures table { writer.new.table ≡ lookup.now.0 }
    ensures begins { Begins lookup.now.1 writer.new }
    ensures pass { IsOf lookup.now result × (result.view.number ≡ 16) }
    ensures fresh { (result.view.permits ≡ 0) × (result.view.receipts ≡ []) }
{
    for number in 1..16u32 {
        let _worker = writer.pass(lookup);
    }
    writer.pass(lookup)
}

/// How many entries a new pass may make: so many, or none for want of memory.
fn granted(
    core: &mut Core,
    lookup: &Lookup<PortStory>,
    pass: &mut Pass<PortStory>,
    permits: u32,
) -> u32
    requires few { permits ≤ 1000 }
    requires core { IsOf lookup.now core.old.writer }
    requires pass { IsOf lookup.now pass.old }
    requires fresh { (pass.old.view.permits ≡ 0) × (pass.old.view.receipts ≡ []) }
    ensures core { IsOf lookup.now core.new.writer }
    ensures pass { IsOf lookup.now pass.new }
    ensures number { pass.new.view.number ≡ pass.old.view.number }
    ensures permits { result ≤ pass.new.view.permits }
{
    match core.grant(lookup, pass, permits) {
        Ok(()) => permits,
        Err(_) => 0,
    }
}

/// A core of this policy, with its passes, each of which may make so many entries.
fn seated(
    alloc: Global,
    policy: Policy,
    lookup: &Lookup<PortStory>,
    mut writer: Writer<PortStory>,
    permits: u32,
) -> Option<Seats>
    requires few { permits ≤ 1000 }
    requires fresh { AreAtMost 0 policy.layers × IsFirst policy.controllers }
    requires policy { lookup.now.1 ≡ policy }
    requires table { writer.table ≡ lookup.now.0 }
    requires begins { Begins lookup.now.1 writer × (writer.view.passes ≡ 0) }
    ensures { IfSome result (λ s. Sits lookup.now s.core s.worker s.sends s.controller s.asks) }
{
    let mut worker = writer.pass(lookup);
    let mut controller = controller_of(lookup, &mut writer);
    let Ok(mut core) = Core::open(alloc, policy, writer) else {
        return None;
    };
    let sends = granted(&mut core, lookup, &mut worker, permits);
    let asks = granted(&mut core, lookup, &mut controller, permits);
    Some(Seats {
        core,
        worker,
        sends,
        controller,
        asks,
    })
}

/// The source port of inner headers that end with ports.
fn port_of(headers: &[Header]) -> Option<u16> {
    match headers {
        [.., Header::Ports { src, .. }] => Some(*src),
        _ => None,
    }
}

/// The source port of packets with this stack, once this was done to them.
fn port_after(by: &Transposition, first: &Stack) -> Option<u16> {
    if by.fits(first) {
        port_of(by.apply(first).headers())
    } else {
        None
    }
}

/// What the row of this body says of packets of this identity.
fn said(body: &[u64; 57], id: &Ufid, count: u32) -> Option<Seen> {
    let body = body_of(body)?;
    Some(Seen::Row {
        verdict: body.verdict,
        port: port_after(&body.by, &id.stack),
        until: body.until.micros(),
        count,
    })
}

impl Desk {
    /// A core of this policy, whose layers have made no pair, with so many rows. Each pass may make so many entries.
    pub fn open(alloc: Global, policy: Policy, rows: u32, permits: u32) -> Option<Desk>
        requires { (8 ≤ rows) × (rows ≤ 16384) × (permits ≤ 1000) }
    {
        if !is_fresh(&policy) {
            return None;
        }
        let Ok(opened) = Lookup::<PortStory>::open(alloc, rows, &policy) else {
            return None;
        };
        let Opened { lookup, writer } = opened;
        match seated(alloc, policy, &lookup, writer, permits) {
            Some(seats) => Some(Desk { lookup, seats }),
            None => None,
        }
    }

    /// A packet of worker 0 crosses the layers: whether it is an entry, and its fate.
    pub fn send(&mut self, crossing: &Crossing) -> Option<(bool, Fate)> {
        if self.seats.sends == 0 || crossing.caller != 0 {
            return None;
        }
        self.seats.sends -= 1;
        let outcome = self
            .seats
            .core
            .slow(&self.lookup, &mut self.seats.worker, crossing);
        Some((outcome.entry, outcome.fate))
    }

    /// The reply to a command of controller 1, by this line of the commands file.
    pub fn ask(&mut self, line: u32, command: &Command) -> Option<Reply> {
        if self.seats.asks == 0 || !is_good(command) {
            return None;
        }
        self.seats.asks -= 1;
        let done = self
            .seats
            .core
            .command(&self.lookup, &mut self.seats.controller, line, 1, command);
        Some(Reply::of(done))
    }

    /// Reconciles the row at the place where the search for an identity begins, or so many behind it.
    pub fn reconcile(&mut self, id: &Ufid, behind: u32) -> Reconciled
        requires { behind < 8 }
    {
        let mut key = [0; 16];
        key_words(id, &mut key);
        let rows = self.lookup.rows();
        let row = (slot_of(&key, rows) + behind) % rows;
        self.seats.core.reconcile(&self.lookup, row)
    }

    /// What who reads without the lock sees for packets of this identity.
    pub fn look(&mut self, id: &Ufid) -> Option<Seen> {
        let mut key = [0; 16];
        key_words(id, &mut key);
        let slot = slot_of(&key, self.lookup.rows());
        let mut body = [0; 57];
        match self
            .lookup
            .look(&mut self.seats.worker, slot, &key, &mut body)
        {
            Look::Hit { count } => said(&body, id, count),
            Look::Miss { count } => Some(Seen::None { count }),
        }
    }

    /// How many rows are current.
    pub fn current(&mut self) -> u32 {
        self.seats.core.current(&self.lookup)
    }

    /// How many entries there are, as a controller that looks for no packet's row finds them.
    pub fn looked(&mut self) -> Option<u32> {
        // It tells the proof that there are rows.
        let _ = self.lookup.rows();
        let mut body = [0; 57];
        match self
            .lookup
            .look(&mut self.seats.controller, 0, &[0; 16], &mut body)
        {
            Look::Hit { .. } => None,
            Look::Miss { count } => Some(count),
        }
    }

    /// The line of the command that is this entry.
    pub fn line(&self, number: usize) -> Option<u32> {
        match self.seats.core.journal().get(number)? {
            Event::Command { line, .. } => Some(*line),
            Event::Crossing { .. } => None,
        }
    }
}
