//! A round whose packets are handed over while further ones are read.

ghost use Rattle.std.specs.Prelude.{◌≡◌, ◌≤◌, ◌<◌, ◌+◌, ◌^◌, [], ℕ, Bool, List, IfOk, OnOk};
ghost use Rattle.vsw_commandfile.specs.declared.line.Line.{Line};
ghost use Rattle.vsw_crew.specs.Crew.{crew_now, switch_now};
ghost use Rattle.vsw_crew.specs.Shift.{HasNoneBeside, Owes};
ghost use Rattle.vsw_crew.specs.Streams.{ClosesOwed, FeedsLast, IsFeeding, MayClose, MayFeed};
ghost use Rattle.vsw_port.specs.declared.event.Event.{Event};
ghost use Rattle.vsw_switch.specs.Switch.{AreServed};

use crate::crew::Crew;
use crate::feeding::Feeding;
use crate::owed::{Owed, owe};
use crate::stream_share::{StreamCarried, StreamCarrier, StreamShare};
use crate::stream_shift::{close_round, feed_last, open_round};
use std::mem::replace;
use std::sync::Wait;
use std::time::Clock;
use vsw_base::NoMemory;
use vsw_hands::{Pool, Roll};
use vsw_harbour::{Naming, Watch};
use vsw_pcap::Batch;
use vsw_promise::Schedule;
use vsw_workers::Gate;

/// The feeder's number among the actors of a round, as the gate is told it. The workers follow it.
const FEEDER: u32 = 0;

impl<'c, 'g, J: Naming, G: Gate + Watch> Crew<'c, 'g, J, G> {
    /// Who carries the packets that come by rings.
    pub fn stream_carrier(&self) -> StreamCarrier<'g, G> {
        let harbour = self.harbour;
        StreamCarrier {
            alloc: harbour.alloc,
            gate: harbour.gate,
        }
    }

    /// Tells the gate that the feeder begins a job of its round.
    pub fn enter(&self, job: u32) {
        let harbour = self.harbour;
        harbour.gate.enter(FEEDER, job);
    }

    /// Tells the gate that the feeder has ended a job of its round.
    pub fn leave(&self, job: u32) {
        let harbour = self.harbour;
        harbour.gate.leave(FEEDER, job);
    }

    /// Begins the round whose first packet has this number, and which has at most so many: asks the commands before its packets, and gives
    /// the workers' shares to the pool, each with the end of a ring. After `NoMemory` there are no rows any more.
    pub fn open_stream<'p, R: Wait + Clock, B: Roll>(
        &mut self,
        rt: &R,
        pool: &mut Pool<'p, StreamShare<'c, 'g, J, G>, StreamCarried, StreamCarrier<'g, G>, B>,
        schedule: &Schedule,
        first: u32,
        most: u32,
    ) -> Result<Feeding, NoMemory>
        requires idle { pool.old ≡ [] }
        requires served { AreServed (crew_now self.old) schedule.now }
        requires quiet { HasNoneBeside schedule.now first }
        requires numbers { first + most < 2 ^ 32 }
        ensures feeding { IfOk result (λ f. IsFeeding self.old schedule.now first [] f pool.new) }
        ensures most { IfOk result (λ f. f.most ≡ most) }
        ensures harbour { self.new.harbour ≡ self.old.harbour }
    {
        let harbour = self.harbour;
        let rows = replace(&mut self.rows, Vec::new(harbour.alloc));
        if rows.is_empty() {
            return Err(NoMemory);
        }
        open_round(rt, harbour, pool, rows, schedule, first, most)
    }

    /// Hands over the last packet of the batch, behind those that were handed over before, or keeps it if it is loose.
    pub fn feed(&self, feeding: &mut Feeding, packets: &Batch) -> Result<(), NoMemory>
        requires feeding { MayFeed self.now.harbour packets.now feeding.old }
        ensures feeding { OnOk result (FeedsLast self.now.harbour packets.now feeding.old feeding.new) }
        ensures most { feeding.new.most ≡ feeding.old.most }
    {
        let harbour = self.harbour;
        feed_last(harbour, feeding, packets)
    }

    /// Ends the rings of a round, and the round once all that was handed over is carried. It is to be told then.
    pub fn close_stream<'p, R: Wait + Clock, B: Roll>(
        &mut self,
        rt: &R,
        pool: &mut Pool<'p, StreamShare<'c, 'g, J, G>, StreamCarried, StreamCarrier<'g, G>, B>,
        feeding: Feeding,
    ) -> Result<Owed, NoMemory>
        requires feeding { MayClose self.old.harbour feeding pool.old }
        ensures tells { IfOk result (λ owed. ClosesOwed self.old.harbour feeding pool.old owed self.new) }
        ensures owes { IfOk result (λ owed. (text : List ℕ) × (short : Bool) × Owes self.old.harbour owed text short) }
        ensures served { (gs : List (List Event)) (lines : List Line) → AreServed (switch_now self.old.harbour gs) lines → AreServed (crew_now self.new) lines }
        ensures idle { OnOk result (pool.new ≡ []) }
        ensures harbour { self.new.harbour ≡ self.old.harbour }
    {
        let harbour = self.harbour;
        let first = feeding.underway.first;
        let rooms = replace(&mut self.rooms, Vec::new(harbour.alloc));
        let worked = close_round(rt, harbour, pool, feeding)?;
        let (owed, rows) = owe(harbour, first, worked, rooms)?;
        self.rows = rows;
        Ok(owed)
    }
}
