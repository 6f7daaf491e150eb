//! A worker's part of a round whose packets come by a ring, and the hand that does it.

ghost use Rattle.std.specs.Prelude.{◌≡◌, ◌≤◌, ◌<◌, length, true};
ghost use Rattle.vsw_actors.specs.Handed.{HasFrame, handed_job};
ghost use Rattle.vsw_crew.specs.Private.ByRing.{CarriesOne};
ghost use Rattle.vsw_crew.specs.StreamShares.{DoesStreamShare, IsStreamShare, StreamGoesOn, stream_of};
ghost use Rattle.vsw_hands.specs.Hands.{Works};
ghost use Rattle.vsw_harbour.specs.Actors.{AreAlike, IsRoomy};
ghost use Rattle.vsw_harbour.specs.Docks.{fits, is_of, locals, pass_in, permits};
ghost use Rattle.vsw_harbour.specs.Lanes.{AreFit};

use std::alloc::Global;
use std::marker::Model;
use std::sync::Wait;
use std::time::Clock;
use vsw_actors::{Handed, Port, step_in};
use vsw_dock::{Dock, Parcel};
use vsw_hands::{Hand, Worked};
use vsw_harbour::{Lane, Naming, Station, Watch, Work};
use vsw_rings::{Drain, Rule, Taken};
use vsw_workers::Gate;

/// The most packets that are carried in one piece. Behind it another thread may go on, so that the threads take turns where there are fewer of
/// them than workers.
const PIECE: u32 = 64;

/// The rule that what goes through a ring is a frame.
#[derive(Clone, Copy)]
pub struct Frames;

impl Rule<Handed> for Frames {
    ghost use Rattle.vsw_actors.specs.Handed.{HasFrame};

    ghost fits = { λ _ packet. HasFrame packet };
}

/// A worker's part of a round: its row of lanes, the end of the ring by which its packets come, and how many more it may carry.
#[derive(Drop)]
pub struct StreamShare<'c, 'g, J: Naming, G> {
    number: u32,
    docks: &'c [Dock<'g, J, G>],
    row: Vec<Lane<Station>>,
    drain: Drain<Handed, Frames>,
    left: u32,
    /// How many jobs the gate was told of.
    told: u32,
}

impl<'c, 'g, J: Naming, G> Model for StreamShare<'c, 'g, J, G> {
    ghost use Rattle.vsw_crew.specs.StreamShares.{IsStreamShare, StreamSeen, stream_of};

    ghost Value = { StreamSeen };

    ghost view = { λ s. stream_of s.number s.docks.now s.row.items s.drain s.left };

    ghost invariant = { λ s. IsStreamShare (stream_of s.number s.docks.now s.row.items s.drain s.left) };
}

impl<'c, 'g, J: Naming, G> StreamShare<'c, 'g, J, G> {
    /// The share of a worker, of which nothing is carried yet.
    pub(crate) fn new(
        number: u32,
        docks: &'c [Dock<'g, J, G>],
        row: Vec<Lane<Station>>,
        drain: Drain<Handed, Frames>,
        left: u32,
    ) -> StreamShare<'c, 'g, J, G>
        requires { IsStreamShare (stream_of number docks.now row.items drain left) }
        ensures { result ≡ stream_of number docks.now row.items drain left }
    {
        StreamShare {
            number,
            docks,
            row,
            drain,
            left,
            told: 0,
        }
    }
}

/// A row that carried all that came by its ring.
#[derive(Drop)]
pub struct Streamed {
    pub(crate) row: Vec<Lane<Station>>,
    pub(crate) drain: Drain<Handed, Frames>,
}

/// What is told of a share: the row, which has carried all, if there was memory.
#[derive(Drop)]
pub struct StreamCarried {
    pub(crate) done: Option<Streamed>,
}

/// Whether a share may carry this packet: its row has room for one more, and its port is one of these. A ring's rule can't tell this of
/// its items, but none comes of which it isn't so.
fn may_carry<'g, J: Naming, G>(left: u32, docks: &[Dock<'g, J, G>], packet: &Handed) -> bool
    ensures { result ≡ true → (1 ≤ left) × (packet.now.place.port < length docks.now) }
{
    left != 0 && (packet.place.port as usize) < docks.len()
}

/// A row carries a packet.
fn carry<'g, J: Naming, G: Watch, R: Wait + Clock>(
    rt: &R,
    alloc: Global,
    number: u32,
    docks: &[Dock<'g, J, G>],
    row: &mut Vec<Lane<Station>>,
    packet: &Handed,
    parcel: &mut Parcel,
)
    requires wide { length docks.now ≡ length row.old.items }
    requires small { length docks.now < 65536 }
    requires worker { number < 16 }
    requires alike { AreAlike locals docks.now }
    requires frame { HasFrame packet.now }
    requires within { packet.now.place.port < length docks.now }
    requires fit { AreFit pass_in is_of permits number 1 docks.now row.old.items }
    requires roomy { IsRoomy fits docks.now parcel.old }
    ensures carries { CarriesOne number docks.now (handed_job number packet.now) row.old.items row.new.items }
    ensures roomy { IsRoomy fits docks.now parcel.new }
{
    let job = Work::Packet(packet.brought_by(number));
    let place = packet.place.port as usize;
    step_in(rt, alloc, docks, row, place, &job, parcel);
}

/// Carries the next packets of a share, as they come by its ring.
fn carry_piece<'c, 'g, J: Naming, G: Gate + Watch, R: Wait + Clock>(
    rt: &R,
    alloc: Global,
    gate: &G,
    share: StreamShare<'c, 'g, J, G>,
) -> Worked<StreamShare<'c, 'g, J, G>, StreamCarried>
    ensures { Works StreamGoesOn DoesStreamShare share.entry result }
{
    let StreamShare {
        number,
        docks,
        mut row,
        mut drain,
        mut left,
        mut told,
    } = share;
    let Ok(mut parcel) = <Dock<'g, J, G> as Port<Work<'_>>>::parcel(alloc, docks) else {
        return Worked::Done(StreamCarried { done: None });
    };
    for _ in 0..PIECE {
        match drain.next(rt) {
            Taken::End => {
                return Worked::Done(StreamCarried {
                    done: Some(Streamed { row, drain }),
                });
            }
            Taken::Item(packet) => {
                if !may_carry(left, docks, &packet) {
                    return Worked::Done(StreamCarried { done: None });
                }
                gate.enter(number + 1, told);
                carry(rt, alloc, number, docks, &mut row, &packet, &mut parcel);
                gate.leave(number + 1, told);
                left -= 1;
                told = told.wrapping_add(1);
            }
        }
    }
    Worked::More(StreamShare {
        number,
        docks,
        row,
        drain,
        left,
        told,
    })
}

/// Who carries the packets that come by rings, and tells the gate of each.
#[derive(Drop)]
pub struct StreamCarrier<'g, G> {
    pub(crate) alloc: Global,
    pub(crate) gate: &'g G,
}

impl<'c, 'g, J: Naming, G: Gate + Watch> Hand<StreamShare<'c, 'g, J, G>, StreamCarried>
    for StreamCarrier<'g, G> {
    ghost use Rattle.vsw_crew.specs.StreamShares.{DoesStreamShare, StreamGoesOn};

    ghost goes = { StreamGoesOn };

    ghost does = { DoesStreamShare };

    fn work<R: Wait + Clock>(
        &self,
        rt: &R,
        share: StreamShare<'c, 'g, J, G>,
    ) -> Worked<StreamShare<'c, 'g, J, G>, StreamCarried> {
        carry_piece(rt, self.alloc, self.gate, share)
    }
}
