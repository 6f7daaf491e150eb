//! Packets that are handed over to their workers with bytes of their own, while further ones are read.

ghost use Rattle.std.specs.Prelude.{◌≡◌, ◌≤◌, ◌<◌, ◌+◌, ◌^◌, ◌++◌, ℕ, List, IfOk, OnOk, length};
ghost use Rattle.vsw_promise.specs.Jobs.{aim_of, loose_after};
ghost use Rattle.vsw_actors.specs.Actors.{placed_of};
ghost use Rattle.vsw_actors.specs.Handed.{HandsPacket, HasFrame, handed_job};
ghost use Rattle.vsw_actors.specs.Picks.{DealsPacket, KeepsPicks};
ghost use Rattle.vsw_actors.specs.Private.Aims.{IsGivenOf, packet_job};
ghost use Rattle.vsw_pcap.specs.Batch.{lent_record};
ghost use Rattle.vsw_actors.specs.Work.{MayDo, job_in};
ghost use Rattle.vsw_actors.specs.declared.work.Work.TheVariants as work;

use crate::aim::aim;
use crate::pick::{Pick, give_pick};
use crate::share::tell;
use crate::work::Packet;
use std::alloc::Global;
use vsw_base::{Mac, NoMemory, Place};
use vsw_frame::FrameRoom;
use vsw_pcap::Captured;
use vsw_report::Loose;

/// A packet for a worker, with bytes of its own, which are a frame.
#[derive(Drop)]
pub struct Handed {
    /// Its number in the trace.
    pub number: u32,
    pub place: Place,
    /// When it came, in microseconds since the epoch.
    pub micros: u64,
    pub bytes: Vec<u8>,
}

impl Handed {
    /// The packet as this worker brings it.
    pub fn brought_by(&self, worker: u32) -> Packet<'_>
        ensures job { placed_of job_in (packet_job result) ≡ handed_job worker self.now }
        ensures may { (cs : List ℕ) → worker < 16 → HasFrame self.now → MayDo cs (work.Packet result) }
        ensures place { result.place ≡ self.now.place }
    {
        Packet {
            worker,
            number: self.number,
            place: self.place,
            micros: self.micros,
            bytes: self.bytes.as_slice(),
        }
    }
}

/// A packet that is handed over to this worker.
#[derive(Drop)]
pub struct Given {
    pub worker: u32,
    pub packet: Handed,
}

/// These bytes once more.
fn copy_of(alloc: Global, bytes: &[u8]) -> Result<Vec<u8>, NoMemory>
    ensures { IfOk result (λ copy. copy.items ≡ bytes.now) }
{
    let Ok(mut copy) = Vec::with_capacity(alloc, bytes.len()) else {
        return Err(NoMemory);
    };
    match copy.extend_from_slice(bytes) {
        Ok(()) => Ok(copy),
        Err(_) => Err(NoMemory),
    }
}

/// A packet for its worker, with bytes of its own.
fn given_of<'a>(alloc: Global, packet: &Packet<'a>) -> Result<Given, NoMemory>
    ensures { IfOk result (IsGivenOf packet.now) }
{
    let bytes = copy_of(alloc, packet.bytes)?;
    Ok(Given {
        worker: packet.worker,
        packet: Handed {
            number: packet.number,
            place: packet.place,
            micros: packet.micros,
            bytes,
        },
    })
}

/// Gives the packet at a place of a batch to its worker: as a pick, and with bytes of its own. Or tells why it is loose. The first
/// packet of the batch has the number `first` in the trace. After want of memory nothing is said of what was told.
pub fn hand_over<'a>(
    alloc: Global,
    picks: &mut Vec<Vec<Pick>>,
    workers: u32,
    macs: &[Mac],
    first: u32,
    at: u32,
    captured: &Captured<'a>,
    loose: &mut Vec<Loose>,
) -> Result<Option<Given>, NoMemory>
    requires some { 1 ≤ workers }
    requires few { workers ≤ 16 }
    requires ports { length macs.now ≤ 16 }
    requires workers { length picks.old.items ≡ workers }
    requires number { first + at < 2 ^ 32 }
    ensures dealt { DealsPacket result workers macs.now first at (lent_record captured.now) picks.old.items picks.new.items }
    ensures fit { KeepsPicks result (length macs.now) at (lent_record captured.now) picks.old.items picks.new.items }
    ensures workers { length picks.new.items ≡ length picks.old.items }
    ensures handed { HandsPacket result workers first at (lent_record captured.now) picks.old.items picks.new.items }
    ensures loose { OnOk result (loose.new.items ≡ loose.old.items ++ loose_after (first + at) (aim_of macs.now (lent_record captured.now))) }
{
    let mut headers = FrameRoom::new();
    match aim(workers, macs, first + at, captured, &mut headers) {
        Ok(packet) => {
            let given = given_of(alloc, &packet)?;
            let place = packet.place;
            give_pick(picks, packet.worker, Pick { at, place })?;
            Ok(Some(given))
        }
        Err(cause) => {
            tell(
                loose,
                Loose {
                    packet: first + at,
                    cause,
                },
            )?;
            Ok(None)
        }
    }
}
