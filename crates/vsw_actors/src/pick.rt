//! The packets of a round's workers as picks: small, and lending nothing, so that they can go to another thread with an `Arc<Batch>`.

ghost use Rattle.std.specs.Prelude.{◌≡◌, ◌≤◌, ◌<◌, ◌+◌, ◌^◌, ◌++◌, ◌∷◌, [], ℕ, List, IfOk, OnOk, length, map, replicate};
ghost use Rattle.vsw_policy.specs.Sound.{Each};
ghost use Rattle.vsw_port.specs.Order.{numbered};
ghost use Rattle.vsw_promise.specs.Jobs.{aim_of, loose_after, loose_among};
ghost use Rattle.vsw_actors.specs.Actors.{placed_of};
ghost use Rattle.vsw_actors.specs.Handed.{GivesPick};
ghost use Rattle.vsw_actors.specs.Picks.{AreDealt, ArePicks, AtMost, DealsPacket, DealsPick, IsPick, KeepsPicks, TakesPick, picked_job, picked_jobs};
ghost use Rattle.vsw_actors.specs.Private.Aims.{packet_job};
ghost use Rattle.vsw_pcap.specs.Batch.{lent_record};
ghost use Rattle.vsw_actors.specs.Work.{IsWork, job_in};

use crate::Placed;
use crate::aim::aim;
use crate::share::{put_packet, tell};
use crate::work::{Packet, Work};
use std::alloc::Global;
use vsw_base::{Mac, NoMemory, Place};
use vsw_frame::FrameRoom;
use vsw_pcap::{Batch, Captured};
use vsw_report::Loose;

/// A packet of a batch that goes to a port.
#[derive(Clone, Copy)]
pub struct Pick {
    /// Its place in the batch.
    pub at: u32,
    pub place: Place,
}

/// A list without picks for each worker.
pub fn no_picks(alloc: Global, workers: u32) -> Result<Vec<Vec<Pick>>, NoMemory>
    ensures { IfOk result (λ picks. map (λ v. v.items) picks.items ≡ replicate workers []) }
{
    let Ok(mut picks) = Vec::with_capacity(alloc, workers as usize) else {
        return Err(NoMemory);
    };
    for _ in 0..workers {
        if picks.push(Vec::new(alloc)).is_err() {
            return Err(NoMemory);
        }
    }
    Ok(picks)
}

/// Puts a pick at the end of a worker's.
fn put_pick(share: &mut Vec<Pick>, pick: Pick) -> Result<(), NoMemory>
    ensures { OnOk result (share.new.items ≡ share.old.items ++ pick ∷ []) }
{
    match share.push(pick) {
        Ok(()) => Ok(()),
        Err(_) => Err(NoMemory),
    }
}

/// Gives a pick to a worker.
pub(crate) fn give_pick(picks: &mut Vec<Vec<Pick>>, worker: u32, pick: Pick) -> Result<(), NoMemory>
    requires worker { worker < length picks.old.items }
    ensures dealt { DealsPick result worker pick picks.old.items picks.new.items }
    ensures put { GivesPick result worker pick picks.old.items picks.new.items }
    ensures fit { TakesPick result pick picks.old.items picks.new.items }
    ensures few { (n : ℕ) → AtMost n picks.old.items → OnOk result (AtMost (n + 1) picks.new.items) }
    ensures workers { length picks.new.items ≡ length picks.old.items }
{
    let share = &mut picks[worker as usize];
    put_pick(share, pick)
}

/// Gives the packet at a place of a batch to its worker, or tells why it is loose.
fn pick_packet<'a>(
    picks: &mut Vec<Vec<Pick>>,
    workers: u32,
    macs: &[Mac],
    first: u32,
    at: u32,
    captured: &Captured<'a>,
    headers: &mut FrameRoom,
    loose: &mut Vec<Loose>,
) -> Result<(), NoMemory>
    requires some { 1 ≤ workers }
    requires few { workers ≤ 16 }
    requires ports { length macs.now ≤ 16 }
    requires workers { length picks.old.items ≡ workers }
    requires number { first + at < 2 ^ 32 }
    ensures dealt { DealsPacket result workers macs.now first at (lent_record captured.now) picks.old.items picks.new.items }
    ensures fit { KeepsPicks result (length macs.now) at (lent_record captured.now) picks.old.items picks.new.items }
    ensures few { (n : ℕ) → AtMost n picks.old.items → OnOk result (AtMost (n + 1) picks.new.items) }
    ensures workers { length picks.new.items ≡ length picks.old.items }
    ensures loose { OnOk result (loose.new.items ≡ loose.old.items ++ loose_after (first + at) (aim_of macs.now (lent_record captured.now))) }
{
    let number = first + at;
    match aim(workers, macs, number, captured, headers) {
        Ok(packet) => {
            let place = packet.place;
            give_pick(picks, packet.worker, Pick { at, place })
        }
        Err(cause) => tell(
            loose,
            Loose {
                packet: number,
                cause,
            },
        ),
    }
}

/// Gives these packets to their workers, in packet order, and tells the loose ones.
fn pick_packets(
    picks: &mut Vec<Vec<Pick>>,
    workers: u32,
    macs: &[Mac],
    first: u32,
    packets: &Batch,
    loose: &mut Vec<Loose>,
) -> Result<(), NoMemory>
    requires some { 1 ≤ workers }
    requires few { workers ≤ 16 }
    requires ports { length macs.now ≤ 16 }
    requires none { map (λ v. v.items) picks.old.items ≡ replicate workers [] }
    requires numbers { first + length packets.now < 2 ^ 32 }
    ensures dealt { OnOk result (AreDealt workers macs.now first packets.now picks.new.items) }
    ensures fit { OnOk result (ArePicks (length macs.now) packets.now picks.new.items) }
    ensures few { OnOk result (AtMost (length packets.now) picks.new.items) }
    ensures workers { OnOk result (length picks.new.items ≡ workers) }
    ensures loose { OnOk result (loose.new.items ≡ loose.old.items ++ loose_among macs.now (numbered first packets.now)) }
{
    let mut headers = FrameRoom::new();
    for place in 0..packets.len() {
        let captured = packets.at(place);
        pick_packet(
            picks,
            workers,
            macs,
            first,
            place as u32,
            &captured,
            &mut headers,
            loose,
        )?;
    }
    Ok(())
}

/// Deals packets, the first of which has the number `first` in the trace: each worker gets picks of its own ones, in packet order. Loose
/// packets are told in packet order. After want of memory nothing is said of what was told.
pub fn deal_picks(
    alloc: Global,
    workers: u32,
    macs: &[Mac],
    first: u32,
    packets: &Batch,
    loose: &mut Vec<Loose>,
) -> Result<Vec<Vec<Pick>>, NoMemory>
    requires some { 1 ≤ workers }
    requires few { workers ≤ 16 }
    requires ports { length macs.now ≤ 16 }
    requires numbers { first + length packets.now < 2 ^ 32 }
    ensures dealt { IfOk result (λ picks. AreDealt workers macs.now first packets.now picks.items) }
    ensures size { IfOk result (λ picks. length picks.items ≡ workers) }
    ensures fit { IfOk result (λ picks. ArePicks (length macs.now) packets.now picks.items) }
    ensures few { IfOk result (λ picks. AtMost (length packets.now) picks.items) }
    ensures loose { OnOk result (loose.new.items ≡ loose.old.items ++ loose_among macs.now (numbered first packets.now)) }
{
    let mut picks = no_picks(alloc, workers)?;
    pick_packets(&mut picks, workers, macs, first, packets, loose)?;
    Ok(picks)
}

/// The packet of a pick, as its worker brings it.
fn packet_of<'a>(worker: u32, first: u32, packets: &'a Batch, pick: &Pick) -> Packet<'a>
    requires pick { (ports : ℕ) × IsPick ports packets.now pick.now }
    requires worker { worker < 16 }
    requires numbers { first + length packets.now < 2 ^ 32 }
    ensures job { placed_of job_in (packet_job result) ≡ picked_job worker first packets.now pick.now }
    ensures work { (ports : ℕ) (cs : List ℕ) → IsPick ports packets.now pick.now → IsWork ports cs (packet_job result) }
{
    let captured = packets.at(pick.at as usize);
    Packet {
        worker,
        number: first + pick.at,
        place: pick.place,
        micros: captured.moment.micros(),
        bytes: captured.bytes,
    }
}

/// A worker's picks as jobs, each at the place of its port. The first of the packets has the number `first` in the trace.
pub fn jobs_of<'a>(
    alloc: Global,
    worker: u32,
    first: u32,
    packets: &'a Batch,
    picks: &[Pick],
) -> Result<Vec<Placed<Work<'a>>>, NoMemory>
    requires picks { (ports : ℕ) × Each (IsPick ports packets.now) picks.now }
    requires worker { worker < 16 }
    requires numbers { first + length packets.now < 2 ^ 32 }
    ensures jobs { IfOk result (λ jobs. map (placed_of job_in) jobs.items ≡ picked_jobs worker first packets.now picks.now) }
    ensures work { (ports : ℕ) (cs : List ℕ) → Each (IsPick ports packets.now) picks.now → IfOk result (λ jobs. Each (IsWork ports cs) jobs.items) }
{
    let Ok(mut jobs) = Vec::with_capacity(alloc, picks.len()) else {
        return Err(NoMemory);
    };
    for pick in picks {
        let packet = packet_of(worker, first, packets, pick);
        put_packet(&mut jobs, &packet)?;
    }
    Ok(jobs)
}
