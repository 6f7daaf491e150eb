//! The shares of a round's callers: what each is dealt.

ghost use Rattle.std.specs.Prelude.{◌≡◌, ◌≤◌, ◌<◌, ◌+◌, ◌^◌, ◌++◌, ◌∷◌, [], ℕ, List, IfOk, OnOk, false, length, replicate, true};
ghost use Rattle.vsw_actors.specs.Actors.{placed_of};
ghost use Rattle.vsw_port.specs.Order.{numbered};
ghost use Rattle.vsw_policy.specs.Obey.{rules_given};
ghost use Rattle.vsw_policy.specs.Sound.{Each, IsGoodRule, is_listed};
ghost use Rattle.vsw_promise.specs.Jobs.{aim_of, loose_after, loose_among, placed_packet, placed_packets};
ghost use Rattle.vsw_many.specs.Dealing.{placed_lines};
ghost use Rattle.vsw_actors.specs.Deal.{AreFew, AreWork, DealsBeside, DealsMore, DealsTo, TakesWork, dealt, shared};
ghost use Rattle.vsw_actors.specs.Private.Aims.{beside, line_job, packet_job};
ghost use Rattle.vsw_pcap.specs.Batch.{lent_record};
ghost use Rattle.vsw_actors.specs.Work.{job_in};

use crate::Placed;
use crate::aim::aim;
use crate::place::place_of;
use crate::work::{Packet, Work};
use std::alloc::Global;
use vsw_base::{Mac, NoMemory};
use vsw_commandfile::Line;
use vsw_frame::FrameRoom;
use vsw_pcap::{Batch, Captured};
use vsw_promise::Schedule;
use vsw_report::Loose;

/// Callers below this number are workers. The controllers' numbers go on from it, in the policy's order.
const WORKERS: usize = 16;

/// Shares of so many callers, with no jobs.
fn no_jobs<'a>(alloc: Global, callers: usize) -> Result<Vec<Vec<Placed<Work<'a>>>>, NoMemory>
    ensures { IfOk result (λ shares. shared shares.items ≡ replicate callers []) }
{
    let Ok(mut shares) = Vec::with_capacity(alloc, callers) else {
        return Err(NoMemory);
    };
    for _ in 0..callers {
        if shares.push(Vec::new(alloc)).is_err() {
            return Err(NoMemory);
        }
    }
    Ok(shares)
}

/// Puts a packet at the end of a share.
pub(crate) fn put_packet<'a>(
    share: &mut Vec<Placed<Work<'a>>>,
    packet: &Packet<'a>,
) -> Result<(), NoMemory>
    ensures { OnOk result (share.new.items ≡ share.old.items ++ packet_job packet.now ∷ []) }
{
    let place = packet.place.port as usize;
    let job = Work::Packet(Packet {
        worker: packet.worker,
        number: packet.number,
        place: packet.place,
        micros: packet.micros,
        bytes: packet.bytes,
    });
    match share.push(Placed { place, job }) {
        Ok(()) => Ok(()),
        Err(_) => Err(NoMemory),
    }
}

/// Puts a command at the end of a share.
fn put_line<'a>(
    share: &mut Vec<Placed<Work<'a>>>,
    place: usize,
    line: &'a Line,
) -> Result<(), NoMemory>
    ensures { OnOk result (share.new.items ≡ share.old.items ++ line_job place line.entry ∷ []) }
{
    let job = Work::Line(line);
    match share.push(Placed { place, job }) {
        Ok(()) => Ok(()),
        Err(_) => Err(NoMemory),
    }
}

/// Gives a packet to its worker.
fn give_packet<'a>(
    shares: &mut Vec<Vec<Placed<Work<'a>>>>,
    packet: &Packet<'a>,
) -> Result<(), NoMemory>
    requires caller { packet.now.worker < length shares.old.items }
    ensures dealt { DealsBeside result (placed_of job_in (packet_job packet.now) ∷ []) shares.old.items shares.new.items }
    ensures work { TakesWork result (packet_job packet.now) shares.old.items shares.new.items }
    ensures callers { length shares.new.items ≡ length shares.old.items }
{
    let share = &mut shares[packet.worker as usize];
    put_packet(share, packet)
}

/// Gives a command to a caller.
fn give_line<'a>(
    shares: &mut Vec<Vec<Placed<Work<'a>>>>,
    caller: usize,
    place: usize,
    line: &'a Line,
) -> Result<(), NoMemory>
    requires caller { caller < length shares.old.items }
    ensures dealt { DealsTo result line.now.controller caller (line_job place line.entry) shares.old.items shares.new.items }
    ensures work { TakesWork result (line_job place line.entry) shares.old.items shares.new.items }
    ensures callers { length shares.new.items ≡ length shares.old.items }
{
    let share = &mut shares[caller];
    put_line(share, place, line)
}

/// Gives a command to its controller, if it runs beside the packets.
fn deal_line<'a>(
    shares: &mut Vec<Vec<Placed<Work<'a>>>>,
    controllers: &[u16],
    numbers: &[u16],
    line: &'a Line,
) -> Result<(), NoMemory>
    requires callers { length shares.old.items ≡ 16 + length controllers.now }
    requires port { is_listed numbers.now line.now.port ≡ true }
    requires controller { is_listed controllers.now line.now.controller ≡ true }
    requires rules { Each IsGoodRule (rules_given line.now.command) }
    ensures dealt { DealsMore result controllers.now (beside numbers.now line.now) shares.old.items shares.new.items }
    ensures work { AreWork (length numbers.now) controllers.now shares.old.items → OnOk result (AreWork (length numbers.now) controllers.now shares.new.items) }
    ensures callers { length shares.new.items ≡ length shares.old.items }
{
    if !line.during {
        return Ok(());
    }
    let controller = place_of(controllers, line.controller);
    let place = place_of(numbers, line.port);
    give_line(shares, WORKERS + controller, place, line)
}

/// Gives the commands beside the packets of the round that begins with this one to their controllers, in file order.
fn deal_lines<'a>(
    shares: &mut Vec<Vec<Placed<Work<'a>>>>,
    controllers: &[u16],
    numbers: &[u16],
    schedule: &'a Schedule,
    first: u32,
) -> Result<(), NoMemory>
    requires callers { length shares.old.items ≡ 16 + length controllers.now }
    requires ports { Each (λ l. is_listed numbers.now l.port ≡ true) schedule.now }
    requires controllers { Each (λ l. is_listed controllers.now l.controller ≡ true) schedule.now }
    requires rules { Each (λ l. Each IsGoodRule (rules_given l.command)) schedule.now }
    ensures dealt { DealsMore result controllers.now (placed_lines numbers.now schedule.now first) shares.old.items shares.new.items }
    ensures work { AreWork (length numbers.now) controllers.now shares.old.items → OnOk result (AreWork (length numbers.now) controllers.now shares.new.items) }
    ensures callers { length shares.new.items ≡ length shares.old.items }
{
    let places = schedule.places(first);
    for place in places {
        let line = schedule.line(*place);
        deal_line(shares, controllers, numbers, line)?;
    }
    Ok(())
}

/// Puts a loose packet at the end of those that are told.
pub(crate) fn tell(loose: &mut Vec<Loose>, packet: Loose) -> Result<(), NoMemory>
    ensures { OnOk result (loose.new.items ≡ loose.old.items ++ packet ∷ []) }
{
    match loose.push(packet) {
        Ok(()) => Ok(()),
        Err(_) => Err(NoMemory),
    }
}

/// Gives packet `number` to its worker, or tells why it is loose.
fn deal_packet<'a>(
    shares: &mut Vec<Vec<Placed<Work<'a>>>>,
    workers: u32,
    macs: &[Mac],
    number: u32,
    captured: &Captured<'a>,
    headers: &mut FrameRoom,
    loose: &mut Vec<Loose>,
) -> Result<(), NoMemory>
    requires some { 1 ≤ workers }
    requires few { workers ≤ 16 }
    requires ports { length macs.now ≤ 16 }
    requires callers { 16 ≤ length shares.old.items }
    ensures dealt { DealsBeside result (placed_packet workers number captured.now.moment [] (aim_of macs.now (lent_record captured.now))) shares.old.items shares.new.items }
    ensures work { (cs : List ℕ) → AreWork (length macs.now) cs shares.old.items → OnOk result (AreWork (length macs.now) cs shares.new.items) }
    ensures callers { length shares.new.items ≡ length shares.old.items }
    ensures loose { OnOk result (loose.new.items ≡ loose.old.items ++ loose_after number (aim_of macs.now (lent_record captured.now))) }
{
    match aim(workers, macs, number, captured, headers) {
        Ok(packet) => give_packet(shares, &packet),
        Err(cause) => tell(
            loose,
            Loose {
                packet: number,
                cause,
            },
        ),
    }
}

/// Gives these packets, of which the first has this number, to their workers, in packet order, and tells the loose ones.
fn deal_packets<'a>(
    shares: &mut Vec<Vec<Placed<Work<'a>>>>,
    workers: u32,
    macs: &[Mac],
    first: u32,
    packets: &'a Batch,
    loose: &mut Vec<Loose>,
) -> Result<(), NoMemory>
    requires some { 1 ≤ workers }
    requires few { workers ≤ 16 }
    requires ports { length macs.now ≤ 16 }
    requires callers { 16 ≤ length shares.old.items }
    requires numbers { first + length packets.now < 2 ^ 32 }
    ensures dealt { DealsBeside result (placed_packets workers false macs.now [] (numbered first packets.now)) shares.old.items shares.new.items }
    ensures work { (cs : List ℕ) → AreWork (length macs.now) cs shares.old.items → OnOk result (AreWork (length macs.now) cs shares.new.items) }
    ensures loose { OnOk result (loose.new.items ≡ loose.old.items ++ loose_among macs.now (numbered first packets.now)) }
{
    let mut headers = FrameRoom::new();
    for place in 0..packets.len() {
        let captured = packets.at(place);
        deal_packet(
            shares,
            workers,
            macs,
            first + place as u32,
            &captured,
            &mut headers,
            loose,
        )?;
    }
    Ok(())
}

/// Whether each share has fewer than 2^32 jobs.
fn are_few<'a>(shares: &[Vec<Placed<Work<'a>>>]) -> bool
    ensures told { result ≡ true → AreFew shares.now }
    ensures back { AreFew shares.now → result ≡ true }
{
    match shares.split_first() {
        None => true,
        Some((first, rest)) => first.len() <= u32::MAX as usize && are_few(rest),
    }
}

/// Deals the jobs of the round of these packets, the first of which has the number `first` in the trace: to each worker its packets, in
/// packet order, and to each controller the commands beside them, in file order. The shares stand by the numbers of the callers:
/// workers 0 to 15, then the controllers in the policy's order. Loose packets are told in packet order. That a share has 2^32 jobs
/// counts as want of memory; after it nothing is said of what was told.
pub fn deal<'a>(
    alloc: Global,
    workers: u32,
    controllers: &[u16],
    numbers: &[u16],
    macs: &[Mac],
    schedule: &'a Schedule,
    first: u32,
    packets: &'a Batch,
    loose: &mut Vec<Loose>,
) -> Result<Vec<Vec<Placed<Work<'a>>>>, NoMemory>
    requires some { 1 ≤ workers }
    requires few { workers ≤ 16 }
    requires ports { (length numbers.now ≡ length macs.now) × (length macs.now ≤ 16) }
    requires numbers { first + length packets.now < 2 ^ 32 }
    requires listed { Each (λ l. is_listed numbers.now l.port ≡ true) schedule.now }
    requires controllers { Each (λ l. is_listed controllers.now l.controller ≡ true) schedule.now }
    requires rules { Each (λ l. Each IsGoodRule (rules_given l.command)) schedule.now }
    ensures shares { IfOk result (λ shares. shared shares.items ≡ dealt controllers.now (placed_lines numbers.now schedule.now first ++ placed_packets workers false macs.now [] (numbered first packets.now))) }
    ensures fit { IfOk result (λ shares. AreWork (length macs.now) controllers.now shares.items) }
    ensures few { IfOk result (λ shares. AreFew shares.items) }
    ensures loose { OnOk result (loose.new.items ≡ loose.old.items ++ loose_among macs.now (numbered first packets.now)) }
{
    let mut shares = no_jobs(alloc, WORKERS + controllers.len())?;
    deal_lines(&mut shares, controllers, numbers, schedule, first)?;
    deal_packets(&mut shares, workers, macs, first, packets, loose)?;
    if !are_few(&shares) {
        return Err(NoMemory);
    }
    Ok(shares)
}
