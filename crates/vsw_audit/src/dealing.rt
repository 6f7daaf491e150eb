//! Where the packets of a round go, and who brings them.

ghost use Rattle.std.specs.Prelude.{◌≡◌, ◌≤◌, ◌<◌, ◌+◌, ◌^◌, ◌++◌, ◌∷◌, [], OnOk, Some, length};
ghost use Rattle.std.specs.List.{slice_get};
ghost use Rattle.vsw_pcap.specs.declared.capture.Record.{Record};
ghost use Rattle.vsw_promise.specs.Jobs.{aim_of, loose_after, loose_among, packets_between};
ghost use Rattle.vsw_audit.specs.Private.Rounds.{aim_by, aimed, aims_of};
ghost use Rattle.vsw_pcap.specs.Batch.{lent_record};

use vsw_base::{Dir, Mac, NoMemory};
use vsw_frame::{FrameRoom, read_frame};
use vsw_header::{choose_port, spread};
use vsw_pcap::{Batch, Captured};
use vsw_report::{Loose, LooseCause};

/// Where a packet goes, in which direction, and which worker brings it.
#[derive(Clone, Copy)]
pub(crate) struct Aim {
    /// The place of the port.
    pub port: u32,
    pub dir: Dir,
    pub worker: u32,
}

/// Where a record goes, or why it is loose.
fn find_aim(
    captured: &Captured<'_>,
    workers: u32,
    macs: &[Mac],
    headers: &mut FrameRoom,
) -> Result<Aim, LooseCause>
    requires some { 1 ≤ workers }
    requires few { length macs.now ≤ 16 }
    ensures { result ≡ aim_by workers (aim_of macs.now (lent_record captured.now)) }
{
    if captured.bytes.len() < captured.original as usize {
        return Err(LooseCause::Snapped);
    }
    let read = read_frame(captured.bytes, headers);
    match &read {
        Err(fault) => Err(LooseCause::Malformed(*fault)),
        Ok(frame) => match choose_port(macs, frame.stack()) {
            None => Err(LooseCause::NoPort),
            Some(place) => Ok(Aim {
                port: place.port,
                dir: place.dir,
                worker: spread(frame.stack(), workers),
            }),
        },
    }
}

fn push_aim(aims: &mut Vec<Option<Aim>>, aim: Option<Aim>) -> Result<(), NoMemory>
    ensures { OnOk result (aims.new.items ≡ aims.old.items ++ aim ∷ []) }
{
    match aims.push(aim) {
        Ok(()) => Ok(()),
        Err(_) => Err(NoMemory),
    }
}

fn push_loose(loose: &mut Vec<Loose>, packet: Loose) -> Result<(), NoMemory>
    ensures { OnOk result (loose.new.items ≡ loose.old.items ++ packet ∷ []) }
{
    match loose.push(packet) {
        Ok(()) => Ok(()),
        Err(_) => Err(NoMemory),
    }
}

/// Deals packet `packet`.
fn deal_one(
    captured: &Captured<'_>,
    workers: u32,
    macs: &[Mac],
    packet: u32,
    headers: &mut FrameRoom,
    aims: &mut Vec<Option<Aim>>,
    loose: &mut Vec<Loose>,
) -> Result<(), NoMemory>
    requires some { 1 ≤ workers }
    requires few { length macs.now ≤ 16 }
    ensures aims { (r : Record) → r ≡ lent_record captured.now → OnOk result (aims.new.items ≡ aims.old.items ++ aimed (aim_by workers (aim_of macs.now r)) ∷ []) }
    ensures loose { (r : Record) → r ≡ lent_record captured.now → OnOk result (loose.new.items ≡ loose.old.items ++ loose_after packet (aim_of macs.now r)) }
{
    match find_aim(captured, workers, macs, headers) {
        Ok(aim) => push_aim(aims, Some(aim)),
        Err(cause) => {
            push_aim(aims, None)?;
            push_loose(loose, Loose { packet, cause })
        }
    }
}

/// Deals the packets from one number up to another.
pub(crate) fn deal(
    records: &Batch,
    workers: u32,
    macs: &[Mac],
    first: u32,
    end: u32,
    headers: &mut FrameRoom,
    aims: &mut Vec<Option<Aim>>,
    loose: &mut Vec<Loose>,
) -> Result<(), NoMemory>
    requires some { 1 ≤ workers }
    requires few { length macs.now ≤ 16 }
    requires within { end ≤ length records.now }
    ensures aims { OnOk result (aims.new.items ≡ aims_of workers macs.now (packets_between records.now first end)) }
    ensures loose { OnOk result (loose.new.items ≡ loose_among macs.now (packets_between records.now first end)) }
{
    aims.clear();
    loose.clear();
    let mut packet = first;
    while packet < end {
        let captured = records.at(packet as usize);
        deal_one(&captured, workers, macs, packet, headers, aims, loose)?;
        packet += 1;
    }
    Ok(())
}
