//! A packet at its port, and at the one to which it is handed on.

ghost use Rattle.std.specs.Prelude.{◌≡◌, ◌≤◌, ◌<◌, ◌∷◌, [], IfOk, OnOk, length, map};
ghost use Rattle.vsw_answer.specs.Transit.{len_of};
ghost use Rattle.vsw_frame.specs.Frame.{parts};
ghost use Rattle.vsw_policy.specs.Sound.{Each};
ghost use Rattle.vsw_promise.specs.Jobs.{crossing_by};
ghost use Rattle.vsw_report.specs.declared.told.What.TheVariants as what;
ghost use Rattle.vsw_switch.specs.Does.{CarriesAt, DoesAll, HandsOn, carried_job, fate_told, second_jobs};
ghost use Rattle.vsw_pcap.specs.Batch.{lent_record};
ghost use Rattle.vsw_switch.specs.Stay.{Arrives, standing};

use crate::live::Live;
use crate::worker::{Handed, Rooms, Worker, worker_for};
use vsw_answer::{Room, Watch, bytes_of};
use vsw_base::{Crossing, Dir, Fate, Mac, Moment, NoMemory, Place};
use vsw_frame::{Frame, FrameRoom, read_frame};
use vsw_hairpin::hand_on;
use vsw_header::choose_port;
use vsw_pcap::Captured;
use vsw_port::Outcome;
use vsw_report::LooseCause;

/// Packet `packet` is carried by a caller at the port of its place.
#[inline(always)]
fn carry_at<G: Watch>(
    ports: &mut Vec<Live>,
    watch: &G,
    caller: u32,
    packet: u32,
    place: Place,
    moment: Moment,
    frame: &Frame<'_>,
    rooms: &mut Worker,
) -> Result<(), NoMemory>
    requires callers { Each (λ p. caller < length p.workers) ports.old.items }
    requires within { place.port < length ports.old.items }
    ensures makes { OnOk result (CarriesAt place.port rooms.new.crossing (parts frame.now) rooms.new.outcome rooms.new.room ports.old.items ports.new.items) }
    ensures crossing { rooms.new.crossing ≡ crossing_by caller packet place moment (parts frame.now) }
    ensures len { OnOk result (len_of rooms.new.outcome.fate ≤ 65700) }
    ensures stays { map standing ports.new.items ≡ map standing ports.old.items }
{
    rooms.bring(caller, packet, place, moment, frame);
    let port = &mut ports[place.port as usize];
    port.carry(
        watch,
        &rooms.crossing,
        frame,
        &mut rooms.room,
        &mut rooms.outcome,
    )
}

/// What became of a packet at the port at a place, and the bytes with which it left: if it is for another of the ports at these addresses, it is carried
/// there, by the same caller and at the same moment.
fn receive<G: Watch>(
    ports: &mut Vec<Live>,
    watch: &G,
    locals: &[Mac],
    first: &Crossing,
    from: u32,
    fate: Fate,
    bytes: &[u8],
    rooms: &mut Handed,
) -> Result<(), NoMemory>
    requires callers { Each (λ p. first.now.caller < length p.workers) ports.old.items }
    requires few { length locals.now ≤ 16 }
    requires within { length locals.now ≤ length ports.old.items }
    ensures does { OnOk result (DoesAll (second_jobs locals.now first.now from (what.Fate fate bytes.now)) ports.old.items ports.new.items) }
    ensures stays { map standing ports.new.items ≡ map standing ports.old.items }
{
    let left = Place {
        port: from,
        dir: first.id.dir,
    };
    match hand_on(locals, left, fate, bytes, &mut rooms.headers) {
        None => Ok(()),
        Some((port, frame)) => {
            let place = Place { port, dir: Dir::In };
            carry_at(
                ports,
                watch,
                first.caller,
                first.packet,
                place,
                first.moment,
                &frame,
                &mut rooms.worker,
            )?;
            Ok(())
        }
    }
}

/// A packet that came to the port at a place had this outcome there, and left with its frame's bytes or those in the room: it is handed on.
fn hand<G: Watch>(
    ports: &mut Vec<Live>,
    watch: &G,
    locals: &[Mac],
    first: &Crossing,
    from: u32,
    outcome: Outcome,
    frame: &Frame<'_>,
    room: &Room,
    rooms: &mut Handed,
) -> Result<(), NoMemory>
    requires callers { Each (λ p. first.now.caller < length p.workers) ports.old.items }
    requires few { length locals.now ≤ 16 }
    requires within { length locals.now ≤ length ports.old.items }
    requires len { len_of outcome.fate ≤ 65700 }
    ensures does { OnOk result (DoesAll (second_jobs locals.now first.now from (fate_told outcome (parts frame.now) room.now)) ports.old.items ports.new.items) }
    ensures stays { map standing ports.new.items ≡ map standing ports.old.items }
{
    let bytes = bytes_of(outcome.fate, outcome.own, frame, room);
    receive(
        ports,
        watch,
        locals,
        first,
        from,
        outcome.fate,
        bytes,
        rooms,
    )
}

/// Packet `packet` is carried at the port of its place, and then at the one to which it is handed on.
fn carry_on<G: Watch>(
    ports: &mut Vec<Live>,
    watch: &G,
    locals: &[Mac],
    workers: u32,
    packet: u32,
    place: Place,
    moment: Moment,
    frame: &Frame<'_>,
    rooms: &mut Rooms,
) -> Result<(), NoMemory>
    requires some { 1 ≤ workers }
    requires callers { Each (λ p. length p.workers ≡ workers) ports.old.items }
    requires within { place.port < length ports.old.items }
    requires few { length locals.now ≤ 16 }
    requires locals { length locals.now ≤ length ports.old.items }
    ensures hands { OnOk result (HandsOn locals.now (carried_job workers packet place moment (parts frame.now) ∷ []) ports.old.items ports.new.items) }
    ensures stays { map standing ports.new.items ≡ map standing ports.old.items }
{
    let caller = worker_for(workers, frame.stack());
    let own = &mut rooms.own;
    carry_at(ports, watch, caller, packet, place, moment, frame, own)?;
    if locals.is_empty() {
        return Ok(());
    }
    let first = &rooms.own.crossing;
    let room = &rooms.own.room;
    let outcome = rooms.own.outcome;
    let handed = &mut rooms.handed;
    hand(
        ports, watch, locals, first, place.port, outcome, frame, room, handed,
    )
}

/// Packet `packet` arrives at its port, and is handed on. Ok tells why it is loose, where it is.
pub(crate) fn arrive<G: Watch>(
    ports: &mut Vec<Live>,
    watch: &G,
    macs: &[Mac],
    locals: &[Mac],
    workers: u32,
    packet: u32,
    captured: &Captured<'_>,
    rooms: &mut Rooms,
    headers: &mut FrameRoom,
) -> Result<Option<LooseCause>, NoMemory>
    requires some { 1 ≤ workers }
    requires callers { Each (λ p. length p.workers ≡ workers) ports.old.items }
    requires macs { macs.now ≡ map (λ p. p.mac) ports.old.items }
    requires few { length macs.now ≤ 16 }
    requires locals { length locals.now ≤ length macs.now }
    ensures arrives { IfOk result (λ loose. Arrives workers packet locals.now macs.now (lent_record captured.now) ports.old.items ports.new.items loose) }
    ensures stays { map standing ports.new.items ≡ map standing ports.old.items }
{
    if captured.bytes.len() < captured.original as usize {
        return Ok(Some(LooseCause::Snapped));
    }
    match read_frame(captured.bytes, headers) {
        Err(fault) => Ok(Some(LooseCause::Malformed(fault))),
        Ok(frame) => match choose_port(macs, frame.stack()) {
            None => Ok(Some(LooseCause::NoPort)),
            Some(place) => {
                let moment = captured.moment;
                carry_on(
                    ports, watch, locals, workers, packet, place, moment, &frame, rooms,
                )?;
                Ok(None)
            }
        },
    }
}
