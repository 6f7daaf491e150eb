//! The lines of two workers and a controller, told, merged and printed.

use std::alloc::Global;
use vsw_base::{Cause, Fate, NoMemory};
use vsw_policy::{Refusal, Reply};
use vsw_report::{Caller, RoundText, loose_part, merge, merge_text, port_line, round_line};

const LONG: Fate = Fate::Drop(Cause::Long);

/// What a worker tells of two dropped packets: the packet, whether it is an entry, and its count.
fn tell_two(
    caller: &mut Caller,
    number: u32,
    told: &[(u32, bool, u32); 2],
) -> Result<(), NoMemory> {
    for place in 0..2usize {
        let (packet, entry, count) = told[place];
        caller.tell_packet(number, packet, entry, count, &LONG, &[])?;
    }
    Ok(())
}

/// Worker 0 reads and then enters at count 0; worker 1 reads at 0 and at 1.
fn tell_workers(workers: &mut [Caller; 2]) -> Result<(), NoMemory> {
    tell_two(&mut workers[0], 0, &[(3, false, 0), (5, true, 0)])?;
    tell_two(&mut workers[1], 1, &[(4, false, 0), (6, false, 1)])
}

/// A controller that is refused for want of memory at 0, and enters at 1.
fn tell_replies(controller: &mut Caller) -> Result<(), NoMemory> {
    controller.tell_reply(2, 7, false, 0, Reply::Refused(Refusal::Memory))?;
    controller.tell_reply(2, 8, true, 1, Reply::Ok)
}

fn tell_all(
    workers: &mut [Caller; 2],
    controllers: &mut [Caller; 1],
    out: &mut Vec<u8>,
) -> Result<bool, NoMemory> {
    tell_workers(workers)?;
    tell_replies(&mut controllers[0])?;
    merge(workers, controllers, 0, 2, out)
}

fn told(alloc: Global, out: &mut Vec<u8>) -> Result<bool, NoMemory> {
    let mut workers = [Caller::new(alloc), Caller::new(alloc)];
    let mut controllers = [Caller::new(alloc)];
    tell_all(&mut workers, &mut controllers, out)
}

/// The round of these lines, and whether one tells of want of memory.
fn round(alloc: Global, out: &mut Vec<u8>) -> Result<bool, NoMemory> {
    round_line(out, 3)?;
    port_line(out, 9, 0, 2)?;
    let short = told(alloc, out)?;
    loose_part(out, &[])?;
    Ok(short)
}

const TEXT: &[u8] = b"round 3
port 9 0 2
w0 3 @0 drop long
w1 4 @0 drop long
c2 7 @0 refused 10 Memory
w0 5 +0 drop long
w1 6 @1 drop long
c2 8 +1 ok
loose
";

fn is_round(alloc: Global) -> bool {
    let mut out = Vec::new(alloc);
    round(alloc, &mut out) == Ok(true) && out.as_slice() == TEXT
}

#[test]
fn reads_stand_by_callers_before_the_entry(rt: HostRuntime) {
    assert!(&rt; is_round(rt.alloc()));
}

/// Two rounds of a worker that brings packets of 33 and of 3 bytes, in one room.
fn tell_rounds(workers: &mut [Caller; 1], out: &mut Vec<u8>) -> Result<bool, NoMemory> {
    let bytes = b"\xff and thirty-two bytes behind it.";
    workers[0].tell_packet(0, 1, false, 0, &Fate::Pass { len: 33 }, bytes)?;
    merge(workers, &mut [], 0, 0, out)?;
    workers[0].tell_packet(0, 2, false, 0, &Fate::Pass { len: 3 }, b"\x0a\x00\xff")?;
    merge(workers, &mut [], 0, 0, out)
}

fn two_rounds(alloc: Global, out: &mut Vec<u8>) -> Result<bool, NoMemory> {
    let mut workers = [Caller::new(alloc)];
    tell_rounds(&mut workers, out)
}

const ROUNDS: &[u8] =
    b"w0 1 @0 pass 33 ff20616e64207468697274792d74776f20627974657320626568696e642069742e
w0 2 @0 pass 3 0a00ff
";

fn are_rounds(alloc: Global) -> bool {
    let mut out = Vec::new(alloc);
    two_rounds(alloc, &mut out) == Ok(false) && out.as_slice() == ROUNDS
}

#[test]
fn a_caller_begins_again_in_its_room(rt: HostRuntime) {
    assert!(&rt; are_rounds(rt.alloc()));
}

/// So many packets of 100 bytes, all read at a count, whose lines have some 220 bytes each.
fn tell_many(worker: &mut Caller, packets: u32, count: u32) -> Result<(), NoMemory> {
    for packet in 0..packets {
        worker.tell_packet(0, packet, false, count, &Fate::Pass { len: 100 }, &[7; 100])?;
    }
    Ok(())
}

fn append(out: &mut Vec<u8>, text: &[u8]) -> Result<(), NoMemory> {
    match out.extend_from_slice(text) {
        Ok(()) => Ok(()),
        Err(_) => Err(NoMemory),
    }
}

fn append_all(out: &mut Vec<u8>, text: &RoundText) -> Result<(), NoMemory> {
    for place in 0..text.sheets.len() {
        append(out, text.sheets.text(place))?;
    }
    append(out, text.end.as_slice())
}

/// Whether a round of so many packets has a text of so many sheets, and the same as one that is merged in one piece.
fn is_same(
    alloc: Global,
    worker: &mut [Caller; 1],
    text: &mut RoundText,
    packets: u32,
    sheets: usize,
) -> Result<bool, NoMemory> {
    let mut plain = [Caller::new(alloc)];
    let mut out = Vec::new(alloc);
    tell_many(&mut plain[0], packets, 0)?;
    merge(&mut plain, &mut [], 0, 0, &mut out)?;
    text.clear();
    worker[0].take_room(text, 0);
    tell_many(&mut worker[0], packets, 0)?;
    merge_text(worker, &mut [], 0, 0, text)?;
    let mut whole = Vec::new(alloc);
    append_all(&mut whole, text)?;
    Ok(whole == out && text.sheets.len() == sheets)
}

/// Long rounds and short ones, one after the other in the same rooms.
fn are_same(alloc: Global) -> Result<bool, NoMemory> {
    let mut worker = [Caller::new(alloc)];
    let mut text = RoundText::new(alloc);
    for (packets, sheets) in [(300, 2), (200, 2), (3, 0), (500, 2), (0, 0)] {
        if !is_same(alloc, &mut worker, &mut text, packets, sheets)? {
            return Ok(false);
        }
    }
    Ok(true)
}

#[test]
fn a_long_text_in_pieces_is_the_text(rt: HostRuntime) {
    assert!(&rt; are_same(rt.alloc()) == Ok(true));
}

/// So many packets of two workers each, and before those of the second one that is an entry.
fn tell_long(workers: &mut [Caller; 2], packets: u32) -> Result<(), NoMemory> {
    workers[1].tell_packet(1, 9, true, 0, &Fate::Pass { len: 100 }, &[7; 100])?;
    tell_many(&mut workers[0], packets, 1)?;
    tell_many(&mut workers[1], packets, 1)
}

/// Whether their text has so many sheets, and is the same as one that is merged in one piece.
fn are_two_same(alloc: Global, packets: u32, sheets: usize) -> Result<bool, NoMemory> {
    let mut plain = [Caller::new(alloc), Caller::new(alloc)];
    let mut out = Vec::new(alloc);
    tell_long(&mut plain, packets)?;
    merge(&mut plain, &mut [], 0, 1, &mut out)?;
    let mut workers = [Caller::new(alloc), Caller::new(alloc)];
    let mut text = RoundText::new(alloc);
    tell_long(&mut workers, packets)?;
    merge_text(&mut workers, &mut [], 0, 1, &mut text)?;
    let mut whole = Vec::new(alloc);
    append_all(&mut whole, &text)?;
    Ok(whole == out && text.sheets.len() == sheets)
}

/// The text of the first is a sheet behind the entry, and that of the second is copied, since its entry stands before it.
#[test]
fn long_texts_of_two_workers_are_the_text(rt: HostRuntime) {
    assert!(&rt; are_two_same(rt.alloc(), 300, 2) == Ok(true));
    assert!(&rt; are_two_same(rt.alloc(), 3, 0) == Ok(true));
}
