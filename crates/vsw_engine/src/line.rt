//! The lines of packets, as rows answer them.

ghost use Rattle.std.specs.Prelude.{◌≡◌, ◌<◌, ◌+◌, ◌++◌, ◌^◌, IfSome, OnOk, Some, get_or, length};
ghost use Rattle.vsw_engine.specs.Private.Lines.{AddsAnswer, AddsLine, HasRoom, line_text};
ghost use Rattle.vsw_frame.specs.Frame.{parts};
ghost use Rattle.vsw_offload.specs.Answered.{AnswersFrame, bytes_given, bytes_told, fate_given};
ghost use Rattle.vsw_pcap.specs.Batch.{lent_record};
ghost use Rattle.vsw_offload.specs.Rows.{macs_of, numbers_of};
ghost use Rattle.vsw_promise.specs.Jobs.{aim_of};
ghost use Rattle.vsw_run.specs.Engine.{AreEngineLines};

use crate::desk::Desk;
use crate::sheet::Sheet;
use crate::text::{fate_line, loose_line, none_line};
use vsw_base::{Fate, Moment, NoMemory, Place};
use vsw_frame::{Frame, FrameRoom, read_frame};
use vsw_header::choose_port;
use vsw_offload::{AnswerRoom, Given, Rows};
use vsw_pcap::{Batch, Captured};
use vsw_report::{LooseCause, Page};

/// What the rows answer a frame. Bytes with which it leaves that aren't its own stand at the front of `out`.
fn answer(
    rows: &Rows,
    place: Place,
    frame: &Frame<'_>,
    moment: Moment,
    room: &mut AnswerRoom,
    out: &mut Vec<u8>,
) -> Option<Given>
    requires room { length out.old.items ≡ 65700 }
    ensures answered { AnswersFrame rows.now place (parts frame.now) moment (fate_given result) (bytes_given (parts frame.now) result out.new.items) }
    ensures room { length out.new.items ≡ 65700 }
    ensures len { IfSome result (λ given. HasRoom given) }
{
    rows.answer_own(place, frame, moment, room, out)
}

/// The bytes of a fate: of a pass the frame's own, or those at the front of a room.
fn bytes_of<'a>(given: &Given, frame: &Frame<'a>, out: &'a Vec<u8>) -> &'a [u8]
    requires room { length out.now.items ≡ 65700 }
    requires len { HasRoom given.now }
    ensures { result.now ≡ bytes_told given.now.own (parts frame.now) given.now.fate out.now.items }
{
    match given.fate {
        Fate::Pass { len } => {
            if given.own {
                frame.bytes()
            } else {
                &out[..len as usize]
            }
        }
        Fate::Drop(_) => &[],
    }
}

fn number_at(numbers: &[u32], place: u32) -> u32
    requires { place < length numbers.now }
    ensures { result ≡ get_or numbers.now place 0 }
{
    numbers[place as usize]
}

/// Adds the line of a packet that rows answer.
fn write_given(
    packet: u32,
    port: u32,
    given: &Given,
    frame: &Frame<'_>,
    out: &Vec<u8>,
    page: &mut Page,
    text: &mut Sheet,
) -> Result<(), NoMemory>
    requires room { length out.now.items ≡ 65700 }
    requires len { HasRoom given.now }
    ensures { OnOk result (text.new ≡ text.old ++ line_text packet port (Some given.now.fate) (bytes_told given.now.own (parts frame.now) given.now.fate out.now.items)) }
{
    let bytes = bytes_of(given, frame, out);
    fate_line(text, page, packet, port, &given.fate, bytes)
}

/// Adds the line of a packet that goes to a port.
fn write_answer(
    rows: &Rows,
    packet: u32,
    place: Place,
    frame: &Frame<'_>,
    moment: Moment,
    room: &mut AnswerRoom,
    out: &mut Vec<u8>,
    page: &mut Page,
    text: &mut Sheet,
) -> Result<(), NoMemory>
    requires place { place.port < length (numbers_of rows.now) }
    requires room { length out.old.items ≡ 65700 }
    ensures adds { OnOk result (AddsAnswer rows.now packet moment place (parts frame.now) text.old text.new) }
    ensures room { length out.new.items ≡ 65700 }
{
    let number = number_at(rows.ports(), place.port);
    match answer(rows, place, frame, moment, room, out) {
        None => none_line(text, packet, number),
        Some(given) => write_given(packet, number, &given, frame, out, page, text),
    }
}

/// Adds the line of a packet.
fn write_line(
    rows: &Rows,
    packet: u32,
    captured: &Captured<'_>,
    headers: &mut FrameRoom,
    room: &mut AnswerRoom,
    out: &mut Vec<u8>,
    page: &mut Page,
    scratch: &mut Vec<u8>,
    text: &mut Sheet,
) -> Result<(), NoMemory>
    requires room { length out.old.items ≡ 65700 }
    ensures adds { OnOk result (AddsLine rows.now packet captured.now.moment (aim_of (macs_of rows.now) (lent_record captured.now)) text.old text.new) }
    ensures room { length out.new.items ≡ 65700 }
{
    if captured.bytes.len() < captured.original as usize {
        return loose_line(text, scratch, packet, LooseCause::Snapped);
    }
    let read = read_frame(captured.bytes, headers);
    match &read {
        Err(fault) => loose_line(text, scratch, packet, LooseCause::Malformed(*fault)),
        Ok(frame) => match choose_port(rows.macs(), frame.stack()) {
            None => loose_line(text, scratch, packet, LooseCause::NoPort),
            Some(place) => {
                let moment = captured.moment;
                write_answer(rows, packet, place, frame, moment, room, out, page, text)
            }
        },
    }
}

/// Writes the lines of a batch, of which the first packet has this number.
pub(crate) fn write_lines(
    rows: &Rows,
    batch: &Batch,
    first: u32,
    desk: &mut Desk,
) -> Result<(), NoMemory>
    requires numbers { first + length batch.now < 2 ^ 32 }
    requires room { length desk.old.out.items ≡ 65700 }
    ensures lines { OnOk result (AreEngineLines rows.now first batch.now desk.new.text) }
    ensures room { length desk.new.out.items ≡ 65700 }
{
    desk.text.clear();
    for place in 0..batch.len() {
        write_line(
            rows,
            first + place as u32,
            &batch.at(place),
            &mut desk.headers,
            &mut desk.room,
            &mut desk.out,
            &mut desk.page,
            &mut desk.scratch,
            &mut desk.text,
        )?;
    }
    Ok(())
}
