//! Printing a round.

ghost use Rattle.std.specs.Prelude.{◌≡◌, ◌+◌, ◌*◌, ◌++◌, [], ◌≤◌, OnOk, decimal, codes, length, take};
ghost use Rattle.std.specs.List.{flat_map};
ghost use Rattle.vsw_report.specs.Front.{fronted};
ghost use Rattle.vsw_report.specs.declared.told.What.TheVariants as what;
ghost use Rattle.vsw_report.specs.Print.{Appended, head_line, fault_text, line_text, loose_text, port_text, port_line, round_text};

use crate::line::{put_packet, put_reply};
use crate::page::end_of;
use crate::piece::{Front, number_before};
use crate::round::{Loose, LooseCause, PortRound, Round};
use crate::told::{ToldLine, What};
use vsw_base::{BadFrame, Fate, NoMemory};
use vsw_policy::Reply;

/// The first line of every report, with the number of its format.
pub const HEAD_LINE: &[u8] = b"vsw report 1\n";

/// Appends bytes.
fn word(out: &mut Vec<u8>, bytes: &[u8]) -> Result<(), NoMemory>
    ensures { Appended out.old.items out.new.items bytes.now result }
{
    match out.extend_from_slice(bytes) {
        Ok(()) => Ok(()),
        Err(_) => Err(NoMemory),
    }
}

/// Appends a number in decimal.
fn number(out: &mut Vec<u8>, n: u32) -> Result<(), NoMemory>
    ensures { OnOk result (out.new.items ≡ out.old.items ++ decimal n) }
{
    let mut room = [0u8; 10];
    let start = number_before(&mut room, 10, n);
    word(out, &room[start..])
}

/// What stands in front of a line.
fn front_of(line: &ToldLine) -> Front
    ensures by { result.by ≡ line.now.by }
    ensures item { result.item ≡ line.now.item }
    ensures entry { result.entry ≡ line.now.entry }
    ensures count { result.count ≡ line.now.count }
{
    Front {
        by: line.by,
        item: line.item,
        entry: line.entry,
        count: line.count,
    }
}

/// Appends zeros, over which a line with the text of so many bytes is written.
fn lengthen(out: &mut Vec<u8>, bytes: usize) -> Result<(), NoMemory>
    ensures long { OnOk result (length out.old.items + (128 + 2 * bytes) ≤ length out.new.items) }
    ensures kept { OnOk result (take (length out.old.items) out.new.items ≡ out.old.items) }
{
    match end_of(out.len(), bytes) {
        Some(end) => match out.resize(end, 0) {
            Ok(()) => Ok(()),
            Err(_) => Err(NoMemory),
        },
        None => Err(NoMemory),
    }
}

/// Appends the line of a packet.
fn packet_line(out: &mut Vec<u8>, front: &Front, fate: &Fate, bytes: &[u8]) -> Result<(), NoMemory>
    ensures { OnOk result (out.new.items ≡ out.old.items ++ line_text (fronted front.now (what.Fate fate.now bytes.now))) }
{
    let len = out.len();
    lengthen(out, bytes.len())?;
    let end = put_packet(out.as_mut_slice(), len, front, fate, bytes);
    out.truncate(end);
    Ok(())
}

/// Appends the line of a command.
fn reply_line(out: &mut Vec<u8>, front: &Front, reply: Reply) -> Result<(), NoMemory>
    ensures { OnOk result (out.new.items ≡ out.old.items ++ line_text (fronted front.now (what.Reply reply))) }
{
    let len = out.len();
    lengthen(out, 0)?;
    let end = put_reply(out.as_mut_slice(), len, front, reply);
    out.truncate(end);
    Ok(())
}

/// Appends a line of a port.
fn told_line(out: &mut Vec<u8>, line: &ToldLine) -> Result<(), NoMemory>
    ensures { OnOk result (out.new.items ≡ out.old.items ++ line_text line.now) }
{
    let front = front_of(line);
    match &line.what {
        What::Fate { fate, bytes } => packet_line(out, &front, fate, bytes.as_slice()),
        What::Reply(reply) => reply_line(out, &front, *reply),
    }
}

fn told_lines(out: &mut Vec<u8>, lines: &[ToldLine]) -> Result<(), NoMemory>
    ensures { OnOk result (out.new.items ≡ out.old.items ++ flat_map line_text lines.now) }
{
    for line in lines {
        told_line(out, line)?;
    }
    Ok(())
}

#[tactic(auto, unfolding(crate::specs::Print::fault_text))]
fn fault(out: &mut Vec<u8>, fault: BadFrame) -> Result<(), NoMemory>
    ensures { OnOk result (out.new.items ≡ out.old.items ++ fault_text fault) }
{
    word(out, b" malformed ")?;
    number(out, u32::from(fault.number()))?;
    word(out, b" ")?;
    word(out, fault.name().as_bytes())?;
    word(out, b"\n")
}

/// Appends a loose packet's line.
fn loose_line(out: &mut Vec<u8>, loose: &Loose) -> Result<(), NoMemory>
    ensures { OnOk result (out.new.items ≡ out.old.items ++ loose_text loose.now) }
{
    number(out, loose.packet)?;
    match loose.cause {
        LooseCause::Snapped => word(out, b" snapped\n"),
        LooseCause::Malformed(why) => fault(out, why),
        LooseCause::NoPort => word(out, b" noport\n"),
    }
}

fn loose_lines(out: &mut Vec<u8>, packets: &[Loose]) -> Result<(), NoMemory>
    ensures { OnOk result (out.new.items ≡ out.old.items ++ flat_map loose_text packets.now) }
{
    for packet in packets {
        loose_line(out, packet)?;
    }
    Ok(())
}

/// Appends a round's line: the number of its first packet.
pub fn round_line(out: &mut Vec<u8>, first: u32) -> Result<(), NoMemory>
    ensures { OnOk result (out.new.items ≡ out.old.items ++ codes "round " ++ decimal first ++ codes "\n") }
{
    word(out, b"round ")?;
    number(out, first)?;
    word(out, b"\n")
}

/// Appends a port's line: its number, and how many entries its history had before and after the round.
#[tactic(auto, unfolding(crate::specs::Print::port_line))]
pub fn port_line(out: &mut Vec<u8>, port: u16, before: u32, after: u32) -> Result<(), NoMemory>
    ensures { OnOk result (out.new.items ≡ out.old.items ++ port_line port before after) }
{
    word(out, b"port ")?;
    number(out, u32::from(port))?;
    word(out, b" ")?;
    number(out, before)?;
    word(out, b" ")?;
    number(out, after)?;
    word(out, b"\n")
}

/// Appends the end of a round: the line `loose`, and a line for each packet that reached no port.
pub fn loose_part(out: &mut Vec<u8>, packets: &[Loose]) -> Result<(), NoMemory>
    ensures { OnOk result (out.new.items ≡ out.old.items ++ codes "loose\n" ++ flat_map loose_text packets.now) }
{
    word(out, b"loose\n")?;
    loose_lines(out, packets)
}

fn port_part(out: &mut Vec<u8>, port: &PortRound) -> Result<(), NoMemory>
    ensures { OnOk result (out.new.items ≡ out.old.items ++ port_text port.now) }
{
    port_line(out, port.port, port.before, port.after)?;
    told_lines(out, port.lines.as_slice())
}

fn port_parts(out: &mut Vec<u8>, ports: &[PortRound]) -> Result<(), NoMemory>
    ensures { OnOk result (out.new.items ≡ out.old.items ++ flat_map port_text ports.now) }
{
    for port in ports {
        port_part(out, port)?;
    }
    Ok(())
}

fn whole(out: &mut Vec<u8>, round: &Round) -> Result<(), NoMemory>
    ensures { OnOk result (out.new.items ≡ out.old.items ++ round_text round.now) }
{
    round_line(out, round.first)?;
    port_parts(out, round.ports.as_slice())?;
    loose_part(out, round.loose.as_slice())
}

/// Fills an empty text, or leaves it empty.
fn fill(out: &mut Vec<u8>, round: &Round) -> Result<(), NoMemory>
    requires { out.old.items ≡ [] }
    ensures { Appended out.old.items out.new.items (round_text round.now) result }
{
    match whole(out, round) {
        Ok(()) => Ok(()),
        Err(e) => {
            out.clear();
            Err(e)
        }
    }
}

/// Appends the round's text. Where there is no memory for it, nothing is appended. An empty `out` is
/// written to at once, another one by a text of its own.
pub fn print_round(round: &Round, out: &mut Vec<u8>) -> Result<(), NoMemory>
    ensures { Appended out.old.items out.new.items (round_text round.now) result }
{
    if out.is_empty() {
        return fill(out, round);
    }
    let mut text = Vec::new(*out.allocator());
    fill(&mut text, round)?;
    word(out, &text)
}
