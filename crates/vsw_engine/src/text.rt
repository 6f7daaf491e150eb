//! The text of a line. What a report tells alike is written by vsw_report, and taken from there.

ghost use Rattle.std.specs.Prelude.{◌≡◌, ◌≤◌, ◌+◌, ◌++◌, [], None, OnOk, Some, codes, decimal, length, drop};
ghost use Rattle.vsw_base.specs.declared.fate.Fate.TheVariants as fate;
ghost use Rattle.vsw_engine.specs.Private.Lines.{front_text, line_text};
ghost use Rattle.vsw_report.specs.Print.{fate_text, loose_text};

use crate::sheet::Sheet;
use itoa::write_digits;
use vsw_base::{Cause, Fate, NoMemory};
use vsw_report::{Loose, LooseCause, Page, loose_part};

/// Bytes of the longest front, and some: two numbers, and a space behind each.
const FRONT_LEN: usize = 32;

/// Writes bytes that end at `end`, and answers where they begin.
#[inline(always)]
fn before(room: &mut [u8], end: usize, bytes: &[u8]) -> usize
    requires { (length bytes.now ≤ end) × (end ≤ length room.old) }
    ensures start { result + length bytes.now ≡ end }
    ensures written { drop result room.new ≡ bytes.now ++ drop end room.old }
{
    let start = end - bytes.len();
    room[start..end].copy_from_slice(bytes);
    start
}

/// Writes a number in decimal that ends at `end`, and answers where it begins.
#[inline(always)]
fn number_before(room: &mut [u8], end: usize, n: u32) -> usize
    requires { (10 ≤ end) × (end ≤ length room.old) }
    ensures start { (result ≤ end) × (end ≤ result + 10) }
    ensures written { drop result room.new ≡ decimal n ++ drop end room.old }
{
    write_digits(u64::from(n), room, end)
}

/// Writes the front of a line that ends at `end`, the packet's number and the port's, and answers where it begins.
#[inline(always)]
fn front_before(room: &mut [u8], end: usize, packet: u32, port: u32) -> usize
    requires { (22 ≤ end) × (end ≤ length room.old) }
    ensures start { (result ≤ end) × (end ≤ result + 22) }
    ensures written { drop result room.new ≡ front_text packet port ++ drop end room.old }
{
    let at = before(room, end, b" ");
    let at = number_before(room, at, port);
    let at = before(room, at, b" ");
    number_before(room, at, packet)
}

/// Writes the line of a pass, up to its bytes, and answers where it begins.
#[inline(always)]
pub(crate) fn pass_before(room: &mut [u8], end: usize, packet: u32, port: u32, len: u32) -> usize
    requires { (64 ≤ end) × (end ≤ length room.old) }
    ensures start { result ≤ end }
    ensures written { drop result room.new ≡ (front_text packet port ++ codes "pass " ++ decimal len ++ codes " ") ++ drop end room.old }
{
    let at = before(room, end, b" ");
    let at = number_before(room, at, len);
    let at = before(room, at, b"pass ");
    front_before(room, at, packet, port)
}

/// Appends the front of a line: the packet's number and the port's.
fn front(text: &mut Sheet, packet: u32, port: u32) -> Result<(), NoMemory>
    ensures { OnOk result (text.new ≡ text.old ++ front_text packet port) }
{
    let mut room = [0u8; FRONT_LEN];
    let at = front_before(&mut room, FRONT_LEN, packet, port);
    text.word(&room[at..])
}

/// Writes a report's line of a drop. Behind its first eight bytes it tells the drop alone.
fn write_drop(page: &mut Page, cause: Cause) -> Result<(), NoMemory>
    ensures { OnOk result (drop 8 page.new ≡ fate_text (fate.Drop cause) [] ++ codes "\n") }
{
    page.clear();
    page.packet_line(0, 0, false, 0, &Fate::Drop(cause), &[])
}

/// What stands behind the first bytes.
fn behind(bytes: &[u8], count: usize) -> &[u8]
    ensures { result.now ≡ drop count bytes.now }
{
    match bytes.split_at_checked(count) {
        Some((_, rest)) => rest,
        None => &[],
    }
}

/// Appends the line of a packet that rows drop.
fn drop_line(
    text: &mut Sheet,
    page: &mut Page,
    packet: u32,
    port: u32,
    cause: Cause,
) -> Result<(), NoMemory>
    ensures { OnOk result (text.new ≡ text.old ++ line_text packet port (Some (fate.Drop cause)) []) }
{
    write_drop(page, cause)?;
    front(text, packet, port)?;
    text.word(behind(page.as_slice(), 8))
}

/// Appends the line of a packet that rows answer. A drop has no bytes.
pub(crate) fn fate_line(
    text: &mut Sheet,
    page: &mut Page,
    packet: u32,
    port: u32,
    fate: &Fate,
    bytes: &[u8],
) -> Result<(), NoMemory>
    ensures { OnOk result (text.new ≡ text.old ++ line_text packet port (Some fate.now) bytes.now) }
{
    match *fate {
        Fate::Pass { len } => text.pass(packet, port, len, bytes),
        Fate::Drop(cause) => drop_line(text, page, packet, port, cause),
    }
}

/// Appends the line of a packet that rows don't answer.
pub(crate) fn none_line(text: &mut Sheet, packet: u32, port: u32) -> Result<(), NoMemory>
    ensures { OnOk result (text.new ≡ text.old ++ line_text packet port None []) }
{
    front(text, packet, port)?;
    text.word(b"none\n")
}

/// Writes the loose part of a round with one packet.
fn write_loose(scratch: &mut Vec<u8>, packet: u32, cause: LooseCause) -> Result<(), NoMemory>
    ensures { OnOk result (drop 6 scratch.new.items ≡ loose_text (record { packet = packet; cause = cause })) }
{
    scratch.clear();
    loose_part(scratch, &[Loose { packet, cause }])
}

/// Appends the line of a packet that goes to no port.
pub(crate) fn loose_line(
    text: &mut Sheet,
    scratch: &mut Vec<u8>,
    packet: u32,
    cause: LooseCause,
) -> Result<(), NoMemory>
    ensures { OnOk result (text.new ≡ text.old ++ loose_text (record { packet = packet; cause = cause })) }
{
    write_loose(scratch, packet, cause)?;
    text.word(behind(scratch, 6))
}
