//! A line, written in place: `page` has room for it, `at` is where it begins, and the answer is where it ends.

ghost use Rattle.std.specs.Prelude.{◌≡◌, ◌≤◌, ◌+◌, ◌-◌, ◌*◌, ◌++◌, codes, length, take, drop};
ghost use Rattle.hex.specs.Hex.{encode_lower};
ghost use Rattle.vsw_base.specs.declared.fate.Fate.TheVariants as fate;
ghost use Rattle.vsw_report.specs.Front.{front_text, fronted};
ghost use Rattle.vsw_report.specs.Print.{cause_text, fate_text, line_text, reply_text};
ghost use Rattle.vsw_report.specs.declared.told.What.TheVariants as what;

use crate::piece::{Front, answer_before, drop_before, pass_front_before};
use crate::write_hex;
use vsw_base::{Cause, Fate};
use vsw_policy::Reply;

/// Bytes of a line at most, but for a packet's bytes. It has 69, and is copied with what stands behind it.
pub const LINE_LEN: usize = 128;

/// Writes bytes at a place of a page, and answers where they end.
#[inline(always)]
pub fn put(page: &mut [u8], at: usize, bytes: &[u8]) -> usize
    requires { at + length bytes.now ≤ length page.old }
    ensures end { result ≡ at + length bytes.now }
    ensures written { take (at + length bytes.now) page.new ≡ take at page.old ++ bytes.now }
{
    let end = at + bytes.len();
    page[at..end].copy_from_slice(bytes);
    end
}

/// Copies to a place of a page a piece that ends at `end` in its room. As many bytes are copied as it may have at most, so their number is
/// known; what was copied too much is written over later.
#[inline(always)]
pub fn put_piece(page: &mut [u8], at: usize, room: &[u8], start: usize, end: usize) -> usize
    requires start { start ≤ end }
    requires room { start + end ≤ length room.now }
    requires page { at + end ≤ length page.old }
    ensures end { result ≡ at + (end - start) }
    ensures written { take (at + (end - start)) page.new ≡ take at page.old ++ take (end - start) (drop start room.now) }
{
    page[at..at + end].copy_from_slice(&room[start..start + end]);
    at + (end - start)
}

/// Writes two digits for each byte at a place of a page, and answers where they end.
#[inline(always)]
pub fn put_hex(page: &mut [u8], at: usize, bytes: &[u8]) -> usize
    requires { at + 2 * length bytes.now ≤ length page.old }
    ensures end { result ≡ at + 2 * length bytes.now }
    ensures written { take (at + 2 * length bytes.now) page.new ≡ take at page.old ++ encode_lower bytes.now }
{
    let end = at + 2 * bytes.len();
    write_hex(bytes, &mut page[at..end]);
    end
}

/// Writes bytes over a part of a page. What stands before and behind it stays.
#[inline(always)]
fn put_over(page: &mut [u8], at: usize, bytes: &[u8])
    requires { at + length bytes.now ≤ length page.old }
    ensures { page.new ≡ take at page.old ++ bytes.now ++ drop (at + length bytes.now) page.old }
{
    page[at..at + bytes.len()].copy_from_slice(bytes);
}

/// Writes a packet's bytes and the end of its line.
#[inline(always)]
fn put_bytes(page: &mut [u8], at: usize, bytes: &[u8]) -> usize
    requires { at + (2 * length bytes.now + 1) ≤ length page.old }
    ensures end { result ≡ at + (2 * length bytes.now + 1) }
    ensures written { take result page.new ≡ take at page.old ++ (encode_lower bytes.now ++ codes "\n") }
{
    let end = put_hex(page, at, bytes);
    put(page, end, b"\n")
}

/// Writes a line by its front and a packet's bytes. The front comes last: a copy waits until the stores that it reads are done, and those of
/// a front that was only just written are done by the time that the bytes stand.
#[inline(always)]
#[tactic(auto, using(crate::proofs::Pieces::overwritten))]
fn put_line(page: &mut [u8], at: usize, front: &[u8], bytes: &[u8]) -> usize
    requires { at + length front.now + (2 * length bytes.now + 1) ≤ length page.old }
    ensures end { result ≡ at + length front.now + (2 * length bytes.now + 1) }
    ensures written { take result page.new ≡ take at page.old ++ front.now ++ (encode_lower bytes.now ++ codes "\n") }
{
    let end = put_bytes(page, at + front.len(), bytes);
    put_over(page, at, front);
    end
}

/// Writes the line of a packet that passed.
fn put_pass(page: &mut [u8], at: usize, front: &Front, len: u32, bytes: &[u8]) -> usize
    requires { at + (128 + 2 * length bytes.now) ≤ length page.old }
    ensures end { result ≤ length page.old }
    ensures written { take result page.new ≡ take at page.old ++ front_text front.now ++ fate_text (fate.Pass len) bytes.now ++ codes "\n" }
{
    let mut room = [0u8; 64];
    let start = pass_front_before(&mut room, 64, front, len);
    put_line(page, at, &room[start..], bytes)
}

/// Writes the line of a packet that was dropped.
#[tactic(auto, using(crate::proofs::Pieces::piece_is))]
fn put_drop(page: &mut [u8], at: usize, front: &Front, cause: &Cause) -> usize
    requires { at + 128 ≤ length page.old }
    ensures end { result ≤ length page.old }
    ensures written { take result page.new ≡ take at page.old ++ front_text front.now ++ codes "drop " ++ cause_text cause.now ++ codes "\n" }
{
    let mut room = [0u8; 256];
    let start = drop_before(&mut room, 128, front, cause);
    put_piece(page, at, &room, start, 128)
}

/// Writes the line of a command, by its parts.
#[tactic(auto, using(crate::proofs::Pieces::piece_is))]
fn put_answer(page: &mut [u8], at: usize, front: &Front, reply: Reply) -> usize
    requires { at + 128 ≤ length page.old }
    ensures end { result ≤ length page.old }
    ensures written { take result page.new ≡ take at page.old ++ front_text front.now ++ reply_text reply ++ codes "\n" }
{
    let mut room = [0u8; 256];
    let start = answer_before(&mut room, 128, front, reply);
    put_piece(page, at, &room, start, 128)
}

/// Writes the line of a packet.
#[tactic(auto, unfolding(crate::specs::Front::front_text))]
pub fn put_packet(page: &mut [u8], at: usize, front: &Front, fate: &Fate, bytes: &[u8]) -> usize
    requires { at + (128 + 2 * length bytes.now) ≤ length page.old }
    ensures end { result ≤ length page.old }
    ensures written { take result page.new ≡ take at page.old ++ line_text (fronted front.now (what.Fate fate.now bytes.now)) }
{
    match fate {
        Fate::Pass { len } => put_pass(page, at, front, *len, bytes),
        Fate::Drop(cause) => put_drop(page, at, front, cause),
    }
}

/// Writes the line of a command.
#[tactic(auto, unfolding(crate::specs::Front::front_text))]
pub fn put_reply(page: &mut [u8], at: usize, front: &Front, reply: Reply) -> usize
    requires { at + 128 ≤ length page.old }
    ensures end { result ≤ length page.old }
    ensures written { take result page.new ≡ take at page.old ++ line_text (fronted front.now (what.Reply reply)) }
{
    put_answer(page, at, front, reply)
}
