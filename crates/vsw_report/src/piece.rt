//! A piece of a line, written from its end to its front: the length of a number needn't be known.

ghost use Rattle.std.specs.Prelude.{◌≡◌, ◌≤◌, ◌+◌, ◌++◌, OnOk, decimal, codes, length, drop};
ghost use Rattle.vsw_report.specs.Front.{front_text};
ghost use Rattle.vsw_report.specs.Print.{by_text, cause_text, dir_text, layer_text, mark_text, reply_text};

use crate::told::By;
use itoa::write_digits;
use vsw_base::{Cause, Dir};
use vsw_policy::Reply;

/// What stands in front of each line.
#[derive(Clone, Copy)]
pub struct Front {
    pub by: By,
    pub item: u32,
    pub entry: bool,
    pub count: u32,
}

/// Writes bytes that end at `end`, and answers where they begin.
#[inline(always)]
pub fn before(room: &mut [u8], end: usize, bytes: &[u8]) -> usize
    requires { (length bytes.now ≤ end) × (end ≤ length room.old) }
    ensures start { result + length bytes.now ≡ end }
    ensures written { drop result room.new ≡ bytes.now ++ drop end room.old }
{
    let start = end - bytes.len();
    room[start..end].copy_from_slice(bytes);
    start
}

/// Writes a number in decimal that ends at `end`, and answers where it begins.
#[inline(always)]
pub fn number_before(room: &mut [u8], end: usize, n: u32) -> usize
    requires { (10 ≤ end) × (end ≤ length room.old) }
    ensures start { (result ≤ end) × (end ≤ result + 10) }
    ensures written { drop result room.new ≡ decimal n ++ drop end room.old }
{
    write_digits(u64::from(n), room, end)
}

/// Writes two numbers with a slash between.
#[tactic(auto, unfolding(crate::specs::Print::layer_text))]
fn layer_before(room: &mut [u8], end: usize, controller: u16, layer: u16) -> usize
    requires { (21 ≤ end) × (end ≤ length room.old) }
    ensures start { (result ≤ end) × (end ≤ result + 21) }
    ensures written { drop result room.new ≡ layer_text controller layer ++ drop end room.old }
{
    let at = number_before(room, end, u32::from(layer));
    let at = before(room, at, b"/");
    number_before(room, at, u32::from(controller))
}

#[tactic(auto, unfolding(crate::specs::Print::dir_text))]
fn side_before(room: &mut [u8], end: usize, dir: Dir) -> usize
    requires { (4 ≤ end) × (end ≤ length room.old) }
    ensures start { (result ≤ end) × (end ≤ result + 4) }
    ensures written { drop result room.new ≡ dir_text dir ++ drop end room.old }
{
    match dir {
        Dir::Out => before(room, end, b" out"),
        Dir::In => before(room, end, b" in"),
    }
}

/// Writes why a packet was dropped.
pub fn cause_before(room: &mut [u8], end: usize, cause: &Cause) -> usize
    requires { (48 ≤ end) × (end ≤ length room.old) }
    ensures start { (result ≤ end) × (end ≤ result + 48) }
    ensures written { drop result room.new ≡ cause_text cause.now ++ drop end room.old }
{
    match *cause {
        Cause::Rule {
            controller,
            layer,
            group,
            rule,
        } => {
            let at = layer_before(room, end, group, rule);
            let at = before(room, at, b"/");
            let at = layer_before(room, at, controller, layer);
            before(room, at, b"rule ")
        }
        Cause::Default {
            controller,
            layer,
            dir,
        } => {
            let at = side_before(room, end, dir);
            let at = layer_before(room, at, controller, layer);
            before(room, at, b"default ")
        }
        Cause::Long => before(room, end, b"long"),
        Cause::Full { controller, layer } => {
            let at = layer_before(room, end, controller, layer);
            before(room, at, b"full ")
        }
        Cause::Taken {
            controller,
            layer,
            pair,
        } => {
            let at = number_before(room, end, pair);
            let at = before(room, at, b" ");
            let at = layer_before(room, at, controller, layer);
            before(room, at, b"taken ")
        }
        Cause::Memory => before(room, end, b"memory"),
    }
}

/// Writes the reply to a command.
pub fn reply_before(room: &mut [u8], end: usize, reply: Reply) -> usize
    requires { (48 ≤ end) × (end ≤ length room.old) }
    ensures start { (result ≤ end) × (end ≤ result + 48) }
    ensures written { drop result room.new ≡ reply_text reply ++ drop end room.old }
{
    match reply {
        Reply::Ok => before(room, end, b"ok"),
        Reply::Refused(why) => {
            let at = before(room, end, why.name().as_bytes());
            let at = before(room, at, b" ");
            let at = number_before(room, at, u32::from(why.number()));
            before(room, at, b"refused ")
        }
    }
}

/// What stands before a count.
fn mark(entry: bool) -> &'static [u8]
    ensures { result.now ≡ mark_text entry }
{
    if entry { b" +" } else { b" @" }
}

/// Writes who brought it.
#[inline(always)]
fn by_before(room: &mut [u8], end: usize, by: By) -> usize
    requires { (11 ≤ end) × (end ≤ length room.old) }
    ensures start { result ≤ end }
    ensures written { drop result room.new ≡ by_text by ++ drop end room.old }
{
    match by {
        By::Worker(n) => {
            let at = number_before(room, end, n);
            before(room, at, b"w")
        }
        By::Controller(n) => {
            let at = number_before(room, end, u32::from(n));
            before(room, at, b"c")
        }
    }
}

/// Writes a line's front, up to what became of it.
#[tactic(auto, unfolding(crate::specs::Front::front_text))]
pub fn front_before(room: &mut [u8], end: usize, front: &Front) -> usize
    requires { (40 ≤ end) × (end ≤ length room.old) }
    ensures start { result ≤ end }
    ensures written { drop result room.new ≡ front_text front.now ++ drop end room.old }
{
    let at = before(room, end, b" ");
    let at = number_before(room, at, front.count);
    let at = before(room, at, mark(front.entry));
    let at = number_before(room, at, front.item);
    let at = before(room, at, b" ");
    by_before(room, at, front.by)
}

/// Writes a line's front, with the length of a pass.
#[inline(always)]
pub fn pass_front_before(room: &mut [u8], end: usize, front: &Front, len: u32) -> usize
    requires { (64 ≤ end) × (end ≤ length room.old) }
    ensures start { result ≤ end }
    ensures written { drop result room.new ≡ (front_text front.now ++ codes "pass " ++ decimal len ++ codes " ") ++ drop end room.old }
{
    let at = before(room, end, b" ");
    let at = number_before(room, at, len);
    let at = before(room, at, b"pass ");
    front_before(room, at, front)
}

/// Writes the whole line of a packet that was dropped.
pub fn drop_before(room: &mut [u8], end: usize, front: &Front, cause: &Cause) -> usize
    requires { (128 ≤ end) × (end ≤ length room.old) }
    ensures start { result ≤ end }
    ensures written { drop result room.new ≡ (front_text front.now ++ codes "drop " ++ cause_text cause.now ++ codes "\n") ++ drop end room.old }
{
    let at = before(room, end, b"\n");
    let at = cause_before(room, at, cause);
    let at = before(room, at, b"drop ");
    front_before(room, at, front)
}

/// Writes the whole line of a command.
pub fn answer_before(room: &mut [u8], end: usize, front: &Front, reply: Reply) -> usize
    requires { (128 ≤ end) × (end ≤ length room.old) }
    ensures start { result ≤ end }
    ensures written { drop result room.new ≡ (front_text front.now ++ reply_text reply ++ codes "\n") ++ drop end room.old }
{
    let at = before(room, end, b"\n");
    let at = reply_before(room, at, reply);
    front_before(room, at, front)
}
