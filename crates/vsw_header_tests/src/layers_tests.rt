//! What two layers do to frames, as one transposition: the actions are composed, and the frames written.

ghost use Rattle.std.specs.Prelude.{◌≤◌, ◌<◌, ◌^◌, IsTrue, length};
ghost use Rattle.vsw_rule.specs.Edit.{goes_on};
ghost use Rattle.vsw_rule.specs.Match.{can_do};

use crate::whole_frames::{DELIVERED, OLD, QUERY, REPLY, ROOM, SENT, begins};
use vsw_base::{Ip4, Mac, Outer, Set, Stack};
use vsw_frame::{FrameRoom, read_frame, rewrite};
use vsw_rule::{Action, act_of, compose};
use vsw_transpose::Transposition;

fn nothing() -> Set {
    Set {
        dst_mac: None,
        src_mac: None,
        src_ip: None,
        dst_ip: None,
        src_port: None,
        dst_port: None,
        src_ip6: None,
        dst_ip6: None,
    }
}

/// The source becomes port 40000 of 192.0.2.7.
fn hide_source() -> Action {
    Action::Edit {
        decap: false,
        set: Set {
            src_ip: Some(Ip4::of(0xc000_0207)),
            src_port: Some(40_000),
            ..nothing()
        },
        encap: None,
    }
}

/// The destination becomes port 1234 of 10.0.0.5.
fn restore_destination() -> Action {
    Action::Edit {
        decap: false,
        set: Set {
            dst_ip: Some(Ip4::of(0x0a00_0005)),
            dst_port: Some(1234),
            ..nothing()
        },
        encap: None,
    }
}

/// The frame is put in network 5001, from 172.16.0.1 to 172.16.0.2.
fn put_in_network() -> Action {
    Action::Edit {
        decap: false,
        set: nothing(),
        encap: Some(Outer {
            dst_mac: Mac::of(0x0200_0000_0a02),
            src_mac: Mac::of(0x0200_0000_0a01),
            src_ip: Ip4::of(0xac10_0001),
            dst_ip: Ip4::of(0xac10_0002),
            vni: 5001,
        }),
    }
}

fn take_out() -> Action {
    Action::Edit {
        decap: true,
        set: nothing(),
        encap: None,
    }
}

/// Whether the action can be done to the stack.
fn is_possible(action: &Action, stack: &Stack) -> bool
    ensures goes_on { IsTrue result → IsTrue (goes_on action.now) }
    ensures can { IsTrue result → IsTrue (can_do action.now stack.now) }
{
    match action {
        Action::Allow => true,
        Action::Drop => false,
        Action::Edit { decap: true, .. } => stack.encaps() > 0,
        Action::Edit { encap: Some(_), .. } => stack.encaps() < 2,
        Action::Edit { .. } => true,
    }
}

/// What two actions do, one after the other, if they can be done.
fn in_turn(first: &Action, second: &Action, stack: &Stack) -> Option<Transposition> {
    if !is_possible(first, stack) {
        return None;
    }
    let one = act_of(first, stack);
    let between = one.apply(stack);
    if !is_possible(second, &between) {
        return None;
    }
    let two = act_of(second, &between);
    Some(compose(&one, &two, stack))
}

/// Writes the frame as two actions in turn make it, and tells how many bytes and kept encapsulations
/// there are.
fn write(out: &mut [u8], bytes: &[u8], first: &Action, second: &Action) -> Option<(usize, u8)>
    requires { 65700 ≤ length out.old }
{
    let mut room = FrameRoom::new();
    let frame = match read_frame(bytes, &mut room) {
        Ok(frame) => frame,
        Err(_) => return None,
    };
    let by = in_turn(first, second, frame.stack())?;
    if !by.fits(frame.stack()) {
        return None;
    }
    match rewrite(&frame, &by, out) {
        Ok(count) => Some((count, by.kept())),
        Err(_) => None,
    }
}

/// Whether the frame becomes these bytes at the front of `out`, no encapsulation of it is kept, and what
/// stands behind them is left.
fn becomes(bytes: &[u8], first: &Action, second: &Action, expected: &[u8]) -> bool {
    let mut out = [OLD; ROOM];
    write(&mut out, bytes, first, second) == Some((expected.len(), 0)) && begins(&out, expected)
}

#[test]
fn a_query_is_edited_by_one_layer_and_put_in_a_network_by_the_next(rt: HostRuntime) {
    assert!(rt; becomes(&QUERY, &hide_source(), &put_in_network(), &SENT));
}

#[test]
fn the_answer_is_taken_out_by_one_layer_and_edited_by_the_next(rt: HostRuntime) {
    assert!(rt; becomes(&REPLY, &take_out(), &restore_destination(), &DELIVERED));
}
