//! The pair that a stateful rule wants.

ghost use Rattle.std.specs.Prelude.{◌≡◌, List, false};
ghost use Rattle.vsw_rule.specs.Edit.{edited};
ghost use Rattle.vsw_header.specs.Key.{key_from};
ghost use Rattle.vsw_base.specs.Shape.{destination_of, source_of};
ghost use Rattle.vsw_rule.specs.Field as field;
ghost use Rattle.vsw_base.specs.declared.header.Header.{Header};
ghost use Rattle.vsw_walk.specs.Wanted as spec;

use vsw_base::{Control, Dir, Header, Ip4, Ip6, LayerKey, Mac, Moment, Set, Stack, Track};
use vsw_header::mirror;
use vsw_layerflow::{Pair, opening};
use vsw_rule::{Action, Rule};

/// The protocol number of TCP.
const TCP: u8 = 6;

/// Destination and source of inner Ethernet.
fn macs(headers: &[Header]) -> (Option<Mac>, Option<Mac>)
    ensures { result ≡ (destination_of headers.now, source_of headers.now) }
{
    match headers {
        [Header::Ether { dst, src, .. }, ..] => (Some(*dst), Some(*src)),
        [
            Header::Ip { .. } | Header::Vxlan { .. } | Header::Ports { .. } | Header::Six { .. },
            ..
        ]
        | [] => (None, None),
    }
}

/// Source and destination of inner IPv4, and those of inner IPv6.
fn addresses(headers: &[Header]) -> (Option<Ip4>, Option<Ip4>, Option<Ip6>, Option<Ip6>)
    ensures { result ≡ (field.src_ip headers.now, field.dst_ip headers.now, field.src_ip6 headers.now, field.dst_ip6 headers.now) }
{
    match headers {
        [Header::Ether { .. }, Header::Ip { src, dst, .. }, ..] => {
            (Some(*src), Some(*dst), None, None)
        }
        [Header::Ether { .. }, Header::Six { src, dst, .. }, ..] => {
            (None, None, Some(*src), Some(*dst))
        }
        [
            Header::Ether { .. },
            Header::Ether { .. } | Header::Vxlan { .. } | Header::Ports { .. },
            ..
        ]
        | [Header::Ether { .. }]
        | [
            Header::Ip { .. } | Header::Vxlan { .. } | Header::Ports { .. } | Header::Six { .. },
            ..
        ]
        | [] => (None, None, None, None),
    }
}

/// Source and destination port of inner headers.
fn ports(headers: &[Header]) -> (Option<u16>, Option<u16>)
    ensures { result ≡ (field.src_port headers.now, field.dst_port headers.now) }
{
    match headers {
        [_, _, Header::Ports { src, dst, .. }, ..] => (Some(*src), Some(*dst)),
        [
            _,
            _,
            Header::Ether { .. } | Header::Ip { .. } | Header::Vxlan { .. } | Header::Six { .. },
            ..
        ]
        | [_, _]
        | [_]
        | [] => (None, None),
    }
}

/// What replies get written, where `set` is written into this stack: for each field that is set and is
/// there, the mirrored field gets the value from before.
#[inline(always)]
pub fn reverse_set(set: &Set, stack: &Stack) -> Set
    ensures { result ≡ spec.reverse_set_of set.now stack.now }
{
    let headers = stack.inner();
    let (dst_mac, src_mac) = macs(headers);
    let (src_ip, dst_ip, src_ip6, dst_ip6) = addresses(headers);
    let (src_port, dst_port) = ports(headers);
    Set {
        dst_mac: set.src_mac.and(src_mac),
        src_mac: set.dst_mac.and(dst_mac),
        src_ip: set.dst_ip.and(dst_ip),
        dst_ip: set.src_ip.and(src_ip),
        src_port: set.dst_port.and(dst_port),
        dst_port: set.src_port.and(src_port),
        src_ip6: set.dst_ip6.and(dst_ip6),
        dst_ip6: set.src_ip6.and(src_ip6),
    }
}

/// Nothing is written.
#[inline(always)]
fn nothing() -> Set
    ensures { result ≡ spec.nothing }
{
    Set {
        dst_mac: None,
        src_mac: None,
        src_ip: None,
        dst_ip: None,
        src_port: None,
        dst_port: None,
        src_ip6: None,
        dst_ip6: None,
    }
}

/// What the action writes into inner headers.
#[inline(always)]
pub fn set_of(action: &Action) -> Set
    ensures { result ≡ spec.set_of action.now }
{
    match action {
        Action::Edit { set, .. } => *set,
        Action::Allow | Action::Drop => nothing(),
    }
}

/// The state of a pair that a packet of this key makes: fragments and other protocols than TCP have none
/// that moves.
fn first_state(key: &LayerKey, control: Control, dir: Dir) -> Track
    ensures { result ≡ spec.first_state key.now control dir }
{
    if key.proto == TCP && !key.part {
        opening(control, dir)
    } else {
        Track::Plain
    }
}

/// The pair of this number that a stateful rule of a group wants for a packet: of its key as it meets the
/// layer, what replies get written, and its key as it goes on.
#[inline(always)]
pub fn wanted_pair(
    number: u32,
    group: u16,
    rule: &Rule,
    dir: Dir,
    control: Control,
    moment: Moment,
    met: &LayerKey,
    back: &Set,
    left: &LayerKey,
) -> Pair
    ensures { (hs : List Header) → met.now ≡ key_from hs → back.now ≡ spec.reverse_set_of (spec.set_of rule.now.action) hs → left.now ≡ key_from (edited rule.now.action hs) → result ≡ spec.wanted_pair number dir control moment hs group rule.now }
{
    Pair {
        number,
        group,
        rule: rule.number,
        dir,
        forward: *met,
        forward_set: set_of(&rule.action),
        reverse: mirror(left),
        reverse_set: *back,
        state: first_state(met, control, dir),
        last_use: moment,
    }
}

/// Whether the action edits packets. Else nothing is written, and the stack stays.
#[inline(always)]
pub(crate) fn edits(action: &Action) -> bool
    ensures set { result ≡ false → spec.set_of action.now ≡ spec.nothing }
    ensures stack { result ≡ false → (hs : List Header) → edited action.now hs ≡ hs }
{
    match action {
        Action::Edit { .. } => true,
        Action::Allow | Action::Drop => false,
    }
}

/// The pair of this number that a stateful rule of a group wants for a packet of this key that it doesn't edit.
#[inline(always)]
pub(crate) fn plain_pair(
    number: u32,
    group: u16,
    rule: &Rule,
    dir: Dir,
    control: Control,
    moment: Moment,
    met: &LayerKey,
) -> Pair
    requires { spec.set_of rule.now.action ≡ spec.nothing }
    ensures { (hs : List Header) → met.now ≡ key_from hs → edited rule.now.action hs ≡ hs → result ≡ spec.wanted_pair number dir control moment hs group rule.now }
{
    Pair {
        number,
        group,
        rule: rule.number,
        dir,
        forward: *met,
        forward_set: nothing(),
        reverse: mirror(met),
        reverse_set: nothing(),
        state: first_state(met, control, dir),
        last_use: moment,
    }
}
