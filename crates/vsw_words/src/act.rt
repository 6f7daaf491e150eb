//! The words of an act.

ghost use Rattle.std.specs.Prelude.{◌≡◌, ◌<◌, ◌^◌, ◌==◌, ◌&&◌, None, Some, is_some, true};
ghost use Rattle.vsw_base.specs.Fits.{IsFit};
ghost use Rattle.vsw_words.specs.Reading as reading;
ghost use Rattle.vsw_words.specs.Reading.{IsBelow, IsActFit, IsRanged};
ghost use Rattle.vsw_words.specs.Row as spec;
ghost use Rattle.vsw_transpose.specs.Apply.{or_old};
ghost use Rattle.vsw_transpose.specs.declared.act.Act.TheVariants.{Push, Modify};
ghost use Rattle.vsw_transpose.specs.declared.act.Change.TheVariants as of;

use vsw_base::{Header, Ip4, Ip6, Mac};
use vsw_transpose::{Act, Change};

/// The destination, where a change writes both addresses of IPv6. It has an act of its own in a row.
#[inline(always)]
pub(crate) fn second_half(act: &Act) -> Option<Ip6>
    ensures { result ≡ spec.second_half act.now }
{
    match act {
        Act::Push(_) => None,
        Act::Pop => None,
        Act::Modify(change) => second_address(change),
        Act::Ignore => None,
    }
}

#[inline(always)]
fn second_address(change: &Change) -> Option<Ip6>
    ensures { result ≡ spec.second_half (Modify change.now) }
{
    match change {
        Change::Ether { .. } => None,
        Change::Ip { .. } => None,
        Change::Ports { .. } => None,
        Change::Six { src, dst } => { if src.is_some() { *dst } else { None } }
    }
}

/// The words of the second half.
#[inline(always)]
pub(crate) fn second_words(dst: Ip6) -> [u64; 3]
    ensures { result ≡ spec.act_words (Modify (of.Six None (Some dst))) }
{
    six_words(10, false, dst)
}

/// The three words of an act: its first word, and its two fields.
#[inline(always)]
pub(crate) fn act_words(act: &Act) -> [u64; 3]
    ensures words { result ≡ spec.act_words act.now }
    ensures ranges { IsRanged act.now }
{
    match act {
        Act::Push(header) => pushed(header),
        Act::Pop => [head(4, false, false, 0), 0, 0],
        Act::Modify(change) => modified(change),
        Act::Ignore => [head(8, false, false, 0), 0, 0],
    }
}

/// An act's first word: its kind, whether its fields are there, and more.
#[inline(always)]
fn head(kind: u64, first: bool, second: bool, more: u64) -> u64
    requires kind { kind < 16 }
    requires more { more < 2 ^ 32 }
    ensures { result ≡ spec.act_head kind first second more }
{
    kind + 16 * u64::from(first) + 32 * u64::from(second) + 0x1_0000 * more
}

#[inline(always)]
fn pushed(header: &Header) -> [u64; 3]
    ensures words { result ≡ spec.act_words (Push header.now) }
    ensures ranges { IsRanged (Push header.now) }
{
    match header {
        Header::Ether { dst, src, kind } => {
            [
                head(1, true, true, u64::from(*kind)),
                dst.number(),
                src.number(),
            ]
        }
        Header::Ip {
            src,
            dst,
            proto,
            ..
        } => {
            let (src, dst) = (u64::from(src.number()), u64::from(dst.number()));
            [head(2, true, true, u64::from(*proto)), src, dst]
        }
        Header::Vxlan { vni } => [head(3, false, false, u64::from(*vni)), 0, 0],
        Header::Ports { proto, src, dst } => {
            let _ranges = (*proto, *src, *dst);
            [0, 0, 0]
        }
        Header::Six { src, dst, proto } => {
            let _ranges = (src.number(), dst.number(), *proto);
            [0, 0, 0]
        }
    }
}

#[inline(always)]
fn modified(change: &Change) -> [u64; 3]
    ensures words { result ≡ spec.act_words (Modify change.now) }
    ensures ranges { IsRanged (Modify change.now) }
{
    match change {
        Change::Ether { dst, src } => {
            [
                head(5, dst.is_some(), src.is_some(), 0),
                mac_word(dst),
                mac_word(src),
            ]
        }
        Change::Ip { src, dst } => {
            [
                head(6, src.is_some(), dst.is_some(), 0),
                ip_word(src),
                ip_word(dst),
            ]
        }
        Change::Ports { src, dst } => {
            [
                head(7, src.is_some(), dst.is_some(), 0),
                port_word(src),
                port_word(dst),
            ]
        }
        Change::Six { src, dst } => six_change(src, dst),
    }
}

/// The words of a change of IPv6, or of its first half.
#[inline(always)]
fn six_change(src: &Option<Ip6>, dst: &Option<Ip6>) -> [u64; 3]
    ensures words { result ≡ spec.act_words (Modify (of.Six src.now dst.now)) }
    ensures ranges { IsBelow (2 ^ 128) src.now × IsBelow (2 ^ 128) dst.now }
{
    note_range(src);
    note_range(dst);
    match src {
        Some(src) => six_words(9, true, *src),
        None => destination_words(dst),
    }
}

#[inline(always)]
fn destination_words(dst: &Option<Ip6>) -> [u64; 3]
    ensures { result ≡ spec.act_words (Modify (of.Six None dst.now)) }
{
    match dst {
        Some(dst) => six_words(10, false, *dst),
        None => [0, 0, 0],
    }
}

/// Says that an address lies in the range of its type.
#[inline(always)]
fn note_range(address: &Option<Ip6>)
    ensures { IsBelow (2 ^ 128) address.now }
{
    if let Some(address) = address {
        let _ = address.number();
    }
}

/// The words of one address of IPv6, whose halves stand in the place of both fields.
#[inline(always)]
fn six_words(kind: u64, first: bool, address: Ip6) -> [u64; 3]
    requires { kind < 16 }
    ensures { result ≡ spec.six_words kind first address }
{
    let number = address.number();
    [
        head(kind, first, !first, 0),
        (number >> 64) as u64,
        (number % 0x1_0000_0000_0000_0000) as u64,
    ]
}

#[inline(always)]
fn mac_word(mac: &Option<Mac>) -> u64
    ensures value { result ≡ spec.or_zero mac.now }
    ensures below { IsBelow (2 ^ 48) mac.now }
{
    match mac {
        None => 0,
        Some(mac) => mac.number(),
    }
}

#[inline(always)]
fn ip_word(address: &Option<Ip4>) -> u64
    ensures value { result ≡ spec.or_zero address.now }
    ensures below { IsBelow (2 ^ 32) address.now }
{
    match address {
        None => 0,
        Some(address) => u64::from(address.number()),
    }
}

#[inline(always)]
fn port_word(port: &Option<u16>) -> u64
    ensures value { result ≡ spec.or_zero port.now }
    ensures below { IsBelow (2 ^ 16) port.now }
{
    match port {
        None => 0,
        Some(port) => u64::from(*port),
    }
}

/// The source and the destination whose words these are, as one act: see `is_pair`.
#[inline(always)]
pub(crate) fn joined_act(
    head: u64,
    first: u64,
    second: u64,
    count: u64,
    behind: &[u64],
) -> Option<Act>
    ensures { result ≡ reading.both_of (reading.src_of head first second) (reading.dst_ahead count behind.now) }
{
    if is_pair(head % 16, count, behind) {
        Some(Act::Modify(both(first, second, count, behind)))
    } else {
        None
    }
}

/// Whether words of this kind are of a lone source of IPv6, and those of the first of so many acts behind them of a lone
/// destination.
#[inline(always)]
pub(crate) fn is_pair(kind: u64, count: u64, behind: &[u64]) -> bool
    ensures { result ≡ ((kind == 9) && is_some (reading.dst_ahead count behind.now)) }
{
    kind == 9 && dst_ahead(count, behind).is_some()
}

/// Both as one change.
#[inline(always)]
pub(crate) fn both(first: u64, second: u64, count: u64, behind: &[u64]) -> Change
    ensures { result ≡ of.Six (Some (reading.ip6 first second)) (reading.dst_ahead count behind.now) }
{
    Change::Six {
        src: Some(ip6(first, second)),
        dst: dst_ahead(count, behind),
    }
}

/// The destination, where the first of so many acts is a lone one.
#[inline(always)]
fn dst_ahead(count: u64, words: &[u64]) -> Option<Ip6>
    ensures { result ≡ reading.dst_ahead count words.now }
{
    if count == 0 {
        return None;
    }
    match words {
        [head, first, second, ..] => dst_of(*head, *first, *second),
        _ => None,
    }
}

#[inline(always)]
fn dst_of(head: u64, first: u64, second: u64) -> Option<Ip6>
    ensures { result ≡ reading.dst_of head first second }
{
    if head % 16 == 10 {
        Some(ip6(first, second))
    } else {
        None
    }
}

/// Whether three words are an act's.
#[inline(always)]
#[tactic(auto, unfolding(crate::specs::Reading::read_act))]
pub(crate) fn is_act(head: u64, first: u64, second: u64) -> bool
    ensures { result ≡ is_some (reading.read_act head first second) }
{
    match act_by(head, first, second) {
        None => false,
        Some(act) => is_of(&act, head, first, second),
    }
}

/// The act that three words are of. They are an act's.
#[inline(always)]
#[tactic(auto, unfolding(crate::specs::Reading::read_act))]
pub(crate) fn act_of(head: u64, first: u64, second: u64) -> Act
    ensures { is_some (reading.read_act head first second) ≡ true → reading.read_act head first second ≡ Some result }
{
    match act_by(head, first, second) {
        None => Act::Ignore,
        Some(act) => act,
    }
}

/// Whether the words are the act's.
#[inline(always)]
fn is_of(act: &Act, head: u64, first: u64, second: u64) -> bool
    ensures { result ≡ reading.is_of act.now head first second }
{
    let words = act_words(act);
    words[0] == head && words[1] == first && words[2] == second
}

/// Some act, or none: of words that are an act's this act.
#[inline(always)]
fn act_by(head: u64, first: u64, second: u64) -> Option<Act>
    ensures { result ≡ reading.act_by head first second }
{
    let kind = head % 16;
    if kind == 1 {
        Some(Act::Push(ether_by(head, first, second)))
    } else if kind == 2 {
        Some(Act::Push(ip_by(head, first, second)))
    } else if kind == 3 {
        Some(Act::Push(vxlan_by(head)))
    } else if kind == 4 {
        Some(Act::Pop)
    } else if kind == 5 {
        Some(Act::Modify(ether_change(head, first, second)))
    } else if kind == 6 {
        Some(Act::Modify(ip_change(head, first, second)))
    } else if kind == 7 {
        Some(Act::Modify(ports_change(head, first, second)))
    } else if kind == 8 {
        Some(Act::Ignore)
    } else if kind == 9 {
        Some(Act::Modify(Change::Six {
            src: Some(ip6(first, second)),
            dst: None,
        }))
    } else if kind == 10 {
        Some(Act::Modify(Change::Six {
            src: None,
            dst: Some(ip6(first, second)),
        }))
    } else {
        None
    }
}

/// The Ethernet header that words push.
#[inline(always)]
pub(crate) fn ether_by(head: u64, first: u64, second: u64) -> Header
    ensures { result ≡ reading.ether_by head first second }
{
    Header::Ether {
        dst: mac(first),
        src: mac(second),
        kind: (head / 0x1_0000 % 0x1_0000) as u16,
    }
}

/// The IPv4 header that words push.
#[inline(always)]
pub(crate) fn ip_by(head: u64, first: u64, second: u64) -> Header
    ensures { result ≡ reading.ip_by head first second }
{
    Header::Ip {
        src: ip4(first),
        dst: ip4(second),
        proto: (head / 0x1_0000 % 256) as u8,
        part: false,
    }
}

/// The VXLAN header that words push.
#[inline(always)]
pub(crate) fn vxlan_by(head: u64) -> Header
    ensures { result ≡ reading.vxlan_by head }
{
    Header::Vxlan {
        vni: (head / 0x1_0000 % 0x100_0000) as u32,
    }
}

/// The change of an Ethernet header.
#[inline(always)]
pub(crate) fn ether_change(head: u64, first: u64, second: u64) -> Change
    ensures { result ≡ reading.ether_change head first second }
{
    Change::Ether {
        dst: if has_first(head) {
            Some(mac(first))
        } else {
            None
        },
        src: if has_second(head) {
            Some(mac(second))
        } else {
            None
        },
    }
}

/// The change of an IPv4 header.
#[inline(always)]
pub(crate) fn ip_change(head: u64, first: u64, second: u64) -> Change
    ensures { result ≡ reading.ip_change head first second }
{
    Change::Ip {
        src: if has_first(head) {
            Some(ip4(first))
        } else {
            None
        },
        dst: if has_second(head) {
            Some(ip4(second))
        } else {
            None
        },
    }
}

/// The change of ports.
#[inline(always)]
pub(crate) fn ports_change(head: u64, first: u64, second: u64) -> Change
    ensures { result ≡ reading.ports_change head first second }
{
    Change::Ports {
        src: if has_first(head) {
            Some(port(first))
        } else {
            None
        },
        dst: if has_second(head) {
            Some(port(second))
        } else {
            None
        },
    }
}

#[inline(always)]
pub(crate) fn has_first(head: u64) -> bool
    ensures { result ≡ reading.has_first head }
{
    head / 16 % 2 == 1
}

#[inline(always)]
pub(crate) fn has_second(head: u64) -> bool
    ensures { result ≡ reading.has_second head }
{
    head / 32 % 2 == 1
}

/// The address in place of an old one, if it is there.
#[inline(always)]
pub(crate) fn mac_over(there: bool, word: u64, old: Mac) -> Mac
    ensures { result ≡ or_old (reading.field there (reading.mac word)) old }
{
    if there { mac(word) } else { old }
}

#[inline(always)]
pub(crate) fn ip4_over(there: bool, word: u64, old: Ip4) -> Ip4
    ensures { result ≡ or_old (reading.field there (reading.ip4 word)) old }
{
    if there { ip4(word) } else { old }
}

#[inline(always)]
pub(crate) fn port_over(there: bool, word: u64, old: u16) -> u16
    ensures { result ≡ or_old (reading.field there (reading.port word)) old }
{
    if there { port(word) } else { old }
}

#[inline(always)]
fn mac(word: u64) -> Mac
    ensures { result ≡ reading.mac word }
{
    Mac::of(word % 0x1_0000_0000_0000)
}

#[inline(always)]
fn ip4(word: u64) -> Ip4
    ensures { result ≡ reading.ip4 word }
{
    Ip4::of((word % 0x1_0000_0000) as u32)
}

/// An address of IPv6 of its two halves.
#[inline(always)]
pub(crate) fn ip6(high: u64, low: u64) -> Ip6
    ensures { result ≡ reading.ip6 high low }
{
    Ip6::of(u128::from(high) * 0x1_0000_0000_0000_0000 + u128::from(low))
}

#[inline(always)]
fn port(word: u64) -> u16
    ensures { result ≡ reading.port word }
{
    (word % 0x1_0000) as u16
}
