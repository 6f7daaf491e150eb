//! A pair, what it is found by, and how long it lives.

ghost use Rattle.std.specs.Prelude.{◌≡◌, ◌<◌, fold};
ghost use Rattle.std.proofs.Common.{rules};
ghost use Rattle.std.specs.Cmp.Rules.{hashing};
ghost use Rattle.vsw_layerflow.specs.declared.pair.Probe.{Probe};
ghost use Rattle.vsw_layerflow.specs.Pairs.{front, back, holds, turned, same_probe, probe};
ghost use Rattle.vsw_layerflow.specs.Life.{life, due, is_over};
ghost use Rattle.vsw_layerflow.specs.Hashed.{probe_input, address_input, addresses_input, after_four, dir_bit, fields_number};

use indexmap::Equivalent;
use std::hash::{Hash, Hasher};
use vsw_base::{Addr, Dir, Ip4, LayerKey, Moment, Set, Track};

/// Microseconds of a second.
const MICROS: u64 = 1_000_000;

/// A flow that a stateful rule let through, and the flow of its replies. A packet of either takes the
/// pair's set for its direction.
#[derive(Clone, Copy, Debug, PartialEq, Eq)]
pub struct Pair {
    /// Counted from 0 in its layer.
    pub number: u32,
    /// The group and the rule that made it.
    pub group: u16,
    pub rule: u16,
    /// The direction of the packet that made it.
    pub dir: Dir,
    pub forward: LayerKey,
    pub forward_set: Set,
    /// The key of replies, which go in the other direction.
    pub reverse: LayerKey,
    pub reverse_set: Set,
    pub state: Track,
    pub last_use: Moment,
}

/// What a packet looks for among the pairs of a layer.
#[derive(Clone, Copy, Debug, PartialEq, Eq)]
pub struct Probe {
    pub dir: Dir,
    pub key: LayerKey,
}

impl Hash for Probe {
    ghost use Rattle.vsw_layerflow.specs.Hashed.{probe_input};

    ghost hash_input = { probe_input };

    ghost respects_eq = { Prim.search (hashing, rules) };

    fn hash<H: Hasher>(&self, state: &mut H) {
        hash_look(self.dir, &self.key, state);
    }
}

/// A probe whose key isn't copied.
#[derive(Clone, Copy, PartialEq, Eq)]
pub(crate) struct Look<'a> {
    pub dir: Dir,
    pub key: &'a LayerKey,
}

impl Hash for Look<'_> {
    ghost use Rattle.vsw_layerflow.specs.Hashed.{probe_input};
    ghost use Rattle.vsw_layerflow.specs.Pairs.{probe};

    ghost hash_input = { λ q. probe_input (probe q.dir q.key.now) };

    ghost respects_eq = { Prim.search (hashing, rules) };

    fn hash<H: Hasher>(&self, state: &mut H) {
        hash_look(self.dir, self.key, state);
    }
}

impl Equivalent<Probe> for Look<'_> {
    ghost use Rattle.vsw_layerflow.specs.contracts.pair.ProbeEq.TheImpl.Laws.{lawful};
    ghost use Rattle.vsw_layerflow.specs.Pairs.{probe};

    ghost equivalent = { λ q. ⟦<Probe as PartialEq>⟧.eq (probe q.dir q.key.now) };

    ghost respects_hash = { Prim.search (hashing, rules) };

    ghost respects_eq = { λ q. lawful.laws.congr (probe q.dir q.key.now) };

    fn equivalent(&self, key: &Probe) -> bool {
        self.dir == key.dir && *self.key == key.key
    }
}

/// Feeds a direction and a key: few words, three where the addresses are of IPv4, as each takes two multiplications.
fn hash_look<H: Hasher>(dir: Dir, key: &LayerKey, state: &mut H)
    ensures { state.new ≡ fold H.write state.old (probe_input (probe dir key.now)) }
{
    state.write_u128(fields_number(dir, key));
    hash_addresses(&key.src, &key.dst, state);
}

/// All of a probe but its addresses, as one number, which `fields_number` of specs/Hashed.antt defines.
fn fields_number(dir: Dir, key: &LayerKey) -> u128
    ensures { result ≡ fields_number (probe dir key.now) }
{
    let LayerKey {
        encaps,
        vni_outer,
        vni_second,
        proto,
        part,
        src_port,
        dst_port,
        ..
    } = *key;
    let vnis = u64::from(vni_outer) * 0x1_0000_0000 + u64::from(vni_second);
    let ports = u32::from(src_port) * 0x1_0000 + u32::from(dst_port);
    let rest = u64::from(dir_bit(dir)) * 0x100_0000_0000_0000
        + u64::from(encaps) * 0x1_0000_0000_0000
        + u64::from(proto) * 0x100_0000_0000
        + u64::from(part) * 0x1_0000_0000
        + u64::from(ports);
    u128::from(vnis) * 0x1_0000_0000_0000_0000 + u128::from(rest)
}

/// The direction as a bit.
fn dir_bit(dir: Dir) -> u8
    ensures value { result ≡ dir_bit dir }
    ensures small { result < 2 }
{
    match dir {
        Dir::Out => 0,
        Dir::In => 1,
    }
}

/// Feeds an address as whole words.
fn hash_address<H: Hasher>(address: &Addr, state: &mut H)
    ensures { state.new ≡ fold H.write state.old (address_input address.now) }
{
    match address {
        Addr::Absent => {}
        Addr::Four(four) => state.write_u64(u64::from(four.number())),
        Addr::Six(six) => state.write_u128(six.number()),
    }
}

/// Feeds an address of IPv4 with the one behind it, two of IPv4 as one word.
fn hash_after_four<H: Hasher>(four: Ip4, other: &Addr, state: &mut H)
    ensures { state.new ≡ fold H.write state.old (after_four four other.now) }
{
    let first = u64::from(four.number());
    match other {
        Addr::Absent => state.write_u64(first),
        Addr::Four(four) => state.write_u64(first * 0x1_0000_0000 + u64::from(four.number())),
        Addr::Six(six) => {
            state.write_u64(first);
            state.write_u128(six.number());
        }
    }
}

/// Feeds both addresses.
fn hash_addresses<H: Hasher>(src: &Addr, dst: &Addr, state: &mut H)
    ensures { state.new ≡ fold H.write state.old (addresses_input src.now dst.now) }
{
    match src {
        Addr::Absent => hash_address(dst, state),
        Addr::Four(four) => hash_after_four(*four, dst, state),
        Addr::Six(six) => {
            state.write_u128(six.number());
            hash_address(dst, state);
        }
    }
}

impl Probe {
    /// A packet of this direction and key.
    pub fn of(dir: Dir, key: &LayerKey) -> Probe
        ensures { result ≡ probe dir key.now }
    {
        Probe {
            dir,
            key: LayerKey {
                encaps: key.encaps,
                vni_outer: key.vni_outer,
                vni_second: key.vni_second,
                src: key.src,
                dst: key.dst,
                proto: key.proto,
                part: key.part,
                src_port: key.src_port,
                dst_port: key.dst_port,
            },
        }
    }
}

/// The other direction.
pub(crate) fn turned(dir: Dir) -> Dir
    ensures { result ≡ turned dir }
{
    match dir {
        Dir::Out => Dir::In,
        Dir::In => Dir::Out,
    }
}

/// The life of a pair in this state, in microseconds, where the layer's times are in seconds.
pub fn life(state: Track, idle: u32, linger: u32) -> u64
    ensures { result ≡ life state idle linger }
{
    match state {
        Track::Closed => u64::from(linger) * MICROS,
        _ => u64::from(idle) * MICROS,
    }
}

/// The moment after which a packet renews a last use, where the pair has this state. The layer's times
/// are in seconds.
pub fn due(last: Moment, state: Track, idle: u32, linger: u32) -> Moment
    ensures { result ≡ due last state idle linger }
{
    let quarter = life(state, idle, linger) / 4;
    Moment::of(last.micros().saturating_add(quarter))
}

impl Pair {
    /// What a packet of the pair's own direction looks for.
    pub fn front(&self) -> Probe
        ensures { result ≡ front self.now }
    {
        Probe::of(self.dir, &self.forward)
    }

    /// What a reply looks for.
    pub fn back(&self) -> Probe
        ensures { result ≡ back self.now }
    {
        Probe::of(turned(self.dir), &self.reverse)
    }

    /// Whether the pair's life has ended by `now`. The layer's times are in seconds.
    pub fn is_over(&self, now: Moment, idle: u32, linger: u32) -> bool
        ensures { result ≡ is_over now idle linger self.now }
    {
        let life = life(self.state, idle, linger);
        self.last_use.micros().saturating_add(life) <= now.micros()
    }
}

/// Whether the pair is found by this.
pub(crate) fn is_held(probe: &Probe, pair: &Pair) -> bool
    ensures { result ≡ holds probe.now pair.now }
{
    probes_agree();
    pair.front() == *probe || pair.back() == *probe
}

/// Equal probes are those of one direction and one key.
pub fn probes_agree()
    ensures { (a b : Probe) → ⟦<Probe as PartialEq>⟧.eq a b ≡ same_probe a b }
{}
