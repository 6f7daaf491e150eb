//! At which place of a table the rows of a spot stand.
//!
//! The words of a spot, of 32 bits each, are multiplied by factors that strangers don't know, and summed. Of the sum's 64
//! bits the upper half tells the place. For any two spots that differ few factors tell the same place (multilinear hashing:
//! Lemire and Kaser, Strongly universal string hashing is fast, 2014). Who makes rows meet at one place nevertheless has
//! its own packets walk, and no more.

ghost use Rattle.std.specs.Prelude.{◌≡◌, ◌≤◌, ◌%◌, ◌^◌};
ghost use Rattle.vsw_flows.specs.Mixing as spec;

use crate::spot::Spot;
use vsw_base::{Addr, Dir, LayerKey};
use vsw_layerflow::{HashSeed, Probe};

/// Factors of an address, first word first.
#[derive(Clone, Copy)]
pub struct AddressFactors {
    pub first: u64,
    pub second: u64,
    pub third: u64,
    pub fourth: u64,
}

/// Factors of the words of a spot, and what the sum begins with.
#[derive(Clone, Copy)]
pub struct Factors {
    pub start: u64,
    /// Of a spot at a pair: the layer, and the pair's number.
    pub layer: u64,
    pub number: u64,
    /// Of a spot at a key: the layer, and all but the addresses.
    pub missed: u64,
    pub rest: u64,
    pub ports: u64,
    pub outer: u64,
    pub second: u64,
    pub src: AddressFactors,
    pub dst: AddressFactors,
}

/// The turn at which the seed tells the first of the numbers below. Turn 0 is that of maps of pairs.
const FIRST_TURN: u32 = 1;

/// The number that the seed tells at this turn from the first.
fn drawn(seed: &HashSeed, turn: u32) -> u64
    requires { turn ≤ 19 }
{
    seed.number(FIRST_TURN + turn)
}

/// The factors of an address.
fn address_factors(seed: &HashSeed, turn: u32) -> AddressFactors
    requires { turn ≤ 16 }
{
    AddressFactors {
        first: drawn(seed, turn),
        second: drawn(seed, turn + 1),
        third: drawn(seed, turn + 2),
        fourth: drawn(seed, turn + 3),
    }
}

impl Factors {
    /// Factors that the seed tells.
    pub fn of(seed: &HashSeed) -> Factors {
        Factors {
            start: drawn(seed, 0),
            layer: drawn(seed, 1),
            number: drawn(seed, 2),
            missed: drawn(seed, 3),
            rest: drawn(seed, 4),
            ports: drawn(seed, 5),
            outer: drawn(seed, 6),
            second: drawn(seed, 7),
            src: address_factors(seed, 8),
            dst: address_factors(seed, 12),
        }
    }
}

/// The sum with one product more, of 64 bits.
#[inline(always)]
fn plus(sum: u64, factor: u64, word: u32) -> u64
    ensures { result ≡ spec.plus sum factor word }
{
    sum.wrapping_add(factor.wrapping_mul(u64::from(word)))
}

/// The lowest word of a number.
#[inline(always)]
fn word_of(number: u128) -> u32
    ensures { result ≡ number % 2 ^ 32 }
{
    (number % 0x1_0000_0000) as u32
}

/// The sum with the words of a long address.
fn plus_long(sum: u64, factors: &AddressFactors, address: u128) -> u64
    ensures { result ≡ spec.plus_long sum factors.now address }
{
    let first = plus(sum, factors.first, word_of(address >> 96));
    let second = plus(first, factors.second, word_of(address >> 64));
    let third = plus(second, factors.third, word_of(address >> 32));
    plus(third, factors.fourth, word_of(address))
}

/// The sum with the words of an address.
#[inline(always)]
fn plus_address(sum: u64, factors: &AddressFactors, address: &Addr) -> u64
    ensures { result ≡ spec.plus_address sum factors.now address.now }
{
    match address {
        Addr::Absent => sum,
        Addr::Four(four) => plus(sum, factors.first, four.number()),
        Addr::Six(six) => plus_long(sum, factors, six.number()),
    }
}

/// The direction as a word.
fn dir_word(dir: Dir) -> u32
    ensures value { result ≡ spec.dir_word dir }
    ensures small { result ≤ 16777216 }
{
    match dir {
        Dir::Out => 0,
        Dir::In => 0x100_0000,
    }
}

/// The direction, the encapsulations, the mark of a fragment, and the protocol.
fn rest_word(dir: Dir, key: &LayerKey) -> u32
    ensures { result ≡ spec.rest_word dir key.now }
{
    let LayerKey {
        encaps,
        proto,
        part,
        ..
    } = *key;
    dir_word(dir) + u32::from(encaps) * 0x1_0000 + u32::from(part) * 0x100 + u32::from(proto)
}

/// Both ports.
fn ports_word(key: &LayerKey) -> u32
    ensures { result ≡ spec.ports_word key.now }
{
    let LayerKey {
        src_port,
        dst_port,
        ..
    } = *key;
    u32::from(src_port) * 0x1_0000 + u32::from(dst_port)
}

/// The sum of a direction and key in a layer.
fn missed_sum(factors: &Factors, layer: u32, probe: &Probe) -> u64
    ensures { result ≡ spec.missed_sum factors.now layer probe.now }
{
    let key = &probe.key;
    let at = plus(factors.start, factors.missed, layer);
    let rest = plus(at, factors.rest, rest_word(probe.dir, key));
    let ports = plus(rest, factors.ports, ports_word(key));
    let outer = plus(ports, factors.outer, key.vni_outer);
    let second = plus(outer, factors.second, key.vni_second);
    let src = plus_address(second, &factors.src, &key.src);
    plus_address(src, &factors.dst, &key.dst)
}

/// The sum of a spot.
fn spot_sum(factors: &Factors, spot: &Spot) -> u64
    ensures { result ≡ spec.spot_sum factors.now spot.now }
{
    match spot {
        Spot::Missed { layer, probe } => missed_sum(factors, *layer, probe),
        Spot::Found { layer, number } => plus(
            plus(factors.start, factors.layer, *layer),
            factors.number,
            *number,
        ),
    }
}

/// As far among so many as the upper half of the sum is among the numbers of 32 bits.
#[inline(always)]
fn share(sum: u64, count: u32) -> u32
    ensures { result ≡ spec.share sum count }
{
    ((sum >> 32).wrapping_mul(u64::from(count)) >> 32) as u32
}

/// The place of a spot among so many.
#[tactic(auto, unfolding(crate::specs::Mixing::place_of))]
pub fn place_of(factors: &Factors, spot: &Spot, count: u32) -> u32
    ensures { result ≡ spec.place_of factors.now spot.now count }
{
    share(spot_sum(factors, spot), count)
}
