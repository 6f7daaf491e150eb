//! Pairs found either way, kept apart, touched, taken away and swept, and a full layer of them.

ghost use Rattle.std.specs.Prelude.{◌≡◌, ◌+◌, [], None, IsTrue};
ghost use Rattle.vsw_layerflow.specs.Pairs.{AllBelow, numbered, put_by_number};

use crate::walk::replace_tests::{Keys, replace_first};
use crate::walk::wrong::Wrong;
use std::alloc::Global;
use vsw_base::{Addr, Dir, Ip4, LayerKey, Moment, Set, Track};
use vsw_layerflow::{Flows, Pair, due};

/// The most pairs that a layer may have.
const MOST: u32 = 65_536;

/// TCP between these addresses and ports.
fn key(src: u32, dst: u32, src_port: u16, dst_port: u16) -> LayerKey {
    LayerKey {
        encaps: 0,
        vni_outer: 0,
        vni_second: 0,
        src: Addr::Four(Ip4::of(src)),
        dst: Addr::Four(Ip4::of(dst)),
        proto: 6,
        part: false,
        src_port,
        dst_port,
    }
}

/// 10.0.0.5, port 40000, to 10.0.0.9, port 80, and back.
pub fn there() -> LayerKey {
    key(0x0a00_0005, 0x0a00_0009, 40000, 80)
}

pub fn back() -> LayerKey {
    key(0x0a00_0009, 0x0a00_0005, 80, 40000)
}

fn set() -> Set {
    Set {
        dst_mac: None,
        src_mac: None,
        src_ip: None,
        dst_ip: None,
        src_port: None,
        dst_port: None,
        src_ip6: None,
        dst_ip6: None,
    }
}

/// A pair of rule 7 in group 2, last used a second after the epoch.
pub fn pair(number: u32, dir: Dir, forward: LayerKey, reverse: LayerKey) -> Pair
    ensures { result.number ≡ number }
{
    Pair {
        number,
        group: 2,
        rule: 7,
        dir,
        forward,
        forward_set: set(),
        reverse,
        reverse_set: set(),
        state: Track::Opening,
        last_use: Moment::of(1_000_000),
    }
}

/// The key of a flow for each number, and that of its replies.
fn there_of(number: u32) -> LayerKey {
    key(0x0a00_0000 | number % MOST, 0x0b00_0001, 40000, 80)
}

fn back_of(number: u32) -> LayerKey {
    key(0x0b00_0001, 0x0a00_0000 | number % MOST, 80, 40000)
}

/// Adds a pair of any new number, if its keys are free, and tells whether it did.
#[tactic(auto, using(vsw_layerflow::proofs::Order::below_next, vsw_layerflow::proofs::Order::below_push))]
fn put_new(flows: &mut Flows, pair: Pair) -> bool
    requires number_new { numbered pair.number flows.old.pairs ≡ None }
    ensures added { IsTrue result → flows.new.pairs ≡ put_by_number pair flows.old.pairs }
    ensures last { AllBelow pair.number flows.old.pairs → AllBelow (pair.number + 1) flows.new.pairs }
{
    if flows.find(pair.dir, &pair.forward).is_some() {
        return false;
    }
    if flows.find(pair.back().dir, &pair.reverse).is_some() {
        return false;
    }
    if flows.len() == u32::MAX || flows.reserve_one().is_err() {
        return false;
    }
    flows.add(pair);
    true
}

/// Adds a pair whose number is the greatest.
#[tactic(auto, using(vsw_layerflow::proofs::Order::below_new))]
pub fn put(flows: &mut Flows, pair: Pair) -> bool
    requires number_last { AllBelow pair.number flows.old.pairs }
    ensures number_last { AllBelow (pair.number + 1) flows.new.pairs }
{
    put_new(flows, pair)
}

/// Adds a pair for each number below this.
fn fill(flows: &mut Flows, count: u32) -> bool
    requires none { flows.old.pairs ≡ [] }
    ensures below { IsTrue result → AllBelow count flows.new.pairs }
{
    for number in 0..count {
        if !put(
            flows,
            pair(number, Dir::Out, there_of(number), back_of(number)),
        ) {
            return false;
        }
    }
    true
}

/// Takes a pair away, and adds one with its keys under a new number.
#[tactic(auto, using(vsw_layerflow::proofs::Order::below_filter))]
fn reopen(flows: &mut Flows, number: u32, next: u32) -> bool
    requires number_last { AllBelow next flows.old.pairs }
    ensures number_last { AllBelow (next + 1) flows.new.pairs }
{
    flows.remove(number);
    put(
        flows,
        pair(next, Dir::Out, there_of(number), back_of(number)),
    )
}

/// Opens the pairs of every third number again, each under a number that is greater by `MOST`.
#[tactic(auto, using(vsw_layerflow::proofs::Order::below_next))]
fn reopen_thirds(flows: &mut Flows) -> bool
    requires number_last { AllBelow 65536 flows.old.pairs }
{
    for number in 0..MOST {
        if number % 3 == 0 && !reopen(flows, number, MOST + number) {
            return false;
        }
    }
    true
}

/// The number and the state of a pair, where one is found.
pub type Found = Option<(u32, Track)>;

fn found(flows: &Flows, dir: Dir, key: &LayerKey) -> Found {
    let pair = flows.find(dir, key)?;
    Some((pair.number, pair.state))
}

/// What the keys of `there` and `back` lead to, each out and in.
pub type Both = (Found, Found, Found, Found);

fn found_by_both(flows: &Flows) -> Both {
    (
        found(flows, Dir::Out, &there()),
        found(flows, Dir::In, &there()),
        found(flows, Dir::Out, &back()),
        found(flows, Dir::In, &back()),
    )
}

/// The key of `there` from the next port.
pub fn there_from_next() -> LayerKey {
    key(0x0a00_0005, 0x0a00_0009, 40001, 80)
}

/// Whether both keys of a number lead to this.
fn number_leads(flows: &Flows, number: u32, pair: Found) -> bool {
    found(flows, Dir::Out, &there_of(number)) == pair
        && found(flows, Dir::In, &back_of(number)) == pair
}

/// How many of the numbers below this have a pair that is open, and that both of its keys lead to.
fn count_open(flows: &Flows, count: u32) -> u32 {
    let mut open = 0u32;
    for number in 0..count {
        if number_leads(flows, number, Some((number, Track::Open))) {
            open = open.wrapping_add(1);
        }
    }
    open
}

/// Opens the pairs of these numbers, each used a second later than the one before.
fn open_all(flows: &mut Flows, count: u32) {
    for number in 0..count {
        let seconds = u64::from(number).wrapping_add(1);
        flows.touch(
            number,
            Track::Open,
            Moment::of(seconds.wrapping_mul(1_000_000)),
        );
    }
}

/// What is done to pairs, or seen of them, and what must come of it.
#[derive(Clone, Copy)]
pub enum Step {
    /// The pair of this number gets a state and a moment of its last use.
    Touch(u32, Track, u64),
    Remove(u32),
    /// Every number below `MOST` is touched.
    OpenAll,
    /// A sweep at this moment takes so many pairs, where the idle and linger times are these.
    Sweep(u64, u32, u32, u32),
    /// So many pairs go with the rule of this group and number.
    DropRule(u16, u16, u32),
    /// There are so many pairs.
    Counts(u32),
    /// So many numbers below `MOST` have an open pair that both of its keys lead to.
    CountsOpen(u32),
    Both(Both),
    /// What `there_from_next` leads to, out and in alike.
    Next(Found),
    /// What the keys of a number lead to: that of its flow out, and that of the replies in.
    Number(u32, Found),
}

fn next_leads(flows: &Flows, pair: Found) -> bool {
    found(flows, Dir::Out, &there_from_next()) == pair
        && found(flows, Dir::In, &there_from_next()) == pair
}

fn is_seen(flows: &Flows, step: &Step) -> bool {
    match step {
        Step::Counts(count) => flows.len() == *count,
        Step::CountsOpen(count) => count_open(flows, MOST) == *count,
        Step::Both(all) => found_by_both(flows) == *all,
        Step::Next(pair) => next_leads(flows, *pair),
        Step::Number(number, pair) => number_leads(flows, *number, *pair),
        _ => false,
    }
}

fn comes_out(flows: &mut Flows, step: &Step) -> bool {
    match *step {
        Step::Touch(number, state, last) => {
            flows.touch(number, state, Moment::of(last));
            true
        }
        Step::Remove(number) => {
            flows.remove(number);
            true
        }
        Step::OpenAll => {
            open_all(flows, MOST);
            true
        }
        Step::Sweep(now, idle, linger, count) => {
            flows.sweep(Moment::of(now), idle, linger) == count
        }
        Step::DropRule(group, rule, count) => flows.drop_rule(group, rule) == count,
        _ => is_seen(flows, step),
    }
}

/// Tries one step after the other.
fn try_steps(flows: &mut Flows, steps: &[Step]) -> Result<(), Wrong> {
    for place in 0..steps.len() {
        if !comes_out(flows, &steps[place]) {
            return Err(Wrong::Step(place));
        }
    }
    Ok(())
}

/// The pairs that are there before the first step.
#[derive(Clone, Copy)]
pub enum First {
    /// One pair, of `there` and `back`.
    One,
    /// Pair 7 came before pair 3, whose keys are `there_from_next`.
    Backwards,
    /// Three whose keys touch.
    Touching,
    /// Four of three rules.
    ByRules,
    /// One for each number below this.
    Below(u32),
    /// A full layer, of which each third pair was opened again.
    Reopened,
    /// One pair, of `there` and `back`, and then pair 1 for the one of this number.
    Replaced(u32, Keys),
}

fn reopened(flows: &mut Flows) -> bool
    requires none { flows.old.pairs ≡ [] }
{
    fill(flows, MOST) && flows.len() == MOST && reopen_thirds(flows)
}

fn begin(flows: &mut Flows, first: First) -> bool
    requires none { flows.old.pairs ≡ [] }
{
    match first {
        First::One => put(flows, pair(0, Dir::Out, there(), back())),
        First::Backwards => put_backwards(flows),
        First::Touching => open_touching(flows),
        First::ByRules => open_by_rules(flows),
        First::Below(count) => fill(flows, count),
        First::Reopened => reopened(flows),
        First::Replaced(number, keys) => replace_first(flows, number, keys),
    }
}

/// Tries the steps where these pairs could be opened.
fn try_behind(flows: &mut Flows, first: First, steps: &[Step]) -> Result<(), Wrong>
    requires none { flows.old.pairs ≡ [] }
{
    if !begin(flows, first) {
        return Err(Wrong::Start);
    }
    try_steps(flows, steps)
}

pub fn tried(alloc: Global, first: First, steps: &[Step]) -> Result<(), Wrong> {
    try_behind(&mut Flows::new(alloc), first, steps)
}

// What `there` and `back` lead to: nothing, or pair 0, which goes out.
pub const NOTHING: Both = (None, None, None, None);

pub const OPENING: Both = (
    Some((0, Track::Opening)),
    None,
    None,
    Some((0, Track::Opening)),
);

const CLOSED: Both = (
    Some((0, Track::Closed)),
    None,
    None,
    Some((0, Track::Closed)),
);

const ONE: [Step; 9] = [
    Step::Counts(1),
    Step::Both(OPENING),
    Step::Touch(0, Track::Closed, 2_000_000),
    Step::Both(CLOSED),
    Step::Remove(1),
    Step::Counts(1),
    Step::Remove(0),
    Step::Counts(0),
    Step::Both(NOTHING),
];

#[test]
fn a_pair_is_found_either_way_until_it_goes(rt: HostRuntime) -> Result<(), Wrong> {
    tried(rt.alloc(), First::One, &ONE)
}

/// Adds pair 7 and then pair 3, and tells whether it did.
fn put_backwards(flows: &mut Flows) -> bool
    requires none { flows.old.pairs ≡ [] }
{
    if !put_new(flows, pair(7, Dir::Out, there(), back())) {
        return false;
    }
    put_new(
        flows,
        pair(3, Dir::Out, there_from_next(), there_from_next()),
    )
}

// A pair that came after one of a greater number.
const LATER: Found = Some((3, Track::Opening));

const BACKWARDS: [Step; 4] = [
    Step::Next(LATER),
    Step::Remove(7),
    Step::Next(LATER),
    Step::Counts(1),
];

#[test]
fn pairs_come_in_any_order_of_their_numbers(rt: HostRuntime) -> Result<(), Wrong> {
    tried(rt.alloc(), First::Backwards, &BACKWARDS)
}

/// Adds three pairs and tells whether it did: the second goes the other way with the keys of the first,
/// the third differs by one port.
fn open_three(flows: &mut Flows) -> bool
    requires none { flows.old.pairs ≡ [] }
    ensures below { AllBelow 3 flows.new.pairs }
{
    let first = put(flows, pair(0, Dir::Out, there(), back()));
    let second = put(flows, pair(1, Dir::In, there(), back()));
    let third = put(
        flows,
        pair(2, Dir::Out, there_from_next(), there_from_next()),
    );
    first && second && third
}

/// Adds those three, and no fourth, whose replies are those of the first.
fn open_touching(flows: &mut Flows) -> bool
    requires none { flows.old.pairs ≡ [] }
{
    open_three(flows) && !put(flows, pair(3, Dir::Out, key(1, 2, 3, 4), back()))
}

// What `there` and `back` lead to then, and once the second is open and the first has gone.
const BOTH: Both = (
    Some((0, Track::Opening)),
    Some((1, Track::Opening)),
    Some((1, Track::Opening)),
    Some((0, Track::Opening)),
);

const SECOND: Both = (None, Some((1, Track::Open)), Some((1, Track::Open)), None);

const TOUCHING: [Step; 5] = [
    Step::Both(BOTH),
    Step::Touch(1, Track::Open, 2_000_000),
    Step::Remove(0),
    Step::Both(SECOND),
    Step::Next(Some((2, Track::Opening))),
];

#[test]
fn pairs_whose_keys_touch_stay_apart(rt: HostRuntime) -> Result<(), Wrong> {
    tried(rt.alloc(), First::Touching, &TOUCHING)
}

/// Half of the open pairs and all that were opened again are swept, and the others go with their
/// rule.
const REOPENED: [Step; 12] = [
    Step::Counts(65_536),
    Step::CountsOpen(0),
    Step::OpenAll,
    // Those that were opened again have other numbers.
    Step::CountsOpen(43_690),
    Step::Number(3, Some((MOST + 3, Track::Opening))),
    // Those up to number 32,767 were last used by second 32,768, those opened again at second 1.
    Step::Sweep(33_008_000_000, 240, 10, 21_846 + 21_845),
    Step::Number(32_767, None),
    Step::Number(32_768, Some((32_768, Track::Open))),
    Step::CountsOpen(21_845),
    Step::DropRule(2, 7, 21_845),
    Step::Counts(0),
    Step::CountsOpen(0),
];

#[test]
fn a_full_layer_is_touched_opened_again_and_swept(rt: HostRuntime) -> Result<(), Wrong> {
    tried(rt.alloc(), First::Reopened, &REOPENED)
}

/// The state of a pair, the moment it was last used, and the last moment at which a sweep leaves it,
/// where the layer's idle and linger times are 240 and 10 seconds.
type Life = (Track, u64, u64);

const LIVES: [Life; 6] = [
    (Track::Plain, 1_000_000, 240_999_999),
    (Track::Opening, 0, 239_999_999),
    (Track::Half(Dir::In), 7, 240_000_006),
    (Track::Closed, 1_000_000, 10_999_999),
    (Track::Open, u64::MAX, u64::MAX - 1),
    (Track::Closed, u64::MAX - 10_000_000, u64::MAX - 1),
];

/// Tries whether a sweep takes the only pair then, and not before.
fn ended(alloc: Global, life: &Life) -> Result<(), Wrong> {
    let (state, last, stays) = *life;
    let steps = [
        Step::Touch(0, state, last),
        Step::Sweep(stays, 240, 10, 0),
        Step::Sweep(stays.wrapping_add(1), 240, 10, 1),
        Step::Counts(0),
    ];
    tried(alloc, First::Below(1), &steps)
}

fn all_ended(alloc: Global, lives: &[Life]) -> Result<(), Wrong> {
    for place in 0..lives.len() {
        if ended(alloc, &lives[place]).is_err() {
            return Err(Wrong::Step(place));
        }
    }
    Ok(())
}

#[test]
fn a_sweep_takes_a_pair_at_the_end_of_its_life(rt: HostRuntime) -> Result<(), Wrong> {
    all_ended(rt.alloc(), &LIVES)
}

const GREATEST: [Step; 3] = [
    Step::Touch(1, Track::Open, u64::MAX),
    Step::Touch(2, Track::Closed, u64::MAX - 1),
    Step::Sweep(u64::MAX, u32::MAX, u32::MAX, 3),
];

#[test]
fn a_sweep_at_the_greatest_moment_takes_every_pair(rt: HostRuntime) -> Result<(), Wrong> {
    tried(rt.alloc(), First::Below(3), &GREATEST)
}

/// A last use, a state, the layer's idle and linger times, and the moment after which a packet is due.
type Due = (u64, Track, u32, u32, u64);

const DUES: [Due; 4] = [
    (2_000_000, Track::Closed, 240, 10, 4_500_000),
    (2_000_000, Track::Half(Dir::Out), 240, 10, 62_000_000),
    (2_000_000, Track::Open, 1, 0, 2_250_000),
    (u64::MAX - 1, Track::Open, 240, 10, u64::MAX),
];

fn are_due(dues: &[Due]) -> Result<(), Wrong> {
    for place in 0..dues.len() {
        let (last, state, idle, linger, moment) = dues[place];
        if due(Moment::of(last), state, idle, linger).micros() != moment {
            return Err(Wrong::Step(place));
        }
    }
    Ok(())
}

#[test]
fn a_packet_is_due_after_a_quarter_of_the_life() -> Result<(), Wrong> {
    are_due(&DUES)
}

/// A pair of this rule, with keys of its number's own.
fn pair_by(number: u32, group: u16, rule: u16) -> Pair
    ensures { result.number ≡ number }
{
    let mut pair = pair(number, Dir::Out, there_of(number), back_of(number));
    pair.group = group;
    pair.rule = rule;
    pair
}

/// Adds four pairs and tells whether it did: the first and the last are of one rule, the second of a rule
/// of its number in another group, the third of another rule of its group.
fn open_by_rules(flows: &mut Flows) -> bool
    requires none { flows.old.pairs ≡ [] }
{
    let first = put(flows, pair_by(0, 2, 7));
    let second = put(flows, pair_by(1, 3, 7));
    let third = put(flows, pair_by(2, 2, 8));
    let fourth = put(flows, pair_by(3, 2, 7));
    first && second && third && fourth
}

/// The first and the last go.
const BY_RULES: [Step; 6] = [
    Step::DropRule(1, 7, 0),
    Step::DropRule(2, 7, 2),
    Step::Number(0, None),
    Step::Number(1, Some((1, Track::Opening))),
    Step::Number(2, Some((2, Track::Opening))),
    Step::Number(3, None),
];

#[test]
fn pairs_go_with_their_rule_alone(rt: HostRuntime) -> Result<(), Wrong> {
    tried(rt.alloc(), First::ByRules, &BY_RULES)
}
