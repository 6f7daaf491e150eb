//! Groups and packets that look random. Values are few, so that conditions often hold.

use std::alloc::Global;
use vsw_base::{Dir, Header, Headers, Ip4, Ip6, Items, Mac, Prefix, Prefix6, Set, Stack};
use vsw_rule::{Action, Choice, Cond, Field, Group, Item, Rule};

/// The next state of a linear congruential generator (Knuth's MMIX).
pub fn stirred(state: u64) -> u64 {
    state
        .wrapping_mul(6_364_136_223_846_793_005)
        .wrapping_add(1_442_695_040_888_963_407)
}

/// Numbers that look random.
#[derive(Drop)]
pub struct Random {
    state: u64,
}

const NETWORK: u32 = 0x0a00_0000;

const NETWORK6: u128 = 0xfd00_0000_0000_0000_0000_0000_0000_0000;

impl Random {
    pub fn new(seed: u64) -> Random {
        Random { state: seed }
    }

    /// The upper half of the next state.
    pub fn next(&mut self) -> u32 {
        self.state = stirred(self.state);
        (self.state >> 32) as u32
    }

    /// True once in so many times.
    pub fn chance(&mut self, of: u32) -> bool {
        self.next() % of.max(1) == 0
    }

    fn mac(&mut self) -> Mac {
        Mac::of(u64::from(self.next() % 4))
    }

    fn ip(&mut self) -> Ip4 {
        Ip4::of(NETWORK + self.next() % 16)
    }

    fn ip6(&mut self) -> Ip6 {
        Ip6::of(NETWORK6 + u128::from(self.next() % 16))
    }

    fn port(&mut self) -> u16 {
        (self.next() % 16) as u16
    }
}

fn field(random: &mut Random) -> Field {
    match random.next() % 18 {
        0 => Field::DstMac,
        1 => Field::SrcMac,
        2 => Field::Kind,
        3 => Field::SrcIp,
        4 => Field::Proto,
        5 => Field::Part,
        6 => Field::SrcPort,
        7 => Field::OuterDstMac,
        8 => Field::OuterSrcMac,
        9 => Field::OuterSrcIp,
        10 => Field::OuterDstIp,
        11 => Field::Vni,
        12 | 13 => Field::DstPort,
        14 => Field::SrcIp6,
        15 => Field::DstIp6,
        _ => Field::DstIp,
    }
}

/// The least value of a field that packets here have.
fn least(field: Field) -> u64 {
    match field {
        Field::SrcIp | Field::DstIp | Field::OuterSrcIp | Field::OuterDstIp => u64::from(NETWORK),
        Field::Kind => 0x0800,
        _ => 0,
    }
}

fn prefix6(random: &mut Random) -> Item {
    Item::Prefix6(Prefix6 {
        value: random.ip6(),
        bits: 122 + (random.next() % 8) as u8,
    })
}

fn item(field: Field, random: &mut Random) -> Item {
    if matches!(field, Field::SrcIp6 | Field::DstIp6) && !random.chance(8) {
        return prefix6(random);
    }
    if random.chance(3) {
        return Item::Prefix(Prefix {
            value: random.ip(),
            bits: 26 + (random.next() % 8) as u8,
        });
    }
    let low = least(field).saturating_add(u64::from(random.next() % 16));
    let more = u64::from(random.next() % 8);
    Item::Range {
        low,
        high: low.saturating_add(more).saturating_sub(2),
    }
}

fn condition(alloc: Global, random: &mut Random) -> Option<Cond> {
    let field = field(random);
    let mut items: Vec<Item> = Vec::new(alloc);
    for _ in 0..random.next() % 4 {
        items.push(item(field, random)).ok()?;
    }
    Some(Cond {
        field,
        items: Items::of(items),
    })
}

fn conditions(alloc: Global, most: u32, random: &mut Random) -> Option<Items<Cond>> {
    let mut conditions: Vec<Cond> = Vec::new(alloc);
    for _ in 0..random.next() % most.max(1) {
        conditions.push(condition(alloc, random)?).ok()?;
    }
    Some(Items::of(conditions))
}

fn unset() -> Set {
    Set {
        dst_mac: None,
        src_mac: None,
        src_ip: None,
        dst_ip: None,
        src_port: None,
        dst_port: Some(7),
        src_ip6: None,
        dst_ip6: None,
    }
}

/// A rule whose number is its place.
fn rule(alloc: Global, place: u16, random: &mut Random) -> Option<Rule> {
    let action = if random.chance(4) {
        Action::Edit {
            decap: true,
            set: unset(),
            encap: None,
        }
    } else {
        Action::Drop
    };
    Some(Rule {
        number: place,
        priority: (random.next() % 4) as u16,
        when: conditions(alloc, 4, random)?,
        action,
        stateful: random.chance(8),
        last: random.chance(6),
    })
}

fn rules(alloc: Global, random: &mut Random) -> Option<Items<Rule>> {
    let mut rules: Vec<Rule> = Vec::new(alloc);
    let most = 1 + random.next() % 40;
    for place in 0..random.next() % most {
        rules.push(rule(alloc, place as u16, random)?).ok()?;
    }
    Some(Items::of(rules))
}

pub fn group(alloc: Global, number: u16, random: &mut Random) -> Option<Group> {
    let rules = rules(alloc, random)?;
    let dir = if random.chance(4) { Dir::In } else { Dir::Out };
    Some(Group {
        number,
        dir,
        when: conditions(alloc, 2, random)?,
        rules,
    })
}

fn ether(kind: u16, random: &mut Random) -> Header {
    Header::Ether {
        dst: random.mac(),
        src: random.mac(),
        kind,
    }
}

fn ip(proto: u8, part: bool, random: &mut Random) -> Header {
    Header::Ip {
        src: random.ip(),
        dst: random.ip(),
        proto,
        part,
    }
}

fn add(headers: &mut Headers, header: Header) {
    if headers.as_slice().len() < 9 {
        headers.push(header);
    }
}

fn add_encap(headers: &mut Headers, random: &mut Random) {
    add(headers, ether(0x0800, random));
    add(headers, ip(17, false, random));
    let vni = random.next() % 16;
    add(headers, Header::Vxlan { vni });
}

fn add_six(headers: &mut Headers, proto: u8, random: &mut Random) {
    add(headers, ether(0x86dd, random));
    let src = random.ip6();
    let dst = random.ip6();
    add(headers, Header::Six { src, dst, proto });
}

/// The inner headers of UDP, TCP, another protocol or none.
fn add_inner(headers: &mut Headers, random: &mut Random) {
    if random.chance(8) {
        add(headers, ether(0x0806, random));
        return;
    }
    let proto = [17u8, 17, 6, 1][random.next() as usize % 4];
    let part = if random.chance(3) {
        add_six(headers, proto, random);
        false
    } else {
        add(headers, ether(0x0800, random));
        let part = random.chance(8);
        add(headers, ip(proto, part, random));
        part
    };
    if !part && proto != 1 {
        let src = random.port();
        let dst = random.port();
        add(headers, Header::Ports { proto, src, dst });
    }
}

/// A packet in up to two encapsulations.
pub fn packet(random: &mut Random) -> Option<Stack> {
    let mut headers = Headers::new();
    for _ in 0..(random.next() % 5).saturating_sub(2) {
        add_encap(&mut headers, random);
    }
    add_inner(&mut headers, random);
    Stack::of(headers.as_slice()).ok()
}

/// The numbers of the group and of the rule that a packet meets.
pub fn numbers(choice: Option<Choice<'_>>) -> Option<(u16, u16)> {
    match choice {
        Some(choice) => Some((choice.group, choice.rule.number)),
        None => None,
    }
}

/// How many packets met a rule, and of how many index and list tell otherwise.
#[derive(Drop)]
pub struct Tally {
    pub met: u32,
    pub differ: u32,
}

impl Tally {
    pub fn new() -> Tally {
        Tally { met: 0, differ: 0 }
    }

    pub fn note(&mut self, met: bool, differ: bool) {
        self.met = self.met.wrapping_add(u32::from(met));
        self.differ = self.differ.wrapping_add(u32::from(differ));
    }
}
