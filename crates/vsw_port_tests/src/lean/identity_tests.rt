//! Identities of each shape written and read back, and words of none.

ghost use Rattle.std.specs.Prelude.{◌<◌, ◌≡◌, length};

use crate::lean::samples::QUERY6;
use vsw_base::{Dir, Header, Ip4, Ip6, Mac, Stack, Ufid};
use vsw_words::{identity_to, key_words};

const PLACE: Header = Header::Vxlan { vni: 0 };

fn ether(last: u8, kind: u16) -> Header {
    Header::Ether {
        dst: Mac::of(0xffff_0000_0000 + u64::from(last)),
        src: Mac::of(0x0200_0000_0000 + u64::from(last)),
        kind,
    }
}

fn ip(proto: u8, part: bool) -> Header {
    Header::Ip {
        src: Ip4::of(0xffff_fffe),
        dst: Ip4::of(0x0a00_0009),
        proto,
        part,
    }
}

fn six(proto: u8) -> Header {
    Header::Six {
        src: Ip6::of(0xffff_0000_0000_0000_8000_0000_0000_0001),
        dst: Ip6::of(0xfd00_0000_0000_0000_0000_0000_0000_0009),
        proto,
    }
}

fn ports(proto: u8) -> Header {
    Header::Ports {
        proto,
        src: 1234,
        dst: 53,
    }
}

/// A room in which an identity stands already, so that each test shows that it goes.
fn room() -> Ufid {
    Ufid {
        dir: Dir::In,
        stack: Stack::room(),
    }
}

/// Whether the identity with these headers is read back from its words.
fn is_back(dir: Dir, headers: &[Header]) -> bool {
    let Ok(stack) = Stack::of(headers) else {
        return false;
    };
    let id = Ufid { dir, stack };
    let mut key = [9; 16];
    key_words(&id, &mut key);
    let mut out = room();
    identity_to(&key, &mut out) && out.dir == id.dir && out.stack.is_same(&id.stack)
}

/// The inner headers behind one encapsulation.
fn in_one(inner: &[Header; 3]) -> [Header; 6] {
    [
        ether(1, 0x0800),
        ip(17, false),
        Header::Vxlan { vni: 0xff_ffff },
        inner[0],
        inner[1],
        inner[2],
    ]
}

/// And behind two.
fn in_two(inner: &[Header; 3]) -> [Header; 9] {
    [
        ether(2, 0x0800),
        ip(17, false),
        Header::Vxlan { vni: 7 },
        ether(1, 0x0800),
        ip(17, false),
        Header::Vxlan { vni: 0xff_ffff },
        inner[0],
        inner[1],
        inner[2],
    ]
}

/// Whether these inner headers are read back behind none, one and two encapsulations, in both directions. So many of
/// the three are there.
fn are_back(inner: &[Header; 3], count: usize) -> bool
    requires { count < 4 }
{
    let one = in_one(inner);
    let two = in_two(inner);
    is_back(Dir::Out, &inner[..count])
        && is_back(Dir::In, &one[..3 + count])
        && is_back(Dir::Out, &two[..6 + count])
        && is_back(Dir::In, &two[..6 + count])
}

#[test]
fn each_shape_is_read_back(rt: HostRuntime) {
    let bare = [ether(3, 0x0806), PLACE, PLACE];
    let alone = [ether(3, 0x0800), ip(1, false), PLACE];
    let fragment = [ether(3, 0x0800), ip(6, true), PLACE];
    let tcp = [ether(3, 0x0800), ip(6, false), ports(6)];
    let udp = [ether(3, 0x0800), ip(17, false), ports(17)];
    let echo6 = [ether(3, 0x86dd), six(58), PLACE];
    let tcp6 = [ether(3, 0x86dd), six(6), ports(6)];
    let udp6 = [ether(3, 0x86dd), six(17), ports(17)];
    let found = [
        are_back(&bare, 1),
        are_back(&alone, 2),
        are_back(&fragment, 2),
        are_back(&tcp, 3),
        are_back(&udp, 3),
        are_back(&echo6, 2),
        are_back(&tcp6, 3),
        are_back(&udp6, 3),
    ];
    assert!(&rt; found == [true; 8]);
}

/// The words of a query over UDP from port 1234 to port 53, outbound in network 5001.
const QUERY: [u64; 16] = [
    0x0035_04d2_0800_1135,
    5001,
    0x0200_0000_0a02,
    0x0200_0000_0a01,
    0x0200_0000_0099,
    0x0200_0000_0001,
    0,
    0,
    0xac10_0001_ac10_0002,
    0x0a00_0005_0a00_0009,
    0,
    0,
    0,
    0,
    0,
    0,
];

/// Whether the words are of an identity with this bit of this word turned.
fn is_one(place: usize, bit: u64) -> bool
    requires { place < 16 }
{
    let mut key = QUERY;
    key[place] ^= bit;
    identity_to(&key, &mut room())
}

/// Whether the words of a query over IPv6 are of an identity with this bit of this word turned.
fn is_one6(place: usize, bit: u64) -> bool
    requires { place < 16 }
{
    let mut key = QUERY6;
    key[place] ^= bit;
    identity_to(&key, &mut room())
}

/// Bits that make the query over IPv6 that of no identity, and bits that make it another's.
fn bits_over_ipv6() -> ([bool; 11], [bool; 6]) {
    let none = [
        // IPv4 beside it; IPv6 or ports that are said not to be there; a fragment.
        is_one6(0, 0x10),
        is_one6(0, 0x80),
        is_one6(0, 0x20),
        is_one6(0, 0x40),
        // Three encapsulations; another protocol or type than one with ports.
        is_one6(0, 0x0c),
        is_one6(0, 0x0100),
        is_one6(0, 0x1_0000),
        // Addresses of IPv4, and words without a name.
        is_one6(8, 1),
        is_one6(9, 1),
        is_one6(10, 1),
        is_one6(15, 1),
    ];
    let others = [
        is_one6(0, 0),
        is_one6(0, 2),
        is_one6(11, 0x8000_0000_0000_0000),
        is_one6(12, 1),
        is_one6(13, 1),
        is_one6(14, 0x8000_0000_0000_0000),
    ];
    (none, others)
}

#[test]
fn words_of_no_identity_are_refused(rt: HostRuntime) {
    let good = is_one(0, 0);
    assert!(rt; good);
    let found = [
        // The lowest bit of the first word isn't 1; the bit behind the mark of a fragment is.
        is_one(0, 1),
        is_one(0, 0x80),
        // Three encapsulations, or none; IPv4 or ports that are said not to be there; a fragment with ports.
        is_one(0, 0x08),
        is_one(0, 0x04),
        is_one(0, 0x10),
        is_one(0, 0x20),
        is_one(0, 0x40),
        // Another protocol or type than one with ports.
        is_one(0, 0x0100),
        is_one(0, 0x1_0000),
        // A second network, beyond both, and an address of 49 bits.
        is_one(1, 0x100_0000),
        is_one(1, 0x1_0000_0000_0000),
        is_one(2, 0x1_0000_0000_0000),
        // Addresses of a second encapsulation, and words without a name.
        is_one(6, 1),
        is_one(7, 1),
        is_one(10, 1),
        is_one(11, 1),
        is_one(15, 0x8000_0000_0000_0000),
    ];
    assert!(&rt; found == [false; 17]);
    assert!(&rt; bits_over_ipv6() == ([false; 11], [true; 6]));
}

#[test]
fn other_numbers_are_another_identity(rt: HostRuntime) {
    // The direction, both ports, the network, an address of each kind.
    let found = [
        is_one(0, 2),
        is_one(0, 0x1_0000_0000),
        is_one(0, 0x1_0000_0000_0000),
        is_one(1, 1),
        is_one(2, 0x8000_0000_0000),
        is_one(5, 1),
        is_one(8, 0x8000_0000_0000_0000),
        is_one(9, 1),
    ];
    assert!(&rt; found == [true; 8]);
}
