//! Headers, and words that were typed by hand from the table.

ghost use Rattle.std.specs.Prelude.{◌<◌, ◌^◌};

use vsw_base::{Header, Ip4, Ip6, Mac};

pub fn ether(dst: u64, src: u64, kind: u16) -> Header
    requires dst { dst < 2 ^ 48 }
    requires src { src < 2 ^ 48 }
{
    Header::Ether {
        dst: Mac::of(dst),
        src: Mac::of(src),
        kind,
    }
}

pub fn ip(src: u32, dst: u32, part: bool) -> Header {
    Header::Ip {
        src: Ip4::of(src),
        dst: Ip4::of(dst),
        proto: 17,
        part,
    }
}

pub fn ports(src: u16, dst: u16) -> Header {
    Header::Ports {
        proto: 17,
        src,
        dst,
    }
}

/// The query of 10.0.0.5, port 1234, to port 53 of 10.0.0.9.
pub fn query() -> [Header; 3] {
    [
        ether(0x0200_0000_0099, 0x0200_0000_0001, 0x0800),
        ip(0x0a00_0005, 0x0a00_0009, false),
        ports(1234, 53),
    ]
}

/// An encapsulation in this network, from 172.16.0.1 to 172.16.0.2.
pub fn encap(vni: u32) -> [Header; 3] {
    [
        ether(0x0200_0000_0a02, 0x0200_0000_0a01, 0x0800),
        ip(0xac10_0001, 0xac10_0002, false),
        Header::Vxlan { vni },
    ]
}

/// The words of the query, outbound.
pub const QUERY: [u64; 16] = [
    0x0035_04d2_0800_1131,
    0,
    0x0200_0000_0099,
    0x0200_0000_0001,
    0,
    0,
    0,
    0,
    0x0a00_0005_0a00_0009,
    0,
    0,
    0,
    0,
    0,
    0,
    0,
];

/// The words of the answer to 192.0.2.7, port 40000, in network 5001, inbound.
pub const ANSWER: [u64; 16] = [
    0x9c40_0035_0800_1137,
    5001,
    0x0200_0000_0a01,
    0x0200_0000_0a02,
    0x0200_0000_0001,
    0x0200_0000_0099,
    0,
    0,
    0xac10_0002_ac10_0001,
    0x0a00_0009_c000_0207,
    0,
    0,
    0,
    0,
    0,
    0,
];

/// The words of the query in network 5001 in network 7, outbound.
pub const TWICE: [u64; 16] = [
    0x0035_04d2_0800_1139,
    7 + 5001 * 0x100_0000,
    0x0200_0000_0a02,
    0x0200_0000_0a01,
    0x0200_0000_0a02,
    0x0200_0000_0a01,
    0x0200_0000_0099,
    0x0200_0000_0001,
    0xac10_0001_ac10_0002,
    0xac10_0001_ac10_0002,
    0x0a00_0005_0a00_0009,
    0,
    0,
    0,
    0,
    0,
];

/// From fd00::5 to fd00::9.
pub fn six(proto: u8) -> Header {
    Header::Six {
        src: Ip6::of(0xfd00_0000_0000_0000_0000_0000_0000_0005),
        dst: Ip6::of(0xfd00_0000_0000_0000_0000_0000_0000_0009),
        proto,
    }
}

/// The query of fd00::5, port 1234, to port 53 of fd00::9.
pub fn query6() -> [Header; 3] {
    [
        ether(0x0200_0000_0099, 0x0200_0000_0001, 0x86dd),
        six(17),
        ports(1234, 53),
    ]
}

/// Its words, outbound.
pub const QUERY6: [u64; 16] = [
    0x0035_04d2_86dd_11a1,
    0,
    0x0200_0000_0099,
    0x0200_0000_0001,
    0,
    0,
    0,
    0,
    0,
    0,
    0,
    0xfd00_0000_0000_0000,
    5,
    0xfd00_0000_0000_0000,
    9,
    0,
];

/// Its words in network 5001, inbound.
pub const COVERED6: [u64; 16] = [
    0x0035_04d2_86dd_11a7,
    5001,
    0x0200_0000_0a02,
    0x0200_0000_0a01,
    0x0200_0000_0099,
    0x0200_0000_0001,
    0,
    0,
    0xac10_0001_ac10_0002,
    0,
    0,
    0xfd00_0000_0000_0000,
    5,
    0xfd00_0000_0000_0000,
    9,
    0,
];

/// The words of an echo request over IPv6, outbound.
pub const ECHO6: [u64; 16] = [
    0x86dd_3a81,
    0,
    0x0200_0000_0099,
    0x0200_0000_0001,
    0,
    0,
    0,
    0,
    0,
    0,
    0,
    0xfd00_0000_0000_0000,
    5,
    0xfd00_0000_0000_0000,
    9,
    0,
];
