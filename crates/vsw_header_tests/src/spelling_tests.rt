//! Texts of addresses.

ghost use Rattle.std.specs.Prelude.{◌<◌, ◌^◌};

use vsw_base::{BadText, Ip4, Ip6, Mac, Prefix, Prefix6};

fn is_mac(text: &[u8], number: u64) -> bool
    requires { number < 2 ^ 48 }
{
    Mac::read(text) == Ok(Mac::of(number))
}

fn is_ip(text: &[u8], number: u32) -> bool {
    Ip4::read(text) == Ok(Ip4::of(number))
}

fn is_prefix(text: &[u8], number: u32, bits: u8) -> bool {
    let prefix = Prefix {
        value: Ip4::of(number),
        bits,
    };
    Prefix::read(text) == Ok(prefix)
}

#[test]
fn addresses_are_read_from_their_texts(rt: HostRuntime) {
    let read = [
        is_mac(b"02:00:00:00:0a:fF", 0x0200_0000_0aff),
        is_ip(b"10.0.0.255", 0x0a00_00ff),
        is_prefix(b"10.0.0.0/8", 0x0a00_0000, 8),
        is_prefix(b"10.0.0.1", 0x0a00_0001, 32),
    ];
    assert!(rt; read == [true; 4]);
}

fn is_no_mac(text: &[u8]) -> bool {
    Mac::read(text) == Err(BadText)
}

fn is_no_ip(text: &[u8]) -> bool {
    Ip4::read(text) == Err(BadText)
}

fn is_no_prefix(text: &[u8]) -> bool {
    Prefix::read(text) == Err(BadText)
}

#[test]
fn other_texts_are_refused(rt: HostRuntime) {
    let macs = [
        is_no_mac(b"02:00:00:00:0a"),
        is_no_mac(b"02-00-00-00-0a-01"),
    ];
    let addresses = [
        is_no_ip(b"10.0.0.256"),
        is_no_ip(b"10.0.0.01"),
        is_no_ip(b"10.0.0"),
        is_no_ip(b"10.0.0.1.2"),
    ];
    let prefixes = [
        is_no_prefix(b"10.0.0.0/33"),
        is_no_prefix(b"10.0.0.0/08"),
        is_no_prefix(b"10.0.0.0/"),
    ];
    assert!(rt; macs == [true; 2] && addresses == [true; 4] && prefixes == [true; 3]);
}

/// Texts, and the address that each spells (RFC 4291, section 2.2).
const SIX: [(&str, Option<u128>); 24] = [
    ("fd00::5", Some(0xfd00_0000_0000_0000_0000_0000_0000_0005)),
    ("::", Some(0)),
    ("::1", Some(1)),
    ("1::", Some(0x0001_0000_0000_0000_0000_0000_0000_0000)),
    (
        "FF02::1:fF00:9",
        Some(0xff02_0000_0000_0000_0000_0001_ff00_0009),
    ),
    (
        "2001:db8:0:0:8:800:200c:417a",
        Some(0x2001_0db8_0000_0000_0008_0800_200c_417a),
    ),
    (
        "2001:0db8:0000:0000:0008:0800:200c:417a",
        Some(0x2001_0db8_0000_0000_0008_0800_200c_417a),
    ),
    (
        "1:2:3:4:5:6:7::",
        Some(0x0001_0002_0003_0004_0005_0006_0007_0000),
    ),
    (
        "::2:3:4:5:6:7:8",
        Some(0x0000_0002_0003_0004_0005_0006_0007_0008),
    ),
    (
        "1:2:3::5:6:7:8",
        Some(0x0001_0002_0003_0000_0005_0006_0007_0008),
    ),
    ("1::2::3", None),
    ("1:2:3:4:5:6:7:8::", None),
    ("::1:2:3:4:5:6:7:8", None),
    ("1:2:3:4::5:6:7:8", None),
    ("1:2:3:4:5:6:7", None),
    ("1:2:3:4:5:6:7:8:9", None),
    ("00001::", None),
    ("g::", None),
    (":::", None),
    (":1::", None),
    ("1::2:", None),
    ("::ffff:10.0.0.5", None),
    ("10.0.0.5", None),
    ("", None),
];

/// The place of the first text that spells another address.
fn wrong_six(texts: &[(&str, Option<u128>)]) -> Option<usize> {
    for place in 0..texts.len() {
        let (text, number) = texts[place];
        if Ip6::read(text.as_bytes()) != address_of(number) {
            return Some(place);
        }
    }
    None
}

/// Texts, and the prefix that each spells.
const PREFIXES: [(&str, Option<(u128, u8)>); 12] = [
    (
        "fd00::/64",
        Some((0xfd00_0000_0000_0000_0000_0000_0000_0000, 64)),
    ),
    (
        "fd00::9/8",
        Some((0xfd00_0000_0000_0000_0000_0000_0000_0009, 8)),
    ),
    (
        "fd00::9",
        Some((0xfd00_0000_0000_0000_0000_0000_0000_0009, 128)),
    ),
    ("::/0", Some((0, 0))),
    ("::1/128", Some((1, 128))),
    ("::/129", None),
    ("::/064", None),
    ("::/", None),
    ("::/+1", None),
    ("/64", None),
    ("::/64/64", None),
    ("10.0.0.0/8", None),
];

fn address_of(number: Option<u128>) -> Result<Ip6, BadText> {
    match number {
        Some(number) => Ok(Ip6::of(number)),
        None => Err(BadText),
    }
}

fn prefix_of(prefix: Option<(u128, u8)>) -> Result<Prefix6, BadText> {
    match prefix {
        Some((number, bits)) => Ok(Prefix6 {
            value: Ip6::of(number),
            bits,
        }),
        None => Err(BadText),
    }
}

/// The place of the first text that spells another prefix.
fn wrong_prefix(texts: &[(&str, Option<(u128, u8)>)]) -> Option<usize> {
    for place in 0..texts.len() {
        let (text, prefix) = texts[place];
        if Prefix6::read(text.as_bytes()) != prefix_of(prefix) {
            return Some(place);
        }
    }
    None
}

#[test]
fn addresses_and_prefixes_of_ipv6_are_read(rt: HostRuntime) {
    assert!(rt; wrong_six(&SIX) == None && wrong_prefix(&PREFIXES) == None);
}
