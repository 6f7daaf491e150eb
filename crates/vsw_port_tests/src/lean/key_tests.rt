//! Words of identities, and where the search for them begins.

use crate::lean::samples::{
    ANSWER, COVERED6, ECHO6, QUERY, QUERY6, TWICE, encap, ether, ip, ports, query, query6, six,
};
use vsw_base::{Dir, Header, Stack, Ufid};
use vsw_words::{key_words, slot_of};

fn has_words(dir: Dir, headers: &[Header], words: &[u64; 16]) -> bool {
    match Stack::of(headers) {
        Ok(stack) => {
            let mut out = [9; 16];
            key_words(&Ufid { dir, stack }, &mut out);
            out == *words
        }
        Err(_) => false,
    }
}

/// The answer to 192.0.2.7, in network 5001.
fn answer() -> [Header; 6] {
    [
        ether(0x0200_0000_0a01, 0x0200_0000_0a02, 0x0800),
        ip(0xac10_0002, 0xac10_0001, false),
        Header::Vxlan { vni: 5001 },
        ether(0x0200_0000_0001, 0x0200_0000_0099, 0x0800),
        ip(0x0a00_0009, 0xc000_0207, false),
        ports(53, 40_000),
    ]
}

/// The query in network 5001 in network 7.
fn query_twice() -> [Header; 9] {
    let [a, b, c] = encap(7);
    let [d, e, f] = encap(5001);
    let [g, h, i] = query();
    [a, b, c, d, e, f, g, h, i]
}

/// The query over IPv6 in network 5001.
fn covered6() -> [Header; 6] {
    let [a, b, c] = encap(5001);
    let [d, e, f] = query6();
    [a, b, c, d, e, f]
}

/// An echo request over IPv6.
fn echo6() -> [Header; 2] {
    let [ether, _, _] = query6();
    [ether, six(58)]
}

/// A key of a frame without ports, of these first and last words.
fn short(first: u64, addresses: u64) -> [u64; 16] {
    let (dst, src) = (0xffff_ffff_ffff, 0x0200_0000_0001);
    [
        first, 0, dst, src, 0, 0, 0, 0, addresses, 0, 0, 0, 0, 0, 0, 0,
    ]
}

#[test]
fn words_are_those_of_the_table(rt: HostRuntime) {
    let to_all = ether(0xffff_ffff_ffff, 0x0200_0000_0001, 0x0800);
    let fragment = [to_all, ip(0x0a00_0005, 0x0a00_0009, true)];
    let arp = [ether(0xffff_ffff_ffff, 0x0200_0000_0001, 0x0806)];
    let found = [
        has_words(Dir::Out, &query(), &QUERY),
        has_words(Dir::In, &answer(), &ANSWER),
        has_words(Dir::Out, &query_twice(), &TWICE),
        has_words(
            Dir::Out,
            &fragment,
            &short(0x0800_1151, 0x0a00_0005_0a00_0009),
        ),
        has_words(Dir::Out, &arp, &short(0x0806_0001, 0)),
    ];
    assert!(&rt; found == [true; 5]);
    let over_ipv6 = [
        has_words(Dir::Out, &query6(), &QUERY6),
        has_words(Dir::In, &covered6(), &COVERED6),
        has_words(Dir::Out, &echo6(), &ECHO6),
    ];
    assert!(&rt; over_ipv6 == [true; 3]);
}

#[test]
fn slots_are_those_of_another_program(rt: HostRuntime) {
    let query = [
        slot_of(&QUERY, 8),
        slot_of(&QUERY, 100),
        slot_of(&QUERY, 1024),
        slot_of(&QUERY, 4_294_967_295),
    ];
    assert!(&rt; query == [1, 17, 174, 733_351_680]);
    let others = [
        slot_of(&ANSWER, 100),
        slot_of(&ANSWER, 65_536),
        slot_of(&[0xffff_ffff_ffff_ffff; 16], 1024),
        slot_of(&[0; 16], 1024),
    ];
    assert!(&rt; others == [28, 18_967, 347, 0]);
}
