//! Checksums from other sources.

use vsw_base::Ip4;
use vsw_header::{fresh, pseudo, update};

#[test]
fn bytes_of_the_rfc_have_its_checksum(rt: HostRuntime) {
    // RFC 1071, section 3
    let bytes = [0x00, 0x01, 0xf2, 0x03, 0xf4, 0xf5, 0xf6, 0xf7];
    assert!(rt; fresh(&bytes) == 0x220d);
}

#[test]
fn an_update_is_that_of_the_rfc(rt: HostRuntime) {
    // RFC 1624, section 4
    assert!(rt; update(0xdd2f, &[0x5555], &[0x3285]) == 0x0000);
}

#[test]
fn headers_of_linux_have_its_checksums(rt: HostRuntime) {
    // IPv4 headers with 0 in the place of the checksum: TCP's first packet, a packet with options,
    // a later fragment
    let first = [
        0x45, 0x00, 0x00, 0x3c, 0xbe, 0x4b, 0x40, 0x00, 0x40, 0x06, 0x00, 0x00, 0x7f, 0x00, 0x00,
        0x01, 0x7f, 0x00, 0x00, 0x01,
    ];
    let options = [
        0x47, 0x00, 0x00, 0x2b, 0x9a, 0x04, 0x40, 0x00, 0x40, 0x11, 0x00, 0x00, 0x7f, 0x00, 0x00,
        0x01, 0x7f, 0x00, 0x00, 0x01, 0x07, 0x07, 0x08, 0x7f, 0x00, 0x00, 0x01, 0x00,
    ];
    assert!(rt; [fresh(&first), fresh(&options)] == [0x7e6e, 0x9035]);
}

#[test]
fn a_datagram_has_its_checksum_before_and_after_translation(rt: HostRuntime) {
    // ports 1234 and 53, length 10, checksum 0, "hi"
    let mut datagram = [0x04, 0xd2, 0x00, 0x35, 0x00, 0x0a, 0x00, 0x00, 0x68, 0x69];
    let server = Ip4::of(0x0a00_0009);
    let before = pseudo(Ip4::of(0x0a00_0005), server, 17, &datagram);
    // from 192.0.2.7 and port 40000
    datagram[0] = 0x9c;
    datagram[1] = 0x40;
    let after = pseudo(Ip4::of(0xc000_0207), server, 17, &datagram);
    let from = [0x0a00, 0x0005, 0x04d2];
    let to = [0xc000, 0x0207, 0x9c40];
    let updated = update(0x7e5c, &from, &to);
    let header = update(0x26c2, &from[..2], &to[..2]);
    assert!(rt; [before, after, updated, header] == [0x7e5c, 0x2eeb, 0x2eeb, 0x6ebf]);
}

#[test]
fn an_odd_byte_has_a_zero_byte_after_it(rt: HostRuntime) {
    // by hand: 6162 + 6364 + 6566 + 6768 + 6900 is fa95 in one's complement
    assert!(rt; fresh(b"abcdefghi") == 0x056a);
}
