//! Lines of each kind, against texts that were written by hand.

use crate::report_samples::{dropped, is_printed, list, replied, round_of};
use std::alloc::Global;
use vsw_base::{BadFrame, Cause, Dir, Fate, Items};
use vsw_policy::{Refusal, Reply};
use vsw_report::{By, HEAD_LINE, Loose, LooseCause, PortRound, Round, ToldLine, What};

/// A read at no entry.
fn read(alloc: Global, why: Cause) -> ToldLine {
    dropped(alloc, By::Worker(1), 4, false, 0, why)
}

fn passed(bytes: Items<u8>) -> ToldLine {
    ToldLine {
        by: By::Worker(0),
        item: 3,
        entry: true,
        count: 0,
        what: What::Fate {
            fate: Fate::Pass { len: 3 },
            bytes,
        },
    }
}

fn fates(alloc: Global) -> Items<ToldLine> {
    let rule = Cause::Rule {
        controller: 1,
        layer: 10,
        group: 2,
        rule: 5,
    };
    let default_out = Cause::Default {
        controller: 1,
        layer: 10,
        dir: Dir::Out,
    };
    let default_in = Cause::Default {
        controller: 1,
        layer: 10,
        dir: Dir::In,
    };
    let full = Cause::Full {
        controller: 1,
        layer: 10,
    };
    let taken = Cause::Taken {
        controller: 1,
        layer: 10,
        pair: 7,
    };
    let told = [
        passed(list(alloc, [0x0a, 0x00, 0xff])),
        read(alloc, rule),
        read(alloc, default_out),
        read(alloc, default_in),
        read(alloc, Cause::Long),
        read(alloc, full),
        read(alloc, taken),
        read(alloc, Cause::Memory),
    ];
    list(alloc, told)
}

const FATES: &[u8] = b"vsw report 1
round 3
port 9 0 2
w0 3 +0 pass 3 0a00ff
w1 4 @0 drop rule 1/10/2/5
w1 4 @0 drop default 1/10 out
w1 4 @0 drop default 1/10 in
w1 4 @0 drop long
w1 4 @0 drop full 1/10
w1 4 @0 drop taken 1/10 7
w1 4 @0 drop memory
loose
";

fn fates_printed(alloc: Global) -> bool {
    let round = round_of(alloc, fates(alloc), Items::new(alloc));
    is_printed(alloc, HEAD_LINE, &round, FATES)
}

#[test]
fn each_fate_has_its_line(rt: HostRuntime) {
    assert!(&rt; fates_printed(rt.alloc()));
}

/// An entry of a refused command.
fn refused(why: Refusal) -> ToldLine {
    replied(By::Controller(2), 7, true, 1, Reply::Refused(why))
}

fn replies(alloc: Global) -> Items<ToldLine> {
    let told = [
        replied(By::Controller(2), 7, true, 0, Reply::Ok),
        refused(Refusal::NoLayer),
        refused(Refusal::LayerExists),
        refused(Refusal::NoGroup),
        refused(Refusal::GroupExists),
        refused(Refusal::NoRule),
        refused(Refusal::RuleExists),
        refused(Refusal::ManyLayers),
        refused(Refusal::ManyGroups),
        refused(Refusal::ManyRules),
        refused(Refusal::ManyParts),
        refused(Refusal::PartTwice),
        replied(
            By::Controller(2),
            7,
            false,
            2,
            Reply::Refused(Refusal::Memory),
        ),
    ];
    list(alloc, told)
}

const REPLIES: &[u8] = b"round 3
port 9 0 2
c2 7 +0 ok
c2 7 +1 refused 1 NoLayer
c2 7 +1 refused 2 LayerExists
c2 7 +1 refused 3 NoGroup
c2 7 +1 refused 4 GroupExists
c2 7 +1 refused 5 NoRule
c2 7 +1 refused 6 RuleExists
c2 7 +1 refused 7 ManyLayers
c2 7 +1 refused 8 ManyGroups
c2 7 +1 refused 9 ManyRules
c2 7 +1 refused 11 ManyParts
c2 7 +1 refused 12 PartTwice
c2 7 @2 refused 10 Memory
loose
";

fn replies_printed(alloc: Global) -> bool {
    let round = round_of(alloc, replies(alloc), Items::new(alloc));
    is_printed(alloc, &[], &round, REPLIES)
}

#[test]
fn each_reply_has_its_line(rt: HostRuntime) {
    assert!(&rt; replies_printed(rt.alloc()));
}

/// A packet whose bytes aren't a frame.
fn malformed(why: BadFrame) -> Loose {
    Loose {
        packet: 7,
        cause: LooseCause::Malformed(why),
    }
}

fn loose_packets(alloc: Global) -> Items<Loose> {
    let loose = [
        Loose {
            packet: 6,
            cause: LooseCause::Snapped,
        },
        malformed(BadFrame::ShortEther),
        malformed(BadFrame::ShortIp),
        malformed(BadFrame::IpVersion),
        malformed(BadFrame::IpLength),
        malformed(BadFrame::ShortTcp),
        malformed(BadFrame::TcpOffset),
        malformed(BadFrame::ShortUdp),
        malformed(BadFrame::UdpLength),
        malformed(BadFrame::TooLong),
        malformed(BadFrame::ShortIp6),
        malformed(BadFrame::Ip6Version),
        malformed(BadFrame::Ip6Length),
        Loose {
            packet: 10,
            cause: LooseCause::NoPort,
        },
    ];
    list(alloc, loose)
}

const LOOSE: &[u8] = b"round 3
port 9 0 2
loose
6 snapped
7 malformed 1 ShortEther
7 malformed 2 ShortIp
7 malformed 3 IpVersion
7 malformed 4 IpLength
7 malformed 5 ShortTcp
7 malformed 6 TcpOffset
7 malformed 7 ShortUdp
7 malformed 8 UdpLength
7 malformed 9 TooLong
7 malformed 10 ShortIp6
7 malformed 11 Ip6Version
7 malformed 12 Ip6Length
10 noport
";

fn loose_printed(alloc: Global) -> bool {
    let round = round_of(alloc, Items::new(alloc), loose_packets(alloc));
    is_printed(alloc, &[], &round, LOOSE)
}

#[test]
fn each_loose_packet_has_its_line(rt: HostRuntime) {
    assert!(&rt; loose_printed(rt.alloc()));
}

/// The numbers of a port's round and of its lines at their least or greatest.
fn port_at(alloc: Global, small: u16, great: u32) -> PortRound {
    let taken = Cause::Taken {
        controller: small,
        layer: small,
        pair: great,
    };
    let rule = Cause::Rule {
        controller: small,
        layer: small,
        group: small,
        rule: small,
    };
    let told = [
        dropped(alloc, By::Worker(great), great, true, great, taken),
        dropped(alloc, By::Worker(great), great, false, great, rule),
        replied(By::Controller(small), great, true, great, Reply::Ok),
    ];
    PortRound {
        port: small,
        before: great,
        after: great,
        lines: list(alloc, told),
    }
}

fn numbers(alloc: Global) -> Round {
    let ports = [port_at(alloc, 0, 0), port_at(alloc, u16::MAX, u32::MAX)];
    let loose = [Loose {
        packet: u32::MAX,
        cause: LooseCause::NoPort,
    }];
    Round {
        first: u32::MAX,
        ports: list(alloc, ports),
        loose: list(alloc, loose),
    }
}

const NUMBERS: &[u8] = b"round 4294967295
port 0 0 0
w0 0 +0 drop taken 0/0 0
w0 0 @0 drop rule 0/0/0/0
c0 0 +0 ok
port 65535 4294967295 4294967295
w4294967295 4294967295 +4294967295 drop taken 65535/65535 4294967295
w4294967295 4294967295 @4294967295 drop rule 65535/65535/65535/65535
c65535 4294967295 +4294967295 ok
loose
4294967295 noport
";

fn numbers_printed(alloc: Global) -> bool {
    is_printed(alloc, &[], &numbers(alloc), NUMBERS)
}

#[test]
fn numbers_are_whole_at_both_ends(rt: HostRuntime) {
    assert!(&rt; numbers_printed(rt.alloc()));
}
