//! A line of each kind, with the numbers at their ends, is read.

use crate::reading::{bad_line, is_read};
use std::alloc::Global;

const FATES: &[u8] = b"vsw report 1
round 3
port 9 0 2
w0 1 @0 drop default 1/10 out
w0 2 @0 drop default 1/10 in
w0 3 +0 pass 3 0a00ff
w1 4 @1 drop rule 1/10/2/5
w1 5 @1 drop long
w2 6 @1 drop full 1/10
w2 7 @1 drop taken 1/10 7
w2 8 @1 drop memory
c1 1 @1 refused 10 Memory
w0 9 +1 pass 0 \nloose
";

const REPLIES: &[u8] = b"vsw report 1
round 0
port 1 0 13
c1 1 +0 ok
c1 2 +1 refused 1 NoLayer
c1 3 +2 refused 2 LayerExists
c1 4 +3 refused 3 NoGroup
c1 5 +4 refused 4 GroupExists
c1 6 +5 refused 5 NoRule
c1 7 +6 refused 6 RuleExists
c1 8 +7 refused 7 ManyLayers
c1 9 +8 refused 8 ManyGroups
c1 10 +9 refused 9 ManyRules
c1 11 +10 refused 10 Memory
c1 12 +11 refused 11 ManyParts
c1 13 +12 refused 12 PartTwice
loose
";

const LOOSE: &[u8] = b"vsw report 1
round 0
loose
0 snapped
1 noport
2 malformed 1 ShortEther
3 malformed 2 ShortIp
4 malformed 3 IpVersion
5 malformed 4 IpLength
6 malformed 5 ShortTcp
7 malformed 6 TcpOffset
8 malformed 7 ShortUdp
9 malformed 8 UdpLength
10 malformed 9 TooLong
11 malformed 10 ShortIp6
12 malformed 11 Ip6Version
13 malformed 12 Ip6Length
";

const NUMBERS: &[u8] = b"vsw report 1
round 4294967295
port 0 0 0
w0 0 @0 drop taken 0/0 0
port 65535 4294967294 4294967295
w4294967295 4294967295 @4294967294 drop rule 65535/65535/65535/65535
c65535 4294967295 +4294967294 ok
c0 4294967295 @4294967295 ok
loose
4294967295 noport
";

#[test]
fn each_fate_is_read(rt: HostRuntime) {
    assert!(&rt; is_read(rt.alloc(), FATES));
}

#[test]
fn each_reply_is_read(rt: HostRuntime) {
    assert!(&rt; is_read(rt.alloc(), REPLIES));
}

#[test]
fn each_loose_line_is_read(rt: HostRuntime) {
    assert!(&rt; is_read(rt.alloc(), LOOSE));
}

#[test]
fn numbers_are_read_at_both_ends(rt: HostRuntime) {
    assert!(&rt; is_read(rt.alloc(), NUMBERS));
}

/// Reads at one count: workers by number, then controllers by number, each as often as it likes.
const READS: &[u8] = b"vsw report 1
round 0
port 1 0 0
w0 0 @0 drop long
w0 1 @0 drop long
w20 2 @0 drop long
c1 1 @0 ok
c1 2 @0 ok
c7 3 @0 ok
loose
round 1
port 1 0 0
port 2 5 5
loose
0 snapped
0 snapped
";

#[test]
fn reads_stand_in_order(rt: HostRuntime) {
    assert!(&rt; is_read(rt.alloc(), READS));
}

const WORKERS_FALL: &[u8] = b"vsw report 1
round 0
port 1 0 0
w1 0 @0 drop long
w0 1 @0 drop long
loose
";

const CONTROLLER_FIRST: &[u8] = b"vsw report 1
round 0
port 1 0 0
c1 0 @0 ok
w9 1 @0 drop long
loose
";

fn bad_orders(alloc: Global) -> (Option<u32>, Option<u32>) {
    (
        bad_line(alloc, WORKERS_FALL),
        bad_line(alloc, CONTROLLER_FIRST),
    )
}

#[test]
fn reads_out_of_order_are_refused(rt: HostRuntime) {
    assert_eq!(&rt; bad_orders(rt.alloc()), (Some(5), Some(5)));
}
