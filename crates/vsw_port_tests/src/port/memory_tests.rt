//! A connection for which memory is wanting once, wherever that is. What wanted it is asked once more, and all goes on
//! as if it had been there: `rt try --test --fail-alloc N` refuses allocation N of each test.

use crate::port::commands::Asked;
use crate::port::history_tests::{CONNECTION, PAIRED};
use crate::port::packets::TCP;
use crate::port::trial::{PASS, RIGHT, Step, tried};
use std::alloc::Global;
use vsw_base::{Control, Dir};
use vsw_policy::Reply;

const SWEPT: [Step; 5] = [
    Step::HasPairs { pairs: 1, next: 1 },
    Step::Asks {
        line: 4,
        controller: 1,
        asked: Asked::Sweep { now: 10_004_000 },
        count: 7,
        reply: Reply::Ok,
    },
    Step::HasPairs { pairs: 0, next: 1 },
    Step::Sends {
        number: 6,
        dir: Dir::Out,
        proto: TCP,
        control: Control::Syn,
        told: (true, 8, PASS),
    },
    Step::HasPairs { pairs: 1, next: 2 },
];

/// The same once more where memory was wanting for the port.
fn tried_again(alloc: Global) -> Option<[Option<usize>; 2]> {
    let told = tried(alloc, &PAIRED, &CONNECTION, &SWEPT, true);
    if told.is_none() {
        return tried(alloc, &PAIRED, &CONNECTION, &SWEPT, true);
    }
    told
}

#[test]
fn connection_goes_on_where_memory_was_wanting_once(rt: HostRuntime) {
    assert!(&rt; tried_again(rt.alloc()) == RIGHT);
}
