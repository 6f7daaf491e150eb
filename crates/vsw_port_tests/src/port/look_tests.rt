//! What walks look for, and until when they hold.

use crate::port::commit_trial::{Looks, RIGHT, Sent, Step, tried};
use crate::port::layers::{BACK, Does, Given, OUT, PUBLIC, Ruled};
use crate::port::packets::OWN;
use vsw_base::{Control, Dir};
use vsw_rule::Field;

/// A quarter of 240, of 100 and of 10 seconds.
const QUARTER: u64 = 60_000_000;

const SHORT: u64 = 25_000_000;

const LINGER: u64 = 2_500_000;

/// Layer 10 makes pairs of all that goes out.
const LET_OUT: Ruled = Ruled {
    layer: 10,
    dir: Dir::Out,
    rule: 1,
    priority: 10,
    when: None,
    does: Does::Allow,
    stateful: true,
};

/// Layer 20 hides the own address behind the public one, in pairs too.
const TRANSLATE: Ruled = Ruled {
    layer: 20,
    when: Some((Field::SrcIp, OWN as u64)),
    does: Does::Translate,
    ..LET_OUT
};

/// Layer 30 puts packets in a network, and takes them out of it.
const PUT_IN: Ruled = Ruled {
    layer: 30,
    does: Does::PutIn,
    stateful: false,
    ..LET_OUT
};

const TAKE_OUT: Ruled = Ruled {
    layer: 30,
    dir: Dir::In,
    rule: 2,
    when: Some((Field::Vni, 5001)),
    does: Does::TakeOut,
    stateful: false,
    ..LET_OUT
};

/// Layer 10 makes no pairs of what goes out.
const LET_OUT_ALONE: Ruled = Ruled {
    stateful: false,
    ..LET_OUT
};

/// What comes in to the public address goes to port 1234 of the own one, in pairs.
const FORWARD: Ruled = Ruled {
    dir: Dir::In,
    rule: 2,
    when: Some((Field::DstIp, PUBLIC as u64)),
    does: Does::Forward,
    ..LET_OUT
};

/// The first two layers are idle so long.
const EQUAL: [Given; 7] = [
    Given::Strict {
        layer: 10,
        idle: 240,
    },
    Given::Group(LET_OUT),
    Given::Strict {
        layer: 20,
        idle: 240,
    },
    Given::Group(TRANSLATE),
    Given::Strict {
        layer: 30,
        idle: 240,
    },
    Given::Group(PUT_IN),
    Given::Group(TAKE_OUT),
];

const FIRST_SHORT: [Given; 7] = [
    Given::Strict {
        layer: 10,
        idle: 100,
    },
    Given::Group(LET_OUT),
    Given::Strict {
        layer: 20,
        idle: 240,
    },
    Given::Group(TRANSLATE),
    Given::Strict {
        layer: 30,
        idle: 240,
    },
    Given::Group(PUT_IN),
    Given::Group(TAKE_OUT),
];

const SECOND_SHORT: [Given; 7] = [
    Given::Strict {
        layer: 10,
        idle: 240,
    },
    Given::Group(LET_OUT),
    Given::Strict {
        layer: 20,
        idle: 100,
    },
    Given::Group(TRANSLATE),
    Given::Strict {
        layer: 30,
        idle: 240,
    },
    Given::Group(PUT_IN),
    Given::Group(TAKE_OUT),
];

const FORWARDING: [Given; 3] = [
    Given::Strict {
        layer: 10,
        idle: 240,
    },
    Given::Group(LET_OUT_ALONE),
    Given::Group(FORWARD),
];

const PAIRED: [Given; 3] = [
    Given::Open {
        layer: 10,
        pairs: 16,
    },
    Given::Group(OUT),
    Given::Group(BACK),
];

const QUERY: Sent = Sent::Out { port: 1234 };

const MISSED_ALL: Looks = [
    Some((0, 1234, None)),
    Some((1, 1234, None)),
    Some((2, 40_000, None)),
];

const FOUND_TWO: Looks = [
    Some((0, 1234, Some(0))),
    Some((1, 1234, Some(0))),
    Some((2, 40_000, None)),
];

const FOUND_BACK: Looks = [
    Some((2, 53, None)),
    Some((1, 53, Some(0))),
    Some((0, 53, Some(0))),
];

const LEANS: [Step; 3] = [
    Step::Looks {
        sent: QUERY,
        moment: 7,
        looks: MISSED_ALL,
        until: u64::MAX,
    },
    Step::Looks {
        sent: QUERY,
        moment: 8,
        looks: FOUND_TWO,
        until: 7 + QUARTER,
    },
    // In the network.
    Step::Looks {
        sent: Sent::Covered,
        moment: 9,
        looks: FOUND_BACK,
        until: 7 + QUARTER,
    },
];

#[test]
fn a_reply_leans_on_the_pairs_of_its_query(rt: HostRuntime) {
    assert!(&rt; tried(rt.alloc(), &EQUAL, &LEANS) == RIGHT);
}

const FIRST_DUE: [Step; 4] = [
    Step::Looks {
        sent: QUERY,
        moment: 7,
        looks: MISSED_ALL,
        until: u64::MAX,
    },
    Step::Looks {
        sent: QUERY,
        moment: 8,
        looks: FOUND_TWO,
        until: 7 + SHORT,
    },
    // One past that moment renews the first pair's last use, and the second pair is due later still.
    Step::Looks {
        sent: QUERY,
        moment: 8 + SHORT,
        looks: FOUND_TWO,
        until: 7 + SHORT,
    },
    Step::Looks {
        sent: QUERY,
        moment: 9 + SHORT,
        looks: FOUND_TWO,
        until: 8 + 2 * SHORT,
    },
];

#[test]
fn the_first_pair_that_is_due_ends_the_time(rt: HostRuntime) {
    assert!(&rt; tried(rt.alloc(), &FIRST_SHORT, &FIRST_DUE) == RIGHT);
}

const SECOND_DUE: [Step; 2] = [
    Step::Looks {
        sent: QUERY,
        moment: 7,
        looks: MISSED_ALL,
        until: u64::MAX,
    },
    Step::Looks {
        sent: QUERY,
        moment: 8,
        looks: FOUND_TWO,
        until: 7 + SHORT,
    },
];

#[test]
fn it_may_be_the_second_pair(rt: HostRuntime) {
    assert!(&rt; tried(rt.alloc(), &SECOND_SHORT, &SECOND_DUE) == RIGHT);
}

const FOUND: Looks = [Some((0, 1234, Some(0))), None, None];

const HOLDS: [Step; 3] = [
    Step::Looks {
        sent: QUERY,
        moment: 7,
        looks: [Some((0, 1234, None)), None, None],
        until: u64::MAX,
    },
    Step::Looks {
        sent: Sent::In { port: 80 },
        moment: 8,
        looks: [Some((0, 53, None)), None, None],
        until: u64::MAX,
    },
    Step::Looks {
        sent: QUERY,
        moment: 9,
        looks: FOUND,
        until: 8 + QUARTER,
    },
];

#[test]
fn a_new_pair_holds_what_was_missed(rt: HostRuntime) {
    assert!(&rt; tried(rt.alloc(), &FORWARDING, &HOLDS) == RIGHT);
}

const CLOSED: [Step; 3] = [
    Step::Looks {
        sent: Sent::Connect {
            port: 1234,
            control: Control::Syn,
        },
        moment: 7,
        looks: [Some((0, 1234, None)), None, None],
        until: u64::MAX,
    },
    // It closes the pair, which then lives less long.
    Step::Looks {
        sent: Sent::Connect {
            port: 1234,
            control: Control::Rst,
        },
        moment: 8,
        looks: FOUND,
        until: 7 + QUARTER,
    },
    Step::Looks {
        sent: Sent::Connect {
            port: 1234,
            control: Control::None,
        },
        moment: 9,
        looks: FOUND,
        until: 7 + LINGER,
    },
];

#[test]
fn a_pair_is_due_by_the_state_in_which_it_is_found(rt: HostRuntime) {
    assert!(&rt; tried(rt.alloc(), &PAIRED, &CLOSED) == RIGHT);
}
