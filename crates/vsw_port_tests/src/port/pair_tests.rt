//! Pairs that have a place, and that have none.

use crate::port::commit_trial::{RIGHT, Sent, Step, tried};
use crate::port::layers::{BACK, Does, Given, OUT, Ruled};
use vsw_base::Control;
use vsw_port::Stop;

/// Outbound packets of layer 10 come from the public address, in pairs.
const HIDE: Ruled = Ruled {
    does: Does::HideSource,
    ..OUT
};

const OUT_20: Ruled = Ruled { layer: 20, ..OUT };

const DROP_20: Ruled = Ruled {
    layer: 20,
    does: Does::Drop,
    stateful: false,
    ..OUT
};

const BACK_20: Ruled = Ruled { layer: 20, ..BACK };

const ONE_PAIR: [Given; 3] = [
    Given::Open {
        layer: 10,
        pairs: 1,
    },
    Given::Group(OUT),
    Given::Group(BACK),
];

const TWO_PAIRS: [Given; 3] = [
    Given::Open {
        layer: 10,
        pairs: 2,
    },
    Given::Group(OUT),
    Given::Group(BACK),
];

const HIDING: [Given; 3] = [
    Given::Open {
        layer: 10,
        pairs: 16,
    },
    Given::Group(HIDE),
    Given::Group(BACK),
];

const BOTH: [Given; 6] = [
    Given::Open {
        layer: 10,
        pairs: 16,
    },
    Given::Group(OUT),
    Given::Group(BACK),
    Given::Open {
        layer: 20,
        pairs: 1,
    },
    Given::Group(OUT_20),
    Given::Group(BACK_20),
];

const DROPPING: [Given; 6] = [
    Given::Open {
        layer: 10,
        pairs: 16,
    },
    Given::Group(OUT),
    Given::Group(BACK),
    Given::Open {
        layer: 20,
        pairs: 1,
    },
    Given::Group(DROP_20),
    Given::Group(BACK_20),
];

const FULL: Stop = Stop::Full {
    controller: 1,
    layer: 10,
};

const LIMIT: [Step; 4] = [
    Step::Becomes {
        sent: Sent::Out { port: 1 },
        becomes: Ok(true),
    },
    Step::Becomes {
        sent: Sent::Out { port: 2 },
        becomes: Ok(true),
    },
    Step::Becomes {
        sent: Sent::Out { port: 3 },
        becomes: Err(FULL),
    },
    Step::Has {
        place: 0,
        pairs: 2,
        next: 2,
    },
];

#[test]
fn a_layer_takes_pairs_up_to_its_limit(rt: HostRuntime) {
    assert!(&rt; tried(rt.alloc(), &TWO_PAIRS, &LIMIT) == RIGHT);
}

const REOPENED: [Step; 6] = [
    Step::Becomes {
        sent: Sent::Connect {
            port: 1,
            control: Control::Syn,
        },
        becomes: Ok(true),
    },
    // A touch, and then nothing to change.
    Step::Becomes {
        sent: Sent::Connect {
            port: 1,
            control: Control::Rst,
        },
        becomes: Ok(true),
    },
    Step::Becomes {
        sent: Sent::Connect {
            port: 1,
            control: Control::Rst,
        },
        becomes: Ok(false),
    },
    Step::Has {
        place: 0,
        pairs: 1,
        next: 1,
    },
    Step::Becomes {
        sent: Sent::Connect {
            port: 1,
            control: Control::Syn,
        },
        becomes: Ok(true),
    },
    Step::Has {
        place: 0,
        pairs: 1,
        next: 2,
    },
];

#[test]
fn a_pair_that_is_reopened_makes_room(rt: HostRuntime) {
    assert!(&rt; tried(rt.alloc(), &ONE_PAIR, &REOPENED) == RIGHT);
}

const STAYS: [Step; 2] = [
    Step::Becomes {
        sent: Sent::Connect {
            port: 1,
            control: Control::Rst,
        },
        becomes: Ok(true),
    },
    Step::Becomes {
        sent: Sent::Connect {
            port: 2,
            control: Control::Syn,
        },
        becomes: Err(FULL),
    },
];

#[test]
fn a_pair_that_stays_takes_a_place(rt: HostRuntime) {
    assert!(&rt; tried(rt.alloc(), &ONE_PAIR, &STAYS) == RIGHT);
}

const TAKEN: Stop = Stop::Taken {
    controller: 1,
    layer: 10,
    pair: 1,
};

const REPLIES: [Step; 4] = [
    Step::Becomes {
        sent: Sent::OfOther { port: 7 },
        becomes: Ok(true),
    },
    Step::Becomes {
        sent: Sent::OfOther { port: 8 },
        becomes: Ok(true),
    },
    Step::Becomes {
        sent: Sent::Out { port: 8 },
        becomes: Err(TAKEN),
    },
    Step::Has {
        place: 0,
        pairs: 2,
        next: 2,
    },
];

#[test]
fn replies_are_another_pairs_replies(rt: HostRuntime) {
    assert!(&rt; tried(rt.alloc(), &HIDING, &REPLIES) == RIGHT);
}

const TAKEN_BY_FIRST: Stop = Stop::Taken {
    controller: 1,
    layer: 10,
    pair: 0,
};

const PACKETS: [Step; 3] = [
    Step::Becomes {
        sent: Sent::In { port: 8 },
        becomes: Ok(true),
    },
    Step::Becomes {
        sent: Sent::Out { port: 8 },
        becomes: Err(TAKEN_BY_FIRST),
    },
    Step::Becomes {
        sent: Sent::Out { port: 9 },
        becomes: Ok(true),
    },
];

#[test]
fn replies_are_another_pairs_packets(rt: HostRuntime) {
    assert!(&rt; tried(rt.alloc(), &HIDING, &PACKETS) == RIGHT);
}

const SECOND_FULL: Stop = Stop::Full {
    controller: 1,
    layer: 20,
};

const REFUSED: [Step; 4] = [
    Step::Becomes {
        sent: Sent::Out { port: 1 },
        becomes: Ok(true),
    },
    Step::Becomes {
        sent: Sent::Out { port: 2 },
        becomes: Err(SECOND_FULL),
    },
    Step::Has {
        place: 0,
        pairs: 1,
        next: 1,
    },
    Step::Has {
        place: 1,
        pairs: 1,
        next: 1,
    },
];

#[test]
fn a_refusal_in_one_layer_leaves_the_other_as_it_was(rt: HostRuntime) {
    assert!(&rt; tried(rt.alloc(), &BOTH, &REFUSED) == RIGHT);
}

const DROPPED: [Step; 2] = [
    Step::Becomes {
        sent: Sent::Out { port: 1 },
        becomes: Ok(false),
    },
    Step::Has {
        place: 0,
        pairs: 0,
        next: 0,
    },
];

#[test]
fn a_drop_changes_nothing(rt: HostRuntime) {
    assert!(&rt; tried(rt.alloc(), &DROPPING, &DROPPED) == RIGHT);
}
