//! Rows that stand after packets.

use crate::cores::desk::Seen;
use crate::cores::packets::{FAR, OTHER, OWN, PUBLIC};
use crate::cores::policies::Made;
use crate::cores::steps::{PASS, RIGHT, Step, Way, tried};
use vsw_base::{Cause, Control, Dir, Fate, Verdict};

const WAYS: [Way; 2] = [(Dir::Out, OWN, FAR), (Dir::Out, OTHER, FAR)];

const BOTH_WAYS: [Way; 2] = [(Dir::Out, OWN, FAR), (Dir::In, FAR, PUBLIC)];

const OTHERS: [Way; 1] = [(Dir::Out, OTHER, FAR)];

/// The pair that is made holds what the row missed.
const PUBLISHED: [Step; 8] = [
    Step::Sees {
        who: 0,
        seen: Seen::None { count: 0 },
    },
    Step::Passes {
        who: 0,
        moment: 0,
        entry: false,
    },
    Step::Sees {
        who: 0,
        seen: Seen::Row {
            verdict: Verdict::Pass,
            port: Some(1234),
            until: u64::MAX,
            count: 0,
        },
    },
    Step::Passes {
        who: 1,
        moment: 1_000,
        entry: true,
    },
    Step::Sees {
        who: 0,
        seen: Seen::None { count: 1 },
    },
    Step::Sees {
        who: 1,
        seen: Seen::Row {
            verdict: Verdict::Pass,
            port: Some(53),
            until: 60_001_000,
            count: 1,
        },
    },
    Step::Passes {
        who: 0,
        moment: 2_000,
        entry: false,
    },
    Step::Sees {
        who: 0,
        seen: Seen::Row {
            verdict: Verdict::Pass,
            port: Some(80),
            until: 60_001_000,
            count: 1,
        },
    },
];

#[test]
fn pair_that_a_row_missed_takes_its_stamp(rt: HostRuntime) {
    assert!(&rt;
        tried(
            rt.alloc(),
            Made::Published,
            64,
            100,
            &BOTH_WAYS,
            &[],
            &PUBLISHED
        ) == RIGHT
    );
}

const DEFAULT: Verdict = Verdict::Default {
    controller: 2,
    layer: 20,
    dir: Dir::Out,
};

const BY_DEFAULT: Fate = Fate::Drop(Cause::Default {
    controller: 2,
    layer: 20,
    dir: Dir::Out,
});

const DROPPED: [Step; 4] = [
    Step::Ends {
        who: 0,
        control: Control::None,
        moment: 0,
        fate: BY_DEFAULT,
    },
    Step::Sees {
        who: 0,
        seen: Seen::Row {
            verdict: DEFAULT,
            port: None,
            until: u64::MAX,
            count: 0,
        },
    },
    Step::Ends {
        who: 0,
        control: Control::None,
        moment: 1_000,
        fate: BY_DEFAULT,
    },
    Step::Sees {
        who: 0,
        seen: Seen::Row {
            verdict: DEFAULT,
            port: None,
            until: u64::MAX,
            count: 0,
        },
    },
];

#[test]
fn drop_behind_a_layer_that_would_make_a_pair_leaves_a_row(rt: HostRuntime) {
    assert!(&rt; tried(rt.alloc(), Made::Hiding, 64, 100, &OTHERS, &[], &DROPPED) == RIGHT);
}

/// The last use is renewed, which shakes the row of the packet itself.
const RENEWED: [Step; 5] = [
    Step::Passes {
        who: 0,
        moment: 0,
        entry: true,
    },
    Step::Sees {
        who: 0,
        seen: Seen::Row {
            verdict: Verdict::Pass,
            port: Some(1234),
            until: 60_000_000,
            count: 1,
        },
    },
    Step::Passes {
        who: 0,
        moment: 60_000_000,
        entry: false,
    },
    Step::Passes {
        who: 0,
        moment: 60_000_001,
        entry: true,
    },
    Step::Sees {
        who: 0,
        seen: Seen::Row {
            verdict: Verdict::Pass,
            port: Some(1234),
            until: 120_000_001,
            count: 2,
        },
    },
];

#[test]
fn late_packet_leaves_its_row_anew(rt: HostRuntime) {
    assert!(&rt;
        tried(
            rt.alloc(),
            Made::Tracked { pairs: 100 },
            8,
            100,
            &WAYS,
            &[],
            &RENEWED
        ) == RIGHT
    );
}

/// The row of the flow that is renewed falls, and is put anew; that of the other stays.
const ONE_RENEWED: [Step; 7] = [
    Step::Passes {
        who: 0,
        moment: 0,
        entry: true,
    },
    Step::Passes {
        who: 1,
        moment: 1_000,
        entry: true,
    },
    Step::Stand { rows: 2 },
    Step::Passes {
        who: 0,
        moment: 60_000_001,
        entry: true,
    },
    Step::Stand { rows: 2 },
    Step::Sees {
        who: 1,
        seen: Seen::Row {
            verdict: Verdict::Pass,
            port: Some(1234),
            until: 60_001_000,
            count: 3,
        },
    },
    Step::Sees {
        who: 0,
        seen: Seen::Row {
            verdict: Verdict::Pass,
            port: Some(1234),
            until: 120_000_001,
            count: 3,
        },
    },
];

#[test]
fn renewed_pair_leaves_the_rows_of_other_flows(rt: HostRuntime) {
    assert!(&rt;
        tried(
            rt.alloc(),
            Made::Tracked { pairs: 100 },
            64,
            100,
            &WAYS,
            &[],
            &ONE_RENEWED
        ) == RIGHT
    );
}

const FULL: Fate = Fate::Drop(Cause::Full {
    controller: 1,
    layer: 10,
});

const REFUSED: [Step; 4] = [
    Step::Passes {
        who: 0,
        moment: 0,
        entry: true,
    },
    Step::Ends {
        who: 1,
        control: Control::None,
        moment: 1_000,
        fate: FULL,
    },
    Step::Sees {
        who: 1,
        seen: Seen::None { count: 1 },
    },
    Step::Sees {
        who: 0,
        seen: Seen::Row {
            verdict: Verdict::Pass,
            port: Some(1234),
            until: 60_000_000,
            count: 1,
        },
    },
];

#[test]
fn packet_whose_pair_is_refused_leaves_no_row(rt: HostRuntime) {
    assert!(&rt;
        tried(
            rt.alloc(),
            Made::Tracked { pairs: 1 },
            64,
            100,
            &WAYS,
            &[],
            &REFUSED
        ) == RIGHT
    );
}

const CONTROLLED: [Step; 4] = [
    Step::Ends {
        who: 0,
        control: Control::Syn,
        moment: 0,
        fate: PASS,
    },
    Step::Sees {
        who: 0,
        seen: Seen::None { count: 0 },
    },
    Step::Passes {
        who: 0,
        moment: 1_000,
        entry: false,
    },
    Step::Sees {
        who: 0,
        seen: Seen::Row {
            verdict: Verdict::Pass,
            port: Some(1234),
            until: u64::MAX,
            count: 0,
        },
    },
];

#[test]
fn packet_with_a_control_leaves_no_row(rt: HostRuntime) {
    assert!(&rt; tried(rt.alloc(), Made::Plain, 64, 100, &WAYS, &[], &CONTROLLED) == RIGHT);
}

/// Each flow has a row of its own.
const EIGHT: [Step; 8] = [
    Step::Leaves { who: 0, port: 0 },
    Step::Leaves { who: 1, port: 1 },
    Step::Leaves { who: 2, port: 2 },
    Step::Leaves { who: 3, port: 3 },
    Step::Leaves { who: 4, port: 4 },
    Step::Leaves { who: 5, port: 5 },
    Step::Leaves { who: 6, port: 6 },
    Step::Leaves { who: 7, port: 7 },
];

/// A ninth, to whose row one of the eight gives way.
const NINTH: [Step; 4] = [
    Step::Stand { rows: 8 },
    Step::Passes {
        who: 8,
        moment: 0,
        entry: false,
    },
    Step::Sees {
        who: 8,
        seen: Seen::Row {
            verdict: Verdict::Pass,
            port: Some(8),
            until: u64::MAX,
            count: 0,
        },
    },
    Step::Stand { rows: 8 },
];

/// From nine ports of the own address.
const NINE: [Way; 9] = [
    (Dir::Out, (OWN.0, 0), FAR),
    (Dir::Out, (OWN.0, 1), FAR),
    (Dir::Out, (OWN.0, 2), FAR),
    (Dir::Out, (OWN.0, 3), FAR),
    (Dir::Out, (OWN.0, 4), FAR),
    (Dir::Out, (OWN.0, 5), FAR),
    (Dir::Out, (OWN.0, 6), FAR),
    (Dir::Out, (OWN.0, 7), FAR),
    (Dir::Out, (OWN.0, 8), FAR),
];

#[test]
fn ninth_flow_of_one_slot_takes_the_place_of_one_row(rt: HostRuntime) {
    assert!(&rt; tried(rt.alloc(), Made::Plain, 8, 100, &NINE, &EIGHT, &NINTH) == RIGHT);
}
