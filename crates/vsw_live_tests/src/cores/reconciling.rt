//! Rows that are compared with the layers of now, as those see them who read without the lock.

use crate::cores::commands::Asked;
use crate::cores::desk::Seen;
use crate::cores::packets::{FAR, OWN};
use crate::cores::policies::Made;
use crate::cores::steps::{RIGHT, Step, Way, tried};
use std::alloc::Global;
use vsw_base::{Dir, Verdict};
use vsw_core::Reconciled;
use vsw_rule::Action;

/// The layer drops but for what its rule lets out.
const BEFORE: [Step; 2] = [
    Step::Obeys(Asked::AddLayer { idle: 240 }),
    Step::Obeys(Asked::AddGroup {
        group: 1,
        dir: Dir::Out,
    }),
];

const ALLOW: Step = Step::Obeys(Asked::PutRule {
    number: 5,
    action: Action::Allow,
    stateful: false,
});

const ALLOW_IN_PAIRS: Step = Step::Obeys(Asked::PutRule {
    number: 5,
    action: Action::Allow,
    stateful: true,
});

const WAYS: [Way; 1] = [(Dir::Out, OWN, FAR)];

/// What steps come to at a port of one controller, of eight rows. Three commands make its layer.
fn reconciled(alloc: Global, ways: &[Way], steps: &[Step]) -> Option<[Option<usize>; 2]> {
    tried(alloc, Made::Bare, 8, 100, ways, &BEFORE, steps)
}

const ALWAYS: u64 = u64::MAX;

const KEPT: [Step; 10] = [
    ALLOW,
    Step::Sees {
        who: 0,
        seen: Seen::None { count: 3 },
    },
    Step::Passes {
        who: 0,
        moment: 0,
        entry: false,
    },
    Step::Sees {
        who: 0,
        seen: Seen::Row {
            verdict: Verdict::Pass,
            port: Some(1234),
            until: ALWAYS,
            count: 3,
        },
    },
    Step::Obeys(Asked::PutRule {
        number: 7,
        action: Action::Allow,
        stateful: false,
    }),
    Step::Sees {
        who: 0,
        seen: Seen::None { count: 4 },
    },
    Step::Compares {
        who: 0,
        behind: 0,
        found: Reconciled::Kept,
    },
    Step::Sees {
        who: 0,
        seen: Seen::Row {
            verdict: Verdict::Pass,
            port: Some(1234),
            until: ALWAYS,
            count: 4,
        },
    },
    Step::Compares {
        who: 0,
        behind: 0,
        found: Reconciled::Fresh,
    },
    Step::Sees {
        who: 0,
        seen: Seen::Row {
            verdict: Verdict::Pass,
            port: Some(1234),
            until: ALWAYS,
            count: 4,
        },
    },
];

#[test]
fn row_that_a_command_leaves_as_it_is_is_kept(rt: HostRuntime) {
    assert!(&rt; reconciled(rt.alloc(), &WAYS, &KEPT) == RIGHT);
}

/// A group for packets into the port comes.
const SPARED: [Step; 5] = [
    ALLOW,
    Step::Passes {
        who: 0,
        moment: 0,
        entry: false,
    },
    Step::Obeys(Asked::AddGroup {
        group: 2,
        dir: Dir::In,
    }),
    Step::Sees {
        who: 0,
        seen: Seen::Row {
            verdict: Verdict::Pass,
            port: Some(1234),
            until: ALWAYS,
            count: 4,
        },
    },
    Step::Compares {
        who: 0,
        behind: 0,
        found: Reconciled::Fresh,
    },
];

#[test]
fn row_that_a_command_spares_stays(rt: HostRuntime) {
    assert!(&rt; reconciled(rt.alloc(), &WAYS, &SPARED) == RIGHT);
}

const EDITED: [Step; 7] = [
    Step::Obeys(Asked::PutPort { port: 40_000 }),
    Step::Passes {
        who: 0,
        moment: 0,
        entry: false,
    },
    Step::Sees {
        who: 0,
        seen: Seen::Row {
            verdict: Verdict::Pass,
            port: Some(40_000),
            until: ALWAYS,
            count: 3,
        },
    },
    Step::Obeys(Asked::PutPort { port: 50_000 }),
    Step::Compares {
        who: 0,
        behind: 0,
        found: Reconciled::Changed,
    },
    Step::Sees {
        who: 0,
        seen: Seen::Row {
            verdict: Verdict::Pass,
            port: Some(50_000),
            until: ALWAYS,
            count: 4,
        },
    },
    Step::Compares {
        who: 0,
        behind: 0,
        found: Reconciled::Fresh,
    },
];

#[test]
fn row_whose_packets_are_edited_otherwise_is_changed(rt: HostRuntime) {
    assert!(&rt; reconciled(rt.alloc(), &WAYS, &EDITED) == RIGHT);
}

const DROPPED: Verdict = Verdict::Rule {
    controller: 1,
    layer: 10,
    group: 1,
    rule: 6,
};

const DROPS: [Step; 5] = [
    ALLOW,
    Step::Passes {
        who: 0,
        moment: 0,
        entry: false,
    },
    Step::Obeys(Asked::PutRule {
        number: 6,
        action: Action::Drop,
        stateful: false,
    }),
    Step::Compares {
        who: 0,
        behind: 0,
        found: Reconciled::Changed,
    },
    Step::Sees {
        who: 0,
        seen: Seen::Row {
            verdict: DROPPED,
            port: None,
            until: ALWAYS,
            count: 4,
        },
    },
];

#[test]
fn row_whose_packets_are_dropped_now_is_changed(rt: HostRuntime) {
    assert!(&rt; reconciled(rt.alloc(), &WAYS, &DROPS) == RIGHT);
}

/// The pair that the last packet makes is held by its own row.
const CLEARED: [Step; 8] = [
    ALLOW,
    Step::Passes {
        who: 0,
        moment: 0,
        entry: false,
    },
    Step::Compares {
        who: 0,
        behind: 1,
        found: Reconciled::Cleared,
    },
    ALLOW_IN_PAIRS,
    Step::Compares {
        who: 0,
        behind: 0,
        found: Reconciled::Cleared,
    },
    Step::Sees {
        who: 0,
        seen: Seen::None { count: 4 },
    },
    Step::Passes {
        who: 0,
        moment: 1_000,
        entry: true,
    },
    Step::Compares {
        who: 0,
        behind: 0,
        found: Reconciled::Fresh,
    },
];

#[test]
fn row_whose_packets_would_make_a_pair_is_cleared(rt: HostRuntime) {
    assert!(&rt; reconciled(rt.alloc(), &WAYS, &CLEARED) == RIGHT);
}

/// The rows of both directions begin at different places of the eight.
const BOTH: [Way; 2] = [
    (Dir::Out, (OWN.0, 1236), FAR),
    (Dir::In, FAR, (OWN.0, 1236)),
];

/// The answer renews the last use of their pair.
const LATER: [Step; 7] = [
    ALLOW_IN_PAIRS,
    Step::Passes {
        who: 0,
        moment: 0,
        entry: true,
    },
    Step::Sees {
        who: 0,
        seen: Seen::Row {
            verdict: Verdict::Pass,
            port: Some(1236),
            until: 60_000_000,
            count: 4,
        },
    },
    Step::Passes {
        who: 1,
        moment: 70_000_000,
        entry: true,
    },
    Step::Sees {
        who: 0,
        seen: Seen::None { count: 5 },
    },
    Step::Compares {
        who: 0,
        behind: 0,
        found: Reconciled::Kept,
    },
    Step::Sees {
        who: 0,
        seen: Seen::Row {
            verdict: Verdict::Pass,
            port: Some(1236),
            until: 130_000_000,
            count: 5,
        },
    },
];

#[test]
fn kept_row_has_the_until_of_now(rt: HostRuntime) {
    assert!(&rt; reconciled(rt.alloc(), &BOTH, &LATER) == RIGHT);
}
