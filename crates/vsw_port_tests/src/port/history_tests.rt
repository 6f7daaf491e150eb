//! Histories, call by call.

use crate::port::commands::Asked;
use crate::port::packets::{TCP, UDP};
use crate::port::trial::{PASS, RIGHT, Step, tried};
use vsw_base::{Cause, Control, Dir, Fate};
use vsw_policy::{Refusal, Reply};
use vsw_rule::Action;

const ADD_LAYER: Step = Step::Asks {
    line: 1,
    controller: 1,
    asked: Asked::AddLayer { layer: 10 },
    count: 0,
    reply: Reply::Ok,
};

const ADD_GROUP: Step = Step::Asks {
    line: 2,
    controller: 1,
    asked: Asked::AddGroup {
        layer: 10,
        group: 1,
    },
    count: 1,
    reply: Reply::Ok,
};

/// Layer 10 of controller 1, and rule 5 in its outbound group 1, which makes pairs: three entries.
pub const PAIRED: [Step; 3] = [
    ADD_LAYER,
    ADD_GROUP,
    Step::Asks {
        line: 3,
        controller: 1,
        asked: Asked::PutRule {
            layer: 10,
            action: Action::Allow,
            stateful: true,
        },
        count: 2,
        reply: Reply::Ok,
    },
];

/// The same without pairs.
const PLAIN: [Step; 3] = [
    ADD_LAYER,
    ADD_GROUP,
    Step::Asks {
        line: 3,
        controller: 1,
        asked: Asked::PutRule {
            layer: 10,
            action: Action::Allow,
            stateful: false,
        },
        count: 2,
        reply: Reply::Ok,
    },
];

/// A connection from its SYN to the last acknowledgement: where each packet stands.
pub const CONNECTION: [Step; 6] = [
    Step::Sends {
        number: 0,
        dir: Dir::Out,
        proto: TCP,
        control: Control::Syn,
        told: (true, 3, PASS),
    },
    Step::Sends {
        number: 1,
        dir: Dir::In,
        proto: TCP,
        control: Control::SynAck,
        told: (true, 4, PASS),
    },
    Step::Sends {
        number: 2,
        dir: Dir::Out,
        proto: TCP,
        control: Control::None,
        told: (false, 5, PASS),
    },
    Step::Sends {
        number: 3,
        dir: Dir::Out,
        proto: TCP,
        control: Control::Fin,
        told: (true, 5, PASS),
    },
    Step::Sends {
        number: 4,
        dir: Dir::In,
        proto: TCP,
        control: Control::Fin,
        told: (true, 6, PASS),
    },
    Step::Sends {
        number: 5,
        dir: Dir::Out,
        proto: TCP,
        control: Control::None,
        told: (false, 7, PASS),
    },
];

/// The closed pair is opened again: it leaves, and pair 1 comes in its place.
const REOPENED: [Step; 3] = [
    Step::HasPairs { pairs: 1, next: 1 },
    Step::Sends {
        number: 6,
        dir: Dir::Out,
        proto: TCP,
        control: Control::Syn,
        told: (true, 7, PASS),
    },
    Step::HasPairs { pairs: 1, next: 2 },
];

#[test]
fn packets_that_move_a_connection_are_entries(rt: HostRuntime) {
    assert!(&rt; tried(rt.alloc(), &PAIRED, &CONNECTION, &REOPENED, false) == RIGHT);
}

const SWEPT: [Step; 5] = [
    Step::Asks {
        line: 4,
        controller: 1,
        asked: Asked::Sweep { now: 10_004_000 },
        count: 7,
        reply: Reply::Ok,
    },
    Step::HasPairs { pairs: 0, next: 1 },
    Step::Sends {
        number: 6,
        dir: Dir::Out,
        proto: TCP,
        control: Control::Syn,
        told: (true, 8, PASS),
    },
    Step::IsEntry { count: 7, of: 4 },
    Step::IsEntry { count: 8, of: 6 },
];

#[test]
fn sweep_is_an_entry_and_takes_the_closed_pair(rt: HostRuntime) {
    assert!(&rt; tried(rt.alloc(), &PAIRED, &CONNECTION, &SWEPT, false) == RIGHT);
}

const BY_RULE: Fate = Fate::Drop(Cause::Rule {
    controller: 1,
    layer: 10,
    group: 1,
    rule: 5,
});

const BETWEEN: [Step; 3] = [
    Step::Sends {
        number: 0,
        dir: Dir::Out,
        proto: UDP,
        control: Control::None,
        told: (false, 3, PASS),
    },
    Step::Asks {
        line: 7,
        controller: 1,
        asked: Asked::PutRule {
            layer: 10,
            action: Action::Drop,
            stateful: false,
        },
        count: 3,
        reply: Reply::Ok,
    },
    Step::Sends {
        number: 1,
        dir: Dir::Out,
        proto: UDP,
        control: Control::None,
        told: (false, 4, BY_RULE),
    },
];

#[test]
fn command_between_packets_decides_the_second(rt: HostRuntime) {
    assert!(&rt; tried(rt.alloc(), &PLAIN, &BETWEEN, &[], false) == RIGHT);
}

const REFUSED: [Step; 4] = [
    Step::Asks {
        line: 4,
        controller: 1,
        asked: Asked::AddLayer { layer: 10 },
        count: 3,
        reply: Reply::Refused(Refusal::LayerExists),
    },
    Step::Asks {
        line: 5,
        controller: 1,
        asked: Asked::RemoveGroup {
            layer: 10,
            group: 9,
        },
        count: 4,
        reply: Reply::Refused(Refusal::NoGroup),
    },
    Step::Asks {
        line: 6,
        controller: 2,
        asked: Asked::RemoveLayer { layer: 10 },
        count: 5,
        reply: Reply::Refused(Refusal::NoLayer),
    },
    Step::Asks {
        line: 7,
        controller: 2,
        asked: Asked::AddLayer { layer: 10 },
        count: 6,
        reply: Reply::Ok,
    },
];

#[test]
fn refused_commands_are_entries(rt: HostRuntime) {
    assert!(&rt; tried(rt.alloc(), &PAIRED, &REFUSED, &[], false) == RIGHT);
}
