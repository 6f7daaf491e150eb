//! Each cause for which a command is refused, with packets between. A refused command is an entry, and changes
//! nothing: the packets go on passing.

use crate::port::commands::Asked;
use crate::port::packets::UDP;
use crate::port::trial::{PASS, RIGHT, Step, tried};
use vsw_base::{Control, Dir};
use vsw_policy::{Refusal, Reply};

/// Layer 10 of controller 1, with rules 0 to 1,023 in its outbound group 1. A packet has made a pair: four entries.
const USED: [Step; 4] = [
    Step::Asks {
        line: 1,
        controller: 1,
        asked: Asked::AddLayer { layer: 10 },
        count: 0,
        reply: Reply::Ok,
    },
    Step::Asks {
        line: 2,
        controller: 1,
        asked: Asked::AddGroup {
            layer: 10,
            group: 1,
        },
        count: 1,
        reply: Reply::Ok,
    },
    Step::Asks {
        line: 3,
        controller: 1,
        asked: Asked::PutRules { count: 1_024 },
        count: 2,
        reply: Reply::Ok,
    },
    Step::Sends {
        number: 0,
        dir: Dir::Out,
        proto: UDP,
        control: Control::None,
        told: (true, 3, PASS),
    },
];

/// What is named isn't there, or is there already.
const NAMES: [Step; 6] = [
    Step::Refuses {
        number: 1,
        asked: Asked::RemoveLayer { layer: 9 },
        count: 4,
        cause: Refusal::NoLayer,
    },
    Step::Refuses {
        number: 2,
        asked: Asked::AddLayer { layer: 10 },
        count: 5,
        cause: Refusal::LayerExists,
    },
    Step::Refuses {
        number: 3,
        asked: Asked::RemoveGroup {
            layer: 10,
            group: 9,
        },
        count: 6,
        cause: Refusal::NoGroup,
    },
    Step::Refuses {
        number: 4,
        asked: Asked::AddGroup {
            layer: 10,
            group: 1,
        },
        count: 7,
        cause: Refusal::GroupExists,
    },
    Step::Refuses {
        number: 5,
        asked: Asked::RemoveRule { number: 1_024 },
        count: 8,
        cause: Refusal::NoRule,
    },
    Step::Refuses {
        number: 6,
        asked: Asked::AddRule { number: 5 },
        count: 9,
        cause: Refusal::RuleExists,
    },
];

#[test]
fn what_is_named_wrongly_is_refused(rt: HostRuntime) {
    assert!(&rt; tried(rt.alloc(), &USED, &NAMES, &[], false) == RIGHT);
}

const COUNTS: [Step; 5] = [
    Step::Refuses {
        number: 1,
        asked: Asked::AddRule { number: 1_024 },
        count: 4,
        cause: Refusal::ManyRules,
    },
    Step::Refuses {
        number: 2,
        asked: Asked::PutRules { count: 1_025 },
        count: 5,
        cause: Refusal::ManyRules,
    },
    Step::Fills,
    Step::Asks {
        line: 9,
        controller: 1,
        asked: Asked::AddLayer { layer: 27 },
        count: 52,
        reply: Reply::Refused(Refusal::ManyLayers),
    },
    Step::Asks {
        line: 10,
        controller: 1,
        asked: Asked::AddGroup {
            layer: 10,
            group: 33,
        },
        count: 53,
        reply: Reply::Refused(Refusal::ManyGroups),
    },
];

#[test]
fn what_is_too_many_is_refused(rt: HostRuntime) {
    assert!(&rt; tried(rt.alloc(), &USED, &COUNTS, &[], false) == RIGHT);
}
