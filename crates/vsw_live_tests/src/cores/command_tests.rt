//! Commands at the end of a core's history.

use crate::cores::commands::Asked;
use crate::cores::packets::{FAR, OWN};
use crate::cores::policies::Made;
use crate::cores::steps::{RIGHT, Step, Way, tried};
use vsw_base::Dir;
use vsw_policy::{Refusal, Reply};

/// A layer, the same layer again, and its removal.
const ASKED: [Step; 3] = [
    Step::Replies {
        line: 7,
        asked: Asked::AddLayer { idle: 100 },
        reply: Reply::Ok,
    },
    Step::Replies {
        line: 8,
        asked: Asked::AddLayer { idle: 100 },
        reply: Reply::Refused(Refusal::LayerExists),
    },
    Step::Replies {
        line: 9,
        asked: Asked::RemoveLayer,
        reply: Reply::Ok,
    },
];

/// Each is an entry, also the one that was refused.
const ENTERED: [Step; 5] = [
    Step::IsEntry {
        number: 0,
        line: Some(7),
    },
    Step::IsEntry {
        number: 1,
        line: Some(8),
    },
    Step::IsEntry {
        number: 2,
        line: Some(9),
    },
    Step::IsEntry {
        number: 3,
        line: None,
    },
    Step::Counts { count: 3 },
];

const WAYS: [Way; 1] = [(Dir::Out, OWN, FAR)];

#[test]
fn commands_are_entries(rt: HostRuntime) {
    let made = Made::BareOfTwo;
    assert!(&rt; tried(rt.alloc(), made, 8, 3, &WAYS, &ASKED, &ENTERED) == RIGHT);
}
