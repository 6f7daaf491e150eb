//! Lines and rounds for tests.

use std::alloc::Global;
use vsw_base::{Cause, Fate, Items};
use vsw_policy::Reply;
use vsw_report::{By, Loose, PortRound, Round, ToldLine, What, print_round};

/// A packet that was dropped.
pub fn dropped(alloc: Global, by: By, item: u32, entry: bool, count: u32, why: Cause) -> ToldLine {
    ToldLine {
        by,
        item,
        entry,
        count,
        what: What::Fate {
            fate: Fate::Drop(why),
            bytes: Items::new(alloc),
        },
    }
}

/// A command.
pub fn replied(by: By, item: u32, entry: bool, count: u32, reply: Reply) -> ToldLine {
    ToldLine {
        by,
        item,
        entry,
        count,
        what: What::Reply(reply),
    }
}

/// These items. Where memory is wanting there are none, and then a round has another text.
pub fn list<T: Drop, const N: usize>(alloc: Global, items: [T; N]) -> Items<T> {
    match Vec::from_array(alloc, items) {
        Ok(items) => Items::of(items),
        Err(_) => Items::new(alloc),
    }
}

/// A round of one port with these lines.
pub fn round_of(alloc: Global, lines: Items<ToldLine>, loose: Items<Loose>) -> Round {
    let port = PortRound {
        port: 9,
        before: 0,
        after: 2,
        lines,
    };
    Round {
        first: 3,
        ports: list(alloc, [port]),
        loose,
    }
}

/// Whether a round is printed so behind this text.
pub fn is_printed(alloc: Global, head: &[u8], round: &Round, expected: &[u8]) -> bool {
    let mut out = Vec::new(alloc);
    out.extend_from_slice(head).is_ok()
        && print_round(round, &mut out).is_ok()
        && out.as_slice() == expected
}
