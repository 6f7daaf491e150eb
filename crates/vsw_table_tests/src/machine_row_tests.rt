//! A row is stamped, keeps its words while it has the stamp, and is stored anew without it.
use crate::counted::Counted;
use crate::machine_trial::{eight_rows, make};
use std::alloc::Global;
use vsw_stamps::{Machine, Step};

const WORD: Step<u64> = Step::StoreWord {
    row: 0,
    word: 0,
    value: 1,
};

/// Steps, and whether each is made.
const STEPS: [(Step<u64>, bool); 7] = [
    (Step::StoreStamp { row: 0 }, true),
    (WORD, false),
    (Step::StoreCount { entry: 7 }, false),
    (Step::ClearStamp { row: 0 }, true),
    (Step::StoreCount { entry: 7 }, true),
    (WORD, true),
    (Step::StoreStamp { row: 0 }, true),
];

/// The place of the first step that comes out otherwise.
fn first_wrong(machine: &mut Machine<Counted>) -> Option<usize> {
    for place in 0..7usize {
        if make(machine, STEPS[place].0) != STEPS[place].1 {
            return Some(place);
        }
    }
    None
}

/// The first wrong step, and whether the history has the one entry then.
fn tried(alloc: Global) -> Option<(Option<usize>, bool)> {
    match eight_rows(alloc) {
        Some(mut machine) => {
            let wrong = first_wrong(&mut machine);
            Some((wrong, machine.history() == [7].as_slice()))
        }
        None => None,
    }
}

#[test]
fn a_row_with_a_stamp_stays_as_it_is(rt: HostRuntime) {
    assert!(&rt; tried(rt.alloc()) == Some((None, true)));
}
