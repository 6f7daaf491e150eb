//! Each condition of a step, refused once.
use crate::machine_trial::{eight_rows, first_wrong};
use std::alloc::Global;
use vsw_stamps::Step;

/// Actor 1 is spent, actor 0 has loaded the stamp of row 1, row 0 has a stamp, and row 2 isn't good.
const BEFORE: [Step<u64>; 7] = [
    Step::Split { actor: 0 },
    Step::Join { actor: 0, other: 1 },
    Step::Split { actor: 0 },
    Step::StoreWord {
        row: 2,
        word: 0,
        value: 9,
    },
    Step::StoreStamp { row: 0 },
    Step::LoadStamp { actor: 0, row: 1 },
    Step::LoadWord {
        actor: 0,
        row: 1,
        word: 72,
    },
];

const REFUSED: [Step<u64>; 26] = [
    Step::Split { actor: 3 },
    Step::Split { actor: 1 },
    Step::Join { actor: 0, other: 0 },
    Step::Join { actor: 1, other: 0 },
    Step::Join { actor: 0, other: 1 },
    Step::Join { actor: 0, other: 3 },
    Step::LoadStamp { actor: 1, row: 0 },
    Step::LoadStamp { actor: 0, row: 8 },
    Step::LoadWord {
        actor: 1,
        row: 1,
        word: 0,
    },
    Step::LoadWord {
        actor: 0,
        row: 0,
        word: 0,
    },
    Step::LoadWord {
        actor: 2,
        row: 1,
        word: 0,
    },
    Step::LoadWord {
        actor: 0,
        row: 8,
        word: 0,
    },
    Step::LoadWord {
        actor: 0,
        row: 1,
        word: 73,
    },
    Step::LoadCount { actor: 1 },
    Step::LoadCount { actor: 3 },
    Step::LoadStampAgain { actor: 0, row: 1 },
    Step::LoadStampAgain { actor: 1, row: 1 },
    Step::LoadStampAgain { actor: 2, row: 1 },
    Step::StoreWord {
        row: 0,
        word: 0,
        value: 0,
    },
    Step::StoreWord {
        row: 8,
        word: 0,
        value: 0,
    },
    Step::StoreWord {
        row: 1,
        word: 73,
        value: 0,
    },
    Step::ClearStamp { row: 8 },
    Step::StoreStamp { row: 0 },
    Step::StoreStamp { row: 2 },
    Step::StoreStamp { row: 8 },
    Step::StoreCount { entry: 1 },
];

/// The first step that should be made and isn't, and the first that should be refused behind them and isn't.
fn tried(
    alloc: Global,
    before: &[Step<u64>],
    refused: &[Step<u64>],
) -> Option<(Option<usize>, Option<usize>)> {
    match eight_rows(alloc) {
        Some(mut machine) => {
            let missed = first_wrong(&mut machine, before, true);
            let made = first_wrong(&mut machine, refused, false);
            Some((missed, made))
        }
        None => None,
    }
}

#[test]
fn a_step_whose_condition_does_not_hold_is_refused(rt: HostRuntime) {
    assert!(&rt; tried(rt.alloc(), &BEFORE, &REFUSED) == Some((None, None)));
}

const CLOSED: [Step<u64>; 3] = [
    Step::LoadStamp { actor: 0, row: 1 },
    Step::LoadCount { actor: 0 },
    Step::LoadStampAgain { actor: 0, row: 1 },
];

const BEHIND: [Step<u64>; 2] = [
    Step::LoadWord {
        actor: 0,
        row: 1,
        word: 0,
    },
    Step::LoadStampAgain { actor: 0, row: 2 },
];

#[test]
fn a_closed_record_takes_no_word(rt: HostRuntime) {
    assert!(&rt; tried(rt.alloc(), &CLOSED, &BEHIND) == Some((None, None)));
}
