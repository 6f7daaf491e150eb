//! Eight actors read rows while a writer takes stamps away, stores rows and adds entries, in a pseudo-random order.
use crate::counted::Counted;
use crate::judge::judged;
use crate::machine_trial::{eight_rows, make};
use std::alloc::Global;
use vsw_stamps::{Machine, Step};

const STEPS: u32 = 20_000;

/// The next pseudo-random number (xorshift, 64 bits).
fn next(seed: u64) -> u64 {
    let a = seed ^ (seed.wrapping_mul(1 << 13));
    let b = a ^ (a >> 7);
    b ^ (b.wrapping_mul(1 << 17))
}

/// A reader loads a stamp, 73 words, word 0 and the stamp again, and begins anew with another row.
fn read_on(machine: &mut Machine<Counted>, actor: u32, place: &mut u32, row: u32) {
    let here = *place / 76 % 8;
    let step = match *place % 76 {
        0 => Step::LoadStamp { actor, row: here },
        74 => Step::LoadCount { actor },
        75 => Step::LoadStampAgain { actor, row: here },
        word => Step::LoadWord {
            actor,
            row: here,
            word: word - 1,
        },
    };
    make(machine, step);
    *place = if *place % 76 == 75 {
        row % 8 * 76
    } else {
        place.wrapping_add(1) % 608
    };
}

/// In one of five turns the stamp is taken away; else the row's last word is stored, which is refused where it has a stamp.
fn clear_or_not(turn: u32, row: u32) -> Step<u64> {
    if turn % 5 == 0 {
        Step::ClearStamp { row }
    } else {
        Step::StoreWord {
            row,
            word: 72,
            value: 0,
        }
    }
}

/// The writer stores a row's 73 words, all of one version, and then gives it a stamp. Of a row that has one it takes the stamp away in one of five turns, and
/// otherwise its stores are refused.
fn write_on(machine: &mut Machine<Counted>, place: u32) {
    let row = place / 75 % 8;
    let count = machine.history().len() as u64;
    let step = match place % 75 {
        0 => clear_or_not(place / 75, row),
        1 => Step::StoreWord {
            row,
            word: 0,
            value: count,
        },
        74 => Step::StoreStamp { row },
        word => Step::StoreWord {
            row,
            word: word - 1,
            value: u64::from(place / 75) * 1000 + u64::from(word),
        },
    };
    make(machine, step);
}

/// All stamps are taken away, and an entry is added.
fn enter(machine: &mut Machine<Counted>, entry: u64) {
    for row in 0..8u32 {
        make(machine, Step::ClearStamp { row });
    }
    make(machine, Step::StoreCount { entry });
}

fn split_to_eight(machine: &mut Machine<Counted>) {
    for actor in 0..7 {
        make(machine, Step::Split { actor });
    }
}

fn run(machine: &mut Machine<Counted>) {
    split_to_eight(machine);
    let mut places = [0u32; 8];
    let mut writer = 0u32;
    let mut seed = 20_261_127;
    for i in 0..STEPS {
        seed = next(seed);
        let actor = (seed / 1_048_576 % 32) as u32;
        if i % 4_000 == 3_999 {
            enter(machine, seed);
        } else if actor < 16 {
            write_on(machine, writer);
            writer = writer.wrapping_add(1) % 1_000_000;
        } else {
            let row = (seed / 1_073_741_824 % 8) as u32;
            read_on(machine, actor % 8, &mut places[actor as usize % 8], row);
        }
    }
}

/// How many lookups finished, by all eight actors; none where the words of one aren't right.
fn finished(machine: &Machine<Counted>) -> Option<usize> {
    let mut finished = 0usize;
    for actor in 0..8 {
        finished = finished.saturating_add(judged(machine.log(), actor)?);
    }
    Some(finished)
}

/// Whether enough lookups finished, and how many entries there are.
fn tried(alloc: Global) -> Option<(bool, usize)> {
    match eight_rows(alloc) {
        Some(mut machine) => {
            run(&mut machine);
            let enough = match finished(&machine) {
                Some(count) => count >= 10,
                None => false,
            };
            Some((enough, machine.history().len()))
        }
        None => None,
    }
}

#[test]
fn what_a_lookup_finds_is_one_version_of_a_row(rt: HostRuntime) {
    assert!(&rt; tried(rt.alloc()) == Some((true, 5)));
}
