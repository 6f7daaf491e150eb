//! A machine of eight rows, and steps that are tried on it.
use crate::counted::Counted;
use std::alloc::Global;
use vsw_stamps::{Machine, Step};

/// Makes the step, with room for it. Says whether it was made.
pub fn make(machine: &mut Machine<Counted>, step: Step<u64>) -> bool {
    machine.reserve(1).is_ok() && machine.step(&step).is_ok()
}

/// A machine of eight rows.
pub fn eight_rows(alloc: Global) -> Option<Machine<Counted>> {
    Machine::new(alloc, 8).ok()
}

/// The place of the first of these steps that is made and should be refused, or the other way round.
pub fn first_wrong(
    machine: &mut Machine<Counted>,
    steps: &[Step<u64>],
    made: bool,
) -> Option<usize> {
    for place in 0..steps.len() {
        if make(machine, steps[place]) != made {
            return Some(place);
        }
    }
    None
}
