//! How a gate is told of actors where some have no threads.

use vsw_workers::Gate;

/// A gate to which the actors from the place `first` on have the numbers from `number` on.
#[derive(Drop)]
pub(crate) struct Numbering<'g, G> {
    gate: &'g G,
    first: u32,
    number: u32,
}

impl<'g, G> Numbering<'g, G> {
    pub(crate) fn of(gate: &'g G, first: usize, number: usize) -> Numbering<'g, G> {
        Numbering {
            gate,
            first: (first % 0x1_0000_0000) as u32,
            number: (number % 0x1_0000_0000) as u32,
        }
    }
}

impl<'g, G: Gate> Gate for Numbering<'g, G> {
    fn enter(&self, actor: u32, job: u32) {
        self.gate
            .enter(number_of(actor, self.first, self.number), job);
    }

    fn leave(&self, actor: u32, job: u32) {
        self.gate
            .leave(number_of(actor, self.first, self.number), job);
    }
}

fn number_of(place: u32, first: u32, number: u32) -> u32 {
    if place < first {
        place
    } else {
        number.wrapping_add(place - first)
    }
}
