//! Packets that cross the layers of a policy.

use crate::given::have_numbers;
use crate::lean::packets::packet;
use crate::lean::rows::Rows;
use std::alloc::Global;
use vsw_base::{Control, Crossing, Stack, Ufid, Verdict};
use vsw_policy::Policy;
use vsw_port::commit;
use vsw_rows::shake;
use vsw_walk::{Looked, Scratch, Walked, Wanted, walk};

/// What the walk of an identity comes to, and the headers with which it passes.
#[derive(Drop)]
pub struct Row {
    walked: Walked,
    stack: Stack,
}

impl Row {
    /// Whether both say the same. What a packet that is dropped ends with means nothing.
    pub fn is_same(&self, other: &Row) -> bool {
        self.walked == other.walked
            && (self.walked.verdict != Verdict::Pass || self.stack.is_same(&other.stack))
    }
}

/// A policy, and room for walks.
#[derive(Drop)]
pub struct Trial {
    pub policy: Policy,
    pub scratch: Scratch,
}

impl Trial {
    /// Without layers.
    pub fn new(alloc: Global) -> Option<Trial> {
        let Ok(policy) = Policy::new(alloc, &[1]) else {
            return None;
        };
        match Scratch::new(alloc) {
            Ok(scratch) => Some(Trial { policy, scratch }),
            Err(_) => None,
        }
    }

    /// The row of an identity: the walk of a packet of it that has no control.
    pub fn row(&mut self, id: &Ufid) -> Row {
        let walked = walk(
            &self.policy,
            &packet(id, Control::None, 0),
            &mut self.scratch,
        );
        Row {
            walked,
            stack: self.scratch.stack().copy(),
        }
    }

    /// What the packet of the last walk looked for in the layer that it met first.
    pub fn first_look(&self) -> Option<Looked> {
        self.scratch.looked().first().copied()
    }

    /// The packet is walked, and its walk carried out. Whether its changes shake the look, and what kind they
    /// are, where it passes and there is one change.
    pub fn meet(&mut self, crossing: &Crossing, look: &Looked) -> Option<(bool, Change)> {
        if !have_numbers(self.policy.layers()) {
            return None;
        }
        let walked = walk(&self.policy, crossing, &mut self.scratch);
        let change = only_change(&self.scratch, look)?;
        let shaken = shake(self.policy.layers(), self.scratch.changes(), &[*look]);
        match commit(&mut self.policy, crossing, &walked, &self.scratch) {
            Ok(true) => Some((shaken, change)),
            _ => None,
        }
    }
}

impl Trial {
    /// The packet is walked, and its walk carried out. Whether it changed the layers, and whether its changes
    /// shake a row.
    pub fn cross(&mut self, crossing: &Crossing, rows: &Rows) -> Option<(bool, bool)> {
        if !have_numbers(self.policy.layers()) {
            return None;
        }
        let walked = walk(&self.policy, crossing, &mut self.scratch);
        let shaken = shake(self.policy.layers(), self.scratch.changes(), &rows.looks);
        match commit(&mut self.policy, crossing, &walked, &self.scratch) {
            Ok(changed) => Some((changed, shaken)),
            Err(_) => Some((false, false)),
        }
    }
}

/// The one change of a crossing.
#[derive(Clone, Copy, PartialEq, Eq)]
pub enum Change {
    /// A pair is made whose own packets are looked for, or whose replies are, or neither.
    Front,
    Back,
    Beside,
    /// A pair is touched, at a moment or not.
    Used,
    Moved,
    /// A pair leaves.
    Left,
}

fn is_key(probe: &vsw_layerflow::Probe, look: &Looked) -> bool {
    probe.dir == look.dir && probe.key == look.key
}

fn only_change(scratch: &Scratch, look: &Looked) -> Option<Change> {
    match scratch.changes() {
        [Wanted::Make { pair, .. }] => {
            if is_key(&pair.front(), look) {
                Some(Change::Front)
            } else if is_key(&pair.back(), look) {
                Some(Change::Back)
            } else {
                Some(Change::Beside)
            }
        }
        [Wanted::Touch { last, .. }] => {
            if last.micros() > 1_000 {
                Some(Change::Used)
            } else {
                Some(Change::Moved)
            }
        }
        [Wanted::Leave { .. }] => Some(Change::Left),
        _ => None,
    }
}
