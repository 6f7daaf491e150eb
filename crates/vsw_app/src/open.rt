//! A gate that stands open, and a watch that looks away.

use vsw_replay::{Answer, Watch};
use vsw_workers::Gate;

/// A gate and a watch that do nothing with what they are told. No call of it waits.
pub struct Open;

impl Gate for Open {
    fn enter(&self, _actor: u32, _job: u32) {}

    fn leave(&self, _actor: u32, _job: u32) {}
}

impl Watch for Open {
    fn answered(&self, _worker: u32, _packet: u32, _answer: &Answer) {}
}
