//! What the conditions of steps look for.
ghost use Rattle.std.specs.Prelude.{◌≡◌, ◌<◌, ◌≤◌, ◌+◌, ℕ, false, length, reverse, slice_index_or, [], if◌then◌else◌, IsTrue, Bool};
ghost use Rattle.vsw_stamps.specs.Machine.{has_row, is_closed, record_of};

use crate::step::{Load, Loaded};

/// An actor, and how many entries it has seen.
#[derive(Clone, Copy, Drop)]
pub struct Sight {
    pub live: bool,
    pub count: usize,
}

/// Whether the actor's record holds the row's stamp; the oldest load stands first in `log`.
#[tactic(auto, using(crate::proofs::Holds::has_row_word))]
pub(crate) fn holds_row(log: &[Loaded], actor: u32, row: u32) -> bool
    ensures { result ≡ has_row row (record_of actor (reverse log.now)).rows }
{
    let mut left = log.len();
    while left > 0 {
        left -= 1;
        let loaded = log[left];
        if loaded.actor == actor {
            match loaded.load {
                Load::Stamp {
                    row: held,
                    afresh,
                    ..
                } => {
                    if held == row {
                        return true;
                    }
                    if afresh {
                        return false;
                    }
                }
                Load::Word { .. } => {}
                Load::Count { .. } => {}
                Load::Again { .. } => {}
            }
        }
    }
    false
}

/// Whether the actor's record is closed; the oldest load stands first in `log`.
pub(crate) fn has_closed(log: &[Loaded], actor: u32) -> bool
    ensures { result ≡ is_closed (record_of actor (reverse log.now)) }
{
    let mut left = log.len();
    while left > 0 {
        left -= 1;
        let loaded = log[left];
        if loaded.actor == actor {
            match loaded.load {
                Load::Stamp { .. } => return false,
                Load::Word { .. } => {}
                Load::Count { .. } => return true,
                Load::Again { .. } => {}
            }
        }
    }
    false
}
