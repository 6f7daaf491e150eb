//! The name of a run's roll.

use std::marker::Brand;

/// Tells contracts alone in which roll the shares of a run are written down. A value under a lock is known by its type, so this name is what
/// ties it to the roll. `run_hands` picks it.
pub trait Roll {
    ghost use Rattle.boxcar.specs.Table.{Shelves};

    ghost shelves: { Shelves };
}

impl Roll for Brand {
    ghost use Rattle.std.specs.Prelude.{[]};

    ghost shelves = { record { tag = []; buckets = [] } };
}
