//! The names of a run's ports.

use std::marker::Brand;

/// Tells contracts alone which lookup and how many passes each port of a run has, by its place. A value under a lock is known
/// by its type, so this list is what ties it to the lookup beside the lock. One call of a program picks the list.
pub trait Naming {
    ghost use Rattle.std.specs.Prelude.{List};
    ghost use Rattle.vsw_live.specs.Ports.{PortSeen};

    ghost ports: { List PortSeen };
}

impl Naming for Brand {
    ghost use Rattle.std.specs.Prelude.{[]};

    ghost ports = { [] };
}
