//! Why a packet that passed its walk is dropped after all.

ghost use Rattle.std.specs.Prelude.{◌≡◌};
ghost use Rattle.vsw_port.specs.Admit.{cause_of};

use vsw_base::Cause;

/// Why a packet that passed its walk is dropped after all. The tests are made in this order.
#[derive(Clone, Copy, Debug, PartialEq, Eq)]
pub enum Stop {
    /// An encapsulation was pushed, and the outermost IPv4 total length is above 65,535.
    Long,
    /// A layer that wants a pair has as many as it may have, without one that the packet re-opens there.
    Full {
        controller: u16,
        layer: u16,
    },
    /// The pair of this number stays in a layer that wants one, and holds what its replies look for.
    Taken {
        controller: u16,
        layer: u16,
        pair: u32,
    },
    /// There was no memory for a pair.
    Memory,
}

impl Stop {
    /// The cause that a report tells.
    pub fn cause(self) -> Cause
        ensures { result ≡ cause_of self }
    {
        match self {
            Stop::Long => Cause::Long,
            Stop::Full { controller, layer } => Cause::Full { controller, layer },
            Stop::Taken {
                controller,
                layer,
                pair,
            } => Cause::Taken {
                controller,
                layer,
                pair,
            },
            Stop::Memory => Cause::Memory,
        }
    }
}
