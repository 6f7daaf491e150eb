//! What callers are told.

ghost use Rattle.std.specs.Prelude.{◌≡◌};

use crate::unit::Unit;
use std::marker::Model;
use vsw_answer::{Answer, Why};
use vsw_policy::Reply;

/// A packet that no row answered. `LivePort::fast` alone makes it, and it holds its packet, so it serves for no other.
#[derive(Drop)]
pub struct Ticket<'a> {
    pub(crate) unit: &'a Unit<'a>,
    pub(crate) why: Why,
}

impl<'a> Model for Ticket<'a> {
    ghost use Rattle.vsw_live.specs.Seen.{TicketSeen};

    ghost Value = { TicketSeen };

    ghost view = { λ t. record { unit = t.unit.now; why = t.why } };
}

impl<'a> Ticket<'a> {
    pub(crate) fn of(unit: &'a Unit<'a>, why: Why) -> Ticket<'a>
        ensures { result ≡ record { unit = unit.now; why = why } }
    {
        Ticket { unit, why }
    }

    pub(crate) fn unit(&self) -> &'a Unit<'a>
        ensures { result.now ≡ self.now.unit }
    {
        self.unit
    }

    /// Why no row answered it.
    pub fn why(&self) -> Why
        ensures { result ≡ self.now.why }
    {
        self.why
    }
}

/// A packet that looked for a row.
#[derive(Drop)]
pub enum Fast<'a> {
    /// A row answered it.
    Done(Answer),
    /// None did: the layers must, under the port's lock.
    Slow(Ticket<'a>),
}

/// What became of a command.
#[derive(Clone, Copy, Debug, PartialEq, Eq)]
pub struct Told {
    pub reply: Reply,
    /// The number of its entry; without one, how many entries there were.
    pub count: u32,
    /// Whether it is an entry. It is one unless memory was wanting.
    pub entry: bool,
}
