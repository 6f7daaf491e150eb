//! A line of a report as a value.

ghost use Rattle.std.specs.Prelude.{◌≡◌};
ghost use Rattle.vsw_check.specs.Private.Machine.{kind_of};
ghost use Rattle.vsw_check.specs.Private.Built.{line_of};

use vsw_base::{Fate, Items};
use vsw_policy::Reply;
use vsw_report::{By, Loose};

/// The number of the packet or of the command's line, whether it is an entry, and its count.
#[derive(Clone, Copy, Debug, PartialEq, Eq)]
pub struct At {
    pub item: u32,
    pub entry: bool,
    pub count: u32,
}

/// A line.
#[derive(Drop)]
pub enum Said {
    /// A round begins with the packet of this number.
    Round(u32),
    /// A port of this number, with its entries before and after the round.
    Port {
        port: u16,
        before: u32,
        after: u32,
    },
    /// What became of a packet that a worker brought to the port.
    Packet {
        worker: u32,
        at: At,
        fate: Fate,
        bytes: Items<u8>,
    },
    /// What became of a controller's command.
    Command {
        controller: u16,
        at: At,
        reply: Reply,
    },
    /// The loose packets begin.
    LooseBegins,
    Loose(Loose),
}

/// What of a line decides whether it may stand where it stands.
#[derive(Clone, Copy, Debug, PartialEq, Eq)]
pub enum Kind {
    Round,
    Port { before: u32, after: u32 },
    Told { by: By, entry: bool, count: u32 },
    LooseBegins,
    Loose,
}

pub(crate) fn told_kind(said: &Said) -> Kind
    ensures { result ≡ kind_of (line_of said.now) }
{
    match said {
        Said::Round(_) => Kind::Round,
        Said::Port { before, after, .. } => Kind::Port {
            before: *before,
            after: *after,
        },
        Said::Packet { worker, at, .. } => Kind::Told {
            by: By::Worker(*worker),
            entry: at.entry,
            count: at.count,
        },
        Said::Command { controller, at, .. } => Kind::Told {
            by: By::Controller(*controller),
            entry: at.entry,
            count: at.count,
        },
        Said::LooseBegins => Kind::LooseBegins,
        Said::Loose(_) => Kind::Loose,
    }
}
