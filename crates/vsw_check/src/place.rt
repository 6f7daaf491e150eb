//! Where the lines of a report end that were read.

ghost use Rattle.std.specs.Prelude.{◌≡◌};
ghost use Rattle.vsw_check.specs.Report.{rank};
ghost use Rattle.vsw_check.specs.Private.Machine.{opened, told_step, step_kind, is_end};
ghost use Rattle.vsw_check.specs.declared.place.Place.TheVariants.{AtLines};

use crate::said::Kind;
use vsw_report::By;

/// Behind the head line; behind the line of a round; in a port's lines; behind the line `loose`.
#[derive(Clone, Copy, Debug, PartialEq, Eq)]
pub enum Place {
    AtFirst,
    AtPorts,
    /// The count that stands, the last one, and the least rank that a read may have.
    AtLines { count: u32, last: u32, low: u64 },
    AtLoose,
}

fn rank(by: By) -> u64
    ensures { result ≡ rank by }
{
    match by {
        By::Worker(n) => u64::from(n),
        By::Controller(n) => 4_294_967_296 + u64::from(n),
    }
}

fn open(before: u32, after: u32) -> Option<Place>
    ensures { result ≡ opened before after }
{
    if after < before {
        None
    } else {
        Some(Place::AtLines {
            count: before,
            last: after,
            low: 0,
        })
    }
}

fn told(at: u32, last: u32, low: u64, by: By, entry: bool, count: u32) -> Option<Place>
    ensures { result ≡ told_step at last low by entry count }
{
    if count == at {
        if entry {
            if at < last {
                Some(Place::AtLines {
                    count: at + 1,
                    last,
                    low: 0,
                })
            } else {
                None
            }
        } else {
            let low_now = rank(by);
            if low_now < low {
                None
            } else {
                Some(Place::AtLines {
                    count: at,
                    last,
                    low: low_now,
                })
            }
        }
    } else {
        None
    }
}

fn step_lines(count: u32, last: u32, low: u64, kind: Kind) -> Option<Place>
    ensures { result ≡ step_kind (AtLines count last low) kind }
{
    match kind {
        Kind::Told {
            by,
            entry,
            count: at,
        } => told(count, last, low, by, entry, at),
        Kind::Port { before, after } => {
            if count == last {
                open(before, after)
            } else {
                None
            }
        }
        Kind::LooseBegins => {
            if count == last {
                Some(Place::AtLoose)
            } else {
                None
            }
        }
        Kind::Round | Kind::Loose => None,
    }
}

pub(crate) fn step(place: Place, kind: Kind) -> Option<Place>
    ensures { result ≡ step_kind place kind }
{
    match place {
        Place::AtFirst => match kind {
            Kind::Round => Some(Place::AtPorts),
            _ => None,
        },
        Place::AtPorts => match kind {
            Kind::Port { before, after } => open(before, after),
            Kind::LooseBegins => Some(Place::AtLoose),
            _ => None,
        },
        Place::AtLines { count, last, low } => step_lines(count, last, low, kind),
        Place::AtLoose => match kind {
            Kind::Round => Some(Place::AtPorts),
            Kind::Loose => Some(Place::AtLoose),
            _ => None,
        },
    }
}

/// Whether a report may end here.
pub(crate) fn is_end(place: Place) -> bool
    ensures { result ≡ is_end place }
{
    matches!(place, Place::AtFirst | Place::AtLoose)
}
