//! What is wrong with a file, and where.

ghost use Rattle.std.specs.Prelude.{◌≡◌, []};
ghost use Rattle.vsw_config.specs.Path.{kind_name};
ghost use Rattle.vsw_config.specs.Fault.{fault_under, under, Says, MaySay};
ghost use Rattle.vsw_config.specs.declared.fault.Fault.TheVariants.{Bad};

use crate::word::Word;
use std::alloc::Global;
use vsw_base::Items;

/// A step inwards.
#[derive(Clone, Copy, Debug, PartialEq, Eq)]
pub enum Step {
    /// To a member of an object.
    Member(Word),
    /// To an item of a list, counted from 0.
    Place(usize),
}

/// What is wrong at a place.
#[derive(Clone, Copy, Debug, PartialEq, Eq)]
pub enum Kind {
    /// The file isn't JSON.
    Json,
    /// The value is of another form, or the object lacks a member or has an unknown one.
    Shape,
    /// A rule may not be so.
    BadRule,
    /// The list is too long.
    Many,
    /// The number isn't listed.
    Unknown,
    /// The number or address stands there already.
    Twice,
}

impl Kind {
    /// Its name.
    pub fn name(self) -> &'static str
        ensures { result.now ≡ kind_name self }
    {
        match self {
            Kind::Json => "Json",
            Kind::Shape => "Shape",
            Kind::BadRule => "BadRule",
            Kind::Many => "Many",
            Kind::Unknown => "Unknown",
            Kind::Twice => "Twice",
        }
    }
}

/// Why a value isn't read.
#[derive(PartialEq, Eq, Drop)]
pub enum Fault {
    /// It is no such value; this is the first place, in the order of reading. The innermost step of the
    /// path stands first.
    Bad { kind: Kind, path: Items<Step> },
    /// There was no memory for the value or the path.
    Memory,
}

/// Something is wrong right here.
pub fn here(alloc: Global, kind: Kind) -> Fault
    ensures { result ≡ Bad kind [] }
{
    Fault::Bad {
        kind,
        path: Items::new(alloc),
    }
}

/// The fault, seen from a step further out.
fn stepped(fault: Fault, step: Step) -> Fault
    ensures { MaySay result (fault_under step fault) }
{
    match fault {
        Fault::Bad { kind, path } => {
            let mut path = path;
            match path.push(step) {
                Ok(()) => Fault::Bad { kind, path },
                Err(_) => Fault::Memory,
            }
        }
        Fault::Memory => Fault::Memory,
    }
}

/// The answer, seen from a step further out.
pub fn under_step<T: Drop>(step: Step, answer: Result<T, Fault>) -> Result<T, Fault>
    ensures { Says result (under step answer) }
{
    match answer {
        Ok(value) => Ok(value),
        Err(fault) => Err(stepped(fault, step)),
    }
}
