//! The lines of one caller in a round.

ghost use Rattle.std.specs.Prelude.{◌≡◌, ◌++◌, ◌∷◌, [], OnOk, OnErr, get_or, length, set};

use std::alloc::Global;
use std::marker::Model;
use std::mem::replace;
use vsw_base::NoMemory;
use vsw_report::Caller;

/// The lines of one caller in a round: one `Caller` a port, in the policy's order.
#[derive(Drop)]
pub struct Lines {
    callers: Vec<Caller>,
}

impl Model for Lines {
    ghost use Rattle.std.specs.Prelude.{List};
    ghost use Rattle.vsw_report.specs.Line.{TextLine};

    ghost Value = { List (List TextLine) };

    ghost view = { λ s. s.callers.items };
}

impl Lines {
    /// No ports, which takes no memory.
    pub fn new(alloc: Global) -> Lines
        ensures { result ≡ [] }
    {
        Lines {
            callers: Vec::new(alloc),
        }
    }

    /// Adds a port. Where there is no memory for it, nothing changes.
    pub fn push(&mut self, caller: Caller) -> Result<(), NoMemory>
        ensures ok { OnOk result (self.new ≡ self.old ++ caller ∷ []) }
        ensures err { OnErr result (self.new ≡ self.old) }
    {
        match self.callers.push(caller) {
            Ok(()) => Ok(()),
            Err(_) => Err(NoMemory),
        }
    }

    /// How many ports there are.
    pub fn len(&self) -> usize
        ensures { result ≡ length self.now }
    {
        self.callers.len()
    }

    /// Takes the lines at a port, with their room, and leaves none.
    pub fn take(&mut self, alloc: Global, place: usize) -> Caller
        ensures taken { result ≡ get_or self.old place [] }
        ensures rest { self.new ≡ set self.old place [] }
    {
        if place < self.callers.len() {
            replace(&mut self.callers[place], Caller::new(alloc))
        } else {
            Caller::new(alloc)
        }
    }

    /// Puts lines in the place of those at a port, if there is one.
    pub fn put(&mut self, place: usize, caller: Caller)
        ensures { self.new ≡ set self.old place caller }
    {
        if place < self.callers.len() {
            self.callers[place] = caller;
        }
    }
}
