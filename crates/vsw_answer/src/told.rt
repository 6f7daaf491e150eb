//! What is told of a packet that was answered, and who is told.

ghost use Rattle.std.specs.Prelude.{◌≡◌};

use std::marker::Model;
use vsw_base::Fate;
use vsw_port::Outcome;

/// Why no row answered a packet.
#[derive(Clone, Copy, Debug, PartialEq, Eq)]
pub enum Why {
    /// The packet has a control, so that no row may answer it.
    Control,
    /// None of the eight rows was seen to be current and of the packet's identity.
    Miss,
    /// The row of its identity has an until below the packet's moment.
    Late,
    /// A walk over the layers costs less than a row's answer, so none was looked for.
    Light,
}

/// What became of a packet.
#[derive(Drop)]
pub struct Answer {
    fate: Fate,
    count: u32,
    entry: bool,
    why: Option<Why>,
    own: bool,
}

impl Model for Answer {
    ghost use Rattle.vsw_answer.specs.Seen.{AnswerSeen};

    ghost Value = { AnswerSeen };

    ghost view = { λ a. record { fate = a.fate; count = a.count; entry = a.entry; why = a.why; own = a.own } };
}

impl Answer {
    pub fn of(outcome: Outcome, count: u32, why: Option<Why>) -> Answer
        ensures { result ≡ record { fate = outcome.fate; count = count; entry = outcome.entry; why = why; own = outcome.own } }
    {
        Answer {
            fate: outcome.fate,
            count,
            entry: outcome.entry,
            why,
            own: outcome.own,
        }
    }

    /// The packet's fate.
    pub fn fate(&self) -> Fate
        ensures { result ≡ self.now.fate }
    {
        self.fate
    }

    /// The number of its entry; else how many entries the layers had seen that answered it.
    pub fn count(&self) -> u32
        ensures { result ≡ self.now.count }
    {
        self.count
    }

    /// Whether it changed the layers, and so is an entry.
    pub fn entry(&self) -> bool
        ensures { result ≡ self.now.entry }
    {
        self.entry
    }

    /// Why no row answered it, if none did.
    pub fn why(&self) -> Option<Why>
        ensures { result ≡ self.now.why }
    {
        self.why
    }

    /// Whether its frame leaves as it came, where it passes: nothing was written to the room then.
    pub fn own(&self) -> bool
        ensures { result ≡ self.now.own }
    {
        self.own
    }
}

/// Is told each answer to a packet, once, by the worker that got it. All workers may tell at once.
pub trait Watch {
    fn answered(&self, worker: u32, packet: u32, answer: &Answer);
}
