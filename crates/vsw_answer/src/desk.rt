//! Rooms in which a row answers a packet.

ghost use Rattle.std.specs.Prelude.{◌≡◌};

use std::marker::Model;
use vsw_base::Stack;

/// The key words of a packet's identity, the words of a row's body, and the headers that the row's acts give.
/// A desk lives on from packet to packet. Contracts see the headers.
#[derive(Drop)]
pub struct Desk {
    pub(crate) key: [u64; 16],
    pub(crate) words: [u64; 57],
    pub(crate) edited: Stack,
}

impl Model for Desk {
    ghost use Rattle.std.specs.Prelude.{List};
    ghost use Rattle.vsw_base.specs.declared.header.Header.{Header};

    ghost Value = { List Header };

    ghost view = { λ d. d.edited };
}

impl Desk {
    /// A desk for many packets. It clears all rooms: make it once.
    pub fn new() -> Desk {
        Desk {
            key: [0; 16],
            words: [0; 57],
            edited: Stack::room(),
        }
    }

    /// The headers with which the last packet leaves.
    pub fn edited(&self) -> &Stack
        ensures { result.now ≡ self.now }
    {
        &self.edited
    }

    /// Keeps headers that were edited elsewhere.
    pub fn keep(&mut self, edited: &Stack)
        ensures { self.new ≡ edited.now }
    {
        self.edited.copy_from(edited);
    }
}
