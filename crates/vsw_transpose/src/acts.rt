//! Room for the acts of a transposition.

ghost use Rattle.std.specs.Prelude.{◌≡◌, ◌<◌, ◌≤◌, ◌++◌, ◌∷◌, [], length};

use crate::act::Act;
use std::marker::Model;

/// Up to eighteen acts of any order: what a transposition is built in. What stands behind the last of
/// them means nothing: a room that is used again keeps it.
#[derive(Drop)]
pub struct Acts {
    items: [Act; 18],
    len: u8,
}

impl Model for Acts {
    ghost use Rattle.std.specs.Prelude.{List};
    ghost use Rattle.vsw_transpose.specs.declared.act.Act.{Act};
    ghost use Rattle.vsw_transpose.specs.Room.{seen, IsWithin};

    ghost Value = { List Act };

    ghost view = { seen };

    ghost invariant = { IsWithin };
}

impl Acts {
    /// No act. It clears eighteen places: make it once, and `clear` it for each packet.
    pub fn new() -> Acts
        ensures { result ≡ [] }
    {
        Acts {
            items: [Act::Ignore; 18],
            len: 0,
        }
    }

    /// No act again.
    #[inline(always)]
    pub fn clear(&mut self)
        ensures { self.new ≡ [] }
    {
        self.len = 0;
    }

    /// The acts, in the order in which they are done.
    #[inline(always)]
    pub fn as_slice(&self) -> &[Act]
        ensures all { result.now ≡ self.now }
        ensures room { length result.now ≤ 18 }
    {
        &self.items[..usize::from(self.len)]
    }

    /// Appends an act.
    #[inline(always)]
    pub fn push(&mut self, act: Act)
        requires { length self.old < 18 }
        ensures { self.new ≡ self.old ++ act ∷ [] }
    {
        self.items[usize::from(self.len)] = act;
        self.len += 1;
    }
}
