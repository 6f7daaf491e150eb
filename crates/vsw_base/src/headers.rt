//! Room for the headers of a stack.

ghost use Rattle.std.specs.Prelude.{◌≡◌, ◌<◌, ◌≤◌, ◌++◌, ◌∷◌, [], length, take};

use crate::header::Header;
use std::marker::Model;

const FILLER: Header = Header::Vxlan { vni: 0 };

/// Up to nine headers, outermost first, of any shape: what a stack is built in. What stands behind
/// the last of them means nothing: a room that is used again keeps it.
#[derive(Drop)]
pub struct Headers {
    items: [Header; 9],
    len: u8,
}

impl Model for Headers {
    ghost use Rattle.std.specs.Prelude.{List};
    ghost use Rattle.vsw_base.specs.declared.header.Header.{Header};
    ghost use Rattle.vsw_base.specs.Room.{seen, IsWithin};

    ghost Value = { List Header };

    ghost view = { seen };

    ghost invariant = { IsWithin };
}

impl Headers {
    /// No header. It clears nine places: make it once, and `clear` it for each packet.
    pub fn new() -> Headers
        ensures { result ≡ [] }
    {
        Headers {
            items: [FILLER; 9],
            len: 0,
        }
    }

    /// No header again.
    #[inline(always)]
    pub fn clear(&mut self)
        ensures { self.new ≡ [] }
    {
        self.len = 0;
    }

    /// They become the others. A copy of known length is quickest, so places behind the last are copied too.
    #[inline(always)]
    pub fn copy_from(&mut self, other: &Headers)
        ensures { self.new ≡ other.now }
    {
        self.len = other.len;
        if other.len <= 3 {
            copy_front(&mut self.items, &other.items);
        } else {
            self.items.copy_from_slice(&other.items);
        }
    }

    /// The headers, outermost first.
    #[inline(always)]
    pub fn as_slice(&self) -> &[Header]
        ensures all { result.now ≡ self.now }
        ensures room { length result.now ≤ 9 }
    {
        &self.items[..usize::from(self.len)]
    }

    /// Appends an innermost header.
    #[inline(always)]
    pub fn push(&mut self, header: Header)
        requires { length self.old < 9 }
        ensures { self.new ≡ self.old ++ header ∷ [] }
    {
        self.items[usize::from(self.len)] = header;
        self.len += 1;
    }
}

/// The first three places become the others'.
#[inline(always)]
fn copy_front(items: &mut [Header; 9], others: &[Header; 9])
    ensures { take 3 items.new ≡ take 3 others.now }
{
    items[..3].copy_from_slice(&others[..3]);
}
