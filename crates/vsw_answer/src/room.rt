//! A worker's own room.

ghost use Rattle.std.specs.Prelude.{◌≡◌, ◌≤◌, IfOk, length, take};

use std::alloc::Global;
use std::marker::Model;
use vsw_base::NoMemory;

/// Bytes of the longest outgoing frame: the longest that is read, with two encapsulations in front.
const OUT_LEN: usize = 65_700;

/// Room that a worker needs for the outgoing bytes of one frame at a time. Contracts see these bytes.
#[derive(Drop)]
pub struct Room {
    pub(crate) out: Vec<u8>,
}

impl Model for Room {
    ghost use Rattle.std.specs.Prelude.{◌≡◌, ℕ, List, length};

    ghost Value = { List ℕ };

    ghost view = { λ r. r.out.items };

    ghost invariant = { λ r. length r.out.items ≡ 65700 };
}

impl Room {
    /// Room for the longest outgoing frame, 65,700 bytes.
    pub fn new(alloc: Global) -> Result<Room, NoMemory>
        ensures { IfOk result (λ room. length room ≡ 65700) }
    {
        let mut out = Vec::new(alloc);
        match out.resize(OUT_LEN, 0) {
            Ok(()) => Ok(Room { out }),
            Err(_) => Err(NoMemory),
        }
    }

    /// The first bytes of the last frame that left.
    pub fn bytes(&self, len: u32) -> &[u8]
        requires { len ≤ 65700 }
        ensures { result.now ≡ take len self.now }
    {
        &self.out[..len as usize]
    }
}
