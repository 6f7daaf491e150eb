//! What hashing begins with, which strangers on the wire don't know.

use crate::point::PointHasher;
use std::hash::{BuildHasher, DefaultHasher, Hasher};
use std::marker::Model;

/// The turn at which a seed tells the point of maps.
const MAPS_TURN: u32 = 0;

/// Makes each hasher at the point that a seed tells.
#[derive(Clone, Copy)]
pub struct Seeded {
    start: PointHasher,
}

impl BuildHasher for Seeded {
    type Hasher = PointHasher;

    ghost build_hasher = { λ s. s.start };

    #[inline(always)]
    fn build_hasher(&self) -> PointHasher {
        self.start
    }
}

/// A seed for the hashing of keys that strangers pick, taken in by SipHash-1-3: who doesn't know it can't tell which keys
/// collide. To clauses all seeds are one, so no answer may depend on it.
#[derive(Drop)]
pub struct HashSeed {
    taken: DefaultHasher,
}

impl Model for HashSeed {
    ghost Value = { Unit {0} };

    ghost view = { λ _. tt };
}

impl PartialEq for HashSeed {
    ghost use Rattle.std.specs.Prelude.{true};
    ghost use Rattle.std.proofs.Common.{rules};
    ghost use Rattle.std.specs.Cmp.Rules.{comparing};

    ghost eq = { λ _ _. true };

    ghost laws = { Prim.search (comparing, rules) };

    fn eq(&self, _other: &HashSeed) -> bool {
        true
    }
}

impl Eq for HashSeed {
    ghost use Rattle.std.proofs.Common.{rules};
    ghost use Rattle.std.specs.Cmp.Rules.{comparing};

    ghost laws = { Prim.search (comparing, rules) };
}

impl HashSeed {
    /// The seed that everyone knows, for keys that no stranger picks.
    pub fn known() -> HashSeed {
        HashSeed {
            taken: DefaultHasher::new(),
        }
    }

    /// The seed that is drawn from these bytes as well.
    pub fn with_bytes(&self, bytes: &[u8]) -> HashSeed {
        let mut taken = self.taken;
        taken.write(bytes);
        // Up to a whole word, so that the words of a key aren't split.
        for _ in bytes.len() % 8..8 {
            taken.write_u8(0);
        }
        HashSeed { taken }
    }

    /// The same seed.
    pub fn copied(&self) -> HashSeed {
        HashSeed { taken: self.taken }
    }

    /// The number that the seed tells at this turn. Who knows some of them can't tell others.
    pub fn number(&self, turn: u32) -> u64 {
        let mut taken = self.taken;
        taken.write_u64(u64::from(turn));
        taken.finish()
    }

    /// What makes a map's hashers.
    pub fn seeded(&self) -> Seeded {
        Seeded {
            start: PointHasher::at(self.number(MAPS_TURN)),
        }
    }
}
