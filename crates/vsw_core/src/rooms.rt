//! Rooms in which a row is made.

use vsw_base::{Control, Crossing, Dir, Moment, Sizes, Stack, Ufid};
use vsw_transpose::Transposition;
use vsw_words::Body;

/// What is done to a packet as one transposition, and the words of a row.
#[derive(Drop)]
pub struct Rooms {
    pub by: Transposition,
    pub words: [u64; 73],
}

impl Rooms {
    /// Rooms in which nothing is of meaning yet.
    pub fn new() -> Rooms {
        Rooms {
            by: Transposition::room(),
            words: [0; 73],
        }
    }
}

/// A row that is compared with the layers of now: a packet of its identity, what it said of such packets, and the
/// headers that its acts make of them.
#[derive(Drop)]
pub struct Former {
    pub crossing: Crossing,
    pub body: Body,
    pub stack: Stack,
}

impl Former {
    /// Rooms in which nothing is of meaning yet.
    pub fn room() -> Former {
        Former {
            crossing: Crossing {
                caller: 0,
                packet: 0,
                id: Ufid {
                    dir: Dir::Out,
                    stack: Stack::room(),
                },
                control: Control::None,
                moment: Moment::of(0),
                sizes: Sizes {
                    whole: 0,
                    one: 0,
                    two: 0,
                },
            },
            body: Body::room(),
            stack: Stack::room(),
        }
    }
}
