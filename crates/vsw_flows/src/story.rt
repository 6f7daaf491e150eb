//! The story of a port.

use vsw_policy::Policy;
use vsw_port::Event;
use vsw_stamps::Story;
use vsw_words::words_in_use;

/// The story of a port, which begins with a policy whose layers have made no pair, and grows by the entries of the
/// port's history. An entry names its caller: a packet its worker, and a command 16 and the place of its controller.
/// A row of it is good where it says what becomes of the packets of an identity at the layers of now.
pub struct PortStory;

impl Story for PortStory {
    ghost use Rattle.vsw_port.specs.Calls.{named};
    ghost use Rattle.vsw_rows.specs.Zeros.{ends_in_zero};
    ghost use Rattle.vsw_rows.specs.GoodRows.{IsGoodRow, opening_of};
    ghost use Rattle.vsw_words.specs.Row.{in_use};

    type Opening = Policy;

    type Entry = Event;

    ghost who = { λ p e. named p.controllers e };

    ghost good = { λ p h words. IsGoodRow (opening_of p) h words };

    ghost used = { in_use };

    fn words_used(front: &[u64; 7]) -> usize {
        words_in_use(front)
    }

    ghost zeros_beyond = { λ p h row is good. ends_in_zero (opening_of p) h row is good };
}
