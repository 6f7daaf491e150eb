//! What became of packets, in numbers.

ghost use Rattle.std.specs.Prelude.{◌≡◌, ◌+◌, IfOk};
ghost use Rattle.vsw_switch.specs.Tally as spec;

use vsw_base::{Fate, NoMemory};

/// Packets that passed and packets that were dropped, and the bytes of those that passed.
#[derive(Clone, Copy)]
pub struct Tally {
    pub pass: u64,
    pub drop: u64,
    pub bytes: u64,
}

/// A sum. One that has more than 64 bits counts as want of memory.
pub(crate) fn sum(one: u64, other: u64) -> Result<u64, NoMemory>
    ensures { IfOk result (λ sum. sum ≡ one + other) }
{
    match one.checked_add(other) {
        Some(sum) => Ok(sum),
        None => Err(NoMemory),
    }
}

impl Tally {
    /// The tally of no packets.
    pub fn none() -> Tally
        ensures { result ≡ spec.none }
    {
        Tally {
            pass: 0,
            drop: 0,
            bytes: 0,
        }
    }

    /// The tally of one packet.
    pub(crate) fn of(fate: Fate) -> Tally
        ensures { result ≡ spec.tally_of fate }
    {
        match fate {
            Fate::Pass { len } => Tally {
                pass: 1,
                drop: 0,
                bytes: u64::from(len),
            },
            Fate::Drop(_) => Tally {
                pass: 0,
                drop: 1,
                bytes: 0,
            },
        }
    }

    /// The tally of these packets and of others. A number of more than 64 bits counts as want of memory.
    pub fn and(self, others: Tally) -> Result<Tally, NoMemory>
        ensures { IfOk result (λ both. both ≡ spec.both self others) }
    {
        Ok(Tally {
            pass: sum(self.pass, others.pass)?,
            drop: sum(self.drop, others.drop)?,
            bytes: sum(self.bytes, others.bytes)?,
        })
    }
}
