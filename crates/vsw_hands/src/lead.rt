//! What the thread does that leads.

ghost use Rattle.std.specs.Prelude.{◌≡◌, []};

use crate::hand::Hand;
use crate::pool::Pool;
use crate::roll::Roll;
use std::sync::Wait;
use std::time::Clock;

/// Gives shares to the hands and takes what they tell, for as many rounds as it wants. It may use a thing of its thread meanwhile.
pub trait Lead<H, S, T, W: Hand<S, T>> {
    /// `may lead thing`: from here it may lead.
    ghost may: { Self → H → Type 0 };

    /// `leads lead thing lead thing`: what it makes of itself and of the thing.
    ghost leads: { Self → H → Self → H → Type 0 };

    /// Leads through all rounds.
    fn lead<R: Wait + Clock, B: Roll>(
        &mut self,
        rt: &R,
        with: &mut H,
        pool: &mut Pool<'_, S, T, W, B>,
    )
        requires may { may self.old with.old }
        requires none { pool.old ≡ [] }
        ensures { leads self.old with.old self.new with.new };
}
