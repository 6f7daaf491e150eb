//! The end of a ring that takes.

ghost use Rattle.std.specs.Prelude.{◌≡◌, true, false};
ghost use mathlib.Core.List.{IsPrefix};
ghost use Rattle.vsw_rings.specs.Rings.{IsRing, SameDrain, SameFeed, Takes, fed, has_ended, is_at_end, taken};

use crate::rule::Ruled;
use crate::{AnyItem, Feed, Rule, Taken};
use rtrb::Consumer;
use std::alloc::Global;
use std::sync::Wait;
use std::thread;
use std::time::{Clock, Duration};

/// How often a thread looks for what comes next before it sleeps.
const LOOKS: u32 = 200;

/// For how many microseconds it sleeps before it looks again. Nobody wakes it, so an item may wait so long.
const SLEEP: u64 = 50;

/// Lets other threads run, and sleeps for a while once so many looks found nothing. Answers how many have found nothing then.
fn rest<R: Clock>(rt: &R, looks: u32) -> u32 {
    if looks < LOOKS {
        thread::yield_now();
        return looks + 1;
    }
    rt.sleep(Duration::from_micros(SLEEP));
    looks
}

/// The end of a ring that takes. One thread at a time has it; it may move to another. What is taken was seen by one load.
#[derive(Drop)]
pub struct Drain<T, P: Rule<T> = AnyItem> {
    pub(crate) ring: Consumer<Taken<T>, Global, Ruled<P>>,
}

impl<T, P: Rule<T>> Drain<T, P> {
    /// Takes what comes next, an item or the end, once the other thread has handed it over. Where nothing comes for long, it sleeps between its looks.
    pub fn next<R: Wait + Clock>(&mut self, rt: &R) -> Taken<T>
        requires open { is_at_end self.old ≡ false }
        ensures takes { Takes P.fits self.old result self.new }
        ensures ring { SameDrain self.old self.new }
    {
        let mut looks = 0;
        for _ in rt.forever() {
            if let Ok(next) = self.ring.pop() {
                return next;
            }
            looks = rest(rt, looks);
        }
        unreachable!()
    }
}

/// Where one thread has both ends of a ring: what was taken is the front of what was handed over, each item once and in order, and all of
/// it once the end was taken. At run time it looks once at the ring, and changes nothing.
pub fn agree<T, P: Rule<T>>(feed: &mut Feed<T, P>, drain: &mut Drain<T, P>)
    requires ring { IsRing feed.old drain.old }
    ensures front { IsPrefix (taken drain.new) (fed feed.new) }
    ensures all { is_at_end drain.new ≡ true → (taken drain.new ≡ fed feed.new) × (has_ended feed.new ≡ true) }
    ensures feed { (fed feed.new ≡ fed feed.old) × (has_ended feed.new ≡ has_ended feed.old) × SameFeed feed.old feed.new }
    ensures drain { (taken drain.new ≡ taken drain.old) × (is_at_end drain.new ≡ is_at_end drain.old) × SameDrain drain.old drain.new }
{
    drain.ring.slots_beside(&mut feed.ring);
}
