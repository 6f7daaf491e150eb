//! The end of a ring that hands over.

ghost use Rattle.std.specs.Prelude.{◌≡◌, ◌<◌, ◌+◌, ◌++◌, ◌∷◌, [], IfOk, true, false};
ghost use Rattle.vsw_rings.specs.Rings.{IsRing, SameFeed, fed, has_ended, is_at_end, room, taken};

use crate::rule::Ruled;
use crate::{AnyItem, Drain, Rule, Taken};
use rtrb::{Producer, RingBuffer};
use std::alloc::Global;
use std::sync::Wait;
use std::thread;
use vsw_base::NoMemory;

/// The end of a ring that hands over. One thread at a time has it; it may move to another. What is pushed is handed over by one store.
#[derive(Drop)]
pub struct Feed<T, P: Rule<T> = AnyItem> {
    pub(crate) ring: Producer<Taken<T>, Global, Ruled<P>>,
}

/// Makes a ring with room for so many things at once, an end among them.
pub fn open<T: Drop, P: Rule<T>>(
    alloc: Global,
    count: u32,
) -> Result<(Feed<T, P>, Drain<T, P>), NoMemory>
    requires room { 0 < count }
    ensures ring { IfOk result (λ r. IsRing r.0 r.1) }
    ensures feed { IfOk result (λ r. (fed r.0 ≡ []) × (has_ended r.0 ≡ false) × (room r.0 ≡ count)) }
    ensures drain { IfOk result (λ r. (taken r.1 ≡ []) × (is_at_end r.1 ≡ false)) }
{
    match RingBuffer::with_protocol::<Global, Ruled<P>>(alloc, count as usize) {
        Ok((feed, drain)) => Ok((Feed { ring: feed }, Drain { ring: drain })),
        Err(_) => Err(NoMemory),
    }
}

impl<T, P: Rule<T>> Feed<T, P> {
    /// Hands an item over. Room for the end is left.
    pub fn push(&mut self, item: T)
        requires open { has_ended self.old ≡ false }
        requires room { 1 < room self.old }
        requires fits { P.fits (fed self.old) item }
        ensures fed { fed self.new ≡ fed self.old ++ item ∷ [] }
        ensures open { has_ended self.new ≡ false }
        ensures room { room self.old ≡ room self.new + 1 }
        ensures ring { SameFeed self.old self.new }
    {
        self.ring.push_reserved(Taken::Item(item));
    }

    /// Tells that no item follows.
    pub fn end(&mut self)
        requires open { has_ended self.old ≡ false }
        requires room { 0 < room self.old }
        ensures fed { fed self.new ≡ fed self.old }
        ensures ended { has_ended self.new ≡ true }
        ensures ring { SameFeed self.old self.new }
    {
        self.ring.push_reserved(Taken::End);
    }

    /// Waits until the other thread has left room for an item and the end. In a ring with room for one thing there never is.
    pub fn wait_for_room<R: Wait>(&mut self, rt: &R)
        ensures room { 1 < room self.new }
        ensures fed { fed self.new ≡ fed self.old }
        ensures ended { has_ended self.new ≡ has_ended self.old }
        ensures ring { SameFeed self.old self.new }
    {
        for _ in rt.forever() {
            if self.ring.slots() > 1 {
                return;
            }
            thread::yield_now();
        }
        unreachable!()
    }

    /// Tells that no item follows, if there is room for that, and whatever was handed over before: for a feed that is given up, so that the other thread
    /// doesn't wait for ever.
    pub fn give_up(&mut self)
        ensures fed { fed self.new ≡ fed self.old }
        ensures ended { 0 < room self.old → has_ended self.new ≡ true }
        ensures ring { SameFeed self.old self.new }
    {
        if self.ring.slots() > 0 {
            self.ring.push_reserved(Taken::End);
        }
    }
}
