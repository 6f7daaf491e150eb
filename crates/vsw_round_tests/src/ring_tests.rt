//! What comes through a ring from one thread to another.

ghost use Rattle.std.specs.Prelude.{◌≡◌, ◌<◌, false};
ghost use Rattle.vsw_rings.specs.Rings.{IsRing, SameDrain, SameFeed, has_ended, is_at_end};

use std::alloc::Global;
use std::sync::Wait;
use std::thread::{Threads, join_mut};
use std::time::{Clock, Duration};
use vsw_rings::{AnyItem, Drain, Feed, Taken, agree, open};

/// Hands over the numbers below this one, as there is room, and then the end, so many milliseconds before each.
fn feed_all<R: Wait + Clock>(rt: &R, feed: &mut Feed<u32>, count: u32, pause: u64)
    requires { has_ended feed.old ≡ false }
    ensures { SameFeed feed.old feed.new }
{
    for number in 0..count {
        rt.sleep(Duration::from_millis(pause));
        feed.wait_for_room(rt);
        feed.push(number);
    }
    rt.sleep(Duration::from_millis(pause));
    feed.wait_for_room(rt);
    feed.end();
}

/// How many items come, and whether each was the number of those before it.
fn drain_all<R: Wait + Clock>(rt: &R, drain: &mut Drain<u32>, count: &mut u32, in_order: &mut bool)
    requires { is_at_end drain.old ≡ false }
    ensures { SameDrain drain.old drain.new }
{
    for _ in rt.forever() {
        match drain.next(rt) {
            Taken::Item(number) => {
                *in_order = *in_order && number == *count;
                *count = count.wrapping_add(1);
            }
            Taken::End => return,
        }
    }
    unreachable!()
}

/// The numbers below this one go from this thread to another. How many came, and whether each was the number of those before it.
#[tactic(auto, using(vsw_rings::proofs::Staying::ring_stays))]
fn hand_over<R: Threads + Wait + Clock + Sync>(
    rt: &R,
    feed: &mut Feed<u32>,
    drain: &mut Drain<u32>,
    numbers: u32,
    pause: u64,
) -> (u32, bool)
    requires ring { IsRing feed.old drain.old }
    requires feed { has_ended feed.old ≡ false }
    requires drain { is_at_end drain.old ≡ false }
{
    let mut count = 0u32;
    let mut in_order = true;
    join_mut(
        rt,
        &mut || -> ()
            requires { is_at_end drain.now ≡ false }
            ensures { SameDrain drain.entry.now drain.exit.now }
        { drain_all(rt, drain, &mut count, &mut in_order) },
        &mut || -> ()
            requires { has_ended feed.now ≡ false }
            ensures { SameFeed feed.entry.now feed.exit.now }
        { feed_all(rt, feed, numbers, pause) },
    );
    agree(feed, drain);
    (count, in_order)
}

/// The same through a ring with room for so many things.
fn hand<R: Threads + Wait + Clock + Sync>(
    rt: &R,
    alloc: Global,
    room: u32,
    numbers: u32,
    pause: u64,
) -> Option<(u32, bool)>
    requires { 0 < room }
{
    let (mut feed, mut drain) = open::<u32, AnyItem>(alloc, room).ok()?;
    Some(hand_over(rt, &mut feed, &mut drain, numbers, pause))
}

#[test]
fn all_items_come_in_order_through_a_small_ring(rt: HostRuntime) {
    let handed = hand(&rt, rt.alloc(), 5, 1_000, 0).expect(&rt, "memory");
    assert_eq!(rt; handed, (1_000, true));
}

#[test]
fn ring_without_items_ends(rt: HostRuntime) {
    let handed = hand(&rt, rt.alloc(), 2, 0, 0).expect(&rt, "memory");
    assert_eq!(rt; handed, (0, true));
}

/// Whoever takes sleeps meanwhile.
#[test]
fn items_that_come_late_are_taken(rt: HostRuntime) {
    let handed = hand(&rt, rt.alloc(), 5, 3, 20).expect(&rt, "memory");
    assert_eq!(rt; handed, (3, true));
}
