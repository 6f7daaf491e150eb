//! Four workers on one port, with commands of a controller in a fifth thread beside them.

use crate::live::counting::PACKETS;
use crate::live::crew::Plan;
use crate::live::trial::tried;

/// 500 packets of each worker, and 100 commands.
const PLAN: Plan = Plan {
    turns: 100,
    packets: 5,
    beside: 0,
    answers: PACKETS,
    idle: 60,
    linger: 10,
    flows: false,
    holds: false,
};

/// Two queries of worker 0, the second while the lock is held.
const HELD: Plan = Plan {
    holds: true,
    ..PLAN
};

#[test]
fn each_answer_is_that_of_its_count(rt: HostRuntime) {
    assert!(&rt; tried(&rt, rt.alloc(), &PLAN) == Some(None));
}

#[test]
fn a_row_answers_while_another_thread_holds_the_lock(rt: HostRuntime) {
    assert!(&rt; tried(&rt, rt.alloc(), &HELD) == Some(None));
}
