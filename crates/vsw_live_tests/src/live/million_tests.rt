//! More than a million packets in five threads, with 400 commands and as many times 64 rows reconciled beside them.

use crate::live::crew::Plan;
use crate::live::trial::tried;

/// 250,000 packets of each of the five.
const PLAN: Plan = Plan {
    turns: 400,
    packets: 625,
    beside: 625,
    answers: 250_000,
    idle: 2,
    linger: 1,
    flows: true,
    holds: false,
};

#[test]
fn each_of_a_million_answers_is_that_of_its_count(rt: HostRuntime) {
    assert!(&rt; tried(&rt, rt.alloc(), &PLAN) == Some(None));
}
