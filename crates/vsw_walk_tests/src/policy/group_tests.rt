//! What becomes of groups.

use crate::policy::commands::Ask;
use crate::policy::trial::{Step, tried};
use crate::policy::wrong::Wrong;
use vsw_base::Dir;
use vsw_policy::Refusal;
use vsw_rule::Field;

const FULL: [Step; 8] = [
    Step::Refused(1, Ask::AddGroup(1), Refusal::NoLayer),
    Step::Done(1, Ask::AddLayer(10, 10)),
    Step::AddGroups(40, 32),
    Step::Refused(1, Ask::AddGroup(50), Refusal::ManyGroups),
    Step::Refused(1, Ask::AddGroup(40), Refusal::GroupExists),
    Step::Groups(0, 32),
    Step::Group(0, (40, Dir::Out, 0, 0)),
    Step::Group(31, (9, Dir::Out, 0, 0)),
];

#[test]
fn a_further_group_stands_last_up_to_the_limit(rt: HostRuntime) -> Result<(), Wrong> {
    tried(rt.alloc(), &[1], &FULL)
}

/// Group 1 is to be removed at each step, until it goes.
const EXCHANGE: [Step; 9] = [
    Step::Refused(1, Ask::RemoveGroup(1), Refusal::NoLayer),
    Step::Done(1, Ask::AddLayer(10, 10)),
    Step::Refused(1, Ask::RemoveGroup(1), Refusal::NoGroup),
    Step::Done(1, Ask::AddGroup(1)),
    Step::Done(1, Ask::AddWeb),
    Step::Done(1, Ask::RemoveGroup(1)),
    Step::Groups(0, 1),
    Step::Group(0, (2, Dir::In, 1, 0)),
    Step::Items(0, (Field::DstPort, 2)),
];

#[test]
fn a_group_goes_and_the_others_keep_their_places(rt: HostRuntime) -> Result<(), Wrong> {
    tried(rt.alloc(), &[1], &EXCHANGE)
}
