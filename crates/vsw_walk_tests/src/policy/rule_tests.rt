//! What becomes of rules, and which of two refusals goes first.

use crate::policy::commands::{Ask, Given, Rules};
use crate::policy::trial::{Step, tried};
use crate::policy::wrong::Wrong;
use vsw_policy::Refusal;

/// Two rules of one number.
const TWICE: Ask = Ask::PutTwo(10, (5, 10), (5, 20));

const LEAST: [Step; 7] = [
    Step::Refused(1, TWICE, Refusal::NoLayer),
    Step::Done(1, Ask::AddLayer(10, 10)),
    Step::Refused(1, TWICE, Refusal::NoGroup),
    Step::Done(1, Ask::AddGroup(1)),
    Step::Refused(1, TWICE, Refusal::RuleExists),
    Step::Done(1, Ask::PutTwo(10, (5, 10), (4, 20))),
    Step::Rules(0, (4, 20, 2)),
];

#[test]
fn the_least_number_of_two_refusals_goes_first(rt: HostRuntime) -> Result<(), Wrong> {
    tried(rt.alloc(), &[1], &LEAST)
}

const LAST: [Step; 13] = [
    Step::Refused(1, Ask::AddRule(5, 10), Refusal::NoLayer),
    Step::Refused(1, Ask::RemoveRule(5), Refusal::NoLayer),
    Step::Done(1, Ask::AddLayer(10, 10)),
    Step::Refused(1, Ask::AddRule(5, 10), Refusal::NoGroup),
    Step::Refused(1, Ask::RemoveRule(5), Refusal::NoGroup),
    Step::Done(1, Ask::AddGroup(1)),
    Step::Refused(1, Ask::RemoveRule(5), Refusal::NoRule),
    Step::Done(1, Ask::AddRule(5, 10)),
    Step::Done(1, Ask::AddRule(3, 20)),
    Step::Refused(1, Ask::AddRule(5, 30), Refusal::RuleExists),
    Step::Done(1, Ask::AddRule(4, 30)),
    Step::Done(1, Ask::RemoveRule(4)),
    Step::Rules(0, (3, 20, 2)),
];

#[test]
fn a_rule_is_added_last_and_goes_by_its_number(rt: HostRuntime) -> Result<(), Wrong> {
    tried(rt.alloc(), &[1], &LAST)
}

/// A group of 1,024 rules, numbered from 0.
const MOST: [Step; 8] = [
    Step::Done(1, Ask::AddLayer(10, 10)),
    Step::Done(1, Ask::AddGroup(1)),
    Step::Done(1, Ask::PutMany(1023, 1023)),
    Step::Refused(1, Ask::PutMany(1024, 1024), Refusal::ManyRules),
    Step::Refused(1, Ask::PutMany(1024, 0), Refusal::RuleExists),
    Step::Refused(1, Ask::AddRule(1024, 10), Refusal::ManyRules),
    Step::Refused(1, Ask::AddRule(7, 10), Refusal::RuleExists),
    Step::Rules(0, (1023, 10, 1024)),
];

#[test]
fn a_group_has_at_most_1024_rules(rt: HostRuntime) -> Result<(), Wrong> {
    tried(rt.alloc(), &[1], &MOST)
}

const ROOM: [Step; 8] = [
    Step::Done(1, Ask::AddLayer(10, 10)),
    Step::Done(1, Ask::AddGroup(1)),
    Step::Done(1, Ask::PutMany(1023, 1023)),
    Step::Refused(1, Ask::AddRule(7, 10), Refusal::RuleExists),
    Step::Done(1, Ask::RemoveRule(7)),
    Step::Done(1, Ask::AddRule(7, 10)),
    Step::Done(1, Ask::PutMany(0, 65_535)),
    Step::Rules(0, (65_535, 10, 1)),
];

#[test]
fn a_full_group_has_room_for_a_rule_that_went_and_for_others(rt: HostRuntime) -> Result<(), Wrong> {
    tried(rt.alloc(), &[1], &ROOM)
}

// Parts for groups 1 and 2 of layer 10: without rules, with two of one number, and with 1,025.
const NONE_1: Given = (10, 1, Rules::None);

const NONE_2: Given = (10, 2, Rules::None);

const TWICE_1: Given = (10, 1, Rules::Two((5, 10), (5, 20)));

const MANY_1: Given = (10, 1, Rules::Many(1024, 1024));

const MANY_2: Given = (10, 2, Rules::Many(1024, 1024));

/// Which of several refusals of parts goes first, before their layers and groups are there, and where all are.
const PARTS: [Step; 26] = [
    Step::Done(1, Ask::PutSame(0, NONE_1)),
    Step::Refused(1, Ask::PutSame(33, TWICE_1), Refusal::NoLayer),
    Step::Done(1, Ask::AddLayer(10, 10)),
    Step::Refused(
        1,
        Ask::PutBoth(NONE_1, (11, 1, Rules::None)),
        Refusal::NoLayer,
    ),
    Step::Refused(1, Ask::PutSame(33, TWICE_1), Refusal::NoGroup),
    Step::Done(1, Ask::AddGroup(1)),
    Step::Refused(1, Ask::PutBoth(TWICE_1, NONE_2), Refusal::NoGroup),
    Step::Done(1, Ask::AddWeb),
    Step::Done(
        1,
        Ask::PutBoth((10, 1, Rules::One(5, 10)), (10, 2, Rules::One(7, 20))),
    ),
    Step::Refused(
        1,
        Ask::PutBoth(NONE_1, (10, 9, Rules::None)),
        Refusal::NoGroup,
    ),
    Step::Refused(1, Ask::PutBoth(MANY_2, TWICE_1), Refusal::RuleExists),
    Step::Refused(1, Ask::PutSame(33, TWICE_1), Refusal::RuleExists),
    Step::Refused(1, Ask::PutBoth(NONE_1, MANY_2), Refusal::ManyRules),
    Step::Refused(1, Ask::PutSame(33, MANY_1), Refusal::ManyRules),
    Step::Refused(1, Ask::PutSame(33, NONE_1), Refusal::ManyParts),
    Step::Refused(1, Ask::PutSame(32, NONE_1), Refusal::PartTwice),
    Step::Refused(1, Ask::PutBoth(NONE_2, NONE_2), Refusal::PartTwice),
    Step::Refused(2, Ask::PutBoth(NONE_1, NONE_2), Refusal::NoLayer),
    // Nothing was changed by these.
    Step::Rules(0, (5, 10, 1)),
    Step::Rules(1, (7, 20, 1)),
    Step::Done(
        1,
        Ask::PutBoth(NONE_2, (10, 1, Rules::Two((6, 10), (5, 30)))),
    ),
    Step::Rules(0, (5, 30, 2)),
    Step::Rules(1, (0, 0, 0)),
    Step::Done(1, Ask::PutSame(1, (10, 1, Rules::Many(1023, 1023)))),
    Step::Rules(0, (1023, 10, 1024)),
    Step::Done(1, Ask::PutSame(0, NONE_1)),
];

/// 32 parts of different groups are put, and 33 aren't.
const GROUPS: [Step; 9] = [
    Step::Done(1, Ask::AddLayer(10, 10)),
    Step::AddGroups(32, 32),
    Step::Done(1, Ask::AddRule(5, 10)),
    Step::Done(1, Ask::AddLayer(11, 11)),
    Step::Refused(
        1,
        Ask::PutGroups(32, 32, (11, 1, Rules::None)),
        Refusal::NoGroup,
    ),
    Step::Refused(1, Ask::PutGroups(32, 32, NONE_1), Refusal::ManyParts),
    Step::Rules(31, (5, 10, 1)),
    Step::Done(1, Ask::PutGroups(32, 31, (10, 1, Rules::One(9, 10)))),
    Step::Rules(31, (9, 10, 1)),
];

#[test]
fn rules_of_several_groups_are_put_at_once_or_not_at_all(rt: HostRuntime) -> Result<(), Wrong> {
    tried(rt.alloc(), &[1, 2], &PARTS)?;
    tried(rt.alloc(), &[1], &GROUPS)
}
