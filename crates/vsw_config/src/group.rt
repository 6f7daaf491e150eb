//! Groups of rules.

ghost use Rattle.std.specs.Prelude.{◌≡◌, ◌==◌};
ghost use Rattle.std.specs.List.{list_any};
ghost use Rattle.vsw_config.specs.Rule.{fresh_group, dir_for, dir_of, group_of, groups_of};

use crate::condition::CondsReader;
use crate::rule::RulesReader;
use crate::{
    Fault, Kind, ReadItem, ReadValue, Word, fresh, here, items_up_to, list, member, object_in,
    short, text,
};
use serde_json::Value;
use std::alloc::Global;
use vsw_base::{Dir, Items};
use vsw_rule::Group;

/// The most groups of a layer.
const MOST_GROUPS: usize = 32;

const GROUP_WORDS: [Word; 4] = [Word::Group, Word::Dir, Word::When, Word::Rules];

fn is_taken(number: u16, groups: &[Group]) -> bool
    ensures { result ≡ list_any (λ g. g.number == number) groups.now }
{
    groups.iter().any(|group| group.number == number)
}

/// Reads a number that none of these groups has.
#[derive(Drop)]
struct NumberReader<'a> {
    done: &'a [Group],
}

impl<'a> ReadValue<u16> for NumberReader<'a> {
    ghost value_of = { λ reader. fresh_group reader.done.now };

    #[tactic(auto, unfolding(crate::specs::Rule::fresh_group))]
    fn value(&self, alloc: Global, value: &Value) -> Result<u16, Fault> {
        let number = short(alloc, value)?;
        fresh(alloc, is_taken(number, self.done), number)
    }
}

fn dir_named(alloc: Global, name: &str) -> Result<Dir, Fault>
    ensures { result ≡ dir_for name.now }
{
    match name {
        "out" => Ok(Dir::Out),
        "in" => Ok(Dir::In),
        _ => Err(here(alloc, Kind::Shape)),
    }
}

/// Reads a direction.
pub struct DirReader;

impl ReadValue<Dir> for DirReader {
    ghost value_of = { λ reader. dir_of };

    fn value(&self, alloc: Global, value: &Value) -> Result<Dir, Fault> {
        let name = text(alloc, value)?;
        dir_named(alloc, name)
    }
}

#[derive(Drop)]
struct GroupReader {
    version: u8,
}

impl ReadItem<Group> for GroupReader {
    ghost item_of = { λ reader. group_of reader.version };

    #[tactic(auto, unfolding(crate::specs::Rule::group_of))]
    fn item(&self, alloc: Global, done: &[Group], value: &Value) -> Result<Group, Fault> {
        let object = object_in(alloc, &GROUP_WORDS, value)?;
        let version = self.version;
        let number = member(alloc, object, Word::Group, &NumberReader { done })?;
        let dir = member(alloc, object, Word::Dir, &DirReader)?;
        let when = member(alloc, object, Word::When, &CondsReader { version })?;
        let rules = member(alloc, object, Word::Rules, &RulesReader { version })?;
        Ok(Group {
            number,
            dir,
            when,
            rules,
        })
    }
}

/// Reads the groups of a layer.
#[derive(Drop)]
pub struct GroupsReader {
    pub version: u8,
}

impl ReadValue<Items<Group>> for GroupsReader {
    ghost value_of = { λ reader. groups_of reader.version };

    #[tactic(auto, unfolding(crate::specs::Rule::groups_of))]
    fn value(&self, alloc: Global, value: &Value) -> Result<Items<Group>, Fault> {
        let version = self.version;
        let values = items_up_to(alloc, MOST_GROUPS, value)?;
        let groups = list(alloc, &GroupReader { version }, values)?;
        Ok(groups)
    }
}
