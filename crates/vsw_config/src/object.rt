//! The members of an object, and those that a reader reads.

ghost use Rattle.std.specs.Prelude.{◌≡◌, string_bytes, Result};
ghost use Rattle.std.specs.List.{list_all};
ghost use Rattle.std.specs.BTreeMap.{keys};
ghost use Rattle.serde_json.specs.View.{view, members_view};
ghost use Rattle.serde_json.specs.Data.{Data};
ghost use Rattle.vsw_config.specs.declared.fault.Fault.{Fault};
ghost use Rattle.vsw_config.specs.Object.{is_among, are_among, has_names_among, object_among, found, read_in, read_if};
ghost use Rattle.vsw_config.specs.Fault.{Says, seen};

use crate::fault::{Fault, Kind, Step, here, under_step};
use crate::word::{Word, is_known};
use serde_json::{Map, Value};
use std::alloc::Global;

fn are_keys_known(words: &[Word], members: &Map<String, Value>) -> bool
    ensures { result ≡ list_all (λ k. is_among words.now (string_bytes k)) (keys members.now) }
{
    members.keys().all(|key| is_known(words, key.as_str()))
}

fn are_members_known(words: &[Word], members: &Map<String, Value>) -> bool
    ensures { result ≡ are_among words.now (members_view members.now.entries) }
{
    are_keys_known(words, members)
}

fn is_object_among(words: &[Word], value: &Value) -> bool
    ensures { result ≡ has_names_among words.now (view value.now) }
{
    match value.as_object() {
        None => false,
        Some(members) => are_members_known(words, members),
    }
}

/// The value itself, if it is an object with no other members than these.
#[tactic(auto, unfolding(crate::specs::Object::object_among))]
pub fn object_in<'a>(alloc: Global, words: &[Word], value: &'a Value) -> Result<&'a Value, Fault>
    ensures { seen (λ v. view v.now) result ≡ object_among words.now (view value.now) }
{
    if is_object_among(words, value) {
        Ok(value)
    } else {
        Err(here(alloc, Kind::Shape))
    }
}

/// The value of an object's member.
pub(crate) fn value_in<'a>(alloc: Global, object: &'a Value, word: Word) -> Result<&'a Value, Fault>
    ensures { seen (λ v. view v.now) result ≡ found word (view object.now) }
{
    match object.get(word.text()) {
        Some(value) => Ok(value),
        None => Err(here(alloc, Kind::Shape)),
    }
}

/// A reader of values, with what it must know of the rest of the file.
pub trait ReadValue<T> {
    ghost value_of: { Self → Data → Result T Fault };

    fn value(&self, alloc: Global, value: &Value) -> Result<T, Fault>
        ensures { Says result (value_of self.now (view value.now)) };
}

/// A member's value, read.
#[tactic(auto, unfolding(crate::specs::Object::read_in))]
pub fn member<T: Drop, R: ReadValue<T>>(
    alloc: Global,
    object: &Value,
    word: Word,
    reader: &R,
) -> Result<T, Fault>
    ensures { Says result (read_in word (view object.now) (R.ReadValue.value_of reader.now)) }
{
    let value = value_in(alloc, object, word)?;
    let read = under_step(Step::Member(word), reader.value(alloc, value))?;
    Ok(read)
}

/// A member's value, read if the member is there.
#[tactic(auto, unfolding(crate::specs::Object::read_if))]
pub fn member_if<T: Drop, R: ReadValue<T>>(
    alloc: Global,
    object: &Value,
    word: Word,
    reader: &R,
) -> Result<Option<T>, Fault>
    ensures { Says result (read_if word (view object.now) (R.ReadValue.value_of reader.now)) }
{
    match object.get(word.text()) {
        None => Ok(None),
        Some(value) => {
            let read = under_step(Step::Member(word), reader.value(alloc, value))?;
            Ok(Some(read))
        }
    }
}
