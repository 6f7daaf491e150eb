//! Lists, and those of anything that is read against the items before it.

ghost use Rattle.std.specs.Prelude.{◌≡◌, ◌==◌, map, List, ℕ, Result, []};
ghost use Rattle.std.specs.List.{list_any};
ghost use Rattle.serde_json.specs.View.{view};
ghost use Rattle.serde_json.specs.Data.{Data};
ghost use Rattle.vsw_config.specs.declared.fault.Fault.{Fault};
ghost use Rattle.vsw_config.specs.Object.{read_in};
ghost use Rattle.vsw_config.specs.Fault.{Says, Grows, seen};
ghost use Rattle.vsw_config.specs.List.{items_in, items_to, items_after, fresh, fresh_number};

use crate::fault::{Fault, Kind, Step, here, under_step};
use crate::object::value_in;
use crate::value::short;
use crate::word::Word;
use serde_json::Value;
use std::alloc::Global;
use vsw_base::Items;

/// The items of a list.
#[tactic(auto, using(crate::proofs::Views::listed_again))]
pub fn items<'a>(alloc: Global, value: &'a Value) -> Result<&'a [Value], Fault>
    ensures { seen (λ vs. map view vs.now) result ≡ items_in (view value.now) }
{
    match value.as_array() {
        Some(values) => Ok(values.as_slice()),
        None => Err(here(alloc, Kind::Shape)),
    }
}

/// The items of a list, so many at most.
#[tactic(auto, unfolding(crate::specs::List::items_to))]
pub fn items_up_to<'a>(alloc: Global, most: usize, value: &'a Value) -> Result<&'a [Value], Fault>
    ensures { seen (λ vs. map view vs.now) result ≡ items_to most (view value.now) }
{
    let values = items(alloc, value)?;
    if values.len() <= most {
        Ok(values)
    } else {
        Err(here(alloc, Kind::Many))
    }
}

/// The items of a member that is a list.
#[tactic(auto, unfolding(crate::specs::Object::read_in))]
pub fn items_in<'a>(alloc: Global, object: &'a Value, word: Word) -> Result<&'a [Value], Fault>
    ensures { Says (seen (λ vs. map view vs.now) result) (read_in word (view object.now) items_in) }
{
    let value = value_in(alloc, object, word)?;
    let values = under_step(Step::Member(word), items(alloc, value))?;
    Ok(values)
}

/// A reader of the items of a list, with what it must know of the rest of the file.
pub trait ReadItem<T> {
    ghost item_of: { Self → List T → Data → Result T Fault };

    /// An item, behind those that were read before it.
    fn item(&self, alloc: Global, done: &[T], value: &Value) -> Result<T, Fault>
        ensures { Says result (item_of self.now done.now (view value.now)) };
}

/// Appends an item.
fn push<T: Drop>(items: &mut Items<T>, item: T) -> Result<(), Fault>
    ensures { Grows result items.old items.new item }
{
    items.push(item).map_err(|_| Fault::Memory)
}

/// The items of a list, in order.
pub fn list<T: Drop, R: ReadItem<T>>(
    alloc: Global,
    reader: &R,
    values: &[Value],
) -> Result<Items<T>, Fault>
    ensures { Says result (items_after (R.ReadItem.item_of reader.now) [] (map view values.now)) }
{
    let mut done = Items::new(alloc);
    for value in values {
        let place = Step::Place(done.len());
        let item = under_step(place, reader.item(alloc, done.as_slice(), value))?;
        push(&mut done, item)?;
    }
    Ok(done)
}

/// The value, unless it stands there already.
pub fn fresh<T: Drop>(alloc: Global, is_taken: bool, value: T) -> Result<T, Fault>
    ensures { result ≡ fresh is_taken value }
{
    if is_taken {
        Err(here(alloc, Kind::Twice))
    } else {
        Ok(value)
    }
}

/// Whether a number is one of these.
pub fn is_number_among(number: u16, numbers: &[u16]) -> bool
    ensures { result ≡ list_any (λ m. m == number) numbers.now }
{
    numbers.iter().any(|each| *each == number)
}

/// Reads numbers of which none stands twice.
#[derive(Clone, Copy)]
pub struct FreshNumbers;

impl ReadItem<u16> for FreshNumbers {
    ghost item_of = { λ reader. fresh_number };

    fn item(&self, alloc: Global, done: &[u16], value: &Value) -> Result<u16, Fault> {
        let number = short(alloc, value)?;
        fresh(alloc, is_number_among(number, done), number)
    }
}
