//! Conditions and their items.

ghost use Rattle.std.specs.Prelude.{◌≡◌, map, []};
ghost use Rattle.serde_json.specs.View.{view};
ghost use Rattle.vsw_config.specs.Fault.{Says};
ghost use Rattle.vsw_config.specs.Field.{form_of};
ghost use Rattle.vsw_config.specs.Condition.{value_of, prefix_in, prefix6_in, single_of, alone_of, range_of, one_or_two, item_of, items_of, cond_of, conds_of};

use crate::field::{FieldReader, Form, form_of};
use crate::{
    Fault, Kind, ReadItem, ReadValue, Step, Word, here, ip4, items, items_up_to, list, mac, member,
    object_in, text, under_step, whole,
};
use serde_json::Value;
use std::alloc::Global;
use vsw_base::{Items, Prefix, Prefix6};
use vsw_rule::{Cond, Item};

/// The most items of a condition.
const MOST_ITEMS: usize = 64;

/// The most conditions of a rule or group.
const MOST_CONDITIONS: usize = 16;

#[tactic(auto, unfolding(crate::specs::Condition::value_of))]
fn number(alloc: Global, form: Form, value: &Value) -> Result<u64, Fault>
    ensures { result ≡ value_of form (view value.now) }
{
    match form {
        Form::Number => whole(alloc, value),
        Form::Mac => {
            let mac = mac(alloc, value)?;
            Ok(mac.number())
        }
        Form::Ip4 => {
            let address = ip4(alloc, value)?;
            Ok(u64::from(address.number()))
        }
        Form::Ip6 => Err(here(alloc, Kind::Shape)),
    }
}

fn prefix(alloc: Global, value: &Value) -> Result<Prefix, Fault>
    ensures { result ≡ prefix_in (view value.now) }
{
    let text = text(alloc, value)?;
    Prefix::read(text.as_bytes()).map_err(|_| here(alloc, Kind::Shape))
}

fn prefix6(alloc: Global, value: &Value) -> Result<Prefix6, Fault>
    ensures { result ≡ prefix6_in (view value.now) }
{
    let text = text(alloc, value)?;
    Prefix6::read(text.as_bytes()).map_err(|_| here(alloc, Kind::Shape))
}

fn single(alloc: Global, form: Form, value: &Value) -> Result<Item, Fault>
    ensures { result ≡ single_of form (view value.now) }
{
    let number = number(alloc, form, value)?;
    Ok(Item::Range {
        low: number,
        high: number,
    })
}

#[tactic(auto, unfolding(crate::specs::Condition::alone_of))]
fn alone(alloc: Global, form: Form, value: &Value) -> Result<Item, Fault>
    ensures { result ≡ alone_of form (view value.now) }
{
    match form {
        Form::Ip4 => {
            let prefix = prefix(alloc, value)?;
            Ok(Item::Prefix(prefix))
        }
        Form::Ip6 => {
            let prefix = prefix6(alloc, value)?;
            Ok(Item::Prefix6(prefix))
        }
        Form::Number => single(alloc, Form::Number, value),
        Form::Mac => single(alloc, Form::Mac, value),
    }
}

#[tactic(auto, unfolding(crate::specs::Condition::range_of))]
fn range(alloc: Global, form: Form, values: &[Value]) -> Result<Item, Fault>
    ensures { Says result (range_of form (map view values.now)) }
{
    let [low, high] = values else {
        return Err(here(alloc, Kind::Shape));
    };
    let low = under_step(Step::Place(0), number(alloc, form, low))?;
    let high = under_step(Step::Place(1), number(alloc, form, high))?;
    Ok(Item::Range { low, high })
}

fn one_or_two(alloc: Global, form: Form, value: &Value) -> Result<Item, Fault>
    ensures { Says result (one_or_two form (view value.now)) }
{
    match items(alloc, value) {
        Ok(values) => {
            let item = range(alloc, form, values)?;
            Ok(item)
        }
        Err(_) => {
            let item = alone(alloc, form, value)?;
            Ok(item)
        }
    }
}

#[tactic(auto, unfolding(crate::specs::Condition::item_of))]
fn item(alloc: Global, form: Form, value: &Value) -> Result<Item, Fault>
    ensures { Says result (item_of form (view value.now)) }
{
    match form {
        Form::Ip6 => {
            let item = alone(alloc, form, value)?;
            Ok(item)
        }
        Form::Number | Form::Mac | Form::Ip4 => one_or_two(alloc, form, value),
    }
}

impl ReadItem<Item> for Form {
    ghost item_of = { λ form done. item_of form };

    fn item(&self, alloc: Global, _done: &[Item], value: &Value) -> Result<Item, Fault> {
        item(alloc, *self, value)
    }
}

/// Reads the items of a condition on a field whose values are written so.
#[derive(Drop)]
struct ItemsReader {
    form: Form,
}

impl ReadValue<Items<Item>> for ItemsReader {
    ghost value_of = { λ reader. items_of reader.form };

    #[tactic(auto, unfolding(crate::specs::Condition::items_of))]
    fn value(&self, alloc: Global, value: &Value) -> Result<Items<Item>, Fault> {
        let values = items_up_to(alloc, MOST_ITEMS, value)?;
        let items = list(alloc, &self.form, values)?;
        Ok(items)
    }
}

#[derive(Drop)]
struct CondReader {
    version: u8,
}

impl ReadItem<Cond> for CondReader {
    ghost item_of = { λ reader done. cond_of reader.version };

    #[tactic(auto, unfolding(crate::specs::Condition::cond_of))]
    fn item(&self, alloc: Global, _done: &[Cond], value: &Value) -> Result<Cond, Fault> {
        let object = object_in(alloc, &[Word::Field, Word::Any], value)?;
        let version = self.version;
        let field = member(alloc, object, Word::Field, &FieldReader { version })?;
        let form = form_of(field);
        let items = member(alloc, object, Word::Any, &ItemsReader { form })?;
        Ok(Cond { field, items })
    }
}

/// Reads the conditions of a rule or group, in a file of this version.
#[derive(Drop)]
pub struct CondsReader {
    pub version: u8,
}

impl ReadValue<Items<Cond>> for CondsReader {
    ghost value_of = { λ reader. conds_of reader.version };

    #[tactic(auto, unfolding(crate::specs::Condition::conds_of))]
    fn value(&self, alloc: Global, value: &Value) -> Result<Items<Cond>, Fault> {
        let version = self.version;
        let values = items_up_to(alloc, MOST_CONDITIONS, value)?;
        let conditions = list(alloc, &CondReader { version }, values)?;
        Ok(conditions)
    }
}
