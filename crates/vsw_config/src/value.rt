//! Numbers, truth values and texts, and their readers.

ghost use Rattle.std.specs.Prelude.{◌≡◌, ◌≤◌, IfOk};
ghost use Rattle.serde_json.specs.View.{view};
ghost use Rattle.vsw_config.specs.Object.{read_in};
ghost use Rattle.vsw_config.specs.Fault.{Says, seen};
ghost use Rattle.vsw_config.specs.Value.{whole_of, number_from, short_of, truth_of, text_of, mac_in, ip4_in, ip6_in};

use crate::fault::{Fault, Kind, Step, here, under_step};
use crate::object::{ReadValue, value_in};
use crate::word::Word;
use serde_json::Value;
use std::alloc::Global;
use vsw_base::{Ip4, Ip6, Mac};

/// A whole number.
pub fn whole(alloc: Global, value: &Value) -> Result<u64, Fault>
    ensures { result ≡ whole_of (view value.now) }
{
    match value.as_u64() {
        Some(number) => Ok(number),
        None => Err(here(alloc, Kind::Shape)),
    }
}

#[tactic(auto, unfolding(crate::specs::Value::number_from))]
fn number(alloc: Global, low: u32, high: u32, value: &Value) -> Result<u32, Fault>
    ensures value { result ≡ number_from low high (view value.now) }
    ensures within { IfOk result (λ n. (low ≤ n) × (n ≤ high)) }
{
    let number = whole(alloc, value)?;
    if u64::from(low) <= number && number <= u64::from(high) {
        u32::try_from(number).map_err(|_| here(alloc, Kind::Shape))
    } else {
        Err(here(alloc, Kind::Shape))
    }
}

/// A member's number from `low` to `high`.
#[tactic(auto, unfolding(crate::specs::Object::read_in))]
pub fn number_in(
    alloc: Global,
    low: u32,
    high: u32,
    object: &Value,
    word: Word,
) -> Result<u32, Fault>
    ensures value { Says result (read_in word (view object.now) (number_from low high)) }
    ensures within { IfOk result (λ n. (low ≤ n) × (n ≤ high)) }
{
    let value = value_in(alloc, object, word)?;
    let number = under_step(Step::Member(word), number(alloc, low, high, value))?;
    Ok(number)
}

/// A number that an author may choose as a name or a place.
#[tactic(auto, unfolding(crate::specs::Value::number_from))]
pub fn short(alloc: Global, value: &Value) -> Result<u16, Fault>
    ensures { result ≡ short_of (view value.now) }
{
    let number = whole(alloc, value)?;
    u16::try_from(number).map_err(|_| here(alloc, Kind::Shape))
}

fn truth(alloc: Global, value: &Value) -> Result<bool, Fault>
    ensures { result ≡ truth_of (view value.now) }
{
    match value.as_bool() {
        Some(truth) => Ok(truth),
        None => Err(here(alloc, Kind::Shape)),
    }
}

/// A text.
pub fn text<'a>(alloc: Global, value: &'a Value) -> Result<&'a str, Fault>
    ensures { seen (λ s. s.now) result ≡ text_of (view value.now) }
{
    match value.as_str() {
        Some(text) => Ok(text),
        None => Err(here(alloc, Kind::Shape)),
    }
}

/// The Ethernet address that a text spells.
pub fn mac(alloc: Global, value: &Value) -> Result<Mac, Fault>
    ensures { result ≡ mac_in (view value.now) }
{
    let text = text(alloc, value)?;
    Mac::read(text.as_bytes()).map_err(|_| here(alloc, Kind::Shape))
}

/// The IPv4 address that a text spells.
pub fn ip4(alloc: Global, value: &Value) -> Result<Ip4, Fault>
    ensures { result ≡ ip4_in (view value.now) }
{
    let text = text(alloc, value)?;
    Ip4::read(text.as_bytes()).map_err(|_| here(alloc, Kind::Shape))
}

/// Reads a number that an author may choose as a name or a place.
pub struct ShortReader;

impl ReadValue<u16> for ShortReader {
    ghost value_of = { λ reader. short_of };

    fn value(&self, alloc: Global, value: &Value) -> Result<u16, Fault> {
        short(alloc, value)
    }
}

/// Reads a truth value.
pub struct TruthReader;

impl ReadValue<bool> for TruthReader {
    ghost value_of = { λ reader. truth_of };

    fn value(&self, alloc: Global, value: &Value) -> Result<bool, Fault> {
        truth(alloc, value)
    }
}

/// Reads the text of an Ethernet address.
pub struct MacReader;

impl ReadValue<Mac> for MacReader {
    ghost value_of = { λ reader. mac_in };

    fn value(&self, alloc: Global, value: &Value) -> Result<Mac, Fault> {
        mac(alloc, value)
    }
}

/// Reads the text of an IPv4 address.
pub struct Ip4Reader;

impl ReadValue<Ip4> for Ip4Reader {
    ghost value_of = { λ reader. ip4_in };

    fn value(&self, alloc: Global, value: &Value) -> Result<Ip4, Fault> {
        ip4(alloc, value)
    }
}

/// Reads the text of an IPv6 address.
pub struct Ip6Reader;

impl ReadValue<Ip6> for Ip6Reader {
    ghost value_of = { λ reader. ip6_in };

    fn value(&self, alloc: Global, value: &Value) -> Result<Ip6, Fault> {
        let text = text(alloc, value)?;
        Ip6::read(text.as_bytes()).map_err(|_| here(alloc, Kind::Shape))
    }
}
