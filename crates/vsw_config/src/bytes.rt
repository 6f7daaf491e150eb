//! The value that bytes are the text of.

ghost use Rattle.serde_json.specs.View.{view};
ghost use Rattle.vsw_config.specs.Fault.{Says, seen};
ghost use Rattle.vsw_config.specs.Bytes.{json_of};

use crate::fault::{Fault, Kind, here};
use serde_json::Value;
use std::alloc::Global;

/// The value that the bytes are the text of, as `serde_json` reads it.
#[tactic(auto, using(crate::proofs::Parsed::json_is, crate::proofs::Parsed::no_json))]
pub fn json(alloc: Global, bytes: &[u8]) -> Result<Value, Fault>
    ensures { Says (seen view result) (json_of bytes.now) }
{
    match Value::from_slice(alloc, bytes) {
        Ok(value) => Ok(value),
        Err(error) if error.is_memory() => Err(Fault::Memory),
        Err(_) => Err(here(alloc, Kind::Json)),
    }
}
