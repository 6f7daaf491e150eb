//! A trace, read in pieces: its records, in batches of as many as are asked for.
#![tactic(auto)]

mod reading;

pub use reading::{HEADER_LEN, Reading, Stop, begin_reading, fill, peek};
