//! Tests of vsw_check, in a crate of their own: with tests of its own, a crate is proved once more.
#![tactic(auto)]

#[cfg(test)]
mod bad_line_tests;
#[cfg(test)]
mod examples;
#[cfg(test)]
mod kind_tests;
#[cfg(test)]
mod read_tests;
#[cfg(test)]
mod reading;
